//! Targets that count their drops, through the calls of a table of IPv4 networks: each is dropped once.

use rart_cidr::{Cidr4, CidrTable4};
use rart_test_tools::counted::Counted;
use rart_test_tools::refusals::{is_swept, refuse, was_refused};
use std::alloc::Global;
use std::cell::Cell;
use std::str::FromStr;

type Table<'a> = CidrTable4<Counted<'a>>;

#[derive(Clone, Copy)]
enum Call {
    /// Inserts a target of this number.
    Insert(u8),
    Remove,
    Clear,
}

#[derive(Clone, Copy)]
struct Row {
    call: Call,
    net: &'static str,
    /// The number of the target that the call returns, which is then dropped.
    returned: Option<u8>,
    /// The number of the target that is then stored at the network.
    stored: Option<u8>,
    /// How many targets are made, and how many are dropped.
    made: usize,
    dropped: usize,
}

static ROWS: [Row; 22] = [
    // the first target of a stride is stored without a tree
    Row {
        call: Call::Insert(1),
        net: "10.0.0.0/8",
        returned: None,
        stored: Some(1),
        made: 1,
        dropped: 0,
    },
    Row {
        call: Call::Insert(2),
        net: "10.0.0.0/8",
        returned: Some(1),
        stored: Some(2),
        made: 1,
        dropped: 1,
    },
    // the second needs a tree, whose node grows at the fifth
    Row {
        call: Call::Insert(3),
        net: "10.0.0.0/9",
        returned: None,
        stored: Some(3),
        made: 1,
        dropped: 0,
    },
    Row {
        call: Call::Insert(4),
        net: "10.128.0.0/9",
        returned: None,
        stored: Some(4),
        made: 1,
        dropped: 0,
    },
    Row {
        call: Call::Insert(5),
        net: "10.0.0.0/10",
        returned: None,
        stored: Some(5),
        made: 1,
        dropped: 0,
    },
    Row {
        call: Call::Insert(6),
        net: "10.64.0.0/10",
        returned: None,
        stored: Some(6),
        made: 1,
        dropped: 0,
    },
    Row {
        call: Call::Insert(7),
        net: "10.0.0.0/10",
        returned: Some(5),
        stored: Some(7),
        made: 1,
        dropped: 1,
    },
    Row {
        call: Call::Remove,
        net: "10.0.0.0/10",
        returned: Some(7),
        stored: None,
        made: 0,
        dropped: 1,
    },
    Row {
        call: Call::Remove,
        net: "10.0.0.0/10",
        returned: None,
        stored: None,
        made: 0,
        dropped: 0,
    },
    // no stride is stored there
    Row {
        call: Call::Remove,
        net: "11.0.0.0/8",
        returned: None,
        stored: None,
        made: 0,
        dropped: 0,
    },
    // the node of the map of strides grows at the fifth stride
    Row {
        call: Call::Insert(8),
        net: "11.0.0.0/8",
        returned: None,
        stored: Some(8),
        made: 1,
        dropped: 0,
    },
    Row {
        call: Call::Insert(9),
        net: "12.0.0.0/8",
        returned: None,
        stored: Some(9),
        made: 1,
        dropped: 0,
    },
    Row {
        call: Call::Insert(10),
        net: "13.0.0.0/8",
        returned: None,
        stored: Some(10),
        made: 1,
        dropped: 0,
    },
    Row {
        call: Call::Insert(11),
        net: "14.0.0.0/8",
        returned: None,
        stored: Some(11),
        made: 1,
        dropped: 0,
    },
    Row {
        call: Call::Insert(12),
        net: "14.128.0.0/9",
        returned: None,
        stored: Some(12),
        made: 1,
        dropped: 0,
    },
    // the only target of a stride is removed with the stride, with a tree or without one
    Row {
        call: Call::Remove,
        net: "11.0.0.0/8",
        returned: Some(8),
        stored: None,
        made: 0,
        dropped: 1,
    },
    Row {
        call: Call::Remove,
        net: "14.0.0.0/8",
        returned: Some(11),
        stored: None,
        made: 0,
        dropped: 1,
    },
    Row {
        call: Call::Remove,
        net: "14.128.0.0/9",
        returned: Some(12),
        stored: None,
        made: 0,
        dropped: 1,
    },
    Row {
        call: Call::Clear,
        net: "10.0.0.0/8",
        returned: None,
        stored: None,
        made: 0,
        dropped: 6,
    },
    // these are dropped with the table
    Row {
        call: Call::Insert(13),
        net: "10.0.0.0/8",
        returned: None,
        stored: Some(13),
        made: 1,
        dropped: 0,
    },
    Row {
        call: Call::Insert(14),
        net: "10.1.0.0/16",
        returned: None,
        stored: Some(14),
        made: 1,
        dropped: 0,
    },
    Row {
        call: Call::Insert(15),
        net: "10.1.0.0/17",
        returned: None,
        stored: Some(15),
        made: 1,
        dropped: 0,
    },
];

// The number of the target, which is dropped.
fn number_of(target: Option<Counted<'_>>) -> Option<u8> {
    target.map(|target| target.0)
}

// The number of the target that the call returns; None if it fails.
fn called<'a>(
    table: &mut Table<'a>,
    net: &Cidr4,
    call: Call,
    drops: &'a Cell<usize>,
) -> Option<Option<u8>> {
    match call {
        Call::Insert(number) => match table.insert(net, Counted(number, drops)) {
            Ok(old) => Some(number_of(old)),
            Err(_) => None,
        },
        Call::Remove => match table.remove(net) {
            Ok(old) => Some(number_of(old)),
            Err(_) => None,
        },
        Call::Clear => {
            table.clear();
            Some(None)
        }
    }
}

fn row_holds<'a>(table: &mut Table<'a>, row: &Row, drops: &'a Cell<usize>) -> bool {
    let before = drops.get();
    match Cidr4::from_str(row.net) {
        Ok(net) => {
            called(table, &net, row.call, drops) == Some(row.returned)
                && table.get(&net).map(|target| target.0) == row.stored
                && drops.get() == before.wrapping_add(row.dropped)
        }
        Err(_) => false,
    }
}

// The first row that fails, if one does.
fn first_wrong_of<'a>(
    table: &mut Table<'a>,
    rows: &[Row],
    drops: &'a Cell<usize>,
) -> Option<usize> {
    let mut at = 0_usize;
    for row in rows {
        if !row_holds(table, row, drops) {
            return Some(at);
        }
        at = at.wrapping_add(1);
    }
    None
}

// How many targets the rows make.
fn count_made(rows: &[Row]) -> usize {
    let mut made = 0_usize;
    for row in rows {
        made = made.wrapping_add(row.made);
    }
    made
}

// The first row that fails on an empty table, if one does; one past the last where not all targets are dropped with the
// table.
fn first_wrong(alloc: Global, rows: &[Row]) -> Option<usize> {
    let drops = Cell::new(0_usize);
    let mut table = Table::new(alloc);
    let wrong = first_wrong_of(&mut table, rows, &drops);
    drop(table);
    if wrong.is_none() && drops.get() != count_made(rows) {
        return Some(rows.len());
    }
    wrong
}

#[test]
fn a_table_of_networks_drops_each_target_once(rt: HostRuntime) {
    assert_eq!(rt; first_wrong(rt.alloc(), &ROWS), None);
}

// Makes the calls of the rows, whatever they return.
fn play<'a>(table: &mut Table<'a>, rows: &[Row], drops: &'a Cell<usize>) {
    for row in rows {
        if let Ok(net) = Cidr4::from_str(row.net) {
            let _answer = called(table, &net, row.call, drops);
        }
    }
}

// Makes the calls with the request of this number refused. Returns whether one was, None where not all targets are then
// dropped with the table.
fn refused_once(alloc: Global, at: usize) -> Option<bool> {
    let drops = Cell::new(0_usize);
    let mut table = Table::new(alloc);
    refuse(alloc, at);
    play(&mut table, &ROWS, &drops);
    let was = was_refused(alloc);
    drop(table);
    (drops.get() == count_made(&ROWS)).then_some(was)
}

#[test]
fn edits_refused_in_turn_drop_each_target_once(rt: HostRuntime) {
    let alloc = rt.alloc();
    assert!(rt; is_swept(alloc, |at| refused_once(alloc, at)));
}
