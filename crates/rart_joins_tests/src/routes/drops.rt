//! Targets that count their drops: a table that is cleared or dropped drops each once.

use super::{Key, key};
use rart::RouteTable;
use rart_test_tools::counted::Counted;
use std::cell::Cell;

type Table<'a> = RouteTable<Key, Counted<'a>>;

// Adds four routes; none of their targets is dropped.
fn adds_four<'a>(table: &mut Table<'a>, drops: &'a Cell<usize>) -> bool {
    for prefix in ["/", "/api", "/api/v1", "/b"] {
        if table.add_new(&key(prefix), Counted(0, drops)).is_err() {
            return false;
        }
    }
    drops.get() == 0
}

fn clears_four<'a>(table: &mut Table<'a>, drops: &'a Cell<usize>) -> bool {
    table.clear();
    drops.get() == 4 && table.is_empty()
}

#[test]
fn a_cleared_table_drops_each_target_once(rt: HostRuntime) {
    let drops = Cell::new(0_usize);
    let mut table = Table::new(rt.alloc());
    let well = adds_four(&mut table, &drops) && clears_four(&mut table, &drops);
    drop(table);
    assert!(rt; well && drops.get() == 4);
}

#[test]
fn a_dropped_table_drops_each_target_once(rt: HostRuntime) {
    let drops = Cell::new(0_usize);
    let mut table = Table::new(rt.alloc());
    let well = adds_four(&mut table, &drops);
    drop(table);
    assert!(rt; well && drops.get() == 4);
}
