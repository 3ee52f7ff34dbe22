//! Extensions by items in any order: what is stored afterwards, how many items are read, and what a refusal returns.

use crate::bulk::rows::{Pairs, Read, has_pairs, key_of};
use crate::loads::Key;
use crate::play::Tree;
use rart::{Refused, RouteTable, TreeError};
use rart_test_tools::refusals::{is_swept, refuse, was_refused};
use std::alloc::Global;
use std::cell::Cell;

// Items of a new tree, items that extend it, and its pairs afterwards.
struct Row {
    first: Pairs<'static>,
    more: Pairs<'static>,
    wanted: Pairs<'static>,
}

static ROWS: [Row; 6] = [
    Row {
        first: &[],
        more: &[],
        wanted: &[],
    },
    Row {
        first: &[("b", 1)],
        more: &[],
        wanted: &[("b", 1)],
    },
    Row {
        first: &[],
        more: &[("b", 1), ("a", 2)],
        wanted: &[("a", 2), ("b", 1)],
    },
    Row {
        first: &[("b", 1), ("a", 2), ("b", 3)],
        more: &[("c", 4)],
        wanted: &[("a", 2), ("b", 3), ("c", 4)],
    },
    Row {
        first: &[("ab", 1)],
        more: &[("a", 2), ("ab", 3), ("", 4)],
        wanted: &[("", 4), ("a", 2), ("ab", 3)],
    },
    Row {
        first: &[("a", 1), ("b", 2)],
        more: &[("b", 3), ("b", 4), ("a", 5), ("b", 6)],
        wanted: &[("a", 5), ("b", 6)],
    },
];

// The items, which are counted as they are read.
fn read<'a>(items: Pairs<'static>, count: &'a Cell<usize>) -> Read<'a> {
    Read {
        items,
        at: 0,
        count,
    }
}

fn extends(tree: &mut Tree<Key>, row: &Row) -> bool {
    let more_read = Cell::new(0_usize);
    let extended = tree.extend(read(row.more, &more_read)).is_ok();
    extended && more_read.get() == row.more.len() && has_pairs(tree, row.wanted)
}

fn is_extended(alloc: Global, row: &Row) -> bool {
    let first_read = Cell::new(0_usize);
    match Tree::<Key>::from_pairs(alloc, read(row.first, &first_read)) {
        Ok(mut tree) => extends(&mut tree, row) && first_read.get() == row.first.len(),
        Err(_refused) => false,
    }
}

#[test]
fn items_in_any_order_are_inserted_in_turn(rt: HostRuntime) {
    for row in &ROWS {
        let (first, more) = (row.first.len(), row.more.len());
        assert!(rt; is_extended(rt.alloc(), row), "{first} and {more} items");
    }
}

fn has_routes(table: &RouteTable<Key, u64>, wanted: Pairs<'_>) -> bool {
    for (prefix, target) in wanted {
        if table.get(&key_of(prefix)) != Some(target) {
            return false;
        }
    }
    table.len() == wanted.len()
}

fn extends_routes(table: &mut RouteTable<Key, u64>, row: &Row) -> bool {
    let more_read = Cell::new(0_usize);
    let extended = table.extend(read(row.more, &more_read)).is_ok();
    extended && more_read.get() == row.more.len() && has_routes(table, row.wanted)
}

// Whether a route table gets the pairs of a row, which are looked up.
fn are_routes(alloc: Global, row: &Row) -> bool {
    let first_read = Cell::new(0_usize);
    match RouteTable::<Key, u64>::from_pairs(alloc, read(row.first, &first_read)) {
        Ok(mut table) => extends_routes(&mut table, row) && first_read.get() == row.first.len(),
        Err(_refused) => false,
    }
}

#[test]
fn routes_in_any_order_are_added_or_replaced_in_turn(rt: HostRuntime) {
    for row in &ROWS {
        let (first, more) = (row.first.len(), row.more.len());
        assert!(rt; are_routes(rt.alloc(), row), "{first} and {more} routes");
    }
}

// Different keys in no order, which need several nodes.
const ITEMS: Pairs<'static> = &[
    ("m", 1),
    ("c", 2),
    ("ca", 3),
    ("x", 4),
    ("cat", 5),
    ("cab", 6),
    ("a", 7),
    ("z", 8),
    ("", 9),
    ("y", 10),
];

// Whether an extension that read `read` of the items was refused at the last of them, which it returns.
fn is_refused_at(refused: &Refused<(Key, u64)>, read: usize) -> bool {
    let (key, value) = &refused.value;
    match ITEMS.get(read.wrapping_sub(1)) {
        Some((text, offered)) => {
            refused.error == TreeError::Memory && *key == key_of(text) && value == offered
        }
        None => false,
    }
}

// Whether the tree has the first `many` of the items, and no others.
fn has_items(tree: &Tree<Key>, many: usize) -> bool {
    for (text, value) in &ITEMS[..many.min(ITEMS.len())] {
        if tree.get_k(&key_of(text)) != Some(value) {
            return false;
        }
    }
    tree.len() == many
}

// How many of the items that it read an extension stored: all, or those before the one that it was refused.
fn stored(extended: &Result<(), Refused<(Key, u64)>>, was: bool, read: usize) -> Option<usize> {
    match extended {
        Ok(()) => (!was).then_some(ITEMS.len()),
        Err(refused) => { (was && is_refused_at(refused, read)).then_some(read.wrapping_sub(1)) }
    }
}

// An extension with the request of this number refused, and whether one was; None where something else failed.
fn extension_is_refused_well(alloc: Global, tree: &mut Tree<Key>, at: usize) -> Option<bool> {
    let count = Cell::new(0_usize);
    refuse(alloc, at);
    let result = tree.extend(read(ITEMS, &count));
    let was = was_refused(alloc);
    let many = stored(&result, was, count.get())?;
    has_items(tree, many).then_some(was)
}

fn extend_refused(alloc: Global, at: usize) -> Option<bool> {
    let mut tree = Tree::<Key>::new(alloc);
    extension_is_refused_well(alloc, &mut tree, at)
}

fn is_made_well(made: &Result<Tree<Key>, Refused<(Key, u64)>>, was: bool, read: usize) -> bool {
    match made {
        Ok(tree) => !was && has_items(tree, ITEMS.len()),
        Err(refused) => was && is_refused_at(refused, read),
    }
}

// A new tree from the pairs, with a request refused.
fn from_pairs_refused(alloc: Global, at: usize) -> Option<bool> {
    let count = Cell::new(0_usize);
    refuse(alloc, at);
    let made = Tree::<Key>::from_pairs(alloc, read(ITEMS, &count));
    let was = was_refused(alloc);
    is_made_well(&made, was, count.get()).then_some(was)
}

#[test]
fn extensions_refused_in_turn_keep_the_items_before_and_return_the_next(rt: HostRuntime) {
    let alloc = rt.alloc();
    assert!(rt; is_swept(alloc, |at| extend_refused(alloc, at)));
    assert!(rt; is_swept(alloc, |at| from_pairs_refused(alloc, at)));
}
