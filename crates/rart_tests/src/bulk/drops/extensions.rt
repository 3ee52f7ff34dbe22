//! Extensions by values that count their drops: a value that a later one of its key replaces is dropped once, and a
//! refused extension drops the items after the one that it returns.

use crate::bulk::drops::{Tree, holds, items};
use crate::loads::Key;
use rart::Refused;
use rart_test_tools::counted::Counted;
use rart_test_tools::refusals::{is_swept, refuse, was_refused};
use std::alloc::{AllocError, Global};
use std::cell::Cell;
use std::test::Fail;

/// The keys of the items of a new tree, and of those that extend it. The values are numbered through both.
struct Row {
    first: &'static [&'static str],
    more: &'static [&'static str],
    /// How many values are dropped once the tree is made, and how many once it is extended.
    early: usize,
    dropped: usize,
    /// The pairs of the extended tree.
    stored: &'static [(&'static str, u8)],
}

static ROWS: [Row; 5] = [
    Row {
        first: &[],
        more: &[],
        early: 0,
        dropped: 0,
        stored: &[],
    },
    Row {
        first: &["a", "a", "a"],
        more: &[],
        early: 2,
        dropped: 2,
        stored: &[("a", 2)],
    },
    Row {
        first: &["b", "a", "b"],
        more: &["c"],
        early: 1,
        dropped: 1,
        stored: &[("a", 1), ("b", 2), ("c", 3)],
    },
    Row {
        first: &["ab"],
        more: &["a", "ab", ""],
        early: 0,
        dropped: 1,
        stored: &[("", 3), ("a", 1), ("ab", 2)],
    },
    Row {
        first: &["a", "b"],
        more: &["b", "b", "a", "b"],
        early: 0,
        dropped: 4,
        stored: &[("a", 4), ("b", 5)],
    },
];

type Items<'a> = Vec<(Key, Counted<'a>)>;

fn extends<'a>(tree: &mut Tree<'a>, more: Items<'a>, row: &Row, drops: &Cell<usize>) -> bool {
    let early = drops.get();
    let done = tree.extend(more).is_ok();
    done && early == row.early && drops.get() == row.dropped && holds(tree, row.stored)
}

fn is_extended<'a>(
    alloc: Global,
    first: Items<'a>,
    more: Items<'a>,
    row: &Row,
    drops: &Cell<usize>,
) -> bool {
    match Tree::from_pairs(alloc, first) {
        Ok(mut tree) => extends(&mut tree, more, row, drops),
        Err(_refused) => false,
    }
}

fn row_holds(alloc: Global, row: &Row) -> Result<bool, AllocError> {
    let drops = Cell::new(0_usize);
    let first = items(alloc, row.first, 0, &drops)?;
    let next = (row.first.len() % 256) as u8;
    let more = items(alloc, row.more, next, &drops)?;
    let made = row.first.len().wrapping_add(row.more.len());
    Ok(is_extended(alloc, first, more, row, &drops) && drops.get() == made)
}

#[test]
fn a_value_that_an_extension_replaces_is_dropped_once(rt: HostRuntime) -> Result<(), Fail> {
    let mut number = 0_usize;
    for row in &ROWS {
        assert!(rt; row_holds(rt.alloc(), row)?, "row {number}");
        number = number.wrapping_add(1);
    }
    Ok(())
}

// Different keys in no order, which need several nodes.
static KEYS: [&str; 10] = ["m", "c", "ca", "x", "cat", "cab", "a", "z", "", "y"];

// Whether an extension that stored `stored` values stored all, or was refused the next one, which the error holds, and
// dropped those after it.
fn is_whole(
    extended: Result<(), Refused<(Key, Counted<'_>)>>,
    was: bool,
    stored: usize,
    drops: &Cell<usize>,
) -> bool {
    let early = drops.get();
    match extended {
        Ok(()) => !was && stored == KEYS.len() && early == 0,
        Err(refused) => {
            let (_key, value) = &refused.value;
            was && usize::from(value.0) == stored
                && early.wrapping_add(stored).wrapping_add(1) == KEYS.len()
        }
    }
}

fn extension_is_whole<'a>(
    alloc: Global,
    at: usize,
    tree: &mut Tree<'a>,
    items: Items<'a>,
    drops: &Cell<usize>,
) -> Option<bool> {
    refuse(alloc, at);
    let extended = tree.extend(items);
    let was = was_refused(alloc);
    is_whole(extended, was, tree.len(), drops).then_some(was)
}

// Whether a request of an extension was refused; `None` where something else failed.
fn extend_refused(alloc: Global, at: usize) -> Option<bool> {
    let drops = Cell::new(0_usize);
    let items = items(alloc, &KEYS, 0, &drops).ok()?;
    let mut tree = Tree::new(alloc);
    let refused = extension_is_whole(alloc, at, &mut tree, items, &drops);
    drop(tree);
    if drops.get() == KEYS.len() {
        refused
    } else {
        None
    }
}

// Whether a new tree has all values, or all but the one that the error holds are dropped.
fn is_made_whole(
    made: Result<Tree<'_>, Refused<(Key, Counted<'_>)>>,
    was: bool,
    drops: &Cell<usize>,
) -> bool {
    let early = drops.get();
    match made {
        Ok(tree) => !was && tree.len() == KEYS.len() && early == 0,
        Err(_refused) => was && early.wrapping_add(1) == KEYS.len(),
    }
}

// A new tree from the pairs, with a request refused.
fn from_pairs_refused(alloc: Global, at: usize) -> Option<bool> {
    let drops = Cell::new(0_usize);
    let items = items(alloc, &KEYS, 0, &drops).ok()?;
    refuse(alloc, at);
    let made = Tree::from_pairs(alloc, items);
    let was = was_refused(alloc);
    let is_right = is_made_whole(made, was, &drops);
    (is_right && drops.get() == KEYS.len()).then_some(was)
}

#[test]
fn extensions_refused_in_turn_drop_each_value_once(rt: HostRuntime) {
    let alloc = rt.alloc();
    assert!(rt; is_swept(alloc, |at| extend_refused(alloc, at)));
    assert!(rt; is_swept(alloc, |at| from_pairs_refused(alloc, at)));
}
