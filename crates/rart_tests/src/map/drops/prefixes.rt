//! Pairs below a prefix, taken or removed, of values that count their drops.

use crate::map::drops::{Tree, filled, key};
use rart::{ArrayKey, KeyTrait, TreeError};
use rart_test_tools::counted::Counted;
use rart_test_tools::refusals::{is_swept, refuse, was_refused};
use std::alloc::Global;
use std::cell::Cell;

/// The keys of each row's tree, one value for each.
pub static KEYS: [&str; 7] = ["a", "ab", "abc", "abd", "b", "bcd", "bce"];

#[derive(Clone, Copy)]
enum Call {
    Take,
    Remove,
}

/// A call with a prefix.
struct Row {
    call: Call,
    prefix: &'static str,
    /// How many values the call drops, and how many are dropped with the tree that it returns.
    dropped: usize,
    returned: usize,
}

static ROWS: [Row; 12] = [
    Row {
        call: Call::Take,
        prefix: "",
        dropped: 0,
        returned: 7,
    },
    Row {
        call: Call::Remove,
        prefix: "",
        dropped: 7,
        returned: 0,
    },
    Row {
        call: Call::Take,
        prefix: "ab",
        dropped: 0,
        returned: 3,
    },
    Row {
        call: Call::Remove,
        prefix: "ab",
        dropped: 3,
        returned: 0,
    },
    Row {
        call: Call::Take,
        prefix: "abc",
        dropped: 0,
        returned: 1,
    },
    Row {
        call: Call::Remove,
        prefix: "abc",
        dropped: 1,
        returned: 0,
    },
    // the prefix is no key
    Row {
        call: Call::Take,
        prefix: "bc",
        dropped: 0,
        returned: 2,
    },
    Row {
        call: Call::Remove,
        prefix: "bc",
        dropped: 2,
        returned: 0,
    },
    // no key begins with it
    Row {
        call: Call::Take,
        prefix: "x",
        dropped: 0,
        returned: 0,
    },
    Row {
        call: Call::Remove,
        prefix: "x",
        dropped: 0,
        returned: 0,
    },
    Row {
        call: Call::Take,
        prefix: "abcd",
        dropped: 0,
        returned: 0,
    },
    Row {
        call: Call::Remove,
        prefix: "abcd",
        dropped: 0,
        returned: 0,
    },
];

// The key of a text of at most 4 bytes.
fn key_of(text: &str) -> ArrayKey<4> {
    let bytes = text.as_bytes();
    ArrayKey::new_from_slice(&bytes[..bytes.len().min(4)])
}

/// A tree of these keys.
pub fn filled_with_keys<'a>(alloc: Global, drops: &'a Cell<usize>) -> Tree<'a> {
    let mut tree = Tree::new(alloc);
    for text in &KEYS {
        let _old = tree.insert(key_of(text), Counted(0, drops));
    }
    tree
}

// The tree that the call returns, if it returns one. `None` where it fails or the count of a removal is wrong.
fn part_of<'a>(tree: &mut Tree<'a>, row: &Row) -> Option<Option<Tree<'a>>> {
    let prefix = key_of(row.prefix);
    match row.call {
        Call::Take => tree.take_prefix_k(&prefix).ok().map(Some),
        Call::Remove => match tree.remove_prefix_k(&prefix) {
            Ok(count) if count == row.dropped => Some(None),
            _ => None,
        },
    }
}

// Whether the call and the drop of what it returns drop as many values as the row says.
fn drops_well<'a>(tree: &mut Tree<'a>, row: &Row, drops: &'a Cell<usize>) -> bool {
    let part = part_of(tree, row);
    let done = part.is_some();
    let early = drops.get();
    drop(part);
    done && early == row.dropped && drops.get() == row.dropped.wrapping_add(row.returned)
}

fn row_holds(alloc: Global, row: &Row) -> bool {
    let drops = Cell::new(0_usize);
    let mut tree = filled_with_keys(alloc, &drops);
    let is_right = drops_well(&mut tree, row, &drops);
    drop(tree);
    is_right && drops.get() == KEYS.len()
}

#[test]
fn taken_and_removed_values_are_dropped_once(rt: HostRuntime) {
    let mut number = 0_usize;
    for row in &ROWS {
        assert!(rt; row_holds(rt.alloc(), row), "row {number}");
        number = number.wrapping_add(1);
    }
}

// A removal of one pair that makes the node shrink, with its request refused: nothing is dropped.
fn removal_is_refused_well(
    alloc: Global,
    at: usize,
    tree: &mut Tree<'_>,
    drops: &Cell<usize>,
) -> Option<bool> {
    refuse(alloc, at);
    let removed = tree.remove_prefix_k(&key(2));
    let refused = was_refused(alloc);
    let is_right = match removed {
        Ok(count) => !refused && count == 1 && drops.get() == 1,
        Err(error) => refused && error == TreeError::Memory && drops.get() == 0,
    };
    is_right.then_some(refused)
}

fn removal_refused(alloc: Global, at: usize) -> Option<bool> {
    let drops = Cell::new(0_usize);
    let mut tree = filled::<4>(alloc, &drops, 5);
    let refused = removal_is_refused_well(alloc, at, &mut tree, &drops);
    drop(tree);
    if drops.get() == 5 { refused } else { None }
}

#[test]
fn a_removal_by_prefix_refused_in_turn_drops_nothing(rt: HostRuntime) {
    let alloc = rt.alloc();
    assert!(rt; is_swept(alloc, |at| removal_refused(alloc, at)));
}
