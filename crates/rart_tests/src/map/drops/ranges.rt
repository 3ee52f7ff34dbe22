//! Pairs within bounds or below a prefix, taken, removed or rejected, of values that count their drops.

use crate::map::drops::Tree;
use crate::map::drops::prefixes::{KEYS, filled_with_keys};
use rart_test_tools::counted::Counted;
use rart_test_tools::refusals::{is_swept, refuse, was_refused};
use std::alloc::Global;
use std::cell::Cell;
use std::ops::Bound;

#[derive(Clone, Copy)]
enum Call {
    Take,
    /// With the start alone.
    Split,
    Remove,
    /// Every pair is rejected.
    RetainBetween,
    /// The same below the start.
    RetainBelow,
}

/// A call with bounds.
struct Row {
    call: Call,
    start: Bound<&'static str>,
    end: Bound<&'static str>,
    /// How many values the call drops, and how many are dropped with the tree that it returns.
    dropped: usize,
    returned: usize,
}

// The keys are "a", "ab", "abc", "abd", "b", "bcd" and "bce".
static ROWS: [Row; 14] = [
    Row {
        call: Call::Take,
        start: Bound::Unbounded,
        end: Bound::Unbounded,
        dropped: 0,
        returned: 7,
    },
    // the value of a node whose children are on both sides
    Row {
        call: Call::Take,
        start: Bound::Included("ab"),
        end: Bound::Included("abc"),
        dropped: 0,
        returned: 2,
    },
    Row {
        call: Call::Take,
        start: Bound::Included("ab"),
        end: Bound::Excluded("b"),
        dropped: 0,
        returned: 3,
    },
    Row {
        call: Call::Take,
        start: Bound::Excluded("a"),
        end: Bound::Excluded("bce"),
        dropped: 0,
        returned: 5,
    },
    Row {
        call: Call::Take,
        start: Bound::Included("x"),
        end: Bound::Unbounded,
        dropped: 0,
        returned: 0,
    },
    Row {
        call: Call::Split,
        start: Bound::Included("abd"),
        end: Bound::Unbounded,
        dropped: 0,
        returned: 4,
    },
    Row {
        call: Call::Split,
        start: Bound::Included(""),
        end: Bound::Unbounded,
        dropped: 0,
        returned: 7,
    },
    Row {
        call: Call::Remove,
        start: Bound::Unbounded,
        end: Bound::Unbounded,
        dropped: 7,
        returned: 0,
    },
    Row {
        call: Call::Remove,
        start: Bound::Included("ab"),
        end: Bound::Included("abc"),
        dropped: 2,
        returned: 0,
    },
    Row {
        call: Call::Remove,
        start: Bound::Included("b"),
        end: Bound::Included("a"),
        dropped: 0,
        returned: 0,
    },
    Row {
        call: Call::RetainBetween,
        start: Bound::Unbounded,
        end: Bound::Unbounded,
        dropped: 7,
        returned: 0,
    },
    Row {
        call: Call::RetainBetween,
        start: Bound::Included("ab"),
        end: Bound::Included("b"),
        dropped: 4,
        returned: 0,
    },
    Row {
        call: Call::RetainBelow,
        start: Bound::Included("ab"),
        end: Bound::Unbounded,
        dropped: 3,
        returned: 0,
    },
    Row {
        call: Call::RetainBelow,
        start: Bound::Included(""),
        end: Bound::Unbounded,
        dropped: 7,
        returned: 0,
    },
];

fn bytes_in(bound: Bound<&'static str>) -> Bound<&'static [u8]> {
    match bound {
        Bound::Unbounded => Bound::Unbounded,
        Bound::Included(text) => Bound::Included(text.as_bytes()),
        Bound::Excluded(text) => Bound::Excluded(text.as_bytes()),
    }
}

// The start as a key or a prefix.
fn start_of(row: &Row) -> &'static [u8] {
    match row.start {
        Bound::Unbounded => b"",
        Bound::Included(text) | Bound::Excluded(text) => text.as_bytes(),
    }
}

fn rejects(_key: &[u8], _value: &mut Counted<'_>) -> bool {
    false
}

// The tree that the call returns, if it returns one. `None` where it fails or the count of a removal is wrong.
fn part_of<'a>(tree: &mut Tree<'a>, row: &Row) -> Option<Option<Tree<'a>>> {
    let (start, end) = (bytes_in(row.start), bytes_in(row.end));
    match row.call {
        Call::Take => tree.take_range_bytes(start, end).ok().map(Some),
        Call::Split => tree.split_off_bytes(start_of(row)).ok().map(Some),
        Call::Remove => match tree.remove_range_bytes(start, end) {
            Ok(count) if count == row.dropped => Some(None),
            _ => None,
        },
        Call::RetainBetween => match tree.range_retain_bytes(start, end, rejects) {
            Ok(()) => Some(None),
            Err(_refused) => None,
        },
        Call::RetainBelow => match tree.prefix_retain_bytes(start_of(row), rejects) {
            Ok(()) => Some(None),
            Err(_refused) => None,
        },
    }
}

// Whether the call and the drop of what it returns drop as many values as the row says.
fn drops_well<'a>(tree: &mut Tree<'a>, row: &Row, drops: &'a Cell<usize>) -> bool {
    let part = part_of(tree, row);
    let done = part.is_some();
    let early = drops.get();
    drop(part);
    done && early == row.dropped && drops.get() == row.dropped.wrapping_add(row.returned)
}

fn row_holds(alloc: Global, row: &Row) -> bool {
    let drops = Cell::new(0_usize);
    let mut tree = filled_with_keys(alloc, &drops);
    let is_right = drops_well(&mut tree, row, &drops);
    drop(tree);
    is_right && drops.get() == KEYS.len()
}

#[test]
fn values_of_a_part_are_dropped_once(rt: HostRuntime) {
    let mut number = 0_usize;
    for row in &ROWS {
        assert!(rt; row_holds(rt.alloc(), row), "row {number}");
        number = number.wrapping_add(1);
    }
}

// A removal of three pairs of two nodes, with a request refused: nothing is dropped.
fn removal_refused(alloc: Global, at: usize) -> Option<bool> {
    let drops = Cell::new(0_usize);
    let mut tree = filled_with_keys(alloc, &drops);
    refuse(alloc, at);
    let removed = tree.remove_range_bytes(Bound::Included(b"abd"), Bound::Included(b"bcd"));
    let refused = was_refused(alloc);
    let dropped = drops.get();
    drop(tree);
    let is_right = match removed {
        Ok(count) => !refused && count == 3 && dropped == 3,
        Err(_refused) => refused && dropped == 0,
    };
    if is_right && drops.get() == KEYS.len() {
        Some(refused)
    } else {
        None
    }
}

#[test]
fn a_removal_within_bounds_refused_in_turn_drops_nothing(rt: HostRuntime) {
    let alloc = rt.alloc();
    assert!(rt; is_swept(alloc, |at| removal_refused(alloc, at)));
}
