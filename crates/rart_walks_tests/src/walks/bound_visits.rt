//! Counts and walks between bounds of any length: how many pairs they give, and how many nodes they visit.

use rart::{LendingKeyView, VisitControl, VisitError};
use rart_test_trees::tally::Tally;
use rart_test_trees::texts::{Pair, Tree, filled};
use std::cell::Cell;
use std::ops::Bound;
use std::panic::Expect;

// "car" and "cat" meet at a node without a value.
static PAIRS: [Pair; 6] = [
    ("a", 1),
    ("ab", 2),
    ("abc", 3),
    ("b", 4),
    ("car", 5),
    ("cat", 6),
];

// The text of a bound, and whether it is included. No text is no bound.
type Edge = Option<(&'static str, bool)>;

// The start, the end, the number of pairs, and the nodes visited by the count, the walk, the walk back, and the views.
type Row = (Edge, Edge, usize, [usize; 4]);

static ROWS: [Row; 10] = [
    (None, None, 6, [8, 8, 8, 8]),
    (Some(("ab", true)), None, 5, [8, 8, 8, 8]),
    (Some(("ab", false)), Some(("car", false)), 2, [7, 7, 7, 7]),
    (None, Some(("abc", true)), 3, [4, 5, 4, 5]),
    (
        Some(("abc then more than any key has", true)),
        None,
        3,
        [8, 8, 8, 8],
    ),
    (
        None,
        Some(("cast, which more bytes than any key follow", false)),
        5,
        [7, 8, 7, 8],
    ),
    (Some(("cb", true)), Some(("a", true)), 0, [1, 2, 2, 2]),
    (Some(("b", false)), Some(("b", true)), 0, [2, 4, 2, 4]),
    (Some(("b", true)), Some(("b", true)), 1, [2, 4, 5, 4]),
    (Some(("z", true)), None, 0, [1, 1, 3, 1]),
];

// A number of pairs and of visits.
type Seen = (usize, usize);

fn bound_of(edge: Edge) -> Bound<&'static [u8]> {
    match edge {
        None => Bound::Unbounded,
        Some((text, true)) => Bound::Included(text.as_bytes()),
        Some((text, false)) => Bound::Excluded(text.as_bytes()),
    }
}

fn counted(tree: &Tree, start: Bound<&[u8]>, end: Bound<&[u8]>) -> Seen {
    tree.len();
    let mut tally = Tally::new();
    let pairs = tree
        .seen()
        .count_range_bytes_counted(start, end, &mut tally);
    (pairs, tally.number)
}

fn walked(tree: &Tree, start: Bound<&[u8]>, end: Bound<&[u8]>) -> Option<Seen> {
    let mut tally = Tally::new();
    let Ok(mut walk) = tree.seen().range_bytes_counted(start, end, &mut tally) else {
        return None;
    };
    for pairs in 0..=PAIRS.len() {
        if walk.next_counted(&mut tally).is_none() {
            return Some((pairs, tally.number));
        }
    }
    None
}

fn walked_back(tree: &Tree, start: Bound<&[u8]>, end: Bound<&[u8]>) -> Option<Seen> {
    let mut tally = Tally::new();
    let Ok(mut walk) = tree
        .seen()
        .range_descending_bytes_counted(start, end, &mut tally)
    else {
        return None;
    };
    for pairs in 0..=PAIRS.len() {
        if walk.next_counted(&mut tally).is_none() {
            return Some((pairs, tally.number));
        }
    }
    None
}

fn viewed(tree: &Tree, start: Bound<&[u8]>, end: Bound<&[u8]>, is_lent: bool) -> Option<Seen> {
    let pairs = Cell::new(0_usize);
    let mut f = |_view: LendingKeyView<'_, '_>, _value: &u64| {
        pairs.set(pairs.get().wrapping_add(1));
    };
    let mut tally = Tally::new();
    let seen = tree.seen();
    let done = if is_lent {
        seen.for_each_range_view_by_ref_bytes_counted(start, end, &mut f, &mut tally)
    } else {
        seen.for_each_range_view_bytes_counted(start, end, f, &mut tally)
    };
    if done.is_err() {
        return None;
    }
    Some((pairs.get(), tally.number))
}

fn tried(tree: &Tree, start: Bound<&[u8]>, end: Bound<&[u8]>, is_lent: bool) -> Option<Seen> {
    let pairs = Cell::new(0_usize);
    let mut f = |_view: LendingKeyView<'_, '_>, _value: &u64| {
        pairs.set(pairs.get().wrapping_add(1));
        Ok(VisitControl::Continue)
    };
    let mut tally = Tally::new();
    let seen = tree.seen();
    let done: Result<(), VisitError<u64>> = if is_lent {
        seen.try_for_each_range_view_by_ref_bytes_counted(start, end, &mut f, &mut tally)
    } else {
        seen.try_for_each_range_view_bytes_counted(start, end, f, &mut tally)
    };
    if done.is_err() {
        return None;
    }
    Some((pairs.get(), tally.number))
}

fn has_views(tree: &Tree, start: Bound<&[u8]>, end: Bound<&[u8]>, wanted: Seen) -> bool {
    viewed(tree, start, end, false) == Some(wanted)
        && viewed(tree, start, end, true) == Some(wanted)
        && tried(tree, start, end, false) == Some(wanted)
        && tried(tree, start, end, true) == Some(wanted)
}

fn is_right(tree: &Tree, row: &Row) -> bool {
    let (start, end) = (bound_of(row.0), bound_of(row.1));
    let [count, walk, back, views] = row.3;
    counted(tree, start, end) == (row.2, count)
        && walked(tree, start, end) == Some((row.2, walk))
        && walked_back(tree, start, end) == Some((row.2, back))
        && has_views(tree, start, end, (row.2, views))
}

// The first row whose calls give other numbers.
fn first_wrong(tree: &Tree) -> Option<usize> {
    let mut at = 0_usize;
    for row in &ROWS {
        if !is_right(tree, row) {
            return Some(at);
        }
        at = at.wrapping_add(1);
    }
    None
}

#[test]
fn pairs_between_bounds_of_any_length_take_these_visits(rt: HostRuntime) {
    let tree = filled(rt.alloc(), &PAIRS).expect(&rt, "a tree");
    assert_eq!(rt; first_wrong(&tree), None);
}
