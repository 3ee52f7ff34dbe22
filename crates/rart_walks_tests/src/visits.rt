//! Counted walks with a callback: with what it is called, in order, and how the walk ends.

// What a callback saw is kept as digits after a first 1: of each value one, of each key its length.

use crate::walks::forms::{Calls, Walk, make};
use rart::TreeError;
use rart_test_trees::texts::{Key, Pair, Tree, filled, key};
use std::panic::Expect;

pub fn with_digit(seen: u64, digit: u64) -> u64 {
    seen.wrapping_mul(10).wrapping_add(digit)
}

// A prefix; the value to stop at and the one to fail at, 0 for none; what is seen; whether the walk fails.
type Row = (&'static str, u64, u64, u64, bool);

static ALP: [Pair; 4] = [("alpha1", 1), ("alpha2", 2), ("alphabet", 3), ("alpine", 4)];

static OF_ALP: [Row; 9] = [
    ("alp", 0, 0, 11234, false),
    ("alp", 2, 0, 112, false),
    ("alp", 0, 3, 1123, true),
    ("alpha", 0, 0, 1123, false),
    ("alpha", 3, 0, 1123, false),
    ("", 1, 0, 11, false),
    ("alpine", 0, 4, 14, true),
    ("zebra", 0, 1, 1, false),
    ("zebra", 0, 0, 1, false),
];

// Walks over the values below a prefix that can end early, and those that can't.
static ENDING: [Walk; 2] = [Walk::TryValuesCounted, Walk::TryValuesLentCounted];

static WHOLE: [Walk; 4] = [
    Walk::ValuesCounted,
    Walk::ValuesLentCounted,
    Walk::FoldCounted,
    Walk::FoldLentCounted,
];

// A callback that fails ends the walk as `Full`.
fn is_walked(tree: &Tree, key: Key, walk: Walk, row: &Row) -> bool {
    let calls = Calls::with_ends((row.1, row.2));
    let outcome = make(tree, key, walk, &calls);
    let wanted = if row.4 { Err(TreeError::Full) } else { Ok(()) };
    outcome == wanted && calls.digits() == row.3
}

fn are_walked(tree: &Tree, key: Key, walks: &[Walk], row: &Row) -> bool {
    for walk in walks {
        if !is_walked(tree, key, *walk, row) {
            return false;
        }
    }
    true
}

fn is_row(tree: &Tree, row: &Row) -> bool {
    let prefix = key(row.0.as_bytes());
    let ends_early = row.1 != 0 || row.2 != 0;
    are_walked(tree, prefix, &ENDING, row) && (ends_early || are_walked(tree, prefix, &WHOLE, row))
}

// The first row that fails, if one does.
fn first_wrong(tree: &Tree, rows: &[Row]) -> Option<usize> {
    let mut at = 0_usize;
    for row in rows {
        if !is_row(tree, row) {
            return Some(at);
        }
        at = at.wrapping_add(1);
    }
    None
}

fn first_wrong_of_alp(tree: &Tree) -> Option<usize> {
    first_wrong(tree, &OF_ALP)
}

#[test]
fn values_below_a_prefix(rt: HostRuntime) {
    let tree = filled(rt.alloc(), &ALP).expect(&rt, "a tree");
    assert_eq!(rt; first_wrong_of_alp(&tree), None);
}

// A probe, and of each match the length of its key and its value.
pub static OF_THREE: [(&str, u64); 4] = [
    ("abz", 1_00_11_22),
    ("b", 1_00),
    ("", 1_00),
    ("a", 1_00_11),
];

pub fn with_match(seen: u64, probe: &[u8], key: &[u8], value: u64) -> u64 {
    if probe.starts_with(key) {
        with_digit(with_digit(seen, key.len() as u64), value)
    } else {
        0
    }
}
