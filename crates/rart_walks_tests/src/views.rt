//! Keys lent in segments: the segments, what a view says of its bytes, copies of them, and walks over views.

use crate::walks::forms::{Calls, Walk, make};
use rart::{KeyTrait, LendingKeyView};
use rart_test_trees::texts::{Key, Pair, Tree, filled, key};
use std::alloc::Global;
use std::cell::Cell;
use std::cmp::Ordering;
use std::panic::Expect;

pub static AB_AND_ABCD: [Pair; 2] = [("ab", 1), ("abcd", 2)];

static ABCD_ALONE: [Pair; 1] = [("abcd", 3)];

static WITH_EMPTY: [Pair; 3] = [("", 7), ("b", 8), ("bcd", 9)];

// The segments are these two, but for empty ones.
fn has_segments(view: LendingKeyView<'_, '_>, first: &str, second: &str) -> bool {
    let (first, second) = (first.as_bytes(), second.as_bytes());
    match view.segments() {
        [] => first.is_empty() && second.is_empty(),
        [one] => *one == first && second.is_empty(),
        [one, other] => *one == first && *other == second,
        _ => false,
    }
}

fn has_bytes(view: LendingKeyView<'_, '_>, wanted: &[u8]) -> bool {
    let mut bytes = view.bytes();
    for byte in wanted {
        if bytes.next() != Some(*byte) {
            return false;
        }
    }
    bytes.next().is_none() && bytes.next().is_none()
}

fn is_view(view: LendingKeyView<'_, '_>, row: &Row) -> bool {
    let key = row.0;
    has_segments(view, row.2, row.3)
        && has_bytes(view, key.as_bytes())
        && view.len() == key.len()
        && view.is_empty() == key.is_empty()
        && view.eq_slice(key.as_bytes())
        && view.cmp_slice(key.as_bytes()) == Ordering::Equal
}

// A pair, and the segments of its key, at most two.
pub type Row = (&'static str, u64, &'static str, &'static str);

// Counts the rows that come in turn, and is past all of them where another comes.
pub fn next_row(seen: usize, rows: &[Row], view: LendingKeyView<'_, '_>, value: u64) -> usize {
    match rows.get(seen) {
        Some(row) if row.1 == value && is_view(view, row) => seen.wrapping_add(1),
        _ => 1000,
    }
}

// Whether the walk about the key gives views of these rows.
fn sees(tree: &Tree, key: Key, walk: Walk, rows: &[Row]) -> bool {
    let calls = Calls::of_rows(rows);
    make(tree, key, walk, &calls) == Ok(()) && calls.are_rows()
}

// Whether each of the walks about the key does.
fn each_sees(tree: &Tree, key: Key, walks: &[Walk], rows: &[Row]) -> bool {
    for walk in walks {
        if !sees(tree, key, *walk, rows) {
            return false;
        }
    }
    true
}

const AB: Row = ("ab", 1, "ab", "");

const ABCD: Row = ("abcd", 2, "ab", "cd");

const EMPTY: Row = ("", 7, "", "");

// Whether the calls that show the longest match of the probe show the pair of the row, once, and say so; without a row,
// whether they show nothing.
fn shows_longest(tree: &Tree, probe: &[u8], walks: &[Walk], rows: &[Row]) -> bool {
    each_sees(tree, key(probe), walks, rows)
}

fn shows_ab_and_abcd(tree: &Tree, walks: &[Walk]) -> bool {
    shows_longest(tree, b"abcx", walks, &[AB])
        && shows_longest(tree, b"abcde", walks, &[ABCD])
        && shows_longest(tree, b"x", walks, &[])
}

static OWNED: [Walk; 1] = [Walk::LongestCounted];

#[test]
fn the_longest_match_of_a_counted_call_is_shown_once(rt: HostRuntime) {
    let tree = filled(rt.alloc(), &AB_AND_ABCD).expect(&rt, "a tree");
    let with_empty = filled(rt.alloc(), &WITH_EMPTY).expect(&rt, "a tree");
    let empty_key = shows_longest(&with_empty, b"x", &OWNED, &[EMPTY]);
    assert!(rt; empty_key && shows_ab_and_abcd(&tree, &OWNED));
}

// The views of "abcd" in both trees have equal bytes and differ, and compare alike with other slices.
fn compare(one: LendingKeyView<'_, '_>, other: LendingKeyView<'_, '_>) -> bool {
    one != other && one == one && is_abcd(one) && is_abcd(other) && compares_alone(one)
}

fn is_abcd(one: LendingKeyView<'_, '_>) -> bool {
    one.eq_slice(b"abcd") && one.cmp_slice(b"abcd") == Ordering::Equal
}

fn compares_alone(one: LendingKeyView<'_, '_>) -> bool {
    one.cmp_slice(b"abce") == Ordering::Less
        && one.cmp_slice(b"abc") == Ordering::Greater
        && one.cmp_slice(b"ab") == Ordering::Greater
        && one.cmp_slice(b"b") == Ordering::Less
        && !one.eq_slice(b"abc")
        && !one.eq_slice(b"abcde")
}

// Whether the views of "abcd" in both trees compare so.
fn have_unequal_views(left: &Tree, right: &Tree) -> bool {
    let key = Key::new_from_slice(b"abcd");
    let well = Cell::new(0_usize);
    let shown = left.with_longest_prefix_match_view_k(
        &key,
        |one: LendingKeyView<'_, '_>, _value: &u64| {
            let inner = right.with_longest_prefix_match_view_k(
                &key,
                |other: LendingKeyView<'_, '_>, _value: &u64| {
                    if compare(one, other) {
                        well.set(well.get().wrapping_add(1));
                    }
                },
            );
            if inner != Ok(true) {
                well.set(100);
            }
        },
    );
    shown == Ok(true) && well.get() == 1
}

#[test]
fn views_of_equal_bytes_can_differ(rt: HostRuntime) {
    let left = filled(rt.alloc(), &AB_AND_ABCD).expect(&rt, "a tree");
    let right = filled(rt.alloc(), &ABCD_ALONE).expect(&rt, "a tree");
    assert!(rt; have_unequal_views(&left, &right));
}

fn writes(after: &mut Vec<u8>, view: LendingKeyView<'_, '_>) -> bool {
    after.push(1).is_ok() && after.push(2).is_ok() && view.write_into(after).is_ok()
}

// The bytes of a view are copied after others, as a vector and as a key.
fn is_written(alloc: Global, view: LendingKeyView<'_, '_>) -> bool {
    let mut after = Vec::new(alloc);
    writes(&mut after, view) && after.as_slice() == [1, 2, 97, 98].as_slice()
}

fn is_vector(alloc: Global, view: LendingKeyView<'_, '_>) -> bool {
    match view.to_vec(alloc) {
        Ok(bytes) => bytes.as_slice() == b"ab".as_slice(),
        Err(_) => false,
    }
}

fn is_key(alloc: Global, view: LendingKeyView<'_, '_>) -> bool {
    if view.len() > 16 {
        return false;
    }
    match view.to_key::<Key>(alloc) {
        Ok(key) => key.as_ref() == b"ab".as_slice(),
        Err(_) => false,
    }
}

fn copies_ab(alloc: Global, tree: &Tree) -> bool {
    let well = Cell::new(false);
    let shown = tree.with_longest_prefix_match_view_k(
        &Key::new_from_slice(b"ab"),
        |view: LendingKeyView<'_, '_>, _value: &u64| {
            well.set(is_written(alloc, view) && is_vector(alloc, view) && is_key(alloc, view));
        },
    );
    shown == Ok(true) && well.get()
}

#[test]
fn bytes_of_a_view_are_copied(rt: HostRuntime) {
    let tree = filled(rt.alloc(), &AB_AND_ABCD).expect(&rt, "a tree");
    assert!(rt; copies_ab(rt.alloc(), &tree));
}
