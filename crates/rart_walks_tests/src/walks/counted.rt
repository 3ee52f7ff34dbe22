//! The counted calls of a tree that is seen: each answers as the plain one does.

ghost use Rattle.std.specs.Prelude.{◌≤◌, length};

use crate::views::{AB_AND_ABCD, Row, next_row};
use crate::visits::{OF_THREE, with_match};
use rart::{KeyTrait, LendingKeyView, Seen, SeenIter, SeenRange, TreeError, Visits};
use rart_test_trees::texts::{Key, Pair, THREE, Tree, filled, is_pair};
use std::cell::Cell;
use std::ops::Bound;
use std::panic::Expect;

fn seen(tree: &Tree) -> Seen<'_, Key, u64, Visits> {
    tree.seen()
}

fn longest_value_is(tree: &Tree, key: &Key, probe: &[u8], wanted: &Pair) -> bool {
    let by_key = seen(tree).longest_prefix_value_k_counted(key, &mut Visits::new());
    let by_bytes = seen(tree).longest_prefix_value_bytes_counted(probe, &mut Visits::new());
    let len = seen(tree).longest_prefix_len_bytes_counted(probe, &mut Visits::new());
    by_key == Some(&wanted.1)
        && by_bytes == Some(&wanted.1)
        && len == Some((wanted.0.len(), &wanted.1))
}

fn is_found(found: Option<(Key, &u64)>, wanted: &Pair) -> bool {
    match found {
        Some(found) => is_pair(&found, wanted),
        None => false,
    }
}

fn longest_is(tree: &Tree, probe: &[u8], wanted: &Pair) -> bool
    requires { length probe.now ≤ 16 }
{
    let key = Key::new_from_slice(probe);
    let by_key = seen(tree).longest_prefix_match_k_counted(&key, &mut Visits::new());
    let by_bytes = seen(tree).longest_prefix_match_bytes_counted(probe, &mut Visits::new());
    is_found(by_key, wanted)
        && is_found(by_bytes, wanted)
        && longest_value_is(tree, &key, probe, wanted)
}

fn longest_are(tree: &Tree) -> bool {
    longest_is(tree, b"abz", &("ab", 2))
        && longest_is(tree, b"az", &("a", 1))
        && longest_is(tree, b"z", &("", 0))
}

#[test]
fn the_longest_match_is_answered_as_by_the_plain_call(rt: HostRuntime) {
    let tree = filled(rt.alloc(), &THREE).expect(&rt, "a tree");
    assert!(rt; longest_are(&tree));
}

fn matches_by_bytes_are(tree: &Tree, probe: &[u8], wanted: u64) -> bool {
    let shown = Cell::new(1_u64);
    seen(tree).prefix_match_for_each_bytes_counted(
        probe,
        |found: &[u8], value: &u64| shown.set(with_match(shown.get(), probe, found, *value)),
        &mut Visits::new(),
    );
    let mut lent = 1_u64;
    let mut callback = |found: &[u8], value: &u64| lent = with_match(lent, probe, found, *value);
    seen(tree).prefix_match_for_each_by_ref_bytes_counted(probe, &mut callback, &mut Visits::new());
    shown.get() == wanted && lent == wanted
}

fn matches_are(tree: &Tree, probe: &[u8], wanted: u64) -> bool
    requires { length probe.now ≤ 16 }
{
    let key = Key::new_from_slice(probe);
    let shown = Cell::new(1_u64);
    seen(tree).prefix_match_for_each_k_counted(
        &key,
        |found: &[u8], value: &u64| shown.set(with_match(shown.get(), probe, found, *value)),
        &mut Visits::new(),
    );
    let mut lent = 1_u64;
    let mut callback = |found: &[u8], value: &u64| lent = with_match(lent, probe, found, *value);
    seen(tree).prefix_match_for_each_by_ref_k_counted(&key, &mut callback, &mut Visits::new());
    shown.get() == wanted && lent == wanted && matches_by_bytes_are(tree, probe, wanted)
}

// The first probe whose matches are others, if there is one.
fn first_wrong_probe(tree: &Tree) -> Option<usize> {
    let mut at = 0_usize;
    for (text, wanted) in &OF_THREE {
        let probe = text.as_bytes();
        if probe.len() > 16 {
            return Some(at);
        }
        if !matches_are(tree, probe, *wanted) {
            return Some(at);
        }
        at = at.wrapping_add(1);
    }
    None
}

#[test]
fn matches_of_a_probe_are_those_of_the_plain_call(rt: HostRuntime) {
    let tree = filled(rt.alloc(), &THREE).expect(&rt, "a tree");
    assert_eq!(rt; first_wrong_probe(&tree), None);
}

fn are_pairs(pairs: &mut SeenIter<'_, Key, u64, Visits>, wanted: &[Pair]) -> bool {
    for (text, wanted) in wanted {
        match pairs.next_counted(&mut Visits::new()) {
            Some((key, value)) => {
                if key.as_ref() != text.as_bytes() || *value != *wanted {
                    return false;
                }
            }
            None => return false,
        }
    }
    pairs.next_counted(&mut Visits::new()).is_none()
}

fn below_are(tree: &Tree, prefix: &[u8], wanted: &[Pair]) -> bool
    requires { length prefix.now ≤ 16 }
{
    let key = Key::new_from_slice(prefix);
    match seen(tree).prefix_iter_k_counted(&key, &mut Visits::new()) {
        Ok(mut below) => are_pairs(&mut below, wanted),
        Err(_) => false,
    }
}

fn are_pairs_within(pairs: &mut SeenRange<'_, Key, u64, Visits>, wanted: &[Pair]) -> bool {
    for (text, wanted) in wanted {
        match pairs.next_counted(&mut Visits::new()) {
            Some((key, value)) => {
                if key.as_ref() != text.as_bytes() || *value != *wanted {
                    return false;
                }
            }
            None => return false,
        }
    }
    pairs.next_counted(&mut Visits::new()).is_none()
}

fn within_are(tree: &Tree, start: &[u8], wanted: &[Pair]) -> bool
    requires { length start.now ≤ 16 }
{
    let start = Bound::Included(Key::new_from_slice(start));
    match seen(tree).range_counted(start, Bound::Unbounded, &mut Visits::new()) {
        Ok(mut within) => are_pairs_within(&mut within, wanted),
        Err(_) => false,
    }
}

fn below_and_within_are(tree: &Tree) -> bool {
    below_are(tree, b"a", &[("a", 1), ("ab", 2)])
        && below_are(tree, b"", &THREE)
        && below_are(tree, b"b", &[])
        && within_are(tree, b"aa", &[("ab", 2)])
        && within_are(tree, b"", &THREE)
}

#[test]
fn pairs_below_a_prefix_and_within_bounds_are_those_of_the_plain_walks(rt: HostRuntime) {
    let tree = filled(rt.alloc(), &THREE).expect(&rt, "a tree");
    assert!(rt; below_and_within_are(&tree));
}

fn views_below_are(tree: &Tree, prefix: &[u8], rows: &[Row]) -> Result<bool, TreeError>
    requires { length prefix.now ≤ 16 }
{
    let key = Key::new_from_slice(prefix);
    let many = Cell::new(0_usize);
    seen(tree).prefix_for_each_view_k_counted(
        &key,
        |view: LendingKeyView<'_, '_>, value: &u64| {
            many.set(next_row(many.get(), rows, view, *value));
        },
        &mut Visits::new(),
    )?;
    let mut lent = 0_usize;
    let mut callback = |view: LendingKeyView<'_, '_>, value: &u64| {
        lent = next_row(lent, rows, view, *value);
    };
    seen(tree).prefix_for_each_view_by_ref_k_counted(&key, &mut callback, &mut Visits::new())?;
    Ok(many.get() == rows.len() && lent == rows.len())
}

fn views_are(tree: &Tree, rows: &[Row]) -> Result<bool, TreeError> {
    let many = Cell::new(0_usize);
    seen(tree).for_each_view_counted(
        |view: LendingKeyView<'_, '_>, value: &u64| {
            many.set(next_row(many.get(), rows, view, *value));
        },
        &mut Visits::new(),
    )?;
    let mut lent = 0_usize;
    let mut callback = |view: LendingKeyView<'_, '_>, value: &u64| {
        lent = next_row(lent, rows, view, *value);
    };
    seen(tree).for_each_view_by_ref_counted(&mut callback, &mut Visits::new())?;
    Ok(many.get() == rows.len() && lent == rows.len())
}

fn views_within_are(tree: &Tree, start: &[u8], rows: &[Row]) -> Result<bool, TreeError>
    requires { length start.now ≤ 16 }
{
    let start = Bound::Included(Key::new_from_slice(start));
    let many = Cell::new(0_usize);
    seen(tree).for_each_range_view_counted(
        start,
        Bound::Unbounded,
        |view: LendingKeyView<'_, '_>, value: &u64| {
            many.set(next_row(many.get(), rows, view, *value));
        },
        &mut Visits::new(),
    )?;
    let mut lent = 0_usize;
    let mut callback = |view: LendingKeyView<'_, '_>, value: &u64| {
        lent = next_row(lent, rows, view, *value);
    };
    seen(tree).for_each_range_view_by_ref_counted(
        start,
        Bound::Unbounded,
        &mut callback,
        &mut Visits::new(),
    )?;
    Ok(many.get() == rows.len() && lent == rows.len())
}

const AB: Row = ("ab", 1, "ab", "");

const ABCD: Row = ("abcd", 2, "ab", "cd");

fn views_of_each_walk_are(tree: &Tree) -> bool {
    views_are(tree, &[AB, ABCD]) == Ok(true)
        && views_below_are(tree, b"abc", &[ABCD]) == Ok(true)
        && views_within_are(tree, b"ab", &[AB, ABCD]) == Ok(true)
        && views_within_are(tree, b"abc", &[ABCD]) == Ok(true)
        && views_within_are(tree, b"b", &[]) == Ok(true)
}

#[test]
fn views_are_those_of_the_plain_walks(rt: HostRuntime) {
    let tree = filled(rt.alloc(), &AB_AND_ABCD).expect(&rt, "a tree");
    assert!(rt; views_of_each_walk_are(&tree));
}

// What the call returns for the longest match of the probe, and how often the callback got the wanted pair: past all of
// them for another one.
fn shows_longest(tree: &Tree, probe: &[u8], rows: &[Row]) -> (Result<bool, TreeError>, usize)
    requires { length probe.now ≤ 16 }
{
    let key = Key::new_from_slice(probe);
    let mut many = 0_usize;
    let mut callback = |view: LendingKeyView<'_, '_>, value: &u64| {
        many = next_row(many, rows, view, *value);
    };
    let called = seen(tree).with_longest_prefix_match_view_by_ref_k_counted(
        &key,
        &mut callback,
        &mut Visits::new(),
    );
    (called, many)
}

fn shows_two_of_three(tree: &Tree) -> bool {
    shows_longest(tree, b"abcx", &[AB]) == (Ok(true), 1)
        && shows_longest(tree, b"abcde", &[ABCD]) == (Ok(true), 1)
        && shows_longest(tree, b"x", &[]) == (Ok(false), 0)
}

#[test]
fn the_longest_match_is_shown_once_or_never(rt: HostRuntime) {
    let tree = filled(rt.alloc(), &AB_AND_ABCD).expect(&rt, "a tree");
    assert!(rt; shows_two_of_three(&tree));
}
