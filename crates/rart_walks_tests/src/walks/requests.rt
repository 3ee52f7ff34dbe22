//! Walks and iterators where nothing may be requested: of an empty tree, once a walk calls, and once an iterator was
//! started.

use super::forms::{Calls, PAIRS, Walk, make, walks};
use rart::{ArrPartial, Iter, KeyTrait, Range, SeenIter, SeenRange, TreeError, Visits};
use rart_test_tools::refusals::{refuse, was_refused};
use rart_test_trees::texts::{Key, Tree, filled};
use std::alloc::Global;
use std::ops::Bound;
use std::panic::Expect;

fn is_quiet_of_nothing(alloc: Global, empty: &Tree, key: Key, form: Walk) -> bool {
    let calls = Calls::none(None);
    refuse(alloc, 1);
    let outcome = make(empty, key, form, &calls);
    !was_refused(alloc) && outcome == Ok(()) && calls.many() == 0
}

fn first_requesting_of_empty(alloc: Global, empty: &Tree) -> Option<usize> {
    let key = Key::new_from_slice(b"alp");
    let mut row = 0_usize;
    for (form, _wanted) in walks() {
        if !is_quiet_of_nothing(alloc, empty, key, *form) {
            return Some(row);
        }
        row = row.wrapping_add(1);
    }
    None
}

#[test]
fn walks_of_an_empty_tree_make_no_request(rt: HostRuntime) {
    let empty = Tree::new(rt.alloc());
    assert_eq!(rt; first_requesting_of_empty(rt.alloc(), &empty), None);
}

// From the first call on nothing is requested.
fn is_quiet_once_it_calls(alloc: Global, tree: &Tree, key: Key, form: Walk, wanted: usize) -> bool {
    let calls = Calls::none(Some(alloc));
    let outcome = make(tree, key, form, &calls);
    !was_refused(alloc) && outcome == Ok(()) && calls.many() == wanted
}

fn first_requesting(alloc: Global, tree: &Tree) -> Option<usize> {
    let key = Key::new_from_slice(b"alp");
    let mut row = 0_usize;
    for (form, wanted) in walks() {
        if !is_quiet_once_it_calls(alloc, tree, key, *form, *wanted) {
            return Some(row);
        }
        row = row.wrapping_add(1);
    }
    None
}

#[test]
fn walks_that_call_make_no_request(rt: HostRuntime) {
    let tree = filled(rt.alloc(), &PAIRS).expect(&rt, "a tree");
    assert_eq!(rt; first_requesting(rt.alloc(), &tree), None);
}

// Each counts how many of ten calls give a pair.
fn ten_of(pairs: &mut Iter<'_, Key, ArrPartial<16>, u64>) -> usize {
    let mut many = 0_usize;
    for _ in 0..10_usize {
        many = many.wrapping_add(usize::from(pairs.next().is_some()));
    }
    many
}

fn ten_within(pairs: &mut Range<'_, Key, u64>) -> usize {
    let mut many = 0_usize;
    for _ in 0..10_usize {
        many = many.wrapping_add(usize::from(pairs.next().is_some()));
    }
    many
}

fn ten_counted(pairs: &mut SeenIter<'_, Key, u64, Visits>) -> usize {
    let mut many = 0_usize;
    for _ in 0..10_usize {
        many = many.wrapping_add(usize::from(pairs.next_counted(&mut Visits::new()).is_some()));
    }
    many
}

fn ten_within_counted(pairs: &mut SeenRange<'_, Key, u64, Visits>) -> usize {
    let mut many = 0_usize;
    for _ in 0..10_usize {
        many = many.wrapping_add(usize::from(pairs.next_counted(&mut Visits::new()).is_some()));
    }
    many
}

// Each answers that count of a walk whose requests after its start are refused.
fn below(alloc: Global, tree: &Tree, key: Key) -> Result<usize, TreeError> {
    match tree.prefix_iter_k(&key) {
        Ok(mut pairs) => {
            refuse(alloc, 1);
            Ok(ten_of(&mut pairs))
        }
        Err(error) => Err(error),
    }
}

// From after the key to "b".
fn within(alloc: Global, tree: &Tree, key: Key) -> Result<usize, TreeError> {
    let end = Key::new_from_slice(b"b");
    match tree.range(Bound::Excluded(key), Bound::Included(end)) {
        Ok(mut pairs) => {
            refuse(alloc, 1);
            Ok(ten_within(&mut pairs))
        }
        Err(error) => Err(error),
    }
}

fn of_seen(
    alloc: Global,
    pairs: Result<SeenIter<'_, Key, u64, Visits>, TreeError>,
) -> Result<usize, TreeError> {
    match pairs {
        Ok(mut pairs) => {
            refuse(alloc, 1);
            Ok(ten_counted(&mut pairs))
        }
        Err(error) => Err(error),
    }
}

fn all_counted(alloc: Global, tree: &Tree) -> Result<usize, TreeError> {
    of_seen(
        alloc,
        tree.seen::<Visits>().iter_counted(&mut Visits::new()),
    )
}

fn below_counted(alloc: Global, tree: &Tree, key: Key) -> Result<usize, TreeError> {
    let seen = tree.seen::<Visits>();
    of_seen(alloc, seen.prefix_iter_k_counted(&key, &mut Visits::new()))
}

fn within_counted(alloc: Global, tree: &Tree, key: Key) -> Result<usize, TreeError> {
    let end = Key::new_from_slice(b"b");
    let seen = tree.seen::<Visits>();
    match seen.range_counted(
        Bound::Excluded(key),
        Bound::Included(end),
        &mut Visits::new(),
    ) {
        Ok(mut pairs) => {
            refuse(alloc, 1);
            Ok(ten_within_counted(&mut pairs))
        }
        Err(error) => Err(error),
    }
}

fn are_quiet(alloc: Global, tree: &Tree, key: Key) -> bool {
    below(alloc, tree, key) == Ok(4)
        && !was_refused(alloc)
        && within(alloc, tree, key) == Ok(3)
        && !was_refused(alloc)
        && all_counted(alloc, tree) == Ok(5)
        && !was_refused(alloc)
        && below_counted(alloc, tree, key) == Ok(4)
        && !was_refused(alloc)
        && within_counted(alloc, tree, key) == Ok(3)
        && !was_refused(alloc)
}

#[test]
fn started_walks_make_no_request(rt: HostRuntime) {
    let tree = filled(rt.alloc(), &PAIRS).expect(&rt, "a tree");
    assert!(rt; are_quiet(rt.alloc(), &tree, Key::new_from_slice(b"alp")));
}
