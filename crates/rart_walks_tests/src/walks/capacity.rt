//! The bytes that walks request: just enough for the longest stored key, whatever length the type
//! of the keys allows, and whichever call stored it.

use crate::items::counted;
use rart::{AdaptiveRadixTree, ArrayKey, KeyTrait, LendingKeyView, TreeError};
use rart_test_tools::refusals::{add_bytes, were_more};
use std::alloc::Global;
use std::cell::Cell;
use std::ops::Bound;

mod trees;

use trees::{FORMS, Form, filled};

// Its keys may have many more bytes than those of the tree have.
type Key = ArrayKey<1024>;

type Tree = AdaptiveRadixTree<Key, u64>;

// The bytes of the longest key, and the levels of the tree.
const LONGEST: usize = 3;

const LEVELS: usize = 4;

const BYTES: [u8; 33] = [7; 33];

// The sizes of a level of a walk, of one from the last key, and of a segment of a lent key.
const LEVEL: usize = 72;

const BACK_LEVEL: usize = 48;

const SEGMENT: usize = 16;

// Whether a library adds up bytes: then one is more than none.
fn are_added_up(alloc: Global) -> bool {
    add_bytes(alloc, 0);
    let _byte = Vec::<u8>::with_capacity(alloc, 1);
    were_more(alloc)
}

// Whether calls request exactly `bytes` bytes. `are_within` makes the calls and returns whether
// they request at most the limit, which they always do where nothing adds up bytes.
fn are_requested<F: Fn(usize) -> bool + Drop>(alloc: Global, bytes: usize, are_within: F) -> bool
    requires { (limit : _) → F.pre are_within limit }
{
    are_within(bytes) && are_within(bytes.wrapping_sub(1)) != are_added_up(alloc)
}

fn count_below(tree: &Tree, prefix: &Key) -> Result<usize, TreeError> {
    let many = Cell::new(0_usize);
    tree.prefix_for_each_view_k(prefix, |_view: LendingKeyView<'_, '_>, _value: &u64| {
        many.set(many.get().wrapping_add(1));
    })?;
    Ok(many.get())
}

fn iteration_is_within(alloc: Global, tree: &Tree, count: usize, limit: usize) -> bool {
    add_bytes(alloc, limit);
    let many = counted(tree.iter());
    !were_more(alloc) && many == Ok(count)
}

fn iteration_requests(alloc: Global, tree: &Tree, count: usize, bytes: usize) -> bool {
    are_requested(
        alloc,
        bytes,
        |limit| iteration_is_within(alloc, tree, count, limit),
    )
}

fn descent_is_within(alloc: Global, tree: &Tree, limit: usize) -> bool {
    add_bytes(alloc, limit);
    let many = counted(tree.iter_descending());
    !were_more(alloc) && many == Ok(4)
}

fn descent_requests(alloc: Global, tree: &Tree, bytes: usize) -> bool {
    are_requested(alloc, bytes, |limit| descent_is_within(alloc, tree, limit))
}

// A tree with one key of `len` bytes.
fn of_one(alloc: Global, len: usize) -> Option<Tree> {
    let mut tree = Tree::new(alloc);
    match tree.insert_k(&Key::new_from_slice(&BYTES[..len.min(BYTES.len())]), 0) {
        Ok(_) => Some(tree),
        Err(_) => None,
    }
}

fn one_requests(alloc: Global, len: usize, bytes: usize) -> bool {
    match of_one(alloc, len) {
        Some(tree) => iteration_requests(alloc, &tree, 1, bytes),
        None => false,
    }
}

// The bytes of a key of up to 32 are inline.
#[test]
fn iterations_request_within_inline_and_longer_keys(rt: HostRuntime) {
    assert!(rt; one_requests(rt.alloc(), 32, 33 * LEVEL));
    assert!(rt; one_requests(rt.alloc(), 33, 34 * LEVEL + 33));
}

fn views_are_within(alloc: Global, tree: &Tree, limit: usize) -> bool {
    add_bytes(alloc, limit);
    let counted = count_below(tree, &Key::new_from_slice(b"a"));
    !were_more(alloc) && counted == Ok(3)
}

fn views_request(alloc: Global, tree: &Tree, bytes: usize) -> bool {
    are_requested(alloc, bytes, |limit| views_are_within(alloc, tree, limit))
}

fn range_is_within(alloc: Global, tree: &Tree, limit: usize) -> bool {
    add_bytes(alloc, limit);
    let (start, end) = (Key::new_from_slice(b"a"), Key::new_from_slice(b"abc"));
    let many = counted(tree.range(Bound::Included(start), Bound::Excluded(end)));
    !were_more(alloc) && many == Ok(2)
}

fn range_requests(alloc: Global, tree: &Tree, bytes: usize) -> bool {
    are_requested(alloc, bytes, |limit| range_is_within(alloc, tree, limit))
}

fn both_ends_are_within(alloc: Global, tree: &Tree, limit: usize) -> bool {
    add_bytes(alloc, limit);
    let many = counted(tree.prefix_iter_both_ends_k(&Key::new_from_slice(b"a")));
    !were_more(alloc) && many == Ok(3)
}

fn both_ends_request(alloc: Global, tree: &Tree, bytes: usize) -> bool {
    are_requested(
        alloc,
        bytes,
        |limit| both_ends_are_within(alloc, tree, limit),
    )
}

fn range_ends_are_within(alloc: Global, tree: &Tree, limit: usize) -> bool {
    add_bytes(alloc, limit);
    let (start, end) = (Key::new_from_slice(b"a"), Key::new_from_slice(b"abc"));
    let many = counted(tree.range_both_ends(Bound::Included(start), Bound::Excluded(end)));
    !were_more(alloc) && many == Ok(2)
}

fn range_ends_request(alloc: Global, tree: &Tree, bytes: usize) -> bool {
    are_requested(
        alloc,
        bytes,
        |limit| range_ends_are_within(alloc, tree, limit),
    )
}

/// A walk whose bytes are added up.
#[derive(Clone, Copy)]
enum Walk {
    All,
    Descending,
    Views,
    Within,
    BothEndsBelow,
    BothEndsWithin,
}

fn requests(alloc: Global, tree: &Tree, walk: Walk) -> bool {
    match walk {
        Walk::All => iteration_requests(alloc, tree, 4, LEVELS * LEVEL),
        Walk::Descending => descent_requests(alloc, tree, LEVELS * BACK_LEVEL),
        Walk::Views => views_request(alloc, tree, LEVELS * LEVEL + LONGEST * SEGMENT),
        Walk::Within => range_requests(alloc, tree, LEVELS * LEVEL),
        Walk::BothEndsBelow => both_ends_request(alloc, tree, LEVELS * (LEVEL + BACK_LEVEL)),
        Walk::BothEndsWithin => range_ends_request(alloc, tree, LEVELS * (LEVEL + BACK_LEVEL)),
    }
}

fn filled_requests(alloc: Global, form: Form, walk: Walk) -> bool {
    match filled(alloc, form) {
        Some(tree) => requests(alloc, &tree, walk),
        None => false,
    }
}

// The first form whose tree makes the walk request other bytes, if there is one.
fn first_wrong_form(alloc: Global, walk: Walk) -> Option<usize> {
    let mut at = 0_usize;
    for form in &FORMS {
        if !filled_requests(alloc, *form, walk) {
            return Some(at);
        }
        at = at.wrapping_add(1);
    }
    None
}

#[test]
fn iterations_request_within_the_longest_key(rt: HostRuntime) {
    assert_eq!(rt; first_wrong_form(rt.alloc(), Walk::All), None);
}

#[test]
fn descending_iterations_request_within_the_longest_key(rt: HostRuntime) {
    assert_eq!(rt; first_wrong_form(rt.alloc(), Walk::Descending), None);
}

#[test]
fn lent_keys_request_within_the_longest_key(rt: HostRuntime) {
    assert_eq!(rt; first_wrong_form(rt.alloc(), Walk::Views), None);
}

#[test]
fn ranges_request_within_the_longest_key(rt: HostRuntime) {
    assert_eq!(rt; first_wrong_form(rt.alloc(), Walk::Within), None);
}

#[test]
fn walks_from_both_ends_request_within_two_paths(rt: HostRuntime) {
    assert_eq!(rt; first_wrong_form(rt.alloc(), Walk::BothEndsBelow), None);
    assert_eq!(rt; first_wrong_form(rt.alloc(), Walk::BothEndsWithin), None);
}
