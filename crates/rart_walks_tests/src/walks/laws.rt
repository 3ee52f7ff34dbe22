//! The laws of answers about a probe, of walks below a prefix, and of views, called on trees that aren't empty.

use crate::items::digits;
use rart::laws::probes::{
    comparisons_agree, key_of_a_view, longest_is_the_last_match, prefix_iter_filters_iter,
};
use rart::{KeyTrait, LendingKeyView};
use rart_test_trees::texts::{Key, Pair, Tree, filled, is_pair, key};
use std::alloc::Global;
use std::cell::Cell;
use std::cmp::Ordering;
use std::panic::Expect;

static PAIRS: [Pair; 4] = [("", 0), ("ab", 1), ("abcd", 2), ("b", 3)];

// The values of all pairs and of those below the prefix, as digits after a first 1.
fn walked(tree: &Tree, prefix: &[u8]) -> Option<(u64, u64)> {
    match prefix_iter_filters_iter(tree, &key(prefix)) {
        Ok((mut all, mut below)) => Some((digits(&mut all), digits(&mut below))),
        Err(_) => None,
    }
}

fn is_walked(tree: &Tree) -> bool {
    walked(tree, b"a") == Some((1_0123, 1_12))
        && walked(tree, b"") == Some((1_0123, 1_0123))
        && walked(tree, b"c") == Some((1_0123, 1))
}

#[test]
fn a_walk_below_a_prefix_is_a_part_of_the_whole_one(rt: HostRuntime) {
    let tree = filled(rt.alloc(), &PAIRS).expect(&rt, "a tree");
    assert!(rt; is_walked(&tree));
}

// Whether the longest match is this pair, and the values of all matches, as digits after a first 1.
fn matched(tree: &Tree, probe: &[u8], wanted: &Pair) -> (bool, u64) {
    let (longest, mut matches) = longest_is_the_last_match(tree, &key(probe));
    let is_longest = match longest {
        Some(found) => is_pair(&found, wanted),
        None => false,
    };
    (is_longest, digits(&mut matches))
}

fn is_matched(tree: &Tree) -> bool {
    matched(tree, b"abcde", &("abcd", 2)) == (true, 1_012)
        && matched(tree, b"x", &("", 0)) == (true, 1_0)
}

#[test]
fn the_longest_match_comes_last(rt: HostRuntime) {
    let tree = filled(rt.alloc(), &PAIRS).expect(&rt, "a tree");
    assert!(rt; is_matched(&tree));
}

// Whether the view of "abcd" compares with slices as its bytes do, and its key is made of them.
fn is_abcd(alloc: Global, view: LendingKeyView<'_, '_>) -> bool {
    if view.len() > 16 {
        return false;
    }
    let is_key = match key_of_a_view::<Key>(view, alloc) {
        Ok(key) => key.as_ref() == b"abcd".as_slice(),
        Err(_refused) => false,
    };
    is_key
        && comparisons_agree(view, b"abcd") == (Ordering::Equal, true)
        && comparisons_agree(view, b"abc") == (Ordering::Greater, false)
        && comparisons_agree(view, b"abce") == (Ordering::Less, false)
}

fn shows_abcd(alloc: Global, tree: &Tree) -> bool {
    let well = Cell::new(false);
    let shown = tree.with_longest_prefix_match_view_k(
        &Key::new_from_slice(b"abcd"),
        |view: LendingKeyView<'_, '_>, _value: &u64| well.set(is_abcd(alloc, view)),
    );
    shown == Ok(true) && well.get()
}

#[test]
fn a_view_compares_as_its_bytes_and_is_the_key_of_them(rt: HostRuntime) {
    let tree = filled(rt.alloc(), &PAIRS).expect(&rt, "a tree");
    assert!(rt; shows_abcd(rt.alloc(), &tree));
}
