//! Clones of a tree: equal to it, apart from it, each value dropped once, and refused in turn.

use rart::{AdaptiveRadixTree, ArrayKey, KeyTrait};
use rart_test_tools::counted::Limited;
use rart_test_tools::counts::Counts;
use rart_test_tools::refusals::{is_swept, refuse, was_refused};
use std::alloc::{AllocError, Global};

type Key = ArrayKey<4>;

type Tree<'a> = AdaptiveRadixTree<Key, Limited<'a>>;

// More than the clones of values that a test makes.
const ENOUGH: usize = 100_000;

// How many clones of `ENOUGH` were made.
fn made(counts: &Counts) -> usize {
    ENOUGH.wrapping_sub(counts.clones.get())
}

// The numbers of pairs, around the borders of the kinds of nodes.
const COUNTS: [u8; 9] = [0, 1, 2, 4, 5, 16, 17, 49, 255];

// A key for each byte below `count`, with its byte.
fn filled<'a>(alloc: Global, counts: &'a Counts, count: u8) -> Tree<'a> {
    let mut tree = Tree::new(alloc);
    for byte in 0..count {
        let key = Key::new_from_slice(&[b'n', byte]);
        let _old = tree.insert(key, counts.value(byte));
    }
    tree
}

// Whether the tree has these numbers at these keys, and no more pairs.
fn has_numbers(tree: &Tree<'_>, count: u8) -> bool {
    for byte in 0..count {
        match tree.get_bytes(&[b'n', byte]) {
            Some(value) if value.number == byte => {}
            _ => return false,
        }
    }
    tree.len() == usize::from(count)
}

// Whether the clone has the pairs, and the tree loses none to a removal from the clone.
fn is_independent(tree: &Tree<'_>, clone: &mut Tree<'_>, count: u8) -> bool {
    let is_equal = has_numbers(clone, count);
    let last = Key::new_from_slice(&[b'n', count.wrapping_sub(1)]);
    let is_removed = clone.delete_k(&last).is_ok();
    is_equal && is_removed && has_numbers(tree, count)
}

// How many values a clone makes, and drops, its removed one among them; None where the clone fails.
fn made_and_dropped(counts: &Counts, tree: &Tree<'_>, count: u8) -> Option<(usize, usize)> {
    let is_right = match tree.clone() {
        Ok(mut clone) => is_independent(tree, &mut clone, count),
        Err(_refused) => false,
    };
    is_right.then_some((made(counts), counts.drops.get()))
}

fn is_cloned(alloc: Global, count: u8) -> bool {
    let counts = Counts::new(ENOUGH);
    let tree = filled(alloc, &counts, count);
    let each = usize::from(count);
    made_and_dropped(&counts, &tree, count) == Some((each, each))
}

// The first count whose clone fails, if there is one.
fn first_wrong(alloc: Global) -> Option<u8> {
    for count in COUNTS {
        if !is_cloned(alloc, count) {
            return Some(count);
        }
    }
    None
}

#[test]
fn a_clone_has_the_pairs_and_drops_each_value_once(rt: HostRuntime) {
    assert_eq!(rt; first_wrong(rt.alloc()), None);
}

// Whether a request was refused while the tree was cloned; None where the clone or the tree is wrong, or the drops are
// not as many as the values that clones made.
fn is_clone_refused(
    alloc: Global,
    at: usize,
    counts: &Counts,
    tree: &Tree<'_>,
    count: u8,
) -> Option<bool> {
    refuse(alloc, at);
    let clone: Result<Tree<'_>, AllocError> = tree.clone();
    let refused = was_refused(alloc);
    let is_right = match clone {
        Ok(clone) => !refused && has_numbers(&clone, count),
        Err(_refused) => refused,
    };
    (is_right && has_numbers(tree, count) && counts.drops.get() == made(counts)).then_some(refused)
}

// Whether each request refused in turn passes, and the last clone, which isn't refused, makes each value.
fn are_clones_refused(alloc: Global, counts: &Counts, tree: &Tree<'_>, count: u8) -> bool {
    is_swept(
        alloc,
        |at: usize| is_clone_refused(alloc, at, counts, tree, count),
    ) && made(counts) >= usize::from(count)
}

// The same, and the tree's own values are dropped only with it.
fn is_swept_at(alloc: Global, count: u8) -> bool {
    let counts = Counts::new(ENOUGH);
    let tree = filled(alloc, &counts, count);
    let swept = are_clones_refused(alloc, &counts, &tree, count);
    drop(tree);
    swept && counts.drops.get() == made(&counts).wrapping_add(usize::from(count))
}

#[test]
fn a_clone_refused_in_turn(rt: HostRuntime) {
    assert!(rt; is_swept_at(rt.alloc(), 2) && is_swept_at(rt.alloc(), 17));
}

fn makes_no_request(alloc: Global) -> bool {
    let counts = Counts::new(ENOUGH);
    let tree = filled(alloc, &counts, 0);
    is_clone_refused(alloc, 1, &counts, &tree, 0) == Some(false)
}

#[test]
fn the_clone_of_an_empty_tree_makes_no_request(rt: HostRuntime) {
    assert!(rt; makes_no_request(rt.alloc()));
}
