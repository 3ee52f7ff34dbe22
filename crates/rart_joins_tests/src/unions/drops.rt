//! Merges of values that count when they are dropped: none is lost, and none is dropped twice.

use rart::{AdaptiveRadixTree, ArrayKey, KeyTrait};
use rart_test_tools::counted::Counted;
use rart_test_tools::refusals::{is_swept, refuse_from, was_refused};
use std::alloc::Global;
use std::cell::Cell;

type Tree<'a> = AdaptiveRadixTree<ArrayKey<4>, Counted<'a>>;

// The keys "n" and a byte below `count`.
fn filled<'a>(alloc: Global, drops: &'a Cell<usize>, count: u8) -> Tree<'a> {
    let mut tree = Tree::new(alloc);
    for byte in 0..count {
        let _old = tree.insert(
            ArrayKey::new_from_slice(&[b'n', byte]),
            Counted(byte, drops),
        );
    }
    tree
}

// Merges by a callback that keeps the other value; whether no pair is left, and how many values were dropped.
fn dropped_by_merge<'a>(
    into: &mut Tree<'a>,
    from: &mut Tree<'a>,
    most: usize,
    drops: &Cell<usize>,
) -> Option<usize> {
    let merged = into.merge_with(from, |_key, stored, value| *stored = value);
    let done = merged.is_ok();
    (done && from.is_empty() && into.len() == most).then_some(drops.get())
}

// The same, and how many are dropped with both trees.
fn dropped_around_merge(alloc: Global, into: u8, from: u8) -> (Option<usize>, usize) {
    let drops = Cell::new(0_usize);
    let (mut one, mut other) = (filled(alloc, &drops, into), filled(alloc, &drops, from));
    let most = usize::from(into.max(from));
    let early = dropped_by_merge(&mut one, &mut other, most, &drops);
    drop(one);
    drop(other);
    (early, drops.get())
}

#[test]
fn a_merge_drops_what_its_callback_drops(rt: HostRuntime) {
    for (into, from) in [(0_u8, 5_u8), (5, 0), (5, 5), (4, 17), (49, 5), (255, 50)] {
        let shared = usize::from(into.min(from));
        let all = usize::from(into).wrapping_add(usize::from(from));
        assert_eq!(rt;
            dropped_around_merge(rt.alloc(), into, from),
            (Some(shared), all)
        );
    }
}

// A merge with this request and all after it refused: each of the values is stored, held or dropped.
fn are_all_kept<'a>(
    alloc: Global,
    at: usize,
    into: &mut Tree<'a>,
    from: &mut Tree<'a>,
    all: usize,
    drops: &Cell<usize>,
) -> Option<bool> {
    refuse_from(alloc, at);
    let result = into.merge_with(from, |_key, stored, value| *stored = value);
    let was = was_refused(alloc);
    let (is_right, held) = match &result {
        Ok(()) => (!was, 0_usize),
        Err(refused) => (was, usize::from(refused.value.is_some())),
    };
    let early = drops.get();
    drop(result);
    let kept = into.len().wrapping_add(from.len()).wrapping_add(held);
    (is_right
        && early.wrapping_add(kept) == all
        && drops.get() == early.wrapping_add(held)).then_some(was)
}

// Whether a request was refused; `None` where something else failed.
fn merge_refused(alloc: Global, at: usize) -> Option<bool> {
    let drops = Cell::new(0_usize);
    let (mut one, mut other) = (filled(alloc, &drops, 3), filled(alloc, &drops, 50));
    let refused = are_all_kept(alloc, at, &mut one, &mut other, 53, &drops);
    drop(one);
    drop(other);
    if drops.get() == 53 { refused } else { None }
}

#[test]
fn a_merge_refused_in_turn_drops_each_value_once(rt: HostRuntime) {
    let alloc = rt.alloc();
    assert!(rt; is_swept(alloc, |at| merge_refused(alloc, at)));
}
