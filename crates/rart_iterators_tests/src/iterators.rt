//! Iterators of the map, and look-ups and walks of a tree that is seen.

use rart::{
    AdaptiveRadixTree, ArrPartial, ArrayKey, BothEndsWithin, Iter, KeyTrait, Seen, SeenIter,
    ValuesIter, Visits,
};
use std::alloc::Global;
use std::ops::Bound;
use std::panic::Expect;

type Key = ArrayKey<4>;

type Tree = AdaptiveRadixTree<Key, u64>;

type Pairs<'a> = Iter<'a, Key, ArrPartial<4>, u64>;

type Pair = (&'static [u8], u64);

static FIVE: [Pair; 5] = [
    (b"ab", 1),
    (b"abcd", 2),
    (b"abce", 3),
    (b"b", 4),
    (b"ba", 5),
];

// Inserts FIVE from the last to the first.
fn insert_five(tree: &mut Tree) -> bool {
    for (bytes, value) in FIVE.iter().rev() {
        if bytes.len() > 4 || !matches!(tree.insert(Key::new_from_slice(bytes), *value), Ok(None)) {
            return false;
        }
    }
    true
}

fn filled(alloc: Global) -> Option<Tree> {
    let mut tree = Tree::new(alloc);
    if insert_five(&mut tree) {
        Some(tree)
    } else {
        None
    }
}

// The pairs that come next are these.
fn come_next(pairs: &mut Pairs<'_>, wanted: &[Pair]) -> bool {
    for (bytes, value) in wanted {
        match pairs.next() {
            Some((key, stored)) => {
                if key.as_ref() != *bytes || *stored != *value {
                    return false;
                }
            }
            None => return false,
        }
    }
    true
}

// The pairs are FIVE, and after the last always none.
fn are_five(pairs: &mut Pairs<'_>) -> bool {
    come_next(pairs, &FIVE) && pairs.next().is_none() && pairs.next().is_none()
}

fn gives_five(tree: &Tree) -> bool {
    match tree.iter() {
        Ok(mut pairs) => are_five(&mut pairs),
        Err(_) => false,
    }
}

// Whether an iterator gives its first two pairs and is dropped.
fn gives_two(tree: &Tree) -> bool {
    match tree.iter() {
        Ok(mut dropped) => {
            let well = come_next(&mut dropped, &FIVE[..2]);
            drop(dropped);
            well
        }
        Err(_) => false,
    }
}

fn is_unchanged_by_a_dropped_iterator(tree: &Tree) -> bool {
    gives_two(tree) && gives_five(tree) && tree.len() == 5
}

#[test]
fn a_dropped_iterator_changes_nothing(rt: HostRuntime) {
    let tree = filled(rt.alloc()).expect(&rt, "a tree");
    assert!(rt; is_unchanged_by_a_dropped_iterator(&tree));
}

// Whether the values ascend, and are `count`.
fn ascend(values: &mut ValuesIter<'_, Key, u64>, count: usize) -> bool {
    let mut last = None;
    let mut many = 0_usize;
    while let Some(value) = values.next() {
        if last >= Some(*value) {
            return false;
        }
        last = Some(*value);
        many = many.wrapping_add(1);
    }
    many == count
}

fn values_ascend(tree: &Tree, count: usize) -> bool {
    match tree.values_iter() {
        Ok(mut values) => ascend(&mut values, count),
        Err(_) => false,
    }
}

// Inserts the keys of one byte, each with its byte as the value; answers how many were stored when the values didn't
// ascend, if that was so.
fn first_wrong_count(tree: &mut Tree) -> Option<usize> {
    for count in 0..256_usize {
        let byte = (count * 167 % 256) as u8;
        let inserted = tree.insert(Key::new_from_slice(&[byte]), u64::from(byte));
        if !matches!(inserted, Ok(None)) || !values_ascend(tree, count + 1) {
            return Some(count);
        }
    }
    None
}

#[test]
fn every_kind_of_node_is_walked_in_order(rt: HostRuntime) {
    let mut tree = Tree::new(rt.alloc());
    assert_eq!(rt; first_wrong_count(&mut tree), None);
}

fn seen<'a>(tree: &'a Tree) -> Seen<'a, Key, u64, Visits> {
    tree.seen()
}

fn answers_look_ups(tree: &Tree) -> bool {
    let key = Key::new_from_slice(b"abce");
    seen(tree).get_k_counted(&key, &mut Visits::new()) == Some(&3)
        && seen(tree)
            .get_bytes_counted(b"abcde", &mut Visits::new())
            .is_none()
        && seen(tree).get_bytes_counted(b"ba", &mut Visits::new()) == Some(&5)
}

#[test]
fn counted_look_ups_answer_as_plain_ones(rt: HostRuntime) {
    let tree = filled(rt.alloc()).expect(&rt, "a tree");
    assert!(rt; answers_look_ups(&tree));
}

// The pairs of a counted iteration are FIVE, and then none.
fn are_five_counted(pairs: &mut SeenIter<'_, Key, u64, Visits>) -> bool {
    for (bytes, value) in &FIVE {
        match pairs.next_counted(&mut Visits::new()) {
            Some((key, stored)) => {
                if key.as_ref() != *bytes || *stored != *value {
                    return false;
                }
            }
            None => return false,
        }
    }
    pairs.next_counted(&mut Visits::new()).is_none()
}

fn gives_five_counted(tree: &Tree) -> bool {
    match seen(tree).iter_counted(&mut Visits::new()) {
        Ok(mut pairs) => are_five_counted(&mut pairs),
        Err(_) => false,
    }
}

#[test]
fn a_counted_iteration_answers_as_the_plain_one(rt: HostRuntime) {
    let tree = filled(rt.alloc()).expect(&rt, "a tree");
    assert!(rt; gives_five_counted(&tree));
}

fn digits(pairs: BothEndsWithin<'_, Key, u64>) -> u64 {
    let mut digits = 0_u64;
    for (_key, value) in pairs.rev().take(2) {
        digits = digits.wrapping_mul(10).wrapping_add(*value);
    }
    digits
}

// The last two values before "b", the last first, as digits.
fn last_two(tree: &Tree) -> Option<u64> {
    let end = Bound::Excluded(Key::new_from_slice(b"b"));
    match tree.range_both_ends(Bound::Unbounded, end) {
        Ok(pairs) => Some(digits(pairs)),
        Err(_refused) => None,
    }
}

#[test]
fn the_last_two_before_a_bound(rt: HostRuntime) {
    let tree = filled(rt.alloc()).expect(&rt, "a tree");
    assert_eq!(rt; last_two(&tree), Some(32));
}
