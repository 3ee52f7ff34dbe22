//! Calls on the keys of either tree.

use crate::answer::Answer;
use crate::calls::both::put_appended;
use crate::form::Form;
use crate::names::Both;
use crate::world::Tree;
use rart::{DifferenceIter, KeyTrait, Refused, TreeError, UnionIter};

fn put_walked(walked: Result<(), TreeError>, answer: &mut Answer) {
    match walked {
        Ok(()) => answer.end(),
        Err(error) => answer.error(error),
    }
}

fn with_either<K: KeyTrait + Drop>(
    tree: &Tree<K>,
    other: &Tree<K>,
    form: Form,
    answer: &mut Answer,
) -> Result<(), TreeError> {
    let mut show = |key: K, left: Option<&u64>, right: Option<&u64>| {
        answer.pair_of_either(key.as_ref(), left.copied(), right.copied());
    };
    if form.lends() {
        tree.union_with_by_ref(other, &mut show)
    } else {
        tree.union_with(other, show)
    }
}

fn put_union<K: KeyTrait + Drop>(pairs: &mut UnionIter<'_, K, u64, u64>, answer: &mut Answer) {
    while let Some((key, left, right)) = pairs.next() {
        answer.pair_of_either(key.as_ref(), left.copied(), right.copied());
    }
    answer.ended(pairs.next().is_none() && pairs.next().is_none());
}

fn put_union_of<K: KeyTrait + Drop>(tree: &Tree<K>, other: &Tree<K>, answer: &mut Answer) {
    match tree.union_iter(other) {
        Ok(mut pairs) => put_union(&mut pairs, answer),
        Err(error) => answer.error(error),
    }
}

fn put_difference<K: KeyTrait + Drop>(
    pairs: &mut DifferenceIter<'_, K, u64, u64>,
    answer: &mut Answer,
) {
    while let Some((key, value)) = pairs.next() {
        answer.pair(key.as_ref(), *value);
    }
    answer.ended(pairs.next().is_none() && pairs.next().is_none());
}

fn put_difference_of<K: KeyTrait + Drop>(tree: &Tree<K>, other: &Tree<K>, answer: &mut Answer) {
    match tree.difference_iter(other) {
        Ok(mut pairs) => put_difference(&mut pairs, answer),
        Err(error) => answer.error(error),
    }
}

// Merges by a callback that shows both values, and leaves ten times the one and the other.
fn merged<K: KeyTrait + Drop>(
    tree: &mut Tree<K>,
    other: &mut Tree<K>,
    form: Form,
    answer: &mut Answer,
) -> Result<(), Refused<Option<(K, u64)>>> {
    let mut join = |key: &K, stored: &mut u64, value: u64| {
        answer.pair_of_two(key.as_ref(), *stored, value);
        *stored = (*stored).wrapping_mul(10).wrapping_add(value);
    };
    if form.lends() {
        tree.merge_with_by_ref(other, &mut join)
    } else {
        tree.merge_with(other, join)
    }
}

/// Makes a call on the keys of either tree.
pub fn call_either<K: KeyTrait + Drop>(
    tree: &mut Tree<K>,
    other: &mut Tree<K>,
    both: Both,
    form: Form,
    answer: &mut Answer,
) {
    match both {
        Both::UnionWith => {
            let walked = with_either(tree, other, form, answer);
            put_walked(walked, answer);
        }
        Both::UnionIter => put_union_of(tree, other, answer),
        Both::DifferenceIter => put_difference_of(tree, other, answer),
        _ => {
            let done = merged(tree, other, form, answer);
            put_appended(done, answer);
        }
    }
}
