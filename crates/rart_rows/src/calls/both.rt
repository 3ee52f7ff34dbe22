//! Calls on both trees.

use crate::answer::Answer;
use crate::calls::callbacks::{control, put_tried};
use crate::calls::unions::call_either;
use crate::form::Form;
use crate::names::Both;
use crate::request::Walk;
use crate::world::Tree;
use rart::{KeyTrait, LendingKeyView, Refused, TreeError, VisitError};
use std::mem;

/// What an append returns: a refused pair that neither side took follows the error.
pub fn put_appended<K: KeyTrait + Drop>(
    appended: Result<(), Refused<Option<(K, u64)>>>,
    answer: &mut Answer,
) {
    match appended {
        Ok(()) => answer.word(b"done"),
        Err(refused) => {
            answer.error(refused.error);
            if let Some((key, value)) = refused.value {
                answer.pair(key.as_ref(), value);
            }
        }
    }
}

// Makes the other tree a clone.
fn clone_into<K: KeyTrait + Drop>(tree: &Tree<K>, other: &mut Tree<K>, answer: &mut Answer) {
    match tree.clone() {
        Ok(copy) => {
            answer.count(copy.len());
            *other = copy;
        }
        Err(_refused) => answer.refusal(b"memory"),
    }
}

// Whether the trees are equal, if `!=` says the contrary and the tree equals itself.
fn put_equal<K: KeyTrait>(tree: &Tree<K>, other: &Tree<K>, answer: &mut Answer) {
    let is_equal = *tree == *other;
    answer.truth(is_equal);
    if (*tree != *other) == is_equal || *tree != *tree {
        answer.word(b"and not");
    }
}

fn swap<K: KeyTrait>(tree: &mut Tree<K>, other: &mut Tree<K>, answer: &mut Answer) {
    mem::swap(tree, other);
    answer.word(b"done");
}

fn put_walked(walked: Result<(), TreeError>, answer: &mut Answer) {
    match walked {
        Ok(()) => answer.end(),
        Err(error) => answer.error(error),
    }
}

fn with_values<K: KeyTrait>(tree: &Tree<K>, other: &Tree<K>, form: Form, answer: &mut Answer) {
    let mut show = |left: &u64, right: &u64| answer.two_values(*left, *right);
    if form.lends() {
        tree.intersect_values_with_by_ref(other, &mut show);
    } else {
        tree.intersect_values_with(other, show);
    }
}

fn with_keys<K: KeyTrait + Drop>(
    tree: &Tree<K>,
    other: &Tree<K>,
    form: Form,
    answer: &mut Answer,
) -> Result<(), TreeError> {
    let mut show = |key: K, left: &u64, right: &u64| {
        answer.pair_of_two(key.as_ref(), *left, *right);
    };
    if form.lends() {
        tree.intersect_with_by_ref(other, &mut show)
    } else {
        tree.intersect_with(other, show)
    }
}

fn try_with_keys<K: KeyTrait + Drop>(
    tree: &Tree<K>,
    other: &Tree<K>,
    walk: Walk,
    form: Form,
    answer: &mut Answer,
) -> Result<(), VisitError<u64>> {
    let mut call = 0_u64;
    let mut show = |key: K, left: &u64, right: &u64| {
        call = call.wrapping_add(1);
        answer.pair_of_two(key.as_ref(), *left, *right);
        control(walk, call)
    };
    if form.lends() {
        tree.try_intersect_with_by_ref(other, &mut show)
    } else {
        tree.try_intersect_with(other, show)
    }
}

fn with_views<K: KeyTrait>(
    tree: &Tree<K>,
    other: &Tree<K>,
    form: Form,
    answer: &mut Answer,
) -> Result<(), TreeError> {
    let mut show = |view: LendingKeyView<'_, '_>, left: &u64, right: &u64| {
        answer.view_of_two(view, *left, *right);
    };
    if form.lends() {
        tree.intersect_lending_with_by_ref(other, &mut show)
    } else {
        tree.intersect_lending_with(other, show)
    }
}

// The intersections.
fn intersect<K: KeyTrait + Drop>(
    tree: &Tree<K>,
    other: &Tree<K>,
    both: Both,
    walk: Walk,
    form: Form,
    answer: &mut Answer,
) {
    match both {
        Both::IntersectValuesWith => {
            with_values(tree, other, form, answer);
            answer.end();
        }
        Both::IntersectWith => {
            let walked = with_keys(tree, other, form, answer);
            put_walked(walked, answer);
        }
        Both::TryIntersectWith => {
            let tried = try_with_keys(tree, other, walk, form, answer);
            put_tried(tried, answer);
        }
        Both::IntersectLendingWith => {
            let walked = with_views(tree, other, form, answer);
            put_walked(walked, answer);
        }
        _ => answer.count(tree.intersect_count(other)),
    }
}

/// Makes a call on both trees.
pub fn call_both<K: KeyTrait + Drop>(
    tree: &mut Tree<K>,
    other: &mut Tree<K>,
    both: Both,
    walk: Walk,
    form: Form,
    answer: &mut Answer,
) {
    match both {
        Both::Append => put_appended(tree.append(other), answer),
        Both::Clone => clone_into(tree, other, answer),
        Both::Equal => put_equal(tree, other, answer),
        Both::Swap => swap(tree, other, answer),
        Both::IsSubset => answer.truth(tree.is_subset(other)),
        Both::IsDisjoint => answer.truth(tree.is_disjoint(other)),
        Both::UnionWith | Both::UnionIter | Both::DifferenceIter | Both::MergeWith => {
            call_either(tree, other, both, form, answer)
        }
        _ => intersect(tree, other, both, walk, form, answer),
    }
}
