//! Edits of many pairs.

use crate::answer::Answer;
use crate::asked::Asked;
use crate::calls::callbacks::put_walked;
use crate::form::Form;
use crate::names::Many;
use crate::row::Args;
use crate::world::Tree;
use rart::{IntoPairs, KeyTrait, TreeError};
use std::alloc::Global;
use std::mem;

// Keeps the pairs of a rule, and shows those that the callback is called with. It adds a number to each value.
fn retain<K: KeyTrait>(
    tree: &mut Tree<K>,
    args: &Args<'_>,
    form: Form,
    answer: &mut Answer,
) -> Result<(), TreeError> {
    let (rule, added) = (args.rule, args.value);
    let mut keep = |key: &[u8], value: &mut u64| {
        answer.pair(key, *value);
        let is_kept = rule.keeps(key, *value);
        *value = (*value).wrapping_add(added);
        is_kept
    };
    if form.lends() {
        tree.retain_by_ref(&mut keep)
    } else {
        tree.retain(keep)
    }
}

// Keeps the pairs of a rule among those below a prefix.
fn prefix_retain<K: KeyTrait + Drop>(
    tree: &mut Tree<K>,
    asked: &Asked<'_, K>,
    answer: &mut Answer,
) -> Result<(), TreeError> {
    let (rule, added, form) = (asked.args().rule, asked.args().value, asked.form);
    let mut keep = |key: &[u8], value: &mut u64| {
        answer.pair(key, *value);
        let is_kept = rule.keeps(key, *value);
        *value = (*value).wrapping_add(added);
        is_kept
    };
    match (form.lends(), form.gives_bytes()) {
        (true, true) => tree.prefix_retain_by_ref_bytes(asked.bytes(), &mut keep),
        (true, false) => tree.prefix_retain_by_ref_k(&asked.key, &mut keep),
        (false, true) => tree.prefix_retain_bytes(asked.bytes(), keep),
        (false, false) => {
            if form.takes_key() {
                tree.prefix_retain(asked.taken(), keep)
            } else {
                tree.prefix_retain_k(&asked.key, keep)
            }
        }
    }
}

// Keeps the pairs of a rule among those within two bounds, which are keys.
fn range_retain<K: KeyTrait + Drop>(
    tree: &mut Tree<K>,
    asked: &Asked<'_, K>,
    answer: &mut Answer,
) -> Result<(), TreeError> {
    let (rule, added) = (asked.args().rule, asked.args().value);
    let mut keep = |key: &[u8], value: &mut u64| {
        answer.pair(key, *value);
        let is_kept = rule.keeps(key, *value);
        *value = (*value).wrapping_add(added);
        is_kept
    };
    if asked.form.lends() {
        tree.range_retain_by_ref(asked.start(), asked.end(), &mut keep)
    } else {
        tree.range_retain(asked.start(), asked.end(), keep)
    }
}

// Keeps the pairs of a rule among those within two bounds, which are bytes.
fn range_retain_bytes<K: KeyTrait + Drop>(
    tree: &mut Tree<K>,
    asked: &Asked<'_, K>,
    answer: &mut Answer,
) -> Result<(), TreeError> {
    let (rule, added) = (asked.args().rule, asked.args().value);
    let mut keep = |key: &[u8], value: &mut u64| {
        answer.pair(key, *value);
        let is_kept = rule.keeps(key, *value);
        *value = (*value).wrapping_add(added);
        is_kept
    };
    if asked.form.lends() {
        tree.range_retain_by_ref_bytes(asked.start_bytes(), asked.end_bytes(), &mut keep)
    } else {
        tree.range_retain_bytes(asked.start_bytes(), asked.end_bytes(), keep)
    }
}

fn remove_range<K: KeyTrait + Drop>(
    tree: &mut Tree<K>,
    asked: &Asked<'_, K>,
) -> Result<usize, TreeError> {
    if asked.form.gives_bytes() {
        tree.remove_range_bytes(asked.start_bytes(), asked.end_bytes())
    } else {
        tree.remove_range(asked.start(), asked.end())
    }
}

fn remove_prefix<K: KeyTrait + Drop>(
    tree: &mut Tree<K>,
    asked: &Asked<'_, K>,
) -> Result<usize, TreeError> {
    if asked.form.takes_key() {
        tree.remove_prefix(asked.taken())
    } else if asked.form.gives_bytes() {
        tree.remove_prefix_bytes(asked.bytes())
    } else {
        tree.remove_prefix_k(&asked.key)
    }
}

/// How many pairs were removed, or the refusal.
pub fn put_removed_count(removed: Result<usize, TreeError>, answer: &mut Answer) {
    match removed {
        Ok(count) => answer.count(count),
        Err(error) => answer.error(error),
    }
}

fn taken<K: KeyTrait + Drop>(
    tree: &mut Tree<K>,
    asked: &Asked<'_, K>,
) -> Result<Tree<K>, TreeError> {
    if asked.form.takes_key() {
        tree.take_prefix(asked.taken())
    } else if asked.form.gives_bytes() {
        tree.take_prefix_bytes(asked.bytes())
    } else {
        tree.take_prefix_k(&asked.key)
    }
}

fn taken_range<K: KeyTrait + Drop>(
    tree: &mut Tree<K>,
    asked: &Asked<'_, K>,
) -> Result<Tree<K>, TreeError> {
    if asked.form.gives_bytes() {
        tree.take_range_bytes(asked.start_bytes(), asked.end_bytes())
    } else {
        tree.take_range(asked.start(), asked.end())
    }
}

fn split_off<K: KeyTrait + Drop>(
    tree: &mut Tree<K>,
    asked: &Asked<'_, K>,
) -> Result<Tree<K>, TreeError> {
    if asked.form.takes_key() {
        tree.split_off(asked.taken())
    } else if asked.form.gives_bytes() {
        tree.split_off_bytes(asked.bytes())
    } else {
        tree.split_off_k(&asked.key)
    }
}

// Moves the pairs that were taken into the other tree, whose own pairs are dropped.
fn put_taken<K: KeyTrait>(
    taken: Result<Tree<K>, TreeError>,
    other: &mut Tree<K>,
    answer: &mut Answer,
) {
    match taken {
        Ok(part) => {
            answer.count(part.len());
            *other = part;
        }
        Err(error) => answer.error(error),
    }
}

fn put_owned<K: KeyTrait + Drop>(pairs: &mut IntoPairs<K, u64>, answer: &mut Answer) {
    answer.word(b"of");
    answer.count(pairs.len());
    while let Some((key, value)) = pairs.next() {
        answer.pair(key.as_ref(), value);
    }
    answer.ended(pairs.next().is_none() && pairs.len() == 0);
}

// Takes all pairs by value; a refusal returns the tree.
fn into_pairs<K: KeyTrait + Drop>(alloc: Global, tree: &mut Tree<K>, answer: &mut Answer) {
    let whole = mem::replace(tree, Tree::new(alloc));
    match whole.into_pairs() {
        Ok(mut pairs) => put_owned(&mut pairs, answer),
        Err(refused) => {
            answer.error(refused.error);
            *tree = refused.value;
        }
    }
}

/// Edits many pairs.
pub fn edit_many<K: KeyTrait + Drop>(
    alloc: Global,
    tree: &mut Tree<K>,
    other: &mut Tree<K>,
    asked: &Asked<'_, K>,
    many: Many,
    answer: &mut Answer,
) {
    match many {
        Many::Retain => {
            let done = retain(tree, asked.args(), asked.form, answer);
            put_walked(done, answer);
        }
        Many::PrefixRetain => {
            let done = prefix_retain(tree, asked, answer);
            put_walked(done, answer);
        }
        Many::RangeRetain => {
            let done = if asked.form.gives_bytes() {
                range_retain_bytes(tree, asked, answer)
            } else {
                range_retain(tree, asked, answer)
            };
            put_walked(done, answer);
        }
        Many::RangeRetainBytes => {
            let done = range_retain_bytes(tree, asked, answer);
            put_walked(done, answer);
        }
        Many::RemoveRange => put_removed_count(remove_range(tree, asked), answer),
        Many::RemoveRangeBytes => {
            let removed = tree.remove_range_bytes(asked.start_bytes(), asked.end_bytes());
            put_removed_count(removed, answer);
        }
        Many::RemovePrefix => put_removed_count(remove_prefix(tree, asked), answer),
        Many::TakePrefix => put_taken(taken(tree, asked), other, answer),
        Many::TakeRange => put_taken(taken_range(tree, asked), other, answer),
        Many::TakeRangeBytes => {
            let taken = tree.take_range_bytes(asked.start_bytes(), asked.end_bytes());
            put_taken(taken, other, answer);
        }
        Many::SplitOff => put_taken(split_off(tree, asked), other, answer),
        Many::IntoPairs => into_pairs(alloc, tree, answer),
    }
}
