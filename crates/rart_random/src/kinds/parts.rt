//! Edits of the pairs below a prefix or within bounds: they leave as a tree, are dropped, or are kept by a rule.
use crate::call::Call;
use crate::kinds::edits::WRONG;
use crate::kinds::reads::ends;
use crate::kinds::retains::{FEW, note_refusal, retain_below, retain_between, wanted_retain};
use crate::model::Model;
use crate::model::reads::{end_of, ends as wanted_ends, start_of};
use crate::numbers::mix;
use crate::sides::{Side, Tree, bound_of, same_key};
use crate::text::Text;
use rart::{KeyTrait, TreeError};
use std::ops::Bound;

/// What is done with the pairs.
#[derive(Clone, Copy)]
enum Way {
    Take,
    SplitOff,
    Remove,
    RetainBetween,
    RetainBelow,
}

// The way of the call on a tree of `len` pairs.
fn way_of(call: &Call, len: usize) -> Way {
    match (call.choice >> 40) % 8 {
        0 if len <= FEW => Way::SplitOff,
        0..3 => Way::Take,
        3 => Way::Remove,
        4 | 5 => Way::RetainBetween,
        _ => Way::RetainBelow,
    }
}

// How the bounds are meant; those of a large tree hold few pairs.
fn starts_at(call: &Call) -> u64 {
    call.choice % 3
}

fn ends_at(call: &Call) -> u64 {
    (call.choice >> 8) % 3
}

// How many bytes of a large tree's key the start lacks.
fn lacks(call: &Call) -> usize {
    if (call.choice >> 48) % 8 == 0 { 1 } else { 0 }
}

fn bounds<K: KeyTrait>(key: &K, end: &K, call: &Call, len: usize) -> (Bound<K>, Bound<K>) {
    if len > FEW {
        let start = key.truncate(key.as_ref().len().saturating_sub(lacks(call)));
        return (Bound::Included(start), Bound::Included(same_key(key)));
    }
    (bound_of(key, starts_at(call)), bound_of(end, ends_at(call)))
}

fn span_between(model: &Model, key: &Text, end: &Text, call: &Call) -> (usize, usize) {
    if model.len() > FEW {
        let start = key.cut(key.len().saturating_sub(lacks(call)));
        return (start_of(model, &start, 1), end_of(model, key, 1));
    }
    (
        start_of(model, key, starts_at(call)),
        end_of(model, end, ends_at(call)),
    )
}

// The places of the pairs that the call is about, by the model.
fn span(model: &Model, key: &Text, end: &Text, call: &Call) -> (usize, usize) {
    let (from, to) = match way_of(call, model.len()) {
        Way::SplitOff => (start_of(model, key, 1), model.len()),
        Way::RetainBelow => model.below(&key.cut(key.len() / 2)),
        _ => span_between(model, key, end, call),
    };
    (from, to.max(from))
}

// The count, the ends and the values of the tree that left; no memory is asked for.
fn taken<K: KeyTrait + Drop>(answer: Result<Tree<K>, TreeError>) -> Option<u64> {
    match answer {
        Ok(mut part) => {
            part.canonical();
            let mut sum = mix(part.len() as u64, ends(&part));
            part.for_each_value_mut(|value: &mut u64| {
                sum = mix(sum, *value);
            });
            Some(sum)
        }
        Err(TreeError::Memory) => None,
        Err(TreeError::Full) => Some(WRONG),
    }
}

fn removed(answer: Result<usize, TreeError>) -> Option<u64> {
    match answer {
        Ok(count) => Some(count as u64),
        Err(TreeError::Memory) => None,
        Err(TreeError::Full) => Some(WRONG),
    }
}

/// Makes the edit that the call names; none if memory was refused.
pub fn edit<K: KeyTrait + Drop>(tree: &mut Tree<K>, key: &K, end: &K, call: &Call) -> Option<u64> {
    let len = tree.len();
    let (start, end) = bounds(key, end, call, len);
    match way_of(call, len) {
        Way::Take => taken(tree.take_range(start, end)),
        Way::SplitOff => taken(tree.split_off_k(key)),
        Way::Remove => removed(tree.remove_range(start, end)),
        Way::RetainBetween => retain_between(tree, start, end, call),
        Way::RetainBelow => retain_below(tree, &key.truncate(key.as_ref().len() / 2), call),
    }
}

// The sum of what leaves the model.
fn wanted_taken(model: &mut Model, from: usize, to: usize) -> u64 {
    let mut sum = mix(to.wrapping_sub(from) as u64, wanted_ends(model, from, to));
    for place in from..to {
        if let Some((_key, value)) = model.at(place) {
            sum = mix(sum, value);
        }
    }
    sum
}

/// What the edit must answer, by the model, which it is made in.
pub fn wanted(model: &mut Model, key: &Text, end: &Text, call: &Call) -> u64 {
    let (from, to) = span(model, key, end, call);
    let sum = match way_of(call, model.len()) {
        Way::RetainBetween | Way::RetainBelow => return wanted_retain(model, from, to, call),
        Way::Remove => to.wrapping_sub(from) as u64,
        _ => wanted_taken(model, from, to),
    };
    model.remove_span(from, to);
    sum
}

/// Leaves in the model what a refused call left in the tree, and returns whether it may.
pub fn note_refused<K: KeyTrait + Drop>(
    side: &mut Side<K>,
    key: &Text,
    end: &Text,
    call: &Call,
) -> bool {
    let (from, to) = span(&side.model, key, end, call);
    match way_of(call, side.model.len()) {
        Way::RetainBetween | Way::RetainBelow => {
            note_refusal(&side.tree, &mut side.model, from, to, call)
        }
        _ => true,
    }
}
