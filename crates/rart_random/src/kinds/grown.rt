//! Trees made from nothing by insertions of one kind, so that each of them stores the first and the longest key.
use crate::call::Call;
use crate::kinds::edits::edit;
use crate::kinds::reads::iter;
use crate::kinds::views::view;
use crate::model::{Model, Pair, edits, views};
use crate::numbers::mix;
use crate::shape::{shape_in, shape_of};
use crate::sides::{Tree, key_of};
use crate::text::Text;
use rart::KeyTrait;
use std::alloc::Global;

/// The edits that insert a pair: the kinds of their calls.
const INSERTIONS: [u64; 5] = [0, 2, 3, 7, 8];

/// The choice by which the callback of an update inserts.
const INSERTS: u64 = 5;

/// The call that reads all views.
const VIEWS: u64 = 24;

// The insertion of a pair, by the edit that the call chooses.
fn insertion(pair: &Pair, call: &Call) -> Call {
    let mut one = *call;
    one.kind = INSERTIONS
        .get((call.choice % 5) as usize)
        .copied()
        .unwrap_or(0);
    one.value = pair.1;
    one.choice = INSERTS;
    one
}

fn all_views(call: &Call) -> Call {
    let mut one = *call;
    one.kind = VIEWS;
    one
}

// The pair at a place, from the front or from the back.
fn pair_at(list: &[Pair], place: usize, call: &Call) -> Option<Pair> {
    let at = if call.value % 2 == 0 {
        place
    } else {
        list.len().wrapping_sub(place).wrapping_sub(1)
    };
    list.get(at).copied()
}

fn insert<K: KeyTrait + Drop>(tree: &mut Tree<K>, pair: &Pair, call: &Call) -> Option<u64> {
    let key = key_of::<K>(&pair.0)?;
    edit(tree, &key, &insertion(pair, call))
}

// The sum of the answers.
fn insert_all<K: KeyTrait + Drop>(tree: &mut Tree<K>, list: &[Pair], call: &Call) -> Option<u64> {
    let mut sum = 1_u64;
    for place in 0..list.len() {
        let pair = pair_at(list, place, call)?;
        sum = mix(sum, insert(tree, &pair, call)?);
    }
    Some(sum)
}

fn views_in<K: KeyTrait + Drop>(tree: &Tree<K>, call: &Call) -> Option<u64> {
    let end = key_of::<K>(&Text::new())?;
    view(tree, &end, &end, &all_views(call))
}

fn grow_in<K: KeyTrait + Drop>(tree: &mut Tree<K>, list: &[Pair], call: &Call) -> Option<u64> {
    let sum = insert_all(tree, list, call)?;
    let pairs = mix(iter(tree, u64::MAX)?, views_in(tree, call)?);
    Some(mix(mix(sum, pairs), shape_in(tree)?))
}

/// The sum of the answers, pairs, views and statistics; none if memory was refused.
pub fn grow<K: KeyTrait + Drop>(alloc: Global, list: &[Pair], call: &Call) -> Option<u64> {
    let mut tree = Tree::<K>::new(alloc);
    grow_in(&mut tree, list, call)
}

/// The sum that the model gives.
pub fn wanted_grow(alloc: Global, list: &[Pair], call: &Call) -> u64 {
    let mut model = Model::new(alloc);
    let mut sum = 1_u64;
    for place in 0..list.len() {
        if let Some(pair) = pair_at(list, place, call) {
            let answer = edits::edit(&mut model, &pair.0, &insertion(&pair, call));
            sum = mix(sum, answer);
        }
    }
    let none = Text::new();
    let views = views::view(&model, &none, &none, &all_views(call));
    let pairs = mix(model.sum(0, model.len(), true), views);
    match shape_of(alloc, &model) {
        Ok(shape) => mix(mix(sum, pairs), shape),
        Err(_refused) => 1,
    }
}
