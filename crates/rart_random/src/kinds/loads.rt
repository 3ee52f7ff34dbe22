//! Bulk loads of lists that a model gives, in order or out of it.
use crate::call::Call;
use crate::copies::copies_are_right;
use crate::kinds::edits::WRONG;
use crate::kinds::reads::{iter, iter_descending};
use crate::model::{Model, Pair};
use crate::numbers::{mix, sum_if};
use crate::shape::{shape_in, shape_of};
use crate::sides::{Tree, key_of};
use rart::{BulkError, KeyTrait, Refused};
use std::alloc::{AllocError, Global};
use std::cmp::Ordering;

/// The most pairs of a list.
const MOST: u64 = 300;

fn push_pairs(list: &mut Vec<Pair>, model: &Model, call: &Call) -> Result<(), AllocError> {
    let from = (call.choice >> 16)
        .checked_rem(model.len() as u64)
        .unwrap_or(0) as usize;
    let count = (call.choice >> 32) % MOST;
    let odd = (call.value % MOST) as usize;
    for place in from..from.saturating_add(count as usize) {
        let other = if call.kind == 33 && place.wrapping_sub(from) == odd {
            place.saturating_add(2)
        } else {
            place
        };
        if let Some(pair) = model.at(other) {
            list.push(pair)?;
            if (call.value >> 16) % 3 == 0 {
                list.push((pair.0, pair.1.wrapping_add(1)))?;
            }
        }
    }
    Ok(())
}

/// The list of the call: pairs of the model from some place on, some of them twice, or two of them exchanged.
pub fn list_of(alloc: Global, model: &Model, call: &Call) -> Result<Vec<Pair>, AllocError> {
    let mut list = Vec::new(alloc);
    push_pairs(&mut list, model, call)?;
    Ok(list)
}

fn items<K: KeyTrait + Drop>(alloc: Global, list: &[Pair]) -> Result<Vec<(K, u64)>, AllocError> {
    let mut items = Vec::new(alloc);
    for pair in list {
        if let Some(key) = key_of::<K>(&pair.0) {
            items.push((key, pair.1))?;
        }
    }
    Ok(items)
}

fn equals<K: KeyTrait + Drop>(
    tree: &Tree<K>,
    made: Result<Tree<K>, Refused<(K, u64)>>,
) -> Option<bool> {
    match made {
        Ok(other) => Some(other == *tree),
        Err(_refused) => None,
    }
}

// Whether the tree is the one that the list gives by insertions in turn; none if memory was refused.
fn is_inserted<K: KeyTrait + Drop>(alloc: Global, tree: &Tree<K>, list: &[Pair]) -> Option<bool> {
    match items::<K>(alloc, list) {
        Ok(items) => equals(tree, Tree::<K>::from_pairs(alloc, items)),
        Err(_refused) => None,
    }
}

// The sum of the tree of a list.
fn sum_of<K: KeyTrait + Drop>(alloc: Global, tree: &Tree<K>, list: &[Pair]) -> Option<u64> {
    let is_right = is_inserted(alloc, tree, list)? && copies_are_right(tree, list)?;
    let both = mix(iter(tree, u64::MAX)?, iter_descending(tree, u64::MAX)?);
    Some(mix(mix(both, shape_in(tree)?), sum_if(is_right)))
}

fn sum_of_load<K: KeyTrait + Drop>(
    alloc: Global,
    loaded: Result<Tree<K>, BulkError>,
    list: &[Pair],
) -> Option<u64> {
    match loaded {
        Ok(tree) => sum_of(alloc, &tree, list),
        Err(BulkError::Unsorted { at }) => Some(mix(13, at as u64)),
        Err(BulkError::Memory) => None,
        Err(BulkError::Full) => Some(WRONG),
    }
}

/// The sum of the tree of the list, or of its fault.
pub fn load<K: KeyTrait + Drop>(alloc: Global, list: &[Pair]) -> Option<u64> {
    match items::<K>(alloc, list) {
        Ok(items) => sum_of_load(alloc, Tree::<K>::bulk_load_sorted(alloc, items), list),
        Err(_refused) => None,
    }
}

fn fault(list: &[Pair]) -> Option<u64> {
    let mut at = 0_u64;
    let mut last: Option<&Pair> = None;
    for pair in list {
        if let Some(before) = last {
            if pair.0.order(&before.0) == Ordering::Less {
                return Some(at);
            }
        }
        last = Some(pair);
        at = at.wrapping_add(1);
    }
    None
}

/// What the load must answer.
pub fn wanted_load(alloc: Global, list: &[Pair]) -> u64 {
    if let Some(at) = fault(list) {
        return mix(13, at);
    }
    let mut model = Model::new(alloc);
    for pair in list {
        model.put(&pair.0, pair.1);
    }
    match shape_of(alloc, &model) {
        Ok(shape) => {
            let both = mix(
                model.sum(0, model.len(), true),
                model.sum_back(0, model.len()),
            );
            mix(mix(both, shape), sum_if(true))
        }
        Err(_refused) => 1,
    }
}
