//! The pairs of a clone by value, all of them or the first.
use crate::call::Call;
use crate::kinds::edits::WRONG;
use crate::kinds::reads::{ended, most_of};
use crate::model::Model;
use crate::numbers::mix;
use crate::sides::{Tree, mix_key};
use rart::{IntoPairs, KeyTrait, Refused, TreeError};

fn sum_owned<K: KeyTrait + Drop>(pairs: &mut IntoPairs<K, u64>, most: u64) -> u64 {
    let mut sum = 1_u64;
    for _ in 0..most {
        match pairs.next() {
            Some((key, value)) => sum = mix(mix_key(sum, &key), value),
            None => return ended(pairs.next().is_none(), sum),
        }
    }
    mix(sum, pairs.len() as u64)
}

// What a refusal is worth: none if it is documented, and returned the tree.
fn kept<K: KeyTrait + Drop>(refusal: Refused<Tree<K>>, tree: &Tree<K>) -> Option<u64> {
    if refusal.error == TreeError::Memory && refusal.value == *tree {
        None
    } else {
        Some(WRONG)
    }
}

// The sum of the first pairs of the clone itself, and of the count of the others.
fn sum_of<K: KeyTrait + Drop>(copy: Tree<K>, tree: &Tree<K>, call: &Call) -> Option<u64> {
    match copy.into_pairs() {
        Ok(mut pairs) => Some(sum_owned(&mut pairs, most_of(call))),
        Err(refusal) => kept(refusal, tree),
    }
}

/// The sum of the first pairs of a clone, by value, and of the count of the others.
pub fn owned<K: KeyTrait + Drop>(tree: &Tree<K>, call: &Call) -> Option<u64> {
    match tree.clone() {
        Ok(copy) => sum_of(copy, tree, call),
        Err(_refused) => None,
    }
}

/// What `owned` is to be, by the model.
pub fn wanted_owned(model: &Model, call: &Call) -> u64 {
    let most = most_of(call);
    let len = model.len() as u64;
    if most > len {
        return model.sum(0, model.len(), true);
    }
    mix(model.sum(0, most as usize, true), len.wrapping_sub(most))
}
