//! Walks by turns from both ends of a tree: each returns the sum of its answer, or none if memory was refused.
use crate::call::Call;
use crate::kinds::reads::{ended, mix_found, most_of};
use crate::numbers::mix;
use crate::sides::{Tree, bound_of};
use rart::{BothEnds, BothEndsWithin, KeyTrait, ValuesBothEnds};

/// Whether a turn of a walk is at the back: seldom, mostly, or by the bits of the value.
pub fn is_back(call: &Call, turn: u64) -> bool {
    match (call.choice >> 20) % 4 {
        0 => turn % 8 == 7,
        1 => turn % 8 != 7,
        _ => (call.value >> (turn % 64)) % 2 == 1,
    }
}

// `pairs.len()` would be the length of the iterator `&mut BothEnds`.
fn sum_by_turns<K: KeyTrait + Drop>(pairs: &mut BothEnds<'_, K, u64>, call: &Call) -> u64 {
    let mut sum = 1_u64;
    for turn in 0..most_of(call) {
        sum = mix(sum, (*pairs).len() as u64);
        let found = if is_back(call, turn) {
            pairs.next_back()
        } else {
            pairs.next()
        };
        match found {
            Some(pair) => sum = mix_found(sum, pair),
            None => return ended(pairs.next().is_none() && pairs.next_back().is_none(), sum),
        }
    }
    mix(sum, (*pairs).len() as u64)
}

fn pairs_by_turns<K: KeyTrait + Drop>(tree: &Tree<K>, call: &Call) -> Option<u64> {
    match tree.iter_both_ends() {
        Ok(mut pairs) => Some(sum_by_turns(&mut pairs, call)),
        Err(_refused) => None,
    }
}

fn sum_values_by_turns<K: KeyTrait + Drop>(
    values: &mut ValuesBothEnds<'_, K, u64>,
    call: &Call,
) -> u64 {
    let mut sum = 1_u64;
    for turn in 0..most_of(call) {
        sum = mix(sum, (*values).len() as u64);
        let found = if is_back(call, turn) {
            values.next_back()
        } else {
            values.next()
        };
        match found {
            Some(value) => sum = mix(sum, *value),
            None => return ended(values.next().is_none() && values.next_back().is_none(), sum),
        }
    }
    mix(sum, (*values).len() as u64)
}

fn values_by_turns<K: KeyTrait + Drop>(tree: &Tree<K>, call: &Call) -> Option<u64> {
    match tree.values_iter_both_ends() {
        Ok(mut values) => Some(sum_values_by_turns(&mut values, call)),
        Err(_refused) => None,
    }
}

fn sum_part_by_turns<K: KeyTrait + Drop>(
    pairs: &mut BothEndsWithin<'_, K, u64>,
    call: &Call,
) -> u64 {
    let mut sum = 1_u64;
    for turn in 0..most_of(call) {
        let found = if is_back(call, turn) {
            pairs.next_back()
        } else {
            pairs.next()
        };
        match found {
            Some(pair) => sum = mix_found(sum, pair),
            None => return ended(pairs.next().is_none() && pairs.next_back().is_none(), sum),
        }
    }
    sum
}

fn prefix_by_turns<K: KeyTrait + Drop>(tree: &Tree<K>, prefix: &K, call: &Call) -> Option<u64> {
    match tree.prefix_iter_both_ends_k(prefix) {
        Ok(mut pairs) => Some(sum_part_by_turns(&mut pairs, call)),
        Err(_refused) => None,
    }
}

fn range_by_turns<K: KeyTrait + Drop>(
    tree: &Tree<K>,
    start: &K,
    end: &K,
    call: &Call,
) -> Option<u64> {
    let bounds = call.choice % 9;
    match tree.range_both_ends(bound_of(start, bounds / 3), bound_of(end, bounds % 3)) {
        Ok(mut pairs) => Some(sum_part_by_turns(&mut pairs, call)),
        Err(_refused) => None,
    }
}

/// The walk that the call names.
pub fn turn<K: KeyTrait + Drop>(tree: &Tree<K>, key: &K, end: &K, call: &Call) -> Option<u64> {
    match call.kind {
        42 => pairs_by_turns(tree, call),
        43 => values_by_turns(tree, call),
        44 => prefix_by_turns(tree, key, call),
        _ => range_by_turns(tree, key, end, call),
    }
}
