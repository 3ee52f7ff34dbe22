//! Reads of a tree: each returns the sum of its answer, or none if memory was refused.
use crate::call::Call;
use crate::kinds::edits::WRONG;
use crate::numbers::{mix, mix_pair, sum_if, sum_of};
use crate::sides::{Tree, bound_of, mix_key, same_key};
use crate::text::Text;
use rart::{
    Descending, Iter, KeyTrait, PrefixMatchIter, Range, RangeDescending, ValuesIter, VisitControl,
    VisitError,
};

fn get<K: KeyTrait + Drop>(tree: &Tree<K>, key: &K) -> u64 {
    let found = sum_of(tree.get_k(key).copied());
    let is_stored = sum_if(tree.contains_key_k(key));
    mix(
        mix(found, sum_of(tree.get(same_key(key)).copied())),
        is_stored,
    )
}

/// The sum of a pair that may be none.
pub fn sum_of_pair<K: KeyTrait + Drop>(found: Option<(K, &u64)>) -> u64 {
    match found {
        Some((key, value)) => mix(mix_key(1, &key), *value),
        None => 5,
    }
}

// By a key and by bytes, which may be more than a key has.
fn longest<K: KeyTrait + Drop>(tree: &Tree<K>, key: &K, probe: &Text) -> u64 {
    let by_key = sum_of_pair(tree.longest_prefix_match_k(key));
    let by_bytes = sum_of_pair(tree.longest_prefix_match_bytes(probe.as_slice()));
    let len = tree
        .longest_prefix_len_bytes(probe.as_slice())
        .map(|found| mix(found.0 as u64, *found.1));
    mix(mix(by_key, by_bytes), sum_of(len))
}

// The four pairs nearest to bytes, which may be more than a key has.
fn nearest<K: KeyTrait + Drop>(tree: &Tree<K>, probe: &[u8]) -> u64 {
    let from = mix(
        sum_of_pair(tree.first_at_or_after_bytes(probe)),
        sum_of_pair(tree.first_after_bytes(probe)),
    );
    let to = mix(
        sum_of_pair(tree.last_at_or_before_bytes(probe)),
        sum_of_pair(tree.last_before_bytes(probe)),
    );
    mix(from, to)
}

// The four pairs nearest to a key.
fn nearest_to_key<K: KeyTrait + Drop>(tree: &Tree<K>, key: &K) -> u64 {
    let from = mix(
        sum_of_pair(tree.first_at_or_after_k(key)),
        sum_of_pair(tree.first_after_k(key)),
    );
    let to = mix(
        sum_of_pair(tree.last_at_or_before_k(key)),
        sum_of_pair(tree.last_before_k(key)),
    );
    mix(from, to)
}

/// The sum of the first and of the last pair.
pub fn ends<K: KeyTrait + Drop>(tree: &Tree<K>) -> u64 {
    mix(
        sum_of_pair(tree.first_key_value()),
        sum_of_pair(tree.last_key_value()),
    )
}

/// The sum with one pair more.
pub fn mix_found<K: KeyTrait + Drop>(sum: u64, found: (K, &u64)) -> u64 {
    mix(mix_key(sum, &found.0), *found.1)
}

fn sum_matches<K: KeyTrait + Drop>(
    found: &mut PrefixMatchIter<'_, K, K::PartialType, u64>,
    most: u64,
) -> u64 {
    let mut sum = 1_u64;
    for _ in 0..most {
        match found.next() {
            Some(pair) => sum = mix_found(sum, pair),
            None => return ended(found.next().is_none(), sum),
        }
    }
    sum
}

fn matches<K: KeyTrait + Drop>(tree: &Tree<K>, probe: &K, most: u64) -> u64 {
    let mut found = tree.prefix_match_iter_k(probe);
    sum_matches(&mut found, most)
}

fn match_for_each<K: KeyTrait>(tree: &Tree<K>, key: &K) -> u64 {
    let mut sum = 1_u64;
    tree.prefix_match_for_each_k(key, |found, value| sum = mix_pair(sum, found, *value));
    sum
}

fn match_for_each_bytes<K: KeyTrait>(tree: &Tree<K>, probe: &[u8]) -> u64 {
    let mut sum = 1_u64;
    tree.prefix_match_for_each_bytes(probe, |found, value| sum = mix_pair(sum, found, *value));
    sum
}

/// The call about one key or probe.
pub fn look<K: KeyTrait + Drop>(tree: &Tree<K>, key: &K, probe: &Text, call: &Call) -> u64 {
    match call.kind {
        9 => mix(get(tree, key), nearest_to_key(tree, key)),
        10 => {
            let found = sum_of(tree.get_bytes(probe.as_slice()).copied());
            mix(found, nearest(tree, probe.as_slice()))
        }
        11 => longest(tree, key, probe),
        12 => sum_of(tree.longest_prefix_value_bytes(probe.as_slice()).copied()),
        13 => matches(tree, key, most_of(call)),
        14 => mix(
            match_for_each(tree, key),
            match_for_each_bytes(tree, probe.as_slice()),
        ),
        _ => mix(mix(tree.len() as u64, sum_if(tree.is_empty())), ends(tree)),
    }
}

/// How many pairs of a walk are read: all of them in one call of five.
pub fn most_of(call: &Call) -> u64 {
    if call.choice % 5 == 0 {
        u64::MAX
    } else {
        (call.choice >> 8) % 40
    }
}

/// What a walk that ended is worth, whose next answer is this.
pub fn ended(is_over: bool, sum: u64) -> u64 {
    if is_over { sum } else { WRONG }
}

fn sum_pairs<K: KeyTrait + Drop>(pairs: &mut Iter<'_, K, K::PartialType, u64>, most: u64) -> u64 {
    let mut sum = 1_u64;
    for _ in 0..most {
        match pairs.next() {
            Some(pair) => sum = mix_found(sum, pair),
            None => return ended(pairs.next().is_none(), sum),
        }
    }
    sum
}

/// The sum of the first pairs, `most` at most.
pub fn iter<K: KeyTrait + Drop>(tree: &Tree<K>, most: u64) -> Option<u64> {
    match tree.iter() {
        Ok(mut pairs) => Some(sum_pairs(&mut pairs, most)),
        Err(_refused) => None,
    }
}

fn sum_values<K: KeyTrait>(values: &mut ValuesIter<'_, K, u64>, most: u64) -> u64 {
    let mut sum = 1_u64;
    for _ in 0..most {
        match values.next() {
            Some(value) => sum = mix(sum, *value),
            None => return ended(values.next().is_none(), sum),
        }
    }
    sum
}

fn values<K: KeyTrait>(tree: &Tree<K>, most: u64) -> Option<u64> {
    match tree.values_iter() {
        Ok(mut values) => Some(sum_values(&mut values, most)),
        Err(_refused) => None,
    }
}

fn prefix_iter<K: KeyTrait + Drop>(tree: &Tree<K>, prefix: &K, most: u64) -> Option<u64> {
    match tree.prefix_iter_k(prefix) {
        Ok(mut pairs) => Some(sum_pairs(&mut pairs, most)),
        Err(_refused) => None,
    }
}

fn values_for_each<K: KeyTrait>(tree: &Tree<K>, prefix: &K) -> Option<u64> {
    let mut sum = 1_u64;
    tree.prefix_values_for_each_k(prefix, |value| sum = mix(sum, *value))
        .ok()?;
    Some(sum)
}

// Stops or fails after `most` values.
fn try_values<K: KeyTrait>(tree: &Tree<K>, prefix: &K, most: u64, fails: bool) -> Option<u64> {
    let mut sum = 1_u64;
    let mut left = most;
    let ended = tree.try_prefix_values_for_each_k(prefix, |value| {
        if left == 0 {
            return if fails {
                Err(17_u64)
            } else {
                Ok(VisitControl::Stop)
            };
        }
        left = left.wrapping_sub(1);
        sum = mix(sum, *value);
        Ok(VisitControl::Continue)
    });
    match ended {
        Ok(()) => Some(sum),
        Err(VisitError::Callback(error)) => Some(mix(sum, error)),
        Err(VisitError::Memory) => None,
    }
}

fn fold<K: KeyTrait>(tree: &Tree<K>, prefix: &K) -> Option<u64> {
    tree.prefix_values_fold_k(prefix, 1_u64, |sum, value| mix(sum, *value))
        .ok()
}

fn sum_within<K: KeyTrait + Drop>(pairs: &mut Range<'_, K, u64>, most: u64) -> u64 {
    let mut sum = 1_u64;
    for _ in 0..most {
        match pairs.next() {
            Some(pair) => sum = mix_found(sum, pair),
            None => return ended(pairs.next().is_none(), sum),
        }
    }
    sum
}

fn range<K: KeyTrait + Drop>(tree: &Tree<K>, start: &K, end: &K, call: &Call) -> Option<u64> {
    let ways = call.choice % 9;
    let count = tree.count_range(bound_of(start, ways / 3), bound_of(end, ways % 3));
    match tree.range(bound_of(start, ways / 3), bound_of(end, ways % 3)) {
        Ok(mut pairs) => Some(mix(sum_within(&mut pairs, most_of(call)), count as u64)),
        Err(_refused) => None,
    }
}

/// Whether a walk begins at the last pair.
pub fn descends(call: &Call) -> bool {
    (call.choice >> 16) % 2 == 1
}

fn sum_descending<K: KeyTrait + Drop>(pairs: &mut Descending<'_, K, u64>, most: u64) -> u64 {
    let mut sum = 1_u64;
    for _ in 0..most {
        match pairs.next() {
            Some(pair) => sum = mix_found(sum, pair),
            None => return ended(pairs.next().is_none(), sum),
        }
    }
    sum
}

/// The sum of the last pairs, `most` at most, the last first.
pub fn iter_descending<K: KeyTrait + Drop>(tree: &Tree<K>, most: u64) -> Option<u64> {
    match tree.iter_descending() {
        Ok(mut pairs) => Some(sum_descending(&mut pairs, most)),
        Err(_refused) => None,
    }
}

fn prefix_descending<K: KeyTrait + Drop>(tree: &Tree<K>, prefix: &K, most: u64) -> Option<u64> {
    match tree.prefix_iter_descending_k(prefix) {
        Ok(mut pairs) => Some(sum_descending(&mut pairs, most)),
        Err(_refused) => None,
    }
}

fn sum_within_descending<K: KeyTrait + Drop>(
    pairs: &mut RangeDescending<'_, K, u64>,
    most: u64,
) -> u64 {
    let mut sum = 1_u64;
    for _ in 0..most {
        match pairs.next() {
            Some(pair) => sum = mix_found(sum, pair),
            None => return ended(pairs.next().is_none(), sum),
        }
    }
    sum
}

fn range_descending<K: KeyTrait + Drop>(
    tree: &Tree<K>,
    start: &K,
    end: &K,
    call: &Call,
) -> Option<u64> {
    let bounds = call.choice % 9;
    match tree.range_descending(bound_of(start, bounds / 3), bound_of(end, bounds % 3)) {
        Ok(mut pairs) => Some(sum_within_descending(&mut pairs, most_of(call))),
        Err(_refused) => None,
    }
}

fn descend<K: KeyTrait + Drop>(tree: &Tree<K>, key: &K, end: &K, call: &Call) -> Option<u64> {
    let most = most_of(call);
    match call.kind {
        16 => iter_descending(tree, most),
        18 => prefix_descending(tree, key, most),
        _ => range_descending(tree, key, end, call),
    }
}

/// The call about many pairs.
pub fn walk<K: KeyTrait + Drop>(tree: &Tree<K>, key: &K, end: &K, call: &Call) -> Option<u64> {
    let most = most_of(call);
    match call.kind {
        17 => values(tree, most),
        19 => values_for_each(tree, key),
        20 => try_values(tree, key, most, call.choice % 2 == 0),
        21 => fold(tree, key),
        _ if descends(call) => descend(tree, key, end, call),
        16 => iter(tree, most),
        18 => prefix_iter(tree, key, most),
        _ => range(tree, key, end, call),
    }
}
