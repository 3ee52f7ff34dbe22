//! Walks that lend keys in segments, and walks of two trees.
use crate::call::Call;
use crate::numbers::{mix, mix_bytes, sum_if};
use crate::sides::{Tree, bound_of, mix_key};
use rart::{KeyTrait, LendingKeyView};

/// How many views of a walk are read; the others are counted.
pub const READ: u64 = 200;

fn mix_view(sum: u64, view: LendingKeyView<'_, '_>) -> u64 {
    let mut sum = sum;
    for segment in view.segments() {
        sum = mix_bytes(sum, segment);
    }
    sum
}

// The sum and the count after one more view.
fn next_view(state: (u64, u64), view: LendingKeyView<'_, '_>, value: u64) -> (u64, u64) {
    let count = state.1.wrapping_add(1);
    if state.1 >= READ {
        return (state.0, count);
    }
    (mix(mix_view(state.0, view), value), count)
}

fn all_views<K: KeyTrait>(tree: &Tree<K>) -> Option<u64> {
    let mut state = (1_u64, 0_u64);
    tree.for_each_view(|view, value| state = next_view(state, view, *value))
        .ok()?;
    Some(mix(state.0, state.1))
}

fn prefix_views<K: KeyTrait + Drop>(tree: &Tree<K>, prefix: &K) -> Option<u64> {
    let mut state = (1_u64, 0_u64);
    tree.prefix_for_each_view_k(prefix, |view, value| state = next_view(state, view, *value))
        .ok()?;
    let sum = mix(mix(state.0, state.1), tree.count_prefix_k(prefix) as u64);
    Some(match tree.longest_common_prefix_bytes(prefix.as_ref()) {
        Some(shared) => mix_bytes(sum, shared.as_ref()),
        None => sum,
    })
}

fn range_views<K: KeyTrait + Drop>(tree: &Tree<K>, start: &K, end: &K, ways: u64) -> Option<u64> {
    let mut state = (1_u64, 0_u64);
    let (from, to) = (bound_of(start, ways / 3), bound_of(end, ways % 3));
    tree.for_each_range_view(
        from,
        to,
        |view, value| state = next_view(state, view, *value),
    )
    .ok()?;
    Some(mix(state.0, state.1))
}

fn longest_view<K: KeyTrait>(tree: &Tree<K>, probe: &K) -> Option<u64> {
    let mut state = (1_u64, 0_u64);
    tree.with_longest_prefix_match_view_k(
        probe,
        |view, value| state = next_view(state, view, *value),
    ).ok()?;
    Some(mix(state.0, state.1))
}

/// The call with views.
pub fn view<K: KeyTrait + Drop>(tree: &Tree<K>, key: &K, end: &K, call: &Call) -> Option<u64> {
    match call.kind {
        24 => all_views(tree),
        25 => prefix_views(tree, key),
        26 => range_views(tree, key, end, call.choice % 9),
        _ => longest_view(tree, key),
    }
}

fn values_with<K: KeyTrait>(one: &Tree<K>, other: &Tree<K>) -> u64 {
    let mut sum = 1_u64;
    one.intersect_values_with(other, |left, right| sum = mix(mix(sum, *left), *right));
    sum
}

fn keys_with<K: KeyTrait + Drop>(one: &Tree<K>, other: &Tree<K>) -> Option<u64> {
    let mut sum = 1_u64;
    one.intersect_with(
        other,
        |key: K, left, right| sum = mix(mix(mix_key(sum, &key), *left), *right),
    )
    .ok()?;
    Some(sum)
}

fn views_with<K: KeyTrait>(one: &Tree<K>, other: &Tree<K>) -> Option<u64> {
    let mut sum = 1_u64;
    one.intersect_lending_with(other, |view, left, right| {
        let mut next = sum;
        for byte in view.bytes() {
            next = mix(next, u64::from(byte));
        }
        sum = mix(mix(mix(next, view.len() as u64), *left), *right);
    })
    .ok()?;
    Some(sum)
}

// The number of shared keys, and whether the trees are equal, one a subset of the other, and disjoint.
fn compare<K: KeyTrait>(one: &Tree<K>, other: &Tree<K>) -> u64 {
    let shared = mix(one.intersect_count(other) as u64, sum_if(*one == *other));
    let is_subset = sum_if(one.is_subset(other));
    mix(mix(shared, is_subset), sum_if(one.is_disjoint(other)))
}

/// The call about both trees.
pub fn join<K: KeyTrait + Drop>(one: &Tree<K>, other: &Tree<K>, kind: u64) -> Option<u64> {
    match kind {
        28 => Some(compare(one, other)),
        29 => Some(values_with(one, other)),
        30 => keys_with(one, other),
        _ => views_with(one, other),
    }
}
