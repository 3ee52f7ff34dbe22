//! Walks over values by the calls of a tree that is seen: the outcome of each.

use super::forms::{Calls, Outcome, fold_outcome, match_outcome, outcome_of};
use crate::visits::with_digit;
use rart::{LendingKeyView, Visits};
use rart_test_trees::texts::{Key, Tree};

pub fn values(tree: &Tree, key: Key, lent: bool, calls: &Calls<'_>) -> Outcome {
    let mut callback = |value: &u64| calls.value(*value);
    let seen = tree.seen::<Visits>();
    if lent {
        seen.prefix_values_for_each_by_ref_k_counted(&key, &mut callback, &mut Visits::new())
    } else {
        seen.prefix_values_for_each_k_counted(&key, callback, &mut Visits::new())
    }
}

pub fn fold(tree: &Tree, key: Key, lent: bool, calls: &Calls<'_>) -> Outcome {
    let mut callback = |seen: u64, value: &u64| {
        calls.value(*value);
        with_digit(seen, *value)
    };
    let seen = tree.seen::<Visits>();
    let folded = if lent {
        seen.prefix_values_fold_by_ref_k_counted(&key, 1, &mut callback, &mut Visits::new())
    } else {
        seen.prefix_values_fold_k_counted(&key, 1, callback, &mut Visits::new())
    };
    fold_outcome(folded, calls)
}

pub fn try_values(tree: &Tree, key: Key, lent: bool, calls: &Calls<'_>) -> Outcome {
    let mut callback = |value: &u64| calls.control(*value);
    let seen = tree.seen::<Visits>();
    if lent {
        let tried = seen.try_prefix_values_for_each_by_ref_k_counted(
            &key,
            &mut callback,
            &mut Visits::new(),
        );
        outcome_of(tried, calls)
    } else {
        let tried = seen.try_prefix_values_for_each_k_counted(&key, callback, &mut Visits::new());
        outcome_of(tried, calls)
    }
}

pub fn longest(tree: &Tree, key: Key, calls: &Calls<'_>) -> Outcome {
    let callback = |view: LendingKeyView<'_, '_>, value: &u64| calls.view(view, *value);
    let seen = tree.seen::<Visits>();
    let called = seen.with_longest_prefix_match_view_k_counted(&key, callback, &mut Visits::new());
    match_outcome(called, calls)
}
