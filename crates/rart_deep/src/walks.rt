//! Iterators over the tree, and walks with views of its keys.
ghost use Rattle.std.specs.Prelude.{IfOk};
ghost use Rattle.std.specs.Iterator.{IsFinite};

use crate::trees::{Key, Tree, key};
use rart::{BothEnds, BothEndsWithin, TreeError, ValuesBothEnds};
use std::ops::Bound;

/// Returns the number of items that are left. The iterator is borrowed: a proof takes longer of a loop that owns one.
pub fn count<I: Iterator>(items: &mut I) -> usize
where
    I::Item: Drop,
    requires can_next { I.can_next items.now × IsFinite (I.remaining items.now) }
{
    let mut count: usize = 0;
    while let Some(_item) = items.next() {
        count = count.saturating_add(1);
    }
    count
}

// Returns the number of items of an iterator. `None` without memory.
fn counted<I: Iterator>(started: Result<I, TreeError>) -> Option<usize>
where
    I::Item: Drop,
    requires can_next { IfOk started (λ items. I.can_next items × IsFinite (I.remaining items)) }
{
    match started {
        Ok(mut items) => Some(count(&mut items)),
        Err(_refused) => None,
    }
}

// Returns the number of pairs from the third to the last but one.
fn range(tree: &Tree) -> Option<usize> {
    counted(tree.range(Bound::Included(key(3)), Bound::Excluded(key(1024))))
}

// The same, read descending.
fn range_descending(tree: &Tree) -> Option<usize> {
    counted(tree.range_descending(Bound::Included(key(3)), Bound::Excluded(key(1024))))
}

// Returns the number of pairs that 513 turns of both ends give.
fn count_from_ends(pairs: &mut BothEnds<'_, Key, u64>) -> usize {
    let mut count: usize = 0;
    for _turn in 0..513 {
        if pairs.next().is_some() {
            count = count.saturating_add(1);
        }
        if pairs.next_back().is_some() {
            count = count.saturating_add(1);
        }
    }
    count
}

// Returns the number of values that 513 turns of both ends give.
fn count_values_from_ends(values: &mut ValuesBothEnds<'_, Key, u64>) -> usize {
    let mut count: usize = 0;
    for _turn in 0..513 {
        if values.next().is_some() {
            count = count.saturating_add(1);
        }
        if values.next_back().is_some() {
            count = count.saturating_add(1);
        }
    }
    count
}

// Returns the number of pairs of a part that 513 turns of both ends give.
fn count_part_from_ends(pairs: &mut BothEndsWithin<'_, Key, u64>) -> usize {
    let mut count: usize = 0;
    for _turn in 0..513 {
        if pairs.next().is_some() {
            count = count.saturating_add(1);
        }
        if pairs.next_back().is_some() {
            count = count.saturating_add(1);
        }
    }
    count
}

// Returns the number of pairs, read from both ends.
fn both_ends(tree: &Tree) -> Option<usize> {
    match tree.iter_both_ends() {
        Ok(mut pairs) => Some(count_from_ends(&mut pairs)),
        Err(_refused) => None,
    }
}

// Returns the number of values, read from both ends.
fn values_both_ends(tree: &Tree) -> Option<usize> {
    match tree.values_iter_both_ends() {
        Ok(mut values) => Some(count_values_from_ends(&mut values)),
        Err(_refused) => None,
    }
}

// Returns the number of pairs from the third on, read from both ends.
fn range_both_ends(tree: &Tree) -> Option<usize> {
    match tree.range_both_ends(Bound::Included(key(3)), Bound::Included(key(1024))) {
        Ok(mut pairs) => Some(count_part_from_ends(&mut pairs)),
        Err(_refused) => None,
    }
}

// Returns the number of views.
fn views(tree: &Tree) -> Option<usize> {
    let mut count: usize = 0;
    tree.for_each_view(|_view, _value| count = count.saturating_add(1))
        .ok()?;
    Some(count)
}

// Returns the number of views from the third key to the last but one.
fn range_views(tree: &Tree) -> Option<usize> {
    let mut count: usize = 0;
    let (start, end) = (Bound::Included(key(3)), Bound::Excluded(key(1024)));
    tree.for_each_range_view(start, end, |_view, _value| count = count.saturating_add(1))
        .ok()?;
    Some(count)
}

/// Makes the walk of this name on a tree of all keys. `None` if there is none, or no memory.
pub fn walk(tree: &Tree, name: &str) -> Option<usize> {
    match name {
        "iter" => counted(tree.iter()),
        "iter_descending" => counted(tree.iter_descending()),
        "both_ends" => both_ends(tree),
        "values" => counted(tree.values_iter()),
        "values_both_ends" => values_both_ends(tree),
        "prefix" => counted(tree.prefix_iter_k(&key(2))),
        "prefix_descending" => counted(tree.prefix_iter_descending_k(&key(2))),
        "range" => range(tree),
        "range_descending" => range_descending(tree),
        "range_both_ends" => range_both_ends(tree),
        "views" => views(tree),
        "range_views" => range_views(tree),
        _ => None,
    }
}
