//! Calls of a tree as values: a list of calls runs on a tree and returns the list of replies.
ghost use Rattle.std.specs.Prelude.{◌≡◌, ◌≢◌, Err, Some, IfErr, IfOk, OnErr, length};
ghost use Rattle.rart_keys.specs.SortedMap.{keys_of, lookup, values_of};
ghost use Rattle.rart_trie.specs.shapes.Shape.{HasShape};
ghost use Rattle.rart_trie.specs.walks.Calls.{MayLackMemory};
ghost use Rattle.rart.specs.Steps.{IsRun, IsStep, pairs_in};
ghost use Rattle.rart.specs.Updates.{IsTryUpdate, IsUpdate, left_by, written_slot};
ghost use Rattle.rart.specs.declared.tree.update.TryUpdateError.TheVariants.{Clone as Not_cloned};

use crate::stats::TreeStatsTrait;
use crate::tree::AdaptiveRadixTree;
use crate::tree::update::TryUpdateError;
use rart_keys::KeyTrait;
use rart_nodes::{NotInserted, Slot, SlotUpdate, UpdateError};
use rart_parts::TreeError;
use std::alloc::Global;

mod call;
mod copies;
mod probe;
mod range;
mod reply;

pub use self::call::Call;
use self::copies::copied_pairs;
use self::probe::{reply_to_longest, reply_to_matches, reply_to_prefix};
use self::range::reply_to_range;
pub use self::reply::Reply;

/// Makes one call and returns its reply.
///
/// A failed call leaves the tree unchanged, except that a failed removal by `Update` keeps the value that was written.
/// Its reply holds the reason; that of an insertion is `Returned`, with the value that it offered. The lists of `Pairs`
/// and `Values` are allocated from `alloc`.
pub fn step<K: KeyTrait + Drop, V: Copy>(
    alloc: Global,
    tree: &mut AdaptiveRadixTree<K, V>,
    call: Call<K, V>,
) -> Reply<K, V>
    requires clones { (x y : V) → V.is_clone x y → y ≡ x }
    ensures { IsStep V.is_infallible K.bytes tree.old.pairs call result tree.new.pairs }
{
    match call {
        Call::Get(key) => Reply::Value(tree.get(key).copied()),
        Call::Insert(key, value) => reply_to_insert(tree, key, value),
        Call::TryInsert(key, value) => reply_to_try_insert(tree, key, value),
        Call::Remove(key) => reply_to_remove(tree, key),
        Call::Delete(key) => reply_to_delete(tree, key),
        Call::Update(key, written, answer) => reply_to_update(tree, key, written, answer),
        Call::TryUpdate(key, written, answer) => reply_to_try_update(tree, key, written, answer),
        Call::Longest(key) => reply_to_longest(tree, key),
        Call::Matches(key) => reply_to_matches(alloc, tree, key),
        Call::Prefix(key) => reply_to_prefix(alloc, tree, key),
        Call::Range(start, end) => reply_to_range(alloc, tree, start, end),
        Call::Iter => reply_to_iter(alloc, tree),
        Call::Values => reply_to_values(alloc, tree),
        Call::Len => Reply::Len(tree.len()),
        Call::IsEmpty => Reply::Done(tree.is_empty()),
        Call::Stats => reply_to_stats(tree),
    }
}

fn reply_to_insert<K: KeyTrait + Drop, V: Copy>(
    tree: &mut AdaptiveRadixTree<K, V>,
    key: K,
    value: V,
) -> Reply<K, V>
    ensures { IsStep V.is_infallible K.bytes tree.old.pairs (Call.Insert key value)
        result tree.new.pairs }
{
    match tree.insert(key, value) {
        Ok(old) => Reply::Value(old),
        Err(refused) => Reply::Returned(refused.error, refused.value),
    }
}

fn reply_to_try_insert<K: KeyTrait + Drop, V: Copy>(
    tree: &mut AdaptiveRadixTree<K, V>,
    key: K,
    value: V,
) -> Reply<K, V>
    ensures { IsStep V.is_infallible K.bytes tree.old.pairs (Call.TryInsert key value)
        result tree.new.pairs }
{
    match tree.insert_new_k(&key, value) {
        Ok(()) => Reply::Inserted,
        Err(NotInserted::Refused(refused)) => Reply::Returned(refused.error, refused.value),
        Err(NotInserted::Stored(proposed)) => match tree.get_k(&key) {
            Some(present) => Reply::Occupied(proposed, *present),
            None => unreachable!(),
        },
    }
}

fn reply_to_remove<K: KeyTrait + Drop, V: Copy>(
    tree: &mut AdaptiveRadixTree<K, V>,
    key: K,
) -> Reply<K, V>
    ensures { IsStep V.is_infallible K.bytes tree.old.pairs (Call.Remove key)
        result tree.new.pairs }
{
    match tree.remove(key) {
        Ok(old) => Reply::Value(old),
        Err(error) => Reply::Refused(error),
    }
}

fn reply_to_delete<K: KeyTrait + Drop, V: Copy>(
    tree: &mut AdaptiveRadixTree<K, V>,
    key: K,
) -> Reply<K, V>
    ensures { IsStep V.is_infallible K.bytes tree.old.pairs (Call.Delete key)
        result tree.new.pairs }
{
    match tree.delete(key) {
        Ok(found) => Reply::Done(found),
        Err(error) => Reply::Refused(error),
    }
}

fn reply_to_update<K: KeyTrait + Drop, V: Copy>(
    tree: &mut AdaptiveRadixTree<K, V>,
    key: K,
    written: Option<V>,
    answer: SlotUpdate<V>,
) -> Reply<K, V>
    ensures { IsStep V.is_infallible K.bytes tree.old.pairs (Call.Update key written answer)
        result tree.new.pairs }
{
    match update_by(tree, &key, written, answer) {
        Ok(touched) => Reply::Done(touched),
        Err(UpdateError::Insert(refused)) => Reply::Returned(refused.error, refused.value),
        Err(UpdateError::Remove) => Reply::NoRemove,
    }
}

/// Updates by a callback that writes this value in an occupied slot, and returns this edit.
fn update_by<V: Copy, K: KeyTrait>(
    tree: &mut AdaptiveRadixTree<K, V>,
    key: &K,
    written: Option<V>,
    answer: SlotUpdate<V>,
) -> Result<bool, UpdateError<V>>
    ensures { IsUpdate (K.bytes key.now) answer
        (left_by written (lookup (K.bytes key.now) tree.old.pairs))
        tree.old.pairs result tree.new.pairs }
{
    tree.update_k(key, move |slot| {
        write(slot, written);
        answer
    })
}

fn reply_to_try_update<K: KeyTrait + Drop, V: Copy>(
    tree: &mut AdaptiveRadixTree<K, V>,
    key: K,
    written: Option<V>,
    answer: Result<SlotUpdate<V>, ()>,
) -> Reply<K, V>
    requires clones { (x y : V) → V.is_clone x y → y ≡ x }
    ensures { IsStep V.is_infallible K.bytes tree.old.pairs (Call.TryUpdate key written answer)
        result tree.new.pairs }
{
    match try_update_by(tree, &key, written, answer) {
        Ok(touched) => Reply::Done(touched),
        Err(TryUpdateError::Callback(())) => Reply::Failed,
        Err(TryUpdateError::Insert(refused)) => Reply::Returned(refused.error, refused.value),
        Err(TryUpdateError::Remove) => Reply::NoRemove,
        Err(TryUpdateError::Clone) => Reply::NoClone,
    }
}

/// Updates as `update_by`, by a callback that may fail.
fn try_update_by<V: Copy, K: KeyTrait>(
    tree: &mut AdaptiveRadixTree<K, V>,
    key: &K,
    written: Option<V>,
    answer: Result<SlotUpdate<V>, ()>,
) -> Result<bool, TryUpdateError<(), V>>
    requires clones { (x y : V) → V.is_clone x y → y ≡ x }
    ensures calls { result ≢ Err Not_cloned
        → IsTryUpdate (K.bytes key.now) answer
        (left_by written (lookup (K.bytes key.now) tree.old.pairs))
        tree.old.pairs result tree.new.pairs }
    ensures not_cloned { result ≡ Err Not_cloned → ((v : V)
        × (lookup (K.bytes key.now) tree.old.pairs ≡ Some v) × (V.is_infallible v → ⊥))
        × (tree.new.pairs ≡ tree.old.pairs) }
{
    tree.try_update_k(key, move |slot| {
        write(slot, written);
        answer
    })
}

fn write<V: Copy>(slot: &mut Slot<V>, written: Option<V>)
    ensures { slot.new ≡ written_slot written slot.old }
{
    if let Slot::Occupied(value) = slot {
        if let Some(written) = written {
            *value = written;
        }
    }
}

fn reply_to_iter<K: KeyTrait + Drop, V: Copy>(
    alloc: Global,
    tree: &AdaptiveRadixTree<K, V>,
) -> Reply<K, V>
    ensures { IsStep V.is_infallible K.bytes tree.now.pairs Call.Iter result tree.now.pairs }
{
    match copied_tree(alloc, tree) {
        Ok(pairs) => Reply::Pairs(pairs),
        Err(error) => Reply::Refused(error),
    }
}

fn reply_to_values<K: KeyTrait + Drop, V: Copy>(
    alloc: Global,
    tree: &AdaptiveRadixTree<K, V>,
) -> Reply<K, V>
    ensures { IsStep V.is_infallible K.bytes tree.now.pairs Call.Values result tree.now.pairs }
{
    match copied_values(alloc, tree) {
        Ok(values) => Reply::Values(values),
        Err(error) => Reply::Refused(error),
    }
}

fn reply_to_stats<K: KeyTrait + Drop, V: Copy>(tree: &AdaptiveRadixTree<K, V>) -> Reply<K, V>
    ensures { IsStep V.is_infallible K.bytes tree.now.pairs Call.Stats result tree.now.pairs }
{
    tree.canonical();
    match tree.get_tree_stats() {
        Ok(stats) => Reply::Stats(stats),
        Err(error) => Reply::Refused(error),
    }
}

/// Returns the pairs of a tree. Allocates before the first is copied.
fn copied_tree<K: KeyTrait + Drop, V: Copy>(
    alloc: Global,
    tree: &AdaptiveRadixTree<K, V>,
) -> Result<Vec<(K, V)>, TreeError>
    ensures pairs { IfOk result (λ pairs. pairs_in K.bytes pairs.items ≡ tree.now.pairs) }
    ensures memory { IfErr result (MayLackMemory tree.now.pairs) }
{
    let pairs = Vec::with_capacity(alloc, tree.len())?;
    copied_pairs(pairs, tree.iter()?)
}

/// Returns the values of a tree. Allocates before the first is copied.
fn copied_values<K: KeyTrait + Drop, V: Copy>(
    alloc: Global,
    tree: &AdaptiveRadixTree<K, V>,
) -> Result<Vec<V>, TreeError>
    ensures values { IfOk result (λ values. values.items ≡ values_of tree.now.pairs) }
    ensures memory { IfErr result (MayLackMemory tree.now.pairs) }
{
    let mut values = Vec::with_capacity(alloc, tree.len())?;
    let mut rest = tree.values_iter()?;
    while let Some(value) = rest.next() {
        values.push_reserved(*value);
    }
    Ok(values)
}

/// Makes calls in order and returns a reply for each, also for a failed one, after which it continues.
///
/// # Errors
///
/// [`TreeError::Memory`] if there are calls and the allocation for their replies fails. No call is then made, and the
/// tree is unchanged.
pub fn run<K: KeyTrait + Drop, V: Copy>(
    alloc: Global,
    tree: &mut AdaptiveRadixTree<K, V>,
    calls: Vec<Call<K, V>>,
) -> Result<Vec<Reply<K, V>>, TreeError>
    requires clones { (x y : V) → V.is_clone x y → y ≡ x }
    ensures run { IfOk result
        (λ replies. IsRun V.is_infallible K.bytes tree.old.pairs calls.items replies.items
        tree.new.pairs) }
    ensures one_each { IfOk result (λ replies. length replies.items ≡ length calls.items) }
    ensures shape_before { HasShape (keys_of tree.old.pairs) tree.old.nodes }
    ensures shape_after { HasShape (keys_of tree.new.pairs) tree.new.nodes }
    ensures unchanged { OnErr result (tree.new ≡ tree.old) }
    ensures memory { IfErr result (MayLackMemory calls.items) }
{
    tree.canonical();
    let mut replies = Vec::with_capacity(alloc, calls.len())?;
    for call in calls {
        replies.push_reserved(step(alloc, tree, call));
    }
    tree.canonical();
    Ok(replies)
}
