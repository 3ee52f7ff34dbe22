//! Laws of the map, each proved for every key type from the public contracts alone.
ghost use Rattle.std.specs.Prelude.{◌≡◌, ◌≢◌, ◌≤◌, length, IfErr, IfOk, IsOk, MatchResult, OnErr, OnOk};
ghost use Rattle.std.specs.Borrow.{sem};
ghost use Rattle.std.specs.Option.{option_copied};
ghost use Rattle.rart_parts.specs.Errors.{IsMemory};
ghost use Rattle.rart_keys.specs.SortedMap.{IsAscending, keys_of, lookup, put, values_of, without};
ghost use Rattle.rart_trie.specs.stats.Stats.{stats_in, stats_of};
ghost use Rattle.rart_trie.specs.walks.Calls.{MayLackMemory};
ghost use Rattle.rart.specs.Edits.{PutOrSame};
ghost use Rattle.rart.specs.LawAnswers.{IsCounted, RefusesCall};
ghost use Rattle.rart.specs.Loans.{ends_as};
ghost use Rattle.rart.specs.Refusals.{MayRefuseRemove, MayRefuseInsert};

pub mod intersections;

use crate::stats::{TreeStats, TreeStatsTrait};
use crate::tree::AdaptiveRadixTree;
use rart_keys::KeyTrait;
use rart_nodes::Refused;
use rart_nodes::iter::{Iter, ValuesIter};
use rart_parts::TreeError;
use thiserror::Error;

pub mod bulk_loads;
pub mod counts;
pub mod probes;
pub mod routes;
pub mod unions;

/// Proves that trees with equal keys have equal nodes, whatever their key types, values and history.
pub fn equal_keys_equal_nodes<K: KeyTrait, V, L: KeyTrait, W>(
    one: &AdaptiveRadixTree<K, V>,
    other: &AdaptiveRadixTree<L, W>,
)
    requires { keys_of one.now.pairs ≡ keys_of other.now.pairs }
    ensures { one.now.nodes ≡ other.now.nodes }
{
    one.canonical();
    other.canonical();
    rart_laws::one_shape();
}

/// Returns the statistics of two trees with equal keys, which are equal.
///
/// # Errors
///
/// [`TreeError::Memory`] if an allocation fails, which needs at least two keys.
pub fn equal_keys_equal_stats<K: KeyTrait, V, L: KeyTrait, W>(
    one: &AdaptiveRadixTree<K, V>,
    other: &AdaptiveRadixTree<L, W>,
) -> Result<(TreeStats, TreeStats), TreeError>
    requires { keys_of one.now.pairs ≡ keys_of other.now.pairs }
    ensures stats { IfOk result
        (λ r. stats_in r.0 ≡ stats_of (keys_of one.now.pairs) one.now.nodes) }
    ensures of_other { IfOk result
        (λ r. stats_in r.1 ≡ stats_of (keys_of other.now.pairs) other.now.nodes) }
    ensures equal { IfOk result (λ r. stats_in r.1 ≡ stats_in r.0) }
    ensures memory { IfErr result IsMemory }
    ensures allocates { OnErr result (2 ≤ length (keys_of one.now.pairs)) }
{
    equal_keys_equal_nodes(one, other);
    Ok((one.get_tree_stats()?, other.get_tree_stats()?))
}

/// Inserts `value` at `key`, and returns the values at `key` and at `other` after the insertion.
///
/// The first is `value`. The second is `value` if both keys have the same bytes, and the old value of `other` if not.
///
/// # Errors
///
/// Those of [`AdaptiveRadixTree::insert_k`], without `value`. Pairs and nodes are then unchanged.
pub fn insert_then_get<'a, K: KeyTrait, V>(
    tree: &'a mut AdaptiveRadixTree<K, V>,
    key: &K,
    value: V,
    other: &K,
) -> Result<(Option<&'a V>, Option<&'a V>), TreeError>
where
    V: Drop,
    ensures* after { sem 𝓛
        (ends_as K.row V.row K.PartialType.row K.KeyTrait K.PartialType.Partial tree.entry
        (PutOrSame (K.bytes key.now) value result tree.old)) }
    ensures found { IfOk result (λ r. option_copied r.0 ≡ Some value) }
    ensures same_bytes { K.bytes other.now ≡ K.bytes key.now
        → IfOk result (λ r. option_copied r.1 ≡ Some value) }
    ensures elsewhere { K.bytes other.now ≢ K.bytes key.now
        → IfOk result (λ r. option_copied r.1 ≡ lookup (K.bytes other.now) tree.old.pairs) }
    ensures memory { IfErr result (MayRefuseInsert tree.old.pairs (K.bytes key.now)) }
{
    rart_keys::laws::sorted_map::<V>();
    let inserted = put_in(tree, key, value);
    both_answers(tree, key, other, inserted)
}

// Inserts a pair, and drops the old value.
fn put_in<K: KeyTrait, V: Drop>(
    tree: &mut AdaptiveRadixTree<K, V>,
    key: &K,
    value: V,
) -> Result<(), TreeError>
    ensures pairs { OnOk result (tree.new.pairs ≡ put (K.bytes key.now) value tree.old.pairs) }
    ensures memory { IfErr result (MayRefuseInsert tree.old.pairs (K.bytes key.now)) }
    ensures unchanged { OnErr result (tree.new ≡ tree.old) }
{
    match tree.insert_k(key, value) {
        Ok(_old) => Ok(()),
        Err(refused) => Err(refused.error),
    }
}

// Returns the values at two keys, unless there was an error before.
fn both_answers<'a, K: KeyTrait, V>(
    tree: &'a AdaptiveRadixTree<K, V>,
    key: &K,
    other: &K,
    before: Result<(), TreeError>,
) -> Result<(Option<&'a V>, Option<&'a V>), TreeError>
    ensures answers { OnOk before
        (IfOk result (λ r. (option_copied r.0 ≡ lookup (K.bytes key.now) tree.now.pairs)
        × (option_copied r.1 ≡ lookup (K.bytes other.now) tree.now.pairs))) }
    ensures error { MatchResult before (λ _. IsOk result) (λ e. result ≡ Err e) }
{
    before?;
    Ok((tree.get_k(key), tree.get_k(other)))
}

/// Returns iterators over the pairs and over the values of a tree, which ascend strictly by key.
///
/// # Errors
///
/// [`TreeError::Memory`] if the tree isn't empty and an allocation fails.
pub fn pairs_and_values<'a, K: KeyTrait, V>(
    tree: &'a AdaptiveRadixTree<K, V>,
) -> Result<(Iter<'a, K, K::PartialType, V>, ValuesIter<'a, K, V>), TreeError>
    ensures pairs { IfOk result (λ r. r.0 ≡ tree.now.pairs) }
    ensures ascending { IfOk result (λ r. IsAscending r.0) }
    ensures many { IfOk result (λ r. length r.0 ≡ length tree.now.pairs) }
    ensures values { IfOk result (λ r. r.1 ≡ values_of r.0) }
    ensures memory { IfErr result (MayLackMemory tree.now.pairs) }
{
    tree.canonical();
    Ok((tree.iter()?, tree.values_iter()?))
}

/// Removes `key` and returns its value. Pairs and nodes are then those of a tree that has the other pairs.
///
/// # Errors
///
/// Those of [`AdaptiveRadixTree::remove_k`]. The tree is then unchanged.
pub fn removal_restores<K: KeyTrait, V, L: KeyTrait>(
    tree: &mut AdaptiveRadixTree<K, V>,
    key: &K,
    without_it: &AdaptiveRadixTree<L, V>,
) -> Result<Option<V>, TreeError>
    requires one_key { without (K.bytes key.now) tree.old.pairs ≡ without_it.now.pairs }
    ensures removed { IfOk result (λ was. was ≡ lookup (K.bytes key.now) tree.old.pairs) }
    ensures pairs { OnOk result (tree.new.pairs ≡ without_it.now.pairs) }
    ensures nodes { OnOk result (tree.new.nodes ≡ without_it.now.nodes) }
    ensures memory { IfErr result (MayRefuseRemove tree.old.pairs (K.bytes key.now)) }
    ensures unchanged { OnErr result (tree.new ≡ tree.old) }
{
    let removed = tree.remove_k(key);
    tree.canonical();
    without_it.canonical();
    rart_laws::one_shape();
    removed
}

/// The call of `insert_then_remove` that failed, and why.
#[derive(Drop, Debug, Error)]
pub enum RefusedCall<V> {
    /// The statistics before the insertion. The tree is unchanged.
    #[error("{0}")]
    StatsBefore(TreeError),
    /// The insertion, with the value that it offered. The tree is unchanged.
    #[error("{0}")]
    Insertion(Refused<V>),
    /// The statistics between both edits. The pair is stored.
    #[error("{0}")]
    StatsBetween(TreeError),
    /// The removal. The pair is stored.
    #[error("{0}")]
    Removal(TreeError),
    /// The statistics after the removal. Pairs and nodes are unchanged.
    #[error("{0}")]
    StatsAfter(TreeError),
}

/// Inserts a new key and removes it, which leaves pairs, nodes and statistics unchanged.
///
/// Returns the statistics before, between and after both edits; those between are of the keys with the new one.
///
/// # Errors
///
/// The first of the five calls that fails, as [`RefusedCall`] says; its variants say what is then stored.
pub fn insert_then_remove<K: KeyTrait, V: Drop>(
    tree: &mut AdaptiveRadixTree<K, V>,
    key: &K,
    value: V,
) -> Result<(TreeStats, TreeStats, TreeStats), RefusedCall<V>>
    requires absent { lookup (K.bytes key.now) tree.old.pairs ≡ None }
    ensures before { IfOk result
        (λ r. stats_in r.0 ≡ stats_of (keys_of tree.old.pairs) tree.old.nodes) }
    ensures between { IfOk result
        (λ r. IsCounted (keys_of (put (K.bytes key.now) value tree.old.pairs)) (stats_in r.1)) }
    ensures after { IfOk result (λ r. stats_in r.2 ≡ stats_in r.0) }
    ensures pairs { OnOk result (tree.new.pairs ≡ tree.old.pairs) }
    ensures nodes { OnOk result (tree.new.nodes ≡ tree.old.nodes) }
    ensures refused { IfErr result (RefusesCall (K.bytes key.now) value tree.old tree.new) }
{
    rart_keys::laws::sorted_map::<V>();
    rart_laws::one_shape();
    tree.canonical();
    let before = match tree.get_tree_stats() {
        Ok(stats) => stats,
        Err(error) => return Err(RefusedCall::StatsBefore(error)),
    };
    match tree.insert_k(key, value) {
        Ok(_new) => tree.canonical(),
        Err(refused) => return Err(RefusedCall::Insertion(refused)),
    }
    let between = match tree.get_tree_stats() {
        Ok(stats) => stats,
        Err(error) => return Err(RefusedCall::StatsBetween(error)),
    };
    match tree.remove_k(key) {
        Ok(_value) => tree.canonical(),
        Err(error) => return Err(RefusedCall::Removal(error)),
    }
    match tree.get_tree_stats() {
        Ok(after) => Ok((before, between, after)),
        Err(error) => Err(RefusedCall::StatsAfter(error)),
    }
}
