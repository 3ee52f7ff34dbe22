//! The law of bulk loads.
ghost use Rattle.std.specs.Prelude.{◌≡◌, [], IfErr, IfOk};
ghost use Rattle.std.specs.List.Sorted.{IsPermutation};
ghost use Rattle.rart_keys.specs.BulkLists.{put_all};
ghost use Rattle.rart_keys.specs.SortedMap.{IsAscending, keys_of};
ghost use Rattle.rart_trie.specs.stats.Stats.{stats_in, stats_of};
ghost use Rattle.rart.specs.BulkLoads.{MayRefuseLoad, MayRefuseOneOf, RefusesStep};
ghost use Rattle.rart.specs.Steps.{pairs_in};

use crate::bulk::BulkError;
use crate::laws::{equal_keys_equal_nodes, equal_keys_equal_stats};
use crate::stats::TreeStats;
use crate::tree::AdaptiveRadixTree;
use rart_keys::KeyTrait;
use rart_keys::laws::bulk_lists::{ascending_pairs, bulk_lists, put_in_any_order};
use rart_parts::TreeError;
use std::alloc::Global;
use thiserror::Error;

/// The call of `bulk_load_equals_insertion` that failed, and why. What was built is dropped.
#[derive(Clone, Copy, PartialEq, Eq, Debug, Error)]
pub enum RefusedStep {
    /// The bulk load.
    #[error("{0}")]
    Load(BulkError),
    /// One of the insertions. Those before it were made.
    #[error("{0}")]
    Insertion(TreeError),
    /// The statistics of one of the two trees.
    #[error("{0}")]
    Stats(TreeError),
}

/// A tree and its statistics.
pub type Counted<K, V> = (AdaptiveRadixTree<K, V>, TreeStats);

/// Builds a tree by a bulk load and one by insertions, and returns both, each with its statistics.
///
/// The load takes pairs that ascend strictly, the insertions the same pairs in any order. Pairs, nodes and statistics
/// are equal.
///
/// # Errors
///
/// The first call that fails, with its error.
pub fn bulk_load_equals_insertion<K: KeyTrait + Drop, V: Drop>(
    alloc: Global,
    sorted: Vec<(K, V)>,
    shuffled: Vec<(K, V)>,
) -> Result<(Counted<K, V>, Counted<K, V>), RefusedStep>
    requires ascending { IsAscending (pairs_in K.bytes sorted.items) }
    requires permutation { IsPermutation (pairs_in K.bytes sorted.items)
        (pairs_in K.bytes shuffled.items) }
    ensures loaded { IfOk result (λ r. r.0.0.pairs ≡ pairs_in K.bytes sorted.items) }
    ensures pairs { IfOk result (λ r. r.1.0.pairs ≡ r.0.0.pairs) }
    ensures nodes { IfOk result (λ r. r.1.0.nodes ≡ r.0.0.nodes) }
    ensures of_loaded { IfOk result
        (λ r. stats_in r.0.1 ≡ stats_of (keys_of r.0.0.pairs) r.0.0.nodes) }
    ensures of_inserted { IfOk result
        (λ r. stats_in r.1.1 ≡ stats_of (keys_of r.1.0.pairs) r.1.0.nodes) }
    ensures stats { IfOk result (λ r. stats_in r.1.1 ≡ stats_in r.0.1) }
    ensures refused { IfErr result
        (RefusesStep (pairs_in K.bytes sorted.items) (pairs_in K.bytes shuffled.items)) }
{
    put_in_any_order::<V>();
    let loaded = match loaded_tree(alloc, sorted) {
        Ok(tree) => tree,
        Err(error) => return Err(RefusedStep::Load(error)),
    };
    let inserted = match inserted_tree(alloc, shuffled) {
        Ok(tree) => tree,
        Err(error) => return Err(RefusedStep::Insertion(error)),
    };
    equal_keys_equal_nodes(&loaded, &inserted);
    match equal_keys_equal_stats(&loaded, &inserted) {
        Ok((of_loaded, of_inserted)) => Ok(((loaded, of_loaded), (inserted, of_inserted))),
        Err(error) => Err(RefusedStep::Stats(error)),
    }
}

// Builds the tree of a bulk load of pairs that ascend strictly.
fn loaded_tree<K: KeyTrait + Drop, V: Drop>(
    alloc: Global,
    sorted: Vec<(K, V)>,
) -> Result<AdaptiveRadixTree<K, V>, BulkError>
    requires { IsAscending (pairs_in K.bytes sorted.items) }
    ensures pairs { IfOk result (λ tree. tree.pairs ≡ pairs_in K.bytes sorted.items) }
    ensures memory { IfErr result (MayRefuseLoad (pairs_in K.bytes sorted.items)) }
{
    bulk_lists::<V>();
    ascending_pairs::<V>();
    AdaptiveRadixTree::bulk_load_sorted(alloc, sorted)
}

// Builds the tree of the pairs, inserted one by one.
fn inserted_tree<K: KeyTrait + Drop, V: Drop>(
    alloc: Global,
    pairs: Vec<(K, V)>,
) -> Result<AdaptiveRadixTree<K, V>, TreeError>
    ensures pairs { IfOk result (λ tree. tree.pairs ≡ put_all (pairs_in K.bytes pairs.items) []) }
    ensures refused { IfErr result (MayRefuseOneOf (pairs_in K.bytes pairs.items)) }
{
    let mut tree = AdaptiveRadixTree::new(alloc);
    for (key, value) in pairs {
        match tree.insert(key, value) {
            Ok(_old) => {}
            Err(refused) => return Err(refused.error),
        }
    }
    Ok(tree)
}
