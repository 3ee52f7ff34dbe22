//! Replies to calls about a probe and about a prefix.
ghost use Rattle.rart.specs.Steps.{IsStep};

use super::copies::copied_pairs;
use super::{Call, Reply};
use crate::tree::AdaptiveRadixTree;
use rart_keys::KeyTrait;
use std::alloc::Global;

pub(super) fn reply_to_longest<K: KeyTrait + Drop, V: Copy>(
    tree: &AdaptiveRadixTree<K, V>,
    key: K,
) -> Reply<K, V>
    ensures { IsStep V.is_infallible K.bytes tree.now.pairs (Call.Longest key)
        result tree.now.pairs }
{
    match tree.longest_prefix_match_k(&key) {
        Some((found, value)) => Reply::Pair(Some((found, *value))),
        None => Reply::Pair(None),
    }
}

pub(super) fn reply_to_matches<K: KeyTrait + Drop, V: Copy>(
    alloc: Global,
    tree: &AdaptiveRadixTree<K, V>,
    key: K,
) -> Reply<K, V>
    ensures { IsStep V.is_infallible K.bytes tree.now.pairs (Call.Matches key)
        result tree.now.pairs }
{
    match copied_pairs(Vec::new(alloc), tree.prefix_match_iter_k(&key)) {
        Ok(pairs) => Reply::Pairs(pairs),
        Err(error) => Reply::Refused(error),
    }
}

pub(super) fn reply_to_prefix<K: KeyTrait + Drop, V: Copy>(
    alloc: Global,
    tree: &AdaptiveRadixTree<K, V>,
    key: K,
) -> Reply<K, V>
    ensures { IsStep V.is_infallible K.bytes tree.now.pairs (Call.Prefix key)
        result tree.now.pairs }
{
    let walk = match tree.prefix_iter_k(&key) {
        Ok(walk) => walk,
        Err(error) => return Reply::Refused(error),
    };
    match copied_pairs(Vec::new(alloc), walk) {
        Ok(pairs) => Reply::Pairs(pairs),
        Err(error) => Reply::Refused(error),
    }
}
