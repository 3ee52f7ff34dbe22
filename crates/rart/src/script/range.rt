//! Replies to calls about two bounds.
ghost use Rattle.rart.specs.Steps.{IsStep};

use super::copies::copied_pairs;
use super::{Call, Reply};
use crate::tree::AdaptiveRadixTree;
use rart_keys::KeyTrait;
use std::alloc::Global;
use std::ops::Bound;

pub(super) fn reply_to_range<K: KeyTrait + Drop, V: Copy>(
    alloc: Global,
    tree: &AdaptiveRadixTree<K, V>,
    start: Bound<K>,
    end: Bound<K>,
) -> Reply<K, V>
    ensures { IsStep V.is_infallible K.bytes tree.now.pairs (Call.Range start end)
        result tree.now.pairs }
{
    let walk = match tree.range(start, end) {
        Ok(walk) => walk,
        Err(error) => return Reply::Refused(error),
    };
    match copied_pairs(Vec::new(alloc), walk) {
        Ok(pairs) => Reply::Pairs(pairs),
        Err(error) => Reply::Refused(error),
    }
}
