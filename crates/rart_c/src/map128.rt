//! Maps from keys of at most 128 bytes.

use rart::{AdaptiveRadixTree, ArrayKey};

mod batches;
mod edits;
mod ends;
mod handle;
mod keys;
mod loads;
mod look_ups;
mod pairs;
mod stats;

type Tree = AdaptiveRadixTree<ArrayKey<128>, u64>;

/// What a handle owns.
#[derive(Drop)]
pub(crate) struct Map128 {
    pub(crate) tree: Tree,
}
