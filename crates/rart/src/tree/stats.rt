//! The statistics of a tree.
ghost use Rattle.rart_keys.specs.SortedMap.{keys_of};

use crate::stats::{TreeStats, TreeStatsTrait};
use crate::tree::AdaptiveRadixTree;
use rart_keys::KeyTrait;
use rart_nodes::node::DefaultNode;
use rart_parts::TreeError;

impl<K: KeyTrait, V> TreeStatsTrait for AdaptiveRadixTree<K, V> {
    ghost keys = { λ t. keys_of t.pairs };

    ghost nodes = { λ t. t.nodes };

    fn get_tree_stats(&self) -> Result<TreeStats, TreeError> {
        DefaultNode::tree_stats(self.root.as_ref(), self.alloc)
    }
}
