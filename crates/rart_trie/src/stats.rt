//! Statistics of a tree: the number of nodes and children of each capacity, and the height.
ghost use Rattle.std.specs.Prelude.{◌≡◌, []};
ghost use Rattle.rart_trie.specs.stats.Stats.{stats_in, stats_of};

use std::alloc::Global;
use std::collections::BTreeMap;

pub(crate) mod counts;

/// Counts the inner nodes of one capacity.
#[derive(Clone, Debug, Default, Drop, Eq, PartialEq)]
pub struct NodeStats {
    /// The capacity of each node: 4, 16, 48 or 256.
    pub width: usize,
    /// The number of such nodes.
    pub total_nodes: usize,
    /// The number of their children.
    pub total_children: usize,
}

/// Holds the statistics of a tree. The keys determine them, whatever calls made the tree.
#[derive(Debug, Drop, Eq, PartialEq)]
pub struct TreeStats {
    /// Maps each capacity to its inner nodes, with an entry only if there is such a node.
    pub node_stats: BTreeMap<usize, NodeStats>,
    /// The number of nodes without children.
    pub num_leaves: usize,
    /// The number of nodes with a value.
    pub num_values: usize,
    /// The number of nodes with children.
    pub num_inner_nodes: usize,
    /// The number of children of the inner nodes.
    pub total_children: usize,
    /// The sum of the capacities of the inner nodes.
    pub total_width: usize,
    /// The greatest number of nodes on a path from the root to a leaf.
    pub max_height: usize,
}

impl TreeStats {
    /// Returns the statistics of an empty tree: every number is 0, and there is no entry. It does not allocate.
    pub fn new(alloc: Global) -> Self
        ensures { stats_in result ≡ stats_of [] [] }
    {
        TreeStats {
            node_stats: BTreeMap::new(alloc),
            num_leaves: 0,
            num_values: 0,
            num_inner_nodes: 0,
            total_children: 0,
            total_width: 0,
            max_height: 0,
        }
    }
}
