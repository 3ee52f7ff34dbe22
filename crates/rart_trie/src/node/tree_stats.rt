//! The statistics of the nodes of a tree.
ghost use Rattle.std.specs.Prelude.{◌≡◌, ◌+◌, ◌*◌, ◌≤◌, length, IfErr, IfOk, OnErr};
ghost use Rattle.std.specs.Option.{option_copied};
ghost use Rattle.rart_parts.specs.Errors.{IsMemory};
ghost use Rattle.rart_keys.specs.SortedMap.{keys_of};
ghost use Rattle.rart_trie.specs.stats.CountedNodes.{sum_of_counts, counts_in, counts_sum};
ghost use Rattle.rart_trie.specs.stats.Stats.{stats_in, stats_of, trie_height};
ghost use Rattle.rart_trie.specs.tries.Tree.{IsCanonicalTree, tree_nodes, tree_pairs};
ghost use Rattle.rart_trie.specs.tries.TrieCode.{node_count};

use crate::node::DefaultNode;
use crate::stats::TreeStats;
use crate::stats::counts::Counts;
use rart_keys::Partial;
use rart_parts::TreeError;
use std::alloc::Global;

impl<P: Partial, V> DefaultNode<P, V> {
    /// Counts the nodes of the subtree and returns its height.
    fn count_nodes(&self, counts: &mut Counts) -> usize
        requires { counts_sum counts.old + 4 * node_count self.now ≤ usize.MAX }
        ensures counts { counts.new ≡ sum_of_counts counts.old (counts_in self.now) }
        ensures height { result ≡ trie_height self.now }
    {
        let children = self.storage.num_children();
        counts.add_node(self.storage.has_value(), self.storage.capacity(), children);
        let mut below = 0;
        for (_byte, child) in self.iter() {
            below = below.max(child.count_nodes(counts));
        }
        1 + below
    }

    /// Returns the statistics of the tree of an optional root. The tree must be canonical and have at most `usize::MAX
    /// / 16` pairs.
    ///
    /// # Errors
    ///
    /// [`TreeError::Memory`] if the tree holds at least two keys and an allocation fails.
    pub fn tree_stats(root: Option<&Self>, alloc: Global) -> Result<TreeStats, TreeError>
        requires canonical { IsCanonicalTree (option_copied root) }
        requires fits { 16 * length (tree_pairs (option_copied root)) ≤ usize.MAX }
        ensures stats { let tree = option_copied root.entry in IfOk result
            (λ s. stats_in s ≡ stats_of (keys_of (tree_pairs tree)) (tree_nodes tree)) }
        ensures memory { IfErr result IsMemory }
        ensures allocates { OnErr result (2 ≤ length (tree_pairs (option_copied root.entry))) }
    {
        let Some(node) = root else {
            return Ok(TreeStats::new(alloc));
        };
        let mut counts = Counts::none();
        let height = node.count_nodes(&mut counts);
        counts.to_stats(alloc, height)
    }
}
