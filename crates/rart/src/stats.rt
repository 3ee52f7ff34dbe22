//! Statistics of a tree: how many nodes it has of each capacity, how many children they have, and how deep it is.
ghost use Rattle.std.specs.Prelude.{◌≡◌, ℕ, ◌≤◌, List, length, IfErr, IfOk, OnErr};
ghost use Rattle.rart_parts.specs.Errors.{IsMemory};
ghost use Rattle.rart_trie.specs.shapes.Shape.{NodeRecord};
ghost use Rattle.rart_trie.specs.stats.Stats.{stats_in, stats_of};

pub use rart_nodes::stats::{NodeStats, TreeStats};
use rart_parts::TreeError;

/// Keys and nodes that can be counted.
pub trait TreeStatsTrait {
    ghost keys: { Self → List (List ℕ) };

    ghost nodes: { Self → List (List ℕ × NodeRecord) };

    /// Returns the statistics of the keys by their shape.
    ///
    /// # Errors
    ///
    /// [`TreeError::Memory`] if an allocation fails, which needs at least two keys.
    fn get_tree_stats(&self) -> Result<TreeStats, TreeError>
        ensures stats { IfOk result
            (λ s. stats_in s ≡ stats_of (keys self.now) (nodes self.now)) }
        ensures memory { IfErr result IsMemory }
        ensures allocates { OnErr result (2 ≤ length (keys self.now)) };
}
