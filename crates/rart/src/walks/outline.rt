//! The tree as text, one line for each node.
ghost use Rattle.std.specs.Prelude.{◌≡◌};
ghost use Rattle.rart_nodes.specs.walks.Outlined.{outline_nodes, outline_pairs};

use crate::tree::AdaptiveRadixTree;
use rart_keys::KeyTrait;
use rart_nodes::Outline;

impl<K: KeyTrait, V> AdaptiveRadixTree<K, V> {
    /// Returns the tree as text, which [`Display`](std::fmt::Display) writes to any [`fmt::Write`](std::fmt::Write).
    ///
    /// Each node has one line: its kind, its prefix in quotes, and `=` with its value if it has one. The bytes of a
    /// prefix are written as those of a key. A node is followed by its children, which are indented by two spaces more.
    /// An empty tree has no line.
    ///
    /// Neither this call nor the writing allocates. The writing recurses once a level of nodes.
    ///
    /// # Visits
    ///
    /// None. The writing visits each node once.
    ///
    /// # Examples
    ///
    /// ```ignore
    /// format!(in alloc; "{}", words.outline())
    /// ```
    ///
    /// The text of cat → 1, catalog → 2 and dog → 3 is:
    ///
    /// ```text
    /// Node4 ""
    ///   Node4 "cat"=1
    ///     Leaf "alog"=2
    ///   Leaf "dog"=3
    /// ```
    pub fn outline(&self) -> Outline<'_, K, V>
        ensures pairs { outline_pairs result ≡ self.now.pairs }
        ensures nodes { outline_nodes result ≡ self.now.nodes }
    {
        self.seen().outline()
    }
}
