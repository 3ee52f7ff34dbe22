//! Iterators over a tree, ascending by key.
ghost use Rattle.std.specs.Prelude.{◌≡◌, IfErr, IfOk};
ghost use Rattle.rart_keys.specs.SortedMap.{values_of};
ghost use Rattle.rart_trie.specs.walks.Calls.{MayLackMemory};

use crate::tree::AdaptiveRadixTree;
use rart_keys::KeyTrait;
pub use rart_nodes::iter::{
    Iter, LendingKeyBytes, LendingKeyView, PrefixMatchIter, SeenIter, ValuesIter,
};
use rart_parts::TreeError;

impl<K: KeyTrait, V> AdaptiveRadixTree<K, V> {
    /// Returns an iterator over the pairs, ascending by key.
    ///
    /// Allocates here, and nothing for an empty tree; the iterator itself allocates nothing.
    ///
    /// # Errors
    ///
    /// [`TreeError::Memory`] if the tree isn't empty and the allocation fails.
    ///
    /// # Examples
    ///
    /// ```ignore
    /// let mut pairs = tree.iter().ok()?;
    /// ```
    pub fn iter(&self) -> Result<Iter<'_, K, K::PartialType, V>, TreeError>
        ensures pairs { IfOk result (λ it. it ≡ self.now.pairs) }
        ensures memory { IfErr result (MayLackMemory self.now.pairs) }
    {
        self.seen().iter()
    }

    /// Returns an iterator over the values, ascending by their keys. Makes no keys.
    ///
    /// # Errors
    ///
    /// [`TreeError::Memory`] if the tree isn't empty and the allocation fails.
    pub fn values_iter(&self) -> Result<ValuesIter<'_, K, V>, TreeError>
        ensures values { IfOk result (λ it. it ≡ values_of self.now.pairs) }
        ensures memory { IfErr result (MayLackMemory self.now.pairs) }
    {
        self.seen().values_iter()
    }
}
