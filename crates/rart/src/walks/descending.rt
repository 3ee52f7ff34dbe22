//! Iterators over a tree, descending by key.
ghost use Rattle.std.specs.Prelude.{◌≡◌, IfErr, IfOk, reverse};
ghost use Rattle.rart_keys.specs.Filters.{below};
ghost use Rattle.rart_keys.specs.Ranges.{between, bound_in};
ghost use Rattle.rart_trie.specs.ranges.LentBounds.{lent_bound};
ghost use Rattle.rart_nodes.specs.ranges.UpperBounds.{down_to};
ghost use Rattle.rart_trie.specs.walks.Calls.{MayLackMemory};

use crate::tree::AdaptiveRadixTree;
use rart_keys::KeyTrait;
pub use rart_nodes::iter::{Descending, SeenDescending};
pub use rart_nodes::range::{RangeDescending, SeenRangeDescending};
use rart_parts::TreeError;
use std::ops::Bound;

impl<K: KeyTrait, V> AdaptiveRadixTree<K, V> {
    /// Returns an iterator over the pairs, descending by key.
    ///
    /// Allocates here, and nothing for an empty tree; the iterator itself allocates nothing.
    ///
    /// # Errors
    ///
    /// [`TreeError::Memory`] if the tree isn't empty and the allocation fails.
    ///
    /// # Examples
    ///
    /// ```ignore
    /// let mut latest = readings.iter_descending().ok()?;
    /// ```
    pub fn iter_descending(&self) -> Result<Descending<'_, K, V>, TreeError>
        ensures pairs { IfOk result (λ it. it ≡ reverse self.now.pairs) }
        ensures memory { IfErr result (MayLackMemory self.now.pairs) }
    {
        self.seen().iter_descending()
    }

    /// Returns an iterator over the pairs whose key begins with the bytes `prefix`, which may be longer than any key,
    /// descending.
    ///
    /// # Errors
    ///
    /// [`TreeError::Memory`] if the tree isn't empty and the allocation fails.
    pub fn prefix_iter_descending_bytes(
        &self,
        prefix: &[u8],
    ) -> Result<Descending<'_, K, V>, TreeError>
        ensures pairs { IfOk result (λ it. it ≡ reverse (below prefix.now self.now.pairs)) }
        ensures memory { IfErr result (MayLackMemory self.now.pairs) }
    {
        self.seen().prefix_iter_descending_bytes(prefix)
    }

    /// Returns an iterator over the pairs whose key begins with `prefix`, descending.
    ///
    /// # Errors
    ///
    /// [`TreeError::Memory`] if the tree isn't empty and the allocation fails.
    pub fn prefix_iter_descending_k(&self, prefix: &K) -> Result<Descending<'_, K, V>, TreeError>
        ensures pairs { IfOk result
            (λ it. it ≡ reverse (below (K.bytes prefix.now) self.now.pairs)) }
        ensures memory { IfErr result (MayLackMemory self.now.pairs) }
    {
        self.seen().prefix_iter_descending_k(prefix)
    }
}

impl<K: KeyTrait + Drop, V> AdaptiveRadixTree<K, V> {
    /// Returns an iterator over the pairs within two bounds, descending by key; over none if the end is below the
    /// start. It seeks the end.
    ///
    /// # Errors
    ///
    /// [`TreeError::Memory`] if the tree isn't empty and the allocation fails.
    ///
    /// # Examples
    ///
    /// ```ignore
    /// readings.range_descending(Bound::Unbounded, Bound::Excluded(ArrayKey::<8>::from_u64(time)))
    /// ```
    pub fn range_descending(
        &self,
        start: Bound<K>,
        end: Bound<K>,
    ) -> Result<RangeDescending<'_, K, V>, TreeError>
        ensures pairs { IfOk result (λ r. down_to r.0 r.1
            ≡ reverse (between (bound_in K.bytes start) (bound_in K.bytes end) self.now.pairs)) }
        ensures memory { IfErr result (MayLackMemory self.now.pairs) }
    {
        self.seen().range_descending(start, end)
    }

    /// Returns an iterator over the pairs within two bounds, whose bytes may be more than any key has, descending by
    /// key, as [`range_descending`](Self::range_descending).
    ///
    /// # Errors
    ///
    /// [`TreeError::Memory`] if the tree isn't empty and the allocation fails.
    pub fn range_descending_bytes(
        &self,
        start: Bound<&[u8]>,
        end: Bound<&[u8]>,
    ) -> Result<RangeDescending<'_, K, V>, TreeError>
        ensures pairs { IfOk result (λ r. down_to r.0 r.1
            ≡ reverse (between (lent_bound start.entry) (lent_bound end.entry) self.now.pairs)) }
        ensures memory { IfErr result (MayLackMemory self.now.pairs) }
    {
        self.seen().range_descending_bytes(start, end)
    }
}
