//! The pairs of a tree within two bounds, ascending by key.
ghost use Rattle.std.specs.Prelude.{◌≡◌, IfErr, IfOk};
ghost use Rattle.rart_keys.specs.Ranges.{between, bound_in, up_to};
ghost use Rattle.rart_trie.specs.ranges.LentBounds.{lent_bound};
ghost use Rattle.rart_trie.specs.walks.Calls.{MayLackMemory};

use crate::tree::AdaptiveRadixTree;
use rart_keys::KeyTrait;
pub use rart_nodes::range::{Range, SeenRange};
use rart_parts::TreeError;
use std::ops::Bound;

impl<K: KeyTrait + Drop, V> AdaptiveRadixTree<K, V> {
    /// Returns an iterator over the pairs within two bounds, ascending by key; over none if the end is below the start.
    ///
    /// # Errors
    ///
    /// [`TreeError::Memory`] if the tree isn't empty and the allocation fails.
    ///
    /// # Examples
    ///
    /// ```ignore
    /// readings.range(
    ///     Bound::Included(ArrayKey::<8>::from_u64(start)),
    ///     Bound::Excluded(ArrayKey::<8>::from_u64(end)),
    /// )
    /// ```
    pub fn range(&self, start: Bound<K>, end: Bound<K>) -> Result<Range<'_, K, V>, TreeError>
        ensures pairs { IfOk result (λ r. up_to r.0 r.1
            ≡ between (bound_in K.bytes start) (bound_in K.bytes end) self.now.pairs) }
        ensures memory { IfErr result (MayLackMemory self.now.pairs) }
    {
        self.seen().range(start, end)
    }

    /// Returns an iterator over the pairs within two bounds, whose bytes may be more than any key has, as
    /// [`range`](Self::range).
    ///
    /// # Errors
    ///
    /// [`TreeError::Memory`] if the tree isn't empty and the allocation fails.
    pub fn range_bytes(
        &self,
        start: Bound<&[u8]>,
        end: Bound<&[u8]>,
    ) -> Result<Range<'_, K, V>, TreeError>
        ensures pairs { IfOk result (λ r. up_to r.0 r.1
            ≡ between (lent_bound start.entry) (lent_bound end.entry) self.now.pairs) }
        ensures memory { IfErr result (MayLackMemory self.now.pairs) }
    {
        self.seen().range_bytes(start, end)
    }
}
