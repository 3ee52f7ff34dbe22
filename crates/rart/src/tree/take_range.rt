//! Removal of the pairs within two bounds, or from a key on, which leave as a tree of their own.
ghost use Rattle.std.specs.Prelude.{◌≡◌, OnErr};
ghost use Rattle.std.specs.declared.ops.Bound.TheVariants.{Included, Unbounded};
ghost use Rattle.rart_keys.specs.Ranges.{bound_in};
ghost use Rattle.rart_trie.specs.ranges.LentBounds.{lent_bound};
ghost use Rattle.rart.specs.Edits.{RemovesRange, TakesRange};

use crate::tree::{AdaptiveRadixTree, length_kept};
use rart_keys::KeyTrait;
use rart_nodes::node::DefaultNode;
use rart_nodes::{Seen, Visits};
use rart_parts::TreeError;
use rart_trie::node::bounds::slice_bound;
use std::marker::PhantomData;
use std::ops::Bound;

impl<K: KeyTrait, V: Drop> AdaptiveRadixTree<K, V> {
    /// Removes all pairs within two bounds, whose bytes may be more than any key has, and returns them as a tree of
    /// their own, which has the allocator of this one. If the end is below the start, no pair is within.
    ///
    /// It makes no key. It visits the nodes on the paths to both bounds and their children, and the taken nodes to
    /// count the pairs. A child between the bounds moves as it is.
    ///
    /// # Errors
    ///
    /// [`TreeError::Memory`] if an allocation fails. All allocations are made before the first write: storage for both
    /// sides of each node that has pairs within and outside, and a list of what moves. The tree is then unchanged.
    pub fn take_range_bytes(
        &mut self,
        start: Bound<&[u8]>,
        end: Bound<&[u8]>,
    ) -> Result<Self, TreeError>
        ensures takes { TakesRange (lent_bound start.entry) (lent_bound end.entry)
            self.old.pairs self.new.pairs result }
        ensures unchanged { OnErr result (self.new ≡ self.old) }
    {
        let root = DefaultNode::take_within(&mut self.root, self.alloc, start, end)?;
        let seen: Seen<'_, K, V, Visits> = Seen::of(root.as_ref(), self.alloc, self.longest);
        let len = seen.count_pairs_counted(&mut Visits::new());
        let longest = self.longest;
        self.len -= len;
        self.longest = length_kept(self.len, longest);
        Ok(AdaptiveRadixTree {
            root,
            len,
            longest: length_kept(len, longest),
            alloc: self.alloc,
            of: PhantomData,
        })
    }

    /// Removes all pairs within two bounds and returns them as a tree of their own, as
    /// [`take_range_bytes`](Self::take_range_bytes).
    ///
    /// # Errors
    ///
    /// Those of [`take_range_bytes`](Self::take_range_bytes). The tree is then unchanged.
    pub fn take_range(&mut self, start: Bound<K>, end: Bound<K>) -> Result<Self, TreeError>
    where
        K: Drop,
        ensures takes { TakesRange (bound_in K.bytes start) (bound_in K.bytes end) self.old.pairs
            self.new.pairs result }
        ensures unchanged { OnErr result (self.new ≡ self.old) }
    {
        self.take_range_bytes(slice_bound(&start), slice_bound(&end))
    }

    /// Removes all pairs whose key is at or above the bytes `key` and returns them as a tree of their own, as
    /// [`take_range_bytes`](Self::take_range_bytes).
    ///
    /// # Errors
    ///
    /// Those of [`take_range_bytes`](Self::take_range_bytes). The tree is then unchanged.
    pub fn split_off_bytes(&mut self, key: &[u8]) -> Result<Self, TreeError>
        ensures takes { TakesRange (Included key.now) Unbounded self.old.pairs self.new.pairs
            result }
        ensures unchanged { OnErr result (self.new ≡ self.old) }
    {
        self.take_range_bytes(Bound::Included(key), Bound::Unbounded)
    }

    /// Removes all pairs whose key is at or above `key` and returns them as a tree of their own, as
    /// [`take_range_bytes`](Self::take_range_bytes).
    ///
    /// # Errors
    ///
    /// Those of [`take_range_bytes`](Self::take_range_bytes). The tree is then unchanged.
    pub fn split_off_k(&mut self, key: &K) -> Result<Self, TreeError>
        ensures takes { TakesRange (Included (K.bytes key.now)) Unbounded self.old.pairs
            self.new.pairs result }
        ensures unchanged { OnErr result (self.new ≡ self.old) }
    {
        self.split_off_bytes(key.as_ref())
    }

    /// Removes all pairs whose key is at or above `key` and returns them as a tree of their own, as
    /// [`split_off_k`](Self::split_off_k).
    ///
    /// # Errors
    ///
    /// Those of [`take_range_bytes`](Self::take_range_bytes). The tree is then unchanged.
    pub fn split_off(&mut self, key: K) -> Result<Self, TreeError>
    where
        K: Drop,
        ensures takes { TakesRange (Included (K.bytes key)) Unbounded self.old.pairs self.new.pairs
            result }
        ensures unchanged { OnErr result (self.new ≡ self.old) }
    {
        self.split_off_k(&key)
    }

    /// Removes all pairs within two bounds, whose bytes may be more than any key has, drops their values, and returns
    /// how many there were.
    ///
    /// # Errors
    ///
    /// Those of [`take_range_bytes`](Self::take_range_bytes). The tree is then unchanged.
    pub fn remove_range_bytes(
        &mut self,
        start: Bound<&[u8]>,
        end: Bound<&[u8]>,
    ) -> Result<usize, TreeError>
        ensures removes { RemovesRange (lent_bound start.entry) (lent_bound end.entry)
            self.old.pairs self.new.pairs result }
        ensures unchanged { OnErr result (self.new ≡ self.old) }
    {
        Ok(self.take_range_bytes(start, end)?.len())
    }

    /// Removes all pairs within two bounds, drops their values, and returns how many there were, as
    /// [`remove_range_bytes`](Self::remove_range_bytes).
    ///
    /// # Errors
    ///
    /// Those of [`take_range_bytes`](Self::take_range_bytes). The tree is then unchanged.
    pub fn remove_range(&mut self, start: Bound<K>, end: Bound<K>) -> Result<usize, TreeError>
    where
        K: Drop,
        ensures removes { RemovesRange (bound_in K.bytes start) (bound_in K.bytes end)
            self.old.pairs self.new.pairs result }
        ensures unchanged { OnErr result (self.new ≡ self.old) }
    {
        self.remove_range_bytes(slice_bound(&start), slice_bound(&end))
    }
}
