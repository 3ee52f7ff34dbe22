//! Removal of all pairs whose key begins with a prefix.
ghost use Rattle.std.specs.Prelude.{◌≡◌, ◌+◌, ◌≤◌, OnErr};
ghost use Rattle.rart_trie.specs.walks.BelowPrefix.{below_bound};
ghost use Rattle.rart.specs.Edits.{RemovesPrefix, TakesPrefix};

use crate::tree::AdaptiveRadixTree;
use rart_keys::KeyTrait;
use rart_nodes::{Count, Visits};
use rart_parts::TreeError;

impl<K: KeyTrait, V> AdaptiveRadixTree<K, V> {
    /// Removes all pairs whose key begins with `prefix` and returns them as a tree of their own, which has the
    /// allocator of this one.
    ///
    /// It makes no key, and moves no node but the topmost that is taken. It visits the taken nodes to count the pairs.
    ///
    /// # Errors
    ///
    /// [`TreeError::Memory`] if the allocation for smaller storage fails. It is made only if a key begins with `prefix`
    /// and the longest branch point that properly begins `prefix` has 5, 17 or 49 children. The tree is then unchanged.
    pub fn take_prefix_k(&mut self, prefix: &K) -> Result<Self, TreeError>
        ensures takes { TakesPrefix (K.bytes prefix.now) self.old.pairs self.new.pairs result }
        ensures unchanged { OnErr result (self.new ≡ self.old) }
    {
        self.take_prefix_k_counted(prefix, &mut Visits::new())
    }

    /// Removes all pairs whose key begins with `prefix` and returns them as a tree of their own, as
    /// [`take_prefix_k`](Self::take_prefix_k), and counts the nodes that it visits in `counter`.
    ///
    /// # Errors
    ///
    /// Those of [`take_prefix_k`](Self::take_prefix_k). The tree is then unchanged.
    ///
    /// # Visits
    ///
    /// At most `prefix.len() + 1` nodes on the way to the pairs, and two for each pair to count them.
    pub fn take_prefix_k_counted<C: Count>(
        &mut self,
        prefix: &K,
        counter: &mut C,
    ) -> Result<Self, TreeError>
        ensures takes { TakesPrefix (K.bytes prefix.now) self.old.pairs self.new.pairs result }
        ensures unchanged { OnErr result (self.new ≡ self.old) }
        ensures bound { C.number counter.new
            ≤ C.number counter.old + below_bound (K.bytes prefix.now) self.old.pairs }
    {
        self.take_prefix_bytes_counted(prefix.as_ref(), counter)
    }

    /// Removes all pairs whose key begins with `prefix` and returns them as a tree of their own, as
    /// [`take_prefix_k`](Self::take_prefix_k).
    ///
    /// # Errors
    ///
    /// Those of [`take_prefix_k`](Self::take_prefix_k). The tree is then unchanged.
    pub fn take_prefix(&mut self, prefix: K) -> Result<Self, TreeError>
    where
        K: Drop,
        ensures takes { TakesPrefix (K.bytes prefix) self.old.pairs self.new.pairs result }
        ensures unchanged { OnErr result (self.new ≡ self.old) }
    {
        self.take_prefix_k(&prefix)
    }

    /// Removes all pairs whose key begins with `prefix`, drops their values, and returns how many there were.
    ///
    /// # Errors
    ///
    /// Those of [`take_prefix_k`](Self::take_prefix_k). The tree is then unchanged.
    pub fn remove_prefix_k(&mut self, prefix: &K) -> Result<usize, TreeError>
    where
        V: Drop,
        ensures removes { RemovesPrefix (K.bytes prefix.now) self.old.pairs self.new.pairs result }
        ensures unchanged { OnErr result (self.new ≡ self.old) }
    {
        self.remove_prefix_bytes(prefix.as_ref())
    }

    /// Removes all pairs whose key begins with `prefix`, drops their values and returns how many they were, as
    /// [`remove_prefix_k`](Self::remove_prefix_k).
    ///
    /// # Errors
    ///
    /// Those of [`take_prefix_k`](Self::take_prefix_k). The tree is then unchanged.
    pub fn remove_prefix(&mut self, prefix: K) -> Result<usize, TreeError>
    where
        K: Drop,
        V: Drop,
        ensures removes { RemovesPrefix (K.bytes prefix) self.old.pairs self.new.pairs result }
        ensures unchanged { OnErr result (self.new ≡ self.old) }
    {
        self.remove_prefix_k(&prefix)
    }
}
