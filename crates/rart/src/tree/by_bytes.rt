//! Borrows and removals of the key with given bytes, and of the keys that begin with them. The bytes may be more than
//! any key has: then there is no such key.
ghost use Rattle.std.specs.Prelude.{◌≡◌, ◌+◌, ◌≤◌, OnErr};
ghost use Rattle.std.specs.Borrow.{sem};
ghost use Rattle.std.specs.Option.{option_copied_mut};
ghost use Rattle.rart_keys.specs.SortedMap.{lookup};
ghost use Rattle.rart_trie.specs.walks.BelowPrefix.{below_bound};
ghost use Rattle.rart.specs.Edits.{Deletes, Removes, RemovesPrefix, TakesPrefix};
ghost use Rattle.rart.specs.Loans.{lends_value};

use crate::tree::{AdaptiveRadixTree, length_kept};
use rart_keys::KeyTrait;
use rart_nodes::node::DefaultNode;
use rart_nodes::{Count, Seen, Visits};
use rart_parts::TreeError;
use std::marker::PhantomData;

impl<K: KeyTrait, V> AdaptiveRadixTree<K, V> {
    /// Returns a mutable reference to the value at the key with these bytes, which may be longer than any key, as
    /// [`get_mut_k`](Self::get_mut_k). Allocates nothing.
    pub fn get_mut_bytes<'a>(&'a mut self, key: &[u8]) -> Option<&'a mut V>
        ensures* writes_back { sem 𝓛
            (lends_value K.row V.row K.PartialType.row K.KeyTrait K.PartialType.Partial
            self.entry key.now result) }
        ensures value { option_copied_mut result ≡ lookup key.now self.old.pairs }
    {
        DefaultNode::get_mut(&mut self.root, key)
    }

    /// Removes the key with these bytes, which may be longer than any key, and returns its value.
    ///
    /// # Errors
    ///
    /// Those of [`remove_k`](Self::remove_k). The tree is then unchanged.
    pub fn remove_bytes(&mut self, key: &[u8]) -> Result<Option<V>, TreeError>
        ensures removes { Removes key.now self.old.pairs self.new.pairs result }
        ensures unchanged { OnErr result (self.new ≡ self.old) }
    {
        let removed = DefaultNode::remove(&mut self.root, self.alloc, key)?;
        if removed.is_some() {
            self.len -= 1;
        }
        self.longest = length_kept(self.len, self.longest);
        Ok(removed)
    }

    /// Removes the key with these bytes, which may be longer than any key, drops its value, and returns whether the key
    /// was stored.
    ///
    /// # Errors
    ///
    /// Those of [`remove_k`](Self::remove_k). The tree is then unchanged.
    pub fn delete_bytes(&mut self, key: &[u8]) -> Result<bool, TreeError>
    where
        V: Drop,
        ensures deletes { Deletes key.now self.old.pairs self.new.pairs result }
        ensures unchanged { OnErr result (self.new ≡ self.old) }
    {
        Ok(self.remove_bytes(key)?.is_some())
    }

    /// Removes all pairs whose key begins with the bytes `prefix`, which may be longer than any key, and returns them
    /// as a tree of their own, as [`take_prefix_k`](Self::take_prefix_k).
    ///
    /// # Errors
    ///
    /// Those of [`take_prefix_k`](Self::take_prefix_k). The tree is then unchanged.
    pub fn take_prefix_bytes(&mut self, prefix: &[u8]) -> Result<Self, TreeError>
        ensures takes { TakesPrefix prefix.now self.old.pairs self.new.pairs result }
        ensures unchanged { OnErr result (self.new ≡ self.old) }
    {
        self.take_prefix_bytes_counted(prefix, &mut Visits::new())
    }

    /// Removes all pairs whose key begins with the bytes `prefix` and returns them as a tree of their own, as
    /// [`take_prefix_bytes`](Self::take_prefix_bytes), and counts the nodes that it visits in `counter`.
    ///
    /// # Errors
    ///
    /// Those of [`take_prefix_k`](Self::take_prefix_k). The tree is then unchanged.
    ///
    /// # Visits
    ///
    /// At most `prefix.len() + 1` nodes on the way to the pairs, and two for each pair to count them.
    pub fn take_prefix_bytes_counted<C: Count>(
        &mut self,
        prefix: &[u8],
        counter: &mut C,
    ) -> Result<Self, TreeError>
        ensures takes { TakesPrefix prefix.now self.old.pairs self.new.pairs result }
        ensures unchanged { OnErr result (self.new ≡ self.old) }
        ensures bound { C.number counter.new
            ≤ C.number counter.old + below_bound prefix.now self.old.pairs }
    {
        let root = DefaultNode::take_prefix(&mut self.root, self.alloc, prefix, counter)?;
        let seen: Seen<'_, K, V, C> = Seen::of(root.as_ref(), self.alloc, self.longest);
        let len = seen.count_pairs_counted(counter);
        let longest = self.longest;
        self.len -= len;
        self.longest = length_kept(self.len, longest);
        Ok(AdaptiveRadixTree {
            root,
            len,
            longest: length_kept(len, longest),
            alloc: self.alloc,
            of: PhantomData,
        })
    }

    /// Removes all pairs whose key begins with the bytes `prefix`, which may be longer than any key, drops their
    /// values, and returns how many there were.
    ///
    /// # Errors
    ///
    /// Those of [`take_prefix_k`](Self::take_prefix_k). The tree is then unchanged.
    pub fn remove_prefix_bytes(&mut self, prefix: &[u8]) -> Result<usize, TreeError>
    where
        V: Drop,
        ensures removes { RemovesPrefix prefix.now self.old.pairs self.new.pairs result }
        ensures unchanged { OnErr result (self.new ≡ self.old) }
    {
        Ok(self.take_prefix_bytes(prefix)?.len())
    }
}
