//! Removal from the subtree of a node, which allocates smaller storage before the first write.
ghost use Rattle.std.specs.Prelude.{◌≡◌, ◌≢◌, ◌+◌, ◌≤◌, length, true, false, [], IfErr, IfOk, IfSome, None, Some};
ghost use Rattle.std.specs.Prelude.{OnErr, OnOk, option_and_then};
ghost use Rattle.rart_parts.specs.Errors.{IsMemory};
ghost use Rattle.rart_keys.specs.KeyBytes.{IsWithin};
ghost use Rattle.rart_keys.specs.SortedMap.{count_of, keys_of, lookup, without, longest_key};
ghost use Rattle.rart_trie.specs.edits.Deletion.{JoinsWithin, ShrinksWithout, is_leaf_at, needs_merge};
ghost use Rattle.rart_trie.specs.edits.Deletion.{merged_if_needed, without_child};
ghost use Rattle.rart_trie.specs.edits.RemoveAllocations.{remove_allocates, trie_remove_allocates};
ghost use Rattle.rart_trie.specs.tries.Tree.{IsCanonicalTree, tree_lookup, tree_pairs, tree_remove};
ghost use Rattle.rart_trie.specs.tries.Trie.{IsCanonical, capacity_in, children_in, edges_of, trie_lookup, pairs_of};
ghost use Rattle.rart_trie.specs.tries.Trie.{prefix_of, trie_remove, value_of, child_in};

use crate::node::DefaultNode;
use crate::node::fill::fill;
use rart_keys::Partial;
use rart_parts::TreeError;
use std::alloc::Global;

impl<P: Partial, V> DefaultNode<P, V> {
    /// Merges the node with its only child if it has no value. The child keeps its
    /// kind. It does not allocate.
    // Not inline: a descent that calls it holds no node on the stack.
    #[inline(never)]
    pub(super) fn merge_with_only_child(&mut self)
        requires capacity { needs_merge (value_of self.old) (children_in self.old) ≡ true
            → capacity_in self.old ≡ 4 }
        requires within { JoinsWithin P.MAXIMUM_SIZE (prefix_of self.old) (children_in self.old) }
        ensures { self.new ≡ merged_if_needed self.old }
    {
        if self.storage.has_value() || self.storage.num_children() != 1 {
            return;
        }
        let (_byte, child) = self.storage.take_only_child();
        let DefaultNode { mut storage } = child;
        let joined = self
            .storage
            .prefix()
            .partial_extended_with(storage.prefix());
        storage.set_prefix(joined);
        self.storage.replace_empty(storage);
    }

    /// Removes the child at byte `b` and returns it, as `Node::delete_child` does.
    // Inline with what it calls: each call that returns a child copies it.
    #[inline(always)]
    pub(crate) fn take_child(&mut self, alloc: Global, b: u8) -> Result<Option<Self>, TreeError>
        requires within { JoinsWithin P.MAXIMUM_SIZE (prefix_of self.old) (children_in self.old) }
        ensures taken { IfOk result (λ child. child ≡ child_in b self.old) }
        ensures rest { OnOk result (self.new ≡ without_child b self.old) }
        ensures unchanged { OnErr result (self.new ≡ self.old) }
        ensures allocates { OnErr result (ShrinksWithout b self.old) }
        ensures memory { IfErr result IsMemory }
    {
        let smallest = self.storage.capacity() == 4;
        let Some(child) = self.storage.delete_child(alloc, b)? else {
            return Ok(None);
        };
        if smallest {
            self.merge_with_only_child();
        }
        Ok(Some(child))
    }

    /// Returns whether the node is a leaf that holds `key`, the rest of a key after the path to it.
    pub(crate) fn is_leaf_at(&self, key: &[u8]) -> bool
        ensures { result ≡ is_leaf_at key.now self.now }
    {
        if self.storage.num_children() > 0 {
            return false;
        }
        match self.storage.strip_prefix(key) {
            Some(rest) => rest.is_empty(),
            None => false,
        }
    }

    /// Returns the value of a node without children and frees its storage.
    pub(crate) fn into_value(self) -> Option<V>
        requires { edges_of (children_in self) ≡ [] }
        ensures { result ≡ value_of self }
    {
        let DefaultNode { storage } = self;
        storage.into_value()
    }

    /// Removes the leaf at `byte` and stores its value in `removed`, which is empty.
    // Not inline: a descent that calls it holds no node on the stack.
    #[inline(never)]
    pub(super) fn take_leaf(
        &mut self,
        alloc: Global,
        byte: u8,
        removed: &mut Option<V>,
    ) -> Result<(), TreeError>
        requires within { JoinsWithin P.MAXIMUM_SIZE (prefix_of self.old) (children_in self.old) }
        requires stored { child_in byte self.old ≢ None }
        requires leaf { IfSome (child_in byte self.old) (λ t. edges_of (children_in t) ≡ []) }
        requires empty { removed.old ≡ None }
        ensures taken { OnOk result
            (removed.new ≡ option_and_then value_of (child_in byte self.old)) }
        ensures rest { OnOk result (self.new ≡ without_child byte self.old) }
        ensures unchanged { OnErr result (self.new ≡ self.old) }
        ensures nothing { OnErr result (removed.new ≡ None) }
        ensures allocates { OnErr result (ShrinksWithout byte self.old) }
        ensures memory { IfErr result IsMemory }
    {
        match self.take_child(alloc, byte)? {
            Some(child) => {
                fill(removed, child.into_value());
                Ok(())
            }
            None => unreachable!(),
        }
    }

    // Out-parameter `removed`, which is empty: a result that holds the value would be copied once more at each level.
    fn take_below(
        &mut self,
        alloc: Global,
        key: &[u8],
        removed: &mut Option<V>,
    ) -> Result<(), TreeError>
        requires canonical { IsCanonical self.old }
        requires within { IsWithin P.MAXIMUM_SIZE (longest_key (pairs_of self.old)) }
        requires not_leaf { is_leaf_at key.now self.old ≡ false }
        requires empty { removed.old ≡ None }
        ensures ok { OnOk result (Some self.new ≡ trie_remove key.now self.old) }
        ensures answer { OnOk result (removed.new ≡ trie_lookup key.now self.old) }
        ensures unchanged { OnErr result (self.new ≡ self.old) }
        ensures nothing { OnErr result (removed.new ≡ None) }
        ensures memory { IfErr result IsMemory }
        ensures allocates { OnErr result ((trie_remove_allocates None key.now self.old ≡ true)
            × (trie_lookup key.now self.old ≢ None)) }
    {
        let Some(rest) = self.storage.strip_prefix(key) else {
            return Ok(());
        };
        let Some(&byte) = rest.first() else {
            fill(removed, self.storage.take_value());
            self.merge_with_only_child();
            return Ok(());
        };
        match self.storage.seek_child_mut(byte) {
            Some(child) => {
                if !child.is_leaf_at(rest) {
                    return child.take_below(alloc, rest, removed);
                }
            }
            None => return Ok(()),
        }
        self.take_leaf(alloc, byte, removed)
    }

    fn remove_below(&mut self, alloc: Global, key: &[u8]) -> Result<Option<V>, TreeError>
        requires canonical { IsCanonical self.old }
        requires within { IsWithin P.MAXIMUM_SIZE (longest_key (pairs_of self.old)) }
        requires not_leaf { is_leaf_at key.now self.old ≡ false }
        ensures ok { OnOk result (Some self.new ≡ trie_remove key.now self.old) }
        ensures answer { IfOk result (λ old. old ≡ trie_lookup key.now self.old) }
        ensures unchanged { OnErr result (self.new ≡ self.old) }
        ensures memory { IfErr result IsMemory }
        ensures allocates { OnErr result ((trie_remove_allocates None key.now self.old ≡ true)
            × (trie_lookup key.now self.old ≢ None)) }
    {
        let mut removed: Option<V> = None;
        match self.take_below(alloc, key, &mut removed) {
            Ok(()) => Ok(removed),
            Err(error) => match removed {
                Some(_) => unreachable!(),
                None => Err(error),
            },
        }
    }

    /// Removes `key` from the tree of an optional root, as `tree_remove` says.
    fn take_from(root: &mut Option<Self>, alloc: Global, key: &[u8]) -> Result<Option<V>, TreeError>
        requires canonical { IsCanonicalTree root.old }
        requires within { IsWithin P.MAXIMUM_SIZE (longest_key (tree_pairs root.old)) }
        ensures ok { OnOk result (root.new ≡ tree_remove key.now root.old) }
        ensures answer { IfOk result (λ old. old ≡ tree_lookup key.now root.old) }
        ensures unchanged { OnErr result (root.new ≡ root.old) }
        ensures memory { IfErr result IsMemory }
        ensures allocates { OnErr result
            ((remove_allocates (keys_of (tree_pairs root.old)) key.now ≡ true)
            × (tree_lookup key.now root.old ≢ None)) }
    {
        match root {
            Some(node) => {
                if !node.is_leaf_at(key) {
                    return node.remove_below(alloc, key);
                }
            }
            None => return Ok(None),
        }
        match root.take() {
            Some(leaf) => Ok(leaf.into_value()),
            None => unreachable!(),
        }
    }

    /// Removes `key` from the tree of an optional root and returns its value. The tree must be canonical and its keys
    /// within the maximum.
    ///
    /// # Errors
    ///
    /// [`TreeError::Memory`] if the parent of the key's leaf must shrink from 5, 17 or 49 children to one fewer and
    /// the allocation fails. The tree is then unchanged.
    pub fn remove(
        root: &mut Option<Self>,
        alloc: Global,
        key: &[u8],
    ) -> Result<Option<V>, TreeError>
        requires canonical { IsCanonicalTree root.old }
        requires within { IsWithin P.MAXIMUM_SIZE (longest_key (tree_pairs root.old)) }
        ensures canonical { OnOk result (IsCanonicalTree root.new) }
        ensures pairs { OnOk result (tree_pairs root.new ≡ without key.now (tree_pairs root.old)) }
        ensures answer { IfOk result (λ old. old ≡ lookup key.now (tree_pairs root.old)) }
        ensures count { IfOk result (λ old. length (tree_pairs root.new) + count_of old
            ≡ length (tree_pairs root.old)) }
        ensures longest_key { OnOk result
            (longest_key (tree_pairs root.new) ≤ longest_key (tree_pairs root.old)) }
        ensures unchanged { OnErr result (root.new ≡ root.old) }
        ensures memory { IfErr result IsMemory }
        ensures allocates { OnErr result
            ((remove_allocates (keys_of (tree_pairs root.old)) key.now ≡ true)
            × (lookup key.now (tree_pairs root.old) ≢ None)) }
    {
        DefaultNode::take_from(root, alloc, key)
    }
}
