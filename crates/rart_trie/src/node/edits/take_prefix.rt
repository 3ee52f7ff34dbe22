//! Removal of all pairs below a prefix, which leave as a node of their own.

// It allocates smaller storage before the first write.

ghost use Rattle.std.specs.Prelude.{◌≡◌, ◌≢◌, ◌+◌, ◌-◌, ◌≤◌, length, true, false, None, Some, IfErr, IfOk, IfSome};
ghost use Rattle.std.specs.Prelude.{OnErr, OnOk, option_map};
ghost use Rattle.rart_parts.specs.Errors.{IsMemory};
ghost use Rattle.rart_keys.specs.ByteStrings.{begins};
ghost use Rattle.rart_keys.specs.Filters.{below, without_prefix};
ghost use Rattle.rart_keys.specs.KeyBytes.{IsWithin};
ghost use Rattle.rart_keys.specs.SortedMap.{longest_key};
ghost use Rattle.rart_trie.specs.edits.Deletion.{JoinsWithin, ShrinksWithout, without_child};
ghost use Rattle.rart_trie.specs.edits.PrefixRemovals.{TakeAllocates, prefixed_trie, tree_below, tree_without_prefix};
ghost use Rattle.rart_trie.specs.edits.PrefixRemovals.{trie_take_prefix_allocates, trie_below, trie_without_prefix};
ghost use Rattle.rart_trie.specs.tries.Tree.{IsCanonicalTree, tree_pairs};
ghost use Rattle.rart_trie.specs.tries.Trie.{IsCanonical, child_in, children_in, pairs_of, prefix_of};

use crate::count::Count;
use crate::node::DefaultNode;
use crate::node::edits::pop::extend;
use crate::node::fill::fill;
use rart_keys::Partial;
use rart_parts::TreeError;
use std::alloc::Global;

impl<P: Partial, V> DefaultNode<P, V> {
    /// Returns whether each key of the node begins with `prefix`, the rest of a prefix after the path to the node.
    ///
    /// It visits the node.
    fn is_below<C: Count>(&self, prefix: &[u8], counter: &mut C) -> bool
        ensures value { result ≡ begins prefix.now (prefix_of self.now) }
        ensures counted { C.number counter.new ≡ C.number counter.old + 1 }
    {
        counter.add_one();
        self.storage.prefix().starts_with(prefix)
    }

    /// Removes the child at `byte` and stores it in `taken`, which is empty, with `path` in front of its prefix.
    // Not inline: a descent that calls it holds no node on the stack.
    #[inline(never)]
    fn take_whole(
        &mut self,
        alloc: Global,
        byte: u8,
        path: &P,
        taken: &mut Option<Self>,
    ) -> Result<(), TreeError>
        requires within { JoinsWithin P.MAXIMUM_SIZE (prefix_of self.old) (children_in self.old) }
        requires stored { child_in byte self.old ≢ None }
        requires child_within { IfSome (child_in byte self.old) (λ t. IsWithin P.MAXIMUM_SIZE
            (length (P.bytes path.now) + length (prefix_of t))) }
        requires empty { taken.old ≡ None }
        ensures taken { OnOk result (taken.new
            ≡ option_map (prefixed_trie (P.bytes path.now)) (child_in byte self.old)) }
        ensures rest { OnOk result (self.new ≡ without_child byte self.old) }
        ensures unchanged { OnErr result (self.new ≡ self.old) }
        ensures nothing { OnErr result (taken.new ≡ None) }
        ensures allocates { OnErr result (ShrinksWithout byte self.old) }
        ensures memory { IfErr result IsMemory }
    {
        match self.take_child(alloc, byte)? {
            Some(mut child) => {
                let prefix = path.partial_extended_with(child.storage.prefix());
                child.storage.set_prefix(prefix);
                fill(taken, Some(child));
                Ok(())
            }
            None => unreachable!(),
        }
    }

    // Out-parameters `path` and `taken`, as in `pop_below`: `path` grows by the prefixes of the nodes that are passed.
    fn take_prefix_below<C: Count>(
        &mut self,
        alloc: Global,
        prefix: &[u8],
        path: &mut P,
        taken: &mut Option<Self>,
        counter: &mut C,
    ) -> Result<(), TreeError>
        requires canonical { IsCanonical self.old }
        requires within { IsWithin P.MAXIMUM_SIZE
            (length (P.bytes path.old) + longest_key (pairs_of self.old)) }
        requires not_below { begins prefix.now (prefix_of self.old) ≡ false }
        requires empty { taken.old ≡ None }
        ensures ok { OnOk result (Some self.new ≡ trie_without_prefix prefix.now self.old) }
        ensures taken { OnOk result (taken.new
            ≡ option_map (prefixed_trie (P.bytes path.old)) (trie_below prefix.now self.old)) }
        ensures unchanged { OnErr result (self.new ≡ self.old) }
        ensures nothing { OnErr result (taken.new ≡ None) }
        ensures memory { IfErr result IsMemory }
        ensures allocates { OnErr result
            (trie_take_prefix_allocates None prefix.now self.old ≡ true) }
        ensures bound { C.number counter.new
            ≤ C.number counter.old + (length prefix.now - length (prefix_of self.old)) }
    {
        let Some(rest) = self.storage.strip_prefix(prefix) else {
            return Ok(());
        };
        let Some(&byte) = rest.first() else {
            unreachable!();
        };
        extend(path, &self.storage);
        match self.storage.seek_child_mut(byte) {
            Some(child) => {
                if !child.is_below(rest, counter) {
                    return child.take_prefix_below(alloc, rest, path, taken, counter);
                }
            }
            None => return Ok(()),
        }
        self.take_whole(alloc, byte, path, taken)
    }

    fn take_prefix_inner<C: Count>(
        &mut self,
        alloc: Global,
        prefix: &[u8],
        counter: &mut C,
    ) -> Result<Option<Self>, TreeError>
        requires canonical { IsCanonical self.old }
        requires within { IsWithin P.MAXIMUM_SIZE (longest_key (pairs_of self.old)) }
        requires not_below { begins prefix.now (prefix_of self.old) ≡ false }
        ensures ok { OnOk result (Some self.new ≡ trie_without_prefix prefix.now self.old) }
        ensures taken { IfOk result (λ taken. taken ≡ trie_below prefix.now self.old) }
        ensures unchanged { OnErr result (self.new ≡ self.old) }
        ensures memory { IfErr result IsMemory }
        ensures allocates { OnErr result (TakeAllocates prefix.now (pairs_of self.old)) }
        ensures bound { C.number counter.new ≤ C.number counter.old + length prefix.now }
    {
        let mut path = P::from_slice(&[]);
        let mut taken: Option<Self> = None;
        match self.take_prefix_below(alloc, prefix, &mut path, &mut taken, counter) {
            Ok(()) => Ok(taken),
            Err(error) => match taken {
                Some(_) => unreachable!(),
                None => Err(error),
            },
        }
    }

    /// Takes the node at or below a prefix from the tree of an optional root.
    fn take_prefix_from<C: Count>(
        root: &mut Option<Self>,
        alloc: Global,
        prefix: &[u8],
        counter: &mut C,
    ) -> Result<Option<Self>, TreeError>
        requires canonical { IsCanonicalTree root.old }
        requires within { IsWithin P.MAXIMUM_SIZE (longest_key (tree_pairs root.old)) }
        ensures ok { OnOk result (root.new ≡ tree_without_prefix prefix.now root.old) }
        ensures taken { IfOk result (λ taken. taken ≡ tree_below prefix.now root.old) }
        ensures unchanged { OnErr result (root.new ≡ root.old) }
        ensures memory { IfErr result IsMemory }
        ensures allocates { OnErr result (TakeAllocates prefix.now (tree_pairs root.old)) }
        ensures bound { C.number counter.new ≤ C.number counter.old + length prefix.now + 1 }
    {
        match root {
            Some(node) => {
                if !node.is_below(prefix, counter) {
                    return node.take_prefix_inner(alloc, prefix, counter);
                }
            }
            None => return Ok(None),
        }
        Ok(root.take())
    }

    /// Removes all pairs whose key begins with `prefix` from the tree of an optional root and returns them as the root
    /// of a tree of their own. The tree must be canonical and its keys within the maximum; both trees are so then.
    ///
    /// # Errors
    ///
    /// [`TreeError::Memory`] if the allocation for smaller storage fails. It is made only if a key begins with `prefix`
    /// and the parent of the node at or below it has 5, 17 or 49 children. The tree is then unchanged.
    ///
    /// # Visits
    ///
    /// At most `prefix.len() + 1` nodes.
    pub fn take_prefix<C: Count>(
        root: &mut Option<Self>,
        alloc: Global,
        prefix: &[u8],
        counter: &mut C,
    ) -> Result<Option<Self>, TreeError>
        requires canonical { IsCanonicalTree root.old }
        requires within { IsWithin P.MAXIMUM_SIZE (longest_key (tree_pairs root.old)) }
        ensures canonical { OnOk result (IsCanonicalTree root.new) }
        ensures taken_canonical { IfOk result (λ taken. IsCanonicalTree taken) }
        ensures pairs { OnOk result
            (tree_pairs root.new ≡ without_prefix prefix.now (tree_pairs root.old)) }
        ensures taken { IfOk result
            (λ taken. tree_pairs taken ≡ below prefix.now (tree_pairs root.old)) }
        ensures count { IfOk result
            (λ taken. length (tree_pairs root.new) + length (tree_pairs taken)
            ≡ length (tree_pairs root.old)) }
        ensures longest_key { OnOk result
            (longest_key (tree_pairs root.new) ≤ longest_key (tree_pairs root.old)) }
        ensures longest_taken { IfOk result
            (λ taken. longest_key (tree_pairs taken) ≤ longest_key (tree_pairs root.old)) }
        ensures unchanged { OnErr result (root.new ≡ root.old) }
        ensures memory { IfErr result IsMemory }
        ensures allocates { OnErr result (TakeAllocates prefix.now (tree_pairs root.old)) }
        ensures bound { C.number counter.new ≤ C.number counter.old + length prefix.now + 1 }
    {
        DefaultNode::take_prefix_from(root, alloc, prefix, counter)
    }
}
