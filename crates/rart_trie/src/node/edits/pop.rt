//! Removal of the first or the last pair, on one descent, which allocates smaller storage before the first write.
ghost use Rattle.std.specs.Prelude.{◌≡◌, ◌≢◌, ◌+◌, ◌++◌, ◌≤◌, length, true, None, Some, IfErr, IfOk, OnErr};
ghost use Rattle.std.specs.Prelude.{OnOk, option_map, slice_get};
ghost use Rattle.std.specs.Option.{IsSomeAnd};
ghost use Rattle.rart_parts.specs.Errors.{IsMemory};
ghost use Rattle.rart_keys.specs.Filters.{last_or};
ghost use Rattle.rart_keys.specs.KeyBytes.{IsWithin};
ghost use Rattle.rart_keys.specs.SortedMap.{count_of, keys_of, longest_key, lookup};
ghost use Rattle.rart_trie.specs.edits.Pops.{PopAllocates, Pops, PopsEnd, PopsFirst, PopsLast};
ghost use Rattle.rart_trie.specs.edits.RemoveAllocations.{remove_allocates};
ghost use Rattle.rart_trie.specs.storages.Stored.{stored_prefix};
ghost use Rattle.rart_trie.specs.tries.Ends.{end_of};
ghost use Rattle.rart_trie.specs.tries.Tree.{IsCanonicalTree, tree_pairs};
ghost use Rattle.rart_trie.specs.tries.Trie.{IsCanonical, children_in, no_children, pairs_of};

use crate::node::DefaultNode;
use crate::node::ends::{End, copy_of};
use crate::node::fill::fill;
use crate::node::storage::Storage;
use rart_keys::Partial;
use rart_parts::TreeError;
use std::alloc::Global;

impl<P: Partial, V> DefaultNode<P, V> {
    // Out-parameters `path` and `removed`, as in `take_below`: `path` grows by the key of the removed pair.
    fn pop_below(
        &mut self,
        alloc: Global,
        end: End,
        path: &mut P,
        removed: &mut Option<V>,
    ) -> Result<(), TreeError>
        requires canonical { IsCanonical self.old }
        requires within { IsWithin P.MAXIMUM_SIZE
            (length (P.bytes path.old) + longest_key (pairs_of self.old)) }
        requires inner { children_in self.old ≢ no_children }
        requires empty { removed.old ≡ None }
        ensures ok { OnOk result
            (Pops end self.old (P.bytes path.old) (P.bytes path.new) removed.new self.new) }
        ensures unchanged { OnErr result (self.new ≡ self.old) }
        ensures nothing { OnErr result (removed.new ≡ None) }
        ensures memory { IfErr result IsMemory }
        ensures allocates { OnErr result (PopAllocates end self.old) }
    {
        extend(path, &self.storage);
        let Some((byte, _)) = self.end_child(end) else {
            fill(removed, self.storage.take_value());
            self.merge_with_only_child();
            return Ok(());
        };
        match self.storage.seek_child_mut(byte) {
            Some(child) => {
                if child.storage.num_children() > 0 {
                    return child.pop_below(alloc, end, path, removed);
                }
                extend(path, &child.storage);
            }
            None => unreachable!(),
        }
        self.take_leaf(alloc, byte, removed)
    }

    fn pop_inner(&mut self, alloc: Global, end: End) -> Result<(P, V), TreeError>
        requires canonical { IsCanonical self.old }
        requires within { IsWithin P.MAXIMUM_SIZE (longest_key (pairs_of self.old)) }
        requires inner { children_in self.old ≢ no_children }
        ensures canonical { OnOk result (IsCanonical self.new) }
        ensures pairs { IfOk result (λ p. PopsEnd end (pairs_of self.old) (Some (P.bytes p.0, p.1))
            (pairs_of self.new)) }
        ensures unchanged { OnErr result (self.new ≡ self.old) }
        ensures memory { IfErr result IsMemory }
        ensures allocates { OnErr result (IsSomeAnd (end_of end (pairs_of self.old))
            (λ p. (remove_allocates (keys_of (pairs_of self.old)) p.0 ≡ true)
            × (lookup p.0 (pairs_of self.old) ≢ None))) }
    {
        let mut path = P::from_slice(&[]);
        let mut removed: Option<V> = None;
        match self.pop_below(alloc, end, &mut path, &mut removed) {
            Ok(()) => match removed {
                Some(value) => Ok((path, value)),
                None => unreachable!(),
            },
            Err(error) => match removed {
                Some(_) => unreachable!(),
                None => Err(error),
            },
        }
    }

    fn pop_end(
        root: &mut Option<Self>,
        alloc: Global,
        end: End,
    ) -> Result<Option<(P, V)>, TreeError>
        requires canonical { IsCanonicalTree root.old }
        requires within { IsWithin P.MAXIMUM_SIZE (longest_key (tree_pairs root.old)) }
        ensures canonical { OnOk result (IsCanonicalTree root.new) }
        ensures pairs { IfOk result (λ p. PopsEnd end (tree_pairs root.old)
            (option_map (λ p. (P.bytes p.0, p.1)) p) (tree_pairs root.new)) }
        ensures unchanged { OnErr result (root.new ≡ root.old) }
        ensures memory { IfErr result IsMemory }
        ensures allocates { OnErr result (IsSomeAnd (end_of end (tree_pairs root.old))
            (λ p. (remove_allocates (keys_of (tree_pairs root.old)) p.0 ≡ true)
            × (lookup p.0 (tree_pairs root.old) ≢ None))) }
    {
        match root {
            Some(node) => {
                if node.storage.num_children() > 0 {
                    return match node.pop_inner(alloc, end) {
                        Ok(pair) => Ok(Some(pair)),
                        Err(error) => Err(error),
                    };
                }
            }
            None => return Ok(None),
        }
        match root.take() {
            Some(leaf) => {
                let path = copy_of(leaf.storage.prefix());
                match leaf.into_value() {
                    Some(value) => Ok(Some((path, value))),
                    None => unreachable!(),
                }
            }
            None => unreachable!(),
        }
    }

    /// Removes the pair with the least key from the tree of an optional root and returns it. The tree must be
    /// canonical and its keys within the maximum.
    ///
    /// # Errors
    ///
    /// [`TreeError::Memory`] if the parent of the key's leaf must shrink from 5, 17 or 49 children to one fewer and
    /// the allocation fails. The tree is then unchanged.
    pub fn pop_first(root: &mut Option<Self>, alloc: Global) -> Result<Option<(P, V)>, TreeError>
        requires canonical { IsCanonicalTree root.old }
        requires within { IsWithin P.MAXIMUM_SIZE (longest_key (tree_pairs root.old)) }
        ensures canonical { OnOk result (IsCanonicalTree root.new) }
        ensures pairs { IfOk result (λ p. PopsFirst (tree_pairs root.old)
            (option_map (λ p. (P.bytes p.0, p.1)) p) (tree_pairs root.new)) }
        ensures count { IfOk result (λ p. length (tree_pairs root.new) + count_of p
            ≡ length (tree_pairs root.old)) }
        ensures longest_key { OnOk result
            (longest_key (tree_pairs root.new) ≤ longest_key (tree_pairs root.old)) }
        ensures unchanged { OnErr result (root.new ≡ root.old) }
        ensures memory { IfErr result IsMemory }
        ensures allocates { OnErr result (IsSomeAnd (slice_get (tree_pairs root.old) 0)
            (λ p. (remove_allocates (keys_of (tree_pairs root.old)) p.0 ≡ true)
            × (lookup p.0 (tree_pairs root.old) ≢ None))) }
    {
        DefaultNode::pop_end(root, alloc, End::First)
    }

    /// Removes the pair with the greatest key, with the requirements of `pop_first`.
    ///
    /// # Errors
    ///
    /// Those of `pop_first`. The tree is then unchanged.
    pub fn pop_last(root: &mut Option<Self>, alloc: Global) -> Result<Option<(P, V)>, TreeError>
        requires canonical { IsCanonicalTree root.old }
        requires within { IsWithin P.MAXIMUM_SIZE (longest_key (tree_pairs root.old)) }
        ensures canonical { OnOk result (IsCanonicalTree root.new) }
        ensures pairs { IfOk result (λ p. PopsLast (tree_pairs root.old)
            (option_map (λ p. (P.bytes p.0, p.1)) p) (tree_pairs root.new)) }
        ensures count { IfOk result (λ p. length (tree_pairs root.new) + count_of p
            ≡ length (tree_pairs root.old)) }
        ensures longest_key { OnOk result
            (longest_key (tree_pairs root.new) ≤ longest_key (tree_pairs root.old)) }
        ensures unchanged { OnErr result (root.new ≡ root.old) }
        ensures memory { IfErr result IsMemory }
        ensures allocates { OnErr result (IsSomeAnd (last_or None (tree_pairs root.old))
            (λ p. (remove_allocates (keys_of (tree_pairs root.old)) p.0 ≡ true)
            × (lookup p.0 (tree_pairs root.old) ≢ None))) }
    {
        DefaultNode::pop_end(root, alloc, End::Last)
    }
}

// Extends a path by the prefix of a storage.
// Not inline: a descent that calls it holds no path on the stack.
#[inline(never)]
pub(super) fn extend<P: Partial, V>(path: &mut P, storage: &Storage<P, V, DefaultNode<P, V>>)
    requires { IsWithin P.MAXIMUM_SIZE
        (length (P.bytes path.old) + length (P.bytes (stored_prefix storage.now))) }
    ensures { P.bytes path.new ≡ P.bytes path.old ++ P.bytes (stored_prefix storage.now) }
{
    *path = path.partial_extended_with(storage.prefix());
}
