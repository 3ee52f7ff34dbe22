//! Updates below a node: one descent calls the callback at its end and applies the result.

// It allocates before the first write.

ghost use Rattle.std.specs.Prelude.{◌≡◌, ◌≢◌, ◌≤◌, [], ℕ, List, length, option_and_then, slice_get, false, true, None};
ghost use Rattle.std.specs.Prelude.{Some, IfSome, IsSomeAnd, Option, OnErr};
ghost use Rattle.std.specs.Fn.{FnOnceReturnsAtMut, FnOnceTakesAtMut};
ghost use Rattle.rart_keys.specs.ByteStrings.{strip_prefix};
ghost use Rattle.rart_keys.specs.KeyBytes.{IsWithin};
ghost use Rattle.rart_keys.specs.SortedMap.{keys_of, lookup, longest_key};
ghost use Rattle.rart_trie.specs.declared.slot.SlotUpdate.{SlotUpdate};
ghost use Rattle.rart_trie.specs.edits.Deletion.{JoinsWithin, is_leaf_at, needs_merge};
ghost use Rattle.rart_trie.specs.tries.Tree.{IsCanonicalTree, tree_lookup, tree_nodes, tree_pairs};
ghost use Rattle.rart_trie.specs.tries.Trie.{IsCanonical, capacity_in, child_in, children_in, edges_of, pairs_of};
ghost use Rattle.rart_trie.specs.tries.Trie.{prefix_of, trie_lookup, value_of};
ghost use Rattle.rart_trie.specs.edits.Callbacks.{KeepsSlotReturning, AnswersReturning};
ghost use Rattle.rart_trie.specs.edits.Slots.{CountsPairs, longest_after, slot_of};
ghost use Rattle.rart_trie.specs.edits.TreeUpdates.{EndsHere, EndsLeaf, EndsTree, RemovesLeaf, RemovesRoot};
ghost use Rattle.rart_trie.specs.edits.Updates.{UpdatesMap};

use crate::node::DefaultNode;
use crate::node::edits::insert::add_leaf;
use crate::node::fill::fill;
use crate::refused::Refused;
use crate::slot::{Outcome, Slot, SlotUpdate, UpdateError, Visit, show, show_vacant};
use rart_keys::Partial;
use rart_parts::TreeError;
use std::alloc::Global;

/// Returns the error for a new key in a full tree.
fn full_error<V>(value: V) -> UpdateError<V>
    ensures { result ≡ UpdateError.Insert (record { error = TreeError.Full; value = value }) }
{
    UpdateError::Insert(Refused::full(value))
}

impl<P: Partial, V> DefaultNode<P, V> {
    // Applies the result for a key that the prefix does not begin.
    #[inline(never)]
    fn apply_split(
        &mut self,
        alloc: Global,
        full: bool,
        key: &[u8],
        answer: SlotUpdate<V>,
    ) -> Result<Outcome<V>, UpdateError<V>>
        requires leaves { None ≡ strip_prefix (prefix_of self.old) key.now }
        requires within { IsWithin P.MAXIMUM_SIZE (length key.now) }
        ensures { EndsTree full key.now answer None (Some self.old) result (Some self.new) }
    {
        match answer {
            SlotUpdate::Keep | SlotUpdate::Remove => Ok(Outcome::Absent),
            SlotUpdate::Insert(value) => {
                if full {
                    return Err(full_error(value));
                }
                match self.split(alloc, key, value) {
                    Ok(()) => Ok(Outcome::New),
                    Err(refused) => Err(UpdateError::Insert(refused)),
                }
            }
        }
    }

    // Applies the result for a key that needs a new child at the first byte of `rest`.
    #[inline(never)]
    fn apply_to_child(
        &mut self,
        alloc: Global,
        full: bool,
        rest: &[u8],
        byte: u8,
        answer: SlotUpdate<V>,
    ) -> Result<Outcome<V>, UpdateError<V>>
        requires canonical { IsCanonical self.old }
        requires first_byte { Some byte ≡ slice_get rest.now 0 }
        requires absent { child_in byte self.old ≡ None }
        requires within { IsWithin P.MAXIMUM_SIZE (length rest.now) }
        ensures { (key : List ℕ) → Some rest.now ≡ strip_prefix (prefix_of self.old) key
            → EndsTree full key answer None (Some self.old) result (Some self.new) }
    {
        match answer {
            SlotUpdate::Keep | SlotUpdate::Remove => Ok(Outcome::Absent),
            SlotUpdate::Insert(value) => {
                if full {
                    return Err(full_error(value));
                }
                match self.storage.reserve_slot(alloc, byte) {
                    Ok(()) => {
                        add_leaf(&mut self.storage, byte, rest, value);
                        Ok(Outcome::New)
                    }
                    Err(error) => Err(UpdateError::Insert(Refused { error, value })),
                }
            }
        }
    }

    // Applies the result at a node with children whose value was `left`.
    #[inline(never)]
    fn apply_here(
        &mut self,
        full: bool,
        left: Option<V>,
        answer: SlotUpdate<V>,
    ) -> Result<Outcome<V>, UpdateError<V>>
        requires no_value { value_of self.old ≡ None }
        requires capacity { needs_merge None (children_in self.old) ≡ true
            → capacity_in self.old ≡ 4 }
        requires within { JoinsWithin P.MAXIMUM_SIZE (prefix_of self.old) (children_in self.old) }
        ensures { EndsHere full answer left self.old result self.new }
    {
        match left {
            Some(left) => match answer {
                SlotUpdate::Keep => {
                    self.storage.fill_value(left);
                    Ok(Outcome::Kept)
                }
                SlotUpdate::Insert(value) => {
                    self.storage.fill_value(value);
                    Ok(Outcome::Replaced(left))
                }
                SlotUpdate::Remove => {
                    self.merge_with_only_child();
                    Ok(Outcome::Removed(left))
                }
            },
            None => match answer {
                SlotUpdate::Keep | SlotUpdate::Remove => Ok(Outcome::Absent),
                SlotUpdate::Insert(value) => {
                    if full {
                        return Err(full_error(value));
                    }
                    self.storage.fill_value(value);
                    Ok(Outcome::New)
                }
            },
        }
    }

    // Calls `f` with a leaf's value and applies the result. No outcome: the leaf is to be removed.
    fn update_leaf<X, F: FnOnce(&mut Slot<V>) -> (SlotUpdate<V>, X)>(
        &mut self,
        f: F,
    ) -> (Option<Outcome<V>>, X)
        requires callable { FnOnceTakesAtMut F.FnOnce f (slot_of (value_of self.old)) }
        requires occupancy { (r : SlotUpdate V) (x : X) (w : Option V)
            → FnOnceReturnsAtMut F.FnOnce f (slot_of (value_of self.old)) (r, x) (slot_of w)
            → w ≢ None }
        ensures { AnswersReturning F.FnOnce f (value_of self.old) result.1
            (λ r w. EndsLeaf r w self.old result.0 self.new) }
    {
        let Visit {
            left,
            answer,
            extra,
        } = show(self.storage.take_value(), f);
        let Some(left) = left else { unreachable!() };
        match answer {
            SlotUpdate::Keep => {
                self.storage.fill_value(left);
                (Some(Outcome::Kept), extra)
            }
            SlotUpdate::Insert(value) => {
                self.storage.fill_value(value);
                (Some(Outcome::Replaced(left)), extra)
            }
            SlotUpdate::Remove => {
                self.storage.fill_value(left);
                (None, extra)
            }
        }
    }

    // Removes the leaf at `byte`; on an error the node is unchanged.
    #[inline(never)]
    fn remove_leaf(&mut self, alloc: Global, byte: u8) -> Result<Outcome<V>, UpdateError<V>>
        requires within { JoinsWithin P.MAXIMUM_SIZE (prefix_of self.old) (children_in self.old) }
        requires stored { child_in byte self.old ≢ None }
        requires leaf { IfSome (child_in byte self.old)
            (λ t. (edges_of (children_in t) ≡ []) × (value_of t ≢ None)) }
        ensures { RemovesLeaf byte (option_and_then value_of (child_in byte self.old))
            self.old result self.new }
    {
        match self.take_child(alloc, byte) {
            Ok(Some(child)) => match child.into_value() {
                Some(value) => Ok(Outcome::Removed(value)),
                None => unreachable!(),
            },
            Ok(None) => unreachable!(),
            Err(_) => Err(UpdateError::Remove),
        }
    }

    fn update_below<X, F: FnOnce(&mut Slot<V>) -> (SlotUpdate<V>, X)>(
        &mut self,
        alloc: Global,
        full: bool,
        key: &[u8],
        f: F,
    ) -> (Result<Outcome<V>, UpdateError<V>>, X)
        requires canonical { IsCanonical self.old }
        requires key_within { IsWithin P.MAXIMUM_SIZE (length key.now) }
        requires within { IsWithin P.MAXIMUM_SIZE (longest_key (pairs_of self.old)) }
        requires not_leaf { is_leaf_at key.now self.old ≡ false }
        requires callable { FnOnceTakesAtMut F.FnOnce f (slot_of (trie_lookup key.now self.old)) }
        requires occupancy { KeepsSlotReturning F.FnOnce f (trie_lookup key.now self.old) }
        ensures { AnswersReturning F.FnOnce f (trie_lookup key.now self.old) result.1
            (λ r w. EndsTree full key.now r w (Some self.old) result.0 (Some self.new)) }
    {
        let Some(rest) = self.storage.strip_prefix(key) else {
            let (answer, extra) = show_vacant(f);
            return (self.apply_split(alloc, full, key, answer), extra);
        };
        let Some(&byte) = rest.first() else {
            let Visit {
                left,
                answer,
                extra,
            } = show(self.storage.take_value(), f);
            return (self.apply_here(full, left, answer), extra);
        };
        let (outcome, extra) = match self.storage.seek_child_mut(byte) {
            Some(child) => {
                if !child.is_leaf_at(rest) {
                    return child.update_below(alloc, full, rest, f);
                }
                child.update_leaf(f)
            }
            None => {
                let (answer, extra) = show_vacant(f);
                return (self.apply_to_child(alloc, full, rest, byte, answer), extra);
            }
        };
        match outcome {
            Some(outcome) => (Ok(outcome), extra),
            None => (self.remove_leaf(alloc, byte), extra),
        }
    }

    // Applies the result for a key in a tree without a root.
    fn apply_to_root(
        root: &mut Option<Self>,
        full: bool,
        key: &[u8],
        answer: SlotUpdate<V>,
    ) -> Result<Outcome<V>, UpdateError<V>>
        requires empty { root.old ≡ None }
        requires within { IsWithin P.MAXIMUM_SIZE (length key.now) }
        ensures { EndsTree full key.now answer None root.old result root.new }
    {
        match answer {
            SlotUpdate::Keep | SlotUpdate::Remove => Ok(Outcome::Absent),
            SlotUpdate::Insert(value) => {
                if full {
                    return Err(full_error(value));
                }
                fill(root, Some(DefaultNode::new_leaf(P::from_slice(key), value)));
                Ok(Outcome::New)
            }
        }
    }

    /// Updates the tree of an optional root, as `EndsTree` says.
    fn update_tree<X, F: FnOnce(&mut Slot<V>) -> (SlotUpdate<V>, X)>(
        root: &mut Option<Self>,
        alloc: Global,
        full: bool,
        key: &[u8],
        f: F,
    ) -> (Result<Outcome<V>, UpdateError<V>>, X)
        requires canonical { IsCanonicalTree root.old }
        requires key_within { IsWithin P.MAXIMUM_SIZE (length key.now) }
        requires within { IsWithin P.MAXIMUM_SIZE (longest_key (tree_pairs root.old)) }
        requires callable { FnOnceTakesAtMut F.FnOnce f (slot_of (tree_lookup key.now root.old)) }
        requires occupancy { KeepsSlotReturning F.FnOnce f (tree_lookup key.now root.old) }
        ensures { AnswersReturning F.FnOnce f (tree_lookup key.now root.old) result.1
            (λ r w. EndsTree full key.now r w root.old result.0 root.new) }
    {
        let (outcome, extra) = match root {
            Some(node) => {
                if !node.is_leaf_at(key) {
                    return node.update_below(alloc, full, key, f);
                }
                node.update_leaf(f)
            }
            None => {
                let (answer, extra) = show_vacant(f);
                return (DefaultNode::apply_to_root(root, full, key, answer), extra);
            }
        };
        match outcome {
            Some(outcome) => (Ok(outcome), extra),
            None => (DefaultNode::remove_root(root), extra),
        }
    }

    // Removes the root, which is a leaf.
    fn remove_root(root: &mut Option<Self>) -> Result<Outcome<V>, UpdateError<V>>
        requires leaf { IsSomeAnd root.old
            (λ t. (edges_of (children_in t) ≡ []) × (value_of t ≢ None)) }
        ensures { RemovesRoot root.old result root.new }
    {
        match root.take() {
            Some(leaf) => match leaf.into_value() {
                Some(value) => Ok(Outcome::Removed(value)),
                None => unreachable!(),
            },
            None => unreachable!(),
        }
    }

    /// Calls `f` once with the slot of `key` in the tree of an optional root, applies the [`SlotUpdate`], and returns
    /// the outcome and the second result of `f`. The tree must be canonical with its keys and `key` within the
    /// maximum. `f` must leave an occupied slot occupied and a vacant one vacant.
    ///
    /// # Errors
    ///
    /// [`UpdateError::Insert`] if a new key fails with `Full` in a tree that is `full`, or with `Memory` as in
    /// `insert`. The tree is then unchanged, and the error holds the value. [`UpdateError::Remove`] if a removal fails
    /// as in `remove`. The pair then keeps the value that `f` left.
    pub fn update<X, F: FnOnce(&mut Slot<V>) -> (SlotUpdate<V>, X)>(
        root: &mut Option<Self>,
        alloc: Global,
        full: bool,
        key: &[u8],
        f: F,
    ) -> (Result<Outcome<V>, UpdateError<V>>, X)
        requires canonical { IsCanonicalTree root.old }
        requires key_within { IsWithin P.MAXIMUM_SIZE (length key.now) }
        requires within { IsWithin P.MAXIMUM_SIZE (longest_key (tree_pairs root.old)) }
        requires callable { FnOnceTakesAtMut F.FnOnce f
            (slot_of (lookup key.now (tree_pairs root.old))) }
        requires occupancy { KeepsSlotReturning F.FnOnce f (lookup key.now (tree_pairs root.old)) }
        ensures update { UpdatesMap F.FnOnce f full key.now (tree_pairs root.old) result
            (tree_pairs root.new) }
        ensures canonical { IsCanonicalTree root.new }
        ensures count { CountsPairs result.0 (length (tree_pairs root.old))
            (length (tree_pairs root.new)) }
        ensures longest_key { longest_key (tree_pairs root.new)
            ≤ longest_after result.0 (length key.now) (longest_key (tree_pairs root.old)) }
        ensures nodes_unchanged { OnErr result.0 (tree_nodes root.new ≡ tree_nodes root.old) }
        ensures nodes { keys_of (tree_pairs root.new) ≡ keys_of (tree_pairs root.old)
            → tree_nodes root.new ≡ tree_nodes root.old }
    {
        DefaultNode::update_tree(root, alloc, full, key, f)
    }
}
