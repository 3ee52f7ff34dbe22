//! Walks that lend each value to a callback, which may change it.

// They descend by recursion and do not allocate.

ghost use Rattle.std.specs.Prelude.{◌≡◌, [], length};
ghost use Rattle.rart_keys.specs.Ranges.{between};
ghost use Rattle.rart_keys.specs.SortedMap.{longest_key, values_of};
ghost use Rattle.rart_trie.specs.edits.ValueChanges.{CanLend, ChangesBelow, ChangesBetween};
ghost use Rattle.rart_trie.specs.ranges.LentBounds.{lent_bound};
ghost use Rattle.rart_trie.specs.storages.Stored.{HoldsSo, stored_value};
ghost use Rattle.rart_trie.specs.tries.Tree.{IsCanonicalTree, tree_nodes, tree_pairs};
ghost use Rattle.rart_trie.specs.tries.Trie.{IsCanonical, own_pair, pairs_of, prefix_of};
ghost use Rattle.rart_trie.specs.walks.BelowPrefix.{values_below};

use crate::node::DefaultNode;
use crate::node::bounds::{after_prefix, at_child, both_hold_empty, byte_below, has_bounds};
use crate::node::ends::End;
use crate::node::storage::Storage;
use rart_keys::Partial;
use std::ops::Bound;

/// Calls `f` with the value of a node, if it has one and the empty key is within both bounds, which begin after the
/// node's prefix.
fn change_own<P: Partial, V, F: FnMut(&mut V)>(
    storage: &mut Storage<P, V, DefaultNode<P, V>>,
    start: Bound<&[u8]>,
    end: Bound<&[u8]>,
    f: &mut F,
)
    requires callable { CanLend F.FnMut f.old (values_of
        (between (lent_bound start) (lent_bound end) (own_pair (stored_value storage.old)))) }
    ensures changes { ChangesBetween F.FnMut (lent_bound start.entry) (lent_bound end.entry) f.old
        (own_pair (stored_value storage.old)) (own_pair (stored_value storage.new)) f.new }
    ensures same { HoldsSo storage.old (stored_value storage.new) storage.new }
{
    if !both_hold_empty(start, end) {
        return;
    }
    match storage.value_mut() {
        Some(value) => f(value),
        None => {}
    }
}

impl<P: Partial, V> DefaultNode<P, V> {
    /// Calls `f` with each value of the subtree, in order.
    fn change_each<F: FnMut(&mut V)>(&mut self, f: &mut F)
        requires canonical { IsCanonical self.old }
        requires callable { CanLend F.FnMut f.old (values_of (pairs_of self.old)) }
        ensures canonical { IsCanonical self.new }
        ensures prefix { prefix_of self.new ≡ prefix_of self.old }
        ensures changes { ChangesBelow F.FnMut [] f.old (pairs_of self.old) (pairs_of self.new)
            f.new }
    {
        if let Some(value) = self.storage.value_mut() {
            f(value);
        }
        let mut next = self.storage.first_byte();
        while let Some(byte) = next {
            match self.storage.seek_child_mut(byte) {
                Some(child) => child.change_each(f),
                None => unreachable!(),
            }
            next = self.storage.byte_above(byte);
        }
    }

    /// Calls `f` with each value of the subtree whose key begins with `prefix`, in order.
    fn change_below<F: FnMut(&mut V)>(&mut self, prefix: &[u8], f: &mut F)
        requires canonical { IsCanonical self.old }
        requires callable { CanLend F.FnMut f.old (values_below prefix.now (pairs_of self.old)) }
        ensures canonical { IsCanonical self.new }
        ensures prefix { prefix_of self.new ≡ prefix_of self.old }
        ensures changes { ChangesBelow F.FnMut prefix.now f.old (pairs_of self.old)
            (pairs_of self.new) f.new }
    {
        let Some(rest) = self.storage.strip_prefix(prefix) else {
            if self.storage.prefix().starts_with(prefix) {
                self.change_each(f);
            }
            return;
        };
        let Some(&byte) = rest.first() else {
            self.change_each(f);
            return;
        };
        if let Some(child) = self.storage.seek_child_mut(byte) {
            child.change_below(rest, f);
        }
    }

    /// Calls `f` with each value of the subtree whose key is within both bounds, in order.
    fn change_within<F: FnMut(&mut V)>(&mut self, start: Bound<&[u8]>, end: Bound<&[u8]>, f: &mut F)
        requires canonical { IsCanonical self.old }
        requires callable { CanLend F.FnMut f.old
            (values_of (between (lent_bound start) (lent_bound end) (pairs_of self.old))) }
        ensures canonical { IsCanonical self.new }
        ensures prefix { prefix_of self.new ≡ prefix_of self.old }
        ensures changes { ChangesBetween F.FnMut (lent_bound start.entry) (lent_bound end.entry)
            f.old (pairs_of self.old) (pairs_of self.new) f.new }
    {
        if !has_bounds(start, end) {
            self.change_each(f);
            return;
        }
        let Some(low) = after_prefix(End::First, self.storage.prefix(), start) else {
            return;
        };
        let Some(high) = after_prefix(End::Last, self.storage.prefix(), end) else {
            return;
        };
        change_own(&mut self.storage, low, high, f);
        // the children before the start are not stepped over one by one
        let mut next = self.storage.first_byte_after(byte_below(low));
        while let Some(byte) = next {
            let Some(child_high) = at_child(End::Last, byte, high) else {
                // the keys of the children after this one are past the end too
                return;
            };
            let Some(child_low) = at_child(End::First, byte, low) else {
                next = self.storage.byte_above(byte);
                continue;
            };
            match self.storage.seek_child_mut(byte) {
                Some(child) => child.change_within(child_low, child_high, f),
                None => unreachable!(),
            }
            next = self.storage.byte_above(byte);
        }
    }

    /// Calls `f` with each value of the tree of an optional root whose key begins with `prefix`, in order. `f` must be
    /// callable with each of these values in turn. The tree must be canonical.
    pub fn change_values<F: FnMut(&mut V)>(root: &mut Option<Self>, prefix: &[u8], f: &mut F)
        requires canonical { IsCanonicalTree root.old }
        requires callable { CanLend F.FnMut f.old
            (values_below prefix.now (tree_pairs root.old)) }
        ensures stays_callable { F.IsAlwaysCallable f.old → F.IsAlwaysCallable f.new }
        ensures canonical { IsCanonicalTree root.new }
        ensures changes { ChangesBelow F.FnMut prefix.now f.old (tree_pairs root.old)
            (tree_pairs root.new) f.new }
        ensures nodes { tree_nodes root.new ≡ tree_nodes root.old }
        ensures count { length (tree_pairs root.new) ≡ length (tree_pairs root.old) }
        ensures longest_key { longest_key (tree_pairs root.new)
            ≡ longest_key (tree_pairs root.old) }
    {
        match root {
            Some(node) => node.change_below(prefix, f),
            None => {}
        }
    }

    /// Calls `f` with each value of the tree of an optional root whose key is within both bounds, in order. If the end
    /// is before the start there is none. `f` must be callable with each of these values in turn. The tree must be
    /// canonical.
    pub fn change_values_within<F: FnMut(&mut V)>(
        root: &mut Option<Self>,
        start: Bound<&[u8]>,
        end: Bound<&[u8]>,
        f: &mut F,
    )
        requires canonical { IsCanonicalTree root.old }
        requires callable { CanLend F.FnMut f.old
            (values_of (between (lent_bound start) (lent_bound end) (tree_pairs root.old))) }
        ensures stays_callable { F.IsAlwaysCallable f.old → F.IsAlwaysCallable f.new }
        ensures canonical { IsCanonicalTree root.new }
        ensures changes { ChangesBetween F.FnMut (lent_bound start.entry) (lent_bound end.entry)
            f.old (tree_pairs root.old) (tree_pairs root.new) f.new }
        ensures nodes { tree_nodes root.new ≡ tree_nodes root.old }
        ensures count { length (tree_pairs root.new) ≡ length (tree_pairs root.old) }
        ensures longest_key { longest_key (tree_pairs root.new)
            ≡ longest_key (tree_pairs root.old) }
    {
        match root {
            Some(node) => node.change_within(start, end, f),
            None => {}
        }
    }
}
