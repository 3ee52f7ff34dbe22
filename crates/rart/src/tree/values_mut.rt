//! Walks that change values in place.
ghost use Rattle.std.specs.Prelude.{◌≡◌, []};
ghost use Rattle.rart_keys.specs.Ranges.{between, bound_in};
ghost use Rattle.rart_keys.specs.SortedMap.{values_of};
ghost use Rattle.rart_trie.specs.edits.ValueChanges.{CanLend, ChangesBelow, ChangesBelowByValue, ChangesBetween};
ghost use Rattle.rart_trie.specs.edits.ValueChanges.{ChangesBetweenByValue};
ghost use Rattle.rart_trie.specs.ranges.LentBounds.{lent_bound};
ghost use Rattle.rart_trie.specs.walks.BelowPrefix.{values_below};

use crate::tree::AdaptiveRadixTree;
use rart_keys::KeyTrait;
use rart_nodes::node::DefaultNode;
use rart_trie::node::bounds::slice_bound;
use std::ops::Bound;

impl<K: KeyTrait, V> AdaptiveRadixTree<K, V> {
    /// Calls `f` with a mutable reference to each value, in the order of the keys. `f` must be callable with each
    /// value in turn; the caller keeps it. Keys and nodes are unchanged. Makes no key, allocates nothing.
    pub fn for_each_value_mut_by_ref<F: FnMut(&mut V)>(&mut self, f: &mut F)
        requires callable { CanLend F.FnMut f.old (values_of self.old.pairs) }
        ensures stays_callable { F.IsAlwaysCallable f.old → F.IsAlwaysCallable f.new }
        ensures changes { ChangesBelow F.FnMut [] f.old self.old.pairs self.new.pairs f.new }
        ensures nodes { self.new.nodes ≡ self.old.nodes }
    {
        DefaultNode::change_values(&mut self.root, &[], f);
    }

    /// Calls `f` as [`for_each_value_mut_by_ref`](Self::for_each_value_mut_by_ref), and drops it.
    pub fn for_each_value_mut<F: FnMut(&mut V) + Drop>(&mut self, mut f: F)
        requires callable { CanLend F.FnMut f (values_of self.old.pairs) }
        ensures changes { ChangesBelowByValue F.FnMut [] f self.old.pairs self.new.pairs }
        ensures nodes { self.new.nodes ≡ self.old.nodes }
    {
        self.for_each_value_mut_by_ref(&mut f);
    }

    /// Calls `f` with a mutable reference to each value whose key begins with the bytes `prefix`, which may be longer
    /// than any key, in the order of the keys. `f` must be callable with each of these values in turn; the caller keeps
    /// it. Keys, nodes and the other values are unchanged. Makes no key, allocates nothing.
    pub fn prefix_for_each_value_mut_by_ref_bytes<F: FnMut(&mut V)>(
        &mut self,
        prefix: &[u8],
        f: &mut F,
    )
        requires callable { CanLend F.FnMut f.old (values_below prefix.now self.old.pairs) }
        ensures stays_callable { F.IsAlwaysCallable f.old → F.IsAlwaysCallable f.new }
        ensures changes { ChangesBelow F.FnMut prefix.now f.old self.old.pairs
            self.new.pairs f.new }
        ensures nodes { self.new.nodes ≡ self.old.nodes }
    {
        DefaultNode::change_values(&mut self.root, prefix, f);
    }

    /// Calls `f` as [`prefix_for_each_value_mut_by_ref_bytes`](Self::prefix_for_each_value_mut_by_ref_bytes), and drops
    /// it.
    pub fn prefix_for_each_value_mut_bytes<F: FnMut(&mut V) + Drop>(
        &mut self,
        prefix: &[u8],
        mut f: F,
    )
        requires callable { CanLend F.FnMut f (values_below prefix.now self.old.pairs) }
        ensures changes { ChangesBelowByValue F.FnMut prefix.now f self.old.pairs self.new.pairs }
        ensures nodes { self.new.nodes ≡ self.old.nodes }
    {
        self.prefix_for_each_value_mut_by_ref_bytes(prefix, &mut f);
    }

    /// Calls `f` with a mutable reference to each value whose key begins with `prefix`, in the order of the keys. `f`
    /// must be callable with each of these values in turn; the caller keeps it. Keys, nodes and the other values
    /// are unchanged. Makes no key, allocates nothing.
    pub fn prefix_for_each_value_mut_by_ref_k<F: FnMut(&mut V)>(&mut self, prefix: &K, f: &mut F)
        requires callable { CanLend F.FnMut f.old
            (values_below (K.bytes prefix.now) self.old.pairs) }
        ensures stays_callable { F.IsAlwaysCallable f.old → F.IsAlwaysCallable f.new }
        ensures changes { ChangesBelow F.FnMut (K.bytes prefix.now) f.old self.old.pairs
            self.new.pairs f.new }
        ensures nodes { self.new.nodes ≡ self.old.nodes }
    {
        DefaultNode::change_values(&mut self.root, prefix.as_ref(), f);
    }

    /// Calls `f` as [`prefix_for_each_value_mut_by_ref_k`](Self::prefix_for_each_value_mut_by_ref_k), and drops it.
    pub fn prefix_for_each_value_mut_k<F: FnMut(&mut V) + Drop>(&mut self, prefix: &K, mut f: F)
        requires callable { CanLend F.FnMut f (values_below (K.bytes prefix.now) self.old.pairs) }
        ensures changes { ChangesBelowByValue F.FnMut (K.bytes prefix.now) f self.old.pairs
            self.new.pairs }
        ensures nodes { self.new.nodes ≡ self.old.nodes }
    {
        self.prefix_for_each_value_mut_by_ref_k(prefix, &mut f);
    }

    /// Calls `f` as [`prefix_for_each_value_mut_k`](Self::prefix_for_each_value_mut_k), with the prefix by value.
    pub fn prefix_for_each_value_mut<F: FnMut(&mut V) + Drop>(&mut self, prefix: K, f: F)
    where
        K: Drop,
        requires callable { CanLend F.FnMut f (values_below (K.bytes prefix) self.old.pairs) }
        ensures changes { ChangesBelowByValue F.FnMut (K.bytes prefix) f self.old.pairs
            self.new.pairs }
        ensures nodes { self.new.nodes ≡ self.old.nodes }
    {
        self.prefix_for_each_value_mut_k(&prefix, f);
    }

    /// Calls `f` with a mutable reference to each value whose key is within two bounds, whose bytes may be more than
    /// any key has, in the order of the keys; with none if the end is below the start. `f` must be callable with each
    /// of these values in turn; the caller keeps it. Keys, nodes and the other values are unchanged. Makes no key,
    /// allocates nothing.
    pub fn range_for_each_value_mut_by_ref_bytes<F: FnMut(&mut V)>(
        &mut self,
        start: Bound<&[u8]>,
        end: Bound<&[u8]>,
        f: &mut F,
    )
        requires callable { CanLend F.FnMut f.old
            (values_of (between (lent_bound start) (lent_bound end) self.old.pairs)) }
        ensures stays_callable { F.IsAlwaysCallable f.old → F.IsAlwaysCallable f.new }
        ensures changes { ChangesBetween F.FnMut (lent_bound start.entry) (lent_bound end.entry)
            f.old self.old.pairs self.new.pairs f.new }
        ensures nodes { self.new.nodes ≡ self.old.nodes }
    {
        DefaultNode::change_values_within(&mut self.root, start, end, f);
    }

    /// Calls `f` as [`range_for_each_value_mut_by_ref_bytes`](Self::range_for_each_value_mut_by_ref_bytes), and drops
    /// it.
    pub fn range_for_each_value_mut_bytes<F: FnMut(&mut V) + Drop>(
        &mut self,
        start: Bound<&[u8]>,
        end: Bound<&[u8]>,
        mut f: F,
    )
        requires callable { CanLend F.FnMut f
            (values_of (between (lent_bound start) (lent_bound end) self.old.pairs)) }
        ensures changes { ChangesBetweenByValue F.FnMut (lent_bound start.entry)
            (lent_bound end.entry) f self.old.pairs self.new.pairs }
        ensures nodes { self.new.nodes ≡ self.old.nodes }
    {
        self.range_for_each_value_mut_by_ref_bytes(start, end, &mut f);
    }

    /// Calls `f` with a mutable reference to each value whose key is within two bounds, in the order of the keys; with
    /// none if the end is below the start. `f` must be callable with each of these values in turn; the caller keeps it.
    /// Keys, nodes and the other values are unchanged. Makes no key, allocates nothing.
    pub fn range_for_each_value_mut_by_ref<F: FnMut(&mut V)>(
        &mut self,
        start: Bound<K>,
        end: Bound<K>,
        f: &mut F,
    )
    where
        K: Drop,
        requires callable { CanLend F.FnMut f.old (values_of
            (between (bound_in K.bytes start) (bound_in K.bytes end) self.old.pairs)) }
        ensures stays_callable { F.IsAlwaysCallable f.old → F.IsAlwaysCallable f.new }
        ensures changes { ChangesBetween F.FnMut (bound_in K.bytes start) (bound_in K.bytes end)
            f.old self.old.pairs self.new.pairs f.new }
        ensures nodes { self.new.nodes ≡ self.old.nodes }
    {
        DefaultNode::change_values_within(
            &mut self.root,
            slice_bound(&start),
            slice_bound(&end),
            f,
        );
    }

    /// Calls `f` as [`range_for_each_value_mut_by_ref`](Self::range_for_each_value_mut_by_ref), and drops it.
    pub fn range_for_each_value_mut<F: FnMut(&mut V) + Drop>(
        &mut self,
        start: Bound<K>,
        end: Bound<K>,
        mut f: F,
    )
    where
        K: Drop,
        requires callable { CanLend F.FnMut f (values_of
            (between (bound_in K.bytes start) (bound_in K.bytes end) self.old.pairs)) }
        ensures changes { ChangesBetweenByValue F.FnMut (bound_in K.bytes start)
            (bound_in K.bytes end) f self.old.pairs self.new.pairs }
        ensures nodes { self.new.nodes ≡ self.old.nodes }
    {
        self.range_for_each_value_mut_by_ref(start, end, &mut f);
    }
}
