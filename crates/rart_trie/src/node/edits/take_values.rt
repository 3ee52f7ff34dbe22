//! Values moved out of a tree in the order of their keys, by recursion over references, without an allocation.
ghost use Rattle.std.specs.Prelude.{◌≡◌, ◌+◌, ◌≤◌, ◌++◌, length, vec_capacity};
ghost use Rattle.rart_keys.specs.SortedMap.{values_of};
ghost use Rattle.rart_trie.specs.tries.Tree.{IsCanonicalTree, tree_pairs};
ghost use Rattle.rart_trie.specs.tries.Trie.{IsCanonical, pairs_of};

use crate::node::DefaultNode;
use rart_keys::Partial;

impl<P: Partial, V> DefaultNode<P, V> {
    // Moves the values of the subtree to the end of `values`.
    fn take_each(&mut self, values: &mut Vec<V>)
        requires canonical { IsCanonical self.old }
        requires reserved { length values.old.items + length (pairs_of self.old)
            ≤ vec_capacity values.old }
        ensures values { values.new.items ≡ values.old.items ++ values_of (pairs_of self.old) }
        ensures capacity { vec_capacity values.new ≡ vec_capacity values.old }
    {
        if let Some(value) = self.storage.take_value() {
            values.push_reserved(value);
        }
        let mut next = self.storage.first_byte();
        while let Some(byte) = next {
            match self.storage.seek_child_mut(byte) {
                Some(child) => child.take_each(values),
                None => unreachable!(),
            }
            next = self.storage.byte_above(byte);
        }
    }

    /// Moves the values of the tree of an optional root to the end of `values`, in the order of their keys. The tree
    /// must be canonical, and `values` must have capacity for them. No clause describes the tree that remains; drop
    /// it.
    pub fn take_values(root: &mut Option<Self>, values: &mut Vec<V>)
        requires canonical { IsCanonicalTree root.old }
        requires reserved { length values.old.items + length (tree_pairs root.old)
            ≤ vec_capacity values.old }
        ensures values { values.new.items ≡ values.old.items ++ values_of (tree_pairs root.old) }
        ensures capacity { vec_capacity values.new ≡ vec_capacity values.old }
    {
        match root {
            Some(node) => node.take_each(values),
            None => {}
        }
    }
}
