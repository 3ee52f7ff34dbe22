//! The pairs of a tree by value.
ghost use Rattle.std.specs.Prelude.{◌≡◌, ◌≢◌, ◌+◌, ◌≤◌, ◌++◌, [], length, map, Some, IfErr, IfOk, IfSome, OnErr};
ghost use Rattle.std.specs.Prelude.{vec_capacity};
ghost use Rattle.std.specs.Iterator.{UpTo, YieldsFirstBy, item_count};
ghost use Rattle.std.specs.Iterator.SizeHint.{IsWithinCount};
ghost use Rattle.rart_keys.specs.SortedMap.{keys_of, values_of};
ghost use Rattle.rart_trie.specs.walks.Calls.{MayLackMemory};

use crate::tree::{AdaptiveRadixTree, SHALLOW};
use rart_keys::KeyTrait;
use rart_nodes::Refused;
use rart_nodes::node::DefaultNode;
use rart_parts::TreeError;
use std::alloc::AllocError;
use std::iter::FusedIterator;
use std::marker::Model;
use std::{mem, vec};

/// Iterates over the pairs of a tree by value, ascending by key. Dropping it drops the remaining values.
///
/// A contract reads it as the list of remaining pairs.
#[derive(Drop)]
pub struct IntoPairs<K: KeyTrait, V> {
    keys: vec::IntoIter<K>,
    values: vec::IntoIter<V>,
}

impl<K: KeyTrait, V> Model for IntoPairs<K, V> {
    ghost use Rattle.std.specs.Prelude.{ℕ, ◌≡◌, List, length, map};
    ghost use Rattle.std.specs.Vec.Iter.{into_iter_items};
    ghost use Rattle.std.specs.List.{zip};

    ghost Value = { List (List ℕ × V) };

    ghost view = { λ it. zip (map K.bytes (into_iter_items it.keys)) (into_iter_items it.values) };

    ghost invariant = { λ it. length (into_iter_items it.keys)
        ≡ length (into_iter_items it.values) };
}

impl<K: KeyTrait + Drop, V: Drop> Iterator for IntoPairs<K, V> {
    type Item = (K, V);

    ghost next_gives = { YieldsFirstBy (λ p. (K.bytes p.0, p.1)) (λ rest. rest) };

    ghost remaining = { item_count (λ rest. rest) };

    /// Returns the number of remaining pairs as both bounds.
    fn size_hint(&self) -> (usize, Option<usize>)
        ensures lower { IsWithinCount result.0 (item_count (λ rest. rest) self.now) }
        ensures upper { IfSome result.1 (UpTo (item_count (λ rest. rest) self.now)) }
        ensures exact { result ≡ (length self.now, Some (length self.now)) }
    {
        let left = self.keys.len();
        (left, Some(left))
    }

    /// Returns the next pair. It is fused and does not allocate.
    fn next(&mut self) -> Option<(K, V)> {
        let Some(key) = self.keys.next() else {
            return None;
        };
        match self.values.next() {
            Some(value) => Some((key, value)),
            None => unreachable!(),
        }
    }
}

impl<K: KeyTrait + Drop, V: Drop> ExactSizeIterator for IntoPairs<K, V> {
    fn len(&self) -> usize {
        self.keys.len()
    }
}

impl<K: KeyTrait + Drop, V: Drop> FusedIterator for IntoPairs<K, V> {}

impl<K: KeyTrait + Drop, V: Drop> AdaptiveRadixTree<K, V> {
    /// Returns an iterator over the pairs by value, ascending by key. No value is cloned.
    ///
    /// Allocates here, for all keys and values, and nothing for an empty tree; the iterator itself allocates nothing.
    ///
    /// # Errors
    ///
    /// [`TreeError::Memory`] if the tree isn't empty and an allocation fails. The error holds the tree, unchanged.
    pub fn into_pairs(self) -> Result<IntoPairs<K, V>, Refused<Self>>
        ensures pairs { IfOk result (λ it. it ≡ self.pairs) }
        ensures returned { IfErr result (λ r. r.value ≡ self) }
        ensures memory { IfErr result (λ r. MayLackMemory self.pairs r.error) }
    {
        let mut tree = self;
        match tree.keys_and_capacity() {
            Ok((keys, mut values)) => {
                tree.take_values(&mut values);
                Ok(IntoPairs {
                    keys: keys.into_iter(),
                    values: values.into_iter(),
                })
            }
            Err(AllocError) => Err(Refused {
                error: TreeError::Memory,
                value: tree,
            }),
        }
    }

    // Returns the keys, and an empty vector with capacity for the values.
    fn keys_and_capacity(&self) -> Result<(Vec<K>, Vec<V>), AllocError>
        ensures keys { IfOk result (λ r. map K.bytes r.0.items ≡ keys_of self.now.pairs) }
        ensures empty { IfOk result (λ r. r.1.items ≡ []) }
        ensures reserved { IfOk result (λ r. length self.now.pairs ≤ vec_capacity r.1) }
        ensures allocates { OnErr result (self.now.pairs ≢ []) }
    {
        let mut keys = Vec::with_capacity(self.alloc, self.len())?;
        let values = Vec::with_capacity(self.alloc, self.len())?;
        let Ok(mut rest) = self.iter() else {
            return Err(AllocError);
        };
        while let Some((key, _value)) = rest.next() {
            keys.push_reserved(key);
        }
        Ok((keys, values))
    }

    // Moves all values to the end of `values`, which has capacity for them, and leaves the tree empty.
    fn take_values(&mut self, values: &mut Vec<V>)
        requires reserved { length values.old.items + length self.old.pairs
            ≤ vec_capacity values.old }
        ensures values { values.new.items ≡ values.old.items ++ values_of self.old.pairs }
        ensures pairs { self.new.pairs ≡ [] }
        ensures nodes { self.new.nodes ≡ [] }
    {
        let mut root = mem::replace(&mut self.root, None);
        let longest = self.longest;
        self.len = 0;
        self.longest = 0;
        DefaultNode::take_values(&mut root, values);
        if longest > SHALLOW {
            DefaultNode::drop_tree(&mut root);
        }
    }
}
