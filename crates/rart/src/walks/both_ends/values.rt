//! An iterator over all values of a tree from both ends, which counts the remaining values.
ghost use Rattle.std.specs.Prelude.{◌≡◌, length, Some, IfErr, IfOk, IfSome};
ghost use Rattle.std.specs.Iterator.{UpTo, YieldsFirstBy, YieldsLastBy, item_count};
ghost use Rattle.std.specs.Iterator.SizeHint.{IsWithinCount};
ghost use Rattle.rart_keys.specs.SortedMap.{values_of};
ghost use Rattle.rart_trie.specs.walks.Calls.{MayLackMemory};

use crate::tree::AdaptiveRadixTree;
use rart_keys::KeyTrait;
use rart_nodes::iter::{Descending, ValuesIter};
use rart_parts::TreeError;
use std::iter::FusedIterator;
use std::marker::Model;

/// Iterates over the values of a tree from both ends, ascending by their keys from the front.
///
/// A contract reads it as the list of remaining values, ascending by their keys.
#[derive(Drop)]
pub struct ValuesBothEnds<'a, K: KeyTrait, V> {
    front: ValuesIter<'a, K, V>,
    back: Descending<'a, K, V>,
    left: usize,
}

impl<'a, K: KeyTrait, V> Model for ValuesBothEnds<'a, K, V> {
    ghost use Rattle.std.specs.Prelude.{List, reverse, take};
    ghost use Rattle.rart_keys.specs.SortedMap.{values_of};
    ghost use Rattle.rart.specs.BothEnds.{AreLeft};

    ghost Value = { List V };

    ghost view = { λ it. take it.left it.front };

    ghost invariant = { λ it. AreLeft it.left it.front (reverse (values_of it.back)) };
}

impl<'a, K: KeyTrait + Drop, V> Iterator for ValuesBothEnds<'a, K, V> {
    type Item = &'a V;

    ghost next_gives = { YieldsFirstBy (λ v. v.now) (λ rest. rest) };

    ghost remaining = { item_count (λ rest. rest) };

    /// Returns the number of remaining values as both bounds.
    fn size_hint(&self) -> (usize, Option<usize>)
        ensures lower { IsWithinCount result.0 (item_count (λ rest. rest) self.now) }
        ensures upper { IfSome result.1 (UpTo (item_count (λ rest. rest) self.now)) }
        ensures exact { result ≡ (length self.now, Some (length self.now)) }
    {
        (self.left, Some(self.left))
    }

    /// Returns the first of the remaining values. It is fused, makes no key and does not allocate.
    fn next(&mut self) -> Option<&'a V> {
        if self.left == 0 {
            return None;
        }
        match self.front.next() {
            Some(value) => {
                self.left -= 1;
                Some(value)
            }
            None => unreachable!(),
        }
    }
}

impl<'a, K: KeyTrait + Drop, V> DoubleEndedIterator for ValuesBothEnds<'a, K, V> {
    ghost next_back_gives = { YieldsLastBy (λ v. v.now) (λ rest. rest) };

    /// Returns the last of the remaining values. It is fused, makes and drops its key, and does not allocate.
    fn next_back(&mut self) -> Option<&'a V> {
        if self.left == 0 {
            return None;
        }
        match self.back.next() {
            Some((_key, value)) => {
                self.left -= 1;
                Some(value)
            }
            None => unreachable!(),
        }
    }
}

impl<'a, K: KeyTrait + Drop, V> ExactSizeIterator for ValuesBothEnds<'a, K, V> {
    fn len(&self) -> usize {
        self.left
    }
}

impl<'a, K: KeyTrait + Drop, V> FusedIterator for ValuesBothEnds<'a, K, V> {}

impl<K: KeyTrait, V> AdaptiveRadixTree<K, V> {
    /// Returns an iterator over the values from both ends, which counts the remaining values.
    ///
    /// Allocates here, for two paths of the longest key, and nothing for an empty tree; the iterator itself allocates
    /// nothing.
    ///
    /// # Errors
    ///
    /// [`TreeError::Memory`] if the tree isn't empty and an allocation fails.
    pub fn values_iter_both_ends(&self) -> Result<ValuesBothEnds<'_, K, V>, TreeError>
        ensures values { IfOk result (λ it. it ≡ values_of self.now.pairs) }
        ensures memory { IfErr result (MayLackMemory self.now.pairs) }
    {
        let front = self.values_iter()?;
        let back = self.iter_descending()?;
        Ok(ValuesBothEnds {
            front,
            back,
            left: self.len(),
        })
    }
}
