//! An iterator over all pairs of a tree from both ends, which counts the remaining pairs.
ghost use Rattle.std.specs.Prelude.{◌≡◌, ◌≤◌, ◌++◌, [], ◌∷◌, length, Some, IfErr, IfOk, IfSome};
ghost use Rattle.std.specs.Iterator.{UpTo, YieldsFirstBy, YieldsLastBy, item_count};
ghost use Rattle.std.specs.Iterator.SizeHint.{IsWithinCount};
ghost use Rattle.rart_trie.specs.walks.Calls.{MayLackMemory};

mod values;
mod within;

pub use self::values::ValuesBothEnds;
pub use self::within::BothEndsWithin;
use crate::tree::AdaptiveRadixTree;
use rart_keys::KeyTrait;
use rart_nodes::iter::{Descending, Iter};
use rart_parts::TreeError;
use std::iter::FusedIterator;
use std::marker::Model;

/// Iterates over the pairs of a tree from both ends, ascending by key from the front.
///
/// A contract reads it as the list of remaining pairs, ascending.
#[derive(Drop)]
pub struct BothEnds<'a, K: KeyTrait, V> {
    front: Iter<'a, K, K::PartialType, V>,
    back: Descending<'a, K, V>,
    left: usize,
}

impl<'a, K: KeyTrait, V> Model for BothEnds<'a, K, V> {
    ghost use Rattle.std.specs.Prelude.{ℕ, List, reverse, take};
    ghost use Rattle.rart.specs.BothEnds.{AreLeft};

    ghost Value = { List (List ℕ × V) };

    ghost view = { λ it. take it.left it.front };

    ghost invariant = { λ it. AreLeft it.left it.front (reverse it.back) };
}

impl<'a, K: KeyTrait, V> Iterator for BothEnds<'a, K, V> {
    type Item = (K, &'a V);

    ghost next_gives = { YieldsFirstBy (λ p. (K.bytes p.0, p.1.now)) (λ rest. rest) };

    ghost remaining = { item_count (λ rest. rest) };

    /// Returns the number of remaining pairs as both bounds.
    fn size_hint(&self) -> (usize, Option<usize>)
        ensures lower { IsWithinCount result.0 (item_count (λ rest. rest) self.now) }
        ensures upper { IfSome result.1 (UpTo (item_count (λ rest. rest) self.now)) }
        ensures exact { result ≡ (length self.now, Some (length self.now)) }
    {
        (self.left, Some(self.left))
    }

    /// Returns the first of the remaining pairs. It is fused and does not allocate.
    fn next(&mut self) -> Option<(K, &'a V)> {
        if self.left == 0 {
            return None;
        }
        match self.front.next() {
            Some(pair) => {
                self.left -= 1;
                Some(pair)
            }
            None => unreachable!(),
        }
    }
}

impl<'a, K: KeyTrait, V> DoubleEndedIterator for BothEnds<'a, K, V> {
    ghost next_back_gives = { YieldsLastBy (λ p. (K.bytes p.0, p.1.now)) (λ rest. rest) };

    /// Returns the last of the remaining pairs. It is fused and does not allocate.
    fn next_back(&mut self) -> Option<(K, &'a V)> {
        if self.left == 0 {
            return None;
        }
        match self.back.next() {
            Some(pair) => {
                self.left -= 1;
                Some(pair)
            }
            None => unreachable!(),
        }
    }
}

impl<'a, K: KeyTrait, V> ExactSizeIterator for BothEnds<'a, K, V> {
    fn len(&self) -> usize {
        self.left
    }
}

impl<'a, K: KeyTrait, V> FusedIterator for BothEnds<'a, K, V> {}

impl<K: KeyTrait, V> AdaptiveRadixTree<K, V> {
    /// Returns an iterator over the pairs from both ends, which counts the remaining pairs.
    ///
    /// Allocates here, for two paths of the longest key, and nothing for an empty tree; the iterator itself allocates
    /// nothing.
    ///
    /// # Errors
    ///
    /// [`TreeError::Memory`] if the tree isn't empty and an allocation fails.
    ///
    /// # Examples
    ///
    /// ```ignore
    /// let mut ends = readings.iter_both_ends().ok()?;
    /// ```
    pub fn iter_both_ends(&self) -> Result<BothEnds<'_, K, V>, TreeError>
        ensures pairs { IfOk result (λ it. it ≡ self.now.pairs) }
        ensures memory { IfErr result (MayLackMemory self.now.pairs) }
    {
        let front = self.iter()?;
        let back = self.iter_descending()?;
        Ok(BothEnds {
            front,
            back,
            left: self.len(),
        })
    }
}
