//! Differences of two trees: the pairs of one whose keys the other doesn't have.
ghost use Rattle.std.specs.Prelude.{◌≡◌, IfErr, IfOk};
ghost use Rattle.std.specs.Iterator.{YieldsFirstBy, item_count};
ghost use Rattle.rart.specs.UnionCalls.{MayLackEither};
ghost use Rattle.rart.specs.Unions.{difference_of};

use crate::tree::AdaptiveRadixTree;
use crate::tree::two_trees::ahead::Ahead;
use crate::walks::iter::Iter;
use rart_keys::KeyTrait;
use rart_parts::TreeError;
use std::iter::FusedIterator;
use std::marker::Model;

/// Iterates over the pairs of a tree whose keys another tree doesn't have, ascending by key.
///
/// A contract reads it as the list of remaining pairs.
#[derive(Drop)]
pub struct DifferenceIter<'a, K: KeyTrait, V, W> {
    left: Iter<'a, K, K::PartialType, V>,
    right: Ahead<'a, K, W>,
}

impl<'a, K: KeyTrait, V, W> Model for DifferenceIter<'a, K, V, W> {
    ghost use Rattle.std.specs.Prelude.{ℕ, List};
    ghost use Rattle.rart_keys.specs.SortedMap.{IsAscending};
    ghost use Rattle.rart.specs.Unions.{difference_of};

    ghost Value = { List (List ℕ × V) };

    ghost view = { λ it. difference_of it.left it.right };

    ghost invariant = { λ it. IsAscending it.left × IsAscending it.right };
}

impl<'a, K: KeyTrait + Drop, V, W> Iterator for DifferenceIter<'a, K, V, W> {
    type Item = (K, &'a V);

    ghost next_gives = { YieldsFirstBy (λ p. (K.bytes p.0, p.1.now)) (λ rest. rest) };

    ghost remaining = { item_count (λ rest. rest) };

    /// Returns no bound, as the walks do not count the remaining items.
    fn size_hint(&self) -> (usize, Option<usize>) {
        (0, None)
    }

    /// Returns the next pair. It is fused and does not allocate.
    fn next(&mut self) -> Option<(K, &'a V)> {
        while let Some((key, value)) = self.left.next() {
            if !self.right.skip_to(&key) {
                return Some((key, value));
            }
        }
        None
    }
}

impl<'a, K: KeyTrait + Drop, V, W> FusedIterator for DifferenceIter<'a, K, V, W> {}

impl<K: KeyTrait + Drop, V> AdaptiveRadixTree<K, V> {
    /// Returns an iterator over the pairs whose keys `other` doesn't have, ascending by key.
    ///
    /// Allocates here, for the walk of each tree that isn't empty; the iterator itself allocates nothing. Visits each
    /// node of this tree once, and those of `other` up to its first key that isn't below the last key of this tree. To
    /// look each key up by [`contains_key_k`](Self::contains_key_k) visits fewer nodes if `other` is much larger.
    ///
    /// # Errors
    ///
    /// [`TreeError::Memory`] if a tree isn't empty and the allocation for its walk fails.
    pub fn difference_iter<'a, W>(
        &'a self,
        other: &'a AdaptiveRadixTree<K, W>,
    ) -> Result<DifferenceIter<'a, K, V, W>, TreeError>
        ensures pairs { IfOk result (λ it. it ≡ difference_of self.now.pairs other.now.pairs) }
        ensures memory { IfErr result (MayLackEither self.now.pairs other.now.pairs) }
    {
        self.canonical();
        other.canonical();
        let left = self.iter()?;
        let right = other.iter()?;
        Ok(DifferenceIter {
            left,
            right: Ahead::of(right),
        })
    }
}
