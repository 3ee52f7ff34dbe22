//! An iterator over a part of a tree from both ends: the pairs with a prefix, or those within two bounds.

// No tree knows how many pairs a part has. So each end reads one pair ahead, and the iterator ends when both ends have
// read the same key.

ghost use Rattle.std.specs.Iterator.{YieldsFirstBy, YieldsLastBy, item_count};
ghost use Rattle.std.specs.Prelude.{◌≡◌, [], ◌∷◌, reverse, IfErr, IfOk, MatchOption};
ghost use Rattle.rart_keys.specs.Filters.{below};
ghost use Rattle.rart_keys.specs.Ranges.{between, bound_in, up_to};
ghost use Rattle.rart_keys.specs.SortedMap.{IsAscending};
ghost use Rattle.rart_trie.specs.ranges.LentBounds.{lent_bound};
ghost use Rattle.rart_trie.specs.walks.Calls.{MayLackMemory};

use crate::tree::AdaptiveRadixTree;
use rart_keys::KeyTrait;
use rart_nodes::iter::Descending;
use rart_nodes::range::{Range, RangeDescending};
use rart_parts::TreeError;
use std::iter::FusedIterator;
use std::marker::Model;
use std::mem;
use std::ops::Bound;

#[derive(Drop)]
enum DescendingWalk<'a, K: KeyTrait, V> {
    Prefix(Descending<'a, K, V>),
    Bounds(RangeDescending<'a, K, V>),
}

/// The walk from the last pair of a part. A contract reads it as the list of remaining pairs, descending.
#[derive(Drop)]
struct Back<'a, K: KeyTrait, V> {
    walk: DescendingWalk<'a, K, V>,
}

impl<'a, K: KeyTrait, V> Model for Back<'a, K, V> {
    ghost use Rattle.std.specs.Prelude.{ℕ, List};
    ghost use Rattle.rart_nodes.specs.ranges.UpperBounds.{down_to};
    ghost use Rattle.rart.specs.declared.walks.both_ends.within.DescendingWalk.TheVariants.{Bounds, Prefix};

    ghost Value = { List (List ℕ × V) };

    ghost view = { λ b. elim b.walk [ Prefix es ↦ es | Bounds r ↦ down_to r.0 r.1 ] };
}

impl<'a, K: KeyTrait + Drop, V> Back<'a, K, V> {
    /// Returns the last pair. It does not allocate.
    fn step(&mut self) -> Option<(K, &'a V)>
        ensures { MatchOption result ((self.old ≡ []) × (self.new ≡ []))
            (λ p. self.old ≡ (K.bytes p.0, p.1.now) ∷ self.new) }
    {
        match &mut self.walk {
            DescendingWalk::Prefix(pairs) => pairs.next(),
            DescendingWalk::Bounds(pairs) => pairs.next(),
        }
    }
}

/// The pairs that the ends have read ahead. An `Option` of them isn't shown to be droppable by a caller's proof.
#[derive(Drop)]
enum Ends<'a, K: KeyTrait, V> {
    /// The first and the last of the remaining pairs, with the same key if one remains.
    Active((K, &'a V), (K, &'a V)),
    Done,
}

/// Iterates from both ends over the pairs with a prefix or within two bounds, ascending by key from the front.
///
/// A contract reads it as the list of remaining pairs, ascending.
#[derive(Drop)]
pub struct BothEndsWithin<'a, K: KeyTrait, V> {
    front: Range<'a, K, V>,
    back: Back<'a, K, V>,
    ends: Ends<'a, K, V>,
}

impl<'a, K: KeyTrait, V> Model for BothEndsWithin<'a, K, V> {
    ghost use Rattle.std.specs.Prelude.{ℕ, List, [], ◌∷◌};
    ghost use Rattle.rart_keys.specs.Ranges.{up_to};
    ghost use Rattle.rart.specs.BothEnds.{AreBetween, through};
    ghost use Rattle.rart.specs.declared.walks.both_ends.within.Ends.TheVariants.{Active, Done};

    ghost Value = { List (List ℕ × V) };

    ghost view = { λ it. elim it.ends [
      | Active first last ↦ through (K.bytes last.0)
          ((K.bytes first.0, first.1.now) ∷ up_to it.front.0 it.front.1)
      | Done ↦ []
    ] };

    ghost invariant = { λ it. elim it.ends [
      | Active first last ↦ AreBetween (K.bytes last.0)
          ((K.bytes first.0, first.1.now) ∷ up_to it.front.0 it.front.1)
          ((K.bytes last.0, last.1.now) ∷ it.back)
      | Done ↦ Unit {0}
    ] };
}

impl<'a, K: KeyTrait + Drop, V> BothEndsWithin<'a, K, V> {
    // Returns the iterator over the pairs that both walks give.
    fn of(front: Range<'a, K, V>, back: Back<'a, K, V>) -> Self
        requires ascending { IsAscending (up_to front.0 front.1) }
        requires reversed { back ≡ reverse (up_to front.0 front.1) }
        ensures { result ≡ up_to front.entry.0 front.entry.1 }
    {
        let mut front = front;
        let mut back = back;
        let Some(first) = front.next() else {
            return BothEndsWithin {
                front,
                back,
                ends: Ends::Done,
            };
        };
        let Some(last) = back.step() else {
            unreachable!()
        };
        BothEndsWithin {
            front,
            back,
            ends: Ends::Active(first, last),
        }
    }
}

impl<'a, K: KeyTrait + Drop, V> Iterator for BothEndsWithin<'a, K, V> {
    type Item = (K, &'a V);

    ghost next_gives = { YieldsFirstBy (λ p. (K.bytes p.0, p.1.now)) (λ rest. rest) };

    ghost remaining = { item_count (λ rest. rest) };

    /// Returns no bound, as the walks do not count the remaining pairs.
    fn size_hint(&self) -> (usize, Option<usize>) {
        (0, None)
    }

    /// Returns the first of the remaining pairs. It is fused and does not allocate.
    fn next(&mut self) -> Option<(K, &'a V)> {
        let Ends::Active(first, last) = mem::replace(&mut self.ends, Ends::Done) else {
            return None;
        };
        if first.0.matches_slice(last.0.as_ref()) {
            return Some(first);
        }
        let Some(second) = self.front.next() else {
            unreachable!()
        };
        self.ends = Ends::Active(second, last);
        Some(first)
    }
}

impl<'a, K: KeyTrait + Drop, V> DoubleEndedIterator for BothEndsWithin<'a, K, V> {
    ghost next_back_gives = { YieldsLastBy (λ p. (K.bytes p.0, p.1.now)) (λ rest. rest) };

    /// Returns the last of the remaining pairs. It is fused and does not allocate.
    fn next_back(&mut self) -> Option<(K, &'a V)> {
        let Ends::Active(first, last) = mem::replace(&mut self.ends, Ends::Done) else {
            return None;
        };
        if first.0.matches_slice(last.0.as_ref()) {
            return Some(last);
        }
        let Some(earlier) = self.back.step() else {
            unreachable!()
        };
        self.ends = Ends::Active(first, earlier);
        Some(last)
    }
}

impl<'a, K: KeyTrait + Drop, V> FusedIterator for BothEndsWithin<'a, K, V> {}

// Returns the bound at the same key.
fn copied_bound<K: KeyTrait>(bound: &Bound<K>) -> Bound<K>
    ensures { bound_in K.bytes result ≡ bound_in K.bytes bound.now }
{
    match bound {
        Bound::Included(key) => Bound::Included(K::new_from_slice(key.as_ref())),
        Bound::Excluded(key) => Bound::Excluded(K::new_from_slice(key.as_ref())),
        Bound::Unbounded => Bound::Unbounded,
    }
}

impl<K: KeyTrait + Drop, V> AdaptiveRadixTree<K, V> {
    /// Returns an iterator from both ends over the pairs whose key begins with `prefix`.
    ///
    /// Allocates here, for two paths of the longest key, and nothing for an empty tree; the iterator itself allocates
    /// nothing. It reads a pair from each end here.
    ///
    /// # Errors
    ///
    /// [`TreeError::Memory`] if the tree isn't empty and an allocation fails.
    pub fn prefix_iter_both_ends_k(&self, prefix: &K) -> Result<BothEndsWithin<'_, K, V>, TreeError>
        ensures pairs { IfOk result (λ it. it ≡ below (K.bytes prefix.now) self.now.pairs) }
        ensures memory { IfErr result (MayLackMemory self.now.pairs) }
    {
        self.prefix_iter_both_ends_bytes(prefix.as_ref())
    }

    /// Returns an iterator from both ends over the pairs whose key begins with the bytes `prefix`, which may be longer
    /// than any key, as [`prefix_iter_both_ends_k`](Self::prefix_iter_both_ends_k).
    ///
    /// # Errors
    ///
    /// [`TreeError::Memory`] if the tree isn't empty and an allocation fails.
    pub fn prefix_iter_both_ends_bytes(
        &self,
        prefix: &[u8],
    ) -> Result<BothEndsWithin<'_, K, V>, TreeError>
        ensures pairs { IfOk result (λ it. it ≡ below prefix.now self.now.pairs) }
        ensures memory { IfErr result (MayLackMemory self.now.pairs) }
    {
        self.canonical();
        let front = self.prefix_iter_bytes(prefix)?;
        let back = self.prefix_iter_descending_bytes(prefix)?;
        Ok(BothEndsWithin::of(
            Range::for_iter(front, Bound::Unbounded),
            Back {
                walk: DescendingWalk::Prefix(back),
            },
        ))
    }

    /// Returns an iterator from both ends over the pairs within two bounds; over none if the end is below the start.
    /// It seeks both bounds.
    ///
    /// Allocates as [`prefix_iter_both_ends_k`](Self::prefix_iter_both_ends_k) does.
    ///
    /// # Errors
    ///
    /// [`TreeError::Memory`] if the tree isn't empty and an allocation fails.
    pub fn range_both_ends(
        &self,
        start: Bound<K>,
        end: Bound<K>,
    ) -> Result<BothEndsWithin<'_, K, V>, TreeError>
        ensures pairs { IfOk result (λ it. it
            ≡ between (bound_in K.bytes start) (bound_in K.bytes end) self.now.pairs) }
        ensures memory { IfErr result (MayLackMemory self.now.pairs) }
    {
        self.canonical();
        let back = self.range_descending(copied_bound(&start), copied_bound(&end))?;
        let front = self.range(start, end)?;
        Ok(BothEndsWithin::of(
            front,
            Back {
                walk: DescendingWalk::Bounds(back),
            },
        ))
    }

    /// Returns an iterator from both ends over the pairs within two bounds, whose bytes may be more than any key has,
    /// as [`range_both_ends`](Self::range_both_ends).
    ///
    /// # Errors
    ///
    /// [`TreeError::Memory`] if the tree isn't empty and an allocation fails.
    pub fn range_both_ends_bytes(
        &self,
        start: Bound<&[u8]>,
        end: Bound<&[u8]>,
    ) -> Result<BothEndsWithin<'_, K, V>, TreeError>
        ensures pairs { IfOk result (λ it. it
            ≡ between (lent_bound start.entry) (lent_bound end.entry) self.now.pairs) }
        ensures memory { IfErr result (MayLackMemory self.now.pairs) }
    {
        self.canonical();
        let back = self.range_descending_bytes(start, end)?;
        let front = self.range_bytes(start, end)?;
        Ok(BothEndsWithin::of(
            front,
            Back {
                walk: DescendingWalk::Bounds(back),
            },
        ))
    }
}
