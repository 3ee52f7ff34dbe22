//! Iterators over the pairs of a tree within two bounds, descending by key.

// Such a range starts at its upper bound and ends for good at the first key past its lower bound. A contract reads it
// as the lower bound and the remaining pairs of the walk; `down_to` of both lists the remaining pairs of the range.

ghost use Rattle.std.specs.Iterator.{YieldsFirstBy, item_count};
ghost use Rattle.std.specs.Ordering.{match_ordering};
ghost use Rattle.std.specs.Prelude.{◌≡◌, ◌≤◌, ◌+◌, length, reverse, IfErr, IfOk, OnErr, true, false};
ghost use Rattle.rart_keys.specs.Ranges.{between, bound_bytes, bound_in, is_from};
ghost use Rattle.rart_trie.specs.ranges.LentBounds.{lent_bound};
ghost use Rattle.rart_nodes.specs.ranges.UpperBounds.{TakesDownTo, down_to, to_bound};
ghost use Rattle.rart_trie.specs.ranges.Starts.{bytes_taken};
ghost use Rattle.rart_nodes.specs.tries.SeenTrees.{seen_keys, seen_pairs};
ghost use Rattle.rart_trie.specs.walks.ProbeCount.{probe_count};
ghost use Rattle.rart_trie.specs.walks.Calls.{MayLackMemory};

use crate::node::iter::descending::DescendingKeyWalk;
use crate::node::range::short_start;
use crate::node::seen::Seen;
use rart_keys::{KeyTrait, Partial};
use rart_parts::TreeError;
use rart_trie::node::bounds::slice_bound;
use rart_trie::{Count, Visits};
use std::cmp::Ordering;
use std::marker::Model;
use std::ops::Bound;

/// Returns whether a key that compares so to a start comes after it. At the start itself, returns `included`.
fn is_after(at: Ordering, included: bool) -> bool
    ensures { result ≡ match_ordering at false included true }
{
    match at {
        Ordering::Less => false,
        Ordering::Equal => included,
        Ordering::Greater => true,
    }
}

/// Returns whether a key is within a start.
fn is_within_start<K: KeyTrait>(key: &K, start: &Bound<K>) -> bool
    ensures { result ≡ is_from (bound_in K.bytes start.now) (K.bytes key.now) }
{
    match start {
        Bound::Included(start) => is_after(key.as_ref().cmp(start.as_ref()), true),
        Bound::Excluded(start) => is_after(key.as_ref().cmp(start.as_ref()), false),
        Bound::Unbounded => true,
    }
}

/// The rest of a walk with a start.
#[derive(Drop)]
enum DescendingWalkState<'a, K: KeyTrait, P: Partial, V, C> {
    Active(DescendingKeyWalk<'a, K, P, V, C>),
    /// The start was passed.
    Done,
}

/// A walk from the last pair that ends for good at the first key past its start.
#[derive(Drop)]
struct BoundedDescendingWalk<'a, K: KeyTrait, P: Partial, V, C> {
    walk: DescendingWalkState<'a, K, P, V, C>,
    start: Bound<K>,
}

impl<'a, K: KeyTrait, P: Partial, V, C> Model for BoundedDescendingWalk<'a, K, P, V, C> {
    ghost use Rattle.std.specs.Prelude.{ℕ, List, [], reverse};
    ghost use Rattle.std.specs.declared.ops.Bound.{Bound};
    ghost use Rattle.rart_keys.specs.Ranges.{bound_in};
    ghost use Rattle.rart_nodes.specs.declared.node.range.descending.DescendingWalkState.TheVariants.{Active, Done};

    ghost Value = { Bound (List ℕ) × List (List ℕ × V) };

    ghost view = { λ e. (
      bound_in K.bytes e.start,
      elim e.walk [ Active es ↦ reverse es | Done ↦ [] ],
    ) };
}

impl<'a, K: KeyTrait + Drop, P: Partial, V, C: Count> BoundedDescendingWalk<'a, K, P, V, C> {
    /// Returns the next pair. It does not allocate.
    fn step(&mut self, counter: &mut C) -> Option<(K, &'a V)>
        ensures pairs { TakesDownTo K.bytes self.old result self.new }
        ensures start { self.new.0 ≡ self.old.0 }
        ensures bound { C.number counter.new ≤ C.number counter.old + bytes_taken self.old.1 }
    {
        let (key, value) = match &mut self.walk {
            DescendingWalkState::Active(walk) => walk.step(counter)?,
            DescendingWalkState::Done => return None,
        };
        if is_within_start(&key, &self.start) {
            return Some((key, value));
        }
        self.walk = DescendingWalkState::Done;
        None
    }
}

/// Iterates over the pairs within two bounds, descending by key, with counted visits.
#[derive(Drop)]
pub struct SeenRangeDescending<'a, K: KeyTrait, V, C> {
    pairs: BoundedDescendingWalk<'a, K, K::PartialType, V, C>,
}

impl<'a, K: KeyTrait, V, C> Model for SeenRangeDescending<'a, K, V, C> {
    ghost use Rattle.std.specs.Prelude.{ℕ, List};
    ghost use Rattle.std.specs.declared.ops.Bound.{Bound};

    ghost Value = { Bound (List ℕ) × List (List ℕ × V) };

    ghost view = { λ r. r.pairs };
}

impl<'a, K: KeyTrait + Drop, V, C: Count> SeenRangeDescending<'a, K, V, C> {
    /// Returns the next pair. It is fused and does not allocate.
    ///
    /// # Visits
    ///
    /// At most one node more than the next key of the walk has bytes, even if that key is past the start. None if the
    /// walk has no next key.
    pub fn next_counted(&mut self, counter: &mut C) -> Option<(K, &'a V)>
        ensures pairs { TakesDownTo K.bytes self.old result self.new }
        ensures start { self.new.0 ≡ self.old.0 }
        ensures bound { C.number counter.new ≤ C.number counter.old + bytes_taken self.old.1 }
    {
        self.pairs.step(counter)
    }
}

/// Iterates over the pairs within two bounds, descending by key.
#[derive(Drop)]
pub struct RangeDescending<'a, K: KeyTrait, V> {
    pairs: SeenRangeDescending<'a, K, V, Visits>,
}

impl<'a, K: KeyTrait, V> Model for RangeDescending<'a, K, V> {
    ghost use Rattle.std.specs.Prelude.{ℕ, List};
    ghost use Rattle.std.specs.declared.ops.Bound.{Bound};

    ghost Value = { Bound (List ℕ) × List (List ℕ × V) };

    ghost view = { λ r. r.pairs };
}

impl<'a, K: KeyTrait + Drop, V> Iterator for RangeDescending<'a, K, V> {
    type Item = (K, &'a V);

    ghost next_gives = { YieldsFirstBy (λ p. (K.bytes p.0, p.1.now)) (λ r. down_to r.0 r.1) };

    ghost remaining = { item_count (λ r. down_to r.0 r.1) };

    /// Returns no bound, as the walk does not count the remaining pairs.
    fn size_hint(&self) -> (usize, Option<usize>) {
        (0, None)
    }

    /// Returns the next pair. It is fused, visits no node after the last pair and does not allocate.
    fn next(&mut self) -> Option<(K, &'a V)> {
        self.pairs.next_counted(&mut Visits::new())
    }
}

impl<'a, K: KeyTrait + Drop, V, C: Count> Seen<'a, K, V, C> {
    /// Returns the pairs from a start to an end, given by its bytes, the last first.
    fn range_descending_to(
        self,
        start: Bound<K>,
        end: Bound<&[u8]>,
        counter: &mut C,
    ) -> Result<SeenRangeDescending<'a, K, V, C>, TreeError>
        ensures pairs { IfOk result (λ r. down_to r.0 r.1 ≡ reverse
            (between (bound_in K.bytes start) (lent_bound end.entry) (seen_pairs self.entry))) }
        ensures start { IfOk result (λ r. r.0 ≡ bound_in K.bytes start) }
        ensures ahead { IfOk result
            (λ r. r.1 ≡ reverse (to_bound (lent_bound end.entry) (seen_pairs self.entry))) }
        ensures memory { IfErr result (MayLackMemory (seen_pairs self.entry)) }
        ensures unvisited { OnErr result (counter.new ≡ counter.old) }
        ensures visits { IfOk result (λ _. C.number counter.new ≡ C.number counter.old
            + probe_count (seen_keys self.entry) (bound_bytes (lent_bound end.entry))) }
        ensures bound { C.number counter.new
            ≤ C.number counter.old + length (bound_bytes (lent_bound end.entry)) + 1 }
    {
        let walk = self.descending_key_walk_within(end, counter)?;
        let pairs = BoundedDescendingWalk {
            walk: DescendingWalkState::Active(walk),
            start,
        };
        Ok(SeenRangeDescending { pairs })
    }

    /// Returns the pairs within two bounds, the last first. It allocates as
    /// [`iter_descending_counted`](Self::iter_descending_counted) does.
    ///
    /// # Errors
    ///
    /// [`TreeError::Memory`] if the tree isn't empty and the allocation fails. Nothing is then visited.
    ///
    /// # Visits
    ///
    /// At most one node more than the end has bytes, and none in an empty tree.
    pub fn range_descending_counted(
        self,
        start: Bound<K>,
        end: Bound<K>,
        counter: &mut C,
    ) -> Result<SeenRangeDescending<'a, K, V, C>, TreeError>
        ensures pairs { IfOk result (λ r. down_to r.0 r.1 ≡ reverse
            (between (bound_in K.bytes start) (bound_in K.bytes end) (seen_pairs self.entry))) }
        ensures start { IfOk result (λ r. r.0 ≡ bound_in K.bytes start) }
        ensures ahead { IfOk result
            (λ r. r.1 ≡ reverse (to_bound (bound_in K.bytes end) (seen_pairs self.entry))) }
        ensures memory { IfErr result (MayLackMemory (seen_pairs self.entry)) }
        ensures unvisited { OnErr result (counter.new ≡ counter.old) }
        ensures visits { IfOk result (λ _. C.number counter.new ≡ C.number counter.old
            + probe_count (seen_keys self.entry) (bound_bytes (bound_in K.bytes end))) }
        ensures bound { C.number counter.new
            ≤ C.number counter.old + length (bound_bytes (bound_in K.bytes end)) + 1 }
    {
        self.range_descending_to(start, slice_bound(&end), counter)
    }

    /// Returns the pairs within two bounds, whose bytes may be more than any key has, the last first. It allocates as
    /// [`iter_descending_counted`](Self::iter_descending_counted) does.
    ///
    /// # Errors
    ///
    /// [`TreeError::Memory`] if the tree isn't empty and the allocation fails. Nothing is then visited.
    ///
    /// # Visits
    ///
    /// At most one node more than the end has bytes, and none in an empty tree.
    pub fn range_descending_bytes_counted(
        self,
        start: Bound<&[u8]>,
        end: Bound<&[u8]>,
        counter: &mut C,
    ) -> Result<SeenRangeDescending<'a, K, V, C>, TreeError>
        ensures pairs { IfOk result (λ r. down_to r.0 r.1 ≡ reverse
            (between (lent_bound start.entry) (lent_bound end.entry) (seen_pairs self.entry))) }
        ensures ahead { IfOk result
            (λ r. r.1 ≡ reverse (to_bound (lent_bound end.entry) (seen_pairs self.entry))) }
        ensures memory { IfErr result (MayLackMemory (seen_pairs self.entry)) }
        ensures unvisited { OnErr result (counter.new ≡ counter.old) }
        ensures visits { IfOk result (λ _. C.number counter.new ≡ C.number counter.old
            + probe_count (seen_keys self.entry) (bound_bytes (lent_bound end.entry))) }
        ensures bound { C.number counter.new
            ≤ C.number counter.old + length (bound_bytes (lent_bound end.entry)) + 1 }
    {
        let start = short_start(start, self.longest());
        self.range_descending_to(start, end, counter)
    }
}

impl<'a, K: KeyTrait + Drop, V> Seen<'a, K, V, Visits> {
    /// Returns the pairs within two bounds, the last first. It allocates as
    /// [`iter_descending_counted`](Self::iter_descending_counted) does.
    ///
    /// # Errors
    ///
    /// [`TreeError::Memory`] if the tree isn't empty and the allocation fails.
    pub fn range_descending(
        self,
        start: Bound<K>,
        end: Bound<K>,
    ) -> Result<RangeDescending<'a, K, V>, TreeError>
        ensures pairs { IfOk result (λ r. down_to r.0 r.1 ≡ reverse
            (between (bound_in K.bytes start) (bound_in K.bytes end) (seen_pairs self.entry))) }
        ensures memory { IfErr result (MayLackMemory (seen_pairs self.entry)) }
    {
        let pairs = self.range_descending_counted(start, end, &mut Visits::new())?;
        Ok(RangeDescending { pairs })
    }

    /// Returns the pairs within two bounds, whose bytes may be more than any key has, the last first. It allocates as
    /// [`iter_descending_counted`](Self::iter_descending_counted) does.
    ///
    /// # Errors
    ///
    /// [`TreeError::Memory`] if the tree isn't empty and the allocation fails.
    pub fn range_descending_bytes(
        self,
        start: Bound<&[u8]>,
        end: Bound<&[u8]>,
    ) -> Result<RangeDescending<'a, K, V>, TreeError>
        ensures pairs { IfOk result (λ r. down_to r.0 r.1 ≡ reverse
            (between (lent_bound start.entry) (lent_bound end.entry) (seen_pairs self.entry))) }
        ensures memory { IfErr result (MayLackMemory (seen_pairs self.entry)) }
    {
        let pairs = self.range_descending_bytes_counted(start, end, &mut Visits::new())?;
        Ok(RangeDescending { pairs })
    }
}
