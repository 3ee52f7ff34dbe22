//! Iterators over the pairs of a tree within two bounds, in key order.

// A range starts at its lower bound and ends for good at the first key past its upper bound. A contract reads it as the
// upper bound and the remaining pairs of the walk; `up_to` of both lists the remaining pairs of the range.

ghost use Rattle.std.specs.Iterator.{YieldsFirstBy, item_count};
ghost use Rattle.std.specs.Ordering.{match_ordering};
ghost use Rattle.std.specs.Prelude.{◌≡◌, ◌≤◌, ◌+◌, ℕ, List, [], length, take, IfErr, IfOk, OnErr, true, false};
ghost use Rattle.std.specs.declared.ops.Bound.TheVariants.{Unbounded};
ghost use Rattle.rart_keys.specs.SortedMap.{IsAscending};
ghost use Rattle.rart_keys.specs.KeyBytes.{IsWithin};
ghost use Rattle.rart_keys.specs.Ranges.{between, bound_bytes, bound_in, is_from, is_inclusive, is_to, pairs_from};
ghost use Rattle.rart_keys.specs.Ranges.{up_to};
ghost use Rattle.rart_trie.specs.ranges.LentBounds.{lent_bound};
ghost use Rattle.rart_trie.specs.ranges.Starts.{TakesUpTo, bytes_taken};
ghost use Rattle.rart_nodes.specs.tries.SeenTrees.{seen_keys, seen_pairs};
ghost use Rattle.rart_trie.specs.walks.ProbeCount.{probe_count};
ghost use Rattle.rart_trie.specs.walks.Calls.{MayLackMemory};

use crate::node::iter::{Iter, KeyWalk};
pub use crate::node::range::descending::{RangeDescending, SeenRangeDescending};
use crate::node::seen::Seen;
use rart_keys::{KeyTrait, Partial};
use rart_parts::TreeError;
use rart_trie::node::bounds::{bytes_of, slice_bound};
use rart_trie::{Count, Visits};
use std::cmp::Ordering;
use std::marker::Model;
use std::ops::Bound;

mod descending;

/// Returns whether a key that compares so to an end comes before it. At the end itself, returns `included`.
pub(crate) fn is_before(at: Ordering, included: bool) -> bool
    ensures { result ≡ match_ordering at true included false }
{
    match at {
        Ordering::Less => true,
        Ordering::Equal => included,
        Ordering::Greater => false,
    }
}

/// Returns whether a key is within an end.
fn is_within<K: KeyTrait>(key: &K, end: &Bound<K>) -> bool
    ensures { result ≡ is_to (bound_in K.bytes end.now) (K.bytes key.now) }
{
    match end {
        Bound::Included(end) => is_before(key.as_ref().cmp(end.as_ref()), true),
        Bound::Excluded(end) => is_before(key.as_ref().cmp(end.as_ref()), false),
        Bound::Unbounded => true,
    }
}

/// Returns the key of the first `longest` bytes.
fn first_bytes<K: KeyTrait>(bytes: &[u8], longest: usize) -> K
    requires { IsWithin K.MAXIMUM_SIZE longest }
    ensures { K.bytes result ≡ take longest bytes.now }
{
    if bytes.len() <= longest {
        K::new_from_slice(bytes)
    } else {
        K::new_from_slice(&bytes[..longest])
    }
}

/// Returns an end of at most `longest` bytes. Each key of at most as many bytes is within both ends or within neither.
// Such a key isn't the end itself if that is longer. It is then less than the end if it is at most its first bytes.
fn short_end<K: KeyTrait>(end: Bound<&[u8]>, longest: usize) -> Bound<K>
    requires { IsWithin K.MAXIMUM_SIZE longest }
    ensures { (k : List ℕ) → length k ≤ longest
        → is_to (bound_in K.bytes result) k ≡ is_to (lent_bound end.entry) k }
{
    match end {
        Bound::Included(bytes) => Bound::Included(first_bytes(bytes, longest)),
        Bound::Excluded(bytes) => {
            let key = first_bytes(bytes, longest);
            if bytes.len() <= longest {
                Bound::Excluded(key)
            } else {
                Bound::Included(key)
            }
        }
        Bound::Unbounded => Bound::Unbounded,
    }
}

/// Returns a start of at most `longest` bytes. Each key of at most as many bytes is within both starts or within
/// neither.
pub(crate) fn short_start<K: KeyTrait>(start: Bound<&[u8]>, longest: usize) -> Bound<K>
    requires { IsWithin K.MAXIMUM_SIZE longest }
    ensures { (k : List ℕ) → length k ≤ longest
        → is_from (bound_in K.bytes result) k ≡ is_from (lent_bound start.entry) k }
{
    match start {
        Bound::Included(bytes) => {
            let key = first_bytes(bytes, longest);
            if bytes.len() <= longest {
                Bound::Included(key)
            } else {
                Bound::Excluded(key)
            }
        }
        Bound::Excluded(bytes) => Bound::Excluded(first_bytes(bytes, longest)),
        Bound::Unbounded => Bound::Unbounded,
    }
}

/// The rest of a walk with an end. An `Option` of a walk isn't shown to be droppable by a caller's proof.
#[derive(Drop)]
enum WalkState<'a, K: KeyTrait, P: Partial, V, C> {
    Active(KeyWalk<'a, K, P, V, C>),
    /// The end was passed.
    Done,
}

/// A walk that ends for good at the first key past its end.
#[derive(Drop)]
struct BoundedWalk<'a, K: KeyTrait, P: Partial, V, C> {
    walk: WalkState<'a, K, P, V, C>,
    end: Bound<K>,
}

impl<'a, K: KeyTrait, P: Partial, V, C> Model for BoundedWalk<'a, K, P, V, C> {
    ghost use Rattle.std.specs.Prelude.{ℕ, List, []};
    ghost use Rattle.std.specs.declared.ops.Bound.{Bound};
    ghost use Rattle.rart_keys.specs.Ranges.{bound_in};
    ghost use Rattle.rart_nodes.specs.declared.node.range.WalkState.TheVariants.{Active, Done};

    ghost Value = { Bound (List ℕ) × List (List ℕ × V) };

    ghost view = { λ e. (bound_in K.bytes e.end, elim e.walk [ Active es ↦ es | Done ↦ [] ]) };
}

impl<'a, K: KeyTrait + Drop, P: Partial, V, C: Count> BoundedWalk<'a, K, P, V, C> {
    /// Returns the next pair. It does not allocate.
    fn step(&mut self, counter: &mut C) -> Option<(K, &'a V)>
        ensures pairs { TakesUpTo K.bytes self.old result self.new }
        ensures end { self.new.0 ≡ self.old.0 }
        ensures bound { C.number counter.new ≤ C.number counter.old + bytes_taken self.old.1 }
    {
        let (key, value) = match &mut self.walk {
            WalkState::Active(walk) => walk.step(counter)?,
            WalkState::Done => return None,
        };
        if is_within(&key, &self.end) {
            return Some((key, value));
        }
        self.walk = WalkState::Done;
        None
    }
}

/// Iterates over the pairs within two bounds, ascending by key.
#[derive(Drop)]
pub struct Range<'a, K: KeyTrait, V> {
    pairs: SeenRange<'a, K, V, Visits>,
}

impl<'a, K: KeyTrait, V> Model for Range<'a, K, V> {
    ghost use Rattle.std.specs.Prelude.{ℕ, List};
    ghost use Rattle.std.specs.declared.ops.Bound.{Bound};

    ghost Value = { Bound (List ℕ) × List (List ℕ × V) };

    ghost view = { λ r. r.pairs };
}

impl<'a, K: KeyTrait, V> Range<'a, K, V> {
    /// Returns a range without a pair. It does not allocate.
    pub fn empty() -> Self
        ensures { up_to result.0 result.1 ≡ [] }
    {
        let pairs = BoundedWalk {
            walk: WalkState::Done,
            end: Bound::Unbounded,
        };
        Range {
            pairs: SeenRange { pairs },
        }
    }

    /// Returns the remaining pairs of `iter` up to the first one past `end`. If the keys ascend, these are the pairs
    /// within `end`. It does not allocate.
    pub fn for_iter(iter: Iter<'a, K, K::PartialType, V>, end: Bound<K>) -> Self
        ensures end { result.0 ≡ bound_in K.bytes end }
        ensures pairs { result.1 ≡ iter.entry }
        ensures pairs_between { IsAscending iter.entry → up_to result.0 result.1
            ≡ between Unbounded (bound_in K.bytes end) iter.entry }
    {
        let pairs = BoundedWalk {
            walk: WalkState::Active(iter.into_walk()),
            end,
        };
        Range {
            pairs: SeenRange { pairs },
        }
    }
}

impl<'a, K: KeyTrait + Drop, V> Iterator for Range<'a, K, V> {
    type Item = (K, &'a V);

    ghost next_gives = { YieldsFirstBy (λ p. (K.bytes p.0, p.1.now)) (λ r. up_to r.0 r.1) };

    ghost remaining = { item_count (λ r. up_to r.0 r.1) };

    /// Returns no bound, as the walk does not count the remaining pairs.
    fn size_hint(&self) -> (usize, Option<usize>) {
        (0, None)
    }

    /// Returns the next pair. It is fused, visits no node after the last pair and does not allocate.
    fn next(&mut self) -> Option<(K, &'a V)> {
        self.pairs.next_counted(&mut Visits::new())
    }
}

/// Iterates over the pairs within two bounds, ascending by key, with counted visits.
#[derive(Drop)]
pub struct SeenRange<'a, K: KeyTrait, V, C> {
    pairs: BoundedWalk<'a, K, K::PartialType, V, C>,
}

impl<'a, K: KeyTrait, V, C> Model for SeenRange<'a, K, V, C> {
    ghost use Rattle.std.specs.Prelude.{ℕ, List};
    ghost use Rattle.std.specs.declared.ops.Bound.{Bound};

    ghost Value = { Bound (List ℕ) × List (List ℕ × V) };

    ghost view = { λ r. r.pairs };
}

impl<'a, K: KeyTrait + Drop, V, C: Count> SeenRange<'a, K, V, C> {
    /// Returns the next pair. It is fused and does not allocate.
    ///
    /// # Visits
    ///
    /// At most one node more than the next key of the walk has bytes, even if that key is past the end. None if the
    /// walk has no next key.
    pub fn next_counted(&mut self, counter: &mut C) -> Option<(K, &'a V)>
        ensures pairs { TakesUpTo K.bytes self.old result self.new }
        ensures end { self.new.0 ≡ self.old.0 }
        ensures bound { C.number counter.new ≤ C.number counter.old + bytes_taken self.old.1 }
    {
        self.pairs.step(counter)
    }
}

impl<'a, K: KeyTrait + Drop, V, C: Count> Seen<'a, K, V, C> {
    /// Returns the pairs from a start on, given by its bytes, to an end.
    fn range_from(
        self,
        start: Bound<&[u8]>,
        end: Bound<K>,
        counter: &mut C,
    ) -> Result<SeenRange<'a, K, V, C>, TreeError>
        ensures pairs { IfOk result (λ r. up_to r.0 r.1
            ≡ between (lent_bound start.entry) (bound_in K.bytes end) (seen_pairs self.entry)) }
        ensures end { IfOk result (λ r. r.0 ≡ bound_in K.bytes end) }
        ensures ahead { IfOk result (λ r. r.1 ≡ pairs_from (is_inclusive (lent_bound start.entry))
            (bound_bytes (lent_bound start.entry)) (seen_pairs self.entry)) }
        ensures memory { IfErr result (MayLackMemory (seen_pairs self.entry)) }
        ensures unvisited { OnErr result (counter.new ≡ counter.old) }
        ensures visits { IfOk result (λ _. C.number counter.new ≡ C.number counter.old
            + probe_count (seen_keys self.entry) (bound_bytes (lent_bound start.entry))) }
        ensures bound { C.number counter.new
            ≤ C.number counter.old + length (bound_bytes (lent_bound start.entry)) + 1 }
    {
        let (bytes, included) = bytes_of(start);
        let walk = self.key_walk_from(bytes, included, counter)?;
        let pairs = BoundedWalk {
            walk: WalkState::Active(walk),
            end,
        };
        Ok(SeenRange { pairs })
    }

    /// Returns the pairs within two bounds. It allocates as [`iter_counted`](Self::iter_counted) does.
    ///
    /// # Errors
    ///
    /// [`TreeError::Memory`] if the tree isn't empty and the allocation fails. Nothing is then visited.
    ///
    /// # Visits
    ///
    /// At most one node more than the start has bytes, and none in an empty tree.
    pub fn range_counted(
        self,
        start: Bound<K>,
        end: Bound<K>,
        counter: &mut C,
    ) -> Result<SeenRange<'a, K, V, C>, TreeError>
        ensures pairs { IfOk result (λ r. up_to r.0 r.1
            ≡ between (bound_in K.bytes start) (bound_in K.bytes end) (seen_pairs self.entry)) }
        ensures end { IfOk result (λ r. r.0 ≡ bound_in K.bytes end) }
        ensures ahead { IfOk result (λ r. r.1 ≡ pairs_from (is_inclusive (bound_in K.bytes start))
            (bound_bytes (bound_in K.bytes start)) (seen_pairs self.entry)) }
        ensures memory { IfErr result (MayLackMemory (seen_pairs self.entry)) }
        ensures unvisited { OnErr result (counter.new ≡ counter.old) }
        ensures visits { IfOk result (λ _. C.number counter.new ≡ C.number counter.old
            + probe_count (seen_keys self.entry) (bound_bytes (bound_in K.bytes start))) }
        ensures bound { C.number counter.new
            ≤ C.number counter.old + length (bound_bytes (bound_in K.bytes start))
            + 1 }
    {
        self.range_from(slice_bound(&start), end, counter)
    }

    /// Returns the pairs within two bounds, whose bytes may be more than any key has. It allocates as
    /// [`iter_counted`](Self::iter_counted) does.
    ///
    /// # Errors
    ///
    /// [`TreeError::Memory`] if the tree isn't empty and the allocation fails. Nothing is then visited.
    ///
    /// # Visits
    ///
    /// At most one node more than the start has bytes, and none in an empty tree.
    pub fn range_bytes_counted(
        self,
        start: Bound<&[u8]>,
        end: Bound<&[u8]>,
        counter: &mut C,
    ) -> Result<SeenRange<'a, K, V, C>, TreeError>
        ensures pairs { IfOk result (λ r. up_to r.0 r.1
            ≡ between (lent_bound start.entry) (lent_bound end.entry) (seen_pairs self.entry)) }
        ensures ahead { IfOk result (λ r. r.1 ≡ pairs_from (is_inclusive (lent_bound start.entry))
            (bound_bytes (lent_bound start.entry)) (seen_pairs self.entry)) }
        ensures memory { IfErr result (MayLackMemory (seen_pairs self.entry)) }
        ensures unvisited { OnErr result (counter.new ≡ counter.old) }
        ensures visits { IfOk result (λ _. C.number counter.new ≡ C.number counter.old
            + probe_count (seen_keys self.entry) (bound_bytes (lent_bound start.entry))) }
        ensures bound { C.number counter.new
            ≤ C.number counter.old + length (bound_bytes (lent_bound start.entry)) + 1 }
    {
        let end = short_end(end, self.longest());
        self.range_from(start, end, counter)
    }
}

impl<'a, K: KeyTrait + Drop, V> Seen<'a, K, V, Visits> {
    /// Returns the pairs within two bounds. It allocates as [`iter_counted`](Self::iter_counted) does.
    ///
    /// # Errors
    ///
    /// [`TreeError::Memory`] if the tree isn't empty and the allocation fails.
    pub fn range(self, start: Bound<K>, end: Bound<K>) -> Result<Range<'a, K, V>, TreeError>
        ensures pairs { IfOk result (λ r. up_to r.0 r.1
            ≡ between (bound_in K.bytes start) (bound_in K.bytes end) (seen_pairs self.entry)) }
        ensures memory { IfErr result (MayLackMemory (seen_pairs self.entry)) }
    {
        let pairs = self.range_counted(start, end, &mut Visits::new())?;
        Ok(Range { pairs })
    }

    /// Returns the pairs within two bounds, whose bytes may be more than any key has. It allocates as
    /// [`iter_counted`](Self::iter_counted) does.
    ///
    /// # Errors
    ///
    /// [`TreeError::Memory`] if the tree isn't empty and the allocation fails.
    pub fn range_bytes(
        self,
        start: Bound<&[u8]>,
        end: Bound<&[u8]>,
    ) -> Result<Range<'a, K, V>, TreeError>
        ensures pairs { IfOk result (λ r. up_to r.0 r.1
            ≡ between (lent_bound start.entry) (lent_bound end.entry) (seen_pairs self.entry)) }
        ensures memory { IfErr result (MayLackMemory (seen_pairs self.entry)) }
    {
        let pairs = self.range_bytes_counted(start, end, &mut Visits::new())?;
        Ok(Range { pairs })
    }
}
