//! Iterators over a shared tree from its last key to its first, which a contract reads as the remaining items.

// Each allocates when it is created.

ghost use Rattle.std.specs.Prelude.{◌≡◌, ◌≤◌, ◌+◌, ◌++◌, [], ◌∷◌, length, reverse, IfErr, IfOk, MatchOption, OnErr};
ghost use Rattle.std.specs.Iterator.{YieldsFirstBy, item_count};
ghost use Rattle.rart_keys.specs.Filters.{below};
ghost use Rattle.rart_keys.specs.Ranges.{bound_bytes};
ghost use Rattle.rart_keys.specs.SortedMap.{count_of};
ghost use Rattle.rart_nodes.specs.ranges.UpperBounds.{pairs_until, to_bound};
ghost use Rattle.rart_nodes.specs.tries.SeenTrees.{seen_keys, seen_pairs, seen_tree};
ghost use Rattle.rart_trie.specs.ranges.LentBounds.{lent_bound};
ghost use Rattle.rart_trie.specs.walks.ProbeCount.{VisitsAtMost, probe_count};
ghost use Rattle.rart_trie.specs.walks.Calls.{MayLackMemory};

use crate::node::path_walk::descending::DescendingWalk;
use crate::node::path_walk::path::BytePath;
use crate::node::seen::Seen;
use rart_keys::{KeyTrait, Partial};
use rart_parts::TreeError;
use rart_trie::{Count, Visits};
use std::marker::{Model, PhantomData};
use std::ops::Bound;

/// A walk from the last pair that makes a key for each. A contract reads it as the list of remaining pairs, ascending.
#[derive(Drop)]
pub(crate) struct DescendingKeyWalk<'a, K: KeyTrait, P: Partial, V, C> {
    walk: DescendingWalk<'a, P, V, C>,
    path: BytePath<'a>,
    of: PhantomData<K>,
}

impl<'a, K: KeyTrait, P: Partial, V, C> Model for DescendingKeyWalk<'a, K, P, V, C> {
    ghost use Rattle.std.specs.Prelude.{ℕ, List, length, reverse, vec_capacity};
    ghost use Rattle.rart_nodes.specs.ranges.DescendingWalk.{IsDescendingKeyWalk, remaining_entries};
    ghost use Rattle.rart_trie.specs.walks.Walk.{join_all};
    ghost use Rattle.rart_nodes.specs.walks.PathParts.{byte_segments, kept_bytes};
    ghost use Rattle.rart_nodes.specs.walks.KeyBuffers.{bytes_in};

    ghost Value = { List (List ℕ × V) };

    ghost view = { λ w. join_all (remaining_entries byte_segments
        (byte_segments (kept_bytes w.path)) (reverse w.walk.levels.items)) };

    ghost invariant = { λ w. IsDescendingKeyWalk K.MAXIMUM_SIZE w.walk.longest
        (vec_capacity w.walk.levels) (length (bytes_in w.path.buffer))
        (byte_segments (kept_bytes w.path)) (reverse w.walk.levels.items) };
}

impl<'a, K: KeyTrait, P: Partial, V, C: Count> DescendingKeyWalk<'a, K, P, V, C> {
    /// Returns the last pair. It does not allocate.
    pub(crate) fn step(&mut self, counter: &mut C) -> Option<(K, &'a V)>
        ensures pairs { MatchOption result ((self.old ≡ []) × (self.new ≡ []))
            (λ p. self.old ≡ self.new ++ (K.bytes p.0, p.1.now) ∷ []) }
        ensures bound { VisitsAtMost (λ p. length (K.bytes p.0)) (C.number counter.old) result
            (C.number counter.new) }
    {
        let value = self.walk.retreat(&mut self.path, counter)?;
        let (above, last) = self.path.parts();
        Some((K::joined(above, last), value))
    }
}

/// Iterates over the pairs of a tree, descending by key, with counted visits.
#[derive(Drop)]
pub struct SeenDescending<'a, K: KeyTrait, V, C> {
    pairs: DescendingKeyWalk<'a, K, K::PartialType, V, C>,
}

impl<'a, K: KeyTrait, V, C> Model for SeenDescending<'a, K, V, C> {
    ghost use Rattle.std.specs.Prelude.{ℕ, List, reverse};

    ghost Value = { List (List ℕ × V) };

    ghost view = { λ it. reverse it.pairs };
}

impl<'a, K: KeyTrait, V, C: Count> SeenDescending<'a, K, V, C> {
    /// Returns the next pair. It is fused and does not allocate.
    ///
    /// # Visits
    ///
    /// At most one node more than the key has bytes, and none at the end.
    pub fn next_counted(&mut self, counter: &mut C) -> Option<(K, &'a V)>
        ensures pairs { MatchOption result ((self.old ≡ []) × (self.new ≡ []))
            (λ p. self.old ≡ (K.bytes p.0, p.1.now) ∷ self.new) }
        ensures bound { VisitsAtMost (λ p. length (K.bytes p.0) + 1) (C.number counter.old) result
            (C.number counter.new) }
    {
        self.pairs.step(counter)
    }
}

/// Iterates over the pairs of a tree, descending by key.
#[derive(Drop)]
pub struct Descending<'a, K: KeyTrait, V> {
    pairs: SeenDescending<'a, K, V, Visits>,
}

impl<'a, K: KeyTrait, V> Model for Descending<'a, K, V> {
    ghost use Rattle.std.specs.Prelude.{ℕ, List};

    ghost Value = { List (List ℕ × V) };

    ghost view = { λ it. it.pairs };
}

impl<'a, K: KeyTrait, V> Iterator for Descending<'a, K, V> {
    type Item = (K, &'a V);

    ghost next_gives = { YieldsFirstBy (λ p. (K.bytes p.0, p.1.now)) (λ rest. rest) };

    ghost remaining = { item_count (λ rest. rest) };

    /// Returns no bound, as the walk does not count the remaining pairs.
    fn size_hint(&self) -> (usize, Option<usize>) {
        (0, None)
    }

    /// Returns the next pair. It is fused and does not allocate.
    fn next(&mut self) -> Option<(K, &'a V)> {
        self.pairs.next_counted(&mut Visits::new())
    }
}

impl<'a, K: KeyTrait, V, C: Count> Seen<'a, K, V, C> {
    /// Returns all pairs.
    fn descending_key_walk(
        self,
        counter: &mut C,
    ) -> Result<DescendingKeyWalk<'a, K, K::PartialType, V, C>, TreeError>
        ensures pairs { IfOk result (λ it. it ≡ seen_pairs self.entry) }
        ensures memory { IfErr result (MayLackMemory (seen_pairs self.entry)) }
        ensures unvisited { OnErr result (counter.new ≡ counter.old) }
        ensures visits { IfOk result (λ _. C.number counter.new
            ≡ C.number counter.old + count_of (seen_tree self.entry)) }
        ensures bound { C.number counter.new ≤ C.number counter.old + 1 }
    {
        let (walk, path) = self.descending_walk(counter)?;
        Ok(DescendingKeyWalk {
            walk,
            path,
            of: PhantomData,
        })
    }

    /// Returns the pairs whose key begins with `prefix`.
    fn descending_key_walk_below(
        self,
        prefix: &[u8],
        counter: &mut C,
    ) -> Result<DescendingKeyWalk<'a, K, K::PartialType, V, C>, TreeError>
        ensures pairs { IfOk result (λ it. it ≡ below prefix.now (seen_pairs self.entry)) }
        ensures memory { IfErr result (MayLackMemory (seen_pairs self.entry)) }
        ensures unvisited { OnErr result (counter.new ≡ counter.old) }
        ensures visits { IfOk result (λ _. C.number counter.new
            ≡ C.number counter.old + probe_count (seen_keys self.entry) prefix.now) }
        ensures bound { C.number counter.new ≤ C.number counter.old + length prefix.now + 1 }
    {
        let (walk, path) = self.descending_walk_below(prefix, counter)?;
        Ok(DescendingKeyWalk {
            walk,
            path,
            of: PhantomData,
        })
    }

    /// Returns the pairs up to a key of these bytes, which is one of them if `included`.
    fn descending_key_walk_to(
        self,
        end: &[u8],
        included: bool,
        counter: &mut C,
    ) -> Result<DescendingKeyWalk<'a, K, K::PartialType, V, C>, TreeError>
        ensures pairs { IfOk result
            (λ it. it ≡ pairs_until included end.now (seen_pairs self.entry)) }
        ensures memory { IfErr result (MayLackMemory (seen_pairs self.entry)) }
        ensures unvisited { OnErr result (counter.new ≡ counter.old) }
        ensures visits { IfOk result (λ _. C.number counter.new
            ≡ C.number counter.old + probe_count (seen_keys self.entry) end.now) }
        ensures bound { C.number counter.new ≤ C.number counter.old + length end.now + 1 }
    {
        let (walk, path) = self.descending_walk_to(end, included, counter)?;
        Ok(DescendingKeyWalk {
            walk,
            path,
            of: PhantomData,
        })
    }

    /// Returns the pairs up to an end.
    pub(crate) fn descending_key_walk_within(
        self,
        end: Bound<&[u8]>,
        counter: &mut C,
    ) -> Result<DescendingKeyWalk<'a, K, K::PartialType, V, C>, TreeError>
        ensures pairs { IfOk result
            (λ it. it ≡ to_bound (lent_bound end.entry) (seen_pairs self.entry)) }
        ensures memory { IfErr result (MayLackMemory (seen_pairs self.entry)) }
        ensures unvisited { OnErr result (counter.new ≡ counter.old) }
        ensures visits { IfOk result (λ _. C.number counter.new ≡ C.number counter.old
            + probe_count (seen_keys self.entry) (bound_bytes (lent_bound end.entry))) }
        ensures bound { C.number counter.new
            ≤ C.number counter.old + length (bound_bytes (lent_bound end.entry)) + 1 }
    {
        match end {
            Bound::Included(end) => self.descending_key_walk_to(end, true, counter),
            Bound::Excluded(end) => self.descending_key_walk_to(end, false, counter),
            Bound::Unbounded => self.descending_key_walk(counter),
        }
    }

    /// Returns an iterator over all pairs, descending by key. It allocates for the longest key here, and nothing for an
    /// empty tree.
    ///
    /// # Errors
    ///
    /// [`TreeError::Memory`] if the tree isn't empty and the allocation fails. Nothing is then visited.
    ///
    /// # Visits
    ///
    /// The root, or none of an empty tree.
    pub fn iter_descending_counted(
        self,
        counter: &mut C,
    ) -> Result<SeenDescending<'a, K, V, C>, TreeError>
        ensures pairs { IfOk result (λ it. it ≡ reverse (seen_pairs self.entry)) }
        ensures memory { IfErr result (MayLackMemory (seen_pairs self.entry)) }
        ensures unvisited { OnErr result (counter.new ≡ counter.old) }
        ensures visits { IfOk result (λ _. C.number counter.new
            ≡ C.number counter.old + count_of (seen_tree self.entry)) }
        ensures bound { C.number counter.new ≤ C.number counter.old + 1 }
    {
        let pairs = self.descending_key_walk(counter)?;
        Ok(SeenDescending { pairs })
    }

    /// Returns an iterator over the pairs whose key begins with the bytes `prefix`, which may be longer than any key,
    /// descending by key. It allocates as [`iter_descending_counted`](Self::iter_descending_counted) does.
    ///
    /// # Errors
    ///
    /// [`TreeError::Memory`] if the tree isn't empty and the allocation fails. Nothing is then visited.
    ///
    /// # Visits
    ///
    /// At most `prefix.len() + 1` nodes.
    pub fn prefix_iter_descending_bytes_counted(
        self,
        prefix: &[u8],
        counter: &mut C,
    ) -> Result<SeenDescending<'a, K, V, C>, TreeError>
        ensures pairs { IfOk result
            (λ it. it ≡ reverse (below prefix.now (seen_pairs self.entry))) }
        ensures memory { IfErr result (MayLackMemory (seen_pairs self.entry)) }
        ensures unvisited { OnErr result (counter.new ≡ counter.old) }
        ensures visits { IfOk result (λ _. C.number counter.new
            ≡ C.number counter.old + probe_count (seen_keys self.entry) prefix.now) }
        ensures bound { C.number counter.new ≤ C.number counter.old + length prefix.now + 1 }
    {
        let pairs = self.descending_key_walk_below(prefix, counter)?;
        Ok(SeenDescending { pairs })
    }

    /// Returns an iterator over the pairs whose key begins with `prefix`, descending by key. It allocates as
    /// [`iter_descending_counted`](Self::iter_descending_counted) does.
    ///
    /// # Errors
    ///
    /// [`TreeError::Memory`] if the tree isn't empty and the allocation fails. Nothing is then visited.
    ///
    /// # Visits
    ///
    /// At most `prefix.len() + 1` nodes.
    pub fn prefix_iter_descending_k_counted(
        self,
        prefix: &K,
        counter: &mut C,
    ) -> Result<SeenDescending<'a, K, V, C>, TreeError>
        ensures pairs { IfOk result
            (λ it. it ≡ reverse (below (K.bytes prefix.now) (seen_pairs self.entry))) }
        ensures memory { IfErr result (MayLackMemory (seen_pairs self.entry)) }
        ensures unvisited { OnErr result (counter.new ≡ counter.old) }
        ensures visits { IfOk result (λ _. C.number counter.new
            ≡ C.number counter.old + probe_count (seen_keys self.entry) (K.bytes prefix.now)) }
        ensures bound { C.number counter.new
            ≤ C.number counter.old + length (K.bytes prefix.now) + 1 }
    {
        self.prefix_iter_descending_bytes_counted(prefix.as_ref(), counter)
    }
}

impl<'a, K: KeyTrait, V> Seen<'a, K, V, Visits> {
    /// Returns an iterator over all pairs, descending by key. It allocates as
    /// [`iter_descending_counted`](Self::iter_descending_counted) does.
    ///
    /// # Errors
    ///
    /// [`TreeError::Memory`] if the tree isn't empty and the allocation fails.
    pub fn iter_descending(self) -> Result<Descending<'a, K, V>, TreeError>
        ensures pairs { IfOk result (λ it. it ≡ reverse (seen_pairs self.entry)) }
        ensures memory { IfErr result (MayLackMemory (seen_pairs self.entry)) }
    {
        let pairs = self.iter_descending_counted(&mut Visits::new())?;
        Ok(Descending { pairs })
    }

    /// Returns an iterator over the pairs whose key begins with the bytes `prefix`, which may be longer than any key,
    /// descending by key. It allocates as [`iter_descending_counted`](Self::iter_descending_counted) does.
    ///
    /// # Errors
    ///
    /// [`TreeError::Memory`] if the tree isn't empty and the allocation fails.
    pub fn prefix_iter_descending_bytes(
        self,
        prefix: &[u8],
    ) -> Result<Descending<'a, K, V>, TreeError>
        ensures pairs { IfOk result
            (λ it. it ≡ reverse (below prefix.now (seen_pairs self.entry))) }
        ensures memory { IfErr result (MayLackMemory (seen_pairs self.entry)) }
    {
        let pairs = self.prefix_iter_descending_bytes_counted(prefix, &mut Visits::new())?;
        Ok(Descending { pairs })
    }

    /// Returns an iterator over the pairs whose key begins with `prefix`, descending by key. It allocates as
    /// [`iter_descending_counted`](Self::iter_descending_counted) does.
    ///
    /// # Errors
    ///
    /// [`TreeError::Memory`] if the tree isn't empty and the allocation fails.
    pub fn prefix_iter_descending_k(self, prefix: &K) -> Result<Descending<'a, K, V>, TreeError>
        ensures pairs { IfOk result
            (λ it. it ≡ reverse (below (K.bytes prefix.now) (seen_pairs self.entry))) }
        ensures memory { IfErr result (MayLackMemory (seen_pairs self.entry)) }
    {
        self.prefix_iter_descending_bytes(prefix.as_ref())
    }
}
