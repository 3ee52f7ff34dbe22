//! Iterators over a shared tree in key order, which a contract reads as the list of remaining items.

// Each allocates when it is created.

ghost use Rattle.std.specs.Prelude.{◌≡◌, ◌≤◌, ◌+◌, [], ◌∷◌, length, IfErr, IfOk, MatchOption, OnErr};
ghost use Rattle.std.specs.Iterator.{YieldsFirstBy, item_count};
ghost use Rattle.std.specs.Option.{option_copied};
ghost use Rattle.rart_keys.specs.Filters.{below};
ghost use Rattle.rart_keys.specs.Ranges.{pairs_from};
ghost use Rattle.rart_keys.specs.SortedMap.{count_of, values_of};
ghost use Rattle.rart_nodes.specs.tries.SeenTrees.{seen_keys, seen_pairs, seen_tree};
ghost use Rattle.rart_trie.specs.walks.ProbeCount.{VisitsAtMost, probe_count};
ghost use Rattle.rart_trie.specs.walks.Calls.{MayLackMemory};

pub use crate::node::calls::matching::PrefixMatchIter;
pub use crate::node::iter::descending::{Descending, SeenDescending};
use crate::node::path_walk::ascending::Walk;
use crate::node::path_walk::path::{BytePath, NoPath};
use crate::node::seen::Seen;
pub use crate::node::view::{LendingKeyBytes, LendingKeyView};
use rart_keys::{KeyTrait, Partial};
use rart_parts::TreeError;
use rart_trie::{Count, Visits};
use std::marker::{Model, PhantomData};

pub(crate) mod descending;

/// A walk that makes a key for each pair.
#[derive(Drop)]
pub(crate) struct KeyWalk<'a, K: KeyTrait, P: Partial, V, C> {
    walk: Walk<'a, P, V, C>,
    path: BytePath<'a>,
    of: PhantomData<K>,
}

impl<'a, K: KeyTrait, P: Partial, V, C> Model for KeyWalk<'a, K, P, V, C> {
    ghost use Rattle.std.specs.Prelude.{ℕ, List, length, reverse, vec_capacity};
    ghost use Rattle.std.specs.Option.{option_copied};
    ghost use Rattle.rart_trie.specs.walks.Walk.{IsKeyWalk, join_all, entries_ahead};
    ghost use Rattle.rart_nodes.specs.walks.PathParts.{byte_segments, kept_bytes};
    ghost use Rattle.rart_nodes.specs.walks.KeyBuffers.{bytes_in};

    ghost Value = { List (List ℕ × V) };

    ghost view = { λ w. join_all (entries_ahead byte_segments (byte_segments (kept_bytes w.path))
        (option_copied w.walk.first) w.walk.levels.items) };

    ghost invariant = { λ w. IsKeyWalk K.MAXIMUM_SIZE w.walk.longest (vec_capacity w.walk.levels)
        (length (bytes_in w.path.buffer)) (byte_segments (kept_bytes w.path))
        (reverse w.walk.levels.items) };
}

impl<'a, K: KeyTrait, P: Partial, V, C: Count> KeyWalk<'a, K, P, V, C> {
    /// Returns the next pair. It does not allocate.
    // Inline, as each iterator's step is one call of it.
    #[inline(always)]
    pub(crate) fn step(&mut self, counter: &mut C) -> Option<(K, &'a V)>
        ensures pairs { MatchOption result ((self.old ≡ []) × (self.new ≡ []))
            (λ p. self.old ≡ (K.bytes p.0, p.1.now) ∷ self.new) }
        ensures bound { VisitsAtMost (λ p. length (K.bytes p.0)) (C.number counter.old) result
            (C.number counter.new) }
    {
        let value = self.walk.advance(&mut self.path, counter)?;
        let (above, last) = self.path.parts();
        Some((K::joined(above, last), value))
    }
}

/// Iterates over the pairs of a tree, ascending by key, with counted visits.
#[derive(Drop)]
pub struct SeenIter<'a, K: KeyTrait, V, C> {
    pairs: KeyWalk<'a, K, K::PartialType, V, C>,
}

impl<'a, K: KeyTrait, V, C> Model for SeenIter<'a, K, V, C> {
    ghost use Rattle.std.specs.Prelude.{ℕ, List};

    ghost Value = { List (List ℕ × V) };

    ghost view = { λ it. it.pairs };
}

impl<'a, K: KeyTrait, V, C: Count> SeenIter<'a, K, V, C> {
    /// Returns the next pair. It is fused and does not allocate.
    ///
    /// # Visits
    ///
    /// At most one node more than the key has bytes, and none at the end.
    // Inline, as each iterator's step is one call of it.
    #[inline(always)]
    pub fn next_counted(&mut self, counter: &mut C) -> Option<(K, &'a V)>
        ensures pairs { MatchOption result ((self.old ≡ []) × (self.new ≡ []))
            (λ p. self.old ≡ (K.bytes p.0, p.1.now) ∷ self.new) }
        ensures bound { VisitsAtMost (λ p. length (K.bytes p.0) + 1) (C.number counter.old) result
            (C.number counter.new) }
    {
        self.pairs.step(counter)
    }
}

/// Iterates over the pairs of a tree, ascending by key. `P` is the `PartialType` of `K`.
#[derive(Drop)]
pub struct Iter<'a, K: KeyTrait, P: Partial, V> {
    pairs: SeenIter<'a, K, V, Visits>,
    of: PhantomData<P>,
}

impl<'a, K: KeyTrait, P: Partial, V> Model for Iter<'a, K, P, V> {
    ghost use Rattle.std.specs.Prelude.{ℕ, List};

    ghost Value = { List (List ℕ × V) };

    ghost view = { λ it. it.pairs };
}

impl<'a, K: KeyTrait, P: Partial, V> Iter<'a, K, P, V> {
    /// Returns the remaining walk.
    pub(crate) fn into_walk(self) -> KeyWalk<'a, K, K::PartialType, V, Visits>
        ensures { result ≡ self.entry }
    {
        self.pairs.pairs
    }
}

impl<'a, K: KeyTrait, P: Partial, V> Iterator for Iter<'a, K, P, V> {
    type Item = (K, &'a V);

    ghost next_gives = { YieldsFirstBy (λ p. (K.bytes p.0, p.1.now)) (λ rest. rest) };

    ghost remaining = { item_count (λ rest. rest) };

    /// Returns no bound, as the walk does not count the remaining items.
    fn size_hint(&self) -> (usize, Option<usize>) {
        (0, None)
    }

    /// Returns the next pair. It is fused and does not allocate.
    // Inline, so that a loop over the pairs makes no call and copies no key.
    #[inline(always)]
    fn next(&mut self) -> Option<(K, &'a V)> {
        self.pairs.next_counted(&mut Visits::new())
    }
}

/// Iterates over the values of a tree, ascending by key.
#[derive(Drop)]
pub struct ValuesIter<'a, K: KeyTrait, V> {
    walk: Walk<'a, K::PartialType, V, Visits>,
}

impl<'a, K: KeyTrait, V> Model for ValuesIter<'a, K, V> {
    ghost use Rattle.std.specs.Prelude.{◌≤◌, ◌^◌, List, [], reverse, vec_capacity};
    ghost use Rattle.rart_trie.specs.walks.Walk.{IsWalk};
    ghost use Rattle.rart_nodes.specs.walks.PathParts.{values_ahead};

    ghost Value = { List V };

    ghost view = { λ it. values_ahead it.walk.first it.walk.levels.items };

    ghost invariant = { λ it. IsWalk it.walk.longest (vec_capacity it.walk.levels) []
        (reverse it.walk.levels.items)
        × (it.walk.longest ≤ 2 ^ 64) };
}

impl<'a, K: KeyTrait, V> Iterator for ValuesIter<'a, K, V> {
    type Item = &'a V;

    ghost next_gives = { YieldsFirstBy (λ v. v.now) (λ rest. rest) };

    ghost remaining = { item_count (λ rest. rest) };

    /// Returns no bound, as the walk does not count the remaining items.
    fn size_hint(&self) -> (usize, Option<usize>) {
        (0, None)
    }

    /// Returns the next value. It is fused, builds no key and does not allocate.
    // Inline, so that a loop over the values makes no call.
    #[inline(always)]
    fn next(&mut self) -> Option<&'a V> {
        self.walk.advance(&mut NoPath, &mut Visits::new())
    }
}

impl<'a, K: KeyTrait, V, C: Count> Seen<'a, K, V, C> {
    fn key_walk(self, counter: &mut C) -> Result<KeyWalk<'a, K, K::PartialType, V, C>, TreeError>
        ensures pairs { IfOk result (λ it. it ≡ seen_pairs self.entry) }
        ensures memory { IfErr result (MayLackMemory (seen_pairs self.entry)) }
        ensures visits { C.number counter.new
            ≡ C.number counter.old + count_of (seen_tree self.entry) }
    {
        let (walk, path) = self.walk(counter)?;
        Ok(KeyWalk {
            walk,
            path,
            of: PhantomData,
        })
    }

    /// Returns an iterator over all pairs. It allocates for the longest key here, and nothing for an empty tree.
    ///
    /// # Errors
    ///
    /// [`TreeError::Memory`] if the tree isn't empty and the allocation fails.
    ///
    /// # Visits
    ///
    /// The root, or none of an empty tree.
    pub fn iter_counted(self, counter: &mut C) -> Result<SeenIter<'a, K, V, C>, TreeError>
        ensures pairs { IfOk result (λ it. it ≡ seen_pairs self.entry) }
        ensures memory { IfErr result (MayLackMemory (seen_pairs self.entry)) }
        ensures visits { C.number counter.new
            ≡ C.number counter.old + count_of (seen_tree self.entry) }
        ensures bound { C.number counter.new ≤ C.number counter.old + 1 }
    {
        let pairs = self.key_walk(counter)?;
        Ok(SeenIter { pairs })
    }
}

impl<'a, K: KeyTrait, V, C: Count> Seen<'a, K, V, C> {
    /// Returns a walk over the pairs after `start`, and the one at it if `included`.
    ///
    /// # Errors
    ///
    /// [`TreeError::Memory`] if the tree isn't empty and the allocation fails.
    ///
    /// # Visits
    ///
    /// At most `start.len() + 1` nodes.
    pub(crate) fn key_walk_from(
        self,
        start: &[u8],
        included: bool,
        counter: &mut C,
    ) -> Result<KeyWalk<'a, K, K::PartialType, V, C>, TreeError>
        ensures pairs { IfOk result
            (λ it. it ≡ pairs_from included start.now (seen_pairs self.entry)) }
        ensures memory { IfErr result (MayLackMemory (seen_pairs self.entry)) }
        ensures unvisited { OnErr result (counter.new ≡ counter.old) }
        ensures visits { IfOk result (λ _. C.number counter.new
            ≡ C.number counter.old + probe_count (seen_keys self.entry) start.now) }
        ensures bound { C.number counter.new ≤ C.number counter.old + length start.now + 1 }
    {
        let (walk, path) = self.walk_from(start, included, counter)?;
        Ok(KeyWalk {
            walk,
            path,
            of: PhantomData,
        })
    }
}

impl<'a, K: KeyTrait, V, C: Count> Seen<'a, K, V, C> {
    /// Returns an iterator over the pairs whose key begins with the bytes `prefix`, which may be longer than any key.
    /// It allocates as [`iter_counted`](Self::iter_counted) does.
    ///
    /// # Errors
    ///
    /// [`TreeError::Memory`] if the tree isn't empty and the allocation fails. Nothing is then visited.
    ///
    /// # Visits
    ///
    /// At most `prefix.len() + 1` nodes.
    pub fn prefix_iter_bytes_counted(
        self,
        prefix: &[u8],
        counter: &mut C,
    ) -> Result<SeenIter<'a, K, V, C>, TreeError>
        ensures pairs { IfOk result (λ it. it ≡ below prefix.now (seen_pairs self.entry)) }
        ensures memory { IfErr result (MayLackMemory (seen_pairs self.entry)) }
        ensures unvisited { OnErr result (counter.new ≡ counter.old) }
        ensures visits { IfOk result (λ _. C.number counter.new
            ≡ C.number counter.old + probe_count (seen_keys self.entry) prefix.now) }
        ensures bound { C.number counter.new ≤ C.number counter.old + length prefix.now + 1 }
    {
        let (walk, path) = self.walk_below(prefix, counter)?;
        Ok(SeenIter {
            pairs: KeyWalk {
                walk,
                path,
                of: PhantomData,
            },
        })
    }

    /// Returns an iterator over the pairs whose key begins with `prefix`, as
    /// [`prefix_iter_bytes_counted`](Self::prefix_iter_bytes_counted) does.
    ///
    /// # Errors
    ///
    /// [`TreeError::Memory`] if the tree isn't empty and the allocation fails. Nothing is then visited.
    ///
    /// # Visits
    ///
    /// At most `prefix.len() + 1` nodes.
    pub fn prefix_iter_k_counted(
        self,
        prefix: &K,
        counter: &mut C,
    ) -> Result<SeenIter<'a, K, V, C>, TreeError>
        ensures pairs { IfOk result
            (λ it. it ≡ below (K.bytes prefix.now) (seen_pairs self.entry)) }
        ensures memory { IfErr result (MayLackMemory (seen_pairs self.entry)) }
        ensures unvisited { OnErr result (counter.new ≡ counter.old) }
        ensures visits { IfOk result (λ _. C.number counter.new
            ≡ C.number counter.old + probe_count (seen_keys self.entry) (K.bytes prefix.now)) }
        ensures bound { C.number counter.new
            ≤ C.number counter.old + length (K.bytes prefix.now) + 1 }
    {
        self.prefix_iter_bytes_counted(prefix.as_ref(), counter)
    }
}

impl<'a, K: KeyTrait, V> Seen<'a, K, V, Visits> {
    /// Returns an iterator over the pairs whose key begins with the bytes `prefix`, which may be longer than any key.
    /// It allocates as [`iter_counted`](Self::iter_counted) does.
    ///
    /// # Errors
    ///
    /// [`TreeError::Memory`] if the tree isn't empty and the allocation fails.
    pub fn prefix_iter_bytes(
        self,
        prefix: &[u8],
    ) -> Result<Iter<'a, K, K::PartialType, V>, TreeError>
        ensures pairs { IfOk result (λ it. it ≡ below prefix.now (seen_pairs self.entry)) }
        ensures memory { IfErr result (MayLackMemory (seen_pairs self.entry)) }
    {
        let pairs = self.prefix_iter_bytes_counted(prefix, &mut Visits::new())?;
        Ok(Iter {
            pairs,
            of: PhantomData,
        })
    }

    /// Returns an iterator over the pairs whose key begins with `prefix`. It allocates as
    /// [`iter_counted`](Self::iter_counted) does.
    ///
    /// # Errors
    ///
    /// [`TreeError::Memory`] if the tree isn't empty and the allocation fails.
    pub fn prefix_iter_k(self, prefix: &K) -> Result<Iter<'a, K, K::PartialType, V>, TreeError>
        ensures pairs { IfOk result
            (λ it. it ≡ below (K.bytes prefix.now) (seen_pairs self.entry)) }
        ensures memory { IfErr result (MayLackMemory (seen_pairs self.entry)) }
    {
        self.prefix_iter_bytes(prefix.as_ref())
    }

    /// Returns an iterator over all pairs. It allocates as [`iter_counted`](Self::iter_counted) does.
    ///
    /// # Errors
    ///
    /// [`TreeError::Memory`] if the tree isn't empty and the allocation fails.
    pub fn iter(self) -> Result<Iter<'a, K, K::PartialType, V>, TreeError>
        ensures pairs { IfOk result (λ it. it ≡ seen_pairs self.entry) }
        ensures memory { IfErr result (MayLackMemory (seen_pairs self.entry)) }
    {
        let pairs = self.iter_counted(&mut Visits::new())?;
        Ok(Iter {
            pairs,
            of: PhantomData,
        })
    }

    /// Returns an iterator over all values in key order. It allocates as [`iter_counted`](Self::iter_counted) does.
    ///
    /// # Errors
    ///
    /// [`TreeError::Memory`] if the tree isn't empty and the allocation fails.
    pub fn values_iter(self) -> Result<ValuesIter<'a, K, V>, TreeError>
        ensures values { IfOk result (λ it. it ≡ values_of (seen_pairs self.entry)) }
        ensures memory { IfErr result (MayLackMemory (seen_pairs self.entry)) }
    {
        let (walk, _path) = self.walk::<NoPath>(&mut Visits::new())?;
        Ok(ValuesIter { walk })
    }
}
