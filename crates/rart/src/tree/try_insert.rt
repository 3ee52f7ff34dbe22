//! Insertions that never replace a value.
ghost use Rattle.std.specs.Prelude.{◌≡◌, IfErr, OnErr};
ghost use Rattle.std.specs.Borrow.{sem};
ghost use Rattle.rart_keys.specs.SortedMap.{put};
ghost use Rattle.rart.specs.Edits.{InsertsNew, PutOrSame, TriesInsert};
ghost use Rattle.rart.specs.Loans.{ends_as};
ghost use Rattle.rart.specs.Refusals.{AddsPresent, IsStoredAt};

use crate::tree::{AdaptiveRadixTree, insert_first};
use rart_keys::KeyTrait;
use rart_nodes::{NotInserted, Refused};
use thiserror::Error;

/// Says why `try_insert` inserted nothing.
#[derive(Drop, Debug, Error)]
pub enum TryInsertError<'a, V> {
    /// The key is stored: the value that was offered, and the stored one.
    #[error("key is stored")]
    Occupied(V, &'a V),
    /// The insertion failed as that of `insert_k`, with the value that was offered.
    #[error("{0}")]
    Refused(Refused<V>),
}

impl<K: KeyTrait, V> AdaptiveRadixTree<K, V> {
    /// Inserts `value` at `key` if the key is new. A stored key allocates nothing.
    ///
    /// # Errors
    ///
    /// [`NotInserted::Stored`] if the key is stored. [`NotInserted::Refused`] if the insertion fails as that of
    /// [`insert_k`](Self::insert_k). The tree is then unchanged, and the error holds `value`.
    pub fn insert_new_k(&mut self, key: &K, value: V) -> Result<(), NotInserted<V>>
        ensures inserts_new { InsertsNew (K.bytes key.now) value self.old.pairs self.new.pairs
            result }
        ensures unchanged { OnErr result (self.new ≡ self.old) }
    {
        if self.is_full_for(key) {
            return Err(NotInserted::Refused(Refused::full(value)));
        }
        let bytes = key.as_ref();
        match &mut self.root {
            Some(root) => root.insert_new(self.alloc, bytes, value)?,
            None => insert_first(&mut self.root, key, value),
        }
        self.len += 1;
        self.longest = self.longest.max(bytes.len());
        Ok(())
    }

    /// Inserts `value` at a new `key`, as [`insert_new_k`](Self::insert_new_k).
    ///
    /// # Errors
    ///
    /// Those of [`insert_new_k`](Self::insert_new_k). The tree is then unchanged, and the error holds `value`.
    pub fn insert_new(&mut self, key: K, value: V) -> Result<(), NotInserted<V>>
    where
        K: Drop,
        ensures inserts_new { InsertsNew (K.bytes key) value self.old.pairs self.new.pairs result }
        ensures unchanged { OnErr result (self.new ≡ self.old) }
    {
        self.insert_new_k(&key, value)
    }

    /// Inserts `value` at `key` if the key is new.
    ///
    /// # Errors
    ///
    /// [`TryInsertError::Occupied`] if the key is stored, with `value` and a reference to the stored one.
    /// [`TryInsertError::Refused`] if the insertion fails as that of [`insert_k`](Self::insert_k), with `value`. After
    /// the borrow ends the tree is unchanged.
    pub fn try_insert_k<'a>(&'a mut self, key: &K, value: V) -> Result<(), TryInsertError<'a, V>>
        ensures* after { sem 𝓛
            (ends_as K.row V.row K.PartialType.row K.KeyTrait K.PartialType.Partial self.entry
            (PutOrSame (K.bytes key.now) value result self.old)) }
        ensures answer { TriesInsert (K.bytes key.now) value self.old.pairs result }
    {
        let outcome = self.insert_new_k(key, value);
        self.with_present(key, outcome)
    }

    /// Returns the outcome of an insertion, with the stored value if the key isn't new.
    pub(crate) fn with_present<'a>(
        &'a self,
        key: &K,
        outcome: Result<(), NotInserted<V>>,
    ) -> Result<(), TryInsertError<'a, V>>
        requires stored { IfErr outcome (IsStoredAt self.now.pairs (K.bytes key.now)) }
        ensures { AddsPresent self.now.pairs (K.bytes key.now) outcome result }
    {
        match outcome {
            Ok(()) => Ok(()),
            Err(NotInserted::Refused(refused)) => Err(TryInsertError::Refused(refused)),
            Err(NotInserted::Stored(proposed)) => match self.get_k(key) {
                Some(present) => Err(TryInsertError::Occupied(proposed, present)),
                None => unreachable!(),
            },
        }
    }

    /// Inserts `value` at a new `key`, as [`try_insert_k`](Self::try_insert_k).
    ///
    /// # Errors
    ///
    /// Those of [`try_insert_k`](Self::try_insert_k). After the borrow ends the tree is unchanged.
    pub fn try_insert<'a>(&'a mut self, key: K, value: V) -> Result<(), TryInsertError<'a, V>>
    where
        K: Drop,
        ensures* after { sem 𝓛
            (ends_as K.row V.row K.PartialType.row K.KeyTrait K.PartialType.Partial self.entry
            (PutOrSame (K.bytes key) value result self.old)) }
        ensures answer { TriesInsert (K.bytes key) value self.old.pairs result }
    {
        let tried = self.insert_new_keeping_key(key, value);
        self.tried_with_present(tried)
    }

    // Inserts as `insert_new_k` and returns the key.
    fn insert_new_keeping_key(&mut self, key: K, value: V) -> Tried<K, V>
        ensures key { result.key ≡ key }
        ensures inserts_new { InsertsNew (K.bytes key) value self.old.pairs self.new.pairs
            result.outcome }
        ensures unchanged { OnErr result.outcome (self.new ≡ self.old) }
    {
        let outcome = self.insert_new_k(&key, value);
        Tried { key, outcome }
    }

    // Returns the outcome of an insertion, with the value at its key.
    fn tried_with_present<'a>(&'a self, tried: Tried<K, V>) -> Result<(), TryInsertError<'a, V>>
    where
        K: Drop,
        requires stored { IfErr tried.outcome (IsStoredAt self.now.pairs (K.bytes tried.key)) }
        ensures { AddsPresent self.now.pairs (K.bytes tried.key) tried.outcome result }
    {
        let Tried { key, outcome } = tried;
        self.with_present(&key, outcome)
    }
}

// A key, and the outcome of its insertion.
struct Tried<K, V> {
    key: K,
    outcome: Result<(), NotInserted<V>>,
}
