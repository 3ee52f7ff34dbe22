//! An iterator over the pairs of a tree with its next pair at hand.
ghost use Rattle.std.specs.Prelude.{◌≡◌, [], ◌∷◌, MatchOption};
ghost use Rattle.std.specs.Ordering.{is_eq};
ghost use Rattle.rart.specs.Unions.{first_order, first_order_to, pairs_from_key};

use crate::walks::iter::Iter;
use rart_keys::KeyTrait;
use std::cmp::Ordering;
use std::marker::Model;
use std::mem;

/// Holds the first of the remaining pairs of an iterator, so that its key can be compared before it is taken.
///
/// A contract reads it as the list of remaining pairs.
#[derive(Drop)]
pub(crate) struct Ahead<'a, K: KeyTrait, V> {
    first: Option<(K, &'a V)>,
    rest: Iter<'a, K, K::PartialType, V>,
}

impl<'a, K: KeyTrait, V> Model for Ahead<'a, K, V> {
    ghost use Rattle.std.specs.Prelude.{ℕ, List};
    ghost use Rattle.std.specs.Ordering.{is_eq};
    ghost use Rattle.rart.specs.Unions.{EndsWithFirst, pairs_ahead};

    ghost Value = { List (List ℕ × V) };

    ghost view = { λ a. pairs_ahead K.bytes a.first a.rest };

    ghost invariant = { λ a. EndsWithFirst a.first a.rest };
}

impl<'a, K: KeyTrait + Drop, V> Ahead<'a, K, V> {
    pub(crate) fn of(mut pairs: Iter<'a, K, K::PartialType, V>) -> Self
        ensures { result ≡ pairs.entry }
    {
        let first = pairs.next();
        Ahead { first, rest: pairs }
    }

    /// Returns the first pair and removes it.
    pub(crate) fn pop(&mut self) -> Option<(K, &'a V)>
        ensures { MatchOption result ((self.old ≡ []) × (self.new ≡ []))
            (λ p. self.old ≡ (K.bytes p.0, p.1.now) ∷ self.new) }
    {
        let next = self.rest.next();
        mem::replace(&mut self.first, next)
    }

    /// Compares the first keys. A list without a pair is after any other; two such have no order.
    pub(crate) fn order<W>(&self, other: &Ahead<'_, K, W>) -> Option<Ordering>
        ensures { result ≡ first_order self.now other.now }
    {
        match (&self.first, &other.first) {
            (Some((key, _)), Some((other, _))) => Some(key.cmp(other)),
            (Some(_), None) => Some(Ordering::Less),
            (None, Some(_)) => Some(Ordering::Greater),
            (None, None) => None,
        }
    }

    // Compares the first key with `key`. A list without a pair is after any key.
    fn order_to(&self, key: &K) -> Ordering
        ensures { result ≡ first_order_to (K.bytes key.now) self.now }
    {
        match &self.first {
            Some((first, _)) => first.cmp(key),
            None => Ordering::Greater,
        }
    }

    /// Drops the pairs below `key`, and returns whether the first of the others is at `key`.
    pub(crate) fn skip_to(&mut self, key: &K) -> bool
        ensures rest { self.new ≡ pairs_from_key (K.bytes key.now) self.old }
        ensures found { result ≡ is_eq (first_order_to (K.bytes key.now) self.new) }
    {
        'below: loop {
            match self.order_to(key) {
                Ordering::Less => {
                    let _below = self.pop();
                }
                order => return order.is_eq(),
            }
        }
    }
}
