//! The routes from a network on, ascending by their bits.

// A walk is at a network: the bytes of a stride and a code. The routes after it are in the strides at beginnings of
// these bytes, and in the strides ahead, whose bytes come after the network. The next route is in the first kind
// of stride, if it comes before the first stride ahead; otherwise the walk enters that stride.

ghost use Rattle.std.specs.Prelude.{◌≡◌, ◌≤◌, ◌*◌, [], ◌∷◌, length, IfErr, IfOk, MatchOption, true};
ghost use Rattle.rart_keys.specs.KeyBytes.{IsWithin};
ghost use Rattle.rart_keys.specs.Ranges.{bound_in, pairs_from, up_to};
ghost use Rattle.rart_keys.specs.SortedMap.{keys_of};
ghost use Rattle.rart_trie.specs.walks.Calls.{MayLackMemory};
ghost use Rattle.rart_cidr.specs.Advances.{Advances};
ghost use Rattle.rart_cidr.specs.Bits.{AreClearAfter, bits_of, network};
ghost use Rattle.rart_cidr.specs.Routes.{IsCode, coded_network};
ghost use Rattle.rart_cidr.specs.Walks.{IsStart, keys_ahead};

use crate::bits::code_of;
use crate::stride::Stride;
use crate::table::next::{next_before, target_of};
use crate::table::{BitTable, first_octets, octet_at};
use rart::range::Range;
use rart::{AdaptiveRadixTree, KeyTrait, TreeError};
use std::marker::Model;
use std::ops::Bound;

/// What a walk does next.
#[derive(Drop)]
pub(crate) enum Advance<'a, K, T> {
    Route(K, u8, &'a T),
    /// There was no route at the network, or the walk entered a stride.
    Moved,
    End,
}

/// Walks the routes from a network on.
///
/// Contracts see it as the remaining routes, and a bound on the steps that return none.
#[derive(Drop)]
pub(crate) struct Walk<'a, K: KeyTrait, T> {
    strides: &'a AdaptiveRadixTree<K, Stride<T>>,
    // the network
    key: K,
    code: u8,
    // whether the network's own route was returned, or there is none
    given: bool,
    // the key of the first stride ahead, and the strides after it
    ahead: Option<K>,
    rest: Range<'a, K, Stride<T>>,
}

impl<'a, K: KeyTrait, T> Model for Walk<'a, K, T> {
    ghost use Rattle.std.specs.Prelude.{ℕ, List, [], ◌∷◌, not};
    ghost use Rattle.rart_keys.specs.Ranges.{pairs_from, up_to};
    ghost use Rattle.rart_cidr.specs.Fields.{AreWalkFields};
    ghost use Rattle.rart_cidr.specs.Routes.{coded_network, routes_of};
    ghost use Rattle.rart_cidr.specs.Walks.{keys_ahead, steps_left};

    ghost Value = { List (List ℕ × T) × ℕ };

    ghost view = { λ w. (
      pairs_from (not w.given) (coded_network (K.bytes w.key) (w.code ∷ []))
          (routes_of w.strides.now.pairs),
      steps_left w.given (keys_ahead K.bytes w.ahead (up_to w.rest.0 w.rest.1)),
    ) };

    ghost invariant = { λ w. AreWalkFields w.strides.now.pairs (K.bytes w.key) w.code
        (keys_ahead K.bytes w.ahead (up_to w.rest.0 w.rest.1)) };
}

impl<'a, K: KeyTrait + Drop, T> Walk<'a, K, T> {
    /// Returns the bytes and the code of the next route's network, and its target. It does not allocate.
    pub(crate) fn step(&mut self) -> Option<(K, u8, &'a T)>
        ensures { MatchOption result ((self.old.0 ≡ []) × (self.new.0 ≡ []))
            (λ p. IsCode (p.1 ∷ [])
            × (self.old.0 ≡ (coded_network (K.bytes p.0) (p.1 ∷ []), p.2.now) ∷ self.new.0)) }
    {
        loop {
            match self.advance() {
                Advance::Route(key, code, target) => return Some((key, code, target)),
                Advance::Moved => {}
                Advance::End => return None,
            }
        }
    }

    // Returns the route of the network, or else the next one before the first stride ahead. Otherwise enters that
    // stride.
    fn advance(&mut self) -> Advance<'a, K, T>
        ensures { Advances K.bytes self.old self.new result }
    {
        self.strides.canonical();
        if !self.given {
            self.given = true;
            let Some(target) = target_of(self.strides, self.key.as_ref(), self.code) else {
                return Advance::Moved;
            };
            return Advance::Route(K::new_from_slice(self.key.as_ref()), self.code, target);
        }
        if let Some((at, code, target)) = next_before(
            self.strides,
            self.key.as_ref(),
            self.code,
            &self.ahead,
        ) {
            let key = self.key.truncate(at);
            self.key = self.key.truncate(at);
            self.code = code;
            return Advance::Route(key, code, target);
        }
        match self.ahead.take() {
            Some(key) => {
                self.key = key;
                self.code = 1;
                self.given = false;
                self.ahead = next_key(&mut self.rest);
                Advance::Moved
            }
            None => Advance::End,
        }
    }
}

// The key of the first stride of a range, which is left with the others.
fn next_key<K: KeyTrait + Drop, T>(rest: &mut Range<'_, K, Stride<T>>) -> Option<K>
    ensures { keys_ahead K.bytes result (up_to rest.new.0 rest.new.1)
        ≡ keys_of (up_to rest.old.0 rest.old.1) }
{
    match rest.next() {
        Some((key, _)) => Some(key),
        None => None,
    }
}

// The start of the strides whose bytes come after the network of the first `bits` bits of some octets, of which the
// others are zeros.
fn start_after<K: KeyTrait>(octets: &[u8], bits: usize) -> Bound<K>
    requires bits { bits ≤ 8 * length octets.now }
    requires within { IsWithin K.MAXIMUM_SIZE (length octets.now) }
    requires clear { AreClearAfter (bits_of octets.now) bits }
    ensures { IsStart (network octets.now bits) (bound_in K.bytes result) }
{
    if bits % 8 == 0 {
        Bound::Excluded(K::new_from_slice(first_octets(octets, bits / 8)))
    } else {
        Bound::Included(K::new_from_slice(first_octets(octets, bits / 8 + 1)))
    }
}

impl<K: KeyTrait + Drop, T> BitTable<K, T> {
    /// Returns the routes from the network of the first `bits` bits of `octets` on; the other bits must be zeros.
    ///
    /// # Errors
    ///
    /// [`TreeError::Memory`] if the table isn't empty and the allocation fails.
    pub(crate) fn walk_from(&self, octets: &[u8], bits: usize) -> Result<Walk<'_, K, T>, TreeError>
        requires bits { bits ≤ 8 * length octets.now }
        requires within { IsWithin K.MAXIMUM_SIZE (length octets.now) }
        requires clear { AreClearAfter (bits_of octets.now) bits }
        ensures routes { IfOk result
            (λ w. w.0 ≡ pairs_from true (network octets.now bits) self.now) }
        ensures memory { IfErr result (MayLackMemory self.now) }
    {
        self.strides.canonical();
        let mut rest = match self
            .strides
            .range(start_after(octets, bits), Bound::Unbounded)
        {
            Ok(rest) => rest,
            Err(error) => return Err(error),
        };
        let ahead = next_key(&mut rest);
        Ok(Walk {
            strides: &self.strides,
            key: K::new_from_slice(first_octets(octets, bits / 8)),
            code: code_of(octet_at(octets, bits / 8), bits % 8),
            given: false,
            ahead,
            rest,
        })
    }
}
