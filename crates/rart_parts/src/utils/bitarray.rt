//! An array of slots for values, with a bitset of the used ones, which a contract reads as the list of its slots.

// An empty bitset means *unknown*: calls scan the slots, and the next write rebuilds it. It is empty in an array with
// no value, and after `iter_mut`.

mod iter;
mod iter_mut;

ghost use Rattle.std.specs.Prelude.{◌≡◌, [], ◌<◌, ◌≤◌, ◌^◌, ◌↔◌, not, false, length, IfErr, IfOk, IfSome, IsTrue};
ghost use Rattle.std.specs.Prelude.{MatchOption, Option, Some, None, slice_index_or, slice_set, replicate};
ghost use Rattle.std.specs.Option.{option_copied, option_copied_mut};
ghost use Rattle.rart_parts.specs.Bits.{IsFirst, IsLast};
ghost use Rattle.rart_parts.specs.Errors.{IsMemory};
ghost use Rattle.rart_parts.specs.Places.{Agrees, is_used, values_in, GivesLast, PopsLast};

use crate::error::TreeError;
use crate::utils::bitset::BitsetTrait;
use crate::utils::places::{
    fill_place, find_used, first_free_place, first_used_place, free_places, last_used_place,
    new_places,
};
pub use iter::{BitArrayIter, BitArrayKeys};
pub use iter_mut::BitArrayIterMut;
use std::alloc::Global;
use std::marker::Model;

/// Holds `RANGE_WIDTH` slots, each with a value or without. Only [`BitArray::new`] allocates.
#[derive(Drop)]
pub struct BitArray<X, const RANGE_WIDTH: usize, B: BitsetTrait> {
    // Empty, or the set of the used places.
    bitset: B,
    places: Vec<Option<X>>,
}

impl<X, const RANGE_WIDTH: usize, B: BitsetTrait> Model for BitArray<X, RANGE_WIDTH, B> {
    ghost use Rattle.std.specs.Prelude.{List, Option};
    ghost use Rattle.std.specs.Coded.{coded_list, coded_option};
    ghost use Rattle.rart_parts.specs.Places.{IsBitArray};

    ghost Value = { List (Option X) };

    ghost coded = { coded_list (coded_option X.code) };

    ghost view = { λ a. a.places.items };

    ghost invariant = { λ a. IsBitArray RANGE_WIDTH B.CAPACITY (B.has a.bitset) a.places.items };
}

impl<X, const RANGE_WIDTH: usize, B: BitsetTrait> BitArray<X, RANGE_WIDTH, B> {
    /// Returns an array with no value. It allocates all slots at once.
    ///
    /// # Errors
    ///
    /// [`TreeError::Memory`] if the allocation fails.
    pub fn new(alloc: Global) -> Result<Self, TreeError>
        requires covers { RANGE_WIDTH ≤ B.CAPACITY }
        requires fits { B.CAPACITY < 2 ^ 64 }
        ensures ok { IfOk result (λ a. a ≡ replicate RANGE_WIDTH None) }
        ensures memory { IfErr result IsMemory }
    {
        let places = new_places(alloc, RANGE_WIDTH)?;
        Ok(BitArray {
            bitset: B::default(),
            places,
        })
    }

    /// Stores a value in the first free slot and returns its position. Returns `None` and drops the value if no slot
    /// is free.
    pub fn push(&mut self, x: X) -> Option<usize>
    where
        X: Drop,
        ensures place { IsFirst (λ k. not (is_used self.old k)) RANGE_WIDTH result }
        ensures new { MatchOption result (self.new ≡ self.old)
            (λ p. self.new ≡ slice_set self.old p (Some x)) }
    {
        let position = self.first_empty()?;
        self.put(position, x);
        Some(position)
    }

    /// Removes the value in the last used slot and returns it.
    pub fn pop(&mut self) -> Option<X>
        ensures { PopsLast RANGE_WIDTH self.old result self.new }
    {
        let position = self.last_used_pos()?;
        self.erase(position)
    }

    /// Returns the value in the last used slot.
    pub fn last(&self) -> Option<&X>
        ensures { GivesLast RANGE_WIDTH self.now (option_copied result) }
    {
        self.get(self.last_used_pos()?)
    }

    /// Returns the position of the last used slot.
    pub fn last_used_pos(&self) -> Option<usize>
        ensures { IsLast (is_used self.now) RANGE_WIDTH result }
    {
        match self.bitset.last() {
            Some(position) => Some(position),
            None => last_used_place(&self.places),
        }
    }

    /// Returns the position of the first used slot.
    pub fn first_used(&self) -> Option<usize>
        ensures { IsFirst (is_used self.now) RANGE_WIDTH result }
    {
        match self.bitset.first_set() {
            Some(position) => Some(position),
            None => first_used_place(&self.places),
        }
    }

    /// Returns the position of the first free slot.
    pub fn first_empty(&self) -> Option<usize>
        ensures { IsFirst (λ k. not (is_used self.now k)) RANGE_WIDTH result }
    {
        let Some(used) = self.known_bitset() else {
            return first_free_place(&self.places);
        };
        let position = used.first_empty()?;
        if position < RANGE_WIDTH {
            Some(position)
        } else {
            None
        }
    }

    /// Returns whether a slot is used.
    pub fn check(&self, position: usize) -> bool
        requires { position < RANGE_WIDTH }
        ensures { result ≡ is_used self.now position }
    {
        self.places[position].is_some()
    }

    /// Returns the value in a slot.
    pub fn get(&self, position: usize) -> Option<&X>
        requires { position < RANGE_WIDTH }
        ensures { option_copied result ≡ slice_index_or self.now position None }
    {
        self.places[position].as_ref()
    }

    /// Returns the bitset of the used slots if it is known.
    pub fn known_bitset(&self) -> Option<&B>
        ensures covers { RANGE_WIDTH ≤ B.CAPACITY }
        ensures fits { B.CAPACITY < 2 ^ 64 }
        ensures agrees { IfSome result (λ set. Agrees B.CAPACITY (B.has set.now) self.now) }
    {
        if self.bitset.first_set().is_some() {
            Some(&self.bitset)
        } else {
            None
        }
    }

    /// Returns the bitset of the used slots, found by a scan.
    pub fn scanned_bitset(&self) -> B
        ensures covers { RANGE_WIDTH ≤ B.CAPACITY }
        ensures agrees { Agrees B.CAPACITY (B.has result) self.now }
    {
        let mut used = B::default();
        find_used(&mut used, &self.places);
        used
    }

    /// Stores a value in a slot and drops the old one.
    pub fn set(&mut self, position: usize, x: X)
    where
        X: Drop,
        requires { position < RANGE_WIDTH }
        ensures { self.new ≡ slice_set self.old position (Some x) }
    {
        let _old = self.update(position, x);
    }

    /// Stores a value in a free slot. It drops nothing, so `X` needs no `Drop`.
    pub fn put(&mut self, position: usize, x: X)
        requires in_range { position < RANGE_WIDTH }
        requires free { is_used self.old position ≡ false }
        ensures { self.new ≡ slice_set self.old position (Some x) }
    {
        find_used(&mut self.bitset, &self.places);
        self.bitset.set(position);
        fill_place(&mut self.places[position], x);
    }

    /// Stores a value in a slot and returns the old one.
    pub fn update(&mut self, position: usize, x: X) -> Option<X>
        requires { position < RANGE_WIDTH }
        ensures old { result ≡ slice_index_or self.old position None }
        ensures new { self.new ≡ slice_set self.old position (Some x) }
    {
        find_used(&mut self.bitset, &self.places);
        self.bitset.set(position);
        self.places[position].replace(x)
    }

    /// Removes the value in a slot and returns it.
    pub fn erase(&mut self, position: usize) -> Option<X>
        requires { position < RANGE_WIDTH }
        ensures old { result ≡ slice_index_or self.old position None }
        ensures new { self.new ≡ slice_set self.old position None }
    {
        find_used(&mut self.bitset, &self.places);
        self.bitset.unset(position);
        self.places[position].take()
    }

    /// Drops all values.
    pub fn clear(&mut self)
    where
        X: Drop,
        ensures { self.new ≡ replicate RANGE_WIDTH None }
    {
        for position in 0..RANGE_WIDTH {
            self.places[position] = None;
        }
        self.bitset.clear();
    }

    /// Returns whether no slot is used.
    pub fn is_empty(&self) -> bool
        ensures { IsTrue result ↔ (values_in self.now ≡ []) }
    {
        // Named for the proof, which learns here that their number fits.
        let _places = &self.places;
        self.first_used().is_none()
    }

    /// Returns the number of used slots.
    pub fn size(&self) -> usize
        ensures { result ≡ length (values_in self.now) }
    {
        if self.bitset.first_set().is_some() {
            self.bitset.size()
        } else {
            self.scanned_bitset().size()
        }
    }
}

impl<X, const RANGE_WIDTH: usize, B: BitsetTrait> BitArray<X, RANGE_WIDTH, B> {
    ghost use Rattle.std.specs.Prelude.{◌≡◌, ◌<◌, None, slice_index_or};
    ghost use Rattle.std.specs.Option.{option_copied_mut};
    ghost use Rattle.std.specs.Borrow.{sem};
    ghost use Rattle.rart_parts.specs.Loans.{lends_place};

    /// Returns a mutable borrow of the value in a slot.
    pub fn get_mut(&mut self, position: usize) -> Option<&mut X>
        requires { position < RANGE_WIDTH }
        ensures* writes_back { sem 𝓛
            (lends_place X.row RANGE_WIDTH.row B.row B.BitsetTrait self.entry position result) }
        ensures value { option_copied_mut result ≡ slice_index_or self.old position None }
    {
        if self.places[position].is_some() {
            self.places[position].as_mut()
        } else {
            None
        }
    }
}

impl<X, const RANGE_WIDTH: usize, B: BitsetTrait> BitArray<X, RANGE_WIDTH, B> {
    ghost use Rattle.std.specs.Prelude.{◌≡◌, []};
    ghost use Rattle.rart_parts.specs.Places.{values_in};

    /// Frees an array with no value. `X` needs no `Drop`.
    pub fn destroy_empty(self)
        requires { values_in self ≡ [] }
    {
        let BitArray {
            bitset: _bitset,
            places,
        } = self;
        free_places(places);
    }
}
