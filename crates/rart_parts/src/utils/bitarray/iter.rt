//! Double-ended iterators over the used slots of an array.
ghost use Rattle.std.specs.Prelude.{◌≡◌, map};
ghost use Rattle.std.specs.Iterator.{YieldsFirst, YieldsLast, YieldsFirstBy, YieldsLastBy, item_count};
ghost use Rattle.rart_parts.specs.Places.{numbered_values};

use crate::utils::bitarray::BitArray;
use crate::utils::bitset::BitsetTrait;
use std::iter::FusedIterator;
use std::marker::Model;

/// Iterates over the used slots as pairs of position and value. A contract reads it as the list of remaining items.
#[derive(Drop)]
pub struct BitArrayIter<'a, X> {
    places: &'a [Option<X>],
    // The number of the first of `places`.
    position: usize,
}

impl<'a, X> Model for BitArrayIter<'a, X> {
    ghost use Rattle.std.specs.Prelude.{ℕ, List, length, ◌+◌, ◌<◌, ◌^◌};
    ghost use Rattle.std.specs.Coded.{coded_list, coded×, coded_ℕ};
    ghost use Rattle.rart_parts.specs.Places.{numbered_values};

    ghost Value = { List (ℕ × X) };

    ghost coded = { coded_list (coded× coded_ℕ X.code) };

    ghost view = { λ it. numbered_values it.position it.places.now };

    ghost invariant = { λ it. it.position + length it.places.now < 2 ^ 64 };
}

impl<'a, X> Iterator for BitArrayIter<'a, X> {
    type Item = (usize, &'a X);

    ghost next_gives = { YieldsFirstBy (λ item. (item.0, item.1.now)) (λ rest. rest) };

    ghost remaining = { item_count (λ rest. rest) };

    fn next(&mut self) -> Option<(usize, &'a X)> {
        while let Some((place, rest)) = self.places.split_first() {
            let position = self.position;
            self.places = rest;
            self.position += 1;
            if let Some(x) = place {
                return Some((position, x));
            }
        }
        None
    }
}

impl<'a, X> DoubleEndedIterator for BitArrayIter<'a, X> {
    ghost next_back_gives = { YieldsLastBy (λ item. (item.0, item.1.now)) (λ rest. rest) };

    fn next_back(&mut self) -> Option<(usize, &'a X)> {
        while let Some((place, rest)) = self.places.split_last() {
            self.places = rest;
            if let Some(x) = place {
                return Some((self.position + rest.len(), x));
            }
        }
        None
    }
}

impl<'a, X> FusedIterator for BitArrayIter<'a, X> {}

/// Iterates over the positions of the used slots. A contract reads it as the list of remaining items.
#[derive(Drop)]
pub struct BitArrayKeys<'a, X> {
    entries: BitArrayIter<'a, X>,
}

impl<'a, X> Model for BitArrayKeys<'a, X> {
    ghost use Rattle.std.specs.Prelude.{ℕ, List, map};
    ghost use Rattle.std.specs.Coded.{coded_list, coded_ℕ};

    ghost Value = { List ℕ };

    ghost coded = { coded_list coded_ℕ };

    ghost view = { λ it. map (λ e. e.0) it.entries };
}

impl<'a, X> Iterator for BitArrayKeys<'a, X> {
    type Item = usize;

    ghost next_gives = { YieldsFirst (λ rest. rest) };

    ghost remaining = { item_count (λ rest. rest) };

    fn next(&mut self) -> Option<usize> {
        match self.entries.next() {
            Some((position, _)) => Some(position),
            None => None,
        }
    }
}

impl<'a, X> DoubleEndedIterator for BitArrayKeys<'a, X> {
    ghost next_back_gives = { YieldsLast (λ rest. rest) };

    fn next_back(&mut self) -> Option<usize> {
        match self.entries.next_back() {
            Some((position, _)) => Some(position),
            None => None,
        }
    }
}

impl<'a, X> FusedIterator for BitArrayKeys<'a, X> {}

impl<X, const RANGE_WIDTH: usize, B: BitsetTrait> BitArray<X, RANGE_WIDTH, B> {
    /// Returns the used positions with their values, ascending.
    pub fn iter(&self) -> BitArrayIter<'_, X>
        ensures { result ≡ numbered_values 0 self.now }
    {
        BitArrayIter {
            places: self.places.as_slice(),
            position: 0,
        }
    }

    /// Returns the used positions, ascending.
    pub fn iter_keys(&self) -> BitArrayKeys<'_, X>
        ensures { result ≡ map (λ e. e.0) (numbered_values 0 self.now) }
    {
        BitArrayKeys {
            entries: self.iter(),
        }
    }
}
