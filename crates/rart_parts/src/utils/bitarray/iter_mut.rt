//! A double-ended iterator over the used slots of an array that lends the values mutably.
ghost use Rattle.std.specs.Prelude.{◌≡◌};
ghost use Rattle.std.specs.Iterator.{YieldsFirstBy, YieldsLastBy, item_count};
ghost use Rattle.rart_parts.specs.Places.{numbered_values};

use crate::utils::bitarray::BitArray;
use crate::utils::bitset::BitsetTrait;
use std::iter::FusedIterator;
use std::marker::Model;
use std::slice;

/// Iterates over the used slots as pairs of position and mutable value. A contract reads it as the list of remaining
/// items.
#[derive(Drop)]
pub struct BitArrayIterMut<'a, X> {
    places: slice::IterMut<'a, Option<X>>,
    // The number of the first of `places`.
    position: usize,
}

impl<'a, X> Model for BitArrayIterMut<'a, X> {
    ghost use Rattle.std.specs.Prelude.{ℕ, List, length, ◌+◌, ◌<◌, ◌^◌};
    ghost use Rattle.std.specs.Coded.{coded_list, coded×, coded_ℕ};
    ghost use Rattle.std.specs.Slice.Iter.{iter_mut_rest};
    ghost use Rattle.rart_parts.specs.Places.{numbered_values};

    ghost Value = { List (ℕ × X) };

    ghost coded = { coded_list (coded× coded_ℕ X.code) };

    ghost view = { λ it. numbered_values it.position (iter_mut_rest it.places) };

    ghost invariant = { λ it. it.position + length (iter_mut_rest it.places) < 2 ^ 64 };
}

impl<'a, X> Iterator for BitArrayIterMut<'a, X> {
    type Item = (usize, &'a mut X);

    ghost next_gives = { YieldsFirstBy (λ item. (item.0, item.1.now)) (λ rest. rest) };

    ghost remaining = { item_count (λ rest. rest) };

    fn next(&mut self) -> Option<(usize, &'a mut X)> {
        while let Some(place) = self.places.next() {
            let position = self.position;
            self.position += 1;
            if let Some(x) = place {
                return Some((position, x));
            }
        }
        None
    }
}

impl<'a, X> DoubleEndedIterator for BitArrayIterMut<'a, X> {
    ghost next_back_gives = { YieldsLastBy (λ item. (item.0, item.1.now)) (λ rest. rest) };

    fn next_back(&mut self) -> Option<(usize, &'a mut X)> {
        while let Some(place) = self.places.next_back() {
            if let Some(x) = place {
                return Some((self.position + self.places.len(), x));
            }
        }
        None
    }
}

impl<'a, X> FusedIterator for BitArrayIterMut<'a, X> {}

impl<X, const RANGE_WIDTH: usize, B: BitsetTrait> BitArray<X, RANGE_WIDTH, B> {
    /// Returns the used positions with mutable borrows of their values, ascending. It does not allocate.
    pub fn iter_mut(&mut self) -> BitArrayIterMut<'_, X>
        ensures { result ≡ numbered_values 0 self.old }
    {
        // No contract says that lent slots keep their values. An empty bitset means *unknown* until the next write.
        self.bitset.clear();
        BitArrayIterMut {
            places: self.places.iter_mut(),
            position: 0,
        }
    }
}
