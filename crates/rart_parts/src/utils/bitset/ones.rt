//! An iterator over the positions of a set.
ghost use Rattle.std.specs.Prelude.{◌≡◌, ℕ, ◌<◌, ◌*◌, ◌^◌};
ghost use Rattle.std.specs.Iterator.{YieldsFirst, item_count};
ghost use Rattle.rart_parts.specs.BitSets.{bitset_has};
ghost use Rattle.rart_parts.specs.Bits.{members, positions_above};

use crate::utils::bitset::{Bitset, BitsetTrait, BitsetWord};
use std::iter::FusedIterator;
use std::marker::Model;

/// Iterates over the positions of a set, ascending. A contract reads it as the list of remaining positions.
#[derive(Drop)]
pub struct BitsetOnesIter<W: BitsetWord, const S: usize> {
    rest: Bitset<W, S>,
}

impl<W: BitsetWord, const S: usize> Model for BitsetOnesIter<W, S> {
    ghost use Rattle.std.specs.Prelude.{ℕ, List, ◌<◌, ◌*◌, ◌^◌};
    ghost use Rattle.std.specs.Coded.{coded_list, coded_ℕ};
    ghost use Rattle.rart_parts.specs.Bits.{words_have, members};

    ghost Value = { List ℕ };

    ghost coded = { coded_list coded_ℕ };

    ghost view = { λ it. members (words_have W.WIDTH W.number it.rest.words) (S * W.WIDTH) };

    ghost invariant = { λ it. S * W.WIDTH < 2 ^ 64 };
}

impl<W: BitsetWord, const S: usize> Bitset<W, S> {
    /// Returns the positions of the set, ascending. It iterates over a copy of the words and does not allocate.
    pub fn iter(&self) -> BitsetOnesIter<W, S>
        requires { S * W.WIDTH < 2 ^ 64 }
        ensures { result ≡ members (bitset_has W.WIDTH W.number self.now) (S * W.WIDTH) }
    {
        BitsetOnesIter {
            rest: Bitset { words: self.words },
        }
    }
}

impl<W: BitsetWord, const S: usize> BitsetOnesIter<W, S> {
    /// Skips the positions up to and including `position`.
    pub fn pass(&mut self, position: usize)
        ensures { self.new ≡ positions_above position self.old }
    {
        for i in 0..S {
            let start = i * W::WIDTH;
            if start > position {
                return;
            }
            let over = position - start;
            let from = if over < W::WIDTH { over + 1 } else { W::WIDTH };
            self.rest.words[i] = self.rest.words[i].without_low(from);
        }
    }
}

impl<W: BitsetWord, const S: usize> Iterator for BitsetOnesIter<W, S> {
    type Item = usize;

    ghost next_gives = { YieldsFirst (λ rest. rest) };

    ghost remaining = { item_count (λ rest. rest) };

    fn next(&mut self) -> Option<usize> {
        let position = self.rest.first_set()?;
        self.rest.unset(position);
        Some(position)
    }
}

impl<W: BitsetWord, const S: usize> FusedIterator for BitsetOnesIter<W, S> {}
