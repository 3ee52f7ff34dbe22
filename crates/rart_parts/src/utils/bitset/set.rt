//! A set of positions in an array of words: position `i` is bit `i % WIDTH` of word `i / WIDTH`.
ghost use Rattle.std.specs.Prelude.{◌≡◌, ℕ, ◌<◌, ◌≤◌, ◌*◌, false, refl};
ghost use Rattle.rart_parts.specs.BitSets.{bitset_has};
ghost use Rattle.rart_parts.specs.Bits.{IsLast};

use crate::utils::bitset::{BitsetOnesIter, BitsetTrait, BitsetWord};
use std::alloc::AllocError;

/// Holds positions below `S * W::WIDTH` in `S` inline words.
#[derive(Drop)]
pub struct Bitset<W: BitsetWord, const S: usize> {
    pub words: [W; S],
}

impl<W: BitsetWord, const S: usize> Bitset<W, S> {
    /// Returns the empty set.
    pub fn new() -> Self
        ensures { (k : ℕ) → k < S * W.WIDTH → bitset_has W.WIDTH W.number result k ≡ false }
    {
        Bitset {
            words: [W::from_u64(0); S],
        }
    }

    /// Returns the greatest position in the set below `above`.
    pub fn last_under(&self, above: usize) -> Option<usize>
        requires { above ≤ S * W.WIDTH }
        ensures { IsLast (bitset_has W.WIDTH W.number self.now) above result }
    {
        let mut end = above;
        while end > 0 {
            let i = (end - 1) / W::WIDTH;
            let from = i * W::WIDTH;
            if let Some(at) = self.words[i].highest_under(end - from) {
                return Some(from + at);
            }
            end = from;
        }
        None
    }
}

impl<W: BitsetWord, const S: usize> Clone for Bitset<W, S> {
    ghost use Rattle.std.specs.Prelude.{◌≡◌, ⊤};

    ghost is_clone = { λ set copy. copy ≡ set };

    ghost is_infallible = { λ _. ⊤ };

    fn clone(&self) -> Result<Self, AllocError> {
        Ok(Bitset { words: self.words })
    }
}

impl<W: BitsetWord, const S: usize> Default for Bitset<W, S> {
    ghost is_default = { λ b. (k : ℕ) → k < S * W.WIDTH
        → bitset_has W.WIDTH W.number b k ≡ false };

    fn default() -> Self {
        Bitset::new()
    }
}

impl<W: BitsetWord, const S: usize> BitsetTrait for Bitset<W, S> {
    ghost BIT_SHIFT = { W.SHIFT };

    ghost STORAGE_BIT_WIDTH = { W.WIDTH };

    ghost STORAGE_WORDS = { S };

    ghost CAPACITY = { S * W.WIDTH };

    ghost has = { λ b k. bitset_has W.WIDTH W.number b k };

    ghost empty = { λ b e. e };

    ghost capacity_is = { refl };

    ghost width_is = { W.width_is };

    ghost least_shift = { W.least_shift };

    ghost greatest_shift = { W.greatest_shift };

    const BIT_SHIFT: usize = W::SHIFT;

    const STORAGE_BIT_WIDTH: usize = W::WIDTH;

    const STORAGE_WORDS: usize = S;

    fn first_empty(&self) -> Option<usize> {
        for i in 0..S {
            if let Some(at) = self.words[i].lowest_unset() {
                return Some(i * W::WIDTH + at);
            }
        }
        None
    }

    fn first_set(&self) -> Option<usize> {
        for i in 0..S {
            if let Some(at) = self.words[i].lowest() {
                return Some(i * W::WIDTH + at);
            }
        }
        None
    }

    fn last(&self) -> Option<usize> {
        self.last_under(S * W::WIDTH)
    }

    fn set(&mut self, position: usize) {
        let word = self.words[position / W::WIDTH];
        self.words[position / W::WIDTH] = word.with(position % W::WIDTH);
    }

    fn unset(&mut self, position: usize) {
        let word = self.words[position / W::WIDTH];
        self.words[position / W::WIDTH] = word.without(position % W::WIDTH);
    }

    fn check(&self, position: usize) -> bool {
        self.words[position / W::WIDTH].test(position % W::WIDTH)
    }

    fn clear(&mut self) {
        *self = Bitset::new();
    }

    fn is_empty(&self) -> bool {
        for i in 0..S {
            if self.words[i].lowest().is_some() {
                return false;
            }
        }
        true
    }

    fn size(&self) -> usize {
        let mut size = 0;
        for i in 0..S {
            size += self.words[i].count();
        }
        size
    }

    fn capacity(&self) -> usize {
        S * W::WIDTH
    }

    fn as_bitmask(&self) -> u128 {
        let mut mask = 0;
        for position in 0..128usize {
            if position / W::WIDTH < S && self.check(position) {
                mask |= 1u128 << position;
            }
        }
        mask
    }
}
