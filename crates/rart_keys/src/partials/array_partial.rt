//! A part of a key whose bytes are stored inline, and read by contracts as `arr_partial_bytes`.
ghost use Rattle.std.specs.Prelude.{◌≡◌, ◌≤◌, length};
ghost use Rattle.rart_keys.specs.KeyBytes.{AreBytes};
ghost use Rattle.rart_keys.specs.PartLengths.{joined_code, part_length};

use crate::common_prefix::common_prefix_length;
use crate::inline_bytes::joined_bytes;
use crate::keys::KeyTrait;
use crate::keys::array_key::ArrayKey;
use crate::partials::Partial;
use crate::partials::part_length::{mark_length, part_length};
use std::alloc::AllocError;
use std::slice::Iter;

/// Holds at most `SIZE` bytes of a key.
#[derive(Debug, Drop)]
pub struct ArrPartial<const SIZE: usize> {
    stored: [u8; SIZE],
    // The code of the length, its low byte first. One field of two bytes would have to lie at an even address.
    code_low: u8,
    code_high: u8,
    ghost in_range: { part_length SIZE stored (joined_code code_low code_high) ≤ SIZE },
    ghost full_width: { length stored ≡ SIZE },
    ghost are_bytes: { AreBytes stored },
}

impl<const SIZE: usize> ArrPartial<SIZE> {
    ghost use Rattle.std.specs.Prelude.{◌≡◌, ◌+◌, ◌≤◌, ◌++◌, ◌∷◌, [], length};
    ghost use Rattle.rart_keys.specs.ArrPartialBytes.{arr_partial_bytes};
    ghost use Rattle.rart_keys.specs.PartLengths.{joined_code};

    /// Returns the bytes of `src` followed by a zero byte. Both must fit in `SIZE` bytes.
    pub fn key(src: &[u8]) -> Self
        requires { length src.now + 1 ≤ SIZE }
        ensures { arr_partial_bytes result ≡ src.now ++ 0 ∷ [] }
    {
        Self::from_two(src, &[0])
    }

    /// Returns the part with the bytes of `src`, which must have at most `SIZE`.
    pub fn from_slice(src: &[u8]) -> Self
        requires { length src.now ≤ SIZE }
        ensures { arr_partial_bytes result ≡ src.now }
    {
        Self::from_two(src, &[])
    }

    /// Returns the bytes.
    pub fn to_slice(&self) -> &[u8]
        ensures value { result.now ≡ arr_partial_bytes self.now }
        ensures within { length (arr_partial_bytes self.now) ≤ SIZE }
    {
        &self.stored[..part_length(&self.stored, self.code())]
    }

    // Every part but a clone is made here.
    fn from_two(first: &[u8], second: &[u8]) -> Self
        requires { length first.now + length second.now ≤ SIZE }
        ensures { arr_partial_bytes result ≡ first.now ++ second.now }
    {
        let mut stored = joined_bytes(first, second);
        let code = mark_length(&mut stored, first.len() + second.len());
        ArrPartial {
            stored,
            code_low: (code % 256) as u8,
            code_high: (code / 256) as u8,
        }
    }

    // Returns the code of the length.
    #[inline(always)]
    fn code(&self) -> u16
        ensures { result ≡ joined_code self.now.code_low self.now.code_high }
    {
        self.code_low as u16 + self.code_high as u16 * 256
    }
}

impl<const SIZE: usize> Clone for ArrPartial<SIZE> {
    ghost use Rattle.std.specs.Prelude.{◌≡◌, ⊤};

    ghost is_clone = { λ part copy. copy ≡ part };

    ghost is_infallible = { λ _. ⊤ };

    fn clone(&self) -> Result<Self, AllocError> {
        Ok(ArrPartial {
            stored: self.stored,
            code_low: self.code_low,
            code_high: self.code_high,
        })
    }
}

impl<const SIZE: usize> PartialEq for ArrPartial<SIZE> {
    ghost use Rattle.std.specs.Prelude.{nat_eq};
    ghost use Rattle.std.specs.Ordering.{on};
    ghost use Rattle.std.specs.Cmp.{on_per, partial_equiv_from_equiv};
    ghost use Rattle.std.specs.Cmp.Lexicographic.{pointwise, nat_list_eq_equiv};
    ghost use Rattle.rart_keys.specs.ArrPartialBytes.{arr_partial_bytes};

    ghost eq = { on arr_partial_bytes (pointwise nat_eq) };

    ghost laws = { on_per arr_partial_bytes (partial_equiv_from_equiv nat_list_eq_equiv) };

    fn eq(&self, other: &Self) -> bool {
        self.to_slice() == other.to_slice()
    }
}

impl<const SIZE: usize> Eq for ArrPartial<SIZE> {
    ghost use Rattle.std.specs.Cmp.{on_equiv};
    ghost use Rattle.std.specs.Cmp.Lexicographic.{nat_list_eq_equiv};
    ghost use Rattle.rart_keys.specs.ArrPartialBytes.{arr_partial_bytes};

    ghost laws = { on_equiv arr_partial_bytes nat_list_eq_equiv };
}

impl<const SIZE: usize> Partial for ArrPartial<SIZE> {
    ghost use Rattle.std.specs.Prelude.{Some};
    ghost use Rattle.rart_keys.specs.ArrPartialBytes.{arr_partial_bytes};
    ghost use Rattle.rart_keys.specs.KeyBytes.{length-take-within, AreBytes-take};
    ghost use Rattle.rart_keys.specs.PartLengths.{joined_code, part_length};

    const MAXIMUM_SIZE: Option<usize> = Some(SIZE);

    ghost MAXIMUM_SIZE = { Some SIZE };

    ghost bytes = { arr_partial_bytes };

    fn as_ref(&self) -> &[u8] {
        self.to_slice()
    }

    fn from_slice(slice: &[u8]) -> Self {
        Self::from_two(slice, &[])
    }

    fn partial_before(&self, count: usize) -> Self {
        Self::from_two(&self.to_slice()[..count], &[])
    }

    fn partial_from(&self, src_offset: usize, count: usize) -> Self {
        Self::from_two(&self.to_slice()[src_offset..src_offset + count], &[])
    }

    fn partial_after(&self, start: usize) -> Self {
        Self::from_two(&self.to_slice()[start..], &[])
    }

    fn partial_extended_with(&self, other: &Self) -> Self {
        Self::from_two(self.to_slice(), other.to_slice())
    }

    fn at(&self, pos: usize) -> u8 {
        self.to_slice()[pos]
    }

    fn len(&self) -> usize {
        part_length(&self.stored, self.code())
    }

    fn prefix_length_common(&self, other: &Self) -> usize {
        common_prefix_length(self.to_slice(), other.to_slice())
    }

    fn prefix_length_key(&self, key_bytes: &[u8], depth: usize) -> usize {
        common_prefix_length(self.to_slice(), &key_bytes[depth..])
    }

    fn prefix_length_slice(&self, slice: &[u8]) -> usize {
        common_prefix_length(self.to_slice(), slice)
    }

    fn to_slice(&self) -> &[u8] {
        self.as_ref()
    }

    ghost within = { λ p. length-take-within
        (part_length SIZE p.stored (joined_code p.code_low p.code_high)) SIZE p.stored p.in_range };

    ghost are_bytes = { λ p. AreBytes-take
        (part_length SIZE p.stored (joined_code p.code_low p.code_high)) p.stored p.are_bytes };
}

impl<const SIZE: usize> From<ArrayKey<SIZE>> for ArrPartial<SIZE> {
    ghost use Rattle.std.specs.Prelude.{◌≡◌};
    ghost use Rattle.rart_keys.specs.ArrPartialBytes.{arr_partial_bytes};
    ghost use Rattle.rart_keys.specs.ArrayKeyBytes.{array_key_bytes};

    ghost from_gives = { λ key part. arr_partial_bytes part ≡ array_key_bytes key };

    fn from(key: ArrayKey<SIZE>) -> Self {
        key.to_partial(0)
    }
}

impl<'a, const SIZE: usize> IntoIterator for &'a ArrPartial<SIZE> {
    type Item = &'a u8;

    type IntoIter = Iter<'a, u8>;

    ghost use Rattle.std.specs.Prelude.{◌≡◌, ℕ};
    ghost use Rattle.std.specs.Slice.Iter.{iter_rest};
    ghost use Rattle.std.specs.Iterator.Adapters.{IterYieldsInOrder};
    ghost use Rattle.rart_keys.specs.ArrPartialBytes.{arr_partial_bytes};

    ghost into_iter_gives = { λ part it. (iter_rest it ≡ arr_partial_bytes part.now)
        × IterYieldsInOrder ℕ };

    fn into_iter(self) -> Iter<'a, u8> {
        self.to_slice().iter()
    }
}
