//! A key whose bytes are stored inline, at the front of an array, and read by contracts as `array_key_bytes`.
ghost use Rattle.std.specs.Prelude.{◌≡◌, ◌-◌, ◌≤◌, length, drop, replicate};
ghost use Rattle.rart_keys.specs.KeyBytes.{AreBytes};

use crate::common_prefix::compare_bytes;
use crate::inline_bytes::joined_bytes;
use crate::keys::KeyTrait;
use crate::partials::Partial;
use crate::partials::array_partial::ArrPartial;
use crate::texts::write_bytes;
use std::cmp::Ordering;
use std::fmt;
use std::hash::{Hash, Hasher};

mod numbers;
mod texts;

/// Holds at most `N` bytes of a key. The bytes of the array after the key are zero.
#[derive(Clone, Copy, Debug)]
pub struct ArrayKey<const N: usize> {
    stored: [u8; N],
    len: usize,
    ghost in_range: { len ≤ N },
    ghost full_width: { length stored ≡ N },
    ghost zeros_after: { drop len stored ≡ replicate (N - len) 0 },
    ghost are_bytes: { AreBytes stored },
}

impl<const N: usize> ArrayKey<N> {
    ghost use Rattle.std.specs.Prelude.{◌≡◌, ◌+◌, ◌-◌, ◌≤◌, ◌++◌, length, replicate};
    ghost use Rattle.rart_keys.specs.ArrayKeyBytes.{array_key_bytes};

    /// Returns the whole array: the bytes of the key, then zeros.
    pub fn as_array(&self) -> &[u8; N]
        ensures { result.now
            ≡ array_key_bytes self.now ++ replicate (N - length (array_key_bytes self.now)) 0 }
    {
        &self.stored
    }

    /// Returns the bytes.
    pub fn as_slice(&self) -> &[u8]
        ensures value { result.now ≡ array_key_bytes self.now }
        ensures within { length (array_key_bytes self.now) ≤ N }
    {
        &self.stored[..self.len]
    }

    // Every key but a copy is made here, so the zeros after it are proved once.
    fn from_two(first: &[u8], second: &[u8]) -> Self
        requires { length first.now + length second.now ≤ N }
        ensures { array_key_bytes result ≡ first.now ++ second.now }
    {
        // `N` bytes are copied as one array.
        if let Some(whole) = first.as_array::<N>() {
            return ArrayKey {
                stored: *whole,
                len: N,
            };
        }
        ArrayKey {
            stored: joined_bytes(first, second),
            len: first.len() + second.len(),
        }
    }
}

impl<const N: usize> PartialEq for ArrayKey<N> {
    ghost use Rattle.std.specs.Prelude.{nat_eq};
    ghost use Rattle.std.specs.Ordering.{on};
    ghost use Rattle.std.specs.Cmp.{on_per, partial_equiv_from_equiv};
    ghost use Rattle.std.specs.Cmp.Lexicographic.{pointwise, nat_list_eq_equiv};
    ghost use Rattle.rart_keys.specs.ArrayKeyBytes.{array_key_bytes};

    ghost eq = { on array_key_bytes (pointwise nat_eq) };

    ghost laws = { on_per array_key_bytes (partial_equiv_from_equiv nat_list_eq_equiv) };

    fn eq(&self, other: &Self) -> bool {
        self.as_slice() == other.as_slice()
    }
}

impl<const N: usize> Eq for ArrayKey<N> {
    ghost use Rattle.std.specs.Cmp.{on_equiv};
    ghost use Rattle.std.specs.Cmp.Lexicographic.{nat_list_eq_equiv};
    ghost use Rattle.rart_keys.specs.ArrayKeyBytes.{array_key_bytes};

    ghost laws = { on_equiv array_key_bytes nat_list_eq_equiv };
}

impl<const N: usize> PartialOrd for ArrayKey<N> {
    ghost use Rattle.std.specs.Prelude.{Some};
    ghost use Rattle.std.specs.Ordering.{nat_cmp};
    ghost use Rattle.std.specs.Cmp.{on_po};
    ghost use Rattle.std.specs.Cmp.Lexicographic.{slice_cmp, texts_po};
    ghost use Rattle.rart_keys.specs.ArrayKeyBytes.{array_key_bytes};

    ghost partial_cmp = { λ a b. Some (slice_cmp nat_cmp (array_key_bytes a) (array_key_bytes b)) };

    ghost laws = { on_po array_key_bytes texts_po };

    fn partial_cmp(&self, other: &Self) -> Option<Ordering> {
        Some(self.cmp(other))
    }
}

impl<const N: usize> Ord for ArrayKey<N> {
    ghost use Rattle.std.specs.Prelude.{refl};
    ghost use Rattle.std.specs.Ordering.{nat_cmp, on};
    ghost use Rattle.std.specs.Cmp.{on_total};
    ghost use Rattle.std.specs.Cmp.Lexicographic.{slice_cmp, nat_list_cmp_total, texts_ties};
    ghost use Rattle.rart_keys.specs.ArrayKeyBytes.{array_key_bytes};

    ghost cmp = { on array_key_bytes (slice_cmp nat_cmp) };

    ghost total = { on_total array_key_bytes nat_list_cmp_total };

    ghost matches_partial_cmp = { λ a b. refl };

    ghost matches_eq = { λ a b. texts_ties (array_key_bytes a) (array_key_bytes b) };

    fn cmp(&self, other: &Self) -> Ordering {
        compare_bytes(self.as_slice(), other.as_slice())
    }
}

impl<const N: usize> Hash for ArrayKey<N> {
    ghost use Rattle.std.specs.Prelude.{◌++◌, ◌∷◌, [], length};
    ghost use Rattle.std.specs.Hash as fed;
    ghost use Rattle.std.specs.Cmp.Rules.{hashing};
    ghost use Rattle.std.proofs.Common.{rules};
    ghost use Rattle.rart_keys.specs.ArrayKeyBytes.{array_key_bytes};

    ghost hash_input = { λ k. fed.usize (length (array_key_bytes k)) ++ array_key_bytes k ∷ [] };

    ghost respects_eq = { Prim.search (hashing, rules) };

    fn hash<H: Hasher>(&self, state: &mut H) {
        let bytes = self.as_slice();
        state.write_usize(bytes.len());
        state.write(bytes);
    }
}

/// Writes the bytes as text. A printable ASCII byte other than the backslash stands for itself. Every other byte is
/// written as `\xNN`, with two small hex digits.
impl<const N: usize> fmt::Display for ArrayKey<N> {
    ghost use Rattle.std.specs.Prelude.{Some};
    ghost use Rattle.rart_keys.specs.ArrayKeyBytes.{array_key_bytes};
    ghost use Rattle.rart_keys.specs.ByteTexts.{key_text};

    ghost output = { λ key. Some (key_text (array_key_bytes key)) };

    fn fmt<W: fmt::Write>(&self, f: &mut fmt::Formatter<W>) -> fmt::Result {
        write_bytes(self.as_slice(), f)
    }
}

impl<const N: usize> KeyTrait for ArrayKey<N> {
    ghost use Rattle.std.specs.Prelude.{Some, refl};
    ghost use Rattle.std.proofs.lemmas.Slice.Eq.{bytes_eq-Decides};
    ghost use Rattle.rart_keys.specs.ArrayKeyBytes.{array_key_bytes};
    ghost use Rattle.rart_keys.specs.KeyBytes.{length-take-within, AreBytes-take};

    type PartialType = ArrPartial<N>;

    const MAXIMUM_SIZE: Option<usize> = Some(N);

    ghost MAXIMUM_SIZE = { Some N };

    ghost bytes = { array_key_bytes };

    fn as_ref(&self) -> &[u8] {
        self.as_slice()
    }

    fn new_from_slice(slice: &[u8]) -> Self {
        prove!(slice.len() <= N);
        Self::from_two(slice, &[])
    }

    fn new_from_partial(partial: &ArrPartial<N>) -> Self {
        Self::from_two(partial.to_slice(), &[])
    }

    fn extend_from_partial(&self, partial: &ArrPartial<N>) -> Self {
        Self::from_two(self.as_slice(), partial.to_slice())
    }

    fn joined(first: &[u8], second: &[u8]) -> Self {
        Self::from_two(first, second)
    }

    fn truncate(&self, at_depth: usize) -> Self {
        Self::from_two(&self.as_slice()[..at_depth], &[])
    }

    fn at(&self, pos: usize) -> u8 {
        self.as_slice()[pos]
    }

    fn length_at(&self, at_depth: usize) -> usize {
        self.len - at_depth
    }

    fn to_partial(&self, at_depth: usize) -> ArrPartial<N> {
        ArrPartial::from_slice(&self.as_slice()[at_depth..])
    }

    fn matches_slice(&self, slice: &[u8]) -> bool {
        self.as_slice() == slice
    }

    ghost same_maximum = { refl };

    ghost eq_is_of_bytes = { λ a b. bytes_eq-Decides (array_key_bytes a) (array_key_bytes b) };

    ghost cmp_is_of_bytes = { λ a b. refl };

    ghost within = { λ key. length-take-within key.len N key.stored key.in_range };

    ghost are_bytes = { λ key. AreBytes-take key.len key.stored key.are_bytes };
}
