//! A key whose bytes are stored inline, at the end of an array, and read by contracts as `tail_key_bytes`.
ghost use Rattle.std.specs.Prelude.{◌≡◌, ◌≤◌, length, take, replicate};
ghost use Rattle.rart_keys.specs.KeyBytes.{AreBytes};

use crate::common_prefix::compare_bytes;
use crate::inline_bytes::joined_at_end;
use crate::keys::KeyTrait;
use crate::partials::Partial;
use crate::partials::array_partial::ArrPartial;
use crate::texts::write_bytes;
use std::cmp::Ordering;
use std::fmt;
use std::hash::{Hash, Hasher};

/// Holds at most `N` bytes of a key at the end of its array. The bytes of the array before the key are zero.
#[derive(Clone, Copy, Debug)]
pub struct TailKey<const N: usize> {
    stored: [u8; N],
    start: usize,
    ghost in_range: { start ≤ N },
    ghost full_width: { length stored ≡ N },
    ghost zeros_before: { take start stored ≡ replicate start 0 },
    ghost are_bytes: { AreBytes stored },
}

impl<const N: usize> TailKey<N> {
    ghost use Rattle.std.specs.Prelude.{◌≡◌, ◌+◌, ◌<◌, ◌≤◌, ◌↔◌, ◌++◌, length, IfSome, None};
    ghost use Rattle.rart_keys.specs.TailKeyBytes.{tail_key_bytes};

    /// Returns the key with the bytes of `slice`, `None` if these are more than `N`.
    pub fn try_from_slice(slice: &[u8]) -> Option<Self>
        ensures key { IfSome result (λ k. tail_key_bytes k ≡ slice.now) }
        ensures too_long { (result ≡ None) ↔ (N < length slice.now) }
    {
        if slice.len() > N {
            return None;
        }
        Some(Self::from_two(slice, &[]))
    }

    /// Returns the key with the bytes of `s`, `None` if these are more than `N`.
    pub fn try_from_str(s: &str) -> Option<Self>
        ensures key { IfSome result (λ k. tail_key_bytes k ≡ s.now) }
        ensures too_long { (result ≡ None) ↔ (N < length s.now) }
    {
        Self::try_from_slice(s.as_bytes())
    }

    // Every new value is made here, so that the zeros before its bytes are shown once.
    fn from_two(first: &[u8], second: &[u8]) -> Self
        requires { length first.now + length second.now ≤ N }
        ensures { tail_key_bytes result ≡ first.now ++ second.now }
    {
        TailKey {
            stored: joined_at_end(first, second),
            start: N - (first.len() + second.len()),
        }
    }

    fn as_slice(&self) -> &[u8]
        ensures value { result.now ≡ tail_key_bytes self.now }
        ensures within { length (tail_key_bytes self.now) ≤ N }
    {
        let stored = &self.stored[..];
        &stored[self.start..]
    }
}

impl<const N: usize> PartialEq for TailKey<N> {
    ghost use Rattle.std.specs.Prelude.{nat_eq};
    ghost use Rattle.std.specs.Ordering.{on};
    ghost use Rattle.std.specs.Cmp.{on_per, partial_equiv_from_equiv};
    ghost use Rattle.std.specs.Cmp.Lexicographic.{pointwise, nat_list_eq_equiv};
    ghost use Rattle.rart_keys.specs.TailKeyBytes.{tail_key_bytes};

    ghost eq = { on tail_key_bytes (pointwise nat_eq) };

    ghost laws = { on_per tail_key_bytes (partial_equiv_from_equiv nat_list_eq_equiv) };

    fn eq(&self, other: &Self) -> bool {
        self.as_slice() == other.as_slice()
    }
}

impl<const N: usize> Eq for TailKey<N> {
    ghost use Rattle.std.specs.Cmp.{on_equiv};
    ghost use Rattle.std.specs.Cmp.Lexicographic.{nat_list_eq_equiv};
    ghost use Rattle.rart_keys.specs.TailKeyBytes.{tail_key_bytes};

    ghost laws = { on_equiv tail_key_bytes nat_list_eq_equiv };
}

impl<const N: usize> PartialOrd for TailKey<N> {
    ghost use Rattle.std.specs.Prelude.{Some};
    ghost use Rattle.std.specs.Ordering.{nat_cmp};
    ghost use Rattle.std.specs.Cmp.{on_po};
    ghost use Rattle.std.specs.Cmp.Lexicographic.{slice_cmp, texts_po};
    ghost use Rattle.rart_keys.specs.TailKeyBytes.{tail_key_bytes};

    ghost partial_cmp = { λ a b. Some (slice_cmp nat_cmp (tail_key_bytes a) (tail_key_bytes b)) };

    ghost laws = { on_po tail_key_bytes texts_po };

    fn partial_cmp(&self, other: &Self) -> Option<Ordering> {
        Some(self.cmp(other))
    }
}

impl<const N: usize> Ord for TailKey<N> {
    ghost use Rattle.std.specs.Prelude.{refl};
    ghost use Rattle.std.specs.Ordering.{nat_cmp, on};
    ghost use Rattle.std.specs.Cmp.{on_total};
    ghost use Rattle.std.specs.Cmp.Lexicographic.{slice_cmp, nat_list_cmp_total, texts_ties};
    ghost use Rattle.rart_keys.specs.TailKeyBytes.{tail_key_bytes};

    ghost cmp = { on tail_key_bytes (slice_cmp nat_cmp) };

    ghost total = { on_total tail_key_bytes nat_list_cmp_total };

    ghost matches_partial_cmp = { λ a b. refl };

    ghost matches_eq = { λ a b. texts_ties (tail_key_bytes a) (tail_key_bytes b) };

    fn cmp(&self, other: &Self) -> Ordering {
        compare_bytes(self.as_slice(), other.as_slice())
    }
}

impl<const N: usize> Hash for TailKey<N> {
    ghost use Rattle.std.specs.Prelude.{◌++◌, ◌∷◌, [], length};
    ghost use Rattle.std.specs.Hash as fed;
    ghost use Rattle.std.specs.Cmp.Rules.{hashing};
    ghost use Rattle.std.proofs.Common.{rules};
    ghost use Rattle.rart_keys.specs.TailKeyBytes.{tail_key_bytes};

    ghost hash_input = { λ k. fed.usize (length (tail_key_bytes k)) ++ tail_key_bytes k ∷ [] };

    ghost respects_eq = { Prim.search (hashing, rules) };

    fn hash<H: Hasher>(&self, state: &mut H) {
        let bytes = self.as_slice();
        state.write_usize(bytes.len());
        state.write(bytes);
    }
}

/// Writes the bytes as text, as `Display` of an [`ArrayKey`](crate::keys::array_key::ArrayKey) does.
impl<const N: usize> fmt::Display for TailKey<N> {
    ghost use Rattle.std.specs.Prelude.{Some};
    ghost use Rattle.rart_keys.specs.ByteTexts.{key_text};
    ghost use Rattle.rart_keys.specs.TailKeyBytes.{tail_key_bytes};

    ghost output = { λ key. Some (key_text (tail_key_bytes key)) };

    fn fmt<W: fmt::Write>(&self, f: &mut fmt::Formatter<W>) -> fmt::Result {
        write_bytes(self.as_slice(), f)
    }
}

impl<const N: usize> KeyTrait for TailKey<N> {
    ghost use Rattle.std.specs.Prelude.{Some, refl};
    ghost use Rattle.rart_keys.specs.KeyBytes.{length-drop-within, AreBytes-drop};
    ghost use Rattle.std.proofs.lemmas.Slice.Eq.{bytes_eq-Decides};
    ghost use Rattle.rart_keys.specs.TailKeyBytes.{tail_key_bytes};

    type PartialType = ArrPartial<N>;

    const MAXIMUM_SIZE: Option<usize> = Some(N);

    ghost MAXIMUM_SIZE = { Some N };

    ghost bytes = { tail_key_bytes };

    fn as_ref(&self) -> &[u8] {
        self.as_slice()
    }

    fn new_from_slice(slice: &[u8]) -> Self {
        prove!(slice.len() <= N);
        Self::from_two(slice, &[])
    }

    fn new_from_partial(partial: &ArrPartial<N>) -> Self {
        Self::from_two(partial.to_slice(), &[])
    }

    fn extend_from_partial(&self, partial: &ArrPartial<N>) -> Self {
        Self::from_two(self.as_slice(), partial.to_slice())
    }

    fn joined(first: &[u8], second: &[u8]) -> Self {
        Self::from_two(first, second)
    }

    fn truncate(&self, at_depth: usize) -> Self {
        Self::from_two(&self.as_slice()[..at_depth], &[])
    }

    fn at(&self, pos: usize) -> u8 {
        self.as_slice()[pos]
    }

    fn length_at(&self, at_depth: usize) -> usize {
        self.as_slice().len() - at_depth
    }

    fn to_partial(&self, at_depth: usize) -> ArrPartial<N> {
        ArrPartial::from_slice(&self.as_slice()[at_depth..])
    }

    fn matches_slice(&self, slice: &[u8]) -> bool {
        self.as_slice() == slice
    }

    ghost same_maximum = { refl };

    ghost eq_is_of_bytes = { λ a b. bytes_eq-Decides (tail_key_bytes a) (tail_key_bytes b) };

    ghost cmp_is_of_bytes = { λ a b. refl };

    ghost within = { λ key. length-drop-within key.start N key.stored key.full_width };

    ghost are_bytes = { λ key. AreBytes-drop key.start key.stored key.are_bytes };
}
