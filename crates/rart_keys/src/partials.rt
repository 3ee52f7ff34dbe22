//! The parts of keys that nodes keep as their prefixes, which a contract reads as lists of bytes, `bytes`.
ghost use Rattle.std.specs.Prelude.{◌≡◌, ◌+◌, ◌<◌, ◌≤◌, ◌↔◌, ◌++◌, ℕ, Option, List, [], length, take, drop};
ghost use Rattle.std.specs.Prelude.{slice_index, nat_eq, IsTrue};
ghost use Rattle.std.specs.List.{starts_with, ends_with, common_prefix_len};
ghost use Rattle.std.specs.Slice.Iter.{iter_rest};
ghost use Rattle.std.specs.Iterator.Adapters.{IterYieldsInOrder};
ghost use Rattle.rart_keys.specs.CommonPrefix.{IsCommonPrefixLength};
ghost use Rattle.rart_keys.specs.KeyBytes.{AreBytes, IsWithin};

use std::slice::Iter;

pub mod array_partial;
mod part_length;

/// Holds a part of a key by value.
pub trait Partial: Drop {
    /// The greatest length in bytes, or `None` if there is no limit.
    const MAXIMUM_SIZE: Option<usize>;

    ghost MAXIMUM_SIZE: { Option ℕ };

    ghost bytes: { Self → List ℕ };

    /// Returns the bytes.
    fn as_ref(&self) -> &[u8]
        ensures { result.now ≡ bytes self.now };

    /// Returns the part with these bytes. Their number must be within the maximum.
    fn from_slice(slice: &[u8]) -> Self
        requires { IsWithin MAXIMUM_SIZE (length slice.now) }
        ensures { bytes result ≡ slice.now };

    /// Returns the first `count` bytes. `count` must be at most the length.
    fn partial_before(&self, count: usize) -> Self
        requires { count ≤ length (bytes self.now) }
        ensures { bytes result ≡ take count (bytes self.now) };

    /// Returns `count` bytes from `src_offset` on. They must lie within the length.
    fn partial_from(&self, src_offset: usize, count: usize) -> Self
        requires { src_offset + count ≤ length (bytes self.now) }
        ensures { bytes result ≡ take count (drop src_offset (bytes self.now)) };

    /// Returns the bytes from `start` on. `start` must be at most the length.
    fn partial_after(&self, start: usize) -> Self
        requires { start ≤ length (bytes self.now) }
        ensures { bytes result ≡ drop start (bytes self.now) };

    /// Returns these bytes followed by those of `other`. The sum of the lengths must be within the maximum.
    fn partial_extended_with(&self, other: &Self) -> Self
        requires { IsWithin MAXIMUM_SIZE (length (bytes self.now) + length (bytes other.now)) }
        ensures { bytes result ≡ bytes self.now ++ bytes other.now };

    /// Returns the byte at `pos`, which must be below the length.
    fn at(&self, pos: usize) -> u8
        requires { pos < length (bytes self.now) }
        ensures { result ≡ slice_index (bytes self.now) pos };

    /// Returns the length in bytes.
    fn len(&self) -> usize
        ensures { result ≡ length (bytes self.now) };

    /// Returns whether there is no byte.
    fn is_empty(&self) -> bool
        ensures { IsTrue result ↔ (bytes self.now ≡ []) }
    {
        self.as_ref().is_empty()
    }

    /// Returns the length of the common prefix of two parts.
    fn prefix_length_common(&self, other: &Self) -> usize
        ensures value { result ≡ common_prefix_len nat_eq (bytes self.now) (bytes other.now) }
        ensures greatest { IsCommonPrefixLength (bytes self.now) (bytes other.now) result };

    /// Returns the length of the common prefix of this part and the key from `depth` on. `depth` must be at most the
    /// length of the key.
    fn prefix_length_key(&self, key_bytes: &[u8], depth: usize) -> usize
        requires { depth ≤ length key_bytes.now }
        ensures value { result
            ≡ common_prefix_len nat_eq (bytes self.now) (drop depth key_bytes.now) }
        ensures greatest { IsCommonPrefixLength (bytes self.now) (drop depth key_bytes.now)
            result };

    /// Returns the length of the common prefix of this part and `slice`.
    fn prefix_length_slice(&self, slice: &[u8]) -> usize
        ensures value { result ≡ common_prefix_len nat_eq (bytes self.now) slice.now }
        ensures greatest { IsCommonPrefixLength (bytes self.now) slice.now result };

    /// Returns the bytes.
    fn to_slice(&self) -> &[u8]
        ensures { result.now ≡ bytes self.now };

    /// Returns an iterator over the bytes.
    fn iter(&self) -> Iter<'_, u8>
        ensures rest { iter_rest result ≡ bytes self.now }
        ensures runs { IterYieldsInOrder ℕ }
    {
        self.as_ref().iter()
    }

    /// Returns whether `prefix` begins this part.
    fn starts_with(&self, prefix: &[u8]) -> bool
        ensures { result ≡ starts_with nat_eq (bytes self.now) prefix.now }
    {
        self.as_ref().starts_with(prefix)
    }

    /// Returns whether `suffix` ends this part.
    fn ends_with(&self, suffix: &[u8]) -> bool
        ensures { result ≡ ends_with nat_eq (bytes self.now) suffix.now }
    {
        self.as_ref().ends_with(suffix)
    }

    ghost within: { (part : Self) → IsWithin MAXIMUM_SIZE (length (bytes part)) };

    ghost are_bytes: { (part : Self) → AreBytes (bytes part) };
}
