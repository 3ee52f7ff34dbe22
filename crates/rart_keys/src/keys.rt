//! The keys of a tree, which a contract reads as lists of bytes, `bytes`, that fix equality and order.
ghost use Rattle.std.specs.Prelude.{◌≡◌, ◌+◌, ◌-◌, ◌<◌, ◌≤◌, ◌↔◌, ◌++◌, ℕ, Option, List, length, take, drop};
ghost use Rattle.std.specs.Prelude.{slice_index, IsTrue};
ghost use Rattle.std.specs.Bool.{Decides};
ghost use Rattle.std.specs.Cmp.Lexicographic.{slice_cmp};
ghost use Rattle.std.specs.Ordering.{nat_cmp};
ghost use Rattle.rart_keys.specs.KeyBytes.{AreBytes, IsWithin};

use crate::partials::Partial;

pub mod array_key;
pub mod tail_key;

/// A key, read as a byte string. Keys are compared byte by byte, and a proper prefix of a key is less than the key.
pub trait KeyTrait: Eq + Ord {
    /// The type of the prefixes that nodes keep. It has the same maximum length.
    type PartialType: Partial;

    /// The greatest length in bytes, or `None` if there is no limit.
    const MAXIMUM_SIZE: Option<usize>;

    ghost MAXIMUM_SIZE: { Option ℕ };

    ghost bytes: { Self → List ℕ };

    /// Returns the bytes.
    fn as_ref(&self) -> &[u8]
        ensures { result.now ≡ bytes self.now };

    /// Returns the key with these bytes. Their number must be within the maximum.
    fn new_from_slice(slice: &[u8]) -> Self
        requires { IsWithin MAXIMUM_SIZE (length slice.now) }
        ensures { bytes result ≡ slice.now };

    /// Returns the key with the bytes of `partial`.
    fn new_from_partial(partial: &Self::PartialType) -> Self
        ensures { bytes result ≡ Self.PartialType.bytes partial.now };

    /// Returns the key of these bytes followed by those of `partial`. The sum of the lengths must be within the
    /// maximum.
    fn extend_from_partial(&self, partial: &Self::PartialType) -> Self
        requires { IsWithin MAXIMUM_SIZE
            (length (bytes self.now) + length (Self.PartialType.bytes partial.now)) }
        ensures { bytes result ≡ bytes self.now ++ Self.PartialType.bytes partial.now };

    /// Returns the key with the bytes of `first`, followed by those of `second`. The sum of the lengths must be within
    /// the maximum.
    // Walks make their keys with it. A key type that can write both parts in place has a body of its own.
    fn joined(first: &[u8], second: &[u8]) -> Self
    where
        Self: Sized,
        requires { IsWithin MAXIMUM_SIZE (length first.now + length second.now) }
        ensures { bytes result ≡ first.now ++ second.now }
    {
        let start = Self::PartialType::from_slice(first);
        let rest = Self::PartialType::from_slice(second);
        Self::new_from_partial(&start.partial_extended_with(&rest))
    }

    /// Returns the key of the first `at_depth` bytes. `at_depth` must be at most the length.
    fn truncate(&self, at_depth: usize) -> Self
        requires { at_depth ≤ length (bytes self.now) }
        ensures { bytes result ≡ take at_depth (bytes self.now) };

    /// Returns the byte at `pos`, which must be below the length.
    fn at(&self, pos: usize) -> u8
        requires { pos < length (bytes self.now) }
        ensures { result ≡ slice_index (bytes self.now) pos };

    /// Returns the number of bytes from `at_depth` on. `at_depth` must be at most the length.
    fn length_at(&self, at_depth: usize) -> usize
        requires { at_depth ≤ length (bytes self.now) }
        ensures { result ≡ length (bytes self.now) - at_depth };

    /// Returns the bytes from `at_depth` on. `at_depth` must be at most the length.
    fn to_partial(&self, at_depth: usize) -> Self::PartialType
        requires { at_depth ≤ length (bytes self.now) }
        ensures { Self.PartialType.bytes result ≡ drop at_depth (bytes self.now) };

    /// Returns whether the bytes equal `slice`.
    fn matches_slice(&self, slice: &[u8]) -> bool
        ensures { IsTrue result ↔ (bytes self.now ≡ slice.now) };

    ghost same_maximum: { Self.PartialType.MAXIMUM_SIZE ≡ MAXIMUM_SIZE };

    ghost eq_is_of_bytes: { (a b : Self) → Decides (Self.eq a b) (bytes a ≡ bytes b) };

    ghost cmp_is_of_bytes: { (a b : Self) → Self.cmp a b ≡ slice_cmp nat_cmp (bytes a) (bytes b) };

    ghost within: { (key : Self) → IsWithin MAXIMUM_SIZE (length (bytes key)) };

    ghost are_bytes: { (key : Self) → AreBytes (bytes key) };
}
