//! Conversions of texts, slices and byte arrays to keys.
ghost use Rattle.std.specs.Prelude.{◌≡◌, ◌+◌, ◌<◌, ◌≤◌, ◌↔◌, ◌++◌, ◌∷◌, [], length, string_bytes, string_len};
ghost use Rattle.std.specs.Prelude.{IfSome, None};
ghost use Rattle.rart_keys.specs.ArrayKeyBytes.{array_key_bytes};

use crate::keys::array_key::ArrayKey;

/// The last byte of a terminated key.
const CLOSING_ZERO: [u8; 1] = [0];

impl<const N: usize> ArrayKey<N> {
    /// Returns the key with the bytes of `slice`, `None` if these are more than `N`.
    pub fn try_from_slice(slice: &[u8]) -> Option<Self>
        ensures key { IfSome result (λ k. array_key_bytes k ≡ slice.now) }
        ensures too_long { (result ≡ None) ↔ (N < length slice.now) }
    {
        if slice.len() > N {
            return None;
        }
        Some(Self::from_two(slice, &[]))
    }

    /// Returns the key with the bytes of `s`, `None` if these are more than `N`.
    pub fn try_from_str(s: &str) -> Option<Self>
        ensures key { IfSome result (λ k. array_key_bytes k ≡ s.now) }
        ensures too_long { (result ≡ None) ↔ (N < length s.now) }
    {
        Self::try_from_slice(s.as_bytes())
    }

    /// Returns the key with the bytes of `s`, which must have at most `N`.
    pub fn new_from_str(s: &str) -> Self
        requires { length s.now ≤ N }
        ensures { array_key_bytes result ≡ s.now }
    {
        prove!(s.len() <= N);
        Self::from_two(s.as_bytes(), &[])
    }

    /// Returns the key with the bytes of `s`, which must have at most `N`.
    pub fn new_from_string(s: &String) -> Self
        requires { string_len s.now ≤ N }
        ensures { array_key_bytes result ≡ string_bytes s.now }
    {
        Self::new_from_str(s.as_str())
    }

    /// Returns the key with the bytes of `s` followed by a zero byte. Both must fit in `N` bytes. Of texts without
    /// zero bytes, no such key is a proper prefix of another.
    pub fn new_from_str_terminated(s: &str) -> Self
        requires { length s.now + 1 ≤ N }
        ensures { array_key_bytes result ≡ s.now ++ 0 ∷ [] }
    {
        prove!(s.len() < N);
        Self::from_two(s.as_bytes(), &CLOSING_ZERO)
    }

    /// Returns the key with all `S` bytes of `arr`. `S` must be at most `N`.
    pub fn new_from_array<const S: usize>(arr: [u8; S]) -> Self
        requires { S ≤ N }
        ensures { array_key_bytes result ≡ arr.entry }
    {
        prove!(S <= N);
        Self::from_two(&arr, &[])
    }
}
