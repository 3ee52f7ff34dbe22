//! Conversions of numbers to keys, which order as their numbers do, and back.

// A key holds the big-endian bytes of its number, with the sign bit of a signed number flipped.

ghost use Rattle.std.specs.Prelude.{◌≡◌, ◌≤◌, take};
ghost use Rattle.std.specs.Int.{w8, w16, w32, w64, w128, to_be_bytes};
ghost use Rattle.rart_keys.specs.ArrayKeyBytes.{array_key_bytes};
ghost use Rattle.rart_keys.specs.NumberBytes.{sign_flipped, big_endian_number};

use crate::keys::array_key::ArrayKey;

/// The number of bytes of a `u64`.
const U64_BYTES: usize = 8;

impl<const N: usize> ArrayKey<N> {
    /// Returns the byte of `x`. `N` must be at least 1.
    pub fn from_u8(x: u8) -> Self
        requires { 1 ≤ N }
        ensures { array_key_bytes result ≡ to_be_bytes w8 x }
    {
        prove!(1 <= N);
        Self::from_two(&u8::to_be_bytes(x), &[])
    }

    /// Returns the 2 big-endian bytes of `x`. `N` must be at least 2.
    pub fn from_u16(x: u16) -> Self
        requires { 2 ≤ N }
        ensures { array_key_bytes result ≡ to_be_bytes w16 x }
    {
        prove!(2 <= N);
        Self::from_two(&u16::to_be_bytes(x), &[])
    }

    /// Returns the 4 big-endian bytes of `x`. `N` must be at least 4.
    pub fn from_u32(x: u32) -> Self
        requires { 4 ≤ N }
        ensures { array_key_bytes result ≡ to_be_bytes w32 x }
    {
        prove!(4 <= N);
        Self::from_two(&u32::to_be_bytes(x), &[])
    }

    /// Returns the 8 big-endian bytes of `x`. `N` must be at least 8.
    pub fn from_u64(x: u64) -> Self
        requires { 8 ≤ N }
        ensures { array_key_bytes result ≡ to_be_bytes w64 x }
    {
        prove!(8 <= N);
        Self::from_two(&u64::to_be_bytes(x), &[])
    }

    /// Returns the 16 big-endian bytes of `x`. `N` must be at least 16.
    pub fn from_u128(x: u128) -> Self
        requires { 16 ≤ N }
        ensures { array_key_bytes result ≡ to_be_bytes w128 x }
    {
        prove!(16 <= N);
        Self::from_two(&u128::to_be_bytes(x), &[])
    }

    /// Returns the 8 big-endian bytes of `x`. `N` must be at least 8.
    pub fn from_usize(x: usize) -> Self
        requires { 8 ≤ N }
        ensures { array_key_bytes result ≡ to_be_bytes w64 x }
    {
        prove!(8 <= N);
        Self::from_two(&usize::to_be_bytes(x), &[])
    }

    /// Returns the byte of `x` with its sign bit flipped. `N` must be at least 1.
    pub fn from_i8(x: i8) -> Self
        requires { 1 ≤ N }
        ensures { array_key_bytes result ≡ to_be_bytes w8 (sign_flipped w8 x) }
    {
        Self::from_u8(x.cast_unsigned() ^ (1 << 7))
    }

    /// Returns the 2 big-endian bytes of `x` with its sign bit flipped. `N` must be at least 2.
    pub fn from_i16(x: i16) -> Self
        requires { 2 ≤ N }
        ensures { array_key_bytes result ≡ to_be_bytes w16 (sign_flipped w16 x) }
    {
        Self::from_u16(x.cast_unsigned() ^ (1 << 15))
    }

    /// Returns the 4 big-endian bytes of `x` with its sign bit flipped. `N` must be at least 4.
    pub fn from_i32(x: i32) -> Self
        requires { 4 ≤ N }
        ensures { array_key_bytes result ≡ to_be_bytes w32 (sign_flipped w32 x) }
    {
        Self::from_u32(x.cast_unsigned() ^ (1 << 31))
    }

    /// Returns the 8 big-endian bytes of `x` with its sign bit flipped. `N` must be at least 8.
    pub fn from_i64(x: i64) -> Self
        requires { 8 ≤ N }
        ensures { array_key_bytes result ≡ to_be_bytes w64 (sign_flipped w64 x) }
    {
        Self::from_u64(x.cast_unsigned() ^ (1 << 63))
    }

    /// Returns the 16 big-endian bytes of `x` with its sign bit flipped. `N` must be at least 16.
    pub fn from_i128(x: i128) -> Self
        requires { 16 ≤ N }
        ensures { array_key_bytes result ≡ to_be_bytes w128 (sign_flipped w128 x) }
    {
        Self::from_u128(x.cast_unsigned() ^ (1 << 127))
    }

    /// Returns the 8 big-endian bytes of `x` with its sign bit flipped. `N` must be at least 8.
    pub fn from_isize(x: isize) -> Self
        requires { 8 ≤ N }
        ensures { array_key_bytes result ≡ to_be_bytes w64 (sign_flipped w64 x) }
    {
        Self::from_usize(x.cast_unsigned() ^ (1 << 63))
    }

    /// Returns the first eight bytes, or all of a shorter key, as a big-endian number. The empty key yields 0.
    pub fn to_be_u64(&self) -> u64
        ensures { result ≡ big_endian_number (take U64_BYTES (array_key_bytes self.now)) }
    {
        let bytes = self.as_slice();
        let mut number = 0;
        for byte in &bytes[..bytes.len().min(U64_BYTES)] {
            number = number * 256 + *byte as u64;
        }
        number
    }
}
