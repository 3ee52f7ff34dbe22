//! Laws of key order: the order of keys is that of their bytes, of the numbers and of the texts they are made of.
ghost use Rattle.std.specs.Prelude.{◌≡◌, ◌+◌, ◌≤◌, ◌↔◌, ◌++◌, ◌∷◌, [], ℕ, List, length, take, IsTrue};
ghost use Rattle.std.specs.Cmp.Lexicographic.{slice_cmp};
ghost use Rattle.std.specs.Int.{w8, w16, w32, w64, w128, to_be_bytes};
ghost use Rattle.std.specs.Ordering.{nat_cmp, int_cmp};
ghost use Rattle.std.specs.declared.cmp.Ordering.TheVariants.{Equal};
ghost use Rattle.rart_keys.specs.ArrayKeyBytes.{array_key_bytes};
ghost use Rattle.rart_keys.specs.ComparedKeys.{AreComparedAs};
ghost use Rattle.rart_keys.specs.NumberBytes.{big_endian_number, sign_flipped};

use crate::keys::array_key::ArrayKey;
use std::cmp::Ordering;

/// Returns whether two keys are equal, and how they compare. Both depend on the bytes alone.
pub fn equality_and_order<const N: usize>(
    first: &ArrayKey<N>,
    second: &ArrayKey<N>,
) -> (bool, Ordering)
    ensures same_bytes { IsTrue result.0
        ↔ (array_key_bytes first.now ≡ array_key_bytes second.now) }
    ensures ties { IsTrue result.0 ↔ (result.1 ≡ Equal) }
    ensures order { result.1
        ≡ slice_cmp nat_cmp (array_key_bytes first.now) (array_key_bytes second.now) }
{
    (first == second, first.cmp(second))
}

/// Returns the keys of two texts and their order, which is that of the texts. Both must fit in `N` bytes.
pub fn compared_text_keys<const N: usize>(x: &str, y: &str) -> (ArrayKey<N>, ArrayKey<N>, Ordering)
    requires first_fits { length x.now ≤ N }
    requires second_fits { length y.now ≤ N }
    ensures { AreComparedAs result x.now y.now (slice_cmp nat_cmp x.now y.now) }
{
    compared_keys(ArrayKey::new_from_str(x), ArrayKey::new_from_str(y))
}

/// Returns the terminated keys of two texts and their order, which is that of the texts. Both must fit in `N` bytes
/// with their zeros.
pub fn compared_terminated_keys<const N: usize>(
    x: &str,
    y: &str,
) -> (ArrayKey<N>, ArrayKey<N>, Ordering)
    requires first_fits { length x.now + 1 ≤ N }
    requires second_fits { length y.now + 1 ≤ N }
    ensures { AreComparedAs result (x.now ++ 0 ∷ []) (y.now ++ 0 ∷ [])
        (slice_cmp nat_cmp x.now y.now) }
{
    compared_keys(
        ArrayKey::new_from_str_terminated(x),
        ArrayKey::new_from_str_terminated(y),
    )
}

/// Proves that a zero byte at the end of both of two byte strings does not change their order.
pub fn closing_zeros()
    ensures { (xs ys : List ℕ)
        → slice_cmp nat_cmp (xs ++ 0 ∷ []) (ys ++ 0 ∷ []) ≡ slice_cmp nat_cmp xs ys }
{}

/// Returns the keys of two `u8` and their order, which is that of the numbers. `N` must be at least 1.
pub fn compared_u8_keys<const N: usize>(x: u8, y: u8) -> (ArrayKey<N>, ArrayKey<N>, Ordering)
    requires { 1 ≤ N }
    ensures { AreComparedAs result (to_be_bytes w8 x) (to_be_bytes w8 y) (nat_cmp x y) }
{
    compared_keys(ArrayKey::from_u8(x), ArrayKey::from_u8(y))
}

/// Returns the keys of two `u16` and their order, which is that of the numbers. `N` must be at least 2.
pub fn compared_u16_keys<const N: usize>(x: u16, y: u16) -> (ArrayKey<N>, ArrayKey<N>, Ordering)
    requires { 2 ≤ N }
    ensures { AreComparedAs result (to_be_bytes w16 x) (to_be_bytes w16 y) (nat_cmp x y) }
{
    compared_keys(ArrayKey::from_u16(x), ArrayKey::from_u16(y))
}

/// Returns the keys of two `u32` and their order, which is that of the numbers. `N` must be at least 4.
pub fn compared_u32_keys<const N: usize>(x: u32, y: u32) -> (ArrayKey<N>, ArrayKey<N>, Ordering)
    requires { 4 ≤ N }
    ensures { AreComparedAs result (to_be_bytes w32 x) (to_be_bytes w32 y) (nat_cmp x y) }
{
    compared_keys(ArrayKey::from_u32(x), ArrayKey::from_u32(y))
}

/// Returns the keys of two `u64` and their order, which is that of the numbers. `N` must be at least 8.
pub fn compared_u64_keys<const N: usize>(x: u64, y: u64) -> (ArrayKey<N>, ArrayKey<N>, Ordering)
    requires { 8 ≤ N }
    ensures { AreComparedAs result (to_be_bytes w64 x) (to_be_bytes w64 y) (nat_cmp x y) }
{
    compared_keys(ArrayKey::from_u64(x), ArrayKey::from_u64(y))
}

/// Returns the keys of two `u128` and their order, which is that of the numbers. `N` must be at least 16.
pub fn compared_u128_keys<const N: usize>(x: u128, y: u128) -> (ArrayKey<N>, ArrayKey<N>, Ordering)
    requires { 16 ≤ N }
    ensures { AreComparedAs result (to_be_bytes w128 x) (to_be_bytes w128 y) (nat_cmp x y) }
{
    compared_keys(ArrayKey::from_u128(x), ArrayKey::from_u128(y))
}

/// Returns the keys of two `usize` and their order, which is that of the numbers. `N` must be at least 8.
pub fn compared_usize_keys<const N: usize>(
    x: usize,
    y: usize,
) -> (ArrayKey<N>, ArrayKey<N>, Ordering)
    requires { 8 ≤ N }
    ensures { AreComparedAs result (to_be_bytes w64 x) (to_be_bytes w64 y) (nat_cmp x y) }
{
    compared_keys(ArrayKey::from_usize(x), ArrayKey::from_usize(y))
}

/// Returns the keys of two `i8` and their order, which is that of the numbers. `N` must be at least 1.
pub fn compared_i8_keys<const N: usize>(x: i8, y: i8) -> (ArrayKey<N>, ArrayKey<N>, Ordering)
    requires { 1 ≤ N }
    ensures { AreComparedAs result (to_be_bytes w8 (sign_flipped w8 x))
        (to_be_bytes w8 (sign_flipped w8 y)) (int_cmp x y) }
{
    compared_keys(ArrayKey::from_i8(x), ArrayKey::from_i8(y))
}

/// Returns the keys of two `i16` and their order, which is that of the numbers. `N` must be at least 2.
pub fn compared_i16_keys<const N: usize>(x: i16, y: i16) -> (ArrayKey<N>, ArrayKey<N>, Ordering)
    requires { 2 ≤ N }
    ensures { AreComparedAs result (to_be_bytes w16 (sign_flipped w16 x))
        (to_be_bytes w16 (sign_flipped w16 y)) (int_cmp x y) }
{
    compared_keys(ArrayKey::from_i16(x), ArrayKey::from_i16(y))
}

/// Returns the keys of two `i32` and their order, which is that of the numbers. `N` must be at least 4.
pub fn compared_i32_keys<const N: usize>(x: i32, y: i32) -> (ArrayKey<N>, ArrayKey<N>, Ordering)
    requires { 4 ≤ N }
    ensures { AreComparedAs result (to_be_bytes w32 (sign_flipped w32 x))
        (to_be_bytes w32 (sign_flipped w32 y)) (int_cmp x y) }
{
    compared_keys(ArrayKey::from_i32(x), ArrayKey::from_i32(y))
}

/// Returns the keys of two `i64` and their order, which is that of the numbers. `N` must be at least 8.
pub fn compared_i64_keys<const N: usize>(x: i64, y: i64) -> (ArrayKey<N>, ArrayKey<N>, Ordering)
    requires { 8 ≤ N }
    ensures { AreComparedAs result (to_be_bytes w64 (sign_flipped w64 x))
        (to_be_bytes w64 (sign_flipped w64 y)) (int_cmp x y) }
{
    compared_keys(ArrayKey::from_i64(x), ArrayKey::from_i64(y))
}

/// Returns the keys of two `i128` and their order, which is that of the numbers. `N` must be at least 16.
pub fn compared_i128_keys<const N: usize>(x: i128, y: i128) -> (ArrayKey<N>, ArrayKey<N>, Ordering)
    requires { 16 ≤ N }
    ensures { AreComparedAs result (to_be_bytes w128 (sign_flipped w128 x))
        (to_be_bytes w128 (sign_flipped w128 y)) (int_cmp x y) }
{
    compared_keys(ArrayKey::from_i128(x), ArrayKey::from_i128(y))
}

/// Returns the keys of two `isize` and their order, which is that of the numbers. `N` must be at least 8.
pub fn compared_isize_keys<const N: usize>(
    x: isize,
    y: isize,
) -> (ArrayKey<N>, ArrayKey<N>, Ordering)
    requires { 8 ≤ N }
    ensures { AreComparedAs result (to_be_bytes w64 (sign_flipped w64 x))
        (to_be_bytes w64 (sign_flipped w64 y)) (int_cmp x y) }
{
    compared_keys(ArrayKey::from_isize(x), ArrayKey::from_isize(y))
}

/// Returns the key of a number, and the number read back from the key. `N` must be at least 8.
pub fn key_and_number_again<const N: usize>(x: u64) -> (ArrayKey<N>, u64)
    requires { 8 ≤ N }
    ensures key { array_key_bytes result.0 ≡ to_be_bytes w64 x }
    ensures number_of_key { result.1 ≡ big_endian_number (take 8 (array_key_bytes result.0)) }
    ensures again { result.1 ≡ x }
{
    let key = ArrayKey::from_u64(x);
    let again = key.to_be_u64();
    (key, again)
}

// The keys, and how they compare.
fn compared_keys<const N: usize>(
    first: ArrayKey<N>,
    second: ArrayKey<N>,
) -> (ArrayKey<N>, ArrayKey<N>, Ordering)
    ensures { AreComparedAs result (array_key_bytes first.entry) (array_key_bytes second.entry)
        (slice_cmp nat_cmp (array_key_bytes first.entry) (array_key_bytes second.entry)) }
{
    (first, second, first.cmp(&second))
}
