//! The set of the codes that have a target.
ghost use Rattle.std.specs.Prelude.{◌≡◌, ℕ, ◌<◌, ◌^◌};
ghost use Rattle.rart_parts.specs.Bits.{has_bit};
ghost use Rattle.rart_cidr.specs.CodeSets.{IsLongestCode, rank_of};

use crate::bits::{code_len, code_of};
use rart_parts::utils::bitset::{Bitset64, BitsetTrait, BitsetWord};

/// The codes of at most five bits that begin a byte, as the bits of a word, by the first five bits of the byte.
static BEGINNINGS: [u64; 32] = [
    0x0000000100010116,
    0x0000000200010116,
    0x0000000400020116,
    0x0000000800020116,
    0x0000001000040216,
    0x0000002000040216,
    0x0000004000080216,
    0x0000008000080216,
    0x0000010000100426,
    0x0000020000100426,
    0x0000040000200426,
    0x0000080000200426,
    0x0000100000400826,
    0x0000200000400826,
    0x0000400000800826,
    0x0000800000800826,
    0x000100000100104a,
    0x000200000100104a,
    0x000400000200104a,
    0x000800000200104a,
    0x001000000400204a,
    0x002000000400204a,
    0x004000000800204a,
    0x008000000800204a,
    0x010000001000408a,
    0x020000001000408a,
    0x040000002000408a,
    0x080000002000408a,
    0x100000004000808a,
    0x200000004000808a,
    0x400000008000808a,
    0x800000008000808a,
];

// Returns the bits below `above`.
fn low_bits(bits: u64, above: usize) -> u64
    requires { above < 64 }
    ensures fits { result < 2 ^ above }
    ensures kept { (k : ℕ) → k < above → has_bit result k ≡ has_bit bits k }
{
    bits & ((1 << above) - 1)
}

/// Returns the number of codes that are less than `code`.
pub fn rank(codes: &Bitset64<4>, code: u8) -> usize
    ensures { result ≡ rank_of codes.now.words code }
{
    let at = usize::from(code);
    let mut count = 0;
    for i in 0..at / 64 {
        count += codes.words[i].to_u64().count_ones() as usize;
    }
    count + low_bits(codes.words[at / 64], at % 64).count_ones() as usize
}

/// Returns the number of bits of the longest beginning of `byte` that has its code in the set, among those of at most
/// `most` bits.
pub fn longest_bits(codes: &Bitset64<4>, byte: u8, most: usize) -> Option<usize>
    requires { most < 8 }
    ensures { IsLongestCode codes.now.words byte most result }
{
    if most > 6 && codes.check(usize::from(code_of(byte, 7))) {
        return Some(7);
    }
    if most > 5 && codes.check(usize::from(code_of(byte, 6))) {
        return Some(6);
    }
    let beginnings = codes.words[0] & BEGINNINGS[usize::from(byte / 8)];
    let above = if most < 5 { 2 << most } else { 64 };
    match beginnings.highest_under(above) {
        Some(code) => Some(usize::from(code_len(code as u8))),
        None => None,
    }
}
