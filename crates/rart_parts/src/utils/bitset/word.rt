//! Words of bits: the unsigned integers of 8 to 64 bits, which contracts read as numbers.
ghost use Rattle.std.specs.Prelude.{◌≡◌, ℕ, ◌<◌, ◌≤◌, ◌^◌, ◌||◌, ◌&&◌, not, ◌==◌, nat_le, refl, length};
ghost use Rattle.std.proofs.Common.{arith};
ghost use Rattle.rart_parts.specs.Bits.{has_bit, IsFirst, IsLast, members};

/// Reads and writes single bits of a word. Position 0 is the lowest bit.
pub trait BitsetWord: Copy {
    ghost SHIFT: { ℕ };

    ghost WIDTH: { ℕ };

    ghost number: { Self → ℕ };

    /// The base-two logarithm of the number of bits.
    const SHIFT: usize;

    /// The number of bits.
    const WIDTH: usize;

    /// Returns the word as a number.
    fn to_u64(self) -> u64
        ensures number_kept { result ≡ number self }
        ensures fits { result < 2 ^ WIDTH };

    /// Returns the word of a number below `2^WIDTH`.
    fn from_u64(bits: u64) -> Self
        requires { bits < 2 ^ WIDTH }
        ensures { number result ≡ bits };

    /// Returns whether a bit is set.
    fn test(self, at: usize) -> bool
        requires { at < WIDTH }
        ensures { result ≡ has_bit (number self) at }
    {
        self.to_u64() & (1 << at) != 0
    }

    /// Returns the word with one bit set.
    fn with(self, at: usize) -> Self
        requires { at < WIDTH }
        ensures { (k : ℕ) → k < WIDTH
            → has_bit (number result) k ≡ ((k == at) || has_bit (number self) k) }
    {
        Self::from_u64(self.to_u64() | (1 << at))
    }

    /// Returns the word with one bit cleared.
    fn without(self, at: usize) -> Self
        requires { at < WIDTH }
        ensures { (k : ℕ) → k < WIDTH
            → has_bit (number result) k ≡ (not (k == at) && has_bit (number self) k) }
    {
        Self::from_u64(self.to_u64() & !(1 << at))
    }

    /// Returns the word without the bits below `from`.
    fn without_low(self, from: usize) -> Self
        requires { from ≤ WIDTH }
        ensures { (k : ℕ) → k < WIDTH
            → has_bit (number result) k ≡ (nat_le from k && has_bit (number self) k) }
    {
        Self::from_u64(high_bits(self.to_u64(), from))
    }

    /// Returns the position of the lowest set bit.
    fn lowest(self) -> Option<usize>
        ensures { IsFirst (has_bit (number self)) WIDTH result }
    {
        let bits = self.to_u64();
        if bits == 0 {
            None
        } else {
            Some(bits.trailing_zeros() as usize)
        }
    }

    /// Returns the position of the lowest clear bit.
    fn lowest_unset(self) -> Option<usize>
        ensures { IsFirst (λ k. not (has_bit (number self) k)) WIDTH result }
    {
        let bits = self.to_u64();
        if bits == u64::MAX {
            return None;
        }
        let at = bits.trailing_ones() as usize;
        if at < Self::WIDTH { Some(at) } else { None }
    }

    /// Returns the position of the highest set bit.
    fn highest(self) -> Option<usize>
        ensures { IsLast (has_bit (number self)) WIDTH result }
    {
        self.highest_under(Self::WIDTH)
    }

    /// Returns the position of the highest set bit below `above`.
    fn highest_under(self, above: usize) -> Option<usize>
        requires { above ≤ WIDTH }
        ensures { IsLast (has_bit (number self)) above result }
    {
        let low = low_bits(self.to_u64(), above);
        if low == 0 {
            None
        } else {
            Some(63 - low.leading_zeros() as usize)
        }
    }

    /// Returns the number of set bits.
    fn count(self) -> usize
        ensures { result ≡ length (members (has_bit (number self)) WIDTH) }
    {
        self.to_u64().count_ones() as usize
    }

    ghost wide: { 0 < WIDTH };

    ghost narrow: { WIDTH ≤ 64 };

    ghost width_is: { 2 ^ SHIFT ≡ WIDTH };

    ghost least_shift: { 3 ≤ SHIFT };

    ghost greatest_shift: { SHIFT ≤ 6 };
}

/// Returns the bits from `from` on.
fn high_bits(bits: u64, from: usize) -> u64
    requires { from ≤ 64 }
    ensures at_most { result ≤ bits }
    ensures kept { (k : ℕ) → k < 64 → has_bit result k ≡ (nat_le from k && has_bit bits k) }
{
    if from < 64 {
        bits & !((1 << from) - 1)
    } else {
        0
    }
}

/// Returns the bits below `above`.
fn low_bits(bits: u64, above: usize) -> u64
    requires { above ≤ 64 }
    ensures fits { result < 2 ^ above }
    ensures kept { (k : ℕ) → k < above → has_bit result k ≡ has_bit bits k }
{
    if above < 64 {
        bits & ((1 << above) - 1)
    } else {
        bits
    }
}

impl BitsetWord for u8 {
    ghost SHIFT = { 3 };

    ghost WIDTH = { 8 };

    ghost number = { λ n. n };

    ghost wide = { Prim.omega arith };

    ghost narrow = { Prim.omega arith };

    ghost width_is = { refl };

    ghost least_shift = { Prim.omega arith };

    ghost greatest_shift = { Prim.omega arith };

    const SHIFT: usize = 3;

    const WIDTH: usize = 8;

    fn to_u64(self) -> u64 {
        self as u64
    }

    fn from_u64(bits: u64) -> u8 {
        bits as u8
    }
}

impl BitsetWord for u16 {
    ghost SHIFT = { 4 };

    ghost WIDTH = { 16 };

    ghost number = { λ n. n };

    ghost wide = { Prim.omega arith };

    ghost narrow = { Prim.omega arith };

    ghost width_is = { refl };

    ghost least_shift = { Prim.omega arith };

    ghost greatest_shift = { Prim.omega arith };

    const SHIFT: usize = 4;

    const WIDTH: usize = 16;

    fn to_u64(self) -> u64 {
        self as u64
    }

    fn from_u64(bits: u64) -> u16 {
        bits as u16
    }
}

impl BitsetWord for u32 {
    ghost SHIFT = { 5 };

    ghost WIDTH = { 32 };

    ghost number = { λ n. n };

    ghost wide = { Prim.omega arith };

    ghost narrow = { Prim.omega arith };

    ghost width_is = { refl };

    ghost least_shift = { Prim.omega arith };

    ghost greatest_shift = { Prim.omega arith };

    const SHIFT: usize = 5;

    const WIDTH: usize = 32;

    fn to_u64(self) -> u64 {
        self as u64
    }

    fn from_u64(bits: u64) -> u32 {
        bits as u32
    }
}

impl BitsetWord for u64 {
    ghost SHIFT = { 6 };

    ghost WIDTH = { 64 };

    ghost number = { λ n. n };

    ghost wide = { Prim.omega arith };

    ghost narrow = { Prim.omega arith };

    ghost width_is = { refl };

    ghost least_shift = { Prim.omega arith };

    ghost greatest_shift = { Prim.omega arith };

    const SHIFT: usize = 6;

    const WIDTH: usize = 64;

    fn to_u64(self) -> u64 {
        self
    }

    fn from_u64(bits: u64) -> u64 {
        bits
    }
}
