//! Sets of small numbers, one bit each, which a contract reads as a membership test.

mod ones;
mod set;
mod word;

ghost use Rattle.std.specs.Prelude.{◌≡◌, ℕ, ◌<◌, ◌≤◌, ◌*◌, ◌^◌, ◌||◌, ◌&&◌, ◌↔◌, ◌==◌, not, Bool, false, length};
ghost use Rattle.std.specs.Prelude.{IsTrue};
ghost use Rattle.rart_parts.specs.Bits.{IsFirst, IsLast, IsMask, members};

pub use ones::BitsetOnesIter;
pub use set::Bitset;
pub use word::BitsetWord;

/// Holds positions below a capacity.
pub trait BitsetTrait: Default + Drop {
    ghost BIT_SHIFT: { ℕ };

    ghost STORAGE_BIT_WIDTH: { ℕ };

    ghost STORAGE_WORDS: { ℕ };

    ghost CAPACITY: { ℕ };

    ghost has: { Self → ℕ → Bool };

    /// The base-two logarithm of the number of bits of a word.
    const BIT_SHIFT: usize;

    /// The number of bits of a word.
    const STORAGE_BIT_WIDTH: usize;

    /// The number of words.
    const STORAGE_WORDS: usize;

    /// Returns the least position below the capacity that is not in the set.
    fn first_empty(&self) -> Option<usize>
        requires { CAPACITY < 2 ^ 64 }
        ensures { IsFirst (λ k. not (has self.now k)) CAPACITY result };

    /// Returns the least position in the set.
    fn first_set(&self) -> Option<usize>
        requires { CAPACITY < 2 ^ 64 }
        ensures { IsFirst (has self.now) CAPACITY result };

    /// Returns the greatest position in the set.
    fn last(&self) -> Option<usize>
        requires { CAPACITY < 2 ^ 64 }
        ensures { IsLast (has self.now) CAPACITY result };

    /// Inserts a position.
    fn set(&mut self, position: usize)
        requires { position < CAPACITY }
        ensures { (k : ℕ) → k < CAPACITY → has self.new k ≡ ((k == position) || has self.old k) };

    /// Removes a position.
    fn unset(&mut self, position: usize)
        requires { position < CAPACITY }
        ensures { (k : ℕ) → k < CAPACITY
            → has self.new k ≡ (not (k == position) && has self.old k) };

    /// Returns whether a position is in the set.
    fn check(&self, position: usize) -> bool
        requires { position < CAPACITY }
        ensures { result ≡ has self.now position };

    /// Removes all positions.
    fn clear(&mut self)
        ensures { (k : ℕ) → k < CAPACITY → has self.new k ≡ false };

    /// Returns whether the set has no position.
    fn is_empty(&self) -> bool
        ensures { IsTrue result ↔ ((k : ℕ) → k < CAPACITY → has self.now k ≡ false) };

    /// Returns the number of positions in the set.
    fn size(&self) -> usize
        requires { CAPACITY < 2 ^ 64 }
        ensures { result ≡ length (members (has self.now) CAPACITY) };

    /// Returns the number of bits of a word.
    fn bit_width(&self) -> usize
        ensures { result ≡ STORAGE_BIT_WIDTH }
    {
        Self::STORAGE_BIT_WIDTH
    }

    /// Returns the capacity. All positions are below it.
    fn capacity(&self) -> usize
        requires { CAPACITY < 2 ^ 64 }
        ensures { result ≡ CAPACITY };

    /// Returns the number of words.
    fn storage_width(&self) -> usize
        ensures { result ≡ STORAGE_WORDS }
    {
        Self::STORAGE_WORDS
    }

    /// Returns the positions below 128 as the bits of a number.
    fn as_bitmask(&self) -> u128
        ensures { IsMask (has self.now) CAPACITY result };

    ghost empty: { (b : Self) → Self.is_default b → (k : ℕ) → k < CAPACITY → has b k ≡ false };

    ghost capacity_is: { CAPACITY ≡ STORAGE_WORDS * STORAGE_BIT_WIDTH };

    ghost width_is: { 2 ^ BIT_SHIFT ≡ STORAGE_BIT_WIDTH };

    ghost least_shift: { 3 ≤ BIT_SHIFT };

    ghost greatest_shift: { BIT_SHIFT ≤ 6 };
}

/// A set in words of 8 bits.
pub type Bitset8<const WORDS: usize> = Bitset<u8, WORDS>;

/// A set in words of 16 bits.
pub type Bitset16<const WORDS: usize> = Bitset<u16, WORDS>;

/// A set in words of 32 bits.
pub type Bitset32<const WORDS: usize> = Bitset<u32, WORDS>;

/// A set in words of 64 bits.
pub type Bitset64<const WORDS: usize> = Bitset<u64, WORDS>;
