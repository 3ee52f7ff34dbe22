//! Sets of positions.
ghost use Rattle.std.specs.Prelude.{◌<◌, ◌^◌};
ghost use Rattle.std.specs.Iterator.{IsFinite};

use rart_parts::utils::bitset::{Bitset8, Bitset16, Bitset32, Bitset64, BitsetTrait};

/// What a set must return once these positions, ascending, are inserted.
#[derive(Clone, Copy)]
struct Facts<'a> {
    positions: &'a [usize],
    first_empty: Option<usize>,
    bitmask: u128,
    capacity: usize,
    bit_width: usize,
    storage_width: usize,
}

// Puts the positions in, from the last to the first, each where it wasn't; whether it did.
fn fill<B: BitsetTrait>(set: &mut B, positions: &[usize]) -> bool
    requires { B.CAPACITY < 2 ^ 64 }
{
    for position in positions.iter().rev() {
        if *position >= set.capacity() || set.check(*position) {
            return false;
        }
        set.set(*position);
    }
    true
}

fn is_measured<B: BitsetTrait>(set: &B, facts: &Facts<'_>) -> bool
    requires { B.CAPACITY < 2 ^ 64 }
{
    set.capacity() == facts.capacity
        && set.bit_width() == facts.bit_width
        && set.storage_width() == facts.storage_width
        && set.size() == facts.positions.len()
        && set.is_empty() == facts.positions.is_empty()
        && set.as_bitmask() == facts.bitmask
}

fn is_found<B: BitsetTrait>(set: &B, facts: &Facts<'_>) -> bool
    requires { B.CAPACITY < 2 ^ 64 }
{
    set.first_empty() == facts.first_empty
        && set.first_set() == facts.positions.first().copied()
        && set.last() == facts.positions.last().copied()
}

// Takes the positions out, each where it was; whether none is then left.
fn is_emptied<B: BitsetTrait>(set: &mut B, positions: &[usize]) -> bool
    requires { B.CAPACITY < 2 ^ 64 }
{
    for position in positions {
        if *position >= set.capacity() || !set.check(*position) {
            return false;
        }
        set.unset(*position);
    }
    set.is_empty()
}

fn gives<I: Iterator<Item = usize> + Drop>(mut walk: I, positions: &[usize]) -> bool
    requires { I.Iterator.can_next walk × IsFinite (I.Iterator.remaining walk) }
{
    for position in positions {
        if walk.next() != Some(*position) {
            return false;
        }
    }
    walk.next().is_none()
}

// Whether an empty set, once the positions are in it, has these facts, and has none of them once it is emptied. It has
// the positions then again.
fn has_facts<B: BitsetTrait>(set: &mut B, facts: &Facts<'_>) -> bool
    requires { B.CAPACITY < 2 ^ 64 }
{
    fill(set, facts.positions)
        && is_measured(set, facts)
        && is_found(set, facts)
        && is_emptied(set, facts.positions)
        && fill(set, facts.positions)
}

fn is_cleared<B: BitsetTrait>(set: &mut B) -> bool
    requires { B.CAPACITY < 2 ^ 64 }
{
    set.clear();
    set.is_empty()
}

/// Whether the set of the positions has these facts, and has none of them once it is emptied, nor once it is cleared.
macro_rules! has {
    ($set:ty, $facts:expr) => {{
        let mut set = <$set>::new();
        has_facts(&mut set, $facts)
            && gives(set.iter(), $facts.positions)
            && is_cleared(&mut set)
    }};
}

const TWO_OF_FOUR_BYTES: Facts<'static> = Facts {
    positions: &[1, 3],
    first_empty: Some(0),
    bitmask: 10,
    capacity: 32,
    bit_width: 8,
    storage_width: 4,
};

const THREE_OF_FOUR_BYTES: Facts<'static> = Facts {
    positions: &[0, 1, 3],
    first_empty: Some(2),
    bitmask: 11,
    capacity: 32,
    bit_width: 8,
    storage_width: 4,
};

const IN_TWO_BYTES: Facts<'static> = Facts {
    positions: &[0, 9],
    first_empty: Some(1),
    bitmask: 513,
    capacity: 16,
    bit_width: 8,
    storage_width: 2,
};

const FULL_BYTES: Facts<'static> = Facts {
    positions: &[
        0, 1, 2, 3, 4, 5, 6, 7, 8, 9, 10, 11, 12, 13, 14, 15, 16, 17, 18, 19, 20, 21, 22, 23, 24,
        25, 26, 27, 28, 29, 30, 31,
    ],
    first_empty: None,
    bitmask: 0xffff_ffff,
    capacity: 32,
    bit_width: 8,
    storage_width: 4,
};

const FULL_WORD: Facts<'static> = Facts {
    positions: &[
        0, 1, 2, 3, 4, 5, 6, 7, 8, 9, 10, 11, 12, 13, 14, 15, 16, 17, 18, 19, 20, 21, 22, 23, 24,
        25, 26, 27, 28, 29, 30, 31,
    ],
    first_empty: None,
    bitmask: 0xffff_ffff,
    capacity: 32,
    bit_width: 32,
    storage_width: 1,
};

const IN_SIXTEENS: Facts<'static> = Facts {
    positions: &[0, 1, 2, 4, 8, 16],
    first_empty: Some(3),
    bitmask: 65815,
    capacity: 64,
    bit_width: 16,
    storage_width: 4,
};

const IN_SIXTY_FOURS: Facts<'static> = Facts {
    positions: &[0, 1, 2, 4, 8, 16, 32, 47, 48, 49, 127],
    first_empty: Some(3),
    bitmask: 0x8000_0000_0000_0000_0003_8001_0001_0117,
    capacity: 256,
    bit_width: 64,
    storage_width: 4,
};

const TO_THE_LAST: Facts<'static> = Facts {
    positions: &[3, 130, 255],
    first_empty: Some(0),
    bitmask: 8,
    capacity: 256,
    bit_width: 64,
    storage_width: 4,
};

#[test]
fn sets_in_words_of_eight_bits(rt: HostRuntime) {
    assert!(rt; has!(Bitset8<4>, &TWO_OF_FOUR_BYTES));
    assert!(rt; has!(Bitset8<4>, &THREE_OF_FOUR_BYTES));
    assert!(rt; has!(Bitset8<2>, &IN_TWO_BYTES));
    assert!(rt; has!(Bitset8<4>, &FULL_BYTES));
}

#[test]
fn sets_in_words_of_sixteen_and_thirty_two_bits(rt: HostRuntime) {
    assert!(rt; has!(Bitset16<4>, &IN_SIXTEENS));
    assert!(rt; has!(Bitset32<1>, &FULL_WORD));
}

#[test]
fn sets_in_words_of_sixty_four_bits(rt: HostRuntime) {
    assert!(rt; has!(Bitset64<4>, &IN_SIXTY_FOURS));
    assert!(rt; has!(Bitset64<4>, &TO_THE_LAST));
}
