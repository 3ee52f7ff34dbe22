//! Parts in arrays around 64 KiB. Up to there the length of a part is stored; in a larger array its end is marked.
ghost use Rattle.std.specs.Prelude.{length};
ghost use Rattle.rart_keys.specs.KeyBytes.{IsWithin};

use crate::compare::expect_eq;
use rart_keys::{ArrPartial, Partial};
use std::test::Fail;

/// Lengths around those that one byte and two bytes can count.
static LENGTHS: [usize; 9] = [0, 1, 2, 255, 256, 65_534, 65_535, 65_536, 65_537];

// Returns whether a part of these bytes has them, and their length.
fn is_kept<P: Partial>(bytes: &[u8]) -> bool
    requires within { IsWithin P.MAXIMUM_SIZE (length bytes.now) }
{
    let part = P::from_slice(bytes);
    part.len() == bytes.len() && part.to_slice() == bytes
}

// Returns the first length that a part can have, and at which it doesn't have the first bytes of `bytes`.
fn first_wrong<P: Partial>(bytes: &[u8]) -> Option<usize> {
    let Some(most) = P::MAXIMUM_SIZE else {
        return Some(0);
    };
    for &len in &LENGTHS {
        if len <= most && len <= bytes.len() && !is_kept::<P>(&bytes[..len]) {
            return Some(len);
        }
    }
    None
}

// Returns the first wrong length in each of three arrays: one whose length two bytes hold, and two larger ones.
fn first_wrong_of_each(bytes: &[u8]) -> [Option<usize>; 3] {
    [
        first_wrong::<ArrPartial<65_535>>(bytes),
        first_wrong::<ArrPartial<65_536>>(bytes),
        first_wrong::<ArrPartial<65_537>>(bytes),
    ]
}

#[test]
fn a_part_of_zeros_has_its_length_in_an_array_around_64_kib(rt: HostRuntime) -> Result<(), Fail> {
    let bytes = vec![in rt.alloc(); 0; 65_537]?;
    expect_eq(&rt, first_wrong_of_each(&bytes), [None; 3]);
    Ok(())
}

#[test]
fn a_part_of_marks_has_its_length_in_an_array_around_64_kib(rt: HostRuntime) -> Result<(), Fail> {
    let bytes = vec![in rt.alloc(); 1; 65_537]?;
    expect_eq(&rt, first_wrong_of_each(&bytes), [None; 3]);
    Ok(())
}
