//! Children above a byte and under a bound, in the maps whose bytes are a set in words or a slot each.

use crate::mappings::{Indexed48, SCATTERED, fill, lends};
use rart_maps::mapping::{DirectMapping, NodeMapping, SortedKeyedMapping};
use std::test::Fail;

/// A byte, and the scattered bytes above it.
static ABOVE: [(u8, &[u8]); 7] = [
    (2, &[3, 17, 128, 200, 250]),
    (3, &[17, 128, 200, 250]),
    (63, &[128, 200, 250]),
    (128, &[200, 250]),
    (249, &[250]),
    (250, &[]),
    (255, &[]),
];

type Sorted16 = SortedKeyedMapping<u8, 16>;

fn lend_above(sorted: &Sorted16, indexed: &Indexed48, direct: &DirectMapping<u8>) -> bool {
    for (byte, want) in &ABOVE {
        if !lends(sorted.iter_above(*byte), want)
            || !lends(indexed.iter_above(*byte), want)
            || !lends(direct.iter_above(*byte), want)
        {
            return false;
        }
    }
    true
}

/// A bound, and the greatest of the scattered bytes below it.
static LAST_UNDER: [(Option<u8>, Option<u8>); 12] = [
    (None, Some(250)),
    (Some(255), Some(250)),
    (Some(251), Some(250)),
    (Some(250), Some(200)),
    (Some(201), Some(200)),
    (Some(192), Some(128)),
    (Some(128), Some(17)),
    (Some(64), Some(17)),
    (Some(17), Some(3)),
    (Some(4), Some(3)),
    (Some(3), None),
    (Some(0), None),
];

// The byte of a child that is its own.
fn own_byte(found: Option<(u8, &u8)>) -> Option<u8> {
    let (byte, child) = found?;
    (byte == *child).then_some(byte)
}

fn have_last_under(sorted: &Sorted16, indexed: &Indexed48, direct: &DirectMapping<u8>) -> bool {
    for (above, want) in &LAST_UNDER {
        if own_byte(sorted.last_under(*above)) != *want
            || own_byte(indexed.last_under(*above)) != *want
            || own_byte(direct.last_under(*above)) != *want
        {
            return false;
        }
    }
    true
}

#[test]
fn walks_above_a_byte_and_the_last_child_under_a_bound_cross_the_words_of_the_sets(
    rt: HostRuntime,
) -> Result<(), Fail> {
    let alloc = rt.alloc();
    let mut sorted = Sorted16::new(alloc)?;
    let mut indexed = Indexed48::new(alloc)?;
    let mut direct: DirectMapping<u8> = DirectMapping::new(alloc)?;
    let is_empty = sorted.last_under(None).is_none()
        && indexed.last_under(None).is_none()
        && direct.last_under(None).is_none();
    let filled = fill(&mut sorted, &SCATTERED)
        && fill(&mut indexed, &SCATTERED)
        && fill(&mut direct, &SCATTERED);
    assert!(rt; is_empty && filled && lend_above(&sorted, &indexed, &direct));
    assert!(rt; have_last_under(&sorted, &indexed, &direct));
    Ok(())
}
