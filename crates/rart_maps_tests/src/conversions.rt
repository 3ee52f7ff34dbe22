//! Conversions of maps: whole and in order, with the source emptied; refused, the source is unchanged.

use crate::mappings::{fill, lends};
use rart_maps::mapping::{
    DirectMapping, IndexedMapping, KeyedMapping, NodeMapping, SortedKeyedMapping,
};
use rart_parts::TreeError;
use rart_parts::utils::bitset::{Bitset16, Bitset32};
use rart_test_tools::refusals::{part_ends, refuse, was_refused};
use std::alloc::Global;
use std::test::Fail;

type Sorted16 = SortedKeyedMapping<u8, 16>;

type Sorted24 = SortedKeyedMapping<u8, 24>;

type Keyed16 = KeyedMapping<u8, 16, Bitset16<1>>;

type Keyed32 = KeyedMapping<u8, 32, Bitset32<1>>;

type Indexed48 = IndexedMapping<u8, 48, Bitset16<3>>;

type Direct256 = DirectMapping<u8>;

const SCATTERED: [u8; 16] = [
    200, 3, 47, 17, 129, 255, 0, 9, 31, 250, 128, 64, 65, 1, 254, 127,
];

const ASCENDING: [u8; 16] = [
    0, 1, 3, 9, 17, 31, 47, 64, 65, 127, 128, 129, 200, 250, 254, 255,
];

// Whether those bytes and no other have a child, each itself.
fn has_all<const W: usize>(map: &impl NodeMapping<u8, W>) -> bool {
    for key in 0..=255_u8 {
        let child = ASCENDING.contains(&key).then_some(key);
        if map.seek_child(key).copied() != child {
            return false;
        }
    }
    map.num_children() == 16
}

fn has_none<const W: usize>(map: &impl NodeMapping<u8, W>) -> bool {
    for key in 0..=255_u8 {
        if map.seek_child(key).is_some() {
            return false;
        }
    }
    map.num_children() == 0
}

/// A map of at least sixteen children.
trait Made: Sized {
    fn made(alloc: Global) -> Result<Self, TreeError>;

    /// Whether its walk gives the bytes in order. A map without a public walk has none that does not.
    fn is_in_order(&self) -> bool;
}

impl Made for Sorted16 {
    fn made(alloc: Global) -> Result<Self, TreeError> {
        Sorted16::new(alloc)
    }

    fn is_in_order(&self) -> bool {
        lends(self.iter(), &ASCENDING)
    }
}

impl Made for Sorted24 {
    fn made(alloc: Global) -> Result<Self, TreeError> {
        Sorted24::new(alloc)
    }

    fn is_in_order(&self) -> bool {
        lends(self.iter(), &ASCENDING)
    }
}

impl Made for Keyed16 {
    fn made(alloc: Global) -> Result<Self, TreeError> {
        Keyed16::new(alloc)
    }

    fn is_in_order(&self) -> bool {
        true
    }
}

impl Made for Keyed32 {
    fn made(alloc: Global) -> Result<Self, TreeError> {
        Keyed32::new(alloc)
    }

    fn is_in_order(&self) -> bool {
        true
    }
}

impl Made for Indexed48 {
    fn made(alloc: Global) -> Result<Self, TreeError> {
        Indexed48::new(alloc)
    }

    fn is_in_order(&self) -> bool {
        lends(self.iter(), &ASCENDING)
    }
}

impl Made for Direct256 {
    fn made(alloc: Global) -> Result<Self, TreeError> {
        Direct256::new(alloc)
    }

    fn is_in_order(&self) -> bool {
        lends(self.iter(), &ASCENDING)
    }
}

/// A map that another is converted to. More than sixteen children are answered with `Full`.
trait From16<S>: Made {
    fn converted(alloc: Global, source: &mut S) -> Result<Self, TreeError>;
}

impl From16<Sorted16> for Sorted24 {
    fn converted(alloc: Global, source: &mut Sorted16) -> Result<Self, TreeError> {
        if source.num_children() > 16 {
            return Err(TreeError::Full);
        }
        Sorted24::from_resized(alloc, source)
    }
}

impl From16<Sorted24> for Sorted16 {
    fn converted(alloc: Global, source: &mut Sorted24) -> Result<Self, TreeError> {
        if source.num_children() > 16 {
            return Err(TreeError::Full);
        }
        Sorted16::from_resized(alloc, source)
    }
}

impl From16<Indexed48> for Sorted16 {
    fn converted(alloc: Global, source: &mut Indexed48) -> Result<Self, TreeError> {
        if source.num_children() > 16 {
            return Err(TreeError::Full);
        }
        Sorted16::from_indexed(alloc, source)
    }
}

impl From16<Keyed16> for Keyed32 {
    fn converted(alloc: Global, source: &mut Keyed16) -> Result<Self, TreeError> {
        Keyed32::from_resized_grow(alloc, source)
    }
}

impl From16<Sorted16> for Indexed48 {
    fn converted(alloc: Global, source: &mut Sorted16) -> Result<Self, TreeError> {
        if source.num_children() > 16 {
            return Err(TreeError::Full);
        }
        Indexed48::from_sorted_keyed(alloc, source)
    }
}

impl From16<Keyed16> for Indexed48 {
    fn converted(alloc: Global, source: &mut Keyed16) -> Result<Self, TreeError> {
        if source.num_children() > 16 {
            return Err(TreeError::Full);
        }
        Indexed48::from_keyed(alloc, source)
    }
}

impl From16<Direct256> for Indexed48 {
    fn converted(alloc: Global, source: &mut Direct256) -> Result<Self, TreeError> {
        if source.num_children() > 16 {
            return Err(TreeError::Full);
        }
        Indexed48::from_direct(alloc, source)
    }
}

impl From16<Indexed48> for Direct256 {
    fn converted(alloc: Global, source: &mut Indexed48) -> Result<Self, TreeError> {
        Direct256::from_indexed(alloc, source)
    }
}

// Each request of a new map refused in turn.
fn new_refused<const W: usize, M: NodeMapping<u8, W> + Made + Drop>(alloc: Global) -> bool {
    for at in 1..100_usize {
        refuse(alloc, at);
        let answer = M::made(alloc);
        let refused = was_refused(alloc);
        match answer {
            Ok(map) => {
                part_ends(alloc);
                return !refused && has_none(&map);
            }
            Err(error) => {
                if !refused || error != TreeError::Memory {
                    return false;
                }
            }
        }
    }
    false
}

#[test]
fn new_mappings_refused_in_turn(rt: HostRuntime) {
    let alloc = rt.alloc();
    let sorted = new_refused::<16, Sorted16>(alloc) && new_refused::<16, Keyed16>(alloc);
    assert!(rt;
        sorted && new_refused::<48, Indexed48>(alloc) && new_refused::<256, Direct256>(alloc)
    );
}

// Each request of a conversion of sixteen children refused in turn: they stay in the source, and all move, in order,
// once there is memory.
fn refused_in_turn<
    const U: usize,
    const W: usize,
    S: NodeMapping<u8, U> + Made + Drop,
    T: NodeMapping<u8, W> + From16<S> + Drop,
>(alloc: Global) -> bool {
    let Ok(mut source) = S::made(alloc) else {
        return false;
    };
    if !fill(&mut source, &SCATTERED) {
        return false;
    }
    for at in 1..100_usize {
        refuse(alloc, at);
        let answer = T::converted(alloc, &mut source);
        let refused = was_refused(alloc);
        match answer {
            Ok(map) => {
                part_ends(alloc);
                return !refused && has_all(&map) && map.is_in_order() && has_none(&source);
            }
            Err(error) => {
                if !refused
                    || error != TreeError::Memory
                    || !has_all(&source)
                    || !source.is_in_order()
                {
                    return false;
                }
            }
        }
    }
    false
}

#[test]
fn conversions_of_sorted_maps_refused_in_turn_keep_the_children(rt: HostRuntime) {
    let alloc = rt.alloc();
    let resized = refused_in_turn::<16, 24, Sorted16, Sorted24>(alloc)
        && refused_in_turn::<24, 16, Sorted24, Sorted16>(alloc);
    assert!(rt; resized && refused_in_turn::<16, 48, Sorted16, Indexed48>(alloc));
}

#[test]
fn conversions_of_indexed_and_direct_maps_refused_in_turn_keep_the_children(rt: HostRuntime) {
    let alloc = rt.alloc();
    let indexed = refused_in_turn::<48, 16, Indexed48, Sorted16>(alloc)
        && refused_in_turn::<48, 256, Indexed48, Direct256>(alloc);
    assert!(rt; indexed && refused_in_turn::<256, 48, Direct256, Indexed48>(alloc));
}

#[test]
fn conversions_of_keyed_maps_refused_in_turn_keep_the_children(rt: HostRuntime) {
    let alloc = rt.alloc();
    let resized = refused_in_turn::<16, 32, Keyed16, Keyed32>(alloc);
    assert!(rt; resized && refused_in_turn::<16, 48, Keyed16, Indexed48>(alloc));
}

fn is_empty<const W: usize>(map: &impl NodeMapping<u8, W>) -> bool {
    map.num_children() == 0
}

#[test]
fn five_scattered_children_are_converted_in_the_order_of_their_bytes(
    rt: HostRuntime,
) -> Result<(), Fail> {
    let alloc = rt.alloc();
    let mut sorted = Sorted16::new(alloc)?;
    assert!(rt; fill(&mut sorted, &[17, 3, 47, 9, 31]));
    let indexed = Indexed48::converted(alloc, &mut sorted)?;
    assert!(rt; is_empty(&sorted) && lends(indexed.iter(), &[3, 9, 17, 31, 47]));
    let mut indexed = Indexed48::new(alloc)?;
    assert!(rt; fill(&mut indexed, &[200, 3, 47, 17, 129]));
    let direct = Direct256::converted(alloc, &mut indexed)?;
    assert!(rt; is_empty(&indexed) && lends(direct.iter(), &[3, 17, 47, 129, 200]));
    Ok(())
}
