//! Tests that the map's re-exports are the items of the crates below.

use rart::TreeError;
use rart::keys::tail_key::TailKey;
use rart::mapping::{DirectMapping, NodeMapping};
use rart::utils::bitset::{Bitset8, BitsetTrait};
use std::alloc::Global;
use std::test::Fail;

fn is_empty_set(set: &rart_parts::utils::bitset::Bitset8<1>) -> bool {
    set.is_empty()
}

fn is_empty_map(map: &rart_maps::mapping::DirectMapping<u8>) -> bool {
    map.num_children() == 0
}

fn is_empty_key(key: &rart_keys::keys::tail_key::TailKey<4>) -> bool {
    rart_keys::KeyTrait::as_ref(key).is_empty()
}

fn are_theirs(alloc: Global) -> Result<bool, TreeError> {
    let map: DirectMapping<u8> = DirectMapping::new(alloc)?;
    let key: TailKey<4> = rart::KeyTrait::new_from_slice(b"");
    Ok(is_empty_set(&Bitset8::<1>::new()) && is_empty_map(&map) && is_empty_key(&key))
}

#[test]
fn sets_maps_and_keys_are_those_of_the_crates_below(rt: HostRuntime) -> Result<(), Fail> {
    assert!(rt; are_theirs(rt.alloc())?);
    Ok(())
}
