//! The place of a byte among keys.

use crate::compare::expect_eq;
use rart_parts::utils::bitset::{Bitset8, BitsetTrait};
use rart_parts::utils::u8_keys::{
    u8_keys_find_insert_position_sorted, u8_keys_find_key_position,
    u8_keys_find_key_position_sorted,
};

#[test]
fn key_255_is_found_in_used_places_alone(rt: HostRuntime) {
    let mut set = Bitset8::<1>::new();
    set.set(1);
    set.set(2);
    let keys = [255_u8, 255, 5, 255];
    expect_eq(
        &rt,
        u8_keys_find_key_position::<4, _>(255, &keys, &set),
        Some(1),
    );
    expect_eq(
        &rt,
        u8_keys_find_key_position::<4, _>(5, &keys, &set),
        Some(2),
    );
    expect_eq(&rt, u8_keys_find_key_position::<4, _>(7, &keys, &set), None);
}

// Where a key would be inserted among 3, 9 and 17, and where it is.
fn places_of<const WIDTH: usize>(key: u8) -> (Option<usize>, Option<usize>) {
    let keys = [3_u8, 9, 17];
    (
        u8_keys_find_insert_position_sorted::<WIDTH>(key, &keys, 3),
        u8_keys_find_key_position_sorted::<WIDTH>(key, &keys, 3),
    )
}

#[test]
fn keys_are_found_by_halves_and_in_turn(rt: HostRuntime) {
    for (key, want) in [
        (10_u8, (Some(2), None)),
        (20, (Some(3), None)),
        (9, (Some(2), Some(1))),
    ] {
        assert!(rt; places_of::<16>(key) == want);
        assert!(rt; places_of::<4>(key) == want);
    }
}
