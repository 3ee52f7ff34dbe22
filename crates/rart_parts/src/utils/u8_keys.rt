//! Searches for a byte among the keys of a node.
ghost use Rattle.std.specs.Prelude.{ℕ, ◌<◌, ◌≤◌, length, slice_index, IsSomeAnd};
ghost use Rattle.rart_parts.specs.Bits.{IsFirst};
ghost use Rattle.rart_parts.specs.Keys.{IsAscendingBelow, IsPlaceOf, IsFirstAbove, is_held};

use crate::utils::bitset::BitsetTrait;

/// Returns the position of `key` among the first `num_children` keys, which ascend.
pub fn u8_keys_find_key_position_sorted<const WIDTH: usize>(
    key: u8,
    keys: &[u8],
    num_children: usize,
) -> Option<usize>
    requires exist { num_children ≤ length keys.now }
    requires ascending { IsAscendingBelow keys.now num_children }
    ensures { IsPlaceOf keys.now num_children key result }
{
    let above = first_above::<WIDTH>(key, keys, num_children);
    if above > 0 && keys[above - 1] == key {
        Some(above - 1)
    } else {
        None
    }
}

/// Returns the first position whose key is above `key` among the first `num_children` keys, which ascend. If there is
/// none, returns `num_children`. The result is never `None`.
pub fn u8_keys_find_insert_position_sorted<const WIDTH: usize>(
    key: u8,
    keys: &[u8],
    num_children: usize,
) -> Option<usize>
    requires exist { num_children ≤ length keys.now }
    requires ascending { IsAscendingBelow keys.now num_children }
    ensures { IsSomeAnd result (IsFirstAbove keys.now num_children key) }
{
    Some(first_above::<WIDTH>(key, keys, num_children))
}

/// Returns the first position that holds `key`. Free slots hold 255, so key 255 must also be in `bitset`.
pub fn u8_keys_find_key_position<const WIDTH: usize, B: BitsetTrait>(
    key: u8,
    keys: &[u8],
    bitset: &B,
) -> Option<usize>
    requires { length keys.now ≤ B.CAPACITY }
    ensures { IsFirst (is_held keys.now key (B.has bitset.now)) (length keys.now) result }
{
    for (place, other) in keys.iter().enumerate() {
        if *other == key && (key != 255 || bitset.check(place)) {
            return Some(place);
        }
    }
    None
}

/// Proves that the elements of an array of bytes are below 256.
pub fn keys_are_bytes(keys: &[u8])
    ensures { (k : ℕ) → slice_index keys.now k ≤ 255 }
{
    let _keys = keys;
}

// By halves where there may be more than four keys.
fn first_above<const WIDTH: usize>(key: u8, keys: &[u8], num_children: usize) -> usize
    requires exist { num_children ≤ length keys.now }
    requires ascending { IsAscendingBelow keys.now num_children }
    ensures { IsFirstAbove keys.now num_children key result }
{
    if WIDTH > 4 {
        first_above_by_halves(key, keys, num_children)
    } else {
        first_above_in_turn(key, keys, num_children)
    }
}

fn first_above_in_turn(key: u8, keys: &[u8], num_children: usize) -> usize
    requires { num_children ≤ length keys.now }
    ensures { IsFirstAbove keys.now num_children key result }
{
    for place in 0..num_children {
        if keys[place] > key {
            return place;
        }
    }
    num_children
}

fn first_above_by_halves(key: u8, keys: &[u8], num_children: usize) -> usize
    requires exist { num_children ≤ length keys.now }
    requires ascending { IsAscendingBelow keys.now num_children }
    ensures { IsFirstAbove keys.now num_children key result }
{
    let mut left = 0;
    let mut right = num_children;
    while left < right {
        let middle = left + (right - left) / 2;
        if keys[middle] <= key {
            left = middle + 1;
        } else {
            right = middle;
        }
    }
    left
}
