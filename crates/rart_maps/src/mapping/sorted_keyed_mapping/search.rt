//! Searches among ascending keys, of which those in use come first.
ghost use Rattle.std.specs.Prelude.{◌↔◌, ◌≤◌, IsTrue};
ghost use Rattle.rart_parts.specs.Keys.{IsAscendingBelow, IsFirstAbove, IsPlaceOf};
ghost use Rattle.rart_maps.specs.SortedKeyed.{IsPadded};
ghost use Rattle.rart_maps.specs.Bounds.{IsFirstNotBelow, bound_of};

use rart_parts::utils::u8_keys::keys_are_bytes;

/// Returns the place of a key among the first `count`, which ascend, where the others are 255.
#[inline(always)]
pub(in crate::mapping) fn place_of<const W: usize>(
    key: u8,
    keys: &[u8; W],
    count: usize,
) -> Option<usize>
    requires at_most { count ≤ W }
    requires ascending { IsAscendingBelow keys.now count }
    requires padded { IsPadded keys.now count W }
    ensures { IsPlaceOf keys.now count key result }
{
    let above = first_above(key, keys, count);
    if above > 0 && keys[above - 1] == key {
        Some(above - 1)
    } else {
        None
    }
}

/// Returns whether no key of the first `count`, which ascend, is above `key`.
#[inline(always)]
pub(in crate::mapping) fn goes_last<const W: usize>(key: u8, keys: &[u8; W], count: usize) -> bool
    requires at_most { count ≤ W }
    requires ascending { IsAscendingBelow keys.now count }
    ensures { IsTrue result ↔ IsFirstAbove keys.now count key count }
{
    count == 0 || keys[count - 1] <= key
}

/// Returns the first place among the first `count` keys, which ascend, whose key is above; `count` where there is none.
// The other keys are 255, so it is found without a branch: as many keys of all are not above.
#[inline(always)]
pub(in crate::mapping) fn first_above<const W: usize>(
    key: u8,
    keys: &[u8; W],
    count: usize,
) -> usize
    requires at_most { count ≤ W }
    requires ascending { IsAscendingBelow keys.now count }
    requires padded { IsPadded keys.now count W }
    ensures { IsFirstAbove keys.now count key result }
{
    keys_are_bytes(keys);
    let mut place = 0;
    for i in 0..W {
        if keys[i] <= key {
            place += 1;
        }
    }
    if place < count { place } else { count }
}

/// Returns the first place among the first `count` keys, which ascend, whose key is not below `above`; `count` where
/// there is none. No key is at or above `None`.
#[inline(always)]
pub(in crate::mapping) fn first_not_below<const W: usize>(
    above: Option<u8>,
    keys: &[u8; W],
    count: usize,
) -> usize
    requires at_most { count ≤ W }
    requires ascending { IsAscendingBelow keys.now count }
    requires padded { IsPadded keys.now count W }
    ensures { IsFirstNotBelow keys.now count (bound_of above) result }
{
    keys_are_bytes(keys);
    match above {
        None => count,
        Some(0) => 0,
        Some(byte) => first_above(byte - 1, keys, count),
    }
}
