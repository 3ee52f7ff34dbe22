//! Look-ups, and numbers of pairs.
ghost use Rattle.std.specs.Prelude.{◌≡◌, ◌≤◌, length, IsTrue};
ghost use Rattle.rart_keys.specs.Joins.{join};
ghost use Rattle.rart_keys.specs.SortedMap.{lookup};
ghost use Rattle.rart_c.specs.Answers.{Finds, FindsLongest};

use crate::map32::handle::{Rart32, give, take};
use std::alloc::Global;

/// Writes the value at a key, and returns whether the key is stored. The key may be of any length.
#[unsafe(no_mangle)]
pub extern "C" fn rart32_get(map: &mut Rart32, alloc: Global, key: &[u8], value: &mut u64) -> bool
    ensures found { Finds (λ v. v) (lookup key.now map.old.held.tree.pairs)
        value.old value.new result }
    ensures same { map.new.held ≡ map.old.held }
{
    let Some(held) = take(map, alloc) else {
        return false;
    };
    let found = match held.tree.get_bytes(key) {
        Some(at_key) => {
            *value = *at_key;
            true
        }
        None => false,
    };
    give(map, alloc, held);
    found
}

/// Writes the length and the value of the longest key that begins `probe`, and returns whether there is one. The probe
/// may be of any length.
#[unsafe(no_mangle)]
pub extern "C" fn rart32_longest_prefix(
    map: &mut Rart32,
    alloc: Global,
    probe: &[u8],
    len: &mut usize,
    value: &mut u64,
) -> bool
    ensures found { FindsLongest probe.now map.old.held.tree.pairs
        (len.old, value.old) (len.new, value.new) result }
    ensures at_most { IsTrue result → len.new ≤ length probe.now }
    ensures same { map.new.held ≡ map.old.held }
{
    let Some(held) = take(map, alloc) else {
        return false;
    };
    let found = match held.tree.longest_prefix_len_bytes(probe) {
        Some((bytes, at_key)) => {
            *len = bytes;
            *value = *at_key;
            true
        }
        None => false,
    };
    give(map, alloc, held);
    found
}

/// Returns the number of pairs.
#[unsafe(no_mangle)]
pub extern "C" fn rart32_len(map: &mut Rart32, alloc: Global) -> usize
    ensures value { result ≡ length map.old.held.tree.pairs }
    ensures same { map.new.held ≡ map.old.held }
{
    let Some(held) = take(map, alloc) else {
        return 0;
    };
    let len = held.tree.len();
    give(map, alloc, held);
    len
}

/// Returns the number of keys that two maps have both. They must not be the same handle.
#[unsafe(no_mangle)]
pub extern "C" fn rart32_intersect_count(
    map: &mut Rart32,
    other: &mut Rart32,
    alloc: Global,
) -> usize
    ensures value { result ≡ length (join map.old.held.tree.pairs other.old.held.tree.pairs) }
    ensures same { map.new.held ≡ map.old.held }
    ensures other_same { other.new.held ≡ other.old.held }
{
    let Some(held) = take(map, alloc) else {
        return 0;
    };
    let count = match take(other, alloc) {
        Some(other_held) => {
            let count = held.tree.intersect_count(&other_held.tree);
            give(other, alloc, other_held);
            count
        }
        None => 0,
    };
    give(map, alloc, held);
    count
}
