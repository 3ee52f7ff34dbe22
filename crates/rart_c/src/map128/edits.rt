//! Insertions and removals.
ghost use Rattle.std.specs.Prelude.{◌≡◌, [], length};
ghost use Rattle.rart_c.specs.Answers.{Inserts, InsertsNew, Removes, RemovesPrefix, status_of};
ghost use Rattle.rart_c.specs.Handles128.{empty_map};

use crate::map128::handle::{Rart128, give, take, take_or_make};
use crate::map128::keys::key_of;
use crate::status::{ABSENT, DONE, FULL, KEY_TOO_LONG, NO_MEMORY, REPLACED, STORED};
use rart::{NotInserted, TreeError};
use std::alloc::Global;

/// Inserts `value` at a key and writes the value that it replaces to `old`.
#[unsafe(no_mangle)]
pub extern "C" fn rart128_insert(
    map: &mut Rart128,
    alloc: Global,
    key: &[u8],
    value: u64,
    old: &mut u64,
) -> u8
    ensures { Inserts 128 key.now value map.old.held.tree.pairs map.new.held.tree.pairs
        old.old old.new (status_of result) }
{
    let Some(key) = key_of(key) else {
        return KEY_TOO_LONG;
    };
    let Ok(mut held) = take_or_make(map, alloc) else {
        return NO_MEMORY;
    };
    let answer = held.tree.insert_k(&key, value);
    give(map, alloc, held);
    match answer {
        Ok(None) => DONE,
        Ok(Some(replaced)) => {
            *old = replaced;
            REPLACED
        }
        Err(refused) => match refused.error {
            TreeError::Memory => NO_MEMORY,
            TreeError::Full => FULL,
        },
    }
}

/// Inserts `value` at a new key; writes the value of a stored key to `stored`, and keeps it.
#[unsafe(no_mangle)]
pub extern "C" fn rart128_try_insert(
    map: &mut Rart128,
    alloc: Global,
    key: &[u8],
    value: u64,
    stored: &mut u64,
) -> u8
    ensures { InsertsNew 128 key.now value map.old.held.tree.pairs map.new.held.tree.pairs
        stored.old stored.new (status_of result) }
{
    let Some(key) = key_of(key) else {
        return KEY_TOO_LONG;
    };
    let Ok(mut held) = take_or_make(map, alloc) else {
        return NO_MEMORY;
    };
    match held.tree.insert_new_k(&key, value) {
        Ok(()) => {
            give(map, alloc, held);
            DONE
        }
        Err(NotInserted::Stored(_)) => {
            let present = match held.tree.get_k(&key) {
                Some(present) => *present,
                None => unreachable!(),
            };
            give(map, alloc, held);
            *stored = present;
            STORED
        }
        Err(NotInserted::Refused(refused)) => {
            give(map, alloc, held);
            match refused.error {
                TreeError::Memory => NO_MEMORY,
                TreeError::Full => FULL,
            }
        }
    }
}

/// Removes a key and writes its value to `old`.
#[unsafe(no_mangle)]
pub extern "C" fn rart128_remove(map: &mut Rart128, alloc: Global, key: &[u8], old: &mut u64) -> u8
    ensures { Removes 128 key.now map.old.held.tree.pairs map.new.held.tree.pairs
        old.old old.new (status_of result) }
{
    let Some(key) = key_of(key) else {
        return KEY_TOO_LONG;
    };
    let Some(mut held) = take(map, alloc) else {
        return ABSENT;
    };
    let answer = held.tree.remove_k(&key);
    give(map, alloc, held);
    match answer {
        Ok(None) => ABSENT,
        Ok(Some(removed)) => {
            *old = removed;
            DONE
        }
        Err(_) => NO_MEMORY,
    }
}

/// Removes all pairs whose key begins with `prefix` and writes their number to `removed`.
#[unsafe(no_mangle)]
pub extern "C" fn rart128_remove_prefix(
    map: &mut Rart128,
    alloc: Global,
    prefix: &[u8],
    removed: &mut usize,
) -> u8
    ensures { RemovesPrefix 128 prefix.now map.old.held.tree.pairs map.new.held.tree.pairs
        removed.old removed.new (status_of result) }
{
    let Some(prefix) = key_of(prefix) else {
        return KEY_TOO_LONG;
    };
    let Some(mut held) = take(map, alloc) else {
        *removed = 0;
        return DONE;
    };
    let answer = held.tree.remove_prefix_k(&prefix);
    give(map, alloc, held);
    match answer {
        Ok(number) => {
            *removed = number;
            DONE
        }
        Err(_) => NO_MEMORY,
    }
}

/// Removes all pairs. The handle keeps its memory for a map; `rart128_free` frees that too.
#[unsafe(no_mangle)]
pub extern "C" fn rart128_clear(map: &mut Rart128, alloc: Global)
    ensures { map.new.held ≡ empty_map }
{
    let Some(mut held) = take(map, alloc) else {
        return;
    };
    held.tree.clear();
    give(map, alloc, held);
}

/// Frees the map. The handle is then null, an empty map that owns no memory; to free it again does nothing.
#[unsafe(no_mangle)]
pub extern "C" fn rart128_free(map: &mut Rart128, alloc: Global)
    ensures { map.new.held ≡ empty_map }
{
    match take(map, alloc) {
        Some(held) => drop(held),
        None => {}
    }
}
