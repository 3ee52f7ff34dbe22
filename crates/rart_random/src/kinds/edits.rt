//! Edits of a tree: each returns the sum of its answer, or none if memory was refused.
ghost use Rattle.std.specs.Prelude.{◌≡◌};
ghost use Rattle.rart.specs.Updates.{written_slot};

use crate::call::Call;
use crate::kinds::reads::ends;
use crate::kinds::retains::retain;
use crate::numbers::{mix, sum_if, sum_of};
use crate::sides::{Tree, mix_key};
use rart::{
    KeyTrait, NotInserted, Refused, Slot, SlotUpdate, TreeError, TryInsertError, TryUpdateError,
    UpdateError,
};

/// The sum of an answer that is never right.
pub const WRONG: u64 = 0;

/// What a refusal is worth: none if it is documented, and returned the value.
pub fn refused(refusal: Refused<u64>, value: u64) -> Option<u64> {
    if refusal.error == TreeError::Memory && refusal.value == value {
        None
    } else {
        Some(WRONG)
    }
}

fn insert<K: KeyTrait>(tree: &mut Tree<K>, key: &K, value: u64) -> Option<u64> {
    match tree.insert_k(key, value) {
        Ok(old) => Some(sum_of(old)),
        Err(refusal) => refused(refusal, value),
    }
}

fn try_insert<K: KeyTrait>(tree: &mut Tree<K>, key: &K, value: u64) -> Option<u64> {
    match tree.try_insert_k(key, value) {
        Ok(()) => Some(sum_of(None)),
        Err(TryInsertError::Occupied(back, stored)) if back == value => Some(sum_of(Some(*stored))),
        Err(TryInsertError::Occupied(_, _)) => Some(WRONG),
        Err(TryInsertError::Refused(refusal)) => refused(refusal, value),
    }
}

// Adds one to the value at the key, which is inserted first if the key is new.
fn hold<K: KeyTrait>(tree: &mut Tree<K>, key: &K, call: &Call) -> Option<u64> {
    let value = call.value;
    let held = if call.choice % 16 < 8 {
        tree.get_or_insert_k(key, value)
    } else {
        tree.get_or_insert_with_k(key, move || value)
    };
    match held {
        Ok(place) => {
            let found = *place;
            *place = found.wrapping_add(1);
            Some(sum_of(Some(found)))
        }
        Err(refusal) => refused(refusal, value),
    }
}

fn insert_new<K: KeyTrait>(tree: &mut Tree<K>, key: &K, value: u64) -> Option<u64> {
    match tree.insert_new_k(key, value) {
        Ok(()) => Some(sum_if(true)),
        Err(NotInserted::Stored(back)) if back == value => Some(sum_if(false)),
        Err(NotInserted::Stored(_)) => Some(WRONG),
        Err(NotInserted::Refused(refusal)) => refused(refusal, value),
    }
}

fn remove<K: KeyTrait>(tree: &mut Tree<K>, key: &K) -> Option<u64> {
    match tree.remove_k(key) {
        Ok(old) => Some(sum_of(old)),
        Err(TreeError::Memory) => None,
        Err(TreeError::Full) => Some(WRONG),
    }
}

fn delete<K: KeyTrait>(tree: &mut Tree<K>, key: &K) -> Option<u64> {
    match tree.delete_k(key) {
        Ok(found) => Some(sum_if(found)),
        Err(TreeError::Memory) => None,
        Err(TreeError::Full) => Some(WRONG),
    }
}

/// The sum of a pair that a pop returns.
pub fn popped<K: KeyTrait + Drop>(answer: Result<Option<(K, u64)>, TreeError>) -> Option<u64> {
    match answer {
        Ok(Some((key, value))) => Some(mix(mix_key(1, &key), value)),
        Ok(None) => Some(sum_of(None)),
        Err(TreeError::Memory) => None,
        Err(TreeError::Full) => Some(WRONG),
    }
}

fn overwrite<K: KeyTrait>(tree: &mut Tree<K>, key: &K, value: u64) -> Option<u64> {
    match tree.get_mut_k(key) {
        Some(place) => {
            let old = *place;
            *place = value;
            Some(sum_of(Some(old)))
        }
        None => Some(sum_of(None)),
    }
}

// Writes over each value below the first half of the key, and sums up the old ones.
fn overwrite_below<K: KeyTrait + Drop>(tree: &mut Tree<K>, key: &K, value: u64) -> u64 {
    let prefix = key.truncate(key.as_ref().len() / 2);
    let mut sum = 1_u64;
    tree.prefix_for_each_value_mut_k(&prefix, |place: &mut u64| {
        sum = mix(sum, *place);
        *place = mix(*place, value);
    });
    sum
}

// The count of the pairs of a part, with its first and its last one.
fn sum_of_part<K: KeyTrait + Drop>(part: &Tree<K>) -> u64 {
    mix(part.len() as u64, ends(part))
}

fn take_prefix<K: KeyTrait + Drop>(tree: &mut Tree<K>, prefix: &K) -> Option<u64> {
    match tree.take_prefix_k(prefix) {
        Ok(part) => Some(sum_of_part(&part)),
        Err(_refused) => None,
    }
}

fn remove_prefix<K: KeyTrait + Drop>(tree: &mut Tree<K>, prefix: &K) -> Option<u64> {
    match tree.remove_prefix_k(prefix) {
        Ok(count) => Some(count as u64),
        Err(_refused) => None,
    }
}

// Takes or drops all pairs below the first half of the key.
fn remove_below<K: KeyTrait + Drop>(tree: &mut Tree<K>, key: &K, call: &Call) -> Option<u64> {
    let prefix = key.truncate(key.as_ref().len() / 2);
    if takes_below(call) {
        take_prefix(tree, &prefix)
    } else {
        remove_prefix(tree, &prefix)
    }
}

/// Whether a removal is one of all pairs below the first half of the key.
pub fn removes_below(call: &Call) -> bool {
    call.choice % 128 == 2
}

/// Whether a removal of all pairs below a prefix returns them.
pub fn takes_below(call: &Call) -> bool {
    call.choice % 256 == 2
}

/// Whether an insertion lends the value, and adds one to it.
pub fn holds(call: &Call) -> bool {
    call.choice % 4 == 1
}

/// Whether a write is one over all values below the first half of the key.
pub fn writes_below(call: &Call) -> bool {
    call.choice % 4 == 3
}

/// Whether a removal is one of all pairs.
pub fn clears(call: &Call) -> bool {
    call.choice % 2048 == 1030
}

fn clear<K: KeyTrait>(tree: &mut Tree<K>) -> u64 {
    let count = tree.len();
    tree.clear();
    count as u64
}

// The answer of a callback.
fn update_of(call: &Call) -> SlotUpdate<u64> {
    match call.choice % 4 {
        0 => SlotUpdate::Keep,
        1 => SlotUpdate::Insert(call.value),
        _ => SlotUpdate::Remove,
    }
}

/// Whether a removal is that of a pair at an end.
pub fn pops(call: &Call) -> bool {
    call.choice % 8 == 7
}

/// Whether the callback writes `value + 1` at an occupied slot before it answers.
pub fn writes(call: &Call) -> bool {
    call.choice % 8 < 4
}

/// Whether the callback wants the key removed.
pub fn removes(call: &Call) -> bool {
    call.choice % 4 > 1
}

fn write(slot: &mut Slot<u64>, written: Option<u64>)
    ensures { slot.new ≡ written_slot written slot.old }
{
    if let Slot::Occupied(value) = slot {
        if let Some(written) = written {
            *value = written;
        }
    }
}

fn update<K: KeyTrait>(tree: &mut Tree<K>, key: &K, call: &Call) -> Option<u64> {
    let answer = update_of(call);
    let value = call.value;
    let written = writes(call).then_some(value.wrapping_add(1));
    match tree.update_k(key, move |slot| {
        write(slot, written);
        answer
    }) {
        Ok(touched) => Some(sum_if(touched)),
        Err(UpdateError::Insert(refusal)) => refused(refusal, value),
        Err(UpdateError::Remove) => None,
    }
}

// What a callback that may fail answers.
fn try_update_of(call: &Call) -> Result<SlotUpdate<u64>, u64> {
    if call.choice % 16 < 4 {
        Err(call.value)
    } else {
        Ok(update_of(call))
    }
}

fn try_update<K: KeyTrait>(tree: &mut Tree<K>, key: &K, call: &Call) -> Option<u64> {
    let answer = try_update_of(call);
    let value = call.value;
    let written = Some(value.wrapping_add(1));
    match tree.try_update_k(key, move |slot| {
        write(slot, written);
        answer
    }) {
        Ok(touched) => Some(sum_if(touched)),
        Err(TryUpdateError::Callback(error)) => Some(mix(11, error)),
        Err(TryUpdateError::Insert(refusal)) => refused(refusal, value),
        Err(TryUpdateError::Remove) => None,
        Err(TryUpdateError::Clone) => Some(WRONG),
    }
}

/// Makes the edit that the call names.
pub fn edit<K: KeyTrait + Drop>(tree: &mut Tree<K>, key: &K, call: &Call) -> Option<u64> {
    match call.kind {
        0 | 1 => insert(tree, key, call.value),
        2 if holds(call) => hold(tree, key, call),
        2 => try_insert(tree, key, call.value),
        3 => insert_new(tree, key, call.value),
        4 if pops(call) => popped(tree.pop_first()),
        4 if removes_below(call) => remove_below(tree, key, call),
        4 => remove(tree, key),
        5 if pops(call) => popped(tree.pop_last()),
        5 if clears(call) => Some(clear(tree)),
        5 => delete(tree, key),
        6 if writes_below(call) => Some(overwrite_below(tree, key, call.value)),
        6 => overwrite(tree, key, call.value),
        7 => update(tree, key, call),
        41 => retain(tree, call),
        _ => try_update(tree, key, call),
    }
}
