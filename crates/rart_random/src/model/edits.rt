//! What an edit must answer, by the model, and what the model is after it.
use crate::call::Call;
use crate::kinds::edits::{
    clears, holds, pops, removes, removes_below, takes_below, writes, writes_below,
};
use crate::kinds::retains::wanted_retain;
use crate::model::Model;
use crate::model::reads::ends;
use crate::numbers::{mix, mix_pair, sum_if, sum_of};
use crate::text::Text;

fn insert_new(model: &mut Model, key: &Text, value: u64) -> Option<u64> {
    let old = model.get(key);
    if old.is_none() {
        model.put(key, value);
    }
    old
}

fn hold(model: &mut Model, key: &Text, value: u64) -> u64 {
    let found = model.get(key).unwrap_or(value);
    model.put(key, found.wrapping_add(1));
    sum_of(Some(found))
}

fn overwrite(model: &mut Model, key: &Text, value: u64) -> u64 {
    let old = model.get(key);
    if old.is_some() {
        model.put(key, value);
    }
    sum_of(old)
}

fn overwrite_below(model: &mut Model, key: &Text, value: u64) -> u64 {
    let (from, to) = model.below(&key.cut(key.len() / 2));
    let sum = model.sum(from, to, false);
    for place in from..to {
        if let Some((key, old)) = model.at(place) {
            model.put(&key, mix(old, value));
        }
    }
    sum
}

// Applies an update whose callback returned, and returns whether the key was or is stored.
fn apply_update(model: &mut Model, key: &Text, call: &Call, is_written: bool) -> bool {
    let old = model.get(key);
    match call.choice % 4 {
        0 => {
            if old.is_some() && is_written {
                model.put(key, call.value.wrapping_add(1));
            }
            old.is_some()
        }
        1 => {
            model.put(key, call.value);
            true
        }
        _ => model.remove(key).is_some(),
    }
}

fn update(model: &mut Model, key: &Text, call: &Call) -> u64 {
    sum_if(apply_update(model, key, call, writes(call)))
}

fn try_update(model: &mut Model, key: &Text, call: &Call) -> u64 {
    if call.choice % 16 < 4 {
        return mix(11, call.value);
    }
    sum_if(apply_update(model, key, call, true))
}

/// What a refused call leaves: the value that an update wrote before its removal was refused.
pub fn note_refusal(model: &mut Model, key: &Text, call: &Call) {
    let is_written = call.kind == 7 && removes(call) && writes(call);
    if is_written && model.get(key).is_some() {
        model.put(key, call.value.wrapping_add(1));
    }
}

fn remove_below(model: &mut Model, key: &Text, call: &Call) -> u64 {
    let (from, to) = model.below(&key.cut(key.len() / 2));
    let count = to.wrapping_sub(from) as u64;
    let ends = ends(model, from, to);
    for _ in from..to {
        if let Some((stored, _value)) = model.at(from) {
            model.remove(&stored);
        }
    }
    if takes_below(call) {
        mix(count, ends)
    } else {
        count
    }
}

/// Removes the pair at a place, and returns the sum of it.
pub fn pop(model: &mut Model, place: usize) -> u64 {
    match model.at(place) {
        Some((key, value)) => {
            model.remove(&key);
            mix_pair(1, key.as_slice(), value)
        }
        None => sum_of(None),
    }
}

fn retain(model: &mut Model, call: &Call) -> u64 {
    let len = model.len();
    wanted_retain(model, 0, len, call)
}

/// Makes the edit that the call names.
pub fn edit(model: &mut Model, key: &Text, call: &Call) -> u64 {
    match call.kind {
        0 | 1 => sum_of(model.put(key, call.value)),
        2 if holds(call) => hold(model, key, call.value),
        2 => sum_of(insert_new(model, key, call.value)),
        3 => sum_if(insert_new(model, key, call.value).is_none()),
        4 if pops(call) => pop(model, 0),
        4 if removes_below(call) => remove_below(model, key, call),
        4 => sum_of(model.remove(key)),
        5 if pops(call) => pop(model, model.len().wrapping_sub(1)),
        5 if clears(call) => model.clear(),
        5 => sum_if(model.remove(key).is_some()),
        6 if writes_below(call) => overwrite_below(model, key, call.value),
        6 => overwrite(model, key, call.value),
        7 => update(model, key, call),
        41 => retain(model, call),
        _ => try_update(model, key, call),
    }
}
