//! Calls of a route table, and what they must answer.
use crate::call::Call;
use crate::kinds::edits::{WRONG, popped, pops, refused};
use crate::kinds::reads::sum_of_pair;
use crate::model::Model;
use crate::model::edits::pop;
use crate::model::reads::{longest_pair, longest_value, matches};
use crate::numbers::{mix, mix_bytes, mix_pair, sum_of};
use crate::shape::sum_of_stats;
use crate::text::Text;
use rart::routes::RouteTable;
use rart::{KeyTrait, NotInserted, TreeError, TreeStatsTrait, TryInsertError};

fn add<K: KeyTrait>(table: &mut RouteTable<K, u64>, key: &K, target: u64) -> Option<u64> {
    match table.add(key, target) {
        Ok(()) => Some(sum_of(None)),
        Err(TryInsertError::Occupied(back, stored)) if back == target => Some(sum_of(Some(
            *stored,
        ))),
        Err(TryInsertError::Occupied(_, _)) => Some(WRONG),
        Err(TryInsertError::Refused(refusal)) => refused(refusal, target),
    }
}

fn add_new<K: KeyTrait>(table: &mut RouteTable<K, u64>, key: &K, target: u64) -> Option<u64> {
    match table.add_new(key, target) {
        Ok(()) => Some(sum_of(None)),
        Err(NotInserted::Stored(back)) if back == target => {
            Some(sum_of(table.get(key).copied()))
        }
        Err(NotInserted::Stored(_)) => Some(WRONG),
        Err(NotInserted::Refused(refusal)) => refused(refusal, target),
    }
}

fn replace<K: KeyTrait>(table: &mut RouteTable<K, u64>, key: &K, target: u64) -> Option<u64> {
    match table.replace(key, target) {
        Ok(old) => Some(sum_of(old)),
        Err(refusal) => refused(refusal, target),
    }
}

fn withdraw<K: KeyTrait>(table: &mut RouteTable<K, u64>, key: &K) -> Option<u64> {
    match table.withdraw(key) {
        Ok(old) => Some(sum_of(old)),
        Err(TreeError::Memory) => None,
        Err(TreeError::Full) => Some(WRONG),
    }
}

/// The sum of the statistics of the table.
pub fn shape_of_routes<K: KeyTrait>(table: &RouteTable<K, u64>) -> Option<u64> {
    let stats = table.get_tree_stats().ok()?;
    Some(sum_of_stats(&stats))
}

// Whether a removal is that of the last route.
fn pops_last(call: &Call) -> bool {
    call.choice % 16 == 15
}

// Whether a removal is one of all routes.
fn clears_table(call: &Call) -> bool {
    call.choice % 64 == 6
}

fn clear<K: KeyTrait>(table: &mut RouteTable<K, u64>) -> u64 {
    let count = table.len();
    table.clear();
    count as u64
}

fn covering<K: KeyTrait>(table: &RouteTable<K, u64>, key: &K) -> u64 {
    let mut sum = 1_u64;
    table.covering_for_each(key, |prefix, target| sum = mix_pair(sum, prefix, *target));
    sum
}

// The same by bytes, which may be more than a prefix has.
fn covering_bytes<K: KeyTrait>(table: &RouteTable<K, u64>, probe: &[u8]) -> u64 {
    let mut sum = 1_u64;
    table.covering_for_each_bytes(probe, |prefix, target| sum = mix_pair(sum, prefix, *target));
    sum
}

// The route and the routes that cover the key, and those of the bytes.
fn covers<K: KeyTrait + Drop>(table: &RouteTable<K, u64>, key: &K, probe: &[u8]) -> u64 {
    let route = sum_of_pair(table.route_with_prefix(key));
    let by_bytes = sum_of_pair(table.route_with_prefix_bytes(probe));
    mix(
        mix(route, covering(table, key)),
        mix(by_bytes, covering_bytes(table, probe)),
    )
}

/// The sum of the routes below a prefix.
pub fn below<K: KeyTrait>(table: &RouteTable<K, u64>, key: &K) -> Option<u64> {
    let mut sum = 1_u64;
    table
        .below_for_each(key, |view, target| {
            let mut next = sum;
            for byte in view.bytes() {
                next = mix(next, u64::from(byte));
            }
            sum = mix(mix(next, view.len() as u64), *target);
        })
        .ok()?;
    Some(sum)
}

/// The call of the table.
pub fn call_table<K: KeyTrait + Drop>(
    table: &mut RouteTable<K, u64>,
    key: &K,
    probe: &Text,
    call: &Call,
) -> Option<u64> {
    match call.kind {
        34 if call.choice % 2 == 0 => add(table, key, call.value),
        34 => add_new(table, key, call.value),
        35 => replace(table, key, call.value),
        36 if pops_last(call) => popped(table.pop_last()),
        36 if pops(call) => popped(table.pop_first()),
        36 if clears_table(call) => Some(clear(table)),
        36 => withdraw(table, key),
        37 => {
            let route = sum_of(table.route(probe.as_slice()).copied());
            Some(mix(route, sum_of(table.get(key).copied())))
        }
        38 => Some(covers(table, key, probe.as_slice())),
        _ => below(table, key),
    }
}

fn wanted_add(model: &mut Model, key: &Text, target: u64) -> u64 {
    let old = model.get(key);
    if old.is_none() {
        model.put(key, target);
    }
    sum_of(old)
}

/// The sum of the model's routes below a prefix.
pub fn wanted_below(model: &Model, key: &Text) -> u64 {
    let span = model.below(key);
    let mut sum = 1_u64;
    for place in span.0..span.1 {
        if let Some(pair) = model.at(place) {
            sum = mix(mix_bytes(sum, pair.0.as_slice()), pair.1);
        }
    }
    sum
}

/// What the call of the table must answer.
pub fn wanted_of_table(model: &mut Model, key: &Text, probe: &Text, call: &Call) -> u64 {
    match call.kind {
        34 => wanted_add(model, key, call.value),
        35 => sum_of(model.put(key, call.value)),
        36 if pops_last(call) => pop(model, model.len().wrapping_sub(1)),
        36 if pops(call) => pop(model, 0),
        36 if clears_table(call) => model.clear(),
        36 => sum_of(model.remove(key)),
        37 => mix(longest_value(model, probe), sum_of(model.get(key))),
        38 => {
            let by_key = mix(longest_pair(model, key), matches(model, key, 100));
            mix(
                by_key,
                mix(longest_pair(model, probe), matches(model, probe, 100)),
            )
        }
        _ => wanted_below(model, key),
    }
}
