//! What a walk by turns must answer, by the model.
use crate::call::Call;
use crate::kinds::reads::most_of;
use crate::kinds::turns::is_back;
use crate::model::reads::{end_of, start_of};
use crate::model::{Model, Pair};
use crate::numbers::{mix, mix_pair};
use crate::text::Text;

// Whether the walk counts the items that it has not given.
fn counts(call: &Call) -> bool {
    call.kind < 44
}

// The sum with the count of these items, where the walk counts them.
fn mix_left(sum: u64, left: usize, call: &Call) -> u64 {
    if counts(call) {
        mix(sum, left as u64)
    } else {
        sum
    }
}

fn mix_given(sum: u64, given: Option<Pair>, call: &Call) -> u64 {
    match given {
        Some(pair) if call.kind == 43 => mix(sum, pair.1),
        Some(pair) => mix_pair(sum, pair.0.as_slice(), pair.1),
        None => sum,
    }
}

// The sum of the turns over the pairs from a place to another.
fn sum_by_turns(model: &Model, from: usize, to: usize, call: &Call) -> u64 {
    let mut sum = 1_u64;
    let mut first = from;
    let mut left = to.saturating_sub(from);
    for turn in 0..most_of(call) {
        sum = mix_left(sum, left, call);
        if left == 0 {
            return sum;
        }
        left = left.wrapping_sub(1);
        if is_back(call, turn) {
            sum = mix_given(sum, model.at(first.wrapping_add(left)), call);
        } else {
            sum = mix_given(sum, model.at(first), call);
            first = first.wrapping_add(1);
        }
    }
    mix_left(sum, left, call)
}

/// The walk that the call names.
pub fn turn(model: &Model, key: &Text, end: &Text, call: &Call) -> u64 {
    let bounds = call.choice % 9;
    let (from, to) = match call.kind {
        42 | 43 => (0, model.len()),
        44 => model.below(key),
        _ => (
            start_of(model, key, bounds / 3),
            end_of(model, end, bounds % 3),
        ),
    };
    sum_by_turns(model, from, to, call)
}
