//! What a read must answer, by the model.
use crate::call::Call;
use crate::kinds::reads::{descends, most_of};
use crate::model::{Mark, Model};
use crate::numbers::{mix, mix_pair, sum_if, sum_of};
use crate::text::Text;

// The pair with the longest key that begins the probe.
fn longest(model: &Model, probe: &Text) -> Option<(Text, u64)> {
    let mut found = None;
    for len in 0..=probe.len() {
        let key = probe.cut(len);
        if let Some(value) = model.get(&key) {
            found = Some((key, value));
        }
    }
    found
}

/// The sum of the longest pair.
pub fn longest_pair(model: &Model, probe: &Text) -> u64 {
    match longest(model, probe) {
        Some((key, value)) => mix_pair(1, key.as_slice(), value),
        None => 5,
    }
}

/// The longest key that begins the probe.
pub fn longest_key(model: &Model, probe: &Text) -> Option<Text> {
    longest(model, probe).map(|pair| pair.0)
}

/// The sum of the value at the longest key that begins the probe.
pub fn longest_value(model: &Model, probe: &Text) -> u64 {
    sum_of(longest(model, probe).map(|pair| pair.1))
}

/// The sum of the first pairs whose keys begin the probe.
pub fn matches(model: &Model, probe: &Text, most: u64) -> u64 {
    let mut sum = 1_u64;
    let mut left = most;
    for len in 0..=probe.len() {
        let key = probe.cut(len);
        if let Some(value) = model.get(&key) {
            if left == 0 {
                return sum;
            }
            left = left.wrapping_sub(1);
            sum = mix_pair(sum, key.as_slice(), value);
        }
    }
    sum
}

fn pair_at(model: &Model, place: usize) -> u64 {
    match model.at(place) {
        Some((key, value)) => mix_pair(1, key.as_slice(), value),
        None => 5,
    }
}

fn pair_before(model: &Model, place: usize) -> u64 {
    if place == 0 {
        5
    } else {
        pair_at(model, place.wrapping_sub(1))
    }
}

// The four pairs nearest to a probe.
fn nearest(model: &Model, probe: &Text) -> u64 {
    let at = model.search(probe, Mark::Before);
    let after = model.search(probe, Mark::After);
    let from = mix(pair_at(model, at), pair_at(model, after));
    let to = mix(pair_before(model, after), pair_before(model, at));
    mix(from, to)
}

/// The sum of the first and of the last pair from a place to another.
pub fn ends(model: &Model, from: usize, to: usize) -> u64 {
    if from < to {
        mix(pair_at(model, from), pair_at(model, to.wrapping_sub(1)))
    } else {
        mix(5, 5)
    }
}

/// The call about one key or probe.
pub fn look(model: &Model, key: &Text, probe: &Text, call: &Call) -> u64 {
    match call.kind {
        9 => {
            let found = sum_of(model.get(key));
            let got = mix(mix(found, found), sum_if(model.get(key).is_some()));
            mix(got, nearest(model, key))
        }
        10 => mix(sum_of(model.get(probe)), nearest(model, probe)),
        11 => {
            let len = longest(model, probe).map(|pair| mix(pair.0.len() as u64, pair.1));
            mix(
                mix(longest_pair(model, key), longest_pair(model, probe)),
                sum_of(len),
            )
        }
        12 => longest_value(model, probe),
        13 => matches(model, key, most_of(call)),
        14 => mix(matches(model, key, 100), matches(model, probe, 100)),
        _ => {
            let size = mix(model.len() as u64, sum_if(model.len() == 0));
            mix(size, ends(model, 0, model.len()))
        }
    }
}

/// The first place of a range.
pub fn start_of(model: &Model, start: &Text, way: u64) -> usize {
    match way {
        0 => 0,
        1 => model.search(start, Mark::Before),
        _ => model.search(start, Mark::After),
    }
}

/// The place after a range.
pub fn end_of(model: &Model, end: &Text, way: u64) -> usize {
    match way {
        0 => model.len(),
        1 => model.search(end, Mark::After),
        _ => model.search(end, Mark::Before),
    }
}

// The first places of a range, `most` at most.
fn some_of(span: (usize, usize), most: u64) -> (usize, usize) {
    (span.0, span.1.min(span.0.saturating_add(most as usize)))
}

// The last places of a range, `most` at most.
fn last_of(span: (usize, usize), most: u64) -> (usize, usize) {
    (span.0.max(span.1.saturating_sub(most as usize)), span.1)
}

fn try_values(model: &Model, span: (usize, usize), most: u64, fails: bool) -> u64 {
    let some = some_of(span, most);
    let sum = model.sum(some.0, some.1, false);
    if fails && some.1 < span.1 {
        mix(sum, 17)
    } else {
        sum
    }
}

// The places that a walk over all pairs, below a prefix, or within bounds passes.
fn span_of(model: &Model, key: &Text, end: &Text, call: &Call) -> (usize, usize) {
    let bounds = call.choice % 9;
    match call.kind {
        16 => (0, model.len()),
        18 => model.below(key),
        _ => (
            start_of(model, key, bounds / 3),
            end_of(model, end, bounds % 3),
        ),
    }
}

// The pairs within bounds, and how many there are.
fn range(model: &Model, span: (usize, usize), most: u64) -> u64 {
    let some = some_of(span, most);
    let sum = model.sum(some.0, some.1, true);
    mix(sum, span.1.saturating_sub(span.0) as u64)
}

/// The call about many pairs.
pub fn walk(model: &Model, key: &Text, end: &Text, call: &Call) -> u64 {
    let most = most_of(call);
    let below = model.below(key);
    let (span, with_keys) = match call.kind {
        17 => (some_of((0, model.len()), most), false),
        19 | 21 => (below, false),
        20 => return try_values(model, below, most, call.choice % 2 == 0),
        _ if descends(call) => {
            let last = last_of(span_of(model, key, end, call), most);
            return model.sum_back(last.0, last.1);
        }
        16 | 18 => (some_of(span_of(model, key, end, call), most), true),
        _ => return range(model, span_of(model, key, end, call), most),
    };
    model.sum(span.0, span.1, with_keys)
}
