//! Keys cut at their branch points, and what two models share.
use crate::call::Call;
use crate::kinds::views::READ;
use crate::model::reads::{end_of, longest_key, start_of};
use crate::model::{Model, Pair};
use crate::numbers::{mix, mix_bytes, sum_if};
use crate::text::Text;

/// How many first bytes of a key it shares with some other key: true at each such number.
type Cuts = [bool; 41];

fn put_cut(cuts: &mut Cuts, at: usize) {
    if let Some(place) = cuts.get_mut(at) {
        *place = true;
    }
}

// The cuts by keys before the place.
fn cuts_before(model: &Model, key: &Text, place: usize, cuts: &mut Cuts) {
    let mut least = 41_usize;
    for back in 1..=place {
        if let Some(pair) = model.at(place.saturating_sub(back)) {
            least = least.min(key.shared(&pair.0));
            put_cut(cuts, least);
        }
        if least == 0 {
            return;
        }
    }
}

// The cuts by keys after the place.
fn cuts_after(model: &Model, key: &Text, place: usize, cuts: &mut Cuts) {
    let mut least = 41_usize;
    for next in place.saturating_add(1)..model.len() {
        if let Some(pair) = model.at(next) {
            least = least.min(key.shared(&pair.0));
            put_cut(cuts, least);
        }
        if least == 0 {
            return;
        }
    }
}

// The sum with the segments of the key at a place.
fn mix_cut(sum: u64, model: &Model, pair: &Pair, place: usize) -> u64 {
    let mut cuts = [false; 41];
    cuts_before(model, &pair.0, place, &mut cuts);
    cuts_after(model, &pair.0, place, &mut cuts);
    let mut sum = sum;
    let mut at = 0_usize;
    let mut count = 0_u64;
    for byte in pair.0.as_slice() {
        if count > 0 && cuts.get(at).copied() == Some(true) {
            sum = mix(sum, count);
            count = 0;
        }
        sum = mix(sum, u64::from(*byte));
        count = count.wrapping_add(1);
        at = at.wrapping_add(1);
    }
    if count > 0 { mix(sum, count) } else { sum }
}

fn views(model: &Model, from: usize, to: usize) -> u64 {
    let mut sum = 1_u64;
    let end = to.min(from.saturating_add(READ as usize));
    for place in from..end {
        if let Some(pair) = model.at(place) {
            sum = mix(mix_cut(sum, model, &pair, place), pair.1);
        }
    }
    mix(sum, to.saturating_sub(from) as u64)
}

fn longest_view(model: &Model, probe: &Text) -> u64 {
    match longest_key(model, probe) {
        Some(key) => {
            let place = model.below(&key).0;
            views(model, place, place.saturating_add(1))
        }
        None => mix(1, 0),
    }
}

// Mixes the bytes that the first and the last key of some places share at their start, if there are any keys.
fn mix_shared_start(sum: u64, model: &Model, places: (usize, usize)) -> u64 {
    if places.0 >= places.1 {
        return sum;
    }
    match (model.at(places.0), model.at(places.1.wrapping_sub(1))) {
        (Some((first, _)), Some((last, _))) => {
            mix_bytes(sum, first.cut(first.shared(&last)).as_slice())
        }
        _ => sum,
    }
}

/// The call with views.
pub fn view(model: &Model, key: &Text, end: &Text, call: &Call) -> u64 {
    let ways = call.choice % 9;
    match call.kind {
        24 => views(model, 0, model.len()),
        25 => {
            let below = model.below(key);
            let count = below.1.saturating_sub(below.0) as u64;
            mix_shared_start(mix(views(model, below.0, below.1), count), model, below)
        }
        26 => views(
            model,
            start_of(model, key, ways / 3),
            end_of(model, end, ways % 3),
        ),
        _ => longest_view(model, key),
    }
}

fn mix_shared(sum: u64, key: &Text, left: u64, right: u64, kind: u64) -> u64 {
    match kind {
        28 => sum.wrapping_add(1),
        29 => mix(mix(sum, left), right),
        _ => mix(mix(mix_bytes(sum, key.as_slice()), left), right),
    }
}

fn are_equal(one: &Model, other: &Model) -> bool {
    one.len() == other.len() && one.sum(0, one.len(), true) == other.sum(0, other.len(), true)
}

/// The call about both trees.
pub fn join(one: &Model, other: &Model, kind: u64) -> u64 {
    let mut sum = if kind == 28 { 0_u64 } else { 1_u64 };
    for place in 0..one.len() {
        if let Some((key, left)) = one.at(place) {
            if let Some(right) = other.get(&key) {
                sum = mix_shared(sum, &key, left, right, kind);
            }
        }
    }
    if kind == 28 {
        let is_subset = sum_if(sum == one.len() as u64);
        let shared = mix(sum, sum_if(are_equal(one, other)));
        mix(mix(shared, is_subset), sum_if(sum == 0))
    } else {
        sum
    }
}
