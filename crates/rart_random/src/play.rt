//! Lists of calls: played to the first that fails, and shortened.
use crate::call::{Call, call_at, makes_a_tree};
use crate::numbers::mix;
use crate::world::World;
use rart::KeyTrait;
use std::alloc::{AllocError, Global};

/// What is played.
#[derive(Clone, Copy)]
pub struct Case {
    /// Which key type: 32 and 8 for arrays, 16 for tails.
    pub keys: u64,
    /// The seed.
    pub seed: u64,
    /// How many calls.
    pub calls: u64,
    /// One call in this many has a request for memory refused; 0: none.
    pub refused: u64,
}

/// What came of it.
#[derive(Clone, Copy)]
pub struct Played {
    /// The place in the list of the first call that failed, none if all passed.
    pub wrong: Option<usize>,
    /// The most pairs of a tree.
    pub largest: usize,
    /// How many edits of a tree had a request refused.
    pub refused_edits: usize,
}

// Which request is refused in a call, 0 for none: one of the first four, or of more if the call makes a tree.
fn refused_at(case: &Case, call: &Call, number: u64) -> usize {
    let chance = mix(case.seed, number);
    let most = if makes_a_tree(call) { 256 } else { 4 };
    if case.refused > 0 && chance.checked_rem(case.refused) == Some(0) {
        ((chance >> 32) % most).wrapping_add(1) as usize
    } else {
        0
    }
}

// Whether everything is compared after the call at this place.
fn is_compared(place: usize, count: usize, size: usize) -> bool {
    let step = if size < 10_000 { 100 } else { 1000 };
    count < 300 || place.wrapping_add(1) == count || place % step == 0
}

fn play_in<K: KeyTrait + Drop>(world: &mut World<K>, case: &Case, list: &[u64]) -> Played {
    let most = K::MAXIMUM_SIZE.unwrap_or(32).min(32);
    let mut largest = 0_usize;
    let mut place = 0_usize;
    for number in list {
        let call = call_at(case.seed, *number, most as u64);
        let is_well = world.is_played(&call, most, refused_at(case, &call, *number));
        largest = largest.max(world.size());
        if !is_well || (is_compared(place, list.len(), world.size()) && !world.is_right()) {
            return Played {
                wrong: Some(place),
                largest,
                refused_edits: world.refused_edits(),
            };
        }
        place = place.wrapping_add(1);
    }
    Played {
        wrong: None,
        largest,
        refused_edits: world.refused_edits(),
    }
}

/// Plays the calls of these numbers.
pub fn play<K: KeyTrait + Drop>(alloc: Global, case: &Case, list: &[u64]) -> Played {
    let mut world = World::<K>::new(alloc);
    play_in(&mut world, case, list)
}

/// The numbers below `calls`.
pub fn numbers_to(alloc: Global, calls: u64) -> Result<Vec<u64>, AllocError> {
    let mut list = Vec::new(alloc);
    for number in 0..calls {
        list.push(number)?;
    }
    Ok(list)
}

// The list up to a place, without those from `from` on, `count` of them.
fn without(
    alloc: Global,
    list: &[u64],
    from: usize,
    count: usize,
    last: usize,
) -> Result<Vec<u64>, AllocError> {
    let mut rest = Vec::new(alloc);
    let mut place = 0_usize;
    for number in list {
        if place <= last && (place < from || place.wrapping_sub(from) >= count) {
            rest.push(*number)?;
        }
        place = place.wrapping_add(1);
    }
    Ok(rest)
}

// The most calls that are made to shorten a list.
const BUDGET: usize = 20_000_000;

// The list up to the first call that fails, and nothing where none does.
fn up_to_wrong<K: KeyTrait + Drop>(
    alloc: Global,
    case: &Case,
    list: &[u64],
) -> Result<Option<Vec<u64>>, AllocError> {
    match play::<K>(alloc, case, list).wrong {
        Some(at) => Ok(Some(without(alloc, list, 0, 0, at)?)),
        None => Ok(None),
    }
}

// The calls up to the first wrong one of the list without a stretch.
fn up_to_wrong_without<K: KeyTrait + Drop>(
    alloc: Global,
    case: &Case,
    list: &[u64],
    from: usize,
    count: usize,
    spent: &mut usize,
) -> Result<Option<Vec<u64>>, AllocError> {
    let tried = without(alloc, list, from, count, list.len())?;
    *spent = spent.saturating_add(tried.len());
    up_to_wrong::<K>(alloc, case, tried.as_slice())
}

// Leaves out each stretch of `count` calls without which the list still fails.
fn thin<K: KeyTrait + Drop>(
    alloc: Global,
    case: &Case,
    list: &mut Vec<u64>,
    count: usize,
    spent: &mut usize,
) -> Result<(), AllocError> {
    let mut from = 0_usize;
    for _ in 0..list.len() {
        if from >= list.len() || *spent > BUDGET {
            return Ok(());
        }
        match up_to_wrong_without::<K>(alloc, case, list.as_slice(), from, count, spent)? {
            Some(shorter) => *list = shorter,
            None => from = from.saturating_add(count),
        }
    }
    Ok(())
}

fn shorten<K: KeyTrait + Drop>(
    alloc: Global,
    case: &Case,
    list: &mut Vec<u64>,
) -> Result<(), AllocError> {
    let mut spent = 0_usize;
    let mut count = list.len() / 2;
    for _ in 0..40_u8 {
        count = count.max(1);
        thin::<K>(alloc, case, list, count, &mut spent)?;
        count = (count / 2).min(list.len());
    }
    Ok(())
}

/// A list that still fails, with whatever can be left out left out: halves first, single calls last.
pub fn shortened<K: KeyTrait + Drop>(
    alloc: Global,
    case: &Case,
    at: usize,
) -> Result<Vec<u64>, AllocError> {
    let mut list = numbers_to(alloc, (at as u64).saturating_add(1))?;
    shorten::<K>(alloc, case, &mut list)?;
    Ok(list)
}
