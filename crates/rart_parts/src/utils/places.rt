//! Functions on slices of slots, each with a value or without.
ghost use Rattle.std.specs.Prelude.{◌≡◌, ◌<◌, ◌≤◌, ◌^◌, not, [], Some, None, length, replicate, IfErr, IfOk};
ghost use Rattle.rart_parts.specs.Bits.{IsFirst, IsLast};
ghost use Rattle.rart_parts.specs.Errors.{IsMemory};
ghost use Rattle.rart_parts.specs.Places.{is_used, values_in, Agrees, AgreesIfAny};

use crate::error::TreeError;
use crate::utils::bitset::BitsetTrait;
use std::alloc::Global;

/// Returns `count` slots without values, allocated at once.
pub(crate) fn new_places<X>(alloc: Global, count: usize) -> Result<Vec<Option<X>>, TreeError>
    ensures ok { IfOk result (λ places. places.items ≡ replicate count None) }
    ensures memory { IfErr result IsMemory }
{
    let mut places = Vec::with_capacity(alloc, count)?;
    for i in 0..count {
        places.push_reserved(None);
    }
    Ok(places)
}

/// Stores a value in an empty slot. It drops nothing, so `X` needs no `Drop`.
pub(crate) fn fill_place<X>(place: &mut Option<X>, x: X)
    requires { place.old ≡ None }
    ensures { place.new ≡ Some x }
{
    let refused = match place.replace(x) {
        None => Ok(()),
        Some(old) => Err(old),
    };
    refused.unwrap();
}

/// Frees slots without values. It drops no value, so `X` needs no `Drop`.
pub(crate) fn free_places<X>(places: Vec<Option<X>>)
    requires { values_in places.items ≡ [] }
{
    let mut rest = places;
    while let Some(place) = rest.pop() {
        match place {
            Some(_) => unreachable!(),
            None => {}
        }
    }
    rest.destroy_empty();
}

/// Returns the position of the first slot with a value.
pub(crate) fn first_used_place<X>(places: &[Option<X>]) -> Option<usize>
    ensures { IsFirst (is_used places.now) (length places.now) result }
{
    for position in 0..places.len() {
        if places[position].is_some() {
            return Some(position);
        }
    }
    None
}

/// Returns the position of the last slot with a value.
pub(crate) fn last_used_place<X>(places: &[Option<X>]) -> Option<usize>
    ensures { IsLast (is_used places.now) (length places.now) result }
{
    for position in (0..places.len()).rev() {
        if places[position].is_some() {
            return Some(position);
        }
    }
    None
}

/// Returns the position of the first slot without a value.
pub(crate) fn first_free_place<X>(places: &[Option<X>]) -> Option<usize>
    ensures { IsFirst (λ k. not (is_used places.now k)) (length places.now) result }
{
    for position in 0..places.len() {
        if places[position].is_none() {
            return Some(position);
        }
    }
    None
}

/// Rebuilds an empty bitset from the slots. A bitset with any position is kept.
pub(crate) fn find_used<X, B: BitsetTrait>(used: &mut B, places: &[Option<X>])
    requires covers { length places.now ≤ B.CAPACITY }
    requires fits { B.CAPACITY < 2 ^ 64 }
    requires known { AgreesIfAny B.CAPACITY (B.has used.old) places.now }
    ensures { Agrees B.CAPACITY (B.has used.new) places.now }
{
    if used.first_set().is_some() {
        return;
    }
    for position in 0..places.len() {
        if places[position].is_some() {
            used.set(position);
        }
    }
}
