//! A handle of a map: null, or the pointer of the box that holds it.
ghost use Rattle.std.specs.Prelude.{◌≡◌};
ghost use Rattle.rart_c.specs.declared.map128.Map128.{Map128 as Held};
ghost use Rattle.rart_c.specs.Handles128.{empty_map, map_of, Takes, TakesOrMakes};

use crate::map128::{Map128, Tree};
use crate::parked::Parked;
use std::alloc::{AllocError, Global};
use std::marker::Model;
use std::mem::replace;

/// A map from keys of at most 128 bytes to `u64`. Zeroed, it is an empty map. A call takes it by its address and is the
/// only one that uses it; a copy of it must not be used once either is passed to a call.
#[repr(C)]
pub struct Rart128 {
    at: *mut u8,
    ghost held: { Held },
}

impl Model for Rart128 {
    ghost use Rattle.rart_c.specs.Owned128.{owned_at};

    ghost also_owns = { λ h. owned_at h.at h.held };
}

impl Rart128 {
    fn hold(parked: Parked<Map128>) -> Rart128
        ensures { result.held ≡ map_of parked.value }
    {
        let Parked { at } = parked;
        Rart128 { at: at as *mut u8 }
    }

    fn release(self) -> Parked<Map128>
        ensures { self.held ≡ map_of result.value }
    {
        let Rart128 { at } = self;
        Parked {
            at: at as *mut Map128,
        }
    }
}

/// Takes the map out of a handle and leaves null; `None` from a null handle.
pub(crate) fn take(map: &mut Rart128, alloc: Global) -> Option<Box<Map128>>
    ensures takes { Takes map.old.held result }
    ensures left { map.new.held ≡ empty_map }
{
    let held = replace(map, Rart128::hold(Parked::none()));
    held.release().take_out(alloc)
}

/// Takes the map out of a handle and leaves null; from a null handle, makes an empty map.
pub(crate) fn take_or_make(map: &mut Rart128, alloc: Global) -> Result<Box<Map128>, AllocError>
    ensures { TakesOrMakes map.old.held map.new.held result }
{
    if let Some(held) = take(map, alloc) {
        return Ok(held);
    }
    match Box::new(
        alloc,
        Map128 {
            tree: Tree::new(alloc),
        },
    ) {
        Ok(held) => Ok(held),
        Err(_) => Err(AllocError),
    }
}

/// Puts a map into a handle and drops the one that it held.
pub(crate) fn give(map: &mut Rart128, alloc: Global, held: Box<Map128>)
    ensures { map.new.held ≡ held.value }
{
    let old = replace(map, Rart128::hold(Parked::of(held)));
    drop(old.release().take_out(alloc));
}
