//! A handle of a map: null, or the pointer of the box that holds it.
ghost use Rattle.std.specs.Prelude.{◌≡◌};
ghost use Rattle.rart_c.specs.declared.map32.Map32.{Map32 as Held};
ghost use Rattle.rart_c.specs.Handles32.{empty_map, map_of, Takes, TakesOrMakes};

use crate::map32::{Map32, Tree};
use crate::parked::Parked;
use std::alloc::{AllocError, Global};
use std::marker::Model;
use std::mem::replace;

/// A map from keys of at most 32 bytes to `u64`. Zeroed, it is an empty map. A call takes it by its address and is the
/// only one that uses it; a copy of it must not be used once either is passed to a call.
#[repr(C)]
pub struct Rart32 {
    at: *mut u8,
    ghost held: { Held },
}

impl Model for Rart32 {
    ghost use Rattle.rart_c.specs.Owned32.{owned_at};

    ghost also_owns = { λ h. owned_at h.at h.held };
}

impl Rart32 {
    fn hold(parked: Parked<Map32>) -> Rart32
        ensures { result.held ≡ map_of parked.value }
    {
        let Parked { at } = parked;
        Rart32 { at: at as *mut u8 }
    }

    fn release(self) -> Parked<Map32>
        ensures { self.held ≡ map_of result.value }
    {
        let Rart32 { at } = self;
        Parked {
            at: at as *mut Map32,
        }
    }
}

/// Takes the map out of a handle and leaves null; `None` from a null handle.
pub(crate) fn take(map: &mut Rart32, alloc: Global) -> Option<Box<Map32>>
    ensures takes { Takes map.old.held result }
    ensures left { map.new.held ≡ empty_map }
{
    let held = replace(map, Rart32::hold(Parked::none()));
    held.release().take_out(alloc)
}

/// Takes the map out of a handle and leaves null; from a null handle, makes an empty map.
pub(crate) fn take_or_make(map: &mut Rart32, alloc: Global) -> Result<Box<Map32>, AllocError>
    ensures { TakesOrMakes map.old.held map.new.held result }
{
    if let Some(held) = take(map, alloc) {
        return Ok(held);
    }
    match Box::new(
        alloc,
        Map32 {
            tree: Tree::new(alloc),
        },
    ) {
        Ok(held) => Ok(held),
        Err(_) => Err(AllocError),
    }
}

/// Puts a map into a handle and drops the one that it held.
pub(crate) fn give(map: &mut Rart32, alloc: Global, held: Box<Map32>)
    ensures { map.new.held ≡ held.value }
{
    let old = replace(map, Rart32::hold(Parked::of(held)));
    drop(old.release().take_out(alloc));
}
