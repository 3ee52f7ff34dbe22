//! A handle of a table: null, or the pointer of the box that holds it.
ghost use Rattle.std.specs.Prelude.{◌≡◌};
ghost use Rattle.rart_c.specs.declared.net6.Net6.{Net6 as Held};
ghost use Rattle.rart_c.specs.HandlesNet6.{empty_table, table_of, Takes, TakesOrMakes};

use crate::net6::{Net6, Table};
use crate::parked::Parked;
use std::alloc::{AllocError, Global};
use std::marker::Model;
use std::mem::replace;

/// A table from IPv6 networks to `u64` targets. Zeroed, it is an empty table. A call takes it by its address and is the
/// only one that uses it; a copy of it must not be used once either is passed to a call.
#[repr(C)]
pub struct RartNet6 {
    at: *mut u8,
    ghost held: { Held },
}

impl Model for RartNet6 {
    ghost use Rattle.rart_c.specs.OwnedNet6.{owned_at};

    ghost also_owns = { λ h. owned_at h.at h.held };
}

impl RartNet6 {
    fn hold(parked: Parked<Net6>) -> RartNet6
        ensures { result.held ≡ table_of parked.value }
    {
        let Parked { at } = parked;
        RartNet6 { at: at as *mut u8 }
    }

    fn release(self) -> Parked<Net6>
        ensures { self.held ≡ table_of result.value }
    {
        let RartNet6 { at } = self;
        Parked {
            at: at as *mut Net6,
        }
    }
}

/// Takes the table out of a handle and leaves null; `None` from a null handle.
pub(crate) fn take(table: &mut RartNet6, alloc: Global) -> Option<Box<Net6>>
    ensures takes { Takes table.old.held result }
    ensures left { table.new.held ≡ empty_table }
{
    let held = replace(table, RartNet6::hold(Parked::none()));
    held.release().take_out(alloc)
}

/// Takes the table out of a handle and leaves null; from a null handle, makes an empty table.
pub(crate) fn take_or_make(table: &mut RartNet6, alloc: Global) -> Result<Box<Net6>, AllocError>
    ensures { TakesOrMakes table.old.held table.new.held result }
{
    if let Some(held) = take(table, alloc) {
        return Ok(held);
    }
    match Box::new(
        alloc,
        Net6 {
            table: Table::new(alloc),
        },
    ) {
        Ok(held) => Ok(held),
        Err(_) => Err(AllocError),
    }
}

/// Puts a table into a handle and drops the one that it held.
pub(crate) fn give(table: &mut RartNet6, alloc: Global, held: Box<Net6>)
    ensures { table.new.held ≡ held.value }
{
    let old = replace(table, RartNet6::hold(Parked::of(held)));
    drop(old.release().take_out(alloc));
}
