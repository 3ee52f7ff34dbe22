//! A box behind a pointer that may be null.
ghost use Rattle.std.specs.Prelude.{◌≡◌, Option, None, Some};
ghost use Rattle.rart_c.specs.Parked.{IsTakenOut};

use std::alloc::Global;
use std::marker::Model;

/// A pointer that owns the box of the heap at which it points, or null. It has no `Drop`: whoever has one must take the
/// box out.
pub(crate) struct Parked<T> {
    pub(crate) at: *mut T,
    pub(crate) ghost value: { Option T },
}

impl<T> Model for Parked<T> {
    ghost use Rattle.rart_c.specs.ParkedAt.{parked_at};

    ghost also_owns = { λ p. parked_at T.row p.at p.value };
}

impl<T> Parked<T> {
    pub(crate) fn none() -> Parked<T>
        ensures { result.value ≡ None }
    {
        Parked {
            at: std::ptr::null_mut(),
        }
    }

    pub(crate) fn of(held: Box<T>) -> Parked<T>
    where
        T: Drop,
        ensures { result.value ≡ Some held.value }
    {
        Parked {
            at: Box::into_raw(held),
        }
    }

    pub(crate) fn take_out(self, alloc: Global) -> Option<Box<T>>
        ensures { IsTakenOut self.value result }
    {
        let Parked { at } = self;
        if at.is_null() {
            return None;
        }
        Some(unsafe { Box::from_raw(alloc, at) })
    }
}
