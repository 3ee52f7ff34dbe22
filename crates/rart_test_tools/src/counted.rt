//! Values that count when they are dropped.

use std::alloc::AllocError;
use std::cell::Cell;

/// A value with a number, and where its drops and those of its clones are counted.
pub struct Counted<'a>(pub u8, pub &'a Cell<usize>);

impl Drop for Counted<'_> {
    fn drop(self) {
        let Counted(_, drops) = self;
        drops.set(drops.get().wrapping_add(1));
    }
}

impl Clone for Counted<'_> {
    ghost use Rattle.std.specs.Prelude.{◌≡◌};

    ghost is_clone = { λ value copy. copy ≡ value };

    ghost is_infallible = { λ _. ⊥ };

    fn clone(&self) -> Result<Self, AllocError> {
        Ok(Counted(self.0, self.1))
    }
}

/// A value with a number, whose drops are counted as those of `Counted`. A clone takes one of the clones that are left,
/// and fails where none is.
pub struct Limited<'a> {
    pub number: u8,
    pub drops: &'a Cell<usize>,
    pub clones: &'a Cell<usize>,
}

impl Drop for Limited<'_> {
    fn drop(self) {
        let Limited {
            number: _,
            drops,
            clones: _,
        } = self;
        drops.set(drops.get().wrapping_add(1));
    }
}

impl Clone for Limited<'_> {
    ghost use Rattle.std.specs.Prelude.{◌≡◌};

    ghost is_clone = { λ value copy. copy ≡ value };

    ghost is_infallible = { λ _. ⊥ };

    fn clone(&self) -> Result<Self, AllocError> {
        let Some(left) = self.clones.get().checked_sub(1) else {
            return Err(AllocError);
        };
        self.clones.set(left);
        Ok(Limited {
            number: self.number,
            drops: self.drops,
            clones: self.clones,
        })
    }
}
