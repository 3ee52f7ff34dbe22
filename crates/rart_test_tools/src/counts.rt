//! What values whose drops are counted, and whose clones are limited, share.

use crate::counted::Limited;
use std::cell::Cell;

/// The drops so far, and the clones that are left.
#[derive(Drop)]
pub struct Counts {
    pub drops: Cell<usize>,
    pub clones: Cell<usize>,
}

impl Counts {
    /// No drop yet, and `clones` clones left.
    pub fn new(clones: usize) -> Self {
        Counts {
            drops: Cell::new(0_usize),
            clones: Cell::new(clones),
        }
    }

    /// A value of this number, counted here.
    pub fn value(&self, number: u8) -> Limited<'_> {
        Limited {
            number,
            drops: &self.drops,
            clones: &self.clones,
        }
    }
}
