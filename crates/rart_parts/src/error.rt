//! The error of calls that allocate or count pairs.

use std::alloc::{AllocError, AllocFailed};
use thiserror::Error;

/// Says why a call failed. Each call documents the state that a failure leaves.
#[derive(Clone, Copy, PartialEq, Eq, Debug, Error)]
pub enum TreeError {
    /// The allocator had no memory.
    #[error("out of memory")]
    Memory,
    /// The tree holds as many pairs as it can count.
    #[error("tree is full")]
    Full,
}

impl From<AllocError> for TreeError {
    ghost use Rattle.std.specs.Prelude.{◌≡◌};
    ghost use Rattle.rart_parts.specs.declared.error.TreeError.TheVariants.{Memory};

    ghost from_gives = { λ _ e. e ≡ Memory };

    fn from(_refusal: AllocError) -> TreeError {
        TreeError::Memory
    }
}

/// `vec![in alloc; a, b]?` fails with an error that holds the items; `?` drops them.
impl<T: Drop> From<AllocFailed<T>> for TreeError {
    ghost use Rattle.std.specs.Prelude.{◌≡◌};
    ghost use Rattle.rart_parts.specs.declared.error.TreeError.TheVariants.{Memory};

    ghost from_gives = { λ _ e. e ≡ Memory };

    fn from(_refusal: AllocFailed<T>) -> TreeError {
        TreeError::Memory
    }
}
