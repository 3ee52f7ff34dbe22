//! The results of callbacks that can end a walk, and the errors of such walks.

use thiserror::Error;

/// Says whether a walk continues.
#[derive(Clone, Copy, PartialEq, Eq, Debug)]
pub enum VisitControl {
    /// Continues with the next value.
    Continue,
    /// Ends the walk with `Ok(())`.
    Stop,
}

/// Says why a walk failed. A walk changes nothing in the tree.
#[derive(Drop, Debug, Error)]
pub enum VisitError<E> {
    /// The callback returned this error. It was not called again.
    #[error("callback failed")]
    Callback(E),
    /// The allocation for the walk failed. The callback was not called.
    #[error("out of memory")]
    Memory,
}
