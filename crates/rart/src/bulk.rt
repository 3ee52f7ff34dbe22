//! The error of a bulk load.

use thiserror::Error;

/// Why a bulk load built no tree. What was read or taken until then is dropped.
#[derive(Clone, Copy, PartialEq, Eq, Debug, Error)]
pub enum BulkError {
    /// An allocation failed.
    #[error("out of memory")]
    Memory,
    /// There are more keys than a tree holds.
    #[error("tree is full")]
    Full,
    /// An item's key is below the key of the item before it.
    #[error("item {at} is below its predecessor")]
    Unsorted {
        /// The item's index; `usize::MAX` if the index is beyond it.
        at: usize,
    },
}
