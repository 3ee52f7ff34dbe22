//! The error of a migration of text keys.

use thiserror::Error;

/// Why a migration built no tree. The old tree is unchanged.
#[derive(Clone, Copy, PartialEq, Eq, Debug, Error)]
pub enum MigrateError {
    /// An allocation failed.
    #[error("out of memory")]
    Memory,
    /// A key doesn't end in a zero byte.
    #[error("key {at} has no closing zero")]
    NotText {
        /// The index of the first such key, in ascending order.
        at: usize,
    },
}
