//! Errors that return the offered value.
ghost use Rattle.std.specs.Prelude.{◌≡◌};

use rart_parts::TreeError;
use thiserror::Error;

/// Holds the error of a failed call and the offered value.
#[derive(Drop, Debug, Error)]
#[error("{error}")]
pub struct Refused<T> {
    /// Says why the call failed.
    pub error: TreeError,
    /// The offered value, unchanged.
    pub value: T,
}

impl<T> Refused<T> {
    /// Returns the refusal of `value` by a full tree. It does not allocate.
    pub fn full(value: T) -> Self
        ensures { result ≡ record { error = TreeError.Full; value = value } }
    {
        Refused {
            error: TreeError::Full,
            value,
        }
    }
}

/// Says why a new key was not inserted. The tree is unchanged.
#[derive(Drop, Debug, Error)]
pub enum NotInserted<V> {
    /// The key is stored. Holds the offered value.
    #[error("key is stored")]
    Stored(V),
    /// The insertion failed. Holds the error and the offered value.
    #[error("{0}")]
    Refused(Refused<V>),
}
