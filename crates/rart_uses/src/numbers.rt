//! Numbers as keys.

use crate::readings::Readings;
use rart::{ArrayKey, TreeError};

/// Removes the reading at time 1 and returns it.
///
/// # Errors
///
/// [`TreeError::Memory`] as of `remove_k`.
pub fn remove_earliest(readings: &mut Readings) -> Result<Option<u64>, TreeError> {
    let removed = readings.remove_k(&ArrayKey::<8>::from_u64(1));
    removed
}
