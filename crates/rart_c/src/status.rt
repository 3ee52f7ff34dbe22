//! The statuses that calls return.

/// The call succeeded. Of an insertion: the key was new.
pub(crate) const DONE: u8 = 0;

/// The key was stored, and its old value was replaced.
pub(crate) const REPLACED: u8 = 1;

/// The key is stored, and keeps its value.
pub(crate) const STORED: u8 = 1;

/// The key is not stored.
pub(crate) const ABSENT: u8 = 1;

/// An allocation failed. Nothing has changed.
pub(crate) const NO_MEMORY: u8 = 2;

/// The map holds as many pairs as it can count. Nothing has changed.
pub(crate) const FULL: u8 = 3;

/// A key has more bytes than the map's keys have. The map has not changed, nor has a variable, except the place of a
/// pair that a load writes.
pub(crate) const KEY_TOO_LONG: u8 = 4;

/// A bound is none of unbounded, included and excluded. Nothing has changed.
pub(crate) const BAD_BOUND: u8 = 5;

/// A key is below the one before it, at the place that was written. The map has not changed.
pub(crate) const UNSORTED: u8 = 6;

/// A network has more bits than its address. Nothing has changed.
pub(crate) const BAD_LENGTH: u8 = 7;

/// A bit of the address after those of the network is set. Nothing has changed.
pub(crate) const HOST_BITS: u8 = 8;
