//! The map for callers in C: maps from keys of at most 32 or 128 bytes to `u64`.
//!
//! A map is held by a handle of one pointer. A null pointer is an empty map, so a zeroed handle is one. Each call takes
//! the map out of its handle and puts it back, so a handle is used by one call at a time.
#![tactic(auto)]

mod addresses;
mod bounds;
mod map128;
mod map32;
mod net4;
mod net6;
mod parked;
mod stats;
mod status;
