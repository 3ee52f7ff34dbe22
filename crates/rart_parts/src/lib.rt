//! The parts of tree nodes: sets of positions, arrays of slots, and key search.
//!
//! - [`utils::bitset`]: sets of positions in words of 8 to 64 bits. A contract reads a set as its membership test.
//! - [`utils::bitarray`]: slots for values, with the set of the used ones. A contract reads an array as its list of
//!   slots.
//! - [`utils::u8_keys`]: the position of a byte among keys, sorted or not.
//! - [`laws`]: facts on maps from bytes, for the proofs of other crates.
//!
//! Only `BitArray::new` allocates. It returns a `Result`.
#![tactic(auto)]

pub mod error;
pub mod laws;
pub mod utils;

pub use error::TreeError;
