//! Sets of positions, arrays of slots and searches among keys.

pub mod bitarray;
pub mod bitset;
pub(crate) mod places;
pub mod u8_keys;
