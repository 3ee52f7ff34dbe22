//! Maps from bytes to children in four kinds: sorted, by an index, with a slot for each byte, and in keyed slots.
//!
//! The first three are each one pointer to one allocation that also stores an extra value; a contract reads such a map
//! as its entries and its extra value. [`mapping::KeyedMapping`] is over a vector, and has no extra value.
//! [`mapping::FourKeys`] holds no child: it is the keys of at most four, which are in a block beside it.
//!
//! A conversion moves all children and empties its source; both keep their extra values. A conversion that fails leaves
//! its source unchanged. Only `new`, `with_extra` and the `from_*` conversions allocate, once each.
#![tactic(auto)]

pub mod mapping;
