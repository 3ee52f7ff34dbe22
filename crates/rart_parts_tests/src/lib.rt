//! Tests of the parts of nodes, and of keys, over their public calls.
//!
//! Nothing depends on this crate, and it is no part of the product. It needs neither nodes nor the map, so that it is
//! proved beside them.
#![tactic(auto)]

#[cfg(test)]
mod compare;
#[cfg(test)]
mod keys;
#[cfg(test)]
mod parts;
