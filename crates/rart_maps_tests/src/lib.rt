//! Tests of maps from bytes to children over their public calls.
//!
//! Nothing depends on this crate, and it is no part of the product.
#![tactic(auto)]

#[cfg(test)]
mod bounds;
#[cfg(test)]
mod compare;
#[cfg(test)]
mod conversions;
#[cfg(test)]
mod drops;
#[cfg(test)]
mod extras;
#[cfg(test)]
mod four;
#[cfg(test)]
mod mappings;
#[cfg(test)]
mod sizes;
pub mod tree;
