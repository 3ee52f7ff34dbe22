//! Tests of blocks over their public calls.
//!
//! Nothing depends on this crate, and it is no part of the product.
#![tactic(auto)]

#[cfg(test)]
mod drops;
#[cfg(test)]
mod edits;
#[cfg(test)]
mod memory;
#[cfg(test)]
mod moves;
#[cfg(test)]
mod sparse;
