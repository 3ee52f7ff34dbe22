//! Tests of walks that no row can make: counted walks, bytes requested, copies of views, and laws.
//!
//! Nothing depends on this crate, and it is no part of the product. The rows of walks are in `tests/`.
#![tactic(auto)]

#[cfg(test)]
mod items;
#[cfg(test)]
mod views;
#[cfg(test)]
mod visits;
#[cfg(test)]
mod walks;
