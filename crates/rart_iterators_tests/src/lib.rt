//! Tests of iterators that no row can make: ranges over what an iterator has left or from every byte of a node, walks
//! after each insertion, counted look-ups and walks, and values that count their drops.
//!
//! Nothing depends on this crate, and it is no part of the product. The rows of iterators are in `tests/`.
#![tactic(auto)]

#[cfg(test)]
mod into_pairs;
#[cfg(test)]
mod iterators;
#[cfg(test)]
mod ranges;
