//! Tests of calls of the map that no row can make: with values that count their drops, whose clone fails or requests
//! memory, with keys made of texts and numbers, as `{:?}` and `outline` print a tree, and on trees that are not
//! compared as rows do.
//!
//! Nothing depends on this crate, and it is no part of the product. The rows of calls are in `tests/`. Other tests of
//! the map are in `rart_tests`, `rart_iterators_tests`, `rart_walks_tests` and `rart_joins_tests`.
#![tactic(auto)]

#[cfg(test)]
mod debug;
#[cfg(test)]
mod no_requests;
#[cfg(test)]
mod outline;
#[cfg(test)]
mod retained;
#[cfg(test)]
mod stats;
#[cfg(test)]
mod texts;
#[cfg(test)]
mod uncloned;
#[cfg(test)]
mod updates;
