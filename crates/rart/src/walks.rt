//! Look-ups by probe, iterators in both orders and from both ends, calls of a callback with each item, and texts.

// Each call with a callback requires that it is callable with each item in turn, as the earlier calls leave it. A
// callback without a condition always is; the caller proves a condition. The caller of a `_by_ref` form keeps its
// callback, in the state that the last call left, but a proof knows nothing of what a closure borrows. To count or to
// collect use the fold, which returns its state.

pub(crate) mod both_ends;
mod by_bytes;
mod callbacks;
mod common_prefix;
mod counts;
mod debug;
pub(crate) mod descending;
pub mod iter;
mod nearest;
mod outline;
mod prefixes;
pub mod range;
mod try_matches;
mod try_views;
mod views;
