//! Look-ups in a shared tree, and walks below a prefix and between two bounds, which read nodes only by counted
//! visits.

mod common_prefix;
mod count_pairs;
mod count_range;
mod fold;
mod lending;
mod longest_view;
mod look_up;
pub(crate) mod matching;
mod nearest;
mod range_views;
mod try_for_each;
mod try_range_views;
mod try_views;
mod visit;
