//! Calls on two trees: joins, unions, differences, moves from one to the other, and comparisons.

mod ahead;
mod append;
pub mod difference;
mod equal;
mod intersect;
mod merge;
mod sets;
pub mod union;
