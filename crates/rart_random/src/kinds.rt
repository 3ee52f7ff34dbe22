//! The calls on a tree, by what they do.
pub mod edits;
pub mod grown;
pub mod loads;
pub mod owned;
pub mod parts;
pub mod reads;
pub mod retains;
pub mod turns;
pub mod views;
