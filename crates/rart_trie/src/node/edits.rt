//! Edits of a node and of its subtree.

pub(crate) mod builder;
mod drop_tree;
mod get_mut;
mod insert;
mod pop;
mod remove;
mod retain;
mod split;
mod take_prefix;
mod take_values;
mod take_within;
mod update;
mod values_mut;
