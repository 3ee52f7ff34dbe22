//! Tests of nodes, and of the shape of a set of keys, over their public calls.
//!
//! Nothing depends on this crate, and it is no part of the product. It doesn't need the map, so that it is proved
//! beside it.
#![tactic(auto)]

#[cfg(test)]
mod kinds;
#[cfg(test)]
mod lent;
#[cfg(test)]
mod nodes;
#[cfg(test)]
mod shapes;
