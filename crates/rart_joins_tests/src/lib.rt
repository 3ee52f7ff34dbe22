//! Tests of intersections, unions, merges, `==` and route tables that no row can make: laws, counted calls, drops, and
//! values that are no numbers. The rows are in `tests/`.
//!
//! Nothing depends on this crate, and it is no part of the product.
#![tactic(auto)]

#[cfg(test)]
mod equal;
#[cfg(test)]
mod joins;
#[cfg(test)]
mod routes;
#[cfg(test)]
mod unions;
