//! Tests of the map over its public calls that no row of `tests/` can say: loads by index, laws, migrations and drops.
//!
//! Nothing depends on this crate, and it is no part of the product. A crate with tests is proved twice, so the tests
//! are in crates of their own, and use public calls alone. Values that count clones or drops are tested in
//! `rart_calls_tests`, walks of a map in `rart_iterators_tests`, `rart_walks_tests` and `rart_joins_tests`, nodes in
//! `rart_nodes_tests`, maps of children in `rart_maps_tests`, parts and keys in `rart_parts_tests`.
#![tactic(auto)]

#[cfg(test)]
mod bulk;
#[cfg(test)]
mod loads;
#[cfg(test)]
mod map;
#[cfg(test)]
mod play;
