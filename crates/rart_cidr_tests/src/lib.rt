//! Tests of networks and of the tables of networks over their public calls, of both versions, as rows and beside slow
//! models.
//!
//! Nothing depends on this crate, and it is no part of the product.
#![tactic(auto)]

#[cfg(test)]
mod aggregates;
#[cfg(test)]
mod calls;
#[cfg(test)]
mod checks;
#[cfg(test)]
mod drops;
#[cfg(test)]
mod each_call;
#[cfg(test)]
mod edits;
#[cfg(test)]
mod model;
#[cfg(test)]
mod neighbours;
#[cfg(test)]
mod nested;
#[cfg(test)]
mod player;
#[cfg(test)]
mod random;
#[cfg(test)]
mod reads;
#[cfg(test)]
mod removals;
#[cfg(test)]
mod rows;
#[cfg(test)]
mod short;
#[cfg(test)]
mod tables;
#[cfg(test)]
mod versions;
#[cfg(test)]
mod walks;
#[cfg(test)]
mod whole_tables;
