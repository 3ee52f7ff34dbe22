//! What the tests of several crates share: requests for memory that are refused, and values that count their drops.
//!
//! It depends on the standard library alone, and is no part of the product.
#![tactic(auto)]

pub mod counted;
pub mod counts;
pub mod refusals;
