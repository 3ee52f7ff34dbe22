//! One node of an Adaptive Radix Tree: its storage, the edits of the subtree below it, and its statistics.
//!
//! A contract reads a node as a trie, plain data that holds the whole subtree. The contract of each edit equates it
//! with a function on tries.
#![tactic(auto)]

mod count;
pub mod node;
mod refused;
pub mod slot;
pub mod stats;

pub use count::{Count, Paired, Visits};
pub use refused::{NotInserted, Refused};
pub use slot::{Outcome, Slot, SlotUpdate, UpdateError};
pub use stats::{NodeStats, TreeStats};
