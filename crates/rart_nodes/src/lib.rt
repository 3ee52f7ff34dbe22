//! Counted reads of a shared Adaptive Radix Tree: look-ups, walks, iterators, ranges, intersections and equality.
//!
//! `rart_trie` has the node, its edits and its statistics. Its public types are re-exported here, and `rart_shape` is
//! [`shape`].
#![tactic(auto)]

pub mod node;

pub use node::seen::Seen;
pub use node::{LendingKeyBytes, LendingKeyView, Outline, VisitControl, VisitError, iter, range};
pub use rart_shape as shape;
pub use rart_trie::{
    Count, NodeStats, NotInserted, Outcome, Paired, Refused, Slot, SlotUpdate, TreeStats,
    UpdateError, Visits, slot, stats,
};
