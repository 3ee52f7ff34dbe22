//! Reads of a shared tree, each node of which is visited by a counted step.

mod calls;
mod control;
mod ends;
mod equal;
mod intersect;
pub mod iter;
mod outline;
mod path_walk;
pub mod range;
pub mod seen;
mod view;

pub use control::{VisitControl, VisitError};
pub use outline::Outline;
pub use rart_trie::node::{Builder, ChildMap, DefaultNode, Node, NodeIter};
pub use view::{LendingKeyBytes, LendingKeyView};
