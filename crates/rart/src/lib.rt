//! An ordered map over byte keys that shares prefixes: an Adaptive Radix Tree.
//!
//! Contracts see a tree as its sorted pairs and the records of its nodes. After any list of calls the nodes are
//! exactly the branch points of the keys, each of the kind that its child count fixes. Every answer is that of the
//! sorted list of pairs. A call of the map that fails changes neither, with five exceptions. A failed removal of
//! `update*` keeps the value that the callback wrote. A failed `extend` keeps the items before the refused one. A
//! failed `append` or `merge_with` keeps the pairs moved before it. A failed `retain` keeps what it did before the
//! failed removal. A law that makes several calls says which state remains if one of them fails.
#![tactic(auto)]

mod bulk;
mod error;
pub mod laws;
mod migrate;
pub mod routes;
pub mod script;
pub mod stats;
pub mod tree;
mod walks;

pub use crate::bulk::BulkError;
pub use crate::error::Error;
pub use crate::migrate::MigrateError;
pub use crate::routes::RouteTable;
pub use crate::stats::{NodeStats, TreeStats, TreeStatsTrait};
pub use crate::tree::AdaptiveRadixTree;
pub use crate::tree::into_pairs::IntoPairs;
pub use crate::tree::try_insert::TryInsertError;
pub use crate::tree::two_trees::difference::DifferenceIter;
pub use crate::tree::two_trees::union::UnionIter;
pub use crate::tree::update::TryUpdateError;
pub use crate::walks::both_ends::{BothEnds, BothEndsWithin, ValuesBothEnds};
pub use crate::walks::descending::{
    Descending, RangeDescending, SeenDescending, SeenRangeDescending,
};
pub use crate::walks::iter::{Iter, PrefixMatchIter, SeenIter, ValuesIter};
pub use crate::walks::range::{Range, SeenRange};
pub use crate::walks::{iter, range};
pub use rart_keys::{ArrPartial, ArrayKey, KeyTrait, Partial, keys, partials};
pub use rart_maps::mapping;
pub use rart_nodes::node::{VisitControl, VisitError};
pub use rart_nodes::{
    Count, LendingKeyBytes, LendingKeyView, NotInserted, Outline, Paired, Refused, Seen, Slot,
    SlotUpdate, UpdateError, Visits, node,
};
pub use rart_parts::{TreeError, utils};
