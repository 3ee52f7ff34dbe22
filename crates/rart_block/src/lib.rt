//! One allocation with a header, keys and places for items: [`Block`], whose items fill its first places, and
//! [`SparseBlock`], of which any place may hold an item.
//!
//! Only [`Block::new`] and [`SparseBlock::new`] allocate, once. No other call does.
#![tactic(auto)]

pub mod block;
mod raw;
mod raw_sparse;
pub mod sparse_block;

pub use block::Block;
pub use raw_sparse::Slots;
pub use sparse_block::SparseBlock;
