//! A tree beside its model.
use crate::model::Model;
use crate::numbers::mix_bytes;
use crate::text::Text;
use rart::{AdaptiveRadixTree, KeyTrait};
use std::alloc::Global;
use std::ops::Bound;

/// The trees.
pub type Tree<K> = AdaptiveRadixTree<K, u64>;

/// A tree beside its model.
#[derive(Drop)]
pub struct Side<K: KeyTrait> {
    /// The tree.
    pub tree: Tree<K>,
    /// The list of the same pairs.
    pub model: Model,
}

impl<K: KeyTrait> Side<K> {
    /// An empty tree beside an empty list.
    pub fn new(alloc: Global) -> Self {
        Side {
            tree: Tree::new(alloc),
            model: Model::new(alloc),
        }
    }
}

/// The key of a text, unless it is too long.
pub fn key_of<K: KeyTrait>(text: &Text) -> Option<K> {
    let bytes = text.as_slice();
    match K::MAXIMUM_SIZE {
        Some(maximum) if maximum < bytes.len() => None,
        _ => Some(K::new_from_slice(bytes)),
    }
}

/// The same key once more.
pub fn same_key<K: KeyTrait>(key: &K) -> K {
    key.truncate(key.as_ref().len())
}

/// A bound at a key: 0 for none, 1 for one that is included, 2 for one that is excluded.
pub fn bound_of<K: KeyTrait>(key: &K, way: u64) -> Bound<K> {
    match way {
        0 => Bound::Unbounded,
        1 => Bound::Included(same_key(key)),
        _ => Bound::Excluded(same_key(key)),
    }
}

/// The sum with a key.
pub fn mix_key<K: KeyTrait>(sum: u64, key: &K) -> u64 {
    mix_bytes(sum, key.as_ref())
}
