//! The calls of a tree, as values.

use rart_nodes::SlotUpdate;
use std::ops::Bound;

/// A call of a tree.
#[derive(Drop)]
pub enum Call<K, V> {
    /// Returns the value at a key.
    Get(K),
    /// Inserts a value at a key.
    Insert(K, V),
    /// Inserts a value at a new key.
    TryInsert(K, V),
    /// Removes a key and returns its value.
    Remove(K),
    /// Removes a key and returns whether it was stored.
    Delete(K),
    /// Updates the slot of a key: an occupied one gets the value first, if there is one; then this edit is made.
    Update(K, Option<V>, SlotUpdate<V>),
    /// Updates as `Update`, by a callback that may fail.
    TryUpdate(K, Option<V>, Result<SlotUpdate<V>, ()>),
    /// Returns the pair whose key is the longest that begins a probe.
    Longest(K),
    /// Returns the pairs whose key begins a probe.
    Matches(K),
    /// Returns the pairs whose key begins with a prefix.
    Prefix(K),
    /// Returns the pairs within two bounds.
    Range(Bound<K>, Bound<K>),
    /// Returns all pairs.
    Iter,
    /// Returns all values.
    Values,
    /// Returns the number of pairs.
    Len,
    /// Returns whether there is no pair.
    IsEmpty,
    /// Returns the statistics.
    Stats,
}
