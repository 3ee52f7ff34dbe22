//! The replies to calls of a tree.

use crate::stats::TreeStats;
use rart_parts::TreeError;

/// The reply to a call of a tree.
#[derive(Drop)]
pub enum Reply<K, V> {
    /// The value that the key has or had, `None` if it wasn't stored.
    Value(Option<V>),
    /// Of `Delete`, whether the key was stored; of `Update` and `TryUpdate`, whether it was stored or now is; of
    /// `IsEmpty`, whether there is no pair.
    Done(bool),
    /// The key was new, and has the value.
    Inserted,
    /// The key is stored: the value that was offered, and the stored one.
    Occupied(V, V),
    /// One pair, `None` if there is none.
    Pair(Option<(K, V)>),
    /// The pairs that the call returned, ascending by key.
    Pairs(Vec<(K, V)>),
    /// All values, ascending by their keys.
    Values(Vec<V>),
    /// The number of pairs.
    Len(usize),
    /// The statistics.
    Stats(TreeStats),
    /// The call failed, and the tree is unchanged.
    Refused(TreeError),
    /// The insertion failed, and the tree is unchanged: the reason, and the value that was offered.
    Returned(TreeError, V),
    /// The callback failed, and the tree is unchanged.
    Failed,
    /// The stored value could not be cloned. The callback wasn't called, and the tree is unchanged.
    NoClone,
    /// The removal that the callback requested failed. `Update` leaves the pair with the value that was written,
    /// `TryUpdate` the tree unchanged.
    NoRemove,
}
