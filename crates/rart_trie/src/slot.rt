//! The slot of a key, which a callback can change, and the results of such callbacks.
ghost use Rattle.std.specs.Prelude.{◌≡◌, None, Option};
ghost use Rattle.std.specs.Fn.{FnOnceReturnsAtMut, FnOnceTakesAtMut};
ghost use Rattle.rart_trie.specs.edits.Slots.{slot_of};
ghost use Rattle.rart_trie.specs.declared.slot.SlotUpdate.{SlotUpdate};

use crate::refused::Refused;
use thiserror::Error;

/// Holds the value at a key. A callback may change an occupied slot's value, and must keep a slot occupied or vacant.
#[derive(Drop)]
pub enum Slot<V> {
    /// The key is not stored.
    Vacant,
    /// The key is stored. Holds its value.
    Occupied(V),
}

/// Says what an update does with its key.
#[derive(Drop)]
pub enum SlotUpdate<V> {
    /// Keeps the pair as the callback left it.
    Keep,
    /// Removes the key if it is stored.
    Remove,
    /// Stores this value at the key.
    Insert(V),
}

/// Says why an update failed.
#[derive(Drop, Debug, Error)]
pub enum UpdateError<V> {
    /// The insertion of a new key failed. The tree is unchanged. Holds the error and the offered value.
    #[error("{0}")]
    Insert(Refused<V>),
    /// An allocation of the removal failed. The pair keeps the value that the callback left.
    #[error("out of memory for a removal")]
    Remove,
}

/// Says what an update did.
#[derive(Drop)]
pub enum Outcome<V> {
    /// The key is not stored, before or after.
    Absent,
    /// The key was inserted.
    New,
    /// Keeps the pair with the value that the callback left.
    Kept,
    /// The value was replaced. Holds the value that the callback left.
    Replaced(V),
    /// The key was removed. Holds the value that the callback left.
    Removed(V),
}

impl<V> Slot<V> {
    /// Returns the slot with this content.
    pub fn new(content: Option<V>) -> Self
        ensures { result ≡ slot_of content }
    {
        match content {
            Some(value) => Slot::Occupied(value),
            None => Slot::Vacant,
        }
    }

    /// Returns the content of the slot.
    pub fn into_option(self) -> Option<V>
        ensures { self ≡ slot_of result }
    {
        match self {
            Slot::Occupied(value) => Some(value),
            Slot::Vacant => None,
        }
    }
}

/// What a callback made of a slot.
pub(crate) struct Visit<V, X> {
    /// The content that the callback left.
    pub left: Option<V>,
    /// The requested update.
    pub answer: SlotUpdate<V>,
    /// The second result of the callback.
    pub extra: X,
}

/// Calls `f` once with the slot of this content.
pub(crate) fn show<V, X, F: FnOnce(&mut Slot<V>) -> (SlotUpdate<V>, X)>(
    content: Option<V>,
    f: F,
) -> Visit<V, X>
    requires callable { FnOnceTakesAtMut F.FnOnce f (slot_of content) }
    ensures { FnOnceReturnsAtMut F.FnOnce f (slot_of content) (result.answer, result.extra)
        (slot_of result.left) }
{
    let mut slot = Slot::new(content);
    let (answer, extra) = f(&mut slot);
    Visit {
        left: slot.into_option(),
        answer,
        extra,
    }
}

/// Calls `f` once with a vacant slot and returns its results.
pub(crate) fn show_vacant<V, X, F: FnOnce(&mut Slot<V>) -> (SlotUpdate<V>, X)>(
    f: F,
) -> (SlotUpdate<V>, X)
    requires callable { FnOnceTakesAtMut F.FnOnce f (slot_of None) }
    requires occupancy { (r : SlotUpdate V) (x : X) (w : Option V)
        → FnOnceReturnsAtMut F.FnOnce f (slot_of None) (r, x) (slot_of w) → w ≡ None }
    ensures { FnOnceReturnsAtMut F.FnOnce f (slot_of None) (result.0, result.1) (slot_of None) }
{
    let Visit {
        left,
        answer,
        extra,
    } = show(None, f);
    match left {
        None => (answer, extra),
        Some(_) => unreachable!(),
    }
}
