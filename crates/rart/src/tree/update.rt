//! Updates through a slot: a callback is called with the slot of a key, may change the value in it, and returns the
//! edit to make.
ghost use Rattle.std.specs.Prelude.{◌≡◌, ◌≢◌, None, Option, Some, Result, Ok, Err, IfOk, OnErr};
ghost use Rattle.std.specs.Fn.{FnOnceReturnsAtMut, FnOnceTakesAtMut};
ghost use Rattle.rart_keys.specs.SortedMap.{keys_of, lookup, put};
ghost use Rattle.rart_trie.specs.declared.slot.Slot.TheVariants.{Occupied as Occupied_slot};
ghost use Rattle.rart_trie.specs.declared.slot.SlotUpdate.{SlotUpdate};
ghost use Rattle.rart_trie.specs.shapes.Shape.{HasShape};
ghost use Rattle.rart_trie.specs.edits.Callbacks.{AnswersSo, KeepsSlot, KeepsSlotReturning};
ghost use Rattle.rart_trie.specs.edits.Slots.{slot_of};
ghost use Rattle.rart.specs.Updates.{Attempts, EndsIn, IsAttempt, KeepsSlotIfOk, TriesUpdate, Updates};
ghost use Rattle.rart.specs.Updates.{UpdatesReturning};
ghost use Rattle.rart.specs.Updates.{touched_in};
ghost use Rattle.rart.specs.declared.tree.update.TryUpdateError.TheVariants.{Clone as Not_cloned};

use crate::tree::{AdaptiveRadixTree, MAX_PAIRS, length_kept};
use rart_keys::KeyTrait;
use rart_keys::laws::sorted_map;
use rart_laws::put_back;
use rart_nodes::node::DefaultNode;
use rart_nodes::{Outcome, Refused, Slot, SlotUpdate, UpdateError};
use std::alloc::AllocError;
use std::mem;
use thiserror::Error;

/// Why a fallible update changed nothing.
#[derive(Drop, Debug, Error)]
pub enum TryUpdateError<E, V> {
    /// The callback returned this error.
    #[error("callback failed")]
    Callback(E),
    /// The requested insertion failed as that of `insert_k`; the error holds the value.
    #[error("{0}")]
    Insert(Refused<V>),
    /// The allocation for the requested removal failed. The pair keeps its old value.
    #[error("out of memory for a removal")]
    Remove,
    /// The stored value could not be cloned. The callback wasn't called.
    #[error("value was not cloned")]
    Clone,
}

/// The outcome of a callback that may fail.
#[derive(Drop)]
pub(crate) enum CallbackOutcome<V, E> {
    /// It wasn't called, since the value could not be cloned.
    NotCloned,
    /// It failed.
    Failed(E),
    /// It returned an edit. A clone of the value that was stored.
    Answered(Option<V>),
}

fn is_touched<V: Drop>(outcome: Outcome<V>) -> bool
    ensures { result ≡ touched_in outcome }
{
    !matches!(outcome, Outcome::Absent)
}

impl<K: KeyTrait, V> AdaptiveRadixTree<K, V> {
    // Calls `f` once with the slot of `key`, in one pass down, and makes the edit that it returns; returns also what
    // `f` returned beside.
    pub(crate) fn update_returning<X, F: FnOnce(&mut Slot<V>) -> (SlotUpdate<V>, X)>(
        &mut self,
        key: &K,
        f: F,
    ) -> (Result<Outcome<V>, UpdateError<V>>, X)
        requires callable { FnOnceTakesAtMut F.FnOnce f
            (slot_of (lookup (K.bytes key.now) self.old.pairs)) }
        requires occupancy { KeepsSlotReturning F.FnOnce f
            (lookup (K.bytes key.now) self.old.pairs) }
        ensures update { UpdatesReturning F.FnOnce f (K.bytes key.now) self.old.pairs result
            self.new.pairs }
        ensures nodes_unchanged { OnErr result.0 (self.new.nodes ≡ self.old.nodes) }
        ensures nodes { keys_of self.new.pairs ≡ keys_of self.old.pairs
            → self.new.nodes ≡ self.old.nodes }
    {
        let full = self.len == MAX_PAIRS;
        let bytes = key.as_ref();
        let (outcome, extra) = DefaultNode::update(&mut self.root, self.alloc, full, bytes, f);
        match &outcome {
            Ok(Outcome::New) => {
                self.len += 1;
                self.longest = self.longest.max(bytes.len());
            }
            Ok(Outcome::Removed(_)) => {
                self.len -= 1;
                self.longest = length_kept(self.len, self.longest);
            }
            _ => {}
        }
        (outcome, extra)
    }

    /// Calls `f` once with the slot of `key`, and makes the edit that it returns.
    ///
    /// `Keep` leaves the value as `f` left it, `Insert` replaces or inserts, `Remove` removes the key. `f` may change
    /// the value, and must leave an occupied slot occupied and a vacant one vacant. Returns whether the key was
    /// stored, or now is.
    ///
    /// # Errors
    ///
    /// [`UpdateError::Insert`] if an insertion of a new key fails as that of [`insert_k`](Self::insert_k). The tree is
    /// then unchanged, and the error holds the value. [`UpdateError::Remove`] if a removal fails as that of
    /// [`remove_k`](Self::remove_k). The nodes are then unchanged, and the pair keeps the value that `f` left.
    ///
    /// # Examples
    ///
    /// ```ignore
    /// let added = names.update_k(&ArrayKey::new_from_slice(b"bucket"), |slot| {
    ///     if let Slot::Occupied(n) = slot {
    ///         *n = n.wrapping_add(5);
    ///     }
    ///     SlotUpdate::Keep
    /// });
    /// ```
    pub fn update_k<F: FnOnce(&mut Slot<V>) -> SlotUpdate<V>>(
        &mut self,
        key: &K,
        f: F,
    ) -> Result<bool, UpdateError<V>>
    where
        V: Drop,
        requires callable { FnOnceTakesAtMut F.FnOnce f
            (slot_of (lookup (K.bytes key.now) self.old.pairs)) }
        requires occupancy { KeepsSlot F.FnOnce f (lookup (K.bytes key.now) self.old.pairs) }
        ensures update { Updates F.FnOnce f (K.bytes key.now) self.old.pairs result self.new.pairs }
        ensures shape { HasShape (keys_of self.new.pairs) self.new.nodes }
        ensures nodes_unchanged { OnErr result (self.new.nodes ≡ self.old.nodes) }
    {
        let outcome = update_plainly(self, key, f);
        self.canonical();
        match outcome {
            Ok(outcome) => Ok(is_touched(outcome)),
            Err(refused) => Err(refused),
        }
    }

    /// Updates the slot of `key` and returns whether it held or holds a value, as [`update_k`](Self::update_k).
    ///
    /// # Errors
    ///
    /// Those of [`update_k`](Self::update_k).
    pub fn update<F: FnOnce(&mut Slot<V>) -> SlotUpdate<V>>(
        &mut self,
        key: K,
        f: F,
    ) -> Result<bool, UpdateError<V>>
    where
        K: Drop,
        V: Drop,
        requires callable { FnOnceTakesAtMut F.FnOnce f
            (slot_of (lookup (K.bytes key) self.old.pairs)) }
        requires occupancy { KeepsSlot F.FnOnce f (lookup (K.bytes key) self.old.pairs) }
        ensures update { Updates F.FnOnce f (K.bytes key) self.old.pairs result self.new.pairs }
        ensures shape { HasShape (keys_of self.new.pairs) self.new.nodes }
        ensures nodes_unchanged { OnErr result (self.new.nodes ≡ self.old.nodes) }
    {
        self.update_k(&key, f)
    }

    // Replaces the value at a stored `key`.
    fn restore(&mut self, key: &K, value: V)
    where
        V: Drop,
        requires stored { lookup (K.bytes key.now) self.old.pairs ≢ None }
        ensures pairs { self.new.pairs ≡ put (K.bytes key.now) value self.old.pairs }
        ensures nodes { self.new.nodes ≡ self.old.nodes }
    {
        match self.get_mut_k(key) {
            Some(place) => *place = value,
            None => unreachable!(),
        }
    }

    /// Updates the slot of `key` as [`update_k`](Self::update_k), by an `f` that may fail.
    ///
    /// The stored value is cloned before `f` is called. A clone must equal its original.
    ///
    /// # Errors
    ///
    /// [`TryUpdateError::Callback`] if `f` fails, [`TryUpdateError::Insert`] or [`TryUpdateError::Remove`] if the
    /// requested edit fails, and [`TryUpdateError::Clone`] if the clone fails; `f` is then not called. Pairs and
    /// nodes are unchanged in each case.
    pub fn try_update_k<E, F: FnOnce(&mut Slot<V>) -> Result<SlotUpdate<V>, E> + Drop>(
        &mut self,
        key: &K,
        f: F,
    ) -> Result<bool, TryUpdateError<E, V>>
    where
        V: Clone,
        requires clones { (x y : V) → V.is_clone x y → y ≡ x }
        requires callable { FnOnceTakesAtMut F.FnOnce f
            (slot_of (lookup (K.bytes key.now) self.old.pairs)) }
        requires occupancy { KeepsSlotIfOk F.FnOnce f (lookup (K.bytes key.now) self.old.pairs) }
        ensures calls { result ≢ Err Not_cloned
            → TriesUpdate F.FnOnce f (K.bytes key.now) self.old.pairs result self.new.pairs }
        ensures not_cloned { result ≡ Err Not_cloned
            → (v : V) × (lookup (K.bytes key.now) self.old.pairs ≡ Some v)
            × (V.is_infallible v → ⊥) }
        ensures shape { HasShape (keys_of self.new.pairs) self.new.nodes }
        ensures unchanged { OnErr result (self.new ≡ self.old) }
    {
        self.canonical();
        put_back::<V>();
        sorted_map::<V>();
        let (outcome, callback) = try_update_slot(self, key, f);
        self.canonical();
        match callback {
            CallbackOutcome::NotCloned => Err(TryUpdateError::Clone),
            CallbackOutcome::Failed(error) => Err(TryUpdateError::Callback(error)),
            CallbackOutcome::Answered(old) => match outcome {
                Ok(outcome) => Ok(is_touched(outcome)),
                Err(UpdateError::Insert(refused)) => Err(TryUpdateError::Insert(refused)),
                Err(UpdateError::Remove) => match old {
                    Some(old) => {
                        self.restore(key, old);
                        Err(TryUpdateError::Remove)
                    }
                    None => unreachable!(),
                },
            },
        }
    }

    /// Updates the slot of `key` and returns whether it held or holds a value, as
    /// [`try_update_k`](Self::try_update_k).
    ///
    /// # Errors
    ///
    /// Those of [`try_update_k`](Self::try_update_k). Pairs and nodes are then unchanged.
    pub fn try_update<E, F: FnOnce(&mut Slot<V>) -> Result<SlotUpdate<V>, E> + Drop>(
        &mut self,
        key: K,
        f: F,
    ) -> Result<bool, TryUpdateError<E, V>>
    where
        K: Drop,
        V: Clone,
        requires clones { (x y : V) → V.is_clone x y → y ≡ x }
        requires callable { FnOnceTakesAtMut F.FnOnce f
            (slot_of (lookup (K.bytes key) self.old.pairs)) }
        requires occupancy { KeepsSlotIfOk F.FnOnce f (lookup (K.bytes key) self.old.pairs) }
        ensures calls { result ≢ Err Not_cloned
            → TriesUpdate F.FnOnce f (K.bytes key) self.old.pairs result self.new.pairs }
        ensures not_cloned { result ≡ Err Not_cloned
            → (v : V) × (lookup (K.bytes key) self.old.pairs ≡ Some v)
            × (V.is_infallible v → ⊥) }
        ensures shape { HasShape (keys_of self.new.pairs) self.new.nodes }
        ensures unchanged { OnErr result (self.new ≡ self.old) }
    {
        self.try_update_k(&key, f)
    }
}

// Updates by `f`, which returns nothing beside.
fn update_plainly<V, K: KeyTrait, F: FnOnce(&mut Slot<V>) -> SlotUpdate<V>>(
    tree: &mut AdaptiveRadixTree<K, V>,
    key: &K,
    f: F,
) -> Result<Outcome<V>, UpdateError<V>>
    requires callable { FnOnceTakesAtMut F.FnOnce f
        (slot_of (lookup (K.bytes key.now) tree.old.pairs)) }
    requires occupancy { KeepsSlot F.FnOnce f (lookup (K.bytes key.now) tree.old.pairs) }
    ensures update { AnswersSo F.FnOnce f (lookup (K.bytes key.now) tree.old.pairs)
        (λ r w. EndsIn (K.bytes key.now) r w tree.old.pairs result tree.new.pairs) }
    ensures nodes_unchanged { OnErr result (tree.new.nodes ≡ tree.old.nodes) }
{
    let (outcome, ()) = tree.update_returning(
        key,
        move |slot: &mut Slot<V>|
            requires { FnOnceTakesAtMut F.FnOnce f slot.old }
            ensures { FnOnceReturnsAtMut F.FnOnce f slot.old result.0 slot.new }
        { call(slot, f) },
    );
    outcome
}

// Calls `f`, and adds an empty second result.
fn call<V, F: FnOnce(&mut Slot<V>) -> SlotUpdate<V>>(
    slot: &mut Slot<V>,
    f: F,
) -> (SlotUpdate<V>, ())
    requires { FnOnceTakesAtMut F.FnOnce f slot.old }
    ensures { FnOnceReturnsAtMut F.FnOnce f slot.old result.0 slot.new }
{
    (f(slot), ())
}

// Updates by `f`, which may fail; the value at the key is then unchanged.
fn try_update_slot<
    V: Clone,
    E,
    K: KeyTrait,
    F: FnOnce(&mut Slot<V>) -> Result<SlotUpdate<V>, E> + Drop,
>(
    tree: &mut AdaptiveRadixTree<K, V>,
    key: &K,
    f: F,
) -> (Result<Outcome<V>, UpdateError<V>>, CallbackOutcome<V, E>)
    requires clones { (x y : V) → V.is_clone x y → y ≡ x }
    requires callable { FnOnceTakesAtMut F.FnOnce f
        (slot_of (lookup (K.bytes key.now) tree.old.pairs)) }
    requires occupancy { KeepsSlotIfOk F.FnOnce f (lookup (K.bytes key.now) tree.old.pairs) }
    ensures update { Attempts V.is_infallible F.FnOnce f (K.bytes key.now) tree.old.pairs result.1
        result.0 tree.new.pairs }
    ensures nodes_unchanged { OnErr result.0 (tree.new.nodes ≡ tree.old.nodes) }
    ensures nodes { keys_of tree.new.pairs ≡ keys_of tree.old.pairs
        → tree.new.nodes ≡ tree.old.nodes }
{
    tree.update_returning(
        key,
        move |slot: &mut Slot<V>|
            requires clones { (x y : V) → V.is_clone x y → y ≡ x }
            requires callable { FnOnceTakesAtMut F.FnOnce f slot.old }
            ensures { IsAttempt V.is_infallible F.FnOnce f slot.old result.0 result.1 slot.new }
        { attempt(slot, f) },
    )
}

// Clones the value in the slot, then calls `f`. Where `f` fails, puts the clone back.
fn attempt<V: Clone, E, F: FnOnce(&mut Slot<V>) -> Result<SlotUpdate<V>, E> + Drop>(
    slot: &mut Slot<V>,
    f: F,
) -> (SlotUpdate<V>, CallbackOutcome<V, E>)
    requires clones { (x y : V) → V.is_clone x y → y ≡ x }
    requires callable { FnOnceTakesAtMut F.FnOnce f slot.old }
    ensures { IsAttempt V.is_infallible F.FnOnce f slot.old result.0 result.1 slot.new }
{
    let Ok(copy) = saved_value(slot) else {
        return (SlotUpdate::Keep, CallbackOutcome::NotCloned);
    };
    match f(slot) {
        Ok(answer) => (answer, CallbackOutcome::Answered(copy)),
        Err(error) => {
            let _left = mem::replace(slot, Slot::new(copy)).into_option();
            (SlotUpdate::Keep, CallbackOutcome::Failed(error))
        }
    }
}

fn saved_value<V: Clone>(slot: &Slot<V>) -> Result<Option<V>, AllocError>
    requires clones { (x y : V) → V.is_clone x y → y ≡ x }
    ensures value { IfOk result (λ copy. slot_of copy ≡ slot.now) }
    ensures occupied { OnErr result
        ((v : V) × (slot.now ≡ Occupied_slot v) × (V.is_infallible v → ⊥)) }
{
    match slot {
        Slot::Occupied(value) => Ok(Some(value.clone()?)),
        Slot::Vacant => Ok(None),
    }
}
