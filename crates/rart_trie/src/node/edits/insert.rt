//! Insertion into the subtree of a node, which allocates before the first write.
ghost use Rattle.std.specs.Prelude.{◌≡◌, ◌+◌, ◌<◌, ◌≤◌, length, max, true, IfErr, IfOk, None, Some, OnErr, OnOk};
ghost use Rattle.rart_keys.specs.ByteStrings.{strip_prefix};
ghost use Rattle.rart_keys.specs.KeyBytes.{IsWithin};
ghost use Rattle.rart_keys.specs.SortedMap.{count_of, lookup, put, longest_key};
ghost use Rattle.rart_parts.specs.Entries.{child_at, with_entry};
ghost use Rattle.rart_trie.specs.edits.InsertAllocations.{MayAllocateFor, trie_put_allocates};
ghost use Rattle.rart_trie.specs.edits.InsertStops.{FailsPut, FailsInsertInto, FailsInsert};
ghost use Rattle.rart_trie.specs.storages.Stored.{child_entries, storage_capacity, stored_prefix, stored_value};
ghost use Rattle.rart_trie.specs.tries.Trie.{IsCanonical, leaf, pairs_of, prefix_of, with_records};
ghost use Rattle.rart_trie.specs.tries.Trie.{trie_lookup, trie_put};

use crate::node::DefaultNode;
use crate::node::fill::fill;
use crate::node::storage::Storage;
use crate::refused::{NotInserted, Refused};
use rart_keys::Partial;
use rart_parts::TreeError;
use std::alloc::Global;
use std::mem;

// Why an insertion failed; the node is unchanged.
#[derive(Clone, Copy)]
enum InsertStop {
    // Only a new key was wanted, and this one is stored.
    Stored,
    // An allocation failed.
    Memory,
}

impl<P: Partial, V> DefaultNode<P, V> {
    /// Splits the node at the byte where `key` leaves its prefix, and stores `value` at the key.
    ///
    /// # Errors
    ///
    /// [`TreeError::Memory`] if an allocation fails. The node is then unchanged, and the error holds `value`.
    #[inline(never)]
    pub(super) fn split(&mut self, alloc: Global, key: &[u8], value: V) -> Result<(), Refused<V>>
        requires leaves { None ≡ strip_prefix (prefix_of self.old) key.now }
        requires within { IsWithin P.MAXIMUM_SIZE (length key.now) }
        ensures ok { OnOk result (self.new ≡ trie_put key.now value self.old) }
        ensures unchanged { OnErr result (self.new ≡ self.old) }
        ensures returned { IfErr result (λ r. (r.error ≡ TreeError.Memory) × (r.value ≡ value)) }
    {
        let prefix = self.storage.prefix();
        let shared = prefix.prefix_length_slice(key);
        let head = prefix.partial_before(shared);
        let low = prefix.partial_after(shared);
        let low_byte = low.at(0);
        let Ok(next) = Storage::new_4(alloc, head) else {
            return Err(Refused {
                error: TreeError::Memory,
                value,
            });
        };
        let mut storage = mem::replace(&mut self.storage, next);
        storage.set_prefix(low);
        self.storage.add_within(low_byte, DefaultNode { storage });
        if key.len() == shared {
            self.storage.fill_value(value);
            return Ok(());
        }
        let rest = &key[shared..];
        let leaf = DefaultNode::new_leaf(P::from_slice(rest), value);
        self.storage.add_within(rest[0], leaf);
        Ok(())
    }

    // Out-parameter `back`: returning `V` by value would copy it at each level. With `only_new`, a stored key stops the
    // insertion.
    fn put_below(
        &mut self,
        alloc: Global,
        only_new: bool,
        key: &[u8],
        value: V,
        back: &mut Option<V>,
    ) -> Result<(), InsertStop>
        requires canonical { IsCanonical self.old }
        requires within { IsWithin P.MAXIMUM_SIZE (length key.now) }
        requires empty { back.old ≡ None }
        ensures ok { OnOk result (self.new ≡ trie_put key.now value self.old) }
        ensures answer { OnOk result (back.new ≡ trie_lookup key.now self.old) }
        ensures absent { OnOk result (only_new ≡ true → trie_lookup key.now self.old ≡ None) }
        ensures unchanged { OnErr result (self.new ≡ self.old) }
        ensures returned { OnErr result (back.new ≡ Some value) }
        ensures refused { IfErr result (FailsPut only_new key.now self.old) }
    {
        let Some(rest) = self.storage.strip_prefix(key) else {
            return match self.split(alloc, key, value) {
                Ok(()) => Ok(()),
                Err(Refused { error: _, value }) => {
                    fill(back, Some(value));
                    Err(InsertStop::Memory)
                }
            };
        };
        let Some(&byte) = rest.first() else {
            if only_new && self.storage.has_value() {
                fill(back, Some(value));
                return Err(InsertStop::Stored);
            }
            fill(back, self.storage.replace_value(value));
            return Ok(());
        };
        if let Some(child) = self.storage.seek_child_mut(byte) {
            return child.put_below(alloc, only_new, rest, value, back);
        }
        match self.storage.reserve_slot(alloc, byte) {
            Ok(()) => {
                add_leaf(&mut self.storage, byte, rest, value);
                Ok(())
            }
            Err(_) => {
                fill(back, Some(value));
                Err(InsertStop::Memory)
            }
        }
    }

    fn put(&mut self, alloc: Global, key: &[u8], value: V) -> Result<Option<V>, Refused<V>>
        requires canonical { IsCanonical self.old }
        requires within { IsWithin P.MAXIMUM_SIZE (length key.now) }
        ensures ok { OnOk result (self.new ≡ trie_put key.now value self.old) }
        ensures answer { IfOk result (λ old. old ≡ trie_lookup key.now self.old) }
        ensures unchanged { OnErr result (self.new ≡ self.old) }
        ensures returned { IfErr result (λ r. (r.error ≡ TreeError.Memory) × (r.value ≡ value)) }
        ensures allocates { OnErr result ((trie_put_allocates key.now self.old ≡ true)
            × (trie_lookup key.now (with_records self.old) ≡ None)) }
    {
        let mut back: Option<V> = None;
        match self.put_below(alloc, false, key, value, &mut back) {
            Ok(()) => Ok(back),
            Err(InsertStop::Memory) => Err(Refused {
                error: TreeError::Memory,
                value: back.unwrap(),
            }),
            Err(InsertStop::Stored) => unreachable!(),
        }
    }

    fn put_new(&mut self, alloc: Global, key: &[u8], value: V) -> Result<(), NotInserted<V>>
        requires canonical { IsCanonical self.old }
        requires within { IsWithin P.MAXIMUM_SIZE (length key.now) }
        ensures ok { OnOk result (self.new ≡ trie_put key.now value self.old) }
        ensures absent { OnOk result (trie_lookup key.now self.old ≡ None) }
        ensures unchanged { OnErr result (self.new ≡ self.old) }
        ensures refused { IfErr result (FailsInsert key.now value self.old) }
    {
        let mut back: Option<V> = None;
        match self.put_below(alloc, true, key, value, &mut back) {
            Ok(()) => match back {
                None => Ok(()),
                Some(_) => unreachable!(),
            },
            Err(InsertStop::Memory) => Err(NotInserted::Refused(Refused {
                error: TreeError::Memory,
                value: back.unwrap(),
            })),
            Err(InsertStop::Stored) => Err(NotInserted::Stored(back.unwrap())),
        }
    }

    /// Stores `value` at `key`, the rest of a key after the path to this node, and returns the old value. The trie
    /// must be canonical and the key within the maximum.
    ///
    /// # Errors
    ///
    /// [`TreeError::Memory`] if `key` has no node, the node below which it becomes a child must be split or is full,
    /// and the allocation fails. The node is then unchanged, and the error holds `value`.
    pub fn insert(&mut self, alloc: Global, key: &[u8], value: V) -> Result<Option<V>, Refused<V>>
        requires canonical { IsCanonical self.old }
        requires within { IsWithin P.MAXIMUM_SIZE (length key.now) }
        ensures canonical { OnOk result (IsCanonical self.new) }
        ensures pairs { OnOk result (pairs_of self.new ≡ put key.now value (pairs_of self.old)) }
        ensures answer { IfOk result (λ old. old ≡ lookup key.now (pairs_of self.old)) }
        ensures count { IfOk result (λ old. length (pairs_of self.new) + count_of old
            ≡ length (pairs_of self.old) + 1) }
        ensures longest_key { OnOk result (longest_key (pairs_of self.new)
            ≤ max (longest_key (pairs_of self.old)) (length key.now)) }
        ensures unchanged { OnErr result (self.new ≡ self.old) }
        ensures returned { IfErr result (λ r. (r.error ≡ TreeError.Memory) × (r.value ≡ value)) }
        ensures allocates { OnErr result (MayAllocateFor key.now (pairs_of self.old)) }
    {
        self.put(alloc, key, value)
    }

    /// Stores `value` at `key` if the key is new, with the requirements of `insert`.
    ///
    /// # Errors
    ///
    /// [`NotInserted::Stored`] if the key is stored, and [`NotInserted::Refused`] if an allocation fails as in
    /// `insert`. The node is then unchanged, and the error holds `value`. Finding a stored key does not allocate.
    pub fn insert_new(&mut self, alloc: Global, key: &[u8], value: V) -> Result<(), NotInserted<V>>
        requires canonical { IsCanonical self.old }
        requires within { IsWithin P.MAXIMUM_SIZE (length key.now) }
        ensures canonical { OnOk result (IsCanonical self.new) }
        ensures pairs { OnOk result (pairs_of self.new ≡ put key.now value (pairs_of self.old)) }
        ensures absent { OnOk result (lookup key.now (pairs_of self.old) ≡ None) }
        ensures count { OnOk result (length (pairs_of self.new) ≡ length (pairs_of self.old) + 1) }
        ensures longest_key { OnOk result (longest_key (pairs_of self.new)
            ≤ max (longest_key (pairs_of self.old)) (length key.now)) }
        ensures unchanged { OnErr result (self.new ≡ self.old) }
        ensures refused { IfErr result (FailsInsertInto key.now value (pairs_of self.old)) }
    {
        self.put_new(alloc, key, value)
    }
}

/// Adds a leaf at byte `b`, which has no child. It does not allocate.
// Not inline: a descent that calls it holds no node on the stack.
#[inline(never)]
pub(super) fn add_leaf<Q, P: Partial, V>(
    storage: &mut Storage<Q, V, DefaultNode<P, V>>,
    b: u8,
    rest: &[u8],
    value: V,
)
    requires within { IsWithin P.MAXIMUM_SIZE (length rest.now) }
    requires absent { child_at b (child_entries storage.old) ≡ None }
    requires not_full { length (child_entries storage.old) < storage_capacity storage.old }
    ensures entries { child_entries storage.new
        ≡ with_entry b (leaf rest.now value) (child_entries storage.old) }
    ensures capacity { storage_capacity storage.new ≡ storage_capacity storage.old }
    ensures value_kept { stored_value storage.new ≡ stored_value storage.old }
    ensures prefix_kept { stored_prefix storage.new ≡ stored_prefix storage.old }
{
    storage.add_within(b, DefaultNode::new_leaf(P::from_slice(rest), value));
}
