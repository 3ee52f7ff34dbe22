//! Removal from a storage: few remaining children move into the next smaller kind.
ghost use Rattle.std.specs.Prelude.{◌≡◌, ◌≢◌, ◌⊎◌, ◌<◌, ◌≤◌, ◌+◌, ◌∷◌, [], length, None, true, false, IfErr, IfOk};
ghost use Rattle.std.specs.Prelude.{OnErr, OnOk};
ghost use Rattle.rart_parts.specs.Entries.{child_at, without_byte};
ghost use Rattle.rart_parts.specs.Errors.{IsMemory};
ghost use Rattle.rart_trie.specs.storages.Capacities.{previous_capacity};
ghost use Rattle.rart_trie.specs.storages.Stored.{ShrinksStored, child_entries, capacity_without, storage_capacity};
ghost use Rattle.rart_trie.specs.storages.Stored.{stored_prefix, stored_value};

use crate::node::fill::fill;
use crate::node::storage::grow::{new_block, new_indexed, new_sorted};
use crate::node::storage::prefix::take_prefix;
use crate::node::storage::{Kind, Storage};
use rart_keys::Partial;
use rart_maps::mapping::{FourKeys, NodeMapping};
use rart_parts::TreeError;
use std::alloc::Global;

impl<P: Partial, V, N> Storage<P, V, N> {
    /// Returns the capacity of the next smaller kind plus one, the number of children at which a removal changes the
    /// kind.
    fn last_count(&self) -> usize
        ensures { result ≡ previous_capacity (storage_capacity self.now) + 1 }
    {
        match &self.kind {
            Kind::Empty(_) | Kind::Leaf(_, _) => 1,
            Kind::Node4(_, _, _) => 1,
            Kind::Node16(_, _) => 5,
            Kind::Node48(_, _) => 17,
            Kind::Node256(_, _) => 49,
        }
    }

    /// Returns whether the storage keeps its kind when the child at byte `b` is removed.
    fn keeps_kind(&self, b: u8) -> bool
        ensures kept_kind { result ≡ true → (child_at b (child_entries self.now) ≡ None)
            ⊎ (previous_capacity (storage_capacity self.now) + 1
            < length (child_entries self.now)) }
        ensures changed_kind { result ≡ false → (child_at b (child_entries self.now) ≢ None)
            × (length (child_entries self.now)
            ≤ previous_capacity (storage_capacity self.now) + 1) }
    {
        self.num_children() > self.last_count() || self.seek_child(b).is_none()
    }

    /// Removes the child at byte `b` and returns it. It allocates before the first write if the kind shrinks to one
    /// with children; if that fails, the storage is unchanged.
    // Inline, as its caller is: each call that returns a child copies it.
    #[inline(always)]
    pub(crate) fn delete_child(&mut self, alloc: Global, b: u8) -> Result<Option<N>, TreeError>
        ensures taken { IfOk result (λ c. c ≡ child_at b (child_entries self.old)) }
        ensures entries { OnOk result
            (child_entries self.new ≡ without_byte b (child_entries self.old)) }
        ensures capacity { OnOk result
            (storage_capacity self.new
            ≡ capacity_without b self.old (length (child_entries self.new))) }
        ensures value_kept { OnOk result (stored_value self.new ≡ stored_value self.old) }
        ensures prefix_kept { OnOk result (stored_prefix self.new ≡ stored_prefix self.old) }
        ensures unchanged { OnErr result (self.new ≡ self.old) }
        ensures allocates { OnErr result (ShrinksStored b self.old) }
        ensures memory { IfErr result IsMemory }
    {
        if self.keeps_kind(b) {
            return Ok(self.delete_within(b));
        }
        match &mut self.kind {
            Kind::Empty(_) | Kind::Leaf(_, _) => Ok(None),
            Kind::Node4(prefix, keys, map) => {
                let child = keys.delete_child(map, b);
                let value = map.head_mut().take();
                let prefix = take_prefix(prefix);
                self.replace_empty(Storage::childless(prefix, value));
                Ok(child)
            }
            Kind::Node16(prefix, map) => {
                let mut next = new_block(alloc)?;
                let mut keys = FourKeys::none();
                let child = map.delete_child(b);
                keys.fill_from_sorted(&mut next, map);
                fill(next.head_mut(), map.extra_mut().take());
                let kind = Kind::Node4(take_prefix(prefix), keys, next);
                self.replace_empty(Storage { kind });
                Ok(child)
            }
            Kind::Node48(prefix, map) => {
                let mut next = new_sorted(alloc)?;
                let child = map.delete_child(b);
                next.fill_from_indexed(map);
                fill(next.extra_mut(), map.extra_mut().take());
                let kind = Kind::Node16(take_prefix(prefix), next);
                self.replace_empty(Storage { kind });
                Ok(child)
            }
            Kind::Node256(prefix, map) => {
                let mut next = new_indexed(alloc)?;
                let child = map.delete_child(b);
                next.fill_from_direct(map);
                fill(next.extra_mut(), map.extra_mut().take());
                let kind = Kind::Node48(take_prefix(prefix), next);
                self.replace_empty(Storage { kind });
                Ok(child)
            }
        }
    }

    /// Removes the only child of storage of capacity 4 and returns it with its byte.
    pub(crate) fn take_only_child(&mut self) -> (u8, N)
        requires capacity { storage_capacity self.old ≡ 4 }
        requires only_child { length (child_entries self.old) ≡ 1 }
        ensures taken { child_entries self.old ≡ result ∷ [] }
        ensures entries { child_entries self.new ≡ [] }
        ensures capacity { storage_capacity self.new ≡ 4 }
        ensures value_kept { stored_value self.new ≡ stored_value self.old }
        ensures prefix_kept { stored_prefix self.new ≡ stored_prefix self.old }
    {
        match &mut self.kind {
            Kind::Node4(_, keys, map) => keys.take_only_child(map),
            Kind::Empty(_)
            | Kind::Leaf(_, _)
            | Kind::Node16(_, _)
            | Kind::Node48(_, _)
            | Kind::Node256(_, _) => unreachable!(),
        }
    }
}
