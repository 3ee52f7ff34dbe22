//! Growth of a storage: the children of a full one move into the next kind.
ghost use Rattle.std.specs.Prelude.{◌≡◌, ◌<◌, ◌≤◌, [], length, None, true, false, IfErr, IfOk, OnErr, OnOk};
ghost use Rattle.rart_parts.specs.Entries.{sorted_entries, child_at};
ghost use Rattle.rart_parts.specs.Errors.{IsMemory};
ghost use Rattle.rart_trie.specs.storages.Capacities.{widened_capacity};
ghost use Rattle.rart_trie.specs.storages.Stored.{child_entries, storage_capacity, stored_prefix, stored_value};

use crate::node::fill::fill;
use crate::node::storage::prefix::take_prefix;
use crate::node::storage::{Kind, Storage};
use rart_block::Block;
use rart_keys::Partial;
use rart_maps::mapping::{
    DirectMapping, FourKeys, IndexedMapping, NodeMapping, SortedKeyedMapping,
};
use rart_parts::utils::bitset::Bitset64;
use rart_parts::{TreeError, laws};
use std::alloc::Global;
use std::mem;

/// Returns a sorted map with no child and no value.
pub(super) fn new_sorted<V, N, const W: usize>(
    alloc: Global,
) -> Result<SortedKeyedMapping<N, W, Option<V>>, TreeError>
    requires { W ≤ 255 }
    ensures entries { IfOk result (λ m. m.entries ≡ []) }
    ensures value { IfOk result (λ m. m.extra ≡ None) }
    ensures memory { IfErr result IsMemory }
{
    match SortedKeyedMapping::with_extra(alloc, None) {
        Ok(map) => Ok(map),
        Err(value) => match value {
            None => Err(TreeError::Memory),
            Some(_) => unreachable!(),
        },
    }
}

/// Returns a block for four children, with no child and no value.
pub(super) fn new_block<V, N>(alloc: Global) -> Result<Block<Option<V>, (), N, 4>, TreeError>
    ensures ok { IfOk result (λ b. (b.items ≡ []) × (b.head ≡ None)) }
    ensures memory { IfErr result IsMemory }
{
    match Block::new(alloc, None, ()) {
        Ok(block) => Ok(block),
        Err((value, ())) => match value {
            None => Err(TreeError::Memory),
            Some(_) => unreachable!(),
        },
    }
}

/// Returns an indexed map with no child and no value.
pub(super) fn new_indexed<V, N>(
    alloc: Global,
) -> Result<IndexedMapping<N, 48, Bitset64<1>, Option<V>>, TreeError>
    ensures entries { IfOk result (λ m. sorted_entries m.entries ≡ []) }
    ensures value { IfOk result (λ m. m.extra ≡ None) }
    ensures memory { IfErr result IsMemory }
{
    match IndexedMapping::with_extra(alloc, None) {
        Ok(map) => Ok(map),
        Err(value) => match value {
            None => Err(TreeError::Memory),
            Some(_) => unreachable!(),
        },
    }
}

/// Returns a direct map with no child and no value.
fn new_direct<V, N>(alloc: Global) -> Result<DirectMapping<N, Option<V>>, TreeError>
    ensures entries { IfOk result (λ m. m.entries ≡ []) }
    ensures value { IfOk result (λ m. m.extra ≡ None) }
    ensures memory { IfErr result IsMemory }
{
    match DirectMapping::with_extra(alloc, None) {
        Ok(map) => Ok(map),
        Err(value) => match value {
            None => Err(TreeError::Memory),
            Some(_) => unreachable!(),
        },
    }
}

impl<P: Drop, V, N> Storage<P, V, N> {
    /// Returns empty storage of capacity 4 with this prefix.
    pub(crate) fn new_4(alloc: Global, prefix: P) -> Result<Self, TreeError>
        ensures entries { IfOk result (λ s. child_entries s ≡ []) }
        ensures capacity { IfOk result (λ s. storage_capacity s ≡ 4) }
        ensures value { IfOk result (λ s. stored_value s ≡ None) }
        ensures prefix { IfOk result (λ s. stored_prefix s ≡ prefix) }
        ensures memory { IfErr result IsMemory }
    {
        let kind = Kind::Node4(prefix, FourKeys::none(), new_block(alloc)?);
        Ok(Storage { kind })
    }

    /// Returns empty storage of capacity 16 with this prefix.
    pub(crate) fn new_16(alloc: Global, prefix: P) -> Result<Self, TreeError>
        ensures entries { IfOk result (λ s. child_entries s ≡ []) }
        ensures capacity { IfOk result (λ s. storage_capacity s ≡ 16) }
        ensures value { IfOk result (λ s. stored_value s ≡ None) }
        ensures prefix { IfOk result (λ s. stored_prefix s ≡ prefix) }
        ensures memory { IfErr result IsMemory }
    {
        let kind = Kind::Node16(prefix, new_sorted(alloc)?);
        Ok(Storage { kind })
    }

    /// Returns empty storage of capacity 48 with this prefix.
    pub(crate) fn new_48(alloc: Global, prefix: P) -> Result<Self, TreeError>
        ensures entries { IfOk result (λ s. child_entries s ≡ []) }
        ensures capacity { IfOk result (λ s. storage_capacity s ≡ 48) }
        ensures value { IfOk result (λ s. stored_value s ≡ None) }
        ensures prefix { IfOk result (λ s. stored_prefix s ≡ prefix) }
        ensures memory { IfErr result IsMemory }
    {
        let kind = Kind::Node48(prefix, new_indexed(alloc)?);
        Ok(Storage { kind })
    }

    /// Returns empty storage of capacity 256 with this prefix.
    pub(crate) fn new_256(alloc: Global, prefix: P) -> Result<Self, TreeError>
        ensures entries { IfOk result (λ s. child_entries s ≡ []) }
        ensures capacity { IfOk result (λ s. storage_capacity s ≡ 256) }
        ensures value { IfOk result (λ s. stored_value s ≡ None) }
        ensures prefix { IfOk result (λ s. stored_prefix s ≡ prefix) }
        ensures memory { IfErr result IsMemory }
    {
        let kind = Kind::Node256(prefix, new_direct(alloc)?);
        Ok(Storage { kind })
    }
}

impl<P: Partial, V, N> Storage<P, V, N> {
    /// Returns whether another child fits at byte `b`.
    fn has_free_slot(&self, b: u8) -> bool
        requires { child_at b (child_entries self.now) ≡ None }
        ensures not_full { result ≡ true
            → length (child_entries self.now) < storage_capacity self.now }
        ensures full { result ≡ false
            → length (child_entries self.now) ≡ storage_capacity self.now }
        ensures not_widest { result ≡ false → storage_capacity self.now < 256 }
    {
        laws::free_byte::<N>();
        match &self.kind {
            Kind::Empty(_) | Kind::Leaf(_, _) => false,
            Kind::Node4(_, keys, map) => keys.num_children(map) < 4,
            Kind::Node16(_, map) => map.num_children() < 16,
            Kind::Node48(_, map) => map.num_children() < 48,
            Kind::Node256(_, map) => map.num_children() < 256,
        }
    }

    /// Replaces this storage, which has no child and no value, and frees it.
    pub(crate) fn replace_empty(&mut self, next: Self)
        requires entries { child_entries self.old ≡ [] }
        requires value { stored_value self.old ≡ None }
        ensures { self.new ≡ next }
    {
        match mem::replace(self, next).into_value() {
            None => {}
            Some(_) => unreachable!(),
        }
    }

    /// Reserves a slot for a child at byte `b`: a full storage is replaced by one of the next kind.
    ///
    /// # Errors
    ///
    /// [`TreeError::Memory`] if the storage is full and an allocation fails. The storage is then unchanged.
    #[inline(never)]
    pub(crate) fn reserve_slot(&mut self, alloc: Global, b: u8) -> Result<(), TreeError>
        requires absent { child_at b (child_entries self.old) ≡ None }
        ensures entries { child_entries self.new ≡ child_entries self.old }
        ensures value_kept { stored_value self.new ≡ stored_value self.old }
        ensures prefix_kept { stored_prefix self.new ≡ stored_prefix self.old }
        ensures not_full { OnOk result
            (length (child_entries self.new) < storage_capacity self.new) }
        ensures capacity { OnOk result
            (storage_capacity self.new
            ≡ widened_capacity (length (child_entries self.old)) (storage_capacity self.old)) }
        ensures unchanged { OnErr result (self.new ≡ self.old) }
        ensures allocates { OnErr result
            (length (child_entries self.old) ≡ storage_capacity self.old) }
        ensures memory { IfErr result IsMemory }
    {
        if self.has_free_slot(b) {
            return Ok(());
        }
        match &mut self.kind {
            Kind::Empty(prefix) => {
                let next = new_block(alloc)?;
                let kind = Kind::Node4(take_prefix(prefix), FourKeys::none(), next);
                self.replace_empty(Storage { kind });
            }
            Kind::Leaf(prefix, _) => {
                let mut next = new_block(alloc)?;
                let prefix = take_prefix(prefix);
                fill(next.head_mut(), self.take_value());
                let kind = Kind::Node4(prefix, FourKeys::none(), next);
                self.replace_empty(Storage { kind });
            }
            Kind::Node4(prefix, keys, map) => {
                let mut next = new_sorted(alloc)?;
                keys.move_to_sorted(map, &mut next);
                fill(next.extra_mut(), map.head_mut().take());
                let kind = Kind::Node16(take_prefix(prefix), next);
                self.replace_empty(Storage { kind });
            }
            Kind::Node16(prefix, map) => {
                let mut next = new_indexed(alloc)?;
                next.fill_from_sorted_keyed(map);
                fill(next.extra_mut(), map.extra_mut().take());
                let kind = Kind::Node48(take_prefix(prefix), next);
                self.replace_empty(Storage { kind });
            }
            Kind::Node48(prefix, map) => {
                let mut next = new_direct(alloc)?;
                next.fill_from_indexed(map);
                fill(next.extra_mut(), map.extra_mut().take());
                let kind = Kind::Node256(take_prefix(prefix), next);
                self.replace_empty(Storage { kind });
            }
            Kind::Node256(_, _) => unreachable!(),
        }
        Ok(())
    }
}
