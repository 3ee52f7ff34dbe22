//! A map from bytes to children with an index from bytes to slots.

// The model lists the entries in slot order; the contracts of calls use `sorted_entries` of it, the same entries in
// byte order.

ghost use Rattle.std.specs.Prelude.{◌≡◌, ℕ, [], ◌∷◌, IfSome, IsSome, None, Some, ◌<◌, ◌≤◌, length, IfErr, IfOk};
ghost use Rattle.std.specs.Prelude.{OnOk, OnErr, MatchOption, option_map};
ghost use Rattle.rart_parts.specs.Entries.{BytesAscend, IsLastUnder, sorted_entries, child_at, entries_above};
ghost use Rattle.rart_parts.specs.Errors.{IsMemory};
ghost use Rattle.rart_maps.specs.Bounds.{bound_of};

mod iter;

use crate::mapping::byte_index::ByteIndex;
use crate::mapping::{DirectMapping, KeyedMapping, NodeMapping, SortedKeyedMapping, bound};
pub use iter::{IndexedMappingIntoIter, IndexedMappingIter};
use rart_block::Block;
use rart_parts::TreeError;
use rart_parts::utils::bitset::BitsetTrait;
use std::alloc::Global;
use std::marker::{Model, PhantomData};
use std::mem;

/// The byte of each slot, and an index from bytes to slots.
#[derive(Drop)]
struct Slots<const W: usize, B> {
    bytes: [u8; W],
    index: ByteIndex,
    of: PhantomData<B>,
}

/// Maps bytes to at most `W` children through an index of 256 bytes, and stores an extra value of type `E`. All is in
/// one allocation.
// The children are in the first slots: a removal moves the last child into the gap.
#[derive(Drop)]
pub struct IndexedMapping<N, const W: usize, B: BitsetTrait, E = ()> {
    block: Block<E, Slots<W, B>, N, W>,
}

impl<N, const W: usize, B: BitsetTrait, E> Model for IndexedMapping<N, W, B, E> {
    ghost use Rattle.std.specs.List.{zip};
    ghost use Rattle.rart_maps.specs.Contents.{Contents, contents_code};
    ghost use Rattle.rart_maps.specs.Dense.{IsDense};

    ghost Value = { Contents N E };

    ghost coded = { contents_code N.code E.code };

    ghost view = { λ m. record {
      extra = m.block.head;
      entries = zip m.block.keys.bytes m.block.items;
    } };

    ghost invariant = { λ m. IsDense W m.block.keys.index m.block.keys.bytes m.block.items };
}

impl<N, const W: usize, B: BitsetTrait> IndexedMapping<N, W, B> {
    /// Returns a map with no child. It allocates all `W` slots at once.
    ///
    /// # Errors
    ///
    /// [`TreeError::Memory`] if the allocation fails.
    pub fn new(alloc: Global) -> Result<Self, TreeError>
        requires narrow { W ≤ 255 }
        ensures ok { IfOk result (λ m. sorted_entries m.entries ≡ []) }
        ensures memory { IfErr result IsMemory }
    {
        match IndexedMapping::with_extra(alloc, ()) {
            Ok(map) => Ok(map),
            Err(_) => Err(TreeError::Memory),
        }
    }

    /// Moves the children of a sorted mapping into a new map.
    ///
    /// # Errors
    ///
    /// [`TreeError::Memory`] if the allocation fails. `source` is then unchanged.
    pub fn from_sorted_keyed<const U: usize, F>(
        alloc: Global,
        source: &mut SortedKeyedMapping<N, U, F>,
    ) -> Result<Self, TreeError>
        requires narrow { W ≤ 255 }
        requires at_most { length source.old.entries ≤ W }
        ensures ok { IfOk result (λ m. sorted_entries m.entries ≡ source.old.entries) }
        ensures emptied { OnOk result (source.new.entries ≡ []) }
        ensures extra { source.new.extra ≡ source.old.extra }
        ensures memory { IfErr result IsMemory }
        ensures unchanged { OnErr result (source.new ≡ source.old) }
    {
        let mut map = IndexedMapping::new(alloc)?;
        map.fill_from_sorted_keyed(source);
        Ok(map)
    }

    /// Moves the children of a direct mapping into a new map.
    ///
    /// # Errors
    ///
    /// [`TreeError::Memory`] if the allocation fails. `source` is then unchanged.
    pub fn from_direct<F>(
        alloc: Global,
        source: &mut DirectMapping<N, F>,
    ) -> Result<Self, TreeError>
        requires narrow { W ≤ 255 }
        requires at_most { length source.old.entries ≤ W }
        ensures ok { IfOk result (λ m. sorted_entries m.entries ≡ source.old.entries) }
        ensures emptied { OnOk result (source.new.entries ≡ []) }
        ensures extra { source.new.extra ≡ source.old.extra }
        ensures memory { IfErr result IsMemory }
        ensures unchanged { OnErr result (source.new ≡ source.old) }
    {
        let mut map = IndexedMapping::new(alloc)?;
        map.fill_from_direct(source);
        Ok(map)
    }

    /// Moves the children of a keyed mapping into a new map.
    ///
    /// # Errors
    ///
    /// [`TreeError::Memory`] if the allocation fails. `source` is then unchanged.
    pub fn from_keyed<const U: usize, C: BitsetTrait>(
        alloc: Global,
        source: &mut KeyedMapping<N, U, C>,
    ) -> Result<Self, TreeError>
        requires narrow { W ≤ 255 }
        requires at_most { length (sorted_entries source.old) ≤ W }
        ensures ok { IfOk result (λ m. sorted_entries m.entries ≡ sorted_entries source.old) }
        ensures emptied { OnOk result (sorted_entries source.new ≡ []) }
        ensures memory { IfErr result IsMemory }
        ensures unchanged { OnErr result (source.new ≡ source.old) }
    {
        let mut map = IndexedMapping::new(alloc)?;
        map.fill_from_keyed(source);
        Ok(map)
    }
}

impl<N, const W: usize, B: BitsetTrait, E> IndexedMapping<N, W, B, E> {
    /// Returns a map with no child that stores `extra`. It allocates all `W` slots at once.
    ///
    /// # Errors
    ///
    /// The extra value, if the allocation fails.
    pub fn with_extra(alloc: Global, extra: E) -> Result<Self, E>
        requires narrow { W ≤ 255 }
        ensures ok { IfOk result (λ m. m ≡ record { extra = extra; entries = [] }) }
        ensures unchanged { IfErr result (λ e. e ≡ extra) }
    {
        let bytes = [0; W];
        let slots = Slots {
            bytes,
            index: ByteIndex::new(),
            of: PhantomData,
        };
        match Block::new(alloc, extra, slots) {
            Ok(block) => Ok(IndexedMapping { block }),
            Err((extra, _)) => Err(extra),
        }
    }

    /// Returns the extra value.
    #[inline(always)]
    pub fn extra(&self) -> &E
        ensures { result.now ≡ self.now.extra }
    {
        self.block.head()
    }

    /// Moves the children of a sorted mapping into this empty map. It does not allocate.
    pub fn fill_from_sorted_keyed<const U: usize, F>(
        &mut self,
        source: &mut SortedKeyedMapping<N, U, F>,
    )
        requires empty { sorted_entries self.old.entries ≡ [] }
        requires at_most { length source.old.entries ≤ W }
        ensures filled { sorted_entries self.new.entries ≡ source.old.entries }
        ensures emptied { source.new.entries ≡ [] }
        ensures extra { self.new.extra ≡ self.old.extra }
        ensures source_extra { source.new.extra ≡ source.old.extra }
    {
        // Its bytes ascend.
        let _count = source.num_children();
        while let Some((key, child)) = source.take_last() {
            self.add_child(key, child);
        }
    }

    /// Moves the children of a direct mapping into this empty map. It does not allocate.
    pub fn fill_from_direct<F>(&mut self, source: &mut DirectMapping<N, F>)
        requires empty { sorted_entries self.old.entries ≡ [] }
        requires at_most { length source.old.entries ≤ W }
        ensures filled { sorted_entries self.new.entries ≡ source.old.entries }
        ensures emptied { source.new.entries ≡ [] }
        ensures extra { self.new.extra ≡ self.old.extra }
        ensures source_extra { source.new.extra ≡ source.old.extra }
    {
        // Its bytes ascend.
        let _count = source.num_children();
        while let Some(key) = source.first_byte() {
            let child = source.delete_child(key).unwrap();
            self.add_child(key, child);
        }
    }

    /// Moves the children of a keyed mapping into this empty map. It does not allocate.
    pub fn fill_from_keyed<const U: usize, C: BitsetTrait>(
        &mut self,
        source: &mut KeyedMapping<N, U, C>,
    )
        requires empty { sorted_entries self.old.entries ≡ [] }
        requires at_most { length (sorted_entries source.old) ≤ W }
        ensures filled { sorted_entries self.new.entries ≡ sorted_entries source.old }
        ensures emptied { sorted_entries source.new ≡ [] }
        ensures extra { self.new.extra ≡ self.old.extra }
    {
        // Its bytes ascend.
        let _count = source.num_children();
        while let Some((key, child)) = source.take_any() {
            self.add_child(key, child);
        }
    }

    /// Returns the least byte with a child.
    pub(crate) fn first_byte(&self) -> Option<u8>
        ensures some { MatchOption result (sorted_entries self.now.entries ≡ [])
            (λ b. IsSome (child_at b (sorted_entries self.now.entries))) }
        ensures least { IfSome result
            (λ b. (k : ℕ) → k < b → child_at k (sorted_entries self.now.entries) ≡ None) }
    {
        let Some(byte) = self.block.keys().index.first_used() else {
            return None;
        };
        Some(byte as u8)
    }

    /// Removes the child at the least byte and returns it with its byte.
    fn take_first(&mut self) -> Option<(u8, N)>
        ensures entries { MatchOption result
            ((sorted_entries self.old.entries ≡ []) × (sorted_entries self.new.entries ≡ []))
            (λ e. sorted_entries self.old.entries ≡ e ∷ sorted_entries self.new.entries) }
        ensures extra { self.new.extra ≡ self.old.extra }
    {
        // Its bytes ascend.
        let _count = self.num_children();
        let Some(key) = self.first_byte() else {
            return None;
        };
        let child = self.delete_child(key).unwrap();
        Some((key, child))
    }

    /// Returns the children with their bytes, ascending.
    #[inline(always)]
    pub fn iter(&self) -> IndexedMappingIter<'_, N>
        ensures entries { result ≡ sorted_entries self.now.entries }
        ensures ascending { BytesAscend (sorted_entries self.now.entries) }
    {
        IndexedMappingIter {
            slots: self.block.keys().index.iter(),
            children: self.block.as_slice(),
        }
    }

    /// Returns the children at the bytes above `byte`, ascending. The index skips the other bytes.
    #[inline(always)]
    pub fn iter_above(&self, byte: u8) -> IndexedMappingIter<'_, N>
        ensures entries { result ≡ entries_above byte (sorted_entries self.now.entries) }
        ensures ascending { BytesAscend (entries_above byte (sorted_entries self.now.entries)) }
    {
        IndexedMappingIter {
            slots: self.block.keys().index.iter_above(byte),
            children: self.block.as_slice(),
        }
    }

    /// Returns the child at the greatest byte below `above`, with its byte. `None` is no bound.
    /// The index finds that byte by words of bits.
    pub fn last_under(&self, above: Option<u8>) -> Option<(u8, &N)>
        ensures last { IsLastUnder (bound_of above) (sorted_entries self.now.entries)
            (option_map (λ e. (e.0, e.1.now)) result) }
        ensures ascending { BytesAscend (sorted_entries self.now.entries) }
        ensures bytes { (b : ℕ) → 256 ≤ b → child_at b (sorted_entries self.now.entries) ≡ None }
    {
        let _count = self.num_children();
        let Some(byte) = self.block.keys().index.last_used_under(bound(above)) else {
            return None;
        };
        let child = self.seek_child(byte as u8).unwrap();
        Some((byte as u8, child))
    }
}

impl<N, const W: usize, B: BitsetTrait, E> NodeMapping<N, W> for IndexedMapping<N, W, B, E> {
    ghost map = { λ m. sorted_entries m.entries };

    ghost same_extra = { λ m n. n.extra ≡ m.extra };

    #[inline(always)]
    fn add_child(&mut self, key: u8, node: N) {
        let slot = self.block.len();
        let slots = self.block.keys_mut();
        slots.index.set(key, slot as u8);
        slots.bytes[slot] = key;
        self.block.push(node);
    }

    #[inline(always)]
    fn seek_child(&self, key: u8) -> Option<&N> {
        match self.block.keys().index.get(key) {
            Some(slot) => Some(&self.block.as_slice()[slot as usize]),
            None => None,
        }
    }

    #[inline(always)]
    fn seek_child_mut(&mut self, key: u8) -> Option<&mut N> {
        match self.block.keys().index.get(key) {
            Some(slot) => Some(self.block.item_mut(slot as usize)),
            None => None,
        }
    }

    #[inline(always)]
    fn delete_child(&mut self, key: u8) -> Option<N> {
        let Some(slot) = self.block.keys().index.get(key) else {
            return None;
        };
        let last = self.block.pop().unwrap();
        let end = self.block.len();
        let slots = self.block.keys_mut();
        let _slot = slots.index.erase(key);
        if slot as usize == end {
            return Some(last);
        }
        let byte = slots.bytes[end];
        slots.bytes[slot as usize] = byte;
        slots.index.set(byte, slot);
        Some(mem::replace(self.block.item_mut(slot as usize), last))
    }

    #[inline(always)]
    fn num_children(&self) -> usize {
        let _slots = self.block.keys();
        self.block.len()
    }
}

impl<N, const W: usize, B: BitsetTrait, E> IndexedMapping<N, W, B, E> {
    ghost use Rattle.std.specs.Borrow.{sem};
    ghost use Rattle.rart_maps.specs.Loans.{lends_indexed_extra};

    /// Returns a mutable borrow of the extra value.
    #[inline(always)]
    pub fn extra_mut(&mut self) -> &mut E
        ensures* writes_back { sem 𝓛
            (lends_indexed_extra N.row W.row B.row E.row B.BitsetTrait self.entry result) }
        ensures value { result.now ≡ self.old.extra }
    {
        self.block.head_mut()
    }
}

impl<N, const W: usize, B: BitsetTrait, E> IndexedMapping<N, W, B, E> {
    /// Frees a map with no child and returns the extra value. `N` needs no `Drop`.
    pub fn destroy_empty(self) -> E
        requires { sorted_entries self.entries ≡ [] }
        ensures { result ≡ self.extra }
    {
        let IndexedMapping { block } = self;
        let (extra, _) = block.destroy_empty();
        extra
    }
}
