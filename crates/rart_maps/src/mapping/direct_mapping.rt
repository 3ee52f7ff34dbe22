//! A map from bytes to children with a slot for each byte, which a contract reads as its ascending entries and an extra
//! value.

ghost use Rattle.std.specs.Prelude.{◌≡◌, ℕ, [], ◌∷◌, IfSome, IsSome, ◌<◌, ◌≤◌, IfErr, IfOk, None, OnOk};
ghost use Rattle.std.specs.Prelude.{OnErr};
ghost use Rattle.std.specs.Prelude.{MatchOption, option_map};
ghost use Rattle.rart_parts.specs.Entries.{BytesAscend, IsLastUnder, sorted_entries, child_at, entries_above};
ghost use Rattle.rart_parts.specs.Errors.{IsMemory};
ghost use Rattle.rart_maps.specs.Bounds.{bound_of};

mod iter;

use crate::mapping::{IndexedMapping, NodeMapping, bound};
pub use iter::{DirectMappingIntoIter, DirectMappingIter};
use rart_block::SparseBlock;
use rart_parts::TreeError;
use rart_parts::utils::bitset::{Bitset, Bitset64, BitsetTrait};
use std::alloc::Global;
use std::marker::Model;

/// The bytes that have a child, and their number.
#[derive(Drop)]
struct Used {
    bytes: Bitset64<4>,
    count: usize,
}

/// Maps each of the 256 bytes to a child or to none, and stores an extra value of type `E`. All is in one allocation.
pub struct DirectMapping<N, E = ()> {
    // The set of bytes says which slots hold a child.
    block: SparseBlock<E, Used, N, 256>,
}

/// Drops the children, the least byte first, then the extra value, and frees the allocation.
impl<N: Drop, E: Drop> Drop for DirectMapping<N, E> {
    fn drop(mut self) {
        while let Some((_, child)) = self.take_first() {
            drop(child);
        }
        drop(self.destroy_empty());
    }
}

impl<N, E> Model for DirectMapping<N, E> {
    ghost use Rattle.rart_parts.specs.Bits.{words_have};
    ghost use Rattle.rart_maps.specs.Direct.{IsDirect};
    ghost use Rattle.rart_parts.specs.Places.{Agrees, numbered_values};
    ghost use Rattle.rart_maps.specs.Contents.{Contents, contents_code};

    ghost Value = { Contents N E };

    ghost coded = { contents_code N.code E.code };

    ghost view = { λ m. record {
      extra = m.block.head;
      entries = numbered_values 0 m.block.items;
    } };

    ghost invariant = { λ m. IsDirect m.block.items m.block.keys.count
        × Agrees 256 (words_have 64 (λ w. w) m.block.keys.bytes.words) m.block.items };
}

impl<N> DirectMapping<N> {
    /// Returns a map with no child. It allocates all 256 slots at once.
    ///
    /// # Errors
    ///
    /// [`TreeError::Memory`] if the allocation fails.
    pub fn new(alloc: Global) -> Result<Self, TreeError>
        ensures ok { IfOk result (λ m. m.entries ≡ []) }
        ensures memory { IfErr result IsMemory }
    {
        match DirectMapping::with_extra(alloc, ()) {
            Ok(map) => Ok(map),
            Err(_) => Err(TreeError::Memory),
        }
    }

    /// Moves the children of an indexed mapping into a new map.
    ///
    /// # Errors
    ///
    /// [`TreeError::Memory`] if the allocation fails. `source` is then unchanged.
    pub fn from_indexed<const U: usize, B: BitsetTrait, F>(
        alloc: Global,
        source: &mut IndexedMapping<N, U, B, F>,
    ) -> Result<Self, TreeError>
        ensures ok { IfOk result (λ m. m.entries ≡ sorted_entries source.old.entries) }
        ensures emptied { OnOk result (sorted_entries source.new.entries ≡ []) }
        ensures extra { source.new.extra ≡ source.old.extra }
        ensures memory { IfErr result IsMemory }
        ensures unchanged { OnErr result (source.new ≡ source.old) }
    {
        let mut map = DirectMapping::new(alloc)?;
        map.fill_from_indexed(source);
        Ok(map)
    }
}

impl<N, E> DirectMapping<N, E> {
    /// Returns a map with no child that stores `extra`. It allocates all 256 slots at once.
    ///
    /// # Errors
    ///
    /// The extra value, if the allocation fails.
    pub fn with_extra(alloc: Global, extra: E) -> Result<Self, E>
        ensures ok { IfOk result (λ m. m ≡ record { extra = extra; entries = [] }) }
        ensures unchanged { IfErr result (λ e. e ≡ extra) }
    {
        let used = Used {
            bytes: Bitset::new(),
            count: 0,
        };
        match SparseBlock::new(alloc, extra, used) {
            Ok(block) => Ok(DirectMapping { block }),
            Err((extra, _)) => Err(extra),
        }
    }

    /// Returns the extra value.
    #[inline(always)]
    pub fn extra(&self) -> &E
        ensures { result.now ≡ self.now.extra }
    {
        self.block.head()
    }

    /// Returns the children with their bytes, ascending.
    #[inline(always)]
    pub fn iter(&self) -> DirectMappingIter<'_, N>
        ensures entries { result ≡ self.now.entries }
        ensures ascending { BytesAscend self.now.entries }
    {
        DirectMappingIter {
            bytes: self.block.keys().bytes.iter(),
            slots: self.block.slots(),
        }
    }

    /// Returns the children at the bytes above `byte`, ascending.
    #[inline(always)]
    pub fn iter_above(&self, byte: u8) -> DirectMappingIter<'_, N>
        ensures entries { result ≡ entries_above byte self.now.entries }
        ensures ascending { BytesAscend (entries_above byte self.now.entries) }
    {
        let mut bytes = self.block.keys().bytes.iter();
        bytes.pass(byte as usize);
        DirectMappingIter {
            bytes,
            slots: self.block.slots(),
        }
    }

    /// Returns the child at the greatest byte below `above`, with its byte. `None` is no bound.
    pub fn last_under(&self, above: Option<u8>) -> Option<(u8, &N)>
        ensures last { IsLastUnder (bound_of above) self.now.entries
            (option_map (λ e. (e.0, e.1.now)) result) }
        ensures ascending { BytesAscend self.now.entries }
        ensures bytes { (b : ℕ) → 256 ≤ b → child_at b self.now.entries ≡ None }
    {
        let _count = self.num_children();
        let Some(byte) = self.block.keys().bytes.last_under(bound(above)) else {
            return None;
        };
        let child = self.seek_child(byte as u8).unwrap();
        Some((byte as u8, child))
    }

    /// Moves the children of an indexed mapping into this empty map. It does not allocate.
    pub fn fill_from_indexed<const U: usize, B: BitsetTrait, F>(
        &mut self,
        source: &mut IndexedMapping<N, U, B, F>,
    )
        requires { self.old.entries ≡ [] }
        ensures filled { self.new.entries ≡ sorted_entries source.old.entries }
        ensures emptied { sorted_entries source.new.entries ≡ [] }
        ensures extra { self.new.extra ≡ self.old.extra }
        ensures source_extra { source.new.extra ≡ source.old.extra }
    {
        // Its bytes ascend.
        let _count = source.num_children();
        // Removes the child alone: in a pair with its byte it would be moved twice more.
        while let Some(key) = source.first_byte() {
            let child = source.delete_child(key).unwrap();
            self.add_child(key, child);
        }
    }

    /// Returns the least byte with a child.
    pub(crate) fn first_byte(&self) -> Option<u8>
        ensures some { MatchOption result (self.now.entries ≡ [])
            (λ b. IsSome (child_at b self.now.entries)) }
        ensures least { IfSome result (λ b. (k : ℕ) → k < b → child_at k self.now.entries ≡ None) }
    {
        let Some(byte) = self.block.keys().bytes.first_set() else {
            return None;
        };
        Some(byte as u8)
    }

    /// Removes the child at the least byte and returns it with its byte.
    fn take_first(&mut self) -> Option<(u8, N)>
        ensures entries { MatchOption result ((self.old.entries ≡ []) × (self.new.entries ≡ []))
            (λ e. self.old.entries ≡ e ∷ self.new.entries) }
        ensures extra { self.new.extra ≡ self.old.extra }
    {
        // Its bytes ascend.
        let _count = self.num_children();
        let Some(key) = self.first_byte() else {
            return None;
        };
        let child = self.delete_child(key).unwrap();
        Some((key, child))
    }
}

impl<N, E> NodeMapping<N, 256> for DirectMapping<N, E> {
    ghost map = { λ m. m.entries };

    ghost same_extra = { λ m n. n.extra ≡ m.extra };

    #[inline(always)]
    fn add_child(&mut self, key: u8, node: N) {
        let used = self.block.keys_mut();
        used.bytes.set(key as usize);
        used.count += 1;
        self.block.put(key as usize, node);
    }

    #[inline(always)]
    fn seek_child(&self, key: u8) -> Option<&N> {
        if self.block.keys().bytes.check(key as usize) {
            Some(self.block.get(key as usize))
        } else {
            None
        }
    }

    #[inline(always)]
    fn seek_child_mut(&mut self, key: u8) -> Option<&mut N> {
        if self.block.keys().bytes.check(key as usize) {
            Some(self.block.get_mut(key as usize))
        } else {
            None
        }
    }

    #[inline(always)]
    fn delete_child(&mut self, key: u8) -> Option<N> {
        if !self.block.keys().bytes.check(key as usize) {
            return None;
        }
        let used = self.block.keys_mut();
        used.bytes.unset(key as usize);
        used.count -= 1;
        Some(self.block.take(key as usize))
    }

    #[inline(always)]
    fn num_children(&self) -> usize {
        self.block.keys().count
    }
}

impl<N, E> DirectMapping<N, E> {
    ghost use Rattle.std.specs.Borrow.{sem};
    ghost use Rattle.rart_maps.specs.Loans.{lends_direct_extra};

    /// Returns a mutable borrow of the extra value.
    #[inline(always)]
    pub fn extra_mut(&mut self) -> &mut E
        ensures* writes_back { sem 𝓛 (lends_direct_extra N.row E.row self.entry result) }
        ensures value { result.now ≡ self.old.extra }
    {
        self.block.head_mut()
    }
}

impl<N, E> DirectMapping<N, E> {
    /// Frees a map with no child and returns the extra value. `N` needs no `Drop`.
    pub fn destroy_empty(self) -> E
        requires { self.entries ≡ [] }
        ensures { result ≡ self.extra }
    {
        let DirectMapping { block } = self;
        let (extra, _) = block.destroy_empty();
        extra
    }
}
