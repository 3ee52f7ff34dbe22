//! A map from bytes to children by sorted keys, which a contract reads as its ascending entries and an extra value.

ghost use Rattle.std.specs.Prelude.{◌≡◌, ℕ, [], ◌∷◌, ◌++◌, ◌≤◌, length, IfErr, IfOk, OnOk, OnErr};
ghost use Rattle.std.specs.Prelude.{MatchOption, None, option_map};
ghost use Rattle.rart_parts.specs.Entries.{BytesAscend, IsLastUnder, child_at, entries_above, sorted_entries};
ghost use Rattle.rart_parts.specs.Errors.{IsMemory};
ghost use Rattle.rart_maps.specs.Bounds.{bound_of};

mod iter;
pub(super) mod search;

use crate::mapping::sorted_keyed_mapping::search::{
    first_above, first_not_below, goes_last, place_of,
};
use crate::mapping::{IndexedMapping, NodeMapping};
pub use iter::{SortedKeyedMappingIntoIter, SortedKeyedMappingIter};
use rart_block::Block;
use rart_parts::TreeError;
use rart_parts::utils::bitset::BitsetTrait;
use rart_parts::utils::u8_keys::keys_are_bytes;
use std::alloc::Global;
use std::marker::Model;

/// Maps bytes to at most `W` children, kept in the order of the bytes, and stores an extra value of type `E`. All is in
/// one allocation.
#[derive(Drop)]
pub struct SortedKeyedMapping<N, const W: usize, E = ()> {
    // The keys past the children are 255.
    pub(super) block: Block<E, [u8; W], N, W>,
}

impl<N, const W: usize, E> Model for SortedKeyedMapping<N, W, E> {
    ghost use Rattle.std.specs.List.{zip};
    ghost use Rattle.rart_maps.specs.SortedKeyed.{IsSortedKeyed};
    ghost use Rattle.rart_maps.specs.Contents.{Contents, contents_code};

    ghost Value = { Contents N E };

    ghost coded = { contents_code N.code E.code };

    ghost view = { λ m. record { extra = m.block.head; entries = zip m.block.keys m.block.items } };

    ghost invariant = { λ m. IsSortedKeyed W m.block.keys m.block.items W };
}

impl<N, const W: usize> SortedKeyedMapping<N, W> {
    /// Returns a map with no child. It allocates places for `W` children at once.
    ///
    /// # Errors
    ///
    /// [`TreeError::Memory`] if the allocation fails.
    pub fn new(alloc: Global) -> Result<Self, TreeError>
        requires { W ≤ 255 }
        ensures ok { IfOk result (λ m. m.entries ≡ []) }
        ensures memory { IfErr result IsMemory }
    {
        match SortedKeyedMapping::with_extra(alloc, ()) {
            Ok(map) => Ok(map),
            Err(_) => Err(TreeError::Memory),
        }
    }

    /// Moves the children of a sorted mapping of another capacity into a new map.
    ///
    /// # Errors
    ///
    /// [`TreeError::Memory`] if the allocation fails. `source` is then unchanged.
    pub fn from_resized<const U: usize, F>(
        alloc: Global,
        source: &mut SortedKeyedMapping<N, U, F>,
    ) -> Result<Self, TreeError>
        requires narrow { W ≤ 255 }
        requires at_most { length source.old.entries ≤ W }
        ensures ok { IfOk result (λ m. m.entries ≡ source.old.entries) }
        ensures emptied { OnOk result (source.new.entries ≡ []) }
        ensures extra { source.new.extra ≡ source.old.extra }
        ensures memory { IfErr result IsMemory }
        ensures unchanged { OnErr result (source.new ≡ source.old) }
    {
        let mut map = SortedKeyedMapping::new(alloc)?;
        map.fill_from_resized(source);
        Ok(map)
    }

    /// Moves the children of an indexed mapping into a new map.
    ///
    /// # Errors
    ///
    /// [`TreeError::Memory`] if the allocation fails. `source` is then unchanged.
    pub fn from_indexed<const U: usize, B: BitsetTrait, F>(
        alloc: Global,
        source: &mut IndexedMapping<N, U, B, F>,
    ) -> Result<Self, TreeError>
        requires narrow { W ≤ 255 }
        requires at_most { length (sorted_entries source.old.entries) ≤ W }
        ensures ok { IfOk result (λ m. m.entries ≡ sorted_entries source.old.entries) }
        ensures emptied { OnOk result (sorted_entries source.new.entries ≡ []) }
        ensures extra { source.new.extra ≡ source.old.extra }
        ensures memory { IfErr result IsMemory }
        ensures unchanged { OnErr result (source.new ≡ source.old) }
    {
        let mut map = SortedKeyedMapping::new(alloc)?;
        map.fill_from_indexed(source);
        Ok(map)
    }
}

impl<N, const W: usize, E> SortedKeyedMapping<N, W, E> {
    /// Returns a map with no child that stores `extra`. It allocates places for `W` children at once.
    ///
    /// # Errors
    ///
    /// The extra value, if the allocation fails.
    pub fn with_extra(alloc: Global, extra: E) -> Result<Self, E>
        requires { W ≤ 255 }
        ensures ok { IfOk result (λ m. m ≡ record { extra = extra; entries = [] }) }
        ensures unchanged { IfErr result (λ e. e ≡ extra) }
    {
        let keys = [255; W];
        match Block::new(alloc, extra, keys) {
            Ok(block) => Ok(SortedKeyedMapping { block }),
            Err((extra, _)) => Err(extra),
        }
    }

    /// Returns the extra value.
    #[inline(always)]
    pub fn extra(&self) -> &E
        ensures { result.now ≡ self.now.extra }
    {
        self.block.head()
    }

    /// Moves the children of a sorted mapping into this empty map. It does not allocate.
    pub fn fill_from_resized<const U: usize, F>(&mut self, source: &mut SortedKeyedMapping<N, U, F>)
        requires empty { self.old.entries ≡ [] }
        requires at_most { length source.old.entries ≤ W }
        ensures filled { self.new.entries ≡ source.old.entries }
        ensures emptied { source.new.entries ≡ [] }
        ensures extra { self.new.extra ≡ self.old.extra }
        ensures source_extra { source.new.extra ≡ source.old.extra }
    {
        let count = source.block.len();
        let mut keys = *self.block.keys();
        keys[..count].copy_from_slice(&source.block.keys()[..count]);
        let unused = [255; U];
        *self.block.keys_mut() = keys;
        *source.block.keys_mut() = unused;
        self.block.append(&mut source.block);
    }

    /// Moves the children of an indexed mapping into this empty map. It does not allocate.
    pub fn fill_from_indexed<const U: usize, B: BitsetTrait, F>(
        &mut self,
        source: &mut IndexedMapping<N, U, B, F>,
    )
        requires empty { self.old.entries ≡ [] }
        requires at_most { length (sorted_entries source.old.entries) ≤ W }
        ensures filled { self.new.entries ≡ sorted_entries source.old.entries }
        ensures emptied { sorted_entries source.new.entries ≡ [] }
        ensures extra { self.new.extra ≡ self.old.extra }
        ensures source_extra { source.new.extra ≡ source.old.extra }
    {
        // Its bytes ascend.
        let _count = source.num_children();
        // Removes the child alone: in a pair with its byte it would be moved twice more.
        while let Some(key) = source.first_byte() {
            let child = source.delete_child(key).unwrap();
            self.add_child(key, child);
        }
    }

    /// Returns the children with their bytes, ascending.
    #[inline(always)]
    pub fn iter(&self) -> SortedKeyedMappingIter<'_, N>
        ensures entries { result ≡ self.now.entries }
        ensures ascending { BytesAscend self.now.entries }
    {
        SortedKeyedMappingIter {
            keys: self.block.keys(),
            children: self.block.as_slice(),
        }
    }

    /// Returns the children at the bytes above `byte`, ascending. It starts at the first of them.
    #[inline(always)]
    pub fn iter_above(&self, byte: u8) -> SortedKeyedMappingIter<'_, N>
        ensures entries { result ≡ entries_above byte self.now.entries }
        ensures ascending { BytesAscend (entries_above byte self.now.entries) }
    {
        let keys: &[u8] = self.block.keys();
        let at = first_above(byte, self.block.keys(), self.block.len());
        SortedKeyedMappingIter {
            keys: &keys[at..],
            children: &self.block.as_slice()[at..],
        }
    }

    /// Returns the child at the greatest byte below `above`, with its byte. `None` is no bound.
    pub fn last_under(&self, above: Option<u8>) -> Option<(u8, &N)>
        ensures last { IsLastUnder (bound_of above) self.now.entries
            (option_map (λ e. (e.0, e.1.now)) result) }
        ensures ascending { BytesAscend self.now.entries }
        ensures bytes { (b : ℕ) → 256 ≤ b → child_at b self.now.entries ≡ None }
    {
        let keys = self.block.keys();
        let end = first_not_below(above, keys, self.num_children());
        if end == 0 {
            return None;
        }
        Some((keys[end - 1], &self.block.as_slice()[end - 1]))
    }

    /// Removes the only child and returns it with its byte.
    pub fn take_value_for_leaf(&mut self) -> (u8, N)
        requires { length self.old.entries ≡ 1 }
        ensures taken { self.old.entries ≡ result ∷ [] }
        ensures emptied { self.new.entries ≡ [] }
        ensures extra { self.new.extra ≡ self.old.extra }
    {
        let keys = self.block.keys_mut();
        let key = keys[0];
        keys[0] = 255;
        (key, self.block.remove(0))
    }

    /// Removes the child at the least byte and returns it with its byte.
    fn take_first(&mut self) -> Option<(u8, N)>
        ensures entries { MatchOption result ((self.old.entries ≡ []) × (self.new.entries ≡ []))
            (λ e. self.old.entries ≡ e ∷ self.new.entries) }
        ensures extra { self.new.extra ≡ self.old.extra }
    {
        if self.block.is_empty() {
            return None;
        }
        let key = self.block.keys()[0];
        let child = self.delete_child(key).unwrap();
        Some((key, child))
    }

    /// Removes the child at the greatest byte and returns it with its byte.
    pub(crate) fn take_last(&mut self) -> Option<(u8, N)>
        ensures entries { MatchOption result ((self.old.entries ≡ []) × (self.new.entries ≡ []))
            (λ e. self.old.entries ≡ self.new.entries ++ e ∷ []) }
        ensures extra { self.new.extra ≡ self.old.extra }
    {
        let Some(child) = self.block.pop() else {
            return None;
        };
        let last = self.block.len();
        let keys = self.block.keys_mut();
        let key = keys[last];
        keys[last] = 255;
        Some((key, child))
    }
}

impl<N, const W: usize, E> NodeMapping<N, W> for SortedKeyedMapping<N, W, E> {
    ghost map = { λ m. m.entries };

    ghost same_extra = { λ m n. n.extra ≡ m.extra };

    #[inline(always)]
    fn add_child(&mut self, key: u8, node: N) {
        let count = self.block.len();
        // Bulk loads and sorted insertions add each child so, without a search.
        if goes_last(key, self.block.keys(), count) {
            self.block.keys_mut()[count] = key;
            self.block.push(node);
            return;
        }
        let at = first_above(key, self.block.keys(), count);
        let keys = self.block.keys_mut();
        keys.copy_within(at..count, at + 1);
        keys[at] = key;
        self.block.insert(at, node);
    }

    #[inline(always)]
    fn seek_child(&self, key: u8) -> Option<&N> {
        match place_of(key, self.block.keys(), self.block.len()) {
            Some(at) => Some(&self.block.as_slice()[at]),
            None => None,
        }
    }

    #[inline(always)]
    fn seek_child_mut(&mut self, key: u8) -> Option<&mut N> {
        match place_of(key, self.block.keys(), self.block.len()) {
            Some(at) => Some(self.block.item_mut(at)),
            None => None,
        }
    }

    #[inline(always)]
    fn delete_child(&mut self, key: u8) -> Option<N> {
        let count = self.block.len();
        match place_of(key, self.block.keys(), count) {
            Some(at) => {
                let keys = self.block.keys_mut();
                keys.copy_within(at + 1..count, at);
                keys[count - 1] = 255;
                Some(self.block.remove(at))
            }
            None => None,
        }
    }

    #[inline(always)]
    fn num_children(&self) -> usize {
        keys_are_bytes(self.block.keys());
        self.block.len()
    }
}

impl<N, const W: usize, E> SortedKeyedMapping<N, W, E> {
    ghost use Rattle.std.specs.Borrow.{sem};
    ghost use Rattle.rart_maps.specs.Loans.{lends_sorted_extra};

    /// Returns a mutable borrow of the extra value.
    #[inline(always)]
    pub fn extra_mut(&mut self) -> &mut E
        ensures* writes_back { sem 𝓛 (lends_sorted_extra N.row W.row E.row self.entry result) }
        ensures value { result.now ≡ self.old.extra }
    {
        self.block.head_mut()
    }
}

impl<N, const W: usize, E> SortedKeyedMapping<N, W, E> {
    /// Frees a map with no child and returns the extra value. `N` needs no `Drop`.
    pub fn destroy_empty(self) -> E
        requires { self.entries ≡ [] }
        ensures { result ≡ self.extra }
    {
        let SortedKeyedMapping { block } = self;
        let (extra, _) = block.destroy_empty();
        extra
    }
}
