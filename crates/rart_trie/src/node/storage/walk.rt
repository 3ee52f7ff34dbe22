//! An iterator over the children of a storage in byte order, which a contract reads as the remaining children.
ghost use Rattle.std.specs.Prelude.{◌≡◌, option_map, slice_get};
ghost use Rattle.std.specs.Iterator.{YieldsFirstBy};
ghost use Rattle.rart_parts.specs.Entries.{BytesAscend, entries_above};
ghost use Rattle.rart_trie.specs.ranges.Starts.{entries_after};
ghost use Rattle.rart_trie.specs.storages.Stored.{child_entries};
ghost use Rattle.rart_trie.specs.walks.Walks.{to_come};

use crate::node::storage::{Kind, Storage};
use rart_maps::mapping::direct_mapping::DirectMappingIter;
use rart_maps::mapping::indexed_mapping::IndexedMappingIter;
use rart_maps::mapping::sorted_keyed_mapping::SortedKeyedMappingIter;

/// The remaining children, by the map that holds them.
#[derive(Drop)]
pub(crate) enum StorageIter<'a, N> {
    /// None, of a node without children.
    Childless,
    /// Those of capacity 4 or 16.
    Sorted(SortedKeyedMappingIter<'a, N>),
    /// Those of capacity 48.
    Indexed(IndexedMappingIter<'a, N>),
    /// Those of capacity 256.
    Direct(DirectMappingIter<'a, N>),
}

impl<'a, N> StorageIter<'a, N> {
    /// Returns the next child with its byte. It does not allocate.
    // Inline, as each step of a walk calls it.
    #[inline(always)]
    pub(crate) fn take_next(&mut self) -> Option<(u8, &'a N)>
        ensures { YieldsFirstBy (λ item. (item.0, item.1.now)) to_come self.old result self.new }
    {
        match self {
            StorageIter::Childless => None,
            StorageIter::Sorted(children) => children.next(),
            StorageIter::Indexed(children) => children.next(),
            StorageIter::Direct(children) => children.next(),
        }
    }
}

impl<P, V, N> Storage<P, V, N> {
    /// Returns the children with their bytes, ascending. It does not allocate.
    pub(crate) fn iter(&self) -> StorageIter<'_, N>
        ensures entries { to_come result ≡ child_entries self.now }
        ensures ascending { BytesAscend (child_entries self.now) }
    {
        match &self.kind {
            Kind::Empty(_) | Kind::Leaf(_, _) => StorageIter::Childless,
            Kind::Node4(_, keys, map) => StorageIter::Sorted(keys.iter(map)),
            Kind::Node16(_, map) => StorageIter::Sorted(map.iter()),
            Kind::Node48(_, map) => StorageIter::Indexed(map.iter()),
            Kind::Node256(_, map) => StorageIter::Direct(map.iter()),
        }
    }

    /// Returns the children at the bytes above `byte`, ascending. It does not allocate.
    pub(crate) fn iter_above(&self, byte: u8) -> StorageIter<'_, N>
        ensures entries { to_come result ≡ entries_above byte (child_entries self.now) }
        ensures ascending { BytesAscend (entries_above byte (child_entries self.now)) }
    {
        match &self.kind {
            Kind::Empty(_) | Kind::Leaf(_, _) => StorageIter::Childless,
            Kind::Node4(_, keys, map) => StorageIter::Sorted(keys.iter_above(map, byte)),
            Kind::Node16(_, map) => StorageIter::Sorted(map.iter_above(byte)),
            Kind::Node48(_, map) => StorageIter::Indexed(map.iter_above(byte)),
            Kind::Node256(_, map) => StorageIter::Direct(map.iter_above(byte)),
        }
    }

    /// Returns the least byte that has a child.
    pub(crate) fn first_byte(&self) -> Option<u8>
        ensures { result ≡ option_map (λ e. e.0) (slice_get (child_entries self.now) 0) }
    {
        match self.iter().take_next() {
            Some((byte, _)) => Some(byte),
            None => None,
        }
    }

    /// Returns the least byte above `byte` that has a child.
    pub(crate) fn byte_above(&self, byte: u8) -> Option<u8>
        ensures { result
            ≡ option_map (λ e. e.0) (slice_get (entries_above byte (child_entries self.now)) 0) }
    {
        match self.iter_above(byte).take_next() {
            Some((above, _)) => Some(above),
            None => None,
        }
    }

    /// Returns the least byte above `bound` that has a child, or the least of all if there is no bound.
    pub(crate) fn first_byte_after(&self, bound: Option<u8>) -> Option<u8>
        ensures { result
            ≡ option_map (λ e. e.0) (slice_get (entries_after bound (child_entries self.now)) 0) }
    {
        match bound {
            Some(byte) => self.byte_above(byte),
            None => self.first_byte(),
        }
    }
}
