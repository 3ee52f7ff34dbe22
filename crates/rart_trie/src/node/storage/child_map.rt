//! The map that holds a node's children, for a reader that tells the kinds apart.
ghost use Rattle.std.specs.Prelude.{◌≡◌};
ghost use Rattle.rart_trie.specs.storages.ChildMaps.{IsKeyedMap, map_capacity, map_entries};
ghost use Rattle.rart_trie.specs.storages.Stored.{child_entries, storage_capacity};

use crate::node::storage::{Kind, Storage};
use rart_block::Block;
use rart_maps::mapping::{DirectMapping, FourKeys, IndexedMapping, SortedKeyedMapping};
use rart_parts::utils::bitset::Bitset64;

/// A shared borrow of the map that holds a node's children, by the kind of the node.
#[derive(Clone, Copy)]
pub enum ChildMap<'a, V, N> {
    /// No storage for children.
    Childless,
    /// At most four children, and their sorted keys.
    Node4(&'a FourKeys, &'a Block<Option<V>, (), N, 4>),
    /// At most sixteen children, by sorted keys.
    Node16(&'a SortedKeyedMapping<N, 16, Option<V>>),
    /// At most 48 children, with an index from bytes to slots.
    Node48(&'a IndexedMapping<N, 48, Bitset64<1>, Option<V>>),
    /// A place for each byte.
    Node256(&'a DirectMapping<N, Option<V>>),
}

impl<P, V, N> Storage<P, V, N> {
    /// Returns the map of the children. It does not allocate.
    pub(crate) fn child_map(&self) -> ChildMap<'_, V, N>
        ensures entries { map_entries result ≡ child_entries self.now }
        ensures capacity { map_capacity result ≡ storage_capacity self.now }
        ensures keyed { IsKeyedMap result }
    {
        match &self.kind {
            Kind::Empty(_) | Kind::Leaf(_, _) => ChildMap::Childless,
            Kind::Node4(_, keys, map) => ChildMap::Node4(keys, map),
            Kind::Node16(_, map) => ChildMap::Node16(map),
            Kind::Node48(_, map) => ChildMap::Node48(map),
            Kind::Node256(_, map) => ChildMap::Node256(map),
        }
    }
}
