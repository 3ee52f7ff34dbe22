//! The prefix, the value and the children of a node, the children in one of four maps or in none.

// A contract reads storage as a prefix, a value, an ascending list of entries and a capacity.

ghost use Rattle.std.specs.Prelude.{◌≡◌, ◌<◌, [], length, None};
ghost use Rattle.std.specs.Option.{option_copied};
ghost use Rattle.rart_parts.specs.Entries.{child_at, with_entry, without_byte};
ghost use Rattle.rart_trie.specs.declared.node.storage.Kind.TheVariants.{Empty, Leaf};
ghost use Rattle.rart_trie.specs.storages.Kinds.{IsFourPlace};
ghost use Rattle.rart_trie.specs.storages.Stored.{child_entries, storage_capacity, stored_prefix, stored_value};

use rart_block::Block;
use rart_maps::mapping::{
    DirectMapping, FourKeys, IndexedMapping, NodeMapping, SortedKeyedMapping,
};
use rart_parts::utils::bitset::Bitset64;
use std::marker::Model;

pub(crate) mod child_map;
mod ends;
mod grow;
mod last_under;
mod prefix;
mod shrink;
mod value;
pub(crate) mod walk;

/// The prefix, the value and the children of a node. A leaf holds its value itself, so a place for a node is small.
/// Value and map of an inner node are on the heap, but for the keys of at most four children. The map holds at most as
/// many children as its capacity: 4, 16, 48 or 256.
// Each kind holds the prefix, so that a short prefix and the tag share a word.
#[derive(Drop)]
pub(crate) enum Kind<P, V, N> {
    /// Neither a value nor a child. It is not allocated.
    Empty(P),
    /// A value and no child. It is not allocated.
    Leaf(P, V),
    /// At most four children, by sorted keys that lie beside the pointer to the children.
    // The keys follow the prefix, which then lies at the same place in each kind.
    Node4(P, FourKeys, Block<Option<V>, (), N, 4>),
    /// At most sixteen children, by sorted keys.
    Node16(P, SortedKeyedMapping<N, 16, Option<V>>),
    /// At most 48 children, with an index from bytes to slots.
    Node48(P, IndexedMapping<N, 48, Bitset64<1>, Option<V>>),
    /// A place for each byte.
    Node256(P, DirectMapping<N, Option<V>>),
}

/// The prefix, the value and the children of a node, by its kind. A contract reads it as the kind.
#[derive(Drop)]
pub(crate) struct Storage<P, V, N> {
    // A variant can't say that each child has a key.
    kind: Kind<P, V, N>,
}

impl<P, V, N> Model for Storage<P, V, N> {
    ghost use Rattle.rart_trie.specs.declared.node.storage.Kind.{Kind};
    ghost use Rattle.rart_trie.specs.storages.Kinds.{IsKeyed, kind_code};

    ghost Value = { Kind P V N };

    ghost coded = { kind_code P.code V.code N.code };

    ghost view = { λ s. s.kind };

    ghost invariant = { λ s. IsKeyed s.kind };
}

impl<P, V, N> Storage<P, V, N> {
    /// Returns storage with neither a value nor a child. It does not allocate.
    #[inline(always)]
    pub(crate) fn empty(prefix: P) -> Self
        ensures { result ≡ Empty prefix }
    {
        Storage {
            kind: Kind::Empty(prefix),
        }
    }

    /// Returns storage with a value and no child. It does not allocate.
    #[inline(always)]
    pub(crate) fn leaf(prefix: P, value: V) -> Self
        ensures { result ≡ Leaf prefix value }
    {
        Storage {
            kind: Kind::Leaf(prefix, value),
        }
    }

    /// Returns storage of capacity 0 that holds `value`. It does not allocate.
    pub(crate) fn childless(prefix: P, value: Option<V>) -> Self
        ensures entries { child_entries result ≡ [] }
        ensures capacity { storage_capacity result ≡ 0 }
        ensures value { stored_value result ≡ value }
        ensures prefix { stored_prefix result ≡ prefix }
    {
        match value {
            Some(value) => Storage::leaf(prefix, value),
            None => Storage::empty(prefix),
        }
    }

    /// Returns the number of children.
    pub(crate) fn num_children(&self) -> usize
        ensures { result ≡ length (child_entries self.now) }
    {
        match &self.kind {
            Kind::Empty(_) | Kind::Leaf(_, _) => 0,
            Kind::Node4(_, keys, map) => keys.num_children(map),
            Kind::Node16(_, map) => map.num_children(),
            Kind::Node48(_, map) => map.num_children(),
            Kind::Node256(_, map) => map.num_children(),
        }
    }

    /// Returns the capacity of this kind: 0, 4, 16, 48 or 256.
    pub(crate) fn capacity(&self) -> usize
        ensures { result ≡ storage_capacity self.now }
    {
        match &self.kind {
            Kind::Empty(_) | Kind::Leaf(_, _) => 0,
            Kind::Node4(_, _, _) => 4,
            Kind::Node16(_, _) => 16,
            Kind::Node48(_, _) => 48,
            Kind::Node256(_, _) => 256,
        }
    }

    /// Returns the child at byte `b`.
    pub(crate) fn seek_child(&self, b: u8) -> Option<&N>
        ensures { option_copied result ≡ child_at b (child_entries self.now) }
    {
        match &self.kind {
            Kind::Empty(_) | Kind::Leaf(_, _) => None,
            Kind::Node4(_, keys, map) => keys.seek_child(map, b),
            Kind::Node16(_, map) => map.seek_child(b),
            Kind::Node48(_, map) => map.seek_child(b),
            Kind::Node256(_, map) => map.seek_child(b),
        }
    }

    /// Returns the place of the child at byte `b` in a node of at most four children, and `None` in another kind.
    #[inline(always)]
    fn place_in_four(&self, b: u8) -> Option<usize>
        ensures { IsFourPlace b self.now result }
    {
        match &self.kind {
            Kind::Node4(_, keys, map) => keys.place_of(map, b),
            Kind::Empty(_)
            | Kind::Leaf(_, _)
            | Kind::Node16(_, _)
            | Kind::Node48(_, _)
            | Kind::Node256(_, _) => None,
        }
    }

    /// Inserts a child at byte `b`, which has none. It does not allocate.
    // Inline, so that a new child is not copied again.
    #[inline(always)]
    pub(crate) fn add_within(&mut self, b: u8, node: N)
        requires absent { child_at b (child_entries self.old) ≡ None }
        requires not_full { length (child_entries self.old) < storage_capacity self.old }
        ensures entries { child_entries self.new ≡ with_entry b node (child_entries self.old) }
        ensures capacity { storage_capacity self.new ≡ storage_capacity self.old }
        ensures value_kept { stored_value self.new ≡ stored_value self.old }
        ensures prefix_kept { stored_prefix self.new ≡ stored_prefix self.old }
    {
        match &mut self.kind {
            Kind::Empty(_) | Kind::Leaf(_, _) => unreachable!(),
            Kind::Node4(_, keys, map) => keys.add_child(map, b, node),
            Kind::Node16(_, map) => map.add_child(b, node),
            Kind::Node48(_, map) => map.add_child(b, node),
            Kind::Node256(_, map) => map.add_child(b, node),
        }
    }

    /// Removes the child at byte `b` and keeps the kind. It does not allocate.
    pub(crate) fn delete_within(&mut self, b: u8) -> Option<N>
        ensures taken { result ≡ child_at b (child_entries self.old) }
        ensures entries { child_entries self.new ≡ without_byte b (child_entries self.old) }
        ensures capacity { storage_capacity self.new ≡ storage_capacity self.old }
        ensures value_kept { stored_value self.new ≡ stored_value self.old }
        ensures prefix_kept { stored_prefix self.new ≡ stored_prefix self.old }
    {
        match &mut self.kind {
            Kind::Empty(_) | Kind::Leaf(_, _) => None,
            Kind::Node4(_, keys, map) => keys.delete_child(map, b),
            Kind::Node16(_, map) => map.delete_child(b),
            Kind::Node48(_, map) => map.delete_child(b),
            Kind::Node256(_, map) => map.delete_child(b),
        }
    }
}

impl<P, V, N> Storage<P, V, N> {
    ghost use Rattle.std.specs.Prelude.{◌≡◌};
    ghost use Rattle.std.specs.Option.{option_copied_mut};
    ghost use Rattle.std.specs.Borrow.{sem};
    ghost use Rattle.rart_parts.specs.Entries.{child_at};
    ghost use Rattle.rart_trie.specs.storages.Lends.{lends_child};
    ghost use Rattle.rart_trie.specs.declared.node.storage.Kind.TheVariants.{Empty, Leaf};
    ghost use Rattle.rart_trie.specs.storages.Stored.{child_entries};

    /// Returns a mutable borrow of the child at byte `b`.
    // Inline, so that the caller branches on the kind itself: the byte and the child are then read in parallel.
    #[inline(always)]
    pub(crate) fn seek_child_mut(&mut self, b: u8) -> Option<&mut N>
        ensures* writes_back { sem 𝓛 (lends_child P.row V.row N.row self.entry b result) }
        ensures value { option_copied_mut result ≡ child_at b (child_entries self.old) }
    {
        let at = self.place_in_four(b);
        match &mut self.kind {
            Kind::Empty(_) | Kind::Leaf(_, _) => None,
            Kind::Node4(_, _, map) => match at {
                Some(at) => Some(map.item_mut(at)),
                None => None,
            },
            Kind::Node16(_, map) => map.seek_child_mut(b),
            Kind::Node48(_, map) => map.seek_child_mut(b),
            Kind::Node256(_, map) => map.seek_child_mut(b),
        }
    }
}
