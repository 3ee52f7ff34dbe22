//! The last child of a storage under a byte.
ghost use Rattle.std.specs.Prelude.{◌≡◌, None, option_map};
ghost use Rattle.rart_keys.specs.Filters.{last_or};
ghost use Rattle.rart_trie.specs.ranges.Under.{entries_under};
ghost use Rattle.rart_trie.specs.storages.Stored.{child_entries};

use crate::node::storage::{Kind, Storage};

impl<P, V, N> Storage<P, V, N> {
    /// Returns the child at the greatest byte under `byte`, with its byte.
    pub(crate) fn last_child_under(&self, byte: u8) -> Option<(u8, &N)>
        ensures { option_map (λ e. (e.0, e.1.now)) result
            ≡ last_or None (entries_under byte (child_entries self.now)) }
    {
        match &self.kind {
            Kind::Empty(_) | Kind::Leaf(_, _) => None,
            Kind::Node4(_, keys, map) => keys.last_under(map, Some(byte)),
            Kind::Node16(_, map) => map.last_under(Some(byte)),
            Kind::Node48(_, map) => map.last_under(Some(byte)),
            Kind::Node256(_, map) => map.last_under(Some(byte)),
        }
    }
}
