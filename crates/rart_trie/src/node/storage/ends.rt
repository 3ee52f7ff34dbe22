//! The first and the last child of a storage.
ghost use Rattle.std.specs.Prelude.{◌≡◌, None, option_map, slice_get};
ghost use Rattle.rart_keys.specs.Filters.{last_or};
ghost use Rattle.rart_trie.specs.storages.Stored.{child_entries};

use crate::node::storage::{Kind, Storage};

impl<P, V, N> Storage<P, V, N> {
    /// Returns the child at the least byte, with that byte.
    pub(crate) fn first_child(&self) -> Option<(u8, &N)>
        ensures { option_map (λ e. (e.0, e.1.now)) result ≡ slice_get (child_entries self.now) 0 }
    {
        self.iter().take_next()
    }

    /// Returns the child at the greatest byte, with that byte.
    pub(crate) fn last_child(&self) -> Option<(u8, &N)>
        ensures { option_map (λ e. (e.0, e.1.now)) result ≡ last_or None (child_entries self.now) }
    {
        match &self.kind {
            Kind::Empty(_) | Kind::Leaf(_, _) => None,
            Kind::Node4(_, keys, map) => keys.last_under(map, None),
            Kind::Node16(_, map) => map.last_under(None),
            Kind::Node48(_, map) => map.last_under(None),
            Kind::Node256(_, map) => map.last_under(None),
        }
    }
}
