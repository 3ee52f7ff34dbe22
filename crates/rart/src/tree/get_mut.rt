//! Mutable borrows of a stored value.
ghost use Rattle.std.specs.Prelude.{◌≡◌};
ghost use Rattle.std.specs.Borrow.{sem};
ghost use Rattle.std.specs.Option.{option_copied_mut};
ghost use Rattle.rart_keys.specs.SortedMap.{lookup};
ghost use Rattle.rart.specs.Loans.{lends_value};

use crate::tree::AdaptiveRadixTree;
use rart_keys::KeyTrait;
use rart_nodes::node::DefaultNode;

impl<K: KeyTrait, V> AdaptiveRadixTree<K, V> {
    /// Returns a mutable reference to the value at `key`. Allocates nothing.
    ///
    /// After the borrow ends, only the value at `key` can have changed.
    ///
    /// # Examples
    ///
    /// ```ignore
    /// if let Some(n) = names.get_mut_k(&ArrayKey::new_from_slice(b"bucket")) {
    ///     *n = n.wrapping_add(1);
    /// }
    /// ```
    pub fn get_mut_k<'a>(&'a mut self, key: &K) -> Option<&'a mut V>
        ensures* writes_back { sem 𝓛
            (lends_value K.row V.row K.PartialType.row K.KeyTrait K.PartialType.Partial
            self.entry (K.bytes key.now) result) }
        ensures value { option_copied_mut result ≡ lookup (K.bytes key.now) self.old.pairs }
    {
        DefaultNode::get_mut(&mut self.root, key.as_ref())
    }

    /// Returns a mutable reference to the value at `key`, as [`get_mut_k`](Self::get_mut_k).
    pub fn get_mut(&mut self, key: K) -> Option<&mut V>
    where
        K: Drop,
        ensures* writes_back { sem 𝓛
            (lends_value K.row V.row K.PartialType.row K.KeyTrait K.PartialType.Partial
            self.entry (K.bytes key) result) }
        ensures value { option_copied_mut result ≡ lookup (K.bytes key) self.old.pairs }
    {
        self.get_mut_k(&key)
    }
}
