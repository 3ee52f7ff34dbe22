//! Two trees as sets of keys: whether one has all keys of the other, and whether they share any.
ghost use Rattle.std.specs.Prelude.{◌↔◌, IsTrue};
ghost use Rattle.rart_keys.specs.Joins.{AreKeysOf, ShareNoKey};

use crate::tree::AdaptiveRadixTree;
use rart_keys::KeyTrait;
use rart_nodes::Visits;

impl<K: KeyTrait, V> AdaptiveRadixTree<K, V> {
    /// Returns whether each key of this tree is a key of `other`. The values don't count. Makes no key, allocates
    /// nothing. A tree with more keys is no subset, which is known without a visit.
    pub fn is_subset<W>(&self, other: &AdaptiveRadixTree<K, W>) -> bool
        ensures { IsTrue result ↔ AreKeysOf self.now.pairs other.now.pairs }
    {
        self.seen()
            .is_subset_counted(self.len(), other.seen(), other.len(), &mut Visits::new())
    }

    /// Returns whether no key of this tree is a key of `other`. The values don't count. Makes no key, allocates
    /// nothing. Ends at the first key of both.
    pub fn is_disjoint<W>(&self, other: &AdaptiveRadixTree<K, W>) -> bool
        ensures { IsTrue result ↔ ShareNoKey self.now.pairs other.now.pairs }
    {
        self.seen()
            .is_disjoint_counted(other.seen(), &mut Visits::new())
    }
}
