//! The number of pairs whose key begins with a prefix, and of those within two bounds.
ghost use Rattle.std.specs.Prelude.{◌≡◌, length};
ghost use Rattle.rart_keys.specs.Filters.{below};
ghost use Rattle.rart_keys.specs.Ranges.{between, bound_in};
ghost use Rattle.rart_trie.specs.ranges.LentBounds.{lent_bound};

use crate::tree::AdaptiveRadixTree;
use rart_keys::KeyTrait;
use rart_nodes::Visits;
use std::ops::Bound;

impl<K: KeyTrait, V> AdaptiveRadixTree<K, V> {
    /// Returns the number of pairs whose key begins with `prefix`. Makes no key, allocates nothing.
    pub fn count_prefix_k(&self, prefix: &K) -> usize
        ensures { result ≡ length (below (K.bytes prefix.now) self.now.pairs) }
    {
        self.count_prefix_bytes(prefix.as_ref())
    }

    /// Returns the number of pairs whose key begins with `prefix`, as [`count_prefix_k`](Self::count_prefix_k).
    pub fn count_prefix(&self, prefix: K) -> usize
    where
        K: Drop,
        ensures { result ≡ length (below (K.bytes prefix) self.now.pairs) }
    {
        self.count_prefix_k(&prefix)
    }

    /// Returns the number of pairs whose key begins with the bytes `prefix`, which may be longer than any key: it is
    /// then 0. Makes no key, allocates nothing.
    pub fn count_prefix_bytes(&self, prefix: &[u8]) -> usize
        ensures { result ≡ length (below prefix.now self.now.pairs) }
    {
        // its contract says that the number of all pairs fits
        self.len();
        self.seen()
            .count_prefix_bytes_counted(prefix, &mut Visits::new())
    }

    /// Returns the number of pairs within two bounds; 0 if the end is below the start. Makes no key, allocates nothing.
    pub fn count_range(&self, start: Bound<K>, end: Bound<K>) -> usize
    where
        K: Drop,
        ensures { result ≡ length
            (between (bound_in K.bytes start) (bound_in K.bytes end) self.now.pairs) }
    {
        // its contract says that the number of all pairs fits
        self.len();
        self.seen()
            .count_range_counted(start, end, &mut Visits::new())
    }

    /// Returns the number of pairs within two bounds, whose bytes may be more than any key has, as
    /// [`count_range`](Self::count_range).
    pub fn count_range_bytes(&self, start: Bound<&[u8]>, end: Bound<&[u8]>) -> usize
        ensures { result ≡ length
            (between (lent_bound start.entry) (lent_bound end.entry) self.now.pairs) }
    {
        // its contract says that the number of all pairs fits
        self.len();
        self.seen()
            .count_range_bytes_counted(start, end, &mut Visits::new())
    }
}
