//! The longest string with which all keys below a prefix begin: how far a completion of the prefix goes by itself.
ghost use Rattle.std.specs.Prelude.{◌≡◌, [], MatchOption};
ghost use Rattle.rart_keys.specs.Filters.{below};
ghost use Rattle.rart_keys.specs.SortedMap.{keys_of};
ghost use Rattle.rart_nodes.specs.walks.CommonPrefixes.{IsCommonPrefix};

use crate::tree::AdaptiveRadixTree;
use rart_keys::KeyTrait;
use rart_nodes::Visits;

impl<K: KeyTrait, V> AdaptiveRadixTree<K, V> {
    /// Returns the longest common prefix of the keys that begin with `prefix`, or `None` if there are none. Makes that
    /// prefix as a key, allocates nothing.
    pub fn longest_common_prefix_k(&self, prefix: &K) -> Option<K>
        ensures { MatchOption result (below (K.bytes prefix.now) self.now.pairs ≡ [])
            (λ k. IsCommonPrefix (K.bytes k) (keys_of (below (K.bytes prefix.now) self.now.pairs))) }
    {
        self.longest_common_prefix_bytes(prefix.as_ref())
    }

    /// Returns the longest common prefix of the keys that begin with `prefix`, as
    /// [`longest_common_prefix_k`](Self::longest_common_prefix_k).
    pub fn longest_common_prefix(&self, prefix: K) -> Option<K>
    where
        K: Drop,
        ensures { MatchOption result (below (K.bytes prefix) self.now.pairs ≡ [])
            (λ k. IsCommonPrefix (K.bytes k) (keys_of (below (K.bytes prefix) self.now.pairs))) }
    {
        self.longest_common_prefix_k(&prefix)
    }

    /// Returns the longest common prefix of the keys that begin with the bytes `prefix`, or `None` if there are none.
    /// `prefix` may be longer than any key. Makes that prefix as a key, allocates nothing.
    pub fn longest_common_prefix_bytes(&self, prefix: &[u8]) -> Option<K>
        ensures { MatchOption result (below prefix.now self.now.pairs ≡ [])
            (λ k. IsCommonPrefix (K.bytes k) (keys_of (below prefix.now self.now.pairs))) }
    {
        self.seen()
            .longest_common_prefix_bytes_counted(prefix, &mut Visits::new())
    }
}
