//! The longest string with which all keys below a prefix begin.
ghost use Rattle.std.specs.Prelude.{◌≡◌, ◌≤◌, ◌+◌, [], length, MatchOption};
ghost use Rattle.rart_keys.specs.Filters.{below};
ghost use Rattle.rart_keys.specs.SortedMap.{keys_of};
ghost use Rattle.rart_nodes.specs.tries.SeenTrees.{seen_keys, seen_pairs};
ghost use Rattle.rart_nodes.specs.walks.CommonPrefixes.{IsCommonPrefix};
ghost use Rattle.rart_trie.specs.walks.ProbeCount.{probe_count};

use crate::node::path_walk::below::seek_prefix;
use crate::node::path_walk::path::NoPath;
use crate::node::seen::Seen;
use rart_keys::{KeyTrait, Partial};
use rart_trie::Count;

impl<'a, K: KeyTrait, V, C: Count> Seen<'a, K, V, C> {
    /// Returns the longest common prefix of the keys that begin with the bytes `prefix`, or `None` if there are none.
    /// It makes that prefix as a key, and does not allocate.
    ///
    /// # Visits
    ///
    /// At most `prefix.len() + 1` nodes.
    pub fn longest_common_prefix_bytes_counted(self, prefix: &[u8], counter: &mut C) -> Option<K>
        ensures value { MatchOption result (below prefix.now (seen_pairs self.entry) ≡ [])
            (λ k. IsCommonPrefix (K.bytes k)
            (keys_of (below prefix.now (seen_pairs self.entry)))) }
        ensures visits { C.number counter.new
            ≡ C.number counter.old + probe_count (seen_keys self.entry) prefix.now }
        ensures bound { C.number counter.new ≤ C.number counter.old + length prefix.now + 1 }
    {
        // its contract says that no key is longer than a path can hold
        self.longest();
        let Some(top) = self.top() else {
            return None;
        };
        let Some((at, depth)) = seek_prefix(Some(top), prefix, &mut NoPath, counter) else {
            return None;
        };
        Some(K::joined(&prefix[..depth], at.prefix().to_slice()))
    }
}
