//! Look-ups in a shared tree with counted visits.
ghost use Rattle.std.specs.Prelude.{◌≡◌, ◌≤◌, ◌+◌, length};
ghost use Rattle.std.specs.Option.{option_copied};
ghost use Rattle.rart_keys.specs.SortedMap.{lookup};
ghost use Rattle.rart_trie.specs.walks.ProbeCount.{probe_count, tree_entered};
ghost use Rattle.rart_nodes.specs.tries.SeenTrees.{seen_keys, seen_pairs, seen_tree};
ghost use Rattle.rart_trie.specs.tries.Tree.{tree_lookup};

use crate::node::seen::Seen;
use rart_keys::KeyTrait;
use rart_trie::Count;
use rart_trie::node::strip_prefix;

impl<'a, K: KeyTrait, V, C: Count> Seen<'a, K, V, C> {
    fn descend(self, key: &[u8], counter: &mut C) -> Option<&'a V>
        ensures value { option_copied result ≡ tree_lookup key.now (seen_tree self.entry) }
        ensures visits { C.number counter.new ≡ C.number counter.old
            + tree_entered key.now (seen_tree self.entry) }
    {
        let mut next = self.top();
        let mut rest = key;
        while let Some(node) = next {
            let at = node.enter(counter);
            let Some(after) = strip_prefix(at.prefix(), rest) else {
                return None;
            };
            let Some(byte) = after.first() else {
                return at.value();
            };
            next = at.child(*byte);
            rest = after;
        }
        None
    }

    /// Returns the value at the bytes `key`, which may be longer than any key.
    ///
    /// # Visits
    ///
    /// At most `key.len() + 1` nodes.
    pub fn get_bytes_counted(self, key: &[u8], counter: &mut C) -> Option<&'a V>
        ensures value { option_copied result ≡ lookup key.now (seen_pairs self.entry) }
        ensures visits { C.number counter.new
            ≡ C.number counter.old + probe_count (seen_keys self.entry) key.now }
        ensures bound { C.number counter.new ≤ C.number counter.old + length key.now + 1 }
    {
        self.descend(key, counter)
    }

    /// Returns the value at a key.
    ///
    /// # Visits
    ///
    /// At most `key.len() + 1` nodes.
    pub fn get_k_counted(self, key: &K, counter: &mut C) -> Option<&'a V>
        ensures value { option_copied result ≡ lookup (K.bytes key.now) (seen_pairs self.entry) }
        ensures visits { C.number counter.new
            ≡ C.number counter.old + probe_count (seen_keys self.entry) (K.bytes key.now) }
        ensures bound { C.number counter.new ≤ C.number counter.old + length (K.bytes key.now) + 1 }
    {
        self.get_bytes_counted(key.as_ref(), counter)
    }
}
