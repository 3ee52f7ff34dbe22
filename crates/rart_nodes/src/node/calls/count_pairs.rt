//! The number of pairs of a shared tree, and of those below a prefix, found node by node.
ghost use Rattle.std.specs.Prelude.{◌≡◌, ◌+◌, ◌*◌, ◌≤◌, length};
ghost use Rattle.rart_keys.specs.Filters.{below};
ghost use Rattle.rart_nodes.specs.tries.SeenTrees.{seen_nodes, seen_pairs};
ghost use Rattle.rart_trie.specs.tries.Trie.{pairs_of};
ghost use Rattle.rart_trie.specs.tries.TrieCode.{node_count};
ghost use Rattle.rart_trie.specs.walks.BelowPrefix.{below_bound, below_visits};

use crate::node::path_walk::below::seek_prefix;
use crate::node::path_walk::path::NoPath;
use crate::node::seen::{Entered, Seen};
use rart_keys::{KeyTrait, Partial};
use rart_trie::Count;

/// Returns the number of pairs at and below a visited node.
pub(super) fn count_below<P: Partial, V, C: Count>(
    node: Entered<'_, P, V, C>,
    counter: &mut C,
) -> usize
    requires { length (pairs_of node.node.now) ≤ usize.MAX }
    ensures value { result ≡ length (pairs_of node.entry.node.now) }
    ensures visits { C.number counter.new + 1
        ≡ C.number counter.old + node_count node.entry.node.now }
{
    let mut count = if node.value().is_some() { 1 } else { 0 };
    let mut rest = node.branches();
    while let Some(child) = rest.enter_next(counter) {
        count += count_below(child, counter);
    }
    count
}

impl<'a, K: KeyTrait, V, C: Count> Seen<'a, K, V, C> {
    /// Returns the number of pairs, which must fit. It makes no key and does not allocate.
    ///
    /// # Visits
    ///
    /// Each node once: at most two for each pair.
    pub fn count_pairs_counted(self, counter: &mut C) -> usize
        requires { length (seen_pairs self) ≤ usize.MAX }
        ensures value { result ≡ length (seen_pairs self.entry) }
        ensures visits { C.number counter.new
            ≡ C.number counter.old + length (seen_nodes self.entry) }
        ensures bound { C.number counter.new
            ≤ C.number counter.old + 2 * length (seen_pairs self.entry) }
    {
        match self.top() {
            Some(top) => {
                let node = top.enter(counter);
                count_below(node, counter)
            }
            None => 0,
        }
    }

    /// Returns the number of pairs whose key begins with the bytes `prefix`. The number of all pairs must fit. It makes
    /// no key and does not allocate.
    ///
    /// # Visits
    ///
    /// At most `prefix.len() + 1` nodes on the way to the pairs, and two for each pair.
    pub fn count_prefix_bytes_counted(self, prefix: &[u8], counter: &mut C) -> usize
        requires { length (seen_pairs self) ≤ usize.MAX }
        ensures value { result ≡ length (below prefix.now (seen_pairs self.entry)) }
        ensures visits { C.number counter.new
            ≤ C.number counter.old + below_visits prefix.now (seen_pairs self.entry) }
        ensures bound { C.number counter.new
            ≤ C.number counter.old + below_bound prefix.now (seen_pairs self.entry) }
    {
        // its contract says that no key is longer than a path can hold
        self.longest();
        let Some(top) = self.top() else {
            return 0;
        };
        match seek_prefix(Some(top), prefix, &mut NoPath, counter) {
            Some((at, _depth)) => count_below(at, counter),
            None => 0,
        }
    }
}
