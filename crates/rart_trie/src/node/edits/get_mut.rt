//! Mutable borrows of a stored value.
ghost use Rattle.std.specs.Prelude.{◌≡◌, ◌<◌, ℕ, List};
ghost use Rattle.std.specs.Borrow.{sem, LendsSo};
ghost use Rattle.std.specs.Option.{option_copied_mut};
ghost use Rattle.rart_keys.specs.SortedMap.{lookup};
ghost use Rattle.rart_trie.specs.edits.Lends.{lends_below, lends_in};
ghost use Rattle.rart_trie.specs.edits.Loan.{EndsLent};
ghost use Rattle.rart_trie.specs.tries.Tree.{IsCanonicalTree, tree_pairs};
ghost use Rattle.rart_trie.specs.tries.Trie.{Trie, IsCanonical, trie_lookup, trie_put};
ghost use Rattle.rart_trie.specs.tries.TrieCode.{node_count};

use crate::node::DefaultNode;
use rart_keys::Partial;

/// Lends the value at a key. Only `lend_by` takes a step of the descent, so a single call recurs.
trait Lends<V> {
    ghost use Rattle.std.specs.Prelude.{Option};

    ghost ready: { Self → Type 0 };

    ghost found: { Self → List ℕ → Option V };

    ghost put: { Self → List ℕ → V → Self };

    fn lend(&mut self, key: &[u8]) -> Option<&mut V>
        requires ready { ready self.old }
        ensures* writes_back { sem 𝓛 (LendsSo Self.row V.row self.entry result
            (λ n w. EndsLent result (put self.old key.now w) self.old n) (λ n. n ≡ self.old)) }
        ensures value { option_copied_mut result ≡ found self.old key.now };
}

impl<P: Partial, V> Lends<V> for DefaultNode<P, V> {
    ghost ready = { IsCanonical };

    ghost found = { λ n key. trie_lookup key n };

    ghost put = { λ n key w. trie_put key w n };

    fn lend(&mut self, key: &[u8]) -> Option<&mut V> {
        lend_by(self, key)
    }
}

/// Lends the value at the rest of a key, given that each child lends its own.
fn lend_by<'a, P: Partial, V>(node: &'a mut DefaultNode<P, V>, key: &[u8]) -> Option<&'a mut V>
where
    DefaultNode<P, V>: Lends<V>,
    requires canonical { IsCanonical node.old }
    requires ready { (n : Trie V) → IsCanonical n → node_count n < node_count node.old
        → ⟦<DefaultNode<P, V> as Lends<V>>⟧.ready n }
    requires found { (n : Trie V) (k : List ℕ)
        → ⟦<DefaultNode<P, V> as Lends<V>>⟧.found n k ≡ trie_lookup k n }
    requires put { (n : Trie V) (k : List ℕ) (w : V)
        → ⟦<DefaultNode<P, V> as Lends<V>>⟧.put n k w ≡ trie_put k w n }
    ensures* writes_back { sem 𝓛 (lends_below P.row V.row P.Partial node.entry key.now result) }
    ensures value { option_copied_mut result ≡ trie_lookup key.now node.old }
{
    let Some(rest) = node.storage.strip_prefix(key) else {
        return None;
    };
    let Some(&byte) = rest.first() else {
        return node.storage.value_mut();
    };
    match node.storage.seek_child_mut(byte) {
        Some(child) => child.lend(rest),
        None => None,
    }
}

impl<P: Partial, V> DefaultNode<P, V> {
    /// Returns a mutable borrow of the value at `key`. After the borrow ends, only that value can have changed. It
    /// does not allocate.
    pub fn get_mut<'a>(root: &'a mut Option<Self>, key: &[u8]) -> Option<&'a mut V>
        requires canonical { IsCanonicalTree root.old }
        ensures* writes_back { sem 𝓛 (lends_in P.row V.row P.Partial root.entry key.now result) }
        ensures value { option_copied_mut result ≡ lookup key.now (tree_pairs root.old) }
    {
        match root {
            Some(node) => node.lend(key),
            None => None,
        }
    }
}
