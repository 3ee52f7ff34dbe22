//! The theorems on statistics, each the contract of a function with an empty body.
ghost use Rattle.std.specs.Prelude.{◌≡◌, ◌+◌, ◌*◌, ◌≤◌, length};
ghost use Rattle.rart_keys.specs.SortedMap.{keys_of};
ghost use Rattle.rart_trie.specs.stats.Stats.{height, stats_of, sum_in, trie_height, trie_stats, width_at};
ghost use Rattle.rart_trie.specs.tries.Trie.{Trie, IsCanonical, nodes_of, pairs_of};

/// Proves that the statistics of a canonical trie are those of its keys. The height is the greatest number of branch
/// points that begin one key. The capacities of the nodes sum to at most 16 for each key but one.
pub fn of_keys<V>()
    ensures value { (t : Trie V) → IsCanonical t
        → trie_stats t ≡ stats_of (keys_of (pairs_of t)) (nodes_of t) }
    ensures height { (t : Trie V) → IsCanonical t → trie_height t ≡ height (keys_of (pairs_of t)) }
    ensures few_widths { (t : Trie V) → IsCanonical t
        → sum_in width_at t + 16 ≤ 16 * length (pairs_of t) }
{}

/// Proves that canonical tries with equal keys have equal statistics.
pub fn of_equal_keys<V, W>()
    ensures { (t : Trie V) (u : Trie W) → IsCanonical t → IsCanonical u
        → keys_of (pairs_of t) ≡ keys_of (pairs_of u)
        → trie_stats t ≡ trie_stats u }
{}
