//! A join of two indexes: the keys of both.
ghost use Rattle.std.specs.Prelude.{◌≡◌, length};
ghost use Rattle.rart_keys.specs.Joins.{join};

use rart::{AdaptiveRadixTree, KeyTrait};

/// Returns the number of keys that both indexes have. Allocates nothing.
pub fn count_shared<K: KeyTrait, V, W>(
    one: &AdaptiveRadixTree<K, V>,
    other: &AdaptiveRadixTree<K, W>,
) -> usize
    ensures { result ≡ length (join one.now.pairs other.now.pairs) }
{
    one.intersect_count(other)
}
