//! The number of keys with a prefix, counted by a fold.
ghost use Rattle.std.specs.Prelude.{◌≡◌, length, IfErr, IfOk};
ghost use Rattle.rart_keys.specs.Filters.{below};
ghost use Rattle.rart_trie.specs.walks.Calls.{MayLackMemory};

use crate::tree::AdaptiveRadixTree;
use rart_keys::KeyTrait;
use rart_parts::TreeError;

/// Returns the number of keys that begin with `prefix`, counted by a fold over their values.
///
/// The sum must fit at each call; the fold's contract proves it, since a count so far is less than the tree's length.
///
/// # Errors
///
/// [`TreeError::Memory`] as [`AdaptiveRadixTree::prefix_values_fold_k`].
pub fn count_below<K: KeyTrait, V>(
    tree: &AdaptiveRadixTree<K, V>,
    prefix: &K,
) -> Result<usize, TreeError>
    ensures count { IfOk result (λ n. n ≡ length (below (K.bytes prefix.now) tree.now.pairs)) }
    ensures memory { IfErr result (MayLackMemory tree.now.pairs) }
{
    let _most = tree.len();
    tree.prefix_values_fold_k(prefix, 0_usize, |count, _value| count + 1)
}
