//! Autocomplete: the words that begin with what was typed.
ghost use Rattle.std.specs.Prelude.{◌≡◌, ◌≤◌, length, IfErr, IfOk};
ghost use Rattle.rart_keys.specs.Filters.{below};
ghost use Rattle.rart_trie.specs.walks.Calls.{MayLackMemory};

use rart::iter::Iter;
use rart::{AdaptiveRadixTree, ArrPartial, ArrayKey, KeyTrait, TreeError};

/// Words of at most 32 bytes, and how often each was chosen.
pub type Words = AdaptiveRadixTree<ArrayKey<32>, u64>;

/// Returns an iterator over the words that begin with `typed`, ascending.
///
/// # Errors
///
/// [`TreeError::Memory`] if there are words and the allocation fails.
pub fn completions<'a>(
    words: &'a Words,
    typed: &[u8],
) -> Result<Iter<'a, ArrayKey<32>, ArrPartial<32>, u64>, TreeError>
    requires { length typed.now ≤ 32 }
    ensures words { IfOk result (λ found. found ≡ below typed.now words.now.pairs) }
    ensures memory { IfErr result (MayLackMemory words.now.pairs) }
{
    words.prefix_iter_k(&ArrayKey::<32>::new_from_slice(typed))
}

/// Returns the number of words that begin with `typed`.
///
/// # Errors
///
/// [`TreeError::Memory`] if there are words and the allocation fails.
pub fn count_completions(words: &Words, typed: &[u8]) -> Result<usize, TreeError>
    requires { length typed.now ≤ 32 }
    ensures count { IfOk result (λ n. n ≡ length (below typed.now words.now.pairs)) }
    ensures memory { IfErr result (MayLackMemory words.now.pairs) }
{
    rart::laws::counts::count_below(words, &ArrayKey::<32>::new_from_slice(typed))
}
