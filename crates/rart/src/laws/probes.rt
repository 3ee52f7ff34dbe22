//! Laws of look-ups by a probe, of walks of keys with a prefix, and of views.
ghost use Rattle.std.specs.Prelude.{◌≡◌, ◌↔◌, None, length, option_map, IfErr, IfOk, IsTrue};
ghost use Rattle.std.specs.Cmp.Lexicographic.{slice_cmp};
ghost use Rattle.std.specs.List.{filter};
ghost use Rattle.std.specs.Ordering.{nat_cmp};
ghost use Rattle.rart_parts.specs.Errors.{IsMemory};
ghost use Rattle.rart_keys.specs.ByteStrings.{begins};
ghost use Rattle.rart_keys.specs.Filters.{last_or, matches};
ghost use Rattle.rart_keys.specs.KeyBytes.{IsWithin};
ghost use Rattle.rart_nodes.specs.walks.KeyViews.{view_bytes};
ghost use Rattle.rart_trie.specs.walks.Calls.{MayLackMemory};

use crate::tree::AdaptiveRadixTree;
use rart_keys::KeyTrait;
use rart_nodes::LendingKeyView;
use rart_nodes::iter::{Iter, PrefixMatchIter};
use rart_parts::TreeError;
use std::alloc::Global;
use std::cmp::Ordering;

/// Returns the iterators over all pairs and over those with a prefix; the second is the first, filtered.
///
/// # Errors
///
/// [`TreeError::Memory`] if the tree isn't empty and an allocation fails.
pub fn prefix_iter_filters_iter<'a, K: KeyTrait, V>(
    tree: &'a AdaptiveRadixTree<K, V>,
    prefix: &K,
) -> Result<
    (
        Iter<'a, K, K::PartialType, V>,
        Iter<'a, K, K::PartialType, V>,
    ),
    TreeError,
>
    ensures whole { IfOk result (λ walks. walks.0 ≡ tree.now.pairs) }
    ensures filters { IfOk result
        (λ walks. walks.1 ≡ filter (λ e. begins (K.bytes prefix.now) e.0) walks.0) }
    ensures memory { IfErr result (MayLackMemory tree.now.pairs) }
{
    let all = tree.iter()?;
    let below = tree.prefix_iter_k(prefix)?;
    Ok((all, below))
}

/// Returns the longest match of `probe`, and the iterator over all matches, whose last item it is.
pub fn longest_is_the_last_match<'a, K: KeyTrait, V>(
    tree: &'a AdaptiveRadixTree<K, V>,
    probe: &K,
) -> (
    Option<(K, &'a V)>,
    PrefixMatchIter<'a, K, K::PartialType, V>,
)
    ensures matches { result.1 ≡ matches (K.bytes probe.now) tree.now.pairs }
    ensures last { option_map (λ p. (K.bytes p.0, p.1.now)) result.0 ≡ last_or None result.1 }
{
    (
        tree.longest_prefix_match_k(probe),
        tree.prefix_match_iter_k(probe),
    )
}

/// Returns how a view compares with a slice, and whether they are equal, which agree.
///
/// The order is that of the view's bytes and the slice.
pub fn comparisons_agree(view: LendingKeyView<'_, '_>, slice: &[u8]) -> (Ordering, bool)
    ensures order { result.0 ≡ slice_cmp nat_cmp (view_bytes view.entry) slice.now }
    ensures agree { IsTrue result.1 ↔ (result.0 ≡ Ordering.Equal) }
    ensures bytes { IsTrue result.1 ↔ (view_bytes view.entry ≡ slice.now) }
{
    (view.cmp_slice(slice), view.eq_slice(slice))
}

/// Returns the key of a view, which has the view's bytes; they must be within the maximum.
///
/// # Errors
///
/// [`TreeError::Memory`] if an allocation fails.
pub fn key_of_a_view<K: KeyTrait>(
    view: LendingKeyView<'_, '_>,
    alloc: Global,
) -> Result<K, TreeError>
    requires { IsWithin K.MAXIMUM_SIZE (length (view_bytes view)) }
    ensures bytes { IfOk result (λ key. K.bytes key ≡ view_bytes view.entry) }
    ensures memory { IfErr result IsMemory }
{
    view.to_key(alloc)
}
