//! Shape as text: the nodes of a tree, one line for each.
ghost use Rattle.std.specs.Prelude.{◌≡◌, IfOk, IfSome, Some, decimal, string_bytes};
ghost use Rattle.rart_nodes.specs.walks.Outlines.{listed_outline};

use crate::completions::Words;
use std::alloc::{AllocError, Global};

/// Returns the nodes of the tree of words as text.
///
/// # Errors
///
/// [`AllocError`] if an allocation fails.
pub fn words_outlined(alloc: Global, words: &Words) -> Result<String, AllocError>
    ensures { IfOk result (λ text. IfSome
        (listed_outline (λ n. Some (decimal n)) words.now.pairs words.now.nodes)
        (λ bs. string_bytes text ≡ bs)) }
{
    format!(in alloc; "{}", words.outline())
}
