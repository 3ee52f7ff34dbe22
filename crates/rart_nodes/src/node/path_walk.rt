//! Walks along the path of a shared tree: in both directions, from an end, from a bound or below a prefix, and to the
//! pair nearest to a bound.
ghost use Rattle.std.specs.Prelude.{◌≡◌, ◌≤◌, ◌+◌, [], IfOk, vec_capacity};
ghost use Rattle.std.specs.Option.{option_copied};
ghost use Rattle.rart_nodes.specs.ranges.UpperBounds.{if_included};
ghost use Rattle.rart_nodes.specs.tries.SeenTrees.{length_bound};
ghost use Rattle.rart_trie.specs.tries.Trie.{value_of};

use crate::node::path_walk::path::Path;
use crate::node::seen::{Entered, Seen, Shared};
use rart_keys::{KeyTrait, Partial};
use std::alloc::AllocError;

pub(crate) mod ascending;
pub(crate) mod below;
pub(crate) mod descending;
pub(crate) mod nearest;
pub(crate) mod path;

/// What a descent to a bound keeps of a visited node, and where it continues.
#[derive(Drop)]
pub(crate) struct Step<'a, 'k, P: Partial, V, C> {
    value: Option<&'a V>,
    // the walk keeps the children after this byte, or before it if it descends, and all of them if it is `None`
    edge: Option<u8>,
    next: Option<Shared<'a, P, V, C>>,
    // what remains of the bound at `next`
    rest: &'k [u8],
}

/// Returns the value of a visited node if `included`.
fn value_if<'a, P: Partial, V, C>(at: Entered<'a, P, V, C>, included: bool) -> Option<&'a V>
    ensures { option_copied result ≡ if_included included (value_of at.entry.node.now) }
{
    if included { at.value() } else { None }
}

impl<'a, K: KeyTrait, V, C> Seen<'a, K, V, C> {
    /// Returns an empty path with capacity for the number of bytes that the tree keeps, and no levels, with capacity
    /// for one more. The path requests no more bytes.
    pub(crate) fn new_path_and_levels<T: Path<'a, K::PartialType>, L>(
        self,
    ) -> Result<(T, Vec<L>), AllocError>
        ensures empty_path { IfOk result (λ r. T.kept r.0 ≡ []) }
        ensures reserved { IfOk result (λ r. length_bound self.entry ≤ T.capacity r.0) }
        ensures requested { IfOk result (λ r. T.requested r.0 ≤ length_bound self.entry) }
        ensures no_levels { IfOk result (λ r. r.1.items ≡ []) }
        ensures places { IfOk result (λ r. vec_capacity r.1 ≡ length_bound self.entry + 1) }
    {
        let (alloc, longest) = (self.alloc(), self.longest());
        let path = T::with_capacity(alloc, longest)?;
        // no vector can hold `usize::MAX` levels, so that at such a length the request is refused
        let levels = Vec::with_capacity(alloc, longest.saturating_add(1))?;
        Ok((path, levels))
    }
}
