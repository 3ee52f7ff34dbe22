//! The descent to the node at or below a prefix, and walks from there.
ghost use Rattle.std.specs.Prelude.{◌≡◌, ◌≢◌, ◌≤◌, ◌+◌, ◌*◌, [], length, reverse, MatchOption, IfOk};
ghost use Rattle.std.specs.Prelude.{IfSome, None, OnErr, Some, option_map, take};
ghost use Rattle.rart_keys.specs.Filters.{below};
ghost use Rattle.rart_keys.specs.SortedMap.{longest_key};
ghost use Rattle.rart_nodes.specs.ranges.DescendingWalk.{IsDescendingWalkAt, descending_walk_entries};
ghost use Rattle.rart_nodes.specs.ranges.Potential.{AreLow, tree_height};
ghost use Rattle.rart_nodes.specs.tries.SeenTrees.{length_bound, seen_keys, seen_pairs, seen_tree};
ghost use Rattle.rart_trie.specs.stats.Stats.{height, trie_height};
ghost use Rattle.rart_trie.specs.tries.Tree.{tree_pairs};
ghost use Rattle.rart_trie.specs.tries.Trie.{pairs_of};
ghost use Rattle.rart_nodes.specs.walks.Part.{EntersPart, part_entries, tree_part};
ghost use Rattle.rart_nodes.specs.walks.PathParts.{byte_segments};
ghost use Rattle.rart_trie.specs.walks.ProbeCount.{probe_count, tree_entered};
ghost use Rattle.rart_nodes.specs.walks.WalkSteps.{HasPlaces, IsWalkAt, walk_entries, walk_nodes};

use crate::node::path_walk::ascending::{Walk, empty_walk, walk_at};
use crate::node::path_walk::descending::{
    DescendingWalk, descending_walk_at, empty_descending_walk,
};
use crate::node::path_walk::path::Path;
use crate::node::seen::{Entered, Seen, Shared};
use rart_keys::{KeyTrait, Partial};
use rart_trie::Count;
use rart_trie::node::strip_prefix;
use std::alloc::AllocError;

/// Visits the node at or below `prefix`, and returns it with the number of bytes of `prefix` before its own prefix. The
/// path is the one to it, without its own prefix.
pub(crate) fn seek_prefix<'a, P: Partial, V, C: Count, T: Path<'a, P>>(
    top: Option<Shared<'a, P, V, C>>,
    prefix: &[u8],
    path: &mut T,
    counter: &mut C,
) -> Option<(Entered<'a, P, V, C>, usize)>
    requires reserved { length (T.kept path.old)
        + longest_key (tree_pairs (option_map (λ s. s.node.now) top))
        ≤ T.capacity path.old }
    ensures found { EntersPart T.grown (T.kept path.old) prefix.now
        (option_map (λ s. s.node.now) top.entry) (option_map (λ r. r.0) result) (T.kept path.new) }
    ensures depth { IfSome result (λ r. (r.1 ≤ length prefix.now)
        × (tree_part byte_segments [] prefix.now (option_map (λ s. s.node.now) top.entry)
        ≡ Some (byte_segments (take r.1 prefix.now), r.0.node.now))) }
    ensures deep { MatchOption result (Unit {0})
        (λ r. length (T.kept path.new) + longest_key (pairs_of r.0.node.now)
        ≤ length (T.kept path.old)
        + longest_key (tree_pairs (option_map (λ s. s.node.now) top.entry))) }
    ensures low { MatchOption result (Unit {0}) (λ r. trie_height r.0.node.now
        ≤ tree_height (option_map (λ s. s.node.now) top.entry)) }
    ensures path_capacity { T.capacity path.old ≤ T.capacity path.new }
    ensures requested { T.requested path.new ≡ T.requested path.old }
    ensures visits { C.number counter.new ≡ C.number counter.old
        + tree_entered prefix.now (option_map (λ s. s.node.now) top.entry) }
{
    let mut next = top;
    let mut rest = prefix;
    while let Some(node) = next {
        let at = node.enter(counter);
        let depth = prefix.len() - rest.len();
        let Some(after) = strip_prefix(at.prefix(), rest) else {
            if at.prefix().starts_with(rest) {
                return Some((at, depth));
            }
            return None;
        };
        let Some(byte) = after.first() else {
            return Some((at, depth));
        };
        path.grow(at.prefix());
        next = at.child(*byte);
        rest = after;
    }
    None
}

impl<'a, K: KeyTrait, V, C: Count> Seen<'a, K, V, C> {
    /// Returns a walk over the pairs whose key begins with `prefix`, with its path. It allocates before it visits a
    /// node, and nothing for an empty tree.
    pub(crate) fn walk_below<T: Path<'a, K::PartialType>>(
        self,
        prefix: &[u8],
        counter: &mut C,
    ) -> Result<(Walk<'a, K::PartialType, V, C>, T), AllocError>
        ensures path { IfOk result (λ w. IsWalkAt w.0 (T.kept w.1)) }
        ensures reserved { IfOk result (λ w. w.0.longest ≤ T.capacity w.1) }
        ensures requested { IfOk result (λ w. T.requested w.1 ≤ length_bound self.entry) }
        ensures longest { IfOk result (λ w. w.0.longest ≤ length_bound self.entry) }
        ensures entries { IfOk result (λ w. walk_entries T.grown (T.kept w.1) w.0
            ≡ part_entries T.grown (tree_part T.grown [] prefix.now (seen_tree self.entry))) }
        ensures low { IfOk result
            (λ w. AreLow (height (seen_keys self.entry)) (reverse w.0.levels.items)) }
        ensures allocates { OnErr result (seen_pairs self.entry ≢ []) }
        ensures unvisited { OnErr result (counter.new ≡ counter.old) }
        ensures visits { IfOk result (λ _. C.number counter.new
            ≡ C.number counter.old + probe_count (seen_keys self.entry) prefix.now) }
        ensures bound { C.number counter.new ≤ C.number counter.old + length prefix.now + 1 }
        ensures nodes { IfOk result
            (λ w. walk_nodes w.0 ≤ 2 * length (below prefix.now (seen_pairs self.entry))) }
        ensures places { IfOk result (λ w. HasPlaces w.0.levels (length_bound self.entry)) }
    {
        let alloc = self.alloc();
        let longest = self.longest();
        let Some(top) = self.top() else {
            return Ok(empty_walk(alloc));
        };
        let (mut path, levels) = self.new_path_and_levels::<T, _>()?;
        let Some((at, _depth)) = seek_prefix(Some(top), prefix, &mut path, counter) else {
            return Ok(empty_walk(alloc));
        };
        let walk = walk_at(levels, longest, &mut path, at);
        Ok((walk, path))
    }

    /// Returns a walk over the pairs whose key begins with `prefix`, from the last, with its path. It allocates before
    /// it visits a node, and nothing for an empty tree.
    pub(crate) fn descending_walk_below<T: Path<'a, K::PartialType>>(
        self,
        prefix: &[u8],
        counter: &mut C,
    ) -> Result<(DescendingWalk<'a, K::PartialType, V, C>, T), AllocError>
        ensures path { IfOk result (λ w. IsDescendingWalkAt w.0 (T.kept w.1)) }
        ensures reserved { IfOk result (λ w. w.0.longest ≤ T.capacity w.1) }
        ensures requested { IfOk result (λ w. T.requested w.1 ≤ length_bound self.entry) }
        ensures longest { IfOk result (λ w. w.0.longest ≤ length_bound self.entry) }
        ensures entries { IfOk result
            (λ w. descending_walk_entries T.grown (T.kept w.1) w.0
            ≡ part_entries T.grown (tree_part T.grown [] prefix.now (seen_tree self.entry))) }
        ensures allocates { OnErr result (seen_pairs self.entry ≢ []) }
        ensures unvisited { OnErr result (counter.new ≡ counter.old) }
        ensures visits { IfOk result (λ _. C.number counter.new
            ≡ C.number counter.old + probe_count (seen_keys self.entry) prefix.now) }
        ensures bound { C.number counter.new ≤ C.number counter.old + length prefix.now + 1 }
        ensures places { IfOk result (λ w. HasPlaces w.0.levels (length_bound self.entry)) }
    {
        let alloc = self.alloc();
        let longest = self.longest();
        let Some(top) = self.top() else {
            return Ok(empty_descending_walk(alloc));
        };
        let (mut path, levels) = self.new_path_and_levels::<T, _>()?;
        let Some((at, _depth)) = seek_prefix(Some(top), prefix, &mut path, counter) else {
            return Ok(empty_descending_walk(alloc));
        };
        let walk = descending_walk_at(levels, longest, &mut path, at);
        Ok((walk, path))
    }
}
