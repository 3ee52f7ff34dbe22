//! A walk over a shared tree from its last key to its first.

// It allocates when it is created, and keeps for each node on its path a cursor over its children, and its value.

ghost use Rattle.std.specs.Prelude.{◌≡◌, ◌≢◌, ◌≤◌, ◌<◌, ◌+◌, ◌++◌, [], length, take, vec_len, vec_capacity};
ghost use Rattle.std.specs.Prelude.{IfOk, MatchOption, OnErr};
ghost use Rattle.rart_keys.specs.SortedMap.{count_of, longest_key};
ghost use Rattle.rart_nodes.specs.ranges.DescendingWalk.{DescendingLeft, DescendingStep, IsDescendingWalkAt};
ghost use Rattle.rart_nodes.specs.ranges.DescendingWalk.{descending_walk_entries};
ghost use Rattle.rart_nodes.specs.ranges.DescendingWalk.{PushesNode, TakesLast};
ghost use Rattle.rart_nodes.specs.walks.WalkSteps.{HasPlaces};
ghost use Rattle.rart_nodes.specs.tries.SeenTrees.{length_bound, seen_pairs, seen_tree};
ghost use Rattle.rart_trie.specs.tries.Trie.{pairs_of, prefix_of};
ghost use Rattle.rart_trie.specs.walks.Walk.{KeepsEach, entries_of, segments_after, tree_entries};

use crate::node::path_walk::descending::branches::DescendingBranches;
use crate::node::path_walk::path::Path;
use crate::node::seen::{Entered, Seen};
use rart_keys::{KeyTrait, Partial};
use rart_trie::Count;
use std::alloc::{AllocError, Global};

pub(crate) mod branches;
pub(crate) mod seek_end;

/// A walk over the pairs of a tree, the last first. Its caller holds the path.
#[derive(Drop)]
pub(crate) struct DescendingWalk<'a, P: Partial, V, C> {
    // for each node on the path, the root first: the rest of its children, how much is kept of its key, its value
    levels: Vec<((DescendingBranches<'a, P, V, C>, usize), Option<&'a V>)>,
    longest: usize,
}

/// Visits the last child of the deepest level and returns it with the depth of the level.
fn enter_last_of_deepest<'a, P: Partial, V, C: Count>(
    levels: &mut Vec<((DescendingBranches<'a, P, V, C>, usize), Option<&'a V>)>,
    counter: &mut C,
) -> Option<(Entered<'a, P, V, C>, usize)>
    ensures shown { MatchOption result (DescendingLeft levels.old.items levels.new.items)
        (λ e. DescendingStep levels.old.items e.0.node.now e.1 levels.new.items) }
    ensures counted { C.number counter.new ≡ C.number counter.old + count_of result }
    ensures len { vec_len levels.new ≡ vec_len levels.old }
    ensures level_capacity { vec_capacity levels.new ≡ vec_capacity levels.old }
{
    let level = levels.last_mut()?;
    let below = &mut level.0;
    let at = below.0.enter_last(counter)?;
    Some((at, below.1))
}

/// Extends the path by a visited node, and adds its level.
fn push_descending_level<'a, P: Partial, V, C, T: Path<'a, P>>(
    levels: &mut Vec<((DescendingBranches<'a, P, V, C>, usize), Option<&'a V>)>,
    path: &mut T,
    at: Entered<'a, P, V, C>,
    depth: usize,
)
    requires bytes { depth + length (prefix_of at.node.now) ≤ T.capacity path.old }
    requires place { vec_len levels.old < vec_capacity levels.old }
    ensures kept { T.kept path.new
        ≡ take depth (T.kept path.old) ++ T.grown (prefix_of at.entry.node.now) }
    ensures levels { PushesNode levels.old.items at.entry.node.now (length (T.kept path.new))
        levels.new.items }
    ensures path_capacity { T.capacity path.old ≤ T.capacity path.new }
    ensures requested { T.requested path.new ≡ T.requested path.old }
    ensures level_capacity { vec_capacity levels.new ≡ vec_capacity levels.old }
{
    path.cut(depth);
    path.grow(at.prefix());
    levels.push_reserved(((at.descending_branches(), path.mark()), at.value()));
}

/// Returns a walk over the subtree of a visited node; the path is that of the path to it.
pub(crate) fn descending_walk_at<'a, P: Partial, V, C, T: Path<'a, P>>(
    mut levels: Vec<((DescendingBranches<'a, P, V, C>, usize), Option<&'a V>)>,
    longest: usize,
    path: &mut T,
    at: Entered<'a, P, V, C>,
) -> DescendingWalk<'a, P, V, C>
    requires bounds_keys { length (T.kept path.old) + longest_key (pairs_of at.node.now) ≤ longest }
    requires reserved { longest ≤ T.capacity path.old }
    requires places { longest < vec_capacity levels }
    requires empty_walk { levels.items ≡ [] }
    ensures path { IsDescendingWalkAt result (T.kept path.new) }
    ensures reserved { result.longest ≤ T.capacity path.new }
    ensures requested { T.requested path.new ≡ T.requested path.old }
    ensures entries { descending_walk_entries T.grown (T.kept path.new) result
        ≡ segments_after (T.kept path.old) (entries_of T.grown at.entry.node.now) }
    ensures longest { result.longest ≡ longest }
    ensures level_capacity { vec_capacity result.levels ≡ vec_capacity levels.entry }
{
    path.grow(at.prefix());
    levels.push_reserved(((at.descending_branches(), path.mark()), at.value()));
    DescendingWalk { levels, longest }
}

/// Returns a walk over nothing, and an empty path.
pub(crate) fn empty_descending_walk<'a, P: Partial, V, C, T: Path<'a, P>>(
    alloc: Global,
) -> (DescendingWalk<'a, P, V, C>, T)
    ensures path { IsDescendingWalkAt result.0 (T.kept result.1) }
    ensures reserved { result.0.longest ≤ T.capacity result.1 }
    ensures requested { T.requested result.1 ≡ 0 }
    ensures entries { descending_walk_entries T.grown (T.kept result.1) result.0 ≡ [] }
    ensures levels { result.0.levels.items ≡ [] }
    ensures longest { result.0.longest ≡ 0 }
{
    let walk = DescendingWalk {
        levels: Vec::new(alloc),
        longest: 0,
    };
    (walk, T::empty(alloc))
}

impl<'a, K: KeyTrait, V, C: Count> Seen<'a, K, V, C> {
    /// Returns a walk over all pairs, from the last, with its path. It allocates before it visits the root, and nothing
    /// for an empty tree.
    pub(crate) fn descending_walk<T: Path<'a, K::PartialType>>(
        self,
        counter: &mut C,
    ) -> Result<(DescendingWalk<'a, K::PartialType, V, C>, T), AllocError>
        ensures path { IfOk result (λ w. IsDescendingWalkAt w.0 (T.kept w.1)) }
        ensures reserved { IfOk result (λ w. w.0.longest ≤ T.capacity w.1) }
        ensures requested { IfOk result (λ w. T.requested w.1 ≤ length_bound self.entry) }
        ensures entries { IfOk result
            (λ w. descending_walk_entries T.grown (T.kept w.1) w.0
            ≡ tree_entries T.grown (seen_tree self.entry)) }
        ensures allocates { OnErr result (seen_pairs self.entry ≢ []) }
        ensures longest { IfOk result (λ w. w.0.longest ≤ length_bound self.entry) }
        ensures unvisited { OnErr result (counter.new ≡ counter.old) }
        ensures visits { IfOk result (λ _. C.number counter.new
            ≡ C.number counter.old + count_of (seen_tree self.entry)) }
        ensures bound { C.number counter.new ≤ C.number counter.old + 1 }
        ensures places { IfOk result (λ w. HasPlaces w.0.levels (length_bound self.entry)) }
    {
        let alloc = self.alloc();
        let longest = self.longest();
        let Some(root) = self.top() else {
            return Ok(empty_descending_walk(alloc));
        };
        let (mut path, levels) = self.new_path_and_levels::<T, _>()?;
        let root = root.enter(counter);
        let walk = descending_walk_at(levels, longest, &mut path, root);
        Ok((walk, path))
    }
}

impl<'a, P: Partial, V, C: Count> DescendingWalk<'a, P, V, C> {
    /// Returns the value of the last pair; the path then is that of its key. It does not allocate.
    pub(crate) fn retreat<T: Path<'a, P>>(&mut self, path: &mut T, counter: &mut C) -> Option<&'a V>
        requires path { IsDescendingWalkAt self.old (T.kept path.old) }
        requires reserved { self.old.longest ≤ T.capacity path.old }
        ensures path { IsDescendingWalkAt self.new (T.kept path.new) }
        ensures reserved { self.new.longest ≤ T.capacity path.new }
        ensures requested { T.requested path.new ≡ T.requested path.old }
        ensures entries { TakesLast
            (descending_walk_entries T.grown (T.kept path.old) self.old) (T.kept path.new) result
            (descending_walk_entries T.grown (T.kept path.new) self.new) }
        ensures longest { self.new.longest ≡ self.old.longest }
        ensures bound { KeepsEach T.grown
            → MatchOption result (C.number counter.new ≡ C.number counter.old)
            (λ _. C.number counter.new ≤ C.number counter.old + length (T.kept path.new)) }
    {
        while !self.levels.is_empty() {
            match enter_last_of_deepest(&mut self.levels, counter) {
                Some((at, depth)) => push_descending_level(&mut self.levels, path, at, depth),
                None => {
                    let (below, value) = self.levels.take_last();
                    path.cut(below.1);
                    if let Some(value) = value {
                        return Some(value);
                    }
                }
            }
        }
        None
    }
}
