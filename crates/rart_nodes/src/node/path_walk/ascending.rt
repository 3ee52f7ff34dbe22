//! A walk over a shared tree in key order, with a cursor over the children of each inner node on its path.

// It allocates when it is created.

ghost use Rattle.std.specs.Prelude.{◌≡◌, ◌≢◌, ◌≤◌, ◌<◌, ◌+◌, ◌++◌, ℕ, [], length, reverse, take, vec_len};
ghost use Rattle.std.specs.Prelude.{MatchOption, IfOk, OnErr, vec_capacity};
ghost use Rattle.std.specs.Option.{option_copied};
ghost use Rattle.rart_keys.specs.SortedMap.{count_of, longest_key};
ghost use Rattle.rart_nodes.specs.ranges.Potential.{AreLow, IsAmortized, potential};
ghost use Rattle.rart_nodes.specs.ranges.UpperBounds.{if_included};
ghost use Rattle.rart_nodes.specs.tries.SeenTrees.{length_bound, seen_pairs, seen_tree};
ghost use Rattle.rart_trie.specs.stats.Stats.{trie_height};
ghost use Rattle.rart_trie.specs.walks.Walk.{KeepsEach, entries_of, segments_after, tree_count, tree_entries};
ghost use Rattle.rart_nodes.specs.walks.WalkSteps.{DeepestLeft, DeepestStep, HasPlaces, IsWalkAt, PushesLevel};
ghost use Rattle.rart_nodes.specs.walks.WalkSteps.{TakesEntry, walk_entries, walk_nodes};
ghost use Rattle.rart_trie.specs.tries.Trie.{pairs_of, prefix_of, value_of};
ghost use Rattle.rart_trie.specs.tries.TrieCode.{node_count};

use crate::node::path_walk::path::Path;
use crate::node::seen::{Branches, Entered, Seen, Shared};
use rart_keys::{KeyTrait, Partial};
use rart_trie::Count;
use std::alloc::{AllocError, Global};

pub(crate) mod seek_start;

/// A walk over the pairs of a tree, in order. Its caller holds the path.
#[derive(Drop)]
pub(crate) struct Walk<'a, P: Partial, V, C> {
    // for each inner node on the path, the rest of its children, and how much is kept of its key; the root first
    levels: Vec<(Branches<'a, P, V, C>, usize)>,
    // the root's value, until it is given
    first: Option<&'a V>,
    longest: usize,
}

/// Visits the next child of the deepest level and returns it with the depth of the level.
// Inline, as each step of a walk calls it.
#[inline(always)]
fn enter_deepest<'a, P: Partial, V, C: Count>(
    levels: &mut Vec<(Branches<'a, P, V, C>, usize)>,
    counter: &mut C,
) -> Option<(Entered<'a, P, V, C>, usize)>
    ensures shown { MatchOption result (DeepestLeft levels.old.items levels.new.items)
        (λ e. DeepestStep levels.old.items e.0.node.now e.1 levels.new.items) }
    ensures counted { C.number counter.new ≡ C.number counter.old + count_of result }
    ensures len { vec_len levels.new ≡ vec_len levels.old }
    ensures level_capacity { vec_capacity levels.new ≡ vec_capacity levels.old }
{
    let level = levels.last_mut()?;
    let at = level.0.enter_next(counter)?;
    Some((at, level.1))
}

/// Extends the path by a visited node and returns its value. A leaf gets no level.
// Inline, as each step of a walk calls it.
#[inline(always)]
fn extend_path<'a, P: Partial, V, C, T: Path<'a, P>>(
    levels: &mut Vec<(Branches<'a, P, V, C>, usize)>,
    path: &mut T,
    at: Entered<'a, P, V, C>,
    depth: usize,
) -> Option<&'a V>
    requires bytes { depth + length (prefix_of at.node.now) ≤ T.capacity path.old }
    requires place { vec_len levels.old < vec_capacity levels.old }
    ensures kept { T.kept path.new
        ≡ take depth (T.kept path.old) ++ T.grown (prefix_of at.entry.node.now) }
    ensures levels { PushesLevel levels.old.items at.entry.node.now (length (T.kept path.new))
        levels.new.items }
    ensures value { option_copied result ≡ value_of at.entry.node.now }
    ensures path_capacity { T.capacity path.old ≤ T.capacity path.new }
    ensures requested { T.requested path.new ≡ T.requested path.old }
    ensures level_capacity { vec_capacity levels.new ≡ vec_capacity levels.old }
{
    path.cut(depth);
    path.grow(at.prefix());
    if at.has_no_children() {
        return at.value();
    }
    levels.push_reserved((at.branches(), path.mark()));
    at.value()
}

/// Returns a walk over the subtree of a visited node; the path is that of the path to it.
pub(crate) fn walk_at<'a, P: Partial, V, C, T: Path<'a, P>>(
    mut levels: Vec<(Branches<'a, P, V, C>, usize)>,
    longest: usize,
    path: &mut T,
    at: Entered<'a, P, V, C>,
) -> Walk<'a, P, V, C>
    requires bounds_keys { length (T.kept path.old) + longest_key (pairs_of at.node.now) ≤ longest }
    requires reserved { longest ≤ T.capacity path.old }
    requires places { longest < vec_capacity levels }
    requires empty_walk { levels.items ≡ [] }
    ensures path { IsWalkAt result (T.kept path.new) }
    ensures reserved { result.longest ≤ T.capacity path.new }
    ensures requested { T.requested path.new ≡ T.requested path.old }
    ensures entries { walk_entries T.grown (T.kept path.new) result
        ≡ segments_after (T.kept path.old) (entries_of T.grown at.entry.node.now) }
    ensures visits { walk_nodes result + 1 ≡ node_count at.entry.node.now }
    ensures low { (h : ℕ) → trie_height at.entry.node.now ≤ h
        → AreLow h (reverse result.levels.items) }
    ensures longest { result.longest ≡ longest }
    ensures level_capacity { vec_capacity result.levels ≡ vec_capacity levels.entry }
{
    path.grow(at.prefix());
    levels.push_reserved((at.branches(), path.mark()));
    Walk {
        levels,
        first: at.value(),
        longest,
    }
}

/// Returns a walk over nothing, and an empty path.
pub(crate) fn empty_walk<'a, P: Partial, V, C, T: Path<'a, P>>(
    alloc: Global,
) -> (Walk<'a, P, V, C>, T)
    ensures path { IsWalkAt result.0 (T.kept result.1) }
    ensures reserved { result.0.longest ≤ T.capacity result.1 }
    ensures requested { T.requested result.1 ≡ 0 }
    ensures entries { walk_entries T.grown (T.kept result.1) result.0 ≡ [] }
    ensures visits { walk_nodes result.0 ≡ 0 }
    ensures levels { result.0.levels.items ≡ [] }
    ensures longest { result.0.longest ≡ 0 }
{
    let walk = Walk {
        levels: Vec::new(alloc),
        first: None,
        longest: 0,
    };
    (walk, T::empty(alloc))
}

impl<'a, K: KeyTrait, V, C: Count> Seen<'a, K, V, C> {
    /// Returns a walk over all pairs with its path. It visits the root, and allocates nothing for an empty tree.
    pub(crate) fn walk<T: Path<'a, K::PartialType>>(
        self,
        counter: &mut C,
    ) -> Result<(Walk<'a, K::PartialType, V, C>, T), AllocError>
        ensures path { IfOk result (λ w. IsWalkAt w.0 (T.kept w.1)) }
        ensures reserved { IfOk result (λ w. w.0.longest ≤ T.capacity w.1) }
        ensures requested { IfOk result (λ w. T.requested w.1 ≤ length_bound self.entry) }
        ensures entries { IfOk result (λ w. walk_entries T.grown (T.kept w.1) w.0
            ≡ tree_entries T.grown (seen_tree self.entry)) }
        ensures allocates { OnErr result (seen_pairs self.entry ≢ []) }
        ensures visits { IfOk result (λ w. C.number counter.new + walk_nodes w.0
            ≡ C.number counter.old + tree_count (seen_tree self.entry)) }
        ensures longest { IfOk result (λ w. w.0.longest ≤ length_bound self.entry) }
        ensures bound { C.number counter.new
            ≡ C.number counter.old + count_of (seen_tree self.entry) }
        ensures places { IfOk result (λ w. HasPlaces w.0.levels (length_bound self.entry)) }
    {
        let alloc = self.alloc();
        let longest = self.longest();
        let Some(root) = self.top() else {
            return Ok(empty_walk(alloc));
        };
        // before the allocation, as the contract counts the root in each case
        let root = root.enter(counter);
        let (mut path, levels) = self.new_path_and_levels::<T, _>()?;
        let walk = walk_at(levels, longest, &mut path, root);
        Ok((walk, path))
    }
}

impl<'a, P: Partial, V, C: Count> Walk<'a, P, V, C> {
    /// Returns the value of the next pair; the path then is that of its key. It does not allocate, and visits each
    /// node once.
    // Inline, as each iterator's step is one call of it.
    #[inline(always)]
    pub(crate) fn advance<T: Path<'a, P>>(&mut self, path: &mut T, counter: &mut C) -> Option<&'a V>
        requires path { IsWalkAt self.old (T.kept path.old) }
        requires reserved { self.old.longest ≤ T.capacity path.old }
        ensures path { IsWalkAt self.new (T.kept path.new) }
        ensures reserved { self.new.longest ≤ T.capacity path.new }
        ensures requested { T.requested path.new ≡ T.requested path.old }
        ensures entries { TakesEntry (walk_entries T.grown (T.kept path.old) self.old)
            (T.kept path.new) result (walk_entries T.grown (T.kept path.new) self.new) }
        ensures visits { C.number counter.new + walk_nodes self.new
            ≡ C.number counter.old + walk_nodes self.old }
        ensures longest { self.new.longest ≡ self.old.longest }
        ensures bound { KeepsEach T.grown
            → MatchOption result (C.number counter.new ≡ C.number counter.old)
            (λ _. C.number counter.new ≤ C.number counter.old + length (T.kept path.new)) }
        ensures amortized { MatchOption result
            (C.number counter.new + potential (reverse self.old.levels.items)
            ≤ C.number counter.old)
            (λ _. IsAmortized (C.number counter.old) (C.number counter.new)
            (reverse self.old.levels.items) (reverse self.new.levels.items)) }
    {
        if let Some(value) = self.first.take() {
            return Some(value);
        }
        while !self.levels.is_empty() {
            match enter_deepest(&mut self.levels, counter) {
                None => {
                    self.levels.take_last();
                }
                Some((at, depth)) => {
                    if let Some(value) = extend_path(&mut self.levels, path, at, depth) {
                        return Some(value);
                    }
                }
            }
        }
        None
    }
}
