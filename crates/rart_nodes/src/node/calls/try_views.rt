//! Walks that show each key in segments to a callback that can end them.

// One loop serves them all: a walk without bounds is one that has no end.

ghost use Rattle.std.specs.Prelude.{◌≡◌, ◌≤◌, ◌+◌, ◌*◌, ℕ, [], length, reverse, vec_capacity, IfErr};
ghost use Rattle.rart_trie.specs.ranges.LentBounds.{lent_bound};
ghost use Rattle.rart_nodes.specs.ranges.Potential.{AreLow};
ghost use Rattle.rart_nodes.specs.ranges.Spans.{call_visits};
ghost use Rattle.rart_nodes.specs.tries.SeenTrees.{seen_keys, seen_pairs};
ghost use Rattle.rart_nodes.specs.walks.PathParts.{lent_segments};
ghost use Rattle.rart_nodes.specs.walks.Tried.{IfAllocated, MayStopForMemory, OnRefused};
ghost use Rattle.rart_nodes.specs.walks.TriedViews.{CanTryView, EndsViewVisit, EndsViewVisitByValue, EndsViews};
ghost use Rattle.rart_nodes.specs.walks.TriedViews.{EndsViewsAfter, ViewsSo, ViewsSoByValue};
ghost use Rattle.rart_nodes.specs.walks.ViewSegments.{AreViews, walk_views};
ghost use Rattle.rart_nodes.specs.walks.WalkSteps.{IsWalkAt, walk_nodes};
ghost use Rattle.rart_trie.specs.ranges.Starts.{entries_to};
ghost use Rattle.rart_trie.specs.walks.BelowPrefix.{below_bound, below_visits, cut_below};
ghost use Rattle.rart_trie.specs.walks.Cut.{cut_pairs};
ghost use Rattle.rart_trie.specs.walks.ProbeCount.{probe_count};

use crate::node::calls::range_views::is_up_to;
use crate::node::control::{VisitControl, VisitError};
use crate::node::path_walk::ascending::Walk;
use crate::node::path_walk::path::SegmentPath;
use crate::node::seen::Seen;
use crate::node::view::LendingKeyView;
use rart_keys::{KeyTrait, Partial};
use rart_trie::Count;
use std::ops::Bound;

/// Calls `f` with each remaining pair of the walk up to an end, until `f` ends the walk.
pub(super) fn try_for_each_view_to<
    'a,
    P: Partial,
    V,
    C: Count,
    E,
    F: FnMut(LendingKeyView<'_, '_>, &V) -> Result<VisitControl, E>,
>(
    walk: &mut Walk<'a, P, V, C>,
    path: &mut SegmentPath<'a>,
    end: Bound<&[u8]>,
    counter: &mut C,
    f: &mut F,
) -> Result<(), E>
    requires callable { CanTryView F.FnMut f.old (entries_to (lent_bound end)
        (walk_views path.old.segments.items walk.old)) }
    requires path { IsWalkAt walk.old (lent_segments path.old.segments.items) }
    requires reserved { walk.old.longest ≤ vec_capacity path.old.segments }
    requires views { AreViews (walk_views path.old.segments.items walk.old) }
    ensures stays_callable { F.IsAlwaysCallable f.old → F.IsAlwaysCallable f.new }
    ensures calls { EndsViews F.FnMut f.old (entries_to (lent_bound end.entry)
        (walk_views path.old.segments.items walk.old)) result f.new }
    ensures visits { C.number counter.new ≤ C.number counter.old + walk_nodes walk.old }
    ensures by_calls { (h : ℕ) → AreLow h (reverse walk.old.levels.items) →
        (n : ℕ) × (EndsViewsAfter F.FnMut f.old (entries_to (lent_bound end.entry)
        (walk_views path.old.segments.items walk.old)) n result f.new
        × (C.number counter.new ≤ C.number counter.old + 2 * n + h)) }
{
    while let Some(value) = walk.advance(path, counter) {
        let view = LendingKeyView::of(path.segments());
        if !is_up_to(view, end) {
            return Ok(());
        }
        match f(view, value) {
            Ok(VisitControl::Continue) => {}
            Ok(VisitControl::Stop) => return Ok(()),
            Err(error) => return Err(error),
        }
    }
    Ok(())
}

impl<'a, K: KeyTrait, V, C: Count> Seen<'a, K, V, C> {
    /// Calls `f` with each pair whose key begins with the bytes `prefix`, which may be longer than any key, in order,
    /// and with a view of its key, cut at the branch points. `Stop` ends the walk with `Ok(())`; an `Err(e)` of the
    /// callback ends it with [`VisitError::Callback`]. `f` must be callable with each of these in turn for as long as
    /// it returns `Continue`. The caller keeps `f`.
    ///
    /// # Errors
    ///
    /// [`VisitError::Memory`] if the tree isn't empty and the allocation for the walk fails. Nothing is then visited,
    /// and `f` is not called.
    ///
    /// # Visits
    ///
    /// At most `prefix.len() + 1 + 2 * m` nodes where `m` keys begin with `prefix`, none in an empty tree. With `n`
    /// calls in a tree of height `h`, at most the nodes on the path to `prefix`, `2 * n` and `h`.
    pub fn try_prefix_for_each_view_by_ref_bytes_counted<
        E,
        F: FnMut(LendingKeyView<'_, '_>, &V) -> Result<VisitControl, E>,
    >(self, prefix: &[u8], f: &mut F, counter: &mut C) -> Result<(), VisitError<E>>
        requires callable { CanTryView F.FnMut f.old
            (cut_below prefix.now (seen_pairs self)) }
        ensures stays_callable { F.IsAlwaysCallable f.old → F.IsAlwaysCallable f.new }
        ensures calls { EndsViewVisit F.FnMut f.old
            (cut_below prefix.now (seen_pairs self.entry)) result f.new }
        ensures memory { IfErr result (MayStopForMemory (seen_pairs self.entry)) }
        ensures unvisited { OnRefused result (counter.new ≡ counter.old) }
        ensures visits { IfAllocated result (C.number counter.new ≤ C.number counter.old
            + below_visits prefix.now (seen_pairs self.entry)) }
        ensures bound { C.number counter.new ≤ C.number counter.old
            + below_bound prefix.now (seen_pairs self.entry) }
        ensures by_calls { ViewsSo F.FnMut f.old
            (cut_below prefix.now (seen_pairs self.entry)) result f.new
            (λ n. C.number counter.new ≤ C.number counter.old
            + call_visits prefix.now n (seen_pairs self.entry)) }
    {
        let Ok((mut walk, mut path)) = self.walk_below::<SegmentPath<'a>>(prefix, counter) else {
            return Err(VisitError::Memory);
        };
        match try_for_each_view_to(&mut walk, &mut path, Bound::Unbounded, counter, f) {
            Ok(()) => Ok(()),
            Err(error) => Err(VisitError::Callback(error)),
        }
    }

    /// Calls `f` with each pair whose key begins with `prefix`, as
    /// [`try_prefix_for_each_view_by_ref_bytes_counted`](Self::try_prefix_for_each_view_by_ref_bytes_counted) does.
    ///
    /// # Errors
    ///
    /// [`VisitError::Memory`] if the tree isn't empty and the allocation for the walk fails. Nothing is then visited,
    /// and `f` is not called.
    ///
    /// # Visits
    ///
    /// At most `prefix.len() + 1 + 2 * m` nodes where `m` keys begin with `prefix`, none in an empty tree. With `n`
    /// calls in a tree of height `h`, at most the nodes on the path to `prefix`, `2 * n` and `h`.
    pub fn try_prefix_for_each_view_by_ref_k_counted<
        E,
        F: FnMut(LendingKeyView<'_, '_>, &V) -> Result<VisitControl, E>,
    >(self, prefix: &K, f: &mut F, counter: &mut C) -> Result<(), VisitError<E>>
        requires callable { CanTryView F.FnMut f.old
            (cut_below (K.bytes prefix.now) (seen_pairs self)) }
        ensures stays_callable { F.IsAlwaysCallable f.old → F.IsAlwaysCallable f.new }
        ensures calls { EndsViewVisit F.FnMut f.old
            (cut_below (K.bytes prefix.now) (seen_pairs self.entry)) result f.new }
        ensures memory { IfErr result (MayStopForMemory (seen_pairs self.entry)) }
        ensures unvisited { OnRefused result (counter.new ≡ counter.old) }
        ensures visits { IfAllocated result (C.number counter.new ≤ C.number counter.old
            + below_visits (K.bytes prefix.now) (seen_pairs self.entry)) }
        ensures bound { C.number counter.new ≤ C.number counter.old
            + below_bound (K.bytes prefix.now) (seen_pairs self.entry) }
        ensures by_calls { ViewsSo F.FnMut f.old
            (cut_below (K.bytes prefix.now) (seen_pairs self.entry)) result f.new
            (λ n. C.number counter.new ≤ C.number counter.old
            + call_visits (K.bytes prefix.now) n (seen_pairs self.entry)) }
    {
        self.try_prefix_for_each_view_by_ref_bytes_counted(prefix.as_ref(), f, counter)
    }

    /// Calls `f` as [`try_prefix_for_each_view_by_ref_k_counted`](Self::try_prefix_for_each_view_by_ref_k_counted)
    /// does, and drops it.
    ///
    /// # Errors
    ///
    /// [`VisitError::Memory`] if the tree isn't empty and the allocation for the walk fails. Nothing is then visited.
    /// [`VisitError::Callback`] with the error that `f` returned.
    ///
    /// # Visits
    ///
    /// At most `prefix.len() + 1 + 2 * m` nodes where `m` keys begin with `prefix`, none in an empty tree. With `n`
    /// calls in a tree of height `h`, at most the nodes on the path to `prefix`, `2 * n` and `h`.
    pub fn try_prefix_for_each_view_k_counted<
        E,
        F: FnMut(LendingKeyView<'_, '_>, &V) -> Result<VisitControl, E> + Drop,
    >(self, prefix: &K, mut f: F, counter: &mut C) -> Result<(), VisitError<E>>
        requires callable { CanTryView F.FnMut f
            (cut_below (K.bytes prefix.now) (seen_pairs self)) }
        ensures calls { EndsViewVisitByValue F.FnMut f
            (cut_below (K.bytes prefix.now) (seen_pairs self.entry)) result }
        ensures memory { IfErr result (MayStopForMemory (seen_pairs self.entry)) }
        ensures unvisited { OnRefused result (counter.new ≡ counter.old) }
        ensures visits { IfAllocated result (C.number counter.new ≤ C.number counter.old
            + below_visits (K.bytes prefix.now) (seen_pairs self.entry)) }
        ensures bound { C.number counter.new ≤ C.number counter.old
            + below_bound (K.bytes prefix.now) (seen_pairs self.entry) }
        ensures by_calls { ViewsSoByValue F.FnMut f
            (cut_below (K.bytes prefix.now) (seen_pairs self.entry)) result
            (λ n. C.number counter.new ≤ C.number counter.old
            + call_visits (K.bytes prefix.now) n (seen_pairs self.entry)) }
    {
        self.try_prefix_for_each_view_by_ref_k_counted(prefix, &mut f, counter)
    }

    /// Calls `f` with each pair, in order, and with a view of its key, cut at the branch points. `Stop` ends the walk
    /// with `Ok(())`; an `Err(e)` of the callback ends it with [`VisitError::Callback`]. `f` must be callable with each
    /// of these in turn for as long as it returns `Continue`. The caller keeps `f`.
    ///
    /// # Errors
    ///
    /// [`VisitError::Memory`] if the tree isn't empty and the allocation for the walk fails. Nothing is then visited,
    /// and `f` is not called.
    ///
    /// # Visits
    ///
    /// At most `2 * m + 1` nodes with `m` pairs, none in an empty tree. With `n` calls in a tree of height `h`, at most
    /// the root, `2 * n` and `h`.
    pub fn try_for_each_view_by_ref_counted<
        E,
        F: FnMut(LendingKeyView<'_, '_>, &V) -> Result<VisitControl, E>,
    >(self, f: &mut F, counter: &mut C) -> Result<(), VisitError<E>>
        requires callable { CanTryView F.FnMut f.old
            (cut_pairs (seen_keys self) (seen_pairs self)) }
        ensures stays_callable { F.IsAlwaysCallable f.old → F.IsAlwaysCallable f.new }
        ensures calls { EndsViewVisit F.FnMut f.old
            (cut_pairs (seen_keys self.entry) (seen_pairs self.entry)) result f.new }
        ensures memory { IfErr result (MayStopForMemory (seen_pairs self.entry)) }
        ensures unvisited { OnRefused result (counter.new ≡ counter.old) }
        ensures visits { IfAllocated result (C.number counter.new ≤ C.number counter.old
            + (probe_count (seen_keys self.entry) [] + 2 * length (seen_pairs self.entry))) }
        ensures bound { C.number counter.new
            ≤ C.number counter.old + 1 + 2 * length (seen_pairs self.entry) }
        ensures by_calls { ViewsSo F.FnMut f.old
            (cut_pairs (seen_keys self.entry) (seen_pairs self.entry)) result f.new
            (λ n. C.number counter.new ≤ C.number counter.old
            + call_visits [] n (seen_pairs self.entry)) }
    {
        self.try_prefix_for_each_view_by_ref_bytes_counted(&[], f, counter)
    }

    /// Calls `f` as [`try_for_each_view_by_ref_counted`](Self::try_for_each_view_by_ref_counted) does, and drops it.
    ///
    /// # Errors
    ///
    /// [`VisitError::Memory`] if the tree isn't empty and the allocation for the walk fails. Nothing is then visited.
    /// [`VisitError::Callback`] with the error that `f` returned.
    ///
    /// # Visits
    ///
    /// At most `2 * m + 1` nodes with `m` pairs, none in an empty tree. With `n` calls in a tree of height `h`, at most
    /// the root, `2 * n` and `h`.
    pub fn try_for_each_view_counted<
        E,
        F: FnMut(LendingKeyView<'_, '_>, &V) -> Result<VisitControl, E> + Drop,
    >(self, mut f: F, counter: &mut C) -> Result<(), VisitError<E>>
        requires callable { CanTryView F.FnMut f
            (cut_pairs (seen_keys self) (seen_pairs self)) }
        ensures calls { EndsViewVisitByValue F.FnMut f
            (cut_pairs (seen_keys self.entry) (seen_pairs self.entry)) result }
        ensures memory { IfErr result (MayStopForMemory (seen_pairs self.entry)) }
        ensures unvisited { OnRefused result (counter.new ≡ counter.old) }
        ensures visits { IfAllocated result (C.number counter.new ≤ C.number counter.old
            + (probe_count (seen_keys self.entry) [] + 2 * length (seen_pairs self.entry))) }
        ensures bound { C.number counter.new
            ≤ C.number counter.old + 1 + 2 * length (seen_pairs self.entry) }
        ensures by_calls { ViewsSoByValue F.FnMut f
            (cut_pairs (seen_keys self.entry) (seen_pairs self.entry)) result
            (λ n. C.number counter.new ≤ C.number counter.old
            + call_visits [] n (seen_pairs self.entry)) }
    {
        self.try_for_each_view_by_ref_counted(&mut f, counter)
    }
}
