//! Walks between two bounds that show each key in segments to a callback that can end them.
ghost use Rattle.std.specs.Prelude.{◌≡◌, ◌≤◌, ◌+◌, IfErr};
ghost use Rattle.rart_keys.specs.Ranges.{bound_bytes, bound_in};
ghost use Rattle.rart_trie.specs.ranges.LentBounds.{lent_bound};
ghost use Rattle.rart_nodes.specs.ranges.Spans.{call_visits, cut_between, span_bound, span_visits};
ghost use Rattle.rart_nodes.specs.tries.SeenTrees.{seen_pairs};
ghost use Rattle.rart_nodes.specs.walks.Tried.{IfAllocated, MayStopForMemory, OnRefused};
ghost use Rattle.rart_nodes.specs.walks.TriedViews.{CanTryView, EndsViewVisit, EndsViewVisitByValue, ViewsSo};
ghost use Rattle.rart_nodes.specs.walks.TriedViews.{ViewsSoByValue};

use crate::node::calls::try_views::try_for_each_view_to;
use crate::node::control::{VisitControl, VisitError};
use crate::node::path_walk::path::SegmentPath;
use crate::node::seen::Seen;
use crate::node::view::LendingKeyView;
use rart_keys::KeyTrait;
use rart_trie::Count;
use rart_trie::node::bounds::{bytes_of, slice_bound};
use std::ops::Bound;

impl<'a, K: KeyTrait, V, C: Count> Seen<'a, K, V, C> {
    /// Calls `f` with each pair between two bounds, whose bytes may be more than any key has, in order, and with a view
    /// of its key, cut at the branch points; with none if the end is before the start. `Stop` ends the walk with
    /// `Ok(())`; an `Err(e)` of the callback ends it with [`VisitError::Callback`]. `f` must be callable with each of
    /// these in turn for as long as it returns `Continue`. The caller keeps `f`.
    ///
    /// # Errors
    ///
    /// [`VisitError::Memory`] if the tree isn't empty and the allocation for the walk fails. Nothing is then visited,
    /// and `f` is not called.
    ///
    /// # Visits
    ///
    /// At most `start.len() + 1 + 2 * m + h` nodes where `m` keys are within the bounds of a tree of height `h`, none
    /// in an empty tree. With `n` calls, at most the nodes on the path to `start`, `2 * n` and `h`.
    pub fn try_for_each_range_view_by_ref_bytes_counted<
        E,
        F: FnMut(LendingKeyView<'_, '_>, &V) -> Result<VisitControl, E>,
    >(
        self,
        start: Bound<&[u8]>,
        end: Bound<&[u8]>,
        f: &mut F,
        counter: &mut C,
    ) -> Result<(), VisitError<E>>
        requires callable { CanTryView F.FnMut f.old
            (cut_between (lent_bound start) (lent_bound end) (seen_pairs self)) }
        ensures stays_callable { F.IsAlwaysCallable f.old → F.IsAlwaysCallable f.new }
        ensures calls { EndsViewVisit F.FnMut f.old
            (cut_between (lent_bound start.entry) (lent_bound end.entry) (seen_pairs self.entry))
            result f.new }
        ensures memory { IfErr result (MayStopForMemory (seen_pairs self.entry)) }
        ensures unvisited { OnRefused result (counter.new ≡ counter.old) }
        ensures visits { IfAllocated result (C.number counter.new ≤ C.number counter.old
            + span_visits (lent_bound start.entry) (lent_bound end.entry) (seen_pairs self.entry)) }
        ensures bound { C.number counter.new ≤ C.number counter.old
            + span_bound (lent_bound start.entry) (lent_bound end.entry) (seen_pairs self.entry) }
        ensures by_calls { ViewsSo F.FnMut f.old
            (cut_between (lent_bound start.entry) (lent_bound end.entry) (seen_pairs self.entry))
            result f.new
            (λ n. C.number counter.new ≤ C.number counter.old
            + call_visits (bound_bytes (lent_bound start.entry)) n (seen_pairs self.entry)) }
    {
        let (bytes, included) = bytes_of(start);
        let Ok((mut walk, mut path)) = self.walk_from::<SegmentPath<'a>>(bytes, included, counter)
        else {
            return Err(VisitError::Memory);
        };
        match try_for_each_view_to(&mut walk, &mut path, end, counter, f) {
            Ok(()) => Ok(()),
            Err(error) => Err(VisitError::Callback(error)),
        }
    }

    /// Calls `f` as
    /// [`try_for_each_range_view_by_ref_bytes_counted`](Self::try_for_each_range_view_by_ref_bytes_counted) does, and
    /// drops it.
    ///
    /// # Errors
    ///
    /// [`VisitError::Memory`] if the tree isn't empty and the allocation for the walk fails. Nothing is then visited.
    /// [`VisitError::Callback`] with the error that `f` returned.
    ///
    /// # Visits
    ///
    /// At most `start.len() + 1 + 2 * m + h` nodes where `m` keys are within the bounds of a tree of height `h`, none
    /// in an empty tree. With `n` calls, at most the nodes on the path to `start`, `2 * n` and `h`.
    pub fn try_for_each_range_view_bytes_counted<
        E,
        F: FnMut(LendingKeyView<'_, '_>, &V) -> Result<VisitControl, E> + Drop,
    >(
        self,
        start: Bound<&[u8]>,
        end: Bound<&[u8]>,
        mut f: F,
        counter: &mut C,
    ) -> Result<(), VisitError<E>>
        requires callable { CanTryView F.FnMut f
            (cut_between (lent_bound start) (lent_bound end) (seen_pairs self)) }
        ensures calls { EndsViewVisitByValue F.FnMut f
            (cut_between (lent_bound start.entry) (lent_bound end.entry) (seen_pairs self.entry))
            result }
        ensures memory { IfErr result (MayStopForMemory (seen_pairs self.entry)) }
        ensures unvisited { OnRefused result (counter.new ≡ counter.old) }
        ensures visits { IfAllocated result (C.number counter.new ≤ C.number counter.old
            + span_visits (lent_bound start.entry) (lent_bound end.entry) (seen_pairs self.entry)) }
        ensures bound { C.number counter.new ≤ C.number counter.old
            + span_bound (lent_bound start.entry) (lent_bound end.entry) (seen_pairs self.entry) }
        ensures by_calls { ViewsSoByValue F.FnMut f
            (cut_between (lent_bound start.entry) (lent_bound end.entry) (seen_pairs self.entry))
            result
            (λ n. C.number counter.new ≤ C.number counter.old
            + call_visits (bound_bytes (lent_bound start.entry)) n (seen_pairs self.entry)) }
    {
        self.try_for_each_range_view_by_ref_bytes_counted(start, end, &mut f, counter)
    }
}

impl<'a, K: KeyTrait + Drop, V, C: Count> Seen<'a, K, V, C> {
    /// Calls `f` with each pair between two bounds, in order, and with a view of its key, cut at the branch points;
    /// with none if the end is before the start. `Stop` ends the walk with `Ok(())`; an `Err(e)` of the callback ends
    /// it with [`VisitError::Callback`]. `f` must be callable with each of these in turn for as long as it returns
    /// `Continue`. The caller keeps `f`.
    ///
    /// # Errors
    ///
    /// [`VisitError::Memory`] if the tree isn't empty and the allocation for the walk fails. Nothing is then visited,
    /// and `f` is not called.
    ///
    /// # Visits
    ///
    /// At most `start.len() + 1 + 2 * m + h` nodes where `m` keys are within the bounds of a tree of height `h`, none
    /// in an empty tree. With `n` calls, at most the nodes on the path to `start`, `2 * n` and `h`.
    pub fn try_for_each_range_view_by_ref_counted<
        E,
        F: FnMut(LendingKeyView<'_, '_>, &V) -> Result<VisitControl, E>,
    >(self, start: Bound<K>, end: Bound<K>, f: &mut F, counter: &mut C) -> Result<(), VisitError<E>>
        requires callable { CanTryView F.FnMut f.old
            (cut_between (bound_in K.bytes start) (bound_in K.bytes end) (seen_pairs self)) }
        ensures stays_callable { F.IsAlwaysCallable f.old → F.IsAlwaysCallable f.new }
        ensures calls { EndsViewVisit F.FnMut f.old
            (cut_between (bound_in K.bytes start) (bound_in K.bytes end) (seen_pairs self.entry))
            result f.new }
        ensures memory { IfErr result (MayStopForMemory (seen_pairs self.entry)) }
        ensures unvisited { OnRefused result (counter.new ≡ counter.old) }
        ensures visits { IfAllocated result (C.number counter.new ≤ C.number counter.old
            + span_visits (bound_in K.bytes start) (bound_in K.bytes end) (seen_pairs self.entry)) }
        ensures bound { C.number counter.new ≤ C.number counter.old
            + span_bound (bound_in K.bytes start) (bound_in K.bytes end) (seen_pairs self.entry) }
        ensures by_calls { ViewsSo F.FnMut f.old
            (cut_between (bound_in K.bytes start) (bound_in K.bytes end) (seen_pairs self.entry))
            result f.new
            (λ n. C.number counter.new ≤ C.number counter.old
            + call_visits (bound_bytes (bound_in K.bytes start)) n (seen_pairs self.entry)) }
    {
        self.try_for_each_range_view_by_ref_bytes_counted(
            slice_bound(&start),
            slice_bound(&end),
            f,
            counter,
        )
    }

    /// Calls `f` as [`try_for_each_range_view_by_ref_counted`](Self::try_for_each_range_view_by_ref_counted) does, and
    /// drops it.
    ///
    /// # Errors
    ///
    /// [`VisitError::Memory`] if the tree isn't empty and the allocation for the walk fails. Nothing is then visited.
    /// [`VisitError::Callback`] with the error that `f` returned.
    ///
    /// # Visits
    ///
    /// At most `start.len() + 1 + 2 * m + h` nodes where `m` keys are within the bounds of a tree of height `h`, none
    /// in an empty tree. With `n` calls, at most the nodes on the path to `start`, `2 * n` and `h`.
    pub fn try_for_each_range_view_counted<
        E,
        F: FnMut(LendingKeyView<'_, '_>, &V) -> Result<VisitControl, E> + Drop,
    >(self, start: Bound<K>, end: Bound<K>, mut f: F, counter: &mut C) -> Result<(), VisitError<E>>
        requires callable { CanTryView F.FnMut f
            (cut_between (bound_in K.bytes start) (bound_in K.bytes end) (seen_pairs self)) }
        ensures calls { EndsViewVisitByValue F.FnMut f
            (cut_between (bound_in K.bytes start) (bound_in K.bytes end) (seen_pairs self.entry))
            result }
        ensures memory { IfErr result (MayStopForMemory (seen_pairs self.entry)) }
        ensures unvisited { OnRefused result (counter.new ≡ counter.old) }
        ensures visits { IfAllocated result (C.number counter.new ≤ C.number counter.old
            + span_visits (bound_in K.bytes start) (bound_in K.bytes end) (seen_pairs self.entry)) }
        ensures bound { C.number counter.new ≤ C.number counter.old
            + span_bound (bound_in K.bytes start) (bound_in K.bytes end) (seen_pairs self.entry) }
        ensures by_calls { ViewsSoByValue F.FnMut f
            (cut_between (bound_in K.bytes start) (bound_in K.bytes end) (seen_pairs self.entry))
            result
            (λ n. C.number counter.new ≤ C.number counter.old
            + call_visits (bound_bytes (bound_in K.bytes start)) n (seen_pairs self.entry)) }
    {
        self.try_for_each_range_view_by_ref_counted(start, end, &mut f, counter)
    }
}
