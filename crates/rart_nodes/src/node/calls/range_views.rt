//! Walks between two bounds that call a callback with each key lent in segments.

// They descend to the start as `range` does, and end at the first key past the end. The end is compared segment by
// segment, so no byte of a key is copied.

ghost use Rattle.std.specs.Prelude.{◌≡◌, ◌≤◌, ◌+◌, ◌*◌, ℕ, [], length, reverse, vec_capacity, IfErr, OnErr, OnOk};
ghost use Rattle.rart_keys.specs.Ranges.{bound_in, is_to};
ghost use Rattle.rart_trie.specs.ranges.LentBounds.{lent_bound};
ghost use Rattle.rart_nodes.specs.ranges.Potential.{AreLow};
ghost use Rattle.rart_nodes.specs.ranges.Spans.{cut_between, span_bound, span_visits};
ghost use Rattle.rart_trie.specs.ranges.Starts.{entries_to};
ghost use Rattle.rart_nodes.specs.tries.SeenTrees.{seen_pairs};
ghost use Rattle.rart_trie.specs.walks.Walk.{joined_bytes};
ghost use Rattle.rart_nodes.specs.walks.PathParts.{lent_segments};
ghost use Rattle.rart_nodes.specs.walks.ViewSegments.{AreViews, walk_views};
ghost use Rattle.rart_nodes.specs.walks.WalkSteps.{IsWalkAt};
ghost use Rattle.rart_nodes.specs.walks.Viewed.{CanView, ViewsEachByValue, ViewsEach};
ghost use Rattle.rart_trie.specs.walks.Calls.{MayLackMemory};

use crate::node::path_walk::ascending::Walk;
use crate::node::path_walk::path::SegmentPath;
use crate::node::range::is_before;
use crate::node::seen::Seen;
use crate::node::view::LendingKeyView;
use rart_keys::{KeyTrait, Partial};
use rart_parts::TreeError;
use rart_trie::Count;
use rart_trie::node::bounds::{bytes_of, slice_bound};
use std::ops::Bound;

/// Returns whether a lent key is within an end.
pub(super) fn is_up_to(view: LendingKeyView<'_, '_>, end: Bound<&[u8]>) -> bool
    ensures { result ≡ is_to (lent_bound end.entry)
        (joined_bytes (lent_segments view.entry.segments.now)) }
{
    match end {
        Bound::Included(end) => is_before(view.cmp_slice(end), true),
        Bound::Excluded(end) => is_before(view.cmp_slice(end), false),
        Bound::Unbounded => true,
    }
}

fn for_each_view_to<'a, P: Partial, V, C: Count, F: FnMut(LendingKeyView<'_, '_>, &V)>(
    walk: &mut Walk<'a, P, V, C>,
    path: &mut SegmentPath<'a>,
    end: Bound<&[u8]>,
    counter: &mut C,
    f: &mut F,
)
    requires callable { CanView F.FnMut f.old (entries_to (lent_bound end)
        (walk_views path.old.segments.items walk.old)) }
    requires path { IsWalkAt walk.old (lent_segments path.old.segments.items) }
    requires reserved { walk.old.longest ≤ vec_capacity path.old.segments }
    requires views { AreViews (walk_views path.old.segments.items walk.old) }
    ensures stays_callable { F.IsAlwaysCallable f.old → F.IsAlwaysCallable f.new }
    ensures calls { ViewsEach F.FnMut f.old (entries_to (lent_bound end.entry)
        (walk_views path.old.segments.items walk.old)) f.new }
    ensures visits { (h : ℕ) → AreLow h (reverse walk.old.levels.items) →
        C.number counter.new
        ≤ C.number counter.old + 2 * length (entries_to (lent_bound end.entry)
        (walk_views path.old.segments.items walk.old)) + h }
{
    while let Some(value) = walk.advance(path, counter) {
        let view = LendingKeyView::of(path.segments());
        if !is_up_to(view, end) {
            return;
        }
        f(view, value);
    }
}

impl<'a, K: KeyTrait, V, C: Count> Seen<'a, K, V, C> {
    /// Calls `f` with each pair between two bounds, whose bytes may be more than any key has, in order, and with a view
    /// of its key, cut at the branch points. If the end is before the start there is none. `f` must be callable with
    /// each of these in turn. The caller keeps `f`.
    ///
    /// # Errors
    ///
    /// [`TreeError::Memory`] if the tree isn't empty and the allocation for the walk fails. Nothing is then
    /// visited, and `f` is not called.
    ///
    /// # Visits
    ///
    /// At most `start.len() + 1 + 2 * m + h` nodes with `m` calls in a tree of height `h`, none in an empty tree.
    pub fn for_each_range_view_by_ref_bytes_counted<F: FnMut(LendingKeyView<'_, '_>, &V)>(
        self,
        start: Bound<&[u8]>,
        end: Bound<&[u8]>,
        f: &mut F,
        counter: &mut C,
    ) -> Result<(), TreeError>
        requires callable { CanView F.FnMut f.old
            (cut_between (lent_bound start) (lent_bound end) (seen_pairs self)) }
        ensures stays_callable { F.IsAlwaysCallable f.old → F.IsAlwaysCallable f.new }
        ensures calls { OnOk result (ViewsEach F.FnMut f.old
            (cut_between (lent_bound start.entry) (lent_bound end.entry)
            (seen_pairs self.entry)) f.new) }
        ensures unchanged { OnErr result (f.new ≡ f.old) }
        ensures memory { IfErr result (MayLackMemory (seen_pairs self.entry)) }
        ensures unvisited { OnErr result (counter.new ≡ counter.old) }
        ensures visits { OnOk result (C.number counter.new ≤ C.number counter.old
            + span_visits (lent_bound start.entry) (lent_bound end.entry) (seen_pairs self.entry)) }
        ensures bound { C.number counter.new ≤ C.number counter.old
            + span_bound (lent_bound start.entry) (lent_bound end.entry) (seen_pairs self.entry) }
        ensures no_visits { seen_pairs self.entry ≡ []
            → C.number counter.new ≤ C.number counter.old }
    {
        let (bytes, included) = bytes_of(start);
        let (mut walk, mut path) = self.walk_from::<SegmentPath<'a>>(bytes, included, counter)?;
        for_each_view_to(&mut walk, &mut path, end, counter, f);
        Ok(())
    }

    /// Calls `f` as [`for_each_range_view_by_ref_bytes_counted`](Self::for_each_range_view_by_ref_bytes_counted) does,
    /// and drops it.
    ///
    /// # Errors
    ///
    /// [`TreeError::Memory`] if the tree isn't empty and the allocation for the walk fails. Nothing is then visited.
    ///
    /// # Visits
    ///
    /// At most `start.len() + 1 + 2 * m + h` nodes with `m` calls in a tree of height `h`, none in an empty tree.
    pub fn for_each_range_view_bytes_counted<F: FnMut(LendingKeyView<'_, '_>, &V) + Drop>(
        self,
        start: Bound<&[u8]>,
        end: Bound<&[u8]>,
        mut f: F,
        counter: &mut C,
    ) -> Result<(), TreeError>
        requires callable { CanView F.FnMut f
            (cut_between (lent_bound start) (lent_bound end) (seen_pairs self)) }
        ensures calls { OnOk result (ViewsEachByValue F.FnMut f
            (cut_between (lent_bound start.entry) (lent_bound end.entry) (seen_pairs self.entry))) }
        ensures memory { IfErr result (MayLackMemory (seen_pairs self.entry)) }
        ensures unvisited { OnErr result (counter.new ≡ counter.old) }
        ensures visits { OnOk result (C.number counter.new ≤ C.number counter.old
            + span_visits (lent_bound start.entry) (lent_bound end.entry) (seen_pairs self.entry)) }
        ensures bound { C.number counter.new ≤ C.number counter.old
            + span_bound (lent_bound start.entry) (lent_bound end.entry) (seen_pairs self.entry) }
        ensures no_visits { seen_pairs self.entry ≡ []
            → C.number counter.new ≤ C.number counter.old }
    {
        self.for_each_range_view_by_ref_bytes_counted(start, end, &mut f, counter)
    }
}

impl<'a, K: KeyTrait + Drop, V, C: Count> Seen<'a, K, V, C> {
    /// Calls `f` with each pair between two bounds, in order, and with a view of its key, cut at the branch points. If
    /// the end is before the start there is none. `f` must be callable with each of these in turn. The caller keeps
    /// `f`.
    ///
    /// # Errors
    ///
    /// [`TreeError::Memory`] if the tree isn't empty and the allocation for the walk fails. Nothing is then
    /// visited, and `f` is not called.
    ///
    /// # Visits
    ///
    /// At most `start.len() + 1 + 2 * m + h` nodes with `m` calls in a tree of height `h`, none in an empty tree.
    pub fn for_each_range_view_by_ref_counted<F: FnMut(LendingKeyView<'_, '_>, &V)>(
        self,
        start: Bound<K>,
        end: Bound<K>,
        f: &mut F,
        counter: &mut C,
    ) -> Result<(), TreeError>
        requires callable { CanView F.FnMut f.old
            (cut_between (bound_in K.bytes start) (bound_in K.bytes end) (seen_pairs self)) }
        ensures stays_callable { F.IsAlwaysCallable f.old → F.IsAlwaysCallable f.new }
        ensures calls { OnOk result (ViewsEach F.FnMut f.old
            (cut_between (bound_in K.bytes start) (bound_in K.bytes end)
            (seen_pairs self.entry)) f.new) }
        ensures unchanged { OnErr result (f.new ≡ f.old) }
        ensures memory { IfErr result (MayLackMemory (seen_pairs self.entry)) }
        ensures unvisited { OnErr result (counter.new ≡ counter.old) }
        ensures visits { OnOk result (C.number counter.new ≤ C.number counter.old
            + span_visits (bound_in K.bytes start) (bound_in K.bytes end) (seen_pairs self.entry)) }
        ensures bound { C.number counter.new ≤ C.number counter.old
            + span_bound (bound_in K.bytes start) (bound_in K.bytes end) (seen_pairs self.entry) }
        ensures no_visits { seen_pairs self.entry ≡ []
            → C.number counter.new ≤ C.number counter.old }
    {
        self.for_each_range_view_by_ref_bytes_counted(
            slice_bound(&start),
            slice_bound(&end),
            f,
            counter,
        )
    }

    /// Calls `f` as [`for_each_range_view_by_ref_counted`](Self::for_each_range_view_by_ref_counted) does, and drops
    /// it.
    ///
    /// # Errors
    ///
    /// [`TreeError::Memory`] if the tree isn't empty and the allocation for the walk fails. Nothing is then visited.
    ///
    /// # Visits
    ///
    /// At most `start.len() + 1 + 2 * m + h` nodes with `m` calls in a tree of height `h`, none in an empty tree.
    pub fn for_each_range_view_counted<F: FnMut(LendingKeyView<'_, '_>, &V) + Drop>(
        self,
        start: Bound<K>,
        end: Bound<K>,
        mut f: F,
        counter: &mut C,
    ) -> Result<(), TreeError>
        requires callable { CanView F.FnMut f
            (cut_between (bound_in K.bytes start) (bound_in K.bytes end) (seen_pairs self)) }
        ensures calls { OnOk result (ViewsEachByValue F.FnMut f
            (cut_between (bound_in K.bytes start) (bound_in K.bytes end) (seen_pairs self.entry))) }
        ensures memory { IfErr result (MayLackMemory (seen_pairs self.entry)) }
        ensures unvisited { OnErr result (counter.new ≡ counter.old) }
        ensures visits { OnOk result (C.number counter.new ≤ C.number counter.old
            + span_visits (bound_in K.bytes start) (bound_in K.bytes end) (seen_pairs self.entry)) }
        ensures bound { C.number counter.new ≤ C.number counter.old
            + span_bound (bound_in K.bytes start) (bound_in K.bytes end) (seen_pairs self.entry) }
        ensures no_visits { seen_pairs self.entry ≡ []
            → C.number counter.new ≤ C.number counter.old }
    {
        self.for_each_range_view_by_ref_counted(start, end, &mut f, counter)
    }
}
