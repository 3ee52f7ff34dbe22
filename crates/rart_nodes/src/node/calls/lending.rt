//! Walks that call a callback with each key lent in segments.

// A walk allocates before its first call, and then pushes and pops segments. The caller of a `_by_ref` form keeps its
// callback, and with it the state that the last call left.

ghost use Rattle.std.specs.Prelude.{◌≡◌, ◌≤◌, ◌+◌, ◌*◌, [], length, vec_capacity, IfErr, OnErr, OnOk};
ghost use Rattle.rart_nodes.specs.tries.SeenTrees.{seen_keys, seen_pairs};
ghost use Rattle.rart_trie.specs.walks.BelowPrefix.{below_bound, below_visits, cut_below};
ghost use Rattle.rart_trie.specs.walks.Cut.{cut_pairs};
ghost use Rattle.rart_trie.specs.walks.ProbeCount.{probe_count};
ghost use Rattle.rart_nodes.specs.walks.PathParts.{lent_segments};
ghost use Rattle.rart_nodes.specs.walks.ViewSegments.{AreViews, walk_views};
ghost use Rattle.rart_nodes.specs.walks.WalkSteps.{IsWalkAt, walk_nodes};
ghost use Rattle.rart_nodes.specs.walks.Viewed.{CanView, ViewsEachByValue, ViewsEach};
ghost use Rattle.rart_trie.specs.walks.Calls.{MayLackMemory};

use crate::node::path_walk::ascending::Walk;
use crate::node::path_walk::path::SegmentPath;
use crate::node::seen::Seen;
use crate::node::view::LendingKeyView;
use rart_keys::{KeyTrait, Partial};
use rart_parts::TreeError;
use rart_trie::Count;

fn for_each_view_of<'a, P: Partial, V, C: Count, F: FnMut(LendingKeyView<'_, '_>, &V)>(
    walk: &mut Walk<'a, P, V, C>,
    path: &mut SegmentPath<'a>,
    counter: &mut C,
    f: &mut F,
)
    requires callable { CanView F.FnMut f.old (walk_views path.old.segments.items walk.old) }
    requires path { IsWalkAt walk.old (lent_segments path.old.segments.items) }
    requires reserved { walk.old.longest ≤ vec_capacity path.old.segments }
    requires views { AreViews (walk_views path.old.segments.items walk.old) }
    ensures stays_callable { F.IsAlwaysCallable f.old → F.IsAlwaysCallable f.new }
    ensures calls { ViewsEach F.FnMut f.old (walk_views path.old.segments.items walk.old)
        f.new }
    ensures visits { C.number counter.new ≤ C.number counter.old + walk_nodes walk.old }
{
    while let Some(value) = walk.advance(path, counter) {
        f(LendingKeyView::of(path.segments()), value);
    }
}

impl<'a, K: KeyTrait, V, C: Count> Seen<'a, K, V, C> {
    /// Calls `f` with each pair whose key begins with the bytes `prefix`, which may be longer than any key, in order,
    /// and with a view of its key, cut at the branch points. `f` must be callable with each of these in turn. The
    /// caller keeps `f`.
    ///
    /// # Errors
    ///
    /// [`TreeError::Memory`] if the tree isn't empty and the allocation for the walk fails. Nothing is then
    /// visited, and `f` is not called.
    ///
    /// # Visits
    ///
    /// At most `prefix.len() + 1 + 2 * m` nodes with `m` calls, none in an empty tree.
    pub fn prefix_for_each_view_by_ref_bytes_counted<F: FnMut(LendingKeyView<'_, '_>, &V)>(
        self,
        prefix: &[u8],
        f: &mut F,
        counter: &mut C,
    ) -> Result<(), TreeError>
        requires callable { CanView F.FnMut f.old (cut_below prefix.now (seen_pairs self)) }
        ensures stays_callable { F.IsAlwaysCallable f.old → F.IsAlwaysCallable f.new }
        ensures calls { OnOk result (ViewsEach F.FnMut f.old
            (cut_below prefix.now (seen_pairs self.entry)) f.new) }
        ensures unchanged { OnErr result (f.new ≡ f.old) }
        ensures memory { IfErr result (MayLackMemory (seen_pairs self.entry)) }
        ensures unvisited { OnErr result (counter.new ≡ counter.old) }
        ensures visits { OnOk result (C.number counter.new
            ≤ C.number counter.old + below_visits prefix.now (seen_pairs self.entry)) }
        ensures bound { C.number counter.new
            ≤ C.number counter.old + below_bound prefix.now (seen_pairs self.entry) }
    {
        let (mut walk, mut path) = self.walk_below::<SegmentPath<'a>>(prefix, counter)?;
        for_each_view_of(&mut walk, &mut path, counter, f);
        Ok(())
    }

    /// Calls `f` with a view of each key that begins with `prefix`, as
    /// [`prefix_for_each_view_by_ref_bytes_counted`](Self::prefix_for_each_view_by_ref_bytes_counted) does.
    ///
    /// # Errors
    ///
    /// [`TreeError::Memory`] if the tree isn't empty and the allocation for the walk fails. Nothing is then
    /// visited, and `f` is not called.
    ///
    /// # Visits
    ///
    /// At most `prefix.len() + 1 + 2 * m` nodes with `m` calls, none in an empty tree.
    pub fn prefix_for_each_view_by_ref_k_counted<F: FnMut(LendingKeyView<'_, '_>, &V)>(
        self,
        prefix: &K,
        f: &mut F,
        counter: &mut C,
    ) -> Result<(), TreeError>
        requires callable { CanView F.FnMut f.old
            (cut_below (K.bytes prefix.now) (seen_pairs self)) }
        ensures stays_callable { F.IsAlwaysCallable f.old → F.IsAlwaysCallable f.new }
        ensures calls { OnOk result (ViewsEach F.FnMut f.old
            (cut_below (K.bytes prefix.now) (seen_pairs self.entry)) f.new) }
        ensures unchanged { OnErr result (f.new ≡ f.old) }
        ensures memory { IfErr result (MayLackMemory (seen_pairs self.entry)) }
        ensures unvisited { OnErr result (counter.new ≡ counter.old) }
        ensures visits { OnOk result (C.number counter.new ≤ C.number counter.old
            + below_visits (K.bytes prefix.now) (seen_pairs self.entry)) }
        ensures bound { C.number counter.new
            ≤ C.number counter.old + below_bound (K.bytes prefix.now) (seen_pairs self.entry) }
    {
        self.prefix_for_each_view_by_ref_bytes_counted(prefix.as_ref(), f, counter)
    }

    /// Calls `f` as [`prefix_for_each_view_by_ref_k_counted`](Self::prefix_for_each_view_by_ref_k_counted) does, and
    /// drops it.
    ///
    /// # Errors
    ///
    /// [`TreeError::Memory`] if the tree isn't empty and the allocation for the walk fails. Nothing is then visited.
    ///
    /// # Visits
    ///
    /// At most `prefix.len() + 1 + 2 * m` nodes with `m` calls, none in an empty tree.
    pub fn prefix_for_each_view_k_counted<F: FnMut(LendingKeyView<'_, '_>, &V) + Drop>(
        self,
        prefix: &K,
        mut f: F,
        counter: &mut C,
    ) -> Result<(), TreeError>
        requires callable { CanView F.FnMut f (cut_below (K.bytes prefix.now) (seen_pairs self)) }
        ensures calls { OnOk result (ViewsEachByValue F.FnMut f
            (cut_below (K.bytes prefix.now) (seen_pairs self.entry))) }
        ensures memory { IfErr result (MayLackMemory (seen_pairs self.entry)) }
        ensures unvisited { OnErr result (counter.new ≡ counter.old) }
        ensures visits { OnOk result (C.number counter.new ≤ C.number counter.old
            + below_visits (K.bytes prefix.now) (seen_pairs self.entry)) }
        ensures bound { C.number counter.new
            ≤ C.number counter.old + below_bound (K.bytes prefix.now) (seen_pairs self.entry) }
    {
        self.prefix_for_each_view_by_ref_k_counted(prefix, &mut f, counter)
    }

    /// Calls `f` with each pair, in order, and with a view of its key, as `prefix_for_each_view_by_ref_k_counted`
    /// does with those below a prefix. The caller keeps `f`.
    ///
    /// # Errors
    ///
    /// [`TreeError::Memory`] if the tree isn't empty and the allocation for the walk fails. Nothing is then
    /// visited, and `f` is not called.
    ///
    /// # Visits
    ///
    /// At most `2 * n + 1` nodes with `n` pairs, none in an empty tree.
    pub fn for_each_view_by_ref_counted<F: FnMut(LendingKeyView<'_, '_>, &V)>(
        self,
        f: &mut F,
        counter: &mut C,
    ) -> Result<(), TreeError>
        requires callable { CanView F.FnMut f.old (cut_pairs (seen_keys self) (seen_pairs self)) }
        ensures stays_callable { F.IsAlwaysCallable f.old → F.IsAlwaysCallable f.new }
        ensures calls { OnOk result (ViewsEach F.FnMut f.old
            (cut_pairs (seen_keys self.entry) (seen_pairs self.entry)) f.new) }
        ensures unchanged { OnErr result (f.new ≡ f.old) }
        ensures memory { IfErr result (MayLackMemory (seen_pairs self.entry)) }
        ensures unvisited { OnErr result (counter.new ≡ counter.old) }
        ensures visits { OnOk result (C.number counter.new ≤ C.number counter.old
            + (probe_count (seen_keys self.entry) [] + 2 * length (seen_pairs self.entry))) }
        ensures bound { C.number counter.new
            ≤ C.number counter.old + 1 + 2 * length (seen_pairs self.entry) }
    {
        self.prefix_for_each_view_by_ref_bytes_counted(&[], f, counter)
    }

    /// Calls `f` as [`for_each_view_by_ref_counted`](Self::for_each_view_by_ref_counted) does, and drops it.
    ///
    /// # Errors
    ///
    /// [`TreeError::Memory`] if the tree isn't empty and the allocation for the walk fails. Nothing is then visited.
    ///
    /// # Visits
    ///
    /// At most `2 * n + 1` nodes with `n` pairs, none in an empty tree.
    pub fn for_each_view_counted<F: FnMut(LendingKeyView<'_, '_>, &V) + Drop>(
        self,
        mut f: F,
        counter: &mut C,
    ) -> Result<(), TreeError>
        requires callable { CanView F.FnMut f (cut_pairs (seen_keys self) (seen_pairs self)) }
        ensures calls { OnOk result (ViewsEachByValue F.FnMut f
            (cut_pairs (seen_keys self.entry) (seen_pairs self.entry))) }
        ensures memory { IfErr result (MayLackMemory (seen_pairs self.entry)) }
        ensures unvisited { OnErr result (counter.new ≡ counter.old) }
        ensures visits { OnOk result (C.number counter.new ≤ C.number counter.old
            + (probe_count (seen_keys self.entry) [] + 2 * length (seen_pairs self.entry))) }
        ensures bound { C.number counter.new
            ≤ C.number counter.old + 1 + 2 * length (seen_pairs self.entry) }
    {
        self.for_each_view_by_ref_counted(&mut f, counter)
    }
}
