//! Walks that show each key in segments to a callback that can end them.
ghost use Rattle.std.specs.Prelude.{◌≡◌, IfErr};
ghost use Rattle.rart_keys.specs.Ranges.{bound_in};
ghost use Rattle.rart_keys.specs.SortedMap.{keys_of};
ghost use Rattle.rart_nodes.specs.ranges.Spans.{cut_between};
ghost use Rattle.rart_nodes.specs.walks.Tried.{MayStopForMemory};
ghost use Rattle.rart_nodes.specs.walks.TriedViews.{CanTryView, EndsViewVisit, EndsViewVisitByValue};
ghost use Rattle.rart_trie.specs.walks.BelowPrefix.{cut_below};
ghost use Rattle.rart_trie.specs.walks.Cut.{cut_pairs};

use crate::tree::AdaptiveRadixTree;
use rart_keys::KeyTrait;
use rart_nodes::{LendingKeyView, VisitControl, VisitError, Visits};
use std::ops::Bound;

impl<K: KeyTrait, V> AdaptiveRadixTree<K, V> {
    /// Calls `f` with a view of each key and with its value, in order. `Stop` ends the walk with `Ok(())`. The caller
    /// keeps `f`.
    ///
    /// # Errors
    ///
    /// [`VisitError::Callback`] with the error that `f` returned, which ends the walk. [`VisitError::Memory`] if the
    /// tree isn't empty and the allocation for the walk fails; `f` is then not called.
    pub fn try_for_each_view_by_ref<
        E,
        F: FnMut(LendingKeyView<'_, '_>, &V) -> Result<VisitControl, E>,
    >(&self, f: &mut F) -> Result<(), VisitError<E>>
        requires callable { CanTryView F.FnMut f.old
            (cut_pairs (keys_of self.now.pairs) self.now.pairs) }
        ensures stays_callable { F.IsAlwaysCallable f.old → F.IsAlwaysCallable f.new }
        ensures calls { EndsViewVisit F.FnMut f.old
            (cut_pairs (keys_of self.now.pairs) self.now.pairs) result f.new }
        ensures memory { IfErr result (MayStopForMemory self.now.pairs) }
    {
        self.seen()
            .try_for_each_view_by_ref_counted(f, &mut Visits::new())
    }

    /// Calls `f` as [`try_for_each_view_by_ref`](Self::try_for_each_view_by_ref) does, and drops it.
    ///
    /// # Errors
    ///
    /// Those of `try_for_each_view_by_ref`.
    pub fn try_for_each_view<
        E,
        F: FnMut(LendingKeyView<'_, '_>, &V) -> Result<VisitControl, E> + Drop,
    >(&self, f: F) -> Result<(), VisitError<E>>
        requires callable { CanTryView F.FnMut f
            (cut_pairs (keys_of self.now.pairs) self.now.pairs) }
        ensures calls { EndsViewVisitByValue F.FnMut f
            (cut_pairs (keys_of self.now.pairs) self.now.pairs) result }
        ensures memory { IfErr result (MayStopForMemory self.now.pairs) }
    {
        self.seen().try_for_each_view_counted(f, &mut Visits::new())
    }

    /// Calls `f` with a view of each key that begins with `prefix` and with its value, in order. `Stop` ends the walk
    /// with `Ok(())`. The caller keeps `f`.
    ///
    /// # Errors
    ///
    /// [`VisitError::Callback`] with the error that `f` returned, which ends the walk. [`VisitError::Memory`] if the
    /// tree isn't empty and the allocation for the walk fails; `f` is then not called.
    pub fn try_prefix_for_each_view_by_ref_k<
        E,
        F: FnMut(LendingKeyView<'_, '_>, &V) -> Result<VisitControl, E>,
    >(&self, prefix: &K, f: &mut F) -> Result<(), VisitError<E>>
        requires callable { CanTryView F.FnMut f.old
            (cut_below (K.bytes prefix.now) self.now.pairs) }
        ensures stays_callable { F.IsAlwaysCallable f.old → F.IsAlwaysCallable f.new }
        ensures calls { EndsViewVisit F.FnMut f.old
            (cut_below (K.bytes prefix.now) self.now.pairs) result f.new }
        ensures memory { IfErr result (MayStopForMemory self.now.pairs) }
    {
        self.seen()
            .try_prefix_for_each_view_by_ref_k_counted(prefix, f, &mut Visits::new())
    }

    /// Calls `f` as [`try_prefix_for_each_view_by_ref_k`](Self::try_prefix_for_each_view_by_ref_k) does.
    ///
    /// # Errors
    ///
    /// Those of `try_prefix_for_each_view_by_ref_k`.
    pub fn try_prefix_for_each_view_by_ref<
        E,
        F: FnMut(LendingKeyView<'_, '_>, &V) -> Result<VisitControl, E>,
    >(&self, prefix: K, f: &mut F) -> Result<(), VisitError<E>>
    where
        K: Drop,
        requires callable { CanTryView F.FnMut f.old
            (cut_below (K.bytes prefix) self.now.pairs) }
        ensures stays_callable { F.IsAlwaysCallable f.old → F.IsAlwaysCallable f.new }
        ensures calls { EndsViewVisit F.FnMut f.old
            (cut_below (K.bytes prefix) self.now.pairs) result f.new }
        ensures memory { IfErr result (MayStopForMemory self.now.pairs) }
    {
        self.try_prefix_for_each_view_by_ref_k(&prefix, f)
    }

    /// Calls `f` as [`try_prefix_for_each_view_by_ref_k`](Self::try_prefix_for_each_view_by_ref_k) does, and drops it.
    ///
    /// # Errors
    ///
    /// Those of `try_prefix_for_each_view_by_ref_k`.
    pub fn try_prefix_for_each_view_k<
        E,
        F: FnMut(LendingKeyView<'_, '_>, &V) -> Result<VisitControl, E> + Drop,
    >(&self, prefix: &K, f: F) -> Result<(), VisitError<E>>
        requires callable { CanTryView F.FnMut f
            (cut_below (K.bytes prefix.now) self.now.pairs) }
        ensures calls { EndsViewVisitByValue F.FnMut f
            (cut_below (K.bytes prefix.now) self.now.pairs) result }
        ensures memory { IfErr result (MayStopForMemory self.now.pairs) }
    {
        self.seen()
            .try_prefix_for_each_view_k_counted(prefix, f, &mut Visits::new())
    }

    /// Calls `f` as [`try_prefix_for_each_view_by_ref_k`](Self::try_prefix_for_each_view_by_ref_k) does, and drops it.
    ///
    /// # Errors
    ///
    /// Those of `try_prefix_for_each_view_by_ref_k`.
    pub fn try_prefix_for_each_view<
        E,
        F: FnMut(LendingKeyView<'_, '_>, &V) -> Result<VisitControl, E> + Drop,
    >(&self, prefix: K, f: F) -> Result<(), VisitError<E>>
    where
        K: Drop,
        requires callable { CanTryView F.FnMut f
            (cut_below (K.bytes prefix) self.now.pairs) }
        ensures calls { EndsViewVisitByValue F.FnMut f
            (cut_below (K.bytes prefix) self.now.pairs) result }
        ensures memory { IfErr result (MayStopForMemory self.now.pairs) }
    {
        self.try_prefix_for_each_view_k(&prefix, f)
    }

    /// Calls `f` with a view of each key that begins with the bytes `prefix`, which may be longer than any key, as
    /// [`try_prefix_for_each_view_by_ref_k`](Self::try_prefix_for_each_view_by_ref_k) does.
    ///
    /// # Errors
    ///
    /// Those of `try_prefix_for_each_view_by_ref_k`.
    pub fn try_prefix_for_each_view_by_ref_bytes<
        E,
        F: FnMut(LendingKeyView<'_, '_>, &V) -> Result<VisitControl, E>,
    >(&self, prefix: &[u8], f: &mut F) -> Result<(), VisitError<E>>
        requires callable { CanTryView F.FnMut f.old
            (cut_below prefix.now self.now.pairs) }
        ensures stays_callable { F.IsAlwaysCallable f.old → F.IsAlwaysCallable f.new }
        ensures calls { EndsViewVisit F.FnMut f.old
            (cut_below prefix.now self.now.pairs) result f.new }
        ensures memory { IfErr result (MayStopForMemory self.now.pairs) }
    {
        self.seen()
            .try_prefix_for_each_view_by_ref_bytes_counted(prefix, f, &mut Visits::new())
    }

    /// Calls `f` as [`try_prefix_for_each_view_by_ref_bytes`](Self::try_prefix_for_each_view_by_ref_bytes) does, and
    /// drops it.
    ///
    /// # Errors
    ///
    /// Those of `try_prefix_for_each_view_by_ref_bytes`.
    pub fn try_prefix_for_each_view_bytes<
        E,
        F: FnMut(LendingKeyView<'_, '_>, &V) -> Result<VisitControl, E> + Drop,
    >(&self, prefix: &[u8], mut f: F) -> Result<(), VisitError<E>>
        requires callable { CanTryView F.FnMut f
            (cut_below prefix.now self.now.pairs) }
        ensures calls { EndsViewVisitByValue F.FnMut f
            (cut_below prefix.now self.now.pairs) result }
        ensures memory { IfErr result (MayStopForMemory self.now.pairs) }
    {
        self.try_prefix_for_each_view_by_ref_bytes(prefix, &mut f)
    }

    /// Calls `f` with a view of each key within two bounds and with its value, in order; with none if the end is
    /// below the start. `Stop` ends the walk with `Ok(())`. The caller keeps `f`.
    ///
    /// # Errors
    ///
    /// [`VisitError::Callback`] with the error that `f` returned, which ends the walk. [`VisitError::Memory`] if the
    /// tree isn't empty and the allocation for the walk fails; `f` is then not called.
    pub fn try_for_each_range_view_by_ref<
        E,
        F: FnMut(LendingKeyView<'_, '_>, &V) -> Result<VisitControl, E>,
    >(&self, start: Bound<K>, end: Bound<K>, f: &mut F) -> Result<(), VisitError<E>>
    where
        K: Drop,
        requires callable { CanTryView F.FnMut f.old
            (cut_between (bound_in K.bytes start) (bound_in K.bytes end) self.now.pairs) }
        ensures stays_callable { F.IsAlwaysCallable f.old → F.IsAlwaysCallable f.new }
        ensures calls { EndsViewVisit F.FnMut f.old
            (cut_between (bound_in K.bytes start) (bound_in K.bytes end) self.now.pairs)
            result f.new }
        ensures memory { IfErr result (MayStopForMemory self.now.pairs) }
    {
        self.seen()
            .try_for_each_range_view_by_ref_counted(start, end, f, &mut Visits::new())
    }

    /// Calls `f` as [`try_for_each_range_view_by_ref`](Self::try_for_each_range_view_by_ref) does, and drops it.
    ///
    /// # Errors
    ///
    /// Those of `try_for_each_range_view_by_ref`.
    pub fn try_for_each_range_view<
        E,
        F: FnMut(LendingKeyView<'_, '_>, &V) -> Result<VisitControl, E> + Drop,
    >(&self, start: Bound<K>, end: Bound<K>, f: F) -> Result<(), VisitError<E>>
    where
        K: Drop,
        requires callable { CanTryView F.FnMut f
            (cut_between (bound_in K.bytes start) (bound_in K.bytes end) self.now.pairs) }
        ensures calls { EndsViewVisitByValue F.FnMut f
            (cut_between (bound_in K.bytes start) (bound_in K.bytes end) self.now.pairs) result }
        ensures memory { IfErr result (MayStopForMemory self.now.pairs) }
    {
        self.seen()
            .try_for_each_range_view_counted(start, end, f, &mut Visits::new())
    }
}
