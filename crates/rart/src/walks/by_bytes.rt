//! Iterators over the pairs whose key begins with given bytes, and calls of a callback with each, also within bounds of
//! given bytes. The bytes may be more than any key has: then no key begins with them.
ghost use Rattle.std.specs.Prelude.{◌≡◌, IfErr, IfOk, OnErr, OnOk};
ghost use Rattle.rart_keys.specs.Filters.{below};
ghost use Rattle.rart_trie.specs.ranges.LentBounds.{lent_bound};
ghost use Rattle.rart_nodes.specs.ranges.Spans.{cut_between};
ghost use Rattle.rart_nodes.specs.walks.Shown.{CanFold, CanShow, FoldsEach, FoldsEachByValue, ShowsEach};
ghost use Rattle.rart_nodes.specs.walks.Shown.{ShowsEachByValue};
ghost use Rattle.rart_nodes.specs.walks.Tried.{CanTry, EndsVisit, EndsVisitByValue, MayStopForMemory};
ghost use Rattle.rart_nodes.specs.walks.TriedViews.{CanTryView, EndsViewVisit, EndsViewVisitByValue};
ghost use Rattle.rart_nodes.specs.walks.Viewed.{CanView, ViewsEach, ViewsEachByValue};
ghost use Rattle.rart_trie.specs.walks.BelowPrefix.{cut_below, values_below};
ghost use Rattle.rart_trie.specs.walks.Calls.{MayLackMemory};

use crate::tree::AdaptiveRadixTree;
use rart_keys::KeyTrait;
use rart_nodes::iter::Iter;
use rart_nodes::{LendingKeyView, VisitControl, VisitError, Visits};
use rart_parts::TreeError;
use std::ops::Bound;

impl<K: KeyTrait, V> AdaptiveRadixTree<K, V> {
    /// Returns an iterator over the pairs whose key begins with the bytes `prefix`, ascending, as
    /// [`prefix_iter_k`](Self::prefix_iter_k).
    ///
    /// # Errors
    ///
    /// [`TreeError::Memory`] if the tree isn't empty and the allocation fails.
    pub fn prefix_iter_bytes(
        &self,
        prefix: &[u8],
    ) -> Result<Iter<'_, K, K::PartialType, V>, TreeError>
        ensures pairs { IfOk result (λ it. it ≡ below prefix.now self.now.pairs) }
        ensures memory { IfErr result (MayLackMemory self.now.pairs) }
    {
        self.seen().prefix_iter_bytes(prefix)
    }

    /// Calls `f` with a view of each key that begins with the bytes `prefix` and with its value, in order. The caller
    /// keeps `f`.
    ///
    /// # Errors
    ///
    /// [`TreeError::Memory`] if the tree isn't empty and the allocation for the walk fails. `f` is then not called.
    pub fn prefix_for_each_view_by_ref_bytes<F: FnMut(LendingKeyView<'_, '_>, &V)>(
        &self,
        prefix: &[u8],
        f: &mut F,
    ) -> Result<(), TreeError>
        requires callable { CanView F.FnMut f.old (cut_below prefix.now self.now.pairs) }
        ensures stays_callable { F.IsAlwaysCallable f.old → F.IsAlwaysCallable f.new }
        ensures calls { OnOk result (ViewsEach F.FnMut f.old
            (cut_below prefix.now self.now.pairs) f.new) }
        ensures unchanged { OnErr result (f.new ≡ f.old) }
        ensures memory { IfErr result (MayLackMemory self.now.pairs) }
    {
        self.seen()
            .prefix_for_each_view_by_ref_bytes_counted(prefix, f, &mut Visits::new())
    }

    /// Calls `f` as [`prefix_for_each_view_by_ref_bytes`](Self::prefix_for_each_view_by_ref_bytes) does, and drops it.
    ///
    /// # Errors
    ///
    /// Those of `prefix_for_each_view_by_ref_bytes`.
    pub fn prefix_for_each_view_bytes<F: FnMut(LendingKeyView<'_, '_>, &V) + Drop>(
        &self,
        prefix: &[u8],
        mut f: F,
    ) -> Result<(), TreeError>
        requires callable { CanView F.FnMut f (cut_below prefix.now self.now.pairs) }
        ensures calls { OnOk result (ViewsEachByValue F.FnMut f
            (cut_below prefix.now self.now.pairs)) }
        ensures memory { IfErr result (MayLackMemory self.now.pairs) }
    {
        self.prefix_for_each_view_by_ref_bytes(prefix, &mut f)
    }

    /// Calls `f` with the value of each pair whose key begins with the bytes `prefix`, in order. The caller keeps `f`.
    ///
    /// # Errors
    ///
    /// [`TreeError::Memory`] if the tree isn't empty and the allocation for the walk fails. `f` is then not called.
    pub fn prefix_values_for_each_by_ref_bytes<F: FnMut(&V)>(
        &self,
        prefix: &[u8],
        f: &mut F,
    ) -> Result<(), TreeError>
        requires callable { CanShow F.FnMut f.old
            (values_below prefix.now self.now.pairs) }
        ensures stays_callable { F.IsAlwaysCallable f.old → F.IsAlwaysCallable f.new }
        ensures calls { OnOk result
            (ShowsEach F.FnMut f.old (values_below prefix.now self.now.pairs) f.new) }
        ensures unchanged { OnErr result (f.new ≡ f.old) }
        ensures memory { IfErr result (MayLackMemory self.now.pairs) }
    {
        self.seen()
            .prefix_values_for_each_by_ref_bytes_counted(prefix, f, &mut Visits::new())
    }

    /// Calls `f` as [`prefix_values_for_each_by_ref_bytes`](Self::prefix_values_for_each_by_ref_bytes) does, and drops
    /// it.
    ///
    /// # Errors
    ///
    /// Those of `prefix_values_for_each_by_ref_bytes`.
    pub fn prefix_values_for_each_bytes<F: FnMut(&V) + Drop>(
        &self,
        prefix: &[u8],
        mut f: F,
    ) -> Result<(), TreeError>
        requires callable { CanShow F.FnMut f (values_below prefix.now self.now.pairs) }
        ensures calls { OnOk result
            (ShowsEachByValue F.FnMut f (values_below prefix.now self.now.pairs)) }
        ensures memory { IfErr result (MayLackMemory self.now.pairs) }
    {
        self.prefix_values_for_each_by_ref_bytes(prefix, &mut f)
    }

    /// Folds the values of the pairs whose key begins with the bytes `prefix`, as
    /// [`prefix_values_fold_by_ref_k`](Self::prefix_values_fold_by_ref_k).
    ///
    /// # Errors
    ///
    /// [`TreeError::Memory`] if the tree isn't empty and the allocation for the walk fails. `f` is then not called.
    pub fn prefix_values_fold_by_ref_bytes<S: Drop, F: FnMut(S, &V) -> S>(
        &self,
        prefix: &[u8],
        init: S,
        f: &mut F,
    ) -> Result<S, TreeError>
        requires callable { CanFold F.FnMut f.old init
            (values_below prefix.now self.now.pairs) }
        ensures stays_callable { F.IsAlwaysCallable f.old → F.IsAlwaysCallable f.new }
        ensures calls { IfOk result (λ state. FoldsEach F.FnMut f.old init
            (values_below prefix.now self.now.pairs) f.new state) }
        ensures unchanged { OnErr result (f.new ≡ f.old) }
        ensures memory { IfErr result (MayLackMemory self.now.pairs) }
    {
        self.seen()
            .prefix_values_fold_by_ref_bytes_counted(prefix, init, f, &mut Visits::new())
    }

    /// Folds as [`prefix_values_fold_by_ref_bytes`](Self::prefix_values_fold_by_ref_bytes) does, and drops `f`.
    ///
    /// # Errors
    ///
    /// Those of `prefix_values_fold_by_ref_bytes`.
    pub fn prefix_values_fold_bytes<S: Drop, F: FnMut(S, &V) -> S + Drop>(
        &self,
        prefix: &[u8],
        init: S,
        mut f: F,
    ) -> Result<S, TreeError>
        requires callable { CanFold F.FnMut f init
            (values_below prefix.now self.now.pairs) }
        ensures calls { IfOk result
            (FoldsEachByValue F.FnMut f init (values_below prefix.now self.now.pairs)) }
        ensures memory { IfErr result (MayLackMemory self.now.pairs) }
    {
        self.prefix_values_fold_by_ref_bytes(prefix, init, &mut f)
    }

    /// Calls `f` with the value of each pair whose key begins with the bytes `prefix`, in order. `Stop` ends the walk
    /// with `Ok(())`. The caller keeps `f`.
    ///
    /// # Errors
    ///
    /// [`VisitError::Callback`] with the error that `f` returned, which ends the walk. [`VisitError::Memory`] if the
    /// tree isn't empty and the allocation for the walk fails; `f` is then not called.
    pub fn try_prefix_values_for_each_by_ref_bytes<E, F: FnMut(&V) -> Result<VisitControl, E>>(
        &self,
        prefix: &[u8],
        f: &mut F,
    ) -> Result<(), VisitError<E>>
        requires callable { CanTry F.FnMut f.old
            (values_below prefix.now self.now.pairs) }
        ensures stays_callable { F.IsAlwaysCallable f.old → F.IsAlwaysCallable f.new }
        ensures calls { EndsVisit F.FnMut f.old
            (values_below prefix.now self.now.pairs) result f.new }
        ensures memory { IfErr result (MayStopForMemory self.now.pairs) }
    {
        self.seen()
            .try_prefix_values_for_each_by_ref_bytes_counted(prefix, f, &mut Visits::new())
    }

    /// Calls `f` as [`try_prefix_values_for_each_by_ref_bytes`](Self::try_prefix_values_for_each_by_ref_bytes) does,
    /// and drops it.
    ///
    /// # Errors
    ///
    /// Those of `try_prefix_values_for_each_by_ref_bytes`.
    pub fn try_prefix_values_for_each_bytes<E, F: FnMut(&V) -> Result<VisitControl, E> + Drop>(
        &self,
        prefix: &[u8],
        mut f: F,
    ) -> Result<(), VisitError<E>>
        requires callable { CanTry F.FnMut f (values_below prefix.now self.now.pairs) }
        ensures calls { EndsVisitByValue F.FnMut f
            (values_below prefix.now self.now.pairs) result }
        ensures memory { IfErr result (MayStopForMemory self.now.pairs) }
    {
        self.try_prefix_values_for_each_by_ref_bytes(prefix, &mut f)
    }

    /// Calls `f` with a view of each key within two bounds and with its value, in order; with none if the end is below
    /// the start. The caller keeps `f`.
    ///
    /// # Errors
    ///
    /// [`TreeError::Memory`] if the tree isn't empty and the allocation for the walk fails. `f` is then not called.
    pub fn for_each_range_view_by_ref_bytes<F: FnMut(LendingKeyView<'_, '_>, &V)>(
        &self,
        start: Bound<&[u8]>,
        end: Bound<&[u8]>,
        f: &mut F,
    ) -> Result<(), TreeError>
        requires callable { CanView F.FnMut f.old
            (cut_between (lent_bound start) (lent_bound end) self.now.pairs) }
        ensures stays_callable { F.IsAlwaysCallable f.old → F.IsAlwaysCallable f.new }
        ensures calls { OnOk result (ViewsEach F.FnMut f.old
            (cut_between (lent_bound start.entry) (lent_bound end.entry) self.now.pairs) f.new) }
        ensures unchanged { OnErr result (f.new ≡ f.old) }
        ensures memory { IfErr result (MayLackMemory self.now.pairs) }
    {
        self.seen()
            .for_each_range_view_by_ref_bytes_counted(start, end, f, &mut Visits::new())
    }

    /// Calls `f` as [`for_each_range_view_by_ref_bytes`](Self::for_each_range_view_by_ref_bytes) does, and drops it.
    ///
    /// # Errors
    ///
    /// Those of `for_each_range_view_by_ref_bytes`.
    pub fn for_each_range_view_bytes<F: FnMut(LendingKeyView<'_, '_>, &V) + Drop>(
        &self,
        start: Bound<&[u8]>,
        end: Bound<&[u8]>,
        f: F,
    ) -> Result<(), TreeError>
        requires callable { CanView F.FnMut f
            (cut_between (lent_bound start) (lent_bound end) self.now.pairs) }
        ensures calls { OnOk result (ViewsEachByValue F.FnMut f
            (cut_between (lent_bound start.entry) (lent_bound end.entry) self.now.pairs)) }
        ensures memory { IfErr result (MayLackMemory self.now.pairs) }
    {
        self.seen()
            .for_each_range_view_bytes_counted(start, end, f, &mut Visits::new())
    }

    /// Calls `f` with a view of each key within two bounds and with its value, in order; with none if the end is
    /// below the start. `Stop` ends the walk with `Ok(())`. The caller keeps `f`.
    ///
    /// # Errors
    ///
    /// [`VisitError::Callback`] with the error that `f` returned, which ends the walk. [`VisitError::Memory`] if the
    /// tree isn't empty and the allocation for the walk fails; `f` is then not called.
    pub fn try_for_each_range_view_by_ref_bytes<
        E,
        F: FnMut(LendingKeyView<'_, '_>, &V) -> Result<VisitControl, E>,
    >(&self, start: Bound<&[u8]>, end: Bound<&[u8]>, f: &mut F) -> Result<(), VisitError<E>>
        requires callable { CanTryView F.FnMut f.old
            (cut_between (lent_bound start) (lent_bound end) self.now.pairs) }
        ensures stays_callable { F.IsAlwaysCallable f.old → F.IsAlwaysCallable f.new }
        ensures calls { EndsViewVisit F.FnMut f.old
            (cut_between (lent_bound start.entry) (lent_bound end.entry) self.now.pairs)
            result f.new }
        ensures memory { IfErr result (MayStopForMemory self.now.pairs) }
    {
        self.seen()
            .try_for_each_range_view_by_ref_bytes_counted(start, end, f, &mut Visits::new())
    }

    /// Calls `f` as [`try_for_each_range_view_by_ref_bytes`](Self::try_for_each_range_view_by_ref_bytes) does, and
    /// drops it.
    ///
    /// # Errors
    ///
    /// Those of `try_for_each_range_view_by_ref_bytes`.
    pub fn try_for_each_range_view_bytes<
        E,
        F: FnMut(LendingKeyView<'_, '_>, &V) -> Result<VisitControl, E> + Drop,
    >(&self, start: Bound<&[u8]>, end: Bound<&[u8]>, f: F) -> Result<(), VisitError<E>>
        requires callable { CanTryView F.FnMut f
            (cut_between (lent_bound start) (lent_bound end) self.now.pairs) }
        ensures calls { EndsViewVisitByValue F.FnMut f
            (cut_between (lent_bound start.entry) (lent_bound end.entry) self.now.pairs) result }
        ensures memory { IfErr result (MayStopForMemory self.now.pairs) }
    {
        self.seen()
            .try_for_each_range_view_bytes_counted(start, end, f, &mut Visits::new())
    }
}
