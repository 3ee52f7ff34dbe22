//! Walks that call a callback: with the keys that begin a probe, and with the values of the keys with a prefix.
ghost use Rattle.std.specs.Prelude.{◌≡◌, IfErr, IfOk, OnErr, OnOk};
ghost use Rattle.rart_keys.specs.Filters.{matches};
ghost use Rattle.rart_trie.specs.walks.BelowPrefix.{values_below};
ghost use Rattle.rart_trie.specs.walks.Calls.{MayLackMemory};
ghost use Rattle.rart_nodes.specs.walks.Matched.{CanMatch, MatchesEachByValue, MatchesEach};
ghost use Rattle.rart_nodes.specs.walks.Shown.{CanFold, CanShow, FoldsEachByValue, FoldsEach, ShowsEachByValue};
ghost use Rattle.rart_nodes.specs.walks.Shown.{ShowsEach};
ghost use Rattle.rart_nodes.specs.walks.Tried.{CanTry, EndsVisitByValue, EndsVisit, MayStopForMemory};

use crate::tree::AdaptiveRadixTree;
use rart_keys::KeyTrait;
use rart_nodes::{VisitControl, VisitError, Visits};
use rart_parts::TreeError;

impl<K: KeyTrait, V> AdaptiveRadixTree<K, V> {
    /// Calls `f` with each pair whose key begins the bytes `probe`, which may be longer than any key, the shortest
    /// first. The key is borrowed from the probe: its first bytes, nothing is copied. Allocates nothing.
    pub fn prefix_match_for_each_by_ref_bytes<F: FnMut(&[u8], &V)>(&self, probe: &[u8], f: &mut F)
        requires callable { CanMatch F.FnMut f.old (matches probe.now self.now.pairs) }
        ensures stays_callable { F.IsAlwaysCallable f.old → F.IsAlwaysCallable f.new }
        ensures calls { MatchesEach F.FnMut f.old (matches probe.now self.now.pairs) f.new }
    {
        self.seen()
            .prefix_match_for_each_by_ref_bytes_counted(probe, f, &mut Visits::new())
    }

    /// Calls `f` as [`prefix_match_for_each_by_ref_bytes`](Self::prefix_match_for_each_by_ref_bytes) does, and drops
    /// it.
    pub fn prefix_match_for_each_bytes<F: FnMut(&[u8], &V) + Drop>(&self, probe: &[u8], f: F)
        requires callable { CanMatch F.FnMut f (matches probe.now self.now.pairs) }
        ensures { MatchesEachByValue F.FnMut f (matches probe.now self.now.pairs) }
    {
        self.seen()
            .prefix_match_for_each_bytes_counted(probe, f, &mut Visits::new())
    }

    /// Calls `f` with each pair whose key begins `probe`, the shortest first. The key is borrowed from the probe: its
    /// first bytes, nothing is copied. Allocates nothing.
    pub fn prefix_match_for_each_by_ref_k<F: FnMut(&[u8], &V)>(&self, probe: &K, f: &mut F)
        requires callable { CanMatch F.FnMut f.old (matches (K.bytes probe.now) self.now.pairs) }
        ensures stays_callable { F.IsAlwaysCallable f.old → F.IsAlwaysCallable f.new }
        ensures calls { MatchesEach F.FnMut f.old
            (matches (K.bytes probe.now) self.now.pairs) f.new }
    {
        self.seen()
            .prefix_match_for_each_by_ref_k_counted(probe, f, &mut Visits::new())
    }

    /// Calls `f` as [`prefix_match_for_each_by_ref_k`](Self::prefix_match_for_each_by_ref_k) does.
    pub fn prefix_match_for_each_by_ref<F: FnMut(&[u8], &V)>(&self, probe: K, f: &mut F)
    where
        K: Drop,
        requires callable { CanMatch F.FnMut f.old (matches (K.bytes probe) self.now.pairs) }
        ensures stays_callable { F.IsAlwaysCallable f.old → F.IsAlwaysCallable f.new }
        ensures calls { MatchesEach F.FnMut f.old (matches (K.bytes probe) self.now.pairs) f.new }
    {
        self.prefix_match_for_each_by_ref_k(&probe, f)
    }

    /// Calls `f` as [`prefix_match_for_each_by_ref_k`](Self::prefix_match_for_each_by_ref_k) does, and drops it.
    pub fn prefix_match_for_each_k<F: FnMut(&[u8], &V) + Drop>(&self, probe: &K, f: F)
        requires callable { CanMatch F.FnMut f (matches (K.bytes probe.now) self.now.pairs) }
        ensures { MatchesEachByValue F.FnMut f (matches (K.bytes probe.now) self.now.pairs) }
    {
        self.seen()
            .prefix_match_for_each_k_counted(probe, f, &mut Visits::new())
    }

    /// Calls `f` as [`prefix_match_for_each_by_ref_k`](Self::prefix_match_for_each_by_ref_k) does, and drops it.
    pub fn prefix_match_for_each<F: FnMut(&[u8], &V) + Drop>(&self, probe: K, f: F)
    where
        K: Drop,
        requires callable { CanMatch F.FnMut f (matches (K.bytes probe) self.now.pairs) }
        ensures { MatchesEachByValue F.FnMut f (matches (K.bytes probe) self.now.pairs) }
    {
        self.prefix_match_for_each_k(&probe, f)
    }

    /// Calls `f` with the value of each pair whose key begins with `prefix`, in order. The caller keeps `f`.
    ///
    /// # Errors
    ///
    /// [`TreeError::Memory`] if the tree isn't empty and the allocation for the walk fails. `f` is then not called.
    pub fn prefix_values_for_each_by_ref_k<F: FnMut(&V)>(
        &self,
        prefix: &K,
        f: &mut F,
    ) -> Result<(), TreeError>
        requires callable { CanShow F.FnMut f.old
            (values_below (K.bytes prefix.now) self.now.pairs) }
        ensures stays_callable { F.IsAlwaysCallable f.old → F.IsAlwaysCallable f.new }
        ensures calls { OnOk result
            (ShowsEach F.FnMut f.old (values_below (K.bytes prefix.now) self.now.pairs) f.new) }
        ensures unchanged { OnErr result (f.new ≡ f.old) }
        ensures memory { IfErr result (MayLackMemory self.now.pairs) }
    {
        self.seen()
            .prefix_values_for_each_by_ref_k_counted(prefix, f, &mut Visits::new())
    }

    /// Calls `f` as [`prefix_values_for_each_by_ref_k`](Self::prefix_values_for_each_by_ref_k) does.
    ///
    /// # Errors
    ///
    /// [`TreeError::Memory`] if the tree isn't empty and the allocation for the walk fails. `f` is then not called.
    pub fn prefix_values_for_each_by_ref<F: FnMut(&V)>(
        &self,
        prefix: K,
        f: &mut F,
    ) -> Result<(), TreeError>
    where
        K: Drop,
        requires callable { CanShow F.FnMut f.old (values_below (K.bytes prefix) self.now.pairs) }
        ensures stays_callable { F.IsAlwaysCallable f.old → F.IsAlwaysCallable f.new }
        ensures calls { OnOk result
            (ShowsEach F.FnMut f.old (values_below (K.bytes prefix) self.now.pairs) f.new) }
        ensures unchanged { OnErr result (f.new ≡ f.old) }
        ensures memory { IfErr result (MayLackMemory self.now.pairs) }
    {
        self.prefix_values_for_each_by_ref_k(&prefix, f)
    }

    /// Calls `f` as [`prefix_values_for_each_by_ref_k`](Self::prefix_values_for_each_by_ref_k) does, and drops it.
    ///
    /// # Errors
    ///
    /// [`TreeError::Memory`] if the tree isn't empty and the allocation for the walk fails. `f` is then not called.
    pub fn prefix_values_for_each_k<F: FnMut(&V) + Drop>(
        &self,
        prefix: &K,
        f: F,
    ) -> Result<(), TreeError>
        requires callable { CanShow F.FnMut f (values_below (K.bytes prefix.now) self.now.pairs) }
        ensures calls { OnOk result
            (ShowsEachByValue F.FnMut f (values_below (K.bytes prefix.now) self.now.pairs)) }
        ensures memory { IfErr result (MayLackMemory self.now.pairs) }
    {
        self.seen()
            .prefix_values_for_each_k_counted(prefix, f, &mut Visits::new())
    }

    /// Calls `f` as [`prefix_values_for_each_by_ref_k`](Self::prefix_values_for_each_by_ref_k) does, and drops it.
    ///
    /// # Errors
    ///
    /// [`TreeError::Memory`] if the tree isn't empty and the allocation for the walk fails. `f` is then not called.
    pub fn prefix_values_for_each<F: FnMut(&V) + Drop>(
        &self,
        prefix: K,
        f: F,
    ) -> Result<(), TreeError>
    where
        K: Drop,
        requires callable { CanShow F.FnMut f (values_below (K.bytes prefix) self.now.pairs) }
        ensures calls { OnOk result
            (ShowsEachByValue F.FnMut f (values_below (K.bytes prefix) self.now.pairs)) }
        ensures memory { IfErr result (MayLackMemory self.now.pairs) }
    {
        self.prefix_values_for_each_k(&prefix, f)
    }

    /// Folds the values of the pairs whose key begins with `prefix`, in order. The first call of `f` gets `init`,
    /// each later one the result of the call before it; returns the last result. The caller keeps `f`.
    ///
    /// # Errors
    ///
    /// [`TreeError::Memory`] if the tree isn't empty and the allocation for the walk fails. `f` is then not called.
    pub fn prefix_values_fold_by_ref_k<S: Drop, F: FnMut(S, &V) -> S>(
        &self,
        prefix: &K,
        init: S,
        f: &mut F,
    ) -> Result<S, TreeError>
        requires callable { CanFold F.FnMut f.old init
            (values_below (K.bytes prefix.now) self.now.pairs) }
        ensures stays_callable { F.IsAlwaysCallable f.old → F.IsAlwaysCallable f.new }
        ensures calls { IfOk result (λ state. FoldsEach F.FnMut f.old init
            (values_below (K.bytes prefix.now) self.now.pairs) f.new state) }
        ensures unchanged { OnErr result (f.new ≡ f.old) }
        ensures memory { IfErr result (MayLackMemory self.now.pairs) }
    {
        self.seen()
            .prefix_values_fold_by_ref_k_counted(prefix, init, f, &mut Visits::new())
    }

    /// Folds as [`prefix_values_fold_by_ref_k`](Self::prefix_values_fold_by_ref_k) does.
    ///
    /// # Errors
    ///
    /// [`TreeError::Memory`] if the tree isn't empty and the allocation for the walk fails. `f` is then not called.
    pub fn prefix_values_fold_by_ref<S: Drop, F: FnMut(S, &V) -> S>(
        &self,
        prefix: K,
        init: S,
        f: &mut F,
    ) -> Result<S, TreeError>
    where
        K: Drop,
        requires callable { CanFold F.FnMut f.old init
            (values_below (K.bytes prefix) self.now.pairs) }
        ensures stays_callable { F.IsAlwaysCallable f.old → F.IsAlwaysCallable f.new }
        ensures calls { IfOk result (λ state. FoldsEach F.FnMut f.old init
            (values_below (K.bytes prefix) self.now.pairs) f.new state) }
        ensures unchanged { OnErr result (f.new ≡ f.old) }
        ensures memory { IfErr result (MayLackMemory self.now.pairs) }
    {
        self.prefix_values_fold_by_ref_k(&prefix, init, f)
    }

    /// Folds as [`prefix_values_fold_by_ref_k`](Self::prefix_values_fold_by_ref_k) does, and drops `f`.
    ///
    /// # Errors
    ///
    /// [`TreeError::Memory`] if the tree isn't empty and the allocation for the walk fails. `f` is then not called.
    pub fn prefix_values_fold_k<S: Drop, F: FnMut(S, &V) -> S + Drop>(
        &self,
        prefix: &K,
        init: S,
        f: F,
    ) -> Result<S, TreeError>
        requires callable { CanFold F.FnMut f init
            (values_below (K.bytes prefix.now) self.now.pairs) }
        ensures calls { IfOk result
            (FoldsEachByValue F.FnMut f init (values_below (K.bytes prefix.now) self.now.pairs)) }
        ensures memory { IfErr result (MayLackMemory self.now.pairs) }
    {
        self.seen()
            .prefix_values_fold_k_counted(prefix, init, f, &mut Visits::new())
    }

    /// Folds as [`prefix_values_fold_by_ref_k`](Self::prefix_values_fold_by_ref_k) does, and drops `f`.
    ///
    /// # Errors
    ///
    /// [`TreeError::Memory`] if the tree isn't empty and the allocation for the walk fails. `f` is then not called.
    pub fn prefix_values_fold<S: Drop, F: FnMut(S, &V) -> S + Drop>(
        &self,
        prefix: K,
        init: S,
        f: F,
    ) -> Result<S, TreeError>
    where
        K: Drop,
        requires callable { CanFold F.FnMut f init (values_below (K.bytes prefix) self.now.pairs) }
        ensures calls { IfOk result
            (FoldsEachByValue F.FnMut f init (values_below (K.bytes prefix) self.now.pairs)) }
        ensures memory { IfErr result (MayLackMemory self.now.pairs) }
    {
        self.prefix_values_fold_k(&prefix, init, f)
    }

    /// Calls `f` with the value of each pair whose key begins with `prefix`, in order. `Stop` ends the walk with
    /// `Ok(())`. The caller keeps `f`.
    ///
    /// # Errors
    ///
    /// [`VisitError::Callback`] with the error that `f` returned, which ends the walk. [`VisitError::Memory`] if the
    /// tree isn't empty and the allocation for the walk fails; `f` is then not called.
    pub fn try_prefix_values_for_each_by_ref_k<E, F: FnMut(&V) -> Result<VisitControl, E>>(
        &self,
        prefix: &K,
        f: &mut F,
    ) -> Result<(), VisitError<E>>
        requires callable { CanTry F.FnMut f.old
            (values_below (K.bytes prefix.now) self.now.pairs) }
        ensures stays_callable { F.IsAlwaysCallable f.old → F.IsAlwaysCallable f.new }
        ensures calls { EndsVisit F.FnMut f.old
            (values_below (K.bytes prefix.now) self.now.pairs) result f.new }
        ensures memory { IfErr result (MayStopForMemory self.now.pairs) }
    {
        self.seen()
            .try_prefix_values_for_each_by_ref_k_counted(prefix, f, &mut Visits::new())
    }

    /// Calls `f` as [`try_prefix_values_for_each_by_ref_k`](Self::try_prefix_values_for_each_by_ref_k) does.
    ///
    /// # Errors
    ///
    /// Those of `try_prefix_values_for_each_by_ref_k`.
    pub fn try_prefix_values_for_each_by_ref<E, F: FnMut(&V) -> Result<VisitControl, E>>(
        &self,
        prefix: K,
        f: &mut F,
    ) -> Result<(), VisitError<E>>
    where
        K: Drop,
        requires callable { CanTry F.FnMut f.old (values_below (K.bytes prefix) self.now.pairs) }
        ensures stays_callable { F.IsAlwaysCallable f.old → F.IsAlwaysCallable f.new }
        ensures calls { EndsVisit F.FnMut f.old
            (values_below (K.bytes prefix) self.now.pairs) result f.new }
        ensures memory { IfErr result (MayStopForMemory self.now.pairs) }
    {
        self.try_prefix_values_for_each_by_ref_k(&prefix, f)
    }

    /// Calls `f` as [`try_prefix_values_for_each_by_ref_k`](Self::try_prefix_values_for_each_by_ref_k) does, and drops
    /// it.
    ///
    /// # Errors
    ///
    /// Those of `try_prefix_values_for_each_by_ref_k`.
    pub fn try_prefix_values_for_each_k<E, F: FnMut(&V) -> Result<VisitControl, E> + Drop>(
        &self,
        prefix: &K,
        f: F,
    ) -> Result<(), VisitError<E>>
        requires callable { CanTry F.FnMut f (values_below (K.bytes prefix.now) self.now.pairs) }
        ensures calls { EndsVisitByValue F.FnMut f
            (values_below (K.bytes prefix.now) self.now.pairs) result }
        ensures memory { IfErr result (MayStopForMemory self.now.pairs) }
    {
        self.seen()
            .try_prefix_values_for_each_k_counted(prefix, f, &mut Visits::new())
    }

    /// Calls `f` as [`try_prefix_values_for_each_by_ref_k`](Self::try_prefix_values_for_each_by_ref_k) does, and drops
    /// it.
    ///
    /// # Errors
    ///
    /// Those of `try_prefix_values_for_each_by_ref_k`.
    pub fn try_prefix_values_for_each<E, F: FnMut(&V) -> Result<VisitControl, E> + Drop>(
        &self,
        prefix: K,
        f: F,
    ) -> Result<(), VisitError<E>>
    where
        K: Drop,
        requires callable { CanTry F.FnMut f (values_below (K.bytes prefix) self.now.pairs) }
        ensures calls { EndsVisitByValue F.FnMut f
            (values_below (K.bytes prefix) self.now.pairs) result }
        ensures memory { IfErr result (MayStopForMemory self.now.pairs) }
    {
        self.try_prefix_values_for_each_k(&prefix, f)
    }
}
