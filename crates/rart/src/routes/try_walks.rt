//! Walks over routes with a callback that can end them.
ghost use Rattle.std.specs.Prelude.{IfErr};
ghost use Rattle.rart_keys.specs.Filters.{matches};
ghost use Rattle.rart_trie.specs.walks.BelowPrefix.{cut_below};
ghost use Rattle.rart_nodes.specs.walks.Tried.{MayStopForMemory};
ghost use Rattle.rart_nodes.specs.walks.TriedMatches.{CanTryMatch, EndsMatches, EndsMatchesByValue};
ghost use Rattle.rart_nodes.specs.walks.TriedViews.{CanTryView, EndsViewVisit, EndsViewVisitByValue};

use crate::routes::RouteTable;
use rart_keys::KeyTrait;
use rart_nodes::{LendingKeyView, VisitControl, VisitError};

impl<K: KeyTrait, T> RouteTable<K, T> {
    /// Calls `f` with each route whose prefix begins the bytes `probe`, which may be longer than any key, the shortest
    /// first. The prefix is borrowed from the probe: its first bytes, nothing is copied. `Stop` ends the walk with
    /// `Ok(())`. Allocates nothing. The caller keeps `f`.
    ///
    /// # Errors
    ///
    /// The error that `f` returned, which ends the walk.
    pub fn try_covering_for_each_by_ref_bytes<E, F: FnMut(&[u8], &T) -> Result<VisitControl, E>>(
        &self,
        probe: &[u8],
        f: &mut F,
    ) -> Result<(), E>
        requires callable { CanTryMatch F.FnMut f.old (matches probe.now self.now.pairs) }
        ensures stays_callable { F.IsAlwaysCallable f.old → F.IsAlwaysCallable f.new }
        ensures calls { EndsMatches F.FnMut f.old (matches probe.now self.now.pairs)
            result f.new }
    {
        self.routes.try_prefix_match_for_each_by_ref_bytes(probe, f)
    }

    /// Calls `f` as [`try_covering_for_each_by_ref_bytes`](Self::try_covering_for_each_by_ref_bytes) does, and drops
    /// it.
    ///
    /// # Errors
    ///
    /// The error that `f` returned, which ends the walk.
    pub fn try_covering_for_each_bytes<E, F: FnMut(&[u8], &T) -> Result<VisitControl, E> + Drop>(
        &self,
        probe: &[u8],
        f: F,
    ) -> Result<(), E>
        requires callable { CanTryMatch F.FnMut f (matches probe.now self.now.pairs) }
        ensures { EndsMatchesByValue F.FnMut f (matches probe.now self.now.pairs) result }
    {
        self.routes.try_prefix_match_for_each_bytes(probe, f)
    }

    /// Calls `f` as [`try_covering_for_each_by_ref_bytes`](Self::try_covering_for_each_by_ref_bytes) does, with the
    /// bytes of `probe`.
    ///
    /// # Errors
    ///
    /// The error that `f` returned, which ends the walk.
    pub fn try_covering_for_each_by_ref<E, F: FnMut(&[u8], &T) -> Result<VisitControl, E>>(
        &self,
        probe: &K,
        f: &mut F,
    ) -> Result<(), E>
        requires callable { CanTryMatch F.FnMut f.old
            (matches (K.bytes probe.now) self.now.pairs) }
        ensures stays_callable { F.IsAlwaysCallable f.old → F.IsAlwaysCallable f.new }
        ensures calls { EndsMatches F.FnMut f.old (matches (K.bytes probe.now) self.now.pairs)
            result f.new }
    {
        self.routes.try_prefix_match_for_each_by_ref_k(probe, f)
    }

    /// Calls `f` as [`try_covering_for_each_by_ref`](Self::try_covering_for_each_by_ref) does, and drops it.
    ///
    /// # Errors
    ///
    /// The error that `f` returned, which ends the walk.
    pub fn try_covering_for_each<E, F: FnMut(&[u8], &T) -> Result<VisitControl, E> + Drop>(
        &self,
        probe: &K,
        f: F,
    ) -> Result<(), E>
        requires callable { CanTryMatch F.FnMut f (matches (K.bytes probe.now) self.now.pairs) }
        ensures { EndsMatchesByValue F.FnMut f
            (matches (K.bytes probe.now) self.now.pairs) result }
    {
        self.routes.try_prefix_match_for_each_k(probe, f)
    }

    /// Calls `f` with a view of each prefix that begins with `prefix` and with its target, in order. `Stop` ends the
    /// walk with `Ok(())`. The caller keeps `f`.
    ///
    /// # Errors
    ///
    /// [`VisitError::Callback`] with the error that `f` returned, which ends the walk. [`VisitError::Memory`] if the
    /// table isn't empty and the allocation for the walk fails; `f` is then not called.
    pub fn try_below_for_each_by_ref<
        E,
        F: FnMut(LendingKeyView<'_, '_>, &T) -> Result<VisitControl, E>,
    >(&self, prefix: &K, f: &mut F) -> Result<(), VisitError<E>>
        requires callable { CanTryView F.FnMut f.old
            (cut_below (K.bytes prefix.now) self.now.pairs) }
        ensures stays_callable { F.IsAlwaysCallable f.old → F.IsAlwaysCallable f.new }
        ensures calls { EndsViewVisit F.FnMut f.old
            (cut_below (K.bytes prefix.now) self.now.pairs) result f.new }
        ensures memory { IfErr result (MayStopForMemory self.now.pairs) }
    {
        self.routes.try_prefix_for_each_view_by_ref_k(prefix, f)
    }

    /// Calls `f` as [`try_below_for_each_by_ref`](Self::try_below_for_each_by_ref) does, and drops it.
    ///
    /// # Errors
    ///
    /// Those of [`try_below_for_each_by_ref`](Self::try_below_for_each_by_ref).
    pub fn try_below_for_each<
        E,
        F: FnMut(LendingKeyView<'_, '_>, &T) -> Result<VisitControl, E> + Drop,
    >(&self, prefix: &K, f: F) -> Result<(), VisitError<E>>
        requires callable { CanTryView F.FnMut f
            (cut_below (K.bytes prefix.now) self.now.pairs) }
        ensures calls { EndsViewVisitByValue F.FnMut f
            (cut_below (K.bytes prefix.now) self.now.pairs) result }
        ensures memory { IfErr result (MayStopForMemory self.now.pairs) }
    {
        self.routes.try_prefix_for_each_view_k(prefix, f)
    }
}
