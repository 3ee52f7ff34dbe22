//! Walks over the pairs whose key begins a probe, with a callback that can end them.
ghost use Rattle.rart_keys.specs.Filters.{matches};
ghost use Rattle.rart_nodes.specs.walks.TriedMatches.{CanTryMatch, EndsMatches, EndsMatchesByValue};

use crate::tree::AdaptiveRadixTree;
use rart_keys::KeyTrait;
use rart_nodes::{VisitControl, Visits};

impl<K: KeyTrait, V> AdaptiveRadixTree<K, V> {
    /// Calls `f` with each pair whose key begins the bytes `probe`, which may be longer than any key, the shortest
    /// first. The key is borrowed from the probe: its first bytes, nothing is copied. `Stop` ends the walk with
    /// `Ok(())`. Allocates nothing. The caller keeps `f`.
    ///
    /// # Errors
    ///
    /// The error that `f` returned, which ends the walk.
    pub fn try_prefix_match_for_each_by_ref_bytes<
        E,
        F: FnMut(&[u8], &V) -> Result<VisitControl, E>,
    >(&self, probe: &[u8], f: &mut F) -> Result<(), E>
        requires callable { CanTryMatch F.FnMut f.old (matches probe.now self.now.pairs) }
        ensures stays_callable { F.IsAlwaysCallable f.old → F.IsAlwaysCallable f.new }
        ensures calls { EndsMatches F.FnMut f.old (matches probe.now self.now.pairs)
            result f.new }
    {
        self.seen()
            .try_prefix_match_for_each_by_ref_bytes_counted(probe, f, &mut Visits::new())
    }

    /// Calls `f` as [`try_prefix_match_for_each_by_ref_bytes`](Self::try_prefix_match_for_each_by_ref_bytes) does, and
    /// drops it.
    ///
    /// # Errors
    ///
    /// The error that `f` returned, which ends the walk.
    pub fn try_prefix_match_for_each_bytes<
        E,
        F: FnMut(&[u8], &V) -> Result<VisitControl, E> + Drop,
    >(&self, probe: &[u8], mut f: F) -> Result<(), E>
        requires callable { CanTryMatch F.FnMut f (matches probe.now self.now.pairs) }
        ensures { EndsMatchesByValue F.FnMut f (matches probe.now self.now.pairs) result }
    {
        self.try_prefix_match_for_each_by_ref_bytes(probe, &mut f)
    }

    /// Calls `f` as [`try_prefix_match_for_each_by_ref_bytes`](Self::try_prefix_match_for_each_by_ref_bytes) does, with
    /// the bytes of `probe`.
    ///
    /// # Errors
    ///
    /// The error that `f` returned, which ends the walk.
    pub fn try_prefix_match_for_each_by_ref_k<E, F: FnMut(&[u8], &V) -> Result<VisitControl, E>>(
        &self,
        probe: &K,
        f: &mut F,
    ) -> Result<(), E>
        requires callable { CanTryMatch F.FnMut f.old
            (matches (K.bytes probe.now) self.now.pairs) }
        ensures stays_callable { F.IsAlwaysCallable f.old → F.IsAlwaysCallable f.new }
        ensures calls { EndsMatches F.FnMut f.old (matches (K.bytes probe.now) self.now.pairs)
            result f.new }
    {
        self.seen()
            .try_prefix_match_for_each_by_ref_k_counted(probe, f, &mut Visits::new())
    }

    /// Calls `f` as [`try_prefix_match_for_each_by_ref_k`](Self::try_prefix_match_for_each_by_ref_k) does, and drops
    /// it.
    ///
    /// # Errors
    ///
    /// The error that `f` returned, which ends the walk.
    pub fn try_prefix_match_for_each_k<E, F: FnMut(&[u8], &V) -> Result<VisitControl, E> + Drop>(
        &self,
        probe: &K,
        mut f: F,
    ) -> Result<(), E>
        requires callable { CanTryMatch F.FnMut f (matches (K.bytes probe.now) self.now.pairs) }
        ensures { EndsMatchesByValue F.FnMut f
            (matches (K.bytes probe.now) self.now.pairs) result }
    {
        self.try_prefix_match_for_each_by_ref_k(probe, &mut f)
    }

    /// Calls `f` as [`try_prefix_match_for_each_by_ref_k`](Self::try_prefix_match_for_each_by_ref_k) does.
    ///
    /// # Errors
    ///
    /// The error that `f` returned, which ends the walk.
    pub fn try_prefix_match_for_each_by_ref<E, F: FnMut(&[u8], &V) -> Result<VisitControl, E>>(
        &self,
        probe: K,
        f: &mut F,
    ) -> Result<(), E>
    where
        K: Drop,
        requires callable { CanTryMatch F.FnMut f.old (matches (K.bytes probe) self.now.pairs) }
        ensures stays_callable { F.IsAlwaysCallable f.old → F.IsAlwaysCallable f.new }
        ensures calls { EndsMatches F.FnMut f.old (matches (K.bytes probe) self.now.pairs)
            result f.new }
    {
        self.try_prefix_match_for_each_by_ref_k(&probe, f)
    }

    /// Calls `f` as [`try_prefix_match_for_each_by_ref_k`](Self::try_prefix_match_for_each_by_ref_k) does, and drops
    /// it.
    ///
    /// # Errors
    ///
    /// The error that `f` returned, which ends the walk.
    pub fn try_prefix_match_for_each<E, F: FnMut(&[u8], &V) -> Result<VisitControl, E> + Drop>(
        &self,
        probe: K,
        f: F,
    ) -> Result<(), E>
    where
        K: Drop,
        requires callable { CanTryMatch F.FnMut f (matches (K.bytes probe) self.now.pairs) }
        ensures { EndsMatchesByValue F.FnMut f (matches (K.bytes probe) self.now.pairs) result }
    {
        self.try_prefix_match_for_each_k(&probe, f)
    }
}
