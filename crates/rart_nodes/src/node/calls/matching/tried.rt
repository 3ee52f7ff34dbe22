//! Walks over the keys that begin a probe, with a callback that can end them.
ghost use Rattle.std.specs.Prelude.{◌≡◌, ◌≤◌, ◌+◌, length};
ghost use Rattle.rart_keys.specs.Filters.{matches};
ghost use Rattle.rart_nodes.specs.tries.SeenTrees.{seen_keys, seen_pairs};
ghost use Rattle.rart_nodes.specs.walks.TriedMatches.{CanTryMatch, EndsMatches, EndsMatchesSo};
ghost use Rattle.rart_trie.specs.walks.ProbeCount.{probe_count};

use crate::node::calls::matching::probe_start;
use crate::node::control::VisitControl;
use crate::node::seen::Seen;
use rart_keys::KeyTrait;
use rart_trie::Count;

impl<'a, K: KeyTrait, V, C: Count> Seen<'a, K, V, C> {
    /// Calls `f` with each pair whose key begins `probe`, which may be longer than any key, the shortest first. The key
    /// is borrowed from the probe: its first bytes. `Stop` ends the walk with `Ok(())`. `f` must be callable with each
    /// of these in turn for as long as it returns `Continue`. The caller keeps `f`.
    ///
    /// # Errors
    ///
    /// The error that `f` returned, which ends the walk.
    ///
    /// # Visits
    ///
    /// Those of a look-up of the key at which `f` ends the walk, else those of a look-up of `probe`: at most
    /// `probe.len() + 1` nodes.
    pub fn try_prefix_match_for_each_by_ref_bytes_counted<
        E,
        F: FnMut(&[u8], &V) -> Result<VisitControl, E>,
    >(self, probe: &[u8], f: &mut F, counter: &mut C) -> Result<(), E>
        requires callable { CanTryMatch F.FnMut f.old (matches probe.now (seen_pairs self)) }
        ensures stays_callable { F.IsAlwaysCallable f.old → F.IsAlwaysCallable f.new }
        ensures calls { EndsMatches F.FnMut f.old
            (matches probe.now (seen_pairs self.entry)) result f.new }
        ensures visits { C.number counter.new ≤ C.number counter.old
            + probe_count (seen_keys self.entry) probe.now }
        ensures bound { C.number counter.new ≤ C.number counter.old + length probe.now + 1 }
        ensures by_key { EndsMatchesSo F.FnMut f.old (matches probe.now (seen_pairs self.entry))
            result f.new (λ k. C.number counter.new
            ≡ C.number counter.old + probe_count (seen_keys self.entry) k) }
    {
        let mut matching = self.matching();
        while let Some(value) = matching.advance(probe, counter) {
            match f(probe_start(probe, matching.depth), value) {
                Ok(VisitControl::Continue) => {}
                Ok(VisitControl::Stop) => return Ok(()),
                Err(error) => return Err(error),
            }
        }
        Ok(())
    }

    /// Calls `f` as
    /// [`try_prefix_match_for_each_by_ref_bytes_counted`](Self::try_prefix_match_for_each_by_ref_bytes_counted) does,
    /// with the bytes of `probe`.
    ///
    /// # Errors
    ///
    /// The error that `f` returned, which ends the walk.
    ///
    /// # Visits
    ///
    /// Those of a look-up of the key at which `f` ends the walk, else those of a look-up of `probe`: at most
    /// `probe.len() + 1` nodes.
    pub fn try_prefix_match_for_each_by_ref_k_counted<
        E,
        F: FnMut(&[u8], &V) -> Result<VisitControl, E>,
    >(self, probe: &K, f: &mut F, counter: &mut C) -> Result<(), E>
        requires callable { CanTryMatch F.FnMut f.old
            (matches (K.bytes probe.now) (seen_pairs self)) }
        ensures stays_callable { F.IsAlwaysCallable f.old → F.IsAlwaysCallable f.new }
        ensures calls { EndsMatches F.FnMut f.old
            (matches (K.bytes probe.now) (seen_pairs self.entry)) result f.new }
        ensures visits { C.number counter.new
            ≤ C.number counter.old + probe_count (seen_keys self.entry) (K.bytes probe.now) }
        ensures bound { C.number counter.new
            ≤ C.number counter.old + length (K.bytes probe.now) + 1 }
        ensures by_key { EndsMatchesSo F.FnMut f.old
            (matches (K.bytes probe.now) (seen_pairs self.entry)) result f.new
            (λ k. C.number counter.new
            ≡ C.number counter.old + probe_count (seen_keys self.entry) k) }
    {
        self.try_prefix_match_for_each_by_ref_bytes_counted(probe.as_ref(), f, counter)
    }
}
