//! The longest key that begins a probe, lent in segments to one call.
ghost use Rattle.std.specs.Prelude.{◌≡◌, ◌≤◌, ◌+◌, ◌*◌, [], ◌∷◌, IfErr, IfOk, IfSome, OnErr, OnOk, length};
ghost use Rattle.std.specs.Prelude.{vec_capacity};
ghost use Rattle.rart_keys.specs.Filters.{longest_match};
ghost use Rattle.rart_nodes.specs.tries.SeenTrees.{length_bound, seen_keys, seen_pairs};
ghost use Rattle.rart_trie.specs.walks.BelowPrefix.{MayLackMatch, match_visits};
ghost use Rattle.rart_nodes.specs.walks.PathParts.{lent_segments};
ghost use Rattle.rart_trie.specs.walks.ProbeCount.{probe_count};
ghost use Rattle.rart_nodes.specs.walks.ViewSegments.{AreViews};
ghost use Rattle.rart_nodes.specs.walks.Viewed.{CanSeeFound, CanShowFound, IsCutOf, SeesFound, ShowsFound};

use crate::node::calls::matching::probe_start;
use crate::node::path_walk::path::SegmentPath;
use crate::node::seen::Seen;
use crate::node::view::LendingKeyView;
use rart_keys::KeyTrait;
use rart_parts::TreeError;
use rart_trie::Count;

impl<'a, K: KeyTrait, V, C: Count> Seen<'a, K, V, C> {
    /// Returns the segments and the value of the longest key that begins `probe`. It fails only if there is one.
    fn longest_path(
        self,
        probe: &[u8],
        counter: &mut C,
    ) -> Result<Option<(SegmentPath<'a>, &'a V)>, TreeError>
        ensures found { IfOk result (IsCutOf (seen_keys self.entry)
            (longest_match probe.now (seen_pairs self.entry))) }
        ensures views { IfOk result (λ r. IfSome r
            (λ p. AreViews ((lent_segments p.0.segments.items, p.1.now) ∷ []))) }
        ensures requested { IfOk result (λ r. IfSome r
            (λ p. vec_capacity p.0.segments ≤ length_bound self.entry)) }
        ensures memory { IfErr result (MayLackMatch probe.now (seen_pairs self.entry)) }
        ensures looked_up { OnErr result (C.number counter.new
            ≡ C.number counter.old + probe_count (seen_keys self.entry) probe.now) }
        ensures visits { OnOk result (C.number counter.new
            ≤ C.number counter.old + match_visits probe.now (seen_pairs self.entry)) }
        ensures bound { C.number counter.new ≤ C.number counter.old + 3 * length probe.now + 2 }
    {
        let Some((depth, _)) = self.longest_prefix_len_bytes_counted(probe, counter) else {
            return Ok(None);
        };
        let key = probe_start(probe, depth);
        let (mut walk, mut path) = self.walk_below::<SegmentPath<'a>>(key, counter)?;
        let Some(value) = walk.advance(&mut path, counter) else {
            unreachable!()
        };
        Ok(Some((path, value)))
    }

    /// Calls `f` once with a view of the longest key that begins the bytes `probe`, which may be longer than any key,
    /// cut at the branch points, and with its value. Returns whether there is such a key. `f` must be callable with
    /// that key. The caller keeps `f`.
    ///
    /// # Errors
    ///
    /// [`TreeError::Memory`] if there is such a key and the allocation for its segments fails. Only the look-up has
    /// then visited nodes, and `f` is not called.
    ///
    /// # Visits
    ///
    /// At most `3 * probe.len() + 2` nodes.
    pub fn with_longest_prefix_match_view_by_ref_bytes_counted<
        F: FnMut(LendingKeyView<'_, '_>, &V),
    >(self, probe: &[u8], f: &mut F, counter: &mut C) -> Result<bool, TreeError>
        requires callable { CanShowFound F.FnMut f.old (seen_keys self)
            (longest_match probe.now (seen_pairs self)) }
        ensures stays_callable { F.IsAlwaysCallable f.old → F.IsAlwaysCallable f.new }
        ensures calls { IfOk result (ShowsFound F.FnMut f.old (seen_keys self.entry)
            (longest_match probe.now (seen_pairs self.entry)) f.new) }
        ensures unchanged { OnErr result (f.new ≡ f.old) }
        ensures memory { IfErr result (MayLackMatch probe.now (seen_pairs self.entry)) }
        ensures looked_up { OnErr result (C.number counter.new
            ≡ C.number counter.old + probe_count (seen_keys self.entry) probe.now) }
        ensures visits { OnOk result (C.number counter.new ≤ C.number counter.old
            + match_visits probe.now (seen_pairs self.entry)) }
        ensures bound { C.number counter.new
            ≤ C.number counter.old + 3 * length probe.now + 2 }
    {
        let Some((path, value)) = self.longest_path(probe, counter)? else {
            return Ok(false);
        };
        f(LendingKeyView::of(path.segments()), value);
        Ok(true)
    }

    /// Calls `f` as `with_longest_prefix_match_view_by_ref_bytes_counted` does, and consumes it.
    ///
    /// # Errors
    ///
    /// [`TreeError::Memory`] if there is such a key and the allocation for its segments fails. `f` is then not called.
    ///
    /// # Visits
    ///
    /// At most `3 * probe.len() + 2` nodes.
    pub fn with_longest_prefix_match_view_bytes_counted<
        F: FnOnce(LendingKeyView<'_, '_>, &V) + Drop,
    >(self, probe: &[u8], f: F, counter: &mut C) -> Result<bool, TreeError>
        requires callable { CanSeeFound F.FnOnce f (seen_keys self)
            (longest_match probe.now (seen_pairs self)) }
        ensures calls { IfOk result (SeesFound F.FnOnce f (seen_keys self.entry)
            (longest_match probe.now (seen_pairs self.entry))) }
        ensures memory { IfErr result (MayLackMatch probe.now (seen_pairs self.entry)) }
        ensures looked_up { OnErr result (C.number counter.new
            ≡ C.number counter.old + probe_count (seen_keys self.entry) probe.now) }
        ensures visits { OnOk result (C.number counter.new ≤ C.number counter.old
            + match_visits probe.now (seen_pairs self.entry)) }
        ensures bound { C.number counter.new
            ≤ C.number counter.old + 3 * length probe.now + 2 }
    {
        // as above, since an `FnOnce` can't be called through a reference
        let Some((path, value)) = self.longest_path(probe, counter)? else {
            return Ok(false);
        };
        f(LendingKeyView::of(path.segments()), value);
        Ok(true)
    }

    /// Calls `f` once with a view of the longest key that begins `probe`, cut at the branch points, and with its value.
    /// Returns whether there is such a key. `f` must be callable with that key. The caller keeps `f`.
    ///
    /// # Errors
    ///
    /// [`TreeError::Memory`] if there is such a key and the allocation for its segments fails. Only the look-up has
    /// then visited nodes, and `f` is not called.
    ///
    /// # Visits
    ///
    /// At most `3 * probe.len() + 2` nodes.
    pub fn with_longest_prefix_match_view_by_ref_k_counted<F: FnMut(LendingKeyView<'_, '_>, &V)>(
        self,
        probe: &K,
        f: &mut F,
        counter: &mut C,
    ) -> Result<bool, TreeError>
        requires callable { CanShowFound F.FnMut f.old (seen_keys self)
            (longest_match (K.bytes probe.now) (seen_pairs self)) }
        ensures stays_callable { F.IsAlwaysCallable f.old → F.IsAlwaysCallable f.new }
        ensures calls { IfOk result (ShowsFound F.FnMut f.old (seen_keys self.entry)
            (longest_match (K.bytes probe.now) (seen_pairs self.entry)) f.new) }
        ensures unchanged { OnErr result (f.new ≡ f.old) }
        ensures memory { IfErr result (MayLackMatch (K.bytes probe.now) (seen_pairs self.entry)) }
        ensures looked_up { OnErr result (C.number counter.new
            ≡ C.number counter.old + probe_count (seen_keys self.entry) (K.bytes probe.now)) }
        ensures visits { OnOk result (C.number counter.new ≤ C.number counter.old
            + match_visits (K.bytes probe.now) (seen_pairs self.entry)) }
        ensures bound { C.number counter.new
            ≤ C.number counter.old + 3 * length (K.bytes probe.now) + 2 }
    {
        self.with_longest_prefix_match_view_by_ref_bytes_counted(probe.as_ref(), f, counter)
    }

    /// Calls `f` as
    /// [`with_longest_prefix_match_view_by_ref_k_counted`](Self::with_longest_prefix_match_view_by_ref_k_counted) does,
    /// and consumes it.
    ///
    /// # Errors
    ///
    /// [`TreeError::Memory`] if there is such a key and the allocation for its segments fails. `f` is then not called.
    ///
    /// # Visits
    ///
    /// At most `3 * probe.len() + 2` nodes.
    pub fn with_longest_prefix_match_view_k_counted<F: FnOnce(LendingKeyView<'_, '_>, &V) + Drop>(
        self,
        probe: &K,
        f: F,
        counter: &mut C,
    ) -> Result<bool, TreeError>
        requires callable { CanSeeFound F.FnOnce f (seen_keys self)
            (longest_match (K.bytes probe.now) (seen_pairs self)) }
        ensures calls { IfOk result (SeesFound F.FnOnce f (seen_keys self.entry)
            (longest_match (K.bytes probe.now) (seen_pairs self.entry))) }
        ensures memory { IfErr result (MayLackMatch (K.bytes probe.now) (seen_pairs self.entry)) }
        ensures looked_up { OnErr result (C.number counter.new
            ≡ C.number counter.old + probe_count (seen_keys self.entry) (K.bytes probe.now)) }
        ensures visits { OnOk result (C.number counter.new ≤ C.number counter.old
            + match_visits (K.bytes probe.now) (seen_pairs self.entry)) }
        ensures bound { C.number counter.new
            ≤ C.number counter.old + 3 * length (K.bytes probe.now) + 2 }
    {
        self.with_longest_prefix_match_view_bytes_counted(probe.as_ref(), f, counter)
    }
}
