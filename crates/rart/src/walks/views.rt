//! Walks that lend each key in segments, cut at the branch points: no byte of a key is copied.
ghost use Rattle.std.specs.Prelude.{◌≡◌, IfErr, IfOk, OnErr, OnOk};
ghost use Rattle.rart_keys.specs.Filters.{longest_match};
ghost use Rattle.rart_keys.specs.Ranges.{bound_in};
ghost use Rattle.rart_keys.specs.SortedMap.{keys_of};
ghost use Rattle.rart_nodes.specs.ranges.Spans.{cut_between};
ghost use Rattle.rart_trie.specs.walks.BelowPrefix.{MayLackMatch, cut_below};
ghost use Rattle.rart_trie.specs.walks.Cut.{cut_pairs};
ghost use Rattle.rart_nodes.specs.walks.Viewed.{CanSeeFound, CanShowFound, CanView, SeesFound, ShowsFound};
ghost use Rattle.rart_nodes.specs.walks.Viewed.{ViewsEachByValue};
ghost use Rattle.rart_nodes.specs.walks.Viewed.{ViewsEach};
ghost use Rattle.rart_trie.specs.walks.Calls.{MayLackMemory};

use crate::tree::AdaptiveRadixTree;
use rart_keys::KeyTrait;
use rart_nodes::{LendingKeyView, Visits};
use rart_parts::TreeError;
use std::ops::Bound;

impl<K: KeyTrait, V> AdaptiveRadixTree<K, V> {
    /// Calls `f` with a view of each key and with its value, in order. The caller keeps `f`.
    ///
    /// # Errors
    ///
    /// [`TreeError::Memory`] if the tree isn't empty and the allocation for the walk fails. `f` is then not called.
    pub fn for_each_view_by_ref<F: FnMut(LendingKeyView<'_, '_>, &V)>(
        &self,
        f: &mut F,
    ) -> Result<(), TreeError>
        requires callable { CanView F.FnMut f.old
            (cut_pairs (keys_of self.now.pairs) self.now.pairs) }
        ensures stays_callable { F.IsAlwaysCallable f.old → F.IsAlwaysCallable f.new }
        ensures calls { OnOk result (ViewsEach F.FnMut f.old
            (cut_pairs (keys_of self.now.pairs) self.now.pairs) f.new) }
        ensures unchanged { OnErr result (f.new ≡ f.old) }
        ensures memory { IfErr result (MayLackMemory self.now.pairs) }
    {
        self.seen()
            .for_each_view_by_ref_counted(f, &mut Visits::new())
    }

    /// Calls `f` as [`for_each_view_by_ref`](Self::for_each_view_by_ref) does, and drops it.
    ///
    /// # Errors
    ///
    /// [`TreeError::Memory`] if the tree isn't empty and the allocation for the walk fails.
    pub fn for_each_view<F: FnMut(LendingKeyView<'_, '_>, &V) + Drop>(
        &self,
        f: F,
    ) -> Result<(), TreeError>
        requires callable { CanView F.FnMut f (cut_pairs (keys_of self.now.pairs) self.now.pairs) }
        ensures calls { OnOk result (ViewsEachByValue F.FnMut f
            (cut_pairs (keys_of self.now.pairs) self.now.pairs)) }
        ensures memory { IfErr result (MayLackMemory self.now.pairs) }
    {
        self.seen().for_each_view_counted(f, &mut Visits::new())
    }

    /// Calls `f` with a view of each key that begins with `prefix` and with its value, in order. The caller keeps `f`.
    ///
    /// # Errors
    ///
    /// [`TreeError::Memory`] if the tree isn't empty and the allocation for the walk fails. `f` is then not called.
    pub fn prefix_for_each_view_by_ref_k<F: FnMut(LendingKeyView<'_, '_>, &V)>(
        &self,
        prefix: &K,
        f: &mut F,
    ) -> Result<(), TreeError>
        requires callable { CanView F.FnMut f.old (cut_below (K.bytes prefix.now) self.now.pairs) }
        ensures stays_callable { F.IsAlwaysCallable f.old → F.IsAlwaysCallable f.new }
        ensures calls { OnOk result (ViewsEach F.FnMut f.old
            (cut_below (K.bytes prefix.now) self.now.pairs) f.new) }
        ensures unchanged { OnErr result (f.new ≡ f.old) }
        ensures memory { IfErr result (MayLackMemory self.now.pairs) }
    {
        self.seen()
            .prefix_for_each_view_by_ref_k_counted(prefix, f, &mut Visits::new())
    }

    /// Calls `f` as [`prefix_for_each_view_by_ref_k`](Self::prefix_for_each_view_by_ref_k) does.
    ///
    /// # Errors
    ///
    /// Those of `prefix_for_each_view_by_ref_k`. `f` is then not called.
    pub fn prefix_for_each_view_by_ref<F: FnMut(LendingKeyView<'_, '_>, &V)>(
        &self,
        prefix: K,
        f: &mut F,
    ) -> Result<(), TreeError>
    where
        K: Drop,
        requires callable { CanView F.FnMut f.old (cut_below (K.bytes prefix) self.now.pairs) }
        ensures stays_callable { F.IsAlwaysCallable f.old → F.IsAlwaysCallable f.new }
        ensures calls { OnOk result (ViewsEach F.FnMut f.old
            (cut_below (K.bytes prefix) self.now.pairs) f.new) }
        ensures unchanged { OnErr result (f.new ≡ f.old) }
        ensures memory { IfErr result (MayLackMemory self.now.pairs) }
    {
        self.prefix_for_each_view_by_ref_k(&prefix, f)
    }

    /// Calls `f` as [`prefix_for_each_view_by_ref_k`](Self::prefix_for_each_view_by_ref_k) does, and drops it.
    ///
    /// # Errors
    ///
    /// Those of `prefix_for_each_view_by_ref_k`.
    pub fn prefix_for_each_view_k<F: FnMut(LendingKeyView<'_, '_>, &V) + Drop>(
        &self,
        prefix: &K,
        f: F,
    ) -> Result<(), TreeError>
        requires callable { CanView F.FnMut f (cut_below (K.bytes prefix.now) self.now.pairs) }
        ensures calls { OnOk result (ViewsEachByValue F.FnMut f
            (cut_below (K.bytes prefix.now) self.now.pairs)) }
        ensures memory { IfErr result (MayLackMemory self.now.pairs) }
    {
        self.seen()
            .prefix_for_each_view_k_counted(prefix, f, &mut Visits::new())
    }

    /// Calls `f` as [`prefix_for_each_view_by_ref_k`](Self::prefix_for_each_view_by_ref_k) does, and drops it.
    ///
    /// # Errors
    ///
    /// Those of `prefix_for_each_view_by_ref_k`.
    pub fn prefix_for_each_view<F: FnMut(LendingKeyView<'_, '_>, &V) + Drop>(
        &self,
        prefix: K,
        f: F,
    ) -> Result<(), TreeError>
    where
        K: Drop,
        requires callable { CanView F.FnMut f (cut_below (K.bytes prefix) self.now.pairs) }
        ensures calls { OnOk result (ViewsEachByValue F.FnMut f
            (cut_below (K.bytes prefix) self.now.pairs)) }
        ensures memory { IfErr result (MayLackMemory self.now.pairs) }
    {
        self.prefix_for_each_view_k(&prefix, f)
    }

    /// Calls `f` with a view of each key within two bounds and with its value, in order; with none if the end is
    /// below the start. The caller keeps `f`.
    ///
    /// # Errors
    ///
    /// [`TreeError::Memory`] if the tree isn't empty and the allocation for the walk fails. `f` is then not called.
    pub fn for_each_range_view_by_ref<F: FnMut(LendingKeyView<'_, '_>, &V)>(
        &self,
        start: Bound<K>,
        end: Bound<K>,
        f: &mut F,
    ) -> Result<(), TreeError>
    where
        K: Drop,
        requires callable { CanView F.FnMut f.old
            (cut_between (bound_in K.bytes start) (bound_in K.bytes end) self.now.pairs) }
        ensures stays_callable { F.IsAlwaysCallable f.old → F.IsAlwaysCallable f.new }
        ensures calls { OnOk result (ViewsEach F.FnMut f.old
            (cut_between (bound_in K.bytes start) (bound_in K.bytes end) self.now.pairs) f.new) }
        ensures unchanged { OnErr result (f.new ≡ f.old) }
        ensures memory { IfErr result (MayLackMemory self.now.pairs) }
    {
        self.seen()
            .for_each_range_view_by_ref_counted(start, end, f, &mut Visits::new())
    }

    /// Calls `f` as [`for_each_range_view_by_ref`](Self::for_each_range_view_by_ref) does, and drops it.
    ///
    /// # Errors
    ///
    /// Those of `for_each_range_view_by_ref`.
    pub fn for_each_range_view<F: FnMut(LendingKeyView<'_, '_>, &V) + Drop>(
        &self,
        start: Bound<K>,
        end: Bound<K>,
        f: F,
    ) -> Result<(), TreeError>
    where
        K: Drop,
        requires callable { CanView F.FnMut f
            (cut_between (bound_in K.bytes start) (bound_in K.bytes end) self.now.pairs) }
        ensures calls { OnOk result (ViewsEachByValue F.FnMut f
            (cut_between (bound_in K.bytes start) (bound_in K.bytes end) self.now.pairs)) }
        ensures memory { IfErr result (MayLackMemory self.now.pairs) }
    {
        self.seen()
            .for_each_range_view_counted(start, end, f, &mut Visits::new())
    }

    /// Calls `f` once with a view of the longest key that begins the bytes `probe`, which may be longer than any key,
    /// and with its value, and returns `true`; returns `false` if there is no such key. The caller keeps `f`.
    ///
    /// # Errors
    ///
    /// [`TreeError::Memory`] if there is such a key and the allocation for its segments fails. `f` is then not called.
    pub fn with_longest_prefix_match_view_by_ref_bytes<F: FnMut(LendingKeyView<'_, '_>, &V)>(
        &self,
        probe: &[u8],
        f: &mut F,
    ) -> Result<bool, TreeError>
        requires callable { CanShowFound F.FnMut f.old (keys_of self.now.pairs)
            (longest_match probe.now self.now.pairs) }
        ensures stays_callable { F.IsAlwaysCallable f.old → F.IsAlwaysCallable f.new }
        ensures calls { IfOk result (ShowsFound F.FnMut f.old (keys_of self.now.pairs)
            (longest_match probe.now self.now.pairs) f.new) }
        ensures unchanged { OnErr result (f.new ≡ f.old) }
        ensures memory { IfErr result (MayLackMatch probe.now self.now.pairs) }
    {
        self.seen()
            .with_longest_prefix_match_view_by_ref_bytes_counted(probe, f, &mut Visits::new())
    }

    /// Calls `f` as [`with_longest_prefix_match_view_by_ref_bytes`](Self::with_longest_prefix_match_view_by_ref_bytes)
    /// does, and consumes it.
    ///
    /// # Errors
    ///
    /// [`TreeError::Memory`] if there is such a key and the allocation for its segments fails. `f` is then not called.
    pub fn with_longest_prefix_match_view_bytes<F: FnOnce(LendingKeyView<'_, '_>, &V) + Drop>(
        &self,
        probe: &[u8],
        f: F,
    ) -> Result<bool, TreeError>
        requires callable { CanSeeFound F.FnOnce f (keys_of self.now.pairs)
            (longest_match probe.now self.now.pairs) }
        ensures calls { IfOk result (SeesFound F.FnOnce f (keys_of self.now.pairs)
            (longest_match probe.now self.now.pairs)) }
        ensures memory { IfErr result (MayLackMatch probe.now self.now.pairs) }
    {
        self.seen()
            .with_longest_prefix_match_view_bytes_counted(probe, f, &mut Visits::new())
    }

    /// Calls `f` once with a view of the longest key that begins `probe` and with its value, and returns `true`;
    /// returns `false` if there is no such key. The caller keeps `f`.
    ///
    /// # Errors
    ///
    /// [`TreeError::Memory`] if there is such a key and the allocation for its segments fails. `f` is then not called.
    pub fn with_longest_prefix_match_view_by_ref_k<F: FnMut(LendingKeyView<'_, '_>, &V)>(
        &self,
        probe: &K,
        f: &mut F,
    ) -> Result<bool, TreeError>
        requires callable { CanShowFound F.FnMut f.old (keys_of self.now.pairs)
            (longest_match (K.bytes probe.now) self.now.pairs) }
        ensures stays_callable { F.IsAlwaysCallable f.old → F.IsAlwaysCallable f.new }
        ensures calls { IfOk result (ShowsFound F.FnMut f.old (keys_of self.now.pairs)
            (longest_match (K.bytes probe.now) self.now.pairs) f.new) }
        ensures unchanged { OnErr result (f.new ≡ f.old) }
        ensures memory { IfErr result (MayLackMatch (K.bytes probe.now) self.now.pairs) }
    {
        self.seen()
            .with_longest_prefix_match_view_by_ref_k_counted(probe, f, &mut Visits::new())
    }

    /// Calls `f` as [`with_longest_prefix_match_view_by_ref_k`](Self::with_longest_prefix_match_view_by_ref_k) does,
    /// with a probe by value.
    ///
    /// # Errors
    ///
    /// Those of `with_longest_prefix_match_view_by_ref_k`. `f` is then not called.
    pub fn with_longest_prefix_match_view_by_ref<F: FnMut(LendingKeyView<'_, '_>, &V)>(
        &self,
        probe: K,
        f: &mut F,
    ) -> Result<bool, TreeError>
    where
        K: Drop,
        requires callable { CanShowFound F.FnMut f.old (keys_of self.now.pairs)
            (longest_match (K.bytes probe) self.now.pairs) }
        ensures stays_callable { F.IsAlwaysCallable f.old → F.IsAlwaysCallable f.new }
        ensures calls { IfOk result (ShowsFound F.FnMut f.old (keys_of self.now.pairs)
            (longest_match (K.bytes probe) self.now.pairs) f.new) }
        ensures unchanged { OnErr result (f.new ≡ f.old) }
        ensures memory { IfErr result (MayLackMatch (K.bytes probe) self.now.pairs) }
    {
        self.with_longest_prefix_match_view_by_ref_k(&probe, f)
    }

    /// Calls `f` once with a view of the longest key that begins `probe` and with its value, and returns `true`;
    /// returns `false` if there is no such key.
    ///
    /// # Errors
    ///
    /// [`TreeError::Memory`] if there is such a key and the allocation for its segments fails.
    pub fn with_longest_prefix_match_view_k<F: FnOnce(LendingKeyView<'_, '_>, &V) + Drop>(
        &self,
        probe: &K,
        f: F,
    ) -> Result<bool, TreeError>
        requires callable { CanSeeFound F.FnOnce f (keys_of self.now.pairs)
            (longest_match (K.bytes probe.now) self.now.pairs) }
        ensures calls { IfOk result (SeesFound F.FnOnce f (keys_of self.now.pairs)
            (longest_match (K.bytes probe.now) self.now.pairs)) }
        ensures memory { IfErr result (MayLackMatch (K.bytes probe.now) self.now.pairs) }
    {
        self.seen()
            .with_longest_prefix_match_view_k_counted(probe, f, &mut Visits::new())
    }

    /// Calls `f` as [`with_longest_prefix_match_view_k`](Self::with_longest_prefix_match_view_k) does.
    ///
    /// # Errors
    ///
    /// Those of `with_longest_prefix_match_view_k`.
    pub fn with_longest_prefix_match_view<F: FnOnce(LendingKeyView<'_, '_>, &V) + Drop>(
        &self,
        probe: K,
        f: F,
    ) -> Result<bool, TreeError>
    where
        K: Drop,
        requires callable { CanSeeFound F.FnOnce f (keys_of self.now.pairs)
            (longest_match (K.bytes probe) self.now.pairs) }
        ensures calls { IfOk result (SeesFound F.FnOnce f (keys_of self.now.pairs)
            (longest_match (K.bytes probe) self.now.pairs)) }
        ensures memory { IfErr result (MayLackMatch (K.bytes probe) self.now.pairs) }
    {
        self.with_longest_prefix_match_view_k(&probe, f)
    }
}
