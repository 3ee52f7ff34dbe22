//! Walks over the routes that cover a probe, and over those with a prefix.
ghost use Rattle.std.specs.Prelude.{◌≡◌, IfErr, OnErr, OnOk};
ghost use Rattle.rart_keys.specs.Filters.{matches};
ghost use Rattle.rart_trie.specs.walks.BelowPrefix.{cut_below};
ghost use Rattle.rart_nodes.specs.walks.Matched.{CanMatch, MatchesEachByValue, MatchesEach};
ghost use Rattle.rart_nodes.specs.walks.Viewed.{CanView, ViewsEachByValue, ViewsEach};
ghost use Rattle.rart_trie.specs.walks.Calls.{MayLackMemory};

use crate::routes::RouteTable;
use rart_keys::KeyTrait;
use rart_nodes::LendingKeyView;
use rart_parts::TreeError;

impl<K: KeyTrait, T> RouteTable<K, T> {
    /// Calls `f` with each route whose prefix begins the bytes `probe`, which may be longer than any key, the shortest
    /// first. The prefix is borrowed from the probe: its first bytes, nothing is copied. Allocates nothing.
    pub fn covering_for_each_by_ref_bytes<F: FnMut(&[u8], &T)>(&self, probe: &[u8], f: &mut F)
        requires callable { CanMatch F.FnMut f.old (matches probe.now self.now.pairs) }
        ensures stays_callable { F.IsAlwaysCallable f.old → F.IsAlwaysCallable f.new }
        ensures calls { MatchesEach F.FnMut f.old (matches probe.now self.now.pairs) f.new }
    {
        self.routes.prefix_match_for_each_by_ref_bytes(probe, f)
    }

    /// Calls `f` as [`covering_for_each_by_ref_bytes`](Self::covering_for_each_by_ref_bytes) does, and drops it.
    pub fn covering_for_each_bytes<F: FnMut(&[u8], &T) + Drop>(&self, probe: &[u8], f: F)
        requires callable { CanMatch F.FnMut f (matches probe.now self.now.pairs) }
        ensures { MatchesEachByValue F.FnMut f (matches probe.now self.now.pairs) }
    {
        self.routes.prefix_match_for_each_bytes(probe, f)
    }

    /// Calls `f` with each route whose prefix begins `probe`, the shortest first. The prefix is borrowed from the
    /// probe: its first bytes, nothing is copied. Allocates nothing.
    pub fn covering_for_each_by_ref<F: FnMut(&[u8], &T)>(&self, probe: &K, f: &mut F)
        requires callable { CanMatch F.FnMut f.old (matches (K.bytes probe.now) self.now.pairs) }
        ensures stays_callable { F.IsAlwaysCallable f.old → F.IsAlwaysCallable f.new }
        ensures calls { MatchesEach F.FnMut f.old
            (matches (K.bytes probe.now) self.now.pairs) f.new }
    {
        self.routes.prefix_match_for_each_by_ref_k(probe, f)
    }

    /// Calls `f` as [`covering_for_each_by_ref`](Self::covering_for_each_by_ref) does, and drops it.
    pub fn covering_for_each<F: FnMut(&[u8], &T) + Drop>(&self, probe: &K, f: F)
        requires callable { CanMatch F.FnMut f (matches (K.bytes probe.now) self.now.pairs) }
        ensures { MatchesEachByValue F.FnMut f (matches (K.bytes probe.now) self.now.pairs) }
    {
        self.routes.prefix_match_for_each_k(probe, f)
    }

    /// Calls `f` with a view of each prefix that begins with `prefix` and with its target, in order. The caller keeps
    /// `f`.
    ///
    /// # Errors
    ///
    /// [`TreeError::Memory`] if the table isn't empty and the allocation for the walk fails. `f` is then not called.
    pub fn below_for_each_by_ref<F: FnMut(LendingKeyView<'_, '_>, &T)>(
        &self,
        prefix: &K,
        f: &mut F,
    ) -> Result<(), TreeError>
        requires callable { CanView F.FnMut f.old (cut_below (K.bytes prefix.now) self.now.pairs) }
        ensures stays_callable { F.IsAlwaysCallable f.old → F.IsAlwaysCallable f.new }
        ensures calls { OnOk result (ViewsEach F.FnMut f.old
            (cut_below (K.bytes prefix.now) self.now.pairs) f.new) }
        ensures unchanged { OnErr result (f.new ≡ f.old) }
        ensures memory { IfErr result (MayLackMemory self.now.pairs) }
    {
        self.routes.prefix_for_each_view_by_ref_k(prefix, f)
    }

    /// Calls `f` as [`below_for_each_by_ref`](Self::below_for_each_by_ref) does, and drops it.
    ///
    /// # Errors
    ///
    /// [`TreeError::Memory`] if the table isn't empty and the allocation for the walk fails.
    pub fn below_for_each<F: FnMut(LendingKeyView<'_, '_>, &T) + Drop>(
        &self,
        prefix: &K,
        f: F,
    ) -> Result<(), TreeError>
        requires callable { CanView F.FnMut f (cut_below (K.bytes prefix.now) self.now.pairs) }
        ensures calls { OnOk result (ViewsEachByValue F.FnMut f
            (cut_below (K.bytes prefix.now) self.now.pairs)) }
        ensures memory { IfErr result (MayLackMemory self.now.pairs) }
    {
        self.routes.prefix_for_each_view_k(prefix, f)
    }
}
