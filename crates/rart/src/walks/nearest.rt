//! The pair nearest to a probe, which needs not be stored.
ghost use Rattle.std.specs.Prelude.{◌≡◌, None, option_map, slice_get};
ghost use Rattle.std.specs.declared.ops.Bound.TheVariants.{Excluded, Included};
ghost use Rattle.rart_keys.specs.Filters.{last_or};
ghost use Rattle.rart_keys.specs.Ranges.{from_bound};
ghost use Rattle.rart_nodes.specs.ranges.UpperBounds.{to_bound};

use crate::tree::AdaptiveRadixTree;
use rart_keys::KeyTrait;
use rart_nodes::Visits;

impl<K: KeyTrait, V> AdaptiveRadixTree<K, V> {
    /// Returns the pair with the least key that is at least `probe`. It makes the key and does not allocate.
    pub fn first_at_or_after_k(&self, probe: &K) -> Option<(K, &V)>
        ensures { option_map (λ p. (K.bytes p.0, p.1.now)) result
            ≡ slice_get (from_bound (Included (K.bytes probe.now)) self.now.pairs) 0 }
    {
        self.seen()
            .first_at_or_after_k_counted(probe, &mut Visits::new())
    }

    /// Returns the pair with the least key that is at least `probe`, as
    /// [`first_at_or_after_k`](Self::first_at_or_after_k).
    pub fn first_at_or_after(&self, probe: K) -> Option<(K, &V)>
    where
        K: Drop,
        ensures { option_map (λ p. (K.bytes p.0, p.1.now)) result
            ≡ slice_get (from_bound (Included (K.bytes probe)) self.now.pairs) 0 }
    {
        self.first_at_or_after_k(&probe)
    }

    /// Returns the pair with the least key that is at least the bytes `probe`, which may be longer than any key.
    pub fn first_at_or_after_bytes(&self, probe: &[u8]) -> Option<(K, &V)>
        ensures { option_map (λ p. (K.bytes p.0, p.1.now)) result
            ≡ slice_get (from_bound (Included probe.now) self.now.pairs) 0 }
    {
        self.seen()
            .first_at_or_after_bytes_counted(probe, &mut Visits::new())
    }

    /// Returns the pair with the least key that is greater than `probe`. It makes the key and does not allocate.
    pub fn first_after_k(&self, probe: &K) -> Option<(K, &V)>
        ensures { option_map (λ p. (K.bytes p.0, p.1.now)) result
            ≡ slice_get (from_bound (Excluded (K.bytes probe.now)) self.now.pairs) 0 }
    {
        self.seen().first_after_k_counted(probe, &mut Visits::new())
    }

    /// Returns the pair with the least key that is greater than `probe`, as
    /// [`first_after_k`](Self::first_after_k).
    pub fn first_after(&self, probe: K) -> Option<(K, &V)>
    where
        K: Drop,
        ensures { option_map (λ p. (K.bytes p.0, p.1.now)) result
            ≡ slice_get (from_bound (Excluded (K.bytes probe)) self.now.pairs) 0 }
    {
        self.first_after_k(&probe)
    }

    /// Returns the pair with the least key that is greater than the bytes `probe`, which may be longer than any key.
    pub fn first_after_bytes(&self, probe: &[u8]) -> Option<(K, &V)>
        ensures { option_map (λ p. (K.bytes p.0, p.1.now)) result
            ≡ slice_get (from_bound (Excluded probe.now) self.now.pairs) 0 }
    {
        self.seen()
            .first_after_bytes_counted(probe, &mut Visits::new())
    }

    /// Returns the pair with the greatest key that is at most `probe`. It makes the key and does not allocate.
    pub fn last_at_or_before_k(&self, probe: &K) -> Option<(K, &V)>
        ensures { option_map (λ p. (K.bytes p.0, p.1.now)) result
            ≡ last_or None (to_bound (Included (K.bytes probe.now)) self.now.pairs) }
    {
        self.seen()
            .last_at_or_before_k_counted(probe, &mut Visits::new())
    }

    /// Returns the pair with the greatest key that is at most `probe`, as
    /// [`last_at_or_before_k`](Self::last_at_or_before_k).
    pub fn last_at_or_before(&self, probe: K) -> Option<(K, &V)>
    where
        K: Drop,
        ensures { option_map (λ p. (K.bytes p.0, p.1.now)) result
            ≡ last_or None (to_bound (Included (K.bytes probe)) self.now.pairs) }
    {
        self.last_at_or_before_k(&probe)
    }

    /// Returns the pair with the greatest key that is at most the bytes `probe`, which may be longer than any key.
    pub fn last_at_or_before_bytes(&self, probe: &[u8]) -> Option<(K, &V)>
        ensures { option_map (λ p. (K.bytes p.0, p.1.now)) result
            ≡ last_or None (to_bound (Included probe.now) self.now.pairs) }
    {
        self.seen()
            .last_at_or_before_bytes_counted(probe, &mut Visits::new())
    }

    /// Returns the pair with the greatest key that is less than `probe`. It makes the key and does not allocate.
    pub fn last_before_k(&self, probe: &K) -> Option<(K, &V)>
        ensures { option_map (λ p. (K.bytes p.0, p.1.now)) result
            ≡ last_or None (to_bound (Excluded (K.bytes probe.now)) self.now.pairs) }
    {
        self.seen().last_before_k_counted(probe, &mut Visits::new())
    }

    /// Returns the pair with the greatest key that is less than `probe`, as
    /// [`last_before_k`](Self::last_before_k).
    pub fn last_before(&self, probe: K) -> Option<(K, &V)>
    where
        K: Drop,
        ensures { option_map (λ p. (K.bytes p.0, p.1.now)) result
            ≡ last_or None (to_bound (Excluded (K.bytes probe)) self.now.pairs) }
    {
        self.last_before_k(&probe)
    }

    /// Returns the pair with the greatest key that is less than the bytes `probe`, which may be longer than any key.
    pub fn last_before_bytes(&self, probe: &[u8]) -> Option<(K, &V)>
        ensures { option_map (λ p. (K.bytes p.0, p.1.now)) result
            ≡ last_or None (to_bound (Excluded probe.now) self.now.pairs) }
    {
        self.seen()
            .last_before_bytes_counted(probe, &mut Visits::new())
    }
}
