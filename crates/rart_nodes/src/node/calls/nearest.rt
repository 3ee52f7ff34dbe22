//! The pair nearest to a probe, on one descent.
ghost use Rattle.std.specs.Prelude.{◌≡◌, ◌≤◌, ◌+◌, MatchOption, None, length, option_map, slice_get};
ghost use Rattle.std.specs.declared.ops.Bound.TheVariants.{Excluded, Included};
ghost use Rattle.rart_keys.specs.Filters.{last_or};
ghost use Rattle.rart_keys.specs.Ranges.{from_bound};
ghost use Rattle.rart_nodes.specs.ranges.UpperBounds.{to_bound};
ghost use Rattle.rart_nodes.specs.tries.SeenTrees.{seen_pairs};

use crate::node::seen::Seen;
use rart_keys::KeyTrait;
use rart_trie::Count;
use rart_trie::node::End;

impl<'a, K: KeyTrait, V, C: Count> Seen<'a, K, V, C> {
    /// Returns the pair with the least key that is at least `probe`, which may be longer than any key. It makes the
    /// key and does not allocate.
    ///
    /// # Visits
    ///
    /// At most `probe.len() + 1` nodes, and one for each byte of the key that is found.
    pub fn first_at_or_after_bytes_counted(
        self,
        probe: &[u8],
        counter: &mut C,
    ) -> Option<(K, &'a V)>
        ensures pair { option_map (λ p. (K.bytes p.0, p.1.now)) result
            ≡ slice_get (from_bound (Included probe.now) (seen_pairs self.entry)) 0 }
        ensures bound { MatchOption result
            (C.number counter.new ≤ C.number counter.old + length probe.now + 1)
            (λ p. C.number counter.new
            ≤ C.number counter.old + length probe.now + 1 + length (K.bytes p.0)) }
    {
        self.nearest_pair(End::First, probe, true, counter)
    }

    /// Returns the pair with the least key that is at least `probe`. It makes the key and does not allocate.
    ///
    /// # Visits
    ///
    /// At most `probe.len() + 1` nodes, and one for each byte of the key that is found.
    pub fn first_at_or_after_k_counted(self, probe: &K, counter: &mut C) -> Option<(K, &'a V)>
        ensures pair { option_map (λ p. (K.bytes p.0, p.1.now)) result
            ≡ slice_get (from_bound (Included (K.bytes probe.now)) (seen_pairs self.entry)) 0 }
        ensures bound { MatchOption result
            (C.number counter.new ≤ C.number counter.old + length (K.bytes probe.now) + 1)
            (λ p. C.number counter.new
            ≤ C.number counter.old + length (K.bytes probe.now) + 1 + length (K.bytes p.0)) }
    {
        self.first_at_or_after_bytes_counted(probe.as_ref(), counter)
    }

    /// Returns the pair with the least key that is greater than `probe`, which may be longer than any key. It makes the
    /// key and does not allocate.
    ///
    /// # Visits
    ///
    /// At most `probe.len() + 1` nodes, and one for each byte of the key that is found.
    pub fn first_after_bytes_counted(self, probe: &[u8], counter: &mut C) -> Option<(K, &'a V)>
        ensures pair { option_map (λ p. (K.bytes p.0, p.1.now)) result
            ≡ slice_get (from_bound (Excluded probe.now) (seen_pairs self.entry)) 0 }
        ensures bound { MatchOption result
            (C.number counter.new ≤ C.number counter.old + length probe.now + 1)
            (λ p. C.number counter.new
            ≤ C.number counter.old + length probe.now + 1 + length (K.bytes p.0)) }
    {
        self.nearest_pair(End::First, probe, false, counter)
    }

    /// Returns the pair with the least key that is greater than `probe`. It makes the key and does not allocate.
    ///
    /// # Visits
    ///
    /// At most `probe.len() + 1` nodes, and one for each byte of the key that is found.
    pub fn first_after_k_counted(self, probe: &K, counter: &mut C) -> Option<(K, &'a V)>
        ensures pair { option_map (λ p. (K.bytes p.0, p.1.now)) result
            ≡ slice_get (from_bound (Excluded (K.bytes probe.now)) (seen_pairs self.entry)) 0 }
        ensures bound { MatchOption result
            (C.number counter.new ≤ C.number counter.old + length (K.bytes probe.now) + 1)
            (λ p. C.number counter.new
            ≤ C.number counter.old + length (K.bytes probe.now) + 1 + length (K.bytes p.0)) }
    {
        self.first_after_bytes_counted(probe.as_ref(), counter)
    }

    /// Returns the pair with the greatest key that is at most `probe`, which may be longer than any key. It makes the
    /// key and does not allocate.
    ///
    /// # Visits
    ///
    /// At most `probe.len() + 1` nodes, and one for each byte of the key that is found.
    pub fn last_at_or_before_bytes_counted(
        self,
        probe: &[u8],
        counter: &mut C,
    ) -> Option<(K, &'a V)>
        ensures pair { option_map (λ p. (K.bytes p.0, p.1.now)) result
            ≡ last_or None (to_bound (Included probe.now) (seen_pairs self.entry)) }
        ensures bound { MatchOption result
            (C.number counter.new ≤ C.number counter.old + length probe.now + 1)
            (λ p. C.number counter.new
            ≤ C.number counter.old + length probe.now + 1 + length (K.bytes p.0)) }
    {
        self.nearest_pair(End::Last, probe, true, counter)
    }

    /// Returns the pair with the greatest key that is at most `probe`. It makes the key and does not allocate.
    ///
    /// # Visits
    ///
    /// At most `probe.len() + 1` nodes, and one for each byte of the key that is found.
    pub fn last_at_or_before_k_counted(self, probe: &K, counter: &mut C) -> Option<(K, &'a V)>
        ensures pair { option_map (λ p. (K.bytes p.0, p.1.now)) result
            ≡ last_or None (to_bound (Included (K.bytes probe.now)) (seen_pairs self.entry)) }
        ensures bound { MatchOption result
            (C.number counter.new ≤ C.number counter.old + length (K.bytes probe.now) + 1)
            (λ p. C.number counter.new
            ≤ C.number counter.old + length (K.bytes probe.now) + 1 + length (K.bytes p.0)) }
    {
        self.last_at_or_before_bytes_counted(probe.as_ref(), counter)
    }

    /// Returns the pair with the greatest key that is less than `probe`, which may be longer than any key. It makes the
    /// key and does not allocate.
    ///
    /// # Visits
    ///
    /// At most `probe.len() + 1` nodes, and one for each byte of the key that is found.
    pub fn last_before_bytes_counted(self, probe: &[u8], counter: &mut C) -> Option<(K, &'a V)>
        ensures pair { option_map (λ p. (K.bytes p.0, p.1.now)) result
            ≡ last_or None (to_bound (Excluded probe.now) (seen_pairs self.entry)) }
        ensures bound { MatchOption result
            (C.number counter.new ≤ C.number counter.old + length probe.now + 1)
            (λ p. C.number counter.new
            ≤ C.number counter.old + length probe.now + 1 + length (K.bytes p.0)) }
    {
        self.nearest_pair(End::Last, probe, false, counter)
    }

    /// Returns the pair with the greatest key that is less than `probe`. It makes the key and does not allocate.
    ///
    /// # Visits
    ///
    /// At most `probe.len() + 1` nodes, and one for each byte of the key that is found.
    pub fn last_before_k_counted(self, probe: &K, counter: &mut C) -> Option<(K, &'a V)>
        ensures pair { option_map (λ p. (K.bytes p.0, p.1.now)) result
            ≡ last_or None (to_bound (Excluded (K.bytes probe.now)) (seen_pairs self.entry)) }
        ensures bound { MatchOption result
            (C.number counter.new ≤ C.number counter.old + length (K.bytes probe.now) + 1)
            (λ p. C.number counter.new
            ≤ C.number counter.old + length (K.bytes probe.now) + 1 + length (K.bytes p.0)) }
    {
        self.last_before_bytes_counted(probe.as_ref(), counter)
    }
}
