//! Look-ups and walks of the keys that begin a probe, which allocate nothing, and of the keys that begin with a prefix.
ghost use Rattle.std.specs.Prelude.{◌≡◌, ◌≤◌, length, option_map, take, IfErr, IfOk, IfSome};
ghost use Rattle.std.specs.Option.{option_copied};
ghost use Rattle.rart_keys.specs.Filters.{below, longest_match, longest_value, matches};
ghost use Rattle.rart_trie.specs.walks.Calls.{MayLackMemory};

use crate::tree::AdaptiveRadixTree;
use rart_keys::KeyTrait;
use rart_nodes::Visits;
use rart_nodes::iter::{Iter, PrefixMatchIter};
use rart_parts::TreeError;

impl<K: KeyTrait, V> AdaptiveRadixTree<K, V> {
    /// Returns the pair whose key is the longest that begins `probe`.
    pub fn longest_prefix_match_k(&self, probe: &K) -> Option<(K, &V)>
        ensures { option_map (λ p. (K.bytes p.0, p.1.now)) result
            ≡ longest_match (K.bytes probe.now) self.now.pairs }
    {
        self.seen()
            .longest_prefix_match_k_counted(probe, &mut Visits::new())
    }

    /// Returns the pair whose key is the longest that begins `probe`.
    pub fn longest_prefix_match(&self, probe: K) -> Option<(K, &V)>
    where
        K: Drop,
        ensures { option_map (λ p. (K.bytes p.0, p.1.now)) result
            ≡ longest_match (K.bytes probe) self.now.pairs }
    {
        self.longest_prefix_match_k(&probe)
    }

    /// Returns the pair whose key is the longest that begins the bytes `probe`, which may be longer than any key.
    pub fn longest_prefix_match_bytes(&self, probe: &[u8]) -> Option<(K, &V)>
        ensures { option_map (λ p. (K.bytes p.0, p.1.now)) result
            ≡ longest_match probe.now self.now.pairs }
    {
        self.seen()
            .longest_prefix_match_bytes_counted(probe, &mut Visits::new())
    }

    /// Returns the length of the longest key that begins the bytes `probe`, and a reference to its value. It makes no
    /// key.
    pub fn longest_prefix_len_bytes(&self, probe: &[u8]) -> Option<(usize, &V)>
        ensures pair { option_map (λ p. (take p.0 probe.now, p.1.now)) result
            ≡ longest_match probe.now self.now.pairs }
        ensures at_most { IfSome result (λ p. p.0 ≤ length probe.now) }
    {
        self.seen()
            .longest_prefix_len_bytes_counted(probe, &mut Visits::new())
    }

    /// Returns a reference to the value at the longest key that begins `probe`.
    pub fn longest_prefix_value_k(&self, probe: &K) -> Option<&V>
        ensures { option_copied result ≡ longest_value (K.bytes probe.now) self.now.pairs }
    {
        self.seen()
            .longest_prefix_value_k_counted(probe, &mut Visits::new())
    }

    /// Returns a reference to the value at the longest key that begins `probe`.
    pub fn longest_prefix_value(&self, probe: K) -> Option<&V>
    where
        K: Drop,
        ensures { option_copied result ≡ longest_value (K.bytes probe) self.now.pairs }
    {
        self.longest_prefix_value_k(&probe)
    }

    /// Returns a reference to the value at the longest key that begins the bytes `probe`, which may be longer than
    /// any key.
    ///
    /// # Examples
    ///
    /// ```ignore
    /// if let Some(number) = words.longest_prefix_value_bytes(b"catalogue") {
    ///     println!(rt; "catalogue: word {number}")?;
    /// }
    /// ```
    pub fn longest_prefix_value_bytes(&self, probe: &[u8]) -> Option<&V>
        ensures { option_copied result ≡ longest_value probe.now self.now.pairs }
    {
        self.seen()
            .longest_prefix_value_bytes_counted(probe, &mut Visits::new())
    }

    /// Returns an iterator over the pairs whose key begins `probe`, the shortest first; each `next` descends further.
    pub fn prefix_match_iter_k(&self, probe: &K) -> PrefixMatchIter<'_, K, K::PartialType, V>
        ensures { result ≡ matches (K.bytes probe.now) self.now.pairs }
    {
        self.seen().prefix_match_iter_k(probe)
    }

    /// Returns an iterator over the pairs whose key begins `probe`, as
    /// [`prefix_match_iter_k`](Self::prefix_match_iter_k).
    pub fn prefix_match_iter(&self, probe: K) -> PrefixMatchIter<'_, K, K::PartialType, V>
    where
        K: Drop,
        ensures { result ≡ matches (K.bytes probe) self.now.pairs }
    {
        self.prefix_match_iter_k(&probe)
    }

    /// Returns an iterator over the pairs whose key begins with `prefix`, ascending.
    ///
    /// # Errors
    ///
    /// [`TreeError::Memory`] if the tree isn't empty and the allocation fails.
    ///
    /// # Examples
    ///
    /// ```ignore
    /// words.prefix_iter_k(&ArrayKey::<32>::new_from_slice(typed))
    /// ```
    pub fn prefix_iter_k(&self, prefix: &K) -> Result<Iter<'_, K, K::PartialType, V>, TreeError>
        ensures pairs { IfOk result (λ it. it ≡ below (K.bytes prefix.now) self.now.pairs) }
        ensures memory { IfErr result (MayLackMemory self.now.pairs) }
    {
        self.seen().prefix_iter_k(prefix)
    }

    /// Returns an iterator over the pairs whose key begins with `prefix`, as [`prefix_iter_k`](Self::prefix_iter_k).
    ///
    /// # Errors
    ///
    /// Those of [`prefix_iter_k`](Self::prefix_iter_k).
    pub fn prefix_iter(&self, prefix: K) -> Result<Iter<'_, K, K::PartialType, V>, TreeError>
    where
        K: Drop,
        ensures pairs { IfOk result (λ it. it ≡ below (K.bytes prefix) self.now.pairs) }
        ensures memory { IfErr result (MayLackMemory self.now.pairs) }
    {
        self.prefix_iter_k(&prefix)
    }
}
