//! Look-ups of the keys that begin a probe, the shortest first, on one descent.

// Nothing here allocates. Contracts name the pairs whose key begins the probe `matches`, and the last of them
// `longest_match`.

ghost use Rattle.std.specs.Prelude.{◌≡◌, ◌≤◌, ◌+◌, length, take, None, IfSome, MatchOption, option_map};
ghost use Rattle.std.specs.Iterator.{YieldsFirstBy, item_count};
ghost use Rattle.std.specs.Option.{option_copied};
ghost use Rattle.rart_keys.specs.Filters.{longest_match, longest_value, matches};
ghost use Rattle.rart_nodes.specs.tries.SeenTrees.{seen_keys, seen_pairs, seen_tree};
ghost use Rattle.rart_nodes.specs.walks.Matched.{CanMatch, MatchesEachByValue, MatchesEach};
ghost use Rattle.rart_nodes.specs.walks.Matches.{DescendsPast, PassesTo, entered_left, matches_left};
ghost use Rattle.rart_trie.specs.walks.ProbeCount.{probe_count};

use crate::node::seen::{Entered, Seen, Shared};
use rart_keys::{KeyTrait, Partial};
use rart_trie::node::strip_prefix;
use rart_trie::{Count, Visits};
use std::marker::{Model, PhantomData};

mod tried;

/// A descent along a probe.
#[derive(Drop)]
pub(crate) struct Matching<'a, P: Partial, V, C> {
    // where it continues, unless it has ended
    below: Option<Shared<'a, P, V, C>>,
    // how many bytes of the probe come before that
    depth: usize,
}

/// Returns the next node of the descent and the depth before it, or `None` if the prefix leaves the probe.
fn pass<'a, P: Partial, V, C>(
    at: Entered<'a, P, V, C>,
    probe: &[u8],
    depth: usize,
) -> Option<(Option<Shared<'a, P, V, C>>, usize)>
    requires { depth ≤ length probe.now }
    ensures { PassesTo probe.now depth at.entry.node.now result }
{
    let rest = strip_prefix(at.prefix(), &probe[depth..])?;
    let passed = probe.len() - rest.len();
    let Some(byte) = rest.first() else {
        return Some((None, passed));
    };
    Some((at.child(*byte), passed))
}

/// Returns the first `depth` bytes of the probe.
pub(crate) fn probe_start(probe: &[u8], depth: usize) -> &[u8]
    requires { depth ≤ length probe.now }
    ensures { result.now ≡ take depth probe.now }
{
    &probe[..depth]
}

impl<'a, P: Partial, V, C: Count> Matching<'a, P, V, C> {
    /// Returns the next value whose key begins the probe. Its key is the first `depth` bytes.
    pub(crate) fn advance(&mut self, probe: &[u8], counter: &mut C) -> Option<&'a V>
        requires { self.old.depth ≤ length probe.now }
        ensures at_most { self.new.depth ≤ length probe.now }
        ensures pairs { YieldsFirstBy (λ v. (take self.new.depth probe.now, v.now))
            (matches_left probe.now) self.old result self.new }
        ensures visits { C.number counter.new + entered_left probe.now self.new
            ≡ C.number counter.old + entered_left probe.now self.old }
        ensures ended { MatchOption result (option_map (λ s. s.node.now) self.new.below ≡ None)
            (λ _. Unit {0}) }
        ensures past { IfSome result (λ _. DescendsPast probe.now
            self.old.depth (option_map (λ s. s.node.now) self.old.below) (C.number counter.old)
            self.new.depth (option_map (λ s. s.node.now) self.new.below) (C.number counter.new)) }
    {
        while let Some(node) = self.below.take() {
            let at = node.enter(counter);
            let Some((below, depth)) = pass(at, probe, self.depth) else {
                return None;
            };
            self.below = below;
            self.depth = depth;
            if let Some(value) = at.value() {
                return Some(value);
            }
        }
        None
    }
}

impl<'a, K: KeyTrait, V, C: Count> Seen<'a, K, V, C> {
    fn matching(self) -> Matching<'a, K::PartialType, V, C>
        ensures below { option_map (λ s. s.node.now) result.below ≡ seen_tree self.entry }
        ensures depth { result.depth ≡ 0 }
    {
        Matching {
            below: self.top(),
            depth: 0,
        }
    }

    /// Returns the length and the value of the longest key that begins `probe`, which may be longer than any key.
    ///
    /// # Visits
    ///
    /// At most `probe.len() + 1` nodes.
    pub fn longest_prefix_len_bytes_counted(
        self,
        probe: &[u8],
        counter: &mut C,
    ) -> Option<(usize, &'a V)>
        ensures pair { option_map (λ p. (take p.0 probe.now, p.1.now)) result
            ≡ longest_match probe.now (seen_pairs self.entry) }
        ensures at_most { IfSome result (λ p. p.0 ≤ length probe.now) }
        ensures visits { C.number counter.new ≡ C.number counter.old
            + probe_count (seen_keys self.entry) probe.now }
        ensures bound { C.number counter.new ≤ C.number counter.old + length probe.now + 1 }
    {
        // a loop of its own: by the steps of `Matching` it takes a fifth more instructions
        let mut next = self.top();
        let mut rest = probe;
        let mut last = None;
        while let Some(node) = next {
            let at = node.enter(counter);
            let Some(after) = strip_prefix(at.prefix(), rest) else {
                return last;
            };
            if let Some(value) = at.value() {
                last = Some((probe.len() - after.len(), value));
            }
            let Some(byte) = after.first() else {
                return last;
            };
            next = at.child(*byte);
            rest = after;
        }
        last
    }

    /// Returns the pair with the longest key that begins `probe`, which may be longer than any key.
    ///
    /// # Visits
    ///
    /// At most `probe.len() + 1` nodes.
    pub fn longest_prefix_match_bytes_counted(
        self,
        probe: &[u8],
        counter: &mut C,
    ) -> Option<(K, &'a V)>
        ensures pair { option_map (λ p. (K.bytes p.0, p.1.now)) result
            ≡ longest_match probe.now (seen_pairs self.entry) }
        ensures visits { C.number counter.new ≡ C.number counter.old
            + probe_count (seen_keys self.entry) probe.now }
        ensures bound { C.number counter.new ≤ C.number counter.old + length probe.now + 1 }
    {
        let (depth, value) = self.longest_prefix_len_bytes_counted(probe, counter)?;
        Some((K::new_from_slice(probe_start(probe, depth)), value))
    }

    /// Returns the pair with the longest key that begins the probe.
    ///
    /// # Visits
    ///
    /// At most `probe.len() + 1` nodes.
    pub fn longest_prefix_match_k_counted(self, probe: &K, counter: &mut C) -> Option<(K, &'a V)>
        ensures pair { option_map (λ p. (K.bytes p.0, p.1.now)) result
            ≡ longest_match (K.bytes probe.now) (seen_pairs self.entry) }
        ensures visits { C.number counter.new
            ≡ C.number counter.old + probe_count (seen_keys self.entry) (K.bytes probe.now) }
        ensures bound { C.number counter.new
            ≤ C.number counter.old + length (K.bytes probe.now) + 1 }
    {
        self.longest_prefix_match_bytes_counted(probe.as_ref(), counter)
    }

    /// Returns the value of the longest key that begins `probe`, which may be longer than any key.
    ///
    /// # Visits
    ///
    /// At most `probe.len() + 1` nodes.
    pub fn longest_prefix_value_bytes_counted(self, probe: &[u8], counter: &mut C) -> Option<&'a V>
        ensures value { option_copied result ≡ longest_value probe.now (seen_pairs self.entry) }
        ensures visits { C.number counter.new ≡ C.number counter.old
            + probe_count (seen_keys self.entry) probe.now }
        ensures bound { C.number counter.new ≤ C.number counter.old + length probe.now + 1 }
    {
        let (_, value) = self.longest_prefix_len_bytes_counted(probe, counter)?;
        Some(value)
    }

    /// Returns the value of the longest key that begins the probe.
    ///
    /// # Visits
    ///
    /// At most `probe.len() + 1` nodes.
    pub fn longest_prefix_value_k_counted(self, probe: &K, counter: &mut C) -> Option<&'a V>
        ensures value { option_copied result
            ≡ longest_value (K.bytes probe.now) (seen_pairs self.entry) }
        ensures visits { C.number counter.new
            ≡ C.number counter.old + probe_count (seen_keys self.entry) (K.bytes probe.now) }
        ensures bound { C.number counter.new
            ≤ C.number counter.old + length (K.bytes probe.now) + 1 }
    {
        self.longest_prefix_value_bytes_counted(probe.as_ref(), counter)
    }

    /// Calls `f` with each pair whose key begins `probe`, which may be longer than any key, the shortest first. The key
    /// is borrowed from the probe: its first bytes. `f` must be callable with each of these in turn. The caller keeps
    /// `f`.
    ///
    /// # Visits
    ///
    /// At most `probe.len() + 1` nodes.
    pub fn prefix_match_for_each_by_ref_bytes_counted<F: FnMut(&[u8], &V)>(
        self,
        probe: &[u8],
        f: &mut F,
        counter: &mut C,
    )
        requires callable { CanMatch F.FnMut f.old (matches probe.now (seen_pairs self)) }
        ensures stays_callable { F.IsAlwaysCallable f.old → F.IsAlwaysCallable f.new }
        ensures calls { MatchesEach F.FnMut f.old
            (matches probe.now (seen_pairs self.entry)) f.new }
        ensures visits { C.number counter.new ≡ C.number counter.old
            + probe_count (seen_keys self.entry) probe.now }
        ensures bound { C.number counter.new ≤ C.number counter.old + length probe.now + 1 }
    {
        let mut matching = self.matching();
        while let Some(value) = matching.advance(probe, counter) {
            f(probe_start(probe, matching.depth), value);
        }
    }

    /// Calls `f` as [`prefix_match_for_each_by_ref_bytes_counted`](Self::prefix_match_for_each_by_ref_bytes_counted)
    /// does, and drops it.
    ///
    /// # Visits
    ///
    /// At most `probe.len() + 1` nodes.
    pub fn prefix_match_for_each_bytes_counted<F: FnMut(&[u8], &V) + Drop>(
        self,
        probe: &[u8],
        mut f: F,
        counter: &mut C,
    )
        requires callable { CanMatch F.FnMut f (matches probe.now (seen_pairs self)) }
        ensures calls { MatchesEachByValue F.FnMut f (matches probe.now (seen_pairs self.entry)) }
        ensures visits { C.number counter.new ≡ C.number counter.old
            + probe_count (seen_keys self.entry) probe.now }
        ensures bound { C.number counter.new ≤ C.number counter.old + length probe.now + 1 }
    {
        self.prefix_match_for_each_by_ref_bytes_counted(probe, &mut f, counter);
    }

    /// Calls `f` as [`prefix_match_for_each_by_ref_bytes_counted`](Self::prefix_match_for_each_by_ref_bytes_counted)
    /// does, with the bytes of `probe`.
    ///
    /// # Visits
    ///
    /// At most `probe.len() + 1` nodes.
    pub fn prefix_match_for_each_by_ref_k_counted<F: FnMut(&[u8], &V)>(
        self,
        probe: &K,
        f: &mut F,
        counter: &mut C,
    )
        requires callable { CanMatch F.FnMut f.old (matches (K.bytes probe.now) (seen_pairs self)) }
        ensures stays_callable { F.IsAlwaysCallable f.old → F.IsAlwaysCallable f.new }
        ensures calls { MatchesEach F.FnMut f.old
            (matches (K.bytes probe.now) (seen_pairs self.entry)) f.new }
        ensures visits { C.number counter.new
            ≡ C.number counter.old + probe_count (seen_keys self.entry) (K.bytes probe.now) }
        ensures bound { C.number counter.new
            ≤ C.number counter.old + length (K.bytes probe.now) + 1 }
    {
        self.prefix_match_for_each_by_ref_bytes_counted(probe.as_ref(), f, counter);
    }

    /// Calls `f` as [`prefix_match_for_each_by_ref_k_counted`](Self::prefix_match_for_each_by_ref_k_counted) does, and
    /// drops it.
    ///
    /// # Visits
    ///
    /// At most `probe.len() + 1` nodes.
    pub fn prefix_match_for_each_k_counted<F: FnMut(&[u8], &V) + Drop>(
        self,
        probe: &K,
        mut f: F,
        counter: &mut C,
    )
        requires callable { CanMatch F.FnMut f (matches (K.bytes probe.now) (seen_pairs self)) }
        ensures calls { MatchesEachByValue F.FnMut f
            (matches (K.bytes probe.now) (seen_pairs self.entry)) }
        ensures visits { C.number counter.new
            ≡ C.number counter.old + probe_count (seen_keys self.entry) (K.bytes probe.now) }
        ensures bound { C.number counter.new
            ≤ C.number counter.old + length (K.bytes probe.now) + 1 }
    {
        self.prefix_match_for_each_by_ref_k_counted(probe, &mut f, counter);
    }
}

/// Iterates over the pairs whose key begins a probe, the shortest first. `P` is the `PartialType` of `K`.
#[derive(Drop)]
pub struct PrefixMatchIter<'a, K: KeyTrait, P: Partial, V> {
    matching: Matching<'a, P, V, Visits>,
    // the probe's bytes, as a part, since a part can always be dropped
    probe: P,
    of: PhantomData<K>,
}

impl<'a, K: KeyTrait, P: Partial, V> Model for PrefixMatchIter<'a, K, P, V> {
    ghost use Rattle.std.specs.Prelude.{ℕ, ◌≤◌, List, length, option_map};
    ghost use Rattle.rart_keys.specs.KeyBytes.{IsWithin};
    ghost use Rattle.rart_nodes.specs.walks.Matches.{matches_ahead};

    ghost Value = { List (List ℕ × V) };

    ghost view = { λ it. matches_ahead (P.bytes it.probe) it.matching.depth
        (option_map (λ s. s.node.now) it.matching.below) };

    ghost invariant = { λ it. (it.matching.depth ≤ length (P.bytes it.probe))
        × IsWithin K.MAXIMUM_SIZE (length (P.bytes it.probe)) };
}

impl<'a, K: KeyTrait, P: Partial, V> Iterator for PrefixMatchIter<'a, K, P, V> {
    type Item = (K, &'a V);

    ghost next_gives = { YieldsFirstBy (λ p. (K.bytes p.0, p.1.now)) (λ rest. rest) };

    ghost remaining = { item_count (λ rest. rest) };

    /// Returns no bound, as the descent does not count the remaining matches.
    fn size_hint(&self) -> (usize, Option<usize>) {
        (0, None)
    }

    /// Descends to the next pair and returns it. It is fused and does not allocate.
    fn next(&mut self) -> Option<(K, &'a V)> {
        let bytes = self.probe.to_slice();
        let value = self.matching.advance(bytes, &mut Visits::new())?;
        Some((
            K::new_from_slice(probe_start(bytes, self.matching.depth)),
            value,
        ))
    }
}

impl<'a, K: KeyTrait, V> Seen<'a, K, V, Visits> {
    /// Returns an iterator over the pairs whose key begins `probe`, the shortest first. It copies the probe and visits
    /// no node.
    pub fn prefix_match_iter_k(self, probe: &K) -> PrefixMatchIter<'a, K, K::PartialType, V>
        ensures { result ≡ matches (K.bytes probe.now) (seen_pairs self.entry) }
    {
        PrefixMatchIter {
            matching: self.matching(),
            probe: probe.to_partial(0),
            of: PhantomData,
        }
    }
}
