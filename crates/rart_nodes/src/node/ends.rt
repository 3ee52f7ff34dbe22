//! The first and the last pair of a tree, each on one descent.
ghost use Rattle.std.specs.Prelude.{◌≡◌, ◌+◌, IfSome, Some, None, drop, length, option_map, slice_get};
ghost use Rattle.rart_keys.specs.Filters.{last_or};
ghost use Rattle.rart_keys.specs.KeyBytes.{IsWithin};
ghost use Rattle.rart_keys.specs.SortedMap.{keys_of};
ghost use Rattle.rart_trie.specs.tries.Ends.{end_of};
ghost use Rattle.rart_trie.specs.tries.Trie.{pairs_of};
ghost use Rattle.rart_nodes.specs.tries.KeysAfter.{after_bytes};
ghost use Rattle.rart_nodes.specs.tries.SeenTrees.{seen_keys, seen_pairs};
ghost use Rattle.rart_trie.specs.walks.ProbeCount.{VisitsAtMost, VisitsExactly, probe_count};

use crate::node::seen::{Seen, Shared};
use rart_keys::{KeyTrait, Partial};
use rart_trie::Count;
use rart_trie::node::End;

/// Descends from `top` to its first or last pair, and returns the path to it after `start`, and its value. The path
/// must be within the maximum.
pub(crate) fn end_below<'a, P: Partial, V, C: Count>(
    top: Shared<'a, P, V, C>,
    start: P,
    end: End,
    counter: &mut C,
) -> (P, &'a V)
    requires within { IfSome (end_of end (pairs_of top.node.now))
        (λ e. IsWithin P.MAXIMUM_SIZE (length (P.bytes start) + length e.0)) }
    ensures pair { after_bytes (P.bytes start) (end_of end (pairs_of top.entry.node.now))
        ≡ Some (P.bytes result.0, result.1.now) }
    ensures visits { C.number counter.new ≡ C.number counter.old
        + probe_count (keys_of (pairs_of top.entry.node.now))
        (drop (length (P.bytes start)) (P.bytes result.0)) }
{
    let mut at = top.enter(counter);
    let mut path = start.partial_extended_with(at.prefix());
    while let Some(child) = at.end_child(end) {
        at = child.enter(counter);
        path = path.partial_extended_with(at.prefix());
    }
    let Some(value) = at.value() else {
        unreachable!()
    };
    (path, value)
}

impl<'a, K: KeyTrait, V, C: Count> Seen<'a, K, V, C> {
    fn end_pair(self, end: End, counter: &mut C) -> Option<(K, &'a V)>
        ensures pair { option_map (λ p. (K.bytes p.0, p.1.now)) result
            ≡ end_of end (seen_pairs self.entry) }
        ensures visits { VisitsExactly (λ p. probe_count (seen_keys self.entry) (K.bytes p.0))
            (C.number counter.old) result (C.number counter.new) }
    {
        let top = self.top()?;
        let start = K::PartialType::from_slice(&[]);
        let (path, value) = end_below(top, start, end, counter);
        Some((K::new_from_partial(&path), value))
    }

    /// Returns the pair with the least key. It makes the key and does not allocate.
    ///
    /// # Visits
    ///
    /// Those of a look-up of the key: at most one node more than the key has bytes. None in an empty tree.
    pub fn first_key_value_counted(self, counter: &mut C) -> Option<(K, &'a V)>
        ensures pair { option_map (λ p. (K.bytes p.0, p.1.now)) result
            ≡ slice_get (seen_pairs self.entry) 0 }
        ensures visits { VisitsExactly (λ p. probe_count (seen_keys self.entry) (K.bytes p.0))
            (C.number counter.old) result (C.number counter.new) }
        ensures bound { VisitsAtMost (λ p. length (K.bytes p.0) + 1) (C.number counter.old) result
            (C.number counter.new) }
    {
        self.end_pair(End::First, counter)
    }

    /// Returns the pair with the greatest key. It makes the key and does not allocate.
    ///
    /// # Visits
    ///
    /// Those of a look-up of the key: at most one node more than the key has bytes. None in an empty tree.
    pub fn last_key_value_counted(self, counter: &mut C) -> Option<(K, &'a V)>
        ensures pair { option_map (λ p. (K.bytes p.0, p.1.now)) result
            ≡ last_or None (seen_pairs self.entry) }
        ensures visits { VisitsExactly (λ p. probe_count (seen_keys self.entry) (K.bytes p.0))
            (C.number counter.old) result (C.number counter.new) }
        ensures bound { VisitsAtMost (λ p. length (K.bytes p.0) + 1) (C.number counter.old) result
            (C.number counter.new) }
    {
        self.end_pair(End::Last, counter)
    }
}
