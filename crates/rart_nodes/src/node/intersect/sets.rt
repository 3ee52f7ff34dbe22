//! Two shared trees as sets of keys: whether one has all keys of the other, and whether they share any.
ghost use Rattle.std.specs.Prelude.{◌≡◌, ◌≤◌, ◌<◌, ◌+◌, ◌↔◌, IsTrue, length};
ghost use Rattle.rart_keys.specs.Joins.{AreKeysOf, ShareNoKey};
ghost use Rattle.rart_nodes.specs.joins.SeenJoins.{seen_bound, seen_visits};
ghost use Rattle.rart_nodes.specs.tries.SeenTrees.{seen_pairs};

use crate::node::intersect::join_path::JoinPath;
use crate::node::intersect::visitor::AtFirst;
use crate::node::intersect::{both_tops, intersect_trees};
use crate::node::seen::Seen;
use rart_keys::KeyTrait;
use rart_trie::{Count, Paired};

impl<'a, K: KeyTrait, V, C: Count> Seen<'a, K, V, C> {
    /// Returns whether each key of this tree is a key of `other`. The values don't count. `len` and `other_len` must be
    /// the numbers of pairs of both trees. It makes no key and does not allocate.
    ///
    /// # Visits
    ///
    /// At most as `intersect_count_counted`; none if this tree has more keys.
    pub fn is_subset_counted<'b, W>(
        self,
        len: usize,
        other: Seen<'b, K, W, Paired<C>>,
        other_len: usize,
        counter: &mut C,
    ) -> bool
        requires len { len ≡ length (seen_pairs self) }
        requires other_len { other_len ≡ length (seen_pairs other) }
        ensures value { IsTrue result
            ↔ AreKeysOf (seen_pairs self.entry) (seen_pairs other.entry) }
        ensures visits { C.number counter.new
            ≤ C.number counter.old + seen_visits self.entry other.entry }
        ensures bound { C.number counter.new
            ≤ C.number counter.old + seen_bound self.entry other.entry }
        ensures no_visits { length (seen_pairs other.entry) < length (seen_pairs self.entry)
            → C.number counter.new ≡ C.number counter.old }
    {
        rart_keys::laws::joins::<V, W>();
        rart_keys::laws::joins::<W, V>();
        if other_len < len {
            return false;
        }
        self.intersect_count_counted(other, counter) == len
    }

    /// Returns whether no key of this tree is a key of `other`. The values don't count. It makes no key and does not
    /// allocate.
    ///
    /// # Visits
    ///
    /// Up to the first shared key: at most as `intersect_count_counted`, and as many if there is none.
    pub fn is_disjoint_counted<'b, W>(
        self,
        other: Seen<'b, K, W, Paired<C>>,
        counter: &mut C,
    ) -> bool
        ensures value { IsTrue result
            ↔ ShareNoKey (seen_pairs self.entry) (seen_pairs other.entry) }
        ensures visits { C.number counter.new
            ≤ C.number counter.old + seen_visits self.entry other.entry }
        ensures all_visits { IsTrue result → C.number counter.new
            ≡ C.number counter.old + seen_visits self.entry other.entry }
        ensures bound { C.number counter.new
            ≤ C.number counter.old + seen_bound self.entry other.entry }
    {
        rart_keys::laws::joins::<V, W>();
        let Some(tops) = both_tops(self, other) else {
            return true;
        };
        let mut path = JoinPath::Nothing;
        let walked = intersect_trees::<K, V, W, C, (), (), AtFirst>(
            self,
            other,
            tops,
            &mut path,
            counter,
            &mut (),
        );
        walked.is_ok()
    }
}
