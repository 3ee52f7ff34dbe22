//! Equality of two trees: they are equal exactly where their pairs are.

use crate::tree::AdaptiveRadixTree;
use rart_keys::KeyTrait;
use rart_nodes::Visits;

/// Trees are equal if their pairs are: equal keys, and values equal by the `==` of `V`. It compares their numbers of
/// pairs, then both trees node by node, makes no key and does not allocate.
impl<K: KeyTrait, V: PartialEq> PartialEq for AdaptiveRadixTree<K, V> {
    ghost use Rattle.std.specs.Prelude.{nat_eq};
    ghost use Rattle.std.specs.Cmp.{and_per, on_per, partial_equiv_from_equiv};
    ghost use Rattle.std.specs.Cmp.Lexicographic.{lists_per, nat_list_eq_equiv};
    ghost use Rattle.rart_nodes.specs.tries.Equal.{same_pairs};

    ghost eq = { λ s t. same_pairs V.eq s.pairs t.pairs };

    ghost laws = { on_per (λ t. t.pairs) (lists_per (and_per
        (on_per (λ p. p.0) (partial_equiv_from_equiv nat_list_eq_equiv))
        (on_per (λ p. p.1) V.laws))) };

    #[tactic(auto, using(crate::proofs::trees::EqualLemmas::lengths_apart))]
    fn eq(&self, other: &Self) -> bool {
        if self.len != other.len {
            return false;
        }
        self.seen()
            .has_same_pairs_counted(other.seen(), &mut Visits::new())
    }
}

impl<K: KeyTrait, V: Eq> Eq for AdaptiveRadixTree<K, V> {
    ghost use Rattle.std.specs.Cmp.{and_equiv, on_equiv};
    ghost use Rattle.std.specs.Cmp.Lexicographic.{lists_equiv, nat_list_eq_equiv};

    ghost laws = { on_equiv (λ t. t.pairs) (lists_equiv (and_equiv
        (on_equiv (λ p. p.0) nat_list_eq_equiv) (on_equiv (λ p. p.1) V.Eq.laws))) };
}
