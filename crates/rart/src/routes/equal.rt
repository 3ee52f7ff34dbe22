//! Equality of two route tables, as that of their trees.

use crate::routes::RouteTable;
use rart_keys::KeyTrait;

/// Tables are equal if their routes are: equal prefixes, and targets equal by the `==` of `T`.
impl<K: KeyTrait, T: PartialEq> PartialEq for RouteTable<K, T> {
    ghost use Rattle.std.specs.Cmp.{and_per, on_per, partial_equiv_from_equiv};
    ghost use Rattle.std.specs.Cmp.Lexicographic.{lists_per, nat_list_eq_equiv};
    ghost use Rattle.rart_nodes.specs.tries.Equal.{same_pairs};

    ghost eq = { λ s t. same_pairs T.eq s.pairs t.pairs };

    ghost laws = { on_per (λ t. t.pairs) (lists_per (and_per
        (on_per (λ p. p.0) (partial_equiv_from_equiv nat_list_eq_equiv))
        (on_per (λ p. p.1) T.laws))) };

    fn eq(&self, other: &Self) -> bool {
        self.routes == other.routes
    }
}

impl<K: KeyTrait, T: Eq> Eq for RouteTable<K, T> {
    ghost use Rattle.std.specs.Cmp.{and_equiv, on_equiv};
    ghost use Rattle.std.specs.Cmp.Lexicographic.{lists_equiv, nat_list_eq_equiv};

    ghost laws = { on_equiv (λ t. t.pairs) (lists_equiv (and_equiv
        (on_equiv (λ p. p.0) nat_list_eq_equiv) (on_equiv (λ p. p.1) T.Eq.laws))) };
}
