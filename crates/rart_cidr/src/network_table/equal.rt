//! Equality of two tables: they are equal exactly where their routes are.
ghost use Rattle.std.specs.Prelude.{◌≡◌, ◌&&◌, nat_eq};
ghost use Rattle.std.specs.Cmp.Lexicographic.{pointwise};

use crate::cidr::Network;
use crate::network_table::NetworkTable;

// Returns whether two networks are equal.
fn is_same_net<N: Network>(net: &N, other: &N) -> bool
    ensures { result ≡ pointwise nat_eq (N.bits net.now) (N.bits other.now) }
{
    net.len() == other.len() && net.contains_net(other)
}

// Returns whether two routes are equal.
fn is_same_route<N: Network, T: PartialEq>(route: &(N, &T), other: &(N, &T)) -> bool
    ensures { result ≡ (pointwise nat_eq (N.bits route.now.0) (N.bits other.now.0)
        && T.eq route.now.1.now other.now.1.now) }
{
    is_same_net(&route.0, &other.0) && route.1 == other.1
}

/// Tables are equal if their routes are: equal networks, and targets equal by the `==` of `T`. It compares their
/// numbers of routes, then looks up each route of both once, up to the first that differs. It does not allocate.
impl<N: Network, T: PartialEq> PartialEq for NetworkTable<N, T> {
    ghost use Rattle.std.specs.Prelude.{nat_eq};
    ghost use Rattle.std.specs.Cmp.{and_per, on_per, partial_equiv_from_equiv};
    ghost use Rattle.std.specs.Cmp.Lexicographic.{lists_per, nat_list_eq_equiv};
    ghost use Rattle.rart_nodes.specs.tries.Equal.{same_pairs};

    ghost eq = { λ s t. same_pairs T.eq s t };

    ghost laws = { lists_per (and_per
        (on_per (λ p. p.0) (partial_equiv_from_equiv nat_list_eq_equiv))
        (on_per (λ p. p.1) T.laws)) };

    fn eq(&self, other: &Self) -> bool {
        if self.len() != other.len() {
            return false;
        }
        self.ascends();
        other.ascends();
        let mut at = self.first();
        let mut there = other.first();
        while let Some(route) = at {
            let Some(route_there) = there else {
                return false;
            };
            if !is_same_route(&route, &route_there) {
                return false;
            }
            at = self.first_after(&route.0);
            there = other.first_after(&route_there.0);
        }
        there.is_none()
    }
}

impl<N: Network, T: Eq> Eq for NetworkTable<N, T> {
    ghost use Rattle.std.specs.Cmp.{and_equiv, on_equiv};
    ghost use Rattle.std.specs.Cmp.Lexicographic.{lists_equiv, nat_list_eq_equiv};

    ghost laws = { lists_equiv (and_equiv
        (on_equiv (λ p. p.0) nat_list_eq_equiv) (on_equiv (λ p. p.1) T.Eq.laws)) };
}
