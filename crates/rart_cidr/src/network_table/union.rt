//! The networks that one of two tables has, or both.
ghost use Rattle.std.specs.Prelude.{◌≡◌, false, option_map};
ghost use Rattle.std.specs.Option.{option_copied};
ghost use Rattle.rart_keys.specs.Ranges.{pairs_from};
ghost use Rattle.rart.specs.UnionCalls.{CalledAtEither, CallsAtEither, CallsAtEitherByValue};
ghost use Rattle.rart.specs.UnionCalls.{CanCallAtEither, TakesEither};
ghost use Rattle.rart.specs.Unions.{union_of};
ghost use Rattle.rart_cidr.specs.tables.TwoTables.{least_route, next_if};

use crate::cidr::Network;
use crate::network_table::NetworkTable;
use std::cmp::Ordering;

// Returns the lesser network of two routes, and the target of each route of this network.
fn least<'a, 'b, N: Network, T, U>(
    at: &Option<(N, &'a T)>,
    there: &Option<(N, &'b U)>,
) -> Option<(N, Option<&'a T>, Option<&'b U>)>
    ensures { option_map (λ p. (N.bits p.0, (option_copied p.1, option_copied p.2))) result
        ≡ least_route (option_map (λ p. (N.bits p.0, p.1.now)) at.now)
        (option_map (λ p. (N.bits p.0, p.1.now)) there.now) }
{
    let Some((net, target)) = at else {
        return match there {
            Some((net, target)) => Some((*net, None, Some(*target))),
            None => None,
        };
    };
    let Some((net_there, target_there)) = there else {
        return Some((*net, Some(*target), None));
    };
    match net.cmp_bits(net_there) {
        Ordering::Less => Some((*net, Some(*target), None)),
        Ordering::Equal => Some((*net, Some(*target), Some(*target_there))),
        Ordering::Greater => Some((*net_there, None, Some(*target_there))),
    }
}

// Calls `f` with a network and its target in each table.
fn call_for_either<N: Network, T, U, F: FnMut(&N, Option<&T>, Option<&U>)>(
    net: &N,
    target: Option<&T>,
    target_there: Option<&U>,
    f: &mut F,
)
    requires { TakesEither F.FnMut (λ net. N.bits net.now) f.old
        (N.bits net.now, (option_copied target, option_copied target_there)) }
    ensures { CalledAtEither F.FnMut (λ net. N.bits net.now) f.old
        (N.bits net.now, (option_copied target.entry, option_copied target_there.entry)) f.new }
{
    f(net, target, target_there);
}

impl<N: Network, T> NetworkTable<N, T> {
    /// Calls `f` with each network that either table has, by address, then by length, and its target in each. The
    /// caller keeps `f`. It looks up each route of both tables once, and allocates nothing.
    pub fn union_with_by_ref<U, F: FnMut(&N, Option<&T>, Option<&U>)>(
        &self,
        other: &NetworkTable<N, U>,
        f: &mut F,
    )
        requires callable { CanCallAtEither F.FnMut (λ net. N.bits net.now) f.old
            (union_of self.now other.now) }
        ensures stays_callable { F.IsAlwaysCallable f.old → F.IsAlwaysCallable f.new }
        ensures calls { CallsAtEither F.FnMut (λ net. N.bits net.now) f.old
            (union_of self.now other.now) f.new }
    {
        self.ascends();
        other.ascends();
        let mut at = self.first();
        let mut there = other.first();
        while let Some(next) = least(&at, &there) {
            call_for_either(&next.0, next.1, next.2, f);
            at = self.after_if(next.1.is_some(), &next.0, at);
            there = other.after_if(next.2.is_some(), &next.0, there);
        }
    }

    /// Calls `f` as [`union_with_by_ref`](Self::union_with_by_ref), and drops it.
    pub fn union_with<U, F: FnMut(&N, Option<&T>, Option<&U>) + Drop>(
        &self,
        other: &NetworkTable<N, U>,
        mut f: F,
    )
        requires callable { CanCallAtEither F.FnMut (λ net. N.bits net.now) f
            (union_of self.now other.now) }
        ensures calls { CallsAtEitherByValue F.FnMut (λ net. N.bits net.now) f
            (union_of self.now other.now) }
    {
        self.union_with_by_ref(other, &mut f);
    }

    // Returns the first route after `net` if the walk is at it, and else the route that the walk is at.
    fn after_if<'a>(&'a self, is_at: bool, net: &N, at: Option<(N, &'a T)>) -> Option<(N, &'a T)>
        ensures { option_map (λ p. (N.bits p.0, p.1.now)) result
            ≡ next_if is_at (pairs_from false (N.bits net.now) self.now)
            (option_map (λ p. (N.bits p.0, p.1.now)) at.entry) }
    {
        if is_at { self.first_after(net) } else { at }
    }
}
