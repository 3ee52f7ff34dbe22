//! The networks that two tables share.

// Each table's walk skips to the network that the other one is at.

ghost use Rattle.rart_keys.specs.Joins.{join};
ghost use Rattle.rart_nodes.specs.joins.PairCalls.{CalledAt, CallsAtEach, CallsAtEachByValue, CanCallAt, TakesAtKey};

use crate::cidr::Network;
use crate::network_table::NetworkTable;
use std::cmp::Ordering;

// Calls `f` with a network and both targets.
fn call_for_both<N: Network, T, U, F: FnMut(&N, &T, &U)>(
    net: &N,
    target: &T,
    target_there: &U,
    f: &mut F,
)
    requires { TakesAtKey F.FnMut (λ net. N.bits net.now) f.old
        (N.bits net.now, (target.now, target_there.now)) }
    ensures { CalledAt F.FnMut (λ net. N.bits net.now) f.old
        (N.bits net.now, (target.now, target_there.now)) f.new }
{
    f(net, target, target_there);
}

impl<N: Network, T> NetworkTable<N, T> {
    /// Calls `f` with each network that both tables have, by address, then by length, and its target in each. The
    /// caller keeps `f`.
    ///
    /// Allocates nothing. It skips what one of the tables lacks: each step looks up the next route of one table, from
    /// the network on that the other one is at. No route is looked up twice.
    pub fn intersect_with_by_ref<U, F: FnMut(&N, &T, &U)>(
        &self,
        other: &NetworkTable<N, U>,
        f: &mut F,
    )
        requires callable { CanCallAt F.FnMut (λ net. N.bits net.now) f.old
            (join self.now other.now) }
        ensures stays_callable { F.IsAlwaysCallable f.old → F.IsAlwaysCallable f.new }
        ensures calls { CallsAtEach F.FnMut (λ net. N.bits net.now) f.old
            (join self.now other.now) f.new }
    {
        self.ascends();
        other.ascends();
        let mut at = self.first();
        let mut there = other.first();
        while let Some(route) = at {
            let Some(route_there) = there else {
                return;
            };
            match route.0.cmp_bits(&route_there.0) {
                Ordering::Less => {
                    at = self.first_at_or_after(&route_there.0);
                    there = Some(route_there);
                }
                Ordering::Equal => {
                    call_for_both(&route.0, route.1, route_there.1, f);
                    there = other.first_after(&route.0);
                    at = Some(route);
                }
                Ordering::Greater => {
                    there = other.first_at_or_after(&route.0);
                    at = Some(route);
                }
            }
        }
    }

    /// Calls `f` as [`intersect_with_by_ref`](Self::intersect_with_by_ref), and drops it.
    pub fn intersect_with<U, F: FnMut(&N, &T, &U) + Drop>(
        &self,
        other: &NetworkTable<N, U>,
        mut f: F,
    )
        requires callable { CanCallAt F.FnMut (λ net. N.bits net.now) f (join self.now other.now) }
        ensures calls { CallsAtEachByValue F.FnMut (λ net. N.bits net.now) f
            (join self.now other.now) }
    {
        self.intersect_with_by_ref(other, &mut f);
    }
}
