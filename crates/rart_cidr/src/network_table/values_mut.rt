//! Walks that change targets in place.
ghost use Rattle.std.specs.Prelude.{◌≡◌, ◌≢◌, Some, None};
ghost use Rattle.rart_keys.specs.SortedMap.{lookup, put};
ghost use Rattle.rart_cidr.specs.tables.RouteCalls.{CalledForRoute, CanCallForEach, ChangesEach, ChangesEachByValue};
ghost use Rattle.rart_cidr.specs.tables.RouteCalls.{TakesRoute};

use crate::cidr::Network;
use crate::network_table::NetworkTable;

impl<N: Network, T> NetworkTable<N, T> {
    // Calls `f` with `net`, which must be stored, and a mutable reference to its target.
    pub(super) fn call_for<R, F: FnMut(&N, &mut T) -> R>(&mut self, net: &N, f: &mut F) -> R
        requires stored { lookup (N.bits net.now) self.old ≢ None }
        requires callable { (t : T) → lookup (N.bits net.now) self.old ≡ Some t
            → TakesRoute F.FnMut N.bits f.old (N.bits net.now, t) }
        ensures { (t : T) → lookup (N.bits net.now) self.old ≡ Some t
            → (w : T) × CalledForRoute F.FnMut N.bits f.old (N.bits net.now, t) result w f.new
            × (self.new ≡ put (N.bits net.now) w self.old) }
    {
        match self.get_mut(net) {
            Some(target) => f(net, target),
            None => unreachable!(),
        }
    }

    /// Calls `f` with each network and a mutable reference to its target, by address, then by length. `f` must be
    /// callable with each route in turn; the caller keeps it. Networks are unchanged. It looks up each route, and
    /// allocates nothing.
    pub fn for_each_value_mut_by_ref<F: FnMut(&N, &mut T)>(&mut self, f: &mut F)
        requires callable { CanCallForEach F.FnMut N.bits f.old self.old }
        ensures stays_callable { F.IsAlwaysCallable f.old → F.IsAlwaysCallable f.new }
        ensures changes { ChangesEach F.FnMut N.bits f.old self.old self.new f.new }
    {
        self.ascends();
        let mut at = self.first_net();
        while let Some(net) = at {
            self.ascends();
            at = self.net_after(&net);
            self.call_for(&net, f);
        }
    }

    /// Calls `f` as [`for_each_value_mut_by_ref`](Self::for_each_value_mut_by_ref), and drops it.
    pub fn for_each_value_mut<F: FnMut(&N, &mut T) + Drop>(&mut self, mut f: F)
        requires callable { CanCallForEach F.FnMut N.bits f self.old }
        ensures changes { ChangesEachByValue F.FnMut N.bits f self.old self.new }
    {
        self.for_each_value_mut_by_ref(&mut f);
    }
}
