//! Removal of all routes that a callback rejects.
ghost use Rattle.rart_cidr.specs.tables.RouteCalls.{CanCallForEach, RetainsRoutes, RetainsRoutesByValue};

use crate::cidr::Network;
use crate::network_table::NetworkTable;
use rart::TreeError;

impl<N: Network, T: Drop> NetworkTable<N, T> {
    /// Calls `f` with each network and a mutable reference to its target, by address, then by length, and removes the
    /// routes for which it returns `false`. The other routes keep the target that their call left.
    ///
    /// It looks up each route. `f` must be callable with each route in turn; the caller keeps it.
    ///
    /// # Errors
    ///
    /// Those of [`remove`](Self::remove), at the first route that can't be removed. The walk then ends: this route
    /// stays with the target that its call left. The routes that `f` was not called with are unchanged.
    pub fn retain_by_ref<F: FnMut(&N, &mut T) -> bool>(
        &mut self,
        f: &mut F,
    ) -> Result<(), TreeError>
        requires callable { CanCallForEach F.FnMut N.bits f.old self.old }
        ensures stays_callable { F.IsAlwaysCallable f.old → F.IsAlwaysCallable f.new }
        ensures retains { RetainsRoutes F.FnMut N.bits f.old self.old result self.new f.new }
    {
        self.ascends();
        let mut at = self.first_net();
        while let Some(net) = at {
            self.ascends();
            at = self.net_after(&net);
            if !self.call_for(&net, f) {
                if let Err(error) = self.delete(&net) {
                    return Err(error);
                }
            }
        }
        Ok(())
    }

    /// Keeps the routes for which `f` returns `true`, as [`retain_by_ref`](Self::retain_by_ref), and drops `f`.
    ///
    /// # Errors
    ///
    /// Those of [`retain_by_ref`](Self::retain_by_ref).
    pub fn retain<F: FnMut(&N, &mut T) -> bool + Drop>(&mut self, mut f: F) -> Result<(), TreeError>
        requires callable { CanCallForEach F.FnMut N.bits f self.old }
        ensures retains { RetainsRoutesByValue F.FnMut N.bits f self.old result self.new }
    {
        self.retain_by_ref(&mut f)
    }
}
