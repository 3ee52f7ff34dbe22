//! The last route.
ghost use Rattle.std.specs.Prelude.{◌≡◌, [], Some, None, option_map, MatchOption};
ghost use Rattle.rart_keys.specs.Filters.{last_or};
ghost use Rattle.rart_keys.specs.SortedMap.{lookup};

use crate::cidr::Network;
use crate::network_table::NetworkTable;
use rart::KeyTrait;

impl<N: Network, T> NetworkTable<N, T> {
    /// Returns the last route by address, then by length, or `None` for an empty table. Allocates nothing.
    ///
    /// It looks up the first route of the last stride and the routes after it, one after the other. These are routes of
    /// that stride and of those at beginnings of its octets, at most 255 each.
    pub fn last(&self) -> Option<(N, &T)>
        ensures { option_map (λ p. (N.bits p.0, p.1.now)) result ≡ last_or None self.now }
    {
        self.ascends();
        let Some(start) = self.late() else {
            return None;
        };
        let mut last = start;
        while let Some(next) = self.first_after(&last.0) {
            last = next;
        }
        Some(last)
    }

    // Returns a route of the last stride, or else the first route.
    fn late(&self) -> Option<(N, &T)>
        ensures { MatchOption result (self.now ≡ [])
            (λ p. lookup (N.bits p.0) self.now ≡ Some p.1.now) }
    {
        self.ascends();
        match self.routes.late_route() {
            Some((key, code, target)) => Some((N::whole().at_code(key.as_ref(), code), target)),
            None => self.first(),
        }
    }
}
