//! The route next to a network, and whether a network meets any route.
ghost use Rattle.std.specs.Prelude.{◌≡◌, ◌≢◌, ◌↔◌, ◌⊎◌, [], false, true, option_map, slice_get, IsTrue};
ghost use Rattle.std.specs.declared.ops.Bound.TheVariants.{Excluded, Included};
ghost use Rattle.rart_keys.specs.Filters.{below, matches};
ghost use Rattle.rart_keys.specs.Ranges.{from_bound, pairs_from};

use crate::cidr::Network;
use crate::network_table::NetworkTable;
use rart::KeyTrait;

impl<N: Network, T> NetworkTable<N, T> {
    /// Returns the first route by address, then by length, or `None` for an empty table. Allocates nothing.
    pub fn first(&self) -> Option<(N, &T)>
        ensures { option_map (λ p. (N.bits p.0, p.1.now)) result ≡ slice_get self.now 0 }
    {
        self.first_at_or_after(&N::whole())
    }

    /// Returns the first route that is `net` or comes after it, by address, then by length. Allocates nothing.
    pub fn first_at_or_after(&self, net: &N) -> Option<(N, &T)>
        ensures { option_map (λ p. (N.bits p.0, p.1.now)) result
            ≡ slice_get (from_bound (Included (N.bits net.now)) self.now) 0 }
    {
        self.ascends();
        match self.get(net) {
            Some(target) => Some((*net, target)),
            None => self.first_after(net),
        }
    }

    /// Returns the first route that comes after `net`, by address, then by length. Allocates nothing.
    pub fn first_after(&self, net: &N) -> Option<(N, &T)>
        ensures { option_map (λ p. (N.bits p.0, p.1.now)) result
            ≡ slice_get (from_bound (Excluded (N.bits net.now)) self.now) 0 }
    {
        match self.routes.next_route(net.octets(), usize::from(net.len())) {
            Some((key, code, target)) => Some((net.at_code(key.as_ref(), code), target)),
            None => None,
        }
    }

    /// Returns whether a route's network contains all addresses of `net`, or lies inside `net`. Allocates nothing.
    pub fn overlaps(&self, net: &N) -> bool
        ensures { IsTrue result
            ↔ ((matches (N.bits net.now) self.now ≢ []) ⊎ (below (N.bits net.now) self.now ≢ [])) }
    {
        match self.longest_match_net(net) {
            Some(_) => true,
            None => self.first_within(net).is_some(),
        }
    }

    // Returns the network of the first route inside `net`.
    pub(super) fn first_within(&self, net: &N) -> Option<N>
        ensures { option_map N.bits result
            ≡ option_map (λ e. e.0) (slice_get (below (N.bits net.now) self.now) 0) }
    {
        self.ascends();
        match self.net_at_or_after(net) {
            Some(found) => {
                if net.contains_net(&found) {
                    Some(found)
                } else {
                    None
                }
            }
            None => None,
        }
    }

    // Returns the network of the first route that is `net` or comes after it.
    pub(super) fn net_at_or_after(&self, net: &N) -> Option<N>
        ensures { option_map N.bits result ≡ option_map (λ e. e.0)
            (slice_get (pairs_from true (N.bits net.now) self.now) 0) }
    {
        match self.first_at_or_after(net) {
            Some((found, _)) => Some(found),
            None => None,
        }
    }

    // Returns the network of the first route.
    pub(super) fn first_net(&self) -> Option<N>
        ensures { option_map N.bits result ≡ option_map (λ e. e.0) (slice_get self.now 0) }
    {
        match self.first() {
            Some((net, _)) => Some(net),
            None => None,
        }
    }

    // Returns the network of the next route after `net`.
    pub(super) fn net_after(&self, net: &N) -> Option<N>
        ensures { option_map N.bits result ≡ option_map (λ e. e.0)
            (slice_get (pairs_from false (N.bits net.now) self.now) 0) }
    {
        match self.first_after(net) {
            Some((found, _)) => Some(found),
            None => None,
        }
    }
}
