//! Targets by network of either version.
ghost use Rattle.std.specs.Prelude.{◌≡◌, ◌↔◌, ◌+◌, [], length, is_some, option_map, IfSome, IsTrue};
ghost use Rattle.std.specs.Borrow.{sem};
ghost use Rattle.std.specs.Option.{option_copied, option_copied_mut};
ghost use Rattle.rart_keys.specs.Filters.{longest_match};
ghost use Rattle.rart_keys.specs.SortedMap.{lookup};
ghost use Rattle.rart_cidr.specs.Edits.{InsertsRoute, RemovesRoute};
ghost use Rattle.rart_cidr.specs.tables.IpLoans.{lends_ip_target};
ghost use Rattle.rart_cidr.specs.tables.IpNets.{addr_bits, ip_bits, is_v4, is_v4_addr, other_routes, routes_for};

use crate::ip_net::IpNet;
use crate::network_table::{CidrTable4, CidrTable6};
use rart::{Refused, TreeError};
use std::alloc::Global;
use std::marker::Model;
use std::net::IpAddr;

/// Targets by network of either version: a table of IPv4 networks and one of IPv6 networks.
///
/// Contracts see it as the routes of both.
#[derive(Drop)]
pub struct CidrTable<T> {
    v4: CidrTable4<T>,
    v6: CidrTable6<T>,
}

impl<T> Model for CidrTable<T> {
    ghost use Rattle.std.specs.Prelude.{ℕ, List};

    ghost Value = { List (List ℕ × T) × List (List ℕ × T) };

    ghost view = { λ t. (t.v4, t.v6) };
}

impl<T> CidrTable<T> {
    /// Creates an empty table, which requests all memory from `alloc`. Allocates nothing.
    pub fn new(alloc: Global) -> Self
        ensures { result ≡ ([], []) }
    {
        CidrTable {
            v4: CidrTable4::new(alloc),
            v6: CidrTable6::new(alloc),
        }
    }

    /// Returns the table of the IPv4 networks.
    pub fn v4(&self) -> &CidrTable4<T>
        ensures { result.now ≡ self.now.0 }
    {
        &self.v4
    }

    /// Returns the table of the IPv6 networks.
    pub fn v6(&self) -> &CidrTable6<T>
        ensures { result.now ≡ self.now.1 }
    {
        &self.v6
    }

    /// Returns the number of routes of both versions.
    pub fn len(&self) -> usize
        ensures { result ≡ length self.now.0 + length self.now.1 }
    {
        self.v4.len() + self.v6.len()
    }

    /// Returns whether there is no route.
    pub fn is_empty(&self) -> bool
        ensures { IsTrue result ↔ ((self.now.0 ≡ []) × (self.now.1 ≡ [])) }
    {
        self.v4.is_empty() && self.v6.is_empty()
    }

    /// Removes all routes and drops their targets. Never fails.
    pub fn clear(&mut self)
    where
        T: Drop,
        ensures { self.new ≡ ([], []) }
    {
        self.v4.clear();
        self.v6.clear();
    }

    /// Returns the target of exactly `net`.
    pub fn get(&self, net: &IpNet) -> Option<&T>
        ensures { option_copied result
            ≡ lookup (ip_bits net.now) (routes_for (is_v4 net.now) self.now) }
    {
        match net {
            IpNet::V4(net) => self.v4.get(net),
            IpNet::V6(net) => self.v6.get(net),
        }
    }

    /// Returns whether exactly `net` has a route.
    pub fn contains_key(&self, net: &IpNet) -> bool
        ensures { result
            ≡ is_some (lookup (ip_bits net.now) (routes_for (is_v4 net.now) self.now)) }
    {
        self.get(net).is_some()
    }

    /// Returns a mutable reference to the target of exactly `net`.
    ///
    /// After the borrow ends, only this target can have changed.
    pub fn get_mut<'a>(&'a mut self, net: &IpNet) -> Option<&'a mut T>
        ensures* writes_back { sem 𝓛 (lends_ip_target T.row self.entry net.now result) }
        ensures value { option_copied_mut result
            ≡ lookup (ip_bits net.now) (routes_for (is_v4 net.now) self.old) }
    {
        match net {
            IpNet::V4(net) => self.v4.get_mut(net),
            IpNet::V6(net) => self.v6.get_mut(net),
        }
    }

    /// Returns the route with the longest network that contains `addr`.
    pub fn longest_match(&self, addr: IpAddr) -> Option<(IpNet, &T)>
        ensures value { option_map (λ p. (ip_bits p.0, p.1.now)) result
            ≡ longest_match (addr_bits addr) (routes_for (is_v4_addr addr) self.now) }
        ensures version { IfSome result (λ p. is_v4 p.0 ≡ is_v4_addr addr) }
    {
        self.longest_match_net(&IpNet::host(addr))
    }

    /// Returns the route with the longest network that contains all addresses of `net`.
    pub fn longest_match_net(&self, net: &IpNet) -> Option<(IpNet, &T)>
        ensures value { option_map (λ p. (ip_bits p.0, p.1.now)) result
            ≡ longest_match (ip_bits net.now) (routes_for (is_v4 net.now) self.now) }
        ensures version { IfSome result (λ p. is_v4 p.0 ≡ is_v4 net.now) }
    {
        match net {
            IpNet::V4(net) => match self.v4.longest_match_net(net) {
                Some((found, target)) => Some((IpNet::V4(found), target)),
                None => None,
            },
            IpNet::V6(net) => match self.v6.longest_match_net(net) {
                Some((found, target)) => Some((IpNet::V6(found), target)),
                None => None,
            },
        }
    }

    /// Inserts a route from `net` to `target`, and returns the old target.
    ///
    /// # Errors
    ///
    /// [`TreeError::Full`] if `net` is new and the table holds as many routes of its version as it can,
    /// [`TreeError::Memory`] if it is new, the table has routes of its version and an allocation fails. The table is
    /// then unchanged, and the error holds `target`.
    pub fn insert(&mut self, net: &IpNet, target: T) -> Result<Option<T>, Refused<T>>
    where
        T: Drop,
        ensures inserts { InsertsRoute (ip_bits net.now) target
            (routes_for (is_v4 net.now) self.old) (routes_for (is_v4 net.now) self.new) result }
        ensures others { other_routes (is_v4 net.now) self.new
            ≡ other_routes (is_v4 net.now) self.old }
    {
        match net {
            IpNet::V4(net) => self.v4.insert(net, target),
            IpNet::V6(net) => self.v6.insert(net, target),
        }
    }

    /// Removes the route of exactly `net`, and returns its target.
    ///
    /// # Errors
    ///
    /// [`TreeError::Memory`] if the route is stored, the table has at least five of its version, its removal must
    /// allocate and the allocation fails. The table is then unchanged.
    pub fn remove(&mut self, net: &IpNet) -> Result<Option<T>, TreeError>
    where
        T: Drop,
        ensures removes { RemovesRoute (ip_bits net.now) (routes_for (is_v4 net.now) self.old)
            (routes_for (is_v4 net.now) self.new) result }
        ensures others { other_routes (is_v4 net.now) self.new
            ≡ other_routes (is_v4 net.now) self.old }
    {
        match net {
            IpNet::V4(net) => self.v4.remove(net),
            IpNet::V6(net) => self.v6.remove(net),
        }
    }
}
