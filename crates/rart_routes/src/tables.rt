//! The routes of a script.
ghost use Rattle.std.specs.Prelude.{◌≡◌, ◌+◌, length, option_map, IfErr, IfOk};
ghost use Rattle.std.specs.Option.{option_copied};
ghost use Rattle.rart_trie.specs.walks.Calls.{MayLackMemory};
ghost use Rattle.rart_routes.specs.Found.{found_left};
ghost use Rattle.rart_routes.specs.Net.{net_bits};
ghost use Rattle.rart_routes.specs.Tables.{AggregatesBoth, Inserts, MayLackMemoryAt, Removes};
ghost use Rattle.rart_routes.specs.Tables.{all_matches, all_routes, all_within, longest_route, no_routes, target_at};

use crate::found::{Both, Found};
use crate::net::Net;
use crate::target::Target;
use rart::{Refused, TreeError};
use rart_cidr::{CidrTable4, CidrTable6};
use std::alloc::Global;
use std::net::IpAddr;

/// A table of IPv4 and one of IPv6 networks.
#[derive(Drop)]
pub struct Tables {
    pub v4: CidrTable4<Target>,
    pub v6: CidrTable6<Target>,
}

impl Tables {
    /// Creates empty tables.
    pub fn new(alloc: Global) -> Self
        ensures { result ≡ no_routes }
    {
        Tables {
            v4: CidrTable4::new(alloc),
            v6: CidrTable6::new(alloc),
        }
    }

    /// Returns the number of routes.
    pub fn len(&self) -> usize
        ensures { result ≡ length self.now.v4 + length self.now.v6 }
    {
        self.v4.len() + self.v6.len()
    }

    /// Returns the target of exactly `net`.
    pub fn get(&self, net: &Net) -> Option<&Target>
        ensures { option_copied result ≡ target_at net.now self.now }
    {
        match net {
            Net::V4(net) => self.v4.get(net),
            Net::V6(net) => self.v6.get(net),
        }
    }

    /// Inserts a route from `net` to `target`, and returns the old target.
    ///
    /// # Errors
    ///
    /// Those of [`CidrTable4::insert`]. The tables are then unchanged.
    pub fn insert(&mut self, net: &Net, target: Target) -> Result<Option<Target>, Refused<Target>>
        ensures { Inserts net.now target self.old self.new result }
    {
        match net {
            Net::V4(net) => self.v4.insert(net, target),
            Net::V6(net) => self.v6.insert(net, target),
        }
    }

    /// Removes the route of exactly `net`, and returns its target.
    ///
    /// # Errors
    ///
    /// Those of [`CidrTable4::remove`]. The tables are then unchanged.
    pub fn remove(&mut self, net: &Net) -> Result<Option<Target>, TreeError>
        ensures { Removes net.now self.old self.new result }
    {
        match net {
            Net::V4(net) => self.v4.remove(net),
            Net::V6(net) => self.v6.remove(net),
        }
    }

    /// Removes the routes of both tables that change no longest match, and returns how many there were.
    ///
    /// # Errors
    ///
    /// Those of [`CidrTable4::aggregate`]. The IPv4 routes come first: if one of them can't be removed, the IPv6 routes
    /// are unchanged.
    pub fn aggregate(&mut self) -> Result<usize, TreeError>
        ensures { AggregatesBoth self.old self.new result }
    {
        let before = self.len();
        if let Err(error) = self.v4.aggregate() {
            return Err(error);
        }
        match self.v6.aggregate() {
            Ok(_) => Ok(before - self.len()),
            Err(error) => Err(error),
        }
    }

    /// Returns the route with the longest network that contains `addr`.
    pub fn longest_match(&self, addr: IpAddr) -> Option<(Net, &Target)>
        ensures { option_map (λ p. (net_bits p.0, p.1.now)) result ≡ longest_route addr self.now }
    {
        match addr {
            IpAddr::V4(addr) => {
                let (net, target) = self.v4.longest_match(addr)?;
                Some((Net::V4(net), target))
            }
            IpAddr::V6(addr) => {
                let (net, target) = self.v6.longest_match(addr)?;
                Some((Net::V6(net), target))
            }
        }
    }

    /// Returns the routes whose networks contain `addr`, the shortest first.
    pub fn matches(&self, addr: IpAddr) -> Found<'_>
        ensures { found_left result ≡ all_matches addr self.now }
    {
        match addr {
            IpAddr::V4(addr) => Found::Matches4(self.v4.matches(addr)),
            IpAddr::V6(addr) => Found::Matches6(self.v6.matches(addr)),
        }
    }

    /// Returns the routes inside `net`, ascending by address, then by length.
    ///
    /// # Errors
    ///
    /// [`TreeError::Memory`] if the network's table isn't empty and an allocation fails.
    pub fn within(&self, net: &Net) -> Result<Found<'_>, TreeError>
        ensures routes { IfOk result (λ found. found_left found ≡ all_within net.now self.now) }
        ensures memory { IfErr result (MayLackMemoryAt net.now self.now) }
    {
        match net {
            Net::V4(net) => match self.v4.within(net) {
                Ok(routes) => Ok(Found::Routes4(routes)),
                Err(error) => Err(error),
            },
            Net::V6(net) => match self.v6.within(net) {
                Ok(routes) => Ok(Found::Routes6(routes)),
                Err(error) => Err(error),
            },
        }
    }

    /// Returns all routes, those of IPv4 first, ascending by address, then by length.
    ///
    /// # Errors
    ///
    /// [`TreeError::Memory`] if a table isn't empty and an allocation fails.
    pub fn iter(&self) -> Result<Found<'_>, TreeError>
        ensures routes { IfOk result (λ found. found_left found ≡ all_routes self.now) }
        ensures memory { IfErr result (MayLackMemory (all_routes self.now)) }
    {
        match self.v4.iter() {
            Ok(v4) => match self.v6.iter() {
                Ok(v6) => Ok(Found::Both(Both { v4, v6 })),
                Err(error) => Err(error),
            },
            Err(error) => Err(error),
        }
    }
}
