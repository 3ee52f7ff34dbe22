//! A table of networks, IPv4 or IPv6, with networks and addresses as numbers.

mod v4;
mod v6;
pub mod version;
pub mod whole;

use crate::model::{Group, Network, Route};
use crate::tables::version::{Version, cidr, number_of};
use rart::{Refused, TreeError};
use rart_cidr::{Matches, NetworkTable, Routes};
use rart_test_trees::tally::Tally;
use std::alloc::Global;

/// What a longest match finds, how many nodes of the map of strides it enters, and how many strides it reads.
pub type Reads = (Option<Route>, usize, usize);

fn route_of<N: Version>(found: Option<(N, &u64)>) -> Option<Route> {
    match found {
        Some((net, target)) => Some((number_of(&net), *target)),
        None => None,
    }
}

fn add_matches<N: Version>(walk: Matches<'_, N, u64>, given: &mut Vec<Route>) {
    for (net, target) in walk {
        let _added = given.push((number_of(&net), *target));
    }
}

fn add_routes<N: Version>(walk: Routes<'_, N, u64>, given: &mut Vec<Route>) {
    for (net, target) in walk {
        let _added = given.push((number_of(&net), *target));
    }
}

/// A table of networks of one version, and another one for calls on two.
#[derive(Drop)]
pub struct Table<N: Version> {
    routes: NetworkTable<N, u64>,
    other: NetworkTable<N, u64>,
}

impl<N: Version> Table<N> {
    /// Returns tables without routes.
    pub fn empty(alloc: Global) -> Self {
        Table {
            routes: NetworkTable::new(alloc),
            other: NetworkTable::new(alloc),
        }
    }

    /// Inserts a route and returns the old target.
    pub fn put(&mut self, net: Network, target: u64) -> Result<Option<u64>, Refused<u64>> {
        self.routes.insert(&cidr(net), target)
    }

    /// Removes a route and returns its target.
    pub fn take(&mut self, net: Network) -> Result<Option<u64>, TreeError> {
        self.routes.remove(&cidr(net))
    }

    /// Removes the routes inside `net`, and returns their number.
    pub fn take_inside(&mut self, net: Network) -> Result<usize, TreeError> {
        self.routes.remove_within(&cidr(net))
    }

    /// Removes the routes that change no longest match, and returns their number.
    pub fn aggregate(&mut self) -> Result<usize, TreeError> {
        self.routes.aggregate()
    }

    /// Writes the target of a stored network, and returns the old target.
    pub fn write(&mut self, net: Network, target: u64) -> Option<u64> {
        match self.routes.get_mut(&cidr(net)) {
            Some(stored) => {
                let old = *stored;
                *stored = target;
                Some(old)
            }
            None => None,
        }
    }

    /// Removes all routes.
    pub fn remove_all(&mut self) {
        self.routes.clear();
    }

    /// Returns the number of routes, and whether there is none.
    pub fn count(&self) -> (usize, bool) {
        (self.routes.len(), self.routes.is_empty())
    }

    /// Returns the target of exactly `net`, and whether it has one.
    pub fn target(&self, net: Network) -> (Option<u64>, bool) {
        let net = cidr(net);
        (
            self.routes.get(&net).copied(),
            self.routes.contains_key(&net),
        )
    }

    /// Returns the first route.
    pub fn first(&self) -> Option<Route> {
        route_of(self.routes.first())
    }

    /// Returns the first route after `net`.
    pub fn after(&self, net: Network) -> Option<Route> {
        route_of(self.routes.first_after(&cidr(net)))
    }

    /// Returns the first route that is `net` or comes after it.
    pub fn at_or_after(&self, net: Network) -> Option<Route> {
        route_of(self.routes.first_at_or_after(&cidr(net)))
    }

    /// Returns whether a route covers `net` or lies inside it.
    pub fn overlaps(&self, net: Network) -> bool {
        self.routes.overlaps(&cidr(net))
    }

    /// Returns the route with the longest network that contains `addr`.
    pub fn longest(&self, addr: u128) -> Option<Route> {
        route_of(N::longest_match(&self.routes, addr))
    }

    /// Returns the route with the longest network that contains `net`, and the same found by trying each length.
    pub fn longest_of_net(&self, net: Network) -> (Option<Route>, Option<Route>) {
        let net = cidr(net);
        (
            route_of(self.routes.longest_match_net(&net)),
            route_of(self.routes.longest_by_lengths(&net)),
        )
    }

    /// Returns the route with the longest network that contains `net`, with what is read.
    pub fn longest_counted(&self, net: Network) -> Reads {
        let (mut nodes, mut strides) = (Tally::new(), Tally::new());
        let found = self
            .routes
            .seen::<Tally>()
            .longest_match_net_counted(&cidr(net), &mut nodes, &mut strides);
        (route_of(found), nodes.number, strides.number)
    }

    /// Adds the routes of a group to `given`, in the order of the walk. `given` needs room for them.
    pub fn walk(&self, group: Group, given: &mut Vec<Route>) -> Result<(), TreeError> {
        match group {
            Group::Around(addr) => add_matches(N::matches(&self.routes, addr), given),
            Group::Covering(net) => add_matches(self.routes.matches_net(&cidr(net)), given),
            Group::Inside(net) => add_routes(self.routes.within(&cidr(net))?, given),
            Group::All => add_routes(N::iter(&self.routes)?, given),
        }
        Ok(())
    }
}
