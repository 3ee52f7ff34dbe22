//! A slow model of a table of networks: its routes in any order, and answers by going through all of them.

use crate::tables::Table;
use crate::tables::version::{Version, host};

/// A network: its first address as a number of 128 bits, which begins with the address's, and its length. Networks are
/// ordered by address, then by length.
#[derive(Clone, Copy, PartialEq, Eq, PartialOrd, Ord)]
pub struct Network {
    pub addr: u128,
    pub len: u8,
}

/// A network and its target.
pub type Route = (Network, u64);

/// The networks that a walk gives.
#[derive(Clone, Copy)]
pub enum Group {
    /// Those that contain an address.
    Around(u128),
    /// Those that contain a network.
    Covering(Network),
    /// Those inside a network.
    Inside(Network),
    All,
}

impl Network {
    /// Returns the network of the first `len` bits of `addr`, at most 128.
    pub fn masked(addr: u128, len: u8) -> Network {
        let hosts = u128::MAX.checked_shr(u32::from(len)).unwrap_or(0);
        Network {
            addr: addr & !hosts,
            len,
        }
    }

    // Whether `addr` begins with the network's bits.
    fn contains(&self, addr: u128) -> bool {
        let differ = self.addr ^ addr;
        differ
            .checked_shr(128_u32.wrapping_sub(u32::from(self.len)))
            .unwrap_or(0)
            == 0
    }
}

impl Group {
    fn has(self, net: &Network) -> bool {
        match self {
            Group::Around(addr) => net.contains(addr),
            Group::Covering(inner) => net.len <= inner.len && net.contains(inner.addr),
            Group::Inside(outer) => outer.len <= net.len && outer.contains(net.addr),
            Group::All => true,
        }
    }
}

/// Returns the target of exactly `net`.
pub fn target_of(routes: &[Route], net: &Network) -> Option<u64> {
    let mut found = None;
    for route in routes {
        if route.0 == *net {
            found = Some(route.1);
        }
    }
    found
}

// The route with the longest network that contains `addr`.
fn longest(routes: &[Route], addr: u128) -> Option<Route> {
    let mut found: Option<Route> = None;
    for route in routes {
        if route.0.contains(addr) {
            match found {
                Some((net, _)) if route.0.len <= net.len => {}
                _ => found = Some(*route),
            }
        }
    }
    found
}

// How many networks are of the group.
fn count_of(routes: &[Route], group: Group) -> usize {
    let mut count = 0_usize;
    for route in routes {
        if group.has(&route.0) {
            count = count.wrapping_add(1);
        }
    }
    count
}

// Whether these are the routes of a group, in order.
fn are_of(given: &[Route], routes: &[Route], group: Group) -> bool {
    let mut last: Option<Network> = None;
    for (net, target) in given {
        if last >= Some(*net) || !group.has(net) || target_of(routes, net) != Some(*target) {
            return false;
        }
        last = Some(*net);
    }
    given.len() == count_of(routes, group)
}

/// Returns whether the table's walk of a group gives the routes of the model in order.
pub fn is_walked<N: Version>(
    table: &Table<N>,
    given: &mut Vec<Route>,
    routes: &[Route],
    group: Group,
) -> bool {
    given.clear();
    table.walk(group, given).is_ok() && are_of(given.as_slice(), routes, group)
}

/// Returns whether table and model have the same longest match of `addr`.
pub fn is_longest<N: Version>(table: &Table<N>, routes: &[Route], addr: u128) -> bool {
    let wanted = longest(routes, addr);
    table.longest(addr) == wanted && table.longest_of_net(host::<N>(addr)) == (wanted, wanted)
}

/// Returns whether table and model answer alike about `addr`.
pub fn is_alike<N: Version>(
    table: &Table<N>,
    given: &mut Vec<Route>,
    routes: &[Route],
    addr: u128,
) -> bool {
    is_longest(table, routes, addr) && is_walked(table, given, routes, Group::Around(addr))
}

/// Inserts into the routes, and returns the old target; or `None` where there is no memory.
pub fn put(routes: &mut Vec<Route>, net: Network, target: u64) -> Option<Option<u64>> {
    let was = target_of(routes.as_slice(), &net);
    for route in routes.as_mut_slice() {
        if route.0 == net {
            route.1 = target;
        }
    }
    if was.is_none() {
        routes.push((net, target)).ok()?;
    }
    Some(was)
}

// The place of a network among the routes.
fn place_of(routes: &[Route], net: &Network) -> Option<usize> {
    let mut found = None;
    let mut at = 0_usize;
    for route in routes {
        if route.0 == *net {
            found = Some(at);
        }
        at = at.wrapping_add(1);
    }
    found
}

/// Returns the target that a callback of `retain` leaves, and whether its route stays.
pub fn kept(net: &Network, target: u64) -> (u64, bool) {
    (target ^ u64::from(net.len), target % 8 != 0)
}

/// Changes all targets and removes the routes that `kept` rejects.
pub fn retain(routes: &mut Vec<Route>) {
    routes.retain_mut(|route: &mut Route| {
        let (target, stays) = kept(&route.0, route.1);
        route.1 = target;
        stays
    });
}

/// Removes from the routes, and returns the old target.
pub fn take(routes: &mut Vec<Route>, net: Network) -> Option<u64> {
    let at = place_of(routes.as_slice(), &net)?;
    if at < routes.len() {
        Some(routes.swap_remove(at).1)
    } else {
        None
    }
}
