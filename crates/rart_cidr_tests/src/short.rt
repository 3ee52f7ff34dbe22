//! All networks of at most eight bits, each alone and all together.

use crate::model::{Group, Network, Route, is_alike, is_walked, put};
use crate::tables::Table;
use crate::tables::version::Version;
use rart_cidr::{Cidr4, Cidr6};
use std::alloc::Global;
use std::process::Abort;

// The network of the first `len` bits of a first octet, where it has no others.
fn short(byte: u8, len: u8) -> Option<Network> {
    let addr = u128::from(byte) << 120;
    let net = Network::masked(addr, len);
    (net.addr == addr).then_some(net)
}

fn first_octet(byte: u8) -> u128 {
    u128::from_be_bytes([byte, 1, 2, 3, 4, 5, 6, 7, 8, 9, 10, 11, 12, 13, 14, 15])
}

// Whether an empty table, with this route alone, answers as its model about all first octets.
fn is_alone<N: Version>(table: &mut Table<N>, given: &mut Vec<Route>, net: Network) -> bool {
    let routes: [Route; 1] = [(net, 7)];
    let mut is_right = matches!(table.put(net, 7), Ok(None)) && table.count() == (1, false);
    for byte in 0..=255_u8 {
        is_right = is_right && is_alike(table, given, &routes, first_octet(byte));
    }
    is_right && matches!(table.take(net), Ok(Some(7))) && table.count() == (0, true)
}

// How many networks were tried, until one was answered wrong.
fn count_alone_on<N: Version>(table: &mut Table<N>, given: &mut Vec<Route>) -> usize {
    let mut count = 0_usize;
    let mut is_right = true;
    for len in 0..9_u8 {
        for byte in 0..=255_u8 {
            if let Some(net) = short(byte, len) {
                is_right = is_right && is_alone(table, given, net);
                if is_right {
                    count = count.wrapping_add(1);
                }
            }
        }
    }
    count
}

// Whether all of them are inserted, the longest first.
fn are_put<N: Version>(table: &mut Table<N>, routes: &mut Vec<Route>) -> bool {
    let mut is_right = true;
    for less in 0..9_u8 {
        for byte in 0..=255_u8 {
            if let Some(net) = short(byte, 8 - less) {
                let target = routes.len() as u64;
                is_right = is_right
                    && put(routes, net, target) == Some(None)
                    && matches!(table.put(net, target), Ok(None));
            }
        }
    }
    is_right
}

// Whether the walk of the routes inside each short network gives them in order.
fn are_walked<N: Version>(table: &Table<N>, given: &mut Vec<Route>, routes: &[Route]) -> bool {
    let mut is_right = true;
    for len in 0..9_u8 {
        for byte in 0..=255_u8 {
            if let Some(net) = short(byte, len) {
                is_right = is_right && is_walked(table, given, routes, Group::Inside(net));
            }
        }
    }
    is_right
}

// Whether a route is removed, after which table and model answer alike.
fn is_taken<N: Version>(
    table: &mut Table<N>,
    given: &mut Vec<Route>,
    routes: &[Route],
    route: Route,
) -> bool {
    let (net, target) = route;
    matches!(table.take(net), Ok(Some(was)) if was == target)
        && table.target(net) == (None, false)
        && table.count() == (routes.len(), routes.is_empty())
        && is_alike(table, given, routes, first_octet((target % 256) as u8))
}

fn are_taken<N: Version>(
    table: &mut Table<N>,
    given: &mut Vec<Route>,
    routes: &mut Vec<Route>,
) -> bool {
    let mut is_right = true;
    for _ in 0..511_usize {
        match routes.pop() {
            Some(route) => is_right = is_right && is_taken(table, given, routes.as_slice(), route),
            None => is_right = false,
        }
    }
    is_right
}

// Whether table and model answer alike with all of them.
fn are_together_on<N: Version>(
    table: &mut Table<N>,
    given: &mut Vec<Route>,
    routes: &mut Vec<Route>,
) -> bool {
    are_put(table, routes)
        && are_walked(table, given, routes.as_slice())
        && are_taken(table, given, routes)
        && table.count() == (0, true)
}

fn count_alone<N: Version>(alloc: Global) -> usize {
    let mut table = Table::<N>::empty(alloc);
    let mut given: Vec<Route> = Vec::new(alloc);
    count_alone_on(&mut table, &mut given)
}

fn are_together<N: Version>(alloc: Global) -> bool {
    let mut table = Table::<N>::empty(alloc);
    let mut given: Vec<Route> = Vec::new(alloc);
    let mut routes: Vec<Route> = Vec::new(alloc);
    are_together_on(&mut table, &mut given, &mut routes)
}

#[test]
fn each_short_network_alone(rt: HostRuntime) {
    assert_eq!(rt; count_alone::<Cidr4>(rt.alloc()), 511);
    assert_eq!(rt; count_alone::<Cidr6>(rt.alloc()), 511);
}

#[test]
fn all_short_networks_together(rt: HostRuntime) {
    assert!(rt; are_together::<Cidr4>(rt.alloc()));
    assert!(rt; are_together::<Cidr6>(rt.alloc()));
}
