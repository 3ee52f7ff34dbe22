//! Runs of calls that look random, beside a slow model.

use crate::model::{
    Group, Network, Route, is_alike, is_longest, is_walked, put, retain, take, target_of,
};
use crate::tables::Table;
use crate::tables::version::Version;
use rart_cidr::{Cidr4, Cidr6};
use std::alloc::Global;
use std::process::Abort;

/// The number of calls.
const CALLS: u32 = 100_000;

// A number that looks random, from the one before it.
fn next_number(number: u64) -> u64 {
    let a = number ^ (number << 13);
    let b = a ^ (a >> 7);
    b ^ (b << 17)
}

// One of four octets, so that networks often share some.
fn octet(number: u64) -> u8 {
    match number % 4 {
        0 => 0,
        1 => 1,
        2 => 128,
        _ => 255,
    }
}

// An address of four octets, or of two octets that are each repeated: each pair of octets can meet at each border.
fn address(number: u64, octets: u8) -> u128 {
    if octets == 4 {
        let addr = [
            octet(number),
            octet(number >> 2),
            octet(number >> 4),
            octet(number >> 6),
        ];
        return u128::from(u32::from_be_bytes(addr)) << 96;
    }
    let first = u128::from_be_bytes([octet(number); 16]);
    let last = u128::from_be_bytes([octet(number >> 2); 16]);
    let hosts = u128::MAX >> (8 * ((number >> 4) % 16) as u32);
    first & !hosts | last & hosts
}

// An address, in each other call with one bit changed, so that a shorter network is the longest match.
fn probe(number: u64, octets: u8) -> u128 {
    let at = (number >> 40) % (16 * u64::from(octets) + 1);
    let bit = (1_u128 << 127).checked_shr(at as u32).unwrap_or(0);
    address(number >> 8, octets) ^ bit
}

// A length: each other one at the border of an octet, or one bit more or less.
fn length(number: u64, octets: u8) -> u8 {
    let octets = u64::from(octets.min(16));
    let most = 8 * octets;
    let len = if number % 2 == 0 {
        (number >> 1) % (most + 1)
    } else {
        let border = 8 * ((number >> 1) % (octets + 1));
        (border + (number >> 16) % 3).saturating_sub(1)
    };
    len.min(most) as u8
}

fn network(number: u64, octets: u8) -> Network {
    Network::masked(address(number, octets), length(number >> 8, octets))
}

// Whether table and model answer alike about an address, and about a network.
fn is_found<N: Version>(table: &Table<N>, routes: &[Route], addr: u128, net: Network) -> bool {
    let wanted = target_of(routes, &net);
    is_longest(table, routes, addr) && table.target(net) == (wanted, wanted.is_some())
}

// Whether both have the same walks of the routes inside a network, of those that cover it, and of those that cover an
// address; at times of all routes.
fn are_walked<N: Version>(
    table: &Table<N>,
    given: &mut Vec<Route>,
    routes: &[Route],
    number: u64,
) -> bool {
    let all = Group::Inside(Network { addr: 0, len: 0 });
    let net = network(number >> 20, N::OCTETS);
    is_walked(table, given, routes, Group::Inside(net))
        && is_walked(table, given, routes, Group::Covering(net))
        && is_alike(table, given, routes, probe(number, N::OCTETS))
        && (number % 4096 != 4095 || is_walked(table, given, routes, all))
}

// Whether both keep the same routes, at times.
fn are_kept<N: Version>(table: &mut Table<N>, routes: &mut Vec<Route>, number: u64) -> bool {
    if number % 8192 != 8191 {
        return true;
    }
    retain(routes);
    table.retain().is_ok()
}

// Whether a table equals its clone, at times, and then no longer if the route of a network is written.
fn is_cloned<N: Version>(table: &mut Table<N>, routes: &mut Vec<Route>, number: u64) -> bool {
    if number % 4096 != 1023 {
        return true;
    }
    let is_equal = table.clone_to_other().is_ok() && table.equals() == Some(true);
    let net = network(number >> 20, N::OCTETS);
    let old = put(routes, net, number >> 40);
    is_equal
        && matches!(table.put(net, number >> 40), Ok(was) if Some(was) == old)
        && table.equals() == Some(old == Some(Some(number >> 40)))
}

// Whether a call is answered as by the model.
fn is_answered<N: Version>(
    table: &mut Table<N>,
    given: &mut Vec<Route>,
    routes: &mut Vec<Route>,
    number: u64,
) -> bool {
    let net = network(number >> 20, N::OCTETS);
    let is_right = match number % 8 {
        0 | 1 => match put(routes, net, number >> 40) {
            Some(was) => matches!(table.put(net, number >> 40), Ok(old) if old == was),
            None => false,
        },
        2 | 3 => match table.take(net) {
            Ok(old) => old == take(routes, net),
            Err(_) => false,
        },
        _ => is_found(table, routes.as_slice(), probe(number, N::OCTETS), net),
    };
    is_right
        && are_kept(table, routes, number)
        && is_cloned(table, routes, number)
        && table.count() == (routes.len(), routes.is_empty())
        && (number % 64 != 63 || are_walked(table, given, routes.as_slice(), number))
}

// The number of the first call whose answers differ, and the most routes that there were.
fn play_on<N: Version>(
    table: &mut Table<N>,
    given: &mut Vec<Route>,
    routes: &mut Vec<Route>,
) -> (Option<u32>, usize) {
    let mut number = 0x2545_f491_4f6c_dd1d_u64;
    let mut wrong = None;
    let mut most = 0_usize;
    for at in 0..CALLS {
        number = next_number(number);
        if wrong.is_none() && !is_answered(table, given, routes, number) {
            wrong = Some(at);
        }
        most = most.max(routes.len());
    }
    (wrong, most)
}

fn play<N: Version>(alloc: Global) -> (Option<u32>, usize) {
    let mut table = Table::<N>::empty(alloc);
    let mut given: Vec<Route> = Vec::new(alloc);
    let mut routes: Vec<Route> = Vec::new(alloc);
    play_on(&mut table, &mut given, &mut routes)
}

fn assert_none_wrong(rt: &impl Abort, played: (Option<u32>, usize), least: usize) {
    let (wrong, most) = played;
    if let Some(at) = wrong {
        assert!(rt; false, "call {at} differs");
    }
    assert!(rt; most > least, "{most}");
}

#[test]
fn a_table_of_ipv4_networks_and_its_model_answer_alike(rt: HostRuntime) {
    assert_none_wrong(&rt, play::<Cidr4>(rt.alloc()), 900);
}

#[test]
fn a_table_of_ipv6_networks_and_its_model_answer_alike(rt: HostRuntime) {
    assert_none_wrong(&rt, play::<Cidr6>(rt.alloc()), 3000);
}
