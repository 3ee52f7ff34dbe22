//! What tests call of networks of either version, and of a table that takes an address.

use crate::model::Network;
use rart::TreeError;
use rart_cidr::{CidrError, Matches, NetworkTable, ParseCidrError, Routes};
use std::cmp::Ordering;

/// A network of one version, with addresses as numbers of 128 bits, which begin with the address's.
pub trait Version: rart_cidr::Network + Ord {
    /// The number of octets of an address.
    const OCTETS: u8;

    /// Returns the network of the address alone that a text writes.
    fn host_of(text: &str) -> Option<Self>;

    /// Returns the network that a text writes.
    fn parse(text: &str) -> Result<Self, ParseCidrError>;

    /// Returns the network of an address and a length.
    fn new(addr: u128, len: u8) -> Result<Self, CidrError>;

    /// Returns the network of the first `len` bits of an address, at most all.
    fn masked(addr: u128, len: u8) -> Self;

    /// Returns the first address.
    fn first(&self) -> u128;

    /// Returns the route with the longest network that contains `addr`.
    fn longest_match(table: &NetworkTable<Self, u64>, addr: u128) -> Option<(Self, &u64)>;

    /// Returns the routes whose networks contain `addr`.
    fn matches(table: &NetworkTable<Self, u64>, addr: u128) -> Matches<'_, Self, u64>;

    /// Returns all routes.
    fn iter(table: &NetworkTable<Self, u64>) -> Result<Routes<'_, Self, u64>, TreeError>;
}

pub(super) fn cidr<N: Version>(net: Network) -> N {
    N::masked(net.addr, net.len)
}

pub(super) fn number_of<N: Version>(net: &N) -> Network {
    Network {
        addr: net.first(),
        len: net.len(),
    }
}

/// Returns the address that a text writes.
pub fn address<N: Version>(text: &str) -> Option<u128> {
    match N::host_of(text) {
        Some(net) => Some(net.first()),
        None => None,
    }
}

/// Returns the network of `addr` alone.
pub fn host<N: Version>(addr: u128) -> Network {
    Network {
        addr,
        len: 8 * N::OCTETS.min(16),
    }
}

/// Returns the network that a text writes.
pub fn parse<N: Version>(text: &str) -> Result<Network, ParseCidrError> {
    match N::parse(text) {
        Ok(net) => Ok(number_of(&net)),
        Err(error) => Err(error),
    }
}

/// Returns the network of an address and a length.
pub fn network<N: Version>(addr: u128, len: u8) -> Result<Network, CidrError> {
    match N::new(addr, len) {
        Ok(net) => Ok(number_of(&net)),
        Err(error) => Err(error),
    }
}

/// Returns the network of the first `len` bits of `net`, at most all.
pub fn supernet<N: Version>(net: Network, len: u8) -> Network {
    let net: N = cidr(net);
    number_of(&net.supernet(len.min(net.len())))
}

/// Returns the order of the bits of two networks, that of the networks, and whether they are equal.
pub fn compare<N: Version>(left: Network, right: Network) -> (Ordering, Ordering, bool) {
    let left: N = cidr(left);
    let right: N = cidr(right);
    (left.cmp_bits(&right), left.cmp(&right), left == right)
}
