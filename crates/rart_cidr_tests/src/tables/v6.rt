//! Networks of IPv6.

use crate::tables::version::Version;
use rart::TreeError;
use rart_cidr::{Cidr6, CidrError, CidrTable6, Matches6, ParseCidrError, Routes6};
use std::net::Ipv6Addr;
use std::str::FromStr;

fn address(addr: u128) -> Ipv6Addr {
    Ipv6Addr::from_bits(addr)
}

impl Version for Cidr6 {
    const OCTETS: u8 = 16;

    fn host_of(text: &str) -> Option<Self> {
        match Ipv6Addr::from_str(text) {
            Ok(addr) => Some(Cidr6::host(addr)),
            Err(_) => None,
        }
    }

    fn parse(text: &str) -> Result<Self, ParseCidrError> {
        Cidr6::from_str(text)
    }

    fn new(addr: u128, len: u8) -> Result<Self, CidrError> {
        Cidr6::new(address(addr), len)
    }

    fn masked(addr: u128, len: u8) -> Self {
        Cidr6::masked(address(addr), len.min(128))
    }

    fn first(&self) -> u128 {
        self.addr().to_bits()
    }

    fn longest_match(table: &CidrTable6<u64>, addr: u128) -> Option<(Self, &u64)> {
        table.longest_match(address(addr))
    }

    fn matches(table: &CidrTable6<u64>, addr: u128) -> Matches6<'_, u64> {
        table.matches(address(addr))
    }

    fn iter(table: &CidrTable6<u64>) -> Result<Routes6<'_, u64>, TreeError> {
        table.iter()
    }
}
