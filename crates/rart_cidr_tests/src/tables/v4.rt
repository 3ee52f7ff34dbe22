//! Networks of IPv4.

use crate::tables::version::Version;
use rart::TreeError;
use rart_cidr::{Cidr4, CidrError, CidrTable4, Matches4, ParseCidrError, Routes4};
use std::net::Ipv4Addr;
use std::str::FromStr;

fn address(addr: u128) -> Ipv4Addr {
    Ipv4Addr::from_bits((addr >> 96) as u32)
}

impl Version for Cidr4 {
    const OCTETS: u8 = 4;

    fn host_of(text: &str) -> Option<Self> {
        match Ipv4Addr::from_str(text) {
            Ok(addr) => Some(Cidr4::host(addr)),
            Err(_) => None,
        }
    }

    fn parse(text: &str) -> Result<Self, ParseCidrError> {
        Cidr4::from_str(text)
    }

    fn new(addr: u128, len: u8) -> Result<Self, CidrError> {
        Cidr4::new(address(addr), len)
    }

    fn masked(addr: u128, len: u8) -> Self {
        Cidr4::masked(address(addr), len.min(32))
    }

    fn first(&self) -> u128 {
        u128::from(self.addr().to_bits()) << 96
    }

    fn longest_match(table: &CidrTable4<u64>, addr: u128) -> Option<(Self, &u64)> {
        table.longest_match(address(addr))
    }

    fn matches(table: &CidrTable4<u64>, addr: u128) -> Matches4<'_, u64> {
        table.matches(address(addr))
    }

    fn iter(table: &CidrTable4<u64>) -> Result<Routes4<'_, u64>, TreeError> {
        table.iter()
    }
}
