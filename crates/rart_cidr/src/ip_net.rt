//! Networks of either version.
ghost use Rattle.std.specs.Prelude.{◌≡◌, length};
ghost use Rattle.rart_cidr.specs.tables.IpNets.{addr_bits, ip_bits, is_v4, is_v4_addr};

use crate::cidr::{Cidr4, Cidr6};
use std::net::IpAddr;

/// A network of either version. Every IPv4 network is ordered before every IPv6 network.
///
/// Contracts see its bits as `ip_bits`, and whether it is an IPv4 network as `is_v4`.
#[derive(Clone, Copy, PartialEq, Eq, PartialOrd, Ord, Debug)]
pub enum IpNet {
    V4(Cidr4),
    V6(Cidr6),
}

impl IpNet {
    /// Returns the network of `addr` alone.
    pub fn host(addr: IpAddr) -> IpNet
        ensures bits { ip_bits result ≡ addr_bits addr }
        ensures version { is_v4 result ≡ is_v4_addr addr }
    {
        match addr {
            IpAddr::V4(addr) => IpNet::V4(Cidr4::host(addr)),
            IpAddr::V6(addr) => IpNet::V6(Cidr6::host(addr)),
        }
    }

    /// Returns whether it is an IPv4 network.
    pub fn is_v4(&self) -> bool
        ensures { result ≡ is_v4 self.now }
    {
        match self {
            IpNet::V4(_) => true,
            IpNet::V6(_) => false,
        }
    }

    /// Returns the number of the network's bits.
    pub fn len(&self) -> u8
        ensures { result ≡ length (ip_bits self.now) }
    {
        match self {
            IpNet::V4(net) => net.len(),
            IpNet::V6(net) => net.len(),
        }
    }
}
