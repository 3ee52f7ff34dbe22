//! Addresses from their bytes.
ghost use Rattle.std.specs.Prelude.{◌≡◌};
ghost use Rattle.std.specs.Net.Addr.{ipv4_octets, ipv6_octets};

use std::net::{Ipv4Addr, Ipv6Addr};

/// Returns the IPv4 address with these bytes.
pub(crate) fn ipv4_of(bytes: &[u8; 4]) -> Ipv4Addr
    ensures { ipv4_octets result ≡ bytes.now }
{
    Ipv4Addr::from_octets(*bytes)
}

/// Returns the IPv6 address with these bytes.
pub(crate) fn ipv6_of(bytes: &[u8; 16]) -> Ipv6Addr
    ensures { ipv6_octets result ≡ bytes.now }
{
    Ipv6Addr::from_octets(*bytes)
}
