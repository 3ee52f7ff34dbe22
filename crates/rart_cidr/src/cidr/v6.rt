//! IPv6 networks.
ghost use Rattle.std.specs.Prelude.{◌≡◌, ◌≤◌, length};
ghost use Rattle.std.specs.Net.Addr.{ipv6_octets};

use crate::cidr::{Cidr, Cidr6, CidrError};
use std::fmt;
use std::net::Ipv6Addr;

impl Cidr<16> {
    ghost use Rattle.std.specs.Prelude.{◌≡◌, ◌-◌, ◌≤◌, ◌++◌, length, replicate, take};
    ghost use Rattle.std.specs.Net.Addr.{ipv6_octets};
    ghost use Rattle.rart_keys.specs.ByteStrings.{begins};
    ghost use Rattle.rart_cidr.specs.Bits.{bits_of};
    ghost use Rattle.rart_cidr.specs.Networks.{IsNew, cidr_bits};

    /// Returns the network of the first `len` bits of `addr`.
    ///
    /// # Errors
    ///
    /// [`CidrError::Length`] if `len` is greater than 128, [`CidrError::HostBits`] if a bit of `addr` after the first
    /// `len` is set.
    pub fn new(addr: Ipv6Addr, len: u8) -> Result<Cidr6, CidrError>
        ensures { IsNew cidr_bits (bits_of (ipv6_octets addr)) len result }
    {
        Cidr::from_octets(&addr.octets(), len)
    }

    /// Returns the network of the first `len` bits of `addr`, whose other bits are left out.
    pub fn masked(addr: Ipv6Addr, len: u8) -> Cidr6
        requires { len ≤ 128 }
        ensures value { cidr_bits result ≡ take len (bits_of (ipv6_octets addr)) }
        ensures width { length (bits_of (ipv6_octets addr)) ≡ 128 }
    {
        Cidr::masked_octets(&addr.octets(), len)
    }

    /// Returns the network of `addr` alone.
    pub fn host(addr: Ipv6Addr) -> Cidr6
        ensures { cidr_bits result ≡ bits_of (ipv6_octets addr) }
    {
        Cidr6::masked(addr, 128)
    }

    /// Returns the network's first address.
    pub fn addr(&self) -> Ipv6Addr
        ensures { bits_of (ipv6_octets result)
            ≡ cidr_bits self.now ++ replicate (128 - length (cidr_bits self.now)) 0 }
    {
        Ipv6Addr::from_octets(*self.octets())
    }

    /// Returns whether `addr` begins with the network's bits.
    pub fn contains(&self, addr: Ipv6Addr) -> bool
        ensures { result ≡ begins (cidr_bits self.now) (bits_of (ipv6_octets addr)) }
    {
        self.begins(&addr.octets())
    }
}

impl fmt::Display for Cidr<16> {
    ghost use Rattle.std.specs.Prelude.{Some};
    ghost use Rattle.rart_cidr.specs.Texts.{text6};

    ghost output = { λ net. Some (text6 net) };

    fn fmt<W: fmt::Write>(&self, f: &mut fmt::Formatter<W>) -> fmt::Result {
        let (addr, len) = (Ipv6Addr::from_octets(self.octets), self.len);
        write!(f, "{addr}/{len}")
    }
}
