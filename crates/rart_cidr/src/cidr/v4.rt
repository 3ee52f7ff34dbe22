//! IPv4 networks.
ghost use Rattle.std.specs.Prelude.{◌≡◌, ◌≤◌, length};
ghost use Rattle.std.specs.Net.Addr.{ipv4_octets};

use crate::cidr::{Cidr, Cidr4, CidrError};
use std::fmt;
use std::net::Ipv4Addr;

impl Cidr<4> {
    ghost use Rattle.std.specs.Prelude.{◌≡◌, ◌-◌, ◌≤◌, ◌++◌, length, replicate, take};
    ghost use Rattle.std.specs.Net.Addr.{ipv4_octets};
    ghost use Rattle.rart_keys.specs.ByteStrings.{begins};
    ghost use Rattle.rart_cidr.specs.Bits.{bits_of};
    ghost use Rattle.rart_cidr.specs.Networks.{IsNew, cidr_bits};

    /// Returns the network of the first `len` bits of `addr`.
    ///
    /// # Errors
    ///
    /// [`CidrError::Length`] if `len` is greater than 32, [`CidrError::HostBits`] if a bit of `addr` after the first
    /// `len` is set.
    pub fn new(addr: Ipv4Addr, len: u8) -> Result<Cidr4, CidrError>
        ensures { IsNew cidr_bits (bits_of (ipv4_octets addr)) len result }
    {
        Cidr::from_octets(&addr.octets(), len)
    }

    /// Returns the network of the first `len` bits of `addr`, whose other bits are left out.
    pub fn masked(addr: Ipv4Addr, len: u8) -> Cidr4
        requires { len ≤ 32 }
        ensures value { cidr_bits result ≡ take len (bits_of (ipv4_octets addr)) }
        ensures width { length (bits_of (ipv4_octets addr)) ≡ 32 }
    {
        Cidr::masked_octets(&addr.octets(), len)
    }

    /// Returns the network of `addr` alone.
    pub fn host(addr: Ipv4Addr) -> Cidr4
        ensures { cidr_bits result ≡ bits_of (ipv4_octets addr) }
    {
        Cidr4::masked(addr, 32)
    }

    /// Returns the network's first address.
    pub fn addr(&self) -> Ipv4Addr
        ensures { bits_of (ipv4_octets result)
            ≡ cidr_bits self.now ++ replicate (32 - length (cidr_bits self.now)) 0 }
    {
        Ipv4Addr::from_octets(*self.octets())
    }

    /// Returns whether `addr` begins with the network's bits.
    pub fn contains(&self, addr: Ipv4Addr) -> bool
        ensures { result ≡ begins (cidr_bits self.now) (bits_of (ipv4_octets addr)) }
    {
        self.begins(&addr.octets())
    }
}

impl fmt::Display for Cidr<4> {
    ghost use Rattle.std.specs.Prelude.{Some};
    ghost use Rattle.rart_cidr.specs.Texts.{text4};

    ghost output = { λ net. Some (text4 net) };

    fn fmt<W: fmt::Write>(&self, f: &mut fmt::Formatter<W>) -> fmt::Result {
        let (addr, len) = (Ipv4Addr::from_octets(self.octets), self.len);
        write!(f, "{addr}/{len}")
    }
}
