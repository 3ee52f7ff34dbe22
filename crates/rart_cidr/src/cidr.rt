//! Networks: the first bits of an address.
ghost use Rattle.std.specs.Prelude.{◌≡◌, ◌≤◌, ◌*◌, length};
ghost use Rattle.rart_keys.specs.KeyBytes.{AreBytes};
ghost use Rattle.rart_cidr.specs.Bits.{AreClearAfter, bits_of, masked_octets};

mod error;
mod family;
mod parse;
mod v4;
mod v6;

use crate::bits::{are_bytes, clear_after};
pub use crate::cidr::error::CidrError;
pub use crate::cidr::family::Network;
pub use crate::cidr::parse::ParseCidrError;
use std::cmp::Ordering;

/// An IPv4 network.
pub type Cidr4 = Cidr<4>;

/// An IPv6 network.
pub type Cidr6 = Cidr<16>;

/// A network: the first bits of an address of `N` octets. Networks are ordered by address, then by length.
///
/// Contracts see its bits as `cidr_bits`.
#[derive(Clone, Copy, PartialEq, Eq, PartialOrd, Ord, Debug)]
pub struct Cidr<const N: usize> {
    octets: [u8; N],
    len: u8,
    ghost narrow: { N ≤ 16 },
    ghost within: { len ≤ 8 * N },
    ghost full_width: { length octets ≡ N },
    ghost are_bytes: { AreBytes octets },
    ghost clear: { AreClearAfter (bits_of octets) len },
}

// The octets with all but their first `len` bits cleared.
fn cleared_octets<const N: usize>(octets: &[u8; N], len: u8) -> [u8; N]
    requires { N ≤ 16 }
    ensures value { result ≡ masked_octets octets.now len }
    ensures width { length octets.now ≡ N }
    ensures bytes { AreBytes octets.now }
{
    are_bytes(octets);
    let mut cleared = *octets;
    clear_after(&mut cleared, usize::from(len));
    cleared
}

impl<const N: usize> Cidr<N> {
    ghost use Rattle.std.specs.Prelude.{◌≡◌, ◌-◌, ◌≤◌, ◌*◌, ◌++◌, length, replicate, take};
    ghost use Rattle.std.specs.Cmp.Lexicographic.{slice_cmp};
    ghost use Rattle.std.specs.Ordering.{nat_cmp};
    ghost use Rattle.rart_keys.specs.ByteStrings.{begins};
    ghost use Rattle.rart_keys.specs.KeyBytes.{AreBytes};
    ghost use Rattle.rart_cidr.specs.Bits.{AreClearAfter, bits_of, network};
    ghost use Rattle.rart_cidr.specs.Networks.{IsNew, cidr_bits};

    // Returns the network of the first `len` bits of an address's octets, of which the others must be zeros.
    pub(crate) fn from_octets(octets: &[u8; N], len: u8) -> Result<Self, CidrError>
        requires { N ≤ 16 }
        ensures { IsNew cidr_bits (bits_of octets.now) len result }
    {
        let cleared = cleared_octets(octets, len);
        if usize::from(len) > 8 * N {
            Err(CidrError::Length)
        } else if cleared == *octets {
            Ok(Cidr::masked_octets(octets, len))
        } else {
            Err(CidrError::HostBits)
        }
    }

    // Returns the network of the first `len` bits of an address's octets, of which the others are left out.
    pub(crate) fn masked_octets(octets: &[u8; N], len: u8) -> Self
        requires narrow { N ≤ 16 }
        requires within { len ≤ 8 * N }
        ensures value { cidr_bits result ≡ take len (bits_of octets.now) }
        ensures width { length (bits_of octets.now) ≡ 8 * N }
    {
        prove!(usize::from(len) <= 8 * N);
        let octets = cleared_octets(octets, len);
        Cidr { octets, len }
    }

    /// Returns the network of the network's first `len` bits.
    pub fn supernet(&self, len: u8) -> Self
        requires { len ≤ length (cidr_bits self.now) }
        ensures { cidr_bits result ≡ take len (cidr_bits self.now) }
    {
        Cidr::masked_octets(&self.octets, len)
    }

    // The octets of the first address, as the table over octets takes them: its bits begin with the network's.
    pub(crate) fn octets(&self) -> &[u8; N]
        ensures value { network result.now (length (cidr_bits self.now)) ≡ cidr_bits self.now }
        ensures width { length result.now ≡ N }
        ensures bytes { AreBytes result.now }
        ensures padded { bits_of result.now
            ≡ cidr_bits self.now ++ replicate (8 * N - length (cidr_bits self.now)) 0 }
        ensures clear { AreClearAfter (bits_of result.now) (length (cidr_bits self.now)) }
    {
        &self.octets
    }

    /// Returns the number of the network's bits.
    pub fn len(&self) -> u8
        ensures value { result ≡ length (cidr_bits self.now) }
        ensures at_most { result ≤ 8 * N }
        ensures narrow { N ≤ 16 }
    {
        self.len
    }

    // Returns whether an address's octets begin with the network's bits.
    pub(crate) fn begins(&self, octets: &[u8; N]) -> bool
        ensures { result ≡ begins (cidr_bits self.now) (bits_of octets.now) }
    {
        cleared_octets(octets, self.len) == self.octets
    }

    /// Returns whether all addresses of `net` are the network's.
    pub fn contains_net(&self, net: &Self) -> bool
        ensures { result ≡ begins (cidr_bits self.now) (cidr_bits net.now) }
    {
        self.len <= net.len && self.begins(net.octets())
    }

    /// Compares by address, then by length, as `cmp` does. This is the order of the bits: a network comes before those
    /// inside it.
    pub fn cmp_bits(&self, other: &Self) -> Ordering
        ensures { result ≡ slice_cmp nat_cmp (cidr_bits self.now) (cidr_bits other.now) }
    {
        self.cmp(other)
    }
}
