//! What a table of networks uses of either version.
ghost use Rattle.std.specs.Prelude.{◌≡◌, ◌≤◌, ◌*◌, ◌/◌, [], ◌∷◌, ℕ, List, length, take};
ghost use Rattle.std.specs.Cmp.Lexicographic.{slice_cmp};
ghost use Rattle.std.specs.Ordering.{nat_cmp};
ghost use Rattle.rart_keys.specs.ByteStrings.{begins};
ghost use Rattle.rart_keys.specs.KeyBytes.{IsWithin};
ghost use Rattle.rart_cidr.specs.Bits.{AreClearAfter, bits_of, network};
ghost use Rattle.rart_cidr.specs.Routes.{IsCode, coded_network};

use crate::cidr::Cidr;
use crate::coded_network::network_of;
use rart::{ArrayKey, KeyTrait};
use std::cmp::Ordering;

/// A network of one version, as a table uses it: [`Cidr4`](crate::Cidr4) or [`Cidr6`](crate::Cidr6).
///
/// Contracts see it as `bits`, and the number of octets of an address as `address_len`.
// A table has this type as its parameter. A `const N` in its place leaves proofs open: nothing says that the size of a
// table over keys of `N` bytes fits, nor that a reference to such a table outlives its lifetime.
pub trait Network: Copy {
    /// A key of as many octets as an address, or of fewer.
    type Key: KeyTrait + Drop;

    ghost bits: { Self → List ℕ };

    ghost address_len: { ℕ };

    /// Returns the network of no bits, which contains every address.
    fn whole() -> Self
        ensures { bits result ≡ [] };

    /// Returns the octets of the first address.
    fn octets(&self) -> &[u8]
        ensures value { network result.now (length (bits self.now)) ≡ bits self.now }
        ensures width { length result.now ≡ address_len }
        ensures within { IsWithin Self.Key.MAXIMUM_SIZE (length result.now) }
        ensures clear { AreClearAfter (bits_of result.now) (length (bits self.now)) };

    /// Returns the number of the network's bits.
    fn len(&self) -> u8
        ensures value { result ≡ length (bits self.now) }
        ensures at_most { result ≤ 8 * address_len }
        ensures within { IsWithin Self.Key.MAXIMUM_SIZE (result / 8) }
        ensures narrow { address_len ≤ 16 };

    /// Returns the network of the network's first `len` bits.
    fn supernet(&self, len: u8) -> Self
        requires { len ≤ length (bits self.now) }
        ensures { bits result ≡ take len (bits self.now) };

    /// Returns whether all addresses of `net` are the network's.
    fn contains_net(&self, net: &Self) -> bool
        ensures { result ≡ begins (bits self.now) (bits net.now) };

    /// Compares by address, then by length. This is the order of the bits: a network comes before those inside it.
    fn cmp_bits(&self, other: &Self) -> Ordering
        ensures { result ≡ slice_cmp nat_cmp (bits self.now) (bits other.now) };

    /// Returns the network of whole octets and the bits that a code encodes.
    fn at_code(&self, octets: &[u8], code: u8) -> Self
        requires code { IsCode (code ∷ []) }
        requires width { length (coded_network octets.now (code ∷ [])) ≤ 8 * address_len }
        ensures { bits result ≡ coded_network octets.now (code ∷ []) };
}

// That `N` is at most 16 is known of a network at hand alone, and `whole` has none. So each version has an `impl`.
impl Network for Cidr<4> {
    ghost use Rattle.rart_cidr.specs.Networks.{cidr_bits};

    type Key = ArrayKey<4>;

    ghost bits = { cidr_bits };

    ghost address_len = { 4 };

    fn whole() -> Self {
        Cidr::masked_octets(&[0; 4], 0)
    }

    fn octets(&self) -> &[u8] {
        self.octets()
    }

    fn len(&self) -> u8 {
        self.len()
    }

    fn supernet(&self, len: u8) -> Self {
        self.supernet(len)
    }

    fn contains_net(&self, net: &Self) -> bool {
        self.contains_net(net)
    }

    fn cmp_bits(&self, other: &Self) -> Ordering {
        self.cmp_bits(other)
    }

    fn at_code(&self, octets: &[u8], code: u8) -> Self {
        network_of(octets, code)
    }
}

impl Network for Cidr<16> {
    ghost use Rattle.rart_cidr.specs.Networks.{cidr_bits};

    type Key = ArrayKey<16>;

    ghost bits = { cidr_bits };

    ghost address_len = { 16 };

    fn whole() -> Self {
        Cidr::masked_octets(&[0; 16], 0)
    }

    fn octets(&self) -> &[u8] {
        self.octets()
    }

    fn len(&self) -> u8 {
        self.len()
    }

    fn supernet(&self, len: u8) -> Self {
        self.supernet(len)
    }

    fn contains_net(&self, net: &Self) -> bool {
        self.contains_net(net)
    }

    fn cmp_bits(&self, other: &Self) -> Ordering {
        self.cmp_bits(other)
    }

    fn at_code(&self, octets: &[u8], code: u8) -> Self {
        network_of(octets, code)
    }
}
