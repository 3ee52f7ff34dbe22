//! Networks from the bytes of an address and a length.
ghost use Rattle.rart_cidr.specs.Bits.{bits_of};
ghost use Rattle.rart_cidr.specs.Networks.{IsNew, cidr_bits};

use crate::addresses::ipv6_of;
use rart_cidr::{Cidr6, CidrError};

/// Returns the network of the first `len` bits of an address, whose other bits must be zeros.
pub(crate) fn network_of(addr: &[u8; 16], len: u8) -> Result<Cidr6, CidrError>
    ensures { IsNew cidr_bits (bits_of addr.now) len result }
{
    Cidr6::new(ipv6_of(addr), len)
}
