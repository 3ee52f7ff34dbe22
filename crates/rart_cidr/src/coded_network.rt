//! The network that the bytes of a stride's key and a code are.
ghost use Rattle.std.specs.Prelude.{◌≡◌, ◌≤◌, ◌+◌, ◌*◌, [], ◌∷◌, length, take};
ghost use Rattle.rart_cidr.specs.Bits.{bits_of, code_bits};
ghost use Rattle.rart_cidr.specs.Networks.{cidr_bits};
ghost use Rattle.rart_cidr.specs.Routes.{IsCode, coded_network};

use crate::bits::{code_byte, code_len};
use crate::cidr::Cidr;
use rart::{ArrayKey, KeyTrait};

// Returns the octets of a key, the byte of a code, and zeros.
fn octets_of<const N: usize>(key: &[u8], code: u8) -> [u8; N]
    requires narrow { N ≤ 16 }
    requires code { IsCode (code ∷ []) }
    requires width { length (coded_network key.now (code ∷ [])) ≤ 8 * N }
    ensures value { take (8 * length key.now + length (code_bits code)) (bits_of result)
        ≡ coded_network key.now (code ∷ []) }
    ensures within { length key.now ≤ N }
{
    let at = key.len();
    let mut octets = *ArrayKey::<N>::new_from_slice(key).as_array();
    if at < N {
        octets[at] = code_byte(code);
    }
    octets
}

/// Returns the network of the bytes of a key and a code.
pub(crate) fn network_of<const N: usize>(key: &[u8], code: u8) -> Cidr<N>
    requires narrow { N ≤ 16 }
    requires code { IsCode (code ∷ []) }
    requires width { length (coded_network key.now (code ∷ [])) ≤ 8 * N }
    ensures { cidr_bits result ≡ coded_network key.now (code ∷ []) }
{
    let octets = octets_of(key, code);
    let bits = 8 * (key.len() as u8) + code_len(code);
    Cidr::masked_octets(&octets, bits)
}
