//! Mutable borrows of a route's target.
ghost use Rattle.std.specs.Prelude.{◌≡◌, ◌≢◌, ◌≤◌, ◌*◌, ◌/◌, length, None};
ghost use Rattle.std.specs.Borrow.{sem};
ghost use Rattle.std.specs.Option.{option_copied_mut};
ghost use Rattle.rart_keys.specs.KeyBytes.{IsWithin};
ghost use Rattle.rart_keys.specs.SortedMap.{lookup};
ghost use Rattle.rart_cidr.specs.Bits.{network};
ghost use Rattle.rart_cidr.specs.RouteLoans.{lends_route};

use crate::bits::code_of;
use crate::table::{BitTable, first_octets, octet_at};
use rart::KeyTrait;

impl<K: KeyTrait, T> BitTable<K, T> {
    /// Returns a mutable reference to the target of exactly the network of the first `bits` bits of `octets`.
    ///
    /// After the borrow ends, only this target can have changed.
    pub fn get_mut<'a>(&'a mut self, octets: &[u8], bits: usize) -> Option<&'a mut T>
    where
        K: Drop,
        requires bits { bits ≤ 8 * length octets.now }
        requires within { IsWithin K.MAXIMUM_SIZE (bits / 8) }
        ensures* writes_back { sem 𝓛
            (lends_route K.row T.row K.PartialType.row K.KeyTrait K.PartialType.Partial
            self.entry (network octets.now bits) result) }
        ensures value { option_copied_mut result ≡ lookup (network octets.now bits) self.old }
    {
        if self.get(octets, bits).is_none() {
            None
        } else {
            self.get_stored_mut(octets, bits)
        }
    }

    // Returns a mutable reference to the target of a stored network.
    fn get_stored_mut<'a>(&'a mut self, octets: &[u8], bits: usize) -> Option<&'a mut T>
    where
        K: Drop,
        requires bits { bits ≤ 8 * length octets.now }
        requires within { IsWithin K.MAXIMUM_SIZE (bits / 8) }
        requires stored { lookup (network octets.now bits) self.old ≢ None }
        ensures* writes_back { sem 𝓛
            (lends_route K.row T.row K.PartialType.row K.KeyTrait K.PartialType.Partial
            self.entry (network octets.now bits) result) }
        ensures value { option_copied_mut result ≡ lookup (network octets.now bits) self.old }
    {
        self.strides.canonical();
        let key = K::new_from_slice(first_octets(octets, bits / 8));
        let code = code_of(octet_at(octets, bits / 8), bits % 8);
        match self.strides.get_mut_k(&key) {
            Some(stride) => stride.get_stored_mut(code),
            None => unreachable!(),
        }
    }
}
