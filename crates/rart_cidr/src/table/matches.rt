//! The stored networks that cover a network, the shortest first.
ghost use Rattle.std.specs.Prelude.{◌≡◌, ◌<◌, ◌≤◌, ◌*◌, length, option_map, IfSome};
ghost use Rattle.rart_cidr.specs.Bits.{network};
ghost use Rattle.rart_cidr.specs.Matches.{IsFirstAfter, IsNextMatch};

use crate::table::longest::bits_after;
use crate::table::{BitTable, first_octets, octet_at};
use rart::KeyTrait;

impl<K: KeyTrait, T> BitTable<K, T> {
    /// Returns the shortest stored network of at least `low` bits that the network of the first `bits` bits of `octets`
    /// begins with, as its number of bits, and its target.
    #[tactic(auto, using(crate::proofs::walks::MatchLemmas::none_before))]
    pub fn next_match(&self, octets: &[u8], bits: usize, low: usize) -> Option<(usize, &T)>
        requires bits { bits ≤ 8 * length octets.now }
        requires fits { length octets.now < 1000 }
        ensures at_most { IfSome result (λ p. p.0 ≤ bits) }
        ensures value { IsNextMatch low (network octets.now bits) self.now
            (option_map (λ p. (p.0, p.1.now)) result) }
    {
        self.ascends();
        let mut from = low;
        while from <= bits {
            if let Some((count, target)) = self.first_after(octets, bits, from) {
                return Some((count, target));
            }
            from = (from / 8 + 1) * 8;
        }
        None
    }

    // Returns the shortest network that the first `bits` bits of the octets begin with, of those that end within the
    // octet of the bit at `low`, at this bit or after it.
    fn first_after(&self, octets: &[u8], bits: usize, low: usize) -> Option<(usize, &T)>
        requires bits { bits ≤ 8 * length octets.now }
        requires low { low ≤ bits }
        ensures { IsFirstAfter self.now octets.now bits low
            (option_map (λ p. (p.0, p.1.now)) result) }
    {
        self.strides.canonical();
        let at = low / 8;
        let most = bits_after(bits, at);
        match self.strides.get_bytes(first_octets(octets, at)) {
            Some(stride) => match stride.shortest(octet_at(octets, at), low % 8, most) {
                Some((count, target)) => Some((8 * at + count, target)),
                None => None,
            },
            None => None,
        }
    }
}
