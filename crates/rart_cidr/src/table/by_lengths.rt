//! The longest match, found by trying each length.
ghost use Rattle.std.specs.Prelude.{◌≡◌, ◌≤◌, ◌*◌, length, take, option_map, IfSome};
ghost use Rattle.rart_keys.specs.Filters.{longest_match};
ghost use Rattle.rart_cidr.specs.Bits.{network};
ghost use Rattle.rart_cidr.specs.Longest.{first_by_lengths};

use crate::table::BitTable;
use rart::KeyTrait;

impl<K: KeyTrait, T> BitTable<K, T> {
    /// Returns the first target that `get` finds, from `bits` bits down to none, and its number of bits.
    ///
    /// [`longest_match_net`](Self::longest_match_net) returns the same. This call is a law, and as slow as it reads.
    pub fn longest_by_lengths(&self, octets: &[u8], bits: usize) -> Option<(usize, &T)>
        requires { bits ≤ 8 * length octets.now }
        ensures at_most { IfSome result (λ p. p.0 ≤ bits) }
        ensures value { option_map (λ p. (take p.0 (network octets.now bits), p.1.now)) result
            ≡ longest_match (network octets.now bits) self.now }
        ensures tried { option_map (λ p. (take p.0 (network octets.now bits), p.1.now)) result
            ≡ first_by_lengths (network octets.now bits) bits self.now }
    {
        self.ascends();
        let mut count = bits;
        while count > 0 {
            if let Some(target) = self.get(octets, count) {
                return Some((count, target));
            }
            count -= 1;
        }
        match self.get(octets, 0) {
            Some(target) => Some((0, target)),
            None => None,
        }
    }
}
