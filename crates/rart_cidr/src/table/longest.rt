//! The longest stored network that covers a network.
ghost use Rattle.std.specs.Prelude.{◌≡◌, ◌<◌, ◌≤◌, ◌+◌, ◌*◌, ◌/◌, ◌%◌, ℕ, length, take, option_map, IfSome};
ghost use Rattle.rart_keys.specs.Filters.{longest_match};
ghost use Rattle.rart_cidr.specs.Bits.{bits_of, network};
ghost use Rattle.rart_cidr.specs.Longest.{IsLastStride, nodes_to};

use crate::table::seen::SeenTable;
use crate::table::{BitTable, first_octets, octet_at};
use rart::{Count, KeyTrait, Visits};

impl<K: KeyTrait, T> BitTable<K, T> {
    /// Returns the longest stored network that `address` begins with, as its number of bits, and its target.
    pub fn longest_match(&self, address: &[u8]) -> Option<(usize, &T)>
        requires { length address.now < 1000 }
        ensures at_most { IfSome result (λ p. p.0 ≤ 8 * length address.now) }
        ensures value { option_map (λ p. (network address.now p.0, p.1.now)) result
            ≡ longest_match (bits_of address.now) self.now }
    {
        self.longest_match_net(address, 8 * address.len())
    }

    /// Returns the longest stored network that the network of the first `bits` bits of `octets` begins with, as its
    /// number of bits, and its target.
    pub fn longest_match_net(&self, octets: &[u8], bits: usize) -> Option<(usize, &T)>
        requires { bits ≤ 8 * length octets.now }
        ensures at_most { IfSome result (λ p. p.0 ≤ bits) }
        ensures value { option_map (λ p. (take p.0 (network octets.now bits), p.1.now)) result
            ≡ longest_match (network octets.now bits) self.now }
    {
        self.seen::<Visits>()
            .longest_match_net_counted(octets, bits, &mut Visits::new(), &mut Visits::new())
    }

    // Returns the number of octets of the longest stride that the first `at` octets begin with. Beside it, the longest
    // network in it that the first `bits` bits begin with. One descent skips the numbers of octets without a stride.
    pub(super) fn last_stride<C: Count>(
        &self,
        octets: &[u8],
        bits: usize,
        at: usize,
        nodes: &mut C,
    ) -> Option<(usize, Option<(usize, &T)>)>
        requires bits { bits ≤ 8 * length octets.now }
        requires at { at ≤ bits / 8 }
        ensures value { IsLastStride self.now octets.now bits at
            (option_map (λ p. (p.0, option_map (λ q. (q.0, q.1.now)) p.1)) result) }
        ensures node_visits { C.number nodes.new ≤ C.number nodes.old + (at + 1) }
    {
        self.strides.canonical();
        let (count, stride) = self
            .strides
            .seen::<C>()
            .longest_prefix_len_bytes_counted(first_octets(octets, at), nodes)?;
        match stride.longest(octet_at(octets, count), bits_after(bits, count)) {
            Some((more, target)) => Some((count, Some((8 * count + more, target)))),
            None => Some((count, None)),
        }
    }
}

impl<'a, K: KeyTrait, T, C: Count> SeenTable<'a, K, T, C> {
    /// Returns what [`BitTable::longest_match_net`] returns.
    ///
    /// # Visits
    ///
    /// At most `bits / 8 + 1` strides. `nodes` counts the nodes of the map of strides, at most one more for each stride
    /// than it has whole octets.
    #[tactic(auto, using(crate::proofs::walks::LongestLemmas::has_none))]
    pub fn longest_match_net_counted(
        &self,
        octets: &[u8],
        bits: usize,
        nodes: &mut C,
        strides: &mut C,
    ) -> Option<(usize, &'a T)>
        requires { bits ≤ 8 * length octets.now }
        ensures at_most { IfSome result (λ p. p.0 ≤ bits) }
        ensures value { option_map (λ p. (take p.0 (network octets.now bits), p.1.now)) result
            ≡ longest_match (network octets.now bits) self.now }
        ensures node_visits { C.number nodes.new ≤ C.number nodes.old + nodes_to (bits / 8 + 1) }
        ensures stride_visits { C.number strides.new ≤ C.number strides.old + (bits / 8 + 1) }
    {
        self.ascends();
        let mut at = bits / 8 + 1;
        while at > 0 {
            let (count, found) = self.last_stride(octets, bits, at - 1, nodes, strides)?;
            if let Some(route) = found {
                return Some(route);
            }
            at = count;
        }
        None
    }
}

// Returns the largest number of bits of the octet at `at` that a network of at most `bits` bits can have that ends
// within it.
pub(crate) fn bits_after(bits: usize, at: usize) -> usize
    requires { at ≤ bits / 8 }
    ensures small { result < 8 }
    ensures at_most { 8 * at + result ≤ bits }
    ensures all { (n : ℕ) → n / 8 ≡ at → n ≤ bits → n % 8 ≤ result }
{
    if at < bits / 8 { 7 } else { bits % 8 }
}
