//! Calls of a table of IPv4 networks that take an address, or no network.
ghost use Rattle.std.specs.Prelude.{◌≡◌, option_map, IfErr, IfOk};
ghost use Rattle.std.specs.Net.Addr.{ipv4_octets};
ghost use Rattle.rart_keys.specs.Filters.{longest_match, matches};
ghost use Rattle.rart_trie.specs.walks.Calls.{MayLackMemory};
ghost use Rattle.rart_cidr.specs.Bits.{bits_of};
ghost use Rattle.rart_cidr.specs.Longest.{IsLongestRoute};
ghost use Rattle.rart_cidr.specs.Networks.{cidr_bits};

use crate::cidr::Cidr4;
use crate::network_table::{Matches4, NetworkTable, Routes4};
use rart::TreeError;
use std::net::Ipv4Addr;

impl<T> NetworkTable<Cidr4, T> {
    /// Returns the route with the longest network that contains `addr`.
    pub fn longest_match(&self, addr: Ipv4Addr) -> Option<(Cidr4, &T)>
        ensures value { option_map (λ p. (cidr_bits p.0, p.1.now)) result
            ≡ longest_match (bits_of (ipv4_octets addr)) self.now }
        ensures longest_match { IsLongestRoute (bits_of (ipv4_octets addr)) self.now
            (option_map (λ p. (cidr_bits p.0, p.1.now)) result) }
    {
        self.longest_match_net(&Cidr4::host(addr))
    }

    /// Returns the routes whose networks contain `addr`, the shortest first.
    pub fn matches(&self, addr: Ipv4Addr) -> Matches4<'_, T>
        ensures { result ≡ matches (bits_of (ipv4_octets addr)) self.now }
    {
        self.matches_net(&Cidr4::host(addr))
    }

    /// Returns an iterator over all routes, ascending by address, then by length.
    ///
    /// # Errors
    ///
    /// [`TreeError::Memory`] if the table isn't empty and the allocation fails.
    pub fn iter(&self) -> Result<Routes4<'_, T>, TreeError>
        ensures routes { IfOk result (λ it. it ≡ self.now) }
        ensures memory { IfErr result (MayLackMemory self.now) }
    {
        self.within_all(&Cidr4::masked(Ipv4Addr::UNSPECIFIED, 0))
    }
}
