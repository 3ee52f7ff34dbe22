//! A table of networks whose reads are counted.
ghost use Rattle.std.specs.Prelude.{◌≡◌, ◌≤◌, ◌+◌, option_map};
ghost use Rattle.rart_keys.specs.Filters.{longest_match};
ghost use Rattle.rart_cidr.specs.Longest.{nodes_to};

use crate::cidr::Network;
use crate::network_table::NetworkTable;
use crate::table::seen::SeenTable;
use rart::Count;
use std::marker::Model;

/// Borrows a table whose reads of strides a `C` counts.
///
/// Contracts see it as the table's routes.
#[derive(Drop)]
pub struct SeenNetworkTable<'a, N: Network, T, C> {
    routes: SeenTable<'a, N::Key, T, C>,
}

impl<'a, N: Network, T, C> Model for SeenNetworkTable<'a, N, T, C> {
    ghost use Rattle.std.specs.Prelude.{ℕ, List};

    ghost Value = { List (List ℕ × T) };

    ghost view = { λ s. s.routes };
}

impl<N: Network, T> NetworkTable<N, T> {
    /// Returns a view of the table that counts its reads of strides in a `C`.
    pub fn seen<C>(&self) -> SeenNetworkTable<'_, N, T, C>
        ensures { result ≡ self.now }
    {
        SeenNetworkTable {
            routes: self.routes.seen(),
        }
    }
}

impl<'a, N: Network, T, C: Count> SeenNetworkTable<'a, N, T, C> {
    /// Returns what [`NetworkTable::longest_match_net`] returns.
    ///
    /// # Visits
    ///
    /// At most one stride more than an address has octets: 5 for IPv4, 17 for IPv6. Of the map that holds them, at most
    /// 15 nodes for IPv4, 153 for IPv6.
    pub fn longest_match_net_counted(
        &self,
        net: &N,
        nodes: &mut C,
        strides: &mut C,
    ) -> Option<(N, &'a T)>
        ensures value { option_map (λ p. (N.bits p.0, p.1.now)) result
            ≡ longest_match (N.bits net.now) self.now }
        ensures node_visits { C.number nodes.new
            ≤ C.number nodes.old + nodes_to (N.address_len + 1) }
        ensures stride_visits { C.number strides.new
            ≤ C.number strides.old + (N.address_len + 1) }
    {
        let bits = usize::from(net.len());
        match self
            .routes
            .longest_match_net_counted(net.octets(), bits, nodes, strides)
        {
            Some((bits, target)) => Some((net.supernet(bits as u8), target)),
            None => None,
        }
    }
}
