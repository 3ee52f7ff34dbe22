//! The routes whose networks cover a network, the shortest first.
ghost use Rattle.std.specs.Prelude.{◌≡◌};
ghost use Rattle.std.specs.Iterator.{YieldsFirstBy, item_count};
ghost use Rattle.rart_keys.specs.Filters.{matches};

use crate::cidr::Network;
use crate::network_table::NetworkTable;
use crate::table::BitTable;
use std::marker::Model;

/// Iterates over the routes whose networks contain all addresses of a network, the shortest first.
///
/// Contracts see it as the list of remaining routes.
#[derive(Drop)]
pub struct Matches<'a, N: Network, T> {
    routes: &'a BitTable<N::Key, T>,
    net: N,
    // how many bits the next network has at least
    low: u8,
}

impl<'a, N: Network, T> Model for Matches<'a, N, T> {
    ghost use Rattle.std.specs.Prelude.{ℕ, List};
    ghost use Rattle.rart_cidr.specs.Matches.{matches_from};

    ghost Value = { List (List ℕ × T) };

    ghost view = { λ m. matches_from m.low (N.bits m.net) m.routes.now };
}

impl<'a, N: Network, T> Iterator for Matches<'a, N, T> {
    type Item = (N, &'a T);

    ghost next_gives = { YieldsFirstBy (λ p. (N.bits p.0, p.1.now)) (λ rest. rest) };

    ghost remaining = { item_count (λ rest. rest) };

    /// Returns no bound: the routes to come aren't counted.
    fn size_hint(&self) -> (usize, Option<usize>) {
        (0, None)
    }

    /// Returns the next route. It is fused and does not allocate.
    fn next(&mut self) -> Option<(N, &'a T)> {
        // A copy, since a proof has no lifetime for a reference to a generic field of `self`.
        let net = self.net;
        let (bits, target) = self.routes.next_match(
            net.octets(),
            usize::from(net.len()),
            usize::from(self.low),
        )?;
        self.low = bits as u8 + 1;
        Some((net.supernet(bits as u8), target))
    }
}

impl<N: Network, T> NetworkTable<N, T> {
    /// Returns the routes whose networks contain all addresses of `net`, the shortest first.
    pub fn matches_net(&self, net: &N) -> Matches<'_, N, T>
        ensures { result ≡ matches (N.bits net.now) self.now }
    {
        Matches {
            routes: &self.routes,
            net: *net,
            low: 0,
        }
    }
}
