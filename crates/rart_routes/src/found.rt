//! Routes of either version of IP, one after the other.

use crate::net::Net;
use crate::target::Target;
use rart_cidr::{Matches4, Matches6, Routes4, Routes6};

/// Iterates over routes of either version of IP.
///
/// Contracts see the routes to come as `found_left`.
#[derive(Drop)]
pub enum Found<'a> {
    Matches4(Matches4<'a, Target>),
    Matches6(Matches6<'a, Target>),
    Routes4(Routes4<'a, Target>),
    Routes6(Routes6<'a, Target>),
    Both(Both<'a>),
}

/// The routes of both tables, those of IPv4 first.
#[derive(Drop)]
pub struct Both<'a> {
    pub v4: Routes4<'a, Target>,
    pub v6: Routes6<'a, Target>,
}

impl<'a> Both<'a> {
    ghost use Rattle.std.specs.Iterator.{YieldsFirstBy};
    ghost use Rattle.rart_routes.specs.Found.{both_left};
    ghost use Rattle.rart_routes.specs.Net.{net_bits};

    // Returns the next route.
    fn next_route(&mut self) -> Option<(Net, &'a Target)>
        ensures { YieldsFirstBy (λ p. (net_bits p.0, p.1.now)) both_left self.old result self.new }
    {
        if let Some((net, target)) = self.v4.next() {
            return Some((Net::V4(net), target));
        }
        let (net, target) = self.v6.next()?;
        Some((Net::V6(net), target))
    }
}

impl<'a> Iterator for Found<'a> {
    ghost use Rattle.std.specs.Iterator.{YieldsFirstBy, item_count};
    ghost use Rattle.rart_routes.specs.Found.{found_left};
    ghost use Rattle.rart_routes.specs.Net.{net_bits};

    type Item = (Net, &'a Target);

    ghost next_gives = { YieldsFirstBy (λ p. (net_bits p.0, p.1.now)) found_left };

    ghost remaining = { item_count found_left };

    /// Returns no bound: the routes to come aren't counted.
    fn size_hint(&self) -> (usize, Option<usize>) {
        (0, None)
    }

    fn next(&mut self) -> Option<(Net, &'a Target)> {
        match self {
            Found::Matches4(routes) => {
                let (net, target) = routes.next()?;
                Some((Net::V4(net), target))
            }
            Found::Matches6(routes) => {
                let (net, target) = routes.next()?;
                Some((Net::V6(net), target))
            }
            Found::Routes4(routes) => {
                let (net, target) = routes.next()?;
                Some((Net::V4(net), target))
            }
            Found::Routes6(routes) => {
                let (net, target) = routes.next()?;
                Some((Net::V6(net), target))
            }
            Found::Both(both) => both.next_route(),
        }
    }
}
