//! Targets by network.
ghost use Rattle.std.specs.Prelude.{◌≡◌, ◌≢◌, ◌≤◌, ◌↔◌, [], length, option_map, is_some, IsTrue, None};
ghost use Rattle.std.specs.Borrow.{sem};
ghost use Rattle.std.specs.Option.{option_copied, option_copied_mut};
ghost use Rattle.rart_keys.specs.Filters.{longest_match};
ghost use Rattle.rart_keys.specs.SortedMap.{IsAscending, lookup};
ghost use Rattle.rart.specs.declared.tree.TheConstants.{MAX_PAIRS};
ghost use Rattle.rart_cidr.specs.Edits.{InsertsRoute, RemovesRoute};
ghost use Rattle.rart_cidr.specs.Longest.{IsLongestRoute, first_by_lengths};
ghost use Rattle.rart_cidr.specs.tables.NetworkLoans.{lends_network_target};

mod aggregate;
mod clones;
mod equal;
mod extend;
mod intersect;
mod last;
mod matches;
mod next;
mod remove;
mod retain;
mod routes;
mod seen;
mod union;
mod v4;
mod v6;
mod values_mut;

use crate::cidr::{Cidr4, Cidr6, Network};
pub use crate::network_table::matches::Matches;
pub use crate::network_table::routes::Routes;
pub use crate::network_table::seen::SeenNetworkTable;
use crate::table::BitTable;
use rart::{Refused, TreeError, Visits};
use std::alloc::Global;
use std::marker::Model;

/// Targets by IPv4 network.
pub type CidrTable4<T> = NetworkTable<Cidr4, T>;

/// Targets by IPv6 network.
pub type CidrTable6<T> = NetworkTable<Cidr6, T>;

/// Iterates over the routes of a [`CidrTable4`] that cover a network.
pub type Matches4<'a, T> = Matches<'a, Cidr4, T>;

/// Iterates over the routes of a [`CidrTable6`] that cover a network.
pub type Matches6<'a, T> = Matches<'a, Cidr6, T>;

/// Iterates over the routes of a [`CidrTable4`] inside a network.
pub type Routes4<'a, T> = Routes<'a, Cidr4, T>;

/// Iterates over the routes of a [`CidrTable6`] inside a network.
pub type Routes6<'a, T> = Routes<'a, Cidr6, T>;

/// Borrows a [`CidrTable4`] whose reads of strides a `C` counts.
pub type SeenTable4<'a, T, C> = SeenNetworkTable<'a, Cidr4, T, C>;

/// Borrows a [`CidrTable6`] whose reads of strides a `C` counts.
pub type SeenTable6<'a, T, C> = SeenNetworkTable<'a, Cidr6, T, C>;

/// Targets by network.
///
/// Contracts see a table as its routes, pairs of the network's bits and a target, ascending by these bits.
#[derive(Drop)]
pub struct NetworkTable<N: Network, T> {
    routes: BitTable<N::Key, T>,
}

impl<N: Network, T> Model for NetworkTable<N, T> {
    ghost use Rattle.std.specs.Prelude.{ℕ, ◌*◌, List};
    ghost use Rattle.rart_cidr.specs.Walks.{AreWithin};

    ghost Value = { List (List ℕ × T) };

    ghost view = { λ t. t.routes };

    ghost invariant = { λ t. AreWithin (8 * N.address_len) t.routes };
}

impl<N: Network, T> NetworkTable<N, T> {
    /// Creates an empty table, which requests all memory from `alloc`. Allocates nothing.
    pub fn new(alloc: Global) -> Self
        ensures { result ≡ [] }
    {
        NetworkTable {
            routes: BitTable::new(alloc),
        }
    }

    /// Returns the number of routes.
    pub fn len(&self) -> usize
        ensures value { result ≡ length self.now }
        ensures at_most { result ≤ MAX_PAIRS }
    {
        self.routes.len()
    }

    /// Returns whether there is no route.
    pub fn is_empty(&self) -> bool
        ensures { IsTrue result ↔ (self.now ≡ []) }
    {
        self.routes.is_empty()
    }

    /// Removes all routes and drops their targets. Never fails.
    pub fn clear(&mut self)
    where
        T: Drop,
        ensures { self.new ≡ [] }
    {
        self.routes.clear();
    }

    /// Proves that the routes ascend by the bits of their networks. Does nothing at run time.
    pub fn ascends(&self)
        ensures { IsAscending self.now }
    {
        self.routes.ascends();
    }

    /// Returns the target of exactly `net`.
    pub fn get(&self, net: &N) -> Option<&T>
        ensures { option_copied result ≡ lookup (N.bits net.now) self.now }
    {
        self.routes.get(net.octets(), usize::from(net.len()))
    }

    /// Returns whether exactly `net` has a route.
    pub fn contains_key(&self, net: &N) -> bool
        ensures { result ≡ is_some (lookup (N.bits net.now) self.now) }
    {
        self.get(net).is_some()
    }

    /// Returns a mutable reference to the target of exactly `net`.
    ///
    /// After the borrow ends, only this target can have changed.
    pub fn get_mut<'a>(&'a mut self, net: &N) -> Option<&'a mut T>
        ensures* writes_back { sem 𝓛
            (lends_network_target N.row T.row N.Key.row N.Key.PartialType.row N.Network N.Key.KeyTrait
            N.Key.PartialType.Partial self.entry (N.bits net.now) result) }
        ensures value { option_copied_mut result ≡ lookup (N.bits net.now) self.old }
    {
        if self.get(net).is_none() {
            None
        } else {
            self.get_stored_mut(net)
        }
    }

    // Returns a mutable reference to the target of a stored network.
    fn get_stored_mut<'a>(&'a mut self, net: &N) -> Option<&'a mut T>
        requires stored { lookup (N.bits net.now) self.old ≢ None }
        ensures* writes_back { sem 𝓛
            (lends_network_target N.row T.row N.Key.row N.Key.PartialType.row N.Network N.Key.KeyTrait
            N.Key.PartialType.Partial self.entry (N.bits net.now) result) }
        ensures value { option_copied_mut result ≡ lookup (N.bits net.now) self.old }
    {
        self.routes.get_mut(net.octets(), usize::from(net.len()))
    }

    /// Returns the route with the longest network that contains all addresses of `net`.
    pub fn longest_match_net(&self, net: &N) -> Option<(N, &T)>
        ensures value { option_map (λ p. (N.bits p.0, p.1.now)) result
            ≡ longest_match (N.bits net.now) self.now }
        ensures longest_match { IsLongestRoute (N.bits net.now) self.now
            (option_map (λ p. (N.bits p.0, p.1.now)) result) }
    {
        self.ascends();
        self.seen::<Visits>()
            .longest_match_net_counted(net, &mut Visits::new(), &mut Visits::new())
    }

    /// Returns what [`longest_match_net`](Self::longest_match_net) returns, found by looking up each length, the
    /// longest first: a law, and as slow as it reads.
    pub fn longest_by_lengths(&self, net: &N) -> Option<(N, &T)>
        ensures value { option_map (λ p. (N.bits p.0, p.1.now)) result
            ≡ longest_match (N.bits net.now) self.now }
        ensures tried { option_map (λ p. (N.bits p.0, p.1.now)) result
            ≡ first_by_lengths (N.bits net.now) (length (N.bits net.now)) self.now }
    {
        match self
            .routes
            .longest_by_lengths(net.octets(), usize::from(net.len()))
        {
            Some((bits, target)) => Some((net.supernet(bits as u8), target)),
            None => None,
        }
    }

    /// Inserts a route from `net` to `target`, and returns the old target.
    ///
    /// # Errors
    ///
    /// [`TreeError::Full`] if `net` is new and the table holds as many routes as a table can, [`TreeError::Memory`] if
    /// it is new, the table isn't empty and an allocation fails. The table is then unchanged, and the error holds
    /// `target`.
    pub fn insert(&mut self, net: &N, target: T) -> Result<Option<T>, Refused<T>>
    where
        T: Drop,
        ensures { InsertsRoute (N.bits net.now) target self.old self.new result }
    {
        self.routes
            .insert(net.octets(), usize::from(net.len()), target)
    }

    /// Removes the route of exactly `net`, and returns its target.
    ///
    /// # Errors
    ///
    /// [`TreeError::Memory`] if the route is stored, the table has at least five, its removal must allocate and the
    /// allocation fails. The table is then unchanged.
    pub fn remove(&mut self, net: &N) -> Result<Option<T>, TreeError>
    where
        T: Drop,
        ensures { RemovesRoute (N.bits net.now) self.old self.new result }
    {
        self.routes.remove(net.octets(), usize::from(net.len()))
    }
}
