//! The routes of a table in order: all, or those inside a network.
ghost use Rattle.std.specs.Prelude.{◌≡◌, [], IfErr, IfOk};
ghost use Rattle.std.specs.Iterator.{YieldsFirstBy, item_count};
ghost use Rattle.rart_keys.specs.Filters.{below};
ghost use Rattle.rart_trie.specs.walks.Calls.{MayLackMemory};

use crate::cidr::Network;
use crate::network_table::NetworkTable;
use crate::table::walk::Walk;
use rart::{KeyTrait, TreeError};
use std::marker::Model;

// The rest of a walk. An `Option` of a walk isn't shown to be droppable by a caller's proof.
#[derive(Drop)]
enum Rest<'a, N: Network, T> {
    Active(Walk<'a, N::Key, T>),
    /// The first route outside the network was passed.
    Done,
}

/// Iterates over the routes inside a network, ascending by address, then by length.
///
/// Contracts see it as the list of remaining routes.
#[derive(Drop)]
pub struct Routes<'a, N: Network, T> {
    rest: Rest<'a, N, T>,
    net: N,
}

impl<'a, N: Network, T> Model for Routes<'a, N, T> {
    ghost use Rattle.std.specs.Prelude.{ℕ, ◌*◌, List, []};
    ghost use Rattle.rart_cidr.specs.Walks.{AreWithin, up_to_outside};
    ghost use Rattle.rart_cidr.specs.declared.network_table.routes.Rest.TheVariants.{Active, Done};

    ghost Value = { List (List ℕ × T) };

    ghost view = { λ r. elim r.rest
        [ Active walk ↦ up_to_outside (N.bits r.net) walk.0 | Done ↦ [] ] };

    ghost invariant = { λ r. elim r.rest
        [ Active walk ↦ AreWithin (8 * N.address_len) walk.0 | Done ↦ Unit {0} ] };
}

impl<'a, N: Network, T> Iterator for Routes<'a, N, T> {
    type Item = (N, &'a T);

    ghost next_gives = { YieldsFirstBy (λ p. (N.bits p.0, p.1.now)) (λ rest. rest) };

    ghost remaining = { item_count (λ rest. rest) };

    /// Returns no bound: the routes to come aren't counted.
    fn size_hint(&self) -> (usize, Option<usize>) {
        (0, None)
    }

    /// Returns the next route. It is fused and does not allocate.
    fn next(&mut self) -> Option<(N, &'a T)> {
        let (key, code, target) = match &mut self.rest {
            Rest::Active(walk) => walk.step()?,
            Rest::Done => return None,
        };
        let within = self.net;
        let net = within.at_code(key.as_ref(), code);
        if within.contains_net(&net) {
            return Some((net, target));
        }
        self.rest = Rest::Done;
        None
    }
}

impl<N: Network, T> NetworkTable<N, T> {
    /// Returns an iterator over the routes inside `net`, ascending by address, then by length.
    ///
    /// It begins at the first of them, and ends at the first route after the last.
    ///
    /// # Errors
    ///
    /// [`TreeError::Memory`] if the table isn't empty and the allocation fails.
    pub fn within(&self, net: &N) -> Result<Routes<'_, N, T>, TreeError>
        ensures routes { IfOk result (λ it. it ≡ below (N.bits net.now) self.now) }
        ensures memory { IfErr result (MayLackMemory self.now) }
    {
        self.ascends();
        let walk = self.routes.walk_from(net.octets(), usize::from(net.len()))?;
        Ok(Routes {
            rest: Rest::Active(walk),
            net: *net,
        })
    }

    // Returns an iterator over the routes inside the network of no bits: all.
    pub(super) fn within_all(&self, net: &N) -> Result<Routes<'_, N, T>, TreeError>
        requires { N.bits net.now ≡ [] }
        ensures routes { IfOk result (λ it. it ≡ self.now) }
        ensures memory { IfErr result (MayLackMemory self.now) }
    {
        self.within(net)
    }
}
