//! Insertions of many routes, in any order.
ghost use Rattle.std.specs.Prelude.{◌≡◌, ℕ, List, [], IfErr, IfOk, OnErr, OnOk};
ghost use Rattle.std.specs.Iterator.{IsFinite};
ghost use Rattle.rart_keys.specs.BulkLists.{put_all};
ghost use Rattle.rart_keys.specs.SortedMap.{put};
ghost use Rattle.rart.specs.BulkLoads.{Reads, ReadsAll};
ghost use Rattle.rart.specs.Steps.{pairs_in};
ghost use Rattle.rart_cidr.specs.Edits.{MayRefuseRoute};
ghost use Rattle.rart_cidr.specs.tables.ManyEdits.{PutsRoutesUntil};

use crate::cidr::Network;
use crate::network_table::NetworkTable;
use rart::Refused;
use std::alloc::Global;

impl<N: Network, T: Drop> NetworkTable<N, T> {
    /// Creates the table of `routes`, which must end; keeps the last target of each network.
    ///
    /// # Errors
    ///
    /// Those of [`extend`](Self::extend), with the route that was not inserted. What was inserted is dropped.
    pub fn from_pairs<I: IntoIterator<Item = (N, T)>>(
        alloc: Global,
        routes: I,
    ) -> Result<Self, Refused<(N, T)>>
        requires { (s : I.IntoIter) → I.into_iter_gives routes s → I.IntoIter.can_next s
            × IsFinite (I.IntoIter.remaining s) }
        ensures routes { IfOk result (λ table.
            ReadsAll I.into_iter_gives I.IntoIter.next_gives routes
            (λ xs. table ≡ put_all (pairs_in N.bits xs) [])) }
        ensures refused { IfErr result (λ refused.
            Reads I.into_iter_gives I.IntoIter.next_gives routes
            (λ xs. (dropped : List (List ℕ × T)) × PutsRoutesUntil N.bits [] xs refused dropped)) }
    {
        let mut table = NetworkTable::new(alloc);
        match table.extend(routes) {
            Ok(()) => Ok(table),
            Err(refused) => Err(refused),
        }
    }

    /// Inserts each of `routes`, which must end, in turn. The target of a stored network is replaced and dropped.
    ///
    /// # Errors
    ///
    /// Those of [`insert`](Self::insert), at the first route that it can't insert. The error holds that route. The
    /// routes before it stay inserted.
    pub fn extend<I: IntoIterator<Item = (N, T)>>(
        &mut self,
        routes: I,
    ) -> Result<(), Refused<(N, T)>>
        requires { (s : I.IntoIter) → I.into_iter_gives routes s → I.IntoIter.can_next s
            × IsFinite (I.IntoIter.remaining s) }
        ensures routes { OnOk result (ReadsAll I.into_iter_gives I.IntoIter.next_gives routes
            (λ xs. self.new ≡ put_all (pairs_in N.bits xs) self.old)) }
        ensures refused { IfErr result (λ refused.
            Reads I.into_iter_gives I.IntoIter.next_gives routes
            (λ xs. PutsRoutesUntil N.bits self.old xs refused self.new)) }
    {
        for (net, target) in routes {
            if let Err(refused) = self.put_route(net, target) {
                return Err(refused);
            }
        }
        Ok(())
    }

    // Inserts a route, which the error holds, and drops the old target.
    fn put_route(&mut self, net: N, target: T) -> Result<(), Refused<(N, T)>>
        ensures routes { OnOk result (self.new ≡ put (N.bits net) target self.old) }
        ensures route { IfErr result (λ refused. refused.value ≡ (net, target)) }
        ensures refused { IfErr result
            (λ refused. MayRefuseRoute self.old (N.bits net) refused.error) }
        ensures unchanged { OnErr result (self.new ≡ self.old) }
    {
        match self.insert(&net, target) {
            Ok(_old) => Ok(()),
            Err(refused) => Err(Refused {
                error: refused.error,
                value: (net, refused.value),
            }),
        }
    }
}
