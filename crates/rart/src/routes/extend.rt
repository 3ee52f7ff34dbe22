//! Insertions of many routes, in any order.
ghost use Rattle.std.specs.Prelude.{◌≡◌, ℕ, List, [], IfErr, IfOk, OnOk};
ghost use Rattle.std.specs.Iterator.{IsFinite};
ghost use Rattle.rart_keys.specs.BulkLists.{put_all};
ghost use Rattle.rart.specs.BulkLoads.{Reads, ReadsAll};
ghost use Rattle.rart.specs.Extensions.{PutsUntil};
ghost use Rattle.rart.specs.Steps.{pairs_in};

use crate::routes::RouteTable;
use crate::tree::AdaptiveRadixTree;
use rart_keys::KeyTrait;
use rart_nodes::Refused;
use std::alloc::Global;

impl<K: KeyTrait + Drop, T: Drop> RouteTable<K, T> {
    /// Creates the table of `routes`, which must end; keeps the last target of each prefix.
    ///
    /// # Errors
    ///
    /// Those of [`extend`](Self::extend), with the route that was not inserted. What was inserted is dropped.
    pub fn from_pairs<I: IntoIterator<Item = (K, T)>>(
        alloc: Global,
        routes: I,
    ) -> Result<Self, Refused<(K, T)>>
        requires { (s : I.IntoIter) → I.into_iter_gives routes s → I.IntoIter.can_next s
            × IsFinite (I.IntoIter.remaining s) }
        ensures pairs { IfOk result
            (λ table. ReadsAll I.into_iter_gives I.IntoIter.next_gives routes
            (λ xs. table.pairs ≡ put_all (pairs_in K.bytes xs) [])) }
        ensures refused { IfErr result (λ refused.
            Reads I.into_iter_gives I.IntoIter.next_gives routes
            (λ xs. (dropped : List (List ℕ × T)) × PutsUntil K.bytes [] xs refused dropped)) }
    {
        match AdaptiveRadixTree::from_pairs(alloc, routes) {
            Ok(routes) => Ok(RouteTable { routes }),
            Err(refused) => Err(refused),
        }
    }

    /// Inserts or replaces each of `routes`, which must end, in turn. An old target is dropped.
    ///
    /// # Errors
    ///
    /// Those of [`replace`](Self::replace), at the first route that it can't insert. The error holds that route. The
    /// routes before it stay inserted.
    pub fn extend<I: IntoIterator<Item = (K, T)>>(
        &mut self,
        routes: I,
    ) -> Result<(), Refused<(K, T)>>
        requires { (s : I.IntoIter) → I.into_iter_gives routes s → I.IntoIter.can_next s
            × IsFinite (I.IntoIter.remaining s) }
        ensures pairs { OnOk result (ReadsAll I.into_iter_gives I.IntoIter.next_gives routes
            (λ xs. self.new.pairs ≡ put_all (pairs_in K.bytes xs) self.old.pairs)) }
        ensures refused { IfErr result (λ refused.
            Reads I.into_iter_gives I.IntoIter.next_gives routes
            (λ xs. PutsUntil K.bytes self.old.pairs xs refused self.new.pairs)) }
    {
        self.routes.extend(routes)
    }
}
