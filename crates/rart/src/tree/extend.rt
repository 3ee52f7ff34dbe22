//! Insertions of many pairs, in any order.
ghost use Rattle.std.specs.Prelude.{◌≡◌, ℕ, List, [], IfErr, IfOk, OnErr, OnOk};
ghost use Rattle.std.specs.Iterator.{IsFinite};
ghost use Rattle.rart_keys.specs.BulkLists.{put_all};
ghost use Rattle.rart_keys.specs.SortedMap.{put};
ghost use Rattle.rart.specs.BulkLoads.{Reads, ReadsAll};
ghost use Rattle.rart.specs.Extensions.{PutsUntil};
ghost use Rattle.rart.specs.Refusals.{MayRefuseInsert};
ghost use Rattle.rart.specs.Steps.{pairs_in};

use crate::tree::AdaptiveRadixTree;
use rart_keys::KeyTrait;
use rart_nodes::Refused;
use std::alloc::Global;

impl<K: KeyTrait + Drop, V: Drop> AdaptiveRadixTree<K, V> {
    /// Creates the tree of `items`, which must end; keeps the last value of each key.
    ///
    /// # Errors
    ///
    /// Those of [`extend`](Self::extend), with the item that was not inserted. What was inserted is dropped.
    pub fn from_pairs<I: IntoIterator<Item = (K, V)>>(
        alloc: Global,
        items: I,
    ) -> Result<Self, Refused<(K, V)>>
        requires { (s : I.IntoIter) → I.into_iter_gives items s → I.IntoIter.can_next s
            × IsFinite (I.IntoIter.remaining s) }
        ensures pairs { IfOk result (λ tree. ReadsAll I.into_iter_gives I.IntoIter.next_gives items
            (λ xs. tree.pairs ≡ put_all (pairs_in K.bytes xs) [])) }
        ensures refused { IfErr result (λ refused.
            Reads I.into_iter_gives I.IntoIter.next_gives items
            (λ xs. (dropped : List (List ℕ × V)) × PutsUntil K.bytes [] xs refused dropped)) }
    {
        let mut tree = AdaptiveRadixTree::new(alloc);
        match tree.extend(items) {
            Ok(()) => Ok(tree),
            Err(refused) => Err(refused),
        }
    }

    /// Inserts each of `items`, which must end, in turn. The value of a stored key is replaced and dropped.
    ///
    /// # Errors
    ///
    /// Those of [`insert_k`](Self::insert_k), at the first item that it can't insert. The error holds that item. The
    /// items before it stay inserted.
    pub fn extend<I: IntoIterator<Item = (K, V)>>(
        &mut self,
        items: I,
    ) -> Result<(), Refused<(K, V)>>
        requires { (s : I.IntoIter) → I.into_iter_gives items s → I.IntoIter.can_next s
            × IsFinite (I.IntoIter.remaining s) }
        ensures pairs { OnOk result (ReadsAll I.into_iter_gives I.IntoIter.next_gives items
            (λ xs. self.new.pairs ≡ put_all (pairs_in K.bytes xs) self.old.pairs)) }
        ensures refused { IfErr result (λ refused.
            Reads I.into_iter_gives I.IntoIter.next_gives items
            (λ xs. PutsUntil K.bytes self.old.pairs xs refused self.new.pairs)) }
    {
        for (key, value) in items {
            if let Err(refused) = self.put_item(key, value) {
                return Err(refused);
            }
        }
        Ok(())
    }

    // Inserts an item, which the error holds, and drops the old value.
    pub(super) fn put_item(&mut self, key: K, value: V) -> Result<(), Refused<(K, V)>>
        ensures pairs { OnOk result (self.new.pairs ≡ put (K.bytes key) value self.old.pairs) }
        ensures item { IfErr result (λ refused. refused.value ≡ (key, value)) }
        ensures refused { IfErr result
            (λ refused. MayRefuseInsert self.old.pairs (K.bytes key) refused.error) }
        ensures unchanged { OnErr result (self.new ≡ self.old) }
    {
        match self.insert_k(&key, value) {
            Ok(_old) => Ok(()),
            Err(refused) => Err(Refused {
                error: refused.error,
                value: (key, refused.value),
            }),
        }
    }
}
