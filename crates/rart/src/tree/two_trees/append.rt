//! All pairs of one tree, moved into another.
ghost use Rattle.std.specs.Prelude.{◌≡◌, ◌<◌, [], length, IfErr, IfOk, IsTrue, Ok, OnErr, OnOk, false};
ghost use Rattle.rart_keys.specs.BulkLists.{put_all};
ghost use Rattle.rart_keys.specs.SortedMap.{put};
ghost use Rattle.rart.specs.Appends.{Moves, MovesUntil, PutsBack};
ghost use Rattle.rart.specs.Refusals.{MayRefuseInsert};

use crate::tree::AdaptiveRadixTree;
use rart_keys::KeyTrait;
use rart_keys::laws::bulk_lists::put_in_any_order;
use rart_nodes::Refused;
use std::mem;

impl<K: KeyTrait + Drop, V: Drop> AdaptiveRadixTree<K, V> {
    /// Moves all pairs of `other` into this tree and leaves `other` empty. The value of a key that both trees store is
    /// that of `other`; the old value is dropped.
    ///
    /// If this tree is empty, the two are exchanged, without an allocation. Otherwise each pair is removed from `other`
    /// and inserted, also where only one of the trees has keys. To move a whole subtree allocates in both trees. After
    /// the second refusal a node would keep a kind that doesn't fit its children.
    ///
    /// # Errors
    ///
    /// Those of [`pop_first`](Self::pop_first) and [`insert_k`](Self::insert_k), at the first pair that can't be moved.
    /// The pairs before it are moved. The pair itself is still in `other`; if its insertion fails in both trees, the
    /// error holds it.
    pub fn append(&mut self, other: &mut Self) -> Result<(), Refused<Option<(K, V)>>>
        ensures pairs { OnOk result (self.new.pairs ≡ put_all other.old.pairs self.old.pairs) }
        ensures emptied { OnOk result (other.new.pairs ≡ []) }
        ensures refused { IfErr result (λ refused. MovesUntil K.bytes self.old.pairs
            other.old.pairs refused self.new.pairs other.new.pairs) }
        ensures exchanged { self.old.pairs ≡ []
            → (result ≡ Ok tt) × (self.new ≡ other.old) × (other.new ≡ self.old) }
    {
        if self.is_empty() {
            other.canonical();
            put_in_any_order::<V>();
            mem::swap(self, other);
            return Ok(());
        }
        'pairs: while self.move_first(other)? {}
        Ok(())
    }

    // Moves the first pair of `other` into this tree, and returns whether there was one.
    fn move_first(&mut self, other: &mut Self) -> Result<bool, Refused<Option<(K, V)>>>
        ensures moves { OnOk result
            (Moves self.old.pairs other.old.pairs self.new.pairs other.new.pairs) }
        ensures fewer { IfOk result
            (λ more. IsTrue more → length other.new.pairs < length other.old.pairs) }
        ensures emptied { IfOk result (λ more. more ≡ false → other.new.pairs ≡ []) }
        ensures refused { IfErr result (λ refused. MovesUntil K.bytes self.old.pairs
            other.old.pairs refused self.new.pairs other.new.pairs) }
    {
        other.canonical();
        // without its first pair `other` isn't full
        let _len = other.len();
        match other.pop_first() {
            Ok(Some((key, value))) => match self.put_pair(other, key, value) {
                Ok(()) => Ok(true),
                Err(refused) => Err(refused),
            },
            Ok(None) => Ok(false),
            Err(error) => Err(Refused { error, value: None }),
        }
    }

    // Inserts a pair that was removed from `other`. If that fails, inserts it into `other` again.
    pub(super) fn put_pair(
        &mut self,
        other: &mut Self,
        key: K,
        value: V,
    ) -> Result<(), Refused<Option<(K, V)>>>
        ensures pairs { OnOk result (self.new.pairs ≡ put (K.bytes key) value self.old.pairs) }
        ensures other_unchanged { OnOk result (other.new ≡ other.old) }
        ensures put_back { IfErr result (λ refused.
            PutsBack K.bytes key value other.old.pairs refused.value other.new.pairs) }
        ensures refused { IfErr result
            (λ refused. MayRefuseInsert self.old.pairs (K.bytes key) refused.error) }
        ensures unchanged { OnErr result (self.new ≡ self.old) }
    {
        match self.put_item(key, value) {
            Ok(()) => Ok(()),
            Err(refused) => {
                let (key, value) = refused.value;
                match other.put_item(key, value) {
                    Ok(()) => Err(Refused {
                        error: refused.error,
                        value: None,
                    }),
                    Err(back) => Err(Refused {
                        error: refused.error,
                        value: Some(back.value),
                    }),
                }
            }
        }
    }
}
