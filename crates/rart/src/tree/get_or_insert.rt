//! Mutable borrows of a value that is inserted first if its key is new.
ghost use Rattle.std.specs.Prelude.{◌≡◌, None, IfErr, IfOk, OnErr, OnOk};
ghost use Rattle.std.specs.Borrow.{sem};
ghost use Rattle.std.specs.Option.{UnwrapsOrElse, unwrap_or};
ghost use Rattle.rart_keys.specs.SortedMap.{lookup};
ghost use Rattle.rart.specs.Edits.{PutsIfNew};
ghost use Rattle.rart.specs.Loans.{lends_put};
ghost use Rattle.rart.specs.Refusals.{MayRefuseInsert};

use crate::tree::AdaptiveRadixTree;
use rart_keys::KeyTrait;
use rart_keys::laws::sorted_map;
use rart_laws::put_back;
use rart_nodes::{NotInserted, Refused};

impl<K: KeyTrait, V> AdaptiveRadixTree<K, V> {
    /// Returns a mutable reference to the value at `key`. If the key is new, `f` is called once, and what it returns is
    /// inserted first. If the key is stored, `f` is not called and nothing is allocated.
    ///
    /// After the borrow ends, only the value at `key` can have changed.
    ///
    /// # Errors
    ///
    /// [`TreeError::Full`](rart_parts::TreeError::Full) or [`TreeError::Memory`](rart_parts::TreeError::Memory) if the
    /// key is new and its insertion fails as that of [`insert_k`](Self::insert_k), with the value that `f` returned.
    /// The tree is then unchanged.
    pub fn get_or_insert_with_k<F: FnOnce() -> V>(
        &mut self,
        key: &K,
        f: F,
    ) -> Result<&mut V, Refused<V>>
        requires callable { lookup (K.bytes key.now) self.old.pairs ≡ None → F.pre f }
        ensures* writes_back { sem 𝓛
            (lends_put K.row V.row K.PartialType.row K.KeyTrait K.PartialType.Partial self.entry
            (K.bytes key.now) result) }
        ensures value { IfOk result
            (λ x. UnwrapsOrElse (lookup (K.bytes key.now) self.old.pairs) (F.post f) x.now) }
        ensures refused { IfErr result (λ r. F.post f r.value
            × MayRefuseInsert self.old.pairs (K.bytes key.now) r.error) }
    {
        self.canonical();
        sorted_map::<V>();
        self.hold_with(key, f)?;
        match self.get_mut_k(key) {
            Some(value) => Ok(value),
            None => unreachable!(),
        }
    }

    /// Returns a mutable reference to the value at `key`, and inserts what `f` returns first if the key is new, as
    /// [`get_or_insert_with_k`](Self::get_or_insert_with_k).
    ///
    /// # Errors
    ///
    /// Those of [`get_or_insert_with_k`](Self::get_or_insert_with_k).
    pub fn get_or_insert_with<F: FnOnce() -> V>(
        &mut self,
        key: K,
        f: F,
    ) -> Result<&mut V, Refused<V>>
    where
        K: Drop,
        requires callable { lookup (K.bytes key) self.old.pairs ≡ None → F.pre f }
        ensures* writes_back { sem 𝓛
            (lends_put K.row V.row K.PartialType.row K.KeyTrait K.PartialType.Partial self.entry
            (K.bytes key) result) }
        ensures value { IfOk result
            (λ x. UnwrapsOrElse (lookup (K.bytes key) self.old.pairs) (F.post f) x.now) }
        ensures refused { IfErr result (λ r. F.post f r.value
            × MayRefuseInsert self.old.pairs (K.bytes key) r.error) }
    {
        self.get_or_insert_with_k(&key, f)
    }

    /// Returns a mutable reference to the value at `key`. If the key is new, `value` is inserted first; if it is
    /// stored, `value` is dropped.
    ///
    /// After the borrow ends, only the value at `key` can have changed.
    ///
    /// # Errors
    ///
    /// Those of [`get_or_insert_with_k`](Self::get_or_insert_with_k), with `value`. The tree is then unchanged.
    pub fn get_or_insert_k(&mut self, key: &K, value: V) -> Result<&mut V, Refused<V>>
    where
        V: Drop,
        ensures* writes_back { sem 𝓛
            (lends_put K.row V.row K.PartialType.row K.KeyTrait K.PartialType.Partial self.entry
            (K.bytes key.now) result) }
        ensures value { IfOk result
            (λ x. x.now ≡ unwrap_or (lookup (K.bytes key.now) self.old.pairs) value) }
        ensures refused { IfErr result (λ r. (r.value ≡ value)
            × MayRefuseInsert self.old.pairs (K.bytes key.now) r.error) }
    {
        self.canonical();
        sorted_map::<V>();
        self.hold(key, value)?;
        match self.get_mut_k(key) {
            Some(stored) => Ok(stored),
            None => unreachable!(),
        }
    }

    /// Returns a mutable reference to the value at `key`, and inserts `value` first if the key is new, as
    /// [`get_or_insert_k`](Self::get_or_insert_k).
    ///
    /// # Errors
    ///
    /// Those of [`get_or_insert_k`](Self::get_or_insert_k).
    pub fn get_or_insert(&mut self, key: K, value: V) -> Result<&mut V, Refused<V>>
    where
        K: Drop,
        V: Drop,
        ensures* writes_back { sem 𝓛
            (lends_put K.row V.row K.PartialType.row K.KeyTrait K.PartialType.Partial self.entry
            (K.bytes key) result) }
        ensures value { IfOk result
            (λ x. x.now ≡ unwrap_or (lookup (K.bytes key) self.old.pairs) value) }
        ensures refused { IfErr result (λ r. (r.value ≡ value)
            × MayRefuseInsert self.old.pairs (K.bytes key) r.error) }
    {
        self.get_or_insert_k(&key, value)
    }

    // Inserts what `f` returns at `key` if the key is new.
    fn hold_with<F: FnOnce() -> V>(&mut self, key: &K, f: F) -> Result<(), Refused<V>>
        requires callable { lookup (K.bytes key.now) self.old.pairs ≡ None → F.pre f }
        ensures held { OnOk result (PutsIfNew (K.bytes key.now) (F.post f) self.old.pairs
            self.new.pairs) }
        ensures refused { IfErr result (λ r. F.post f r.value
            × MayRefuseInsert self.old.pairs (K.bytes key.now) r.error) }
        ensures unchanged { OnErr result (self.new ≡ self.old) }
    {
        self.canonical();
        put_back::<V>();
        if self.contains_key_k(key) {
            return Ok(());
        }
        match self.insert_new_k(key, f()) {
            Ok(()) => Ok(()),
            Err(NotInserted::Refused(refused)) => Err(refused),
            Err(NotInserted::Stored(_)) => unreachable!(),
        }
    }

    // Inserts `value` at `key` if the key is new, and drops it if not.
    fn hold(&mut self, key: &K, value: V) -> Result<(), Refused<V>>
    where
        V: Drop,
        ensures held { OnOk result (PutsIfNew (K.bytes key.now) (λ v. v ≡ value) self.old.pairs
            self.new.pairs) }
        ensures refused { IfErr result (λ r. (r.value ≡ value)
            × MayRefuseInsert self.old.pairs (K.bytes key.now) r.error) }
        ensures unchanged { OnErr result (self.new ≡ self.old) }
    {
        self.canonical();
        put_back::<V>();
        match self.insert_new_k(key, value) {
            Ok(()) => Ok(()),
            Err(NotInserted::Stored(_)) => Ok(()),
            Err(NotInserted::Refused(refused)) => Err(refused),
        }
    }
}
