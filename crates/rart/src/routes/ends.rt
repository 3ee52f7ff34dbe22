//! The routes with the least and with the greatest prefix, read and removed.
ghost use Rattle.std.specs.Prelude.{◌≡◌, None, IfErr, IfOk, OnErr, option_map, slice_get};
ghost use Rattle.std.specs.Option.{IsSomeAnd};
ghost use Rattle.rart_keys.specs.Filters.{last_or};
ghost use Rattle.rart_trie.specs.edits.Pops.{PopsFirst, PopsLast};
ghost use Rattle.rart.specs.Refusals.{MayRefuseRemove};

use crate::routes::RouteTable;
use rart_keys::KeyTrait;
use rart_parts::TreeError;

impl<K: KeyTrait, T> RouteTable<K, T> {
    /// Returns the route with the least prefix, or `None` for an empty table. Makes the prefix, allocates nothing.
    pub fn first_key_value(&self) -> Option<(K, &T)>
        ensures { option_map (λ p. (K.bytes p.0, p.1.now)) result ≡ slice_get self.now.pairs 0 }
    {
        self.routes.first_key_value()
    }

    /// Returns the route with the greatest prefix, or `None` for an empty table. Makes the prefix, allocates nothing.
    pub fn last_key_value(&self) -> Option<(K, &T)>
        ensures { option_map (λ p. (K.bytes p.0, p.1.now)) result ≡ last_or None self.now.pairs }
    {
        self.routes.last_key_value()
    }
    /// Removes the route with the least prefix and returns it, or `None` for an empty table.
    ///
    /// # Errors
    ///
    /// [`TreeError::Memory`] as a removal of that prefix. The table is then unchanged.
    pub fn pop_first(&mut self) -> Result<Option<(K, T)>, TreeError>
        ensures pairs { IfOk result (λ p. PopsFirst self.old.pairs
            (option_map (λ p. (K.bytes p.0, p.1)) p) self.new.pairs) }
        ensures unchanged { OnErr result (self.new ≡ self.old) }
        ensures memory { IfErr result (λ e. IsSomeAnd (slice_get self.old.pairs 0)
            (λ p. MayRefuseRemove self.old.pairs p.0 e)) }
    {
        self.routes.pop_first()
    }

    /// Removes the route with the greatest prefix and returns it, or `None` for an empty table.
    ///
    /// # Errors
    ///
    /// [`TreeError::Memory`] as a removal of that prefix. The table is then unchanged.
    pub fn pop_last(&mut self) -> Result<Option<(K, T)>, TreeError>
        ensures pairs { IfOk result (λ p. PopsLast self.old.pairs
            (option_map (λ p. (K.bytes p.0, p.1)) p) self.new.pairs) }
        ensures unchanged { OnErr result (self.new ≡ self.old) }
        ensures memory { IfErr result (λ e. IsSomeAnd (last_or None self.old.pairs)
            (λ p. MayRefuseRemove self.old.pairs p.0 e)) }
    {
        self.routes.pop_last()
    }
}
