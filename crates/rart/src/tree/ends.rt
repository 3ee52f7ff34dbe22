//! The first and the last pair of a tree, read and removed.
ghost use Rattle.std.specs.Prelude.{◌≡◌, None, IfErr, IfOk, OnErr, option_map, slice_get};
ghost use Rattle.std.specs.Option.{IsSomeAnd};
ghost use Rattle.rart_keys.specs.Filters.{last_or};
ghost use Rattle.rart_trie.specs.edits.Pops.{PopsFirst, PopsLast};
ghost use Rattle.rart.specs.Refusals.{MayRefuseRemove};

use crate::tree::{AdaptiveRadixTree, length_kept};
use rart_keys::KeyTrait;
use rart_nodes::Visits;
use rart_nodes::node::DefaultNode;
use rart_parts::TreeError;

impl<K: KeyTrait, V> AdaptiveRadixTree<K, V> {
    /// Returns the pair with the least key, or `None` for an empty tree. Makes the key, allocates nothing.
    pub fn first_key_value(&self) -> Option<(K, &V)>
        ensures { option_map (λ p. (K.bytes p.0, p.1.now)) result ≡ slice_get self.now.pairs 0 }
    {
        self.seen().first_key_value_counted(&mut Visits::new())
    }

    /// Returns the pair with the greatest key, or `None` for an empty tree. Makes the key, allocates nothing.
    pub fn last_key_value(&self) -> Option<(K, &V)>
        ensures { option_map (λ p. (K.bytes p.0, p.1.now)) result ≡ last_or None self.now.pairs }
    {
        self.seen().last_key_value_counted(&mut Visits::new())
    }

    /// Removes the pair with the least key and returns it, or `None` for an empty tree.
    ///
    /// # Errors
    ///
    /// [`TreeError::Memory`] as a removal of that key by [`remove_k`](Self::remove_k). The tree is then unchanged.
    pub fn pop_first(&mut self) -> Result<Option<(K, V)>, TreeError>
        ensures pairs { IfOk result (λ p. PopsFirst self.old.pairs
            (option_map (λ p. (K.bytes p.0, p.1)) p) self.new.pairs) }
        ensures unchanged { OnErr result (self.new ≡ self.old) }
        ensures memory { IfErr result (λ e. IsSomeAnd (slice_get self.old.pairs 0)
            (λ p. MayRefuseRemove self.old.pairs p.0 e)) }
    {
        match DefaultNode::pop_first(&mut self.root, self.alloc) {
            Ok(Some((key, value))) => {
                self.len -= 1;
                self.longest = length_kept(self.len, self.longest);
                Ok(Some((K::new_from_partial(&key), value)))
            }
            Ok(None) => Ok(None),
            Err(error) => Err(error),
        }
    }

    /// Removes the pair with the greatest key and returns it, or `None` for an empty tree.
    ///
    /// # Errors
    ///
    /// [`TreeError::Memory`] as a removal of that key by [`remove_k`](Self::remove_k). The tree is then unchanged.
    pub fn pop_last(&mut self) -> Result<Option<(K, V)>, TreeError>
        ensures pairs { IfOk result (λ p. PopsLast self.old.pairs
            (option_map (λ p. (K.bytes p.0, p.1)) p) self.new.pairs) }
        ensures unchanged { OnErr result (self.new ≡ self.old) }
        ensures memory { IfErr result (λ e. IsSomeAnd (last_or None self.old.pairs)
            (λ p. MayRefuseRemove self.old.pairs p.0 e)) }
    {
        match DefaultNode::pop_last(&mut self.root, self.alloc) {
            Ok(Some((key, value))) => {
                self.len -= 1;
                self.longest = length_kept(self.len, self.longest);
                Ok(Some((K::new_from_partial(&key), value)))
            }
            Ok(None) => Ok(None),
            Err(error) => Err(error),
        }
    }
}
