//! The tree of a table, targets that are changed in place, and routes that are removed by prefix or by a callback.
ghost use Rattle.std.specs.Prelude.{◌≡◌, [], is_some, IfErr, OnErr};
ghost use Rattle.std.specs.Borrow.{sem};
ghost use Rattle.std.specs.Option.{option_copied_mut};
ghost use Rattle.rart_keys.specs.SortedMap.{lookup, values_of};
ghost use Rattle.rart_parts.specs.Errors.{IsMemory};
ghost use Rattle.rart_trie.specs.edits.Retentions.{CanRetain, Retains, RetainsByValue};
ghost use Rattle.rart_trie.specs.edits.ValueChanges.{CanLend, ChangesBelow, ChangesBelowByValue};
ghost use Rattle.rart.specs.Edits.{RemovesPrefix};
ghost use Rattle.rart.specs.RouteLoans.{lends_target};

use crate::routes::RouteTable;
use crate::tree::AdaptiveRadixTree;
use rart_keys::KeyTrait;
use rart_parts::TreeError;

impl<K: KeyTrait, T> RouteTable<K, T> {
    /// Returns the tree of the routes, for the reads and walks that a table has no name for.
    pub fn as_tree(&self) -> &AdaptiveRadixTree<K, T>
        ensures { result.now ≡ self.now }
    {
        &self.routes
    }

    /// Returns whether there is a route from `prefix` itself.
    pub fn contains_key(&self, prefix: &K) -> bool
        ensures { result ≡ is_some (lookup (K.bytes prefix.now) self.now.pairs) }
    {
        self.routes.contains_key_k(prefix)
    }

    /// Returns a mutable reference to the target of `prefix` itself. Allocates nothing.
    ///
    /// After the borrow ends, only that target can have changed.
    pub fn get_mut<'a>(&'a mut self, prefix: &K) -> Option<&'a mut T>
        ensures* writes_back { sem 𝓛
            (lends_target K.row T.row K.PartialType.row K.KeyTrait K.PartialType.Partial
            self.entry (K.bytes prefix.now) result) }
        ensures target { option_copied_mut result ≡ lookup (K.bytes prefix.now) self.old.pairs }
    {
        self.routes.get_mut_k(prefix)
    }

    /// Calls `f` with a mutable reference to each target, in the order of the prefixes. `f` must be callable with each
    /// target in turn; the caller keeps it. Prefixes and nodes are unchanged. Makes no prefix, allocates nothing.
    pub fn for_each_value_mut_by_ref<F: FnMut(&mut T)>(&mut self, f: &mut F)
        requires callable { CanLend F.FnMut f.old (values_of self.old.pairs) }
        ensures stays_callable { F.IsAlwaysCallable f.old → F.IsAlwaysCallable f.new }
        ensures changes { ChangesBelow F.FnMut [] f.old self.old.pairs self.new.pairs f.new }
        ensures nodes { self.new.nodes ≡ self.old.nodes }
    {
        self.routes.for_each_value_mut_by_ref(f)
    }

    /// Calls `f` as [`for_each_value_mut_by_ref`](Self::for_each_value_mut_by_ref), and drops it.
    pub fn for_each_value_mut<F: FnMut(&mut T) + Drop>(&mut self, f: F)
        requires callable { CanLend F.FnMut f (values_of self.old.pairs) }
        ensures changes { ChangesBelowByValue F.FnMut [] f self.old.pairs self.new.pairs }
        ensures nodes { self.new.nodes ≡ self.old.nodes }
    {
        self.routes.for_each_value_mut(f)
    }
}

impl<K: KeyTrait, T: Drop> RouteTable<K, T> {
    /// Removes all routes whose prefix begins with `prefix`, drops their targets, and returns how many there were.
    ///
    /// # Errors
    ///
    /// Those of [`AdaptiveRadixTree::remove_prefix_k`]. The table is then unchanged.
    pub fn remove_prefix(&mut self, prefix: &K) -> Result<usize, TreeError>
        ensures removes { RemovesPrefix (K.bytes prefix.now) self.old.pairs self.new.pairs result }
        ensures unchanged { OnErr result (self.new ≡ self.old) }
    {
        self.routes.remove_prefix_k(prefix)
    }

    /// Calls `f` with the bytes of the prefix and the target of each route, in the order of the prefixes, and removes
    /// the routes for which it returns `false`, as [`AdaptiveRadixTree::retain_by_ref`]. The other routes keep the
    /// target that their call left.
    ///
    /// `f` must be callable with each route in turn; the caller keeps it.
    ///
    /// # Errors
    ///
    /// Those of [`AdaptiveRadixTree::retain_by_ref`], which says what is then left.
    pub fn retain_by_ref<F: FnMut(&[u8], &mut T) -> bool>(
        &mut self,
        f: &mut F,
    ) -> Result<(), TreeError>
        requires callable { CanRetain F.FnMut f.old self.old.pairs }
        ensures stays_callable { F.IsAlwaysCallable f.old → F.IsAlwaysCallable f.new }
        ensures retains { Retains F.FnMut f.old self.old.pairs result self.new.pairs f.new }
        ensures memory { IfErr result IsMemory }
    {
        self.routes.retain_by_ref(f)
    }

    /// Keeps the routes for which `f` returns `true`, as [`retain_by_ref`](Self::retain_by_ref), and drops `f`.
    ///
    /// # Errors
    ///
    /// Those of [`retain_by_ref`](Self::retain_by_ref).
    pub fn retain<F: FnMut(&[u8], &mut T) -> bool + Drop>(&mut self, f: F) -> Result<(), TreeError>
        requires callable { CanRetain F.FnMut f self.old.pairs }
        ensures retains { RetainsByValue F.FnMut f self.old.pairs result self.new.pairs }
        ensures memory { IfErr result IsMemory }
    {
        self.routes.retain(f)
    }
}
