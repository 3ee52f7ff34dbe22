//! A route table: a map that is looked up by the longest stored prefix of a probe.

// Contracts see a table as they see a tree: its pairs of prefix and target, ascending by prefix, and the records of its
// nodes. It uses the contracts of the tree alone, and none of its fields.

ghost use Rattle.std.specs.Prelude.{◌≡◌, ◌*◌, ◌-◌, ◌≤◌, ◌↔◌, [], length, option_map, IfErr, IfOk, IsTrue, OnErr};
ghost use Rattle.std.specs.Borrow.{sem};
ghost use Rattle.std.specs.Option.{option_copied};
ghost use Rattle.rart_keys.specs.Filters.{longest_match, longest_value};
ghost use Rattle.rart_keys.specs.KeyBytes.{IsWithin};
ghost use Rattle.rart_keys.specs.SortedMap.{IsAscending, keys_of, longest_key, lookup};
ghost use Rattle.rart_trie.specs.shapes.Shape.{HasShape};
ghost use Rattle.rart_nodes.specs.tries.SeenTrees.{length_bound, seen_nodes, seen_pairs};
ghost use Rattle.rart_trie.specs.walks.Calls.{MayLackMemory};
ghost use Rattle.rart.specs.Edits.{Inserts, InsertsNew, PutOrSame, Removes, TriesInsert};
ghost use Rattle.rart.specs.Refusals.{AddsPresent, IsStoredAt};
ghost use Rattle.rart.specs.RouteLoans.{table_ends_as};
ghost use Rattle.rart.specs.declared.tree.TheConstants.{MAX_PAIRS};

mod append;
mod clones;
mod debug;
mod edits;
mod ends;
mod equal;
mod extend;
mod try_walks;
mod walks;

use crate::stats::{TreeStats, TreeStatsTrait};
use crate::tree::AdaptiveRadixTree;
use crate::tree::try_insert::TryInsertError;
use crate::walks::both_ends::BothEnds;
use rart_keys::KeyTrait;
use rart_nodes::iter::Iter;
use rart_nodes::{NotInserted, Refused, Seen};
use rart_parts::TreeError;
use std::alloc::Global;
use std::marker::Model;

/// Targets by prefix. A probe is routed to the target of the longest prefix that begins it.
#[derive(Drop)]
pub struct RouteTable<K: KeyTrait, T> {
    routes: AdaptiveRadixTree<K, T>,
}

impl<K: KeyTrait, T> Model for RouteTable<K, T> {
    ghost use Rattle.rart.specs.MapAndShape.{MapAndShape};

    ghost Value = { MapAndShape T };

    ghost view = { λ t. t.routes };
}

impl<K: KeyTrait, T> RouteTable<K, T> {
    /// Creates an empty table, which requests all later memory from `alloc`. Allocates nothing.
    pub fn new(alloc: Global) -> Self
        ensures pairs { result.pairs ≡ [] }
        ensures nodes { result.nodes ≡ [] }
    {
        RouteTable {
            routes: AdaptiveRadixTree::new(alloc),
        }
    }

    /// Returns the number of routes.
    pub fn len(&self) -> usize
        ensures value { result ≡ length self.now.pairs }
        ensures at_most { result ≤ MAX_PAIRS }
    {
        self.routes.len()
    }

    /// Returns whether there is no route.
    pub fn is_empty(&self) -> bool
        ensures { IsTrue result ↔ (self.now.pairs ≡ []) }
    {
        self.routes.is_empty()
    }

    /// Proves what holds of every table; does nothing at run time.
    ///
    /// The pairs ascend by prefix. The nodes are exactly the branch points of the prefixes. A table of n routes has
    /// at most 2n - 1 nodes.
    pub fn canonical(&self)
        ensures ascending { IsAscending self.now.pairs }
        ensures shape { HasShape (keys_of self.now.pairs) self.now.nodes }
        ensures few_nodes { length self.now.nodes ≤ 2 * length self.now.pairs - 1 }
    {
        self.routes.canonical()
    }

    /// Returns a view of the table's tree that counts its node reads in a `C`. Its `_counted` calls bound their visits.
    pub fn seen<C>(&self) -> Seen<'_, K, T, C>
        ensures pairs { seen_pairs result ≡ self.now.pairs }
        ensures nodes { seen_nodes result ≡ self.now.nodes }
        ensures bounds_keys { longest_key self.now.pairs ≤ length_bound result }
        ensures within { IsWithin K.MAXIMUM_SIZE (length_bound result) }
        ensures empty_bound { self.now.pairs ≡ [] → length_bound result ≡ 0 }
    {
        self.routes.seen()
    }

    /// Inserts a new route from `prefix` to `target`.
    ///
    /// # Errors
    ///
    /// [`TryInsertError::Occupied`] if the prefix is stored, with `target` and a reference to the stored one; this
    /// allocates nothing. [`TryInsertError::Refused`] if the insertion fails, `Full` or `Memory`, with `target`.
    /// After the borrow ends the table is unchanged.
    pub fn add<'a>(&'a mut self, prefix: &K, target: T) -> Result<(), TryInsertError<'a, T>>
        ensures* after { sem 𝓛
            (table_ends_as K.row T.row K.PartialType.row K.KeyTrait K.PartialType.Partial self.entry
            (PutOrSame (K.bytes prefix.now) target result self.old)) }
        ensures answer { TriesInsert (K.bytes prefix.now) target self.old.pairs result }
    {
        let outcome = self.add_new(prefix, target);
        self.with_present(prefix, outcome)
    }

    /// Inserts a new route as [`add`](Self::add), and borrows nothing: the call for a proof that uses the table
    /// afterwards.
    ///
    /// # Errors
    ///
    /// [`NotInserted::Stored`] or [`NotInserted::Refused`], where [`add`](Self::add) fails. The table is then
    /// unchanged, and the error holds `target`.
    pub fn add_new(&mut self, prefix: &K, target: T) -> Result<(), NotInserted<T>>
        ensures adds { InsertsNew (K.bytes prefix.now) target self.old.pairs self.new.pairs result }
        ensures unchanged { OnErr result (self.new ≡ self.old) }
    {
        self.routes.insert_new_k(prefix, target)
    }

    // Returns the outcome of an insertion, with the stored target if the prefix isn't new.
    fn with_present<'a>(
        &'a self,
        prefix: &K,
        outcome: Result<(), NotInserted<T>>,
    ) -> Result<(), TryInsertError<'a, T>>
        requires stored { IfErr outcome (IsStoredAt self.now.pairs (K.bytes prefix.now)) }
        ensures { AddsPresent self.now.pairs (K.bytes prefix.now) outcome result }
    {
        self.routes.with_present(prefix, outcome)
    }

    /// Inserts or replaces the route from `prefix` and returns the old target.
    ///
    /// # Errors
    ///
    /// [`TreeError::Full`] or [`TreeError::Memory`] if the prefix is new and the insertion fails. The table is then
    /// unchanged, and the error holds `target`.
    pub fn replace(&mut self, prefix: &K, target: T) -> Result<Option<T>, Refused<T>>
        ensures replaces { Inserts (K.bytes prefix.now) target self.old.pairs self.new.pairs
            result }
        ensures unchanged { OnErr result (self.new ≡ self.old) }
    {
        self.routes.insert_k(prefix, target)
    }

    /// Removes the route from `prefix` and returns its target, `None` if there is no such route.
    ///
    /// # Errors
    ///
    /// [`TreeError::Memory`] if the route is stored and the removal fails as one from a tree. The table is then
    /// unchanged.
    pub fn withdraw(&mut self, prefix: &K) -> Result<Option<T>, TreeError>
        ensures removes { Removes (K.bytes prefix.now) self.old.pairs self.new.pairs result }
        ensures unchanged { OnErr result (self.new ≡ self.old) }
    {
        self.routes.remove_k(prefix)
    }

    /// Returns the target of `prefix` itself.
    pub fn get(&self, prefix: &K) -> Option<&T>
        ensures { option_copied result ≡ lookup (K.bytes prefix.now) self.now.pairs }
    {
        self.routes.get_k(prefix)
    }

    /// Returns an iterator over the routes, ascending by prefix.
    ///
    /// # Errors
    ///
    /// [`TreeError::Memory`] if the table isn't empty and the allocation for the iterator fails.
    pub fn iter(&self) -> Result<Iter<'_, K, K::PartialType, T>, TreeError>
        ensures routes { IfOk result (λ it. it ≡ self.now.pairs) }
        ensures memory { IfErr result (MayLackMemory self.now.pairs) }
    {
        self.routes.iter()
    }

    /// Returns an iterator over the routes from both ends, which counts the remaining routes.
    ///
    /// # Errors
    ///
    /// [`TreeError::Memory`] if the table isn't empty and an allocation for the iterator fails.
    pub fn iter_both_ends(&self) -> Result<BothEnds<'_, K, T>, TreeError>
        ensures routes { IfOk result (λ it. it ≡ self.now.pairs) }
        ensures memory { IfErr result (MayLackMemory self.now.pairs) }
    {
        self.routes.iter_both_ends()
    }

    /// Removes all routes and drops their targets. Never fails.
    pub fn clear(&mut self)
    where
        T: Drop,
        ensures pairs { self.new.pairs ≡ [] }
        ensures nodes { self.new.nodes ≡ [] }
    {
        self.routes.clear()
    }

    /// Returns the target of the longest prefix that begins the bytes `probe`, which may be longer than any key.
    /// Allocates nothing.
    ///
    /// # Examples
    ///
    /// ```ignore
    /// let before = table.route(probe).copied();
    /// ```
    pub fn route(&self, probe: &[u8]) -> Option<&T>
        ensures { option_copied result ≡ longest_value probe.now self.now.pairs }
    {
        self.routes.longest_prefix_value_bytes(probe)
    }

    /// Returns the longest prefix that begins the bytes `probe`, which may be longer than any key, with its target.
    /// Allocates nothing.
    pub fn route_with_prefix_bytes(&self, probe: &[u8]) -> Option<(K, &T)>
        ensures { option_map (λ p. (K.bytes p.0, p.1.now)) result
            ≡ longest_match probe.now self.now.pairs }
    {
        self.routes.longest_prefix_match_bytes(probe)
    }

    /// Returns the longest prefix that begins `probe`, with its target. Allocates nothing.
    pub fn route_with_prefix(&self, probe: &K) -> Option<(K, &T)>
        ensures { option_map (λ p. (K.bytes p.0, p.1.now)) result
            ≡ longest_match (K.bytes probe.now) self.now.pairs }
    {
        self.routes.longest_prefix_match_k(probe)
    }
}

impl<K: KeyTrait, T> TreeStatsTrait for RouteTable<K, T> {
    ghost keys = { λ t. keys_of t.pairs };

    ghost nodes = { λ t. t.nodes };

    fn get_tree_stats(&self) -> Result<TreeStats, TreeError> {
        self.routes.get_tree_stats()
    }
}
