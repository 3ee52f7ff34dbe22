//! A node of the tree, a prefix, an optional value and children by edge byte, which a contract reads as a trie.
ghost use Rattle.std.specs.Prelude.{◌≡◌, ◌+◌, ◌*◌, ◌≤◌, [], ◌∷◌, length};
ghost use Rattle.std.specs.Option.{option_copied};
ghost use Rattle.rart_keys.specs.SortedMap.{IsAscending, keys_of};
ghost use Rattle.rart_trie.specs.shapes.Shape.{HasShape};
ghost use Rattle.rart_trie.specs.tries.Trie.{IsCanonical, leaf, nodes_of, pairs_of, prefix_of, value_of, child_in};

use crate::count::Count;
use crate::node::storage::Storage;
use rart_keys::Partial;
use std::marker::Model;

pub mod bounds;
mod children;
mod edits;
mod ends;
mod fill;
mod node_trait;
mod part;
mod rest;
mod storage;
mod tree_stats;

pub use children::NodeIter;
pub use edits::builder::Builder;
pub use ends::{End, copy_of};
pub use node_trait::Node;
pub use rest::strip_prefix;
pub use storage::child_map::ChildMap;

/// Holds a prefix, an optional value and children. The prefix of a child begins with its edge byte; only a root has an
/// empty prefix.
#[derive(Drop)]
pub struct DefaultNode<P: Partial, V> {
    storage: Storage<P, V, DefaultNode<P, V>>,
}

impl<P: Partial, V> Model for DefaultNode<P, V> {
    ghost use Rattle.rart_trie.specs.tries.Trie.{Trie, node};
    ghost use Rattle.rart_trie.specs.tries.TrieCode.{trie_code, as_children, node_count};

    ghost Value = { Trie V };

    ghost coded = { trie_code V.code };

    ghost use Rattle.rart_trie.specs.storages.Stored.{child_entries, storage_capacity, stored_prefix, stored_value};

    ghost view = { λ a. node (P.bytes (stored_prefix a.storage)) (stored_value a.storage)
        (storage_capacity a.storage) (as_children (child_entries a.storage)) };

    ghost size = { node_count };

    ghost use Rattle.rart_trie.specs.storages.StoredFalls.{deep_le-stored};

    ghost size_decreases = { λ a h. deep_le-stored P.Partial a.storage };
}

impl<P: Partial, V> DefaultNode<P, V> {
    /// Returns a node without children that holds `value`. It does not allocate.
    pub fn new_leaf(prefix: P, value: V) -> Self
        ensures leaf { result ≡ leaf (P.bytes prefix) value }
        ensures canonical { IsCanonical result }
        ensures pairs { pairs_of result ≡ (P.bytes prefix, value) ∷ [] }
    {
        DefaultNode {
            storage: Storage::leaf(prefix, value),
        }
    }

    /// Returns the value of the node.
    pub fn value(&self) -> Option<&V>
        ensures { option_copied result ≡ value_of self.now }
    {
        self.storage.value()
    }

    /// Returns the prefix of the node. Crates above get it by a visit.
    pub(crate) fn prefix(&self) -> &P
        ensures { P.bytes result.now ≡ prefix_of self.now }
    {
        self.storage.prefix()
    }

    /// Visits the node: adds one to the counter and returns the prefix.
    pub fn enter<C: Count>(&self, counter: &mut C) -> &P
        ensures prefix { P.bytes result.now ≡ prefix_of self.now }
        ensures counted { C.number counter.new ≡ C.number counter.old + 1 }
    {
        counter.add_one();
        self.storage.prefix()
    }

    /// Visits one node of each of two trees together, which counts once, and returns their prefixes.
    pub fn enter_pair<'a, 'b, W, C: Count>(
        &'a self,
        other: &'b DefaultNode<P, W>,
        counter: &mut C,
    ) -> (&'a P, &'b P)
        ensures left { P.bytes result.0.now ≡ prefix_of self.now }
        ensures right { P.bytes result.1.now ≡ prefix_of other.now }
        ensures counted { C.number counter.new ≡ C.number counter.old + 1 }
    {
        counter.add_one();
        (self.storage.prefix(), other.storage.prefix())
    }

    /// Returns the child at byte `b`.
    pub fn seek_child(&self, b: u8) -> Option<&Self>
        ensures { option_copied result ≡ child_in b self.now }
    {
        self.storage.seek_child(b)
    }

    /// Proves that the pairs of a canonical node ascend and that its nodes are exactly the branch points of its keys.
    /// A tree of `n` keys has at most `2 * n - 1` nodes.
    pub fn canonical(&self)
        requires { IsCanonical self.now }
        ensures ascending { IsAscending (pairs_of self.now) }
        ensures shape { HasShape (keys_of (pairs_of self.now)) (nodes_of self.now) }
        ensures few_nodes { length (nodes_of self.now) + 1 ≤ 2 * length (pairs_of self.now) }
    {}
}
