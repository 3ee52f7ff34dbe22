//! The map, which contracts see as its pairs, ascending by key, and the records of its nodes.
ghost use Rattle.std.specs.Prelude.{◌≡◌, ◌+◌, ◌-◌, ◌*◌, ◌/◌, ◌<◌, ◌≤◌, ◌↔◌, [], ◌∷◌, length, max, is_some, IsTrue};
ghost use Rattle.std.specs.Prelude.{None, OnErr};
ghost use Rattle.std.specs.Option.{option_copied};
ghost use Rattle.rart_keys.specs.KeyBytes.{IsWithin};
ghost use Rattle.rart_keys.specs.SortedMap.{IsAscending, keys_of, longest_key, lookup};
ghost use Rattle.rart_trie.specs.shapes.Shape.{HasShape};
ghost use Rattle.rart_nodes.specs.tries.SeenTrees.{length_bound, seen_nodes, seen_pairs};
ghost use Rattle.rart_trie.specs.tries.Tree.{IsCanonicalTree, tree_pairs};
ghost use Rattle.rart.specs.Edits.{Deletes, Inserts, Removes};

use rart_keys::{KeyTrait, Partial};
use rart_nodes::node::DefaultNode;
use rart_nodes::{Refused, Seen, Visits};
use rart_parts::TreeError;
use std::alloc::Global;
use std::marker::{Model, PhantomData};

mod bulk;
mod by_bytes;
mod clones;
mod ends;
mod extend;
mod get_mut;
mod get_or_insert;
pub mod into_pairs;
mod retain;
mod retain_parts;
mod stats;
mod take_prefix;
mod take_range;
pub mod try_insert;
pub mod two_trees;
pub mod update;
mod values_mut;

/// The largest number of pairs that a tree holds.
pub const MAX_PAIRS: usize = usize::MAX / 16;

/// The longest key of a tree that the compiler's recursion drops, which takes a frame a level, at most one a byte;
/// `drop_tree` takes less of the stack and more time.
const SHALLOW: usize = 128;

/// An ordered map from keys, read as bytes, to values. Shared prefixes are stored once, and inner
/// nodes hold up to 4, 16, 48 or 256 children.
pub struct AdaptiveRadixTree<K: KeyTrait, V> {
    root: Option<DefaultNode<K::PartialType, V>>,
    len: usize,
    // at least the length of the longest key stored since the tree was last empty
    longest: usize,
    alloc: Global,
    of: PhantomData<K>,
}

// Written out: the drop of a root holds a node at each level. And a crate that drops a tree then proves one call.
impl<K: KeyTrait, V: Drop> Drop for AdaptiveRadixTree<K, V> {
    fn drop(self) {
        let AdaptiveRadixTree {
            mut root,
            len: _,
            longest,
            alloc: _,
            of: _,
        } = self;
        if longest > SHALLOW {
            DefaultNode::drop_tree(&mut root);
        }
    }
}

impl<K: KeyTrait, V> Model for AdaptiveRadixTree<K, V> {
    ghost use Rattle.rart_trie.specs.tries.Tree.{tree_nodes, tree_pairs};
    ghost use Rattle.rart.specs.MapAndShape.{AreTreeFields, MapAndShape};

    ghost Value = { MapAndShape V };

    ghost view = { λ t. record { pairs = tree_pairs t.root; nodes = tree_nodes t.root } };

    ghost invariant = { λ t. AreTreeFields K.MAXIMUM_SIZE t.root t.len t.longest };
}

impl<K: KeyTrait, V> AdaptiveRadixTree<K, V> {
    /// Creates an empty tree, which requests all later memory from `alloc`. Allocates nothing.
    ///
    /// # Examples
    ///
    /// ```ignore
    /// let mut names: AdaptiveRadixTree<ArrayKey<16>, u32> = AdaptiveRadixTree::new(alloc);
    /// ```
    pub fn new(alloc: Global) -> Self
        ensures pairs { result.pairs ≡ [] }
        ensures nodes { result.nodes ≡ [] }
    {
        AdaptiveRadixTree {
            root: None,
            len: 0,
            longest: 0,
            alloc,
            of: PhantomData,
        }
    }

    /// Returns the number of pairs.
    pub fn len(&self) -> usize
        ensures value { result ≡ length self.now.pairs }
        ensures at_most { result ≤ MAX_PAIRS }
    {
        self.len
    }

    /// Returns whether there is no pair.
    pub fn is_empty(&self) -> bool
        ensures { IsTrue result ↔ (self.now.pairs ≡ []) }
    {
        self.len == 0
    }

    /// Removes all pairs and drops their values. Never fails; the tree is then as `new` makes it.
    pub fn clear(&mut self)
    where
        V: Drop,
        ensures pairs { self.new.pairs ≡ [] }
        ensures nodes { self.new.nodes ≡ [] }
    {
        if self.longest > SHALLOW {
            DefaultNode::drop_tree(&mut self.root);
        }
        self.root = None;
        self.len = 0;
        self.longest = 0;
    }

    /// Proves what holds of every tree; does nothing at run time.
    ///
    /// The pairs ascend by key. The nodes are exactly the branch points of the keys, each of the kind that its child
    /// count fixes. A tree of n keys has at most 2n - 1 nodes. `MAX_PAIRS` is a sixteenth of the greatest `usize`.
    pub fn canonical(&self)
        ensures ascending { IsAscending self.now.pairs }
        ensures shape { HasShape (keys_of self.now.pairs) self.now.nodes }
        ensures few_nodes { length self.now.nodes ≤ 2 * length self.now.pairs - 1 }
        ensures limit { MAX_PAIRS ≡ usize.MAX / 16 }
    {
        match &self.root {
            Some(root) => root.canonical(),
            None => {}
        }
    }

    /// Returns a view of the tree that counts its node reads in a `C`.
    ///
    /// The length that its walks allocate for is at least that of the longest stored key, and 0 in an empty tree.
    pub fn seen<C>(&self) -> Seen<'_, K, V, C>
        ensures pairs { seen_pairs result ≡ self.now.pairs }
        ensures nodes { seen_nodes result ≡ self.now.nodes }
        ensures bounds_keys { longest_key self.now.pairs ≤ length_bound result }
        ensures within { IsWithin K.MAXIMUM_SIZE (length_bound result) }
        ensures empty_bound { self.now.pairs ≡ [] → length_bound result ≡ 0 }
    {
        Seen::of(self.root.as_ref(), self.alloc, self.longest)
    }

    /// Returns a reference to the value at `key`.
    ///
    /// # Examples
    ///
    /// ```ignore
    /// match orders.get_k(&OrderKey::new(7, 2)) {
    ///     Some(order) => println!(rt; "order 2 of 7: {order}"),
    ///     None => println!(rt; "no order 2 of 7"),
    /// }
    /// ```
    pub fn get_k(&self, key: &K) -> Option<&V>
        ensures { option_copied result ≡ lookup (K.bytes key.now) self.now.pairs }
    {
        self.seen().get_k_counted(key, &mut Visits::new())
    }

    /// Returns a reference to the value at `key`, as [`get_k`](Self::get_k).
    pub fn get(&self, key: K) -> Option<&V>
    where
        K: Drop,
        ensures { option_copied result ≡ lookup (K.bytes key) self.now.pairs }
    {
        self.get_k(&key)
    }

    /// Returns a reference to the value at the key with these bytes, which may be longer than any key.
    pub fn get_bytes(&self, key: &[u8]) -> Option<&V>
        ensures { option_copied result ≡ lookup key.now self.now.pairs }
    {
        self.seen().get_bytes_counted(key, &mut Visits::new())
    }

    /// Returns whether `key` is stored.
    pub fn contains_key_k(&self, key: &K) -> bool
        ensures { result ≡ is_some (lookup (K.bytes key.now) self.now.pairs) }
    {
        self.get_k(key).is_some()
    }

    /// Returns whether `key` is stored, as [`contains_key_k`](Self::contains_key_k) does.
    pub fn contains_key(&self, key: K) -> bool
    where
        K: Drop,
        ensures { result ≡ is_some (lookup (K.bytes key) self.now.pairs) }
    {
        self.contains_key_k(&key)
    }

    /// Returns whether the key with these bytes, which may be longer than any key, is stored.
    pub fn contains_key_bytes(&self, key: &[u8]) -> bool
        ensures { result ≡ is_some (lookup key.now self.now.pairs) }
    {
        self.get_bytes(key).is_some()
    }

    /// Inserts `value` at `key` and returns the old value, `None` for a new key.
    ///
    /// # Errors
    ///
    /// [`TreeError::Full`] if the key is new and the tree holds [`MAX_PAIRS`] pairs. [`TreeError::Memory`] if an
    /// allocation fails. None is made in an empty tree or where the key is a branch point. Otherwise one is made only
    /// if the longest branch point that begins the key has no free slot, has a child at its next byte, or doesn't
    /// exist. The tree is then unchanged, and the error holds `value`.
    ///
    /// # Examples
    ///
    /// ```ignore
    /// words.insert_k(&ArrayKey::new_from_slice(b"cat"), 1)?;
    /// ```
    pub fn insert_k(&mut self, key: &K, value: V) -> Result<Option<V>, Refused<V>>
        ensures inserts { Inserts (K.bytes key.now) value self.old.pairs self.new.pairs result }
        ensures unchanged { OnErr result (self.new ≡ self.old) }
    {
        if self.is_full_for(key) {
            return Err(Refused::full(value));
        }
        let bytes = key.as_ref();
        let old = match &mut self.root {
            Some(root) => root.insert(self.alloc, bytes, value)?,
            None => {
                insert_first(&mut self.root, key, value);
                None
            }
        };
        if old.is_none() {
            self.len += 1;
        }
        self.longest = self.longest.max(bytes.len());
        Ok(old)
    }

    // Returns whether `key` is new and the tree holds `MAX_PAIRS` pairs. It searches only a full tree.
    fn is_full_for(&self, key: &K) -> bool
        ensures { IsTrue result ↔ (length self.now.pairs ≡ MAX_PAIRS)
            × (lookup (K.bytes key.now) self.now.pairs ≡ None) }
    {
        self.len == MAX_PAIRS && self.get_k(key).is_none()
    }

    /// Inserts `value` at `key` and returns the old value, as [`insert_k`](Self::insert_k).
    ///
    /// # Errors
    ///
    /// Those of [`insert_k`](Self::insert_k). The tree is then unchanged, and the error holds `value`.
    pub fn insert(&mut self, key: K, value: V) -> Result<Option<V>, Refused<V>>
    where
        K: Drop,
        ensures inserts { Inserts (K.bytes key) value self.old.pairs self.new.pairs result }
        ensures unchanged { OnErr result (self.new ≡ self.old) }
    {
        self.insert_k(&key, value)
    }

    /// Removes `key` and returns its value.
    ///
    /// # Errors
    ///
    /// [`TreeError::Memory`] if the parent must shrink to a smaller kind (5, 17 or 49 children to one fewer) and the
    /// allocation fails. The tree is then unchanged. Removing an absent key never fails.
    ///
    /// # Examples
    ///
    /// ```ignore
    /// let removed = readings.remove_k(&ArrayKey::<8>::from_u64(1));
    /// ```
    pub fn remove_k(&mut self, key: &K) -> Result<Option<V>, TreeError>
        ensures removes { Removes (K.bytes key.now) self.old.pairs self.new.pairs result }
        ensures unchanged { OnErr result (self.new ≡ self.old) }
    {
        self.remove_bytes(key.as_ref())
    }

    /// Removes `key` and returns its value, as [`remove_k`](Self::remove_k).
    ///
    /// # Errors
    ///
    /// Those of [`remove_k`](Self::remove_k). The tree is then unchanged.
    pub fn remove(&mut self, key: K) -> Result<Option<V>, TreeError>
    where
        K: Drop,
        ensures removes { Removes (K.bytes key) self.old.pairs self.new.pairs result }
        ensures unchanged { OnErr result (self.new ≡ self.old) }
    {
        self.remove_k(&key)
    }

    /// Removes `key`, drops its value, and returns whether the key was stored.
    ///
    /// # Errors
    ///
    /// Those of [`remove_k`](Self::remove_k). The tree is then unchanged.
    pub fn delete_k(&mut self, key: &K) -> Result<bool, TreeError>
    where
        V: Drop,
        ensures deletes { Deletes (K.bytes key.now) self.old.pairs self.new.pairs result }
        ensures unchanged { OnErr result (self.new ≡ self.old) }
    {
        self.delete_bytes(key.as_ref())
    }

    /// Removes `key`, drops its value and returns whether it was stored, as [`delete_k`](Self::delete_k).
    ///
    /// # Errors
    ///
    /// Those of [`remove_k`](Self::remove_k). The tree is then unchanged.
    pub fn delete(&mut self, key: K) -> Result<bool, TreeError>
    where
        K: Drop,
        V: Drop,
        ensures deletes { Deletes (K.bytes key) self.old.pairs self.new.pairs result }
        ensures unchanged { OnErr result (self.new ≡ self.old) }
    {
        self.delete_k(&key)
    }
}

// Returns the length to keep for later walks after a removal that leaves `len` pairs: `longest`, and 0 without pairs.
fn length_kept(len: usize, longest: usize) -> usize
    ensures none { len ≡ 0 → result ≡ 0 }
    ensures some { 0 < len → result ≡ longest }
{
    if len == 0 { 0 } else { longest }
}

// Inserts the first leaf of a tree without a root.
fn insert_first<K: KeyTrait, V>(
    root: &mut Option<DefaultNode<K::PartialType, V>>,
    key: &K,
    value: V,
)
    requires empty { root.old ≡ None }
    ensures canonical { IsCanonicalTree root.new }
    ensures pairs { tree_pairs root.new ≡ (K.bytes key.now, value) ∷ [] }
{
    let leaf = DefaultNode::new_leaf(key.to_partial(0), value);
    match root.replace(leaf) {
        Some(_) => unreachable!(),
        None => {}
    }
}
