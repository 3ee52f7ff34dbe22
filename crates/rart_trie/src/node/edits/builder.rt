//! Builds of trees from ascending keys, one after the other: a node is made, of its final kind, when the next key
//! leaves it.
ghost use Rattle.std.specs.Prelude.{◌≡◌, ◌+◌, ◌-◌, ◌<◌, ◌≤◌, ◌∷◌, ◌++◌, ℕ, List, [], drop, length, reverse, take};
ghost use Rattle.std.specs.Prelude.{IfErr, IfOk, MatchOption, None, OnOk, false, true};
ghost use Rattle.rart_keys.specs.ByteStrings.{IsLess};
ghost use Rattle.rart_keys.specs.KeyBytes.{IsWithin};
ghost use Rattle.rart_parts.specs.Errors.{IsMemory};
ghost use Rattle.rart_trie.specs.build.Built.{built};
ghost use Rattle.rart_trie.specs.build.Spine.{IsAt, IsBuilderAt, IsClosed, IsReached, IsShallow, IsSpine};
ghost use Rattle.rart_trie.specs.build.Spine.{builder_pairs, edge_entries, spine_pairs};
ghost use Rattle.rart_trie.specs.shapes.Shape.{capacity_of};
ghost use Rattle.rart_trie.specs.storages.Stored.{child_entries, storage_capacity, stored_value};
ghost use Rattle.rart_trie.specs.tries.Trie.{AreCanonical, IsCanonical, pairs_of};
ghost use Rattle.rart_trie.specs.tries.TrieCode.{as_children};

use crate::node::DefaultNode;
use crate::node::edits::drop_tree::drop_children;
use crate::node::storage::Storage;
use rart_keys::{Partial, common_prefix_length};
use rart_parts::TreeError;
use std::alloc::Global;

/// A node without its prefix.
// A key decides where the prefix begins after the children are known.
pub(super) type Bare<P, V> = Storage<(), V, DefaultNode<P, V>>;

/// A node on the path to the last key that may get more children.
#[derive(Drop)]
struct Frame<V> {
    // where its prefix ends in the last key
    depth: usize,
    // the place in `waiting` of its first finished child
    start: usize,
    value: Option<V>,
}

/// The unfinished nodes of a tree of ascending keys, whose last key the caller holds.
// Each key and value is read once; a node is allocated once, when its children are known.
pub struct Builder<P: Partial, V> {
    // the innermost last
    spine: Vec<Frame<V>>,
    // the finished children of all unfinished nodes
    waiting: Vec<DefaultNode<P, V>>,
    alloc: Global,
}

// Written out: the drop of a node holds a node at each level.
impl<P: Partial, V: Drop> Drop for Builder<P, V> {
    fn drop(self) {
        let Builder {
            spine: _,
            mut waiting,
            alloc: _,
        } = self;
        while let Some(node) = waiting.pop() {
            drop_node(node);
        }
    }
}

/// Returns the bytes of a key between two depths.
fn key_part(key: &[u8], depth: usize, end: usize) -> &[u8]
    requires ends { depth ≤ end }
    requires reach { end ≤ length key.now }
    ensures { result.now ≡ take (end - depth) (drop depth key.now) }
{
    &key[depth..end]
}

/// Returns the node with this prefix over the value and the children of a storage.
#[inline(always)]
fn node_with_prefix<P: Partial, V>(prefix: &[u8], storage: Bare<P, V>) -> DefaultNode<P, V>
    requires within { IsWithin P.MAXIMUM_SIZE (length prefix.now) }
    ensures { result ≡ built prefix.now storage }
{
    DefaultNode {
        storage: storage.with_prefix(P::from_slice(prefix)),
    }
}

/// Drops a node and all below it, the lowest nodes first.
pub(super) fn drop_node<P: Partial, V: Drop>(node: DefaultNode<P, V>) {
    let mut storage = node.storage;
    drop_children(&mut storage);
}

/// Drops the value and all nodes of a storage, the lowest nodes first.
fn drop_bare<P: Partial, V: Drop>(storage: Bare<P, V>) {
    let mut storage = storage.with_prefix(P::from_slice(&[]));
    drop_children(&mut storage);
}

impl<V, N> Storage<(), V, N> {
    /// Returns empty storage of the kind for `count` children.
    pub(super) fn for_children(alloc: Global, count: usize) -> Result<Self, TreeError>
        ensures entries { IfOk result (λ s. child_entries s ≡ []) }
        ensures capacity { IfOk result (λ s. storage_capacity s ≡ capacity_of count) }
        ensures value { IfOk result (λ s. stored_value s ≡ None) }
        ensures memory { IfErr result IsMemory }
    {
        if count == 0 {
            Ok(Storage::empty(()))
        } else if count <= 4 {
            Storage::new_4(alloc, ())
        } else if count <= 16 {
            Storage::new_16(alloc, ())
        } else if count <= 48 {
            Storage::new_48(alloc, ())
        } else {
            Storage::new_256(alloc, ())
        }
    }
}

impl<P: Partial, V> Builder<P, V> {
    /// Returns a builder without a pair, which may be at any key. It does not allocate.
    pub fn new(alloc: Global) -> Self
        ensures at { (key : List ℕ) → IsBuilderAt key result }
        ensures pairs { (key : List ℕ) → builder_pairs key result ≡ [] }
    {
        Builder {
            spine: Vec::new(alloc),
            waiting: Vec::new(alloc),
            alloc,
        }
    }

    /// Returns whether the innermost frame is at `depth`. None is deeper.
    fn is_at(&self, depth: usize) -> bool
        requires { IsShallow (depth + 1) (reverse self.now.spine.items) }
        ensures at { result ≡ true → IsAt depth (reverse self.now.spine.items) }
        ensures above { result ≡ false → IsShallow depth (reverse self.now.spine.items) }
    {
        match self.spine.last() {
            Some(frame) => frame.depth == depth,
            None => false,
        }
    }

    /// Removes the innermost frame if its depth is at least `low`.
    fn pop_from(&mut self, low: usize) -> Option<Frame<V>>
        ensures popped { MatchOption result
            (IsShallow low (reverse self.old.spine.items)
            × (self.new.spine.items ≡ self.old.spine.items))
            (λ f. (low ≤ f.depth) × (self.old.spine.items ≡ self.new.spine.items ++ f ∷ [])) }
        ensures waiting { self.new.waiting.items ≡ self.old.waiting.items }
    {
        let frame = self.spine.last()?;
        if frame.depth < low {
            return None;
        }
        self.spine.pop()
    }
}

impl<P: Partial, V: Drop> Builder<P, V> {
    /// Adds an innermost frame without children.
    fn open(&mut self, depth: usize, value: Option<V>) -> Result<(), TreeError>
        ensures opened { OnOk result (self.new.spine.items ≡ self.old.spine.items
            ++ record { depth = depth; start = length self.old.waiting.items; value = value } ∷ []) }
        ensures waiting { self.new.waiting.items ≡ self.old.waiting.items }
        ensures memory { IfErr result IsMemory }
    {
        let frame = Frame {
            depth,
            start: self.waiting.len(),
            value,
        };
        match self.spine.push(frame) {
            Ok(()) => Ok(()),
            Err(_) => Err(TreeError::Memory),
        }
    }

    /// Adds a frame at `depth` unless the innermost one is there. None is deeper.
    fn reach(&mut self, depth: usize) -> Result<(), TreeError>
        requires { IsShallow (depth + 1) (reverse self.old.spine.items) }
        ensures reached { OnOk result (IsReached depth (length self.old.waiting.items)
            (reverse self.old.spine.items) (reverse self.new.spine.items)) }
        ensures waiting { self.new.waiting.items ≡ self.old.waiting.items }
        ensures memory { IfErr result IsMemory }
    {
        if self.is_at(depth) {
            return Ok(());
        }
        self.open(depth, None)
    }

    /// Adds a finished child of the innermost frame.
    fn wait(&mut self, prefix: &[u8], storage: Bare<P, V>) -> Result<(), TreeError>
        requires within { IsWithin P.MAXIMUM_SIZE (length prefix.now) }
        ensures added { OnOk result (self.new.waiting.items
            ≡ self.old.waiting.items ++ built prefix.now storage ∷ []) }
        ensures spine { self.new.spine.items ≡ self.old.spine.items }
        ensures memory { IfErr result IsMemory }
    {
        match self.waiting.push(node_with_prefix(prefix, storage)) {
            Ok(()) => Ok(()),
            Err(refused) => {
                drop_node(refused.value);
                Err(TreeError::Memory)
            }
        }
    }

    /// Returns storage of the value and the children that wait from `start` on, of the kind that they need.
    fn storage_from(&mut self, start: usize, value: Option<V>) -> Result<Bare<P, V>, TreeError>
        requires starts { start ≤ length self.old.waiting.items }
        requires few { length (drop start self.old.waiting.items) ≤ 256 }
        requires canonical { AreCanonical 0
            (as_children (edge_entries (drop start self.old.waiting.items))) }
        ensures entries { IfOk result
            (λ s. child_entries s ≡ edge_entries (drop start self.old.waiting.items)) }
        ensures capacity { IfOk result (λ s. storage_capacity s
            ≡ capacity_of (length (drop start self.old.waiting.items))) }
        ensures value { IfOk result (λ s. stored_value s ≡ value) }
        ensures waiting { OnOk result (self.new.waiting.items ≡ take start self.old.waiting.items) }
        ensures spine { self.new.spine.items ≡ self.old.spine.items }
        ensures memory { IfErr result IsMemory }
    {
        let mut storage = Storage::for_children(self.alloc, self.waiting.len() - start)?;
        match value {
            Some(own) => storage = storage.with_value(own),
            None => {}
        }
        // the first child last: each is then taken from the end, and goes behind those before it
        self.waiting[start..].reverse();
        while start < self.waiting.len() {
            let child = self.waiting.take_last();
            storage.add_within(child.prefix().at(0), child);
        }
        Ok(storage)
    }

    /// Finishes the nodes from the depth `low` on, the innermost first. Returns the outermost of them without its
    /// prefix, and where its prefix ends; of none, the leaf of `last`.
    fn close(&mut self, last: &[u8], value: V, low: usize) -> Result<(Bare<P, V>, usize), TreeError>
        requires spine { IsSpine last.now (reverse self.old.spine.items) self.old.waiting.items }
        requires within { IsWithin P.MAXIMUM_SIZE (length last.now) }
        requires low { low ≤ length last.now }
        ensures closed { IfOk result (λ r. IsClosed last.now (reverse self.new.spine.items)
            self.new.waiting.items r.1 (built [] r.0)
            (spine_pairs last.now (reverse self.old.spine.items) self.old.waiting.items
            ++ (last.now, value) ∷ [])) }
        ensures shallow { OnOk result (IsShallow low (reverse self.new.spine.items)) }
        ensures low { IfOk result (λ r. low ≤ r.1) }
        ensures memory { IfErr result IsMemory }
    {
        let mut storage = Storage::leaf((), value);
        let mut end = last.len();
        while let Some(frame) = self.pop_from(low) {
            self.wait(key_part(last, frame.depth, end), storage)?;
            end = frame.depth;
            storage = self.storage_from(frame.start, frame.value)?;
        }
        Ok((storage, end))
    }

    /// Adds the value of `last`, the key that the builder is at, and continues at `next`, a greater key.
    ///
    /// # Errors
    ///
    /// [`TreeError::Memory`] if an allocation fails. Nothing is then known of the builder but that it can be dropped.
    pub fn put(&mut self, last: &[u8], value: V, next: &[u8]) -> Result<(), TreeError>
        requires at { IsBuilderAt last.now self.old }
        requires within { IsWithin P.MAXIMUM_SIZE (length last.now) }
        requires ascending { IsLess last.now next.now }
        ensures at { OnOk result (IsBuilderAt next.now self.new) }
        ensures pairs { OnOk result (builder_pairs next.now self.new
            ≡ builder_pairs last.now self.old ++ (last.now, value) ∷ []) }
        ensures memory { IfErr result IsMemory }
    {
        let shared = common_prefix_length(last, next);
        if shared == last.len() {
            return self.open(shared, Some(value));
        }
        let (storage, end) = self.close(last, value, shared + 1)?;
        if let Err(error) = self.reach(shared) {
            drop_bare(storage);
            return Err(error);
        }
        self.wait(key_part(last, shared, end), storage)
    }

    /// Adds the value of `last`, the key that the builder is at, and returns the root of the tree.
    ///
    /// # Errors
    ///
    /// [`TreeError::Memory`] if an allocation fails. All values are then dropped.
    pub fn finish(self, last: &[u8], value: V) -> Result<DefaultNode<P, V>, TreeError>
        requires at { IsBuilderAt last.now self }
        requires within { IsWithin P.MAXIMUM_SIZE (length last.now) }
        ensures canonical { IfOk result IsCanonical }
        ensures pairs { IfOk result
            (λ t. pairs_of t ≡ builder_pairs last.now self ++ (last.now, value) ∷ []) }
        ensures memory { IfErr result IsMemory }
    {
        let mut builder = self;
        let (storage, end) = builder.close(last, value, 0)?;
        Ok(node_with_prefix(&last[..end], storage))
    }
}
