//! The trait `Node`, and nodes that a caller builds by hand, which need not be canonical.
ghost use Rattle.std.specs.Prelude.{◌≡◌, ◌≢◌, ◌↔◌, [], length, None, Some, option_map, IfErr, IfOk, IsTrue, OnErr};
ghost use Rattle.std.specs.Prelude.{OnOk, OnSome};
ghost use Rattle.std.specs.Borrow.{sem, LendsSo};
ghost use Rattle.std.specs.Option.{option_copied, option_copied_mut};
ghost use Rattle.rart_parts.specs.Errors.{IsMemory};
ghost use Rattle.rart_trie.specs.edits.ChildChanges.{child_value, with_child_replaced, with_child_value};
ghost use Rattle.rart_trie.specs.edits.Deletion.{JoinsWithin, ShrinksWithout, without_child};
ghost use Rattle.rart_trie.specs.edits.NodeEdits.{stored_node, with_child, with_value};
ghost use Rattle.rart_trie.specs.edits.Lends.{lends_storage};
ghost use Rattle.rart_trie.specs.storages.Stored.{child_entries, storage_capacity, stored_prefix, stored_value};
ghost use Rattle.rart_trie.specs.tries.Trie.{Trie, node, no_children, leaf, capacity_in, children_in, edges_of};
ghost use Rattle.rart_trie.specs.tries.Trie.{prefix_of, value_of, child_in};

use crate::node::DefaultNode;
use crate::node::storage::Storage;
use crate::refused::Refused;
use rart_keys::Partial;
use rart_parts::TreeError;
use std::alloc::Global;
use std::mem;

/// Holds a prefix, an optional value and children by edge byte. A contract reads it as a trie.
pub trait Node<P: Partial, V>: Sized {
    ghost trie: { Self → Trie V };

    /// Returns a node without children that holds `value`. It does not allocate.
    fn new_leaf(prefix: P, value: V) -> Self
        ensures { trie result ≡ leaf (P.bytes prefix) value };

    /// Returns a node of capacity 4 without value or children.
    ///
    /// # Errors
    ///
    /// [`TreeError::Memory`] if the allocation fails.
    fn new_inner(alloc: Global, prefix: P) -> Result<Self, TreeError>
        ensures ok { IfOk result (λ n. trie n ≡ node (P.bytes prefix) None 4 no_children) }
        ensures memory { IfErr result IsMemory };

    /// Returns the value of the node.
    fn value(&self) -> Option<&V>
        ensures { option_copied result ≡ value_of (trie self.now) };

    /// Returns a mutable borrow of the value.
    fn value_mut(&mut self) -> Option<&mut V>
        ensures* writes_back { sem 𝓛 (LendsSo Self.row V.row self.entry result
            (λ n x. OnSome result (trie n ≡ with_value x (trie self.old)))
            (λ n. trie n ≡ trie self.old)) }
        ensures value { option_copied_mut result ≡ value_of (trie self.old) };

    /// Returns whether the node has no storage for children.
    fn is_leaf(&self) -> bool
        ensures { IsTrue result ↔ (capacity_in (trie self.now) ≡ 0) };

    /// Returns whether the node has storage for children.
    fn is_inner(&self) -> bool
        ensures { IsTrue result ↔ (capacity_in (trie self.now) ≢ 0) };

    /// Returns the child at a byte.
    fn seek_child(&self, key: u8) -> Option<&Self>
        ensures { option_map trie (option_copied result) ≡ child_in key (trie self.now) };

    /// Returns a mutable borrow of the child at a byte.
    fn seek_child_mut(&mut self, key: u8) -> Option<&mut Self>
        ensures* writes_back { sem 𝓛 (LendsSo Self.row Self.row self.entry result
            (λ n c. OnSome result (trie n ≡ with_child_replaced key (trie c) (trie self.old)))
            (λ n. trie n ≡ trie self.old)) }
        ensures child { option_map trie (option_copied_mut result) ≡ child_in key (trie self.old) };

    /// Returns a mutable borrow of the value of the child at a byte.
    fn child_value_mut(&mut self, key: u8) -> Option<&mut V>
        ensures* writes_back { sem 𝓛 (LendsSo Self.row V.row self.entry result
            (λ n x. OnSome result (trie n ≡ with_child_value key x (trie self.old)))
            (λ n. trie n ≡ trie self.old)) }
        ensures value { option_copied_mut result ≡ child_value key (trie self.old) };

    /// Replaces the child at a byte by `node` and returns the old child. It does not allocate.
    ///
    /// # Errors
    ///
    /// `node` if there is no child at the byte. The node is then unchanged.
    fn replace_child(&mut self, key: u8, node: Self) -> Result<Self, Self>
        ensures taken { IfOk result (λ child. child_in key (trie self.old) ≡ Some (trie child)) }
        ensures put { OnOk result
            (trie self.new ≡ with_child_replaced key (trie node) (trie self.old)) }
        ensures absent { OnErr result
            ((child_in key (trie self.old) ≡ None) × (trie self.new ≡ trie self.old)) }
        ensures returned { IfErr result (λ n. trie n ≡ trie node) };

    /// Inserts a child at a byte that has none.
    ///
    /// # Errors
    ///
    /// [`TreeError::Memory`] if the storage is absent or full and the allocation fails. The node is then unchanged,
    /// and the error holds the child.
    fn add_child(&mut self, alloc: Global, key: u8, node: Self) -> Result<(), Refused<Self>>
        requires absent { child_in key (trie self.old) ≡ None }
        ensures ok { OnOk result (trie self.new ≡ with_child key (trie node) (trie self.old)) }
        ensures unchanged { OnErr result (trie self.new ≡ trie self.old) }
        ensures returned { IfErr result
            (λ r. (r.error ≡ TreeError.Memory) × (trie r.value ≡ trie node)) }
        ensures allocates { OnErr result
            (length (edges_of (children_in (trie self.old))) ≡ capacity_in (trie self.old)) };

    /// Removes the child at a byte and returns it. The node shrinks if its children fit the next smaller kind. A node
    /// of capacity 4 that is left with one child and no value is merged with that child. The prefix of each child,
    /// appended to that of the node, must be within the maximum.
    ///
    /// # Errors
    ///
    /// [`TreeError::Memory`] if the node must shrink to a smaller kind with storage and the allocation fails. The node
    /// is then unchanged.
    fn delete_child(&mut self, alloc: Global, key: u8) -> Result<Option<Self>, TreeError>
        requires within { JoinsWithin P.MAXIMUM_SIZE (prefix_of (trie self.old))
            (children_in (trie self.old)) }
        ensures taken { IfOk result
            (λ child. option_map trie child ≡ child_in key (trie self.old)) }
        ensures rest { OnOk result (trie self.new ≡ without_child key (trie self.old)) }
        ensures unchanged { OnErr result (trie self.new ≡ trie self.old) }
        ensures allocates { OnErr result (ShrinksWithout key (trie self.old)) }
        ensures memory { IfErr result IsMemory };

    /// Returns the greatest number of children of this kind of node.
    fn capacity(&self) -> usize
        ensures { result ≡ capacity_in (trie self.now) };

    /// Returns the number of children.
    fn num_children(&self) -> usize
        ensures { result ≡ length (edges_of (children_in (trie self.now))) };
}

impl<P: Partial, V> Node<P, V> for DefaultNode<P, V> {
    ghost trie = { λ n. n };

    fn new_leaf(prefix: P, value: V) -> Self {
        DefaultNode {
            storage: Storage::leaf(prefix, value),
        }
    }

    fn new_inner(alloc: Global, prefix: P) -> Result<Self, TreeError> {
        DefaultNode::new_4(alloc, prefix)
    }

    fn value(&self) -> Option<&V> {
        self.storage.value()
    }

    fn value_mut(&mut self) -> Option<&mut V> {
        self.storage.value_mut()
    }

    fn is_leaf(&self) -> bool {
        self.storage.capacity() == 0
    }

    fn is_inner(&self) -> bool {
        self.storage.capacity() != 0
    }

    fn seek_child(&self, key: u8) -> Option<&Self> {
        self.storage.seek_child(key)
    }

    fn seek_child_mut(&mut self, key: u8) -> Option<&mut Self> {
        self.storage_mut().seek_child_mut(key)
    }

    fn child_value_mut(&mut self, key: u8) -> Option<&mut V> {
        match self.storage.seek_child_mut(key) {
            Some(child) => child.storage.value_mut(),
            None => None,
        }
    }

    fn replace_child(&mut self, key: u8, node: Self) -> Result<Self, Self> {
        match self.storage.seek_child_mut(key) {
            Some(child) => Ok(mem::replace(child, node)),
            None => Err(node),
        }
    }

    fn add_child(&mut self, alloc: Global, key: u8, node: Self) -> Result<(), Refused<Self>> {
        match self.storage.reserve_slot(alloc, key) {
            Ok(()) => {
                self.storage.add_within(key, node);
                Ok(())
            }
            Err(error) => Err(Refused { error, value: node }),
        }
    }

    fn delete_child(&mut self, alloc: Global, key: u8) -> Result<Option<Self>, TreeError> {
        self.take_child(alloc, key)
    }

    fn capacity(&self) -> usize {
        self.storage.capacity()
    }

    fn num_children(&self) -> usize {
        self.storage.num_children()
    }
}

impl<P: Partial, V> DefaultNode<P, V> {
    // A node over this storage, which has neither value nor children.
    fn over(storage: Storage<P, V, Self>) -> Self
        requires entries { child_entries storage ≡ [] }
        requires value { stored_value storage ≡ None }
        ensures { result
            ≡ node (P.bytes (stored_prefix storage)) None (storage_capacity storage) no_children }
    {
        DefaultNode { storage }
    }

    // A mutable borrow of the storage. Through it, the loan of a child is two loans, each from another type.
    fn storage_mut(&mut self) -> &mut Storage<P, V, Self>
        ensures* writes_back { sem 𝓛 (lends_storage P.row V.row P.Partial self.entry result) }
        ensures storage { stored_node P.bytes result.now ≡ self.old }
    {
        &mut self.storage
    }

    /// Returns a node without value or children, with storage for 4 children.
    ///
    /// # Errors
    ///
    /// [`TreeError::Memory`] if the allocation fails.
    pub fn new_4(alloc: Global, prefix: P) -> Result<Self, TreeError>
        ensures ok { IfOk result (λ n. n ≡ node (P.bytes prefix) None 4 no_children) }
        ensures memory { IfErr result IsMemory }
    {
        let storage = Storage::new_4(alloc, prefix)?;
        Ok(DefaultNode::over(storage))
    }

    /// Returns a node without value or children, with storage for 16 children.
    ///
    /// # Errors
    ///
    /// [`TreeError::Memory`] if the allocation fails.
    pub fn new_16(alloc: Global, prefix: P) -> Result<Self, TreeError>
        ensures ok { IfOk result (λ n. n ≡ node (P.bytes prefix) None 16 no_children) }
        ensures memory { IfErr result IsMemory }
    {
        let storage = Storage::new_16(alloc, prefix)?;
        Ok(DefaultNode::over(storage))
    }

    /// Returns a node without value or children, with storage for 48 children.
    ///
    /// # Errors
    ///
    /// [`TreeError::Memory`] if the allocation fails.
    pub fn new_48(alloc: Global, prefix: P) -> Result<Self, TreeError>
        ensures ok { IfOk result (λ n. n ≡ node (P.bytes prefix) None 48 no_children) }
        ensures memory { IfErr result IsMemory }
    {
        let storage = Storage::new_48(alloc, prefix)?;
        Ok(DefaultNode::over(storage))
    }

    /// Returns a node without value or children, with storage for 256 children.
    ///
    /// # Errors
    ///
    /// [`TreeError::Memory`] if the allocation fails.
    pub fn new_256(alloc: Global, prefix: P) -> Result<Self, TreeError>
        ensures ok { IfOk result (λ n. n ≡ node (P.bytes prefix) None 256 no_children) }
        ensures memory { IfErr result IsMemory }
    {
        let storage = Storage::new_256(alloc, prefix)?;
        Ok(DefaultNode::over(storage))
    }
}
