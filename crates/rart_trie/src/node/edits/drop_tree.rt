//! Drops of whole trees, by recursion over references: no level holds a node.
ghost use Rattle.std.specs.Prelude.{◌≡◌, [], None};
ghost use Rattle.rart_trie.specs.storages.Stored.{child_entries, storage_capacity, stored_value};

use crate::node::DefaultNode;
use crate::node::storage::Storage;
use rart_keys::Partial;

impl<P: Partial, V: Drop> DefaultNode<P, V> {
    /// Drops the tree of an optional root. A level takes little stack, whatever the length of a prefix is; a node that
    /// is dropped by itself holds a node at each level.
    pub fn drop_tree(root: &mut Option<Self>)
        ensures { root.new ≡ None }
    {
        if let Some(node) = root {
            drop_children(&mut node.storage);
        }
        *root = None;
    }
}

/// Drops the value and all nodes of a storage and frees it, the lowest nodes first.
pub(super) fn drop_children<P: Partial, V: Drop>(storage: &mut Storage<P, V, DefaultNode<P, V>>)
    ensures entries { child_entries storage.new ≡ [] }
    ensures capacity { storage_capacity storage.new ≡ 0 }
    ensures value { stored_value storage.new ≡ None }
{
    let mut next = storage.first_byte();
    while let Some(byte) = next {
        match storage.seek_child_mut(byte) {
            Some(child) => drop_children(&mut child.storage),
            None => unreachable!(),
        }
        next = storage.byte_above(byte);
    }
    drop_leaves(storage);
}

// Drops a value and nodes without children, and frees their storage.
// Not inline: the recursion that calls it holds no node on the stack.
#[inline(never)]
fn drop_leaves<P: Partial, V: Drop>(storage: &mut Storage<P, V, DefaultNode<P, V>>)
    ensures entries { child_entries storage.new ≡ [] }
    ensures capacity { storage_capacity storage.new ≡ 0 }
    ensures value { stored_value storage.new ≡ None }
{
    *storage = Storage::empty(P::from_slice(&[]));
}
