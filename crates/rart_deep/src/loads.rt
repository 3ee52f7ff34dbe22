//! Bulk loads of the tree, insertions of many items, a migration, the pairs by value, and a tree of short keys.
ghost use Rattle.std.specs.Prelude.{◌<◌};

use crate::trees::{Key, Tree, first, key, nested};
use crate::walks::count;
use std::alloc::Global;

fn items(alloc: Global) -> Option<Vec<(Key, u64)>> {
    let mut items = Vec::new(alloc);
    for length in 1..1025 {
        items.push((key(length), 1)).ok()?;
    }
    Some(items)
}

/// Loads items in order, and returns how many keys the tree then has.
pub fn sorted(alloc: Global) -> Option<usize> {
    let tree = Tree::bulk_load_sorted(alloc, items(alloc)?).ok()?;
    Some(tree.len())
}

/// Creates the tree of items, and returns how many keys the tree then has.
pub fn from_pairs(alloc: Global) -> Option<usize> {
    let tree = Tree::from_pairs(alloc, items(alloc)?).ok()?;
    Some(tree.len())
}

/// Turns a tree of all keys into its pairs by value, and returns how many there are.
pub fn into_pairs(alloc: Global) -> Option<usize> {
    match nested(alloc)?.into_pairs() {
        Ok(mut pairs) => Some(count(&mut pairs)),
        Err(_refused) => None,
    }
}

// The key of this many letters and a byte.
fn key_ending_with(length: usize, byte: u8) -> Key
    requires { length < 1024 }
{
    let mut bytes = [b'a'; 1024];
    bytes[length] = byte;
    first(&bytes, length + 1)
}

fn insert_texts(tree: &mut Tree) -> Option<()> {
    for length in 0..1024 {
        tree.insert_k(&key_ending_with(length, 0), 1).ok()?;
    }
    Some(())
}

fn insert_and_migrate(old: &mut Tree) -> Option<usize> {
    insert_texts(old)?;
    let tree = Tree::drop_closing_zeros(old).ok()?;
    Some(tree.len())
}

/// Migrates texts with a closing zero to keys without it, and returns how many keys the tree then has.
pub fn texts(alloc: Global) -> Option<usize> {
    let mut old = Tree::new(alloc);
    insert_and_migrate(&mut old)
}

// So many children make a `Node256`, whose drop takes 1.3 KiB of the stack where that of a `Node4` takes 0.3.
fn insert_children(tree: &mut Tree, length: usize) -> Option<()>
    requires { length < 1024 }
{
    for byte in 48..98 {
        tree.insert_k(&key_ending_with(length, byte), 1).ok()?;
    }
    Some(())
}

fn insert_short(tree: &mut Tree) -> Option<()> {
    for length in 0..128 {
        insert_children(tree, length)?;
    }
    Some(())
}

/// Creates a tree of 128 levels of wide nodes, whose keys have at most 128 bytes, so that the compiler's own recursion
/// drops it, and returns how many keys it has.
pub fn short_keys(alloc: Global) -> Option<usize> {
    let mut tree = Tree::new(alloc);
    insert_short(&mut tree)?;
    Some(tree.len())
}
