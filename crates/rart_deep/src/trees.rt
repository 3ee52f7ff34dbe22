//! Keys nested in each other, and the tree of them.
ghost use Rattle.std.specs.Prelude.{◌≤◌};

use rart::{AdaptiveRadixTree, ArrayKey, KeyTrait};
use std::alloc::Global;

/// Keys of up to 1024 bytes.
pub type Key = ArrayKey<1024>;

/// The trees.
pub type Tree = AdaptiveRadixTree<Key, u64>;

/// The bytes of the longest key.
const BYTES: [u8; 1024] = [b'a'; 1024];

/// Returns the key of the first `length` bytes.
pub fn first(bytes: &[u8; 1024], length: usize) -> Key
    requires { length ≤ 1024 }
{
    ArrayKey::new_from_slice(&bytes[..length])
}

/// Returns the key of this many bytes.
pub fn key(length: usize) -> Key
    requires { length ≤ 1024 }
{
    first(&BYTES, length)
}

/// Inserts the keys of 1 to 1024 bytes with this value, and returns how many had one. `None` without memory.
pub fn insert_all(tree: &mut Tree, value: u64) -> Option<usize> {
    let mut stored: usize = 0;
    for length in 1..1025 {
        if tree.insert_k(&key(length), value).ok()?.is_some() {
            stored = stored.saturating_add(1);
        }
    }
    Some(stored)
}

/// Returns the tree of the keys of 1 to 1024 bytes, which is a path of as many nodes. `None` without memory.
pub fn nested(alloc: Global) -> Option<Tree> {
    let mut tree = Tree::new(alloc);
    insert_all(&mut tree, 1)?;
    Some(tree)
}
