//! Edits of parts of the tree: all keys with a prefix are taken, removed or appended.
ghost use Rattle.std.specs.Prelude.{◌≤◌};

use crate::reads::read;
use crate::trees::{Tree, key};

// Takes the pairs whose key begins with that of this length, and returns how many there were.
fn take(tree: &mut Tree, length: usize) -> Option<usize>
    requires { length ≤ 1024 }
{
    match tree.take_prefix_k(&key(length)) {
        Ok(part) => Some(part.len()),
        Err(_refused) => None,
    }
}

// Takes the longest key and then those from the second on, and returns how many there were.
fn take_twice(tree: &mut Tree) -> Option<usize> {
    Some(take(tree, 1024)?.saturating_add(take(tree, 2)?))
}

// The same by removals.
fn remove_twice(tree: &mut Tree) -> Option<usize> {
    let longest = tree.remove_prefix_k(&key(1024)).ok()?;
    Some(longest.saturating_add(tree.remove_prefix_k(&key(2)).ok()?))
}

fn append_part(tree: &mut Tree, part: &mut Tree) -> Option<usize> {
    tree.append(part).ok()?;
    Some(tree.len())
}

// Takes the longer half of the keys, appends it, and returns how many keys the tree then has.
fn append(tree: &mut Tree) -> Option<usize> {
    match tree.take_prefix_k(&key(513)) {
        Ok(mut part) => append_part(tree, &mut part),
        Err(_refused) => None,
    }
}

/// Makes the edit of a part, or the read, of this name on a tree of all keys. `None` if there is none, or no memory.
pub fn part(tree: &mut Tree, name: &str) -> Option<usize> {
    match name {
        "take_prefix" => take_twice(tree),
        "remove_prefix" => remove_twice(tree),
        "append" => append(tree),
        _ => read(tree, name),
    }
}
