//! A type that holds itself in the maps, and walks through it.
ghost use Rattle.std.specs.Prelude.{⊤};

use rart_maps::mapping::{DirectMapping, IndexedMapping, NodeMapping, SortedKeyedMapping};
use rart_parts::utils::bitset::Bitset64;

/// A tree whose inner nodes have a value or none.
pub enum Tree {
    /// A value alone.
    Leaf(u64),
    /// At most four children.
    Inner(SortedKeyedMapping<Tree, 4, Option<u64>>),
    /// At most 48 children.
    Wide(IndexedMapping<Tree, 48, Bitset64<1>, Option<u64>>),
    /// A child for each byte.
    Full(DirectMapping<Tree, Option<u64>>),
}

/// Returns the leaf at the end of a path.
pub fn find<'a>(tree: &'a Tree, path: &[u8]) -> Option<&'a u64> {
    match tree {
        Tree::Leaf(number) => { if path.is_empty() { Some(number) } else { None } }
        Tree::Inner(map) => match path.split_first() {
            Some((byte, rest)) => match map.seek_child(*byte) {
                Some(child) => find(child, rest),
                None => None,
            },
            None => map.extra().as_ref(),
        },
        Tree::Wide(map) => match path.split_first() {
            Some((byte, rest)) => match map.seek_child(*byte) {
                Some(child) => find(child, rest),
                None => None,
            },
            None => map.extra().as_ref(),
        },
        Tree::Full(map) => match path.split_first() {
            Some((byte, rest)) => match map.seek_child(*byte) {
                Some(child) => find(child, rest),
                None => None,
            },
            None => map.extra().as_ref(),
        },
    }
}

/// Changes the leaf at the end of a path, and returns whether there is one.
pub fn set(tree: &mut Tree, path: &[u8], new: u64) -> bool
    ensures { ⊤ }
{
    match tree {
        Tree::Leaf(number) => {
            if path.is_empty() {
                *number = new;
                true
            } else {
                false
            }
        }
        Tree::Inner(map) => match path.split_first() {
            Some((byte, rest)) => match map.seek_child_mut(*byte) {
                Some(child) => set(child, rest, new),
                None => false,
            },
            None => {
                *map.extra_mut() = Some(new);
                true
            }
        },
        Tree::Wide(map) => match path.split_first() {
            Some((byte, rest)) => match map.seek_child_mut(*byte) {
                Some(child) => set(child, rest, new),
                None => false,
            },
            None => {
                *map.extra_mut() = Some(new);
                true
            }
        },
        Tree::Full(map) => match path.split_first() {
            Some((byte, rest)) => match map.seek_child_mut(*byte) {
                Some(child) => set(child, rest, new),
                None => false,
            },
            None => {
                *map.extra_mut() = Some(new);
                true
            }
        },
    }
}
