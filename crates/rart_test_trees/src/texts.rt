//! Trees of short texts: what they hold, and how they are filled and read.

use rart::{AdaptiveRadixTree, ArrayKey, KeyTrait};
use std::alloc::Global;

pub type Key = ArrayKey<16>;

pub type Tree = AdaptiveRadixTree<Key, u64>;

pub type Pair = (&'static str, u64);

/// Three keys that begin each other.
pub const THREE: [Pair; 3] = [("", 0), ("a", 1), ("ab", 2)];

/// A tree of these pairs; none where a text is longer than a key, comes twice or memory lacks.
pub fn filled(alloc: Global, pairs: &[Pair]) -> Option<Tree> {
    let mut tree = Tree::new(alloc);
    for (text, value) in pairs {
        let bytes = text.as_bytes();
        if bytes.len() > 16 {
            return None;
        }
        if !matches!(tree.insert(Key::new_from_slice(bytes), *value), Ok(None)) {
            return None;
        }
    }
    Some(tree)
}

/// The key of these bytes, cut to sixteen.
pub fn key(bytes: &[u8]) -> Key {
    Key::new_from_slice(&bytes[..bytes.len().min(16)])
}

/// Whether this key and value are the wanted ones.
pub fn is_pair(found: &(Key, &u64), wanted: &Pair) -> bool {
    found.0.as_ref() == wanted.0.as_bytes() && *found.1 == wanted.1
}

/// What is left of a text after a segment and a bar.
pub fn after<'a>(text: &'a [u8], segment: &[u8]) -> Option<&'a [u8]> {
    if !text.starts_with(segment) {
        return None;
    }
    match text.get(segment.len()..)? {
        [b'|', rest @ ..] => Some(rest),
        _ => None,
    }
}
