//! How many nodes are visited where a prefix is taken from a tree.

use rart::{AdaptiveRadixTree, ArrayKey, KeyTrait};
use rart_test_trees::tally::Tally;
use std::alloc::Global;

type Key = ArrayKey<8>;

type Tree = AdaptiveRadixTree<Key, u64>;

static KEYS: [&[u8]; 4] = [b"a", b"ab", b"abc", b"b"];

// A prefix, and the nodes that are visited where it is taken from the tree of these keys: those on the way to it, and
// those that are taken, which are visited once more to count the pairs.
static VISITS: [(&[u8], usize); 8] = [
    (b"", 6),
    (b"a", 5),
    (b"ab", 5),
    (b"abc", 5),
    (b"abcd", 4),
    (b"b", 3),
    (b"x", 1),
    (b"ax", 2),
];

// The key of at most 8 bytes.
fn key(bytes: &[u8]) -> Key {
    Key::new_from_slice(&bytes[..bytes.len().min(8)])
}

fn filled(alloc: Global) -> Tree {
    let mut tree = Tree::new(alloc);
    for bytes in KEYS {
        let _old = tree.insert(key(bytes), 0);
    }
    tree
}

fn visits_of(tree: &mut Tree, prefix: &[u8]) -> usize {
    let mut tally = Tally::new();
    let _taken = tree.take_prefix_k_counted(&key(prefix), &mut tally);
    tally.number
}

fn visits_to_take(alloc: Global, prefix: &[u8]) -> usize {
    let mut tree = filled(alloc);
    visits_of(&mut tree, prefix)
}

#[test]
fn a_taken_prefix_visits_the_nodes_on_its_path_and_those_that_are_taken(rt: HostRuntime) {
    for (prefix, visits) in VISITS {
        assert_eq!(rt; visits_to_take(rt.alloc(), prefix), visits);
    }
}
