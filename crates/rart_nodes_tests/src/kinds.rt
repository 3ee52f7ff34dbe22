//! The map of the children of each kind of node, read by the map's own calls.
ghost use Rattle.rart_maps.specs.FourKeys.{HasKeyEach};

use crate::nodes::{TestNode, fill, leaf};
use rart_block::Block;
use rart_maps::mapping::{FourKeys, NodeMapping};
use rart_nodes::node::ChildMap;
use std::alloc::Global;
use std::process::Abort;

/// Returns the width of a map, how many children it says that it has, and at how many bytes it has the child with that
/// value.
fn read<const W: usize, M: NodeMapping<TestNode, W>>(map: &M) -> (usize, usize, usize) {
    let mut found = 0_usize;
    for byte in 0..=255_u8 {
        if value_at(map, byte) == Some(u64::from(byte)) {
            found = found.wrapping_add(1);
        }
    }
    (map.width(), map.num_children(), found)
}

fn value_at<const W: usize, M: NodeMapping<TestNode, W>>(map: &M, byte: u8) -> Option<u64> {
    map.seek_child(byte)?.value().copied()
}

/// Returns what `read` does, of at most four children, whose keys aren't in their block.
fn read_four(
    keys: &FourKeys,
    children: &Block<Option<u64>, (), TestNode, 4>,
) -> (usize, usize, usize)
    requires { HasKeyEach keys.now children.now }
{
    let mut found = 0_usize;
    for byte in 0..=255_u8 {
        let child = keys.seek_child(children, byte);
        if child.and_then(|child| child.value().copied()) == Some(u64::from(byte)) {
            found = found.wrapping_add(1);
        }
    }
    (4, keys.num_children(children), found)
}

/// Returns the kind of a node by the variant of its map, and what the map's own calls say.
fn read_kind(node: &TestNode) -> (usize, (usize, usize, usize)) {
    match node.child_map() {
        ChildMap::Childless => (0, (0, 0, 0)),
        ChildMap::Node4(keys, children) => (4, read_four(keys, children)),
        ChildMap::Node16(map) => (16, read(map)),
        ChildMap::Node48(map) => (48, read(map)),
        ChildMap::Node256(map) => (256, read(map)),
    }
}

// How many children, and the kind that holds them.
static KINDS: [(usize, usize); 9] = [
    (0, 0),
    (1, 4),
    (4, 4),
    (5, 16),
    (16, 16),
    (17, 48),
    (48, 48),
    (49, 256),
    (256, 256),
];

// Reads a node with this number of children. A helper owns the node, and the test asserts.
fn read_filled(rt: &impl Abort, alloc: Global, children: usize) -> (usize, (usize, usize, usize)) {
    let mut node = leaf(b'p', 1);
    fill(rt, alloc, &mut node, 0, children);
    read_kind(&node)
}

#[test]
fn children_are_in_the_map_of_their_kind(rt: HostRuntime) {
    for (children, kind) in KINDS {
        let found = read_filled(&rt, rt.alloc(), children);
        assert!(rt;
            found == (kind, (kind, children, children)),
            "{children} children"
        );
    }
}
