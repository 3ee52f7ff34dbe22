//! The text of a tree, one line for each node.

use rart::{AdaptiveRadixTree, ArrayKey};
use std::alloc::Global;
use std::fmt;
use std::fmt::Write;

type Key = ArrayKey<8>;

type Tree = AdaptiveRadixTree<Key, u64>;

// Keys in the order of their insertion, numbered from 1 on, and the text of their tree.
static ROWS: [(&str, &str); 6] = [
    ("", "Leaf \"\"=1\n"),
    ("cat", "Leaf \"cat\"=1\n"),
    (
        "cat,catalog,dog",
        "Node4 \"\"\n  Node4 \"cat\"=1\n    Leaf \"alog\"=2\n  Leaf \"dog\"=3\n",
    ),
    (
        ",ab,abc,abd",
        "Node4 \"\"=1\n  Node4 \"ab\"=2\n    Leaf \"c\"=3\n    Leaf \"d\"=4\n",
    ),
    (
        "xaa,xab,xba",
        "Node4 \"x\"\n  Node4 \"a\"\n    Leaf \"a\"=1\n    Leaf \"b\"=2\n  Leaf \"ba\"=3\n",
    ),
    (
        "\\\0,\\\u{e9}\",\\ ~\n",
        "Node4 \"\\x5c\"\n  Leaf \"\\x00\"=1\n  Leaf \" ~\\x0a\"=3\n  Leaf \"\\xc3\\xa9\"\"=2\n",
    ),
];

fn insert_all(tree: &mut Tree, keys: &str) -> Option<()> {
    let mut number = 0_u64;
    for key in keys.split(',') {
        number = number.wrapping_add(1);
        tree.insert_k(&Key::try_from_str(key)?, number).ok()?;
    }
    Some(())
}

fn has_text(alloc: Global, tree: &Tree, wanted: &str) -> bool {
    match format!(in alloc; "{}", tree.outline()) {
        Ok(text) => text.as_str() == wanted,
        Err(_failure) => false,
    }
}

fn is_printed(alloc: Global, keys: &str, wanted: &str) -> bool {
    let mut tree = Tree::new(alloc);
    insert_all(&mut tree, keys).is_some() && has_text(alloc, &tree, wanted)
}

#[test]
fn a_tree_is_printed_node_by_node(rt: HostRuntime) {
    for (keys, text) in &ROWS {
        assert!(rt; is_printed(rt.alloc(), keys, text));
    }
}

fn no_tree_has_no_line(alloc: Global) -> bool {
    let tree = Tree::new(alloc);
    has_text(alloc, &tree, "")
}

#[test]
fn an_empty_tree_has_no_line(rt: HostRuntime) {
    assert!(rt; no_tree_has_no_line(rt.alloc()));
}

// How many children a root has, and its line.
static KINDS: [(u8, &str); 8] = [
    (2, "Node4 \"\"\n"),
    (4, "Node4 \"\"\n"),
    (5, "Node16 \"\"\n"),
    (16, "Node16 \"\"\n"),
    (17, "Node48 \"\"\n"),
    (48, "Node48 \"\"\n"),
    (49, "Node256 \"\"\n"),
    (255, "Node256 \"\"\n"),
];

fn insert_bytes(tree: &mut Tree, count: u8) -> Option<()> {
    for byte in 0..count {
        tree.insert_k(&Key::from_u8(byte), u64::from(byte)).ok()?;
    }
    Some(())
}

// Whether the text has this line first, and one for each child after it.
fn has_children(alloc: Global, tree: &Tree, count: u8, first: &str) -> bool {
    match format!(in alloc; "{}", tree.outline()) {
        Ok(text) => {
            text.starts_with(first) && text.lines().count() == usize::from(count).wrapping_add(1)
        }
        Err(_failure) => false,
    }
}

fn is_of_kind(alloc: Global, count: u8, first: &str) -> bool {
    let mut tree = Tree::new(alloc);
    insert_bytes(&mut tree, count).is_some() && has_children(alloc, &tree, count, first)
}

#[test]
fn a_node_is_printed_with_its_kind(rt: HostRuntime) {
    for (count, first) in &KINDS {
        assert!(rt; is_of_kind(rt.alloc(), *count, first));
    }
}

/// A writer with room for some bytes. It fails from the first text on for which there is no room.
#[derive(Drop)]
struct Room {
    left: usize,
    /// How many calls have failed.
    failed: usize,
}

impl fmt::Write for Room {
    fn write_str(&mut self, text: &str) -> fmt::Result {
        match self.left.checked_sub(text.len()) {
            Some(left) if self.failed == 0 => {
                self.left = left;
                Ok(())
            }
            _ => {
                self.failed = self.failed.wrapping_add(1);
                Err(fmt::Error)
            }
        }
    }
}

// Whether a tree is written into as much room as its text takes, and an error is returned at once if there is less.
fn is_refused_well(tree: &Tree, len: usize) -> bool {
    for left in 0..len {
        let mut room = Room { left, failed: 0 };
        if write!(room, "{}", tree.outline()).is_ok() || room.failed != 1 {
            return false;
        }
    }
    let mut room = Room {
        left: len,
        failed: 0,
    };
    write!(room, "{}", tree.outline()).is_ok() && room.left == 0
}

fn a_row_is_refused_well(alloc: Global, keys: &str, text: &str) -> bool {
    let mut tree = Tree::new(alloc);
    insert_all(&mut tree, keys).is_some() && is_refused_well(&tree, text.len())
}

#[test]
fn a_writer_that_fails_ends_the_writing(rt: HostRuntime) {
    for (keys, text) in &ROWS {
        assert!(rt; a_row_is_refused_well(rt.alloc(), keys, text));
    }
}
