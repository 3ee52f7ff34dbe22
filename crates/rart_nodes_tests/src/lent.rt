//! Children changed through a borrow from their node, as rows of calls and wanted answers.

use crate::nodes::{TestNode, add, fill, leaf, seek, walk, write};
use rart_nodes::node::Node;
use std::alloc::Global;
use std::process::Abort;

/// A call of a node.
#[derive(Clone, Copy)]
enum Ask {
    /// Puts a leaf in at a byte, with this value.
    Add(u8, u64),
    /// Puts leaves in at the bytes from the first to below the second; each has its byte as the value.
    Fill(usize, usize),
    /// Writes a value to the borrowed child at a byte: its old value.
    Write(u8, u64),
    /// Puts a leaf in the borrowed child at the first byte, at the second, with this value: the value of that child.
    AddBelow(u8, u8, u64),
    /// Puts a leaf with this value in the place of the borrowed child at a byte: the value of the leaf.
    Assign(u8, u64),
    /// The value of the child at a byte.
    Seek(u8),
    /// The value of the child at the second byte of the child at the first.
    SeekBelow(u8, u8),
    /// How many children a walk gives, where each is the next byte from 0 on and has it as its value.
    Walk,
}

// The answer of each, and the number of children of the node then.
type Row = (Ask, Option<u64>, usize);

fn write_child(node: &mut TestNode, byte: u8, value: u64) -> Option<u64> {
    write(node.seek_child_mut(byte)?, value)
}

fn add_below(
    rt: &impl Abort,
    alloc: Global,
    node: &mut TestNode,
    byte: u8,
    below: u8,
    value: u64,
) -> Option<u64> {
    let child = node.seek_child_mut(byte)?;
    add(rt, alloc, child, below, value);
    child.value().copied()
}

fn assign(node: &mut TestNode, byte: u8, value: u64) -> Option<u64> {
    let child = node.seek_child_mut(byte)?;
    *child = leaf(byte, value);
    child.value().copied()
}

fn answer(rt: &impl Abort, alloc: Global, node: &mut TestNode, ask: Ask) -> Option<u64> {
    match ask {
        Ask::Add(byte, value) => add(rt, alloc, node, byte, value),
        Ask::Fill(from, to) => fill(rt, alloc, node, from, to),
        Ask::Write(byte, value) => return write_child(node, byte, value),
        Ask::AddBelow(byte, below, value) => return add_below(rt, alloc, node, byte, below, value),
        Ask::Assign(byte, value) => return assign(node, byte, value),
        Ask::Seek(byte) => return seek(node, byte),
        Ask::SeekBelow(byte, below) => return seek(node.seek_child(byte)?, below),
        Ask::Walk => return walk(node),
    }
    None
}

// A helper owns the node, and another asserts: an assert beside an owned node gets no proof.
fn check_rows(rt: &impl Abort, alloc: Global, rows: &[Row]) {
    let mut node = leaf(b'a', 1);
    play_rows(rt, alloc, &mut node, rows);
}

fn play_rows(rt: &impl Abort, alloc: Global, node: &mut TestNode, rows: &[Row]) {
    let mut row = 0_usize;
    for (ask, want, children) in rows {
        let found = answer(rt, alloc, node, *ask);
        assert!(rt; found == *want, "row {row}");
        assert!(rt; node.num_children() == *children, "row {row}");
        row = row.wrapping_add(1);
    }
}

static CHANGED: [Row; 19] = [
    (Ask::Write(9, 20), None, 0),
    (Ask::Add(8, 1), None, 1),
    (Ask::Add(9, 2), None, 2),
    (Ask::Add(10, 3), None, 3),
    (Ask::Write(7, 20), None, 3),
    (Ask::Write(9, 20), Some(2), 3),
    (Ask::Seek(8), Some(1), 3),
    (Ask::Seek(9), Some(20), 3),
    (Ask::Seek(10), Some(3), 3),
    (Ask::AddBelow(7, 5, 50), None, 3),
    (Ask::AddBelow(9, 5, 50), Some(20), 3),
    (Ask::SeekBelow(9, 5), Some(50), 3),
    (Ask::SeekBelow(8, 5), None, 3),
    (Ask::SeekBelow(10, 5), None, 3),
    (Ask::Assign(9, 30), Some(30), 3),
    (Ask::SeekBelow(9, 5), None, 3),
    (Ask::Seek(8), Some(1), 3),
    (Ask::Seek(9), Some(30), 3),
    (Ask::Seek(10), Some(3), 3),
];

#[test]
fn a_borrowed_child_is_changed_and_the_others_stay(rt: HostRuntime) {
    check_rows(&rt, rt.alloc(), &CHANGED);
}

static EVERY_KIND: [Row; 14] = [
    (Ask::Fill(0, 4), None, 4),
    (Ask::Write(3, 1), Some(3), 4),
    (Ask::Fill(4, 16), None, 16),
    (Ask::Write(15, 2), Some(15), 16),
    (Ask::Fill(16, 48), None, 48),
    (Ask::Write(47, 3), Some(47), 48),
    (Ask::Fill(48, 256), None, 256),
    (Ask::Write(255, 4), Some(255), 256),
    (Ask::Walk, None, 256),
    (Ask::Write(3, 3), Some(1), 256),
    (Ask::Write(15, 15), Some(2), 256),
    (Ask::Write(47, 47), Some(3), 256),
    (Ask::Write(255, 255), Some(4), 256),
    (Ask::Walk, Some(256), 256),
];

#[test]
fn a_child_is_borrowed_in_every_kind(rt: HostRuntime) {
    check_rows(&rt, rt.alloc(), &EVERY_KIND);
}
