//! Nodes made by hand, as rows of calls and wanted answers.

use rart_keys::{ArrPartial, Partial};
use rart_nodes::Refused;
use rart_nodes::node::{DefaultNode, Node};
use rart_parts::TreeError;
use rart_test_tools::refusals::{part_ends, refuse, was_refused};
use std::alloc::Global;
use std::mem;
use std::process::Abort;

type Part = ArrPartial<16>;

pub(crate) type TestNode = DefaultNode<Part, u64>;

/// A call of a node.
#[derive(Clone, Copy)]
enum Ask {
    /// Puts a leaf in at a byte, with this value.
    Add(u8, u64),
    /// Puts leaves in at the bytes from the first to below the second, from the last on; each has its byte as the
    /// value.
    Fill(usize, usize),
    /// Takes the child at a byte out: its value.
    Delete(u8),
    /// The value of the child at a byte.
    Seek(u8),
    /// Writes a value to the child at a byte, where there is one.
    WriteAt(u8, u64),
    /// Puts a leaf with this value in the place of the child at a byte: the old child's value.
    Replace(u8, u64),
    /// Writes the node's own value.
    Write(u64),
    /// The node's own value.
    Value,
    /// How many children a walk gives, where each is the next byte from 0 on and has it as its value.
    Walk,
}

// The answer of each, and the number of children and the capacity of the node then.
type Row = (Ask, Option<u64>, (usize, usize));

pub(crate) fn leaf(byte: u8, value: u64) -> TestNode {
    <TestNode as Node<Part, u64>>::new_leaf(Part::from_slice(&[byte]), value)
}

pub(crate) fn add(rt: &impl Abort, alloc: Global, node: &mut TestNode, byte: u8, value: u64) {
    assert!(rt; node.seek_child(byte).is_none(), "a child is stored");
    match node.add_child(alloc, byte, leaf(byte, value)) {
        Ok(()) => {}
        Err(_refused) => assert!(rt; false, "refused with ample memory"),
    }
}

pub(crate) fn fill(rt: &impl Abort, alloc: Global, node: &mut TestNode, from: usize, to: usize) {
    for back in 0..=255_u8 {
        let byte = 255 - back;
        if from <= usize::from(byte) && usize::from(byte) < to {
            add(rt, alloc, node, byte, u64::from(byte));
        }
    }
}

fn delete(rt: &impl Abort, alloc: Global, node: &mut TestNode, byte: u8) -> Option<u64> {
    assert!(rt; node.children_fit());
    match node.delete_child(alloc, byte) {
        Ok(child) => child?.value().copied(),
        Err(_refused) => panic!(rt; "refused with ample memory"),
    }
}

pub(crate) fn seek(node: &TestNode, byte: u8) -> Option<u64> {
    node.seek_child(byte)?.value().copied()
}

// The old value.
pub(crate) fn write(node: &mut TestNode, value: u64) -> Option<u64> {
    let place = node.value_mut()?;
    let old = *place;
    *place = value;
    Some(old)
}

fn write_at(node: &mut TestNode, byte: u8, value: u64) -> Option<u64> {
    Some(mem::replace(node.child_value_mut(byte)?, value))
}

// None where no child is stored and the leaf is returned.
fn replace(node: &mut TestNode, byte: u8, value: u64) -> Option<u64> {
    match node.replace_child(byte, leaf(byte, value)) {
        Ok(child) => child.value().copied(),
        Err(back) => {
            if back.value() == Some(&value) {
                None
            } else {
                Some(u64::MAX)
            }
        }
    }
}

pub(crate) fn walk(node: &TestNode) -> Option<u64> {
    let mut next = 0_u64;
    for (byte, child) in node.iter() {
        if u64::from(byte) != next || child.value() != Some(&next) {
            return None;
        }
        next = next.wrapping_add(1);
    }
    Some(next)
}

fn answer(rt: &impl Abort, alloc: Global, node: &mut TestNode, ask: Ask) -> Option<u64> {
    match ask {
        Ask::Add(byte, value) => add(rt, alloc, node, byte, value),
        Ask::Fill(from, to) => fill(rt, alloc, node, from, to),
        Ask::Delete(byte) => return delete(rt, alloc, node, byte),
        Ask::Seek(byte) => return seek(node, byte),
        Ask::WriteAt(byte, value) => return write_at(node, byte, value),
        Ask::Replace(byte, value) => return replace(node, byte, value),
        Ask::Write(value) => return write(node, value),
        Ask::Value => return node.value().copied(),
        Ask::Walk => return walk(node),
    }
    None
}

fn counts(rt: &impl Abort, node: &TestNode) -> (usize, usize) {
    assert!(rt; node.is_leaf() != node.is_inner());
    assert!(rt; node.is_leaf() == (node.capacity() == 0));
    (node.num_children(), node.capacity())
}

// An empty node of this width with the prefix, or for 0 a leaf with it and the value 1.
fn new_of_width(alloc: Global, width: usize, prefix: Part) -> Result<TestNode, TreeError> {
    match width {
        0 => Ok(<TestNode as Node<Part, u64>>::new_leaf(prefix, 1)),
        4 => TestNode::new_4(alloc, prefix),
        16 => TestNode::new_16(alloc, prefix),
        48 => TestNode::new_48(alloc, prefix),
        _ => TestNode::new_256(alloc, prefix),
    }
}

// A helper owns the node, and another asserts: an assert beside an owned node gets no proof.
fn check_rows(rt: &impl Abort, alloc: Global, width: usize, rows: &[Row]) {
    let Ok(mut node) = new_of_width(alloc, width, Part::from_slice(b"abc\0")) else {
        panic!(rt; "refused with ample memory")
    };
    play_rows(rt, alloc, &mut node, rows);
}

fn play_rows(rt: &impl Abort, alloc: Global, node: &mut TestNode, rows: &[Row]) {
    let mut row = 0_usize;
    for (ask, want, after) in rows {
        let found = answer(rt, alloc, node, *ask);
        assert!(rt; found == *want, "row {row}");
        assert!(rt; counts(rt, node) == *after, "row {row}");
        row = row.wrapping_add(1);
    }
}

static FOUR_CHILDREN: [Row; 11] = [
    (Ask::Add(5, 1), None, (1, 4)),
    (Ask::Add(4, 2), None, (2, 4)),
    (Ask::Add(3, 3), None, (3, 4)),
    (Ask::Add(2, 4), None, (4, 4)),
    (Ask::Delete(5), Some(1), (3, 4)),
    (Ask::Delete(2), Some(4), (2, 4)),
    (Ask::Delete(9), None, (2, 4)),
    (Ask::Seek(5), None, (2, 4)),
    (Ask::Seek(4), Some(2), (2, 4)),
    (Ask::Seek(3), Some(3), (2, 4)),
    (Ask::Seek(2), None, (2, 4)),
];

#[test]
fn of_four_children_two_are_deleted(rt: HostRuntime) {
    check_rows(&rt, rt.alloc(), 4, &FOUR_CHILDREN);
}

static FULL: [Row; 10] = [
    (Ask::Fill(0, 256), None, (256, 256)),
    (Ask::Walk, Some(256), (256, 256)),
    (Ask::Delete(47), Some(47), (255, 256)),
    (Ask::Delete(46), Some(46), (254, 256)),
    (Ask::Seek(47), None, (254, 256)),
    (Ask::Seek(46), None, (254, 256)),
    (Ask::Walk, None, (254, 256)),
    (Ask::Add(46, 46), None, (255, 256)),
    (Ask::Add(47, 47), None, (256, 256)),
    (Ask::Walk, Some(256), (256, 256)),
];

#[test]
fn of_all_children_two_are_deleted_and_the_others_keep_their_values(rt: HostRuntime) {
    check_rows(&rt, rt.alloc(), 256, &FULL);
}

static FEW_IN_A_WIDE_NODE: [Row; 9] = [
    (Ask::Add(7, 7), None, (1, 256)),
    (Ask::Add(8, 8), None, (2, 256)),
    (Ask::Add(9, 9), None, (3, 256)),
    (Ask::Delete(1), None, (3, 256)),
    (Ask::Delete(8), Some(8), (2, 48)),
    (Ask::Delete(9), Some(9), (1, 16)),
    (Ask::Seek(7), Some(7), (1, 16)),
    (Ask::Delete(7), Some(7), (0, 4)),
    (Ask::Delete(7), None, (0, 4)),
];

#[test]
fn a_wide_node_with_few_children_moves_one_kind_down_at_a_deletion(rt: HostRuntime) {
    check_rows(&rt, rt.alloc(), 256, &FEW_IN_A_WIDE_NODE);
}

static EVERY_KIND: [Row; 12] = [
    (Ask::Walk, Some(0), (0, 0)),
    (Ask::Fill(0, 3), None, (3, 4)),
    (Ask::Walk, Some(3), (3, 4)),
    (Ask::Fill(3, 12), None, (12, 16)),
    (Ask::Walk, Some(12), (12, 16)),
    (Ask::Fill(12, 40), None, (40, 48)),
    (Ask::Walk, Some(40), (40, 48)),
    (Ask::Fill(40, 200), None, (200, 256)),
    (Ask::Walk, Some(200), (200, 256)),
    (Ask::Seek(199), Some(199), (200, 256)),
    (Ask::Seek(200), None, (200, 256)),
    (Ask::Value, Some(1), (200, 256)),
];

#[test]
fn children_are_walked_in_order_in_every_kind(rt: HostRuntime) {
    check_rows(&rt, rt.alloc(), 0, &EVERY_KIND);
}

static WRITTEN: [Row; 10] = [
    (Ask::Write(10), Some(1), (0, 0)),
    (Ask::WriteAt(9, 20), None, (0, 0)),
    (Ask::Add(9, 2), None, (1, 4)),
    (Ask::WriteAt(9, 20), Some(2), (1, 4)),
    (Ask::Value, Some(10), (1, 4)),
    (Ask::Seek(9), Some(20), (1, 4)),
    (Ask::Replace(9, 30), Some(20), (1, 4)),
    (Ask::Replace(8, 40), None, (1, 4)),
    (Ask::Seek(8), None, (1, 4)),
    (Ask::Delete(9), Some(30), (0, 0)),
];

#[test]
fn a_value_and_a_child_are_changed_in_place_and_a_child_is_replaced(rt: HostRuntime) {
    check_rows(&rt, rt.alloc(), 0, &WRITTEN);
}

fn new_inner(alloc: Global, width: usize) -> Result<TestNode, TreeError> {
    match width {
        0 => <TestNode as Node<Part, u64>>::new_inner(alloc, Part::from_slice(b"p")),
        _ => new_of_width(alloc, width, Part::from_slice(b"p")),
    }
}

// What is seen of a new node: its children, its capacity, and whether it has a value.
fn seen_of(rt: &impl Abort, node: &TestNode) -> (usize, usize, bool) {
    let (children, capacity) = counts(rt, node);
    (children, capacity, node.value().is_some())
}

// What is seen of the node that is made with a request refused, or why none is; and whether one was refused.
fn made(
    rt: &impl Abort,
    alloc: Global,
    width: usize,
    at: usize,
) -> (Result<(usize, usize, bool), TreeError>, bool) {
    refuse(alloc, at);
    let answer = new_inner(alloc, width);
    let refused = was_refused(alloc);
    match answer {
        Ok(node) => (Ok(seen_of(rt, &node)), refused),
        Err(error) => (Err(error), refused),
    }
}

fn is_made_in_turn(rt: &impl Abort, alloc: Global, width: usize, capacity: usize) {
    for at in 1..100_usize {
        match made(rt, alloc, width, at) {
            (Ok(seen), refused) => {
                assert!(rt; !refused && seen == (0, capacity, false), "width {width}");
                part_ends(alloc);
                return;
            }
            (Err(error), refused) => {
                assert!(rt; refused && error == TreeError::Memory, "width {width}");
            }
        }
    }
    assert!(rt; false, "refused for ever");
}

#[test]
fn new_nodes_refused_in_turn(rt: HostRuntime) {
    for (width, capacity) in [(0_usize, 4_usize), (4, 4), (16, 16), (48, 48), (256, 256)] {
        is_made_in_turn(&rt, rt.alloc(), width, capacity);
    }
}

// The call that makes a node with `from` children change its kind, refused in turn; whether one was.
fn change_refused(rt: &impl Abort, alloc: Global, from: usize, at: usize, grows: bool) -> bool {
    let mut node = leaf(b'p', 1);
    fill(rt, alloc, &mut node, 0, from);
    try_change(rt, alloc, &mut node, from, at, grows)
}

// The value that a call without memory returns, or 255 for such a deletion; 0 for any other error.
fn change(rt: &impl Abort, alloc: Global, node: &mut TestNode, grows: bool) -> Option<u64> {
    assert!(rt; node.seek_child(255).is_none() && node.children_fit());
    if grows {
        match node.add_child(alloc, 255, leaf(255, 255)) {
            Ok(()) => None,
            Err(
                Refused {
                    error: TreeError::Memory,
                    value,
                },
            ) => value.value().copied(),
            Err(_other) => Some(0),
        }
    } else {
        match node.delete_child(alloc, 0) {
            Ok(_child) => None,
            Err(TreeError::Memory) => Some(255),
            Err(_other) => Some(0),
        }
    }
}

fn try_change(
    rt: &impl Abort,
    alloc: Global,
    node: &mut TestNode,
    from: usize,
    at: usize,
    grows: bool,
) -> bool {
    let before = counts(rt, node);
    refuse(alloc, at);
    let handed_back = change(rt, alloc, node, grows);
    let refused = was_refused(alloc);
    let as_before = counts(rt, node) == before;
    assert!(rt; handed_back == refused.then_some(255), "request {at}");
    assert!(rt; as_before == refused, "request {at}");
    assert!(rt; !refused || walk(node) == Some(from as u64), "request {at}");
    refused
}

fn is_changed_in_turn(rt: &impl Abort, alloc: Global, from: usize, grows: bool) {
    for at in 1..100_usize {
        if !change_refused(rt, alloc, from, at, grows) {
            part_ends(alloc);
            return;
        }
    }
    assert!(rt; false, "refused for ever");
}

#[test]
fn added_and_deleted_children_refused_in_turn(rt: HostRuntime) {
    for (count, grows) in [
        (0_usize, true),
        (4, true),
        (16, true),
        (48, true),
        (5, false),
        (17, false),
        (49, false),
    ] {
        is_changed_in_turn(&rt, rt.alloc(), count, grows);
    }
}
