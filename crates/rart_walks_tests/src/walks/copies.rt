//! Copies of a view with each request refused: the destination is then unchanged.

use rart::{KeyTrait, LendingKeyView, TreeError};
use rart_test_tools::refusals::{part_ends, refuse, was_refused};
use rart_test_trees::texts::{Key, Pair, Tree, filled};
use std::alloc::Global;
use std::cell::Cell;
use std::panic::Expect;

/// A copy of a view.
#[derive(Clone, Copy)]
enum Copied {
    After,
    Vector,
    Key,
}

// A vector of two bytes without capacity for more.
fn two_bytes(alloc: Global) -> Option<Vec<u8>> {
    match Vec::with_capacity(alloc, 2) {
        Ok(mut bytes) => {
            if push_two(&mut bytes) {
                Some(bytes)
            } else {
                None
            }
        }
        Err(_) => None,
    }
}

fn push_two(bytes: &mut Vec<u8>) -> bool {
    bytes.push(1).is_ok() && bytes.push(2).is_ok()
}

// Whether the bytes of the view came after others, with a request refused; and where one was, whether those others
// are alone.
fn is_written_after(
    alloc: Global,
    view: LendingKeyView<'_, '_>,
    at: usize,
    bytes: &mut Vec<u8>,
) -> (Result<bool, TreeError>, bool) {
    refuse(alloc, at);
    let copied = view.write_into(bytes);
    let refused = was_refused(alloc);
    match copied {
        Ok(()) => (Ok(bytes.as_slice() == b"\x01\x02abcd".as_slice()), refused),
        Err(error) if bytes.as_slice() == b"\x01\x02".as_slice() => (Err(error), refused),
        Err(_error) => (Ok(false), refused),
    }
}

fn is_after(
    alloc: Global,
    view: LendingKeyView<'_, '_>,
    at: usize,
) -> (Result<bool, TreeError>, bool) {
    match two_bytes(alloc) {
        Some(mut bytes) => is_written_after(alloc, view, at, &mut bytes),
        None => (Ok(false), false),
    }
}

fn is_vector(
    alloc: Global,
    view: LendingKeyView<'_, '_>,
    at: usize,
) -> (Result<bool, TreeError>, bool) {
    refuse(alloc, at);
    let copied = view.to_vec(alloc);
    let refused = was_refused(alloc);
    match copied {
        Ok(bytes) => (Ok(bytes.as_slice() == b"abcd".as_slice()), refused),
        Err(error) => (Err(error), refused),
    }
}

fn is_key(
    alloc: Global,
    view: LendingKeyView<'_, '_>,
    at: usize,
) -> (Result<bool, TreeError>, bool) {
    if view.len() > 16 {
        return (Ok(false), false);
    }
    refuse(alloc, at);
    let copied = view.to_key::<Key>(alloc);
    let refused = was_refused(alloc);
    match copied {
        Ok(key) => (Ok(key.as_ref() == b"abcd".as_slice()), refused),
        Err(error) => (Err(error), refused),
    }
}

fn copy(
    alloc: Global,
    view: LendingKeyView<'_, '_>,
    copied: Copied,
    at: usize,
) -> (Result<bool, TreeError>, bool) {
    match copied {
        Copied::After => is_after(alloc, view, at),
        Copied::Vector => is_vector(alloc, view, at),
        Copied::Key => is_key(alloc, view, at),
    }
}

fn is_swept(alloc: Global, view: LendingKeyView<'_, '_>, copied: Copied) -> bool {
    for at in 1..100_usize {
        match copy(alloc, view, copied, at) {
            (Ok(well), refused) => {
                part_ends(alloc);
                return well && !refused;
            }
            (Err(error), refused) => {
                if !refused || error != TreeError::Memory {
                    return false;
                }
            }
        }
    }
    false
}

static PAIRS: [Pair; 2] = [("ab", 1), ("abcd", 2)];

fn each_is_swept(alloc: Global, view: LendingKeyView<'_, '_>) -> usize {
    let mut well = 0_usize;
    for copied in [Copied::After, Copied::Vector, Copied::Key] {
        if is_swept(alloc, view, copied) {
            well = well.wrapping_add(1);
        }
    }
    well
}

fn copies_are_swept(alloc: Global, tree: &Tree) -> bool {
    let well = Cell::new(0_usize);
    let shown = tree.with_longest_prefix_match_view_k(
        &Key::new_from_slice(b"abcd"),
        |view: LendingKeyView<'_, '_>, _value: &u64| {
            well.set(well.get().wrapping_add(each_is_swept(alloc, view)));
        },
    );
    shown == Ok(true) && well.get() == 3
}

#[test]
fn copies_of_a_view_refused_in_turn(rt: HostRuntime) {
    let tree = filled(rt.alloc(), &PAIRS).expect(&rt, "a tree");
    assert!(rt; copies_are_swept(rt.alloc(), &tree));
}
