//! The values of a load by index are taken in the order of their indices.

use crate::loads::{Key, ascend, load_by_index};
use crate::play::Tree;
use rart::{BulkError, KeyTrait};
use std::alloc::{AllocError, Global};
use std::cell::Cell;
use std::test::Fail;

static FIVE: [&[u8]; 5] = [b"", b"a", b"ab", b"b", b"ba"];

fn items(alloc: Global) -> Result<Vec<(Key, u64)>, AllocError> {
    let mut items = Vec::new(alloc);
    let mut value = 0_u64;
    for bytes in FIVE {
        items.push((Key::new_from_slice(&bytes[..bytes.len().min(8)]), value))?;
        value = value.wrapping_add(1);
    }
    Ok(items)
}

fn has_items(tree: &Tree<Key>, items: &[(Key, u64)]) -> bool {
    for (key, value) in items {
        if tree.get_k(key) != Some(value) {
            return false;
        }
    }
    tree.len() == items.len()
}

fn is_tree_of(loaded: Result<Tree<Key>, BulkError>, items: &[(Key, u64)]) -> bool {
    match loaded {
        Ok(tree) => has_items(&tree, items),
        Err(_refused) => false,
    }
}

// The indices taken, as digits after a first 1, where each key then has its index.
fn taken_of(alloc: Global, items: &[(Key, u64)]) -> Option<usize> {
    if !ascend(items) {
        return None;
    }
    let taken = Cell::new(1_usize);
    let loaded = load_by_index(alloc, items, |i| {
        taken.set(taken.get().wrapping_mul(10).wrapping_add(i));
        i as u64
    });
    is_tree_of(loaded, items).then_some(taken.get())
}

fn taken(alloc: Global) -> Result<Option<usize>, AllocError> {
    let items = items(alloc)?;
    Ok(taken_of(alloc, &items))
}

#[test]
fn values_of_five_keys_are_taken_in_turn(rt: HostRuntime) -> Result<(), Fail> {
    assert!(rt; taken(rt.alloc())? == Some(1_01234));
    Ok(())
}
