//! Ranges that start at every byte of each of the four storages.

use rart::{KeyTrait, Range};
use rart_test_trees::texts::{Key, Tree};
use std::alloc::Global;
use std::ops::Bound;

// Inserts `count` keys of one byte, every second byte from 2 on, each its own value.
pub(super) fn insert_spaced(tree: &mut Tree, count: usize) -> bool {
    for byte in 0..=255_u8 {
        let number = usize::from(byte);
        if number >= 2 && number % 2 == 0 && number / 2 <= count {
            let new = tree.insert(Key::new_from_slice(&[byte]), u64::from(byte));
            if !matches!(new, Ok(None)) {
                return false;
            }
        }
    }
    true
}

// Whether the values from this byte on come, up to the last of the `count` keys.
fn counts_up(range: &mut Range<'_, Key, u64>, from: usize, count: usize) -> bool {
    for number in from..257_usize {
        if number >= 2 && number % 2 == 0 && number / 2 <= count {
            match range.next() {
                Some((_, value)) if *value == number as u64 => {}
                _ => return false,
            }
        }
    }
    range.next().is_none()
}

fn counts_up_from(tree: &Tree, start: Bound<Key>, from: usize, count: usize) -> bool {
    match tree.range(start, Bound::Unbounded) {
        Ok(mut range) => counts_up(&mut range, from, count),
        Err(_) => false,
    }
}

fn starts_well(tree: &Tree, byte: u8, count: usize) -> bool {
    let from = usize::from(byte);
    let key = Key::new_from_slice(&[byte]);
    counts_up_from(tree, Bound::Included(key), from, count)
        && counts_up_from(tree, Bound::Excluded(key), from + 1, count)
}

// The first byte from which a range fails, if there is one.
fn starts_at_every_byte(tree: &Tree, count: usize) -> Option<usize> {
    for byte in 0..=255_u8 {
        if !starts_well(tree, byte, count) {
            return Some(usize::from(byte));
        }
    }
    None
}

// The first such byte of a new tree; 1000 where it can't be filled.
fn starts_in_a_tree(alloc: Global, count: usize) -> Option<usize> {
    let mut tree = Tree::new(alloc);
    if insert_spaced(&mut tree, count) {
        starts_at_every_byte(&tree, count)
    } else {
        Some(1000)
    }
}

#[test]
fn every_kind_of_node_is_entered_at_any_byte(rt: HostRuntime) {
    for count in [1, 3, 4, 5, 16, 17, 48, 49, 127] {
        assert_eq!(rt; starts_in_a_tree(rt.alloc(), count), None);
    }
}
