//! Descending ranges, and those that start at every byte of each of the four storages.

use super::starts::insert_spaced;
use rart::{KeyTrait, RangeDescending};
use rart_test_trees::texts::{Key, Tree};
use std::alloc::Global;
use std::ops::Bound;

// Whether the values before this byte come, the greatest first.
fn counts_down(range: &mut RangeDescending<'_, Key, u64>, end: usize, count: usize) -> bool {
    for turn in 1..=end {
        let number = end.wrapping_sub(turn);
        if number >= 2 && number % 2 == 0 && number / 2 <= count {
            match range.next() {
                Some((_, value)) if *value == number as u64 => {}
                _ => return false,
            }
        }
    }
    range.next().is_none()
}

fn counts_down_from(tree: &Tree, end: Bound<Key>, before: usize, count: usize) -> bool {
    match tree.range_descending(Bound::Unbounded, end) {
        Ok(mut range) => counts_down(&mut range, before, count),
        Err(_) => false,
    }
}

fn ends_well(tree: &Tree, byte: u8, count: usize) -> bool {
    let before = usize::from(byte);
    let key = Key::new_from_slice(&[byte]);
    counts_down_from(tree, Bound::Excluded(key), before, count)
        && counts_down_from(tree, Bound::Included(key), before + 1, count)
}

// The first byte to which a range fails, if there is one.
fn ends_at_every_byte(tree: &Tree, count: usize) -> Option<usize> {
    for byte in 0..=255_u8 {
        if !ends_well(tree, byte, count) {
            return Some(usize::from(byte));
        }
    }
    None
}

// The first such byte of a new tree; 1000 where it can't be filled.
fn ends_in_a_tree(alloc: Global, count: usize) -> Option<usize> {
    let mut tree = Tree::new(alloc);
    if insert_spaced(&mut tree, count) {
        ends_at_every_byte(&tree, count)
    } else {
        Some(1000)
    }
}

#[test]
fn every_kind_of_node_is_left_at_any_byte(rt: HostRuntime) {
    for count in [1, 3, 4, 5, 16, 17, 48, 49, 127] {
        assert_eq!(rt; ends_in_a_tree(rt.alloc(), count), None);
    }
}
