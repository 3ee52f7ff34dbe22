//! Values whose clone fails at the nth one: what clones of a tree and of a route table then return, drop and leave.

use crate::updates::drops::{Key, Tree, filled, key};
use rart::RouteTable;
use rart_test_tools::counted::Limited;
use rart_test_tools::counts::Counts;
use std::alloc::Global;

type Table<'a> = RouteTable<Key, Limited<'a>>;

fn filled_table<'a>(alloc: Global, counts: &'a Counts, count: u8) -> Table<'a> {
    let mut table = Table::new(alloc);
    for byte in 0..count {
        let _old = table.replace(&key(byte), counts.value(byte));
    }
    table
}

// Whether the tree has these numbers, and no more.
fn has_numbers(tree: &Tree<'_>, count: u8) -> bool {
    for byte in 0..count {
        match tree.get_k(&key(byte)) {
            Some(value) if value.number == byte => {}
            _ => return false,
        }
    }
    tree.len() == usize::from(count)
}

// How many pairs a clone has, if it succeeds.
fn cloned(tree: &Tree<'_>) -> Option<usize> {
    match tree.clone() {
        Ok(clone) => Some(clone.len()),
        Err(_refused) => None,
    }
}

fn cloned_table(table: &Table<'_>) -> Option<usize> {
    match table.clone() {
        Ok(clone) => Some(clone.len()),
        Err(_refused) => None,
    }
}

// What a clone of `count` pairs returns where `clones` values can be cloned.
fn wanted(count: u8, clones: usize) -> Option<usize> {
    (clones >= usize::from(count)).then_some(usize::from(count))
}

// The clones that were made are dropped once, and the tree is unchanged.
fn is_cloned_so(alloc: Global, count: u8, clones: usize) -> bool {
    let counts = Counts::new(clones);
    let tree = filled(alloc, &counts, count);
    let answer = cloned(&tree);
    let made = clones.wrapping_sub(counts.clones.get());
    let is_whole = has_numbers(&tree, count);
    let dropped = counts.drops.get();
    drop(tree);
    answer == wanted(count, clones)
        && made == clones.min(usize::from(count))
        && dropped == made
        && is_whole
        && counts.drops.get() == made.wrapping_add(usize::from(count))
}

fn is_table_cloned_so(alloc: Global, count: u8, clones: usize) -> bool {
    let counts = Counts::new(clones);
    let table = filled_table(alloc, &counts, count);
    let answer = cloned_table(&table);
    let made = clones.wrapping_sub(counts.clones.get());
    let dropped = counts.drops.get();
    drop(table);
    answer == wanted(count, clones)
        && dropped == clones.min(usize::from(count))
        && counts.drops.get() == made.wrapping_add(usize::from(count))
}

// The numbers of pairs, around the borders of the kinds of nodes.
const COUNTS: [u8; 8] = [0, 1, 2, 4, 5, 16, 17, 49];

// The first count and number of clones at which the tree or the table is wrong.
fn first_wrong(alloc: Global) -> Option<(u8, usize)> {
    for count in COUNTS {
        for clones in 0..usize::from(count).wrapping_add(2) {
            if !is_cloned_so(alloc, count, clones) || !is_table_cloned_so(alloc, count, clones) {
                return Some((count, clones));
            }
        }
    }
    None
}

#[test]
fn a_value_that_is_not_cloned_drops_the_clones_before_it(rt: HostRuntime) {
    assert_eq!(rt; first_wrong(rt.alloc()), None);
}
