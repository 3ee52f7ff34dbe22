//! Walks and iterators with each of their requests refused: a refused walk has called nothing.

use super::forms::{Calls, PAIRS, Walk, make, walks};
use rart::{KeyTrait, TreeError};
use rart_test_tools::refusals::{part_ends, refuse, was_refused};
use rart_test_trees::texts::{Key, Tree, filled};
use std::alloc::Global;
use std::panic::Expect;

// A refused walk says `Memory` and has called nothing; another has called as often as wanted.
fn is_swept(alloc: Global, tree: &Tree, key: Key, form: Walk, wanted: usize) -> bool {
    for at in 1..100_usize {
        let calls = Calls::none(None);
        refuse(alloc, at);
        let outcome = make(tree, key, form, &calls);
        if !was_refused(alloc) {
            part_ends(alloc);
            return outcome == Ok(()) && calls.many() == wanted;
        }
        if outcome != Err(TreeError::Memory) || calls.many() != 0 {
            return false;
        }
    }
    false
}

// The first walk that fails, if there is one.
fn first_wrong_walk(alloc: Global, tree: &Tree) -> Option<usize> {
    let key = Key::new_from_slice(b"alp");
    let mut row = 0_usize;
    for (form, wanted) in walks() {
        if !is_swept(alloc, tree, key, *form, *wanted) {
            return Some(row);
        }
        row = row.wrapping_add(1);
    }
    None
}

#[test]
fn walks_refused_in_turn_call_nothing(rt: HostRuntime) {
    let tree = filled(rt.alloc(), &PAIRS).expect(&rt, "a tree");
    assert_eq!(rt; first_wrong_walk(rt.alloc(), &tree), None);
}
