//! Calls that make a tree of nothing or compare two; the library that refuses memory reports one that allocates.

use crate::loads::{Key, ascend, load_by_index, load_unique};
use rart::{AdaptiveRadixTree, BulkError};
use rart_test_tools::refusals::{refuse, was_refused};
use std::alloc::Global;

type Tree = AdaptiveRadixTree<Key, u64>;

fn is_empty(loaded: Result<Tree, BulkError>) -> bool {
    match loaded {
        Ok(tree) => tree.is_empty(),
        Err(_refused) => false,
    }
}

fn nothing_is_loaded_by_index(alloc: Global, items: &[(Key, u64)]) -> bool {
    ascend(items) && is_empty(load_by_index(alloc, items, |i| i as u64))
}

fn nothing_is_loaded_unique(alloc: Global, items: Vec<(Key, u64)>) -> bool {
    ascend(&items) && is_empty(load_unique(alloc, items))
}

// Whether each load of no items gives an empty tree while the next request is refused.
fn nothing_is_loaded(alloc: Global) -> bool {
    refuse(alloc, 1);
    let are_empty = nothing_is_loaded_by_index(alloc, &[])
        && is_empty(Tree::bulk_load_sorted(alloc, Vec::new(alloc)))
        && nothing_is_loaded_unique(alloc, Vec::new(alloc));
    !was_refused(alloc) && are_empty
}

#[test]
fn loads_of_no_items_make_no_request(rt: HostRuntime) {
    assert!(rt; nothing_is_loaded(rt.alloc()));
}

fn is_migrated_to_nothing(tree: &Tree) -> bool {
    match Tree::drop_closing_zeros(tree) {
        Ok(other) => other.is_empty(),
        Err(_error) => false,
    }
}

// Whether a new tree and what comes of it without closing zeros are empty, while the next request is refused.
fn is_new_quietly(alloc: Global) -> bool {
    refuse(alloc, 1);
    let tree = Tree::new(alloc);
    tree.canonical();
    let migrated = is_migrated_to_nothing(&tree);
    let refused = was_refused(alloc);
    migrated && !refused && tree.is_empty()
}

#[test]
fn a_new_tree_and_its_migration_make_no_request(rt: HostRuntime) {
    assert!(rt; is_new_quietly(rt.alloc()));
}
