//! Statistics of new trees, and of keys in two orders of insertion.

use rart::{AdaptiveRadixTree, ArrayKey, NodeStats, TreeStats, TreeStatsTrait};
use rart_test_trees::is_counted;
use std::alloc::Global;

fn is_of_new_tree(alloc: Global, new: &TreeStats) -> bool {
    let tree = AdaptiveRadixTree::<ArrayKey<16>, u64>::new(alloc);
    match tree.get_tree_stats() {
        Ok(stats) => stats == *new,
        Err(_refused) => false,
    }
}

fn new_count_nothing(alloc: Global) -> bool {
    let new = TreeStats::new(alloc);
    is_counted(&new, &[0, 0, 0, 0], &[]) && is_of_new_tree(alloc, &new)
}

#[test]
fn new_stats_count_nothing(rt: HostRuntime) {
    assert!(rt; new_count_nothing(rt.alloc()));
    let none = NodeStats::default();
    assert!(rt; none.width == 0 && none.total_nodes == 0 && none.total_children == 0);
}

type Numbers = AdaptiveRadixTree<ArrayKey<8>, u64>;

// Inserts the numbers below 4096, descending or ascending, and returns whether each was new and had memory.
fn put_numbers(tree: &mut Numbers, descending: bool) -> bool {
    for i in 0..4096_u64 {
        let number = if descending { 4095 - i } else { i };
        if !matches!(
            tree.insert(ArrayKey::<8>::from_u64(number), number),
            Ok(None)
        ) {
            return false;
        }
    }
    true
}

fn stats_of_numbers(alloc: Global, descending: bool) -> Option<TreeStats> {
    let mut tree = Numbers::new(alloc);
    if put_numbers(&mut tree, descending) {
        tree.get_tree_stats().ok()
    } else {
        None
    }
}

fn are_counted(one: &Option<TreeStats>, other: &Option<TreeStats>) -> bool {
    match (one, other) {
        (Some(left), Some(right)) => {
            is_counted(left, &[4096, 4096, 17, 3], &[(16, 1, 16), (256, 16, 4096)]) && left == right
        }
        _ => false,
    }
}

fn both_orders_are_counted(alloc: Global) -> bool {
    let one = stats_of_numbers(alloc, true);
    let other = stats_of_numbers(alloc, false);
    are_counted(&one, &other)
}

#[test]
fn stats_do_not_depend_on_the_order_of_insertion(rt: HostRuntime) {
    assert!(rt; both_orders_are_counted(rt.alloc()));
}
