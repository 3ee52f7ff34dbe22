//! What tests of the map share: comparisons of two trees and of statistics, and a count of visits.
//!
//! It is no part of the product.
#![tactic(auto)]

pub mod tally;
pub mod texts;

use rart::{AdaptiveRadixTree, KeyTrait, NodeStats, TreeStats, TreeStatsTrait};

/// The trees that tests compare.
pub type Tree<K> = AdaptiveRadixTree<K, u64>;

/// Whether the statistics have these leaves, values, inner nodes and height, for each of these widths as many nodes
/// and children, and the sums of these.
pub fn is_counted(
    stats: &TreeStats,
    counts: &[usize; 4],
    widths: &[(usize, usize, usize)],
) -> bool {
    let found = [
        stats.num_leaves,
        stats.num_values,
        stats.num_inner_nodes,
        stats.max_height,
    ];
    if found != *counts || stats.node_stats.len() != widths.len() {
        return false;
    }
    let mut children = 0_usize;
    let mut capacity = 0_usize;
    for (width, total_nodes, total_children) in widths {
        let entry = NodeStats {
            width: *width,
            total_nodes: *total_nodes,
            total_children: *total_children,
        };
        if stats.node_stats.get(width) != Some(&entry) {
            return false;
        }
        children = children.wrapping_add(*total_children);
        capacity = capacity.wrapping_add(width.wrapping_mul(*total_nodes));
    }
    stats.total_children == children && stats.total_width == capacity
}

/// Whether two trees have the same pairs, as many of them, and the same statistics.
pub fn are_alike<K: KeyTrait + Drop>(one: &Tree<K>, other: &Tree<K>) -> bool {
    one.len() == other.len() && have_same_stats(one, other) && have_same_pairs(one, other)
}

/// Whether the statistics of two trees are the same.
pub fn have_same_stats<K: KeyTrait>(one: &Tree<K>, other: &Tree<K>) -> bool {
    match (one.get_tree_stats(), other.get_tree_stats()) {
        (Ok(left), Ok(right)) => left == right,
        _ => false,
    }
}

fn have_same_pairs<K: KeyTrait + Drop>(one: &Tree<K>, other: &Tree<K>) -> bool {
    let (Ok(mut left), Ok(mut right)) = (one.iter(), other.iter()) else {
        return false;
    };
    while let Some((key, value)) = left.next() {
        match right.next() {
            Some((same_key, same_value)) => {
                if key != same_key || value != same_value {
                    return false;
                }
            }
            None => return false,
        }
    }
    right.next().is_none()
}
