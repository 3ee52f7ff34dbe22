//! The statistics of a tree, and those of a list of keys, computed without any tree.
use crate::model::Model;
use crate::numbers::mix;
use crate::sides::Tree;
use rart::{KeyTrait, TreeStats, TreeStatsTrait};
use std::alloc::{AllocError, Global};

/// Counts of nodes: leaves, values, inner nodes, height, children, widths, and of each width its nodes and their
/// children.
#[derive(Clone, Copy)]
pub struct Counts {
    leaves: u64,
    values: u64,
    inner: u64,
    height: u64,
    children: u64,
    // The sum of the widths of inner nodes.
    width: u64,
    nodes_of: [u64; 4],
    children_of: [u64; 4],
}

/// The widths of nodes.
const WIDTHS: [usize; 4] = [4, 16, 48, 256];

// A branch point on the path to the key that was read last.
#[derive(Clone, Copy)]
struct Open {
    depth: usize,
    children: u64,
    below: u64,
}

fn class_of(children: u64) -> usize {
    match children {
        0..5 => 0,
        5..17 => 1,
        17..49 => 2,
        _ => 3,
    }
}

fn width_for(children: u64) -> u64 {
    let width = WIDTHS.get(class_of(children)).copied().unwrap_or(0);
    width as u64
}

fn add_at(counts: &mut [u64; 4], place: usize, count: u64) {
    if let Some(found) = counts.get_mut(place) {
        *found = found.wrapping_add(count);
    }
}

impl Counts {
    fn new() -> Self {
        Counts {
            leaves: 0,
            values: 0,
            inner: 0,
            height: 0,
            children: 0,
            width: 0,
            nodes_of: [0; 4],
            children_of: [0; 4],
        }
    }

    // Counts a node whose keys have all been read, and returns its height.
    fn close(&mut self, node: &Open) -> u64 {
        let height = node.below.wrapping_add(1);
        self.height = self.height.max(height);
        if node.children == 0 {
            self.leaves = self.leaves.wrapping_add(1);
        } else {
            self.inner = self.inner.wrapping_add(1);
            self.children = self.children.wrapping_add(node.children);
            self.width = self.width.wrapping_add(width_for(node.children));
            add_at(&mut self.nodes_of, class_of(node.children), 1);
            add_at(
                &mut self.children_of,
                class_of(node.children),
                node.children,
            );
        }
        height
    }

    fn sum(&self) -> u64 {
        let mut sum = mix(mix(1, self.leaves), self.values);
        sum = mix(mix(mix(sum, self.inner), self.height), self.children);
        sum = mix(sum, self.width);
        for count in self.nodes_of.iter().chain(self.children_of.iter()) {
            sum = mix(sum, *count);
        }
        sum
    }
}

// Gives the last open node one more child.
fn add_child(open: &mut Vec<Open>, height: u64) {
    if let Some(parent) = open.last_mut() {
        parent.children = parent.children.wrapping_add(1);
        parent.below = parent.below.max(height);
    }
}

// Closes the open nodes that are deeper than `depth`; the last of them hangs below a node at `depth`.
fn close_to(counts: &mut Counts, open: &mut Vec<Open>, depth: usize) -> Result<(), AllocError> {
    for _ in 0..=open.len() {
        match open.last() {
            Some(top) if top.depth > depth => {}
            _ => return Ok(()),
        }
        let Some(node) = open.pop() else {
            return Ok(());
        };
        let height = counts.close(&node);
        let is_missing = match open.last() {
            Some(parent) => parent.depth < depth,
            None => true,
        };
        if is_missing {
            open.push(Open {
                depth,
                children: 0,
                below: 0,
            })?;
        }
        add_child(open, height);
    }
    Ok(())
}

fn close_all(counts: &mut Counts, open: &mut Vec<Open>) {
    for _ in 0..=open.len() {
        let Some(node) = open.pop() else {
            return;
        };
        let height = counts.close(&node);
        add_child(open, height);
    }
}

// Counts the nodes of the keys, of which those on the path to the last key stay open.
fn count_keys(counts: &mut Counts, open: &mut Vec<Open>, model: &Model) -> Result<(), AllocError> {
    let mut last = None;
    for place in 0..model.len() {
        if let Some((key, _)) = model.at(place) {
            if let Some(before) = last {
                close_to(counts, open, key.shared(&before))?;
            }
            open.push(Open {
                depth: key.len(),
                children: 0,
                below: 0,
            })?;
            counts.values = counts.values.wrapping_add(1);
            last = Some(key);
        }
    }
    Ok(())
}

/// The sum of the statistics that a tree of these keys has.
pub fn shape_of(alloc: Global, model: &Model) -> Result<u64, AllocError> {
    let mut counts = Counts::new();
    let mut open = Vec::new(alloc);
    count_keys(&mut counts, &mut open, model)?;
    close_all(&mut counts, &mut open);
    Ok(counts.sum())
}

/// The sum of the statistics of a tree.
pub fn shape_in<K: KeyTrait>(tree: &Tree<K>) -> Option<u64> {
    let stats = tree.get_tree_stats().ok()?;
    Some(sum_of_stats(&stats))
}

/// The sum of statistics. Returns 0 if an entry has no node or another width.
pub fn sum_of_stats(stats: &TreeStats) -> u64 {
    let mut counts = Counts::new();
    counts.leaves = stats.num_leaves as u64;
    counts.values = stats.num_values as u64;
    counts.inner = stats.num_inner_nodes as u64;
    counts.height = stats.max_height as u64;
    counts.children = stats.total_children as u64;
    counts.width = stats.total_width as u64;
    let mut entries = 0_usize;
    let mut place = 0_usize;
    for width in WIDTHS {
        if let Some(found) = stats.node_stats.get(&width) {
            entries = entries.wrapping_add(1);
            if found.total_nodes == 0 || found.width != width {
                return 0;
            }
            add_at(&mut counts.nodes_of, place, found.total_nodes as u64);
            add_at(&mut counts.children_of, place, found.total_children as u64);
        }
        place = place.wrapping_add(1);
    }
    if entries == stats.node_stats.len() {
        counts.sum()
    } else {
        0
    }
}
