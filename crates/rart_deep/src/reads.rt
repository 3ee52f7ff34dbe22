//! Reads of the tree, and of two like it.
use crate::trees::{Key, Tree, key};
use crate::walks::walk;
use rart::laws::counts::count_below;
use rart::{KeyTrait, TreeStatsTrait};
use std::fmt;
use std::fmt::Write;
use std::ops::Bound;

// Returns the height.
fn height(tree: &Tree) -> Option<usize> {
    Some(tree.get_tree_stats().ok()?.max_height)
}

// Compares two equal trees, and returns how many keys each has.
fn equal(one: &Tree, other: &Tree) -> Option<usize> {
    (*one == *other).then_some(one.len())
}

// Returns the number of calls with values of both trees.
fn intersect_values(one: &Tree, other: &Tree) -> usize {
    let mut calls: usize = 0;
    one.intersect_values_with(other, |_left, _right| calls = calls.saturating_add(1));
    calls
}

// Returns the number of calls with keys of both trees.
fn intersect_keys(one: &Tree, other: &Tree) -> Option<usize> {
    let mut calls: usize = 0;
    one.intersect_with(other, |_key, _left, _right| calls = calls.saturating_add(1))
        .ok()?;
    Some(calls)
}

// Returns the number of calls with views of keys of both trees.
fn intersect_views(one: &Tree, other: &Tree) -> Option<usize> {
    let mut calls: usize = 0;
    one.intersect_lending_with(
        other,
        |_view, _left, _right| calls = calls.saturating_add(1),
    )
    .ok()?;
    Some(calls)
}

/// Makes the call of this name on two trees of all keys. `None` if there is none, or no memory.
pub fn read_both(one: &Tree, other: &Tree, name: &str) -> Option<usize> {
    match name {
        "equal" => equal(one, other),
        "intersect_count" => Some(one.intersect_count(other)),
        "intersect_subset" => Some(if one.is_subset(other) { one.len() } else { 0 }),
        "intersect_values" => Some(intersect_values(one, other)),
        "intersect_keys" => intersect_keys(one, other),
        "intersect_views" => intersect_views(one, other),
        _ => None,
    }
}

// Returns the number of keys that are found.
fn look_up(tree: &Tree) -> usize {
    let mut found: usize = 0;
    for length in 1..1025 {
        if tree.contains_key_k(&key(length)) {
            found = found.saturating_add(1);
        }
    }
    found
}

// Returns the length of the longest key that begins the longest of all.
fn longest(tree: &Tree) -> Option<usize> {
    let (found, _value) = tree.longest_prefix_match_k(&key(1024))?;
    Some(found.as_ref().len())
}

// Returns the number of keys that begin the longest of all.
fn matches(tree: &Tree) -> usize {
    let mut count: usize = 0;
    let probe: Key = key(1024);
    tree.prefix_match_for_each_k(&probe, |_bytes, _value| count = count.saturating_add(1));
    count
}

// Returns the length of the least key.
fn first(tree: &Tree) -> Option<usize> {
    let (found, _value) = tree.first_key_value()?;
    Some(found.as_ref().len())
}

// Returns the length of the greatest key.
fn last(tree: &Tree) -> Option<usize> {
    let (found, _value) = tree.last_key_value()?;
    Some(found.as_ref().len())
}

// Returns the number of keys with a prefix of two bytes.
fn counted_below(tree: &Tree) -> Option<usize> {
    count_below(tree, &key(2)).ok()
}

// Clones the tree, and returns how many keys the clone has.
fn cloned(tree: &Tree) -> Option<usize> {
    match tree.clone() {
        Ok(copy) => Some(copy.len()),
        Err(_refused) => None,
    }
}

/// A writer that counts the lines of what it is given.
#[derive(Drop)]
struct LineCount(usize);

impl fmt::Write for LineCount {
    fn write_str(&mut self, text: &str) -> fmt::Result {
        for byte in text.as_bytes() {
            if *byte == b'\n' {
                self.0 = self.0.saturating_add(1);
            }
        }
        Ok(())
    }
}

// Writes the tree as text, and returns how many lines that has.
fn outline(tree: &Tree) -> Option<usize> {
    let mut lines = LineCount(0);
    write!(lines, "{}", tree.outline()).ok()?;
    Some(lines.0)
}

/// Makes the call of this name on a tree of all keys. `None` if there is none, or no memory.
pub fn read(tree: &Tree, name: &str) -> Option<usize> {
    match name {
        "stats" => height(tree),
        "look_up" => Some(look_up(tree)),
        "longest" => longest(tree),
        "matches" => Some(matches(tree)),
        "first_key_value" => first(tree),
        "last_key_value" => last(tree),
        "count_below" => counted_below(tree),
        "common_prefix" => Some(tree.longest_common_prefix_k(&key(2))?.as_ref().len()),
        "count_prefix" => Some(tree.count_prefix_k(&key(2))),
        "count_range" => Some(tree.count_range(
            Bound::Included(key(2)),
            Bound::Excluded(key(1024)),
        )),
        "clone" => cloned(tree),
        "outline" => outline(tree),
        _ => walk(tree, name),
    }
}
