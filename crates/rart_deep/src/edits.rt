//! Edits of the tree.

// The owner of a tree lends it to one function.

use crate::parts::part;
use crate::trees::{Key, Tree, insert_all, key};
use rart::{RouteTable, SlotUpdate, TryUpdateError};
use std::alloc::Global;
use std::ops::Bound;

type Routes = RouteTable<Key, u64>;

fn insert_new_all(tree: &mut Tree) -> Option<usize> {
    for length in 1..1025 {
        tree.insert_new_k(&key(length), 1).ok()?;
    }
    Some(tree.len())
}

/// Inserts each key as a new one, and returns how many the tree then has.
pub fn insert_new(alloc: Global) -> Option<usize> {
    let mut tree = Tree::new(alloc);
    insert_new_all(&mut tree)
}

fn try_insert_all(tree: &mut Tree) -> usize {
    let mut new: usize = 0;
    for length in 1..1025 {
        for _time in 0..2 {
            if tree.try_insert_k(&key(length), 1).is_ok() {
                new = new.saturating_add(1);
            }
        }
    }
    new
}

/// Tries to insert each key twice, and returns how often that succeeded.
pub fn try_insert(alloc: Global) -> Option<usize> {
    let mut tree = Tree::new(alloc);
    Some(try_insert_all(&mut tree))
}

// Removes all keys, the longest first, and returns how many were stored.
fn remove_all(tree: &mut Tree) -> Option<usize> {
    let mut removed: usize = 0;
    for shorter in 0..1024 {
        if tree.remove_k(&key(1024 - shorter)).ok()?.is_some() {
            removed = removed.saturating_add(1);
        }
    }
    Some(removed)
}

// Deletes all keys but the longest, so that nodes are merged, and returns how many were stored.
fn delete_shorter(tree: &mut Tree) -> Option<usize> {
    let mut removed: usize = 0;
    for shorter in 1..1024 {
        if tree.delete_k(&key(1024 - shorter)).ok()? {
            removed = removed.saturating_add(1);
        }
    }
    Some(removed)
}

// Takes all pairs from one end, and returns how many there were.
fn pop_all(tree: &mut Tree, is_first: bool) -> Option<usize> {
    let mut taken: usize = 0;
    for _time in 0..1024 {
        let popped = if is_first {
            tree.pop_first()
        } else {
            tree.pop_last()
        };
        if popped.ok()?.is_some() {
            taken = taken.saturating_add(1);
        }
    }
    Some(taken)
}

/// What a callback requests.
#[derive(Clone, Copy)]
enum Request {
    Keep,
    Insert,
    Remove,
}

fn edit_of(request: Request) -> SlotUpdate<u64> {
    match request {
        Request::Keep => SlotUpdate::Keep,
        Request::Insert => SlotUpdate::Insert(3),
        Request::Remove => SlotUpdate::Remove,
    }
}

// Updates each key, the longest first, and returns how many keys the tree then has.
fn update_all(tree: &mut Tree, request: Request) -> Option<usize> {
    for shorter in 0..1024 {
        tree.update_k(&key(1024 - shorter), move |_slot| edit_of(request))
            .ok()?;
    }
    Some(tree.len())
}

// The same by callbacks that may fail.
fn try_update_all(tree: &mut Tree, request: Request) -> Option<usize> {
    for shorter in 0..1024 {
        let updated: Result<bool, TryUpdateError<u64, u64>> = tree.try_update_k(
            &key(1024 - shorter),
            move |_slot| Ok(edit_of(request)),
        );
        updated.ok()?;
    }
    Some(tree.len())
}

// Keeps, replaces, removes and inserts all keys by updates, and returns the sum of the numbers of keys after each.
fn update_in_turn(tree: &mut Tree) -> Option<usize> {
    let kept = update_all(tree, Request::Keep)?;
    let replaced = update_all(tree, Request::Insert)?;
    let removed = update_all(tree, Request::Remove)?;
    let inserted = update_all(tree, Request::Insert)?;
    Some((kept % 2048) + (replaced % 2048) + (removed % 2048) + (inserted % 2048))
}

// The same by callbacks that may fail.
fn try_update_in_turn(tree: &mut Tree) -> Option<usize> {
    let kept = try_update_all(tree, Request::Keep)?;
    let replaced = try_update_all(tree, Request::Insert)?;
    let removed = try_update_all(tree, Request::Remove)?;
    let inserted = try_update_all(tree, Request::Insert)?;
    Some((kept % 2048) + (replaced % 2048) + (removed % 2048) + (inserted % 2048))
}

// Writes to each value, and returns how many there are.
fn write_all(tree: &mut Tree) -> usize {
    let mut stored: usize = 0;
    for length in 1..1025 {
        if let Some(value) = tree.get_mut_k(&key(length)) {
            *value = 5;
            stored = stored.saturating_add(1);
        }
    }
    stored
}

// Lends each value, one of them after an insertion, and returns how many there are.
fn hold_all(tree: &mut Tree) -> Option<usize> {
    tree.delete_k(&key(1024)).ok()?;
    for length in 1..1025 {
        let value = tree.get_or_insert_with_k(&key(length), || 1).ok()?;
        *value = 5;
    }
    Some(tree.len())
}

// Writes to each value by one walk, and returns how many there are.
fn walk_mut(tree: &mut Tree) -> usize {
    let mut walked: usize = 0;
    tree.for_each_value_mut(|value| {
        *value = 5;
        walked = walked.saturating_add(1);
    });
    walked
}

// Keeps the keys of even length, and returns how many there are.
fn retain(tree: &mut Tree) -> Option<usize> {
    tree.retain(|key: &[u8], _value: &mut u64| key.len() % 2 == 0)
        .ok()?;
    Some(tree.len())
}

// Keeps of the keys of at least 2 bytes, by a range, those of even length, and returns how many keys there are.
fn range_retain(tree: &mut Tree) -> Option<usize> {
    let even = |key: &[u8], _value: &mut u64| key.len() % 2 == 0;
    tree.range_retain(Bound::Included(key(2)), Bound::Included(key(1023)), even)
        .ok()?;
    Some(tree.len())
}

// Takes the keys of 2 to 512 bytes, and returns how many they are.
fn take_range(tree: &mut Tree) -> Option<usize> {
    let part = tree
        .take_range(Bound::Included(key(2)), Bound::Included(key(512)))
        .ok()?;
    Some(part.len())
}

// Removes the keys of at least 2 bytes but the longest, and returns how many are left.
fn remove_range(tree: &mut Tree) -> Option<usize> {
    tree.remove_range(Bound::Included(key(2)), Bound::Excluded(key(1024)))
        .ok()?;
    Some(tree.len())
}

fn add_all(routes: &mut Routes) -> Option<()> {
    for length in 1..1025 {
        routes.add_new(&key(length), 1).ok()?;
        routes.replace(&key(length), 2).ok()?;
    }
    Some(())
}

fn withdraw_all(routes: &mut Routes) -> Option<usize> {
    let mut withdrawn: usize = 0;
    for shorter in 0..1024 {
        if routes.withdraw(&key(1024 - shorter)).ok()?.is_some() {
            withdrawn = withdrawn.saturating_add(1);
        }
    }
    Some(withdrawn)
}

/// Adds, replaces and withdraws routes, and returns how many there were.
pub fn routes(alloc: Global) -> Option<usize> {
    let mut routes = Routes::new(alloc);
    add_all(&mut routes)?;
    withdraw_all(&mut routes)
}

// Drops all pairs, and returns how many are left.
fn clear(tree: &mut Tree) -> usize {
    tree.clear();
    tree.len()
}

/// Makes the edit, or the read, of this name on a tree of all keys. `None` if there is none, or no memory.
pub fn edit(tree: &mut Tree, name: &str) -> Option<usize> {
    match name {
        "insert" => insert_all(tree, 2),
        "remove" => remove_all(tree),
        "delete" => delete_shorter(tree),
        "pop_first" => pop_all(tree, true),
        "pop_last" => pop_all(tree, false),
        "update" => update_in_turn(tree),
        "try_update" => try_update_in_turn(tree),
        "get_mut" => Some(write_all(tree)),
        "get_or_insert" => hold_all(tree),
        "values_mut" => Some(walk_mut(tree)),
        "retain" => retain(tree),
        "range_retain" => range_retain(tree),
        "take_range" => take_range(tree),
        "remove_range" => remove_range(tree),
        "clear" => Some(clear(tree)),
        _ => part(tree, name),
    }
}
