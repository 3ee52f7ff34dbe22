//! Trees of the same four keys, made by each call that stores keys.

use super::{Key, LONGEST, Tree};
use rart::{KeyTrait, SlotUpdate, TryUpdateError};
use std::alloc::Global;

/// A call that stores one key.
#[derive(Clone, Copy)]
pub enum Call {
    Insert,
    InsertNew,
    TryInsert,
    Update,
    TryUpdate,
}

/// How a tree is made.
#[derive(Clone, Copy)]
pub enum Form {
    OneByOne(Call),
    Loaded,
    Cloned,
}

pub static FORMS: [Form; 7] = [
    Form::OneByOne(Call::Insert),
    Form::OneByOne(Call::InsertNew),
    Form::OneByOne(Call::TryInsert),
    Form::OneByOne(Call::Update),
    Form::OneByOne(Call::TryUpdate),
    Form::Loaded,
    Form::Cloned,
];

const BYTES: [u8; LONGEST] = *b"abc";

// The first `len` bytes of the longest key.
fn key(len: usize) -> Key {
    Key::new_from_slice(&BYTES[..len.min(LONGEST)])
}

fn is_new_by_update(tree: &mut Tree, key: &Key, value: u64) -> bool {
    let updated = tree.update_k(key, move |_slot| SlotUpdate::Insert(value));
    matches!(updated, Ok(true))
}

fn is_new_by_try_update(tree: &mut Tree, key: &Key, value: u64) -> bool {
    let updated: Result<bool, TryUpdateError<(), u64>> = tree.try_update_k(
        key,
        move |_slot| Ok(SlotUpdate::Insert(value)),
    );
    matches!(updated, Ok(true))
}

// Whether the call stores a new key.
fn is_stored(tree: &mut Tree, key: &Key, value: u64, call: Call) -> bool {
    match call {
        Call::Insert => matches!(tree.insert_k(key, value), Ok(None)),
        Call::InsertNew => matches!(tree.insert_new_k(key, value), Ok(())),
        Call::TryInsert => matches!(tree.try_insert_k(key, value), Ok(())),
        Call::Update => is_new_by_update(tree, key, value),
        Call::TryUpdate => is_new_by_try_update(tree, key, value),
    }
}

fn are_stored(tree: &mut Tree, call: Call) -> bool {
    for len in 0..=LONGEST {
        if !is_stored(tree, &key(len), len as u64, call) {
            return false;
        }
    }
    true
}

fn stored(alloc: Global, call: Call) -> Option<Tree> {
    let mut tree = Tree::new(alloc);
    if are_stored(&mut tree, call) {
        Some(tree)
    } else {
        None
    }
}

fn loaded(alloc: Global) -> Option<Tree> {
    let items = vec![in alloc; (key(0), 0_u64), (key(1), 1), (key(2), 2), (key(3), 3)];
    match items {
        Ok(items) => Tree::bulk_load_sorted(alloc, items).ok(),
        Err(_) => None,
    }
}

fn clone_of(tree: &Tree) -> Option<Tree> {
    match tree.clone() {
        Ok(clone) => Some(clone),
        Err(_) => None,
    }
}

fn cloned(alloc: Global) -> Option<Tree> {
    match stored(alloc, Call::Insert) {
        Some(tree) => clone_of(&tree),
        None => None,
    }
}

/// A tree with a node for each byte of its longest key.
pub fn filled(alloc: Global, form: Form) -> Option<Tree> {
    match form {
        Form::OneByOne(call) => stored(alloc, call),
        Form::Loaded => loaded(alloc),
        Form::Cloned => cloned(alloc),
    }
}
