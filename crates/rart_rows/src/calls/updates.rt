//! Updates through a slot.

use crate::answer::Answer;
use crate::form::Form;
use crate::request::Request;
use crate::words::same_key;
use crate::world::Tree;
use rart::{KeyTrait, Slot, TryUpdateError, UpdateError};

fn update_k<K: KeyTrait>(
    tree: &mut Tree<K>,
    key: &K,
    request: Request,
) -> Result<bool, UpdateError<u64>> {
    tree.update_k(key, move |slot: &mut Slot<u64>| {
        if let Slot::Occupied(value) = slot {
            *value = request.next(*value);
        }
        request.update()
    })
}

fn update_by_value<K: KeyTrait + Drop>(
    tree: &mut Tree<K>,
    key: K,
    request: Request,
) -> Result<bool, UpdateError<u64>> {
    tree.update(key, move |slot: &mut Slot<u64>| {
        if let Slot::Occupied(value) = slot {
            *value = request.next(*value);
        }
        request.update()
    })
}

/// Updates the slot of a key.
pub fn update<K: KeyTrait + Drop>(
    tree: &mut Tree<K>,
    key: &K,
    request: &Request,
    form: Form,
    answer: &mut Answer,
) {
    let updated = if form.takes_key() {
        update_by_value(tree, same_key(key), *request)
    } else {
        update_k(tree, key, *request)
    };
    match updated {
        Ok(touched) => answer.truth(touched),
        Err(UpdateError::Insert(refused)) => {
            answer.returned(refused.error, refused.value, request.value);
        }
        Err(UpdateError::Remove) => answer.refusal(b"not_removed"),
    }
}

fn try_update_k<K: KeyTrait>(
    tree: &mut Tree<K>,
    key: &K,
    request: Request,
) -> Result<bool, TryUpdateError<u64, u64>> {
    tree.try_update_k(key, move |slot: &mut Slot<u64>| {
        if let Slot::Occupied(value) = slot {
            *value = request.next(*value);
        }
        request.try_update()
    })
}

fn try_update_by_value<K: KeyTrait + Drop>(
    tree: &mut Tree<K>,
    key: K,
    request: Request,
) -> Result<bool, TryUpdateError<u64, u64>> {
    tree.try_update(key, move |slot: &mut Slot<u64>| {
        if let Slot::Occupied(value) = slot {
            *value = request.next(*value);
        }
        request.try_update()
    })
}

fn put_try_updated(
    updated: Result<bool, TryUpdateError<u64, u64>>,
    offered: u64,
    answer: &mut Answer,
) {
    match updated {
        Ok(touched) => answer.truth(touched),
        Err(TryUpdateError::Callback(error)) => {
            answer.word(b"failed");
            answer.number(error);
        }
        Err(TryUpdateError::Insert(refused)) => {
            answer.returned(refused.error, refused.value, offered);
        }
        Err(TryUpdateError::Remove) => answer.refusal(b"not_removed"),
        Err(TryUpdateError::Clone) => answer.refusal(b"not_cloned"),
    }
}

/// Updates the slot of a key by a callback that may fail.
pub fn try_update<K: KeyTrait + Drop>(
    tree: &mut Tree<K>,
    key: &K,
    request: &Request,
    form: Form,
    answer: &mut Answer,
) {
    if form.takes_key() {
        let updated = try_update_by_value(tree, same_key(key), *request);
        put_try_updated(updated, request.value, answer);
    } else {
        put_try_updated(try_update_k(tree, key, *request), request.value, answer);
    }
}
