//! Insertions, removals, and edits of values.

use crate::answer::Answer;
use crate::asked::Asked;
use crate::calls::updates::{try_update, update};
use crate::form::Form;
use crate::names::{Insertion, Removal, Values};
use crate::row::Args;
use crate::words::same_key;
use crate::world::Tree;
use rart::{KeyTrait, NotInserted, Refused, TreeError, TryInsertError};
use std::mem;

/// The old value of an insertion, or its refusal.
pub fn put_inserted(
    inserted: Result<Option<u64>, Refused<u64>>,
    offered: u64,
    answer: &mut Answer,
) {
    match inserted {
        Ok(old) => answer.value(old),
        Err(refused) => answer.returned(refused.error, refused.value, offered),
    }
}

/// What an insertion of a new key returns, which shows a stored value.
pub fn put_tried(tried: Result<(), TryInsertError<'_, u64>>, offered: u64, answer: &mut Answer) {
    match tried {
        Ok(()) => answer.word(b"inserted"),
        Err(TryInsertError::Occupied(back, stored)) => {
            answer.word(b"occupied");
            answer.number(back);
            answer.number(*stored);
        }
        Err(TryInsertError::Refused(refused)) => {
            answer.returned(refused.error, refused.value, offered);
        }
    }
}

/// The same without the stored value.
pub fn put_new(new: Result<(), NotInserted<u64>>, offered: u64, answer: &mut Answer) {
    match new {
        Ok(()) => answer.word(b"inserted"),
        Err(NotInserted::Stored(back)) => {
            answer.word(b"stored");
            answer.number(back);
        }
        Err(NotInserted::Refused(refused)) => {
            answer.returned(refused.error, refused.value, offered);
        }
    }
}

/// The value that was removed, or the refusal.
pub fn put_removed(removed: Result<Option<u64>, TreeError>, answer: &mut Answer) {
    match removed {
        Ok(old) => answer.value(old),
        Err(error) => answer.error(error),
    }
}

/// A pair that was removed, or the refusal.
pub fn put_popped<K: KeyTrait + Drop>(
    popped: Result<Option<(K, u64)>, TreeError>,
    answer: &mut Answer,
) {
    match popped {
        Ok(Some((key, value))) => answer.pair(key.as_ref(), value),
        Ok(None) => answer.word(b"none"),
        Err(error) => answer.error(error),
    }
}

fn put_deleted(deleted: Result<bool, TreeError>, answer: &mut Answer) {
    match deleted {
        Ok(found) => answer.truth(found),
        Err(error) => answer.error(error),
    }
}

fn insert<K: KeyTrait + Drop>(
    tree: &mut Tree<K>,
    key: &K,
    value: u64,
    form: Form,
) -> Result<Option<u64>, Refused<u64>> {
    if form.takes_key() {
        tree.insert(same_key(key), value)
    } else {
        tree.insert_k(key, value)
    }
}

fn try_insert<K: KeyTrait + Drop>(
    tree: &mut Tree<K>,
    key: &K,
    value: u64,
    form: Form,
    answer: &mut Answer,
) {
    if form.takes_key() {
        put_tried(tree.try_insert(same_key(key), value), value, answer);
    } else {
        put_tried(tree.try_insert_k(key, value), value, answer);
    }
}

fn insert_new<K: KeyTrait + Drop>(
    tree: &mut Tree<K>,
    key: &K,
    value: u64,
    form: Form,
) -> Result<(), NotInserted<u64>> {
    if form.takes_key() {
        tree.insert_new(same_key(key), value)
    } else {
        tree.insert_new_k(key, value)
    }
}

/// Writes a value over the one that is lent, which it returns.
pub fn replaced(place: Option<&mut u64>, value: u64) -> Option<u64> {
    match place {
        Some(place) => Some(mem::replace(place, value)),
        None => None,
    }
}

fn overwrite<K: KeyTrait + Drop>(
    tree: &mut Tree<K>,
    key: &K,
    value: u64,
    form: Form,
) -> Option<u64> {
    if form.takes_key() {
        replaced(tree.get_mut(same_key(key)), value)
    } else if form.gives_bytes() {
        replaced(tree.get_mut_bytes(key.as_ref()), value)
    } else {
        replaced(tree.get_mut_k(key), value)
    }
}

// The value that is lent, to which one is added, or the refusal.
fn put_held(held: Result<&mut u64, Refused<u64>>, offered: u64, answer: &mut Answer) {
    match held {
        Ok(place) => {
            answer.number(*place);
            *place = (*place).wrapping_add(1);
        }
        Err(refused) => answer.returned(refused.error, refused.value, offered),
    }
}

fn get_or_insert<K: KeyTrait + Drop>(
    tree: &mut Tree<K>,
    key: &K,
    value: u64,
    form: Form,
    answer: &mut Answer,
) {
    if form.takes_key() {
        put_held(tree.get_or_insert(same_key(key), value), value, answer);
    } else {
        put_held(tree.get_or_insert_k(key, value), value, answer);
    }
}

fn get_or_insert_with<K: KeyTrait + Drop>(
    tree: &mut Tree<K>,
    key: &K,
    value: u64,
    form: Form,
    answer: &mut Answer,
) {
    if form.takes_key() {
        let held = tree.get_or_insert_with(same_key(key), move || value);
        put_held(held, value, answer);
    } else {
        put_held(tree.get_or_insert_with_k(key, move || value), value, answer);
    }
}

/// Inserts a value at a key, or updates the one there.
pub fn insert_at<K: KeyTrait + Drop>(
    tree: &mut Tree<K>,
    key: &K,
    insertion: Insertion,
    args: &Args<'_>,
    form: Form,
    answer: &mut Answer,
) {
    let value = args.value;
    match insertion {
        Insertion::Insert => put_inserted(insert(tree, key, value, form), value, answer),
        Insertion::TryInsert => try_insert(tree, key, value, form, answer),
        Insertion::InsertNew => put_new(insert_new(tree, key, value, form), value, answer),
        Insertion::GetMut => answer.value(overwrite(tree, key, value, form)),
        Insertion::GetOrInsert => get_or_insert(tree, key, value, form, answer),
        Insertion::GetOrInsertWith => get_or_insert_with(tree, key, value, form, answer),
        Insertion::Update => update(tree, key, &args.request, form, answer),
        Insertion::TryUpdate => try_update(tree, key, &args.request, form, answer),
    }
}

fn remove<K: KeyTrait + Drop>(
    tree: &mut Tree<K>,
    key: &K,
    form: Form,
) -> Result<Option<u64>, TreeError> {
    if form.takes_key() {
        tree.remove(same_key(key))
    } else if form.gives_bytes() {
        tree.remove_bytes(key.as_ref())
    } else {
        tree.remove_k(key)
    }
}

fn delete<K: KeyTrait + Drop>(tree: &mut Tree<K>, key: &K, form: Form) -> Result<bool, TreeError> {
    if form.takes_key() {
        tree.delete(same_key(key))
    } else if form.gives_bytes() {
        tree.delete_bytes(key.as_ref())
    } else {
        tree.delete_k(key)
    }
}

fn clear<K: KeyTrait>(tree: &mut Tree<K>, answer: &mut Answer) {
    tree.clear();
    answer.word(b"done");
}

/// Removes one pair or all.
pub fn remove_at<K: KeyTrait + Drop>(
    tree: &mut Tree<K>,
    key: &K,
    removal: Removal,
    form: Form,
    answer: &mut Answer,
) {
    match removal {
        Removal::Remove => put_removed(remove(tree, key, form), answer),
        Removal::Delete => put_deleted(delete(tree, key, form), answer),
        Removal::PopFirst => put_popped(tree.pop_first(), answer),
        Removal::PopLast => put_popped(tree.pop_last(), answer),
        Removal::Clear => clear(tree, answer),
    }
}

// Adds a number to each value, and shows what the values were.
fn for_each_value_mut<K: KeyTrait>(
    tree: &mut Tree<K>,
    added: u64,
    form: Form,
    answer: &mut Answer,
) {
    let mut add = |value: &mut u64| {
        answer.item(*value);
        *value = (*value).wrapping_add(added);
    };
    if form.lends() {
        tree.for_each_value_mut_by_ref(&mut add);
    } else {
        tree.for_each_value_mut(add);
    }
}

fn prefix_for_each_value_mut<K: KeyTrait + Drop>(
    tree: &mut Tree<K>,
    prefix: &K,
    added: u64,
    form: Form,
    answer: &mut Answer,
) {
    let mut add = |value: &mut u64| {
        answer.item(*value);
        *value = (*value).wrapping_add(added);
    };
    match form {
        Form::Reference | Form::Step => tree.prefix_for_each_value_mut_k(prefix, add),
        Form::Value => tree.prefix_for_each_value_mut(same_key(prefix), add),
        Form::LentReference | Form::LentValue => {
            tree.prefix_for_each_value_mut_by_ref_k(prefix, &mut add);
        }
        Form::Bytes => tree.prefix_for_each_value_mut_bytes(prefix.as_ref(), add),
        Form::LentBytes => {
            tree.prefix_for_each_value_mut_by_ref_bytes(prefix.as_ref(), &mut add);
        }
    }
}

fn range_for_each_value_mut<K: KeyTrait + Drop>(
    tree: &mut Tree<K>,
    asked: &Asked<'_, K>,
    answer: &mut Answer,
) {
    let added = asked.args().value;
    let mut add = |value: &mut u64| {
        answer.item(*value);
        *value = (*value).wrapping_add(added);
    };
    match asked.form {
        Form::LentReference | Form::LentValue => {
            tree.range_for_each_value_mut_by_ref(asked.start(), asked.end(), &mut add);
        }
        Form::Bytes => {
            tree.range_for_each_value_mut_bytes(asked.start_bytes(), asked.end_bytes(), add);
        }
        Form::LentBytes => {
            let (start, end) = (asked.start_bytes(), asked.end_bytes());
            tree.range_for_each_value_mut_by_ref_bytes(start, end, &mut add);
        }
        _ => tree.range_for_each_value_mut(asked.start(), asked.end(), add),
    }
}

/// Adds a number to values.
pub fn add_to_values<K: KeyTrait + Drop>(
    tree: &mut Tree<K>,
    asked: &Asked<'_, K>,
    values: Values,
    answer: &mut Answer,
) {
    let (added, form) = (asked.args().value, asked.form);
    match values {
        Values::ForEachValueMut => for_each_value_mut(tree, added, form, answer),
        Values::PrefixForEachValueMut => {
            prefix_for_each_value_mut(tree, &asked.key, added, form, answer);
        }
        Values::RangeForEachValueMut => range_for_each_value_mut(tree, asked, answer),
    }
    answer.end();
}
