//! Loads of the pairs that a row lists.

use crate::answer::Answer;
use crate::names::Load;
use crate::words::{bytes_of, key_of, number_of};
use crate::world::{Items, Tree};
use rart::{BulkError, KeyTrait, Refused};
use rart_lines::next_word;
use std::alloc::Global;
use std::mem;

// The pair of `key=value`.
fn item_of<K: KeyTrait>(word: &[u8]) -> Option<(K, u64)> {
    let at = word.iter().position(|byte| *byte == b'=')?;
    let number = number_of(word.get(at.checked_add(1)?..)?)?;
    Some((key_of::<K>(bytes_of(word.get(..at)?)?.as_slice())?, number))
}

// Adds the pair of a word, and returns whether it is one and had memory.
fn is_pushed<K: KeyTrait + Drop>(word: &[u8], items: &mut Items<K>) -> bool {
    match item_of::<K>(word) {
        Some(item) => items.push(item).is_ok(),
        None => false,
    }
}

/// Reads the listed pairs into an empty list, and returns whether each is one.
pub fn are_read<K: KeyTrait + Drop>(text: &[u8], items: &mut Items<K>) -> bool {
    let mut rest = text;
    for _ in 0..text.len() {
        match next_word(rest) {
            Some((word, after)) => {
                rest = after;
                if !is_pushed(word, items) {
                    return false;
                }
            }
            None => return true,
        }
    }
    true
}

fn put_bulk_error(error: BulkError, answer: &mut Answer) {
    match error {
        BulkError::Memory => answer.refusal(b"memory"),
        BulkError::Full => answer.word(b"full"),
        BulkError::Unsorted { at } => {
            answer.word(b"unsorted");
            answer.count(at);
        }
    }
}

// Replaces the tree with the loaded one.
fn bulk_load<K: KeyTrait + Drop>(
    alloc: Global,
    tree: &mut Tree<K>,
    items: Items<K>,
    answer: &mut Answer,
) {
    match Tree::<K>::bulk_load_sorted(alloc, items) {
        Ok(loaded) => {
            answer.count(loaded.len());
            *tree = loaded;
        }
        Err(error) => put_bulk_error(error, answer),
    }
}

/// The refusal of an item, which follows the error.
pub fn put_refused_item<K: KeyTrait + Drop>(refused: Refused<(K, u64)>, answer: &mut Answer) {
    answer.error(refused.error);
    answer.pair(refused.value.0.as_ref(), refused.value.1);
}

fn from_pairs<K: KeyTrait + Drop>(
    alloc: Global,
    tree: &mut Tree<K>,
    items: Items<K>,
    answer: &mut Answer,
) {
    match Tree::<K>::from_pairs(alloc, items) {
        Ok(made) => {
            answer.count(made.len());
            *tree = made;
        }
        Err(refused) => put_refused_item(refused, answer),
    }
}

fn extend<K: KeyTrait + Drop>(tree: &mut Tree<K>, items: Items<K>, answer: &mut Answer) {
    match tree.extend(items) {
        Ok(()) => answer.word(b"done"),
        Err(refused) => put_refused_item(refused, answer),
    }
}

/// Loads the listed pairs, which are taken.
pub fn load<K: KeyTrait + Drop>(
    alloc: Global,
    tree: &mut Tree<K>,
    load: Load,
    items: &mut Items<K>,
    answer: &mut Answer,
) {
    let listed = mem::replace(items, Vec::new(alloc));
    match load {
        Load::BulkLoadSorted => bulk_load(alloc, tree, listed, answer),
        Load::FromPairs => from_pairs(alloc, tree, listed, answer),
        Load::Extend => extend(tree, listed, answer),
    }
}
