//! Runs of calls on the keys of some bytes and one more, which is also the value.

use crate::answer::Answer;
use crate::names::Group;
use crate::row::Args;
use crate::words::{Bytes, key_of};
use crate::world::Tree;
use rart::KeyTrait;

fn key_after<K: KeyTrait>(front: &Bytes, byte: u8) -> Option<K> {
    let mut bytes = *front;
    bytes.push(byte);
    key_of::<K>(bytes.as_slice())
}

fn is_put<K: KeyTrait + Drop>(tree: &mut Tree<K>, front: &Bytes, byte: u8) -> bool {
    match key_after::<K>(front, byte) {
        Some(key) => matches!(tree.insert(key, u64::from(byte)), Ok(None)),
        None => false,
    }
}

fn is_taken<K: KeyTrait + Drop>(tree: &mut Tree<K>, front: &Bytes, byte: u8) -> bool {
    match key_after::<K>(front, byte) {
        Some(key) => tree.remove(key) == Ok(Some(u64::from(byte))),
        None => false,
    }
}

// Inserts or removes the keys from one byte on below another; neighbours are not changed one after the other.
fn change<K: KeyTrait + Drop>(tree: &mut Tree<K>, args: &Args<'_>, puts: bool) -> bool {
    let mut byte = 89_u8;
    for _ in 0..256_u32 {
        byte = byte.wrapping_add(167);
        let number = u64::from(byte);
        if args.value <= number && number < args.to {
            let is_right = if puts {
                is_put(tree, &args.probe, byte)
            } else {
                is_taken(tree, &args.probe, byte)
            };
            if !is_right {
                return false;
            }
        }
    }
    true
}

fn has<K: KeyTrait + Drop>(tree: &Tree<K>, front: &Bytes, byte: u8, value: Option<u64>) -> bool {
    match key_after::<K>(front, byte) {
        Some(key) => tree.get(key).copied() == value,
        None => false,
    }
}

// Whether exactly the keys below a byte are stored.
fn holds<K: KeyTrait + Drop>(tree: &Tree<K>, front: &Bytes, count: u64) -> bool {
    for byte in 0..=255_u8 {
        let number = u64::from(byte);
        if !has(tree, front, byte, (number < count).then_some(number)) {
            return false;
        }
    }
    true
}

/// Makes the calls, and says whether each did what it should.
pub fn call_group<K: KeyTrait + Drop>(
    tree: &mut Tree<K>,
    group: Group,
    args: &Args<'_>,
    answer: &mut Answer,
) {
    match group {
        Group::Fill => answer.truth(change(tree, args, true)),
        Group::EmptyOut => answer.truth(change(tree, args, false)),
        Group::Holds => answer.truth(holds(tree, &args.probe, args.value)),
    }
}
