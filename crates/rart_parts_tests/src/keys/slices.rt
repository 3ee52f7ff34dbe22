//! Keys of slices and texts that may be too long, and hashes of keys.

use crate::compare::expect_eq;
use rart_keys::KeyTrait;
use rart_keys::keys::array_key::ArrayKey;
use rart_keys::keys::tail_key::TailKey;
use std::hash::{DefaultHasher, Hash, Hasher};

// Texts, and whether a key of four bytes holds them.
static ROWS: [(&str, bool); 5] = [
    ("", true),
    ("a", true),
    ("abcd", true),
    ("abcde", false),
    ("\0\0\0\0\0\0", false),
];

fn has_bytes<K: KeyTrait>(key: Option<&K>, bytes: &[u8], fits: bool) -> bool {
    match key {
        Some(key) => fits && key.as_ref() == bytes,
        None => !fits,
    }
}

fn is_row(text: &str, fits: bool) -> bool {
    let bytes = text.as_bytes();
    has_bytes(ArrayKey::<4>::try_from_slice(bytes).as_ref(), bytes, fits)
        && has_bytes(ArrayKey::<4>::try_from_str(text).as_ref(), bytes, fits)
        && has_bytes(TailKey::<4>::try_from_slice(bytes).as_ref(), bytes, fits)
        && has_bytes(TailKey::<4>::try_from_str(text).as_ref(), bytes, fits)
}

#[test]
fn too_many_bytes_make_no_key(rt: HostRuntime) {
    for (text, fits) in &ROWS {
        assert!(rt; is_row(text, *fits), "{} bytes", text.len());
    }
}

fn hash_of<K: Hash>(key: &K) -> u64 {
    let mut hasher = DefaultHasher::new();
    key.hash(&mut hasher);
    hasher.finish()
}

// The hash of a length and of some bytes.
fn hash_of_parts(len: usize, bytes: &[u8]) -> u64 {
    let mut hasher = DefaultHasher::new();
    hasher.write_usize(len);
    hasher.write(bytes);
    hasher.finish()
}

#[test]
fn a_key_is_hashed_as_its_length_and_its_bytes(rt: HostRuntime) {
    let wanted = hash_of_parts(3, b"cat");
    expect_eq(&rt, hash_of(&ArrayKey::<4>::new_from_slice(b"cat")), wanted);
    expect_eq(&rt, hash_of(&ArrayKey::<9>::new_from_slice(b"cat")), wanted);
    expect_eq(&rt, hash_of(&TailKey::<4>::new_from_slice(b"cat")), wanted);
    assert!(rt; hash_of_parts(2, b"ca") != wanted);
}
