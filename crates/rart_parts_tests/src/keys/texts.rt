//! Texts of keys.

use rart_keys::keys::array_key::ArrayKey;
use rart_keys::keys::tail_key::TailKey;
use std::alloc::Global;
use std::fmt;

// Bytes, and the text of a key that has them.
static ROWS: [(&[u8], &str); 8] = [
    (b"", ""),
    (b"cat", "cat"),
    (b" a~", " a~"),
    (b"a\\b", "a\\x5cb"),
    (b"n\0", "n\\x00"),
    (b"\x1f", "\\x1f"),
    (b"\x7f", "\\x7f"),
    (b"\xff\xab", "\\xff\\xab"),
];

fn has_text<K: fmt::Display>(alloc: Global, key: Option<&K>, wanted: &str) -> bool {
    let Some(key) = key else {
        return false;
    };
    match format!(in alloc; "{key}") {
        Ok(text) => text.as_str() == wanted,
        Err(_failure) => false,
    }
}

#[test]
fn a_key_is_printed_as_its_text(rt: HostRuntime) {
    let alloc = rt.alloc();
    for (bytes, text) in &ROWS {
        assert!(rt; has_text(alloc, ArrayKey::<4>::try_from_slice(bytes).as_ref(), text));
        assert!(rt; has_text(alloc, TailKey::<4>::try_from_slice(bytes).as_ref(), text));
    }
}
