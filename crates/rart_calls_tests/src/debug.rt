//! Trees and route tables as `{:?}` prints them.

use rart::{AdaptiveRadixTree, ArrayKey, RouteTable};
use rart_test_tools::refusals::{is_swept, refuse, was_refused};
use std::alloc::Global;

type Key = ArrayKey<1>;

// The keys of one byte that are stored, in the order of their insertion, each with its number as the value; the text.
static ROWS: [(&[u8], &str); 3] = [
    (b"", "{}"),
    (b"a", "{ArrayKey { stored: [97], len: 1 }: 97}"),
    (
        b"ba",
        "{ArrayKey { stored: [97], len: 1 }: 97, ArrayKey { stored: [98], len: 1 }: 98}",
    ),
];

fn tree_has_text(alloc: Global, keys: &[u8], wanted: &str) -> bool {
    let mut tree = AdaptiveRadixTree::<Key, u64>::new(alloc);
    for key in keys {
        if tree.insert(Key::from_u8(*key), u64::from(*key)).is_err() {
            return false;
        }
    }
    match format!(in alloc; "{tree:?}") {
        Ok(text) => text.as_str() == wanted,
        Err(_failure) => false,
    }
}

fn table_has_text(alloc: Global, keys: &[u8], wanted: &str) -> bool {
    let mut table = RouteTable::<Key, u64>::new(alloc);
    for key in keys {
        if table.add_new(&Key::from_u8(*key), u64::from(*key)).is_err() {
            return false;
        }
    }
    match format!(in alloc; "{table:?}") {
        Ok(text) => text.as_str() == wanted,
        Err(_failure) => false,
    }
}

#[test]
fn a_tree_is_printed_as_a_map(rt: HostRuntime) {
    for (keys, text) in &ROWS {
        assert!(rt; tree_has_text(rt.alloc(), keys, text));
        assert!(rt; table_has_text(rt.alloc(), keys, text));
    }
}

// Prints a tree with a request refused: its walk and the growth of the text request memory.
fn is_refused_well(alloc: Global, at: usize) -> Option<bool> {
    let mut tree = AdaptiveRadixTree::<Key, u64>::new(alloc);
    if tree.insert(Key::from_u8(b'a'), 97).is_err() {
        return None;
    }
    refuse(alloc, at);
    let printed = format!(in alloc; "{tree:?}");
    let refused = was_refused(alloc);
    let is_whole = match &printed {
        Ok(text) => text.as_str() == "{ArrayKey { stored: [97], len: 1 }: 97}",
        Err(_failure) => false,
    };
    (printed.is_err() == refused && is_whole != refused && tree.len() == 1).then_some(refused)
}

#[test]
fn a_tree_printed_with_requests_refused_in_turn_is_an_error(rt: HostRuntime) {
    assert!(rt; is_swept(rt.alloc(), |at| is_refused_well(rt.alloc(), at)));
}
