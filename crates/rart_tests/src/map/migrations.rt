//! Trees of keys that end in a zero byte, converted to keys without it; also with each request for memory refused in
//! turn.

use crate::play::replies::is_counted;
use rart::{AdaptiveRadixTree, ArrayKey, KeyTrait, MigrateError, TreeStatsTrait};
use rart_test_tools::refusals::{is_swept, part_ends, refuse, was_refused};
use std::alloc::Global;
use std::test::Fail;

type Key = ArrayKey<16>;

type Tree = AdaptiveRadixTree<Key, u64>;

// The keys of a tree, ascending, with the values 1, 2 and so on; and those of the tree without closing zeros, or why
// there is none.
type Row = (
    &'static [&'static str],
    Result<&'static [&'static str], MigrateError>,
);

static ROWS: [Row; 8] = [
    (&[], Ok(&[])),
    (&["cat\0", "catalog\0"], Ok(&["cat", "catalog"])),
    (&["\0", "\0\0", "a\0", "a\0\0"], Ok(&["", "\0", "a", "a\0"])),
    (&["fifteen letters\0"], Ok(&["fifteen letters"])),
    (&["a\0", "b", "c"], Err(MigrateError::NotText { at: 1 })),
    (&[""], Err(MigrateError::NotText { at: 0 })),
    (&["a", "b\0"], Err(MigrateError::NotText { at: 0 })),
    (
        &["a\0", "b\0", "b\0c"],
        Err(MigrateError::NotText { at: 2 }),
    ),
];

// The key of a text of at most 16 bytes.
fn key(text: &str) -> Key {
    let bytes = text.as_bytes();
    if bytes.len() <= 16 {
        Key::new_from_slice(bytes)
    } else {
        Key::new_from_slice(&[])
    }
}

fn filled(alloc: Global, texts: &[&str]) -> Tree {
    let mut tree = Tree::new(alloc);
    let mut value = 1_u64;
    for text in texts {
        let _old = tree.insert(key(text), value);
        value = value.wrapping_add(1);
    }
    tree
}

// Whether these are the keys, with the values 1, 2 and so on.
fn holds(tree: &Tree, texts: &[&str]) -> bool {
    let mut value = 1_u64;
    for text in texts {
        if tree.get_k(&key(text)) != Some(&value) {
            return false;
        }
        value = value.wrapping_add(1);
    }
    tree.len() == texts.len()
}

// What comes of the tree is the wanted, and the tree stays.
fn row_holds(old: &Tree, row: &Row) -> bool {
    let well = match (Tree::drop_closing_zeros(old), row.1) {
        (Ok(tree), Ok(texts)) => holds(&tree, texts),
        (Err(error), Err(wanted)) => error == wanted,
        _ => false,
    };
    well && holds(old, row.0)
}

fn row_holds_of_new(alloc: Global, row: &Row) -> bool {
    let old = filled(alloc, row.0);
    row_holds(&old, row)
}

#[test]
fn closing_zeros_are_dropped_or_the_first_key_without_one_is_reported(rt: HostRuntime) {
    for row in &ROWS {
        assert!(rt; row_holds_of_new(rt.alloc(), row), "{} keys", row.0.len());
    }
}

fn has_counts(tree: &Tree, counts: &[usize; 4], capacities: &[(usize, usize, usize)]) -> bool {
    match tree.get_tree_stats() {
        Ok(stats) => is_counted(&stats, counts, capacities),
        Err(_refused) => false,
    }
}

fn has_both(tree: &Tree) -> bool {
    has_counts(tree, &[1, 2, 1, 2], &[(4, 1, 1)])
        && tree.get_k(&Key::new_from_str("cat")) == Some(&1)
        && tree.get_k(&Key::new_from_str("catalog")) == Some(&2)
}

fn is_brought_over(old: &Tree) -> bool {
    match Tree::drop_closing_zeros(old) {
        Ok(tree) => has_both(&tree),
        Err(_error) => false,
    }
}

fn is_inserted(tree: &mut Tree, key: &Key, value: u64) -> bool {
    matches!(tree.insert_k(key, value), Ok(None))
}

fn are_brought_over(old: &mut Tree) -> bool {
    is_inserted(old, &Key::new_from_str_terminated("cat"), 1)
        && is_inserted(old, &Key::new_from_str_terminated("catalog"), 2)
        && has_counts(old, &[2, 2, 1, 2], &[(4, 1, 2)])
        && is_brought_over(old)
}

fn new_are_brought_over(alloc: Global) -> bool {
    let mut old = Tree::new(alloc);
    are_brought_over(&mut old)
}

#[test]
fn terminated_texts_become_texts_that_begin_one_another(rt: HostRuntime) {
    assert!(rt; new_are_brought_over(rt.alloc()));
}

static LETTERS: [&str; 7] = ["a\0", "b\0", "c\0", "d\0", "e\0", "ea\0", "eb\0"];

static OPEN: [&str; 3] = ["a\0", "b", "c\0"];

// A refused migration says `Memory`, and one whose requests are all granted gives the whole tree; whether a request was
// refused.
fn is_refused_well(alloc: Global, old: &Tree, at: usize) -> Option<bool> {
    refuse(alloc, at);
    let made = Tree::drop_closing_zeros(old);
    let refused = was_refused(alloc);
    let well = match made {
        Ok(tree) => !refused && holds(&tree, &["a", "b", "c", "d", "e", "ea", "eb"]),
        Err(error) => refused && error == MigrateError::Memory,
    };
    if well && holds(old, &LETTERS) {
        Some(refused)
    } else {
        None
    }
}

// The same where a key doesn't end in zero: it is reported wherever the walk could allocate.
fn open_is_refused_well(alloc: Global, old: &Tree, at: usize) -> Option<bool> {
    refuse(alloc, at);
    let made = Tree::drop_closing_zeros(old);
    let refused = was_refused(alloc);
    let well = match made {
        Ok(_tree) => false,
        Err(MigrateError::Memory) => refused,
        Err(error) => !refused && error == MigrateError::NotText { at: 1 },
    };
    if well && holds(old, &OPEN) {
        Some(refused)
    } else {
        None
    }
}

fn letters_are_swept(alloc: Global) -> bool {
    let old = filled(alloc, &LETTERS);
    is_swept(alloc, |at| is_refused_well(alloc, &old, at))
}

fn open_is_swept(alloc: Global) -> bool {
    let open = filled(alloc, &OPEN);
    is_swept(alloc, |at| open_is_refused_well(alloc, &open, at))
}

#[test]
fn migrations_refused_in_turn(rt: HostRuntime) {
    assert!(rt; letters_are_swept(rt.alloc()));
    assert!(rt; open_is_swept(rt.alloc()));
}

// How many requests were refused before none was; None where one failed.
fn count_refused_of_open(alloc: Global, old: &Tree) -> Option<usize> {
    for at in 1..100_usize {
        match open_is_refused_well(alloc, old, at) {
            Some(true) => {}
            Some(false) => {
                part_ends(alloc);
                return Some(at - 1);
            }
            None => return None,
        }
    }
    None
}

// How many requests of a walk over all pairs were refused before none was; None where one failed.
fn count_refused_of_walk(alloc: Global, old: &Tree) -> Option<usize> {
    for at in 1..100_usize {
        refuse(alloc, at);
        let started = old.iter().is_ok();
        let refused = was_refused(alloc);
        if started == refused {
            return None;
        }
        if !refused {
            part_ends(alloc);
            return Some(at - 1);
        }
    }
    None
}

// Whether exactly what a walk requests is requested, where a key has no closing zero: no node is made before all keys
// are tested. Where nothing can be refused, nothing is reported.
fn requests_no_node(alloc: Global, old: &Tree) -> bool {
    match (
        count_refused_of_open(alloc, old),
        count_refused_of_walk(alloc, old),
    ) {
        (Some(0), Some(0)) => true,
        (Some(many), Some(of_walk)) => of_walk > 0 && many == of_walk,
        _ => false,
    }
}

fn open_requests_no_node(alloc: Global) -> bool {
    let open = filled(alloc, &OPEN);
    requests_no_node(alloc, &open)
}

#[test]
fn all_keys_are_tested_before_a_node_is_made_refused_in_turn(rt: HostRuntime) {
    assert!(rt; open_requests_no_node(rt.alloc()));
}

#[test]
fn errors_of_migrations_say_what_was_refused(rt: HostRuntime) -> Result<(), Fail> {
    let alloc = rt.alloc();
    assert_eq!(rt;
        format!(in alloc; "{}", MigrateError::Memory)?.as_str(),
        "out of memory"
    );
    assert_eq!(rt;
        format!(in alloc; "{}", MigrateError::NotText { at: 3 })?.as_str(),
        "key 3 has no closing zero"
    );
    Ok(())
}
