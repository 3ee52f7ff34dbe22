//! Where the views of a counted intersection are cut: after each stretch that both prefixes have, and after each edge
//! byte by which a longer prefix continues.

use crate::joins::rows::{OTHER_WORDS, WORDS};
use rart::{LendingKeyView, Seen, TreeError, Visits};
use rart_test_trees::texts::{Key, Pair, Tree, after, filled};
use std::alloc::Global;
use std::cell::Cell;

// The pairs of two trees; and the keys that both have, each with a bar after each of its segments and a semicolon at
// its end.
type Row = (&'static [Pair], &'static [Pair], &'static str);

const NESTED: [Pair; 4] = [("", 0), ("alpha", 1), ("alphabet", 2), ("alpine", 3)];

static ROWS: [Row; 9] = [
    (&WORDS, &OTHER_WORDS, "ab|c|;dog|;"),
    // one leaf each, with a stretch of eight bytes
    (&[("alphabet", 1)], &[("alphabet", 2)], "alphabet|;"),
    // an edge byte with three more bytes after it
    (&[("ab", 1), ("abcdef", 2)], &[("abcdef", 3)], "ab|c|def|;"),
    // two edge bytes of one tree within one prefix of the other
    (
        &[("ab", 1), ("abcdefgh", 2), ("abcdefghij", 3)],
        &[("abcdefghij", 4), ("abcdefghijklm", 5)],
        "ab|c|defgh|i|j|;",
    ),
    // an edge byte of the one tree, and then one of the other
    (
        &[("ab", 1), ("abcdefghij", 2)],
        &[("abcdef", 3), ("abcdefghij", 4)],
        "ab|c|def|g|hij|;",
    ),
    // three levels of nodes whose prefixes end together: the edge byte is not cut off
    (&NESTED, &NESTED, ";alp|ha|;alp|ha|bet|;alp|ine|;"),
    // an edge byte two levels down, beside a leaf that both trees have
    (
        &NESTED,
        &[("", 4), ("alphabet", 5), ("alpine", 6), ("b", 7)],
        ";alp|ha|b|et|;alp|ine|;",
    ),
    // an empty root prefix in one tree alone
    (
        &[("", 1), ("alphabet", 2)],
        &[("alphabet", 3)],
        "a|lphabet|;",
    ),
    (&[("", 1)], &[("", 2), ("a", 3)], ";"),
];

// More than any place in a text.
const PAST: usize = 1000;

// The place in the text after the key of this view; `PAST` where the view isn't cut as the text is.
fn next_cut(text: &[u8], at: usize, view: LendingKeyView<'_, '_>) -> usize {
    let Some(mut rest) = text.get(at..) else {
        return PAST;
    };
    for segment in view.segments() {
        match after(rest, *segment) {
            Some(left) => rest = left,
            None => return PAST,
        }
    }
    match rest {
        [b';', left @ ..] => text.len().wrapping_sub(left.len()),
        _ => PAST,
    }
}

fn seen(tree: &Tree) -> Seen<'_, Key, u64, Visits> {
    tree.seen()
}

fn counted(left: &Tree, right: &Tree, text: &[u8]) -> (Result<(), TreeError>, usize) {
    let at = Cell::new(0_usize);
    let answer = seen(left).intersect_lending_with_counted(
        right.seen(),
        |key: LendingKeyView<'_, '_>, _one: &u64, _other: &u64| {
            at.set(next_cut(text, at.get(), key));
        },
        &mut Visits::new(),
    );
    (answer, at.get())
}

fn counted_by_ref(left: &Tree, right: &Tree, text: &[u8]) -> (Result<(), TreeError>, usize) {
    let mut at = 0_usize;
    let mut cut = |key: LendingKeyView<'_, '_>, _one: &u64, _other: &u64| {
        at = next_cut(text, at, key);
    };
    let answer = seen(left).intersect_lending_with_by_ref_counted(
        right.seen(),
        &mut cut,
        &mut Visits::new(),
    );
    (answer, at)
}

fn is_cut(left: &Tree, right: &Tree, text: &[u8]) -> bool {
    let whole = (Ok(()), text.len());
    counted(left, right, text) == whole && counted_by_ref(left, right, text) == whole
}

fn is_cut_beside(alloc: Global, left: &Tree, row: &Row) -> bool {
    let text = row.2.as_bytes();
    match filled(alloc, row.1) {
        Some(right) => is_cut(left, &right, text) && is_cut(&right, left, text),
        None => false,
    }
}

fn is_row(alloc: Global, row: &Row) -> bool {
    match filled(alloc, row.0) {
        Some(left) => is_cut_beside(alloc, &left, row),
        None => false,
    }
}

// The first row that fails, if one does.
fn first_wrong(alloc: Global, rows: &[Row]) -> Option<usize> {
    let mut at = 0_usize;
    for row in rows {
        if !is_row(alloc, row) {
            return Some(at);
        }
        at = at.wrapping_add(1);
    }
    None
}

#[test]
fn a_counted_view_is_cut_after_each_shared_stretch_and_each_edge_byte(rt: HostRuntime) {
    assert_eq!(rt; first_wrong(rt.alloc(), &ROWS), None);
}
