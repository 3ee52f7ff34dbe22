//! Calls, each made from a seed and its number alone, so that any list of them can be played again.
use crate::numbers::{Numbers, low_byte};
use crate::text::Text;

/// A call: what is done, on which tree, and with what.
#[derive(Clone, Copy)]
pub struct Call {
    /// Which call it is, below `KINDS`.
    pub kind: u64,
    /// Whether it is made on the second tree.
    pub on_second: bool,
    /// Whether the stored key at or after `key` replaces it.
    pub is_near: bool,
    /// The key, or the start.
    pub key: Text,
    /// Another key, or the end.
    pub end: Text,
    /// The value.
    pub value: u64,
    /// What else the call chooses.
    pub choice: u64,
}

/// How many kinds of calls there are.
pub const KINDS: u64 = 48;

/// Whether the call makes a tree of a list.
pub fn takes_a_list(call: &Call) -> bool {
    call.kind == 32 || call.kind == 33 || call.kind == 40
}

/// Whether the call makes a tree of its own.
pub fn makes_a_tree(call: &Call) -> bool {
    takes_a_list(call) || call.kind == 46
}

/// Whether it edits the pairs of a part of a tree.
pub fn edits_a_part(call: &Call) -> bool {
    call.kind == 47
}

/// Whether it edits a tree.
pub fn is_edit(call: &Call) -> bool {
    call.kind < 9 || call.kind == 41 || edits_a_part(call)
}

// What is done mostly while a tree grows, shrinks, and in between.
const GROWING: [u64; 8] = [0, 1, 2, 3, 7, 8, 0, 6];

const SHRINKING: [u64; 8] = [4, 5, 4, 5, 7, 8, 4, 5];

// How many calls a tree grows before it shrinks.
fn period(seed: u64) -> u64 {
    match seed % 4 {
        0 => 200,
        1 => 1_500,
        2 => 600,
        _ if seed % 8 == 7 => 90_000,
        _ => 12_000,
    }
}

fn mostly(row: &[u64; 8], numbers: &mut Numbers) -> u64 {
    let place = numbers.below(8) as usize;
    row.get(place).copied().unwrap_or(0)
}

fn kind_at(seed: u64, number: u64, numbers: &mut Numbers) -> u64 {
    let phase = number.checked_div(period(seed)).unwrap_or(0) % 4;
    let any = numbers.below(KINDS);
    if numbers.below(4) == 0 {
        return any;
    }
    match phase {
        0 => mostly(&GROWING, numbers),
        2 => mostly(&SHRINKING, numbers),
        _ => any,
    }
}

fn fill(text: &mut Text, byte: u8, count: u64) {
    for _ in 0..count {
        text.push(byte);
    }
}

// A byte of few, of the borders, or of all.
fn some_byte(numbers: &mut Numbers) -> u8 {
    match numbers.below(8) {
        0 => 0,
        1 => 255,
        2 | 3 => numbers.byte(),
        _ => b'a'.wrapping_add(low_byte(numbers.below(3))),
    }
}

// Few letters, so that keys begin each other.
fn few_letters(numbers: &mut Numbers, most: u64) -> Text {
    let mut text = Text::new();
    for _ in 0..numbers.below(most.wrapping_add(1).min(9)) {
        text.push(some_byte(numbers));
    }
    text
}

// A prefix that many share, and one byte of all.
fn wide(numbers: &mut Numbers, most: u64) -> Text {
    let mut text = Text::new();
    let depth = numbers.below(3).min(most.saturating_sub(1));
    fill(&mut text, b'w', depth);
    if most > 0 {
        text.push(numbers.byte());
    }
    text
}

// A long prefix that all share, left at some depth.
fn deep(numbers: &mut Numbers, most: u64) -> Text {
    let mut text = Text::new();
    let depth = numbers.below(most);
    fill(&mut text, b'd', depth);
    for _ in 0..numbers
        .below(most.saturating_sub(depth).wrapping_add(1))
        .min(4)
    {
        text.push(some_byte(numbers));
    }
    text
}

// Bytes of all kinds, up to the full width.
fn full(numbers: &mut Numbers, most: u64) -> Text {
    let mut text = Text::new();
    let len = if numbers.below(2) == 0 {
        most
    } else {
        numbers.below(most.wrapping_add(1))
    };
    for _ in 0..len {
        text.push(numbers.byte());
    }
    text
}

// Three bytes, of which there are many.
fn many(numbers: &mut Numbers, most: u64) -> Text {
    let mut text = Text::new();
    for _ in 0..most.min(3) {
        text.push(numbers.byte() & 0x7f);
    }
    text
}

/// A key of at most `most` bytes.
fn some_key(seed: u64, numbers: &mut Numbers, most: u64) -> Text {
    let way = numbers.below(16);
    if seed % 4 == 3 && way > 3 {
        return many(numbers, most);
    }
    match way {
        0..5 => few_letters(numbers, most),
        5..10 => wide(numbers, most),
        10..12 => deep(numbers, most),
        12 => Text::new(),
        13 => many(numbers, most),
        _ => full(numbers, most),
    }
}

/// The call of this number, with keys of at most `most` bytes.
pub fn call_at(seed: u64, number: u64, most: u64) -> Call {
    let mut numbers = Numbers::new(seed, number);
    let kind = kind_at(seed, number, &mut numbers);
    let key = some_key(seed, &mut numbers, most);
    let end = some_key(seed, &mut numbers, most);
    Call {
        kind,
        on_second: numbers.below(4) == 0,
        is_near: numbers.below(8) > 2 && (kind > 3),
        key,
        end,
        value: numbers.next(),
        choice: numbers.next(),
    }
}
