//! The words of a row: keys, numbers and bounds.

use rart::KeyTrait;
use rart_lines::next_word;
use std::ops::Bound;

/// The most bytes that a word writes.
const ROOM: usize = 1040;

/// The bytes that a word writes. They are inline, so that no row requests memory.
#[derive(Clone, Copy)]
pub struct Bytes {
    stored: [u8; ROOM],
    len: usize,
    /// Whether a byte found no place.
    is_cut: bool,
}

impl Bytes {
    /// No bytes.
    pub fn new() -> Self {
        Bytes {
            stored: [0; ROOM],
            len: 0,
            is_cut: false,
        }
    }

    /// These bytes, or the first of them.
    pub fn of(bytes: &[u8]) -> Self {
        let mut copy = Bytes::new();
        for byte in bytes {
            copy.push(*byte);
        }
        copy
    }

    pub fn as_slice(&self) -> &[u8] {
        &self.stored[..self.len.min(ROOM)]
    }

    pub fn push(&mut self, byte: u8) {
        match self.stored.get_mut(self.len) {
            Some(place) => {
                *place = byte;
                self.len = self.len.wrapping_add(1);
            }
            None => self.is_cut = true,
        }
    }

    fn push_run(&mut self, byte: u8, count: u64) {
        for _ in 0..count.min(ROOM as u64) {
            self.push(byte);
        }
    }
}

/// The key of these bytes, unless they are too many.
pub fn key_of<K: KeyTrait>(bytes: &[u8]) -> Option<K> {
    match K::MAXIMUM_SIZE {
        Some(maximum) if maximum < bytes.len() => None,
        _ => Some(K::new_from_slice(bytes)),
    }
}

/// The same key once more.
pub fn same_key<K: KeyTrait>(key: &K) -> K {
    key.truncate(key.as_ref().len())
}

/// What kind of bound a row names.
#[derive(Clone, Copy)]
pub enum End {
    Open,
    In,
    Out,
}

/// The bound of this kind at a key.
pub fn bound_of<K: KeyTrait>(key: &K, end: End) -> Bound<K> {
    match end {
        End::Open => Bound::Unbounded,
        End::In => Bound::Included(same_key(key)),
        End::Out => Bound::Excluded(same_key(key)),
    }
}

/// The bound of this kind at bytes.
pub fn bytes_bound(bytes: &[u8], end: End) -> Bound<&[u8]> {
    match end {
        End::Open => Bound::Unbounded,
        End::In => Bound::Included(bytes),
        End::Out => Bound::Excluded(bytes),
    }
}

/// The words of a line that were not read yet.
#[derive(Clone, Copy)]
pub struct Words<'a> {
    rest: &'a [u8],
    /// Whether a word was missing or malformed.
    is_bad: bool,
}

/// The digit of a byte; 16 where it is none.
fn hex_digit(byte: u8) -> u8 {
    match byte {
        b'0'..=b'9' => byte.wrapping_sub(b'0'),
        b'a'..=b'f' => byte.wrapping_sub(b'a').wrapping_add(10),
        _ => 16,
    }
}

/// The number that all these bytes write in decimal.
pub fn number_of(text: &[u8]) -> Option<u64> {
    if text.is_empty() {
        return None;
    }
    let mut number = 0_u64;
    for byte in text {
        if !byte.is_ascii_digit() {
            return None;
        }
        let digit = u64::from(byte.wrapping_sub(b'0'));
        number = number.checked_mul(10)?.checked_add(digit)?;
    }
    Some(number)
}

// The byte of `\xNN`, and what is after it.
fn escaped(word: &[u8]) -> Option<(u8, &[u8])> {
    match word {
        [b'\\', b'x', high, low, rest @ ..] => {
            let (high, low) = (hex_digit(*high), hex_digit(*low));
            if high > 15 || low > 15 {
                return None;
            }
            Some((high.wrapping_mul(16).wrapping_add(low), rest))
        }
        _ => None,
    }
}

// The byte that a word begins with, written as itself or as `\xNN`, and what is after it.
fn first_byte(word: &[u8]) -> Option<(u8, &[u8])> {
    match word {
        [b'\\', ..] => escaped(word),
        [byte, rest @ ..] => Some((*byte, rest)),
        [] => None,
    }
}

// The byte and the count of `a*9}`, and what is after it.
fn run_of(word: &[u8]) -> Option<(u8, u64, &[u8])> {
    let (byte, rest) = first_byte(word)?;
    let rest = rest.strip_prefix(b"*")?;
    let end = rest.iter().position(|one| *one == b'}')?;
    let number = number_of(rest.get(..end)?)?;
    Some((byte, number, rest.get(end.checked_add(1)?..)?))
}

// Adds the first byte of a word, or the run of bytes that begins it, and returns what is after it.
fn read_first<'a>(word: &'a [u8], bytes: &mut Bytes) -> Option<&'a [u8]> {
    if let [b'{', rest @ ..] = word {
        let (byte, count, rest) = run_of(rest)?;
        bytes.push_run(byte, count);
        return Some(rest);
    }
    let (byte, rest) = first_byte(word)?;
    bytes.push(byte);
    Some(rest)
}

/// The bytes that a word writes: `-` none, `\x07` the byte 7, `{a*20}` twenty bytes `a`.
pub fn bytes_of(word: &[u8]) -> Option<Bytes> {
    let mut bytes = Bytes::new();
    let mut rest = word;
    if word == b"-".as_slice() {
        rest = b"".as_slice();
    }
    for _ in 0..rest.len() {
        if !rest.is_empty() {
            rest = read_first(rest, &mut bytes)?;
        }
    }
    (!bytes.is_cut && !word.is_empty()).then_some(bytes)
}

impl<'a> Words<'a> {
    pub fn new(line: &'a [u8]) -> Self {
        Words {
            rest: line,
            is_bad: false,
        }
    }

    /// Whether all words were read, each well.
    pub fn are_read(&self) -> bool {
        !self.is_bad && next_word(self.rest).is_none()
    }

    /// The next word; nothing if there is none.
    pub fn next(&mut self) -> &'a [u8] {
        match next_word(self.rest) {
            Some((word, rest)) => {
                self.rest = rest;
                word
            }
            None => {
                self.is_bad = true;
                self.rest
            }
        }
    }

    /// All words that are left.
    pub fn all(&mut self) -> &'a [u8] {
        let all = self.rest;
        self.rest = b"".as_slice();
        all
    }

    /// Notes that a word is malformed.
    pub fn refuse(&mut self) {
        self.is_bad = true;
    }

    pub fn number(&mut self) -> u64 {
        match number_of(self.next()) {
            Some(number) => number,
            None => {
                self.is_bad = true;
                0
            }
        }
    }

    pub fn bytes(&mut self) -> Bytes {
        match bytes_of(self.next()) {
            Some(bytes) => bytes,
            None => {
                self.is_bad = true;
                Bytes::new()
            }
        }
    }

    /// The kind of a bound: `..`, `in` or `out`.
    pub fn end(&mut self) -> End {
        match self.next() {
            b".." => End::Open,
            b"in" => End::In,
            b"out" => End::Out,
            _ => {
                self.is_bad = true;
                End::Open
            }
        }
    }
}
