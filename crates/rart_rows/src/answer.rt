//! The answer of a call, as text.

use crate::digits::Digits;
use crate::words::Bytes;
use rart::{LendingKeyView, TreeError, TreeStats};
use std::alloc::Global;
use std::fmt;

/// The most bytes of an answer; they are requested once, so that no answer requests memory.
const ROOM: usize = 1 << 18;

/// A key of this many equal bytes, or more, is written with their count.
const LONG: u64 = 16;

/// The last items of a list, where each follows the one before it: its value is one more, and so is the last byte of
/// its key. The third and later ones of a run are written as `first .. last`.
#[derive(Clone, Copy)]
struct Run {
    key: Bytes,
    value: u64,
    /// How many items it has; 0 before the first.
    len: u64,
    /// The length of the text after its first item.
    after_first: usize,
}

// Whether two keys differ by one in their last byte, or both are empty.
fn is_next(one: &[u8], other: &[u8]) -> bool {
    match (one.split_last(), other.split_last()) {
        (Some((last, front)), Some((next, same))) => {
            front == same && u64::from(*last).wrapping_add(1) == u64::from(*next)
        }
        (None, None) => true,
        _ => false,
    }
}

impl Run {
    fn new() -> Self {
        Run {
            key: Bytes::new(),
            value: 0,
            len: 0,
            after_first: 0,
        }
    }

    fn is_followed_by(&self, key: &[u8], value: u64) -> bool {
        self.len > 0 && self.value.wrapping_add(1) == value && is_next(self.key.as_slice(), key)
    }

    // Notes an item, after which the text has this length.
    fn note(&mut self, follows: bool, key: &[u8], value: u64, len: usize) {
        if follows {
            self.len = self.len.wrapping_add(1);
        } else {
            self.len = 1;
            self.after_first = len;
        }
        self.key = Bytes::of(key);
        self.value = value;
    }
}

/// The text of an answer.
#[derive(Drop)]
pub struct Answer {
    text: Vec<u8>,
    run: Run,
    /// Whether the call failed for want of memory, and returned what it was offered.
    is_refusal: bool,
    /// Whether a callback was called before that.
    is_late: bool,
}

fn hex(nibble: u8) -> u8 {
    if nibble < 10 {
        b'0'.wrapping_add(nibble)
    } else {
        b'a'.wrapping_add(nibble.wrapping_sub(10))
    }
}

// Whether a byte of a key stands for itself.
fn is_plain(byte: u8) -> bool {
    byte.is_ascii_graphic()
        && !matches!(byte, b'-' | b'\\' | b'=' | b'|' | b'{' | b'}' | b',' | b'#')
}

impl Answer {
    pub fn new(alloc: Global) -> Self {
        let mut text = Vec::new(alloc);
        let _reserved = text.reserve(ROOM);
        Answer {
            text,
            run: Run::new(),
            is_refusal: false,
            is_late: false,
        }
    }

    pub fn clear(&mut self) {
        self.text.clear();
        self.run.len = 0;
        self.is_refusal = false;
        self.is_late = false;
    }

    pub fn as_slice(&self) -> &[u8] {
        self.text.as_slice()
    }

    pub fn is_refusal(&self) -> bool {
        self.is_refusal
    }

    /// Whether it is a refusal before which nothing was called.
    pub fn is_refusal_alone(&self) -> bool {
        self.is_refusal && !self.is_late
    }

    pub fn put(&mut self, text: &[u8]) {
        let _put = self.text.extend_from_slice(text);
    }

    fn space(&mut self) {
        if !self.text.is_empty() {
            self.put(b" ");
        }
    }

    pub fn word(&mut self, text: &[u8]) {
        self.space();
        self.put(text);
        self.run.len = 0;
    }

    /// A word for a list without an item.
    pub fn end(&mut self) {
        if self.text.is_empty() {
            self.put(b"empty");
        }
    }

    /// Says that an iterator gave something after its end, if it did.
    pub fn ended(&mut self, is_over: bool) {
        self.end();
        if !is_over {
            self.word(b"more");
        }
    }

    pub fn digits(&mut self, number: u64) {
        self.put(Digits::new(number).as_slice());
    }

    pub fn number(&mut self, number: u64) {
        self.space();
        self.digits(number);
    }

    pub fn count(&mut self, count: usize) {
        self.number(count as u64);
    }

    fn byte(&mut self, byte: u8) {
        if is_plain(byte) {
            self.put(&[byte]);
        } else {
            self.put(&[b'\\', b'x', hex(byte / 16), hex(byte % 16)]);
        }
    }

    fn run(&mut self, byte: u8, count: u64) {
        if count < LONG {
            for _ in 0..count {
                self.byte(byte);
            }
            return;
        }
        self.put(b"{");
        self.byte(byte);
        self.put(b"*");
        self.digits(count);
        self.put(b"}");
    }

    fn key(&mut self, bytes: &[u8]) {
        if bytes.is_empty() {
            self.put(b"-");
        }
        let mut last = 0_u8;
        let mut count = 0_u64;
        for byte in bytes {
            if *byte != last {
                self.run(last, count);
                last = *byte;
                count = 0;
            }
            count = count.wrapping_add(1);
        }
        self.run(last, count);
    }

    pub fn truth(&mut self, truth: bool) {
        self.word(if truth { b"yes".as_slice() } else { b"no" });
    }

    pub fn value(&mut self, value: Option<u64>) {
        match value {
            Some(value) => self.number(value),
            None => self.word(b"none"),
        }
    }

    // Begins an item of a list, and returns whether it follows the one before it.
    fn begins_item(&mut self, key: &[u8], value: u64) -> bool {
        let follows = self.run.is_followed_by(key, value);
        if follows && self.run.len > 1 {
            self.text.truncate(self.run.after_first);
            self.put(b" ..");
        }
        self.space();
        follows
    }

    /// A pair of a list.
    pub fn pair(&mut self, key: &[u8], value: u64) {
        let follows = self.begins_item(key, value);
        self.key(key);
        self.put(b"=");
        self.digits(value);
        self.run.note(follows, key, value, self.text.len());
    }

    /// A key without a value, or `none`.
    pub fn bare_key(&mut self, key: Option<&[u8]>) {
        match key {
            Some(bytes) => {
                self.space();
                self.key(bytes);
            }
            None => self.word(b"none"),
        }
    }

    /// A value of a list.
    pub fn item(&mut self, value: u64) {
        let follows = self.begins_item(b"", value);
        self.digits(value);
        self.run.note(follows, b"", value, self.text.len());
    }

    /// The values of a pair of two trees.
    pub fn two_values(&mut self, left: u64, right: u64) {
        self.number(left);
        self.put(b",");
        self.digits(right);
    }

    /// A pair of two trees.
    pub fn pair_of_two(&mut self, key: &[u8], left: u64, right: u64) {
        self.space();
        self.key(key);
        self.put(b"=");
        self.digits(left);
        self.put(b",");
        self.digits(right);
    }

    /// A key of either tree, and its value in each.
    pub fn pair_of_either(&mut self, key: &[u8], left: Option<u64>, right: Option<u64>) {
        self.space();
        self.key(key);
        self.put(b"=");
        self.digits_or_none(left);
        self.put(b",");
        self.digits_or_none(right);
    }

    fn digits_or_none(&mut self, value: Option<u64>) {
        match value {
            Some(value) => self.digits(value),
            None => self.put(b"none"),
        }
    }

    pub fn error(&mut self, error: TreeError) {
        match error {
            TreeError::Memory => self.refusal(b"memory"),
            TreeError::Full => self.word(b"full"),
        }
    }

    /// The refusal of an insertion, which must return the value that it was offered.
    pub fn returned(&mut self, error: TreeError, value: u64, offered: u64) {
        self.error(error);
        if value != offered {
            self.number(value);
            self.is_refusal = false;
        }
    }

    /// A refusal, by its name.
    pub fn refusal(&mut self, name: &[u8]) {
        self.is_late = !self.text.is_empty();
        self.word(name);
        self.is_refusal = true;
    }

    /// The segments of a key.
    pub fn segments(&mut self, view: LendingKeyView<'_, '_>) {
        self.space();
        let mut is_first = true;
        for segment in view.segments() {
            if !is_first {
                self.put(b"|");
            }
            is_first = false;
            self.key(segment);
        }
        if is_first {
            self.put(b"-");
        }
    }

    pub fn view(&mut self, view: LendingKeyView<'_, '_>, value: u64) {
        self.segments(view);
        self.put(b"=");
        self.digits(value);
    }

    /// The segments of a key of two trees, and its values.
    pub fn view_of_two(&mut self, view: LendingKeyView<'_, '_>, left: u64, right: u64) {
        self.view(view, left);
        self.put(b",");
        self.digits(right);
    }

    fn named(&mut self, name: &[u8], count: usize) {
        self.word(name);
        self.count(count);
    }

    pub fn stats(&mut self, stats: &TreeStats) {
        self.named(b"leaves", stats.num_leaves);
        self.named(b"values", stats.num_values);
        self.named(b"inner", stats.num_inner_nodes);
        self.named(b"children", stats.total_children);
        self.named(b"width", stats.total_width);
        self.named(b"height", stats.max_height);
        for (width, of_width) in &stats.node_stats {
            self.word(b"w");
            self.digits(*width as u64);
            self.put(b":");
            self.digits(of_width.total_nodes as u64);
            self.put(b"/");
            self.digits(of_width.total_children as u64);
        }
    }
}

impl fmt::Write for Answer {
    /// Writes a text with a bar in place of each end of a line.
    fn write_str(&mut self, text: &str) -> fmt::Result {
        for byte in text.as_bytes() {
            self.put(&[if *byte == b'\n' { b'|' } else { *byte }]);
        }
        Ok(())
    }
}
