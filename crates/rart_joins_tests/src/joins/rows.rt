//! Two trees, and the keys of both with both values: what the laws and the counted calls are compared with.

use rart::LendingKeyView;
use rart_test_trees::texts::Pair;

// A key of both trees, with the value of the one and of the other.
pub type Triple = (&'static str, u64, u64);

// The pairs of two trees; and what both have.
pub type Row = (&'static [Pair], &'static [Pair], &'static [Triple]);

// What callbacks were given so far: how many, and whether all of it was wanted.
#[derive(Drop)]
pub struct Given<'a> {
    wanted: &'a [Triple],
    swapped: bool,
    many: usize,
    well: bool,
}

impl<'a> Given<'a> {
    pub fn nothing(wanted: &'a [Triple], swapped: bool) -> Self {
        Given {
            wanted,
            swapped,
            many: 0,
            well: true,
        }
    }

    pub fn values(&mut self, left: u64, right: u64) {
        let (one, other) = if self.swapped {
            (right, left)
        } else {
            (left, right)
        };
        let as_wanted = match self.wanted.get(self.many) {
            Some(triple) => triple.1 == one && triple.2 == other,
            None => false,
        };
        self.well = self.well && as_wanted;
        self.many = self.many.wrapping_add(1);
    }

    pub fn pair(&mut self, key: &[u8], left: u64, right: u64) {
        let as_wanted = match self.wanted.get(self.many) {
            Some(triple) => triple.0.as_bytes() == key,
            None => false,
        };
        self.well = self.well && as_wanted;
        self.values(left, right);
    }

    pub fn view(&mut self, key: LendingKeyView<'_, '_>, left: u64, right: u64) {
        let as_wanted = match self.wanted.get(self.many) {
            Some(triple) => key.eq_slice(triple.0.as_bytes()),
            None => false,
        };
        self.well = self.well && as_wanted;
        self.values(left, right);
    }

    pub fn all(&self) -> bool {
        self.well && self.many == self.wanted.len()
    }

    pub fn is_uncalled(&self) -> bool {
        self.many == 0
    }
}

const BEGINNINGS: [Pair; 2] = [("", 1), ("b", 2)];

pub const WORDS: [Pair; 3] = [("ab", 1), ("abc", 2), ("dog", 3)];

pub const OTHER_WORDS: [Pair; 3] = [("abc", 20), ("dog", 30), ("zzz", 40)];

pub static ROWS: [Row; 10] = [
    (&[], &[], &[]),
    (&[], &WORDS, &[]),
    (&WORDS, &[], &[]),
    (
        &BEGINNINGS,
        &[("", 10), ("a", 20), ("b", 30)],
        &[("", 1, 10), ("b", 2, 30)],
    ),
    (
        &[("ab", 1), ("abcd", 2)],
        &[("abc", 3), ("abcd", 4)],
        &[("abcd", 2, 4)],
    ),
    (&[("a", 1)], &[("b", 2)], &[]),
    (&WORDS, &OTHER_WORDS, &[("abc", 2, 20), ("dog", 3, 30)]),
    (
        &WORDS,
        &WORDS,
        &[("ab", 1, 1), ("abc", 2, 2), ("dog", 3, 3)],
    ),
    // each key of one tree begins keys of the other
    (
        &[("a", 1), ("abc", 2), ("abcde", 3)],
        &[("ab", 4), ("abc", 5), ("abcd", 6), ("abcdef", 7)],
        &[("abc", 2, 5)],
    ),
    // prefixes of nodes that part in their midst, and one that ends in the midst of another
    (
        &[("prefix", 1), ("prelude", 2), ("press", 3)],
        &[("pre", 4), ("prelude", 5), ("press", 6), ("pretty", 7)],
        &[("prelude", 2, 5), ("press", 3, 6)],
    ),
];
