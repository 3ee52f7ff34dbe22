//! Cases, one a line: the key type, the seed, how many calls, and one of how many is refused memory.
use crate::play::Case;

/// The numbers of a line that were read so far.
#[derive(Clone, Copy)]
pub struct Line {
    numbers: [u64; 4],
    at: usize,
}

impl Line {
    /// A line of which nothing was read.
    pub fn new() -> Self {
        Line {
            numbers: [0; 4],
            at: 0,
        }
    }

    fn number(&self, place: usize) -> u64 {
        self.numbers.get(place).copied().unwrap_or(0)
    }

    /// Reads a digit, or a blank before the next number.
    pub fn read(&mut self, byte: u8) {
        if !byte.is_ascii_digit() {
            self.at = self.at.wrapping_add(1);
            return;
        }
        if let Some(place) = self.numbers.get_mut(self.at) {
            *place = place
                .wrapping_mul(10)
                .wrapping_add(u64::from(byte.wrapping_sub(b'0')));
        }
    }

    /// The case of the line.
    pub fn case(&self) -> Case {
        Case {
            keys: self.number(0),
            seed: self.number(1),
            calls: self.number(2),
            refused: self.number(3),
        }
    }
}
