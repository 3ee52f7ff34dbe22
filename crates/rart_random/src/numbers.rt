//! Numbers that look random, and sums that represent answers.

/// A source of numbers: the same for the same seed and number.
#[derive(Clone, Copy)]
pub struct Numbers {
    state: u64,
}

impl Numbers {
    /// The source of the call of this number.
    pub fn new(seed: u64, number: u64) -> Self {
        Numbers {
            state: mix(mix(0x243f_6a88_85a3_08d3, seed), number),
        }
    }

    /// The next number.
    pub fn next(&mut self) -> u64 {
        self.state = self.state.wrapping_add(0x9e37_79b9_7f4a_7c15);
        scramble(self.state)
    }

    /// The next number, below `end`; 0 if `end` is 0.
    pub fn below(&mut self, end: u64) -> u64 {
        self.next().checked_rem(end).unwrap_or(0)
    }

    /// The next byte.
    pub fn byte(&mut self) -> u8 {
        low_byte(self.next())
    }
}

/// The last byte of a number.
pub fn low_byte(number: u64) -> u8 {
    (number % 256) as u8
}

fn scramble(number: u64) -> u64 {
    let first = (number ^ (number >> 30)).wrapping_mul(0xbf58_476d_1ce4_e5b9);
    let second = (first ^ (first >> 27)).wrapping_mul(0x94d0_49bb_1331_11eb);
    second ^ (second >> 31)
}

/// The sum of what came before and of `next`. It depends on the order.
pub fn mix(sum: u64, next: u64) -> u64 {
    scramble(sum.wrapping_mul(3).wrapping_add(next).wrapping_add(1))
}

/// The sum with these bytes and their number.
pub fn mix_bytes(mut sum: u64, bytes: &[u8]) -> u64 {
    for byte in bytes {
        sum = mix(sum, u64::from(*byte));
    }
    mix(sum, bytes.len() as u64)
}

/// The sum with a key and its value.
pub fn mix_pair(sum: u64, key: &[u8], value: u64) -> u64 {
    mix(mix_bytes(sum, key), value)
}

/// The sum of an answer that may be none.
pub fn sum_of(answer: Option<u64>) -> u64 {
    match answer {
        Some(value) => mix(7, value),
        None => 5,
    }
}

/// The sum of a yes or no.
pub fn sum_if(answer: bool) -> u64 {
    if answer { 3 } else { 2 }
}
