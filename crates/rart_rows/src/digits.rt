//! Numbers as text.

/// A number in decimal.
#[derive(Clone, Copy)]
pub struct Digits {
    stored: [u8; 20],
    len: usize,
}

impl Digits {
    pub fn new(number: u64) -> Self {
        let mut stored = [b'0'; 20];
        let mut left = number;
        let mut len = 1_usize;
        for place in 1..=20_usize {
            if let Some(digit) = stored.get_mut(20_usize.wrapping_sub(place)) {
                *digit = b'0'.wrapping_add((left % 10) as u8);
            }
            if left > 0 {
                len = place;
            }
            left /= 10;
        }
        Digits { stored, len }
    }

    pub fn as_slice(&self) -> &[u8] {
        &self.stored[20_usize.saturating_sub(self.len).min(20)..]
    }
}
