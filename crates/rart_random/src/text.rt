//! Byte strings of a model: at most 40 bytes, compared byte by byte.
use std::cmp::Ordering;

/// At most 40 bytes.
#[derive(Clone, Copy)]
pub struct Text {
    bytes: [u8; 40],
    len: usize,
}

impl Text {
    /// No bytes.
    pub fn new() -> Self {
        Text {
            bytes: [0; 40],
            len: 0,
        }
    }

    /// Appends a byte where one fits.
    pub fn push(&mut self, byte: u8) {
        if let Some(place) = self.bytes.get_mut(self.len) {
            *place = byte;
            self.len = self.len.wrapping_add(1);
        }
    }

    /// The bytes.
    pub fn as_slice(&self) -> &[u8] {
        &self.bytes[..self.len.min(40)]
    }

    /// How many bytes there are.
    pub fn len(&self) -> usize {
        self.len.min(40)
    }

    /// The first `len` bytes, or all.
    pub fn cut(&self, len: usize) -> Self {
        Text {
            bytes: self.bytes,
            len: self.len.min(len),
        }
    }

    /// How many first bytes are those of `other`.
    pub fn shared(&self, other: &Text) -> usize {
        let least = self.len().min(other.len());
        for at in 0..least {
            if self.bytes.get(at) != other.bytes.get(at) {
                return at;
            }
        }
        least
    }

    /// Whether these bytes begin `other`.
    pub fn begins(&self, other: &Text) -> bool {
        self.shared(other) == self.len()
    }

    /// The order of the bytes, from the front.
    pub fn order(&self, other: &Text) -> Ordering {
        let at = self.shared(other);
        match (self.as_slice().get(at), other.as_slice().get(at)) {
            (None, None) => Ordering::Equal,
            (None, Some(_)) => Ordering::Less,
            (Some(_), None) => Ordering::Greater,
            (Some(one), Some(two)) => {
                if *one < *two {
                    Ordering::Less
                } else {
                    Ordering::Greater
                }
            }
        }
    }
}
