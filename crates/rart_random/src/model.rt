//! The slow map beside a tree: a list of pairs in the order of their keys.
pub mod edits;
pub mod reads;
pub mod turns;
pub mod views;

use crate::numbers::{mix, mix_pair};
use crate::text::Text;
use std::alloc::Global;
use std::cmp::Ordering;

/// A key and its value.
pub type Pair = (Text, u64);

/// Where a search in the list ends.
#[derive(Clone, Copy)]
pub enum Mark {
    /// Before the key.
    Before,
    /// After the key.
    After,
    /// After all keys that begin with it.
    Below,
}

/// A list of pairs in the order of their keys.
#[derive(Drop)]
pub struct Model {
    pairs: Vec<Pair>,
}

fn is_before(key: &Text, text: &Text, mark: Mark) -> bool {
    match (mark, key.order(text)) {
        (_, Ordering::Less) => true,
        (Mark::Before, _) => false,
        (_, Ordering::Equal) => true,
        (Mark::After, _) => false,
        (Mark::Below, _) => text.begins(key),
    }
}

impl Model {
    /// An empty list.
    pub fn new(alloc: Global) -> Self {
        Model {
            pairs: Vec::new(alloc),
        }
    }

    /// How many pairs there are.
    pub fn len(&self) -> usize {
        self.pairs.len()
    }

    /// The pair at a place.
    pub fn at(&self, place: usize) -> Option<Pair> {
        self.pairs.get(place).copied()
    }

    fn is_before_at(&self, place: usize, text: &Text, mark: Mark) -> bool {
        match self.pairs.get(place) {
            Some(pair) => is_before(&pair.0, text, mark),
            None => false,
        }
    }

    /// How many pairs come before the mark.
    pub fn search(&self, text: &Text, mark: Mark) -> usize {
        let mut low = 0_usize;
        let mut high = self.pairs.len();
        for _ in 0..64_u8 {
            if low >= high {
                return low;
            }
            let middle = low.midpoint(high);
            if self.is_before_at(middle, text, mark) {
                low = middle.wrapping_add(1);
            } else {
                high = middle;
            }
        }
        low
    }

    fn place_of(&self, key: &Text) -> Option<usize> {
        let place = self.search(key, Mark::Before);
        match self.pairs.get(place) {
            Some(pair) if pair.0.order(key) == Ordering::Equal => Some(place),
            _ => None,
        }
    }

    /// The value at a key.
    pub fn get(&self, key: &Text) -> Option<u64> {
        let place = self.place_of(key)?;
        self.pairs.get(place).map(|pair| pair.1)
    }

    /// Puts a value at a key, and returns the old one.
    pub fn put(&mut self, key: &Text, value: u64) -> Option<u64> {
        let place = self.search(key, Mark::Before);
        if let Some(pair) = self.pairs.get_mut(place) {
            if pair.0.order(key) == Ordering::Equal {
                let old = pair.1;
                pair.1 = value;
                return Some(old);
            }
        }
        if place <= self.pairs.len() {
            let _ = self.pairs.insert(place, (*key, value));
        }
        None
    }

    /// Removes a key, and returns its value.
    pub fn remove(&mut self, key: &Text) -> Option<u64> {
        let place = self.place_of(key)?;
        if place < self.pairs.len() {
            return Some(self.pairs.remove(place).1);
        }
        None
    }

    /// Puts a pair at a place.
    pub fn set(&mut self, place: usize, pair: Pair) {
        if let Some(old) = self.pairs.get_mut(place) {
            *old = pair;
        }
    }

    /// Removes the pairs from a place on.
    pub fn cut(&mut self, len: usize) {
        self.pairs.truncate(len);
    }

    /// Removes the pairs from a place to another.
    pub fn remove_span(&mut self, from: usize, to: usize) {
        let mut kept = from;
        for place in to..self.len() {
            if let Some(pair) = self.at(place) {
                self.set(kept, pair);
                kept = kept.wrapping_add(1);
            }
        }
        self.cut(kept);
    }

    /// Removes all pairs, and returns how many there were.
    pub fn clear(&mut self) -> u64 {
        let count = self.pairs.len();
        self.pairs.clear();
        count as u64
    }

    /// The sum of the pairs from a place to another, or of their values alone.
    pub fn sum(&self, from: usize, to: usize, with_keys: bool) -> u64 {
        let mut sum = 1_u64;
        for place in from..to {
            if let Some(pair) = self.pairs.get(place) {
                sum = if with_keys {
                    mix_pair(sum, pair.0.as_slice(), pair.1)
                } else {
                    mix(sum, pair.1)
                };
            }
        }
        sum
    }

    /// The sum of the pairs from a place to another, the last first.
    pub fn sum_back(&self, from: usize, to: usize) -> u64 {
        let mut sum = 1_u64;
        let mut after = to;
        for _ in from..to {
            after = after.wrapping_sub(1);
            if let Some(pair) = self.pairs.get(after) {
                sum = mix_pair(sum, pair.0.as_slice(), pair.1);
            }
        }
        sum
    }

    /// The stored key at or after `text`, else the first, else `text`.
    pub fn near(&self, text: &Text) -> Text {
        let place = self.search(text, Mark::Before);
        match self.at(place).or(self.at(0)) {
            Some(pair) => pair.0,
            None => *text,
        }
    }

    /// The places of the keys that begin with `prefix`.
    pub fn below(&self, prefix: &Text) -> (usize, usize) {
        (
            self.search(prefix, Mark::Before),
            self.search(prefix, Mark::Below),
        )
    }
}
