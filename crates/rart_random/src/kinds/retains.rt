//! Removals of all pairs that a rule rejects, from a tree and from its model.
use crate::call::Call;
use crate::kinds::edits::WRONG;
use crate::model::{Model, Pair};
use crate::numbers::{low_byte, mix_pair};
use crate::sides::{Tree, key_of};
use crate::text::Text;
use rart::{KeyTrait, TreeError};
use std::ops::Bound;

/// Which pairs are kept, and what is written over their values. A pair is rejected if a byte of its key and its value
/// have the bits of the rule.
#[derive(Clone, Copy)]
struct Rule {
    // Which byte of the key; the last one of a shorter key.
    at: usize,
    byte: u8,
    byte_mask: u8,
    value: u64,
    value_mask: u64,
}

/// The most pairs of a tree of which many may be removed: a larger one shall grow.
pub const FEW: usize = 400;

fn byte_mask(choice: u64) -> u8 {
    match choice % 4 {
        0 => 0,
        1 => 1,
        2 => 3,
        _ => 255,
    }
}

fn value_mask(choice: u64, len: usize) -> u64 {
    match choice % 8 {
        _ if len > FEW => 1023,
        0 => 0,
        1 => 1,
        2 | 3 => 7,
        4 | 5 => 63,
        _ => 1023,
    }
}

impl Rule {
    // The rule of the call on a tree of `len` pairs.
    fn new(call: &Call, len: usize) -> Self {
        Rule {
            at: ((call.choice >> 8) % 4) as usize,
            byte: low_byte(call.choice >> 32),
            byte_mask: byte_mask(call.choice >> 16),
            value: call.value,
            value_mask: value_mask(call.choice >> 24, len),
        }
    }

    fn keeps(&self, key: &[u8], value: u64) -> bool {
        let byte = key.get(self.at).or(key.last()).copied().unwrap_or(0);
        (byte ^ self.byte) & self.byte_mask != 0 || (value ^ self.value) & self.value_mask != 0
    }

    // What is written over a value: never the same.
    fn written(&self, value: u64) -> u64 {
        value.wrapping_add(self.value | 1)
    }

    // Writes over the value of a pair, and returns whether the pair is kept.
    fn call(&self, key: &[u8], value: &mut u64) -> bool {
        let is_kept = self.keeps(key, *value);
        *value = self.written(*value);
        is_kept
    }
}

// What the answer is worth: none if memory was refused.
fn answered(answer: Result<(), TreeError>, sum: u64) -> Option<u64> {
    match answer {
        Ok(()) => Some(sum),
        Err(TreeError::Memory) => None,
        Err(TreeError::Full) => Some(WRONG),
    }
}

/// The sum of the pairs that the callback was called with.
pub fn retain<K: KeyTrait + Drop>(tree: &mut Tree<K>, call: &Call) -> Option<u64> {
    let rule = Rule::new(call, tree.len());
    let mut sum = 1_u64;
    let mut keep = |key: &[u8], value: &mut u64| {
        sum = mix_pair(sum, key, *value);
        rule.call(key, value)
    };
    let answer = if call.choice % 2 == 0 {
        tree.retain_by_ref(&mut keep)
    } else {
        tree.retain(keep)
    };
    answered(answer, sum)
}

/// The sum of the pairs below a prefix that the callback was called with.
pub fn retain_below<K: KeyTrait + Drop>(
    tree: &mut Tree<K>,
    prefix: &K,
    call: &Call,
) -> Option<u64> {
    let rule = Rule::new(call, tree.len());
    let mut sum = 1_u64;
    let answer = tree.prefix_retain_k(prefix, |key: &[u8], value: &mut u64| {
        sum = mix_pair(sum, key, *value);
        rule.call(key, value)
    });
    answered(answer, sum)
}

/// The sum of the pairs within bounds that the callback was called with.
pub fn retain_between<K: KeyTrait + Drop>(
    tree: &mut Tree<K>,
    start: Bound<K>,
    end: Bound<K>,
    call: &Call,
) -> Option<u64> {
    let rule = Rule::new(call, tree.len());
    let mut sum = 1_u64;
    let answer = tree.range_retain(start, end, |key: &[u8], value: &mut u64| {
        sum = mix_pair(sum, key, *value);
        rule.call(key, value)
    });
    answered(answer, sum)
}

/// What the retention of the pairs from a place to another is to be, by the model.
pub fn wanted_retain(model: &mut Model, from: usize, to: usize, call: &Call) -> u64 {
    let rule = Rule::new(call, model.len());
    let sum = model.sum(from, to, true);
    let mut kept = 0_usize;
    for place in 0..model.len() {
        if let Some((key, value)) = model.at(place) {
            if place < from || place >= to {
                model.set(kept, (key, value));
                kept = kept.wrapping_add(1);
            } else if rule.keeps(key.as_slice(), value) {
                model.set(kept, (key, rule.written(value)));
                kept = kept.wrapping_add(1);
            }
        }
    }
    model.cut(kept);
    sum
}

/// A walk that ended at a refused removal: the pairs that it had visited by then.
#[derive(Clone, Copy)]
struct Retained {
    // The key whose removal was refused.
    refused: Option<Text>,
    // Whether the callback was not called any more.
    is_over: bool,
    // Whether nothing else went wrong.
    is_right: bool,
}

impl Retained {
    // Notes a call: none once the walk was over, and after the refusal only below the refused key.
    fn note_call(&mut self, key: &Text) {
        let is_below = match self.refused {
            Some(refused) => refused.begins(key),
            None => true,
        };
        self.is_right = self.is_right && !self.is_over && is_below;
    }

    fn note_refusal(&mut self, key: &Text) {
        self.is_right = self.is_right && self.refused.is_none();
        self.refused = Some(*key);
    }

    // Notes a pair of which this value is left, if any: what its call left, or what it was.
    fn note(&mut self, rule: &Rule, pair: &Pair, left: Option<u64>) {
        let is_kept = rule.keeps(pair.0.as_slice(), pair.1);
        match left {
            Some(value) if value == pair.1 => self.is_over = true,
            Some(value) => {
                self.note_call(&pair.0);
                self.is_right = self.is_right && value == rule.written(pair.1);
                if !is_kept {
                    self.note_refusal(&pair.0);
                }
            }
            None => {
                self.note_call(&pair.0);
                self.is_right = self.is_right && !is_kept;
            }
        }
    }
}

fn found<K: KeyTrait + Drop>(tree: &Tree<K>, text: &Text) -> Option<u64> {
    let key = key_of::<K>(text)?;
    tree.get_k(&key).copied()
}

/// Leaves in the model what a refused call on the pairs from a place to another left in the tree, and returns whether
/// that is a walk which ended at one refused removal.
pub fn note_refusal<K: KeyTrait + Drop>(
    tree: &Tree<K>,
    model: &mut Model,
    from: usize,
    to: usize,
    call: &Call,
) -> bool {
    let rule = Rule::new(call, model.len());
    let mut ended = Retained {
        refused: None,
        is_over: false,
        is_right: true,
    };
    let mut kept = 0_usize;
    for place in 0..model.len() {
        if let Some(pair) = model.at(place) {
            let left = found(tree, &pair.0);
            if place < from || place >= to {
                ended.is_right = ended.is_right && left == Some(pair.1);
            } else {
                ended.note(&rule, &pair, left);
            }
            if let Some(value) = left {
                model.set(kept, (pair.0, value));
                kept = kept.wrapping_add(1);
            }
        }
    }
    model.cut(kept);
    ended.is_right && ended.refused.is_some()
}
