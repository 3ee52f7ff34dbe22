//! Updates of values whose clone requests memory, with each request refused: nothing is called back, or what was
//! written is taken back.

use rart::{AdaptiveRadixTree, ArrayKey, KeyTrait, Slot, SlotUpdate, TryUpdateError};
use rart_test_tools::refusals::{part_ends, refuse, was_refused};
use std::alloc::{AllocError, Global};
use std::cell::Cell;

type Key = ArrayKey<16>;

fn key(byte: u8) -> Key {
    Key::new_from_slice(&[byte])
}

/// A value whose clone requests memory. (A clone of a `String` may have another capacity, so the two aren't compared.)
#[derive(Drop)]
struct Roomy {
    alloc: Global,
    value: u8,
}

impl Clone for Roomy {
    ghost use Rattle.std.specs.Prelude.{◌≡◌};

    ghost is_clone = { λ value copy. copy ≡ value };

    ghost is_infallible = { λ _. ⊥ };

    fn clone(&self) -> Result<Self, AllocError> {
        let _room = Vec::<u8>::with_capacity(self.alloc, 8)?;
        Ok(Roomy {
            alloc: self.alloc,
            value: self.value,
        })
    }
}

type Values = AdaptiveRadixTree<Key, Roomy>;

// A `try_update` of the value at byte 0 that keeps it; whether its clone was refused.
fn is_not_cloned(values: &mut Values, by_value: bool, calls: &Cell<usize>) -> bool {
    let keep = |slot: &mut Slot<Roomy>| {
        calls.set(calls.get().wrapping_add(1));
        let _seen = &slot;
        Ok(SlotUpdate::Keep)
    };
    let answer: Result<bool, TryUpdateError<(), Roomy>> = if by_value {
        values.try_update(key(0), keep)
    } else {
        values.try_update_k(&key(0), keep)
    };
    matches!(answer, Err(TryUpdateError::Clone))
}

// Where the clone is refused nothing is called, and else the callback once.
fn keep_is_refused_well(
    alloc: Global,
    values: &mut Values,
    by_value: bool,
    at: usize,
) -> Option<bool> {
    let calls = Cell::new(0_usize);
    refuse(alloc, at);
    let not_cloned = is_not_cloned(values, by_value, &calls);
    let refused = was_refused(alloc);
    let kept = values.get_k(&key(0)).is_some_and(|kept| kept.value == 5);
    (kept && not_cloned == refused && calls.get() == usize::from(!refused)).then_some(refused)
}

// The request of the clone is refused, and then none.
fn keep_is_swept(alloc: Global, by_value: bool) -> bool {
    let mut values = Values::new(alloc);
    let stored = values.insert_k(&key(0), Roomy { alloc, value: 5 }).is_ok();
    for at in 1..100_usize {
        match keep_is_refused_well(alloc, &mut values, by_value, at) {
            Some(true) => {}
            Some(false) => {
                part_ends(alloc);
                return stored;
            }
            None => return false,
        }
    }
    false
}

#[test]
fn a_clone_refused_in_turn_calls_nothing_back(rt: HostRuntime) {
    assert!(rt; keep_is_swept(rt.alloc(), false));
    assert!(rt; keep_is_swept(rt.alloc(), true), "by value");
}

// So many keys of one byte from 0 on, each with its byte.
fn with_clones(alloc: Global, count: u8) -> Values {
    let mut values = Values::new(alloc);
    for byte in 0..count {
        let _old = values.insert(key(byte), Roomy { alloc, value: byte });
    }
    values
}

// The keys are stored as inserted, or all but the one at byte 2.
fn holds(values: &Values, count: u8, all: bool) -> bool {
    for byte in 0..count {
        let value = values.get_k(&key(byte)).map(|roomy| roomy.value);
        if value != (all || byte != 2).then_some(byte) {
            return false;
        }
    }
    values.len() == usize::from(count).wrapping_sub(usize::from(!all))
}

// Writes 99 at byte 2 and removes it. What is returned, and how often the callback was called.
fn write_and_remove(
    values: &mut Values,
    by_value: bool,
) -> (Result<bool, TryUpdateError<(), Roomy>>, usize) {
    let calls = Cell::new(0_usize);
    let remove = |slot: &mut Slot<Roomy>| {
        calls.set(calls.get().wrapping_add(1));
        if let Slot::Occupied(roomy) = slot {
            roomy.value = 99;
        }
        Ok(SlotUpdate::Remove)
    };
    let answer = if by_value {
        values.try_update(key(2), remove)
    } else {
        values.try_update_k(&key(2), remove)
    };
    (answer, calls.get())
}

// Whether the answer and the calls are those of an update with this request refused, or of one with memory.
fn is_answer(
    answer: &Result<bool, TryUpdateError<(), Roomy>>,
    calls: usize,
    refused: bool,
    at: usize,
) -> bool {
    match answer {
        Ok(removed) => !refused && *removed && calls == 1,
        Err(TryUpdateError::Clone) => refused && at == 1 && calls == 0,
        Err(TryUpdateError::Remove) => refused && 1 < at && calls == 1,
        Err(_) => false,
    }
}

// The update with a request refused, and whether one was; None where something else failed.
fn removal_is_answered(
    alloc: Global,
    values: &mut Values,
    count: u8,
    by_value: bool,
    at: usize,
) -> Option<bool> {
    refuse(alloc, at);
    let (answer, calls) = write_and_remove(values, by_value);
    let refused = was_refused(alloc);
    let well = is_answer(&answer, calls, refused, at);
    (well && holds(values, count, refused)).then_some(refused)
}

// Each request refused in turn: that of the clone calls nothing back, that of the removal restores the value.
fn sweep_values(alloc: Global, values: &mut Values, count: u8, by_value: bool) -> bool {
    for at in 1..100_usize {
        match removal_is_answered(alloc, values, count, by_value, at) {
            Some(true) => {}
            Some(false) => {
                part_ends(alloc);
                return true;
            }
            None => return false,
        }
    }
    false
}

fn removal_holds(alloc: Global, count: u8, by_value: bool) -> bool {
    let mut values = with_clones(alloc, count);
    sweep_values(alloc, &mut values, count, by_value)
}

#[test]
fn removals_of_values_with_clones_refused_in_turn(rt: HostRuntime) {
    for count in [5_u8, 17, 49] {
        assert!(rt; removal_holds(rt.alloc(), count, false), "{count} keys");
        assert!(rt;
            removal_holds(rt.alloc(), count, true),
            "{count} keys by value"
        );
    }
}
