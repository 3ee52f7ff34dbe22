//! Tests of how far a bulk load reads if an allocation fails, and of which index it requests.
ghost use Rattle.std.specs.Iterator.{YieldsFirst, item_count};
ghost use Rattle.rart_keys.specs.ArrayKeyBytes.{array_key_bytes};
ghost use Rattle.rart_keys.specs.SortedMap.{IsAscending};
ghost use Rattle.rart.specs.Steps.{pairs_in};

mod drops;
mod extensions;
pub mod rows;

use crate::bulk::rows::{Pairs, key_of};
use crate::loads::{Key, ascend, count, load_counting};
use crate::play::Tree;
use rart::{BulkError, KeyTrait};
use rart_keys::laws::bulk_lists::ascending_pairs;
use rart_test_tools::refusals::{part_ends, refuse, was_refused};
use std::alloc::{AllocError, Global};
use std::cell::Cell;
use std::test::Fail;

const ITEMS: Pairs<'static> = &[
    ("a", 1),
    ("b", 2),
    ("c", 3),
    ("d", 4),
    ("e", 5),
    ("f", 6),
    ("g", 7),
    ("h", 8),
    ("i", 9),
    ("j", 10),
    ("k", 11),
    ("l", 12),
];

/// The items of a slice, counted as they are read.
#[derive(Drop)]
struct ReadSlice<'a> {
    items: &'a [(Key, u64)],
    count: &'a Cell<usize>,
}

impl<'a> Iterator for ReadSlice<'a> {
    type Item = (Key, u64);

    ghost next_gives = { YieldsFirst (λ s. s.items.now) };

    ghost remaining = { item_count (λ s. s.items.now) };

    fn next(&mut self) -> Option<(Key, u64)> {
        let (first, others) = self.items.split_first()?;
        self.items = others;
        self.count.set(self.count.get().wrapping_add(1));
        Some(*first)
    }
}

/// A load that reads its items one by one.
#[derive(Clone, Copy)]
enum Form {
    Sorted,
    Unique,
}

// A load of items that ascend with a request refused: how many items were read, why it was refused, and whether a
// request was.
fn read_with_refusal(
    alloc: Global,
    items: &[(Key, u64)],
    form: Form,
    at: usize,
) -> (usize, Option<BulkError>, bool)
    requires { IsAscending (pairs_in array_key_bytes items.now) }
{
    ascending_pairs::<u64>();
    let count = Cell::new(0_usize);
    let read = ReadSlice {
        items,
        count: &count,
    };
    refuse(alloc, at);
    let loaded = match form {
        Form::Sorted => Tree::<Key>::bulk_load_sorted(alloc, read),
        Form::Unique => Tree::<Key>::bulk_load_sorted_unique(alloc, read),
    };
    let refused = was_refused(alloc);
    (count.get(), loaded.err(), refused)
}

// The first request comes with the second item, and a later one never with an earlier item.
fn reads_no_further(alloc: Global, items: &[(Key, u64)], form: Form) -> bool
    requires { IsAscending (pairs_in array_key_bytes items.now) }
{
    let mut most = 1_usize;
    for at in 1..100_usize {
        let (read, error, refused) = read_with_refusal(alloc, items, form, at);
        if !refused {
            part_ends(alloc);
            return error.is_none() && read == items.len();
        }
        if error != Some(BulkError::Memory) || read < most || (at == 1 && read != 2) {
            return false;
        }
        most = read;
    }
    false
}

// The first items.
fn first_items(alloc: Global, many: usize) -> Result<Vec<(Key, u64)>, AllocError> {
    let mut items = Vec::new(alloc);
    for (text, value) in &ITEMS[..many.min(ITEMS.len())] {
        items.push((key_of(text), *value))?;
    }
    Ok(items)
}

fn are_read_no_further(alloc: Global, items: &[(Key, u64)], form: Form) -> bool {
    items.len() == ITEMS.len() && ascend(items) && reads_no_further(alloc, items, form)
}

fn all_reads_no_further(alloc: Global, form: Form) -> Result<bool, AllocError> {
    let items = first_items(alloc, ITEMS.len())?;
    Ok(are_read_no_further(alloc, &items, form))
}

#[test]
fn loads_refused_in_turn_read_nothing_after(rt: HostRuntime) -> Result<(), Fail> {
    assert!(rt; all_reads_no_further(rt.alloc(), Form::Sorted)?);
    Ok(())
}

#[test]
fn unique_loads_refused_in_turn_read_nothing_after(rt: HostRuntime) -> Result<(), Fail> {
    assert!(rt; all_reads_no_further(rt.alloc(), Form::Unique)?);
    Ok(())
}

fn has_length(loaded: Result<Tree<Key>, BulkError>, many: usize) -> bool {
    match loaded {
        Ok(tree) => tree.len() == many,
        Err(_refused) => false,
    }
}

// How often each key was requested, and how often its value was taken, by a load that gives `many` keys.
fn calls_of_items(alloc: Global, items: &[(Key, u64)], many: usize) -> Option<(usize, usize)> {
    if !ascend(items) {
        return None;
    }
    let (key_calls, taken) = (Cell::new(0_usize), Cell::new(0_usize));
    let loaded = load_counting(alloc, items, &key_calls, |i| {
        count(&taken, i);
        7_u64
    });
    has_length(loaded, many).then_some((key_calls.get(), taken.get()))
}

// What `calls_of_items` counts of the first items.
fn calls_of(alloc: Global, many: usize) -> Result<Option<(usize, usize)>, AllocError> {
    let items = first_items(alloc, many)?;
    Ok(calls_of_items(alloc, &items, many))
}

#[test]
fn each_key_is_read_once_and_each_value_taken_once(rt: HostRuntime) -> Result<(), Fail> {
    for (many, wanted) in [(1, 0x1), (2, 0x11), (3, 0x111), (4, 0x1111)] {
        assert!(rt;
            calls_of(rt.alloc(), many)? == Some((wanted, wanted)),
            "{many} keys"
        );
    }
    Ok(())
}
