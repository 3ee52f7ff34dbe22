//! Bulk loads: what each form answers, how far it reads, and what is dropped where memory is refused.

use crate::loads::{
    Counts, Key, ascend, law_holds, load_by_index, load_by_index_lent, load_unique, loads_alike,
};
use crate::play::Tree;
use rart::{AdaptiveRadixTree, ArrPartial, BulkError, Iter, KeyTrait};
use rart_test_tools::counted::Counted;
use rart_test_tools::refusals::{part_ends, refuse, was_refused};
use std::alloc::{AllocError, Global};
use std::cell::Cell;
use std::test::Fail;

pub type Pairs<'a> = &'a [(&'a str, u64)];

// The key of a text, cut to eight bytes.
pub fn key_of(text: &str) -> Key {
    let bytes = text.as_bytes();
    Key::new_from_slice(&bytes[..bytes.len().min(8)])
}

/// Items that are counted as they are read.
#[derive(Drop)]
pub struct Read<'a> {
    pub items: Pairs<'static>,
    pub at: usize,
    pub count: &'a Cell<usize>,
}

impl<'a> Iterator for Read<'a> {
    type Item = (Key, u64);

    ghost use Rattle.std.specs.Prelude.{◌-◌, length};
    ghost use Rattle.std.specs.Iterator.{at_most};

    ghost remaining = { λ s. at_most (length s.items.now - s.at) };

    fn next(&mut self) -> Option<(Key, u64)> {
        let (text, value) = self.items.get(self.at)?;
        self.at += 1;
        self.count.set(self.at);
        Some((key_of(text), *value))
    }
}

// Whether these pairs come next, and no others.
fn are_next(pairs: &mut Iter<'_, Key, ArrPartial<8>, u64>, wanted: Pairs<'_>) -> bool {
    for (text, value) in wanted {
        match pairs.next() {
            Some((key, stored)) if key_of(text) == key && stored == value => {}
            _ => return false,
        }
    }
    pairs.next().is_none()
}

pub fn has_pairs(tree: &Tree<Key>, wanted: Pairs<'_>) -> bool {
    match tree.iter() {
        Ok(mut pairs) => are_next(&mut pairs, wanted) && tree.len() == wanted.len(),
        Err(_refused) => false,
    }
}

// A list, and what a sorted load makes of it: pairs, or the place at which it finds it unsorted.
type Row = (Pairs<'static>, Result<Pairs<'static>, usize>);

static LISTS: [Row; 4] = [
    (&[], Ok(&[])),
    (&[("a", 1), ("c", 2), ("c", 3), ("b", 4), ("z", 5)], Err(3)),
    (&[("b", 1), ("a", 2)], Err(1)),
    (&[("a", 1), ("a", 3), ("b", 2)], Ok(&[("a", 3), ("b", 2)])),
];

// Nothing is read after a fault.
fn is_wanted(loaded: &Result<Tree<Key>, BulkError>, read: usize, row: &Row) -> bool {
    match (loaded, row.1) {
        (Ok(tree), Ok(pairs)) => has_pairs(tree, pairs) && read == row.0.len(),
        (Err(error), Err(place)) => {
            *error == BulkError::Unsorted { at: place } && read == place.wrapping_add(1)
        }
        _ => false,
    }
}

fn row_holds(alloc: Global, row: &Row) -> bool {
    let count = Cell::new(0_usize);
    let items = Read {
        items: row.0,
        at: 0,
        count: &count,
    };
    let loaded = Tree::bulk_load_sorted(alloc, items);
    is_wanted(&loaded, count.get(), row)
}

#[test]
fn sorted_items_are_loaded_or_refused_at_the_first_fault(rt: HostRuntime) {
    for row in &LISTS {
        assert!(rt; row_holds(rt.alloc(), row), "of {} items", row.0.len());
    }
}

fn keys_of(alloc: Global, texts: &[&str]) -> Result<Vec<Key>, AllocError> {
    let mut keys = Vec::new(alloc);
    for text in texts {
        keys.push(key_of(text))?;
    }
    Ok(keys)
}

// The keys of one byte from 0 on.
fn byte_keys(alloc: Global, count: usize) -> Result<Vec<Key>, AllocError> {
    let mut keys = Vec::new(alloc);
    for byte in 0..count {
        keys.push(Key::new_from_slice(&[(byte % 256) as u8]))?;
    }
    Ok(keys)
}

// The keys of the numbers from 0 on.
fn number_keys(alloc: Global, count: u64) -> Result<Vec<Key>, AllocError> {
    let mut keys = Vec::new(alloc);
    for number in 0..count {
        keys.push(Key::from_u64(number))?;
    }
    Ok(keys)
}

static TEXTS: [(&[&str], Counts<'static>); 3] = [
    (&[], ([0, 0, 0, 0], &[])),
    (&["", "a", "ab", "abc", "b"], ([2, 5, 3, 4], &[(4, 3, 4)])),
    (&["", "a", "ab", "b", "ba"], ([2, 5, 3, 3], &[(4, 3, 4)])),
];

fn are_texts_loaded(
    alloc: Global,
    texts: &[&str],
    counts: &Counts<'_>,
) -> Result<bool, AllocError> {
    let keys = keys_of(alloc, texts)?;
    loads_alike(alloc, &keys, counts)
}

#[test]
fn texts_are_loaded_as_they_are_inserted(rt: HostRuntime) -> Result<(), Fail> {
    for (texts, counts) in &TEXTS {
        assert!(rt; are_texts_loaded(rt.alloc(), texts, counts)?);
    }
    Ok(())
}

fn law_holds_of_texts(
    alloc: Global,
    texts: &[&str],
    counts: &Counts<'_>,
) -> Result<bool, AllocError> {
    let keys = keys_of(alloc, texts)?;
    law_holds(alloc, &keys, counts)
}

#[test]
fn the_law_holds_of_texts(rt: HostRuntime) -> Result<(), Fail> {
    for (texts, counts) in &TEXTS {
        assert!(rt; law_holds_of_texts(rt.alloc(), texts, counts)?);
    }
    Ok(())
}

static FANS: [(usize, Counts<'static>); 8] = [
    (1, ([1, 1, 0, 1], &[])),
    (4, ([4, 4, 1, 2], &[(4, 1, 4)])),
    (5, ([5, 5, 1, 2], &[(16, 1, 5)])),
    (16, ([16, 16, 1, 2], &[(16, 1, 16)])),
    (17, ([17, 17, 1, 2], &[(48, 1, 17)])),
    (48, ([48, 48, 1, 2], &[(48, 1, 48)])),
    (49, ([49, 49, 1, 2], &[(256, 1, 49)])),
    (256, ([256, 256, 1, 2], &[(256, 1, 256)])),
];

fn are_bytes_loaded(alloc: Global, count: usize, counts: &Counts<'_>) -> Result<bool, AllocError> {
    let keys = byte_keys(alloc, count)?;
    loads_alike(alloc, &keys, counts)
}

#[test]
fn a_root_has_the_kind_for_its_children(rt: HostRuntime) -> Result<(), Fail> {
    for (count, counts) in &FANS {
        assert!(rt;
            are_bytes_loaded(rt.alloc(), *count, counts)?,
            "{count} keys"
        );
    }
    Ok(())
}

static NUMBERS: Counts<'static> = ([4096, 4096, 17, 3], &[(16, 1, 16), (256, 16, 4096)]);

fn are_numbers_loaded(alloc: Global) -> Result<bool, AllocError> {
    let keys = number_keys(alloc, 4096)?;
    loads_alike(alloc, &keys, &NUMBERS)
}

#[test]
fn numbers_are_loaded_as_they_are_inserted(rt: HostRuntime) -> Result<(), Fail> {
    assert!(rt; are_numbers_loaded(rt.alloc())?);
    Ok(())
}

// Without keys the load by index calls neither closure.
fn calls_neither(alloc: Global) -> bool {
    let calls = Cell::new(0_usize);
    let key = key_of("a");
    let result = Tree::bulk_load_sorted_unique_by_index(
        alloc,
        0,
        |_| {
            calls.set(calls.get().wrapping_add(1));
            &key
        },
        |i| {
            calls.set(calls.get().wrapping_add(1));
            i as u64
        },
    );
    match result {
        Ok(tree) => tree.is_empty() && calls.get() == 0,
        Err(_refused) => false,
    }
}

#[test]
fn no_keys_are_an_empty_tree(rt: HostRuntime) {
    assert!(rt; calls_neither(rt.alloc()));
}

type CountedTree<'a> = AdaptiveRadixTree<Key, Counted<'a>>;

// The 64 keys of two bytes below 8, with values that count their drops.
fn counted<'a>(
    alloc: Global,
    drops: &'a Cell<usize>,
) -> Result<Vec<(Key, Counted<'a>)>, AllocError> {
    let mut items = Vec::new(alloc);
    for byte in 0..64_u8 {
        items.push((
            Key::new_from_slice(&[byte / 8, byte % 8]),
            Counted(byte, drops),
        ))?;
    }
    Ok(items)
}

// Whether each value that was taken is dropped once, by a refused load or with the tree.
fn drops_each(
    loaded: Result<CountedTree<'_>, BulkError>,
    refused: bool,
    taken: usize,
    drops: &Cell<usize>,
) -> bool {
    match loaded {
        Ok(tree) => {
            let held = tree.len() == 64 && drops.get() == 0;
            drop(tree);
            !refused && held && taken == 64 && drops.get() == 64
        }
        Err(error) => refused && error == BulkError::Memory && drops.get() == taken,
    }
}

// The load with a request refused, and whether one was; None where something else failed.
fn sorted_refused(alloc: Global, at: usize) -> Result<Option<bool>, AllocError> {
    let drops = Cell::new(0_usize);
    let items = counted(alloc, &drops)?;
    refuse(alloc, at);
    let result = CountedTree::bulk_load_sorted(alloc, items);
    let refused = was_refused(alloc);
    Ok(drops_each(result, refused, 64, &drops).then_some(refused))
}

fn unique_refused(alloc: Global, at: usize) -> Result<Option<bool>, AllocError> {
    let drops = Cell::new(0_usize);
    let items = counted(alloc, &drops)?;
    if !ascend(&items) {
        return Ok(None);
    }
    refuse(alloc, at);
    let result = load_unique(alloc, items);
    let refused = was_refused(alloc);
    Ok(drops_each(result, refused, 64, &drops).then_some(refused))
}

// A load of the keys by index, with a request refused.
fn keys_refused(
    alloc: Global,
    items: &[(Key, Counted<'_>)],
    at: usize,
    lent: bool,
) -> Option<bool> {
    if !ascend(items) {
        return None;
    }
    let drops = Cell::new(0_usize);
    let taken = Cell::new(0_usize);
    let in_turn = Cell::new(true);
    let mut take = |i: usize| {
        in_turn.set(in_turn.get() && i == taken.get());
        taken.set(taken.get().wrapping_add(1));
        Counted((i % 256) as u8, &drops)
    };
    refuse(alloc, at);
    let result = if lent {
        load_by_index_lent(alloc, items, &mut take)
    } else {
        load_by_index(alloc, items, take)
    };
    let refused = was_refused(alloc);
    let well = drops_each(result, refused, taken.get(), &drops) && in_turn.get();
    well.then_some(refused)
}

fn by_index_refused(alloc: Global, at: usize, lent: bool) -> Result<Option<bool>, AllocError> {
    let unused = Cell::new(0_usize);
    let items = counted(alloc, &unused)?;
    Ok(keys_refused(alloc, &items, at, lent))
}

#[derive(Clone, Copy)]
enum Form {
    Sorted,
    Unique,
    ByIndex,
    ByIndexLent,
}

fn is_refused_in_turn(alloc: Global, form: Form) -> Result<bool, AllocError> {
    for at in 1..200_usize {
        let refused = match form {
            Form::Sorted => sorted_refused(alloc, at)?,
            Form::Unique => unique_refused(alloc, at)?,
            Form::ByIndex => by_index_refused(alloc, at, false)?,
            Form::ByIndexLent => by_index_refused(alloc, at, true)?,
        };
        match refused {
            Some(true) => {}
            Some(false) => {
                part_ends(alloc);
                return Ok(true);
            }
            None => return Ok(false),
        }
    }
    Ok(false)
}

#[test]
fn loads_refused_in_turn_drop_each_value_once(rt: HostRuntime) -> Result<(), Fail> {
    for form in [Form::Sorted, Form::Unique, Form::ByIndex, Form::ByIndexLent] {
        assert!(rt; is_refused_in_turn(rt.alloc(), form)?);
    }
    Ok(())
}

#[test]
fn errors_have_texts(rt: HostRuntime) -> Result<(), Fail> {
    let alloc = rt.alloc();
    let unsorted = BulkError::Unsorted { at: 3 };
    assert_eq!(rt;
        format!(in alloc; "{}", BulkError::Memory)?.as_str(),
        "out of memory"
    );
    assert_eq!(rt;
        format!(in alloc; "{}", BulkError::Full)?.as_str(),
        "tree is full"
    );
    assert_eq!(rt;
        format!(in alloc; "{unsorted}")?.as_str(),
        "item 3 is below its predecessor"
    );
    Ok(())
}
