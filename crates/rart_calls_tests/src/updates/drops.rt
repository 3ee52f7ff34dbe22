//! Values that count their drops, through updates: what a callback writes over, what is removed, replaced or cloned,
//! and what it offers, each dropped once; also where no value can be cloned, and where memory is refused.

ghost use Rattle.std.specs.Prelude.{◌≡◌, Some};
ghost use Rattle.rart.specs.Updates.{written_slot};

mod rows;

use self::rows::{Answer, CLONED, Call, REFUSED, Request, Row, Sweep, UNCLONED, WRITTEN};
use rart::{AdaptiveRadixTree, ArrayKey, KeyTrait, Slot, SlotUpdate, TryUpdateError, UpdateError};
use rart_test_tools::counted::Limited;
use rart_test_tools::counts::Counts;
use rart_test_tools::refusals::{is_swept, refuse, was_refused};
use std::alloc::Global;

pub type Key = ArrayKey<4>;

pub type Tree<'a> = AdaptiveRadixTree<Key, Limited<'a>>;

/// The key of a byte. All share one before it, so that a root of two has a prefix.
pub fn key(byte: u8) -> Key {
    Key::new_from_slice(&[b'n', byte])
}

/// The keys below `count`, each with its byte.
pub fn filled<'a>(alloc: Global, counts: &'a Counts, count: u8) -> Tree<'a> {
    let mut tree = Tree::new(alloc);
    for byte in 0..count {
        let _old = tree.insert(key(byte), counts.value(byte));
    }
    tree
}

// What a callback requests: nothing where it fails.
fn callback_result<'a>(
    request: Request,
    counts: &'a Counts,
) -> Result<SlotUpdate<Limited<'a>>, ()> {
    match request {
        Request::Insert(number) => Ok(SlotUpdate::Insert(counts.value(number))),
        Request::Remove => Ok(SlotUpdate::Remove),
        Request::Keep => Ok(SlotUpdate::Keep),
        Request::Fail => Err(()),
    }
}

// Writes the value where the slot is occupied.
fn write<V: Drop>(slot: &mut Slot<V>, written: V)
    ensures { slot.new ≡ written_slot (Some written) slot.old }
{
    if let Slot::Occupied(value) = slot {
        *value = written;
    }
}

// An update by a callback that writes this value and requests this. Generic in the value, so that the callback holds
// what was made before it: that it keeps an occupied slot occupied is then found.
fn update_by<V: Drop>(
    tree: &mut AdaptiveRadixTree<Key, V>,
    key: &Key,
    written: V,
    answer: SlotUpdate<V>,
) -> Result<bool, UpdateError<V>> {
    tree.update_k(key, move |slot| {
        write(slot, written);
        answer
    })
}

// The same by one that may fail.
fn try_update_by<V: Drop + Clone>(
    tree: &mut AdaptiveRadixTree<Key, V>,
    key: &Key,
    written: V,
    answer: Result<SlotUpdate<V>, ()>,
) -> Result<bool, TryUpdateError<(), V>>
    requires clones { (x y : V) → V.is_clone x y → y ≡ x }
{
    tree.try_update_k(key, move |slot| {
        write(slot, written);
        answer
    })
}

// The same by the form that takes the key.
fn try_update_by_value<V: Drop + Clone>(
    tree: &mut AdaptiveRadixTree<Key, V>,
    key: Key,
    written: V,
    answer: Result<SlotUpdate<V>, ()>,
) -> Result<bool, TryUpdateError<(), V>>
    requires clones { (x y : V) → V.is_clone x y → y ≡ x }
{
    tree.try_update(key, move |slot| {
        write(slot, written);
        answer
    })
}

fn update<'a>(tree: &mut Tree<'a>, byte: u8, request: Request, counts: &'a Counts) -> Answer {
    let Ok(update) = callback_result(request, counts) else {
        return Answer::Failed;
    };
    match update_by(tree, &key(byte), counts.value(WRITTEN), update) {
        Ok(touched) => Answer::Done(touched),
        Err(UpdateError::Insert(refused)) => Answer::Back(refused.value.number),
        Err(UpdateError::Remove) => Answer::NotRemoved,
    }
}

fn answer_of(answered: Result<bool, TryUpdateError<(), Limited<'_>>>) -> Answer {
    match answered {
        Ok(touched) => Answer::Done(touched),
        Err(TryUpdateError::Callback(())) => Answer::Failed,
        Err(TryUpdateError::Insert(refused)) => Answer::Back(refused.value.number),
        Err(TryUpdateError::Remove) => Answer::NotRemoved,
        Err(TryUpdateError::Clone) => Answer::NotCloned,
    }
}

fn updated<'a>(tree: &mut Tree<'a>, row: &Row, counts: &'a Counts) -> Answer {
    let (byte, request) = (row.byte, row.request);
    match row.call {
        Call::Update => update(tree, byte, request, counts),
        Call::TryUpdate => {
            let written = counts.value(WRITTEN);
            let result = callback_result(request, counts);
            answer_of(try_update_by(tree, &key(byte), written, result))
        }
        Call::TryUpdateByValue => {
            let written = counts.value(WRITTEN);
            let result = callback_result(request, counts);
            answer_of(try_update_by_value(tree, key(byte), written, result))
        }
    }
}

// The number stored at the byte.
fn number_at(tree: &Tree<'_>, byte: u8) -> Option<u8> {
    tree.get_k(&key(byte)).map(|value| value.number)
}

fn row_holds<'a>(tree: &mut Tree<'a>, row: &Row, counts: &'a Counts) -> bool {
    let before = counts.drops.get();
    updated(tree, row, counts) == row.answer
        && number_at(tree, row.byte) == row.number
        && counts.drops.get() == before.wrapping_add(row.dropped)
}

// The first row that fails, if one does.
fn first_wrong_of<'a>(tree: &mut Tree<'a>, rows: &[Row], counts: &'a Counts) -> Option<usize> {
    let mut at = 0_usize;
    for row in rows {
        if !row_holds(tree, row, counts) {
            return Some(at);
        }
        at = at.wrapping_add(1);
    }
    None
}

// How many values the rows make.
fn count_made(rows: &[Row]) -> usize {
    let mut made = 0_usize;
    for row in rows {
        made = made.wrapping_add(row.made);
    }
    made
}

// The first row that fails on a tree of three keys where `clones` values can be cloned, if one does; one past the last
// where not all values are dropped with the tree.
fn first_wrong(alloc: Global, clones: usize, rows: &[Row]) -> Option<usize> {
    let counts = Counts::new(clones);
    let mut tree = filled(alloc, &counts, 3);
    let wrong = first_wrong_of(&mut tree, rows, &counts);
    drop(tree);
    if wrong.is_none() && counts.drops.get() != count_made(rows).wrapping_add(3) {
        return Some(rows.len());
    }
    wrong
}

#[test]
fn an_update_drops_each_value_once(rt: HostRuntime) {
    assert_eq!(rt; first_wrong(rt.alloc(), 100, &CLONED), None);
}

#[test]
fn an_update_of_a_value_that_is_not_cloned_changes_nothing(rt: HostRuntime) {
    assert_eq!(rt; first_wrong(rt.alloc(), 0, &UNCLONED), None);
}

// The update with a request refused, and whether one was; None where something else failed.
fn refused_once(alloc: Global, sweep: &Sweep, at: usize) -> Option<bool> {
    let counts = Counts::new(100);
    let mut tree = filled(alloc, &counts, sweep.count);
    refuse(alloc, at);
    let answer = updated(&mut tree, &sweep.row, &counts);
    let refused = was_refused(alloc);
    let found = (answer, number_at(&tree, sweep.row.byte), counts.drops.get());
    drop(tree);
    let row = if refused { &sweep.refused } else { &sweep.row };
    let is_so = found == (row.answer, row.number, row.dropped)
        && counts.drops.get() == usize::from(sweep.count).wrapping_add(row.made);
    is_so.then_some(refused)
}

#[test]
fn updates_refused_in_turn_drop_each_value_once(rt: HostRuntime) {
    let mut number = 0_usize;
    for sweep in &REFUSED {
        let alloc = rt.alloc();
        let swept = is_swept(alloc, |at| refused_once(alloc, sweep, at));
        assert!(rt; swept, "row {number}");
        number = number.wrapping_add(1);
    }
}
