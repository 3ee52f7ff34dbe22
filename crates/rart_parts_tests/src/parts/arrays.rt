//! Arrays of places, as rows of calls and wanted answers.

use crate::compare::expect_eq;
use rart_parts::TreeError;
use rart_parts::utils::bitarray::BitArray;
use rart_parts::utils::bitset::{Bitset8, Bitset16, Bitset64, BitsetTrait};
use rart_test_tools::counted::Counted;
use rart_test_tools::refusals::{refuse, was_refused};
use std::alloc::Global;
use std::cell::Cell;
use std::process::Abort;
use std::test::Fail;

/// A call of an array.
#[derive(Clone, Copy)]
enum Ask {
    Push(u8),
    Pop,
    Set(usize, u8),
    Update(usize, u8),
    Erase(usize),
    Put(usize, u8),
    Get(usize),
    /// Writes through the loan of `get_mut`: the old value.
    Write(usize, u8),
    /// Adds to each value through the loans of `iter_mut`: how many there are.
    WriteAll(u8),
    Last,
    LastUsed,
    FirstUsed,
    FirstEmpty,
    /// Whether there is a value at a place, as 1 or 0.
    Check(usize),
    IsEmpty,
    Size,
    Known,
    Scanned,
    Clear,
}

type Row = (Ask, Option<usize>);

fn number(value: Option<u8>) -> Option<usize> {
    Some(usize::from(value?))
}

fn write<const W: usize, B: BitsetTrait>(
    rt: &impl Abort,
    array: &mut BitArray<u8, W, B>,
    position: usize,
    value: u8,
) -> Option<u8> {
    assert!(rt; position < W);
    let place = array.get_mut(position)?;
    let old = *place;
    *place = value;
    Some(old)
}

fn write_all<const W: usize, B: BitsetTrait>(array: &mut BitArray<u8, W, B>, more: u8) -> usize {
    let mut count = 0_usize;
    for (_, value) in array.iter_mut() {
        *value = value.wrapping_add(more);
        count = count.wrapping_add(1);
    }
    count
}

fn change<const W: usize, B: BitsetTrait>(
    rt: &impl Abort,
    array: &mut BitArray<u8, W, B>,
    ask: Ask,
) -> Option<usize> {
    match ask {
        Ask::Push(value) => array.push(value),
        Ask::Pop => number(array.pop()),
        Ask::Set(position, value) => {
            assert!(rt; position < W);
            array.set(position, value);
            None
        }
        Ask::Update(position, value) => {
            assert!(rt; position < W);
            number(array.update(position, value))
        }
        Ask::Erase(position) => {
            assert!(rt; position < W);
            number(array.erase(position))
        }
        Ask::Put(position, value) => {
            assert!(rt; position < W && !array.check(position));
            array.put(position, value);
            None
        }
        Ask::Write(position, value) => number(write(rt, array, position, value)),
        Ask::WriteAll(more) => Some(write_all(array, more)),
        Ask::Clear => {
            array.clear();
            None
        }
        _ => look(rt, array, ask),
    }
}

fn look<const W: usize, B: BitsetTrait>(
    rt: &impl Abort,
    array: &BitArray<u8, W, B>,
    ask: Ask,
) -> Option<usize> {
    match ask {
        Ask::Get(position) => {
            assert!(rt; position < W);
            number(array.get(position).copied())
        }
        Ask::Last => number(array.last().copied()),
        Ask::LastUsed => array.last_used_pos(),
        Ask::FirstUsed => array.first_used(),
        Ask::FirstEmpty => array.first_empty(),
        Ask::Check(position) => {
            assert!(rt; position < W);
            Some(usize::from(array.check(position)))
        }
        Ask::IsEmpty => Some(usize::from(array.is_empty())),
        Ask::Size => Some(array.size()),
        Ask::Known => Some(array.known_bitset()?.size()),
        Ask::Scanned => {
            // Its contract states that the positions can be counted.
            let _known = array.known_bitset();
            Some(array.scanned_bitset().size())
        }
        _ => panic!(rt; "the call changes the array"),
    }
}

fn rows_hold<const W: usize, B: BitsetTrait>(
    rt: &impl Abort,
    array: &mut BitArray<u8, W, B>,
    rows: &[Row],
) {
    let mut row = 0_usize;
    for (ask, want) in rows {
        let found = change(rt, array, *ask);
        assert!(rt; found == *want, "row {row}");
        row = row.wrapping_add(1);
    }
}

static FIRST_FREE_PLACE: [Row; 27] = [
    (Ask::IsEmpty, Some(1)),
    (Ask::Pop, None),
    (Ask::Last, None),
    (Ask::Push(123), Some(0)),
    (Ask::Push(124), Some(1)),
    (Ask::Push(55), Some(2)),
    (Ask::Push(126), Some(3)),
    (Ask::Pop, Some(126)),
    (Ask::FirstEmpty, Some(3)),
    (Ask::Erase(0), Some(123)),
    (Ask::Erase(0), None),
    (Ask::FirstEmpty, Some(0)),
    (Ask::LastUsed, Some(2)),
    (Ask::Size, Some(2)),
    (Ask::Set(0, 126), None),
    (Ask::Get(0), Some(126)),
    (Ask::Update(0, 123), Some(126)),
    (Ask::Write(0, 7), Some(123)),
    (Ask::Get(0), Some(7)),
    (Ask::Update(40, 9), None),
    (Ask::Last, Some(9)),
    (Ask::FirstUsed, Some(0)),
    (Ask::Size, Some(4)),
    (Ask::Clear, None),
    (Ask::IsEmpty, Some(1)),
    (Ask::Get(0), None),
    (Ask::Push(1), Some(0)),
];

#[test]
fn an_array_fills_its_first_free_place_and_makes_no_request(rt: HostRuntime) -> Result<(), Fail> {
    let alloc = rt.alloc();
    let mut array: BitArray<u8, 48, Bitset16<3>> = BitArray::new(alloc)?;
    refuse(alloc, 1);
    rows_hold(&rt, &mut array, &FIRST_FREE_PLACE);
    assert!(rt; !was_refused(alloc));
    Ok(())
}

static FULL: [Row; 5] = [
    (Ask::FirstEmpty, None),
    (Ask::Push(1), None),
    (Ask::Size, Some(48)),
    (Ask::Erase(20), Some(9)),
    (Ask::Push(1), Some(20)),
];

#[test]
fn a_full_array_refuses_a_push(rt: HostRuntime) -> Result<(), Fail> {
    let mut array: BitArray<u8, 48, Bitset64<1>> = BitArray::new(rt.alloc())?;
    for position in 0..48_usize {
        array.set(position, 9);
    }
    rows_hold(&rt, &mut array, &FULL);
    Ok(())
}

static WRITTEN_BY_WALKS: [Row; 37] = [
    (Ask::WriteAll(1), Some(0)),
    (Ask::IsEmpty, Some(1)),
    (Ask::Known, None),
    (Ask::Scanned, Some(0)),
    (Ask::Set(0, 10), None),
    (Ask::Set(8, 20), None),
    (Ask::Set(12, 30), None),
    (Ask::Known, Some(3)),
    (Ask::WriteAll(1), Some(3)),
    (Ask::Get(0), Some(11)),
    (Ask::Get(8), Some(21)),
    (Ask::Get(12), Some(31)),
    (Ask::Get(1), None),
    (Ask::WriteAll(1), Some(3)),
    (Ask::Known, None),
    (Ask::Scanned, Some(3)),
    (Ask::IsEmpty, Some(0)),
    (Ask::Size, Some(3)),
    (Ask::FirstUsed, Some(0)),
    (Ask::LastUsed, Some(12)),
    (Ask::FirstEmpty, Some(1)),
    (Ask::Check(8), Some(1)),
    (Ask::Check(9), Some(0)),
    (Ask::Last, Some(32)),
    (Ask::Push(50), Some(1)),
    (Ask::Size, Some(4)),
    (Ask::WriteAll(1), Some(4)),
    (Ask::Erase(0), Some(13)),
    (Ask::WriteAll(1), Some(3)),
    (Ask::Pop, Some(34)),
    (Ask::WriteAll(1), Some(2)),
    (Ask::Update(1, 9), Some(53)),
    (Ask::Size, Some(2)),
    (Ask::WriteAll(1), Some(2)),
    (Ask::Put(0, 60), None),
    (Ask::Known, Some(3)),
    (Ask::Get(0), Some(60)),
];

#[test]
fn an_array_is_known_and_changed_after_each_walk_that_writes(rt: HostRuntime) -> Result<(), Fail> {
    let mut array: BitArray<u8, 16, Bitset8<2>> = BitArray::new(rt.alloc())?;
    rows_hold(&rt, &mut array, &WRITTEN_BY_WALKS);
    Ok(())
}

type Values = BitArray<u8, 48, Bitset64<1>>;

fn three_values(alloc: Global) -> Result<Values, TreeError> {
    let mut array: Values = BitArray::new(alloc)?;
    array.set(3, 1);
    array.set(7, 2);
    array.set(40, 3);
    Ok(array)
}

#[test]
fn the_positions_of_an_array_are_walked_from_both_ends(rt: HostRuntime) -> Result<(), Fail> {
    let array = three_values(rt.alloc())?;
    let mut keys = array.iter_keys();
    expect_eq(&rt, keys.next(), Some(3));
    expect_eq(&rt, keys.next_back(), Some(40));
    expect_eq(&rt, keys.next(), Some(7));
    expect_eq(&rt, (keys.next(), keys.next_back()), (None, None));
    Ok(())
}

// The place of an entry of a walk and its value.
fn read(entry: Option<(usize, &u8)>) -> Option<(usize, u8)> {
    let (position, value) = entry?;
    Some((position, *value))
}

#[test]
fn an_array_is_walked_from_both_ends(rt: HostRuntime) -> Result<(), Fail> {
    let array = three_values(rt.alloc())?;
    let mut entries = array.iter();
    expect_eq(&rt, read(entries.next_back()), Some((40, 3)));
    expect_eq(&rt, read(entries.next()), Some((3, 1)));
    expect_eq(&rt, read(entries.next_back()), Some((7, 2)));
    let none = (read(entries.next()), read(entries.next_back()));
    expect_eq(&rt, none, (None, None));
    Ok(())
}

// Writes to an entry of a walk: its place and its old value.
fn written(entry: Option<(usize, &mut u8)>, value: u8) -> Option<(usize, u8)> {
    let (position, place) = entry?;
    let old = *place;
    *place = value;
    Some((position, old))
}

// Whether a walk that writes lends each of the three values once, and stays at its end.
fn is_written_from_both_ends(array: &mut Values) -> bool {
    let mut walk = array.iter_mut();
    written(walk.next(), 31) == Some((3, 1))
        && written(walk.next_back(), 33) == Some((40, 3))
        && written(walk.next(), 32) == Some((7, 2))
        && (walk.next().is_none() && walk.next_back().is_none())
        && (walk.next().is_none() && walk.next_back().is_none())
}

static WRITTEN_FROM_BOTH_ENDS: [Row; 4] = [
    (Ask::Get(3), Some(31)),
    (Ask::Get(7), Some(32)),
    (Ask::Get(40), Some(33)),
    (Ask::Size, Some(3)),
];

#[test]
fn values_are_changed_on_a_walk_from_both_ends(rt: HostRuntime) -> Result<(), Fail> {
    let mut array = three_values(rt.alloc())?;
    assert!(rt; is_written_from_both_ends(&mut array));
    rows_hold(&rt, &mut array, &WRITTEN_FROM_BOTH_ENDS);
    Ok(())
}

type Counts<'a> = BitArray<Counted<'a>, 48, Bitset64<1>>;

fn full<'a>(array: &mut Counts<'a>, drops: &'a Cell<usize>) {
    for position in 0..48_usize {
        array.set(position, Counted(1, drops));
    }
}

#[test]
fn a_value_put_over_another_drops_that_once(rt: HostRuntime) -> Result<(), Fail> {
    let drops = Cell::new(0_usize);
    let mut array: Counts<'_> = BitArray::new(rt.alloc())?;
    full(&mut array, &drops);
    expect_eq(&rt, drops.get(), 0);
    array.set(3, Counted(2, &drops));
    expect_eq(&rt, drops.get(), 1);
    expect_eq(&rt, array.push(Counted(3, &drops)), None);
    expect_eq(&rt, drops.get(), 2);
    drop(array);
    expect_eq(&rt, drops.get(), 50);
    Ok(())
}

#[test]
fn a_cleared_array_drops_each_value_once(rt: HostRuntime) -> Result<(), Fail> {
    let drops = Cell::new(0_usize);
    let mut array: Counts<'_> = BitArray::new(rt.alloc())?;
    full(&mut array, &drops);
    array.clear();
    expect_eq(&rt, drops.get(), 48);
    assert!(rt; array.is_empty());
    array.clear();
    expect_eq(&rt, drops.get(), 48);
    expect_eq(&rt, array.push(Counted(3, &drops)), Some(0));
    drop(array);
    expect_eq(&rt, drops.get(), 49);
    Ok(())
}

#[test]
fn values_taken_out_of_an_array_are_handed_out(rt: HostRuntime) -> Result<(), Fail> {
    let drops = Cell::new(0_usize);
    let mut array: Counts<'_> = BitArray::new(rt.alloc())?;
    full(&mut array, &drops);
    let taken = (
        array.pop(),
        array.erase(5),
        array.update(6, Counted(2, &drops)),
    );
    assert!(rt; taken.0.is_some() && taken.1.is_some() && taken.2.is_some());
    expect_eq(&rt, drops.get(), 0);
    drop(taken);
    expect_eq(&rt, drops.get(), 3);
    drop(array);
    expect_eq(&rt, drops.get(), 49);
    Ok(())
}

#[test]
fn a_new_array_refused_in_turn(rt: HostRuntime) {
    let alloc = rt.alloc();
    for at in 1..100_usize {
        refuse(alloc, at);
        let answer: Result<BitArray<u8, 48, Bitset64<1>>, TreeError> = BitArray::new(alloc);
        let refused = was_refused(alloc);
        match answer {
            Ok(mut array) => {
                assert!(rt; !refused && array.is_empty(), "request {at}");
                rows_hold(&rt, &mut array, &FIRST_FREE_PLACE);
                return;
            }
            Err(error) => assert!(rt; refused && error == TreeError::Memory, "request {at}"),
        }
    }
    assert!(rt; false, "refused for ever");
}
