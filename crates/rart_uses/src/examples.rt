//! The lines that the documentation of the map's calls shows.

use crate::cursor::double_all;
use crate::numbers::remove_earliest;
use crate::readings::Readings;
use crate::rows;
use rart::{
    AdaptiveRadixTree, ArrayKey, BulkError, KeyTrait, RangeDescending, RouteTable, Slot,
    SlotUpdate, TreeError, UpdateError,
};
use std::alloc::Global;
use std::io;
use std::ops::Bound;

type Names = AdaptiveRadixTree<ArrayKey<16>, u32>;

// The readings of a list that is sorted by time.
fn loaded_readings(alloc: Global, sorted: Vec<(ArrayKey<8>, u64)>) -> Result<Readings, BulkError> {
    AdaptiveRadixTree::bulk_load_sorted(alloc, sorted)
}

fn first_reading(tree: &Readings) -> Option<u64> {
    let mut pairs = tree.iter().ok()?;
    match pairs.next() {
        Some((_time, reading)) => Some(*reading),
        None => None,
    }
}

fn last_reading(readings: &Readings) -> Option<u64> {
    let mut latest = readings.iter_descending().ok()?;
    match latest.next() {
        Some((_time, reading)) => Some(*reading),
        None => None,
    }
}

fn reading_from_back(readings: &Readings) -> Option<u64> {
    let mut ends = readings.iter_both_ends().ok()?;
    match ends.next_back() {
        Some((_time, reading)) => Some(*reading),
        None => None,
    }
}

fn readings_before(
    readings: &Readings,
    time: u64,
) -> Result<RangeDescending<'_, ArrayKey<8>, u64>, TreeError> {
    readings.range_descending(
        Bound::Unbounded,
        Bound::Excluded(ArrayKey::<8>::from_u64(time)),
    )
}

// The target of an address before a route is withdrawn.
fn target_before(table: &RouteTable<ArrayKey<8>, u64>, probe: &[u8]) -> Option<u64> {
    let before = table.route(probe).copied();
    before
}

// Five more of a name, if it is stored.
fn add_five(names: &mut Names) -> Result<bool, UpdateError<u32>> {
    let added = names.update_k(&ArrayKey::new_from_slice(b"bucket"), |slot| {
        if let Slot::Occupied(n) = slot {
            *n = n.wrapping_add(5);
        }
        SlotUpdate::Keep
    });
    added
}

// One more of a name, if it is stored.
fn add_one(names: &mut Names) {
    if let Some(n) = names.get_mut_k(&ArrayKey::new_from_slice(b"bucket")) {
        *n = n.wrapping_add(1);
    }
}

fn print_ends(rt: &impl Print, readings: &Readings) -> io::Result<()> {
    println!(rt; "first reading: {:?}", first_reading(readings))?;
    println!(rt; "last reading: {:?}", last_reading(readings))?;
    println!(rt; "from the back: {:?}", reading_from_back(readings))?;
    let Ok(before) = readings_before(readings, 30) else {
        return println!(rt; "out of memory");
    };
    for (_time, value) in before {
        println!(rt; "reading before 30: {value}")?;
    }
    Ok(())
}

fn print_edits(rt: &impl Print, alloc: Global) -> io::Result<()> {
    let table = RouteTable::new(alloc);
    println!(rt; "target before: {:?}", target_before(&table, &[10]))?;
    let mut names: AdaptiveRadixTree<ArrayKey<16>, u32> = AdaptiveRadixTree::new(alloc);
    add_one(&mut names);
    let stored = matches!(add_five(&mut names), Ok(true));
    println!(rt; "bucket is stored: {stored}")?;
    match loaded_readings(alloc, Vec::new(alloc)) {
        Ok(mut readings) => {
            let removed = matches!(remove_earliest(&mut readings), Ok(Some(_)));
            println!(rt; "earliest was stored: {removed}")
        }
        Err(_) => println!(rt; "out of memory"),
    }
}

fn print_doubled(rt: &impl Print, readings: &mut Readings) -> io::Result<()> {
    match double_all(readings) {
        Ok(()) => println!(rt;
            "doubled: {:?} to {:?}",
            first_reading(readings),
            last_reading(readings)
        ),
        Err(_) => println!(rt; "out of memory"),
    }
}

/// Prints what the lines return.
///
/// # Errors
///
/// That of a failed write to standard output.
pub fn print_examples(rt: &impl Print, alloc: Global) -> io::Result<()> {
    match rows::readings(alloc) {
        Ok(mut readings) => {
            print_ends(rt, &readings)?;
            print_doubled(rt, &mut readings)?;
        }
        Err(_) => println!(rt; "out of memory")?,
    }
    print_edits(rt, alloc)
}
