//! The maps from bytes to children: rows of calls, walks, and dropped children.
ghost use Rattle.std.specs.Iterator.{IsFinite};

use crate::compare::expect_eq;
use rart_maps::mapping::{
    DirectMapping, IndexedMapping, KeyedMapping, NodeMapping, SortedKeyedMapping,
};
use rart_parts::TreeError;
use rart_parts::utils::bitset::{Bitset8, Bitset16};
use rart_test_tools::counted::Counted;
use rart_test_tools::refusals::{refuse, was_refused};
use std::alloc::Global;
use std::cell::Cell;
use std::test::Fail;

/// A call of a map.
#[derive(Clone, Copy)]
enum Ask {
    Add(u8, u8),
    Seek(u8),
    /// Writes through the loan of the child: the old one.
    Write(u8, u8),
    Delete(u8),
}

// The answer of each, and how many children the map then has.
type Row = (Ask, Option<u8>, usize);

/// Inserts a child if its byte has none and a slot is free; returns whether it did.
pub fn add<N: Drop, const W: usize>(map: &mut impl NodeMapping<N, W>, key: u8, child: N) -> bool {
    if map.seek_child(key).is_some() || map.num_children() >= W {
        return false;
    }
    map.add_child(key, child);
    true
}

fn write<const W: usize>(map: &mut impl NodeMapping<u8, W>, key: u8, child: u8) -> Option<u8> {
    let place = map.seek_child_mut(key)?;
    let old = *place;
    *place = child;
    Some(old)
}

fn answer<const W: usize>(map: &mut impl NodeMapping<u8, W>, ask: Ask) -> Option<u8> {
    match ask {
        Ask::Add(key, child) => add(map, key, child).then_some(child),
        Ask::Seek(key) => map.seek_child(key).copied(),
        Ask::Write(key, child) => write(map, key, child),
        Ask::Delete(key) => map.delete_child(key),
    }
}

fn rows_hold<const W: usize>(map: &mut impl NodeMapping<u8, W>, rows: &[Row]) -> bool {
    for (ask, want, count) in rows {
        if answer(map, *ask) != *want || map.num_children() != *count {
            return false;
        }
    }
    map.width() == W
}

static FOUR: [Row; 12] = [
    (Ask::Add(1, 1), Some(1), 1),
    (Ask::Add(4, 4), Some(4), 2),
    (Ask::Add(3, 3), Some(3), 3),
    (Ask::Add(2, 2), Some(2), 4),
    (Ask::Seek(5), None, 4),
    (Ask::Write(3, 30), Some(3), 4),
    (Ask::Write(5, 50), None, 4),
    (Ask::Delete(1), Some(1), 3),
    (Ask::Delete(2), Some(2), 2),
    (Ask::Delete(3), Some(30), 1),
    (Ask::Delete(4), Some(4), 0),
    (Ask::Delete(5), None, 0),
];

static IN_ORDER: [Row; 10] = [
    (Ask::Add(1, 1), Some(1), 1),
    (Ask::Add(2, 2), Some(2), 2),
    (Ask::Add(3, 3), Some(3), 3),
    (Ask::Add(4, 4), Some(4), 4),
    (Ask::Seek(5), None, 4),
    (Ask::Delete(1), Some(1), 3),
    (Ask::Delete(2), Some(2), 2),
    (Ask::Delete(3), Some(3), 1),
    (Ask::Delete(4), Some(4), 0),
    (Ask::Delete(5), None, 0),
];

static KEY_255: [Row; 8] = [
    (Ask::Add(1, 5), Some(5), 1),
    (Ask::Seek(255), None, 1),
    (Ask::Add(255, 9), Some(9), 2),
    (Ask::Delete(1), Some(5), 1),
    (Ask::Seek(255), Some(9), 1),
    (Ask::Seek(7), None, 1),
    (Ask::Delete(255), Some(9), 0),
    (Ask::Seek(255), None, 0),
];

type Keyed4 = KeyedMapping<u8, 4, Bitset8<4>>;

pub type Indexed48 = IndexedMapping<u8, 48, Bitset16<3>>;

fn rows_hold_in_both<const W: usize>(map: &mut impl NodeMapping<u8, W>) -> bool {
    rows_hold(map, &FOUR) && rows_hold(map, &IN_ORDER) && rows_hold(map, &KEY_255)
}

// Whether a new map gives its children back, without a request.
fn gives_back<const W: usize, M: NodeMapping<u8, W> + Drop>(
    alloc: Global,
    made: Result<M, TreeError>,
) -> bool {
    let Ok(mut map) = made else {
        return false;
    };
    refuse(alloc, 1);
    rows_hold_in_both(&mut map) && !was_refused(alloc)
}

#[test]
fn each_map_gives_its_children_back_and_makes_no_request(rt: HostRuntime) {
    let alloc = rt.alloc();
    assert!(rt; gives_back(alloc, SortedKeyedMapping::<u8, 4>::new(alloc)));
    assert!(rt; gives_back(alloc, Keyed4::new(alloc)));
    assert!(rt; gives_back(alloc, Indexed48::new(alloc)));
    assert!(rt; gives_back(alloc, DirectMapping::<u8>::new(alloc)));
}

/// Puts the bytes in, each as its own child; whether it did.
pub fn fill<const W: usize>(map: &mut impl NodeMapping<u8, W>, keys: &[u8]) -> bool {
    for key in keys {
        if !add(map, *key, *key) {
            return false;
        }
    }
    map.num_children() == keys.len()
}

/// Whether a walk gives these bytes in this order, each with itself as the child, and ends.
pub fn gives<I: Iterator<Item = (u8, u8)> + Drop>(mut walk: I, keys: &[u8]) -> bool
    requires { I.Iterator.can_next walk × IsFinite (I.Iterator.remaining walk) }
{
    for key in keys {
        if walk.next() != Some((*key, *key)) {
            return false;
        }
    }
    walk.next().is_none()
}

/// Whether a walk lends these bytes in this order, each with itself as the child, and ends.
pub fn lends<'a, I: Iterator<Item = (u8, &'a u8)> + Drop>(mut walk: I, keys: &[u8]) -> bool
    requires { I.Iterator.can_next walk × IsFinite (I.Iterator.remaining walk) }
{
    for key in keys {
        match walk.next() {
            Some((byte, child)) => {
                if byte != *key || *child != *key {
                    return false;
                }
            }
            None => return false,
        }
    }
    walk.next().is_none()
}

pub const SCATTERED: [u8; 5] = [200, 3, 250, 17, 128];

const ASCENDING: [u8; 5] = [3, 17, 128, 200, 250];

const CLOSE_BY: [u8; 5] = [200, 3, 47, 17, 129];

const CLOSE_BY_ASCENDING: [u8; 5] = [3, 17, 47, 129, 200];

// Whether a map that the keys are put in lends and then gives them in their order.
macro_rules! is_walked {
    ($map:expr, $keys:expr, $ascending:expr) => {{
        let mut map = $map;
        fill(&mut map, $keys) && lends(map.iter(), $ascending) && gives(map.into_iter(), $ascending)
    }};
}

#[test]
fn a_sorted_map_is_walked_in_the_order_of_its_bytes(rt: HostRuntime) -> Result<(), Fail> {
    let map: SortedKeyedMapping<u8, 16> = SortedKeyedMapping::new(rt.alloc())?;
    assert!(rt; is_walked!(map, &SCATTERED, &ASCENDING));
    Ok(())
}

#[test]
fn an_indexed_map_is_walked_in_the_order_of_its_bytes(rt: HostRuntime) -> Result<(), Fail> {
    assert!(rt; is_walked!(Indexed48::new(rt.alloc())?, &SCATTERED, &ASCENDING));
    Ok(())
}

#[test]
fn a_direct_map_is_walked_in_the_order_of_its_bytes(rt: HostRuntime) -> Result<(), Fail> {
    let map: DirectMapping<u8> = DirectMapping::new(rt.alloc())?;
    assert!(rt; is_walked!(map, &SCATTERED, &ASCENDING));
    Ok(())
}

#[test]
fn an_indexed_map_ascends_over_all_words_of_its_set(rt: HostRuntime) -> Result<(), Fail> {
    assert!(rt; is_walked!(Indexed48::new(rt.alloc())?, &CLOSE_BY, &CLOSE_BY_ASCENDING));
    Ok(())
}

#[test]
fn a_direct_map_ascends_over_all_words_of_its_set(rt: HostRuntime) -> Result<(), Fail> {
    let map: DirectMapping<u8> = DirectMapping::new(rt.alloc())?;
    assert!(rt; is_walked!(map, &CLOSE_BY, &CLOSE_BY_ASCENDING));
    Ok(())
}

#[test]
fn an_only_child_is_taken_out_with_its_byte(rt: HostRuntime) -> Result<(), Fail> {
    let mut map: SortedKeyedMapping<u8, 4> = SortedKeyedMapping::new(rt.alloc())?;
    map.add_child(9, 5);
    expect_eq(&rt, map.num_children(), 1);
    assert!(rt; map.take_value_for_leaf() == (9, 5));
    assert!(rt; map.num_children() == 0 && map.seek_child(9).is_none());
    Ok(())
}

type Child<'a> = Counted<'a>;

// Inserts children; whether it did. A macro, as those below: a bound says too little of a walk's second item,
// and a helper with a lifetime and a width gets no proof.
macro_rules! fill_counted {
    ($map:expr, $keys:expr, $drops:expr) => {{
        let mut all = true;
        for key in $keys {
            all = add(&mut $map, key, Counted(key, &$drops)) && all;
        }
        all
    }};
}

// Whether, of five children, two that are taken out of a walk, the walk that is then dropped, and at last those two are
// dropped once each.
macro_rules! drops_the_rest {
    ($walk:expr, $drops:expr) => {{
        let mut walk = $walk;
        let all = walk.size_hint() == (5, Some(5));
        let items = (walk.next(), walk.next());
        let first = matches!(&items.0, Some((3, child)) if child.0 == 3);
        let second = matches!(&items.1, Some((17, child)) if child.0 == 17);
        let rest = walk.size_hint() == (3, Some(3));
        let none = $drops.get();
        drop(walk);
        let three = $drops.get();
        drop(items);
        all && first && second && rest && none == 0 && three == 3 && $drops.get() == 5
    }};
}

#[test]
fn a_sorted_walk_drops_the_rest_once(rt: HostRuntime) -> Result<(), Fail> {
    let drops = Cell::new(0_usize);
    let mut map: SortedKeyedMapping<Child<'_>, 16> = SortedKeyedMapping::new(rt.alloc())?;
    let filled = fill_counted!(map, SCATTERED, drops);
    assert!(rt; filled);
    let once = drops_the_rest!(map.into_iter(), drops);
    assert!(rt; once);
    Ok(())
}

#[test]
fn a_sorted_walk_that_ends_after_its_first_item_drops_the_rest_once(
    rt: HostRuntime,
) -> Result<(), Fail> {
    let drops = Cell::new(0_usize);
    let mut map: SortedKeyedMapping<Child<'_>, 4> = SortedKeyedMapping::new(rt.alloc())?;
    let filled = fill_counted!(map, [8_u8, 1, 6], drops);
    assert!(rt; filled);
    let mut walk = map.into_iter();
    let first = walk.next();
    assert!(rt; matches!(&first, Some((1, child)) if child.0 == 1));
    drop(walk);
    expect_eq(&rt, drops.get(), 2);
    drop(first);
    expect_eq(&rt, drops.get(), 3);
    Ok(())
}

#[test]
fn an_indexed_walk_drops_the_rest_once(rt: HostRuntime) -> Result<(), Fail> {
    let drops = Cell::new(0_usize);
    let mut map: IndexedMapping<Child<'_>, 48, Bitset16<3>> = IndexedMapping::new(rt.alloc())?;
    let filled = fill_counted!(map, SCATTERED, drops);
    assert!(rt; filled);
    let once = drops_the_rest!(map.into_iter(), drops);
    assert!(rt; once);
    Ok(())
}

#[test]
fn a_direct_walk_drops_the_rest_once(rt: HostRuntime) -> Result<(), Fail> {
    let drops = Cell::new(0_usize);
    let mut map: DirectMapping<Child<'_>> = DirectMapping::new(rt.alloc())?;
    let filled = fill_counted!(map, SCATTERED, drops);
    assert!(rt; filled);
    let once = drops_the_rest!(map.into_iter(), drops);
    assert!(rt; once);
    Ok(())
}

// Whether, of five children, the one that is taken out and those that the map is dropped with are dropped once each.
macro_rules! drops_children {
    ($map:expr, $drops:expr) => {{
        let mut map = $map;
        $drops.set(0);
        let filled = fill_counted!(map, SCATTERED, $drops);
        let taken = map.delete_child(128);
        let none = $drops.get();
        drop(taken);
        let one = $drops.get();
        drop(map);
        filled && none == 0 && one == 1 && $drops.get() == 5
    }};
}

#[test]
fn a_dropped_sorted_map_drops_its_children_once(rt: HostRuntime) -> Result<(), Fail> {
    let drops = Cell::new(0_usize);
    let map: SortedKeyedMapping<Child<'_>, 16> = SortedKeyedMapping::new(rt.alloc())?;
    let once = drops_children!(map, drops);
    assert!(rt; once);
    Ok(())
}

#[test]
fn a_dropped_keyed_map_drops_its_children_once(rt: HostRuntime) -> Result<(), Fail> {
    let drops = Cell::new(0_usize);
    let map: KeyedMapping<Child<'_>, 16, Bitset16<1>> = KeyedMapping::new(rt.alloc())?;
    let once = drops_children!(map, drops);
    assert!(rt; once);
    Ok(())
}

#[test]
fn a_dropped_indexed_map_drops_its_children_once(rt: HostRuntime) -> Result<(), Fail> {
    let drops = Cell::new(0_usize);
    let map: IndexedMapping<Child<'_>, 48, Bitset16<3>> = IndexedMapping::new(rt.alloc())?;
    let once = drops_children!(map, drops);
    assert!(rt; once);
    Ok(())
}

#[test]
fn a_dropped_direct_map_drops_its_children_once(rt: HostRuntime) -> Result<(), Fail> {
    let drops = Cell::new(0_usize);
    let map: DirectMapping<Child<'_>> = DirectMapping::new(rt.alloc())?;
    let once = drops_children!(map, drops);
    assert!(rt; once);
    Ok(())
}
