//! Walks that their callback ends: how many nodes they visit until then, and that they drop it.

use rart::VisitControl;
use rart_test_tools::counted::Counted;
use rart_test_trees::tally::Tally;
use rart_test_trees::texts::{Key, Pair, Tree, filled};
use std::cell::Cell;
use std::ops::Bound;
use std::panic::Expect;

// Each key begins the next one, and all begin "abcdefghij".
static NESTED: [Pair; 8] = [
    ("", 0),
    ("a", 1),
    ("ab", 2),
    ("abc", 3),
    ("abcd", 4),
    ("abcde", 5),
    ("abcdef", 6),
    ("abcdefg", 7),
];

static WORDS: [Pair; 6] = [
    ("ax", 1),
    ("az", 2),
    ("bx", 3),
    ("bz", 4),
    ("cx", 5),
    ("cz", 6),
];

// The call that ends a walk, and the nodes that are visited.
type Row = (usize, usize);

// A pair of nodes is one visit: the roots, then the pair of each first byte, and that of each key.
static SHARED: [Row; 5] = [(1, 3), (2, 4), (3, 6), (6, 10), (7, 10)];

// What a callback returns at a call, if `end` is the one that ends the walk.
fn answer(call: usize, end: usize, fails: bool) -> Result<VisitControl, u64> {
    if call < end {
        Ok(VisitControl::Continue)
    } else if fails {
        Err(7)
    } else {
        Ok(VisitControl::Stop)
    }
}

fn shared_visited(one: &Tree, other: &Tree, end: usize, fails: bool) -> usize {
    let mut call = 0_usize;
    let mut f = |_key: Key, _one: &u64, _other: &u64| {
        call = call.wrapping_add(1);
        answer(call, end, fails)
    };
    let mut tally = Tally::new();
    let _ended = one
        .seen()
        .try_intersect_with_by_ref_counted(other.seen(), &mut f, &mut tally);
    tally.number
}

fn first_wrong_shared(one: &Tree, other: &Tree) -> Option<usize> {
    for &(end, visits) in &SHARED {
        if shared_visited(one, other, end, false) != visits
            || shared_visited(one, other, end, true) != visits
        {
            return Some(end);
        }
    }
    None
}

#[test]
fn an_intersection_visits_no_node_once_it_is_ended(rt: HostRuntime) {
    let one = filled(rt.alloc(), &WORDS).expect(&rt, "a tree");
    let other = filled(rt.alloc(), &WORDS).expect(&rt, "a tree");
    assert_eq!(rt; first_wrong_shared(&one, &other), None);
}

#[test]
fn is_disjoint_visits_no_node_after_the_first_shared_key(rt: HostRuntime) {
    let one = filled(rt.alloc(), &WORDS).expect(&rt, "a tree");
    let other = filled(rt.alloc(), &WORDS).expect(&rt, "a tree");
    let mut tally = Tally::new();
    let is_disjoint = one.seen().is_disjoint_counted(other.seen(), &mut tally);
    assert!(rt; !is_disjoint);
    assert_eq!(rt; tally.number, 3);
}

// How often a walk over matches drops its callback.
fn matches_drops(tree: &Tree, end: usize, fails: bool) -> usize {
    let drops = Cell::new(0_usize);
    let held = Counted(0, &drops);
    let mut call = 0_usize;
    let _ended = tree.try_prefix_match_for_each_bytes(
        b"abcdefghij",
        move |_key: &[u8], _value: &u64| {
            let _held = &held;
            call = call.wrapping_add(1);
            answer(call, end, fails)
        },
    );
    drops.get()
}

fn shared_drops(tree: &Tree, end: usize, fails: bool) -> usize {
    let drops = Cell::new(0_usize);
    let held = Counted(0, &drops);
    let mut call = 0_usize;
    let _ended = tree.try_intersect_with(tree, move |_key: Key, _one: &u64, _other: &u64| {
        let _held = &held;
        call = call.wrapping_add(1);
        answer(call, end, fails)
    });
    drops.get()
}

fn values_drops(tree: &mut Tree) -> usize {
    let drops = Cell::new(0_usize);
    let held = Counted(0, &drops);
    tree.range_for_each_value_mut(Bound::Unbounded, Bound::Unbounded, move |value: &mut u64| {
        let _held = &held;
        *value = 9;
    });
    drops.get()
}

// At the first call, at a later one, and at none.
fn are_dropped_once(tree: &Tree) -> bool {
    for end in [1, 2, 99] {
        for fails in [false, true] {
            if matches_drops(tree, end, fails) != 1 || shared_drops(tree, end, fails) != 1 {
                return false;
            }
        }
    }
    true
}

#[test]
fn a_callback_by_value_is_dropped_once(rt: HostRuntime) {
    let mut tree = filled(rt.alloc(), &NESTED).expect(&rt, "a tree");
    assert!(rt; are_dropped_once(&tree));
    assert_eq!(rt; values_drops(&mut tree), 1);
}
