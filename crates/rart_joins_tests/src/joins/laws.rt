//! The law of intersections, called on each row; and intersections with an empty tree.

use crate::joins::rows::{Given, Triple};
use crate::joins::{Check, first_wrong};
use rart::laws::intersections::intersections_are_symmetric;
use rart::{KeyTrait, TreeError};
use rart_test_tools::refusals::{is_swept, refuse, was_refused};
use rart_test_trees::texts::{Key, Tree};
use std::alloc::Global;

// Whether the law's call gives what both trees have, and with swapped values once more.
pub fn gives_both_ways(left: &Tree, right: &Tree, wanted: &[Triple]) -> bool {
    let mut there = Given::nothing(wanted, false);
    let mut back = Given::nothing(wanted, true);
    let mut one_way = |key: Key, one: &u64, other: &u64| there.pair(key.as_ref(), *one, *other);
    let mut other_way = |key: Key, one: &u64, other: &u64| back.pair(key.as_ref(), *one, *other);
    let answer = intersections_are_symmetric(left, right, &mut one_way, &mut other_way);
    answer.is_ok() && there.all() && back.all()
}

#[test]
fn swapped_trees_give_swapped_values(rt: HostRuntime) {
    assert_eq!(rt; first_wrong(rt.alloc(), Check::Law), None);
}

// A refused law says `Memory`: the second callback wasn't called, and the first was called at all pairs or at none.
// Whether a request was refused.
fn is_refused_well(
    alloc: Global,
    left: &Tree,
    right: &Tree,
    wanted: &[Triple],
    at: usize,
) -> Option<bool> {
    let mut there = Given::nothing(wanted, false);
    let mut back = Given::nothing(wanted, true);
    let mut one_way = |key: Key, one: &u64, other: &u64| there.pair(key.as_ref(), *one, *other);
    let mut other_way = |key: Key, one: &u64, other: &u64| back.pair(key.as_ref(), *one, *other);
    refuse(alloc, at);
    let answer = intersections_are_symmetric(left, right, &mut one_way, &mut other_way);
    let refused = was_refused(alloc);
    let well = match answer {
        Ok(()) => !refused && there.all() && back.all(),
        Err(error) => {
            let once_or_never = there.all() || there.is_uncalled();
            refused && error == TreeError::Memory && back.is_uncalled() && once_or_never
        }
    };
    well.then_some(refused)
}

// Nothing is requested where a tree is empty.
pub fn law_is_swept(alloc: Global, left: &Tree, right: &Tree, wanted: &[Triple]) -> bool {
    if left.is_empty() || right.is_empty() {
        is_refused_well(alloc, left, right, wanted, 1) == Some(false)
    } else {
        is_swept(alloc, |at| is_refused_well(alloc, left, right, wanted, at))
    }
}

#[test]
fn swapped_trees_refused_in_turn(rt: HostRuntime) {
    assert_eq!(rt; first_wrong(rt.alloc(), Check::LawRefused), None);
}
