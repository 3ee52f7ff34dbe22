//! The counted calls of intersections: each answers as the plain one does.

use crate::joins::rows::{Given, Triple};
use crate::joins::{Check, first_wrong};
use rart::{KeyTrait, LendingKeyView, Seen, Visits};
use rart_test_trees::texts::{Key, Tree};

fn seen(tree: &Tree) -> Seen<'_, Key, u64, Visits> {
    tree.seen()
}

fn counts_and_values(left: &Tree, right: &Tree, wanted: &[Triple]) -> bool {
    let count = seen(left).intersect_count_counted(right.seen(), &mut Visits::new());
    let mut given = Given::nothing(wanted, false);
    seen(left).intersect_values_with_counted(
        right.seen(),
        |one: &u64, other: &u64| given.values(*one, *other),
        &mut Visits::new(),
    );
    let mut lent = Given::nothing(wanted, false);
    let mut give = |one: &u64, other: &u64| lent.values(*one, *other);
    seen(left).intersect_values_with_by_ref_counted(right.seen(), &mut give, &mut Visits::new());
    count == wanted.len() && given.all() && lent.all()
}

fn keys(left: &Tree, right: &Tree, wanted: &[Triple]) -> bool {
    let mut given = Given::nothing(wanted, false);
    let answer = seen(left).intersect_with_counted(
        right.seen(),
        |key: Key, one: &u64, other: &u64| given.pair(key.as_ref(), *one, *other),
        &mut Visits::new(),
    );
    let mut lent = Given::nothing(wanted, false);
    let mut give = |key: Key, one: &u64, other: &u64| lent.pair(key.as_ref(), *one, *other);
    let by_ref = seen(left).intersect_with_by_ref_counted(
        right.seen(),
        &mut give,
        &mut Visits::new(),
    );
    answer.is_ok() && by_ref.is_ok() && given.all() && lent.all()
}

fn views(left: &Tree, right: &Tree, wanted: &[Triple]) -> bool {
    let mut given = Given::nothing(wanted, false);
    let answer = seen(left).intersect_lending_with_counted(
        right.seen(),
        |key: LendingKeyView<'_, '_>, one: &u64, other: &u64| given.view(key, *one, *other),
        &mut Visits::new(),
    );
    let mut lent = Given::nothing(wanted, false);
    let mut give = |key: LendingKeyView<'_, '_>, one: &u64, other: &u64| {
        lent.view(key, *one, *other);
    };
    let by_ref = seen(left).intersect_lending_with_by_ref_counted(
        right.seen(),
        &mut give,
        &mut Visits::new(),
    );
    answer.is_ok() && by_ref.is_ok() && given.all() && lent.all()
}

fn sets(left: &Tree, right: &Tree, wanted: &[Triple]) -> bool {
    let one = left.seen::<Visits>();
    let is_subset = one.is_subset_counted(
        left.len(),
        right.seen(),
        right.len(),
        &mut Visits::new(),
    );
    let is_disjoint = one.is_disjoint_counted(right.seen(), &mut Visits::new());
    is_subset == (wanted.len() == left.len()) && is_disjoint == wanted.is_empty()
}

pub fn are_those_of_plain_calls(left: &Tree, right: &Tree, wanted: &[Triple]) -> bool {
    counts_and_values(left, right, wanted)
        && keys(left, right, wanted)
        && views(left, right, wanted)
        && sets(left, right, wanted)
}

#[test]
fn keys_of_both_trees_are_those_of_the_plain_calls(rt: HostRuntime) {
    assert_eq!(rt; first_wrong(rt.alloc(), Check::Counted), None);
}
