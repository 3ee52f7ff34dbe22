//! Calls of a route table at a prefix or at a probe.

use crate::answer::Answer;
use crate::calls::callbacks::put_walked;
use crate::calls::edits::{put_inserted, put_new, put_removed, put_tried, replaced};
use crate::calls::looks::put_found;
use crate::calls::many::put_removed_count;
use crate::form::Form;
use crate::names::{Reach, Route};
use crate::world::Table;
use rart::{KeyTrait, LendingKeyView, TreeError};

fn covering<K: KeyTrait>(table: &Table<K>, prefix: &K, form: Form, answer: &mut Answer) {
    let mut show = |key: &[u8], target: &u64| answer.pair(key, *target);
    if form.lends() {
        table.covering_for_each_by_ref(prefix, &mut show);
    } else {
        table.covering_for_each(prefix, show);
    }
}

fn covering_bytes<K: KeyTrait>(table: &Table<K>, probe: &[u8], form: Form, answer: &mut Answer) {
    let mut show = |key: &[u8], target: &u64| answer.pair(key, *target);
    if form.lends() {
        table.covering_for_each_by_ref_bytes(probe, &mut show);
    } else {
        table.covering_for_each_bytes(probe, show);
    }
}

fn below<K: KeyTrait>(
    table: &Table<K>,
    prefix: &K,
    form: Form,
    answer: &mut Answer,
) -> Result<(), TreeError> {
    let mut show = |view: LendingKeyView<'_, '_>, target: &u64| answer.view(view, *target);
    if form.lends() {
        table.below_for_each_by_ref(prefix, &mut show)
    } else {
        table.below_for_each(prefix, show)
    }
}

/// Makes a call at a prefix.
pub fn call_route<K: KeyTrait + Drop>(
    table: &mut Table<K>,
    prefix: &K,
    route: Route,
    target: u64,
    form: Form,
    answer: &mut Answer,
) {
    match route {
        Route::Add => put_tried(table.add(prefix, target), target, answer),
        Route::AddNew => put_new(table.add_new(prefix, target), target, answer),
        Route::Replace => put_inserted(table.replace(prefix, target), target, answer),
        Route::Withdraw => put_removed(table.withdraw(prefix), answer),
        Route::Get => answer.value(table.get(prefix).copied()),
        Route::ContainsKey => answer.truth(table.contains_key(prefix)),
        Route::GetMut => answer.value(replaced(table.get_mut(prefix), target)),
        Route::RemovePrefix => put_removed_count(table.remove_prefix(prefix), answer),
        Route::RouteWithPrefix => put_found(table.route_with_prefix(prefix), answer),
        Route::CoveringForEach => {
            covering(table, prefix, form, answer);
            answer.end();
        }
        Route::BelowForEach => {
            let walked = below(table, prefix, form, answer);
            put_walked(walked, answer);
        }
    }
}

/// Makes a call at a probe.
pub fn reach<K: KeyTrait + Drop>(
    table: &Table<K>,
    probe: &[u8],
    reach: Reach,
    form: Form,
    answer: &mut Answer,
) {
    match reach {
        Reach::Route => answer.value(table.route(probe).copied()),
        Reach::RouteWithPrefixBytes => put_found(table.route_with_prefix_bytes(probe), answer),
        Reach::CoveringForEachBytes => {
            covering_bytes(table, probe, form, answer);
            answer.end();
        }
    }
}
