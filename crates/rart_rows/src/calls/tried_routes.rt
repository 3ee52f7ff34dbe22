//! Walks over routes with a callback that can end them.

use crate::answer::Answer;
use crate::asked::Asked;
use crate::calls::callbacks::{control, put_tried};
use crate::names::TriedRoutes;
use crate::world::Table;
use rart::{KeyTrait, LendingKeyView, VisitError};

fn try_covering<K: KeyTrait + Drop>(
    table: &Table<K>,
    asked: &Asked<'_, K>,
    answer: &mut Answer,
) -> Result<(), u64> {
    let walk = asked.args().walk;
    let mut call = 0_u64;
    let mut show = |prefix: &[u8], target: &u64| {
        call = call.wrapping_add(1);
        answer.pair(prefix, *target);
        control(walk, call)
    };
    if asked.form.lends() {
        table.try_covering_for_each_by_ref(&asked.key, &mut show)
    } else {
        table.try_covering_for_each(&asked.key, show)
    }
}

fn try_covering_bytes<K: KeyTrait + Drop>(
    table: &Table<K>,
    asked: &Asked<'_, K>,
    answer: &mut Answer,
) -> Result<(), u64> {
    let walk = asked.args().walk;
    let mut call = 0_u64;
    let mut show = |prefix: &[u8], target: &u64| {
        call = call.wrapping_add(1);
        answer.pair(prefix, *target);
        control(walk, call)
    };
    let probe = asked.args().probe.as_slice();
    if asked.form.lends() {
        table.try_covering_for_each_by_ref_bytes(probe, &mut show)
    } else {
        table.try_covering_for_each_bytes(probe, show)
    }
}

fn try_below<K: KeyTrait + Drop>(
    table: &Table<K>,
    asked: &Asked<'_, K>,
    answer: &mut Answer,
) -> Result<(), VisitError<u64>> {
    let walk = asked.args().walk;
    let mut call = 0_u64;
    let mut show = |view: LendingKeyView<'_, '_>, target: &u64| {
        call = call.wrapping_add(1);
        answer.view(view, *target);
        control(walk, call)
    };
    if asked.form.lends() {
        table.try_below_for_each_by_ref(&asked.key, &mut show)
    } else {
        table.try_below_for_each(&asked.key, show)
    }
}

/// Makes a walk over routes that its callback can end.
pub fn try_routes<K: KeyTrait + Drop>(
    table: &Table<K>,
    asked: &Asked<'_, K>,
    name: TriedRoutes,
    answer: &mut Answer,
) {
    let tried = match name {
        TriedRoutes::CoveringForEach => {
            try_covering(table, asked, answer).map_err(VisitError::Callback)
        }
        TriedRoutes::CoveringForEachBytes => {
            try_covering_bytes(table, asked, answer).map_err(VisitError::Callback)
        }
        TriedRoutes::BelowForEach => try_below(table, asked, answer),
    };
    put_tried(tried, answer);
}
