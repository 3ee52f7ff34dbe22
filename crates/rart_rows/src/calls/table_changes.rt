//! Edits of a whole route table by a callback.

use crate::answer::Answer;
use crate::calls::callbacks::put_walked;
use crate::form::Form;
use crate::names::TableChange;
use crate::row::Args;
use crate::world::Table;
use rart::{KeyTrait, TreeError};

// Keeps the routes of a rule, and shows those that the callback is called with. It adds a number to each target.
fn retain<K: KeyTrait>(
    table: &mut Table<K>,
    args: &Args<'_>,
    form: Form,
    answer: &mut Answer,
) -> Result<(), TreeError> {
    let (rule, added) = (args.rule, args.value);
    let mut keep = |prefix: &[u8], target: &mut u64| {
        answer.pair(prefix, *target);
        let is_kept = rule.keeps(prefix, *target);
        *target = (*target).wrapping_add(added);
        is_kept
    };
    if form.lends() {
        table.retain_by_ref(&mut keep)
    } else {
        table.retain(keep)
    }
}

// Adds a number to each target, and shows what the targets were.
fn for_each_value_mut<K: KeyTrait>(
    table: &mut Table<K>,
    added: u64,
    form: Form,
    answer: &mut Answer,
) {
    let mut add = |target: &mut u64| {
        answer.item(*target);
        *target = (*target).wrapping_add(added);
    };
    if form.lends() {
        table.for_each_value_mut_by_ref(&mut add);
    } else {
        table.for_each_value_mut(add);
    }
}

/// Changes or removes routes.
pub fn change_table<K: KeyTrait>(
    table: &mut Table<K>,
    change: TableChange,
    args: &Args<'_>,
    form: Form,
    answer: &mut Answer,
) {
    match change {
        TableChange::Retain => {
            let done = retain(table, args, form, answer);
            put_walked(done, answer);
        }
        TableChange::ForEachValueMut => {
            for_each_value_mut(table, args.value, form, answer);
            answer.end();
        }
    }
}
