//! Walks with a callback.

use crate::answer::Answer;
use crate::asked::Asked;
use crate::form::Form;
use crate::names::Callback;
use crate::request::Walk;
use crate::world::Tree;
use rart::{KeyTrait, TreeError, VisitControl, VisitError};

/// The end of what a callback showed, or the refusal.
pub fn put_walked(walked: Result<(), TreeError>, answer: &mut Answer) {
    match walked {
        Ok(()) => answer.end(),
        Err(error) => answer.error(error),
    }
}

fn match_for_each<K: KeyTrait + Drop>(tree: &Tree<K>, asked: &Asked<'_, K>, answer: &mut Answer) {
    let mut show = |key: &[u8], value: &u64| answer.pair(key, *value);
    match asked.form {
        Form::Value => tree.prefix_match_for_each(asked.taken(), show),
        Form::LentReference => tree.prefix_match_for_each_by_ref_k(&asked.key, &mut show),
        Form::LentValue => tree.prefix_match_for_each_by_ref(asked.taken(), &mut show),
        Form::Bytes => tree.prefix_match_for_each_bytes(asked.bytes(), show),
        Form::LentBytes => tree.prefix_match_for_each_by_ref_bytes(asked.bytes(), &mut show),
        Form::Reference | Form::Step => tree.prefix_match_for_each_k(&asked.key, show),
    }
}

fn match_for_each_bytes<K: KeyTrait>(
    tree: &Tree<K>,
    probe: &[u8],
    form: Form,
    answer: &mut Answer,
) {
    let mut show = |key: &[u8], value: &u64| answer.pair(key, *value);
    if form.lends() {
        tree.prefix_match_for_each_by_ref_bytes(probe, &mut show);
    } else {
        tree.prefix_match_for_each_bytes(probe, show);
    }
}

fn values_for_each<K: KeyTrait + Drop>(
    tree: &Tree<K>,
    asked: &Asked<'_, K>,
    answer: &mut Answer,
) -> Result<(), TreeError> {
    let mut show = |value: &u64| answer.item(*value);
    match asked.form {
        Form::Value => tree.prefix_values_for_each(asked.taken(), show),
        Form::LentReference => tree.prefix_values_for_each_by_ref_k(&asked.key, &mut show),
        Form::LentValue => tree.prefix_values_for_each_by_ref(asked.taken(), &mut show),
        Form::Bytes => tree.prefix_values_for_each_bytes(asked.bytes(), show),
        Form::LentBytes => tree.prefix_values_for_each_by_ref_bytes(asked.bytes(), &mut show),
        Form::Reference | Form::Step => tree.prefix_values_for_each_k(&asked.key, show),
    }
}

// The values as the digits of a number, after a first 1.
fn add_digits(sum: u64, value: u64) -> u64 {
    sum.wrapping_mul(10).wrapping_add(value)
}

fn fold<K: KeyTrait + Drop>(
    tree: &Tree<K>,
    asked: &Asked<'_, K>,
    calls: &mut u64,
) -> Result<u64, TreeError> {
    let mut add = |sum: u64, value: &u64| {
        *calls = (*calls).wrapping_add(1);
        add_digits(sum, *value)
    };
    match asked.form {
        Form::Value => tree.prefix_values_fold(asked.taken(), 1_u64, add),
        Form::LentReference => tree.prefix_values_fold_by_ref_k(&asked.key, 1_u64, &mut add),
        Form::LentValue => tree.prefix_values_fold_by_ref(asked.taken(), 1_u64, &mut add),
        Form::Bytes => tree.prefix_values_fold_bytes(asked.bytes(), 1_u64, add),
        Form::LentBytes => tree.prefix_values_fold_by_ref_bytes(asked.bytes(), 1_u64, &mut add),
        Form::Reference | Form::Step => tree.prefix_values_fold_k(&asked.key, 1_u64, add),
    }
}

// The sum, or the refusal, before which nothing may be called.
fn put_fold(fold: Result<u64, TreeError>, calls: u64, answer: &mut Answer) {
    match fold {
        Ok(sum) => answer.number(sum),
        Err(_error) if calls > 0 => answer.word(b"called"),
        Err(error) => answer.error(error),
    }
}

/// What the callback returns at its call of this number.
pub fn control(walk: Walk, call: u64) -> Result<VisitControl, u64> {
    match walk {
        Walk::Stop(at) if at == call => Ok(VisitControl::Stop),
        Walk::Fail(at) if at == call => Err(at),
        _ => Ok(VisitControl::Continue),
    }
}

fn try_values<K: KeyTrait + Drop>(
    tree: &Tree<K>,
    asked: &Asked<'_, K>,
    answer: &mut Answer,
) -> Result<(), VisitError<u64>> {
    let walk = asked.args().walk;
    let mut call = 0_u64;
    let mut show = |value: &u64| {
        call = call.wrapping_add(1);
        answer.item(*value);
        control(walk, call)
    };
    match asked.form {
        Form::Value => tree.try_prefix_values_for_each(asked.taken(), show),
        Form::LentReference => tree.try_prefix_values_for_each_by_ref_k(&asked.key, &mut show),
        Form::LentValue => tree.try_prefix_values_for_each_by_ref(asked.taken(), &mut show),
        Form::Bytes => tree.try_prefix_values_for_each_bytes(asked.bytes(), show),
        Form::LentBytes => tree.try_prefix_values_for_each_by_ref_bytes(asked.bytes(), &mut show),
        Form::Reference | Form::Step => tree.try_prefix_values_for_each_k(&asked.key, show),
    }
}

fn try_matches<K: KeyTrait + Drop>(
    tree: &Tree<K>,
    asked: &Asked<'_, K>,
    answer: &mut Answer,
) -> Result<(), u64> {
    let walk = asked.args().walk;
    let mut call = 0_u64;
    let mut show = |key: &[u8], value: &u64| {
        call = call.wrapping_add(1);
        answer.pair(key, *value);
        control(walk, call)
    };
    match asked.form {
        Form::Value => tree.try_prefix_match_for_each(asked.taken(), show),
        Form::LentReference => tree.try_prefix_match_for_each_by_ref_k(&asked.key, &mut show),
        Form::LentValue => tree.try_prefix_match_for_each_by_ref(asked.taken(), &mut show),
        Form::Bytes => tree.try_prefix_match_for_each_bytes(asked.bytes(), show),
        Form::LentBytes => tree.try_prefix_match_for_each_by_ref_bytes(asked.bytes(), &mut show),
        Form::Reference | Form::Step => tree.try_prefix_match_for_each_k(&asked.key, show),
    }
}

fn try_matches_bytes<K: KeyTrait + Drop>(
    tree: &Tree<K>,
    asked: &Asked<'_, K>,
    answer: &mut Answer,
) -> Result<(), u64> {
    let (probe, walk) = (asked.args().probe.as_slice(), asked.args().walk);
    let mut call = 0_u64;
    let mut show = |key: &[u8], value: &u64| {
        call = call.wrapping_add(1);
        answer.pair(key, *value);
        control(walk, call)
    };
    if asked.form.lends() {
        tree.try_prefix_match_for_each_by_ref_bytes(probe, &mut show)
    } else {
        tree.try_prefix_match_for_each_bytes(probe, show)
    }
}

/// The end of what a callback showed, or why the walk failed.
pub fn put_tried(tried: Result<(), VisitError<u64>>, answer: &mut Answer) {
    match tried {
        Ok(()) => answer.end(),
        Err(VisitError::Callback(error)) => {
            answer.word(b"failed");
            answer.number(error);
        }
        Err(VisitError::Memory) => answer.refusal(b"memory"),
    }
}

/// Walks with a callback that shows what it is called with.
pub fn call_back<K: KeyTrait + Drop>(
    tree: &Tree<K>,
    asked: &Asked<'_, K>,
    callback: Callback,
    answer: &mut Answer,
) {
    match callback {
        Callback::PrefixMatchForEach => {
            match_for_each(tree, asked, answer);
            answer.end();
        }
        Callback::PrefixMatchForEachBytes => {
            match_for_each_bytes(tree, asked.args().probe.as_slice(), asked.form, answer);
            answer.end();
        }
        Callback::TryPrefixMatchForEach => {
            let tried = try_matches(tree, asked, answer);
            put_tried(tried.map_err(VisitError::Callback), answer);
        }
        Callback::TryPrefixMatchForEachBytes => {
            let tried = try_matches_bytes(tree, asked, answer);
            put_tried(tried.map_err(VisitError::Callback), answer);
        }
        Callback::PrefixValuesForEach => {
            let walked = values_for_each(tree, asked, answer);
            put_walked(walked, answer);
        }
        Callback::PrefixValuesFold => {
            let mut calls = 0_u64;
            let folded = fold(tree, asked, &mut calls);
            put_fold(folded, calls, answer);
        }
        Callback::TryPrefixValuesForEach => {
            let tried = try_values(tree, asked, answer);
            put_tried(tried, answer);
        }
    }
}
