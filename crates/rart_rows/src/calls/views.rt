//! Walks whose callback gets keys in segments.

use crate::answer::Answer;
use crate::asked::Asked;
use crate::calls::callbacks::{control, put_tried, put_walked};
use crate::form::Form;
use crate::names::Views;
use crate::world::Tree;
use rart::{KeyTrait, LendingKeyView, TreeError, VisitError};

fn all_views<K: KeyTrait>(
    tree: &Tree<K>,
    form: Form,
    answer: &mut Answer,
) -> Result<(), TreeError> {
    let mut show = |view: LendingKeyView<'_, '_>, value: &u64| answer.view(view, *value);
    if form.lends() {
        tree.for_each_view_by_ref(&mut show)
    } else {
        tree.for_each_view(show)
    }
}

fn prefix_views<K: KeyTrait + Drop>(
    tree: &Tree<K>,
    asked: &Asked<'_, K>,
    answer: &mut Answer,
) -> Result<(), TreeError> {
    let mut show = |view: LendingKeyView<'_, '_>, value: &u64| answer.view(view, *value);
    match asked.form {
        Form::Value => tree.prefix_for_each_view(asked.taken(), show),
        Form::LentReference => tree.prefix_for_each_view_by_ref_k(&asked.key, &mut show),
        Form::LentValue => tree.prefix_for_each_view_by_ref(asked.taken(), &mut show),
        Form::Bytes => tree.prefix_for_each_view_bytes(asked.bytes(), show),
        Form::LentBytes => tree.prefix_for_each_view_by_ref_bytes(asked.bytes(), &mut show),
        Form::Reference | Form::Step => tree.prefix_for_each_view_k(&asked.key, show),
    }
}

fn range_views_bytes<K: KeyTrait + Drop>(
    tree: &Tree<K>,
    asked: &Asked<'_, K>,
    answer: &mut Answer,
) -> Result<(), TreeError> {
    let (start, end) = (asked.start_bytes(), asked.end_bytes());
    let mut show = |view: LendingKeyView<'_, '_>, value: &u64| answer.view(view, *value);
    if asked.form.lends() {
        tree.for_each_range_view_by_ref_bytes(start, end, &mut show)
    } else {
        tree.for_each_range_view_bytes(start, end, show)
    }
}

fn range_views<K: KeyTrait + Drop>(
    tree: &Tree<K>,
    asked: &Asked<'_, K>,
    answer: &mut Answer,
) -> Result<(), TreeError> {
    if asked.form.gives_bytes() {
        return range_views_bytes(tree, asked, answer);
    }
    let (start, end) = (asked.start(), asked.end());
    let mut show = |view: LendingKeyView<'_, '_>, value: &u64| answer.view(view, *value);
    if asked.form.lends() {
        tree.for_each_range_view_by_ref(start, end, &mut show)
    } else {
        tree.for_each_range_view(start, end, show)
    }
}

fn longest_view<K: KeyTrait + Drop>(
    tree: &Tree<K>,
    asked: &Asked<'_, K>,
    answer: &mut Answer,
) -> Result<bool, TreeError> {
    let mut show = |view: LendingKeyView<'_, '_>, value: &u64| answer.view(view, *value);
    match asked.form {
        Form::Value => tree.with_longest_prefix_match_view(asked.taken(), show),
        Form::LentReference => tree.with_longest_prefix_match_view_by_ref_k(&asked.key, &mut show),
        Form::LentValue => tree.with_longest_prefix_match_view_by_ref(asked.taken(), &mut show),
        Form::Bytes => tree.with_longest_prefix_match_view_bytes(asked.key.as_ref(), show),
        Form::LentBytes => {
            tree.with_longest_prefix_match_view_by_ref_bytes(asked.key.as_ref(), &mut show)
        }
        Form::Reference | Form::Step => tree.with_longest_prefix_match_view_k(&asked.key, show),
    }
}

fn put_longest(found: Result<bool, TreeError>, answer: &mut Answer) {
    match found {
        Ok(found) => answer.truth(found),
        Err(error) => answer.error(error),
    }
}

fn try_all_views<K: KeyTrait + Drop>(
    tree: &Tree<K>,
    asked: &Asked<'_, K>,
    answer: &mut Answer,
) -> Result<(), VisitError<u64>> {
    let walk = asked.args().walk;
    let mut call = 0_u64;
    let mut show = |view: LendingKeyView<'_, '_>, value: &u64| {
        call = call.wrapping_add(1);
        answer.view(view, *value);
        control(walk, call)
    };
    if asked.form.lends() {
        tree.try_for_each_view_by_ref(&mut show)
    } else {
        tree.try_for_each_view(show)
    }
}

fn try_prefix_views<K: KeyTrait + Drop>(
    tree: &Tree<K>,
    asked: &Asked<'_, K>,
    answer: &mut Answer,
) -> Result<(), VisitError<u64>> {
    let walk = asked.args().walk;
    let mut call = 0_u64;
    let mut show = |view: LendingKeyView<'_, '_>, value: &u64| {
        call = call.wrapping_add(1);
        answer.view(view, *value);
        control(walk, call)
    };
    match asked.form {
        Form::Value => tree.try_prefix_for_each_view(asked.taken(), show),
        Form::LentReference => tree.try_prefix_for_each_view_by_ref_k(&asked.key, &mut show),
        Form::LentValue => tree.try_prefix_for_each_view_by_ref(asked.taken(), &mut show),
        Form::Bytes => tree.try_prefix_for_each_view_bytes(asked.bytes(), show),
        Form::LentBytes => tree.try_prefix_for_each_view_by_ref_bytes(asked.bytes(), &mut show),
        Form::Reference | Form::Step => tree.try_prefix_for_each_view_k(&asked.key, show),
    }
}

fn try_range_views_bytes<K: KeyTrait + Drop>(
    tree: &Tree<K>,
    asked: &Asked<'_, K>,
    answer: &mut Answer,
) -> Result<(), VisitError<u64>> {
    let (start, end) = (asked.start_bytes(), asked.end_bytes());
    let walk = asked.args().walk;
    let mut call = 0_u64;
    let mut show = |view: LendingKeyView<'_, '_>, value: &u64| {
        call = call.wrapping_add(1);
        answer.view(view, *value);
        control(walk, call)
    };
    if asked.form.lends() {
        tree.try_for_each_range_view_by_ref_bytes(start, end, &mut show)
    } else {
        tree.try_for_each_range_view_bytes(start, end, show)
    }
}

fn try_range_views<K: KeyTrait + Drop>(
    tree: &Tree<K>,
    asked: &Asked<'_, K>,
    answer: &mut Answer,
) -> Result<(), VisitError<u64>> {
    if asked.form.gives_bytes() {
        return try_range_views_bytes(tree, asked, answer);
    }
    let (start, end) = (asked.start(), asked.end());
    let walk = asked.args().walk;
    let mut call = 0_u64;
    let mut show = |view: LendingKeyView<'_, '_>, value: &u64| {
        call = call.wrapping_add(1);
        answer.view(view, *value);
        control(walk, call)
    };
    if asked.form.lends() {
        tree.try_for_each_range_view_by_ref(start, end, &mut show)
    } else {
        tree.try_for_each_range_view(start, end, show)
    }
}

/// Walks with a callback that shows the segments that it is called with.
pub fn view<K: KeyTrait + Drop>(
    tree: &Tree<K>,
    asked: &Asked<'_, K>,
    views: Views,
    answer: &mut Answer,
) {
    match views {
        Views::ForEachView => {
            let walked = all_views(tree, asked.form, answer);
            put_walked(walked, answer);
        }
        Views::PrefixForEachView => {
            let walked = prefix_views(tree, asked, answer);
            put_walked(walked, answer);
        }
        Views::ForEachRangeView => {
            let walked = range_views(tree, asked, answer);
            put_walked(walked, answer);
        }
        Views::WithLongestPrefixMatchView => {
            let found = longest_view(tree, asked, answer);
            put_longest(found, answer);
        }
        Views::TryForEachView => {
            let tried = try_all_views(tree, asked, answer);
            put_tried(tried, answer);
        }
        Views::TryPrefixForEachView => {
            let tried = try_prefix_views(tree, asked, answer);
            put_tried(tried, answer);
        }
        Views::TryForEachRangeView => {
            let tried = try_range_views(tree, asked, answer);
            put_tried(tried, answer);
        }
        Views::ForEachRangeViewBytes => {
            let walked = range_views_bytes(tree, asked, answer);
            put_walked(walked, answer);
        }
        Views::TryForEachRangeViewBytes => {
            let tried = try_range_views_bytes(tree, asked, answer);
            put_tried(tried, answer);
        }
    }
}
