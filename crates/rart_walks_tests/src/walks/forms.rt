//! A counted walk with a callback: how often it called, and its outcome.

use super::seen_forms;
use crate::views::{Row, next_row};
use crate::visits::with_digit;
use rart::{LendingKeyView, TreeError, VisitControl, VisitError};
use rart_test_tools::refusals::refuse;
use rart_test_trees::texts::{Key, Pair, Tree};
use std::alloc::Global;
use std::cell::Cell;

/// A walk, by a form of its call.
#[derive(Clone, Copy)]
pub enum Walk {
    ValuesCounted,
    ValuesLentCounted,
    FoldCounted,
    FoldLentCounted,
    TryValuesCounted,
    TryValuesLentCounted,
    LongestCounted,
}

pub static PAIRS: [Pair; 5] = [
    ("alp", 1),
    ("alpha1", 2),
    ("alpha2", 3),
    ("alpine", 4),
    ("beta", 5),
];

static WALKS: [(Walk, usize); 7] = [
    (Walk::ValuesCounted, 4),
    (Walk::ValuesLentCounted, 4),
    (Walk::FoldCounted, 4),
    (Walk::FoldLentCounted, 4),
    (Walk::TryValuesCounted, 4),
    (Walk::TryValuesLentCounted, 4),
    (Walk::LongestCounted, 1),
];

/// Returns each walk of PAIRS about "alp", and how often it calls. Each body that names a large static takes its time.
pub fn walks() -> &'static [(Walk, usize)] {
    &WALKS
}

/// What a callback was given so far, and how it answers.
#[derive(Drop)]
pub struct Calls<'a> {
    many: Cell<usize>,
    // the values, as digits after a first 1
    digits: Cell<u64>,
    // how many of these rows came in turn, as views with values
    rows: &'a [Row],
    seen: Cell<usize>,
    // the value to stop at and the one to fail at, 0 for none
    ends: (u64, u64),
    // where the first call has the next request refused, so that a walk which makes one between calls is seen
    watched: Option<Global>,
}

impl<'a> Calls<'a> {
    fn new(rows: &'a [Row], ends: (u64, u64), watched: Option<Global>) -> Self {
        Calls {
            many: Cell::new(0),
            digits: Cell::new(1),
            rows,
            seen: Cell::new(0),
            ends,
            watched,
        }
    }

    pub fn none(watched: Option<Global>) -> Self {
        Calls::new(&[], (0, 0), watched)
    }

    /// Calls with views and values, which are compared with these rows.
    pub fn of_rows(rows: &'a [Row]) -> Self {
        Calls::new(rows, (0, 0), None)
    }

    /// Calls with values, the first of which stops the walk and the second of which fails.
    pub fn with_ends(ends: (u64, u64)) -> Self {
        Calls::new(&[], ends, None)
    }

    pub fn many(&self) -> usize {
        self.many.get()
    }

    pub fn digits(&self) -> u64 {
        self.digits.get()
    }

    /// Whether all rows came in turn, and nothing else.
    pub fn are_rows(&self) -> bool {
        self.seen.get() == self.rows.len() && self.many.get() == self.rows.len()
    }

    fn call(&self) {
        if let (0, Some(alloc)) = (self.many.get(), self.watched) {
            refuse(alloc, 1);
        }
        self.many.set(self.many.get().wrapping_add(1));
    }

    pub fn view(&self, view: LendingKeyView<'_, '_>, value: u64) {
        self.call();
        self.seen
            .set(next_row(self.seen.get(), self.rows, view, value));
    }

    pub fn value(&self, value: u64) {
        self.call();
        self.digits.set(with_digit(self.digits.get(), value));
    }

    pub fn control(&self, value: u64) -> Result<VisitControl, &'static str> {
        self.value(value);
        if value == self.ends.0 {
            Ok(VisitControl::Stop)
        } else if value == self.ends.1 {
            Err("boom")
        } else {
            Ok(VisitControl::Continue)
        }
    }

    // After an outcome that no row has.
    fn spoil(&self) {
        self.many.set(1000);
        self.digits.set(0);
    }
}

pub type Outcome = Result<(), TreeError>;

fn views(tree: &Tree, lent: bool, calls: &Calls<'_>) -> Outcome {
    let mut callback = |view: LendingKeyView<'_, '_>, value: &u64| calls.view(view, *value);
    if lent {
        tree.for_each_view_by_ref(&mut callback)
    } else {
        tree.for_each_view(callback)
    }
}

// Its result says whether it called.
pub fn match_outcome(called: Result<bool, TreeError>, calls: &Calls<'_>) -> Outcome {
    match called {
        Ok(called) if called == (calls.many() == 1) => Ok(()),
        Ok(_) => Err(TreeError::Full),
        Err(error) => Err(error),
    }
}

fn longest(tree: &Tree, key: Key, by_value: bool, calls: &Calls<'_>) -> Outcome {
    let callback = |view: LendingKeyView<'_, '_>, value: &u64| calls.view(view, *value);
    let called = if by_value {
        tree.with_longest_prefix_match_view(key, callback)
    } else {
        tree.with_longest_prefix_match_view_k(&key, callback)
    };
    match_outcome(called, calls)
}

fn values(tree: &Tree, key: Key, by_value: bool, calls: &Calls<'_>) -> Outcome {
    let callback = |value: &u64| calls.value(*value);
    if by_value {
        tree.prefix_values_for_each(key, callback)
    } else {
        tree.prefix_values_for_each_k(&key, callback)
    }
}

// The values are folded as the callback was given them.
pub fn fold_outcome(folded: Result<u64, TreeError>, calls: &Calls<'_>) -> Outcome {
    match folded {
        Ok(digits) if digits == calls.digits() => Ok(()),
        Ok(_) => Err(TreeError::Full),
        Err(error) => Err(error),
    }
}

fn fold(tree: &Tree, key: Key, by_value: bool, calls: &Calls<'_>) -> Outcome {
    let callback = |seen: u64, value: &u64| {
        calls.value(*value);
        with_digit(seen, *value)
    };
    let folded = if by_value {
        tree.prefix_values_fold(key, 1, callback)
    } else {
        tree.prefix_values_fold_k(&key, 1, callback)
    };
    fold_outcome(folded, calls)
}

// What the callback fails with is returned as `Full`.
pub fn outcome_of(tried: Result<(), VisitError<&'static str>>, calls: &Calls<'_>) -> Outcome {
    match tried {
        Ok(()) => Ok(()),
        Err(VisitError::Memory) => Err(TreeError::Memory),
        Err(VisitError::Callback(text)) => {
            if text != "boom" {
                calls.spoil();
            }
            Err(TreeError::Full)
        }
    }
}

fn try_values(tree: &Tree, key: Key, by_value: bool, calls: &Calls<'_>) -> Outcome {
    let callback = |value: &u64| calls.control(*value);
    if by_value {
        outcome_of(tree.try_prefix_values_for_each(key, callback), calls)
    } else {
        outcome_of(tree.try_prefix_values_for_each_k(&key, callback), calls)
    }
}

/// Makes the walk. A failure other than refused memory is returned as `Full`.
pub fn make(tree: &Tree, key: Key, walk: Walk, calls: &Calls<'_>) -> Outcome {
    match walk {
        Walk::ValuesCounted => seen_forms::values(tree, key, false, calls),
        Walk::ValuesLentCounted => seen_forms::values(tree, key, true, calls),
        Walk::FoldCounted => seen_forms::fold(tree, key, false, calls),
        Walk::FoldLentCounted => seen_forms::fold(tree, key, true, calls),
        Walk::TryValuesCounted => seen_forms::try_values(tree, key, false, calls),
        Walk::TryValuesLentCounted => seen_forms::try_values(tree, key, true, calls),
        Walk::LongestCounted => seen_forms::longest(tree, key, calls),
    }
}
