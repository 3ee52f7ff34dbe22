//! Intersections of wide nodes and of trees of two value types, their law, their counted calls, and the cuts of counted
//! views.

mod counted;
mod cuts;
mod laws;
pub mod rows;
mod wide;

use rart_test_trees::texts::{Tree, filled};
use rows::{ROWS, Row, Triple};
use std::alloc::Global;

/// What is checked of two trees.
#[derive(Clone, Copy)]
pub enum Check {
    // the counted calls
    Counted,
    // the law
    Law,
    // the law with each request refused in turn
    LawRefused,
}

fn is_right(alloc: Global, left: &Tree, right: &Tree, wanted: &[Triple], check: Check) -> bool {
    match check {
        Check::Counted => counted::are_those_of_plain_calls(left, right, wanted),
        Check::Law => laws::gives_both_ways(left, right, wanted),
        Check::LawRefused => laws::law_is_swept(alloc, left, right, wanted),
    }
}

fn is_right_beside(alloc: Global, left: &Tree, row: &Row, check: Check) -> bool {
    match filled(alloc, row.1) {
        Some(right) => is_right(alloc, left, &right, row.2, check),
        None => false,
    }
}

fn is_row(alloc: Global, row: &Row, check: Check) -> bool {
    match filled(alloc, row.0) {
        Some(left) => is_right_beside(alloc, &left, row, check),
        None => false,
    }
}

fn first_wrong_of(alloc: Global, rows: &[Row], check: Check) -> Option<usize> {
    let mut at = 0_usize;
    for row in rows {
        if !is_row(alloc, row, check) {
            return Some(at);
        }
        at = at.wrapping_add(1);
    }
    None
}

/// Returns the number of the first row that fails, if one does.
pub fn first_wrong(alloc: Global, check: Check) -> Option<usize> {
    first_wrong_of(alloc, &ROWS, check)
}
