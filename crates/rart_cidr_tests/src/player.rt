//! Plays rows on new tables of both versions, as they stand and with each request for memory refused in turn.

use crate::calls::{Ask, Row};
use crate::checks::row_holds;
use crate::model::Route;
use crate::tables::Table;
use crate::tables::version::Version;
use rart::TreeError;
use rart_cidr::{Cidr4, Cidr6};
use rart_test_tools::refusals::{is_swept, refuse, was_refused};
use std::alloc::Global;
use std::process::Abort;

/// The most routes of a row's walk.
const MOST: usize = 32;

// Whether the call may request memory.
fn may_request(ask: Ask) -> bool {
    matches!(
        ask,
        Ask::Insert(_, _)
            | Ask::Remove(_)
            | Ask::Inside(_)
            | Ask::All
            | Ask::RemoveInside(_)
            | Ask::Aggregate
            | Ask::Other(_)
            | Ask::CloneToOther
            | Ask::CloneFromOther
            | Ask::KeepOdd
            | Ask::KeepOddByRef
    )
}

// The number of the first row that doesn't hold, or whose call must not request memory and does.
fn first_wrong_on<N: Version>(
    alloc: Global,
    table: &mut Table<N>,
    given: &mut Vec<Route>,
    rows: &[Row],
) -> Option<usize> {
    let mut at = 0_usize;
    for row in rows {
        if !may_request(row.0) {
            refuse(alloc, 1);
        }
        let holds = row_holds(table, given, row) == Ok(true);
        if was_refused(alloc) || !holds {
            return Some(at);
        }
        at = at.wrapping_add(1);
    }
    None
}

fn first_wrong<N: Version>(alloc: Global, rows: &[Row]) -> Option<usize> {
    let mut table = Table::<N>::empty(alloc);
    let mut given: Vec<Route> = Vec::new(alloc);
    let _reserved = given.reserve(MOST);
    first_wrong_on(alloc, &mut table, &mut given, rows)
}

/// Fails with the number of the first row that doesn't hold, if there is one.
pub fn assert_none_wrong(rt: &impl Abort, alloc: Global, four: &[Row], six: &[Row]) {
    if let Some(at) = first_wrong::<Cidr4>(alloc, four) {
        assert!(rt; false, "row {at} of IPv4 differs");
    }
    if let Some(at) = first_wrong::<Cidr6>(alloc, six) {
        assert!(rt; false, "row {at} of IPv6 differs");
    }
}

// Plays the rows with the request of this number refused. The call that makes the request must fail, and is repeated.
// Returns whether a request was refused; `None` if a row doesn't hold.
fn refused_once_on<N: Version>(
    alloc: Global,
    table: &mut Table<N>,
    given: &mut Vec<Route>,
    rows: &[Row],
    at: usize,
) -> Option<bool> {
    let mut was = false;
    refuse(alloc, at);
    for row in rows {
        let mut holds = row_holds(table, given, row);
        if holds == Err(TreeError::Memory) && !was && was_refused(alloc) {
            was = true;
            holds = row_holds(table, given, row);
        }
        if holds != Ok(true) {
            return None;
        }
    }
    (!was_refused(alloc)).then_some(was)
}

fn refused_once<N: Version>(alloc: Global, rows: &[Row], at: usize) -> Option<bool> {
    let mut table = Table::<N>::empty(alloc);
    let mut given: Vec<Route> = Vec::new(alloc);
    let _reserved = given.reserve(MOST);
    refused_once_on(alloc, &mut table, &mut given, rows, at)
}

/// Returns whether each call whose request is refused fails with [`TreeError::Memory`] and changes nothing: repeated,
/// it holds, and so do all rows after it.
pub fn are_swept(alloc: Global, four: &[Row], six: &[Row]) -> bool {
    is_swept(alloc, |at| refused_once::<Cidr4>(alloc, four, at))
        && is_swept(alloc, |at| refused_once::<Cidr6>(alloc, six, at))
}

/// Returns whether a new table requests no memory and has no routes.
pub fn is_made_quietly<N: Version>(alloc: Global) -> bool {
    refuse(alloc, 1);
    let table = Table::<N>::empty(alloc);
    !was_refused(alloc) && table.count() == (0, true)
}
