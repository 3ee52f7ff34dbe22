//! Tests of a table of networks of both versions with refused requests for memory.

use crate::versions::{Answer, Call, ROWS, Row, row_holds};
use rart::TreeError;
use rart_cidr::CidrTable;
use rart_test_tools::refusals::{is_swept, refuse, was_refused};
use std::alloc::Global;

/// Edits that request memory in the tables of both versions.
static EDITS: &[Row] = &[
    (Call::Insert("10.0.0.0/8", 1), Answer::Value(None)),
    (Call::Insert("2001:db8::/32", 2), Answer::Value(None)),
    // a stride of two targets in each version
    (Call::Insert("10.0.0.0/9", 3), Answer::Value(None)),
    (Call::Len, Answer::Counts(2, 1)),
    (Call::Insert("2001:db8::/33", 4), Answer::Value(None)),
    (Call::Len, Answer::Counts(2, 2)),
    (Call::Insert("10.0.0.0/9", 5), Answer::Value(Some(3))),
    (Call::Insert("2001:db8::/33", 6), Answer::Value(Some(4))),
    // five strides in each version
    (Call::Insert("11.0.0.0/8", 7), Answer::Value(None)),
    (Call::Insert("2001:db9::/32", 8), Answer::Value(None)),
    (Call::Insert("12.0.0.0/8", 9), Answer::Value(None)),
    (Call::Insert("2001:dba::/32", 10), Answer::Value(None)),
    (Call::Insert("13.0.0.0/8", 11), Answer::Value(None)),
    (Call::Insert("2001:dbb::/32", 12), Answer::Value(None)),
    (Call::Insert("14.0.0.0/8", 13), Answer::Value(None)),
    (Call::Insert("2001:dbc::/32", 14), Answer::Value(None)),
    (Call::Len, Answer::Counts(6, 6)),
    (Call::Route("10.1.2.3"), Answer::Route("10.0.0.0/9", 5)),
    (
        Call::Route("2001:db8::1"),
        Answer::Route("2001:db8::/33", 6),
    ),
    // four are left
    (Call::Remove("12.0.0.0/8"), Answer::Value(Some(9))),
    (Call::Len, Answer::Counts(5, 6)),
    (Call::Get("2001:dba::/32"), Answer::Value(Some(10))),
    (Call::Remove("2001:dba::/32"), Answer::Value(Some(10))),
    (Call::Len, Answer::Counts(5, 5)),
    (Call::Remove("2001:dba::/32"), Answer::Value(None)),
    (Call::Get("10.0.0.0/8"), Answer::Value(Some(1))),
    (Call::Get("11.0.0.0/8"), Answer::Value(Some(7))),
    (Call::Get("13.0.0.0/8"), Answer::Value(Some(11))),
    (Call::Get("14.0.0.0/8"), Answer::Value(Some(13))),
    (Call::Get("2001:db8::/32"), Answer::Value(Some(2))),
    (Call::Get("2001:db9::/32"), Answer::Value(Some(8))),
    (Call::Get("2001:dbb::/32"), Answer::Value(Some(12))),
    (Call::Get("2001:dbc::/32"), Answer::Value(Some(14))),
    (Call::Remove("10.0.0.0/9"), Answer::Value(Some(5))),
    (Call::Remove("2001:db8::/33"), Answer::Value(Some(6))),
    (Call::Route("10.1.2.3"), Answer::Route("10.0.0.0/8", 1)),
    (
        Call::Route("2001:db8::1"),
        Answer::Route("2001:db8::/32", 2),
    ),
    (Call::Len, Answer::Counts(4, 4)),
];

// The number of the first row that doesn't hold, or whose call must not request memory and does.
fn first_wrong_on(alloc: Global, table: &mut CidrTable<u64>, rows: &[Row]) -> Option<usize> {
    let mut at = 0_usize;
    for row in rows {
        if !matches!(row.0, Call::Insert(_, _) | Call::Remove(_)) {
            refuse(alloc, 1);
        }
        let holds = row_holds(table, row) == Ok(true);
        if was_refused(alloc) || !holds {
            return Some(at);
        }
        at = at.wrapping_add(1);
    }
    None
}

fn first_wrong(alloc: Global, rows: &[Row]) -> Option<usize> {
    refuse(alloc, 1);
    let mut table = CidrTable::<u64>::new(alloc);
    first_wrong_on(alloc, &mut table, rows)
}

#[test]
fn reads_of_both_versions_make_no_request(rt: HostRuntime) {
    assert!(rt; first_wrong(rt.alloc(), ROWS).is_none());
    assert!(rt; first_wrong(rt.alloc(), EDITS).is_none());
}

// Plays the rows with the request of this number refused. The call that makes the request must fail, and is repeated.
// Returns whether a request was refused; `None` if a row doesn't hold.
fn refused_once_on(
    alloc: Global,
    table: &mut CidrTable<u64>,
    rows: &[Row],
    at: usize,
) -> Option<bool> {
    let mut was = false;
    refuse(alloc, at);
    for row in rows {
        let mut holds = row_holds(table, row);
        if holds == Err(TreeError::Memory) && !was && was_refused(alloc) {
            was = true;
            holds = row_holds(table, row);
        }
        if holds != Ok(true) {
            return None;
        }
    }
    (!was_refused(alloc)).then_some(was)
}

fn refused_once(alloc: Global, rows: &[Row], at: usize) -> Option<bool> {
    let mut table = CidrTable::<u64>::new(alloc);
    refused_once_on(alloc, &mut table, rows, at)
}

#[test]
fn edits_of_both_versions_refused_in_turn_change_nothing(rt: HostRuntime) {
    let alloc = rt.alloc();
    assert!(rt; is_swept(alloc, |at| refused_once(alloc, ROWS, at)));
    assert!(rt; is_swept(alloc, |at| refused_once(alloc, EDITS, at)));
}
