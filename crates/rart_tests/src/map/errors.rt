//! The one error of the crate: what each error of a call converts to, and the texts.

use rart::laws::RefusedCall;
use rart::laws::bulk_loads::RefusedStep;
use rart::{
    BulkError, Error, MigrateError, NotInserted, Refused, TreeError, TryInsertError,
    TryUpdateError, UpdateError, VisitError,
};
use std::alloc::{AllocError, AllocFailed, Global};
use std::process::Abort;
use std::test::Fail;

/// What an error became, and what it is to become.
#[derive(Clone, Copy)]
struct Row {
    converted: Error,
    wanted: Error,
}

fn are_wanted(rt: &impl Abort, rows: &[Row]) {
    let mut number = 0_usize;
    for row in rows {
        assert_eq!(rt; row.converted, row.wanted, "row {number}");
        number = number.wrapping_add(1);
    }
}

// A row of an error that became `converted`.
fn converts(converted: Error, wanted: Error) -> Row {
    Row { converted, wanted }
}

// The error of an insertion that offered a value.
fn refused(error: TreeError) -> Refused<u64> {
    Refused { error, value: 7 }
}

#[test]
fn errors_of_allocations_and_insertions_become_the_one_of_the_crate(rt: HostRuntime) {
    are_wanted(
        &rt,
        &[
            converts(Error::from(AllocError), Error::Memory),
            converts(Error::from(AllocFailed { value: 7_u64 }), Error::Memory),
            converts(Error::from(TreeError::Memory), Error::Memory),
            converts(Error::from(TreeError::Full), Error::Full),
            converts(Error::from(refused(TreeError::Memory)), Error::Memory),
            converts(Error::from(refused(TreeError::Full)), Error::Full),
        ],
    );
}

#[test]
fn errors_of_insertions_of_new_keys_become_the_one_of_the_crate(rt: HostRuntime) {
    let memory = NotInserted::Refused(refused(TreeError::Memory));
    let full = NotInserted::Refused(refused(TreeError::Full));
    let try_memory = TryInsertError::Refused(refused(TreeError::Memory));
    let try_full = TryInsertError::Refused(refused(TreeError::Full));
    are_wanted(
        &rt,
        &[
            converts(Error::from(NotInserted::Stored(7_u64)), Error::Occupied),
            converts(Error::from(memory), Error::Memory),
            converts(Error::from(full), Error::Full),
            converts(
                Error::from(TryInsertError::Occupied(7_u64, &8)),
                Error::Occupied,
            ),
            converts(Error::from(try_memory), Error::Memory),
            converts(Error::from(try_full), Error::Full),
        ],
    );
}

fn of_update(error: UpdateError<u64>) -> Error {
    Error::from(error)
}

fn of_try_update(error: TryUpdateError<u8, u64>) -> Error {
    Error::from(error)
}

#[test]
fn errors_of_updates_become_the_one_of_the_crate(rt: HostRuntime) {
    let insert = |error| UpdateError::Insert(refused(error));
    let try_insert = |error| TryUpdateError::Insert(refused(error));
    are_wanted(
        &rt,
        &[
            converts(of_update(insert(TreeError::Memory)), Error::Memory),
            converts(of_update(insert(TreeError::Full)), Error::Full),
            converts(of_update(UpdateError::Remove), Error::Remove),
            converts(of_try_update(TryUpdateError::Callback(9)), Error::Callback),
            converts(of_try_update(try_insert(TreeError::Memory)), Error::Memory),
            converts(of_try_update(try_insert(TreeError::Full)), Error::Full),
            converts(of_try_update(TryUpdateError::Remove), Error::Remove),
            converts(of_try_update(TryUpdateError::Clone), Error::Clone),
        ],
    );
}

#[test]
fn errors_of_walks_loads_and_migrations_become_the_one_of_the_crate(rt: HostRuntime) {
    let unsorted = BulkError::Unsorted { at: 3 };
    let not_text = MigrateError::NotText { at: 4 };
    are_wanted(
        &rt,
        &[
            converts(Error::from(VisitError::Callback(9_u8)), Error::Callback),
            converts(Error::from(VisitError::<u8>::Memory), Error::Memory),
            converts(Error::from(BulkError::Memory), Error::Memory),
            converts(Error::from(BulkError::Full), Error::Full),
            converts(Error::from(unsorted), Error::Unsorted { at: 3 }),
            converts(Error::from(MigrateError::Memory), Error::Memory),
            converts(Error::from(not_text), Error::NotText { at: 4 }),
        ],
    );
}

fn of_step(error: RefusedStep) -> Error {
    Error::from(error)
}

fn of_call(error: RefusedCall<u64>) -> Error {
    Error::from(error)
}

#[test]
fn errors_of_laws_become_the_one_of_the_crate(rt: HostRuntime) {
    let unsorted = BulkError::Unsorted { at: 3 };
    let (memory, full) = (TreeError::Memory, TreeError::Full);
    are_wanted(
        &rt,
        &[
            converts(
                of_step(RefusedStep::Load(unsorted)),
                Error::Unsorted { at: 3 },
            ),
            converts(of_step(RefusedStep::Load(BulkError::Full)), Error::Full),
            converts(of_step(RefusedStep::Insertion(full)), Error::Full),
            converts(of_step(RefusedStep::Stats(memory)), Error::Memory),
            converts(of_call(RefusedCall::StatsBefore(memory)), Error::Memory),
            converts(of_call(RefusedCall::Insertion(refused(full))), Error::Full),
            converts(of_call(RefusedCall::StatsBetween(memory)), Error::Memory),
            converts(of_call(RefusedCall::Removal(memory)), Error::Memory),
            converts(of_call(RefusedCall::StatsAfter(full)), Error::Full),
        ],
    );
}

/// An error, and how it is printed.
#[derive(Clone, Copy)]
struct Text {
    error: Error,
    text: &'static str,
}

static TEXTS: [Text; 8] = [
    Text {
        error: Error::Memory,
        text: "out of memory",
    },
    Text {
        error: Error::Full,
        text: "tree is full",
    },
    Text {
        error: Error::Unsorted { at: 3 },
        text: "item 3 is below its predecessor",
    },
    Text {
        error: Error::Occupied,
        text: "key is stored",
    },
    Text {
        error: Error::NotText { at: 4 },
        text: "key 4 has no closing zero",
    },
    Text {
        error: Error::Callback,
        text: "callback failed",
    },
    Text {
        error: Error::Clone,
        text: "value was not cloned",
    },
    Text {
        error: Error::Remove,
        text: "out of memory for a removal",
    },
];

#[test]
fn each_error_of_the_crate_has_a_text(rt: HostRuntime) -> Result<(), Fail> {
    for row in &TEXTS {
        let text = format!(in rt.alloc(); "{}", row.error)?;
        assert_eq!(rt; text.as_str(), row.text);
    }
    Ok(())
}

// Whether an error of any type is printed so.
fn has_text<E: std::error::Error>(alloc: Global, error: E, wanted: &str) -> bool {
    match format!(in alloc; "{error}") {
        Ok(text) => text.as_str() == wanted,
        Err(_failure) => false,
    }
}

#[test]
fn each_error_of_an_insertion_has_a_text(rt: HostRuntime) {
    let alloc = rt.alloc();
    let try_full = TryInsertError::Refused(refused(TreeError::Full));
    assert!(rt; has_text(alloc, refused(TreeError::Full), "tree is full"));
    assert!(rt; has_text(alloc, NotInserted::Stored(7_u64), "key is stored"));
    assert!(rt;
        has_text(
            alloc,
            NotInserted::Refused(refused(TreeError::Memory)),
            "out of memory"
        )
    );
    assert!(rt; has_text(alloc, TryInsertError::Occupied(7_u64, &8), "key is stored"));
    assert!(rt; has_text(alloc, try_full, "tree is full"));
}

fn update_text(alloc: Global, error: UpdateError<u64>, wanted: &str) -> bool {
    has_text(alloc, error, wanted)
}

fn try_update_text(alloc: Global, error: TryUpdateError<u8, u64>, wanted: &str) -> bool {
    has_text(alloc, error, wanted)
}

#[test]
fn each_error_of_an_update_or_a_walk_has_a_text(rt: HostRuntime) {
    let alloc = rt.alloc();
    let full = UpdateError::Insert(refused(TreeError::Full));
    let try_full = TryUpdateError::Insert(refused(TreeError::Full));
    assert!(rt; update_text(alloc, full, "tree is full"));
    assert!(rt; update_text(alloc, UpdateError::Remove, "out of memory for a removal"));
    assert!(rt; try_update_text(alloc, TryUpdateError::Callback(9), "callback failed"));
    assert!(rt; try_update_text(alloc, try_full, "tree is full"));
    assert!(rt; try_update_text(alloc, TryUpdateError::Remove, "out of memory for a removal"));
    assert!(rt; try_update_text(alloc, TryUpdateError::Clone, "value was not cloned"));
    assert!(rt; has_text(alloc, VisitError::Callback(9_u8), "callback failed"));
    assert!(rt; has_text(alloc, VisitError::<u8>::Memory, "out of memory"));
}

fn call_text(alloc: Global, error: RefusedCall<u64>, wanted: &str) -> bool {
    has_text(alloc, error, wanted)
}

#[test]
fn each_error_of_a_law_has_a_text(rt: HostRuntime) {
    let alloc = rt.alloc();
    let unsorted = RefusedStep::Load(BulkError::Unsorted { at: 3 });
    let offered = RefusedCall::Insertion(refused(TreeError::Full));
    assert!(rt; has_text(alloc, unsorted, "item 3 is below its predecessor"));
    assert!(rt;
        has_text(
            alloc,
            RefusedStep::Insertion(TreeError::Full),
            "tree is full"
        )
    );
    assert!(rt;
        has_text(
            alloc,
            RefusedStep::Stats(TreeError::Memory),
            "out of memory"
        )
    );
    assert!(rt;
        call_text(
            alloc,
            RefusedCall::StatsBefore(TreeError::Memory),
            "out of memory"
        )
    );
    assert!(rt; call_text(alloc, offered, "tree is full"));
    assert!(rt;
        call_text(
            alloc,
            RefusedCall::StatsBetween(TreeError::Memory),
            "out of memory"
        )
    );
    assert!(rt;
        call_text(
            alloc,
            RefusedCall::Removal(TreeError::Memory),
            "out of memory"
        )
    );
    assert!(rt;
        call_text(
            alloc,
            RefusedCall::StatsAfter(TreeError::Full),
            "tree is full"
        )
    );
}
