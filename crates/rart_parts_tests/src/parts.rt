//! Tests of the parts of nodes.

mod arrays;
mod key_search;
mod sets;

use crate::compare::expect_eq;
use rart_parts::TreeError;
use std::test::Fail;

#[test]
fn errors_say_what_was_refused(rt: HostRuntime) -> Result<(), Fail> {
    let alloc = rt.alloc();
    expect_eq(
        &rt,
        format!(in alloc; "{}", TreeError::Memory)?.as_str(),
        "out of memory",
    );
    expect_eq(
        &rt,
        format!(in alloc; "{}", TreeError::Full)?.as_str(),
        "tree is full",
    );
    Ok(())
}
