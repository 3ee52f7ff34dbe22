//! Tests of calls on whole tables: `==`, `clone`, `last`, callbacks for each route, and calls on two tables.

mod callbacks;
mod drops;
mod equal;
mod last;
mod pairs;
mod retains;

use crate::player::{are_swept, assert_none_wrong};

#[test]
fn tables_are_equal_if_their_routes_are(rt: HostRuntime) {
    assert_none_wrong(&rt, rt.alloc(), equal::FOUR, equal::SIX);
}

#[test]
fn the_last_route(rt: HostRuntime) {
    assert_none_wrong(&rt, rt.alloc(), last::FOUR, last::SIX);
}

#[test]
fn callbacks_write_targets(rt: HostRuntime) {
    assert_none_wrong(&rt, rt.alloc(), callbacks::FOUR, callbacks::SIX);
}

#[test]
fn callbacks_keep_routes(rt: HostRuntime) {
    assert_none_wrong(&rt, rt.alloc(), retains::FOUR, retains::SIX);
}

#[test]
fn networks_of_both_tables_and_of_either(rt: HostRuntime) {
    assert_none_wrong(&rt, rt.alloc(), pairs::FOUR, pairs::SIX);
}

#[test]
fn reads_of_whole_tables_make_no_request(rt: HostRuntime) {
    let alloc = rt.alloc();
    assert_none_wrong(&rt, alloc, equal::FOUR, equal::SIX);
    assert_none_wrong(&rt, alloc, last::FOUR, last::SIX);
    assert_none_wrong(&rt, alloc, callbacks::FOUR, callbacks::SIX);
    assert_none_wrong(&rt, alloc, pairs::FOUR, pairs::SIX);
}

// A refused clone leaves both tables unchanged. A refused call of `retain` may have done a part of its work, and its
// repetition does the rest.
#[test]
fn clones_and_retains_refused_in_turn_are_repeated(rt: HostRuntime) {
    let alloc = rt.alloc();
    assert!(rt; are_swept(alloc, equal::FOUR, equal::SIX));
    assert!(rt; are_swept(alloc, retains::REFUSED_FOUR, retains::REFUSED_SIX));
}
