//! Tests that play rows on tables of both versions.

use crate::player::{are_swept, assert_none_wrong, is_made_quietly};
use crate::{aggregates, each_call, edits, neighbours, nested, reads, removals, walks};
use rart_cidr::{Cidr4, Cidr6};

#[test]
fn networks_inside_one_another(rt: HostRuntime) {
    assert_none_wrong(&rt, rt.alloc(), nested::FOUR, nested::SIX);
}

#[test]
fn default_route_and_host_routes(rt: HostRuntime) {
    assert_none_wrong(
        &rt,
        rt.alloc(),
        removals::DEFAULT_AND_HOSTS_FOUR,
        removals::DEFAULT_AND_HOSTS_SIX,
    );
}

#[test]
fn networks_of_the_same_octets(rt: HostRuntime) {
    assert_none_wrong(
        &rt,
        rt.alloc(),
        removals::ONE_STRIDE_FOUR,
        removals::ONE_STRIDE_SIX,
    );
}

#[test]
fn each_call_on_networks_given_as_texts(rt: HostRuntime) {
    assert_none_wrong(&rt, rt.alloc(), each_call::FOUR, each_call::SIX);
}

#[test]
fn all_routes_and_those_inside_networks_in_order(rt: HostRuntime) {
    assert_none_wrong(&rt, rt.alloc(), walks::FOUR, walks::SIX);
}

#[test]
fn routes_of_several_strides(rt: HostRuntime) {
    let alloc = rt.alloc();
    assert_none_wrong(&rt, alloc, edits::STRIDES_FOUR, edits::STRIDES_SIX);
    assert_none_wrong(
        &rt,
        alloc,
        edits::FIVE_STRIDES_FOUR,
        edits::FIVE_STRIDES_SIX,
    );
}

#[test]
fn routes_next_to_networks_and_removals_of_many(rt: HostRuntime) {
    assert_none_wrong(&rt, rt.alloc(), neighbours::FOUR, neighbours::SIX);
}

#[test]
fn routes_that_change_no_longest_match_leave(rt: HostRuntime) {
    assert_none_wrong(&rt, rt.alloc(), aggregates::FOUR, aggregates::SIX);
}

#[test]
fn a_longest_match_reads_each_stride_on_its_way_once(rt: HostRuntime) {
    assert_none_wrong(&rt, rt.alloc(), reads::FOUR, reads::SIX);
}

#[test]
fn look_ups_and_loans_of_networks_make_no_request(rt: HostRuntime) {
    let alloc = rt.alloc();
    assert!(rt; is_made_quietly::<Cidr4>(alloc));
    assert!(rt; is_made_quietly::<Cidr6>(alloc));
    assert_none_wrong(
        &rt,
        alloc,
        each_call::LOOK_UPS_FOUR,
        each_call::LOOK_UPS_SIX,
    );
    assert_none_wrong(&rt, alloc, nested::FOUR, nested::SIX);
    assert_none_wrong(&rt, alloc, each_call::FOUR, each_call::SIX);
    assert_none_wrong(&rt, alloc, reads::FOUR, reads::SIX);
}

#[test]
fn edits_of_networks_refused_in_turn_change_nothing(rt: HostRuntime) {
    let alloc = rt.alloc();
    assert!(rt; are_swept(alloc, nested::FOUR, nested::SIX));
    assert!(rt;
        are_swept(
            alloc,
            removals::DEFAULT_AND_HOSTS_FOUR,
            removals::DEFAULT_AND_HOSTS_SIX
        )
    );
    assert!(rt; are_swept(alloc, removals::ONE_STRIDE_FOUR, removals::ONE_STRIDE_SIX));
    assert!(rt; are_swept(alloc, each_call::FOUR, each_call::SIX));
    assert!(rt; are_swept(alloc, edits::STRIDES_FOUR, edits::STRIDES_SIX));
    assert!(rt; are_swept(alloc, edits::FIVE_STRIDES_FOUR, edits::FIVE_STRIDES_SIX));
    assert!(rt; are_swept(alloc, reads::FOUR, reads::SIX));
}

// A refused removal or aggregation may have done a part of its work, and its repetition does the rest.
#[test]
fn edits_of_many_routes_refused_in_turn_are_repeated(rt: HostRuntime) {
    let alloc = rt.alloc();
    assert!(rt; are_swept(alloc, aggregates::REFUSED_FOUR, aggregates::REFUSED_SIX));
    assert!(rt; are_swept(alloc, neighbours::REFUSED_FOUR, neighbours::REFUSED_SIX));
}

#[test]
fn a_walk_of_networks_refused_in_turn_gives_none(rt: HostRuntime) {
    assert!(rt; are_swept(rt.alloc(), walks::FOUR, walks::SIX));
}
