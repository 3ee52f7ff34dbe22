//! Targets that count their drops, through clones and `retain` of a table of IPv4 networks, with refused requests and
//! with clones of a target that fail.

use rart::TreeError;
use rart_cidr::{Cidr4, CidrTable4};
use rart_test_tools::counted::Limited;
use rart_test_tools::counts::Counts;
use rart_test_tools::refusals::{is_swept, refuse, was_refused};
use std::alloc::{AllocError, Global};
use std::cell::Cell;
use std::net::Ipv4Addr;

type Table<'a> = CidrTable4<Limited<'a>>;

/// The number of routes of a table.
const ROUTES: u8 = 16;

/// More than the clones of targets that a test makes.
const ENOUGH: usize = 1000;

// The network of a number: one of eight bits, or the half of the one before.
fn network(number: u8) -> Cidr4 {
    let addr = Ipv4Addr::from_octets([number / 2, 0, 0, 0]);
    Cidr4::masked(addr, 8 + number % 2)
}

fn filled<'a>(alloc: Global, counts: &'a Counts) -> Table<'a> {
    let mut table = Table::new(alloc);
    for number in 0..ROUTES {
        let _old = table.insert(&network(number), counts.value(number));
    }
    table
}

// How many of the routes the table has; `None` if it has one with another target, or others.
fn count_routes(table: &Table<'_>) -> Option<usize> {
    let mut count = 0_usize;
    for number in 0..ROUTES {
        match table.get(&network(number)) {
            Some(target) if target.number == number => count = count.wrapping_add(1),
            Some(_) => return None,
            None => {}
        }
    }
    (table.len() == count).then_some(count)
}

// Whether a clone of the table succeeds, `None` if it lacks a route, and whether the request was refused.
fn cloned(alloc: Global, table: &Table<'_>, at: usize) -> (Option<bool>, bool) {
    refuse(alloc, at);
    let result: Result<Table<'_>, AllocError> = table.clone();
    let was = was_refused(alloc);
    match result {
        Ok(clone) => (
            (count_routes(&clone) == Some(usize::from(ROUTES))).then_some(true),
            was,
        ),
        Err(_) => (Some(false), was),
    }
}

// Clones a table with the request of this number refused, and with this number of targets that can be cloned. Returns
// whether the clone succeeds and whether a request was refused. `None` if the original has changed, or if a clone of a
// target isn't dropped once.
fn clone_once(alloc: Global, at: usize, clones: usize) -> Option<(bool, bool)> {
    let counts = Counts::new(clones);
    let table = filled(alloc, &counts);
    let (succeeds, was) = cloned(alloc, &table, at);
    let made = clones.wrapping_sub(counts.clones.get());
    let is_dropped = counts.drops.get() == made;
    let count = count_routes(&table);
    drop(table);
    let all = usize::from(ROUTES);
    let is_right = is_dropped && count == Some(all) && counts.drops.get() == made.wrapping_add(all);
    match succeeds {
        Some(succeeds) if is_right && succeeds == (made == all && !was) => Some((succeeds, was)),
        _ => None,
    }
}

#[test]
fn a_clone_whose_target_fails_drops_what_it_cloned(rt: HostRuntime) {
    for clones in 0..18_usize {
        let wanted = Some((clones >= usize::from(ROUTES), false));
        assert!(rt;
            clone_once(rt.alloc(), 100_000, clones) == wanted,
            "{clones}"
        );
    }
}

#[test]
fn clones_refused_in_turn_drop_what_they_cloned(rt: HostRuntime) {
    let alloc = rt.alloc();
    assert!(rt;
        is_swept(alloc, |at| {
            match clone_once(alloc, at, ENOUGH) {
                Some((succeeds, was)) if succeeds != was => Some(was),
                _ => None,
            }
        })
    );
}

// Keeps the first route and the last, and counts the calls.
fn keep_ends(table: &mut Table<'_>, calls: &Cell<usize>) -> Result<(), TreeError> {
    table.retain(|_net: &Cidr4, target: &mut Limited<'_>| {
        calls.set(calls.get().wrapping_add(1));
        target.number == 0 || target.number == ROUTES - 1
    })
}

// Whether the routes left after a refused call are the first one, the one whose removal was refused, and all after it.
fn is_stopped(table: &Table<'_>, calls: usize, drops: usize) -> bool {
    let all = usize::from(ROUTES);
    let left = all.wrapping_sub(calls).wrapping_add(2);
    let refused = network((calls.wrapping_sub(1) % 256) as u8);
    calls > 1
        && count_routes(table) == Some(left)
        && drops == all.wrapping_sub(left)
        && table.contains_key(&refused)
        && (calls == 2 || !table.contains_key(&network((calls.wrapping_sub(2) % 256) as u8)))
}

// Whether a call with the request of this number refused stops at a route and a second call does the rest. Returns
// whether a request was refused.
fn retain_twice(alloc: Global, table: &mut Table<'_>, counts: &Counts, at: usize) -> Option<bool> {
    let calls = Cell::new(0_usize);
    refuse(alloc, at);
    let first = keep_ends(table, &calls);
    let was = was_refused(alloc);
    let is_right = match first {
        Ok(()) => !was && calls.get() == usize::from(ROUTES),
        Err(error) => {
            error == TreeError::Memory && was && is_stopped(table, calls.get(), counts.drops.get())
        }
    };
    let second = keep_ends(table, &calls);
    let left = table.contains_key(&network(0)) && table.contains_key(&network(ROUTES - 1));
    (is_right && second == Ok(()) && count_routes(table) == Some(2) && left).then_some(was)
}

fn retain_once(alloc: Global, at: usize) -> Option<bool> {
    let counts = Counts::new(0);
    let mut table = filled(alloc, &counts);
    let was = retain_twice(alloc, &mut table, &counts, at)?;
    let is_dropped = counts.drops.get() == usize::from(ROUTES - 2);
    drop(table);
    (is_dropped && counts.drops.get() == usize::from(ROUTES)).then_some(was)
}

#[test]
fn retains_refused_in_turn_stop_and_a_second_call_does_the_rest(rt: HostRuntime) {
    let alloc = rt.alloc();
    assert!(rt; is_swept(alloc, |at| retain_once(alloc, at)));
}
