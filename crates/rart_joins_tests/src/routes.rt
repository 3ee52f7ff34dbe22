//! A route table: its laws, its counted look-ups, and what drops its targets.

mod drops;

use rart::laws::routes::{add_then_route, withdraw_then_route};
use rart::{ArrayKey, KeyTrait, RouteTable, Visits};

type Key = ArrayKey<16>;

type Table = RouteTable<Key, u64>;

// The key of a text of at most 16 bytes.
fn key(text: &str) -> Key {
    let bytes = text.as_bytes();
    Key::new_from_slice(&bytes[..bytes.len().min(16)])
}

static VERSIONS: [(&str, u64); 3] = [("/", 1), ("/api", 2), ("/api/v1", 3)];

fn adds_versions(table: &mut Table) -> bool {
    for (prefix, target) in &VERSIONS {
        if table.add_new(&key(prefix), *target).is_err() {
            return false;
        }
    }
    true
}

fn route_seen(table: &Table, probe: &str) -> Option<u64> {
    table
        .seen::<Visits>()
        .longest_prefix_value_bytes_counted(probe.as_bytes(), &mut Visits::new())
        .copied()
}

#[test]
fn counted_look_ups_are_routed_by_the_longest_prefix(rt: HostRuntime) {
    let mut table = Table::new(rt.alloc());
    let well = adds_versions(&mut table)
        && route_seen(&table, "/api/v2") == Some(2)
        && route_seen(&table, "home").is_none();
    assert!(rt; well);
}

// The targets of a probe before and after an edit.
type Targets = (Option<u64>, Option<u64>);

static ADDED: [(&str, u64, &str, Targets); 3] = [
    ("/api/v", 7, "/api/v2", (Some(2), Some(7))),
    ("/api/w", 8, "/api/v1/users", (Some(3), Some(3))),
    ("/a", 9, "/api/v1", (Some(3), Some(3))),
];

static WITHDRAWN: [(&str, &str, Targets); 3] = [
    ("/api/v", "/api/v2", (Some(7), Some(2))),
    ("/a", "/home", (Some(1), Some(1))),
    ("/", "/home", (Some(1), None)),
];

fn laws_give(table: &mut Table) -> bool {
    for (prefix, target, probe, wanted) in &ADDED {
        match add_then_route(table, &key(prefix), *target, probe.as_bytes()) {
            Ok(found) if found == *wanted => {}
            _ => return false,
        }
    }
    for (prefix, probe, wanted) in &WITHDRAWN {
        match withdraw_then_route(table, &key(prefix), probe.as_bytes()) {
            Ok(found) if found == *wanted => {}
            _ => return false,
        }
    }
    true
}

#[test]
fn edits_reach_the_probes_that_their_prefix_begins(rt: HostRuntime) {
    let mut table = Table::new(rt.alloc());
    let well = adds_versions(&mut table) && laws_give(&mut table);
    assert!(rt; well);
}
