//! Tests of a table of networks of both versions, and of its networks.

mod refused;

use rart::TreeError;
use rart_cidr::{Cidr4, Cidr6, CidrTable, IpNet};
use std::cmp::Ordering;
use std::net::{IpAddr, Ipv4Addr, Ipv6Addr};
use std::str::FromStr;

/// A call.
#[derive(Clone, Copy)]
enum Call {
    Insert(&'static str, u64),
    Remove(&'static str),
    Write(&'static str, u64),
    Get(&'static str),
    /// Finds the longest match of an address.
    Route(&'static str),
    /// Finds the longest match of a network.
    Covers(&'static str),
    Clear,
    /// Counts the routes of each version.
    Len,
}

/// What the call returns.
#[derive(Clone, Copy)]
enum Answer {
    Value(Option<u64>),
    Route(&'static str, u64),
    None,
    Counts(usize, usize),
}

type Row = (Call, Answer);

static ROWS: &[Row] = &[
    (Call::Len, Answer::Counts(0, 0)),
    (Call::Route("10.1.2.3"), Answer::None),
    (Call::Route("2001:db8::1"), Answer::None),
    (Call::Get("0.0.0.0/0"), Answer::Value(None)),
    (Call::Remove("::/0"), Answer::Value(None)),
    (Call::Insert("0.0.0.0/0", 1), Answer::Value(None)),
    (Call::Len, Answer::Counts(1, 0)),
    // the default route of one version matches no address of the other one
    (Call::Route("10.1.2.3"), Answer::Route("0.0.0.0/0", 1)),
    (Call::Route("2001:db8::1"), Answer::None),
    (Call::Covers("::/0"), Answer::None),
    (Call::Get("::/0"), Answer::Value(None)),
    (Call::Write("::/0", 9), Answer::Value(None)),
    (Call::Insert("::/0", 2), Answer::Value(None)),
    (Call::Len, Answer::Counts(1, 1)),
    (Call::Route("10.1.2.3"), Answer::Route("0.0.0.0/0", 1)),
    (Call::Route("2001:db8::1"), Answer::Route("::/0", 2)),
    (Call::Covers("0.0.0.0/0"), Answer::Route("0.0.0.0/0", 1)),
    (Call::Covers("::/0"), Answer::Route("::/0", 2)),
    // the same octets and the same length in both versions
    (Call::Insert("32.1.0.0/16", 3), Answer::Value(None)),
    (Call::Route("2001:db8::1"), Answer::Route("::/0", 2)),
    (Call::Insert("2001::/16", 4), Answer::Value(None)),
    (Call::Insert("2001:db8::1/128", 5), Answer::Value(None)),
    (Call::Len, Answer::Counts(2, 3)),
    (
        Call::Route("2001:db8::1"),
        Answer::Route("2001:db8::1/128", 5),
    ),
    (Call::Route("2001:db8::2"), Answer::Route("2001::/16", 4)),
    (Call::Route("32.1.2.3"), Answer::Route("32.1.0.0/16", 3)),
    (
        Call::Covers("32.1.128.0/17"),
        Answer::Route("32.1.0.0/16", 3),
    ),
    (Call::Covers("2001:db8::/32"), Answer::Route("2001::/16", 4)),
    (Call::Insert("2001::/16", 6), Answer::Value(Some(4))),
    (Call::Get("32.1.0.0/16"), Answer::Value(Some(3))),
    (Call::Write("32.1.0.0/16", 7), Answer::Value(Some(3))),
    (Call::Get("32.1.0.0/16"), Answer::Value(Some(7))),
    (Call::Get("2001::/16"), Answer::Value(Some(6))),
    (Call::Write("2001::/16", 8), Answer::Value(Some(6))),
    (Call::Remove("32.1.0.0/16"), Answer::Value(Some(7))),
    (Call::Remove("32.1.0.0/16"), Answer::Value(None)),
    (Call::Get("2001::/16"), Answer::Value(Some(8))),
    (Call::Route("32.1.2.3"), Answer::Route("0.0.0.0/0", 1)),
    (Call::Remove("0.0.0.0/0"), Answer::Value(Some(1))),
    (Call::Len, Answer::Counts(0, 3)),
    (Call::Route("32.1.2.3"), Answer::None),
    (Call::Clear, Answer::Counts(0, 0)),
    (Call::Route("2001:db8::1"), Answer::None),
    (Call::Insert("10.0.0.0/8", 1), Answer::Value(None)),
    (Call::Clear, Answer::Counts(0, 0)),
    (Call::Route("10.1.2.3"), Answer::None),
];

fn network(text: &str) -> Option<IpNet> {
    match (Cidr4::from_str(text), Cidr6::from_str(text)) {
        (Ok(net), _) => Some(IpNet::V4(net)),
        (_, Ok(net)) => Some(IpNet::V6(net)),
        _ => None,
    }
}

fn address(text: &str) -> Option<IpAddr> {
    match (Ipv4Addr::from_str(text), Ipv6Addr::from_str(text)) {
        (Ok(addr), _) => Some(IpAddr::V4(addr)),
        (_, Ok(addr)) => Some(IpAddr::V6(addr)),
        _ => None,
    }
}

fn is_found(found: Option<(IpNet, &u64)>, wanted: Answer) -> bool {
    match (found, wanted) {
        (Some((net, target)), Answer::Route(text, number)) => {
            network(text) == Some(net) && *target == number
        }
        (None, Answer::None) => true,
        _ => false,
    }
}

fn are_counts(table: &CidrTable<u64>, wanted: Answer) -> bool {
    match wanted {
        Answer::Counts(four, six) => {
            let (v4, v6) = (table.v4().len(), table.v6().len());
            v4 == four
                && v6 == six
                && table.len() == four.wrapping_add(six)
                && table.is_empty() == (four == 0 && six == 0)
        }
        _ => false,
    }
}

fn is_written(table: &mut CidrTable<u64>, net: &IpNet, target: u64, wanted: Option<u64>) -> bool {
    match (table.get_mut(net), wanted) {
        (Some(stored), Some(old)) if *stored == old => {
            *stored = target;
            true
        }
        (None, None) => true,
        _ => false,
    }
}

fn is_inserted(
    table: &mut CidrTable<u64>,
    net: &IpNet,
    target: u64,
    wanted: Option<u64>,
) -> Result<bool, TreeError> {
    match table.insert(net, target) {
        Ok(old) => Ok(old == wanted),
        Err(refused) if refused.value == target => Err(refused.error),
        Err(_) => Ok(false),
    }
}

fn network_holds(table: &mut CidrTable<u64>, net: &IpNet, row: &Row) -> Result<bool, TreeError> {
    match *row {
        (Call::Insert(_, target), Answer::Value(wanted)) => is_inserted(table, net, target, wanted),
        (Call::Remove(_), Answer::Value(wanted)) => match table.remove(net) {
            Ok(old) => Ok(old == wanted),
            Err(error) => Err(error),
        },
        (Call::Write(_, target), Answer::Value(wanted)) => {
            Ok(is_written(table, net, target, wanted))
        }
        (Call::Get(_), Answer::Value(wanted)) => Ok(
            table.get(net).copied() == wanted && table.contains_key(net) == wanted.is_some(),
        ),
        (Call::Covers(_), wanted) => Ok(is_found(table.longest_match_net(net), wanted)),
        _ => Ok(false),
    }
}

// Whether a call returns what its row says, or the error of a call that fails and returns its target.
fn row_holds(table: &mut CidrTable<u64>, row: &Row) -> Result<bool, TreeError> {
    match row.0 {
        Call::Insert(text, _)
        | Call::Remove(text)
        | Call::Write(text, _)
        | Call::Get(text)
        | Call::Covers(text) => match network(text) {
            Some(net) => network_holds(table, &net, row),
            None => Ok(false),
        },
        Call::Route(text) => match address(text) {
            Some(addr) => Ok(is_found(table.longest_match(addr), row.1)),
            None => Ok(false),
        },
        Call::Clear => {
            table.clear();
            Ok(are_counts(table, row.1))
        }
        Call::Len => Ok(are_counts(table, row.1)),
    }
}

#[test]
fn a_table_of_both_versions(rt: HostRuntime) {
    let mut table = CidrTable::<u64>::new(rt.alloc());
    let mut at = 0_usize;
    for row in ROWS {
        assert!(rt; row_holds(&mut table, row) == Ok(true), "row {at} differs");
        at = at.wrapping_add(1);
    }
}

/// A network, its version and its length.
type NetRow = (&'static str, bool, u8);

/// Networks in order.
static NETWORKS: &[NetRow] = &[
    ("0.0.0.0/0", true, 0),
    ("0.0.0.0/8", true, 8),
    ("32.1.0.0/16", true, 16),
    ("255.255.255.255/32", true, 32),
    ("::/0", false, 0),
    ("::/8", false, 8),
    ("2001::/16", false, 16),
    ("2001:db8::1/128", false, 128),
];

// Whether a network has the version and the length of its row.
fn is_network(row: &NetRow) -> bool {
    match network(row.0) {
        Some(net) => net.is_v4() == row.1 && net.len() == row.2,
        None => false,
    }
}

// The order of two networks, if they are equal exactly where the order says so.
fn order(left: &str, right: &str) -> Option<Ordering> {
    match (network(left), network(right)) {
        (Some(left), Some(right)) => {
            let order = left.cmp(&right);
            ((left == right) == (order == Ordering::Equal)).then_some(order)
        }
        _ => None,
    }
}

// Whether the network of an address alone is the one that the text writes.
fn is_host(addr: &str, net: &str) -> bool {
    match (address(addr), network(net)) {
        (Some(addr), Some(net)) => IpNet::host(addr) == net,
        _ => false,
    }
}

#[test]
fn networks_of_both_versions(rt: HostRuntime) {
    let mut at = 0_usize;
    for row in NETWORKS {
        assert!(rt; is_network(row), "{at}");
        let mut there = 0_usize;
        for other in NETWORKS {
            assert!(rt;
                order(row.0, other.0) == Some(at.cmp(&there)),
                "{at} and {there}"
            );
            there = there.wrapping_add(1);
        }
        at = at.wrapping_add(1);
    }
    assert!(rt; is_host("0.0.0.0", "0.0.0.0/32"));
    assert!(rt; is_host("10.1.2.3", "10.1.2.3/32"));
    assert!(rt; is_host("::", "::/128"));
    assert!(rt; is_host("2001:db8::1", "2001:db8::1/128"));
}
