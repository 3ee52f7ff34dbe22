//! Whether the call of a row returns what the row says.

mod whole;

use crate::calls::{Ask, Reply, RouteText, Row};
use crate::checks::whole::whole_row_holds;
use crate::model::{Group, Network, Route};
use crate::tables::Table;
use crate::tables::version::{Version, address, compare, host, network, parse, supernet};
use rart::TreeError;
use rart_cidr::{CidrError, ParseCidrError};
use std::cmp::Ordering;

// The network that a text writes, if it is also the network of its address and length.
fn network_of<N: Version>(text: &str) -> Option<Network> {
    match parse::<N>(text) {
        Ok(net) => (network::<N>(net.addr, net.len) == Ok(net)).then_some(net),
        Err(_) => None,
    }
}

fn is_route<N: Version>(route: Route, wanted: RouteText) -> bool {
    network_of::<N>(wanted.0) == Some(route.0) && route.1 == wanted.1
}

fn are_routes<N: Version>(routes: &[Route], wanted: &[RouteText]) -> bool {
    let mut at = 0_usize;
    for route in routes {
        match wanted.get(at) {
            Some(text) if is_route::<N>(*route, *text) => at = at.wrapping_add(1),
            _ => return false,
        }
    }
    at == wanted.len()
}

fn is_found<N: Version>(found: Option<Route>, wanted: Reply) -> bool {
    match (found, wanted) {
        (Some(route), Reply::Route(text)) => is_route::<N>(route, text),
        (None, Reply::None) => true,
        _ => false,
    }
}

// Whether the longest matches by descent and by lengths are both the one of the row.
fn is_longest<N: Version>(found: (Option<Route>, Option<Route>), wanted: Reply) -> bool {
    found.0 == found.1 && is_found::<N>(found.0, wanted)
}

fn is_network<N: Version>(addr: u128, len: u8, wanted: Reply) -> bool {
    match (network::<N>(addr, len), wanted) {
        (Err(CidrError::Length), Reply::BadLength) => true,
        (Err(CidrError::HostBits), Reply::HostBits) => true,
        (Ok(net), Reply::Net(text)) => network_of::<N>(text) == Some(net),
        _ => false,
    }
}

fn is_parse_error<N: Version>(text: &str, wanted: Reply) -> bool {
    match (parse::<N>(text), wanted) {
        (Err(ParseCidrError::Address), Reply::BadAddress) => true,
        (Err(ParseCidrError::Length), Reply::BadLength) => true,
        (Err(ParseCidrError::HostBits), Reply::HostBits) => true,
        _ => false,
    }
}

fn is_supernet<N: Version>(net: Network, len: u8, wanted: Reply) -> bool {
    match wanted {
        Reply::Net(text) => {
            len <= net.len && network_of::<N>(text) == Some(supernet::<N>(net, len))
        }
        _ => false,
    }
}

fn is_order<N: Version>(left: &str, right: &str, wanted: Reply) -> bool {
    match (network_of::<N>(left), network_of::<N>(right), wanted) {
        (Some(left), Some(right), Reply::Order(order)) => {
            compare::<N>(left, right) == (order, order, order == Ordering::Equal)
        }
        _ => false,
    }
}

fn is_len<N: Version>(table: &Table<N>, wanted: Reply) -> bool {
    match wanted {
        Reply::Count(count) => table.count() == (count, count == 0),
        _ => false,
    }
}

fn are_reads<N: Version>(table: &Table<N>, net: Network, wanted: Reply) -> bool {
    let (found, nodes, strides) = table.longest_counted(net);
    match (wanted, found) {
        (Reply::Reads(entered, read, Some(text)), Some(route)) => {
            nodes == entered && strides == read && network_of::<N>(text) == Some(route.0)
        }
        (Reply::Reads(entered, read, None), None) => nodes == entered && strides == read,
        _ => false,
    }
}

fn walk_holds<N: Version>(
    table: &Table<N>,
    given: &mut Vec<Route>,
    group: Group,
    wanted: Reply,
) -> Result<bool, TreeError> {
    given.clear();
    match (table.walk(group, given), wanted) {
        (Ok(()), Reply::Routes(texts)) => Ok(are_routes::<N>(given.as_slice(), texts)),
        (Ok(()), Reply::Count(count)) => Ok(given.len() == count),
        (Ok(()), _) => Ok(false),
        (Err(error), _) => Err(error),
    }
}

fn count_holds(counted: Result<usize, TreeError>, wanted: Reply) -> Result<bool, TreeError> {
    match (counted, wanted) {
        (Ok(count), Reply::Count(wanted)) => Ok(count == wanted),
        (Ok(_), Reply::Done) => Ok(true),
        (Ok(_), _) => Ok(false),
        (Err(error), _) => Err(error),
    }
}

// Whether an edit at a network holds. A refused insertion must return its target.
fn edit_holds<N: Version>(
    table: &mut Table<N>,
    net: Network,
    row: &Row,
) -> Result<bool, TreeError> {
    match *row {
        (Ask::Insert(_, target), Reply::Value(wanted)) => match table.put(net, target) {
            Ok(old) => Ok(old == wanted),
            Err(refused) if refused.value == target => Err(refused.error),
            Err(_) => Ok(false),
        },
        (Ask::Remove(_), Reply::Value(wanted)) => match table.take(net) {
            Ok(old) => Ok(old == wanted),
            Err(error) => Err(error),
        },
        (Ask::Write(_, target), Reply::Value(wanted)) => Ok(table.write(net, target) == wanted),
        (Ask::RemoveInside(_), wanted) => count_holds(table.take_inside(net), wanted),
        _ => Ok(false),
    }
}

fn network_holds<N: Version>(
    table: &Table<N>,
    given: &mut Vec<Route>,
    net: Network,
    row: &Row,
) -> Result<bool, TreeError> {
    match *row {
        (Ask::Get(_), Reply::Value(wanted)) => Ok(table.target(net) == (wanted, wanted.is_some())),
        (Ask::Covers(_), wanted) => Ok(is_longest::<N>(table.longest_of_net(net), wanted)),
        (Ask::CoversAll(_), wanted) => walk_holds(table, given, Group::Covering(net), wanted),
        (Ask::Inside(_), wanted) => walk_holds(table, given, Group::Inside(net), wanted),
        (Ask::Reads(_), wanted) => Ok(are_reads(table, net, wanted)),
        (Ask::After(_), wanted) => Ok(is_found::<N>(table.after(net), wanted)),
        (Ask::AtOrAfter(_), wanted) => Ok(is_found::<N>(table.at_or_after(net), wanted)),
        (Ask::Overlaps(_), Reply::Is(wanted)) => Ok(table.overlaps(net) == wanted),
        (Ask::Supernet(_, len), wanted) => Ok(is_supernet::<N>(net, len, wanted)),
        _ => Ok(false),
    }
}

fn address_holds<N: Version>(
    table: &Table<N>,
    given: &mut Vec<Route>,
    addr: u128,
    row: &Row,
) -> Result<bool, TreeError> {
    match *row {
        (Ask::Route(_), wanted) => {
            let found = table.longest_of_net(host::<N>(addr));
            Ok(table.longest(addr) == found.0 && is_longest::<N>(found, wanted))
        }
        (Ask::Covering(_), wanted) => walk_holds(table, given, Group::Around(addr), wanted),
        (Ask::Network(_, len), wanted) => Ok(is_network::<N>(addr, len, wanted)),
        _ => Ok(false),
    }
}

/// Makes the call of a row, and returns whether it returns what the row says. `given` needs room for the routes of a
/// walk, and is cleared before it.
///
/// # Errors
///
/// The error of an insertion, a removal or a walk. A row with a malformed text doesn't hold.
pub fn row_holds<N: Version>(
    table: &mut Table<N>,
    given: &mut Vec<Route>,
    row: &Row,
) -> Result<bool, TreeError> {
    match row.0 {
        Ask::Insert(text, _) | Ask::Remove(text) | Ask::Write(text, _) | Ask::RemoveInside(text) =>
            match network_of::<N>(text) {
                Some(net) => edit_holds(table, net, row),
                None => Ok(false),
            },
        Ask::Get(text)
        | Ask::Covers(text)
        | Ask::CoversAll(text)
        | Ask::Inside(text)
        | Ask::Reads(text)
        | Ask::After(text)
        | Ask::AtOrAfter(text)
        | Ask::Overlaps(text)
        | Ask::Supernet(text, _) => match network_of::<N>(text) {
            Some(net) => network_holds(table, given, net, row),
            None => Ok(false),
        },
        Ask::Route(text) | Ask::Covering(text) | Ask::Network(text, _) => match address::<N>(text) {
            Some(addr) => address_holds(table, given, addr, row),
            None => Ok(false),
        },
        Ask::All => walk_holds(table, given, Group::All, row.1),
        Ask::First => Ok(is_found::<N>(table.first(), row.1)),
        Ask::Aggregate => count_holds(table.aggregate(), row.1),
        Ask::Parse(text) => Ok(is_parse_error::<N>(text, row.1)),
        Ask::Order(left, right) => Ok(is_order::<N>(left, right, row.1)),
        Ask::Clear => {
            table.remove_all();
            Ok(is_len(table, row.1))
        }
        Ask::Len => Ok(is_len(table, row.1)),
        _ => whole_row_holds(table, given, row),
    }
}
