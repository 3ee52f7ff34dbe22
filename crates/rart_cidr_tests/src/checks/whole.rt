//! Whether a call on whole tables returns what its row says.

use crate::calls::{Ask, PairText, Reply, RouteText, Row};
use crate::checks::{are_routes, is_found, network_of};
use crate::model::Route;
use crate::tables::Table;
use crate::tables::version::Version;
use crate::tables::whole::pair_number;
use rart::TreeError;

// Whether a network with a number for both targets is the one of the row.
fn is_pair<N: Version>(route: Route, wanted: PairText) -> bool {
    network_of::<N>(wanted.0) == Some(route.0) && route.1 == pair_number(wanted.1, wanted.2)
}

fn are_pairs<N: Version>(given: &[Route], wanted: &[PairText]) -> bool {
    let mut at = 0_usize;
    for route in given {
        match wanted.get(at) {
            Some(text) if is_pair::<N>(*route, *text) => at = at.wrapping_add(1),
            _ => return false,
        }
    }
    at == wanted.len()
}

// Whether both forms of a call on two tables give the pairs of the row.
fn pairs_hold<N: Version>(table: &Table<N>, given: &mut Vec<Route>, row: &Row) -> bool {
    let Reply::Pairs(wanted) = row.1 else {
        return false;
    };
    given.clear();
    match row.0 {
        Ask::Intersect => table.intersect(given),
        _ => table.unite(given),
    }
    let is_right = are_pairs::<N>(given.as_slice(), wanted);
    given.clear();
    match row.0 {
        Ask::Intersect => table.intersect_by_ref(given),
        _ => table.unite_by_ref(given),
    }
    is_right && are_pairs::<N>(given.as_slice(), wanted)
}

// Whether the other table has these routes, inserted in this order, and had none of them before.
fn is_filled<N: Version>(table: &mut Table<N>, routes: &[RouteText]) -> Result<bool, TreeError> {
    table.clear_other();
    for (text, target) in routes {
        match network_of::<N>(text) {
            Some(net) if table.put_other((net, *target))? => {}
            _ => return Ok(false),
        }
    }
    Ok(true)
}

// Whether the callback was called with the routes of the row.
fn calls_hold<N: Version>(given: &[Route], wanted: Reply) -> bool {
    match wanted {
        Reply::Routes(texts) => are_routes::<N>(given, texts),
        Reply::Done => true,
        _ => false,
    }
}

// Makes the call of a row whose callback is called with each route.
fn call_each<N: Version>(
    table: &mut Table<N>,
    given: &mut Vec<Route>,
    ask: Ask,
) -> Result<(), TreeError> {
    match ask {
        Ask::WriteEach => table.write_each(given),
        Ask::WriteEachByRef => table.write_each_by_ref(given),
        Ask::KeepOdd => return table.keep_odd(given),
        _ => return table.keep_odd_by_ref(given),
    }
    Ok(())
}

/// Makes the call of a row on whole tables, and returns whether it returns what the row says.
///
/// # Errors
///
/// The error of an insertion, a removal or a clone.
pub fn whole_row_holds<N: Version>(
    table: &mut Table<N>,
    given: &mut Vec<Route>,
    row: &Row,
) -> Result<bool, TreeError> {
    match *row {
        (Ask::Other(routes), Reply::Done) => is_filled(table, routes),
        (Ask::Equals, Reply::Is(wanted)) => Ok(table.equals() == Some(wanted)),
        (Ask::CloneToOther, Reply::Done) => {
            table.clone_to_other()?;
            Ok(true)
        }
        (Ask::CloneFromOther, Reply::Done) => {
            table.clone_from_other()?;
            Ok(true)
        }
        (Ask::Last, wanted) => Ok(is_found::<N>(table.last(), wanted)),
        (Ask::Intersect | Ask::Union, _) => Ok(pairs_hold(table, given, row)),
        (Ask::WriteEach | Ask::WriteEachByRef | Ask::KeepOdd | Ask::KeepOddByRef, wanted) => {
            given.clear();
            call_each(table, given, row.0)?;
            Ok(calls_hold::<N>(given.as_slice(), wanted))
        }
        _ => Ok(false),
    }
}
