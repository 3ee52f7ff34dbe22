//! Calls on networks and on a table of them as rows, with networks and addresses as texts, for either version.

use std::cmp::Ordering;

/// A network and its target.
pub type RouteText = (&'static str, u64);

/// A network, its target in the table, and that in the other table.
pub type PairText = (&'static str, Option<u64>, Option<u64>);

/// A call.
#[derive(Clone, Copy)]
pub enum Ask {
    /// Inserts a route.
    Insert(&'static str, u64),
    /// Removes the route of exactly this network.
    Remove(&'static str),
    /// Writes a target through `get_mut`.
    Write(&'static str, u64),
    /// Looks up exactly this network.
    Get(&'static str),
    /// Finds the route with the longest network that contains this address, by descent and by lengths.
    Route(&'static str),
    /// Finds the route with the longest network that contains this network, by descent and by lengths.
    Covers(&'static str),
    /// Walks the routes whose networks contain this address, the shortest first.
    Covering(&'static str),
    /// Walks the routes whose networks contain this network, the shortest first.
    CoversAll(&'static str),
    /// Walks the routes inside this network, in order.
    Inside(&'static str),
    /// Walks all routes, in order.
    All,
    /// Finds the first route.
    First,
    /// Finds the first route after this network.
    After(&'static str),
    /// Finds the first route that is this network or comes after it.
    AtOrAfter(&'static str),
    /// Tests whether a route covers this network or lies inside it.
    Overlaps(&'static str),
    /// Removes the routes inside this network.
    RemoveInside(&'static str),
    /// Removes the routes that change no longest match.
    Aggregate,
    /// Counts what a longest match of this network reads.
    Reads(&'static str),
    /// Makes the network of an address and a length.
    Network(&'static str, u8),
    /// Parses a text that is no network.
    Parse(&'static str),
    /// Shortens a network to this length.
    Supernet(&'static str, u8),
    /// Compares two networks.
    Order(&'static str, &'static str),
    /// Removes all routes, and then counts them.
    Clear,
    /// Counts the routes.
    Len,
    /// Finds the last route.
    Last,
    /// Clears the other table, and inserts these routes into it, in this order.
    Other(&'static [RouteText]),
    /// Compares the table with the other one, either way round, by `==` and by `!=`.
    Equals,
    /// Replaces the other table by a clone of the table.
    CloneToOther,
    /// Replaces the table by a clone of the other one.
    CloneFromOther,
    /// Walks the networks that both tables have, by both forms of the call.
    Intersect,
    /// Walks the networks that either table has, by both forms of the call.
    Union,
    /// Writes 1000 times each target and the length of its network, by `for_each_value_mut`.
    WriteEach,
    /// The same by `for_each_value_mut_by_ref`.
    WriteEachByRef,
    /// Sets bit 8 of each target and keeps the routes with odd ones, by `retain`.
    KeepOdd,
    /// The same by `retain_by_ref`.
    KeepOddByRef,
}

/// What the call returns.
#[derive(Clone, Copy)]
pub enum Reply {
    Value(Option<u64>),
    Net(&'static str),
    Route(RouteText),
    None,
    Routes(&'static [RouteText]),
    Pairs(&'static [PairText]),
    Count(usize),
    /// The call succeeds. A call that was refused after a part of its work returns another count when it is repeated.
    Done,
    Is(bool),
    /// How many nodes of the map of strides are entered, how many strides are read, and the network that is found.
    Reads(usize, usize, Option<&'static str>),
    Order(Ordering),
    BadAddress,
    BadLength,
    HostBits,
}

/// A call and what it returns.
pub type Row = (Ask, Reply);

/// No target.
pub const NEW: Reply = Reply::Value(None);
