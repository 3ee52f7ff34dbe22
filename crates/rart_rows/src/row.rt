//! A row: what call it makes, on what, and with which arguments.

use crate::names::{Call, Group, Insertion};
use crate::request::{Request, Rule, Walk};
use crate::table::{Entry, names, route_names};
use crate::words::{Bytes, End, Words};

/// What a row calls.
#[derive(Clone, Copy, PartialEq, Eq)]
pub enum Place {
    /// The first tree.
    Tree,
    /// The second tree.
    Other,
    /// The first route table.
    Routes,
    /// The second route table.
    OtherRoutes,
}

/// What a row says of the requests for memory of its call.
#[derive(Clone, Copy, PartialEq, Eq)]
pub enum Demand {
    /// Nothing.
    Any,
    /// There is none.
    Quiet,
    /// There is at least one.
    Asks,
    /// The one of this number is refused.
    Refused(u64),
    /// That one and each after it are refused.
    RefusedFrom(u64),
}

/// The arguments of a call.
#[derive(Clone, Copy)]
pub struct Args<'a> {
    /// The key, or that of the first bound.
    pub key: Bytes,
    /// The key of the second bound.
    pub end_key: Bytes,
    /// Bytes that need not be a key, or those of the first bound.
    pub probe: Bytes,
    /// The bytes of the second bound.
    pub end_probe: Bytes,
    pub start: End,
    pub end: End,
    pub value: u64,
    /// The end of a run of values.
    pub to: u64,
    /// The ends that are called in turn.
    pub turns: &'a [u8],
    /// Pairs that are given to a call.
    pub items: &'a [u8],
    pub request: Request,
    pub rule: Rule,
    pub walk: Walk,
}

/// A call of a row.
#[derive(Clone, Copy)]
pub struct Row<'a> {
    pub demand: Demand,
    pub place: Place,
    pub call: Call,
    pub args: Args<'a>,
}

fn no_args<'a>() -> Args<'a> {
    Args {
        key: Bytes::new(),
        end_key: Bytes::new(),
        probe: Bytes::new(),
        end_probe: Bytes::new(),
        start: End::Open,
        end: End::Open,
        value: 0,
        to: 0,
        turns: b"".as_slice(),
        items: b"".as_slice(),
        request: Request::new(),
        rule: Rule::All,
        walk: Walk::Continue,
    }
}

// Reads a start whose bytes need not be a key.
fn read_start<'a>(words: &mut Words<'a>, args: &mut Args<'a>) {
    args.start = words.end();
    if !matches!(args.start, End::Open) {
        args.probe = words.bytes();
    }
}

fn read_end<'a>(words: &mut Words<'a>, args: &mut Args<'a>) {
    args.end = words.end();
    if !matches!(args.end, End::Open) {
        args.end_probe = words.bytes();
    }
}

fn read_start_key<'a>(words: &mut Words<'a>, args: &mut Args<'a>) {
    read_start(words, args);
    args.key = args.probe;
}

fn read_end_key<'a>(words: &mut Words<'a>, args: &mut Args<'a>) {
    read_end(words, args);
    args.end_key = args.end_probe;
}

// Reads turns at both ends.
fn read_turns<'a>(words: &mut Words<'a>) -> &'a [u8] {
    let turns = words.next();
    for turn in turns {
        if !matches!(*turn, b'f' | b'b') {
            words.refuse();
        }
    }
    turns
}

// Reads the argument that a letter names.
fn read_arg<'a>(words: &mut Words<'a>, letter: u8, args: &mut Args<'a>) {
    match letter {
        b'k' => args.key = words.bytes(),
        b'b' => args.probe = words.bytes(),
        b'v' => args.value = words.number(),
        b'w' => args.to = words.number(),
        b's' => read_start_key(words, args),
        b'e' => read_end_key(words, args),
        b'S' => read_start(words, args),
        b'E' => read_end(words, args),
        b't' => args.turns = read_turns(words),
        b'i' => args.items = words.all(),
        b'u' => args.request = Request::read(words),
        b'r' => args.rule = Rule::read(words),
        _ => args.walk = Walk::read(words),
    }
}

fn read_args<'a>(words: &mut Words<'a>, letters: &[u8]) -> Args<'a> {
    let mut args = no_args();
    for letter in letters {
        read_arg(words, *letter, &mut args);
    }
    args
}

// The demand that a word names, which may have a number.
fn demand_of(word: &[u8], words: &mut Words<'_>) -> Demand {
    match word {
        b"quiet" => Demand::Quiet,
        b"asks" => Demand::Asks,
        b"refuse" => Demand::Refused(words.number()),
        b"refuse_from" => Demand::RefusedFrom(words.number()),
        _ => Demand::Any,
    }
}

fn read_demand(words: &mut Words<'_>) -> Demand {
    let mut later = *words;
    let word = later.next();
    let demand = demand_of(word, &mut later);
    if demand != Demand::Any {
        *words = later;
    }
    demand
}

fn place_of(word: &[u8]) -> Place {
    match word {
        b"other" => Place::Other,
        b"routes" => Place::Routes,
        b"other_routes" => Place::OtherRoutes,
        _ => Place::Tree,
    }
}

// The place that a word names; the first tree has no name.
fn read_place(words: &mut Words<'_>) -> Place {
    let mut later = *words;
    let place = place_of(later.next());
    if place != Place::Tree {
        *words = later;
    }
    place
}

/// Whether a place is a tree.
pub fn is_tree(place: Place) -> bool {
    matches!(place, Place::Tree | Place::Other)
}

// The call of this name, and the letters of its arguments.
fn find(names: &[Entry], word: &[u8]) -> Option<(Call, &'static str)> {
    for (name, call, letters) in names {
        if name.as_bytes() == word {
            return Some((*call, *letters));
        }
    }
    None
}

// Whether a call takes these arguments: `update` can't fail, and a group of calls is of some.
fn takes(call: Call, args: &Args<'_>) -> bool {
    match call {
        Call::Insertion(Insertion::Update) => !args.request.fails(),
        Call::Group(Group::Fill | Group::EmptyOut) => args.value < args.to,
        _ => true,
    }
}

/// Reads a row without its answer; none if it is malformed.
pub fn read_row(text: &[u8]) -> Option<Row<'_>> {
    let mut words = Words::new(text);
    let demand = read_demand(&mut words);
    let place = read_place(&mut words);
    let word = words.next();
    let (call, letters) = if is_tree(place) {
        find(names(), word)?
    } else {
        find(route_names(), word)?
    };
    let args = read_args(&mut words, letters.as_bytes());
    let row = Row {
        demand,
        place,
        call,
        args,
    };
    (words.are_read() && takes(call, &row.args)).then_some(row)
}
