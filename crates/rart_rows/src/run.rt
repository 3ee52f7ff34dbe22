//! A part whose calls are values, played as one run, as it is and with each request of the run refused in turn.

use crate::answer::Answer;
use crate::asked::Asked;
use crate::calls::step::{call_of, put_reply};
use crate::form::Form;
use crate::names::{Call as Name, Insertion};
use crate::play::{Wanted, wanted_in};
use crate::report::{Line, Report};
use crate::row::{Place, Row, read_row};
use crate::text::{Part, halves};
use crate::world::Tree;
use rart::script::{Call, Reply, run, step};
use rart::{KeyTrait, TreeError};
use rart_lines::Lines;
use rart_test_tools::refusals::{refuse, was_refused};
use rart_test_trees::are_alike;
use std::alloc::Global;

/// More requests than any run makes.
const MANY: usize = 5000;

// Whether a refused call leaves the value that it wrote: then what a refused run leaves is that of no other run.
fn leaves_a_value(row: &Row<'_>) -> bool {
    matches!(row.call, Name::Insertion(Insertion::Update)) && row.args.request.writes()
}

// The call of a row as a value.
fn value_of<K: KeyTrait + Drop>(row: &Row<'_>) -> Option<Call<K, u64>> {
    if row.place != Place::Tree || leaves_a_value(row) {
        return None;
    }
    let asked = Asked::<K>::new(row, Form::Step)?;
    call_of(&asked)
}

fn is_added<K: KeyTrait + Drop>(row: &Row<'_>, calls: &mut Vec<Call<K, u64>>) -> bool {
    match value_of::<K>(row) {
        Some(call) => calls.push(call).is_ok(),
        None => false,
    }
}

fn is_read_and_added<K: KeyTrait + Drop>(text: &[u8], calls: &mut Vec<Call<K, u64>>) -> bool {
    match read_row(text) {
        Some(row) => is_added(&row, calls),
        None => false,
    }
}

// Adds the calls of the rows, and returns whether each is a value.
fn are_added<K: KeyTrait + Drop>(part: &Part<'_>, calls: &mut Vec<Call<K, u64>>) -> bool {
    let mut lines = Lines::new(part.rows);
    while let Some(text) = lines.next() {
        if let Some((call, _answer)) = halves(text) {
            if !is_read_and_added(call, calls) {
                return false;
            }
        }
    }
    true
}

// The calls of the rows; none if one is no value.
fn calls_of<K: KeyTrait + Drop>(alloc: Global, part: &Part<'_>) -> Option<Vec<Call<K, u64>>> {
    let mut calls = Vec::new(alloc);
    if are_added::<K>(part, &mut calls) {
        Some(calls)
    } else {
        None
    }
}

// Compares a reply with what its row wants.
fn compare<K: KeyTrait>(
    reply: Option<&Reply<K, u64>>,
    wanted: &Wanted<'_>,
    answer: &mut Answer,
    report: &mut Report,
) {
    answer.clear();
    if let Some(reply) = reply {
        put_reply(reply, &wanted.row, answer);
    }
    if answer.as_slice() != wanted.answer {
        report.wrong(wanted, b"in a run", answer.as_slice());
    }
}

// Compares the replies of a run with what the rows want.
fn compare_all<K: KeyTrait>(
    replies: &[Reply<K, u64>],
    part: &Part<'_>,
    answer: &mut Answer,
    report: &mut Report,
) {
    let mut lines = Lines::new(part.rows);
    let mut number = part.first;
    let mut at = 0_usize;
    while let Some(text) = lines.next() {
        let line = Line {
            file: part.file,
            number,
        };
        if let Some(wanted) = wanted_in(text, line, true) {
            compare(replies.get(at), &wanted, answer, report);
            at = at.wrapping_add(1);
        }
        number = number.wrapping_add(1);
    }
}

// The row of a line.
fn row_in(text: &[u8]) -> Option<Row<'_>> {
    let (call, _answer) = halves(text)?;
    read_row(call)
}

// How many calls a reply refuses; none if it is neither a refusal nor that of the call on `unrefused`.
fn refused_of_call<K: KeyTrait + Drop>(
    alloc: Global,
    unrefused: &mut Tree<K>,
    reply: &Reply<K, u64>,
    row: &Row<'_>,
    answer: &mut Answer,
    other: &mut Answer,
) -> Option<usize> {
    answer.clear();
    other.clear();
    put_reply(reply, row, answer);
    if answer.is_refusal() {
        return Some(1);
    }
    put_reply(&step(alloc, unrefused, value_of::<K>(row)?), row, other);
    (answer.as_slice() == other.as_slice()).then_some(0)
}

// How many calls of a run were refused. The other replies are those of a run without the refused calls, which is made
// on `unrefused`; none if they aren't.
fn refused_calls<K: KeyTrait + Drop>(
    alloc: Global,
    unrefused: &mut Tree<K>,
    replies: &[Reply<K, u64>],
    part: &Part<'_>,
    answer: &mut Answer,
    other: &mut Answer,
) -> Option<usize> {
    let mut lines = Lines::new(part.rows);
    let mut at = 0_usize;
    let mut count = 0_usize;
    while let Some(text) = lines.next() {
        if let Some(row) = row_in(text) {
            let reply = replies.get(at)?;
            let refused = refused_of_call(alloc, unrefused, reply, &row, answer, other)?;
            count = count.wrapping_add(refused);
            at = at.wrapping_add(1);
        }
    }
    (at == replies.len()).then_some(count)
}

// How many calls a run's answer refuses; one if the run itself was refused.
fn refused_in_answer<K: KeyTrait + Drop>(
    alloc: Global,
    unrefused: &mut Tree<K>,
    found: &Result<Vec<Reply<K, u64>>, TreeError>,
    part: &Part<'_>,
    answer: &mut Answer,
    other: &mut Answer,
) -> Option<usize> {
    match found {
        Ok(replies) => refused_calls(alloc, unrefused, replies.as_slice(), part, answer, other),
        Err(_refused) => Some(1),
    }
}

// Runs the calls with a request of the run refused, and returns whether one was; none if something else failed.
fn is_refused_well<K: KeyTrait + Drop>(
    alloc: Global,
    tree: &mut Tree<K>,
    unrefused: &mut Tree<K>,
    calls: Vec<Call<K, u64>>,
    at: usize,
    part: &Part<'_>,
    answer: &mut Answer,
    other: &mut Answer,
) -> Option<bool> {
    refuse(alloc, at);
    let found = run(alloc, tree, calls);
    let refused = was_refused(alloc);
    let count = refused_in_answer(alloc, unrefused, &found, part, answer, other);
    (count == Some(usize::from(refused)) && are_alike(tree, unrefused)).then_some(refused)
}

fn is_refused_in_new<K: KeyTrait + Drop>(
    alloc: Global,
    calls: Vec<Call<K, u64>>,
    at: usize,
    part: &Part<'_>,
    answer: &mut Answer,
    other: &mut Answer,
) -> Option<bool> {
    let mut tree = Tree::<K>::new(alloc);
    let mut unrefused = Tree::<K>::new(alloc);
    is_refused_well(
        alloc,
        &mut tree,
        &mut unrefused,
        calls,
        at,
        part,
        answer,
        other,
    )
}

fn is_refused_at<K: KeyTrait + Drop>(
    alloc: Global,
    at: usize,
    part: &Part<'_>,
    answer: &mut Answer,
    other: &mut Answer,
) -> Option<bool> {
    match calls_of::<K>(alloc, part) {
        Some(calls) => is_refused_in_new(alloc, calls, at, part, answer, other),
        None => None,
    }
}

// Runs the calls with each request of the run refused in turn. A refused run changes nothing; in another exactly the
// refused call says so, and the rest is a run of the other calls. Whether that is so.
fn is_swept<K: KeyTrait + Drop>(
    alloc: Global,
    part: &Part<'_>,
    answer: &mut Answer,
    report: &mut Report,
) -> bool {
    let mut other = Answer::new(alloc);
    for at in 1..MANY {
        match is_refused_at::<K>(alloc, at, part, answer, &mut other) {
            Some(true) => report.count_refusal(),
            Some(false) => return true,
            None => return false,
        }
    }
    false
}

// The line of a part's first row.
fn first_line<'a>(part: &Part<'a>) -> Line<'a> {
    Line {
        file: part.file,
        number: part.first,
    }
}

fn run_calls<K: KeyTrait + Drop>(
    alloc: Global,
    calls: Vec<Call<K, u64>>,
    part: &Part<'_>,
    answer: &mut Answer,
    report: &mut Report,
) {
    let mut tree = Tree::<K>::new(alloc);
    match run(alloc, &mut tree, calls) {
        Ok(replies) => compare_all(replies.as_slice(), part, answer, report),
        Err(_refused) => report.wrong_run(first_line(part), b"it has no memory"),
    }
}

/// Plays a part as one run, if each of its calls is a value.
pub fn run_part<K: KeyTrait + Drop>(
    alloc: Global,
    part: &Part<'_>,
    answer: &mut Answer,
    report: &mut Report,
) {
    let Some(calls) = calls_of::<K>(alloc, part) else {
        return;
    };
    run_calls(alloc, calls, part, answer, report);
    if report.can_refuse() && !is_swept::<K>(alloc, part, answer, report) {
        report.wrong_run(
            first_line(part),
            b"not exactly one call is refused with a request",
        );
    }
}
