//! Rows written with the answers that they get.

use crate::answer::Answer;
use crate::form::Form;
use crate::play::refused_by;
use crate::report::Report;
use crate::row::{Row, read_row};
use crate::text::{Part, halves, is_row};
use crate::world::World;
use rart::KeyTrait;
use rart_lines::Lines;
use std::alloc::Global;

// The call of a line, with an answer or without one.
fn call_in(text: &[u8]) -> &[u8] {
    match halves(text) {
        Some((call, _wanted)) => call,
        None => text,
    }
}

fn put_row(call: &[u8], answer: &Answer, report: &mut Report) {
    report.put(call);
    report.put(b" -> ");
    report.put(answer.as_slice());
    report.put(b"\n");
    report.count_row(false);
}

// Prints a row, or the line alone if a key of it is too long.
fn print_row<K: KeyTrait + Drop>(
    world: &mut World<K>,
    row: &Row<'_>,
    text: &[u8],
    answer: &mut Answer,
    report: &mut Report,
) {
    if world
        .make(row, Form::Reference, refused_by(row), answer)
        .is_read
    {
        put_row(call_in(text), answer, report);
    } else {
        report.put_unreadable(text);
    }
}

fn print_line<K: KeyTrait + Drop>(
    world: &mut World<K>,
    text: &[u8],
    answer: &mut Answer,
    report: &mut Report,
) {
    match read_row(call_in(text)) {
        Some(row) if is_row(text) => print_row(world, &row, text, answer, report),
        _ if is_row(text) => report.put_unreadable(text),
        _ => {
            report.put(text);
            report.put(b"\n");
        }
    }
}

fn print_rows<K: KeyTrait + Drop>(
    world: &mut World<K>,
    part: &Part<'_>,
    answer: &mut Answer,
    report: &mut Report,
) {
    let mut lines = Lines::new(part.rows.strip_suffix(b"\n").unwrap_or(part.rows));
    while let Some(text) = lines.next() {
        print_line(world, text, answer, report);
    }
}

/// Prints a part with the answers that its rows get.
pub fn print<K: KeyTrait + Drop>(alloc: Global, part: &Part<'_>, report: &mut Report) {
    let mut world = World::<K>::new(alloc, report.can_refuse());
    let mut answer = Answer::new(alloc);
    print_rows(&mut world, part, &mut answer, report);
}
