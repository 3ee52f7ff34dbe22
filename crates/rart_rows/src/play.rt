//! Rows played in each form, as they are and with each request for memory refused.

use crate::answer::Answer;
use crate::form::{FORMS, Form};
use crate::names::Call;
use crate::report::{Line, Report};
use crate::row::{Demand, Row, read_row};
use crate::run::run_part;
use crate::sweep::sweep_row;
use crate::text::{Part, halves, is_row};
use crate::world::{Refusing, World};
use rart::KeyTrait;
use rart_lines::Lines;
use std::alloc::Global;

/// A row of a file, and the answer that it wants.
#[derive(Clone, Copy)]
pub struct Wanted<'a> {
    pub row: Row<'a>,
    pub answer: &'a [u8],
    pub text: &'a [u8],
    pub line: Line<'a>,
}

/// The row of a line; none if it is malformed.
pub fn wanted_in<'a>(text: &'a [u8], line: Line<'a>, is_refusing: bool) -> Option<Wanted<'a>> {
    let (call, answer) = halves(text)?;
    let row = read_row(call)?;
    match row.demand {
        Demand::Refused(_) | Demand::RefusedFrom(_) if !is_refusing => None,
        _ => Some(Wanted {
            row,
            answer,
            text,
            line,
        }),
    }
}

// Whether the demand of a row is tested: a part whose rows name requests is not swept, and neither is a group of calls.
fn is_demand_tested(row: &Row<'_>, is_refusing: bool) -> bool {
    let is_swept = !is_refusing && !matches!(row.call, Call::Group(_));
    is_swept || !matches!(row.demand, Demand::Quiet | Demand::Asks)
}

// Counts a row that can be read. Before the first key type there are no trees to play it on.
fn count_line(
    part: &Part<'_>,
    line: Line<'_>,
    text: &[u8],
    is_refusing: bool,
    report: &mut Report,
) {
    match wanted_in(text, line, is_refusing) {
        Some(wanted) if !part.head.is_empty() && is_demand_tested(&wanted.row, is_refusing) => {
            report.count_row(is_refusing)
        }
        _ => report.unreadable(line, text),
    }
}

/// Counts the rows of a part, and names the lines that can't be read.
pub fn count_rows(part: &Part<'_>, is_refusing: bool, report: &mut Report) {
    let mut lines = Lines::new(part.rows);
    let mut number = part.first;
    while let Some(text) = lines.next() {
        let line = Line {
            file: part.file,
            number,
        };
        if is_row(text) {
            count_line(part, line, text, is_refusing, report);
        }
        number = number.wrapping_add(1);
    }
}

/// The requests that a row has refused.
pub fn refused_by(row: &Row<'_>) -> Refusing {
    match row.demand {
        Demand::Refused(number) => Refusing::One(number.min(0xffff_ffff) as usize),
        Demand::RefusedFrom(number) => Refusing::From(number.min(0xffff_ffff) as usize),
        _ => Refusing::Nothing,
    }
}

// Plays a row as it is, and names it where it is answered otherwise, or where a key of it is too long.
fn play_row<K: KeyTrait + Drop>(
    world: &mut World<K>,
    wanted: &Wanted<'_>,
    form: Form,
    answer: &mut Answer,
    report: &mut Report,
) {
    let refusing = refused_by(&wanted.row);
    let made = world.make(&wanted.row, form, refusing, answer);
    if made.is_refused {
        report.count_refusal();
    }
    if !made.is_read && form == Form::Reference {
        report.unreadable(wanted.line, wanted.text);
    }
    let is_refused = refusing != Refusing::Nothing;
    let is_answered = made.is_refused == is_refused && answer.as_slice() == wanted.answer;
    if made.is_read && !is_answered {
        report.wrong(wanted, form.name().as_bytes(), answer.as_slice());
    }
}

// Plays the rows of a part as they are.
fn play_plainly<K: KeyTrait + Drop>(
    world: &mut World<K>,
    part: &Part<'_>,
    form: Form,
    answer: &mut Answer,
    report: &mut Report,
) {
    let mut lines = Lines::new(part.rows);
    let mut number = part.first;
    while let Some(text) = lines.next() {
        let line = Line {
            file: part.file,
            number,
        };
        if let Some(wanted) = wanted_in(text, line, true) {
            play_row(world, &wanted, form, answer, report);
        }
        number = number.wrapping_add(1);
    }
}

// Plays the rows of a part with each request refused in turn, beside a world where none is.
fn play_swept<K: KeyTrait + Drop>(
    world: &mut World<K>,
    twin: &mut World<K>,
    part: &Part<'_>,
    form: Form,
    answer: &mut Answer,
    report: &mut Report,
) {
    let mut lines = Lines::new(part.rows);
    let mut number = part.first;
    while let Some(text) = lines.next() {
        let line = Line {
            file: part.file,
            number,
        };
        if let Some(wanted) = wanted_in(text, line, true) {
            sweep_row(world, twin, &wanted, form, answer, report);
        }
        number = number.wrapping_add(1);
    }
}

fn play_form<K: KeyTrait + Drop>(
    alloc: Global,
    part: &Part<'_>,
    form: Form,
    answer: &mut Answer,
    report: &mut Report,
) {
    let mut world = World::<K>::new(alloc, report.can_refuse());
    play_plainly(&mut world, part, form, answer, report);
}

fn sweep_form<K: KeyTrait + Drop>(
    alloc: Global,
    part: &Part<'_>,
    form: Form,
    answer: &mut Answer,
    report: &mut Report,
) {
    let mut world = World::<K>::new(alloc, report.can_refuse());
    let mut twin = World::<K>::new(alloc, report.can_refuse());
    play_swept(&mut world, &mut twin, part, form, answer, report);
}

/// Plays a part in each form. One in which rows name the request that is refused is not swept.
pub fn play<K: KeyTrait + Drop>(
    alloc: Global,
    part: &Part<'_>,
    is_refusing: bool,
    report: &mut Report,
) {
    let mut answer = Answer::new(alloc);
    for form in FORMS {
        play_form::<K>(alloc, part, form, &mut answer, report);
        if !is_refusing && report.can_refuse() {
            sweep_form::<K>(alloc, part, form, &mut answer, report);
        }
    }
    if !is_refusing {
        run_part::<K>(alloc, part, &mut answer, report);
    }
}
