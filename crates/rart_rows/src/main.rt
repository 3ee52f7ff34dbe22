//! Plays rows of calls and wanted answers, which it reads from standard input, on the map.
//!
//! The input is files of rows, each after a line `file NAME`. In a file a line `keys KIND SIZE ..` begins a part, which
//! is played on new trees and tables of keys of each type that it names; `tests/README.md` describes rows. Each part is
//! played in each form of its calls, and, under the library that refuses requests for memory, with each request of each
//! call refused in turn. A wrong answer is printed with its file and line, and so is a line that can't be read; the
//! last line has the counts. After a first line `print` the rows are printed with the answers that they get.
//!
//! It is no part of the product.
#![tactic(auto)]

mod answer;
mod asked;
mod calls;
mod digits;
mod form;
mod names;
mod play;
mod print;
mod report;
mod request;
mod row;
mod run;
mod sweep;
mod table;
mod text;
mod words;
mod world;

use crate::play::{count_rows, play};
use crate::print::print;
use crate::report::{Line, Report};
use crate::text::{Part, Parts};
use crate::words::Words;
use rart::keys::tail_key::TailKey;
use rart::{ArrayKey, KeyTrait};
use rart_lines::read_all;
use rart_test_tools::refusals::{refuse, was_refused};
use std::alloc::Global;
use std::io::Write;
use std::process::ExitCode;

/// How parts are played.
#[derive(Clone, Copy)]
struct How {
    /// Whether rows name the requests that are refused: the part is played only where they are.
    is_refusing: bool,
    /// Whether rows are printed with the answers that they get.
    prints: bool,
}

fn play_on<K: KeyTrait + Drop>(alloc: Global, part: &Part<'_>, how: How, report: &mut Report) {
    if how.prints {
        print::<K>(alloc, part, report);
    } else if !how.is_refusing || report.can_refuse() {
        play::<K>(alloc, part, how.is_refusing, report);
    }
}

// Plays a part on keys of `ArrayKey`, and returns whether keys of this size can be played.
fn play_on_arrays(
    alloc: Global,
    part: &Part<'_>,
    size: u64,
    how: How,
    report: &mut Report,
) -> bool {
    match size {
        0 => play_on::<ArrayKey<0>>(alloc, part, how, report),
        1 => play_on::<ArrayKey<1>>(alloc, part, how, report),
        4 => play_on::<ArrayKey<4>>(alloc, part, how, report),
        8 => play_on::<ArrayKey<8>>(alloc, part, how, report),
        16 => play_on::<ArrayKey<16>>(alloc, part, how, report),
        32 => play_on::<ArrayKey<32>>(alloc, part, how, report),
        255 => play_on::<ArrayKey<255>>(alloc, part, how, report),
        256 => play_on::<ArrayKey<256>>(alloc, part, how, report),
        300 => play_on::<ArrayKey<300>>(alloc, part, how, report),
        1024 => play_on::<ArrayKey<1024>>(alloc, part, how, report),
        _ => return false,
    }
    true
}

// Plays a part on keys of `TailKey`, and returns whether keys of this size can be played.
fn play_on_tails(alloc: Global, part: &Part<'_>, size: u64, how: How, report: &mut Report) -> bool {
    match size {
        0 => play_on::<TailKey<0>>(alloc, part, how, report),
        4 => play_on::<TailKey<4>>(alloc, part, how, report),
        8 => play_on::<TailKey<8>>(alloc, part, how, report),
        16 => play_on::<TailKey<16>>(alloc, part, how, report),
        _ => return false,
    }
    true
}

// Plays a part on the keys that the next two words name, and returns whether there are such keys.
fn is_played(
    alloc: Global,
    part: &Part<'_>,
    words: &mut Words<'_>,
    how: How,
    report: &mut Report,
) -> bool {
    let kind = words.next();
    let size = words.number();
    match kind {
        b"array" => play_on_arrays(alloc, part, size, how, report),
        b"tail" => play_on_tails(alloc, part, size, how, report),
        _ => false,
    }
}

// Plays a part on the keys of each kind and size that are named, or prints it on those of the first.
fn are_played(alloc: Global, part: &Part<'_>, named: &[u8], how: How, report: &mut Report) -> bool {
    let mut words = Words::new(named);
    for _ in 0..named.len() {
        if !is_played(alloc, part, &mut words, how, report) {
            return false;
        }
        if how.prints || words.are_read() {
            return true;
        }
    }
    false
}

fn play_head(alloc: Global, part: &Part<'_>, prints: bool, report: &mut Report) {
    let named = part.head.strip_prefix(b"keys ").unwrap_or(part.head);
    let refusing = named.strip_suffix(b" refusing");
    let how = How {
        is_refusing: refusing.is_some(),
        prints,
    };
    if !prints {
        count_rows(part, how.is_refusing, report);
    }
    if !are_played(alloc, part, refusing.unwrap_or(named), how, report) {
        let line = Line {
            file: part.file,
            number: part.first.saturating_sub(1),
        };
        report.unreadable(line, part.head);
    }
}

fn put_line(line: &[u8], report: &mut Report) {
    if !line.is_empty() {
        report.put(line);
        report.put(b"\n");
    }
}

fn play_part(alloc: Global, part: &Part<'_>, prints: bool, report: &mut Report) {
    if prints {
        put_line(part.head, report);
    }
    match (part.head.is_empty(), prints) {
        (false, _) => play_head(alloc, part, prints, report),
        // a row before the first part has no keys to be played on
        (true, true) => report.put(part.rows),
        (true, false) => count_rows(part, false, report),
    }
}

fn play_all(alloc: Global, text: &[u8], report: &mut Report) {
    let (text, prints) = match text.strip_prefix(b"print\n") {
        Some(text) => (text, true),
        None => (text, false),
    };
    let mut parts = Parts::new(text);
    for _ in 0..text.len() {
        match parts.next() {
            Some(part) => play_part(alloc, &part, prints, report),
            None => break,
        }
    }
    if !prints {
        report.end();
    }
}

// Whether a request for memory can be refused.
fn can_refuse(alloc: Global) -> bool {
    refuse(alloc, 1);
    let _request = Vec::<u8>::with_capacity(alloc, 1);
    was_refused(alloc)
}

fn main(rt: HostRuntime) -> ExitCode {
    let alloc = rt.alloc();
    let mut input = rt.stdin();
    let Ok(text) = read_all(alloc, &mut input) else {
        return ExitCode::from(2);
    };
    let mut report = Report::new(alloc, can_refuse(alloc));
    play_all(alloc, text.as_slice(), &mut report);
    match rt.stdout().write_all(report.as_slice()) {
        Ok(()) => ExitCode::from(report.status()),
        Err(_) => ExitCode::from(2),
    }
}
