//! Plays calls that look random on two trees and a route table, beside models of them.
//!
//! Each line of standard input is a case: `KEYS SEED CALLS REFUSED`. The same case makes the same calls. A case that
//! fails is printed with its call, and with the shortest list of calls that still fails; the status is then
//! 1. A case that passes prints the size of its largest tree, and how many edits were refused, to standard error; cases
//! are not counted, so that kept cases change no output. It is no part of the product.
#![tactic(auto)]

mod call;
mod cases;
mod copies;
mod kinds;
mod model;
mod numbers;
mod play;
mod routes;
mod shape;
mod sides;
mod text;
mod world;

use crate::call::call_at;
use crate::cases::Line;
use crate::play::{Case, Played, numbers_to, play, shortened};
use rart::keys::tail_key::TailKey;
use rart::{ArrayKey, KeyTrait};
use std::alloc::Global;
use std::io;
use std::io::Read;
use std::process::ExitCode;

fn say_calls(rt: &(impl Print + Eprint), seed: u64, numbers: &[u64], most: u64) -> io::Result<()> {
    for number in numbers {
        let call = call_at(seed, *number, most);
        let (kind, tree) = (call.kind, call.on_second);
        let (value, choice) = (call.value, call.choice);
        println!(rt; "  call {number}: kind {kind}, second {tree}, {value}, {choice}")?;
    }
    Ok(())
}

fn say_list<K: KeyTrait + Drop>(
    rt: &(impl Print + Eprint),
    alloc: Global,
    case: &Case,
    at: usize,
) -> io::Result<()> {
    let most = K::MAXIMUM_SIZE.unwrap_or(32).min(32) as u64;
    match shortened::<K>(alloc, case, at) {
        Ok(list) => say_calls(rt, case.seed, list.as_slice(), most),
        Err(_refused) => println!(rt; "  no memory to shorten the list"),
    }
}

// What came of the whole case; nothing where its list has no memory.
fn played<K: KeyTrait + Drop>(alloc: Global, case: &Case) -> Option<Played> {
    match numbers_to(alloc, case.calls) {
        Ok(list) => Some(play::<K>(alloc, case, list.as_slice())),
        Err(_refused) => None,
    }
}

fn run<K: KeyTrait + Drop>(
    rt: &(impl Print + Eprint),
    alloc: Global,
    case: &Case,
) -> io::Result<bool> {
    let (keys, seed, calls, refused) = (case.keys, case.seed, case.calls, case.refused);
    let Some(found) = played::<K>(alloc, case) else {
        println!(rt; "{keys} {seed} {calls} {refused}: no memory")?;
        return Ok(false);
    };
    match found.wrong {
        None => {
            let (largest, edits) = (found.largest, found.refused_edits);
            eprintln!(rt;
                "{keys} {seed} {calls} {refused}: right, largest tree {largest}, {edits} edits refused"
            )?;
            Ok(true)
        }
        Some(at) => {
            println!(rt;
                "{keys} {seed} {calls} {refused}: WRONG at call {at}; it still goes wrong with"
            )?;
            say_list::<K>(rt, alloc, case, at)?;
            Ok(false)
        }
    }
}

fn run_case(rt: &(impl Print + Eprint), alloc: Global, case: &Case) -> io::Result<bool> {
    match case.keys {
        32 => run::<ArrayKey<32>>(rt, alloc, case),
        8 => run::<ArrayKey<8>>(rt, alloc, case),
        16 => run::<TailKey<16>>(rt, alloc, case),
        other => {
            println!(rt; "no keys of type {other}: 32, 8 or 16")?;
            Ok(false)
        }
    }
}

// Plays the case of each line, and returns whether there is one, each passed, and the last line has its end.
fn run_lines(rt: &(impl Print + Eprint), alloc: Global, text: &[u8]) -> io::Result<bool> {
    let mut are_right = !text.is_empty();
    let mut line = Line::new();
    let mut is_over = true;
    for byte in text {
        is_over = *byte == b'\n';
        if is_over {
            let is_right = run_case(rt, alloc, &line.case())?;
            are_right = are_right && is_right;
            line = Line::new();
        } else {
            line.read(*byte);
        }
    }
    Ok(are_right && is_over)
}

// The status once the last line was written.
fn said(written: io::Result<()>) -> ExitCode {
    match written {
        Ok(()) => ExitCode::from(0),
        Err(_) => ExitCode::from(3),
    }
}

fn main(rt: HostRuntime) -> ExitCode {
    let alloc = rt.alloc();
    let mut text = Vec::new(alloc);
    if rt.stdin().read_to_end(&mut text).is_err() {
        return ExitCode::from(2);
    }
    match run_lines(&rt, alloc, text.as_slice()) {
        Ok(true) => said(println!(rt; "all cases went well")),
        Ok(false) => ExitCode::from(1),
        Err(_) => ExitCode::from(3),
    }
}
