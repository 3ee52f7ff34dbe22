//! Runs the commands on standard input, one a line, on one tree, and prints their answers.
#![tactic(auto)]

mod answers;
mod command;
mod key;
mod script;
mod stats;
mod stop;
mod value;

use std::io::BufWriter;
use std::process::ExitCode;

fn main(rt: HostRuntime) -> ExitCode {
    let alloc = rt.alloc();
    let (mut input, mut output, mut errors) = (rt.stdin(), rt.stdout(), rt.stderr());
    let status = match BufWriter::new(alloc, rt.stdout()) {
        Ok(mut buffered) => script::run_lines(alloc, &mut input, &mut buffered, &mut errors),
        // With no memory for the buffer each answer is written as it comes.
        Err(_) => script::run_lines(alloc, &mut input, &mut output, &mut errors),
    };
    ExitCode::from(status)
}
