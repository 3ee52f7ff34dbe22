//! Runs the commands on standard input, one a line, on a table of IPv4 and one of IPv6 networks, and prints their
//! answers.
#![tactic(auto)]

mod answers;
mod command;
mod found;
mod mode;
mod net;
mod script;
mod stop;
mod tables;
mod target;

use std::io::BufWriter;
use std::process::ExitCode;

fn main(rt: HostRuntime) -> ExitCode {
    let alloc = rt.alloc();
    let (mut input, mut output, mut errors) = (rt.stdin(), rt.stdout(), rt.stderr());
    let Some(mode) = mode::read_mode(&rt) else {
        return ExitCode::from(mode::refuse_arguments(&mut errors));
    };
    let status = match BufWriter::new(alloc, rt.stdout()) {
        Ok(mut buffered) => script::run_lines(alloc, mode, &mut input, &mut buffered, &mut errors),
        // With no memory for the buffer each answer is written as it comes.
        Err(_) => script::run_lines(alloc, mode, &mut input, &mut output, &mut errors),
    };
    ExitCode::from(status)
}
