//! Scripts: texts with one command on each line.
ghost use Rattle.std.specs.Prelude.{◌≡◌, ◌≢◌, ◌≤◌, ℕ, List, IfSome, IfErr, OnOk};
ghost use Rattle.std.specs.Io.KnownBytes.{Appends, Keeps};
ghost use Rattle.rart_routes.specs.Answers.{PrintsAnswer};
ghost use Rattle.rart_routes.specs.Script.{Ends, MeetsBad, PrintsAll};
ghost use Rattle.rart_routes.specs.Stop.{IsSaid};
ghost use Rattle.rart_routes.specs.Tables.{no_routes};

use crate::answers::{
    write_dump, write_found, write_none, write_refusal, write_routes, write_target,
};
use crate::command::{Command, parse_command};
use crate::mode::Mode;
use crate::stop::Stop;
use crate::tables::Tables;
use rart_lines::{Lines, read_all};
use std::alloc::Global;
use std::io;
use std::io::{Read, Write};

/// Reads all of `input`, runs it line by line, and returns the status for the process.
pub fn run_lines<R: Read, W: Write, E: Write>(
    alloc: Global,
    mode: Mode,
    input: &mut R,
    output: &mut W,
    errors: &mut E,
) -> u8
    ensures status { result ≤ 2 }
    // With status 0 all lines were run, their answers were printed, and nothing was said.
    ensures answers { result ≡ 0 → IfSome (R.remaining input.old)
        (λ text. PrintsAll text (W.contents output.old) (W.contents output.new)
        × Keeps (E.contents errors.old) (E.contents errors.new)) }
    // With status 2 a line is malformed. By the mode only the lines before it were run, or all others; the messages
    // say what is wrong.
    ensures bad { result ≡ 2 → IfSome (R.remaining input.old)
        (λ text. MeetsBad mode text (W.contents output.old) (W.contents output.new)
        (E.contents errors.old) (E.contents errors.new)) }
{
    match run(alloc, mode, input, output, errors) {
        Ok(false) => 0,
        Ok(true) => 2,
        Err(stop) => match say(stop, errors) {
            Ok(()) => stop.status(),
            // A message that is not written is a failed write too.
            Err(_) => Stop::CannotWrite.status(),
        },
    }
}

/// Writes a line that names the stop.
fn say<E: Write>(stop: Stop, errors: &mut E) -> io::Result<()>
    ensures { OnOk result (IsSaid (E.contents errors.old) (E.contents errors.new) stop) }
{
    writeln!(errors, "{stop}")
}

/// Runs the lines of `input`, and returns whether it reported a malformed one.
fn run<R: Read, W: Write, E: Write>(
    alloc: Global,
    mode: Mode,
    input: &mut R,
    output: &mut W,
    errors: &mut E,
) -> Result<bool, Stop>
    ensures { IfSome (R.remaining input.old)
        (λ text. Ends mode text result (W.contents output.old) (W.contents output.new)
        (E.contents errors.old) (E.contents errors.new)) }
{
    let Ok(text) = read_all(alloc, input) else {
        return Err(Stop::CannotRead);
    };
    let ended = run_text(alloc, mode, text.as_slice(), output, errors);
    // The answers are written out first, whatever is said after them.
    match output.flush() {
        Ok(()) => ended,
        Err(_) => Err(Stop::CannotWrite),
    }
}

/// Runs the lines of a text on empty tables, up to the first that is no command, or all of them.
fn run_text<W: Write, E: Write>(
    alloc: Global,
    mode: Mode,
    text: &[u8],
    output: &mut W,
    errors: &mut E,
) -> Result<bool, Stop>
    ensures answers { Ends mode text.now result (W.contents output.old) (W.contents output.new)
        (E.contents errors.old) (E.contents errors.new) }
    ensures has_read { IfErr result (λ stop. stop ≢ Stop.CannotRead) }
{
    let mut tables = Tables::new(alloc);
    run_on(&mut tables, mode, text, output, errors)
}

// Runs the lines on the empty `tables`, as `run_text` does.
fn run_on<W: Write, E: Write>(
    tables: &mut Tables,
    mode: Mode,
    text: &[u8],
    output: &mut W,
    errors: &mut E,
) -> Result<bool, Stop>
    requires empty { tables.old ≡ no_routes }
    ensures answers { Ends mode text.now result (W.contents output.old) (W.contents output.new)
        (E.contents errors.old) (E.contents errors.new) }
    ensures has_read { IfErr result (λ stop. stop ≢ Stop.CannotRead) }
{
    let mut has_bad = false;
    for (index, line) in Lines::new(text).enumerate() {
        let command = match parse_command(line) {
            Ok(command) => command,
            Err(error) => {
                let bad = Stop::BadLine {
                    line: index + 1,
                    error,
                };
                if let Mode::EndAtBad = mode {
                    return Err(bad);
                }
                let Ok(()) = report(bad, output, errors) else {
                    return Err(Stop::CannotWrite);
                };
                has_bad = true;
                continue;
            }
        };
        let Ok(()) = execute(tables, command, output) else {
            return Err(Stop::CannotWrite);
        };
    }
    Ok(has_bad)
}

/// Writes out the answers, and then a line that names the stop.
fn report<W: Write, E: Write>(stop: Stop, output: &mut W, errors: &mut E) -> io::Result<()>
    ensures answers { Keeps (W.contents output.old) (W.contents output.new) }
    ensures said { OnOk result (IsSaid (E.contents errors.old) (E.contents errors.new) stop) }
{
    output.flush()?;
    say(stop, errors)
}

/// Runs one command, and writes the answer.
fn execute<W: Write>(tables: &mut Tables, command: Command, output: &mut W) -> io::Result<()>
    ensures { OnOk result ((line : List ℕ) × PrintsAnswer command tables.old line tables.new
        × Appends (W.contents output.old) (W.contents output.new) line) }
{
    match command {
        Command::Nothing => Ok(()),
        Command::Add(net, target) => match tables.insert(&net, target) {
            Ok(Some(old)) => write_target(output, &old),
            Ok(None) => write_none(output),
            Err(refused) => write_refusal(output, refused.error),
        },
        Command::Load(net, target) => match tables.insert(&net, target) {
            Ok(_) => Ok(()),
            Err(refused) => write_refusal(output, refused.error),
        },
        Command::Del(net) => match tables.remove(&net) {
            Ok(Some(old)) => write_target(output, &old),
            Ok(None) => write_none(output),
            Err(error) => write_refusal(output, error),
        },
        Command::Get(net) => match tables.get(&net) {
            Some(target) => write_target(output, target),
            None => write_none(output),
        },
        Command::Route(addr) => write_found(output, tables.longest_match(addr)),
        Command::Covering(addr) => write_routes(output, tables.matches(addr)),
        Command::Within(net) => match tables.within(&net) {
            Ok(routes) => write_routes(output, routes),
            Err(error) => write_refusal(output, error),
        },
        Command::List => match tables.iter() {
            Ok(routes) => write_routes(output, routes),
            Err(error) => write_refusal(output, error),
        },
        Command::Dump => match tables.iter() {
            Ok(routes) => write_dump(output, routes),
            Err(error) => write_refusal(output, error),
        },
        Command::Aggregate => match tables.aggregate() {
            Ok(count) => writeln!(output, "{count}"),
            Err(error) => write_refusal(output, error),
        },
        Command::Len => writeln!(output, "{}", tables.len()),
    }
}
