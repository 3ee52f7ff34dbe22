//! Scripts: texts with one command on each line.
ghost use Rattle.std.specs.Prelude.{◌≡◌, ◌≢◌, ◌≤◌, ◌+◌, ℕ, List, None, Some, IfSome, IsSomeAnd, IfErr, OnOk};
ghost use Rattle.std.specs.Prelude.{MatchResult};
ghost use Rattle.std.specs.Io.KnownBytes.{Appends};
ghost use Rattle.rart_script.specs.Answers.{PrintsReply};
ghost use Rattle.rart_script.specs.Script.{Prints, PrintsAll, PrintsToBad, StopsAt, bad_line};
ghost use Rattle.rart_script.specs.Stop.{IsSaid};

use crate::answers::write_reply;
use crate::command::{Command, parse_command};
use crate::key::Key;
use crate::stop::Stop;
use rart::AdaptiveRadixTree;
use rart::script::step;
use rart_lines::{Lines, read_all};
use std::alloc::Global;
use std::io;
use std::io::{Read, Write};

type Tree = AdaptiveRadixTree<Key, u64>;

/// Reads all of `input`, runs it line by line, and returns the status for the process.
pub fn run_lines<R: Read, W: Write, E: Write>(
    alloc: Global,
    input: &mut R,
    output: &mut W,
    errors: &mut E,
) -> u8
    ensures status { result ≤ 2 }
    // With status 0 all lines were run, and their answers were printed.
    ensures answers { result ≡ 0 → IfSome (R.remaining input.old)
        (λ text. PrintsAll text (W.contents output.old) (W.contents output.new)) }
    // With status 2 those before the malformed line were.
    ensures earlier_answers { result ≡ 2 → IfSome (R.remaining input.old)
        (λ text. PrintsToBad text (W.contents output.old) (W.contents output.new)) }
    // What the status says of an input whose bytes are known.
    ensures done { result ≡ 0 → IfSome (R.remaining input.old) (λ text. bad_line text ≡ None) }
    ensures bad { result ≡ 2 → IfSome (R.remaining input.old) (λ text. IsSomeAnd (bad_line text)
        (λ line. IsSaid (E.contents errors.old) (E.contents errors.new) (Stop.BadCommand line))) }
{
    match run(alloc, input, output) {
        Ok(()) => 0,
        Err(stop) => match say(stop, errors) {
            Ok(()) => stop.status(),
            // A message that is not written is a failed write too.
            Err(_) => Stop::CannotWrite.status(),
        },
    }
}

/// Writes why a script ended.
fn say<E: Write>(stop: Stop, errors: &mut E) -> io::Result<()>
    ensures { OnOk result (IsSaid (E.contents errors.old) (E.contents errors.new) stop) }
{
    writeln!(errors, "{stop}")
}

fn run<R: Read, W: Write>(alloc: Global, input: &mut R, output: &mut W) -> Result<(), Stop>
    ensures stops { IfSome (R.remaining input.old)
        (λ text. MatchResult result (λ _. bad_line text ≡ None) (StopsAt text)) }
    ensures answers { IfSome (R.remaining input.old)
        (λ text. Prints text result (W.contents output.old) (W.contents output.new)) }
{
    let Ok(text) = read_all(alloc, input) else {
        return Err(Stop::CannotRead);
    };
    let ended = run_text(alloc, text.as_slice(), output);
    // The answers are written out first, whatever is said after them.
    match output.flush() {
        Ok(()) => ended,
        Err(_) => Err(Stop::CannotWrite),
    }
}

/// Runs the lines of a text on a new tree, up to the first that is no command.
fn run_text<W: Write>(alloc: Global, text: &[u8], output: &mut W) -> Result<(), Stop>
    ensures lines { MatchResult result (λ _. bad_line text.now ≡ None) (StopsAt text.now) }
    ensures answers { Prints text.now result (W.contents output.old) (W.contents output.new) }
    ensures has_read { IfErr result (λ stop. stop ≢ Stop.CannotRead) }
{
    let mut tree = Tree::new(alloc);
    for (index, line) in Lines::new(text).enumerate() {
        let Some(command) = parse_command(line) else {
            return Err(Stop::BadCommand { line: index + 1 });
        };
        let Ok(()) = execute(alloc, &mut tree, command, output) else {
            return Err(Stop::CannotWrite);
        };
    }
    Ok(())
}

/// Runs one command, and writes the reply.
fn execute<W: Write>(
    alloc: Global,
    tree: &mut Tree,
    command: Command,
    output: &mut W,
) -> io::Result<()>
    ensures { OnOk result ((line : List ℕ) × PrintsReply command tree.old.pairs line tree.new.pairs
        × Appends (W.contents output.old) (W.contents output.new) line) }
{
    match command {
        Command::Nothing => Ok(()),
        Command::Call(call) => write_reply(output, step(alloc, tree, call)),
    }
}
