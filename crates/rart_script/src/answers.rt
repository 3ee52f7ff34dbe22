//! The line that a command prints.
ghost use Rattle.std.specs.Prelude.{OnOk};
ghost use Rattle.std.specs.Io.KnownBytes.{Appends};
ghost use Rattle.std.specs.Option.{option_map};
ghost use Rattle.rart.specs.Steps.{pairs_in};
ghost use Rattle.rart_keys.specs.ArrayKeyBytes.{array_key_bytes};
ghost use Rattle.rart_script.specs.Answers.{found_line, pair_word, pairs_line, refusal_line, reply_line, value_line};

use crate::key::Key;
use crate::stats::write_stats;
use rart::script::Reply;
use rart::{KeyTrait, TreeError};
use std::io;
use std::io::Write;

/// Writes the reply of the tree on a line, or nothing for one of the seven replies that no command of a script
/// returns.
///
/// # Errors
///
/// The error of `output`, if a write fails.
pub fn write_reply<W: Write>(output: &mut W, reply: Reply<Key, u64>) -> io::Result<()>
    ensures { OnOk result
        (Appends (W.contents output.old) (W.contents output.new) (reply_line reply)) }
{
    match reply {
        Reply::Value(value) => write_value(output, value),
        Reply::Len(count) => writeln!(output, "{count}"),
        Reply::Pair(found) => write_found(output, found),
        Reply::Pairs(pairs) => write_pairs(output, pairs),
        Reply::Stats(stats) => write_stats(output, &stats),
        Reply::Refused(error) => write_refusal(output, error),
        Reply::Returned(error, _value) => write_refusal(output, error),
        Reply::Done(_)
        | Reply::Inserted
        | Reply::Occupied(_, _)
        | Reply::Values(_)
        | Reply::Failed
        | Reply::NoClone
        | Reply::NoRemove => Ok(()),
    }
}

/// Writes the value that a key has or had, or `none`.
fn write_value<W: Write>(output: &mut W, value: Option<u64>) -> io::Result<()>
    ensures { OnOk result
        (Appends (W.contents output.old) (W.contents output.new) (value_line value)) }
{
    match value {
        Some(value) => writeln!(output, "some {value}"),
        None => writeln!(output, "none"),
    }
}

/// Writes why the tree refused a command.
fn write_refusal<W: Write>(output: &mut W, error: TreeError) -> io::Result<()>
    ensures { OnOk result
        (Appends (W.contents output.old) (W.contents output.new) (refusal_line error)) }
{
    match error {
        TreeError::Memory => writeln!(output, "Memory"),
        TreeError::Full => writeln!(output, "Full"),
    }
}

/// Writes the pairs, one space between each two; `empty` if there is none.
fn write_pairs<W: Write>(output: &mut W, pairs: Vec<(Key, u64)>) -> io::Result<()>
    ensures { OnOk result (Appends (W.contents output.old) (W.contents output.new)
        (pairs_line (pairs_in array_key_bytes pairs.items))) }
{
    let mut pairs = pairs.into_iter();
    let Some((key, value)) = pairs.next() else {
        return writeln!(output, "empty");
    };
    write_pair(output, key.as_ref(), value)?;
    for (key, value) in pairs {
        write!(output, " ")?;
        write_pair(output, key.as_ref(), value)?;
    }
    writeln!(output)
}

/// Writes the pair that was found, or `none`.
fn write_found<W: Write>(output: &mut W, found: Option<(Key, u64)>) -> io::Result<()>
    ensures { OnOk result (Appends (W.contents output.old) (W.contents output.new)
        (found_line (option_map (λ p. (array_key_bytes p.0, p.1)) found))) }
{
    let Some((key, value)) = found else {
        return writeln!(output, "none");
    };
    write!(output, "some ")?;
    write_pair(output, key.as_ref(), value)?;
    writeln!(output)
}

/// Writes one pair; the empty key is printed as `-`.
fn write_pair<W: Write>(output: &mut W, key: &[u8], value: u64) -> io::Result<()>
    ensures { OnOk result
        (Appends (W.contents output.old) (W.contents output.new) (pair_word (key.now, value))) }
{
    let key = if key.is_empty() { b"-".as_slice() } else { key };
    output.write_all(key)?;
    write!(output, "={value}")
}
