//! The command of a line.
ghost use Rattle.std.specs.Prelude.{◌≡◌, None, Some};
ghost use Rattle.std.specs.Option.{option_map};
ghost use Rattle.rart_keys.specs.ArrayKeyBytes.{array_key_bytes};
ghost use Rattle.rart_script.specs.Command.{requested_call, call_in, call_of, command_of, complete_of, insert_of};
ghost use Rattle.rart_script.specs.Command.{only_key_of, range_of};
ghost use Rattle.rart_lines.specs.Words.{words_of};

use crate::key::{Key, parse_key};
use crate::value::parse_value;
use rart::script::Call;
use rart_lines::next_word;
use std::ops::Bound;

/// The command of a line.
#[derive(Drop)]
pub enum Command {
    /// Does nothing: the line has no words.
    Nothing,
    /// Makes a call of the tree.
    Call(Call<Key, u64>),
}

/// Returns the command that a line writes; `None` if it is malformed.
pub fn parse_command(line: &[u8]) -> Option<Command>
    ensures { option_map requested_call result ≡ command_of (words_of line.now) }
{
    let Some((name, operands)) = next_word(line) else {
        return Some(Command::Nothing);
    };
    Some(Command::Call(parse_call(name, operands)?))
}

/// Returns the call of this name with these operands.
fn parse_call(name: &[u8], operands: &[u8]) -> Option<Call<Key, u64>>
    ensures { option_map (call_in array_key_bytes) result
        ≡ call_of name.now (words_of operands.now) }
{
    if name == b"insert".as_slice() {
        parse_insert(operands)
    } else if name == b"get".as_slice() {
        Some(Call::Get(only_key(operands)?))
    } else if name == b"remove".as_slice() {
        Some(Call::Remove(only_key(operands)?))
    } else if name == b"prefix".as_slice() {
        Some(Call::Prefix(only_key(operands)?))
    } else if name == b"longest".as_slice() {
        Some(Call::Longest(only_key(operands)?))
    } else if name == b"range".as_slice() {
        parse_range(operands)
    } else if name == b"len".as_slice() {
        complete(Call::Len, operands)
    } else if name == b"iter".as_slice() {
        complete(Call::Iter, operands)
    } else if name == b"stats".as_slice() {
        complete(Call::Stats, operands)
    } else {
        None
    }
}

fn parse_insert(operands: &[u8]) -> Option<Call<Key, u64>>
    ensures { option_map (call_in array_key_bytes) result ≡ insert_of (words_of operands.now) }
{
    let (key, rest) = next_word(operands)?;
    let (value, rest) = next_word(rest)?;
    let key = parse_key(key)?;
    let value = parse_value(value)?;
    complete(Call::Insert(key, value), rest)
}

/// Returns the call for the pairs from one key on, before another.
fn parse_range(operands: &[u8]) -> Option<Call<Key, u64>>
    ensures { option_map (call_in array_key_bytes) result ≡ range_of (words_of operands.now) }
{
    let (start, rest) = next_word(operands)?;
    let (end, rest) = next_word(rest)?;
    let start = parse_key(start)?;
    let end = parse_key(end)?;
    complete(
        Call::Range(Bound::Included(start), Bound::Excluded(end)),
        rest,
    )
}

/// Returns the key that is the one operand.
fn only_key(operands: &[u8]) -> Option<Key>
    ensures { option_map array_key_bytes result ≡ only_key_of (words_of operands.now) }
{
    let (key, rest) = next_word(operands)?;
    match next_word(rest) {
        None => parse_key(key),
        Some(_) => None,
    }
}

/// Returns the call if no word follows it.
fn complete(call: Call<Key, u64>, rest: &[u8]) -> Option<Call<Key, u64>>
    ensures { option_map (call_in array_key_bytes) result
        ≡ complete_of (call_in array_key_bytes call) (words_of rest.now) }
{
    match next_word(rest) {
        None => Some(call),
        Some(_) => None,
    }
}
