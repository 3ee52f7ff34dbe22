//! The text of a key: each byte that isn't plain is written as an escape.
ghost use Rattle.std.specs.Prelude.{◌≡◌};
ghost use Rattle.std.specs.Fmt.{WritesOnOk};
ghost use Rattle.rart_keys.specs.ByteTexts.{byte_text, is_plain, key_text};

use std::fmt;

/// Writes the text of `bytes`, as [`ArrayKey`](crate::ArrayKey) and [`TailKey`](crate::TailKey) are written. It does
/// not allocate.
///
/// # Errors
///
/// Fails when the writer fails.
pub fn write_bytes<W: fmt::Write>(bytes: &[u8], f: &mut fmt::Formatter<W>) -> fmt::Result
    ensures { WritesOnOk W.write_str_gives f.old result (key_text bytes.now) f.new }
{
    for byte in bytes {
        write_byte(*byte, f)?;
    }
    Ok(())
}

// Writes the text of one byte.
fn write_byte<W: fmt::Write>(byte: u8, f: &mut fmt::Formatter<W>) -> fmt::Result
    ensures { WritesOnOk W.write_str_gives f.old result (byte_text byte) f.new }
{
    if is_plain(byte) {
        f.write_char(char::from(byte))
    } else {
        write!(f, "\\x{byte:02x}")
    }
}

// Returns whether a byte is its own text.
fn is_plain(byte: u8) -> bool
    ensures { result ≡ is_plain byte }
{
    matches!(byte, b' '..=b'~') && byte != b'\\'
}
