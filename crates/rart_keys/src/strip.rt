//! The bytes of a key after a prefix, found without measuring the common prefix.
ghost use Rattle.std.specs.Prelude.{◌≡◌, ◌↔◌, ◌+◌, ◌≤◌, length, take, drop, IsTrue};
ghost use Rattle.std.specs.Option.{option_copied};
ghost use Rattle.rart_keys.specs.ByteStrings.{strip_prefix};
ghost use Rattle.rart_keys.specs.LittleEndianWord.{little_endian_number};

use crate::common_prefix::{WORD_BYTES, prefix_length_bytes, word_at};

/// The number of bytes in half a word.
const HALF_BYTES: usize = 4;

/// Returns the bytes of `key` after `prefix`, or `None` if `prefix` does not begin `key`. It does not allocate.
pub fn strip_prefix<'a>(prefix: &[u8], key: &'a [u8]) -> Option<&'a [u8]>
    ensures { option_copied result ≡ strip_prefix prefix.now key.now }
{
    if prefix.len() > key.len() || !begins(prefix, key) {
        return None;
    }
    Some(&key[prefix.len()..])
}

// Two overlapping reads cover every length between a width and twice that width, so only lengths
// below half a word are compared byte by byte.
fn begins(prefix: &[u8], key: &[u8]) -> bool
    requires { length prefix.now ≤ length key.now }
    ensures { IsTrue result ↔ (take (length prefix.now) key.now ≡ prefix.now) }
{
    if prefix.len() >= WORD_BYTES {
        return begins_by_words(prefix, key);
    }
    if prefix.len() >= HALF_BYTES {
        let last = prefix.len() - HALF_BYTES;
        return half_at(prefix, 0) == half_at(key, 0) && half_at(prefix, last) == half_at(key, last);
    }
    begins_by_bytes(prefix, key)
}

fn begins_by_words(prefix: &[u8], key: &[u8]) -> bool
    requires wide { WORD_BYTES ≤ length prefix.now }
    requires at_most { length prefix.now ≤ length key.now }
    ensures { IsTrue result ↔ (take (length prefix.now) key.now ≡ prefix.now) }
{
    let last = prefix.len() - WORD_BYTES;
    let mut i = 0;
    while i < last {
        if word_at(prefix, i) != word_at(key, i) {
            return false;
        }
        i += WORD_BYTES;
    }
    word_at(prefix, last) == word_at(key, last)
}

fn begins_by_bytes(prefix: &[u8], key: &[u8]) -> bool
    requires { length prefix.now ≤ length key.now }
    ensures { IsTrue result ↔ (take (length prefix.now) key.now ≡ prefix.now) }
{
    prefix_length_bytes(prefix, key) >= prefix.len()
}

// The half word that begins at the place `i`.
fn half_at(bytes: &[u8], i: usize) -> u32
    requires { i + HALF_BYTES ≤ length bytes.now }
    ensures { result ≡ little_endian_number (take HALF_BYTES (drop i bytes.now)) }
{
    let half: [u8; HALF_BYTES] = <[u8; HALF_BYTES]>::try_from(&bytes[i..i + HALF_BYTES]).unwrap();
    u32::from_le_bytes(half)
}
