//! The length of the common prefix of two byte strings.
ghost use Rattle.std.specs.Prelude.{◌≡◌, ◌+◌, ◌≤◌, length, take, drop, nat_eq};
ghost use Rattle.std.specs.Cmp.Lexicographic.{slice_cmp};
ghost use Rattle.std.specs.List.{common_prefix_len};
ghost use Rattle.std.specs.Ordering.{nat_cmp};
ghost use Rattle.rart_keys.specs.CommonPrefix.{IsCommonPrefixLength};
ghost use Rattle.rart_keys.specs.LittleEndianWord.{little_endian_number};

use std::cmp::Ordering;

/// The number of bytes that are read at once.
pub(crate) const WORD_BYTES: usize = 8;

/// Returns the length of the longest common prefix. It does not allocate.
pub fn common_prefix_length(left: &[u8], right: &[u8]) -> usize
    ensures value { result ≡ common_prefix_len nat_eq left.now right.now }
    ensures greatest { IsCommonPrefixLength left.now right.now result }
{
    prefix_length_words(left, right)
}

/// Compares two byte strings lexicographically. It skips the common prefix by words and does not allocate.
pub fn compare_bytes(left: &[u8], right: &[u8]) -> Ordering
    ensures { result ≡ slice_cmp nat_cmp left.now right.now }
{
    let shared = common_prefix_length(left, right);
    if shared < left.len() && shared < right.len() {
        return left[shared].cmp(&right[shared]);
    }
    left.len().cmp(&right.len())
}

// Whole words as long as they are equal. In the first two that differ, the lowest different bit
// is in the first different byte, since the words are little-endian.
fn prefix_length_words(left: &[u8], right: &[u8]) -> usize
    ensures { result ≡ common_prefix_len nat_eq left.now right.now }
{
    let len = left.len().min(right.len());
    let mut i = 0;
    while len - i >= WORD_BYTES {
        let differing = word_at(left, i) ^ word_at(right, i);
        if differing != 0 {
            return i + differing.trailing_zeros() as usize / 8;
        }
        i += WORD_BYTES;
    }
    i + prefix_length_bytes(&left[i..], &right[i..])
}

// The word that begins at the place `i`.
pub(crate) fn word_at(bytes: &[u8], i: usize) -> u64
    requires { i + WORD_BYTES ≤ length bytes.now }
    ensures { result ≡ little_endian_number (take WORD_BYTES (drop i bytes.now)) }
{
    let word: [u8; WORD_BYTES] = <[u8; WORD_BYTES]>::try_from(&bytes[i..i + WORD_BYTES]).unwrap();
    u64::from_le_bytes(word)
}

// Byte by byte, for what is shorter than a word.
#[tactic(auto, using(crate::proofs::strings::CommonPrefixes::past_the_end))]
pub(crate) fn prefix_length_bytes(left: &[u8], right: &[u8]) -> usize
    ensures value { result ≡ common_prefix_len nat_eq left.now right.now }
    ensures at_most { result ≤ length left.now }
{
    let len = left.len().min(right.len());
    for i in 0..len {
        if left[i] != right[i] {
            return i;
        }
    }
    len
}
