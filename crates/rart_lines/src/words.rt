//! The words of a line.
ghost use Rattle.std.specs.Prelude.{◌≡◌, ◌≤◌, [], ◌∷◌, length, MatchOption};
ghost use Rattle.rart_lines.specs.Words.{is_separator, words_of, gap_len, word_len};

/// Returns whether a byte separates words: a space, a tab or a carriage return.
fn is_separator(byte: u8) -> bool
    ensures { result ≡ is_separator byte }
{
    matches!(byte, b' ' | b'\t' | b'\r')
}

/// Returns the number of separators that a line begins with.
fn gap_len(line: &[u8]) -> usize
    ensures value { result ≡ gap_len line.now }
    ensures at_most { result ≤ length line.now }
{
    line.iter().take_while(|byte| is_separator(**byte)).count()
}

/// Returns the number of bytes of a line before its first separator.
fn word_len(line: &[u8]) -> usize
    ensures value { result ≡ word_len line.now }
    ensures at_most { result ≤ length line.now }
{
    line.iter().take_while(|byte| !is_separator(**byte)).count()
}

/// Returns the first word of a line, and the rest after it; `None` if the line has no word.
pub fn next_word(line: &[u8]) -> Option<(&[u8], &[u8])>
    ensures { MatchOption result (words_of line.now ≡ []) (λ found. words_of line.now
        ≡ found.0.now ∷ words_of found.1.now) }
{
    let line = &line[gap_len(line)..];
    if line.is_empty() {
        return None;
    }
    Some(line.split_at(word_len(line)))
}
