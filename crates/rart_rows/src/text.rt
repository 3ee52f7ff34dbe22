//! Files of rows: their parts, and the halves of a row.

use crate::words::Words;

/// The first line of a text.
pub fn line_of(text: &[u8]) -> &[u8] {
    match text.iter().position(|byte| *byte == b'\n') {
        Some(end) => text.get(..end).unwrap_or(text),
        None => text,
    }
}

/// What is after its first line.
fn rest_of(text: &[u8]) -> &[u8] {
    match text.iter().position(|byte| *byte == b'\n') {
        Some(end) => text.get(end.saturating_add(1)..).unwrap_or(b"".as_slice()),
        None => b"".as_slice(),
    }
}

/// Rows that are played together on trees of one key type.
#[derive(Clone, Copy)]
pub struct Part<'a> {
    /// The file's name.
    pub file: &'a [u8],
    /// The line that names the key type; empty for the lines before it.
    pub head: &'a [u8],
    pub rows: &'a [u8],
    /// The number of the first row's line.
    pub first: u64,
}

/// The parts of a text that were not read yet.
#[derive(Clone, Copy)]
pub struct Parts<'a> {
    rest: &'a [u8],
    file: &'a [u8],
    number: u64,
}

fn begins_a_part(line: &[u8]) -> bool {
    line.starts_with(b"keys ") || line.starts_with(b"file ")
}

// The length of the lines before the next part, and how many there are.
fn lines_before(text: &[u8]) -> (usize, u64) {
    let mut rest = text;
    let mut lines = 0_u64;
    for _ in 0..text.len() {
        if rest.is_empty() || begins_a_part(line_of(rest)) {
            break;
        }
        rest = rest_of(rest);
        lines = lines.wrapping_add(1);
    }
    (text.len().saturating_sub(rest.len()), lines)
}

impl<'a> Parts<'a> {
    /// The parts of files, each after a line `file NAME`.
    pub fn new(text: &'a [u8]) -> Self {
        Parts {
            rest: text,
            file: b"".as_slice(),
            number: 1,
        }
    }

    /// The next part.
    pub fn next(&mut self) -> Option<Part<'a>> {
        if self.rest.is_empty() {
            return None;
        }
        let line = line_of(self.rest);
        let mut head = line;
        if let Some(name) = line.strip_prefix(b"file ") {
            self.file = name;
            self.number = 0;
            head = b"".as_slice();
        }
        let rest = rest_of(self.rest);
        let (len, lines) = lines_before(rest);
        let (rows, rest) = rest.split_at(len.min(rest.len()));
        let first = self.number.wrapping_add(1);
        self.rest = rest;
        self.number = first.wrapping_add(lines);
        Some(Part {
            file: self.file,
            head,
            rows,
            first,
        })
    }
}

/// Whether a line is a row: it isn't blank and no comment.
pub fn is_row(line: &[u8]) -> bool {
    !Words::new(line).are_read() && !line.starts_with(b"#")
}

/// The call and the wanted answer of a row; none if it has no answer.
pub fn halves(line: &[u8]) -> Option<(&[u8], &[u8])> {
    for at in 0..line.len() {
        if let Some(answer) = line.get(at..)?.strip_prefix(b" -> ") {
            return Some((line.get(..at)?, answer));
        }
    }
    None
}
