//! What a play found.

use crate::digits::Digits;
use crate::play::Wanted;
use std::alloc::Global;

/// The text of a report, and its counts.
#[derive(Drop)]
pub struct Report {
    text: Vec<u8>,
    /// How many rows were played.
    rows: u64,
    /// How many were not, since they name requests that can't be refused.
    unplayed: u64,
    /// How many of them were answered otherwise, in all forms.
    wrong: u64,
    /// How many lines could not be read.
    unreadable: u64,
    /// How many requests for memory were refused.
    refused: u64,
    /// Whether requests can be refused: the library that does so is loaded.
    can_refuse: bool,
}

/// Where a row is.
#[derive(Clone, Copy)]
pub struct Line<'a> {
    pub file: &'a [u8],
    pub number: u64,
}

impl Report {
    pub fn new(alloc: Global, can_refuse: bool) -> Self {
        Report {
            text: Vec::new(alloc),
            rows: 0,
            unplayed: 0,
            wrong: 0,
            unreadable: 0,
            refused: 0,
            can_refuse,
        }
    }

    pub fn can_refuse(&self) -> bool {
        self.can_refuse
    }

    pub fn as_slice(&self) -> &[u8] {
        self.text.as_slice()
    }

    pub fn put(&mut self, text: &[u8]) {
        let _put = self.text.extend_from_slice(text);
    }

    fn number(&mut self, number: u64) {
        self.put(Digits::new(number).as_slice());
    }

    fn line(&mut self, line: Line<'_>) {
        self.put(line.file);
        self.put(b":");
        self.number(line.number);
        self.put(b": ");
    }

    /// Counts a row. One that is `refusing` is only played where requests can be refused.
    pub fn count_row(&mut self, is_refusing: bool) {
        if is_refusing && !self.can_refuse {
            self.unplayed = self.unplayed.wrapping_add(1);
        } else {
            self.rows = self.rows.wrapping_add(1);
        }
    }

    pub fn count_refusal(&mut self) {
        self.refused = self.refused.wrapping_add(1);
    }

    // Names the wanted and the found answer of a row.
    fn answers(&mut self, wanted: &[u8], found: &[u8]) {
        self.wrong = self.wrong.wrapping_add(1);
        self.put(b": wanted ");
        self.put(wanted);
        self.put(b", got ");
        self.put(found);
        self.put(b"\n");
    }

    /// Names a row that was answered otherwise.
    pub fn wrong(&mut self, wanted: &Wanted<'_>, form: &[u8], found: &[u8]) {
        self.line(wanted.line);
        self.put(form);
        self.answers(wanted.answer, found);
    }

    /// Names a row that was answered otherwise with requests refused.
    pub fn wrong_refused(&mut self, wanted: &Wanted<'_>, form: &[u8], found: &[u8]) {
        self.line(wanted.line);
        self.put(form);
        self.put(b", with requests refused");
        self.answers(wanted.answer, found);
    }

    /// Names a part that goes wrong as one run.
    pub fn wrong_run(&mut self, line: Line<'_>, why: &[u8]) {
        self.wrong = self.wrong.wrapping_add(1);
        self.line(line);
        self.put(b"in a run: ");
        self.put(why);
        self.put(b"\n");
    }

    /// Names a line that can't be read.
    pub fn unreadable(&mut self, line: Line<'_>, text: &[u8]) {
        self.unreadable = self.unreadable.wrapping_add(1);
        self.line(line);
        self.put(b"cannot be read: ");
        self.put(text);
        self.put(b"\n");
    }

    /// Puts a line that can't be printed with its answer.
    pub fn put_unreadable(&mut self, text: &[u8]) {
        self.unreadable = self.unreadable.wrapping_add(1);
        self.put(text);
        self.put(b"\n");
    }

    /// Adds the last line, with the counts.
    pub fn end(&mut self) {
        if self.unplayed > 0 {
            self.number(self.unplayed);
            self.put(b" rows of refusing parts were not played: no request can be refused\n");
        }
        self.number(self.rows);
        self.put(b" rows, ");
        self.number(self.wrong);
        self.put(b" wrong answers, ");
        self.number(self.unreadable);
        self.put(b" unreadable lines, ");
        self.number(self.refused);
        self.put(b" requests refused\n");
    }

    /// The status: 0 if rows were played and all is right, 1 if an answer is wrong, 2 if a line can't be read.
    pub fn status(&self) -> u8 {
        if self.unreadable > 0 || self.rows == 0 && self.unplayed == 0 {
            2
        } else if self.wrong > 0 {
            1
        } else {
            0
        }
    }
}
