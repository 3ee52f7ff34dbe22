//! What callbacks do, as rows write it.

use crate::words::Words;
use rart::SlotUpdate;

/// What the callback of an update requests.
#[derive(Clone, Copy)]
pub enum Edit {
    Keep,
    Remove,
    Insert,
    /// It fails; only that of `try_update` can.
    Fail,
}

/// What the callback of an update does: at an occupied slot it writes a value or adds to the one there, and then it
/// requests an edit.
#[derive(Clone, Copy)]
pub struct Request {
    pub written: Option<u64>,
    added: u64,
    pub edit: Edit,
    /// The value that is inserted, or the error.
    pub value: u64,
}

impl Request {
    pub fn new() -> Self {
        Request {
            written: None,
            added: 0,
            edit: Edit::Keep,
            value: 0,
        }
    }

    fn read_edit(&mut self, words: &mut Words<'_>, word: &[u8]) {
        match word {
            b"keep" => {}
            b"remove" => self.edit = Edit::Remove,
            b"insert" => {
                self.edit = Edit::Insert;
                self.value = words.number();
            }
            b"fail" => {
                self.edit = Edit::Fail;
                self.value = words.number();
            }
            _ => words.refuse(),
        }
    }

    /// Reads `write 7 keep`, `add 5 keep`, `remove`, `insert 4` or `fail 3`.
    pub fn read(words: &mut Words<'_>) -> Self {
        let mut request = Request::new();
        let mut word = words.next();
        if word == b"write".as_slice() {
            request.written = Some(words.number());
            word = words.next();
        } else if word == b"add".as_slice() {
            request.added = words.number();
            word = words.next();
        }
        request.read_edit(words, word);
        request
    }

    /// The value that the callback leaves at an occupied slot.
    pub fn next(&self, value: u64) -> u64 {
        self.written.unwrap_or(value).wrapping_add(self.added)
    }

    /// Whether it writes what a call as a value can write.
    pub fn is_plain(&self) -> bool {
        self.added == 0
    }

    /// Whether a refused removal leaves what the callback wrote.
    pub fn writes(&self) -> bool {
        let is_written = self.written.is_some() || self.added != 0;
        is_written && matches!(self.edit, Edit::Remove)
    }

    /// Whether the callback fails.
    pub fn fails(&self) -> bool {
        matches!(self.edit, Edit::Fail)
    }

    /// The request; one that fails keeps the slot.
    pub fn update(&self) -> SlotUpdate<u64> {
        match self.edit {
            Edit::Keep | Edit::Fail => SlotUpdate::Keep,
            Edit::Remove => SlotUpdate::Remove,
            Edit::Insert => SlotUpdate::Insert(self.value),
        }
    }

    /// What a callback that may fail returns.
    pub fn try_update(&self) -> Result<SlotUpdate<u64>, u64> {
        match self.edit {
            Edit::Fail => Err(self.value),
            _ => Ok(self.update()),
        }
    }
}

/// Which pairs `retain` keeps.
#[derive(Clone, Copy)]
pub enum Rule {
    All,
    Nothing,
    /// Those whose value is odd.
    Odd,
    /// Those whose key has at least two bytes.
    Long,
    /// Those whose last byte is at least this number.
    From(u64),
}

impl Rule {
    /// Reads `all`, `none`, `odd`, `long` or `from 33`.
    pub fn read(words: &mut Words<'_>) -> Self {
        match words.next() {
            b"all" => Rule::All,
            b"none" => Rule::Nothing,
            b"odd" => Rule::Odd,
            b"long" => Rule::Long,
            b"from" => Rule::From(words.number()),
            _ => {
                words.refuse();
                Rule::All
            }
        }
    }

    pub fn keeps(self, key: &[u8], value: u64) -> bool {
        match self {
            Rule::All => true,
            Rule::Nothing => false,
            Rule::Odd => value % 2 == 1,
            Rule::Long => key.len() > 1,
            Rule::From(least) => match key.last() {
                Some(last) => u64::from(*last) >= least,
                None => false,
            },
        }
    }
}

/// When a walk that may end early does.
#[derive(Clone, Copy)]
pub enum Walk {
    Continue,
    /// It stops at the call of this number.
    Stop(u64),
    /// It fails at the call of this number.
    Fail(u64),
}

impl Walk {
    /// Reads `continue`, `stop 2` or `fail 2`.
    pub fn read(words: &mut Words<'_>) -> Self {
        match words.next() {
            b"continue" => Walk::Continue,
            b"stop" => Walk::Stop(words.number()),
            b"fail" => Walk::Fail(words.number()),
            _ => {
                words.refuse();
                Walk::Continue
            }
        }
    }
}
