//! A row's call with its keys.

use crate::form::Form;
use crate::row::{Args, Row};
use crate::words::{bound_of, bytes_bound, key_of, same_key};
use rart::KeyTrait;
use std::ops::Bound;

/// A call that is to be made.
#[derive(Drop)]
pub struct Asked<'a, K: KeyTrait + Drop> {
    /// The key, or that of the first bound.
    pub key: K,
    /// The key of the second bound.
    end_key: K,
    pub row: &'a Row<'a>,
    pub form: Form,
}

impl<'a, K: KeyTrait + Drop> Asked<'a, K> {
    /// The call of a row; none if its keys are too long.
    pub fn new(row: &'a Row<'a>, form: Form) -> Option<Self> {
        let key = key_of::<K>(row.args.key.as_slice())?;
        let end_key = key_of::<K>(row.args.end_key.as_slice())?;
        Some(Asked {
            key,
            end_key,
            row,
            form,
        })
    }

    /// The key once more, for a call that takes it.
    pub fn taken(&self) -> K {
        same_key(&self.key)
    }

    /// The bytes of the key, for a call that is given these.
    pub fn bytes(&self) -> &[u8] {
        self.key.as_ref()
    }

    pub fn args(&self) -> &'a Args<'a> {
        &self.row.args
    }

    pub fn start(&self) -> Bound<K> {
        bound_of(&self.key, self.row.args.start)
    }

    pub fn end(&self) -> Bound<K> {
        bound_of(&self.end_key, self.row.args.end)
    }

    /// The start by its bytes, which need not be a key.
    pub fn start_bytes(&self) -> Bound<&'a [u8]> {
        bytes_bound(self.row.args.probe.as_slice(), self.row.args.start)
    }

    /// The end by its bytes, which need not be a key.
    pub fn end_bytes(&self) -> Bound<&'a [u8]> {
        bytes_bound(self.row.args.end_probe.as_slice(), self.row.args.end)
    }
}
