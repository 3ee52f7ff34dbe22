//! The forms in which a row's call is made.

/// Which of the calls of one name is made.
#[derive(Clone, Copy, PartialEq, Eq)]
pub enum Form {
    /// The key is borrowed, a callback is taken: `_k`.
    Reference,
    /// The key and a callback are taken.
    Value,
    /// The key and a callback are borrowed: `_by_ref_k`.
    LentReference,
    /// The key is taken, a callback is borrowed: `_by_ref`.
    LentValue,
    /// The key is given by its bytes, a callback is taken: `_bytes`.
    Bytes,
    /// The key is given by its bytes, a callback is borrowed: `_by_ref_bytes`.
    LentBytes,
    /// By `script::step`, where the call is one as a value, and else as `Reference`.
    Step,
}

/// The forms in which rows are played.
pub const FORMS: [Form; 7] = [
    Form::Reference,
    Form::Value,
    Form::LentReference,
    Form::LentValue,
    Form::Bytes,
    Form::LentBytes,
    Form::Step,
];

impl Form {
    /// Whether the key is taken.
    pub fn takes_key(self) -> bool {
        matches!(self, Form::Value | Form::LentValue)
    }

    /// Whether a callback is borrowed.
    pub fn lends(self) -> bool {
        matches!(
            self,
            Form::LentReference | Form::LentValue | Form::LentBytes
        )
    }

    /// Whether the key is given by its bytes.
    pub fn gives_bytes(self) -> bool {
        matches!(self, Form::Bytes | Form::LentBytes)
    }

    pub fn name(self) -> &'static str {
        match self {
            Form::Reference => "by reference",
            Form::Value => "by value",
            Form::LentReference => "by reference, callback lent",
            Form::LentValue => "by value, callback lent",
            Form::Bytes => "by bytes",
            Form::LentBytes => "by bytes, callback lent",
            Form::Step => "by step",
        }
    }
}
