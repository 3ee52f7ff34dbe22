//! Updates of values that count their drops, and what each replies, stores, makes and drops.

/// What the callback of an update requests, after it wrote a value over a stored one.
#[derive(Clone, Copy)]
pub enum Request {
    Keep,
    Remove,
    /// The value of this number.
    Insert(u8),
    Fail,
}

#[derive(Clone, Copy)]
pub enum Call {
    Update,
    TryUpdate,
    /// The form that takes the key by value.
    TryUpdateByValue,
}

#[derive(Clone, Copy, PartialEq, Eq)]
pub enum Answer {
    Done(bool),
    Failed,
    /// The insertion fails, and the value of this number is returned.
    Back(u8),
    /// The removal is refused.
    NotRemoved,
    NotCloned,
}

/// The number of the value that a callback writes over the one that is stored there.
pub const WRITTEN: u8 = 99;

/// An update of the key of a byte. The callback offers a value to be written, so each makes at least that one.
#[derive(Clone, Copy)]
pub struct Row {
    pub call: Call,
    pub byte: u8,
    pub request: Request,
    pub answer: Answer,
    /// The number that is then stored at the byte.
    pub number: Option<u8>,
    /// How many values are made on the way, clones among them, and how many are dropped.
    pub made: usize,
    pub dropped: usize,
}

/// An update of a tree with `count` keys, and what it is where one of its requests for memory is refused.
pub struct Sweep {
    pub count: u8,
    pub row: Row,
    pub refused: Row,
}

/// Of a tree with three keys, whose values can be cloned.
pub static CLONED: [Row; 16] = [
    // the value that is stored there is written over, and `try_update` drops its clone
    Row {
        call: Call::Update,
        byte: 0,
        request: Request::Keep,
        answer: Answer::Done(true),
        number: Some(WRITTEN),
        made: 1,
        dropped: 1,
    },
    Row {
        call: Call::TryUpdate,
        byte: 1,
        request: Request::Keep,
        answer: Answer::Done(true),
        number: Some(WRITTEN),
        made: 2,
        dropped: 2,
    },
    Row {
        call: Call::Update,
        byte: 9,
        request: Request::Keep,
        answer: Answer::Done(false),
        number: None,
        made: 1,
        dropped: 1,
    },
    Row {
        call: Call::TryUpdate,
        byte: 9,
        request: Request::Keep,
        answer: Answer::Done(false),
        number: None,
        made: 1,
        dropped: 1,
    },
    // what was written is replaced
    Row {
        call: Call::Update,
        byte: 0,
        request: Request::Insert(7),
        answer: Answer::Done(true),
        number: Some(7),
        made: 2,
        dropped: 2,
    },
    Row {
        call: Call::TryUpdate,
        byte: 1,
        request: Request::Insert(8),
        answer: Answer::Done(true),
        number: Some(8),
        made: 3,
        dropped: 3,
    },
    Row {
        call: Call::Update,
        byte: 9,
        request: Request::Insert(9),
        answer: Answer::Done(true),
        number: Some(9),
        made: 2,
        dropped: 1,
    },
    Row {
        call: Call::TryUpdate,
        byte: 10,
        request: Request::Insert(10),
        answer: Answer::Done(true),
        number: Some(10),
        made: 2,
        dropped: 1,
    },
    // what was written is dropped, and the clone is stored
    Row {
        call: Call::TryUpdate,
        byte: 2,
        request: Request::Fail,
        answer: Answer::Failed,
        number: Some(2),
        made: 2,
        dropped: 2,
    },
    Row {
        call: Call::TryUpdate,
        byte: 11,
        request: Request::Fail,
        answer: Answer::Failed,
        number: None,
        made: 1,
        dropped: 1,
    },
    // what was written is removed
    Row {
        call: Call::Update,
        byte: 0,
        request: Request::Remove,
        answer: Answer::Done(true),
        number: None,
        made: 1,
        dropped: 2,
    },
    Row {
        call: Call::TryUpdate,
        byte: 1,
        request: Request::Remove,
        answer: Answer::Done(true),
        number: None,
        made: 2,
        dropped: 3,
    },
    Row {
        call: Call::Update,
        byte: 9,
        request: Request::Remove,
        answer: Answer::Done(true),
        number: None,
        made: 1,
        dropped: 2,
    },
    Row {
        call: Call::TryUpdate,
        byte: 10,
        request: Request::Remove,
        answer: Answer::Done(true),
        number: None,
        made: 2,
        dropped: 3,
    },
    Row {
        call: Call::Update,
        byte: 0,
        request: Request::Remove,
        answer: Answer::Done(false),
        number: None,
        made: 1,
        dropped: 1,
    },
    Row {
        call: Call::TryUpdate,
        byte: 1,
        request: Request::Remove,
        answer: Answer::Done(false),
        number: None,
        made: 1,
        dropped: 1,
    },
];

/// Of a tree with three keys, whose values can't be cloned.
pub static UNCLONED: [Row; 8] = [
    Row {
        call: Call::TryUpdateByValue,
        byte: 1,
        request: Request::Keep,
        answer: Answer::NotCloned,
        number: Some(1),
        made: 1,
        dropped: 1,
    },
    Row {
        call: Call::TryUpdateByValue,
        byte: 1,
        request: Request::Insert(7),
        answer: Answer::NotCloned,
        number: Some(1),
        made: 2,
        dropped: 2,
    },
    Row {
        call: Call::TryUpdateByValue,
        byte: 1,
        request: Request::Remove,
        answer: Answer::NotCloned,
        number: Some(1),
        made: 1,
        dropped: 1,
    },
    // the callback isn't called, and so doesn't fail
    Row {
        call: Call::TryUpdateByValue,
        byte: 1,
        request: Request::Fail,
        answer: Answer::NotCloned,
        number: Some(1),
        made: 1,
        dropped: 1,
    },
    // an absent key needs no clone
    Row {
        call: Call::TryUpdateByValue,
        byte: 9,
        request: Request::Keep,
        answer: Answer::Done(false),
        number: None,
        made: 1,
        dropped: 1,
    },
    Row {
        call: Call::TryUpdateByValue,
        byte: 9,
        request: Request::Fail,
        answer: Answer::Failed,
        number: None,
        made: 1,
        dropped: 1,
    },
    Row {
        call: Call::TryUpdateByValue,
        byte: 9,
        request: Request::Insert(9),
        answer: Answer::Done(true),
        number: Some(9),
        made: 2,
        dropped: 1,
    },
    Row {
        call: Call::TryUpdateByValue,
        byte: 9,
        request: Request::Remove,
        answer: Answer::NotCloned,
        number: Some(9),
        made: 1,
        dropped: 1,
    },
];

/// Whose values can be cloned.
pub static REFUSED: [Sweep; 4] = [
    Sweep {
        count: 4,
        row: Row {
            call: Call::Update,
            byte: 4,
            request: Request::Insert(7),
            answer: Answer::Done(true),
            number: Some(7),
            made: 2,
            dropped: 1,
        },
        refused: Row {
            call: Call::Update,
            byte: 4,
            request: Request::Insert(7),
            answer: Answer::Back(7),
            number: None,
            made: 2,
            dropped: 2,
        },
    },
    Sweep {
        count: 4,
        row: Row {
            call: Call::TryUpdate,
            byte: 4,
            request: Request::Insert(7),
            answer: Answer::Done(true),
            number: Some(7),
            made: 2,
            dropped: 1,
        },
        refused: Row {
            call: Call::TryUpdate,
            byte: 4,
            request: Request::Insert(7),
            answer: Answer::Back(7),
            number: None,
            made: 2,
            dropped: 2,
        },
    },
    Sweep {
        count: 5,
        row: Row {
            call: Call::Update,
            byte: 2,
            request: Request::Remove,
            answer: Answer::Done(true),
            number: None,
            made: 1,
            dropped: 2,
        },
        refused: Row {
            call: Call::Update,
            byte: 2,
            request: Request::Remove,
            answer: Answer::NotRemoved,
            number: Some(WRITTEN),
            made: 1,
            dropped: 1,
        },
    },
    Sweep {
        count: 5,
        row: Row {
            call: Call::TryUpdate,
            byte: 2,
            request: Request::Remove,
            answer: Answer::Done(true),
            number: None,
            made: 2,
            dropped: 3,
        },
        refused: Row {
            call: Call::TryUpdate,
            byte: 2,
            request: Request::Remove,
            answer: Answer::NotRemoved,
            number: Some(2),
            made: 2,
            dropped: 2,
        },
    },
];
