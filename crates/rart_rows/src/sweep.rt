//! A row with each of its requests for memory refused in turn.

use crate::answer::Answer;
use crate::form::Form;
use crate::names::{Both, Call, Insertion, Load, Many, TableChange, TableEdit, Tables};
use crate::play::Wanted;
use crate::report::Report;
use crate::request::Edit;
use crate::row::{Demand, Row};
use crate::world::{Refusing, World};
use rart::KeyTrait;

/// More requests than any call of a row makes.
const MANY: usize = 2000;

/// What a refused call leaves.
#[derive(Clone, Copy, PartialEq, Eq)]
enum Left {
    /// All pairs and nodes from before the call.
    All,
    /// All but a value that the callback wrote.
    Nodes,
    /// A part of what it does, which rows of their own show.
    Part,
    /// It isn't refused: a run of calls.
    Unrefused,
}

fn left_by(row: &Row<'_>) -> Left {
    match row.call {
        Call::Insertion(Insertion::Update) if row.args.request.writes() => Left::Nodes,
        Call::Many(Many::Retain | Many::PrefixRetain | Many::RangeRetain | Many::RangeRetainBytes)
        | Call::Both(Both::Append | Both::MergeWith)
        | Call::Load(Load::Extend)
        | Call::TableEdit(TableEdit::Extend)
        | Call::TableChange(TableChange::Retain)
        | Call::Tables(Tables::Append) => Left::Part,
        Call::Group(_) => Left::Unrefused,
        _ => Left::All,
    }
}

// What a refused call says.
fn refusal_of(row: &Row<'_>) -> &'static [u8] {
    match (row.call, row.args.request.edit) {
        (Call::Insertion(Insertion::Update | Insertion::TryUpdate), Edit::Remove) => b"not_removed",
        (Call::Load(Load::FromPairs) | Call::TableEdit(TableEdit::FromPairs), _) => b"memory ",
        _ => b"memory",
    }
}

// Whether a refused call says so, and nothing else. Only one that leaves a part of its work calls back before, and only
// one of a list of pairs returns one of them.
fn is_said(answer: &Answer, row: &Row<'_>) -> bool {
    let refusal = refusal_of(row);
    match left_by(row) {
        Left::Part => answer.is_refusal(),
        _ if refusal.ends_with(b" ") => answer.is_refusal()
            && answer.as_slice().starts_with(refusal),
        _ => answer.is_refusal_alone() && answer.as_slice() == refusal,
    }
}

// Whether the world is as a refused call may leave it. One that may differ from the twin's is made anew from it.
fn is_left_well<K: KeyTrait + Drop>(world: &mut World<K>, twin: &World<K>, row: &Row<'_>) -> bool {
    match left_by(row) {
        Left::All | Left::Unrefused => world.is_like(twin),
        Left::Nodes => world.has_nodes_of(twin) && world.is_made_like(twin),
        Left::Part => world.is_made_like(twin),
    }
}

// The request that is refused at a turn of the sweep.
fn refused_at(row: &Row<'_>, turn: usize) -> Refusing {
    if left_by(row) == Left::Unrefused {
        Refusing::Nothing
    } else {
        Refusing::One(turn)
    }
}

// Whether the row may end its sweep at this turn without a refusal, or else go on with one. A call as a value requests
// memory for the list that it replies.
fn is_demanded(row: &Row<'_>, form: Form, turn: usize, is_refused: bool) -> bool {
    match row.demand {
        Demand::Quiet => !is_refused || form == Form::Step && matches!(row.call, Call::Pairs(_)),
        Demand::Asks => is_refused || turn > 1,
        _ => true,
    }
}

// Makes the call of a row with its first request refused, then with its second and so on, and at last with none.
// Returns whether each refused call says so and leaves what it may, and the last one answers as wanted.
fn is_swept<K: KeyTrait + Drop>(
    world: &mut World<K>,
    twin: &World<K>,
    wanted: &Wanted<'_>,
    form: Form,
    answer: &mut Answer,
    report: &mut Report,
) -> bool {
    let row = &wanted.row;
    for turn in 1..MANY {
        let made = world.make(row, form, refused_at(row, turn), answer);
        if report.can_refuse() && !is_demanded(row, form, turn, made.is_refused) {
            answer.word(b"with another count of requests");
            return false;
        }
        if !made.is_refused {
            return answer.as_slice() == wanted.answer || !made.is_read;
        }
        report.count_refusal();
        if !is_said(answer, row) || !is_left_well(world, twin, row) {
            return false;
        }
    }
    false
}

/// Plays a row with each of its requests refused, and then on the twin, whose requests are all granted; both are alike
/// then. Names the row if it isn't so, and makes them alike for the rows after it.
pub fn sweep_row<K: KeyTrait + Drop>(
    world: &mut World<K>,
    twin: &mut World<K>,
    wanted: &Wanted<'_>,
    form: Form,
    answer: &mut Answer,
    report: &mut Report,
) {
    let is_right = is_swept(world, twin, wanted, form, answer, report);
    if !is_right {
        report.wrong_refused(wanted, form.name().as_bytes(), answer.as_slice());
    }
    let _made = twin.make(&wanted.row, form, Refusing::Nothing, answer);
    if is_right && world.is_like(twin) {
        return;
    }
    if is_right {
        report.wrong_refused(wanted, form.name().as_bytes(), b"another tree");
    }
    let _copied = world.is_made_like(twin);
}
