//! Calls as values, and their replies as text.

use crate::answer::Answer;
use crate::asked::Asked;
use crate::names::{Call as Name, Insertion, Look, Pairs, Removal, Whole};
use crate::request::{Edit, Request};
use crate::row::{Args, Row};
use crate::words::same_key;
use rart::KeyTrait;
use rart::script::{Call, Reply};

fn look<K: KeyTrait>(key: &K, look: Look) -> Option<Call<K, u64>> {
    match look {
        Look::Get => Some(Call::Get(same_key(key))),
        Look::LongestPrefixMatch => Some(Call::Longest(same_key(key))),
        _ => None,
    }
}

fn whole<K>(whole: Whole) -> Option<Call<K, u64>> {
    match whole {
        Whole::Len => Some(Call::Len),
        Whole::IsEmpty => Some(Call::IsEmpty),
        Whole::Stats => Some(Call::Stats),
        _ => None,
    }
}

fn update<K: KeyTrait>(key: &K, request: &Request) -> Option<Call<K, u64>> {
    if !request.is_plain() || request.fails() {
        return None;
    }
    Some(Call::Update(same_key(key), request.written, request.update()))
}

fn try_update<K: KeyTrait>(key: &K, request: &Request) -> Option<Call<K, u64>> {
    if !request.is_plain() {
        return None;
    }
    let answer = match request.edit {
        Edit::Fail => Err(()),
        _ => Ok(request.update()),
    };
    Some(Call::TryUpdate(same_key(key), request.written, answer))
}

fn insertion<K: KeyTrait>(key: &K, insertion: Insertion, args: &Args<'_>) -> Option<Call<K, u64>> {
    match insertion {
        Insertion::Insert => Some(Call::Insert(same_key(key), args.value)),
        Insertion::TryInsert => Some(Call::TryInsert(same_key(key), args.value)),
        Insertion::Update => update(key, &args.request),
        Insertion::TryUpdate => try_update(key, &args.request),
        _ => None,
    }
}

fn removal<K: KeyTrait>(key: &K, removal: Removal) -> Option<Call<K, u64>> {
    match removal {
        Removal::Remove => Some(Call::Remove(same_key(key))),
        Removal::Delete => Some(Call::Delete(same_key(key))),
        _ => None,
    }
}

fn pairs<K: KeyTrait + Drop>(asked: &Asked<'_, K>, pairs: Pairs) -> Option<Call<K, u64>> {
    match pairs {
        Pairs::Iter => Some(Call::Iter),
        Pairs::ValuesIter => Some(Call::Values),
        Pairs::PrefixIter => Some(Call::Prefix(asked.taken())),
        Pairs::PrefixMatchIter => Some(Call::Matches(asked.taken())),
        Pairs::Range => Some(Call::Range(asked.start(), asked.end())),
        _ => None,
    }
}

/// The call of a row as a value, if it is one.
pub fn call_of<K: KeyTrait + Drop>(asked: &Asked<'_, K>) -> Option<Call<K, u64>> {
    let key = &asked.key;
    match asked.row.call {
        Name::Look(name) => look(key, name),
        Name::Whole(name) => whole(name),
        Name::Insertion(name) => insertion(key, name, asked.args()),
        Name::Removal(name) => removal(key, name),
        Name::Pairs(name) => pairs(asked, name),
        _ => None,
    }
}

fn put_found<K: KeyTrait>(found: &Option<(K, u64)>, answer: &mut Answer) {
    match found {
        Some((key, value)) => answer.pair(key.as_ref(), *value),
        None => answer.word(b"none"),
    }
}

fn put_pairs<K: KeyTrait>(pairs: &[(K, u64)], answer: &mut Answer) {
    for (key, value) in pairs {
        answer.pair(key.as_ref(), *value);
    }
    answer.end();
}

fn put_values(values: &[u64], answer: &mut Answer) {
    for value in values {
        answer.item(*value);
    }
    answer.end();
}

// The value that a row offers.
fn offered(row: &Row<'_>) -> u64 {
    match row.call {
        Name::Insertion(Insertion::Update | Insertion::TryUpdate) => row.args.request.value,
        _ => row.args.value,
    }
}

// Whether a row offers a value, which a refusal returns.
fn offers(row: &Row<'_>) -> bool {
    match row.call {
        Name::Insertion(Insertion::Insert | Insertion::TryInsert) => true,
        Name::Insertion(_) => matches!(row.args.request.edit, Edit::Insert),
        _ => false,
    }
}

fn put_occupied(back: u64, stored: u64, answer: &mut Answer) {
    answer.word(b"occupied");
    answer.number(back);
    answer.number(stored);
}

fn put_failed(error: u64, answer: &mut Answer) {
    answer.word(b"failed");
    answer.number(error);
}

/// The reply to a row, as the call itself would be answered.
pub fn put_reply<K: KeyTrait>(reply: &Reply<K, u64>, row: &Row<'_>, answer: &mut Answer) {
    match reply {
        Reply::Value(value) => answer.value(*value),
        Reply::Done(truth) => answer.truth(*truth),
        Reply::Inserted => answer.word(b"inserted"),
        Reply::Occupied(back, stored) => put_occupied(*back, *stored, answer),
        Reply::Pair(found) => put_found(found, answer),
        Reply::Pairs(pairs) => put_pairs(pairs.as_slice(), answer),
        Reply::Values(values) => put_values(values.as_slice(), answer),
        Reply::Len(len) => answer.count(*len),
        Reply::Stats(stats) => answer.stats(stats),
        Reply::Refused(_error) if offers(row) => answer.word(b"not_returned"),
        Reply::Refused(error) => answer.error(*error),
        Reply::Returned(error, value) => answer.returned(*error, *value, offered(row)),
        Reply::Failed => put_failed(offered(row), answer),
        Reply::NoClone => answer.refusal(b"not_cloned"),
        Reply::NoRemove => answer.refusal(b"not_removed"),
    }
}
