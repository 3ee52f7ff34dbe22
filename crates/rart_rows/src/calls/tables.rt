//! Calls of whole route tables.

use crate::answer::Answer;
use crate::calls::both::put_appended;
use crate::calls::edits::put_popped;
use crate::calls::loads::put_refused_item;
use crate::calls::looks::{put_found, put_stats};
use crate::calls::pairs::put_iter;
use crate::calls::turns::put_both_ends;
use crate::names::{TableEdit, TableRead, Tables};
use crate::world::{Items, Table};
use rart::{KeyTrait, TreeStatsTrait};
use std::alloc::Global;
use std::mem;

fn canonical<K: KeyTrait>(table: &Table<K>, answer: &mut Answer) {
    table.canonical();
    answer.word(b"done");
}

/// Reads something of the whole table.
pub fn read_table<K: KeyTrait + Drop>(
    table: &Table<K>,
    read: TableRead,
    turns: &[u8],
    answer: &mut Answer,
) {
    match read {
        TableRead::Canonical => canonical(table, answer),
        TableRead::Len => answer.count(table.len()),
        TableRead::IsEmpty => answer.truth(table.is_empty()),
        TableRead::Stats => put_stats(table.get_tree_stats(), answer),
        TableRead::FirstKeyValue => put_found(table.first_key_value(), answer),
        TableRead::LastKeyValue => put_found(table.last_key_value(), answer),
        TableRead::Iter => put_iter(table.iter(), answer),
        TableRead::AsTree => put_iter(table.as_tree().iter(), answer),
        TableRead::IterBothEnds => put_both_ends(table.iter_both_ends(), turns, answer),
    }
}

fn clear<K: KeyTrait>(table: &mut Table<K>, answer: &mut Answer) {
    table.clear();
    answer.word(b"done");
}

fn from_pairs<K: KeyTrait + Drop>(
    alloc: Global,
    table: &mut Table<K>,
    items: Items<K>,
    answer: &mut Answer,
) {
    match Table::<K>::from_pairs(alloc, items) {
        Ok(made) => {
            answer.count(made.len());
            *table = made;
        }
        Err(refused) => put_refused_item(refused, answer),
    }
}

fn extend<K: KeyTrait + Drop>(table: &mut Table<K>, items: Items<K>, answer: &mut Answer) {
    match table.extend(items) {
        Ok(()) => answer.word(b"done"),
        Err(refused) => put_refused_item(refused, answer),
    }
}

/// Edits the whole table. The listed routes are taken.
pub fn edit_table<K: KeyTrait + Drop>(
    alloc: Global,
    table: &mut Table<K>,
    edit: TableEdit,
    items: &mut Items<K>,
    answer: &mut Answer,
) {
    let listed = mem::replace(items, Vec::new(alloc));
    match edit {
        TableEdit::PopFirst => put_popped(table.pop_first(), answer),
        TableEdit::PopLast => put_popped(table.pop_last(), answer),
        TableEdit::Clear => clear(table, answer),
        TableEdit::FromPairs => from_pairs(alloc, table, listed, answer),
        TableEdit::Extend => extend(table, listed, answer),
    }
}

// Makes the other table a clone.
fn clone_into<K: KeyTrait + Drop>(table: &Table<K>, other: &mut Table<K>, answer: &mut Answer) {
    match table.clone() {
        Ok(copy) => {
            answer.count(copy.len());
            *other = copy;
        }
        Err(_refused) => answer.refusal(b"memory"),
    }
}

// Whether the tables are equal, if `!=` says the contrary and the table equals itself.
fn put_equal<K: KeyTrait>(table: &Table<K>, other: &Table<K>, answer: &mut Answer) {
    let is_equal = *table == *other;
    answer.truth(is_equal);
    if (*table != *other) == is_equal || *table != *table {
        answer.word(b"and not");
    }
}

fn swap<K: KeyTrait>(table: &mut Table<K>, other: &mut Table<K>, answer: &mut Answer) {
    mem::swap(table, other);
    answer.word(b"done");
}

/// Makes a call on both tables.
pub fn call_tables<K: KeyTrait + Drop>(
    table: &mut Table<K>,
    other: &mut Table<K>,
    tables: Tables,
    answer: &mut Answer,
) {
    match tables {
        Tables::Append => put_appended(table.append(other), answer),
        Tables::Clone => clone_into(table, other, answer),
        Tables::Equal => put_equal(table, other, answer),
        Tables::Swap => swap(table, other, answer),
    }
}
