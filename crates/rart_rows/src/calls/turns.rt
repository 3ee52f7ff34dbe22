//! Iterators from both ends, called by turns.

use crate::answer::Answer;
use crate::asked::Asked;
use crate::names::Turns;
use crate::world::Tree;
use rart::{BothEnds, BothEndsWithin, KeyTrait, TreeError, ValuesBothEnds};

fn put_pair<K: KeyTrait + Drop>(found: Option<(K, &u64)>, answer: &mut Answer) {
    match found {
        Some((key, value)) => answer.pair(key.as_ref(), *value),
        None => answer.word(b"none"),
    }
}

// The count of the items that remain, if it or the hint is not the wanted one.
fn put_left(left: usize, hint: (usize, Option<usize>), wanted: usize, answer: &mut Answer) {
    if left != wanted || hint != (wanted, Some(wanted)) {
        answer.word(b"left");
        answer.count(left);
    }
}

/// The pairs of the turns, after how many there are. `pairs.len()` would be the length of the iterator `&mut BothEnds`.
pub fn put_by_turns<K: KeyTrait + Drop>(
    pairs: &mut BothEnds<'_, K, u64>,
    turns: &[u8],
    answer: &mut Answer,
) {
    let mut left = (*pairs).len();
    answer.word(b"of");
    answer.count(left);
    for turn in turns {
        let found = if *turn == b'b' {
            pairs.next_back()
        } else {
            pairs.next()
        };
        put_pair(found, answer);
        left = left.saturating_sub(1);
        put_left((*pairs).len(), (*pairs).size_hint(), left, answer);
    }
}

fn put_values_by_turns<K: KeyTrait + Drop>(
    values: &mut ValuesBothEnds<'_, K, u64>,
    turns: &[u8],
    answer: &mut Answer,
) {
    let mut left = (*values).len();
    answer.word(b"of");
    answer.count(left);
    for turn in turns {
        let found = if *turn == b'b' {
            values.next_back()
        } else {
            values.next()
        };
        answer.value(found.copied());
        left = left.saturating_sub(1);
        put_left((*values).len(), (*values).size_hint(), left, answer);
    }
}

fn put_part_by_turns<K: KeyTrait + Drop>(
    pairs: &mut BothEndsWithin<'_, K, u64>,
    turns: &[u8],
    answer: &mut Answer,
) {
    for turn in turns {
        let found = if *turn == b'b' {
            pairs.next_back()
        } else {
            pairs.next()
        };
        put_pair(found, answer);
    }
}

/// The pairs of an iterator from both ends, or its refusal.
pub fn put_both_ends<K: KeyTrait + Drop>(
    both: Result<BothEnds<'_, K, u64>, TreeError>,
    turns: &[u8],
    answer: &mut Answer,
) {
    match both {
        Ok(mut pairs) => put_by_turns(&mut pairs, turns, answer),
        Err(error) => answer.error(error),
    }
}

fn put_part<K: KeyTrait + Drop>(
    part: Result<BothEndsWithin<'_, K, u64>, TreeError>,
    turns: &[u8],
    answer: &mut Answer,
) {
    match part {
        Ok(mut pairs) => put_part_by_turns(&mut pairs, turns, answer),
        Err(error) => answer.error(error),
    }
}

fn range_bytes_by_turns<K: KeyTrait + Drop>(
    tree: &Tree<K>,
    asked: &Asked<'_, K>,
    answer: &mut Answer,
) {
    put_part(
        tree.range_both_ends_bytes(asked.start_bytes(), asked.end_bytes()),
        asked.args().turns,
        answer,
    );
}

fn range_by_turns<K: KeyTrait + Drop>(tree: &Tree<K>, asked: &Asked<'_, K>, answer: &mut Answer) {
    if asked.form.gives_bytes() {
        range_bytes_by_turns(tree, asked, answer);
    } else {
        put_part(
            tree.range_both_ends(asked.start(), asked.end()),
            asked.args().turns,
            answer,
        );
    }
}

fn values_by_turns<K: KeyTrait + Drop>(tree: &Tree<K>, turns: &[u8], answer: &mut Answer) {
    match tree.values_iter_both_ends() {
        Ok(mut values) => put_values_by_turns(&mut values, turns, answer),
        Err(error) => answer.error(error),
    }
}

fn prefix_by_turns<K: KeyTrait + Drop>(tree: &Tree<K>, asked: &Asked<'_, K>, answer: &mut Answer) {
    let turns = asked.args().turns;
    if asked.form.gives_bytes() {
        put_part(
            tree.prefix_iter_both_ends_bytes(asked.key.as_ref()),
            turns,
            answer,
        );
    } else {
        put_part(tree.prefix_iter_both_ends_k(&asked.key), turns, answer);
    }
}

/// Calls an iterator from both ends by turns.
pub fn walk_by_turns<K: KeyTrait + Drop>(
    tree: &Tree<K>,
    asked: &Asked<'_, K>,
    walk: Turns,
    answer: &mut Answer,
) {
    let turns = asked.args().turns;
    match walk {
        Turns::IterBothEnds => put_both_ends(tree.iter_both_ends(), turns, answer),
        Turns::ValuesIterBothEnds => values_by_turns(tree, turns, answer),
        Turns::PrefixIterBothEnds => prefix_by_turns(tree, asked, answer),
        Turns::RangeBothEnds => range_by_turns(tree, asked, answer),
        Turns::RangeBothEndsBytes => range_bytes_by_turns(tree, asked, answer),
    }
}
