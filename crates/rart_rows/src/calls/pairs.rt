//! Iterators over pairs or values. Each is called twice more after its end.

use crate::answer::Answer;
use crate::asked::Asked;
use crate::names::Pairs;
use crate::world::Tree;
use rart::{
    Descending, Iter, KeyTrait, PrefixMatchIter, Range, RangeDescending, TreeError, ValuesIter,
};

/// The pairs of an iterator.
pub fn put_pairs<K: KeyTrait + Drop>(
    pairs: &mut Iter<'_, K, K::PartialType, u64>,
    answer: &mut Answer,
) {
    while let Some((key, value)) = pairs.next() {
        answer.pair(key.as_ref(), *value);
    }
    answer.ended(pairs.next().is_none() && pairs.next().is_none());
}

fn put_values<K: KeyTrait>(values: &mut ValuesIter<'_, K, u64>, answer: &mut Answer) {
    while let Some(value) = values.next() {
        answer.item(*value);
    }
    answer.ended(values.next().is_none() && values.next().is_none());
}

fn put_matches<K: KeyTrait + Drop>(
    pairs: &mut PrefixMatchIter<'_, K, K::PartialType, u64>,
    answer: &mut Answer,
) {
    while let Some((key, value)) = pairs.next() {
        answer.pair(key.as_ref(), *value);
    }
    answer.ended(pairs.next().is_none() && pairs.next().is_none());
}

fn put_range<K: KeyTrait + Drop>(pairs: &mut Range<'_, K, u64>, answer: &mut Answer) {
    while let Some((key, value)) = pairs.next() {
        answer.pair(key.as_ref(), *value);
    }
    answer.ended(pairs.next().is_none() && pairs.next().is_none());
}

fn put_descending<K: KeyTrait + Drop>(pairs: &mut Descending<'_, K, u64>, answer: &mut Answer) {
    while let Some((key, value)) = pairs.next() {
        answer.pair(key.as_ref(), *value);
    }
    answer.ended(pairs.next().is_none() && pairs.next().is_none());
}

fn put_range_descending<K: KeyTrait + Drop>(
    pairs: &mut RangeDescending<'_, K, u64>,
    answer: &mut Answer,
) {
    while let Some((key, value)) = pairs.next() {
        answer.pair(key.as_ref(), *value);
    }
    answer.ended(pairs.next().is_none() && pairs.next().is_none());
}

/// The pairs of an iterator, or its refusal.
pub fn put_iter<K: KeyTrait + Drop>(
    iter: Result<Iter<'_, K, K::PartialType, u64>, TreeError>,
    answer: &mut Answer,
) {
    match iter {
        Ok(mut pairs) => put_pairs(&mut pairs, answer),
        Err(error) => answer.error(error),
    }
}

fn values_iter<K: KeyTrait>(tree: &Tree<K>, answer: &mut Answer) {
    match tree.values_iter() {
        Ok(mut values) => put_values(&mut values, answer),
        Err(error) => answer.error(error),
    }
}

fn prefix_iter<K: KeyTrait + Drop>(tree: &Tree<K>, asked: &Asked<'_, K>, answer: &mut Answer) {
    if asked.form.takes_key() {
        put_iter(tree.prefix_iter(asked.taken()), answer);
    } else if asked.form.gives_bytes() {
        put_iter(tree.prefix_iter_bytes(asked.bytes()), answer);
    } else {
        put_iter(tree.prefix_iter_k(&asked.key), answer);
    }
}

fn matches_of<'a, K: KeyTrait + Drop>(
    tree: &'a Tree<K>,
    asked: &Asked<'_, K>,
) -> PrefixMatchIter<'a, K, K::PartialType, u64> {
    if asked.form.takes_key() {
        tree.prefix_match_iter(asked.taken())
    } else {
        tree.prefix_match_iter_k(&asked.key)
    }
}

fn prefix_match_iter<K: KeyTrait + Drop>(
    tree: &Tree<K>,
    asked: &Asked<'_, K>,
    answer: &mut Answer,
) {
    let mut pairs = matches_of(tree, asked);
    put_matches(&mut pairs, answer);
}

fn put_range_or_refusal<K: KeyTrait + Drop>(
    range: Result<Range<'_, K, u64>, TreeError>,
    answer: &mut Answer,
) {
    match range {
        Ok(mut pairs) => put_range(&mut pairs, answer),
        Err(error) => answer.error(error),
    }
}

fn range_bytes<K: KeyTrait + Drop>(tree: &Tree<K>, asked: &Asked<'_, K>, answer: &mut Answer) {
    put_range_or_refusal(
        tree.range_bytes(asked.start_bytes(), asked.end_bytes()),
        answer,
    );
}

fn range<K: KeyTrait + Drop>(tree: &Tree<K>, asked: &Asked<'_, K>, answer: &mut Answer) {
    if asked.form.gives_bytes() {
        range_bytes(tree, asked, answer);
    } else {
        put_range_or_refusal(tree.range(asked.start(), asked.end()), answer);
    }
}

fn iter_descending<K: KeyTrait + Drop>(tree: &Tree<K>, answer: &mut Answer) {
    match tree.iter_descending() {
        Ok(mut pairs) => put_descending(&mut pairs, answer),
        Err(error) => answer.error(error),
    }
}

fn prefix_descending<K: KeyTrait + Drop>(
    tree: &Tree<K>,
    asked: &Asked<'_, K>,
    answer: &mut Answer,
) {
    let walk = if asked.form.gives_bytes() {
        tree.prefix_iter_descending_bytes(asked.key.as_ref())
    } else {
        tree.prefix_iter_descending_k(&asked.key)
    };
    match walk {
        Ok(mut pairs) => put_descending(&mut pairs, answer),
        Err(error) => answer.error(error),
    }
}

fn put_descending_or_refusal<K: KeyTrait + Drop>(
    range: Result<RangeDescending<'_, K, u64>, TreeError>,
    answer: &mut Answer,
) {
    match range {
        Ok(mut pairs) => put_range_descending(&mut pairs, answer),
        Err(error) => answer.error(error),
    }
}

fn range_descending_bytes<K: KeyTrait + Drop>(
    tree: &Tree<K>,
    asked: &Asked<'_, K>,
    answer: &mut Answer,
) {
    put_descending_or_refusal(
        tree.range_descending_bytes(asked.start_bytes(), asked.end_bytes()),
        answer,
    );
}

fn range_descending<K: KeyTrait + Drop>(tree: &Tree<K>, asked: &Asked<'_, K>, answer: &mut Answer) {
    if asked.form.gives_bytes() {
        range_descending_bytes(tree, asked, answer);
    } else {
        put_descending_or_refusal(tree.range_descending(asked.start(), asked.end()), answer);
    }
}

/// Walks an iterator to its end.
pub fn walk<K: KeyTrait + Drop>(
    tree: &Tree<K>,
    asked: &Asked<'_, K>,
    pairs: Pairs,
    answer: &mut Answer,
) {
    match pairs {
        Pairs::Iter => put_iter(tree.iter(), answer),
        Pairs::ValuesIter => values_iter(tree, answer),
        Pairs::PrefixIter => prefix_iter(tree, asked, answer),
        Pairs::PrefixMatchIter => prefix_match_iter(tree, asked, answer),
        Pairs::Range => range(tree, asked, answer),
        Pairs::IterDescending => iter_descending(tree, answer),
        Pairs::PrefixIterDescending => prefix_descending(tree, asked, answer),
        Pairs::RangeDescending => range_descending(tree, asked, answer),
        Pairs::RangeBytes => range_bytes(tree, asked, answer),
        Pairs::RangeDescendingBytes => range_descending_bytes(tree, asked, answer),
    }
}
