//! Look-ups, and what is read of a whole tree.

use crate::answer::Answer;
use crate::asked::Asked;
use crate::form::Form;
use crate::names::{Count, Look, Probe, Whole};
use crate::words::same_key;
use crate::world::Tree;
use rart::{KeyTrait, TreeError, TreeStats, TreeStatsTrait};
use std::fmt::Write;

/// A pair, if there is one.
pub fn put_found<K: KeyTrait + Drop>(found: Option<(K, &u64)>, answer: &mut Answer) {
    match found {
        Some((key, value)) => answer.pair(key.as_ref(), *value),
        None => answer.word(b"none"),
    }
}

/// Statistics, or why there are none.
pub fn put_stats(stats: Result<TreeStats, TreeError>, answer: &mut Answer) {
    match stats {
        Ok(stats) => answer.stats(&stats),
        Err(error) => answer.error(error),
    }
}

fn get<K: KeyTrait + Drop>(tree: &Tree<K>, key: &K, form: Form) -> Option<u64> {
    if form.takes_key() {
        tree.get(same_key(key)).copied()
    } else {
        tree.get_k(key).copied()
    }
}

fn contains<K: KeyTrait + Drop>(tree: &Tree<K>, key: &K, form: Form) -> bool {
    if form.takes_key() {
        tree.contains_key(same_key(key))
    } else {
        tree.contains_key_k(key)
    }
}

fn longest<K: KeyTrait + Drop>(tree: &Tree<K>, key: &K, form: Form, answer: &mut Answer) {
    if form.takes_key() {
        put_found(tree.longest_prefix_match(same_key(key)), answer);
    } else {
        put_found(tree.longest_prefix_match_k(key), answer);
    }
}

fn longest_value<K: KeyTrait + Drop>(tree: &Tree<K>, key: &K, form: Form) -> Option<u64> {
    if form.takes_key() {
        tree.longest_prefix_value(same_key(key)).copied()
    } else {
        tree.longest_prefix_value_k(key).copied()
    }
}

fn count_prefix<K: KeyTrait + Drop>(tree: &Tree<K>, prefix: &K, form: Form) -> usize {
    if form.takes_key() {
        tree.count_prefix(same_key(prefix))
    } else if form.gives_bytes() {
        tree.count_prefix_bytes(prefix.as_ref())
    } else {
        tree.count_prefix_k(prefix)
    }
}

fn common_prefix<K: KeyTrait + Drop>(tree: &Tree<K>, prefix: &K, form: Form, answer: &mut Answer) {
    let found = if form.takes_key() {
        tree.longest_common_prefix(same_key(prefix))
    } else if form.gives_bytes() {
        tree.longest_common_prefix_bytes(prefix.as_ref())
    } else {
        tree.longest_common_prefix_k(prefix)
    };
    match &found {
        Some(key) => answer.bare_key(Some(key.as_ref())),
        None => answer.bare_key(None),
    }
}

fn first_from<K: KeyTrait + Drop>(tree: &Tree<K>, key: &K, form: Form, answer: &mut Answer) {
    if form.takes_key() {
        put_found(tree.first_at_or_after(same_key(key)), answer);
    } else {
        put_found(tree.first_at_or_after_k(key), answer);
    }
}

fn first_after<K: KeyTrait + Drop>(tree: &Tree<K>, key: &K, form: Form, answer: &mut Answer) {
    if form.takes_key() {
        put_found(tree.first_after(same_key(key)), answer);
    } else {
        put_found(tree.first_after_k(key), answer);
    }
}

fn last_until<K: KeyTrait + Drop>(tree: &Tree<K>, key: &K, form: Form, answer: &mut Answer) {
    if form.takes_key() {
        put_found(tree.last_at_or_before(same_key(key)), answer);
    } else {
        put_found(tree.last_at_or_before_k(key), answer);
    }
}

fn last_before<K: KeyTrait + Drop>(tree: &Tree<K>, key: &K, form: Form, answer: &mut Answer) {
    if form.takes_key() {
        put_found(tree.last_before(same_key(key)), answer);
    } else {
        put_found(tree.last_before_k(key), answer);
    }
}

/// Looks a key up.
pub fn look<K: KeyTrait + Drop>(
    tree: &Tree<K>,
    key: &K,
    look: Look,
    form: Form,
    answer: &mut Answer,
) {
    match look {
        Look::Get => answer.value(get(tree, key, form)),
        Look::ContainsKey => answer.truth(contains(tree, key, form)),
        Look::LongestPrefixMatch => longest(tree, key, form, answer),
        Look::LongestPrefixValue => answer.value(longest_value(tree, key, form)),
        Look::CountPrefix => answer.count(count_prefix(tree, key, form)),
        Look::LongestCommonPrefix => common_prefix(tree, key, form, answer),
        Look::FirstAtOrAfter => first_from(tree, key, form, answer),
        Look::FirstAfter => first_after(tree, key, form, answer),
        Look::LastAtOrBefore => last_until(tree, key, form, answer),
        Look::LastBefore => last_before(tree, key, form, answer),
    }
}

fn count_range<K: KeyTrait + Drop>(tree: &Tree<K>, asked: &Asked<'_, K>) -> usize {
    if asked.form.gives_bytes() {
        tree.count_range_bytes(asked.start_bytes(), asked.end_bytes())
    } else {
        tree.count_range(asked.start(), asked.end())
    }
}

/// Counts the pairs within two bounds.
pub fn count_between<K: KeyTrait + Drop>(
    tree: &Tree<K>,
    asked: &Asked<'_, K>,
    count: Count,
    answer: &mut Answer,
) {
    let count = match count {
        Count::CountRange => count_range(tree, asked),
        Count::CountRangeBytes => tree.count_range_bytes(asked.start_bytes(), asked.end_bytes()),
    };
    answer.count(count);
}

fn longest_len<K: KeyTrait>(tree: &Tree<K>, probe: &[u8], answer: &mut Answer) {
    match tree.longest_prefix_len_bytes(probe) {
        Some((len, value)) => {
            answer.count(len);
            answer.number(*value);
        }
        None => answer.word(b"none"),
    }
}

/// Looks bytes up.
pub fn look_up_bytes<K: KeyTrait + Drop>(
    tree: &Tree<K>,
    bytes: &[u8],
    probe: Probe,
    answer: &mut Answer,
) {
    match probe {
        Probe::GetBytes => answer.value(tree.get_bytes(bytes).copied()),
        Probe::ContainsKeyBytes => answer.truth(tree.contains_key_bytes(bytes)),
        Probe::LongestPrefixMatchBytes => put_found(tree.longest_prefix_match_bytes(bytes), answer),
        Probe::LongestPrefixLenBytes => longest_len(tree, bytes, answer),
        Probe::LongestPrefixValueBytes => {
            answer.value(tree.longest_prefix_value_bytes(bytes).copied())
        }
        Probe::FirstAtOrAfterBytes => put_found(tree.first_at_or_after_bytes(bytes), answer),
        Probe::FirstAfterBytes => put_found(tree.first_after_bytes(bytes), answer),
        Probe::LastAtOrBeforeBytes => put_found(tree.last_at_or_before_bytes(bytes), answer),
        Probe::LastBeforeBytes => put_found(tree.last_before_bytes(bytes), answer),
    }
}

fn canonical<K: KeyTrait>(tree: &Tree<K>, answer: &mut Answer) {
    tree.canonical();
    answer.word(b"done");
}

fn outline<K: KeyTrait>(tree: &Tree<K>, answer: &mut Answer) {
    match write!(answer, "{}", tree.outline()) {
        Ok(()) => answer.end(),
        Err(_refused) => answer.word(b"failed"),
    }
}

/// Reads something of the whole tree.
pub fn read_whole<K: KeyTrait + Drop>(tree: &Tree<K>, whole: Whole, answer: &mut Answer) {
    match whole {
        Whole::Canonical => canonical(tree, answer),
        Whole::Len => answer.count(tree.len()),
        Whole::IsEmpty => answer.truth(tree.is_empty()),
        Whole::Stats => put_stats(tree.get_tree_stats(), answer),
        Whole::FirstKeyValue => put_found(tree.first_key_value(), answer),
        Whole::LastKeyValue => put_found(tree.last_key_value(), answer),
        Whole::Outline => outline(tree, answer),
    }
}
