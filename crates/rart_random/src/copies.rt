//! What must hold of any tree: of its clones, and of the part below a prefix that is taken and appended again.
use crate::model::Pair;
use crate::sides::{Tree, key_of};
use crate::text::Text;
use rart::{Iter, KeyTrait};

// Whether the copy equals the tree until its values change, and once the other copy is appended to it.
fn is_apart<K: KeyTrait + Drop>(
    copy: &mut Tree<K>,
    other: &mut Tree<K>,
    tree: &Tree<K>,
) -> Option<bool> {
    let was_equal = *copy == *tree;
    copy.for_each_value_mut(|value| *value = value.wrapping_add(1));
    let is_changed = (*copy == *tree) == tree.is_empty();
    copy.append(other).ok()?;
    Some(was_equal && is_changed && *copy == *tree && other.is_empty())
}

// `is_apart` with another clone; none if memory was refused.
fn is_apart_from_two<K: KeyTrait + Drop>(copy: &mut Tree<K>, tree: &Tree<K>) -> Option<bool> {
    match tree.clone() {
        Ok(mut other) => is_apart(copy, &mut other, tree),
        Err(_refused) => None,
    }
}

// `is_apart_from_two` of two clones.
fn is_cloned<K: KeyTrait + Drop>(tree: &Tree<K>) -> Option<bool> {
    match tree.clone() {
        Ok(mut copy) => is_apart_from_two(&mut copy, tree),
        Err(_refused) => None,
    }
}

fn count<K: KeyTrait + Drop>(pairs: &mut Iter<'_, K, K::PartialType, u64>) -> usize {
    let mut count = 0_usize;
    while let Some(_pair) = pairs.next() {
        count = count.wrapping_add(1);
    }
    count
}

// How many keys begin with the prefix.
fn count_below<K: KeyTrait + Drop>(tree: &Tree<K>, prefix: &K) -> Option<usize> {
    match tree.prefix_iter_k(prefix) {
        Ok(mut pairs) => Some(count(&mut pairs)),
        Err(_refused) => None,
    }
}

// Whether all pairs below the prefix are in the part, which together with the rest is the whole.
fn are_parts<K: KeyTrait + Drop>(
    rest: &mut Tree<K>,
    part: &mut Tree<K>,
    whole: &Tree<K>,
    prefix: &K,
) -> Option<bool> {
    let count = part.len();
    let is_apart = count_below(rest, prefix)? == 0 && count_below(part, prefix)? == count;
    rest.append(part).ok()?;
    let is_whole = *rest == *whole && part.is_empty();
    Some(is_apart && is_whole && rest.remove_prefix_k(prefix).ok()? == count)
}

fn is_taken<K: KeyTrait + Drop>(rest: &mut Tree<K>, whole: &Tree<K>, prefix: &K) -> Option<bool> {
    match rest.take_prefix_k(prefix) {
        Ok(mut part) => are_parts(rest, &mut part, whole, prefix),
        Err(_refused) => None,
    }
}

// Whether the pairs below the prefix are taken from a clone; none if memory was refused.
fn is_parted<K: KeyTrait + Drop>(tree: &Tree<K>, prefix: &K) -> Option<bool> {
    match tree.clone() {
        Ok(mut rest) => is_taken(&mut rest, tree, prefix),
        Err(_refused) => None,
    }
}

// `is_parted` at the first half of the key.
fn is_parted_at<K: KeyTrait + Drop>(tree: &Tree<K>, text: &Text) -> Option<bool> {
    let key = key_of::<K>(text)?;
    is_parted(tree, &key.truncate(key.as_ref().len() / 2))
}

/// Whether clones of the tree and of its parts are right; none if memory was refused. The prefix is a half of the key
/// in the middle of the list.
pub fn copies_are_right<K: KeyTrait + Drop>(tree: &Tree<K>, list: &[Pair]) -> Option<bool> {
    let is_right = is_cloned(tree)?;
    match list.get(list.len() / 2) {
        Some(pair) => Some(is_right && is_parted_at(tree, &pair.0)?),
        None => Some(is_right),
    }
}
