//! The laws, called on trees that aren't empty.
ghost use Rattle.std.specs.Prelude.{◌≡◌, ◌∷◌, []};
ghost use Rattle.rart_keys.specs.SortedMap.{put};

use crate::play::replies::{have_same_stats, is_counted};
use rart::{AdaptiveRadixTree, ArrPartial, ArrayKey, Iter, KeyTrait, TreeStats, ValuesIter, laws};
use std::alloc::Global;
use std::process::Abort;

type Tree<K> = AdaptiveRadixTree<K, u64>;

type Key = ArrayKey<4>;

fn store<K: KeyTrait>(rt: &impl Abort, tree: &mut Tree<K>, key: &K, value: u64)
    ensures { tree.new.pairs ≡ put (K.bytes key.now) value tree.old.pairs }
{
    match tree.insert_k(key, value) {
        Ok(_old) => {}
        Err(_refused) => panic!(rt; "refused with ample memory"),
    }
}

// The first key with 5 and the second with 4.
fn two_keys<K: KeyTrait>(rt: &impl Abort, alloc: Global, first: &K, second: &K) -> Tree<K>
    ensures { result.pairs ≡ put (K.bytes second.now) 4 (put (K.bytes first.now) 5 []) }
{
    let mut tree = Tree::new(alloc);
    store(rt, &mut tree, first, 5);
    store(rt, &mut tree, second, 4);
    tree
}

fn dog_and_do(rt: &impl Abort, alloc: Global) -> Tree<Key>
    ensures { result.pairs ≡ put (100 ∷ 111 ∷ []) 4 (put (100 ∷ 111 ∷ 103 ∷ []) 5 []) }
{
    two_keys(
        rt,
        alloc,
        &Key::new_from_slice(b"dog"),
        &Key::new_from_slice(b"do"),
    )
}

// What is found at `cat`, which is inserted, and at another key.
fn put_and_found(
    rt: &impl Abort,
    tree: &mut Tree<Key>,
    other: &[u8],
) -> (Option<u64>, Option<u64>) {
    assert!(rt; other.len() <= 4);
    match laws::insert_then_get(
        tree,
        &Key::new_from_slice(b"cat"),
        6,
        &Key::new_from_slice(other),
    ) {
        Ok((found, kept)) => (found.copied(), kept.copied()),
        Err(_refused) => panic!(rt; "refused with ample memory"),
    }
}

fn cat_is_found(rt: &impl Abort, tree: &mut Tree<Key>) {
    assert_eq!(rt; put_and_found(rt, tree, b"do"), (Some(6), Some(4)));
    assert_eq!(rt; put_and_found(rt, tree, b"dog"), (Some(6), Some(5)));
    assert_eq!(rt; put_and_found(rt, tree, b"d"), (Some(6), None));
    assert_eq!(rt; tree.len(), 3);
}

#[test]
fn a_key_that_was_put_in_is_found_beside_the_others(rt: HostRuntime) {
    let mut tree = dog_and_do(&rt, rt.alloc());
    cat_is_found(&rt, &mut tree);
}

// Puts a new key into a tree and takes it out again, by the law that names a tree without the key.
fn put_and_removed(
    rt: &impl Abort,
    tree: &mut Tree<Key>,
    key: &Key,
    without_it: &Tree<Key>,
) -> Option<u64>
    requires { tree.old.pairs ≡ without_it.now.pairs }
    ensures { tree.new.pairs ≡ without_it.now.pairs }
{
    rart_keys::laws::sorted_map::<u64>();
    tree.canonical();
    if tree.get_k(key).is_some() {
        panic!(rt; "the key is not new");
    }
    store(rt, tree, key, 6);
    match laws::removal_restores(tree, key, without_it) {
        Ok(removed) => removed,
        Err(_error) => panic!(rt; "refused with ample memory"),
    }
}

fn has_dog_and_do(rt: &impl Abort, tree: &Tree<Key>, other: &Tree<Key>) {
    assert!(rt; have_same_stats(tree, other));
    assert_eq!(rt; tree.get_bytes(b"cat"), None);
    assert_eq!(rt; tree.get_bytes(b"dog"), Some(&5));
    assert_eq!(rt; tree.get_bytes(b"do"), Some(&4));
}

#[test]
fn a_new_key_removed_right_after_leaves_all_as_it_was(rt: HostRuntime) {
    let mut tree = dog_and_do(&rt, rt.alloc());
    let other = dog_and_do(&rt, rt.alloc());
    let removed = put_and_removed(&rt, &mut tree, &Key::new_from_slice(b"cat"), &other);
    has_dog_and_do(&rt, &tree, &other);
    assert_eq!(rt; removed, Some(6));
}

fn are_restored(before: &TreeStats, between: &TreeStats, after: &TreeStats) -> bool {
    is_counted(before, &[1, 2, 1, 2], &[(4, 1, 1)])
        && is_counted(between, &[2, 3, 1, 2], &[(4, 1, 2)])
        && before == after
}

// Whether the statistics after the removal of a new key are those before it; false where the key isn't new.
fn restores_stats(tree: &mut Tree<Key>, key: &Key) -> bool {
    if tree.get_k(key).is_some() {
        return false;
    }
    match laws::insert_then_remove(tree, key, 6) {
        Ok((before, between, after)) => are_restored(&before, &between, &after),
        Err(_refused) => false,
    }
}

#[test]
fn stats_before_a_new_key_are_those_after_its_removal(rt: HostRuntime) {
    let mut tree = dog_and_do(&rt, rt.alloc());
    let restored = restores_stats(&mut tree, &Key::new_from_slice(b"dot"));
    assert!(rt; restored);
}

fn are_side_by_side(
    pairs: &mut Iter<'_, Key, ArrPartial<4>, u64>,
    values: &mut ValuesIter<'_, Key, u64>,
) -> bool {
    for (bytes, value) in [(b"do".as_slice(), 4_u64), (b"dog", 5)] {
        let is_next = match pairs.next() {
            Some((key, stored)) => key.as_ref() == bytes && *stored == value,
            None => false,
        };
        if !is_next || values.next() != Some(&value) {
            return false;
        }
    }
    pairs.next().is_none() && values.next().is_none()
}

fn is_walked_side_by_side(tree: &Tree<Key>) -> bool {
    match laws::pairs_and_values(tree) {
        Ok((mut pairs, mut values)) => are_side_by_side(&mut pairs, &mut values),
        Err(_refused) => false,
    }
}

#[test]
fn pairs_and_values_are_walked_side_by_side(rt: HostRuntime) {
    let tree = dog_and_do(&rt, rt.alloc());
    assert!(rt; is_walked_side_by_side(&tree));
}

// Two trees of equal keys have equal nodes and statistics.
fn compare<K: KeyTrait, L: KeyTrait>(rt: &impl Abort, one: &Tree<K>, other: &Tree<L>)
    requires { one.now.pairs ≡ other.now.pairs }
{
    laws::equal_keys_equal_nodes(one, other);
    match laws::equal_keys_equal_stats(one, other) {
        Ok((left, right)) => {
            assert!(rt; is_counted(&left, &[1, 2, 1, 2], &[(4, 1, 1)]));
            assert!(rt; left == right);
        }
        Err(_refused) => assert!(rt; false, "refused with ample memory"),
    }
}

#[test]
fn trees_with_equal_keys_have_equal_stats(rt: HostRuntime) {
    let mut one = dog_and_do(&rt, rt.alloc());
    let other = two_keys(
        &rt,
        rt.alloc(),
        &ArrayKey::<16>::new_from_slice(b"dog"),
        &ArrayKey::<16>::new_from_slice(b"do"),
    );
    let model = dog_and_do(&rt, rt.alloc());
    let _removed = put_and_removed(&rt, &mut one, &Key::new_from_slice(b"dot"), &model);
    compare(&rt, &one, &other);
}
