//! Keys made of texts and numbers.

use rart::script::{Call, Reply, step};
use rart::{AdaptiveRadixTree, ArrayKey};
use std::alloc::Global;

type Key = ArrayKey<16>;

type Tree = AdaptiveRadixTree<Key, u64>;

// How many keys a walk below the prefix gives.
fn count_below(tree: &Tree, prefix: &Key) -> Option<usize> {
    tree.prefix_values_fold_k(prefix, 0_usize, |count, _value| count.wrapping_add(1))
        .ok()
}

fn cat_begins_no_other(tree: &mut Tree) -> bool {
    let cat = Key::new_from_str_terminated("cat");
    tree.insert_k(&cat, 1).is_ok()
        && tree
            .insert_k(&Key::new_from_str_terminated("catalog"), 2)
            .is_ok()
        && count_below(tree, &cat) == Some(1)
        && count_below(tree, &Key::new_from_str("cat")) == Some(2)
}

fn is_terminated(alloc: Global) -> bool {
    let mut tree = Tree::new(alloc);
    cat_begins_no_other(&mut tree)
}

#[test]
fn a_terminated_text_begins_no_other(rt: HostRuntime) {
    assert!(rt; is_terminated(rt.alloc()));
}

fn are_put(tree: &mut Tree, pairs: &[(Key, u64)]) -> bool {
    for (key, value) in pairs {
        if !matches!(tree.insert(*key, *value), Ok(None)) {
            return false;
        }
    }
    true
}

fn are_found(tree: &Tree, pairs: &[(Key, u64)]) -> bool {
    for (key, value) in pairs {
        if tree.get_k(key) != Some(value) {
            return false;
        }
    }
    true
}

fn gives(alloc: Global, tree: &mut Tree, walked: &[(Key, u64)]) -> bool {
    match step(alloc, tree, Call::Iter) {
        Reply::Pairs(found) => found.as_slice() == walked,
        _ => false,
    }
}

// Whether the keys are inserted with their values, each is found, and a walk gives them in this order.
fn are_walked(alloc: Global, put: &[(Key, u64)], walked: &[(Key, u64)]) -> bool {
    let mut tree = Tree::new(alloc);
    are_put(&mut tree, put) && are_found(&tree, put) && gives(alloc, &mut tree, walked)
}

#[test]
fn signed_bytes_come_in_their_order(rt: HostRuntime) {
    let pair = |number: i8, value: u64| (Key::from_i8(number), value);
    let put = [pair(0, 0), pair(127, 1), pair(-128, 2), pair(-1, 3)];
    let walked = [pair(-128, 2), pair(-1, 3), pair(0, 0), pair(127, 1)];
    assert!(rt; are_walked(rt.alloc(), &put, &walked));
}

#[test]
fn numbers_keep_their_values(rt: HostRuntime) {
    let pair = |number: i32, value: u64| (Key::from_i32(number), value);
    let put = [pair(500, 3), pair(666, 2), pair(1, 1)];
    let walked = [pair(1, 1), pair(500, 3), pair(666, 2)];
    assert!(rt; are_walked(rt.alloc(), &put, &walked));
}
