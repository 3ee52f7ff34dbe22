//! Intersections of nodes of every two capacities, key by key, and of trees whose values have two types.

use rart::{AdaptiveRadixTree, KeyTrait};
use rart_test_trees::texts::{Key, Tree, filled};
use std::alloc::Global;
use std::cell::Cell;
use std::panic::Expect;

// Inserts the byte of each multiple, with itself as the value.
fn insert_multiples(tree: &mut Tree, of: u8) -> bool {
    for byte in 0..=255_u8 {
        if byte.checked_rem(of) == Some(0)
            && !matches!(
                tree.insert(Key::new_from_slice(&[byte]), u64::from(byte)),
                Ok(None)
            )
        {
            return false;
        }
    }
    true
}

// A node with a child at each byte that the number divides.
fn multiples(alloc: Global, of: u8) -> Option<Tree> {
    let mut tree = Tree::new(alloc);
    if insert_multiples(&mut tree, of) {
        Some(tree)
    } else {
        None
    }
}

// The next number that both divide, from this one on; 256 after the last one, and a number above that stays.
fn next_multiple(from: usize, one: u8, other: u8) -> usize {
    for number in from..256_usize {
        if number.checked_rem(usize::from(one)) == Some(0)
            && number.checked_rem(usize::from(other)) == Some(0)
        {
            return number;
        }
    }
    from.max(256)
}

// The number after this one where the key is its byte and both values are it; and else one past all.
fn after(number: usize, key: &[u8], left: u64, right: u64) -> usize {
    match key {
        [byte] if usize::from(*byte) == number && left == u64::from(*byte) && right == left => {
            number.wrapping_add(1)
        }
        _ => 1000,
    }
}

// Whether exactly the multiples of both are given, in order.
fn gives_multiples_of_both(left: &Tree, right: &Tree, one: u8, other: u8) -> bool {
    let next = Cell::new(next_multiple(0, one, other));
    let answer = left.intersect_with(right, |key: Key, left: &u64, right: &u64| {
        let number = after(next.get(), key.as_ref(), *left, *right);
        next.set(next_multiple(number, one, other));
    });
    answer == Ok(()) && next.get() == 256
}

// Of 1 there are 256 children, of 6 there are 43, of 17 sixteen, and of 64 four.
const STEPS: [u8; 4] = [1, 6, 17, 64];

fn gives_beside(alloc: Global, left: &Tree, one: u8, other: u8) -> bool {
    match multiples(alloc, other) {
        Some(right) => gives_multiples_of_both(left, &right, one, other),
        None => false,
    }
}

// The first capacity beside which a node fails, if there is one.
fn first_wrong_beside(alloc: Global, left: &Tree, one: u8) -> Option<u8> {
    for other in STEPS {
        if !gives_beside(alloc, left, one, other) {
            return Some(other);
        }
    }
    None
}

#[test]
fn nodes_of_every_two_capacities(rt: HostRuntime) {
    for one in STEPS {
        let left = multiples(rt.alloc(), one).expect(&rt, "a tree");
        assert_eq!(rt; first_wrong_beside(rt.alloc(), &left, one), None, "{one}");
    }
}

// Whether 18 children of both are given from both sides.
fn gives_both_ways(alloc: Global, thirds: &Tree) -> bool {
    match multiples(alloc, 5) {
        Some(fifths) => {
            gives_multiples_of_both(thirds, &fifths, 3, 5)
                && gives_multiples_of_both(&fifths, thirds, 5, 3)
                && thirds.intersect_count(&fifths) == 18
        }
        None => false,
    }
}

#[test]
fn a_node_that_has_more_and_fewer_children_than_another(rt: HostRuntime) {
    let thirds = multiples(rt.alloc(), 3).expect(&rt, "a tree");
    assert!(rt; gives_both_ways(rt.alloc(), &thirds));
}

/// A value of another type than a number.
#[derive(Clone, Copy, Drop)]
enum Name {
    Two,
    Three,
    Four,
}

type Names = AdaptiveRadixTree<Key, Name>;

fn insert_names(tree: &mut Names, pairs: &[(&'static str, Name)]) -> bool {
    for (text, name) in pairs {
        let bytes = text.as_bytes();
        if bytes.len() > 16 || !matches!(tree.insert(Key::new_from_slice(bytes), *name), Ok(None)) {
            return false;
        }
    }
    true
}

// Once, if the name is that of the number, and else 100.
fn named(number: u64, name: Name) -> usize {
    match (number, name) {
        (2, Name::Two) | (3, Name::Three) => 1,
        _ => 100,
    }
}

// The same, where the key is that of the number too.
fn named_at(key: &[u8], number: u64, name: Name) -> usize {
    match (key, number) {
        (b"b", 2) | (b"bc", 3) => named(number, name),
        _ => 100,
    }
}

fn intersects_names(numbers: &Tree, names: &Names) -> bool {
    let many = Cell::new(0_usize);
    let one_way = numbers.intersect_with(names, |key: Key, number: &u64, name: &Name| {
        let times = named_at(key.as_ref(), *number, *name);
        many.set(many.get().wrapping_add(times));
    });
    let with_keys = many.get();
    numbers.intersect_values_with(names, |number: &u64, name: &Name| {
        many.set(many.get().wrapping_add(named(*number, *name)));
    });
    let with_values = many.get();
    names.intersect_values_with(numbers, |name: &Name, number: &u64| {
        many.set(many.get().wrapping_add(named(*number, *name)));
    });
    one_way == Ok(())
        && with_keys == 2
        && with_values == 4
        && many.get() == 6
        && numbers.intersect_count(names) == 2
}

static NAMES: [(&str, Name); 3] = [("b", Name::Two), ("bc", Name::Three), ("c", Name::Four)];

#[test]
fn trees_of_two_value_types(rt: HostRuntime) {
    let numbers = filled(rt.alloc(), &[("a", 1), ("b", 2), ("bc", 3)]).expect(&rt, "a tree");
    let mut named = Names::new(rt.alloc());
    let well = insert_names(&mut named, &NAMES) && intersects_names(&numbers, &named);
    assert!(rt; well);
}
