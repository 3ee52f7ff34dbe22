//! Unions and differences of trees of two value types, and merges of values that count their drops. The rows are in
//! `tests/two_trees`.

mod drops;

use rart::laws::unions::{differences, unions};
use rart::{AdaptiveRadixTree, KeyTrait, UnionIter};
use rart_test_trees::texts::{Key, Tree, filled, key};
use std::alloc::Global;
use std::panic::Expect;

/// A value of another type than a number.
#[derive(Clone, Copy, Drop, PartialEq, Eq)]
enum Name {
    Two,
    Three,
    Four,
}

type Names = AdaptiveRadixTree<Key, Name>;

// The keys "ab", "b" and "c".
fn names(alloc: Global) -> Option<Names> {
    let mut names = Names::new(alloc);
    for (text, name) in [
        (b"ab".as_slice(), Name::Two),
        (b"b", Name::Three),
        (b"c", Name::Four),
    ] {
        if !matches!(names.insert(key(text), name), Ok(None)) {
            return None;
        }
    }
    Some(names)
}

// A key of either tree, with its value in each.
type Triple = (&'static [u8], Option<u64>, Option<Name>);

// Those of "", "ab" and "b" as numbers, and of the names.
static WANTED: [Triple; 4] = [
    (b"", Some(1), None),
    (b"ab", Some(2), Some(Name::Two)),
    (b"b", Some(3), Some(Name::Three)),
    (b"c", None, Some(Name::Four)),
];

// Whether the item of this number is the wanted one.
fn is_wanted(at: usize, key: &Key, number: Option<u64>, name: Option<Name>) -> bool {
    match WANTED.get(at) {
        Some(triple) => key.as_ref() == triple.0 && number == triple.1 && name == triple.2,
        None => false,
    }
}

// How many items come before the first that isn't wanted.
fn first_wrong(pairs: &mut UnionIter<'_, Key, u64, Name>) -> usize {
    let mut at = 0_usize;
    while let Some((key, number, name)) = pairs.next() {
        if !is_wanted(at, &key, number.copied(), name.copied()) {
            return at;
        }
        at = at.wrapping_add(1);
    }
    at
}

fn gives_either(numbers: &Tree, names: &Names) -> bool {
    let mut at = 0_usize;
    let mut is_right = true;
    let walked = numbers.union_with(
        names,
        |key: Key, number: Option<&u64>, name: Option<&Name>| {
            is_right = is_right && is_wanted(at, &key, number.copied(), name.copied());
            at = at.wrapping_add(1);
        },
    );
    walked == Ok(()) && is_right && at == WANTED.len()
}

fn is_iterated(numbers: &Tree, names: &Names) -> bool {
    match numbers.union_iter(names) {
        Ok(mut pairs) => first_wrong(&mut pairs) == WANTED.len(),
        Err(_memory) => false,
    }
}

// The first key of the one tree that the other hasn't, of these it is the only one.
fn has_alone<V, W>(
    one: &AdaptiveRadixTree<Key, V>,
    other: &AdaptiveRadixTree<Key, W>,
    wanted: &[u8],
) -> bool {
    match one.difference_iter(other) {
        Ok(mut pairs) => match pairs.next() {
            Some((key, _value)) => key.as_ref() == wanted && pairs.next().is_none(),
            None => false,
        },
        Err(_memory) => false,
    }
}

#[test]
fn values_of_two_types(rt: HostRuntime) {
    let numbers = filled(rt.alloc(), &[("", 1), ("ab", 2), ("b", 3)]).expect(&rt, "numbers");
    let names = names(rt.alloc()).expect(&rt, "names");
    unions::<u64, Name>();
    differences::<u64, Name>();
    assert!(rt; gives_either(&numbers, &names));
    assert!(rt; is_iterated(&numbers, &names));
    assert!(rt; has_alone(&numbers, &names, b""));
    assert!(rt; has_alone(&names, &numbers, b"c"));
}
