//! Ranges over what an iterator has left, and from and to every byte of a node.

mod ends;
mod starts;

use rart::{ArrPartial, Iter, KeyTrait, Range};
use rart_test_tools::refusals::{refuse, was_refused};
use rart_test_trees::texts::{Key, Pair, Tree, filled, is_pair, key};
use std::alloc::Global;
use std::ops::Bound;
use std::panic::Expect;

fn come_next(range: &mut Range<'_, Key, u64>, wanted: &[Pair]) -> bool {
    for (text, wanted) in wanted {
        match range.next() {
            Some((key, value)) => {
                if key.as_ref() != text.as_bytes() || *value != *wanted {
                    return false;
                }
            }
            None => return false,
        }
    }
    true
}

fn is_over(range: &mut Range<'_, Key, u64>) -> bool {
    range.next().is_none() && range.next().is_none() && range.next().is_none()
}

// The pairs are these and no others, and after the last always none.
fn gives(mut range: Range<'_, Key, u64>, wanted: &[Pair]) -> bool {
    come_next(&mut range, wanted) && is_over(&mut range)
}

const FOUR: [Pair; 4] = [("aa", 1), ("ab", 2), ("az", 3), ("b", 4)];

// What an iterator over FOUR whose first pair was taken has left before "az".
fn is_left_within(mut pairs: Iter<'_, Key, ArrPartial<16>, u64>) -> bool {
    match pairs.next() {
        Some(first) => {
            let end = Bound::Excluded(key(b"az"));
            is_pair(&first, &("aa", 1)) && gives(Range::for_iter(pairs, end), &[("ab", 2)])
        }
        None => false,
    }
}

fn continues_an_iterator(tree: &Tree) -> bool {
    match tree.iter() {
        Ok(pairs) => is_left_within(pairs) && gives(Range::empty(), &[]),
        Err(_) => false,
    }
}

#[test]
fn a_range_over_an_iterator_ends_for_good(rt: HostRuntime) {
    let tree = filled(rt.alloc(), &FOUR).expect(&rt, "a tree");
    assert!(rt; continues_an_iterator(&tree));
}

// An empty range and one over an iterator make no request.
fn makes_no_request(alloc: Global, tree: &Tree) -> bool {
    match tree.iter() {
        Ok(pairs) => {
            refuse(alloc, 1);
            gives(Range::for_iter(pairs, Bound::Unbounded), &FOUR)
                && gives(Range::empty(), &[])
                && !was_refused(alloc)
        }
        Err(_) => false,
    }
}

#[test]
fn ranges_make_no_request_where_nothing_is_walked(rt: HostRuntime) {
    let tree = filled(rt.alloc(), &FOUR).expect(&rt, "a tree");
    assert!(rt; makes_no_request(rt.alloc(), &tree));
}
