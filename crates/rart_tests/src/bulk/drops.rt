//! Sorted loads of values that count their drops: a value that a later one of its key replaces is dropped once, and a
//! refused load drops each.

mod extensions;

use crate::bulk::rows::key_of;
use crate::loads::Key;
use rart::{AdaptiveRadixTree, BulkError};
use rart_test_tools::counted::Counted;
use std::alloc::{AllocError, Global};
use std::cell::Cell;
use std::test::Fail;

type Tree<'a> = AdaptiveRadixTree<Key, Counted<'a>>;

// Keys, whose values have their places as numbers; and those that stay with their numbers, or the place at which the
// load finds them unsorted.
type Row = (
    &'static [&'static str],
    Result<&'static [(&'static str, u8)], usize>,
);

static LISTS: [Row; 7] = [
    (&["a", "b"], Ok(&[("a", 0), ("b", 1)])),
    (&["a", "a", "b"], Ok(&[("a", 1), ("b", 2)])),
    (&["a", "b", "b", "b"], Ok(&[("a", 0), ("b", 3)])),
    (&["", "", "a", "b", "b"], Ok(&[("", 1), ("a", 2), ("b", 4)])),
    (&["b", "a"], Err(1)),
    (&["a", "c", "c", "b", "z"], Err(3)),
    (&["a", "a", "a", ""], Err(3)),
];

// The items of these keys, with values numbered from `first` on.
fn items<'a>(
    alloc: Global,
    texts: &[&str],
    first: u8,
    drops: &'a Cell<usize>,
) -> Result<Vec<(Key, Counted<'a>)>, AllocError> {
    let mut items = Vec::new(alloc);
    let mut number = first;
    for text in texts {
        items.push((key_of(text), Counted(number, drops)))?;
        number = number.wrapping_add(1);
    }
    Ok(items)
}

fn holds(tree: &Tree<'_>, wanted: &[(&str, u8)]) -> bool {
    for (text, number) in wanted {
        match tree.get_k(&key_of(text)) {
            Some(value) if value.0 == *number => {}
            _ => return false,
        }
    }
    tree.len() == wanted.len()
}

// Which of `many` values don't stay are dropped by the load, and each value is once the tree is.
fn is_held(tree: Tree<'_>, pairs: &[(&str, u8)], many: usize, drops: &Cell<usize>) -> bool {
    let held = holds(&tree, pairs);
    let early = drops.get();
    drop(tree);
    held && early.wrapping_add(pairs.len()) == many && drops.get() == many
}

fn is_wanted(loaded: Result<Tree<'_>, BulkError>, row: &Row, drops: &Cell<usize>) -> bool {
    let (texts, wanted) = *row;
    match loaded {
        Ok(tree) => is_held(tree, wanted.unwrap_or(&[]), texts.len(), drops) && wanted.is_ok(),
        Err(error) => {
            wanted.is_err_and(|at| error == BulkError::Unsorted { at })
                && drops.get() == texts.len()
        }
    }
}

fn row_holds(alloc: Global, row: &Row) -> Result<bool, AllocError> {
    let drops = Cell::new(0_usize);
    let loaded = Tree::bulk_load_sorted(alloc, items(alloc, row.0, 0, &drops)?);
    Ok(is_wanted(loaded, row, &drops))
}

#[test]
fn a_replaced_value_and_those_of_an_unsorted_load_are_dropped_once(
    rt: HostRuntime,
) -> Result<(), Fail> {
    let mut number = 0_usize;
    for row in &LISTS {
        assert!(rt; row_holds(rt.alloc(), row)?, "row {number}");
        number = number.wrapping_add(1);
    }
    Ok(())
}
