//! Values that count when they are dropped: none is lost, and none is dropped twice.
mod held;
mod prefixes;
mod ranges;

use rart::{
    AdaptiveRadixTree, ArrayKey, KeyTrait, NotInserted, Refused, TreeError, TryInsertError,
};
use rart_test_tools::counted::Counted;
use rart_test_tools::refusals::{is_swept, refuse, refuse_from, was_refused};
use std::alloc::Global;
use std::cell::Cell;

type Key = ArrayKey<4>;

type TreeOf<'a, const N: usize> = AdaptiveRadixTree<ArrayKey<N>, Counted<'a>>;

type Tree<'a> = TreeOf<'a, 4>;

// The numbers of pairs, around the borders of the kinds of nodes.
const COUNTS: [u8; 6] = [0, 1, 4, 16, 48, 255];

// The longest key that ends with this byte. A tree with keys of more than 128 bytes is dropped by other code.
fn key<const N: usize>(byte: u8) -> ArrayKey<N> {
    let mut bytes = [b'n'; N];
    if let Some(last) = bytes.last_mut() {
        *last = byte;
    }
    ArrayKey::new_from_slice(&bytes[..bytes.len().min(N)])
}

// The keys below `count`. A value that isn't stored is dropped, which its counter shows.
fn filled<'a, const N: usize>(alloc: Global, drops: &'a Cell<usize>, count: u8) -> TreeOf<'a, N> {
    let mut tree = TreeOf::new(alloc);
    for byte in 0..count {
        let _old = tree.insert(key(byte), Counted(byte, drops));
    }
    tree
}

// How many values are dropped with a tree, where none was before.
fn dropped_with<const N: usize>(tree: TreeOf<'_, N>, drops: &Cell<usize>) -> Option<usize> {
    let before = drops.get();
    drop(tree);
    (before == 0).then_some(drops.get())
}

fn dropped_of_short(alloc: Global, count: u8) -> Option<usize> {
    let drops = Cell::new(0_usize);
    let tree = filled::<4>(alloc, &drops, count);
    dropped_with(tree, &drops)
}

fn dropped_of_long(alloc: Global, count: u8) -> Option<usize> {
    let drops = Cell::new(0_usize);
    let tree = filled::<160>(alloc, &drops, count);
    dropped_with(tree, &drops)
}

#[test]
fn a_dropped_tree_drops_each_value_once(rt: HostRuntime) {
    for count in COUNTS {
        let each = Some(usize::from(count));
        assert_eq!(rt; dropped_of_short(rt.alloc(), count), each);
        assert_eq!(rt; dropped_of_long(rt.alloc(), count), each);
    }
}

fn is_cleared<const N: usize>(tree: &mut TreeOf<'_, N>, count: u8, drops: &Cell<usize>) -> bool {
    let held = drops.get() == 0 && tree.contains_key(key(0)) == (count > 0);
    tree.clear();
    held && tree.is_empty() && !tree.contains_key(key(0))
}

// Whether a tree that dropped none is cleared, how many values are then dropped, and how many once it is dropped.
fn dropped_by_clear_short(alloc: Global, count: u8) -> (bool, usize, usize) {
    let drops = Cell::new(0_usize);
    let mut tree = filled::<4>(alloc, &drops, count);
    let cleared = is_cleared(&mut tree, count, &drops);
    let early = drops.get();
    drop(tree);
    (cleared, early, drops.get())
}

fn dropped_by_clear_long(alloc: Global, count: u8) -> (bool, usize, usize) {
    let drops = Cell::new(0_usize);
    let mut tree = filled::<160>(alloc, &drops, count);
    let cleared = is_cleared(&mut tree, count, &drops);
    let early = drops.get();
    drop(tree);
    (cleared, early, drops.get())
}

#[test]
fn a_cleared_tree_drops_each_value_once_and_is_empty(rt: HostRuntime) {
    for count in COUNTS {
        let each = usize::from(count);
        let wanted = (true, each, each);
        assert_eq!(rt; dropped_by_clear_short(rt.alloc(), count), wanted);
        assert_eq!(rt; dropped_by_clear_long(rt.alloc(), count), wanted);
    }
}

// The keys of 1 to 160 equal bytes: a path of as many nodes, all but one of them inner nodes with values.
fn path<'a>(alloc: Global, drops: &'a Cell<usize>) -> TreeOf<'a, 160> {
    let bytes = [b'n'; 160];
    let mut tree = TreeOf::new(alloc);
    for length in 1..161_usize {
        let key = ArrayKey::new_from_slice(&bytes[..length]);
        let _old = tree.insert(key, Counted(length as u8, drops));
    }
    tree
}

fn dropped_of_path(alloc: Global) -> (usize, Option<usize>) {
    let drops = Cell::new(0_usize);
    let tree = path(alloc, &drops);
    let many = tree.len();
    (many, dropped_with(tree, &drops))
}

#[test]
fn a_dropped_path_of_nodes_drops_each_value_once(rt: HostRuntime) {
    assert_eq!(rt; dropped_of_path(rt.alloc()), (160, Some(160)));
}

fn thousand<'a>(alloc: Global, drops: &'a Cell<usize>) -> Tree<'a> {
    let mut tree = Tree::new(alloc);
    for number in 0..1000_usize {
        let key = Key::new_from_slice(&[(number / 256) as u8, (number % 256) as u8]);
        let _old = tree.insert(key, Counted((number % 256) as u8, drops));
    }
    tree
}

// How many of a thousand keys of two bytes a tree has, and how many values are dropped with it.
fn dropped_of_thousand(alloc: Global) -> (usize, Option<usize>) {
    let drops = Cell::new(0_usize);
    let tree = thousand(alloc, &drops);
    let many = tree.len();
    (many, dropped_with(tree, &drops))
}

#[test]
fn a_dropped_tree_of_a_thousand_keys_drops_each_value_once(rt: HostRuntime) {
    assert_eq!(rt; dropped_of_thousand(rt.alloc()), (1000, Some(1000)));
}

/// A call, with the number of the value that it offers.
#[derive(Clone, Copy)]
enum Ask {
    Insert(u8, u8),
    TryInsert(u8, u8),
    InsertNew(u8, u8),
    Remove(u8),
    Delete(u8),
    PopFirst,
    PopLast,
}

// The number of the value that is returned, and how many are dropped once that one is.
type Row = (Ask, Option<u8>, usize);

// The value that a call returns.
fn handed<'a>(tree: &mut Tree<'a>, ask: Ask, drops: &'a Cell<usize>) -> Option<Counted<'a>> {
    match ask {
        Ask::Insert(byte, number) => match tree.insert(key(byte), Counted(number, drops)) {
            Ok(old) => old,
            Err(refused) => Some(refused.value),
        },
        Ask::TryInsert(byte, number) => match tree.try_insert(key(byte), Counted(number, drops)) {
            Ok(()) => None,
            Err(TryInsertError::Occupied(back, _stored)) => Some(back),
            Err(TryInsertError::Refused(refused)) => Some(refused.value),
        },
        Ask::InsertNew(byte, number) => match tree.insert_new(key(byte), Counted(number, drops)) {
            Ok(()) => None,
            Err(NotInserted::Stored(back)) => Some(back),
            Err(NotInserted::Refused(refused)) => Some(refused.value),
        },
        Ask::Remove(byte) => match tree.remove(key(byte)) {
            Ok(value) => value,
            Err(_refused) => None,
        },
        Ask::Delete(byte) => {
            let _answer = tree.delete(key(byte));
            None
        }
        Ask::PopFirst => match tree.pop_first() {
            Ok(Some((_key, value))) => Some(value),
            _ => None,
        },
        Ask::PopLast => match tree.pop_last() {
            Ok(Some((_key, value))) => Some(value),
            _ => None,
        },
    }
}

fn row_holds<'a>(tree: &mut Tree<'a>, row: &Row, drops: &'a Cell<usize>) -> bool {
    let before = drops.get();
    let value = handed(tree, row.0, drops);
    let number = value.as_ref().map(|value| value.0);
    let held = usize::from(value.is_some());
    let early = drops.get();
    drop(value);
    number == row.1
        && drops.get() == row.2
        && (early == before || held == 0)
        && early.wrapping_add(held) == row.2
}

static HANDED_AND_DROPPED: [Row; 14] = [
    (Ask::Insert(3, 99), Some(3), 1),
    (Ask::Insert(9, 9), None, 1),
    (Ask::TryInsert(3, 98), Some(98), 2),
    (Ask::TryInsert(10, 10), None, 2),
    (Ask::InsertNew(3, 97), Some(97), 3),
    (Ask::InsertNew(11, 11), None, 3),
    (Ask::Remove(3), Some(99), 4),
    (Ask::Remove(3), None, 4),
    (Ask::Delete(4), None, 5),
    (Ask::Delete(4), None, 5),
    (Ask::Delete(11), None, 6),
    (Ask::Remove(0), Some(0), 7),
    (Ask::PopFirst, Some(1), 8),
    (Ask::PopLast, Some(10), 9),
];

fn first_wrong<'a>(tree: &mut Tree<'a>, drops: &'a Cell<usize>) -> Option<usize> {
    let mut at = 0_usize;
    for row in &HANDED_AND_DROPPED {
        if !row_holds(tree, row, drops) {
            return Some(at);
        }
        at = at.wrapping_add(1);
    }
    None
}

// Five values before the rows. The first row that fails, how many values are left, and how many are dropped in all.
fn handed_and_dropped(alloc: Global) -> (Option<usize>, usize, usize) {
    let drops = Cell::new(0_usize);
    let mut tree = filled::<4>(alloc, &drops, 5);
    let wrong = first_wrong(&mut tree, &drops);
    let left = tree.len();
    drop(tree);
    (wrong, left, drops.get())
}

#[test]
fn each_value_is_handed_out_or_back_or_dropped_once(rt: HostRuntime) {
    assert_eq!(rt; handed_and_dropped(rt.alloc()), (None, 2, 11));
}

type Inserted<'a> = Result<Option<Counted<'a>>, Refused<Counted<'a>>>;

// Whether the value of a refused insertion is returned and not dropped.
fn is_handed_back(answer: Inserted<'_>, refused: bool, drops: &Cell<usize>) -> bool {
    match answer {
        Ok(old) => !refused && old.is_none() && drops.get() == 0,
        Err(back) => {
            let is_whole = back.error == TreeError::Memory && back.value.0 == 4;
            let early = drops.get();
            drop(back);
            refused && is_whole && early == 0 && drops.get() == 1
        }
    }
}

// An insertion that makes the node grow returns the value where it is refused. `None` where something else failed.
fn insert_refused(alloc: Global, at: usize) -> Option<bool> {
    let drops = Cell::new(0_usize);
    let mut tree = filled::<4>(alloc, &drops, 4);
    refuse(alloc, at);
    let answer = tree.insert(key(4), Counted(4, &drops));
    let refused = was_refused(alloc);
    let well = is_handed_back(answer, refused, &drops);
    drop(tree);
    (well && drops.get() == 5).then_some(refused)
}

#[test]
fn a_value_refused_in_turn_is_handed_back(rt: HostRuntime) {
    for at in 1..100_usize {
        match insert_refused(rt.alloc(), at) {
            Some(true) => {}
            Some(false) => return,
            None => assert!(rt; false, "request {at}"),
        }
    }
    assert!(rt; false, "refused for ever");
}

// A removal that makes the node shrink, with its request refused: nothing is dropped.
fn remove_refused(alloc: Global, at: usize) -> Option<bool> {
    let drops = Cell::new(0_usize);
    let mut tree = filled::<4>(alloc, &drops, 5);
    refuse(alloc, at);
    let answer = tree.delete(key(2));
    let refused = was_refused(alloc);
    let well = match answer {
        Ok(found) => found && !refused && drops.get() == 1,
        Err(error) => refused && error == TreeError::Memory && drops.get() == 0,
    };
    drop(tree);
    (well && drops.get() == 5).then_some(refused)
}

#[test]
fn a_deletion_refused_in_turn_drops_nothing(rt: HostRuntime) {
    for at in 1..100_usize {
        match remove_refused(rt.alloc(), at) {
            Some(true) => {}
            Some(false) => return,
            None => assert!(rt; false, "request {at}"),
        }
    }
    assert!(rt; false, "refused for ever");
}

// How many values an append drops, with the keys below these numbers; `None` where it fails or moves not all.
fn dropped_by_append<'a>(
    into: &mut Tree<'a>,
    from: &mut Tree<'a>,
    most: usize,
    drops: &Cell<usize>,
) -> Option<usize> {
    let done = into.append(from).is_ok();
    (done && from.is_empty() && into.len() == most).then_some(drops.get())
}

// The same, and how many are dropped with both trees.
fn dropped_around_append(alloc: Global, into: u8, from: u8) -> (Option<usize>, usize) {
    let drops = Cell::new(0_usize);
    let (mut one, mut other) = (
        filled::<4>(alloc, &drops, into),
        filled::<4>(alloc, &drops, from),
    );
    let most = usize::from(into.max(from));
    let early = dropped_by_append(&mut one, &mut other, most, &drops);
    drop(one);
    drop(other);
    (early, drops.get())
}

#[test]
fn an_append_drops_the_old_values_of_shared_keys_once(rt: HostRuntime) {
    for (into, from) in [(0_u8, 5_u8), (5, 0), (5, 5), (4, 17), (49, 5), (255, 50)] {
        let shared = usize::from(into.min(from));
        let all = usize::from(into).wrapping_add(usize::from(from));
        assert_eq!(rt;
            dropped_around_append(rt.alloc(), into, from),
            (Some(shared), all)
        );
    }
}

// An append with this request and all after it refused: each of the values is stored, held or dropped.
fn are_all_kept<'a>(
    alloc: Global,
    at: usize,
    into: &mut Tree<'a>,
    from: &mut Tree<'a>,
    all: usize,
    drops: &Cell<usize>,
) -> Option<bool> {
    refuse_from(alloc, at);
    let result = into.append(from);
    let was = was_refused(alloc);
    let (is_right, held) = match &result {
        Ok(()) => (!was, 0_usize),
        Err(refused) => (was, usize::from(refused.value.is_some())),
    };
    let early = drops.get();
    drop(result);
    let kept = into.len().wrapping_add(from.len()).wrapping_add(held);
    (is_right
        && early.wrapping_add(kept) == all
        && drops.get() == early.wrapping_add(held)).then_some(was)
}

// Whether a request was refused; `None` where something else failed.
fn append_refused(alloc: Global, at: usize) -> Option<bool> {
    let drops = Cell::new(0_usize);
    let (mut one, mut other) = (
        filled::<4>(alloc, &drops, 3),
        filled::<4>(alloc, &drops, 50),
    );
    let refused = are_all_kept(alloc, at, &mut one, &mut other, 53, &drops);
    drop(one);
    drop(other);
    if drops.get() == 53 { refused } else { None }
}

#[test]
fn an_append_refused_in_turn_drops_each_value_once(rt: HostRuntime) {
    let alloc = rt.alloc();
    assert!(rt; is_swept(alloc, |at| append_refused(alloc, at)));
}
