//! Lists of calls that `vec!` makes: `?` converts its error to a `TreeError`.

use rart::script::{Call, Reply, run};
use rart::{AdaptiveRadixTree, ArrayKey, Error, KeyTrait, TreeError};
use std::alloc::Global;

type Key = ArrayKey<4>;

type Tree = AdaptiveRadixTree<Key, u64>;

fn last_length(replies: &[Reply<Key, u64>]) -> Option<usize> {
    match replies.last() {
        Some(Reply::Len(many)) => Some(*many),
        _ => None,
    }
}

// What the last of three calls replies, where it replies a length.
fn length_after_two(alloc: Global, tree: &mut Tree) -> Result<Option<usize>, TreeError> {
    let calls = vec![in alloc;
        Call::Insert(Key::new_from_slice(b"b"), 1),
        Call::TryInsert(Key::new_from_slice(b"b"), 3),
        Call::Len,
    ]?;
    let replies = run(alloc, tree, calls)?;
    Ok(last_length(&replies))
}

fn length_after_two_insertions(alloc: Global) -> Result<Option<usize>, TreeError> {
    let mut tree = Tree::new(alloc);
    length_after_two(alloc, &mut tree)
}

#[test]
fn a_list_of_calls_is_made_by_vec(rt: HostRuntime) {
    assert!(rt; matches!(length_after_two_insertions(rt.alloc()), Ok(Some(1))));
}

// Every call's error converts to the one of the crate; the last call offers a stored key.
fn insert_twice(tree: &mut Tree) -> Result<(), Error> {
    tree.insert_k(&Key::new_from_slice(b"b"), 2)?;
    tree.remove_k(&Key::new_from_slice(b"a"))?;
    tree.insert_new_k(&Key::new_from_slice(b"b"), 3)?;
    Ok(())
}

fn inserted_twice(alloc: Global) -> Result<(), Error> {
    let items = vec![in alloc; (Key::new_from_slice(b"a"), 1_u64)]?;
    let mut tree = Tree::bulk_load_sorted(alloc, items)?;
    insert_twice(&mut tree)
}

#[test]
fn every_error_converts_to_the_one_of_the_crate(rt: HostRuntime) {
    assert!(rt; matches!(inserted_twice(rt.alloc()), Err(Error::Occupied)));
}
