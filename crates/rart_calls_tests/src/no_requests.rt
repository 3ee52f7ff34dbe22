//! Calls that may not allocate: the library that refuses memory reports one that does.

use rart::script::run;
use rart::{AdaptiveRadixTree, ArrayKey};
use rart_test_tools::refusals::{refuse, was_refused};
use std::alloc::Global;

type Tree = AdaptiveRadixTree<ArrayKey<4>, u64>;

fn replies_nothing(alloc: Global, tree: &mut Tree) -> bool {
    match run(alloc, tree, Vec::new(alloc)) {
        Ok(replies) => replies.is_empty(),
        Err(_refused) => false,
    }
}

fn no_calls_are_quiet(alloc: Global) -> bool {
    let mut tree = Tree::new(alloc);
    refuse(alloc, 1);
    let nothing = replies_nothing(alloc, &mut tree);
    !was_refused(alloc) && nothing
}

#[test]
fn a_run_of_no_calls_makes_no_request(rt: HostRuntime) {
    assert!(rt; no_calls_are_quiet(rt.alloc()));
}
