//! Values that the callback of `retain` does not keep are dropped once.

use rart_test_tools::counted::Counted;
use rart_test_trees::texts::{Key, key};
use std::alloc::Global;
use std::cell::Cell;

type Counting<'a> = rart::AdaptiveRadixTree<Key, Counted<'a>>;

fn counting<'a>(alloc: Global, drops: &'a Cell<usize>, count: u8) -> Counting<'a> {
    let mut tree = Counting::new(alloc);
    for byte in 0..count {
        let _old = tree.insert(key(&[b'n', byte]), Counted(byte, drops));
    }
    tree
}

// The first half is not kept.
fn keep_half(tree: &mut Counting<'_>, count: u8) -> bool {
    tree.retain(|_key: &[u8], value: &mut Counted<'_>| value.0 >= count / 2)
        .is_ok()
}

// How many values are dropped by the call, and once the tree is dropped.
fn dropped(alloc: Global, count: u8) -> Option<(usize, usize)> {
    let drops = Cell::new(0_usize);
    let mut tree = counting(alloc, &drops, count);
    let well = keep_half(&mut tree, count);
    let early = drops.get();
    drop(tree);
    well.then_some((early, drops.get()))
}

#[test]
fn each_value_that_is_not_kept_is_dropped_once(rt: HostRuntime) {
    for count in [0_u8, 1, 2, 5, 17, 49, 255] {
        let each = usize::from(count);
        assert_eq!(rt; dropped(rt.alloc(), count), Some((each / 2, each)));
    }
}
