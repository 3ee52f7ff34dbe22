//! Pairs by value: each value is dropped once.

use rart::{AdaptiveRadixTree, ArrayKey, IntoPairs, KeyTrait};
use rart_test_tools::counted::Counted;
use std::alloc::Global;
use std::cell::Cell;

type Counts<'a> = AdaptiveRadixTree<ArrayKey<1>, Counted<'a>>;

fn counts<'a>(alloc: Global, drops: &'a Cell<usize>, count: u8) -> Counts<'a> {
    let mut tree = Counts::new(alloc);
    for byte in 0..count {
        let _old = tree.insert(ArrayKey::new_from_slice(&[byte]), Counted(byte, drops));
    }
    tree
}

fn take(pairs: &mut IntoPairs<ArrayKey<1>, Counted<'_>>, most: usize) {
    for _ in 0..most {
        let _pair = pairs.next();
    }
}

// How many values are dropped once `most` pairs are taken, and once the others are dropped.
fn dropped(alloc: Global, count: u8, most: usize) -> Option<(usize, usize)> {
    let drops = Cell::new(0_usize);
    match counts(alloc, &drops, count).into_pairs() {
        Ok(mut pairs) => {
            take(&mut pairs, most);
            let early = drops.get();
            drop(pairs);
            Some((early, drops.get()))
        }
        Err(_) => None,
    }
}

// How many pairs there are and how many are taken, and how many values are dropped then and at the end.
static DROPS: [(u8, usize, usize, usize); 7] = [
    (0, 1, 0, 0),
    (1, 1, 1, 1),
    (5, 0, 0, 5),
    (5, 2, 2, 5),
    (5, 9, 5, 5),
    (48, 20, 20, 48),
    (255, 100, 100, 255),
];

#[test]
fn each_value_of_pairs_by_value_is_dropped_once(rt: HostRuntime) {
    for (count, most, early, late) in &DROPS {
        assert_eq!(rt; dropped(rt.alloc(), *count, *most), Some((*early, *late)));
    }
}
