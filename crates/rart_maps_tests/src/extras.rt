//! The extra value of a map, which edits of its children keep.

use crate::mappings::add;
use rart_maps::mapping::{DirectMapping, IndexedMapping, NodeMapping, SortedKeyedMapping};
use rart_parts::utils::bitset::Bitset64;
use std::alloc::Global;

// Whether a map keeps an extra value while children come and go, and children while the extra value changes.
macro_rules! keeps_extra {
    ($map:ty, $alloc:expr) => {{
        match <$map>::with_extra($alloc, Some(1)) {
            Ok(mut map) => {
                let added = add(&mut map, 7, 70) && add(&mut map, 5, 50) && add(&mut map, 255, 9);
                let kept = *map.extra() == Some(1);
                let old = map.extra_mut().replace(2);
                let child = map.delete_child(7);
                let taken = map.extra_mut().take();
                let rest = (map.delete_child(5), map.delete_child(255));
                *map.extra_mut() = Some(3);
                added
                    && kept
                    && old == Some(1)
                    && child == Some(70)
                    && taken == Some(2)
                    && rest == (Some(50), Some(9))
                    && map.num_children() == 0
                    && *map.extra() == Some(3)
            }
            Err(_) => false,
        }
    }};
}

fn sorted(alloc: Global) -> bool {
    keeps_extra!(SortedKeyedMapping<u8, 4, Option<u64>>, alloc)
}

fn indexed(alloc: Global) -> bool {
    keeps_extra!(IndexedMapping<u8, 48, Bitset64<1>, Option<u64>>, alloc)
}

fn direct(alloc: Global) -> bool {
    keeps_extra!(DirectMapping<u8, Option<u64>>, alloc)
}

#[test]
fn edits_of_children_keep_the_extra_value(rt: HostRuntime) {
    let alloc = rt.alloc();
    assert!(rt; sorted(alloc) && indexed(alloc) && direct(alloc));
}
