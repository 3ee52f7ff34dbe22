//! The sizes of maps and of what they allocate, in one request each.

use rart_maps::mapping::{DirectMapping, IndexedMapping, SortedKeyedMapping};
use rart_parts::utils::bitset::Bitset64;
use rart_test_tools::refusals::{add_bytes, part_ends, refuse, was_refused, were_more};
use std::alloc::Global;
use std::mem::size_of;

type Place = [u64; 3];

type Sorted4 = SortedKeyedMapping<Place, 4, Option<u64>>;

type Sorted16 = SortedKeyedMapping<Place, 16, Option<u64>>;

type Indexed48 = IndexedMapping<Place, 48, Bitset64<1>, Option<u64>>;

type Direct = DirectMapping<Place, Option<u64>>;

// Whether a map is one pointer, and what it requests has at most that many bytes.
macro_rules! is_within {
    ($map:ty, $alloc:expr, $bytes:expr) => {{
        add_bytes($alloc, $bytes);
        let made = <$map>::with_extra($alloc, Some(7)).is_ok();
        made && !were_more($alloc) && size_of::<$map>() == size_of::<usize>()
    }};
}

fn sorted(alloc: Global) -> bool {
    is_within!(Sorted4, alloc, 24 + 4 * 24) && is_within!(Sorted16, alloc, 40 + 16 * 24)
}

fn wide(alloc: Global) -> bool {
    is_within!(Indexed48, alloc, 360 + 48 * 24) && is_within!(Direct, alloc, 56 + 256 * 24)
}

#[test]
fn each_map_is_one_pointer_and_its_requests_within_its_size(rt: HostRuntime) {
    let alloc = rt.alloc();
    assert!(rt; sorted(alloc) && wide(alloc));
}

// Whether a map makes one request, and returns the extra value if that is refused.
macro_rules! asks_once {
    ($map:ty, $alloc:expr) => {{
        refuse($alloc, 1);
        let first = <$map>::with_extra($alloc, Some(7));
        let was = was_refused($alloc);
        let well = match first {
            Ok(_) => !was,
            Err(extra) => was && extra == Some(7),
        };
        refuse($alloc, 2);
        let made = <$map>::with_extra($alloc, Some(7)).is_ok();
        let more = was_refused($alloc);
        part_ends($alloc);
        well && made && !more
    }};
}

fn each_asks_once(alloc: Global) -> bool {
    asks_once!(Sorted4, alloc)
        && asks_once!(Sorted16, alloc)
        && asks_once!(Indexed48, alloc)
        && asks_once!(Direct, alloc)
}

#[test]
fn a_map_that_is_refused_in_turn_returns_its_extra_value(rt: HostRuntime) {
    assert!(rt; each_asks_once(rt.alloc()));
}
