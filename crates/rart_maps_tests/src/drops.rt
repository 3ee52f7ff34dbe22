//! What maps drop, and in which order.

use rart_block::Block;
use rart_maps::mapping::{
    DirectMapping, FourKeys, IndexedMapping, NodeMapping, SortedKeyedMapping,
};
use rart_parts::utils::bitset::Bitset64;
use std::alloc::Global;
use std::cell::Cell;

/// A value that adds its digit to a number when it is dropped.
struct Digit<'a>(u64, &'a Cell<u64>);

impl Drop for Digit<'_> {
    fn drop(self) {
        let Digit(digit, number) = self;
        number.set(number.get().wrapping_mul(10).wrapping_add(digit));
    }
}

// Adds children with the digits 1, 2 and 3 at the bytes 9, 0 and 255. No function does so: the checker states no loan
// of a map to one that is generic in the map, where a child has a lifetime.
macro_rules! fill {
    ($map:expr, $number:expr) => {
        $map.add_child(9, Digit(1, $number));
        if $map.seek_child(0).is_none() && $map.num_children() == 1 {
            $map.add_child(0, Digit(2, $number));
        }
        if $map.seek_child(255).is_none() && $map.num_children() == 2 {
            $map.add_child(255, Digit(3, $number));
        }
    };
}

// The digits in the order in which they are dropped: those of the children, and 4 of the extra value.
macro_rules! dropped {
    ($map:ty, $alloc:expr) => {{
        let number = Cell::new(0_u64);
        match <$map>::with_extra($alloc, Digit(4, &number)) {
            Ok(mut map) => {
                fill!(map, &number);
                let is_kept = number.get() == 0;
                drop(map);
                if is_kept { number.get() } else { 0 }
            }
            Err(_) => 0,
        }
    }};
}

fn sorted(alloc: Global) -> u64 {
    dropped!(SortedKeyedMapping<Digit<'_>, 4, Digit<'_>>, alloc)
}

fn indexed(alloc: Global) -> u64 {
    dropped!(IndexedMapping<Digit<'_>, 48, Bitset64<1>, Digit<'_>>, alloc)
}

fn direct(alloc: Global) -> u64 {
    dropped!(DirectMapping<Digit<'_>, Digit<'_>>, alloc)
}

// The last slot is dropped first, but the direct map begins with the least byte; the extra value is last.
#[test]
fn children_are_dropped_before_the_extra_value(rt: HostRuntime) {
    let alloc = rt.alloc();
    assert!(rt; sorted(alloc) == 3124);
    assert!(rt; indexed(alloc) == 3214);
    assert!(rt; direct(alloc) == 2134);
}

// The number before a map without a child is freed, after it, and after the drop of the extra value.
macro_rules! freed {
    ($map:ty, $alloc:expr) => {{
        let number = Cell::new(0_u64);
        match <$map>::with_extra($alloc, Digit(4, &number)) {
            Ok(mut map) => {
                fill!(map, &number);
                drop((map.delete_child(9), map.delete_child(0)));
                drop(map.delete_child(255));
                let before = number.get();
                if map.num_children() != 0 {
                    return (0, 0, 0);
                }
                let extra = map.destroy_empty();
                let after = number.get();
                drop(extra);
                (before, after, number.get())
            }
            Err(_) => (0, 0, 0),
        }
    }};
}

fn sorted_freed(alloc: Global) -> (u64, u64, u64) {
    freed!(SortedKeyedMapping<Digit<'_>, 4, Digit<'_>>, alloc)
}

fn indexed_freed(alloc: Global) -> (u64, u64, u64) {
    freed!(IndexedMapping<Digit<'_>, 48, Bitset64<1>, Digit<'_>>, alloc)
}

fn direct_freed(alloc: Global) -> (u64, u64, u64) {
    freed!(DirectMapping<Digit<'_>, Digit<'_>>, alloc)
}

#[test]
fn a_freed_map_returns_its_extra_value(rt: HostRuntime) {
    let alloc = rt.alloc();
    assert!(rt; sorted_freed(alloc) == (123, 123, 1234));
    assert!(rt; indexed_freed(alloc) == (123, 123, 1234));
    assert!(rt; direct_freed(alloc) == (123, 123, 1234));
}

// The digits of four keys' children, of the one that is removed first, and of the extra value.
fn four(alloc: Global) -> u64 {
    let number = Cell::new(0_u64);
    let Ok(mut children) = Block::<Digit<'_>, (), Digit<'_>, 4>::new(alloc, Digit(4, &number), ())
    else {
        return 0;
    };
    let mut keys = FourKeys::none();
    keys.add_child(&mut children, 9, Digit(1, &number));
    if keys.seek_child(&children, 0).is_some() || keys.num_children(&children) >= 4 {
        return 0;
    }
    keys.add_child(&mut children, 0, Digit(2, &number));
    drop(keys.delete_child(&mut children, 9));
    drop(children);
    number.get()
}

#[test]
fn children_of_four_keys_are_dropped_with_their_block(rt: HostRuntime) {
    assert!(rt; four(rt.alloc()) == 124);
}
