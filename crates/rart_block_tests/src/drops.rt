//! What a block drops, and when.

use rart_block::Block;
use rart_test_tools::counted::Counted;
use std::alloc::Global;
use std::cell::Cell;

type Held<'a, const W: usize> = Block<Counted<'a>, Counted<'a>, Counted<'a>, W>;

fn edit<'a, const W: usize>(
    block: &mut Held<'a, W>,
    drops: &'a Cell<usize>,
    pushed: usize,
    removed: usize,
) {
    for _ in 0..pushed {
        if block.len() < W {
            block.push(Counted(0, drops));
        }
    }
    for _ in 0..removed {
        if !block.is_empty() {
            drop(block.remove(0));
        }
    }
}

// How many values were dropped before the block was, and then.
fn dropped<const W: usize>(alloc: Global, pushed: usize, removed: usize) -> Option<(usize, usize)> {
    let drops = Cell::new(0_usize);
    let mut block = Held::<W>::new(alloc, Counted(0, &drops), Counted(0, &drops)).ok()?;
    edit(&mut block, &drops, pushed, removed);
    let before = drops.get();
    drop(block);
    Some((before, drops.get()))
}

#[test]
fn each_value_is_dropped_once(rt: HostRuntime) {
    let alloc = rt.alloc();
    assert!(rt; dropped::<1>(alloc, 0, 0) == Some((0, 2)));
    assert!(rt; dropped::<1>(alloc, 1, 0) == Some((0, 3)));
    assert!(rt; dropped::<4>(alloc, 4, 1) == Some((1, 6)));
    assert!(rt; dropped::<16>(alloc, 16, 16) == Some((16, 18)));
    assert!(rt; dropped::<300>(alloc, 300, 7) == Some((7, 302)));
}

// A value that adds its digit to a number when it is dropped.
struct Digit<'a>(u64, &'a Cell<u64>);

impl Drop for Digit<'_> {
    fn drop(self) {
        let Digit(digit, number) = self;
        number.set(number.get().wrapping_mul(10).wrapping_add(digit));
    }
}

fn order(alloc: Global) -> Option<u64> {
    let number = Cell::new(0_u64);
    let mut block = Block::<Digit<'_>, Digit<'_>, Digit<'_>, 4>::new(
        alloc,
        Digit(8, &number),
        Digit(9, &number),
    ).ok()?;
    block.push(Digit(1, &number));
    block.push(Digit(2, &number));
    block.push(Digit(3, &number));
    drop(block);
    Some(number.get())
}

#[test]
fn the_last_item_is_dropped_first_and_the_header_last(rt: HostRuntime) {
    assert!(rt; order(rt.alloc()) == Some(32189));
}

fn freed(alloc: Global) -> Option<usize> {
    let drops = Cell::new(0_usize);
    let block = Held::<4>::new(alloc, Counted(0, &drops), Counted(0, &drops)).ok()?;
    let parts = block.destroy_empty();
    let before = drops.get();
    drop(parts);
    Some(before)
}

#[test]
fn a_freed_block_drops_nothing(rt: HostRuntime) {
    assert!(rt; freed(rt.alloc()) == Some(0));
}
