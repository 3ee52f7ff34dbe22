//! Sparse blocks: which slots hold an item, what is dropped, and what memory is requested.

ghost use Rattle.std.specs.Prelude.{◌≡◌, ◌<◌, None, replicate};

use rart_block::SparseBlock;
use rart_test_tools::counted::Counted;
use rart_test_tools::refusals::{add_bytes, is_swept, refuse, was_refused, were_more};
use std::alloc::Global;
use std::cell::Cell;
use std::mem::size_of;

type Bytes<const W: usize> = SparseBlock<u64, [u8; 2], u8, W>;

// Stores an item, writes to it, and takes it out: what was read each time, and the block without it.
fn round<const W: usize>(mut block: Bytes<W>, at: usize) -> ([u8; 4], u64, [u8; 2])
    requires { (at < W) × (block.items ≡ replicate W None) }
{
    block.put(at, 5);
    let stored = *block.get(at);
    let seen = *block.slots().get(at);
    *block.get_mut(at) = 6;
    *block.head_mut() = 8;
    *block.keys_mut() = [3, 4];
    let written = *block.get(at);
    let taken = block.take(at);
    let (head, keys) = block.destroy_empty();
    ([stored, seen, written, taken], head, keys)
}

fn new_round<const W: usize>(alloc: Global, at: usize) -> Option<([u8; 4], u64, [u8; 2])> {
    if at >= W {
        return None;
    }
    Some(round(Bytes::<W>::new(alloc, 7, [1, 2]).ok()?, at))
}

fn is_stored<const W: usize>(alloc: Global, at: usize) -> bool {
    new_round::<W>(alloc, at) == Some(([5, 5, 6, 6], 8, [3, 4]))
}

#[test]
fn an_item_lies_in_any_slot(rt: HostRuntime) {
    let alloc = rt.alloc();
    assert!(rt; is_stored::<1>(alloc, 0));
    assert!(rt; is_stored::<4>(alloc, 0) && is_stored::<4>(alloc, 3));
    assert!(rt; is_stored::<48>(alloc, 20) && is_stored::<48>(alloc, 47));
    assert!(rt; is_stored::<256>(alloc, 0) && is_stored::<256>(alloc, 255));
    assert!(rt; is_stored::<300>(alloc, 1) && is_stored::<300>(alloc, 299));
    assert!(rt; new_round::<4>(alloc, 4).is_none());
}

// Stores two items, reads both, and takes them out in turn.
fn two<const W: usize>(mut block: Bytes<W>, first: usize, second: usize) -> [u8; 4]
    requires { (first < second) × (second < W) × (block.items ≡ replicate W None) }
{
    block.put(second, 2);
    block.put(first, 1);
    let low = *block.get(first);
    let taken = block.take(first);
    let high = *block.get(second);
    let last = block.take(second);
    let _ = block.destroy_empty();
    [low, taken, high, last]
}

fn are_apart<const W: usize>(alloc: Global, first: usize, second: usize) -> bool {
    if first >= second || second >= W {
        return false;
    }
    match Bytes::<W>::new(alloc, 0, [0, 0]) {
        Ok(block) => two(block, first, second) == [1, 1, 2, 2],
        Err(_) => false,
    }
}

#[test]
fn items_lie_apart(rt: HostRuntime) {
    let alloc = rt.alloc();
    assert!(rt; are_apart::<4>(alloc, 0, 1) && are_apart::<4>(alloc, 2, 3));
    assert!(rt; are_apart::<48>(alloc, 0, 47));
    assert!(rt; are_apart::<256>(alloc, 254, 255));
    assert!(rt; are_apart::<300>(alloc, 0, 256));
}

type Held<'a, const W: usize> = SparseBlock<Counted<'a>, Counted<'a>, Counted<'a>, W>;

// How many values were dropped: with a taken item, with one that was replaced, with the block, and with its parts.
fn drop_in_turn<'a, const W: usize>(
    mut block: Held<'a, W>,
    drops: &'a Cell<usize>,
    at: usize,
) -> [usize; 4]
    requires { (at < W) × (block.items ≡ replicate W None) }
{
    block.put(at, Counted(0, drops));
    drop(block.take(at));
    let taken = drops.get();
    block.put(at, Counted(1, drops));
    *block.get_mut(at) = Counted(2, drops);
    let replaced = drops.get();
    drop(block.take(at));
    let parts = block.destroy_empty();
    let freed = drops.get();
    drop(parts);
    [taken, replaced, freed, drops.get()]
}

fn dropped<const W: usize>(alloc: Global, at: usize) -> Option<[usize; 4]> {
    if at >= W {
        return None;
    }
    let drops = Cell::new(0_usize);
    match Held::<W>::new(alloc, Counted(0, &drops), Counted(0, &drops)) {
        Ok(block) => Some(drop_in_turn(block, &drops, at)),
        Err(_) => None,
    }
}

#[test]
fn each_value_is_dropped_once(rt: HostRuntime) {
    let alloc = rt.alloc();
    assert!(rt; dropped::<1>(alloc, 0) == Some([1, 2, 3, 5]));
    assert!(rt; dropped::<4>(alloc, 3) == Some([1, 2, 3, 5]));
    assert!(rt; dropped::<48>(alloc, 7) == Some([1, 2, 3, 5]));
    assert!(rt; dropped::<256>(alloc, 255) == Some([1, 2, 3, 5]));
    assert!(rt; dropped::<300>(alloc, 256) == Some([1, 2, 3, 5]));
}

// Whether the request was refused, which returns the header and the keys; None where it returns others.
fn new_refused<const W: usize>(alloc: Global, at: usize) -> Option<bool> {
    refuse(alloc, at);
    let made = Bytes::<W>::new(alloc, 7, [1, 2]);
    let was = was_refused(alloc);
    match made {
        Ok(block) => {
            let _ = block.destroy_empty();
            (!was).then_some(false)
        }
        Err(parts) => (was && parts == (7, [1, 2])).then_some(true),
    }
}

fn are_refused_well<const W: usize>(alloc: Global) -> bool {
    // A second request would be refused.
    is_swept(alloc, |at| new_refused::<W>(alloc, at)) && new_refused::<W>(alloc, 2) == Some(false)
}

#[test]
fn new_blocks_refused_in_turn_return_their_header(rt: HostRuntime) {
    let alloc = rt.alloc();
    assert!(rt; are_refused_well::<1>(alloc));
    assert!(rt; are_refused_well::<4>(alloc));
    assert!(rt; are_refused_well::<48>(alloc));
    assert!(rt; are_refused_well::<256>(alloc));
    assert!(rt; are_refused_well::<300>(alloc));
}

fn is_quiet<const W: usize>(alloc: Global, at: usize) -> bool {
    if at >= W {
        return false;
    }
    match Bytes::<W>::new(alloc, 7, [1, 2]) {
        Ok(block) => {
            refuse(alloc, 1);
            let _ = round(block, at);
            !was_refused(alloc)
        }
        Err(_) => false,
    }
}

#[test]
fn edits_of_sparse_blocks_make_no_request(rt: HostRuntime) {
    assert!(rt; is_quiet::<256>(rt.alloc(), 9));
}

// The size of a block's allocation is at most that.
fn fits<H: Drop, K: Drop, T, const W: usize>(
    alloc: Global,
    head: H,
    keys: K,
    bytes: usize,
) -> bool {
    add_bytes(alloc, bytes);
    match SparseBlock::<H, K, T, W>::new(alloc, head, keys) {
        Ok(block) => {
            drop(block.destroy_empty());
            !were_more(alloc)
        }
        Err(_) => false,
    }
}

// A slot is as large as its item: it has no mark.
#[test]
fn sparse_blocks_request_within_header_and_items(rt: HostRuntime) {
    let alloc = rt.alloc();
    assert!(rt; size_of::<Bytes<4>>() == size_of::<usize>());
    assert!(rt; fits::<Option<u64>, u64, [u64; 3], 256>(alloc, None, 0, 24 + 256 * 24));
    assert!(rt; fits::<(), (), u8, 1>(alloc, (), (), 1));
}

// An item without bytes.
fn moves_nothing<const W: usize>(mut block: SparseBlock<(), (), (), W>, at: usize)
    requires { (at < W) × (block.items ≡ replicate W None) }
{
    block.put(at, ());
    block.take(at);
    let _ = block.destroy_empty();
}

fn holds_nothing<const W: usize>(alloc: Global, at: usize) -> bool {
    if at >= W {
        return false;
    }
    match SparseBlock::<(), (), (), W>::new(alloc, (), ()) {
        Ok(block) => {
            moves_nothing(block, at);
            true
        }
        Err(_) => false,
    }
}

#[test]
fn items_without_bytes_are_stored(rt: HostRuntime) {
    let alloc = rt.alloc();
    assert!(rt; holds_nothing::<1>(alloc, 0));
    assert!(rt; holds_nothing::<300>(alloc, 299));
}
