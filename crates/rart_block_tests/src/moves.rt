//! What moves from one block to another, what is written to the header, and the rest of an empty block.

use rart_block::Block;
use std::alloc::Global;

type Bytes<const W: usize> = Block<u64, [u8; 2], u8, W>;

fn fill<const W: usize>(block: &mut Bytes<W>, first: u8, count: usize) {
    for i in 0..count {
        if block.len() < W {
            block.push(first.wrapping_add((i & 0xff) as u8));
        }
    }
}

// Whether a block holds the bytes from `first` on.
fn holds<const W: usize>(block: &Bytes<W>, first: u8, count: usize) -> bool {
    if block.len() != count {
        return false;
    }
    let mut wanted = first;
    for item in block.as_slice() {
        if *item != wanted {
            return false;
        }
        wanted = wanted.wrapping_add(1);
    }
    true
}

fn append_moves<const W: usize, const U: usize>(
    block: &mut Bytes<W>,
    source: &mut Bytes<U>,
    len: usize,
    more: usize,
) -> bool {
    fill(block, 0, len);
    fill(source, (len & 0xff) as u8, more);
    let free = W - block.len();
    if source.len() > free {
        return false;
    }
    block.append(source);
    // An emptied block can be filled again.
    fill(source, 9, 1);
    holds(block, 0, len.wrapping_add(more)) && holds(source, 9, 1)
}

fn append_moves_all<const W: usize, const U: usize>(
    alloc: Global,
    len: usize,
    more: usize,
) -> bool {
    match (
        Bytes::<W>::new(alloc, 0, [0, 0]),
        Bytes::<U>::new(alloc, 1, [1, 1]),
    ) {
        (Ok(mut block), Ok(mut source)) => append_moves(&mut block, &mut source, len, more),
        _ => false,
    }
}

#[test]
fn append_moves_all_items_behind_the_last(rt: HostRuntime) {
    let alloc = rt.alloc();
    assert!(rt; append_moves_all::<16, 4>(alloc, 0, 4));
    assert!(rt; append_moves_all::<16, 4>(alloc, 12, 4));
    assert!(rt; append_moves_all::<4, 16>(alloc, 3, 1));
    assert!(rt; append_moves_all::<4, 16>(alloc, 4, 0));
    assert!(rt; append_moves_all::<300, 256>(alloc, 48, 250));
    assert!(rt; append_moves_all::<1, 1>(alloc, 0, 1));
}

fn write_head<const W: usize>(block: &mut Bytes<W>) -> bool {
    fill(block, 5, W);
    *block.head_mut() = 9;
    *block.keys_mut() = [3, 4];
    *block.head() == 9 && *block.keys() == [3, 4] && holds(block, 5, W)
}

fn writes_head<const W: usize>(alloc: Global) -> bool {
    match Bytes::<W>::new(alloc, 7, [1, 2]) {
        Ok(mut block) => write_head(&mut block),
        Err(_) => false,
    }
}

#[test]
fn writes_to_the_header_leave_the_items(rt: HostRuntime) {
    let alloc = rt.alloc();
    assert!(rt; writes_head::<1>(alloc));
    assert!(rt; writes_head::<4>(alloc));
    assert!(rt; writes_head::<300>(alloc));
}

fn empties(mut block: Bytes<4>) -> Option<(u64, [u8; 2])> {
    fill(&mut block, 0, 4);
    for _ in 0..4 {
        let _ = block.pop();
    }
    if block.is_empty() {
        Some(block.destroy_empty())
    } else {
        None
    }
}

fn new_empties(alloc: Global) -> Option<(u64, [u8; 2])> {
    empties(Bytes::<4>::new(alloc, 7, [1, 2]).ok()?)
}

#[test]
fn a_freed_block_returns_its_header(rt: HostRuntime) {
    assert!(rt; new_empties(rt.alloc()) == Some((7, [1, 2])));
}

// An item without bytes.
type Nothings<const W: usize> = Block<(), (), (), W>;

fn count_nothings<const W: usize>(block: &mut Nothings<W>) -> usize {
    for _ in 0..W {
        if block.len() < W {
            block.insert(0, ());
        }
    }
    if block.pop().is_none() || block.len() >= W {
        return 0;
    }
    block.push(());
    block.as_slice().len()
}

fn holds_nothings<const W: usize>(alloc: Global) -> bool {
    match Nothings::<W>::new(alloc, (), ()) {
        Ok(mut block) => count_nothings(&mut block) == W,
        Err(_) => false,
    }
}

#[test]
fn items_without_bytes_are_counted(rt: HostRuntime) {
    let alloc = rt.alloc();
    assert!(rt; holds_nothings::<1>(alloc));
    assert!(rt; holds_nothings::<4>(alloc));
    assert!(rt; holds_nothings::<300>(alloc));
}
