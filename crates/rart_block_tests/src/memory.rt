//! The requests for memory that a block makes.

use rart_block::Block;
use rart_test_tools::refusals::{add_bytes, is_swept, refuse, was_refused, were_more};
use std::alloc::Global;
use std::mem::size_of;

type Words<const W: usize> = Block<u64, [u8; 4], u64, W>;

// Whether the request was refused, which returns the header and the keys; None where it returns others.
fn new_refused<const W: usize>(alloc: Global, at: usize) -> Option<bool> {
    refuse(alloc, at);
    let made = Words::<W>::new(alloc, 7, [1, 2, 3, 4]);
    let was = was_refused(alloc);
    match made {
        Ok(_) => (!was).then_some(false),
        Err(parts) => (was && parts == (7, [1, 2, 3, 4])).then_some(true),
    }
}

fn are_refused_well<const W: usize>(alloc: Global) -> bool {
    // A second request would be refused.
    is_swept(alloc, |at| new_refused::<W>(alloc, at)) && new_refused::<W>(alloc, 2) == Some(false)
}

#[test]
fn new_blocks_refused_in_turn_return_their_header(rt: HostRuntime) {
    let alloc = rt.alloc();
    assert!(rt; are_refused_well::<1>(alloc));
    assert!(rt; are_refused_well::<4>(alloc));
    assert!(rt; are_refused_well::<300>(alloc));
}

fn edit(block: &mut Words<16>, other: &mut Words<4>) {
    for i in 0..4_u64 {
        if block.len() < 16 && other.len() < 4 {
            block.insert(0, i);
            other.push(i);
        }
    }
    if block.len() <= 12 && other.len() <= 4 {
        block.append(other);
    }
    for _ in 0..8 {
        let _ = block.pop();
    }
}

fn is_quiet(alloc: Global) -> bool {
    match (
        Words::<16>::new(alloc, 0, [0; 4]),
        Words::<4>::new(alloc, 0, [0; 4]),
    ) {
        (Ok(mut block), Ok(mut other)) => {
            refuse(alloc, 1);
            edit(&mut block, &mut other);
            drop((block, other));
            !was_refused(alloc)
        }
        _ => false,
    }
}

#[test]
fn edits_and_drops_of_blocks_make_no_request(rt: HostRuntime) {
    assert!(rt; is_quiet(rt.alloc()));
}

// The size of a block's allocation is at most that.
fn fits<H: Drop, K: Drop, T: Drop, const W: usize>(
    alloc: Global,
    head: H,
    keys: K,
    bytes: usize,
) -> bool {
    add_bytes(alloc, bytes);
    let made = Block::<H, K, T, W>::new(alloc, head, keys).is_ok();
    made && !were_more(alloc)
}

#[test]
fn blocks_request_within_header_and_places(rt: HostRuntime) {
    let alloc = rt.alloc();
    assert!(rt; size_of::<Words<4>>() == size_of::<usize>());
    // The length lies in what the header would leave unused before the places.
    assert!(rt; fits::<Option<u64>, [u8; 4], [u64; 3], 4>(alloc, None, [255; 4], 24 + 4 * 24));
    assert!(rt; fits::<Option<u64>, [u8; 16], [u64; 3], 16>(alloc, None, [255; 16], 40 + 16 * 24));
    assert!(rt; fits::<(), (), u8, 1>(alloc, (), (), 8));
}

// The length has four bytes.
#[test]
fn a_block_of_too_many_places_returns_its_header(rt: HostRuntime) {
    assert!(rt; Block::<u8, (), u8, 0x1_0000_0000>::new(rt.alloc(), 7, ()).err() == Some((7, ())));
}
