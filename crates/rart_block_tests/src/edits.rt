//! Edits of blocks of several widths, beside a vector.

use rart_block::Block;
use std::alloc::Global;

type Few<const W: usize> = Block<u64, [u8; 2], u16, W>;

#[derive(Clone, Copy)]
enum Edit {
    Push(u16),
    Insert(usize, u16),
    Remove(usize),
    Pop,
    /// Writes through the loan of an item.
    Write(usize, u16),
}

// The item that was added, taken or overwritten; None where the block has no place or no such item.
fn answer<const W: usize>(block: &mut Few<W>, edit: Edit) -> Option<u16> {
    let len = block.len();
    match edit {
        Edit::Push(item) if len < W => {
            block.push(item);
            Some(item)
        }
        Edit::Insert(at, item) if at <= len && len < W => {
            block.insert(at, item);
            Some(item)
        }
        Edit::Remove(at) if at < len => Some(block.remove(at)),
        Edit::Pop => block.pop(),
        Edit::Write(at, item) if at < len => {
            let place = block.item_mut(at);
            let old = *place;
            *place = item;
            Some(old)
        }
        _ => None,
    }
}

// The answer of an edit by a vector that holds at most `width` items; None where memory was refused.
fn wanted(items: &mut Vec<u16>, width: usize, edit: Edit) -> Option<Option<u16>> {
    let len = items.len();
    let found = match edit {
        Edit::Push(item) if len < width => {
            items.push(item).ok()?;
            Some(item)
        }
        Edit::Insert(at, item) if at <= len && len < width => {
            items.insert(at, item).ok()?;
            Some(item)
        }
        Edit::Remove(at) if at < len => Some(items.remove(at)),
        Edit::Pop => items.pop(),
        Edit::Write(at, item) if at < len => Some(std::mem::replace(items.get_mut(at)?, item)),
        _ => None,
    };
    Some(found)
}

// The edits of a block fill it in the first thousand steps and empty it in the second.
fn edit_at(step: usize, len: usize) -> Edit {
    let item = (step & 0xffff) as u16;
    let at = step
        .wrapping_mul(7)
        .checked_rem(len.wrapping_add(1))
        .unwrap_or(0);
    match (step & 3, step < 1000) {
        (0, true) => Edit::Insert(at, item),
        (1, true) => Edit::Push(item),
        (2, true) => Edit::Insert(0, item),
        (0, false) => Edit::Remove(at),
        (1, false) => Edit::Pop,
        (2, false) => Edit::Remove(0),
        _ => Edit::Write(at, item),
    }
}

fn agree<const W: usize>(block: &mut Few<W>, items: &mut Vec<u16>) -> bool {
    for step in 0..2000_usize {
        let edit = edit_at(step, items.len());
        if wanted(items, W, edit) != Some(answer(block, edit))
            || block.as_slice() != items.as_slice()
        {
            return false;
        }
    }
    *block.head() == 7 && *block.keys() == [1, 2] && block.len() == 0
}

fn agrees<const W: usize>(alloc: Global) -> bool {
    let mut items = Vec::new(alloc);
    match Few::<W>::new(alloc, 7, [1, 2]) {
        Ok(mut block) => agree(&mut block, &mut items),
        Err(_) => false,
    }
}

#[test]
fn edits_of_each_width_answer_as_those_of_a_vector(rt: HostRuntime) {
    let alloc = rt.alloc();
    assert!(rt; agrees::<1>(alloc));
    assert!(rt; agrees::<4>(alloc));
    assert!(rt; agrees::<16>(alloc));
    assert!(rt; agrees::<48>(alloc));
    assert!(rt; agrees::<256>(alloc));
    assert!(rt; agrees::<300>(alloc));
}

// The answer of each edit, and the length after it.
static ROWS: [(Edit, Option<u16>, usize); 13] = [
    (Edit::Pop, None, 0),
    (Edit::Push(1), Some(1), 1),
    (Edit::Insert(0, 2), Some(2), 2),
    (Edit::Insert(1, 3), Some(3), 3),
    (Edit::Insert(3, 4), Some(4), 4),
    (Edit::Push(5), None, 4),
    (Edit::Insert(2, 5), None, 4),
    (Edit::Write(2, 9), Some(1), 4),
    (Edit::Remove(1), Some(3), 3),
    (Edit::Remove(3), None, 3),
    (Edit::Pop, Some(4), 2),
    (Edit::Pop, Some(9), 1),
    (Edit::Remove(0), Some(2), 0),
];

fn rows_hold(block: &mut Few<4>) -> bool {
    for (edit, found, len) in &ROWS {
        if answer(block, *edit) != *found || block.len() != *len {
            return false;
        }
    }
    true
}

fn rows_hold_in_new(alloc: Global) -> bool {
    match Few::<4>::new(alloc, 7, [1, 2]) {
        Ok(mut block) => rows_hold(&mut block),
        Err(_) => false,
    }
}

#[test]
fn each_edit_of_four_places_answers_with_its_item(rt: HostRuntime) {
    assert!(rt; rows_hold_in_new(rt.alloc()));
}
