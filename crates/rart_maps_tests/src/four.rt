//! The keys of at most four children beside a block of these: rows of calls, walks, and moves to and from sorted maps.
ghost use Rattle.rart_maps.specs.FourKeys.{HasKeyEach};

use rart_block::Block;
use rart_maps::mapping::{FourKeys, NodeMapping, SortedKeyedMapping};
use rart_test_tools::refusals::{refuse, was_refused};
use std::alloc::Global;

/// Keys, and a child for each.
#[derive(Drop)]
struct Four {
    keys: FourKeys,
    children: Block<Option<u64>, (), u8, 4>,
    ghost each: { HasKeyEach keys children },
}

/// A call.
#[derive(Clone, Copy)]
enum Ask {
    Add(u8, u8),
    Seek(u8),
    /// Writes to the place of a child: the old one.
    Write(u8, u8),
    Delete(u8),
    /// The greatest byte below a bound.
    LastUnder(Option<u8>),
    /// The first child above a byte.
    Above(u8),
}

impl Four {
    fn new(alloc: Global) -> Option<Four> {
        match Block::new(alloc, Some(7), ()) {
            Ok(children) => Some(Four {
                keys: FourKeys::none(),
                children,
            }),
            Err(_) => None,
        }
    }

    fn add(&mut self, key: u8, child: u8) -> Option<u8> {
        if self.keys.seek_child(&self.children, key).is_some()
            || self.keys.num_children(&self.children) >= 4
        {
            return None;
        }
        self.keys.add_child(&mut self.children, key, child);
        Some(child)
    }

    fn write(&mut self, key: u8, child: u8) -> Option<u8> {
        let at = self.keys.place_of(&self.children, key)?;
        let place = self.children.item_mut(at);
        let old = *place;
        *place = child;
        Some(old)
    }

    fn answer(&mut self, ask: Ask) -> Option<u8> {
        match ask {
            Ask::Add(key, child) => self.add(key, child),
            Ask::Seek(key) => self.keys.seek_child(&self.children, key).copied(),
            Ask::Write(key, child) => self.write(key, child),
            Ask::Delete(key) => self.keys.delete_child(&mut self.children, key),
            Ask::LastUnder(above) => {
                let (byte, _) = self.keys.last_under(&self.children, above)?;
                Some(byte)
            }
            Ask::Above(byte) => {
                let (_, child) = self.keys.iter_above(&self.children, byte).next()?;
                Some(*child)
            }
        }
    }
}

// The answer of each, and how many children there then are.
static ROWS: [(Ask, Option<u8>, usize); 20] = [
    (Ask::Seek(0), None, 0),
    (Ask::LastUnder(None), None, 0),
    (Ask::Add(4, 40), Some(40), 1),
    (Ask::Add(255, 9), Some(9), 2),
    (Ask::Add(1, 10), Some(10), 3),
    (Ask::Add(3, 30), Some(30), 4),
    (Ask::Add(2, 20), None, 4),
    (Ask::Seek(2), None, 4),
    (Ask::Write(3, 31), Some(30), 4),
    (Ask::Write(2, 21), None, 4),
    (Ask::LastUnder(None), Some(255), 4),
    (Ask::LastUnder(Some(255)), Some(4), 4),
    (Ask::LastUnder(Some(1)), None, 4),
    (Ask::Above(1), Some(31), 4),
    (Ask::Above(255), None, 4),
    (Ask::Delete(255), Some(9), 3),
    (Ask::Seek(255), None, 3),
    (Ask::Delete(1), Some(10), 2),
    (Ask::Delete(3), Some(31), 1),
    (Ask::Seek(4), Some(40), 1),
];

fn rows_hold(four: &mut Four) -> bool {
    for (ask, want, count) in &ROWS {
        if four.answer(*ask) != *want || four.keys.num_children(&four.children) != *count {
            return false;
        }
    }
    true
}

// Whether the rows hold, and none of them requests memory.
fn rows_are_quiet(alloc: Global) -> bool {
    let Some(mut four) = Four::new(alloc) else {
        return false;
    };
    refuse(alloc, 1);
    let held = rows_hold(&mut four);
    !was_refused(alloc) && held
}

#[test]
fn rows_of_four_keys_make_no_request(rt: HostRuntime) {
    assert!(rt; rows_are_quiet(rt.alloc()));
}

// Whether the rows hold of new keys and an empty block.
fn are_answered(alloc: Global) -> bool {
    match Four::new(alloc) {
        Some(mut four) => rows_hold(&mut four),
        None => false,
    }
}

#[test]
fn rows_of_four_keys_are_answered(rt: HostRuntime) {
    assert!(rt; are_answered(rt.alloc()));
}

// Whether children go to a sorted map of sixteen and back, in order, and the extra values stay.
fn moves_there_and_back(alloc: Global) -> bool {
    let Some(mut four) = Four::new(alloc) else {
        return false;
    };
    let Ok(mut wide) = SortedKeyedMapping::<u8, 16, Option<u64>>::with_extra(alloc, Some(8)) else {
        return false;
    };
    let filled = four.add(200, 2) == Some(2) && four.add(0, 0) == Some(0);
    let Four {
        mut keys,
        mut children,
    } = four;
    if keys.num_children(&children) != 2 {
        return false;
    }
    keys.move_to_sorted(&mut children, &mut wide);
    if wide.num_children() != 2 || keys.num_children(&children) != 0 {
        return false;
    }
    let freed = keys.destroy_empty(children) == Some(7);
    let Ok(mut children) = Block::new(alloc, Some(9), ()) else {
        return false;
    };
    let mut keys = FourKeys::none();
    keys.fill_from_sorted(&mut children, &mut wide);
    let first = keys
        .iter(&children)
        .next()
        .map(|(byte, child)| (byte, *child));
    let deleted = keys.delete_child(&mut children, 200);
    if keys.num_children(&children) != 1 {
        return false;
    }
    let only = keys.take_only_child(&mut children);
    filled
        && freed
        && first == Some((0, 0))
        && deleted == Some(2)
        && only == (0, 0)
        && *wide.extra() == Some(8)
        && keys.destroy_empty(children) == Some(9)
}

#[test]
fn children_move_to_a_sorted_map_and_back(rt: HostRuntime) {
    let alloc = rt.alloc();
    assert!(rt; moves_there_and_back(alloc));
}
