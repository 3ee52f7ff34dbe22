//! An inline index from bytes to slots, which a contract reads as a list of 256 optional slots.
ghost use Rattle.std.specs.Prelude.{◌≡◌, ◌<◌, ◌≤◌, None, Some, replicate, slice_index_or, slice_set};
ghost use Rattle.std.specs.Iterator.{YieldsFirst, item_count};
ghost use Rattle.rart_parts.specs.Bits.{IsFirst, IsLast};
ghost use Rattle.rart_parts.specs.Entries.{entries_above};
ghost use Rattle.rart_parts.specs.Places.{is_used, numbered_values};

use rart_parts::utils::bitset::{Bitset, Bitset64, BitsetOnesIter, BitsetTrait};
use std::iter::FusedIterator;
use std::marker::Model;

/// Maps each byte to a slot below 255, or to none.
#[derive(Drop)]
pub(crate) struct ByteIndex {
    // The bytes that have a slot.
    used: Bitset64<4>,
    // Their slots; 255 at the other bytes.
    slots: [u8; 256],
}

impl Model for ByteIndex {
    ghost use Rattle.std.specs.Prelude.{ℕ, List, Option, map};
    ghost use Rattle.std.specs.Coded.{coded_list, coded_option, coded_ℕ};
    ghost use Rattle.rart_maps.specs.ByteIndex.{slot_of, IsByteIndex};

    ghost Value = { List (Option ℕ) };

    ghost coded = { coded_list (coded_option coded_ℕ) };

    ghost view = { λ i. map slot_of i.slots };

    ghost invariant = { λ i. IsByteIndex i.used.words i.slots };
}

impl ByteIndex {
    /// Returns an index with no slot.
    pub(crate) fn new() -> Self
        ensures { result ≡ replicate 256 None }
    {
        ByteIndex {
            used: Bitset::new(),
            slots: [255; 256],
        }
    }

    /// Returns the slot of a byte.
    pub(crate) fn get(&self, byte: u8) -> Option<u8>
        ensures { result ≡ slice_index_or self.now byte None }
    {
        let slot = self.slots[byte as usize];
        if slot == 255 { None } else { Some(slot) }
    }

    /// Sets the slot of a byte.
    pub(crate) fn set(&mut self, byte: u8, slot: u8)
        requires { slot < 255 }
        ensures { self.new ≡ slice_set self.old byte (Some slot) }
    {
        self.used.set(byte as usize);
        self.slots[byte as usize] = slot;
    }

    /// Removes the slot of a byte and returns it.
    pub(crate) fn erase(&mut self, byte: u8) -> Option<u8>
        ensures old { result ≡ slice_index_or self.old byte None }
        ensures new { self.new ≡ slice_set self.old byte None }
    {
        let slot = self.get(byte);
        self.used.unset(byte as usize);
        self.slots[byte as usize] = 255;
        slot
    }

    /// Returns the least byte that has a slot.
    pub(crate) fn first_used(&self) -> Option<usize>
        ensures { IsFirst (is_used self.now) 256 result }
    {
        self.used.first_set()
    }

    /// Returns the greatest byte below `above` that has a slot.
    pub(crate) fn last_used_under(&self, above: usize) -> Option<usize>
        requires { above ≤ 256 }
        ensures { IsLast (is_used self.now) above result }
    {
        self.used.last_under(above)
    }

    /// Returns the bytes that have a slot, with their slots, ascending.
    pub(crate) fn iter(&self) -> ByteIndexIter<'_>
        ensures { result ≡ numbered_values 0 self.now }
    {
        ByteIndexIter {
            bytes: self.used.iter(),
            slots: &self.slots,
        }
    }
}

impl ByteIndex {
    /// Returns the bytes above `byte` that have a slot, with their slots, ascending.
    pub(crate) fn iter_above(&self, byte: u8) -> ByteIndexIter<'_>
        ensures { result ≡ entries_above byte (numbered_values 0 self.now) }
    {
        let mut bytes = self.used.iter();
        bytes.pass(byte as usize);
        ByteIndexIter {
            bytes,
            slots: &self.slots,
        }
    }
}

/// Iterates over the bytes that have a slot. A contract reads it as the list of remaining items.
#[derive(Drop)]
pub(crate) struct ByteIndexIter<'a> {
    bytes: BitsetOnesIter<u64, 4>,
    slots: &'a [u8; 256],
}

impl<'a> Model for ByteIndexIter<'a> {
    ghost use Rattle.std.specs.Prelude.{◌≡◌, ℕ, List, length};
    ghost use Rattle.std.specs.Coded.{coded_list, coded×, coded_ℕ};
    ghost use Rattle.rart_maps.specs.ByteIndex.{with_slots, AreBytes};

    ghost Value = { List (ℕ × ℕ) };

    ghost coded = { coded_list (coded× coded_ℕ coded_ℕ) };

    ghost view = { λ it. with_slots it.slots.now it.bytes };

    ghost invariant = { λ it. (length it.slots.now ≡ 256) × AreBytes it.bytes };
}

impl<'a> Iterator for ByteIndexIter<'a> {
    type Item = (u8, u8);

    ghost next_gives = { YieldsFirst (λ rest. rest) };

    ghost remaining = { item_count (λ rest. rest) };

    fn next(&mut self) -> Option<(u8, u8)> {
        match self.bytes.next() {
            Some(byte) => Some((byte as u8, self.slots[byte])),
            None => None,
        }
    }
}

impl<'a> FusedIterator for ByteIndexIter<'a> {}
