//! Iterators over the children of an indexed map.
ghost use Rattle.std.specs.Prelude.{◌≡◌, IfSome, Some, length};
ghost use Rattle.std.specs.Iterator.{UpTo, YieldsFirst, YieldsFirstBy, item_count};
ghost use Rattle.std.specs.Iterator.SizeHint.{IsWithinCount};
ghost use Rattle.rart_parts.specs.Entries.{sorted_entries};

use crate::mapping::byte_index::ByteIndexIter;
use crate::mapping::{IndexedMapping, NodeMapping};
use rart_parts::utils::bitset::BitsetTrait;
use std::iter::FusedIterator;
use std::marker::Model;

/// Iterates over the children with their bytes, ascending. A contract reads it as the list of remaining items.
#[derive(Drop)]
pub struct IndexedMappingIter<'a, N> {
    pub(super) slots: ByteIndexIter<'a>,
    pub(super) children: &'a [N],
}

impl<'a, N> Model for IndexedMappingIter<'a, N> {
    ghost use Rattle.std.specs.Prelude.{ℕ, List, length};
    ghost use Rattle.std.specs.Coded.{coded_list, coded×, coded_ℕ};
    ghost use Rattle.rart_maps.specs.Indexed.{by_slots};
    ghost use Rattle.rart_maps.specs.Dense.{AreSlotsBelow, filled};

    ghost Value = { List (ℕ × N) };

    ghost coded = { coded_list (coded× coded_ℕ N.code) };

    ghost view = { λ it. by_slots it.slots (filled it.children.now) };

    ghost invariant = { λ it. AreSlotsBelow (length it.children.now) it.slots };
}

impl<'a, N> Iterator for IndexedMappingIter<'a, N> {
    type Item = (u8, &'a N);

    ghost next_gives = { YieldsFirstBy (λ item. (item.0, item.1.now)) (λ rest. rest) };

    ghost remaining = { item_count (λ rest. rest) };

    #[inline(always)]
    fn next(&mut self) -> Option<(u8, &'a N)> {
        match self.slots.next() {
            Some((byte, slot)) => Some((byte, &self.children[slot as usize])),
            None => None,
        }
    }
}

impl<'a, N> FusedIterator for IndexedMappingIter<'a, N> {}

/// Iterates over the children by value, ascending by byte. Dropping it drops the remaining children and the
/// extra value.
#[derive(Drop)]
pub struct IndexedMappingIntoIter<N, const W: usize, B: BitsetTrait, E = ()> {
    rest: IndexedMapping<N, W, B, E>,
}

impl<N, const W: usize, B: BitsetTrait, E> Model for IndexedMappingIntoIter<N, W, B, E> {
    ghost use Rattle.std.specs.Prelude.{ℕ, List};
    ghost use Rattle.std.specs.Coded.{coded_list, coded×, coded_ℕ};
    ghost use Rattle.rart_parts.specs.Entries.{sorted_entries};

    ghost Value = { List (ℕ × N) };

    ghost coded = { coded_list (coded× coded_ℕ N.code) };

    ghost view = { λ it. sorted_entries it.rest.entries };
}

impl<N: Drop, const W: usize, B: BitsetTrait, E: Drop> IntoIterator for IndexedMapping<N, W, B, E> {
    type Item = (u8, N);

    type IntoIter = IndexedMappingIntoIter<N, W, B, E>;

    ghost into_iter_gives = { λ m it. it ≡ sorted_entries m.entries };

    fn into_iter(self) -> IndexedMappingIntoIter<N, W, B, E> {
        IndexedMappingIntoIter { rest: self }
    }
}

impl<N: Drop, const W: usize, B: BitsetTrait, E: Drop> Iterator
    for IndexedMappingIntoIter<N, W, B, E> {
    type Item = (u8, N);

    ghost next_gives = { YieldsFirst (λ rest. rest) };

    ghost remaining = { item_count (λ rest. rest) };

    fn next(&mut self) -> Option<(u8, N)> {
        self.rest.take_first()
    }

    fn size_hint(&self) -> (usize, Option<usize>)
        ensures lower { IsWithinCount result.0 (item_count (λ rest. rest) self.now) }
        ensures upper { IfSome result.1 (UpTo (item_count (λ rest. rest) self.now)) }
        ensures exact { result ≡ (length self.now, Some (length self.now)) }
    {
        let rest = self.rest.num_children();
        (rest, Some(rest))
    }
}

impl<N: Drop, const W: usize, B: BitsetTrait, E: Drop> ExactSizeIterator
    for IndexedMappingIntoIter<N, W, B, E> {
    fn len(&self) -> usize {
        self.rest.num_children()
    }
}

impl<N: Drop, const W: usize, B: BitsetTrait, E: Drop> FusedIterator
    for IndexedMappingIntoIter<N, W, B, E> {}
