//! Iterators over the children of a direct map.
ghost use Rattle.std.specs.Prelude.{◌≡◌, IfSome, Some, length};
ghost use Rattle.std.specs.Iterator.{UpTo, YieldsFirst, YieldsFirstBy, item_count};
ghost use Rattle.std.specs.Iterator.SizeHint.{IsWithinCount};

use crate::mapping::{DirectMapping, NodeMapping};
use rart_block::Slots;
use rart_parts::utils::bitset::BitsetOnesIter;
use std::iter::FusedIterator;
use std::marker::Model;

/// Iterates over the children with their bytes, ascending. A contract reads it as the list of remaining items.
#[derive(Drop)]
pub struct DirectMappingIter<'a, N> {
    pub(super) bytes: BitsetOnesIter<u64, 4>,
    pub(super) slots: Slots<'a, N>,
}

impl<'a, N> Model for DirectMappingIter<'a, N> {
    ghost use Rattle.std.specs.Prelude.{ℕ, List, length};
    ghost use Rattle.std.specs.Coded.{coded_list, coded×, coded_ℕ};
    ghost use Rattle.rart_maps.specs.Direct.{AreFilled, in_places};

    ghost Value = { List (ℕ × N) };

    ghost coded = { coded_list (coded× coded_ℕ N.code) };

    ghost view = { λ it. in_places it.bytes it.slots.items };

    ghost invariant = { λ it. AreFilled it.slots.items it.bytes };
}

impl<'a, N> Iterator for DirectMappingIter<'a, N> {
    type Item = (u8, &'a N);

    ghost next_gives = { YieldsFirstBy (λ item. (item.0, item.1.now)) (λ rest. rest) };

    ghost remaining = { item_count (λ rest. rest) };

    #[inline(always)]
    fn next(&mut self) -> Option<(u8, &'a N)> {
        let Some(byte) = self.bytes.next() else {
            return None;
        };
        Some((byte as u8, self.slots.get(byte)))
    }
}

impl<'a, N> FusedIterator for DirectMappingIter<'a, N> {}

/// Iterates over the children by value, ascending by byte. Dropping it drops the remaining children and the extra
/// value.
#[derive(Drop)]
pub struct DirectMappingIntoIter<N, E = ()> {
    rest: DirectMapping<N, E>,
}

impl<N, E> Model for DirectMappingIntoIter<N, E> {
    ghost use Rattle.std.specs.Prelude.{ℕ, List};
    ghost use Rattle.std.specs.Coded.{coded_list, coded×, coded_ℕ};

    ghost Value = { List (ℕ × N) };

    ghost coded = { coded_list (coded× coded_ℕ N.code) };

    ghost view = { λ it. it.rest.entries };
}

impl<N: Drop, E: Drop> IntoIterator for DirectMapping<N, E> {
    type Item = (u8, N);

    type IntoIter = DirectMappingIntoIter<N, E>;

    ghost into_iter_gives = { λ m it. it ≡ m.entries };

    fn into_iter(self) -> DirectMappingIntoIter<N, E> {
        DirectMappingIntoIter { rest: self }
    }
}

impl<N: Drop, E: Drop> Iterator for DirectMappingIntoIter<N, E> {
    type Item = (u8, N);

    ghost next_gives = { YieldsFirst (λ rest. rest) };

    ghost remaining = { item_count (λ rest. rest) };

    fn next(&mut self) -> Option<(u8, N)> {
        self.rest.take_first()
    }

    fn size_hint(&self) -> (usize, Option<usize>)
        ensures lower { IsWithinCount result.0 (item_count (λ rest. rest) self.now) }
        ensures upper { IfSome result.1 (UpTo (item_count (λ rest. rest) self.now)) }
        ensures exact { result ≡ (length self.now, Some (length self.now)) }
    {
        let rest = self.rest.num_children();
        (rest, Some(rest))
    }
}

impl<N: Drop, E: Drop> ExactSizeIterator for DirectMappingIntoIter<N, E> {
    fn len(&self) -> usize {
        self.rest.num_children()
    }
}

impl<N: Drop, E: Drop> FusedIterator for DirectMappingIntoIter<N, E> {}
