//! Iterators over the children of a sorted map.
ghost use Rattle.std.specs.Prelude.{◌≡◌, IfSome, Some, length};
ghost use Rattle.std.specs.Iterator.{UpTo, YieldsFirst, YieldsFirstBy, item_count};
ghost use Rattle.std.specs.Iterator.SizeHint.{IsWithinCount};

use crate::mapping::{NodeMapping, SortedKeyedMapping};
use std::iter::FusedIterator;
use std::marker::Model;

/// Iterates over the children with their bytes, ascending. A contract reads it as the list of remaining items.
#[derive(Drop)]
pub struct SortedKeyedMappingIter<'a, N> {
    // The keys past the children do not count.
    pub(in crate::mapping) keys: &'a [u8],
    pub(in crate::mapping) children: &'a [N],
}

impl<'a, N> Model for SortedKeyedMappingIter<'a, N> {
    ghost use Rattle.std.specs.Prelude.{ℕ, List, length, ◌≤◌};
    ghost use Rattle.std.specs.Coded.{coded_list, coded×, coded_ℕ};
    ghost use Rattle.std.specs.List.{zip};

    ghost Value = { List (ℕ × N) };

    ghost coded = { coded_list (coded× coded_ℕ N.code) };

    ghost view = { λ it. zip it.keys.now it.children.now };

    ghost invariant = { λ it. length it.children.now ≤ length it.keys.now };
}

impl<'a, N> Iterator for SortedKeyedMappingIter<'a, N> {
    type Item = (u8, &'a N);

    ghost next_gives = { YieldsFirstBy (λ item. (item.0, item.1.now)) (λ rest. rest) };

    ghost remaining = { item_count (λ rest. rest) };

    #[inline(always)]
    fn next(&mut self) -> Option<(u8, &'a N)> {
        match (self.keys.split_first(), self.children.split_first()) {
            (Some((key, keys)), Some((child, children))) => {
                self.keys = keys;
                self.children = children;
                Some((*key, child))
            }
            _ => None,
        }
    }
}

impl<'a, N> FusedIterator for SortedKeyedMappingIter<'a, N> {}

/// Iterates over the children by value, ascending by byte. Dropping it drops the remaining children and the extra
/// value.
#[derive(Drop)]
pub struct SortedKeyedMappingIntoIter<N, const W: usize, E = ()> {
    rest: SortedKeyedMapping<N, W, E>,
}

impl<N, const W: usize, E> Model for SortedKeyedMappingIntoIter<N, W, E> {
    ghost use Rattle.std.specs.Prelude.{ℕ, List};
    ghost use Rattle.std.specs.Coded.{coded_list, coded×, coded_ℕ};

    ghost Value = { List (ℕ × N) };

    ghost coded = { coded_list (coded× coded_ℕ N.code) };

    ghost view = { λ it. it.rest.entries };
}

impl<N: Drop, const W: usize, E: Drop> IntoIterator for SortedKeyedMapping<N, W, E> {
    type Item = (u8, N);

    type IntoIter = SortedKeyedMappingIntoIter<N, W, E>;

    ghost into_iter_gives = { λ m it. it ≡ m.entries };

    fn into_iter(self) -> SortedKeyedMappingIntoIter<N, W, E> {
        SortedKeyedMappingIntoIter { rest: self }
    }
}

impl<N: Drop, const W: usize, E: Drop> Iterator for SortedKeyedMappingIntoIter<N, W, E> {
    type Item = (u8, N);

    ghost next_gives = { YieldsFirst (λ rest. rest) };

    ghost remaining = { item_count (λ rest. rest) };

    fn next(&mut self) -> Option<(u8, N)> {
        self.rest.take_first()
    }

    fn size_hint(&self) -> (usize, Option<usize>)
        ensures lower { IsWithinCount result.0 (item_count (λ rest. rest) self.now) }
        ensures upper { IfSome result.1 (UpTo (item_count (λ rest. rest) self.now)) }
        ensures exact { result ≡ (length self.now, Some (length self.now)) }
    {
        let rest = self.rest.num_children();
        (rest, Some(rest))
    }
}

impl<N: Drop, const W: usize, E: Drop> ExactSizeIterator for SortedKeyedMappingIntoIter<N, W, E> {
    fn len(&self) -> usize {
        self.rest.num_children()
    }
}

impl<N: Drop, const W: usize, E: Drop> FusedIterator for SortedKeyedMappingIntoIter<N, W, E> {}
