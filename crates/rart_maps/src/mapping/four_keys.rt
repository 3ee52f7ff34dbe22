//! The keys of at most four children that are in a block of their own, which a contract reads as ascending bytes.

ghost use Rattle.std.specs.Prelude.{◌≡◌, ℕ, [], ◌∷◌, ◌<◌, ◌≤◌, length, option_map, None, MatchOption};
ghost use Rattle.std.specs.Option.{option_copied};
ghost use Rattle.rart_parts.specs.Entries.{BytesAscend, IsLastUnder, child_at, entries_above, with_entry, without_byte};
ghost use Rattle.rart_maps.specs.Bounds.{bound_of};
ghost use Rattle.rart_maps.specs.FourKeys.{HasKeyEach, IsChildPlace, four_entries};

use crate::mapping::sorted_keyed_mapping::search::{
    first_above, first_not_below, goes_last, place_of,
};
use crate::mapping::{SortedKeyedMapping, SortedKeyedMappingIter};
use rart_block::Block;
use rart_parts::utils::u8_keys::keys_are_bytes;
use std::marker::Model;

/// The bytes of at most four children, and how many there are. The children are in a block, in the order of the bytes.
///
/// A search reads the keys alone. It finds the place of a child before the block is read.
#[derive(Drop)]
pub struct FourKeys {
    // The keys past the children are 255.
    keys: [u8; 4],
    count: u8,
}

impl Model for FourKeys {
    ghost use Rattle.std.specs.Prelude.{ℕ, List, take};
    ghost use Rattle.std.specs.Coded.{coded_list, coded_ℕ};
    ghost use Rattle.rart_maps.specs.FourKeys.{IsFourKeys};

    ghost Value = { List ℕ };

    ghost coded = { coded_list coded_ℕ };

    ghost view = { λ k. take k.count k.keys };

    ghost invariant = { λ k. IsFourKeys k.keys k.count };
}

impl FourKeys {
    /// Returns the keys of no child.
    #[inline(always)]
    pub fn none() -> Self
        ensures { result ≡ [] }
    {
        FourKeys {
            keys: [255; 4],
            count: 0,
        }
    }

    /// Returns the number of children.
    #[inline(always)]
    pub fn num_children<N, E>(&self, children: &Block<E, (), N, 4>) -> usize
        requires each { HasKeyEach self.now children.now }
        ensures count { result ≡ length (four_entries self.now children.now) }
        ensures at_most { length (four_entries self.now children.now) ≤ 4 }
    {
        let _ = children;
        self.count as usize
    }

    /// Returns the place of the child at a byte in the block. What is put there is then the child at that byte.
    #[inline(always)]
    pub fn place_of<N, E>(&self, children: &Block<E, (), N, 4>, key: u8) -> Option<usize>
        requires each { HasKeyEach self.now children.now }
        ensures { MatchOption result (child_at key (four_entries self.now children.now) ≡ None)
            (IsChildPlace self.now children.now key) }
    {
        let _ = children;
        place_of(key, &self.keys, self.count as usize)
    }

    /// Returns the child at a byte.
    #[inline(always)]
    pub fn seek_child<'a, N, E>(&self, children: &'a Block<E, (), N, 4>, key: u8) -> Option<&'a N>
        requires each { HasKeyEach self.now children.now }
        ensures { option_copied result ≡ child_at key (four_entries self.now children.now) }
    {
        match place_of(key, &self.keys, self.count as usize) {
            Some(at) => Some(&children.as_slice()[at]),
            None => None,
        }
    }

    /// Inserts a child at a byte that has none. It does not allocate.
    #[inline(always)]
    pub fn add_child<N, E>(&mut self, children: &mut Block<E, (), N, 4>, key: u8, node: N)
        requires each { HasKeyEach self.old children.old }
        requires absent { child_at key (four_entries self.old children.old) ≡ None }
        requires not_full { length (four_entries self.old children.old) < 4 }
        ensures entries { four_entries self.new children.new
            ≡ with_entry key node (four_entries self.old children.old) }
        ensures each { HasKeyEach self.new children.new }
        ensures extra { children.new.head ≡ children.old.head }
    {
        let count = self.count as usize;
        self.count += 1;
        // Bulk loads and sorted insertions add each child so, without a search.
        if goes_last(key, &self.keys, count) {
            self.keys[count] = key;
            children.push(node);
            return;
        }
        let at = first_above(key, &self.keys, count);
        self.keys.copy_within(at..count, at + 1);
        self.keys[at] = key;
        children.insert(at, node);
    }

    /// Removes the child at a byte and returns it. It does not allocate.
    #[inline(always)]
    pub fn delete_child<N, E>(&mut self, children: &mut Block<E, (), N, 4>, key: u8) -> Option<N>
        requires each { HasKeyEach self.old children.old }
        ensures taken { result ≡ child_at key (four_entries self.old children.old) }
        ensures rest { four_entries self.new children.new
            ≡ without_byte key (four_entries self.old children.old) }
        ensures each { HasKeyEach self.new children.new }
        ensures extra { children.new.head ≡ children.old.head }
    {
        let count = self.count as usize;
        match place_of(key, &self.keys, count) {
            Some(at) => {
                self.keys.copy_within(at + 1..count, at);
                self.keys[count - 1] = 255;
                self.count -= 1;
                Some(children.remove(at))
            }
            None => None,
        }
    }

    /// Returns the children with their bytes, ascending.
    #[inline(always)]
    pub fn iter<'a, N, E>(
        &'a self,
        children: &'a Block<E, (), N, 4>,
    ) -> SortedKeyedMappingIter<'a, N>
        requires each { HasKeyEach self.now children.now }
        ensures entries { result ≡ four_entries self.now children.now }
        ensures ascending { BytesAscend (four_entries self.now children.now) }
    {
        SortedKeyedMappingIter {
            keys: &self.keys,
            children: children.as_slice(),
        }
    }

    /// Returns the children at the bytes above `byte`, ascending. It starts at the first of them.
    #[inline(always)]
    pub fn iter_above<'a, N, E>(
        &'a self,
        children: &'a Block<E, (), N, 4>,
        byte: u8,
    ) -> SortedKeyedMappingIter<'a, N>
        requires each { HasKeyEach self.now children.now }
        ensures entries { result ≡ entries_above byte (four_entries self.now children.now) }
        ensures ascending { BytesAscend (entries_above byte (four_entries self.now children.now)) }
    {
        let keys: &[u8] = &self.keys;
        let at = first_above(byte, &self.keys, self.count as usize);
        SortedKeyedMappingIter {
            keys: &keys[at..],
            children: &children.as_slice()[at..],
        }
    }

    /// Returns the child at the greatest byte below `above`, with its byte. `None` is no bound.
    pub fn last_under<'a, N, E>(
        &self,
        children: &'a Block<E, (), N, 4>,
        above: Option<u8>,
    ) -> Option<(u8, &'a N)>
        requires each { HasKeyEach self.now children.now }
        ensures last { IsLastUnder (bound_of above) (four_entries self.now children.now)
            (option_map (λ e. (e.0, e.1.now)) result) }
        ensures ascending { BytesAscend (four_entries self.now children.now) }
        ensures bytes { (b : ℕ) → 256 ≤ b → child_at b (four_entries self.now children.now) ≡ None }
    {
        keys_are_bytes(&self.keys);
        let end = first_not_below(above, &self.keys, self.count as usize);
        if end == 0 {
            return None;
        }
        Some((self.keys[end - 1], &children.as_slice()[end - 1]))
    }

    /// Removes the only child and returns it with its byte.
    pub fn take_only_child<N, E>(&mut self, children: &mut Block<E, (), N, 4>) -> (u8, N)
        requires each { HasKeyEach self.old children.old }
        requires only { length (four_entries self.old children.old) ≡ 1 }
        ensures taken { four_entries self.old children.old ≡ result ∷ [] }
        ensures emptied { self.new ≡ [] }
        ensures each { HasKeyEach self.new children.new }
        ensures extra { children.new.head ≡ children.old.head }
    {
        let key = self.keys[0];
        self.keys[0] = 255;
        self.count = 0;
        (key, children.remove(0))
    }

    /// Moves the children of a sorted mapping into an empty block. It does not allocate.
    pub fn fill_from_sorted<N, E, F, const W: usize>(
        &mut self,
        children: &mut Block<E, (), N, 4>,
        source: &mut SortedKeyedMapping<N, W, F>,
    )
        requires empty { self.old ≡ [] }
        requires each { HasKeyEach self.old children.old }
        requires at_most { length source.old.entries ≤ 4 }
        ensures filled { four_entries self.new children.new ≡ source.old.entries }
        ensures each { HasKeyEach self.new children.new }
        ensures emptied { source.new.entries ≡ [] }
        ensures extra { children.new.head ≡ children.old.head }
        ensures source_extra { source.new.extra ≡ source.old.extra }
    {
        let count = source.block.len();
        let mut keys = self.keys;
        keys[..count].copy_from_slice(&source.block.keys()[..count]);
        self.keys = keys;
        self.count = count as u8;
        let unused = [255; W];
        *source.block.keys_mut() = unused;
        children.append(&mut source.block);
    }

    /// Moves the children into an empty sorted mapping. It does not allocate.
    pub fn move_to_sorted<N, E, F, const W: usize>(
        &mut self,
        children: &mut Block<F, (), N, 4>,
        target: &mut SortedKeyedMapping<N, W, E>,
    )
        requires empty { target.old.entries ≡ [] }
        requires each { HasKeyEach self.old children.old }
        requires at_most { length (four_entries self.old children.old) ≤ W }
        ensures filled { target.new.entries ≡ four_entries self.old children.old }
        ensures emptied { self.new ≡ [] }
        ensures each { HasKeyEach self.new children.new }
        ensures extra { target.new.extra ≡ target.old.extra }
        ensures children_extra { children.new.head ≡ children.old.head }
    {
        let count = self.count as usize;
        let mut keys = *target.block.keys();
        keys[..count].copy_from_slice(&self.keys[..count]);
        *target.block.keys_mut() = keys;
        target.block.append(children);
        self.keys = [255; 4];
        self.count = 0;
    }

    /// Frees a block without children and returns the extra value. `N` needs no `Drop`.
    pub fn destroy_empty<N, E>(self, children: Block<E, (), N, 4>) -> E
        requires each { HasKeyEach self children }
        requires empty { four_entries self children ≡ [] }
        ensures { result ≡ children.head }
    {
        let _ = &self.keys;
        let (extra, ()) = children.destroy_empty();
        extra
    }
}
