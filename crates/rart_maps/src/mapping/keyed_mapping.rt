//! A map from bytes to children that keeps an unordered key beside each slot.

// The model lists the entries in slot order; the contracts of calls use `sorted_entries` of it, the same entries in
// byte order.

ghost use Rattle.std.specs.Prelude.{◌≡◌, ℕ, [], ◌<◌, ◌≤◌, ◌^◌, length, IfErr, IfOk, OnOk, OnErr, ⊤};
ghost use Rattle.rart_parts.specs.Bits.{IsFirst};
ghost use Rattle.rart_parts.specs.Entries.{TakesEntry, sorted_entries};
ghost use Rattle.rart_parts.specs.Errors.{IsMemory};
ghost use Rattle.rart_parts.specs.Keys.{is_held};
ghost use Rattle.rart_parts.specs.Places.{is_used};

use crate::mapping::NodeMapping;
use rart_parts::TreeError;
use rart_parts::utils::bitarray::BitArray;
use rart_parts::utils::bitset::BitsetTrait;
use rart_parts::utils::u8_keys::{keys_are_bytes, u8_keys_find_key_position};
use std::alloc::Global;
use std::marker::Model;

/// Maps bytes to at most `W` children, with one key byte for each slot.
#[derive(Drop)]
pub struct KeyedMapping<N, const W: usize, B: BitsetTrait> {
    // The key of each slot; 255 where the slot is free.
    keys: [u8; W],
    children: BitArray<N, W, B>,
    num_children: usize,
}

impl<N, const W: usize, B: BitsetTrait> Model for KeyedMapping<N, W, B> {
    ghost use Rattle.std.specs.Prelude.{ℕ, List};
    ghost use Rattle.std.specs.Coded.{coded_list, coded×, coded_ℕ};
    ghost use Rattle.rart_maps.specs.Keyed.{IsKeyed, with_keys};

    ghost Value = { List (ℕ × N) };

    ghost coded = { coded_list (coded× coded_ℕ N.code) };

    ghost view = { λ m. with_keys m.keys m.children };

    ghost invariant = { λ m. IsKeyed W m.keys m.children m.num_children };
}

impl<N, const W: usize, B: BitsetTrait> KeyedMapping<N, W, B> {
    /// Returns a map with no child. It allocates all `W` slots at once.
    ///
    /// # Errors
    ///
    /// [`TreeError::Memory`] if the allocation fails.
    pub fn new(alloc: Global) -> Result<Self, TreeError>
        requires narrow { W ≤ 255 }
        requires covers { W ≤ B.CAPACITY }
        requires fits { B.CAPACITY < 2 ^ 64 }
        ensures ok { IfOk result (λ m. sorted_entries m ≡ []) }
        ensures memory { IfErr result IsMemory }
    {
        let children = BitArray::new(alloc)?;
        Ok(KeyedMapping {
            keys: [255; W],
            children,
            num_children: 0,
        })
    }

    /// Moves the children of a keyed mapping of smaller capacity into a new map.
    ///
    /// # Errors
    ///
    /// [`TreeError::Memory`] if the allocation fails. `source` is then unchanged.
    pub fn from_resized_grow<const U: usize, C: BitsetTrait>(
        alloc: Global,
        source: &mut KeyedMapping<N, U, C>,
    ) -> Result<Self, TreeError>
        requires wider { U < W }
        requires narrow { W ≤ 255 }
        requires covers { W ≤ B.CAPACITY }
        requires fits { B.CAPACITY < 2 ^ 64 }
        ensures ok { IfOk result (λ m. sorted_entries m ≡ sorted_entries source.old) }
        ensures emptied { OnOk result (sorted_entries source.new ≡ []) }
        ensures memory { IfErr result IsMemory }
        ensures unchanged { OnErr result (source.new ≡ source.old) }
    {
        let mut map = KeyedMapping::new(alloc)?;
        // At most U, which is below W.
        let _count = source.num_children();
        map.fill_from_resized(source);
        Ok(map)
    }

    /// Moves the children of a keyed mapping into this empty map. It does not allocate.
    pub fn fill_from_resized<const U: usize, C: BitsetTrait>(
        &mut self,
        source: &mut KeyedMapping<N, U, C>,
    )
        requires empty { sorted_entries self.old ≡ [] }
        requires at_most { length (sorted_entries source.old) ≤ W }
        ensures filled { sorted_entries self.new ≡ sorted_entries source.old }
        ensures emptied { sorted_entries source.new ≡ [] }
    {
        // Its bytes ascend.
        let _count = source.num_children();
        while let Some((key, child)) = source.take_any() {
            self.add_child(key, child);
        }
    }

    /// Removes the child in the first used slot and returns it with its byte.
    pub(crate) fn take_any(&mut self) -> Option<(u8, N)>
        ensures { TakesEntry (sorted_entries self.old) (sorted_entries self.new) result }
    {
        let Some(slot) = self.children.first_used() else {
            return None;
        };
        let key = self.keys[slot];
        let child = self.delete_child(key).unwrap();
        Some((key, child))
    }
}

impl<N, const W: usize, B: BitsetTrait> NodeMapping<N, W> for KeyedMapping<N, W, B> {
    ghost map = { sorted_entries };

    // It stores nothing beside its entries.
    ghost same_extra = { λ _ _. ⊤ };

    fn add_child(&mut self, key: u8, node: N) {
        let slot = self.children.first_empty().unwrap();
        self.keys[slot] = key;
        self.children.put(slot, node);
        self.num_children += 1;
    }

    fn seek_child(&self, key: u8) -> Option<&N> {
        match slot_of(key, &self.keys, &self.children) {
            Some(slot) => self.children.get(slot),
            None => None,
        }
    }

    fn seek_child_mut(&mut self, key: u8) -> Option<&mut N> {
        match slot_of(key, &self.keys, &self.children) {
            Some(slot) => self.children.get_mut(slot),
            None => None,
        }
    }

    fn delete_child(&mut self, key: u8) -> Option<N> {
        let Some(slot) = slot_of(key, &self.keys, &self.children) else {
            return None;
        };
        self.keys[slot] = 255;
        self.num_children -= 1;
        self.children.erase(slot)
    }

    fn num_children(&self) -> usize {
        keys_are_bytes(&self.keys);
        self.num_children
    }
}

impl<N, const W: usize, B: BitsetTrait> KeyedMapping<N, W, B> {
    /// Frees a map with no child. `N` needs no `Drop`.
    pub fn destroy_empty(self)
        requires { sorted_entries self ≡ [] }
    {
        let KeyedMapping {
            keys: _keys,
            children,
            num_children: _num_children,
        } = self;
        children.destroy_empty();
    }
}

// The slot of a key. A free slot holds 255, so that key is sought in used slots alone.
fn slot_of<N, const W: usize, B: BitsetTrait>(
    key: u8,
    keys: &[u8],
    children: &BitArray<N, W, B>,
) -> Option<usize>
    requires { length keys.now ≡ W }
    ensures { IsFirst (is_held keys.now key (is_used children.now)) W result }
{
    match children.known_bitset() {
        Some(used) => u8_keys_find_key_position::<W, B>(key, keys, used),
        None => u8_keys_find_key_position::<W, B>(key, keys, &children.scanned_bitset()),
    }
}
