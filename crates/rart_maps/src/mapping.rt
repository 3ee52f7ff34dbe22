//! Maps from bytes to children, in four kinds of storage, which a contract reads as entries ascending by byte.

mod byte_index;
pub mod direct_mapping;
pub mod four_keys;
pub mod indexed_mapping;
pub mod keyed_mapping;
pub mod sorted_keyed_mapping;

ghost use Rattle.std.specs.Prelude.{◌≡◌, ℕ, ◌<◌, ◌≤◌, List, length, OnSome, None};
ghost use Rattle.std.specs.Borrow.{sem, LendsSo};
ghost use Rattle.std.specs.Option.{option_copied, option_copied_mut};
ghost use Rattle.rart_maps.specs.Bounds.{bound_of};
ghost use Rattle.rart_parts.specs.Entries.{BytesAscend, child_at, with_entry, without_byte, replaced_at};

pub use direct_mapping::{DirectMapping, DirectMappingIntoIter, DirectMappingIter};
pub use four_keys::FourKeys;
pub use indexed_mapping::{IndexedMapping, IndexedMappingIntoIter, IndexedMappingIter};
pub use keyed_mapping::KeyedMapping;
pub use sorted_keyed_mapping::{
    SortedKeyedMapping, SortedKeyedMappingIntoIter, SortedKeyedMappingIter,
};

/// Maps bytes to at most `NUM_CHILDREN` children. No call of this trait allocates.
pub trait NodeMapping<N, const NUM_CHILDREN: usize> {
    ghost map: { Self → List (ℕ × N) };

    // What a map stores beside its entries is the same. No edit of entries changes it.
    ghost same_extra: { Self → Self → Type 0 };

    /// Inserts a child at a byte that has none.
    fn add_child(&mut self, key: u8, node: N)
        requires absent { child_at key (map self.old) ≡ None }
        requires not_full { length (map self.old) < NUM_CHILDREN }
        ensures entries { map self.new ≡ with_entry key node (map self.old) }
        ensures extra { same_extra self.old self.new };

    /// Returns the child at a byte.
    fn seek_child(&self, key: u8) -> Option<&N>
        ensures { option_copied result ≡ child_at key (map self.now) };

    /// Returns a mutable borrow of the child at a byte.
    fn seek_child_mut(&mut self, key: u8) -> Option<&mut N>
        ensures* writes_back { sem 𝓛 (LendsSo Self.row N.row self.entry result
            (λ n w. OnSome result
            ((map n ≡ replaced_at key w (map self.old)) × same_extra self.old n))
            (λ n. (map n ≡ map self.old) × same_extra self.old n)) }
        ensures value { option_copied_mut result ≡ child_at key (map self.old) };

    /// Removes the child at a byte and returns it.
    fn delete_child(&mut self, key: u8) -> Option<N>
        ensures taken { result ≡ child_at key (map self.old) }
        ensures rest { map self.new ≡ without_byte key (map self.old) }
        ensures extra { same_extra self.old self.new };

    /// Returns the number of children. Its contract also states that the bytes ascend and are below 256.
    fn num_children(&self) -> usize
        ensures count { result ≡ length (map self.now) }
        ensures at_most { length (map self.now) ≤ NUM_CHILDREN }
        ensures ascending { BytesAscend (map self.now) }
        ensures bytes { (b : ℕ) → 256 ≤ b → child_at b (map self.now) ≡ None };

    /// Returns the greatest number of children.
    fn width(&self) -> usize
        ensures { result ≡ NUM_CHILDREN }
    {
        NUM_CHILDREN
    }
}

/// Returns a bound as a number. No byte reaches that of `None`.
pub(crate) fn bound(above: Option<u8>) -> usize
    ensures value { result ≡ bound_of above }
    ensures at_most { result ≤ 256 }
{
    match above {
        Some(byte) => byte as usize,
        None => 256,
    }
}
