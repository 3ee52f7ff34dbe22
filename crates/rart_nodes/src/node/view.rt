//! A key lent in segments.
ghost use Rattle.std.specs.Prelude.{◌≡◌, ◌<◌, ◌^◌, ◌↔◌, ◌++◌, true, length, IsTrue, IfOk, IfErr, OnOk, OnErr};
ghost use Rattle.std.specs.Cmp.Lexicographic.{slice_cmp};
ghost use Rattle.std.specs.Iterator.{YieldsFirstBy, item_count};
ghost use Rattle.std.specs.Ordering.{nat_cmp};
ghost use Rattle.rart_parts.specs.Errors.{IsMemory};
ghost use Rattle.rart_keys.specs.KeyBytes.{IsWithin};
ghost use Rattle.rart_trie.specs.walks.Walk.{joined_bytes};
ghost use Rattle.rart_nodes.specs.walks.PathParts.{lent_segments};
ghost use Rattle.rart_nodes.specs.walks.ViewSegments.{all_have_bytes};

use rart_keys::KeyTrait;
use rart_parts::TreeError;
use std::alloc::Global;
use std::cmp::Ordering;
use std::marker::Model;
use std::slice::Iter;

/// Lends a key as non-empty segments that borrow its bytes from the prefixes of nodes. No byte is copied.
///
/// The call that makes the view fixes where the segments are cut: at the branch points, or in an intersection also
/// inside a prefix. `==` compares the segments, so views of the same bytes can differ; `eq_slice` and `cmp_slice`
/// compare bytes.
#[derive(Clone, Copy, PartialEq, Eq, Debug)]
pub struct LendingKeyView<'tree, 'view> {
    segments: &'view [&'tree [u8]],
    ghost fits: { length (joined_bytes (lent_segments segments.now)) < 2 ^ 64 },
    ghost nonempty: { all_have_bytes (lent_segments segments.now) ≡ true },
}

impl<'tree, 'view> LendingKeyView<'tree, 'view> {
    ghost use Rattle.rart_nodes.specs.walks.KeyViews.{view_bytes, view_segments};

    /// Returns the view of non-empty segments, whose bytes together must be countable.
    pub(crate) fn of(segments: &'view [&'tree [u8]]) -> Self
        requires fits { length (joined_bytes (lent_segments segments.now)) < 2 ^ 64 }
        requires nonempty { all_have_bytes (lent_segments segments.now) ≡ true }
        ensures { view_segments result ≡ lent_segments segments.now }
    {
        LendingKeyView { segments }
    }

    /// Returns the segments, none of them empty.
    pub fn segments(self) -> &'view [&'tree [u8]]
        ensures segments { lent_segments result.now ≡ view_segments self.entry }
        ensures nonempty { all_have_bytes (lent_segments result.now) ≡ true }
    {
        self.segments
    }

    /// Returns the number of bytes of the key.
    pub fn len(self) -> usize
        ensures { result ≡ length (view_bytes self.entry) }
    {
        let mut len = 0;
        let mut segments = self.segments.iter();
        while let Some(segment) = segments.next() {
            len += segment.len();
        }
        len
    }

    /// Returns whether the key has no bytes.
    pub fn is_empty(self) -> bool
        ensures { IsTrue result ↔ (length (view_bytes self.entry) ≡ 0) }
    {
        self.len() == 0
    }

    /// Returns an iterator over the bytes.
    pub fn bytes(self) -> LendingKeyBytes<'tree, 'view>
        ensures { result ≡ view_bytes self.entry }
    {
        LendingKeyBytes {
            segment: &[],
            rest: self.segments.iter(),
        }
    }

    /// Returns whether the bytes equal `slice`, exactly if `cmp_slice` returns `Equal`.
    pub fn eq_slice(self, slice: &[u8]) -> bool
        ensures { IsTrue result ↔ (view_bytes self.entry ≡ slice.now) }
    {
        match self.cmp_slice(slice) {
            Ordering::Equal => true,
            Ordering::Less | Ordering::Greater => false,
        }
    }

    /// Compares the bytes with `slice` lexicographically.
    pub fn cmp_slice(self, slice: &[u8]) -> Ordering
        ensures { result ≡ slice_cmp nat_cmp (view_bytes self.entry) slice.now }
    {
        let mut left = slice;
        let mut segments = self.segments.iter();
        while let Some(segment) = segments.next() {
            if left.len() < segment.len() {
                return (*segment).cmp(left);
            }
            let (front, after) = left.split_at(segment.len());
            match (*segment).cmp(front) {
                Ordering::Equal => {}
                apart => return apart,
            }
            left = after;
        }
        if left.is_empty() {
            Ordering::Equal
        } else {
            Ordering::Less
        }
    }

    /// Appends the bytes to `destination`.
    ///
    /// # Errors
    ///
    /// [`TreeError::Memory`] if the allocation fails. The bytes in `destination` are then unchanged.
    pub fn write_into(self, destination: &mut Vec<u8>) -> Result<(), TreeError>
        ensures written { OnOk result (destination.new.items
            ≡ destination.old.items ++ view_bytes self.entry) }
        ensures unchanged { OnErr result (destination.new.items ≡ destination.old.items) }
        ensures memory { IfErr result IsMemory }
    {
        destination.reserve(self.len())?;
        let mut segments = self.segments.iter();
        while let Some(segment) = segments.next() {
            let Ok(()) = destination.extend_from_slice(*segment) else {
                unreachable!()
            };
        }
        Ok(())
    }

    /// Returns the bytes as a vector.
    ///
    /// # Errors
    ///
    /// [`TreeError::Memory`] if the allocation fails.
    pub fn to_vec(self, alloc: Global) -> Result<Vec<u8>, TreeError>
        ensures bytes { IfOk result (λ v. v.items ≡ view_bytes self.entry) }
        ensures memory { IfErr result IsMemory }
    {
        let mut bytes = Vec::new(alloc);
        self.write_into(&mut bytes)?;
        Ok(bytes)
    }

    /// Returns the key with these bytes, which must be within the maximum of `K`.
    ///
    /// # Errors
    ///
    /// [`TreeError::Memory`] if the allocation fails.
    pub fn to_key<K: KeyTrait>(self, alloc: Global) -> Result<K, TreeError>
        requires { IsWithin K.MAXIMUM_SIZE (length (view_bytes self)) }
        ensures bytes { IfOk result (λ k. K.bytes k ≡ view_bytes self.entry) }
        ensures memory { IfErr result IsMemory }
    {
        let bytes = self.to_vec(alloc)?;
        Ok(K::new_from_slice(bytes.as_slice()))
    }
}

/// Iterates over the bytes of a view.
#[derive(Drop)]
pub struct LendingKeyBytes<'tree, 'view> {
    segment: &'tree [u8],
    rest: Iter<'view, &'tree [u8]>,
}

impl<'tree, 'view> Model for LendingKeyBytes<'tree, 'view> {
    ghost use Rattle.std.specs.Prelude.{ℕ, List, ◌++◌};
    ghost use Rattle.std.specs.Slice.Iter.{iter_rest};
    ghost use Rattle.rart_trie.specs.walks.Walk.{joined_bytes};
    ghost use Rattle.rart_nodes.specs.walks.PathParts.{lent_segments};

    ghost Value = { List ℕ };

    ghost view = { λ b. b.segment.now ++ joined_bytes (lent_segments (iter_rest b.rest)) };
}

impl<'tree, 'view> Iterator for LendingKeyBytes<'tree, 'view> {
    type Item = u8;

    ghost next_gives = { YieldsFirstBy (λ x. x) (λ rest. rest) };

    ghost remaining = { item_count (λ rest. rest) };

    /// Returns no bound, as the bytes are not counted.
    fn size_hint(&self) -> (usize, Option<usize>) {
        (0, None)
    }

    /// Returns the next byte. It is fused.
    fn next(&mut self) -> Option<u8> {
        while self.segment.is_empty() {
            let segment = self.rest.next()?;
            self.segment = *segment;
        }
        let (first, after) = self.segment.split_first()?;
        self.segment = after;
        Some(*first)
    }
}
