//! The prefix of a storage.
ghost use Rattle.std.specs.Prelude.{◌≡◌};
ghost use Rattle.std.specs.Option.{option_copied};
ghost use Rattle.rart_keys.specs.ByteStrings.{strip_prefix};
ghost use Rattle.rart_trie.specs.storages.Stored.{HasPrefixSo, child_entries, storage_capacity, stored_prefix};
ghost use Rattle.rart_trie.specs.storages.Stored.{stored_value};

use crate::node::rest::strip_prefix;
use crate::node::storage::{Kind, Storage};
use rart_keys::Partial;
use std::mem;

impl<P, V, N> Storage<P, V, N> {
    /// Returns the prefix.
    // Inline, as each step of a descent calls it.
    #[inline(always)]
    pub(crate) fn prefix(&self) -> &P
        ensures { result.now ≡ stored_prefix self.now }
    {
        match &self.kind {
            Kind::Empty(prefix) => prefix,
            Kind::Leaf(prefix, _) => prefix,
            Kind::Node4(prefix, _, _) => prefix,
            Kind::Node16(prefix, _) => prefix,
            Kind::Node48(prefix, _) => prefix,
            Kind::Node256(prefix, _) => prefix,
        }
    }
}

impl<P: Partial, V, N> Storage<P, V, N> {
    /// Returns the bytes of `key` after the prefix, or `None` if the prefix does not begin the key.
    #[inline(always)]
    pub(crate) fn strip_prefix<'a>(&self, key: &'a [u8]) -> Option<&'a [u8]>
        ensures { option_copied result ≡ strip_prefix (P.bytes (stored_prefix self.now)) key.now }
    {
        strip_prefix(self.prefix(), key)
    }

    /// Replaces the prefix.
    pub(crate) fn set_prefix(&mut self, prefix: P)
        ensures { HasPrefixSo self.old prefix self.new }
    {
        match &mut self.kind {
            Kind::Empty(place) => *place = prefix,
            Kind::Leaf(place, _) => *place = prefix,
            Kind::Node4(place, _, _) => *place = prefix,
            Kind::Node16(place, _) => *place = prefix,
            Kind::Node48(place, _) => *place = prefix,
            Kind::Node256(place, _) => *place = prefix,
        }
    }
}

impl<V, N> Storage<(), V, N> {
    /// Returns the storage with a prefix.
    pub(crate) fn with_prefix<P>(self, prefix: P) -> Storage<P, V, N>
        ensures entries { child_entries result ≡ child_entries self }
        ensures capacity { storage_capacity result ≡ storage_capacity self }
        ensures value { stored_value result ≡ stored_value self }
        ensures prefix { stored_prefix result ≡ prefix }
    {
        let kind = match self.kind {
            Kind::Empty(()) => Kind::Empty(prefix),
            Kind::Leaf((), value) => Kind::Leaf(prefix, value),
            Kind::Node4((), keys, map) => Kind::Node4(prefix, keys, map),
            Kind::Node16((), map) => Kind::Node16(prefix, map),
            Kind::Node48((), map) => Kind::Node48(prefix, map),
            Kind::Node256((), map) => Kind::Node256(prefix, map),
        };
        Storage { kind }
    }
}

/// Moves a prefix out of storage that is about to be replaced.
#[inline(always)]
pub(super) fn take_prefix<P: Partial>(place: &mut P) -> P
    ensures { result ≡ place.old }
{
    mem::replace(place, P::from_slice(&[]))
}
