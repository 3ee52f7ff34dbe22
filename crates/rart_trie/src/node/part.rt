//! A part of a tree: which of its keys a walk visits, cut on the way down to a node.

// At a node a walk continues with what the part has of the keys after the node's prefix, and at a child with what it
// has of those that begin with the child's byte. So no byte of the path is needed to decide which children are visited.

ghost use Rattle.std.specs.Prelude.{ℕ, IfSome, List, Some, ◌≡◌, ◌&&◌, ◌++◌, [], false, option_map, slice_get, true};
ghost use Rattle.rart_keys.specs.ByteStrings.{begins};
ghost use Rattle.rart_keys.specs.Ranges.{is_from, is_to};
ghost use Rattle.rart_trie.specs.declared.node.part.Part.TheVariants.{All, Nothing};
ghost use Rattle.rart_trie.specs.ranges.LentBounds.{lent_bound};
ghost use Rattle.rart_trie.specs.ranges.Parts.{byte_within, is_above_first, is_in_part, is_past, part_low};
ghost use Rattle.rart_trie.specs.ranges.Starts.{entries_after};
ghost use Rattle.rart_trie.specs.storages.Stored.{child_entries};
ghost use Rattle.rart_trie.specs.tries.Trie.{StartsWith};

use crate::node::DefaultNode;
use crate::node::bounds::{after_prefix, at_child, both_hold_empty, byte_below, has_bounds};
use crate::node::ends::End;
use crate::node::rest::strip_prefix;
use crate::node::storage::Storage;
use rart_keys::Partial;
use std::ops::Bound;

/// Names keys of a tree.
#[derive(Clone, Copy)]
pub(crate) enum Part<'k> {
    /// All keys.
    All,
    /// No key.
    Nothing,
    /// The keys that begin with a prefix.
    Below(&'k [u8]),
    /// The keys within two bounds.
    Between(Bound<&'k [u8]>, Bound<&'k [u8]>),
}

/// Returns the part of the keys within two bounds.
pub(crate) fn part_between<'k>(start: Bound<&'k [u8]>, end: Bound<&'k [u8]>) -> Part<'k>
    ensures { (k : List ℕ) → is_in_part result k
        ≡ is_from (lent_bound start.entry) k && is_to (lent_bound end.entry) k }
{
    if has_bounds(start, end) {
        Part::Between(start, end)
    } else {
        Part::All
    }
}

/// Returns the keys that begin with `bytes`, from a node's prefix on.
fn below_after<'k, P: Partial>(prefix: &P, bytes: &'k [u8]) -> Part<'k>
    ensures { (k : List ℕ) → is_in_part result k ≡ begins bytes.now (P.bytes prefix.now ++ k) }
{
    if let Some(rest) = strip_prefix(prefix, bytes) {
        return Part::Below(rest);
    }
    if prefix.starts_with(bytes) {
        return Part::All;
    }
    Part::Nothing
}

/// Returns the keys within two bounds, from a node's prefix on.
fn between_after<'k, P: Partial>(
    prefix: &P,
    start: Bound<&'k [u8]>,
    end: Bound<&'k [u8]>,
) -> Part<'k>
    ensures { (k : List ℕ) → is_in_part result k
        ≡ is_from (lent_bound start.entry) (P.bytes prefix.now ++ k)
        && is_to (lent_bound end.entry) (P.bytes prefix.now ++ k) }
{
    let Some(low) = after_prefix(End::First, prefix, start) else {
        return Part::Nothing;
    };
    let Some(high) = after_prefix(End::Last, prefix, end) else {
        return Part::Nothing;
    };
    part_between(low, high)
}

/// Returns the keys of the child at a byte that begin with `bytes`.
fn below_at<'k>(byte: u8, bytes: &'k [u8]) -> Part<'k>
    ensures { (k : List ℕ) → StartsWith byte k → is_in_part result k ≡ begins bytes.now k }
{
    let Some(&first) = bytes.first() else {
        return Part::All;
    };
    if first == byte {
        return Part::Below(bytes);
    }
    Part::Nothing
}

/// Returns the keys of the child at a byte within two bounds.
fn between_at<'k>(byte: u8, start: Bound<&'k [u8]>, end: Bound<&'k [u8]>) -> Part<'k>
    ensures { (k : List ℕ) → StartsWith byte k → is_in_part result k
        ≡ is_from (lent_bound start.entry) k && is_to (lent_bound end.entry) k }
{
    let Some(low) = at_child(End::First, byte, start) else {
        return Part::Nothing;
    };
    let Some(high) = at_child(End::Last, byte, end) else {
        return Part::Nothing;
    };
    part_between(low, high)
}

/// Returns whether `byte` is above the first of some bytes.
fn is_above_first(byte: u8, bytes: &[u8]) -> bool
    ensures { result ≡ is_above_first byte bytes.now }
{
    match bytes.first() {
        Some(&first) => first < byte,
        None => false,
    }
}

impl<'k> Part<'k> {
    /// Returns what the part has of the keys of a node, from its prefix on.
    pub(crate) fn after_prefix<P: Partial>(self, prefix: &P) -> Part<'k>
        ensures { (k : List ℕ) → is_in_part result k
            ≡ is_in_part self.entry (P.bytes prefix.now ++ k) }
    {
        match self {
            Part::All => Part::All,
            Part::Nothing => Part::Nothing,
            Part::Below(bytes) => below_after(prefix, bytes),
            Part::Between(start, end) => between_after(prefix, start, end),
        }
    }

    /// Returns what the part has of the keys of the child at a byte.
    pub(crate) fn at_child(self, byte: u8) -> Part<'k>
        ensures { (k : List ℕ) → StartsWith byte k → is_in_part result k
            ≡ is_in_part self.entry k }
    {
        match self {
            Part::All => Part::All,
            Part::Nothing => Part::Nothing,
            Part::Below(bytes) => below_at(byte, bytes),
            Part::Between(start, end) => between_at(byte, start, end),
        }
    }

    /// Returns `true` if the part is all keys, `false` if it is no key, and `None` if it is named otherwise.
    pub(crate) fn holds_all(self) -> Option<bool>
        ensures holds { IfSome result (λ h. (k : List ℕ) → is_in_part self.entry k ≡ h) }
        ensures all { self.entry ≡ All → result ≡ Some true }
        ensures nothing { self.entry ≡ Nothing → result ≡ Some false }
    {
        match self {
            Part::All => Some(true),
            Part::Nothing => Some(false),
            Part::Below(_) | Part::Between(_, _) => None,
        }
    }

    /// Returns whether the part has the empty key.
    pub(crate) fn holds_empty(self) -> bool
        ensures { result ≡ is_in_part self.entry [] }
    {
        match self {
            Part::All => true,
            Part::Nothing => false,
            Part::Below(bytes) => bytes.is_empty(),
            Part::Between(start, end) => both_hold_empty(start, end),
        }
    }

    /// Returns a byte up to which no byte begins a key of the part, if there is one.
    fn low(self) -> Option<u8>
        ensures { result ≡ part_low self.entry }
    {
        match self {
            Part::All => None,
            Part::Nothing => None,
            Part::Below(bytes) => byte_below(Bound::Included(bytes)),
            Part::Between(start, _) => byte_below(start),
        }
    }

    /// Returns whether no key of the part begins with `byte` or with a greater one.
    fn is_past(self, byte: u8) -> bool
        ensures { result ≡ is_past self.entry byte }
    {
        match self {
            Part::All => false,
            Part::Nothing => true,
            Part::Below(bytes) => is_above_first(byte, bytes),
            Part::Between(_, end) => match at_child(End::Last, byte, end) {
                Some(_) => false,
                None => true,
            },
        }
    }

    /// Returns `byte`, or `None` if the part has no key from it on.
    fn within(self, byte: Option<u8>) -> Option<u8>
        ensures { result ≡ byte_within self.entry byte }
    {
        match byte {
            Some(found) => {
                if self.is_past(found) {
                    None
                } else {
                    Some(found)
                }
            }
            None => None,
        }
    }

    /// Returns the byte of a node's first child that may have keys of the part, or `None` if no child has one.
    pub(crate) fn first_byte<P: Partial, V>(
        self,
        storage: &Storage<P, V, DefaultNode<P, V>>,
    ) -> Option<u8>
        ensures { result ≡ byte_within self.entry (option_map (λ e. e.0)
            (slice_get (entries_after (part_low self.entry) (child_entries storage.now)) 0)) }
    {
        self.within(storage.first_byte_after(self.low()))
    }

    /// Returns the byte of the next child after `byte` that may have keys of the part, or `None` if no other child has
    /// one.
    pub(crate) fn byte_above<P: Partial, V>(
        self,
        storage: &Storage<P, V, DefaultNode<P, V>>,
        byte: u8,
    ) -> Option<u8>
        ensures { result ≡ byte_within self.entry (option_map (λ e. e.0)
            (slice_get (entries_after (Some byte) (child_entries storage.now)) 0)) }
    {
        self.within(storage.byte_above(byte))
    }
}
