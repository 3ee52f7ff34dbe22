//! Bounds of keys, cut on the way down to a node: the rest of a bound after a prefix, and at a child.

// At a node on the path to a bound, a walk continues with the bound's bytes after the node's prefix, or without a bound
// if all keys of the node are within it. So no byte of the path is kept.

ghost use Rattle.std.specs.Cmp.Lexicographic.{slice_cmp};
ghost use Rattle.std.specs.Ordering.{nat_cmp};
ghost use Rattle.std.specs.Prelude.{◌≡◌, ◌&&◌, ◌||◌, [], option_map};
ghost use Rattle.rart_keys.specs.ByteStrings.{strip_prefix};
ghost use Rattle.rart_keys.specs.Ranges.{bound_bytes, bound_in, is_from, is_inclusive, is_to};
ghost use Rattle.rart_trie.specs.ranges.BoundCuts.{bound_at, bound_by, bound_past, bound_with, byte_below, first_cmp};
ghost use Rattle.rart_trie.specs.ranges.BoundCuts.{is_bounded, is_in, is_inside, rest_past};
ghost use Rattle.rart_trie.specs.ranges.LentBounds.{lent_bound};

use crate::node::ends::End;
use crate::node::rest::strip_prefix;
use rart_keys::{KeyTrait, Partial};
use std::cmp::Ordering;
use std::ops::Bound;

/// Returns a bound by the bytes of its key.
pub fn slice_bound<K: KeyTrait>(bound: &Bound<K>) -> Bound<&[u8]>
    ensures { lent_bound result ≡ bound_in K.bytes bound.now }
{
    match bound {
        Bound::Included(key) => Bound::Included(key.as_ref()),
        Bound::Excluded(key) => Bound::Excluded(key.as_ref()),
        Bound::Unbounded => Bound::Unbounded,
    }
}

/// Returns the bytes of a start and whether it is inclusive. Without a start, the bytes are empty.
pub fn bytes_of(start: Bound<&[u8]>) -> (&[u8], bool)
    ensures bytes { result.0.now ≡ bound_bytes (lent_bound start.entry) }
    ensures inclusive { result.1 ≡ is_inclusive (lent_bound start.entry) }
{
    match start {
        Bound::Included(bytes) => (bytes, true),
        Bound::Excluded(bytes) => (bytes, false),
        Bound::Unbounded => (&[], true),
    }
}

/// Returns whether keys that differ from a bound and compare so with it are within it.
fn are_inside(side: End, at: Ordering) -> bool
    ensures { result ≡ is_inside side at }
{
    match (side, at) {
        (End::First, Ordering::Greater) => true,
        (End::First, _) => false,
        (End::Last, Ordering::Less) => true,
        (End::Last, _) => false,
    }
}

/// Returns whether a bound isn't `Unbounded`.
fn is_bounded(bound: Bound<&[u8]>) -> bool
    ensures { result ≡ is_bounded (lent_bound bound.entry) }
{
    match bound {
        Bound::Included(_) => true,
        Bound::Excluded(_) => true,
        Bound::Unbounded => false,
    }
}

/// Returns whether one of two bounds isn't `Unbounded`.
pub fn has_bounds(start: Bound<&[u8]>, end: Bound<&[u8]>) -> bool
    ensures { result ≡ is_bounded (lent_bound start.entry) || is_bounded (lent_bound end.entry) }
{
    is_bounded(start) || is_bounded(end)
}

/// Returns whether the empty key is within a bound.
pub fn holds_empty(side: End, bound: Bound<&[u8]>) -> bool
    ensures { result ≡ is_in side (lent_bound bound.entry) [] }
{
    match (side, bound) {
        (_, Bound::Unbounded) => true,
        (End::First, Bound::Included(bytes)) => bytes.is_empty(),
        (End::First, Bound::Excluded(_)) => false,
        (End::Last, Bound::Included(_)) => true,
        (End::Last, Bound::Excluded(bytes)) => !bytes.is_empty(),
    }
}

/// Returns whether the empty key is within both bounds.
pub(crate) fn both_hold_empty(start: Bound<&[u8]>, end: Bound<&[u8]>) -> bool
    ensures { result ≡ is_from (lent_bound start.entry) [] && is_to (lent_bound end.entry) [] }
{
    holds_empty(End::First, start) && holds_empty(End::Last, end)
}

/// Returns the bound of these bytes.
fn bound_of(bytes: &[u8], included: bool) -> Bound<&[u8]>
    ensures { lent_bound result ≡ bound_with included bytes.now }
{
    if included {
        Bound::Included(bytes)
    } else {
        Bound::Excluded(bytes)
    }
}

/// Returns the bound of `bytes` for the keys of a node, from its prefix on, or `None` if none of them is within it.
fn rest_after<'k, P: Partial>(
    side: End,
    prefix: &P,
    bytes: &'k [u8],
    included: bool,
) -> Option<Bound<&'k [u8]>>
    ensures { option_map lent_bound result
        ≡ rest_past side (slice_cmp nat_cmp (P.bytes prefix.now) bytes.now) included
        (strip_prefix (P.bytes prefix.now) bytes.now) }
{
    if let Some(rest) = strip_prefix(prefix, bytes) {
        return Some(bound_of(rest, included));
    }
    if are_inside(side, prefix.to_slice().cmp(bytes)) {
        return Some(Bound::Unbounded);
    }
    None
}

/// Returns `bound` for the keys of a node, from its prefix on, or `None` if none of them is within it.
pub fn after_prefix<'k, P: Partial>(
    side: End,
    prefix: &P,
    bound: Bound<&'k [u8]>,
) -> Option<Bound<&'k [u8]>>
    ensures { option_map lent_bound result
        ≡ bound_past side (P.bytes prefix.now) (lent_bound bound.entry) }
{
    match bound {
        Bound::Included(bytes) => rest_after(side, prefix, bytes, true),
        Bound::Excluded(bytes) => rest_after(side, prefix, bytes, false),
        Bound::Unbounded => Some(Bound::Unbounded),
    }
}

/// Returns how the keys that begin with a byte compare with `bytes`. Those that continue as these do are `Equal`.
fn compare_first(byte: u8, bytes: &[u8]) -> Ordering
    ensures { result ≡ first_cmp byte bytes.now }
{
    match bytes.first() {
        Some(first) => byte.cmp(first),
        None => Ordering::Greater,
    }
}

/// Returns `bound` if its first byte begins the keys, which then are `Equal`. For other keys, returns `Unbounded` if
/// they are within it, and `None` if not.
fn bound_for<'k>(side: End, bound: Bound<&'k [u8]>, at: Ordering) -> Option<Bound<&'k [u8]>>
    ensures { option_map lent_bound result ≡ bound_by side (lent_bound bound.entry) at }
{
    if let Ordering::Equal = at {
        return Some(bound);
    }
    if are_inside(side, at) {
        return Some(Bound::Unbounded);
    }
    None
}

/// Returns `bound` for the keys of the child at a byte, or `None` if none of them is within it.
pub fn at_child<'k>(side: End, byte: u8, bound: Bound<&'k [u8]>) -> Option<Bound<&'k [u8]>>
    ensures { option_map lent_bound result ≡ bound_at side byte (lent_bound bound.entry) }
{
    match bound {
        Bound::Included(bytes) => bound_for(side, bound, compare_first(byte, bytes)),
        Bound::Excluded(bytes) => bound_for(side, bound, compare_first(byte, bytes)),
        Bound::Unbounded => Some(Bound::Unbounded),
    }
}

/// Returns the byte below the first byte of a start, if there is one: no key that begins with it, or with a lower byte,
/// is within the start.
pub fn byte_below(start: Bound<&[u8]>) -> Option<u8>
    ensures { result ≡ byte_below (bound_bytes (lent_bound start.entry)) }
{
    match bytes_of(start).0.first() {
        Some(byte) => byte.checked_sub(1),
        None => None,
    }
}
