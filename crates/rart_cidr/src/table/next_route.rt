//! The next route after a network, found without an allocation.

// This is the walk of `walk.rt`, which looks up the key of the next stride ahead where that one steps a range.

ghost use Rattle.std.specs.Prelude.{◌≡◌, ◌≤◌, ◌*◌, [], ◌∷◌, false, length, option_map, slice_get, IfSome};
ghost use Rattle.std.specs.declared.ops.Bound.TheVariants.{Excluded, Included};
ghost use Rattle.rart_keys.specs.KeyBytes.{IsWithin};
ghost use Rattle.rart_keys.specs.Ranges.{from_bound, pairs_from};
ghost use Rattle.rart_cidr.specs.Bits.{AreClearAfter, bits_of, network};
ghost use Rattle.rart_cidr.specs.Routes.{IsCode, coded_network, routes_of};
ghost use Rattle.rart_cidr.specs.Fields.{IsAtNetwork, IsFirstAfter};

use crate::bits::code_of;
use crate::stride::Stride;
use crate::table::next::{next_before, target_of};
use crate::table::{BitTable, first_octets, octet_at};
use rart::{AdaptiveRadixTree, KeyTrait};

// Returns the key of the first stride at or after the bytes `probe`.
fn key_from<K: KeyTrait, T>(strides: &AdaptiveRadixTree<K, Stride<T>>, probe: &[u8]) -> Option<K>
    ensures { option_map K.bytes result ≡ option_map (λ e. e.0)
        (slice_get (from_bound (Included probe.now) strides.now.pairs) 0) }
{
    match strides.first_at_or_after_bytes(probe) {
        Some((key, _)) => Some(key),
        None => None,
    }
}

// Returns the key of the first stride after the bytes `probe`.
fn key_after<K: KeyTrait, T>(strides: &AdaptiveRadixTree<K, Stride<T>>, probe: &[u8]) -> Option<K>
    ensures { option_map K.bytes result ≡ option_map (λ e. e.0)
        (slice_get (from_bound (Excluded probe.now) strides.now.pairs) 0) }
{
    match strides.first_after_bytes(probe) {
        Some((key, _)) => Some(key),
        None => None,
    }
}

// Returns the key of the first stride whose bytes come after the network of the first `bits` bits of some octets, of
// which the others are zeros.
fn key_ahead<K: KeyTrait, T>(
    strides: &AdaptiveRadixTree<K, Stride<T>>,
    octets: &[u8],
    bits: usize,
) -> Option<K>
    requires bits { bits ≤ 8 * length octets.now }
    requires clear { AreClearAfter (bits_of octets.now) bits }
    ensures { IsFirstAfter K.bytes (network octets.now bits) strides.now.pairs result }
{
    if bits % 8 == 0 {
        key_after(strides, first_octets(octets, bits / 8))
    } else {
        key_from(strides, first_octets(octets, bits / 8 + 1))
    }
}

// Returns the next route after the network of `key` and `code`, where `ahead` is the key of the first stride ahead: the
// bytes and the code of its network, and its target.
fn next_from<'a, K: KeyTrait + Drop, T>(
    strides: &'a AdaptiveRadixTree<K, Stride<T>>,
    mut key: K,
    mut code: u8,
    mut ahead: Option<K>,
) -> Option<(K, u8, &'a T)>
    requires { IsAtNetwork K.bytes strides.now.pairs (K.bytes key) code ahead }
    ensures code { IfSome result (λ p. IsCode (p.1 ∷ [])) }
    ensures value { option_map (λ p. (coded_network (K.bytes p.0) (p.1 ∷ []), p.2.now)) result
        ≡ slice_get (pairs_from false (coded_network (K.bytes key) (code ∷ []))
        (routes_of strides.now.pairs)) 0 }
{
    strides.canonical();
    loop {
        if let Some((at, found, target)) = next_before(strides, key.as_ref(), code, &ahead) {
            return Some((key.truncate(at), found, target));
        }
        let Some(next) = ahead else {
            return None;
        };
        let octets = next.as_ref();
        if let Some(target) = target_of(strides, octets, 1) {
            return Some((next, 1, target));
        }
        ahead = key_after(strides, octets);
        key = next;
        code = 1;
    }
}

impl<K: KeyTrait + Drop, T> BitTable<K, T> {
    /// Returns the next route after the network of the first `bits` bits of `octets`, as the bytes and the code of its
    /// network, and its target; the other bits must be zeros. It does not allocate.
    pub(crate) fn next_route(&self, octets: &[u8], bits: usize) -> Option<(K, u8, &T)>
        requires bits { bits ≤ 8 * length octets.now }
        requires within { IsWithin K.MAXIMUM_SIZE (length octets.now) }
        requires clear { AreClearAfter (bits_of octets.now) bits }
        ensures code { IfSome result (λ p. IsCode (p.1 ∷ [])) }
        ensures value { option_map (λ p. (coded_network (K.bytes p.0) (p.1 ∷ []), p.2.now)) result
            ≡ slice_get (pairs_from false (network octets.now bits) self.now) 0 }
    {
        self.strides.canonical();
        let key = K::new_from_slice(first_octets(octets, bits / 8));
        let code = code_of(octet_at(octets, bits / 8), bits % 8);
        let ahead = key_ahead(&self.strides, octets, bits);
        next_from(&self.strides, key, code, ahead)
    }
}
