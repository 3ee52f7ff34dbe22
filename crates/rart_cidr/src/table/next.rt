//! The next route in the strides at beginnings of some octets.
ghost use Rattle.std.specs.Prelude.{◌≡◌, ◌≤◌, [], ◌∷◌, length, option_map};
ghost use Rattle.std.specs.Option.{option_copied};
ghost use Rattle.rart_keys.specs.SortedMap.{lookup};
ghost use Rattle.rart_cidr.specs.Routes.{IsCode, coded_network, stride_at};
ghost use Rattle.rart_cidr.specs.Walks.{IsBefore, IsCodeFrom, IsLastBefore, IsNextAt, IsNextBefore};

use crate::bits::code_of;
use crate::stride::Stride;
use crate::table::first_octets;
use rart::{AdaptiveRadixTree, KeyTrait};
use rart_keys::strip_prefix;

/// Returns the target of the stride at `octets` at a code.
pub(crate) fn target_of<'a, K: KeyTrait, T>(
    strides: &'a AdaptiveRadixTree<K, Stride<T>>,
    octets: &[u8],
    code: u8,
) -> Option<&'a T>
    ensures { option_copied result ≡ lookup (code ∷ []) (stride_at octets.now strides.now.pairs) }
{
    match strides.get_bytes(octets) {
        Some(stride) => stride.get(code),
        None => None,
    }
}

// Returns the last code of the stride at `prefix` whose network comes before the stride ahead.
fn last_before<K: KeyTrait>(prefix: &[u8], ahead: &Option<K>) -> u8
    ensures { IsLastBefore prefix.now (option_map K.bytes ahead.now) result }
{
    let Some(key) = ahead else {
        return 255;
    };
    let Some(rest) = strip_prefix(prefix, key.as_ref()) else {
        return 255;
    };
    match rest.first() {
        Some(&byte) => code_of(byte, 7),
        None => 255,
    }
}

// Returns the code of the stride at the first `at` octets after which the networks after that of `octets` and `code`
// come.
fn code_at(octets: &[u8], code: u8, at: usize) -> u8
    requires at { at ≤ length octets.now }
    requires code { IsCode (code ∷ []) }
    ensures { IsCodeFrom octets.now code at result }
{
    if at == octets.len() {
        code
    } else {
        code_of(octets[at], 7)
    }
}

// Returns the first route after the network of `octets` and `code`, of those in the stride at the first `at` octets
// that come before the stride ahead.
fn next_at<'a, K: KeyTrait, T>(
    strides: &'a AdaptiveRadixTree<K, Stride<T>>,
    octets: &[u8],
    code: u8,
    at: usize,
    ahead: &Option<K>,
) -> Option<(u8, &'a T)>
    requires at { at ≤ length octets.now }
    requires code { IsCode (code ∷ []) }
    requires ahead { IsBefore (coded_network octets.now (code ∷ []))
        (option_map K.bytes ahead.now) }
    ensures { IsNextAt strides.now.pairs octets.now (coded_network octets.now (code ∷ [])) at
        (option_map K.bytes ahead.now) (option_map (λ p. (p.0, p.1.now)) result) }
{
    let prefix = first_octets(octets, at);
    let from = code_at(octets, code, at);
    let last = last_before(prefix, ahead);
    match strides.get_bytes(prefix) {
        Some(stride) => stride.next(from, last),
        None => None,
    }
}

/// Returns the first route after the network of `octets` and `code`, of those in the strides at beginnings of the
/// octets that come before the stride ahead: the number of octets, the code and the target.
pub(crate) fn next_before<'a, K: KeyTrait, T>(
    strides: &'a AdaptiveRadixTree<K, Stride<T>>,
    octets: &[u8],
    code: u8,
    ahead: &Option<K>,
) -> Option<(usize, u8, &'a T)>
    requires code { IsCode (code ∷ []) }
    requires ahead { IsBefore (coded_network octets.now (code ∷ []))
        (option_map K.bytes ahead.now) }
    ensures { IsNextBefore strides.now.pairs octets.now (coded_network octets.now (code ∷ []))
        (option_map K.bytes ahead.now) (option_map (λ p. (p.0, p.1, p.2.now)) result) }
{
    let mut at = octets.len();
    loop {
        if let Some((found, target)) = next_at(strides, octets, code, at, ahead) {
            return Some((at, found, target));
        }
        if at == 0 {
            return None;
        }
        at -= 1;
    }
}
