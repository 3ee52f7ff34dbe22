//! The tree of keys and values at indices, built in one pass.
ghost use Rattle.std.specs.Prelude.{◌≡◌, ◌<◌, ◌≤◌, List, length, IfErr, IfOk, OnErr};
ghost use Rattle.rart_keys.specs.ByteStrings.{IsLess};
ghost use Rattle.rart_keys.specs.KeyBytes.{IsWithin};
ghost use Rattle.rart_keys.specs.SortedMap.{keys_of, longest_key, values_of};
ghost use Rattle.rart_parts.specs.Errors.{IsMemory};
ghost use Rattle.rart_trie.specs.tries.Trie.{IsCanonical, pairs_of};
ghost use Rattle.rart.specs.BulkLoads.{AreKeysAt, CanTake, Takes};

use rart_keys::KeyTrait;
use rart_nodes::node::{Builder, DefaultNode};
use rart_parts::TreeError;
use std::alloc::Global;

/// Returns the root of the tree of at least one key, each with the value at its index, and a length that none exceeds.
/// Fails with `Memory` alone; a beginning of the values was then taken.
pub(super) fn build_by_index<
    'a,
    K: KeyTrait + 'a,
    V: Drop,
    F: Fn(usize) -> &'a K,
    G: FnMut(usize) -> V,
>(
    alloc: Global,
    len: usize,
    key_at: &F,
    take_value: &mut G,
) -> Result<(DefaultNode<K::PartialType, V>, usize), TreeError>
    requires nonempty { 0 < len }
    requires key_at { (i : _) → i < len → F.pre key_at.now i }
    requires ascending { (i j : _) (k l : _) → i < j → j < len → F.post key_at.now i k
        → F.post key_at.now j l → IsLess (K.bytes k.now) (K.bytes l.now) }
    requires callable { CanTake G.pre G.step 0 len take_value.old }
    ensures canonical { IfOk result (λ r. IsCanonical r.0) }
    ensures count { IfOk result (λ r. length (pairs_of r.0) ≡ len) }
    ensures keys { IfOk result
        (λ r. AreKeysAt (λ i key. (k : _) × F.post key_at.now i k × (key ≡ K.bytes k.now))
        (keys_of (pairs_of r.0))) }
    ensures values { IfOk result
        (λ r. Takes G.step 0 take_value.old (values_of (pairs_of r.0)) take_value.new) }
    ensures longest { IfOk result (λ r. longest_key (pairs_of r.0) ≤ r.1) }
    ensures within { IfOk result (λ r. IsWithin K.MAXIMUM_SIZE r.1) }
    ensures values_taken { OnErr result ((vs : List V) × (length vs ≤ len)
        × Takes G.step 0 take_value.old vs take_value.new) }
    ensures memory { IfErr result IsMemory }
{
    let mut builder = Builder::new(alloc);
    let mut last = key_at(0).as_ref();
    let mut longest = last.len();
    let mut at = 0;
    while at + 1 < len {
        let next = key_at(at + 1).as_ref();
        builder.put(last, take_value(at), next)?;
        longest = longest.max(next.len());
        last = next;
        at += 1;
    }
    let root = builder.finish(last, take_value(at))?;
    Ok((root, longest))
}
