//! Loads of pairs that ascend.
ghost use Rattle.std.specs.Prelude.{◌≡◌, ◌≤◌, IfNone, IfOk};
ghost use Rattle.rart_keys.specs.ArrayKeyBytes.{array_key_bytes};
ghost use Rattle.rart.specs.Steps.{pairs_in};
ghost use Rattle.rart_c.specs.Answers.{status_of};
ghost use Rattle.rart_c.specs.Loads.{AreWithin, Loads, LoadsTree, first_too_long};
ghost use Rattle.rart_c.specs.Pairs128.{lens_read, pair_in, pairs_read};

use crate::map128::handle::{Rart128, give};
use crate::map128::keys::WIDTH;
use crate::map128::pairs::Rart128Pair;
use crate::map128::{Map128, Tree};
use crate::status::{DONE, FULL, KEY_TOO_LONG, NO_MEMORY, UNSORTED};
use rart::{ArrayKey, BulkError, KeyTrait};
use std::alloc::{AllocError, Global};

/// Returns the place of the first pair whose key is too long.
fn too_long_in(pairs: &[Rart128Pair]) -> Option<usize>
    ensures place { result ≡ first_too_long 128 (lens_read pairs.now) }
    ensures fit { IfNone result (AreWithin 128 (lens_read pairs.now)) }
{
    let mut at: usize = 0;
    let mut rest = pairs;
    while let Some((pair, tail)) = rest.split_first() {
        if pair.len > WIDTH {
            return Some(at);
        }
        at += 1;
        rest = tail;
    }
    None
}

/// Returns the key of a pair.
fn key_in(pair: &Rart128Pair) -> ArrayKey<128>
    requires { pair.now.len ≤ 128 }
    ensures { (array_key_bytes result, pair.now.value) ≡ pair_in pair.now }
{
    ArrayKey::new_from_slice(&pair.key[..pair.len])
}

/// Returns the keys and values of pairs, none of whose keys is too long.
fn read_pairs(alloc: Global, pairs: &[Rart128Pair]) -> Result<Vec<(ArrayKey<128>, u64)>, AllocError>
    requires { AreWithin 128 (lens_read pairs.now) }
    ensures { IfOk result (λ items. pairs_in array_key_bytes items.items ≡ pairs_read pairs.now) }
{
    let mut items = Vec::with_capacity(alloc, pairs.len())?;
    let mut rest = pairs;
    while let Some((pair, tail)) = rest.split_first() {
        items.push((key_in(pair), pair.value))?;
        rest = tail;
    }
    Ok(items)
}

/// Returns the tree of these pairs, which must ascend.
fn load(alloc: Global, items: Vec<(ArrayKey<128>, u64)>) -> Result<Tree, BulkError>
    ensures { LoadsTree (pairs_in array_key_bytes items.items) result }
{
    Tree::bulk_load_sorted(alloc, items)
}

/// Replaces all pairs of a map by those of a buffer, whose keys must ascend; of equal keys the last pair stays. Writes
/// the place of the first pair that is refused, if its key is too long or below the one before it, to `at`.
#[unsafe(no_mangle)]
pub extern "C" fn rart128_load_sorted(
    map: &mut Rart128,
    alloc: Global,
    pairs: &[Rart128Pair],
    at: &mut usize,
) -> u8
    ensures { Loads 128 (lens_read pairs.now) (pairs_read pairs.now)
        map.old.held.tree.pairs map.new.held.tree.pairs at.old at.new (status_of result) }
{
    if let Some(place) = too_long_in(pairs) {
        *at = place;
        return KEY_TOO_LONG;
    }
    let Ok(items) = read_pairs(alloc, pairs) else {
        return NO_MEMORY;
    };
    let tree = match load(alloc, items) {
        Ok(tree) => tree,
        Err(BulkError::Memory) => return NO_MEMORY,
        Err(BulkError::Full) => return FULL,
        Err(BulkError::Unsorted { at: place }) => {
            *at = place;
            return UNSORTED;
        }
    };
    let Ok(held) = Box::new(alloc, Map128 { tree }) else {
        return NO_MEMORY;
    };
    give(map, alloc, held);
    DONE
}
