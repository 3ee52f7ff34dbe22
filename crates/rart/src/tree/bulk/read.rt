//! Items of a bulk load, read one after the other.
ghost use Rattle.std.specs.Prelude.{◌≡◌, IfErr, IfOk};
ghost use Rattle.std.specs.Iterator.{IsFinite};
ghost use Rattle.rart.specs.BulkLoads.{AscendAlong, LoadsSorted, Reads, ReadsAll, FailsSorted, FailsUnique};
ghost use Rattle.rart.specs.Steps.{pairs_in};

use crate::bulk::BulkError;
use crate::tree::bulk::loader::Loader;
use rart_keys::KeyTrait;
use std::alloc::Global;

/// Returns the pairs that the items leave, of equal keys the last. Fails as the sorted load.
pub(super) fn read_sorted<K: KeyTrait + Drop, V: Drop, I: IntoIterator<Item = (K, V)>>(
    alloc: Global,
    items: I,
) -> Result<Loader<K, V>, BulkError>
    requires { (s : I.IntoIter) → I.into_iter_gives items s → I.IntoIter.can_next s
        × IsFinite (I.IntoIter.remaining s) }
    ensures read { IfOk result (λ m. ReadsAll I.into_iter_gives I.IntoIter.next_gives items
        (λ xs. LoadsSorted (pairs_in K.bytes xs) m)) }
    ensures refused { IfErr result (λ error. Reads I.into_iter_gives I.IntoIter.next_gives items
        (λ xs. FailsSorted (pairs_in K.bytes xs) error)) }
{
    let mut loader = Loader::new(alloc);
    let mut at: usize = 0;
    for (key, value) in items {
        if let Err(error) = loader.keep_last(key, value, at) {
            return Err(error);
        }
        at = at.saturating_add(1);
    }
    Ok(loader)
}

/// Returns the pairs of items that ascend strictly. Fails as the unique load.
pub(super) fn read_unique<K: KeyTrait + Drop, V: Drop, I: IntoIterator<Item = (K, V)>>(
    alloc: Global,
    items: I,
) -> Result<Loader<K, V>, BulkError>
    requires { (s : I.IntoIter) → I.into_iter_gives items s → I.IntoIter.can_next s
        × IsFinite (I.IntoIter.remaining s) × AscendAlong K.bytes I.IntoIter.next_gives s }
    ensures read { IfOk result (λ m. ReadsAll I.into_iter_gives I.IntoIter.next_gives items
        (λ xs. m ≡ pairs_in K.bytes xs)) }
    ensures refused { IfErr result (λ error. Reads I.into_iter_gives I.IntoIter.next_gives items
        (λ xs. FailsUnique (pairs_in K.bytes xs) error)) }
{
    let mut loader = Loader::new(alloc);
    for (key, value) in items {
        if let Err(error) = loader.append(key, value) {
            return Err(error);
        }
    }
    Ok(loader)
}
