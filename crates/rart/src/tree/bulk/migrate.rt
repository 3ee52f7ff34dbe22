//! Trees of text keys that end in a zero byte, migrated to keys without it.
ghost use Rattle.std.specs.Prelude.{◌≡◌, ◌≢◌, ℕ, List, [], IfErr, IfNone, IfOk, IfSome, OnErr, OnOk};
ghost use Rattle.rart_keys.specs.ArrayKeyBytes.{array_key_bytes};
ghost use Rattle.rart_keys.specs.SortedMap.{keys_of};
ghost use Rattle.rart_trie.specs.shapes.Shape.{HasShape};
ghost use Rattle.rart.specs.Migrations.{AreTerminated, FailsMigration, terminated_key, with_zeros};

use crate::migrate::MigrateError;
use crate::tree::AdaptiveRadixTree;
use crate::tree::bulk::loader::Loader;
use rart_keys::laws::key_order::closing_zeros;
use rart_keys::{ArrayKey, KeyTrait};

impl<const N: usize, V: Copy> AdaptiveRadixTree<ArrayKey<N>, V> {
    /// Builds the tree of `old`'s pairs, each key without its closing zero byte, with `old`'s allocator.
    ///
    /// A first walk tests all keys, and a second one reads them. Each allocates before the first key.
    ///
    /// # Errors
    ///
    /// [`MigrateError::NotText`] at the first key that doesn't end in a zero byte; no node is then allocated.
    /// [`MigrateError::Memory`] if an allocation fails, which needs an `old` that isn't empty.
    pub fn drop_closing_zeros(old: &Self) -> Result<Self, MigrateError>
        ensures pairs { IfOk result (λ tree. old.now.pairs ≡ with_zeros tree.pairs) }
        ensures shape { IfOk result (λ tree. HasShape (keys_of tree.pairs) tree.nodes) }
        ensures refused { IfErr result (FailsMigration old.now.pairs) }
    {
        old.canonical();
        closing_zeros();
        test_texts(old)?;
        let loader = read_texts(old)?;
        let Ok(tree) = loader.into_tree() else {
            return Err(MigrateError::Memory);
        };
        Ok(tree)
    }
}

/// Tests that each key of a tree ends in a zero byte. Allocates before the first is read.
fn test_texts<const N: usize, V: Copy>(
    old: &AdaptiveRadixTree<ArrayKey<N>, V>,
) -> Result<(), MigrateError>
    ensures texts { OnOk result (AreTerminated (keys_of old.now.pairs)) }
    ensures refused { IfErr result (FailsMigration old.now.pairs) }
{
    let Ok(mut rest) = old.iter() else {
        return Err(MigrateError::Memory);
    };
    for at in 0..old.len() {
        let Some((key, _)) = rest.next() else {
            unreachable!()
        };
        let Some(_text) = without_zero(&key) else {
            return Err(MigrateError::NotText { at });
        };
    }
    Ok(())
}

/// Returns the pairs of a tree, each key without its closing zero. Allocates before the first is read.
fn read_texts<const N: usize, V: Copy>(
    old: &AdaptiveRadixTree<ArrayKey<N>, V>,
) -> Result<Loader<ArrayKey<N>, V>, MigrateError>
    requires { AreTerminated (keys_of old.now.pairs) }
    ensures pairs { IfOk result (λ m. old.now.pairs ≡ with_zeros m) }
    ensures memory { IfErr result (λ e. e ≡ MigrateError.Memory) }
    ensures allocates { OnErr result (old.now.pairs ≢ []) }
{
    old.canonical();
    closing_zeros();
    let mut loader = Loader::new(old.alloc);
    let Ok(mut rest) = old.iter() else {
        return Err(MigrateError::Memory);
    };
    while let Some((key, value)) = rest.next() {
        let Some(text) = without_zero(&key) else {
            unreachable!()
        };
        let Ok(()) = loader.append(text, *value) else {
            return Err(MigrateError::Memory);
        };
    }
    Ok(loader)
}

/// Returns the key without its closing zero byte, `None` if it has none.
fn without_zero<const N: usize>(key: &ArrayKey<N>) -> Option<ArrayKey<N>>
    ensures text { IfSome result
        (λ text. array_key_bytes key.now ≡ terminated_key (array_key_bytes text)) }
    ensures no_text { IfNone result
        ((text : List ℕ) → array_key_bytes key.now ≢ terminated_key text) }
{
    match key.as_slice().split_last() {
        Some((&0, text)) => Some(ArrayKey::new_from_slice(text)),
        _ => None,
    }
}
