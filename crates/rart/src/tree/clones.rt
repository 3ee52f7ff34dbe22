//! The clone of a tree.
ghost use Rattle.std.specs.Prelude.{◌≡◌, ◌≢◌, [], IfOk, OnErr};
ghost use Rattle.std.specs.List.{AllZip};
ghost use Rattle.rart_keys.specs.SortedMap.{keys_of, values_of};

use crate::tree::AdaptiveRadixTree;
use crate::tree::bulk::loader::Loader;
use rart_keys::KeyTrait;
use std::alloc::AllocError;

/// Builds the clone bottom up from the keys and the clones of the values: each node is made once, of its final kind.
impl<K: KeyTrait + Drop, V: Clone> Clone for AdaptiveRadixTree<K, V> {
    ghost use Rattle.std.specs.Prelude.{◌≡◌, []};
    ghost use Rattle.rart.specs.Clones.{IsTreeClone};

    ghost is_clone = { λ m n. IsTreeClone V.is_clone m n };

    ghost is_infallible = { λ m. m.pairs ≡ [] };

    /// Returns a tree with the same keys, a clone of each value, the same nodes and the same allocator.
    ///
    /// # Errors
    ///
    /// [`AllocError`] if an allocation or the clone of a value fails, which needs a tree that isn't empty. What was
    /// cloned until then is dropped.
    fn clone(&self) -> Result<Self, AllocError> {
        self.canonical();
        rart_laws::one_shape();
        let loader = read_clones(self)?;
        let Ok(tree) = loader.into_tree() else {
            return Err(AllocError);
        };
        Ok(tree)
    }
}

/// Returns the pairs of a tree, with the clone of each value.
fn read_clones<K: KeyTrait + Drop, V: Clone>(
    old: &AdaptiveRadixTree<K, V>,
) -> Result<Loader<K, V>, AllocError>
    ensures keys { IfOk result (λ m. keys_of m ≡ keys_of old.now.pairs) }
    ensures values { IfOk result
        (λ m. AllZip V.is_clone (values_of old.now.pairs) (values_of m)) }
    ensures allocates { OnErr result (old.now.pairs ≢ []) }
{
    old.canonical();
    let mut loader = Loader::new(old.alloc);
    let Ok(mut rest) = old.iter() else {
        return Err(AllocError);
    };
    while let Some((key, value)) = rest.next() {
        let Ok(()) = loader.append(key, value.clone()?) else {
            return Err(AllocError);
        };
    }
    Ok(loader)
}
