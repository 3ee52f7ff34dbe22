//! Unions of two trees: the keys that either has, each with its value in each tree.

// Both trees are walked by an iterator, side by side: each pair of both is given, so that no node can be passed over.

ghost use Rattle.std.specs.Prelude.{◌≡◌, IfErr, IfOk, OnErr, OnOk};
ghost use Rattle.std.specs.Iterator.{YieldsFirstBy, item_count};
ghost use Rattle.std.specs.Option.{option_copied};
ghost use Rattle.rart.specs.UnionCalls.{CallsAtEither, CallsAtEitherByValue, CanCallAtEither, MayLackEither};
ghost use Rattle.rart.specs.Unions.{union_of};

use crate::tree::AdaptiveRadixTree;
use crate::tree::two_trees::ahead::Ahead;
use rart_keys::KeyTrait;
use rart_parts::TreeError;
use std::cmp::Ordering;
use std::iter::FusedIterator;
use std::marker::Model;

/// Iterates over the keys that either of two trees has, ascending, each with its value in each tree.
///
/// A contract reads it as the list of remaining keys, each with both values or one.
#[derive(Drop)]
pub struct UnionIter<'a, K: KeyTrait, V, W> {
    left: Ahead<'a, K, V>,
    right: Ahead<'a, K, W>,
}

impl<'a, K: KeyTrait, V, W> Model for UnionIter<'a, K, V, W> {
    ghost use Rattle.std.specs.Prelude.{ℕ, List, Option};
    ghost use Rattle.rart_keys.specs.SortedMap.{IsAscending};
    ghost use Rattle.rart.specs.Unions.{union_of};

    ghost Value = { List (List ℕ × (Option V × Option W)) };

    ghost view = { λ it. union_of it.left it.right };

    ghost invariant = { λ it. IsAscending it.left × IsAscending it.right };
}

impl<'a, K: KeyTrait + Drop, V, W> Iterator for UnionIter<'a, K, V, W> {
    type Item = (K, Option<&'a V>, Option<&'a W>);

    ghost next_gives = { YieldsFirstBy
        (λ p. (K.bytes p.0, (option_copied p.1, option_copied p.2))) (λ rest. rest) };

    ghost remaining = { item_count (λ rest. rest) };

    /// Returns no bound, as the walks do not count the remaining items.
    fn size_hint(&self) -> (usize, Option<usize>) {
        (0, None)
    }

    /// Returns the next key with its values. It is fused and does not allocate.
    fn next(&mut self) -> Option<(K, Option<&'a V>, Option<&'a W>)> {
        match self.left.order(&self.right)? {
            Ordering::Less => {
                let (key, value) = self.left.pop()?;
                Some((key, Some(value), None))
            }
            Ordering::Equal => {
                let (key, value) = self.left.pop()?;
                let (_, other) = self.right.pop()?;
                Some((key, Some(value), Some(other)))
            }
            Ordering::Greater => {
                let (key, other) = self.right.pop()?;
                Some((key, None, Some(other)))
            }
        }
    }
}

impl<'a, K: KeyTrait + Drop, V, W> FusedIterator for UnionIter<'a, K, V, W> {}

impl<K: KeyTrait + Drop, V> AdaptiveRadixTree<K, V> {
    /// Returns an iterator over the keys that either tree has, ascending, each with its value in each tree.
    ///
    /// Allocates here, for the walk of each tree that isn't empty; the iterator itself allocates nothing. Visits each
    /// node of both trees once. Of a key that both have it makes two, and drops one.
    ///
    /// # Errors
    ///
    /// [`TreeError::Memory`] if a tree isn't empty and the allocation for its walk fails.
    pub fn union_iter<'a, W>(
        &'a self,
        other: &'a AdaptiveRadixTree<K, W>,
    ) -> Result<UnionIter<'a, K, V, W>, TreeError>
        ensures pairs { IfOk result (λ it. it ≡ union_of self.now.pairs other.now.pairs) }
        ensures memory { IfErr result (MayLackEither self.now.pairs other.now.pairs) }
    {
        self.canonical();
        other.canonical();
        let left = self.iter()?;
        let right = other.iter()?;
        Ok(UnionIter {
            left: Ahead::of(left),
            right: Ahead::of(right),
        })
    }

    /// Calls `f` with each key that either tree has, ascending, and its value in each tree. The caller keeps `f`.
    ///
    /// Visits each node of both trees once.
    ///
    /// # Errors
    ///
    /// [`TreeError::Memory`] if a tree isn't empty and the allocation for its walk fails. `f` is then not called.
    pub fn union_with_by_ref<W, F: FnMut(K, Option<&V>, Option<&W>)>(
        &self,
        other: &AdaptiveRadixTree<K, W>,
        f: &mut F,
    ) -> Result<(), TreeError>
        requires callable { CanCallAtEither F.FnMut K.bytes f.old
            (union_of self.now.pairs other.now.pairs) }
        ensures stays_callable { F.IsAlwaysCallable f.old → F.IsAlwaysCallable f.new }
        ensures calls { OnOk result (CallsAtEither F.FnMut K.bytes f.old
            (union_of self.now.pairs other.now.pairs) f.new) }
        ensures unchanged { OnErr result (f.new ≡ f.old) }
        ensures memory { IfErr result (MayLackEither self.now.pairs other.now.pairs) }
    {
        let mut pairs = self.union_iter(other)?;
        call_at_each(&mut pairs, f);
        Ok(())
    }

    /// Calls `f` as [`union_with_by_ref`](Self::union_with_by_ref) does, and drops it.
    ///
    /// # Errors
    ///
    /// [`TreeError::Memory`] if a tree isn't empty and the allocation for its walk fails.
    pub fn union_with<W, F: FnMut(K, Option<&V>, Option<&W>) + Drop>(
        &self,
        other: &AdaptiveRadixTree<K, W>,
        mut f: F,
    ) -> Result<(), TreeError>
        requires callable { CanCallAtEither F.FnMut K.bytes f
            (union_of self.now.pairs other.now.pairs) }
        ensures calls { OnOk result (CallsAtEitherByValue F.FnMut K.bytes f
            (union_of self.now.pairs other.now.pairs)) }
        ensures memory { IfErr result (MayLackEither self.now.pairs other.now.pairs) }
    {
        self.union_with_by_ref(other, &mut f)
    }
}

// Calls `f` with each key that is left, and its values.
fn call_at_each<'a, K: KeyTrait + Drop, V, W, F: FnMut(K, Option<&V>, Option<&W>)>(
    pairs: &mut UnionIter<'a, K, V, W>,
    f: &mut F,
)
    requires callable { CanCallAtEither F.FnMut K.bytes f.old pairs.old }
    ensures stays_callable { F.IsAlwaysCallable f.old → F.IsAlwaysCallable f.new }
    ensures calls { CallsAtEither F.FnMut K.bytes f.old pairs.old f.new }
{
    while let Some((key, value, other)) = pairs.next() {
        f(key, value, other);
    }
}
