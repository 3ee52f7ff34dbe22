//! All pairs of one tree, moved into another, with a callback at the keys that both have.
ghost use Rattle.std.specs.Prelude.{◌≡◌, ◌≢◌, ◌<◌, [], length, IfErr, IfOk, IsTrue, None, Ok, OnOk, false};
ghost use Rattle.rart_keys.specs.SortedMap.{lookup};
ghost use Rattle.rart.specs.Merges.{CanMerge, Merges, MergesByValue, MergesFirst, MergesPair, MergesUntil};
ghost use Rattle.rart.specs.Merges.{MergesUntilByValue, TakesMerge};

use crate::tree::AdaptiveRadixTree;
use rart_keys::KeyTrait;
use rart_nodes::Refused;
use std::mem;

impl<K: KeyTrait + Drop, V: Drop> AdaptiveRadixTree<K, V> {
    /// Moves all pairs of `other` into this tree, ascending, and leaves `other` empty. At a key that both trees store,
    /// calls `f` with the key, a mutable reference to the value here, and the value of `other`: the key keeps what `f`
    /// leaves. `f` must be callable at each of these keys in turn; the caller keeps it.
    ///
    /// If this tree is empty, the two are exchanged, without an allocation or a call. Otherwise each pair is removed
    /// from `other` and inserted or merged.
    ///
    /// # Errors
    ///
    /// Those of [`pop_first`](Self::pop_first) and [`insert_k`](Self::insert_k), at the first pair that can't be moved.
    /// The pairs before it are merged. The pair itself is still in `other`; if its insertion fails in both trees, the
    /// error holds it. `f` was not called with it.
    pub fn merge_with_by_ref<F: FnMut(&K, &mut V, V)>(
        &mut self,
        other: &mut Self,
        f: &mut F,
    ) -> Result<(), Refused<Option<(K, V)>>>
        requires callable { CanMerge F.FnMut K.bytes f.old self.old.pairs other.old.pairs }
        ensures stays_callable { F.IsAlwaysCallable f.old → F.IsAlwaysCallable f.new }
        ensures merges { OnOk result (Merges F.FnMut K.bytes f.old self.old.pairs other.old.pairs
            f.new self.new.pairs) }
        ensures emptied { OnOk result (other.new.pairs ≡ []) }
        ensures refused { IfErr result (λ refused. MergesUntil F.FnMut K.bytes f.old self.old.pairs
            other.old.pairs refused f.new self.new.pairs other.new.pairs) }
        ensures exchanged { self.old.pairs ≡ []
            → (result ≡ Ok tt) × (self.new ≡ other.old) × (other.new ≡ self.old) }
    {
        if self.is_empty() {
            other.canonical();
            mem::swap(self, other);
            return Ok(());
        }
        'pairs: while self.merge_first(other, f)? {}
        Ok(())
    }

    /// Merges as [`merge_with_by_ref`](Self::merge_with_by_ref) does, and drops `f`.
    ///
    /// # Errors
    ///
    /// Those of [`merge_with_by_ref`](Self::merge_with_by_ref).
    pub fn merge_with<F: FnMut(&K, &mut V, V) + Drop>(
        &mut self,
        other: &mut Self,
        mut f: F,
    ) -> Result<(), Refused<Option<(K, V)>>>
        requires callable { CanMerge F.FnMut K.bytes f self.old.pairs other.old.pairs }
        ensures merges { OnOk result (MergesByValue F.FnMut K.bytes f self.old.pairs
            other.old.pairs self.new.pairs) }
        ensures emptied { OnOk result (other.new.pairs ≡ []) }
        ensures refused { IfErr result (λ refused. MergesUntilByValue F.FnMut K.bytes f
            self.old.pairs other.old.pairs refused self.new.pairs other.new.pairs) }
        ensures exchanged { self.old.pairs ≡ []
            → (result ≡ Ok tt) × (self.new ≡ other.old) × (other.new ≡ self.old) }
    {
        self.merge_with_by_ref(other, &mut f)
    }

    // Merges the first pair of `other` into this tree, and returns whether there was one.
    fn merge_first<F: FnMut(&K, &mut V, V)>(
        &mut self,
        other: &mut Self,
        f: &mut F,
    ) -> Result<bool, Refused<Option<(K, V)>>>
        requires callable { CanMerge F.FnMut K.bytes f.old self.old.pairs other.old.pairs }
        ensures merges { OnOk result (MergesFirst F.FnMut K.bytes f.old self.old.pairs
            other.old.pairs f.new self.new.pairs other.new.pairs) }
        ensures fewer { IfOk result
            (λ more. IsTrue more → length other.new.pairs < length other.old.pairs) }
        ensures emptied { IfOk result (λ more. more ≡ false → other.new.pairs ≡ []) }
        ensures refused { IfErr result (λ refused. MergesUntil F.FnMut K.bytes f.old self.old.pairs
            other.old.pairs refused f.new self.new.pairs other.new.pairs) }
    {
        other.canonical();
        // without its first pair `other` isn't full
        let _len = other.len();
        match other.pop_first() {
            Ok(Some((key, value))) => {
                if self.contains_key_k(&key) {
                    self.merge_value(&key, value, f);
                    return Ok(true);
                }
                match self.put_pair(other, key, value) {
                    Ok(()) => Ok(true),
                    Err(refused) => Err(refused),
                }
            }
            Ok(None) => Ok(false),
            Err(error) => Err(Refused { error, value: None }),
        }
    }

    // Calls `f` with a stored key, its value and another value.
    fn merge_value<F: FnMut(&K, &mut V, V)>(&mut self, key: &K, value: V, f: &mut F)
        requires stored { lookup (K.bytes key.now) self.old.pairs ≢ None }
        requires callable { TakesMerge F.FnMut K.bytes (lookup (K.bytes key.now) self.old.pairs)
            f.old (K.bytes key.now, value) }
        ensures { MergesPair F.FnMut K.bytes (f.old, self.old.pairs) (K.bytes key.now, value)
            (f.new, self.new.pairs) }
    {
        match self.get_mut_k(key) {
            Some(stored) => f(key, stored, value),
            None => unreachable!(),
        }
    }
}
