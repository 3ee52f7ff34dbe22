//! Folds over the values below a prefix: each call of the callback gets the result of the previous one.
ghost use Rattle.std.specs.Prelude.{◌≡◌, ◌≤◌, ◌+◌, ◌^◌, [], IfErr, IfOk, OnErr, OnOk};
ghost use Rattle.rart_nodes.specs.tries.SeenTrees.{seen_pairs};
ghost use Rattle.rart_trie.specs.walks.BelowPrefix.{below_bound, below_visits, values_below};
ghost use Rattle.rart_nodes.specs.walks.Shown.{CanFold, FoldsEachByValue, FoldsEach};
ghost use Rattle.rart_nodes.specs.walks.PathParts.{walk_values};
ghost use Rattle.rart_nodes.specs.walks.WalkSteps.{IsWalkAt, walk_nodes};
ghost use Rattle.rart_trie.specs.walks.Calls.{MayLackMemory};

use crate::node::path_walk::ascending::Walk;
use crate::node::path_walk::path::NoPath;
use crate::node::seen::Seen;
use rart_keys::{KeyTrait, Partial};
use rart_parts::TreeError;
use rart_trie::Count;

fn fold_values<'a, P: Partial, V, C: Count, S, F: FnMut(S, &V) -> S>(
    walk: &mut Walk<'a, P, V, C>,
    counter: &mut C,
    init: S,
    f: &mut F,
) -> S
    requires callable { CanFold F.FnMut f.old init (walk_values walk.old) }
    requires path { IsWalkAt walk.old [] }
    requires fits { walk.old.longest ≤ 2 ^ 64 }
    ensures stays_callable { F.IsAlwaysCallable f.old → F.IsAlwaysCallable f.new }
    ensures calls { FoldsEach F.FnMut f.old init (walk_values walk.old) f.new result }
    ensures visits { C.number counter.new ≤ C.number counter.old + walk_nodes walk.old }
{
    let mut state = init;
    while let Some(value) = walk.advance(&mut NoPath, counter) {
        state = f(state, value);
    }
    state
}

impl<'a, K: KeyTrait, V, C: Count> Seen<'a, K, V, C> {
    /// Calls `f` with the value of each pair whose key begins with the bytes `prefix`, which may be longer than any
    /// key, in order. The first call gets `init`, each later one the answer of the call before it; returns the last
    /// answer. `f` must be callable so. The caller keeps `f`.
    ///
    /// # Errors
    ///
    /// [`TreeError::Memory`] if the tree isn't empty and the allocation for the walk fails. Nothing is then visited,
    /// and `f` is not called.
    ///
    /// # Visits
    ///
    /// At most `prefix.len() + 1 + 2 * m` nodes with `m` calls, none in an empty tree.
    pub fn prefix_values_fold_by_ref_bytes_counted<S: Drop, F: FnMut(S, &V) -> S>(
        self,
        prefix: &[u8],
        init: S,
        f: &mut F,
        counter: &mut C,
    ) -> Result<S, TreeError>
        requires callable { CanFold F.FnMut f.old init (values_below prefix.now (seen_pairs self)) }
        ensures stays_callable { F.IsAlwaysCallable f.old → F.IsAlwaysCallable f.new }
        ensures calls { IfOk result (λ state. FoldsEach F.FnMut f.old init
            (values_below prefix.now (seen_pairs self.entry)) f.new state) }
        ensures unchanged { OnErr result (f.new ≡ f.old) }
        ensures memory { IfErr result (MayLackMemory (seen_pairs self.entry)) }
        ensures unvisited { OnErr result (counter.new ≡ counter.old) }
        ensures visits { OnOk result (C.number counter.new
            ≤ C.number counter.old + below_visits prefix.now (seen_pairs self.entry)) }
        ensures bound { C.number counter.new
            ≤ C.number counter.old + below_bound prefix.now (seen_pairs self.entry) }
    {
        let (mut walk, _path) = self.walk_below::<NoPath>(prefix, counter)?;
        Ok(fold_values(&mut walk, counter, init, f))
    }

    /// Folds the values of the pairs whose key begins with `prefix`, as
    /// [`prefix_values_fold_by_ref_bytes_counted`](Self::prefix_values_fold_by_ref_bytes_counted) does.
    ///
    /// # Errors
    ///
    /// [`TreeError::Memory`] if the tree isn't empty and the allocation for the walk fails. Nothing is then
    /// visited, and `f` is not called.
    ///
    /// # Visits
    ///
    /// At most `prefix.len() + 1 + 2 * m` nodes with `m` calls, none in an empty tree.
    pub fn prefix_values_fold_by_ref_k_counted<S: Drop, F: FnMut(S, &V) -> S>(
        self,
        prefix: &K,
        init: S,
        f: &mut F,
        counter: &mut C,
    ) -> Result<S, TreeError>
        requires callable { CanFold F.FnMut f.old init
            (values_below (K.bytes prefix.now) (seen_pairs self)) }
        ensures stays_callable { F.IsAlwaysCallable f.old → F.IsAlwaysCallable f.new }
        ensures calls { IfOk result (λ state. FoldsEach F.FnMut f.old init
            (values_below (K.bytes prefix.now) (seen_pairs self.entry)) f.new state) }
        ensures unchanged { OnErr result (f.new ≡ f.old) }
        ensures memory { IfErr result (MayLackMemory (seen_pairs self.entry)) }
        ensures unvisited { OnErr result (counter.new ≡ counter.old) }
        ensures visits { OnOk result (C.number counter.new ≤ C.number counter.old
            + below_visits (K.bytes prefix.now) (seen_pairs self.entry)) }
        ensures bound { C.number counter.new
            ≤ C.number counter.old + below_bound (K.bytes prefix.now) (seen_pairs self.entry) }
    {
        self.prefix_values_fold_by_ref_bytes_counted(prefix.as_ref(), init, f, counter)
    }

    /// Folds as [`prefix_values_fold_by_ref_k_counted`](Self::prefix_values_fold_by_ref_k_counted) does, and drops `f`.
    ///
    /// # Errors
    ///
    /// [`TreeError::Memory`] if the tree isn't empty and the allocation for the walk fails. Nothing is then visited.
    ///
    /// # Visits
    ///
    /// At most `prefix.len() + 1 + 2 * m` nodes with `m` calls, none in an empty tree.
    pub fn prefix_values_fold_k_counted<S: Drop, F: FnMut(S, &V) -> S + Drop>(
        self,
        prefix: &K,
        init: S,
        mut f: F,
        counter: &mut C,
    ) -> Result<S, TreeError>
        requires callable { CanFold F.FnMut f init
            (values_below (K.bytes prefix.now) (seen_pairs self)) }
        ensures calls { IfOk result (FoldsEachByValue F.FnMut f init
            (values_below (K.bytes prefix.now) (seen_pairs self.entry))) }
        ensures memory { IfErr result (MayLackMemory (seen_pairs self.entry)) }
        ensures unvisited { OnErr result (counter.new ≡ counter.old) }
        ensures visits { OnOk result (C.number counter.new ≤ C.number counter.old
            + below_visits (K.bytes prefix.now) (seen_pairs self.entry)) }
        ensures bound { C.number counter.new
            ≤ C.number counter.old + below_bound (K.bytes prefix.now) (seen_pairs self.entry) }
    {
        self.prefix_values_fold_by_ref_k_counted(prefix, init, &mut f, counter)
    }
}
