//! Walks that call a callback with each value below a prefix.

// A walk allocates before its first call. The caller of a `_by_ref` form keeps its callback, and with it the state that
// the last call left.

ghost use Rattle.std.specs.Prelude.{◌≡◌, ◌≤◌, ◌+◌, ◌^◌, [], IfErr, OnErr, OnOk};
ghost use Rattle.rart_nodes.specs.tries.SeenTrees.{seen_pairs};
ghost use Rattle.rart_trie.specs.walks.BelowPrefix.{below_bound, below_visits, values_below};
ghost use Rattle.rart_nodes.specs.walks.Shown.{CanShow, ShowsEachByValue, ShowsEach};
ghost use Rattle.rart_nodes.specs.walks.PathParts.{walk_values};
ghost use Rattle.rart_nodes.specs.walks.WalkSteps.{IsWalkAt, walk_nodes};
ghost use Rattle.rart_trie.specs.walks.Calls.{MayLackMemory};

use crate::node::path_walk::ascending::Walk;
use crate::node::path_walk::path::NoPath;
use crate::node::seen::Seen;
use rart_keys::{KeyTrait, Partial};
use rart_parts::TreeError;
use rart_trie::Count;

fn for_each_value<'a, P: Partial, V, C: Count, F: FnMut(&V)>(
    walk: &mut Walk<'a, P, V, C>,
    counter: &mut C,
    f: &mut F,
)
    requires callable { CanShow F.FnMut f.old (walk_values walk.old) }
    requires path { IsWalkAt walk.old [] }
    requires fits { walk.old.longest ≤ 2 ^ 64 }
    ensures stays_callable { F.IsAlwaysCallable f.old → F.IsAlwaysCallable f.new }
    ensures calls { ShowsEach F.FnMut f.old (walk_values walk.old) f.new }
    ensures visits { C.number counter.new ≤ C.number counter.old + walk_nodes walk.old }
{
    while let Some(value) = walk.advance(&mut NoPath, counter) {
        f(value);
    }
}

impl<'a, K: KeyTrait, V, C: Count> Seen<'a, K, V, C> {
    /// Calls `f` with the value of each pair whose key begins with the bytes `prefix`, which may be longer than any
    /// key, in order. `f` must be callable with each of these values in turn. The caller keeps `f`.
    ///
    /// # Errors
    ///
    /// [`TreeError::Memory`] if the tree isn't empty and the allocation for the walk fails. Nothing is then visited,
    /// and `f` is not called.
    ///
    /// # Visits
    ///
    /// At most `prefix.len() + 1 + 2 * m` nodes with `m` calls, none in an empty tree.
    pub fn prefix_values_for_each_by_ref_bytes_counted<F: FnMut(&V)>(
        self,
        prefix: &[u8],
        f: &mut F,
        counter: &mut C,
    ) -> Result<(), TreeError>
        requires callable { CanShow F.FnMut f.old (values_below prefix.now (seen_pairs self)) }
        ensures stays_callable { F.IsAlwaysCallable f.old → F.IsAlwaysCallable f.new }
        ensures calls { OnOk result
            (ShowsEach F.FnMut f.old (values_below prefix.now (seen_pairs self.entry)) f.new) }
        ensures unchanged { OnErr result (f.new ≡ f.old) }
        ensures memory { IfErr result (MayLackMemory (seen_pairs self.entry)) }
        ensures unvisited { OnErr result (counter.new ≡ counter.old) }
        ensures visits { OnOk result (C.number counter.new
            ≤ C.number counter.old + below_visits prefix.now (seen_pairs self.entry)) }
        ensures bound { C.number counter.new
            ≤ C.number counter.old + below_bound prefix.now (seen_pairs self.entry) }
    {
        let (mut walk, _path) = self.walk_below::<NoPath>(prefix, counter)?;
        for_each_value(&mut walk, counter, f);
        Ok(())
    }

    /// Calls `f` with the value of each pair whose key begins with `prefix`, as
    /// [`prefix_values_for_each_by_ref_bytes_counted`](Self::prefix_values_for_each_by_ref_bytes_counted) does.
    ///
    /// # Errors
    ///
    /// [`TreeError::Memory`] if the tree isn't empty and the allocation for the walk fails. Nothing is then
    /// visited, and `f` is not called.
    ///
    /// # Visits
    ///
    /// At most `prefix.len() + 1 + 2 * m` nodes with `m` calls, none in an empty tree.
    pub fn prefix_values_for_each_by_ref_k_counted<F: FnMut(&V)>(
        self,
        prefix: &K,
        f: &mut F,
        counter: &mut C,
    ) -> Result<(), TreeError>
        requires callable { CanShow F.FnMut f.old
            (values_below (K.bytes prefix.now) (seen_pairs self)) }
        ensures stays_callable { F.IsAlwaysCallable f.old → F.IsAlwaysCallable f.new }
        ensures calls { OnOk result (ShowsEach F.FnMut f.old
            (values_below (K.bytes prefix.now) (seen_pairs self.entry)) f.new) }
        ensures unchanged { OnErr result (f.new ≡ f.old) }
        ensures memory { IfErr result (MayLackMemory (seen_pairs self.entry)) }
        ensures unvisited { OnErr result (counter.new ≡ counter.old) }
        ensures visits { OnOk result (C.number counter.new ≤ C.number counter.old
            + below_visits (K.bytes prefix.now) (seen_pairs self.entry)) }
        ensures bound { C.number counter.new
            ≤ C.number counter.old + below_bound (K.bytes prefix.now) (seen_pairs self.entry) }
    {
        self.prefix_values_for_each_by_ref_bytes_counted(prefix.as_ref(), f, counter)
    }

    /// Calls `f` as [`prefix_values_for_each_by_ref_k_counted`](Self::prefix_values_for_each_by_ref_k_counted) does,
    /// and drops it.
    ///
    /// # Errors
    ///
    /// [`TreeError::Memory`] if the tree isn't empty and the allocation for the walk fails. Nothing is then visited.
    ///
    /// # Visits
    ///
    /// At most `prefix.len() + 1 + 2 * m` nodes with `m` calls, none in an empty tree.
    pub fn prefix_values_for_each_k_counted<F: FnMut(&V) + Drop>(
        self,
        prefix: &K,
        mut f: F,
        counter: &mut C,
    ) -> Result<(), TreeError>
        requires callable { CanShow F.FnMut f
            (values_below (K.bytes prefix.now) (seen_pairs self)) }
        ensures calls { OnOk result (ShowsEachByValue F.FnMut f
            (values_below (K.bytes prefix.now) (seen_pairs self.entry))) }
        ensures memory { IfErr result (MayLackMemory (seen_pairs self.entry)) }
        ensures unvisited { OnErr result (counter.new ≡ counter.old) }
        ensures visits { OnOk result (C.number counter.new ≤ C.number counter.old
            + below_visits (K.bytes prefix.now) (seen_pairs self.entry)) }
        ensures bound { C.number counter.new
            ≤ C.number counter.old + below_bound (K.bytes prefix.now) (seen_pairs self.entry) }
    {
        self.prefix_values_for_each_by_ref_k_counted(prefix, &mut f, counter)
    }
}
