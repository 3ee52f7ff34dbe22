//! Walks over the values below a prefix that a callback can end.
ghost use Rattle.std.specs.Prelude.{◌≡◌, ◌≤◌, ◌+◌, ◌*◌, ◌^◌, ℕ, [], reverse, IfErr};
ghost use Rattle.rart_nodes.specs.ranges.Potential.{AreLow};
ghost use Rattle.rart_nodes.specs.ranges.Spans.{call_visits};
ghost use Rattle.rart_nodes.specs.tries.SeenTrees.{seen_pairs};
ghost use Rattle.rart_trie.specs.walks.BelowPrefix.{below_bound, below_visits, values_below};
ghost use Rattle.rart_nodes.specs.walks.PathParts.{walk_values};
ghost use Rattle.rart_nodes.specs.walks.WalkSteps.{IsWalkAt, walk_nodes};
ghost use Rattle.rart_nodes.specs.walks.Tried.{CallsSo, CallsSoByValue, CanTry, EndsAfter, EndsAs, EndsVisit};
ghost use Rattle.rart_nodes.specs.walks.Tried.{EndsVisitByValue};
ghost use Rattle.rart_nodes.specs.walks.Tried.{IfAllocated, MayStopForMemory, OnRefused};

use crate::node::control::{VisitControl, VisitError};
use crate::node::path_walk::ascending::Walk;
use crate::node::path_walk::path::NoPath;
use crate::node::seen::Seen;
use rart_keys::{KeyTrait, Partial};
use rart_trie::Count;

fn try_for_each<'a, P: Partial, V, C: Count, E, F: FnMut(&V) -> Result<VisitControl, E>>(
    walk: &mut Walk<'a, P, V, C>,
    counter: &mut C,
    f: &mut F,
) -> Result<(), E>
    requires callable { CanTry F.FnMut f.old (walk_values walk.old) }
    requires path { IsWalkAt walk.old [] }
    requires fits { walk.old.longest ≤ 2 ^ 64 }
    ensures stays_callable { F.IsAlwaysCallable f.old → F.IsAlwaysCallable f.new }
    ensures calls { EndsAs F.FnMut f.old (walk_values walk.old) result f.new }
    ensures visits { C.number counter.new ≤ C.number counter.old + walk_nodes walk.old }
    ensures by_calls { (h : ℕ) → AreLow h (reverse walk.old.levels.items) →
        (n : ℕ) × (EndsAfter F.FnMut f.old (walk_values walk.old) n result f.new
        × (C.number counter.new ≤ C.number counter.old + 2 * n + h)) }
{
    while let Some(value) = walk.advance(&mut NoPath, counter) {
        match f(value) {
            Ok(VisitControl::Continue) => {}
            Ok(VisitControl::Stop) => return Ok(()),
            Err(error) => return Err(error),
        }
    }
    Ok(())
}

impl<'a, K: KeyTrait, V, C: Count> Seen<'a, K, V, C> {
    /// Calls `f` with the value of each pair whose key begins with the bytes `prefix`, which may be longer than any
    /// key, in order. `Stop` ends the walk with `Ok(())`; an `Err(e)` of the callback ends it with
    /// [`VisitError::Callback`]. `f` must be callable with each value in turn for as long as it returns `Continue`. The
    /// caller keeps `f`.
    ///
    /// # Errors
    ///
    /// [`VisitError::Memory`] if the tree isn't empty and the allocation for the walk fails. Nothing is then visited,
    /// and `f` is not called.
    ///
    /// # Visits
    ///
    /// At most `prefix.len() + 1 + 2 * m` nodes where `m` keys begin with `prefix`, none in an empty tree. With `n`
    /// calls in a tree of height `h`, at most the nodes on the path to `prefix`, `2 * n` and `h`.
    pub fn try_prefix_values_for_each_by_ref_bytes_counted<
        E,
        F: FnMut(&V) -> Result<VisitControl, E>,
    >(self, prefix: &[u8], f: &mut F, counter: &mut C) -> Result<(), VisitError<E>>
        requires callable { CanTry F.FnMut f.old
            (values_below prefix.now (seen_pairs self)) }
        ensures stays_callable { F.IsAlwaysCallable f.old → F.IsAlwaysCallable f.new }
        ensures calls { EndsVisit F.FnMut f.old
            (values_below prefix.now (seen_pairs self.entry)) result f.new }
        ensures memory { IfErr result (MayStopForMemory (seen_pairs self.entry)) }
        ensures unvisited { OnRefused result (counter.new ≡ counter.old) }
        ensures visits { IfAllocated result (C.number counter.new ≤ C.number counter.old
            + below_visits prefix.now (seen_pairs self.entry)) }
        ensures bound { C.number counter.new
            ≤ C.number counter.old + below_bound prefix.now (seen_pairs self.entry) }
        ensures by_calls { CallsSo F.FnMut f.old
            (values_below prefix.now (seen_pairs self.entry)) result f.new
            (λ n. C.number counter.new ≤ C.number counter.old
            + call_visits prefix.now n (seen_pairs self.entry)) }
    {
        let Ok((mut walk, _path)) = self.walk_below::<NoPath>(prefix, counter) else {
            return Err(VisitError::Memory);
        };
        match try_for_each(&mut walk, counter, f) {
            Ok(()) => Ok(()),
            Err(error) => Err(VisitError::Callback(error)),
        }
    }

    /// Calls `f` with the value of each pair whose key begins with `prefix`, as
    /// [`try_prefix_values_for_each_by_ref_bytes_counted`](Self::try_prefix_values_for_each_by_ref_bytes_counted) does.
    ///
    /// # Errors
    ///
    /// [`VisitError::Memory`] if the tree isn't empty and the allocation for the walk fails. Nothing is then
    /// visited, and `f` is not called.
    ///
    /// # Visits
    ///
    /// At most `prefix.len() + 1 + 2 * m` nodes where `m` keys begin with `prefix`, none in an empty tree. With `n`
    /// calls in a tree of height `h`, at most the nodes on the path to `prefix`, `2 * n` and `h`.
    pub fn try_prefix_values_for_each_by_ref_k_counted<E, F: FnMut(&V) -> Result<VisitControl, E>>(
        self,
        prefix: &K,
        f: &mut F,
        counter: &mut C,
    ) -> Result<(), VisitError<E>>
        requires callable { CanTry F.FnMut f.old
            (values_below (K.bytes prefix.now) (seen_pairs self)) }
        ensures stays_callable { F.IsAlwaysCallable f.old → F.IsAlwaysCallable f.new }
        ensures calls { EndsVisit F.FnMut f.old
            (values_below (K.bytes prefix.now) (seen_pairs self.entry)) result f.new }
        ensures memory { IfErr result (MayStopForMemory (seen_pairs self.entry)) }
        ensures unvisited { OnRefused result (counter.new ≡ counter.old) }
        ensures visits { IfAllocated result (C.number counter.new ≤ C.number counter.old
            + below_visits (K.bytes prefix.now) (seen_pairs self.entry)) }
        ensures bound { C.number counter.new
            ≤ C.number counter.old + below_bound (K.bytes prefix.now) (seen_pairs self.entry) }
        ensures by_calls { CallsSo F.FnMut f.old
            (values_below (K.bytes prefix.now) (seen_pairs self.entry)) result f.new
            (λ n. C.number counter.new ≤ C.number counter.old
            + call_visits (K.bytes prefix.now) n (seen_pairs self.entry)) }
    {
        self.try_prefix_values_for_each_by_ref_bytes_counted(prefix.as_ref(), f, counter)
    }

    /// Calls `f` as [`try_prefix_values_for_each_by_ref_k_counted`](Self::try_prefix_values_for_each_by_ref_k_counted)
    /// does, and drops it.
    ///
    /// # Errors
    ///
    /// [`VisitError::Memory`] if the tree isn't empty and the allocation for the walk fails. Nothing is then visited.
    /// [`VisitError::Callback`] with the error that `f` returned.
    ///
    /// # Visits
    ///
    /// At most `prefix.len() + 1 + 2 * m` nodes where `m` keys begin with `prefix`, none in an empty tree. With `n`
    /// calls in a tree of height `h`, at most the nodes on the path to `prefix`, `2 * n` and `h`.
    pub fn try_prefix_values_for_each_k_counted<E, F: FnMut(&V) -> Result<VisitControl, E> + Drop>(
        self,
        prefix: &K,
        mut f: F,
        counter: &mut C,
    ) -> Result<(), VisitError<E>>
        requires callable { CanTry F.FnMut f (values_below (K.bytes prefix.now) (seen_pairs self)) }
        ensures calls { EndsVisitByValue F.FnMut f
            (values_below (K.bytes prefix.now) (seen_pairs self.entry)) result }
        ensures memory { IfErr result (MayStopForMemory (seen_pairs self.entry)) }
        ensures unvisited { OnRefused result (counter.new ≡ counter.old) }
        ensures visits { IfAllocated result (C.number counter.new ≤ C.number counter.old
            + below_visits (K.bytes prefix.now) (seen_pairs self.entry)) }
        ensures bound { C.number counter.new
            ≤ C.number counter.old + below_bound (K.bytes prefix.now) (seen_pairs self.entry) }
        ensures by_calls { CallsSoByValue F.FnMut f
            (values_below (K.bytes prefix.now) (seen_pairs self.entry)) result
            (λ n. C.number counter.new ≤ C.number counter.old
            + call_visits (K.bytes prefix.now) n (seen_pairs self.entry)) }
    {
        self.try_prefix_values_for_each_by_ref_k_counted(prefix, &mut f, counter)
    }
}
