//! Intersections that call a callback which can end them.
ghost use Rattle.std.specs.Prelude.{◌≡◌, ◌≤◌, ◌+◌, IfErr};
ghost use Rattle.rart_nodes.specs.joins.SeenJoins.{seen_bound, seen_join, seen_visits};
ghost use Rattle.rart_nodes.specs.joins.TriedPairs.{CanTryAt, EndsVisitAt, EndsVisitAtByValue, MayStopForBoth};
ghost use Rattle.rart_nodes.specs.tries.SeenTrees.{seen_pairs};
ghost use Rattle.rart_nodes.specs.walks.Tried.{IfAllocated, OnRefused};

use crate::node::control::{VisitControl, VisitError};
use crate::node::intersect::join_path::JoinPath;
use crate::node::intersect::visitor::ByTriedKeys;
use crate::node::intersect::{both_tops, intersect_trees};
use crate::node::seen::Seen;
use rart_keys::KeyTrait;
use rart_trie::{Count, Paired};

impl<'a, K: KeyTrait, V, C: Count> Seen<'a, K, V, C> {
    /// Calls `f` for each key of both trees, ascending, with the key and the values of this tree and of `other`. `Stop`
    /// ends the walk with `Ok(())`; an `Err(e)` of the callback ends it with [`VisitError::Callback`]. `f` must be
    /// callable with each of these in turn for as long as it returns `Continue`. The caller keeps `f`.
    ///
    /// # Errors
    ///
    /// [`VisitError::Memory`] if neither tree is empty and the allocation for the longest key of this tree fails.
    /// Nothing is then visited, and `f` is not called.
    ///
    /// # Visits
    ///
    /// At most as `intersect_count_counted`.
    pub fn try_intersect_with_by_ref_counted<
        'b,
        W,
        E,
        F: FnMut(K, &V, &W) -> Result<VisitControl, E>,
    >(
        self,
        other: Seen<'b, K, W, Paired<C>>,
        f: &mut F,
        counter: &mut C,
    ) -> Result<(), VisitError<E>>
        requires callable { CanTryAt F.FnMut K.bytes f.old (seen_join self other) }
        ensures stays_callable { F.IsAlwaysCallable f.old → F.IsAlwaysCallable f.new }
        ensures calls { EndsVisitAt F.FnMut K.bytes f.old (seen_join self.entry other.entry)
            result f.new }
        ensures memory { IfErr result
            (MayStopForBoth (seen_pairs self.entry) (seen_pairs other.entry)) }
        ensures unvisited { OnRefused result (C.number counter.new ≡ C.number counter.old) }
        ensures visits { IfAllocated result (C.number counter.new
            ≤ C.number counter.old + seen_visits self.entry other.entry) }
        ensures bound { C.number counter.new
            ≤ C.number counter.old + seen_bound self.entry other.entry }
    {
        let Some(tops) = both_tops(self, other) else {
            return Ok(());
        };
        let Ok(bytes) = Vec::with_capacity(self.alloc(), self.longest()) else {
            return Err(VisitError::Memory);
        };
        let mut path = JoinPath::Bytes(bytes);
        match intersect_trees::<K, V, W, C, F, Result<(), E>, ByTriedKeys<K>>(
            self, other, tops, &mut path, counter, f,
        ) {
            Ok(()) => Ok(()),
            Err(Ok(())) => Ok(()),
            Err(Err(error)) => Err(VisitError::Callback(error)),
        }
    }

    /// Calls `f` as [`try_intersect_with_by_ref_counted`](Self::try_intersect_with_by_ref_counted) does, and drops it.
    ///
    /// # Errors
    ///
    /// [`VisitError::Memory`] if neither tree is empty and the allocation for the longest key of this tree fails.
    /// Nothing is then visited. [`VisitError::Callback`] with the error that `f` returned.
    ///
    /// # Visits
    ///
    /// At most as `intersect_count_counted`.
    pub fn try_intersect_with_counted<
        'b,
        W,
        E,
        F: FnMut(K, &V, &W) -> Result<VisitControl, E> + Drop,
    >(
        self,
        other: Seen<'b, K, W, Paired<C>>,
        mut f: F,
        counter: &mut C,
    ) -> Result<(), VisitError<E>>
        requires callable { CanTryAt F.FnMut K.bytes f (seen_join self other) }
        ensures calls { EndsVisitAtByValue F.FnMut K.bytes f (seen_join self.entry other.entry)
            result }
        ensures memory { IfErr result
            (MayStopForBoth (seen_pairs self.entry) (seen_pairs other.entry)) }
        ensures unvisited { OnRefused result (C.number counter.new ≡ C.number counter.old) }
        ensures visits { IfAllocated result (C.number counter.new
            ≤ C.number counter.old + seen_visits self.entry other.entry) }
        ensures bound { C.number counter.new
            ≤ C.number counter.old + seen_bound self.entry other.entry }
    {
        self.try_intersect_with_by_ref_counted(other, &mut f, counter)
    }
}
