//! Intersections of two trees, which walk both together and skip each node that one of them lacks.
ghost use Rattle.std.specs.Prelude.{◌≡◌, IfErr, OnErr, OnOk, length};
ghost use Rattle.rart_keys.specs.Joins.{join};
ghost use Rattle.rart_keys.specs.SortedMap.{values_of};
ghost use Rattle.rart_nodes.specs.joins.PairCalls.{CallsAtEach, CallsAtEachByValue, CallsWithEach};
ghost use Rattle.rart_nodes.specs.joins.PairCalls.{CallsWithEachByValue, CanCallAt};
ghost use Rattle.rart_nodes.specs.joins.PairCalls.{CanCallWith};
ghost use Rattle.rart_nodes.specs.joins.SeenJoins.{MayLackBoth};
ghost use Rattle.rart_nodes.specs.joins.TriedPairs.{CanTryAt, EndsVisitAt, EndsVisitAtByValue, MayStopForBoth};
ghost use Rattle.rart_nodes.specs.joins.ViewCalls.{CanViewAt, ViewsAtEachByValue, ViewsAtEach};

use crate::tree::AdaptiveRadixTree;
use rart_keys::KeyTrait;
use rart_nodes::{LendingKeyView, VisitControl, VisitError, Visits};
use rart_parts::TreeError;

impl<K: KeyTrait, V> AdaptiveRadixTree<K, V> {
    /// Returns the number of keys that both trees have. Allocates nothing.
    pub fn intersect_count<W>(&self, other: &AdaptiveRadixTree<K, W>) -> usize
        ensures { result ≡ length (join self.now.pairs other.now.pairs) }
    {
        self.len();
        rart_keys::laws::joins::<V, W>();
        self.seen()
            .intersect_count_counted(other.seen(), &mut Visits::new())
    }

    /// Calls `f` with both values of each key that both trees have, ascending by key. Makes no key, allocates nothing.
    ///
    /// The caller keeps `f`: take this form to count or to collect.
    pub fn intersect_values_with_by_ref<W, F: FnMut(&V, &W)>(
        &self,
        other: &AdaptiveRadixTree<K, W>,
        f: &mut F,
    )
        requires callable { CanCallWith F.FnMut f.old
            (values_of (join self.now.pairs other.now.pairs)) }
        ensures stays_callable { F.IsAlwaysCallable f.old → F.IsAlwaysCallable f.new }
        ensures calls { CallsWithEach F.FnMut f.old
            (values_of (join self.now.pairs other.now.pairs)) f.new }
    {
        self.seen()
            .intersect_values_with_by_ref_counted(other.seen(), f, &mut Visits::new());
    }

    /// Calls `f` as [`intersect_values_with_by_ref`](Self::intersect_values_with_by_ref) does, and drops it.
    pub fn intersect_values_with<W, F: FnMut(&V, &W) + Drop>(
        &self,
        other: &AdaptiveRadixTree<K, W>,
        f: F,
    )
        requires callable { CanCallWith F.FnMut f
            (values_of (join self.now.pairs other.now.pairs)) }
        ensures { CallsWithEachByValue F.FnMut f (values_of (join self.now.pairs other.now.pairs)) }
    {
        self.seen()
            .intersect_values_with_counted(other.seen(), f, &mut Visits::new());
    }

    /// Calls `f` with each key that both trees have, ascending, and its value in each tree. The caller keeps `f`.
    ///
    /// # Errors
    ///
    /// [`TreeError::Memory`] if neither tree is empty and the allocation for the walk fails. `f` is then not called.
    pub fn intersect_with_by_ref<W, F: FnMut(K, &V, &W)>(
        &self,
        other: &AdaptiveRadixTree<K, W>,
        f: &mut F,
    ) -> Result<(), TreeError>
        requires callable { CanCallAt F.FnMut K.bytes f.old (join self.now.pairs other.now.pairs) }
        ensures stays_callable { F.IsAlwaysCallable f.old → F.IsAlwaysCallable f.new }
        ensures calls { OnOk result
            (CallsAtEach F.FnMut K.bytes f.old (join self.now.pairs other.now.pairs) f.new) }
        ensures unchanged { OnErr result (f.new ≡ f.old) }
        ensures memory { IfErr result (MayLackBoth self.now.pairs other.now.pairs) }
    {
        self.seen()
            .intersect_with_by_ref_counted(other.seen(), f, &mut Visits::new())
    }

    /// Calls `f` as [`intersect_with_by_ref`](Self::intersect_with_by_ref) does, and drops it.
    ///
    /// # Errors
    ///
    /// [`TreeError::Memory`] if neither tree is empty and the allocation for the walk fails.
    pub fn intersect_with<W, F: FnMut(K, &V, &W) + Drop>(
        &self,
        other: &AdaptiveRadixTree<K, W>,
        f: F,
    ) -> Result<(), TreeError>
        requires callable { CanCallAt F.FnMut K.bytes f (join self.now.pairs other.now.pairs) }
        ensures calls { OnOk result
            (CallsAtEachByValue F.FnMut K.bytes f (join self.now.pairs other.now.pairs)) }
        ensures memory { IfErr result (MayLackBoth self.now.pairs other.now.pairs) }
    {
        self.seen()
            .intersect_with_counted(other.seen(), f, &mut Visits::new())
    }

    /// Calls `f` with each key that both trees have, ascending, and its value in each tree. `Stop` ends the walk with
    /// `Ok(())`. The caller keeps `f`.
    ///
    /// # Errors
    ///
    /// [`VisitError::Callback`] with the error that `f` returned, which ends the walk. [`VisitError::Memory`] if
    /// neither tree is empty and the allocation for the walk fails; `f` is then not called.
    pub fn try_intersect_with_by_ref<W, E, F: FnMut(K, &V, &W) -> Result<VisitControl, E>>(
        &self,
        other: &AdaptiveRadixTree<K, W>,
        f: &mut F,
    ) -> Result<(), VisitError<E>>
        requires callable { CanTryAt F.FnMut K.bytes f.old (join self.now.pairs other.now.pairs) }
        ensures stays_callable { F.IsAlwaysCallable f.old → F.IsAlwaysCallable f.new }
        ensures calls { EndsVisitAt F.FnMut K.bytes f.old (join self.now.pairs other.now.pairs)
            result f.new }
        ensures memory { IfErr result (MayStopForBoth self.now.pairs other.now.pairs) }
    {
        self.seen()
            .try_intersect_with_by_ref_counted(other.seen(), f, &mut Visits::new())
    }

    /// Calls `f` as [`try_intersect_with_by_ref`](Self::try_intersect_with_by_ref) does, and drops it.
    ///
    /// # Errors
    ///
    /// Those of [`try_intersect_with_by_ref`](Self::try_intersect_with_by_ref).
    pub fn try_intersect_with<W, E, F: FnMut(K, &V, &W) -> Result<VisitControl, E> + Drop>(
        &self,
        other: &AdaptiveRadixTree<K, W>,
        f: F,
    ) -> Result<(), VisitError<E>>
        requires callable { CanTryAt F.FnMut K.bytes f (join self.now.pairs other.now.pairs) }
        ensures calls { EndsVisitAtByValue F.FnMut K.bytes f
            (join self.now.pairs other.now.pairs) result }
        ensures memory { IfErr result (MayStopForBoth self.now.pairs other.now.pairs) }
    {
        self.seen()
            .try_intersect_with_counted(other.seen(), f, &mut Visits::new())
    }

    /// Calls `f` with a view of each key that both trees have, ascending, and both values. The caller keeps `f`.
    ///
    /// A segment of the view is a stretch that the prefixes of both trees share, or the edge byte of the longer one.
    ///
    /// # Errors
    ///
    /// [`TreeError::Memory`] if neither tree is empty and the allocation for the walk fails. `f` is then not called.
    pub fn intersect_lending_with_by_ref<W, F: FnMut(LendingKeyView<'_, '_>, &V, &W)>(
        &self,
        other: &AdaptiveRadixTree<K, W>,
        f: &mut F,
    ) -> Result<(), TreeError>
        requires callable { CanViewAt F.FnMut f.old (join self.now.pairs other.now.pairs) }
        ensures stays_callable { F.IsAlwaysCallable f.old → F.IsAlwaysCallable f.new }
        ensures calls { OnOk result
            (ViewsAtEach F.FnMut f.old (join self.now.pairs other.now.pairs) f.new) }
        ensures unchanged { OnErr result (f.new ≡ f.old) }
        ensures memory { IfErr result (MayLackBoth self.now.pairs other.now.pairs) }
    {
        self.seen()
            .intersect_lending_with_by_ref_counted(other.seen(), f, &mut Visits::new())
    }

    /// Calls `f` as [`intersect_lending_with_by_ref`](Self::intersect_lending_with_by_ref) does, and drops it.
    ///
    /// # Errors
    ///
    /// [`TreeError::Memory`] if neither tree is empty and the allocation for the walk fails.
    pub fn intersect_lending_with<W, F: FnMut(LendingKeyView<'_, '_>, &V, &W) + Drop>(
        &self,
        other: &AdaptiveRadixTree<K, W>,
        f: F,
    ) -> Result<(), TreeError>
        requires callable { CanViewAt F.FnMut f (join self.now.pairs other.now.pairs) }
        ensures calls { OnOk result
            (ViewsAtEachByValue F.FnMut f (join self.now.pairs other.now.pairs)) }
        ensures memory { IfErr result (MayLackBoth self.now.pairs other.now.pairs) }
    {
        self.seen()
            .intersect_lending_with_counted(other.seen(), f, &mut Visits::new())
    }
}
