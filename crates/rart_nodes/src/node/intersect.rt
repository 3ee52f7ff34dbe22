//! Intersections of two shared trees: one walk through both, with counted visits.
ghost use Rattle.std.specs.Prelude.{◌≡◌, ◌≤◌, ◌+◌, ◌-◌, [], IfErr, MatchOption, OnErr, OnOk, length, min};
ghost use Rattle.rart_keys.specs.Joins.{join};
ghost use Rattle.rart_keys.specs.SortedMap.{longest_key, values_of};
ghost use Rattle.rart_nodes.specs.joins.Intersections.{intersect_nodes};
ghost use Rattle.rart_nodes.specs.joins.Visitors.{CanGive};
ghost use Rattle.rart_nodes.specs.joins.PairCalls.{CallsAtEach, CallsAtEachByValue, CallsWithEach};
ghost use Rattle.rart_nodes.specs.joins.PairCalls.{CallsWithEachByValue, CanCallAt, CanCallWith};
ghost use Rattle.rart_nodes.specs.joins.SeenJoins.{AreTops, MayLackBoth, ShareNothing, seen_bound, seen_join};
ghost use Rattle.rart_nodes.specs.joins.SeenJoins.{seen_visits};
ghost use Rattle.rart_nodes.specs.joins.SharedEdges.{joint_visits, more_visits};
ghost use Rattle.rart_nodes.specs.joins.ViewCalls.{CanViewAt, ViewsAtEachByValue, ViewsAtEach};
ghost use Rattle.rart_nodes.specs.joins.JoinPaths.{HasCapacityOf, PathGrown};
ghost use Rattle.rart_nodes.specs.tries.SeenTrees.{length_bound, seen_keys, seen_nodes, seen_pairs};
ghost use Rattle.rart_trie.specs.tries.Trie.{children_in, no_children, pairs_of};

pub(super) mod aligned;
mod join_path;
mod sets;
mod shared_children;
mod try_pairs;
mod visitor;

use crate::node::intersect::aligned::{next_aligned, same_prefixes};
use crate::node::intersect::join_path::JoinPath;
use crate::node::intersect::shared_children::SharedChildren;
use crate::node::intersect::visitor::{ByKeys, ByValues, ByViews, Counted, Visitor, give_both};
use crate::node::seen::{Entered, Seen, Shared};
use crate::node::view::LendingKeyView;
use rart_keys::{KeyTrait, Partial};
use rart_parts::TreeError;
use rart_trie::{Count, Paired};
use std::convert::Infallible;

/// Passes on the pair of two visited leaves if their prefixes are equal, and restores the path.
fn intersect_leaves<'a, P: Partial, V, W, C: Count, F, B, T: Visitor<V, W, F, B>>(
    left: Entered<'a, P, V, C>,
    right: Entered<'_, P, W, Paired<C>>,
    path: &mut JoinPath<'a>,
    f: &mut F,
) -> Result<(), B>
    requires left_leaf { children_in left.node.now ≡ no_children }
    requires right_leaf { children_in right.node.now ≡ no_children }
    requires reserved { T.reserved path.old (longest_key (pairs_of left.node.now)) }
    requires callable { CanGive T.can T.given path.old f.old
        (intersect_nodes left.node.now right.node.now) }
    ensures place { PathGrown path.old [] path.new }
    ensures calls { T.given path.old f.old
        (intersect_nodes left.entry.node.now right.entry.node.now) result f.new }
{
    if !same_prefixes(left.prefix(), right.prefix()) {
        return Ok(());
    }
    let mark = path.mark();
    path.grow(left.prefix().to_slice());
    let given = give_both::<V, W, F, B, T>(left.value(), right.value(), path, f);
    path.cut(mark);
    given
}

/// Visits the pairs of both trees below two visited nodes and restores the path. Ends with the first `Err` of a pair.
fn intersect_below<'a, P: Partial, V, W, C: Count, F, B, T: Visitor<V, W, F, B>>(
    left: Entered<'a, P, V, C>,
    right: Entered<'_, P, W, Paired<C>>,
    path: &mut JoinPath<'a>,
    counter: &mut C,
    f: &mut F,
) -> Result<(), B>
    requires reserved { T.reserved path.old (longest_key (pairs_of left.node.now)) }
    requires callable { CanGive T.can T.given path.old f.old
        (intersect_nodes left.node.now right.node.now) }
    ensures place { OnOk result (PathGrown path.old [] path.new) }
    ensures calls { T.given path.old f.old
        (intersect_nodes left.entry.node.now right.entry.node.now) result f.new }
    ensures visits { OnOk result (C.number counter.new ≡ C.number counter.old
        + more_visits left.entry.node.now right.entry.node.now) }
    ensures bound { C.number counter.new ≤ C.number counter.old
        + more_visits left.entry.node.now right.entry.node.now }
{
    let mark = path.mark();
    let Some((left_aligned, right_aligned)) = next_aligned(left, right, path, counter) else {
        path.cut(mark);
        return Ok(());
    };
    match give_both::<V, W, F, B, T>(left_aligned.value(), right_aligned.value(), path, f) {
        Ok(()) => {}
        Err(end) => return Err(end),
    }
    if right_aligned.has_no_children() {
        path.cut(mark);
        return Ok(());
    }
    let mut shared_children = SharedChildren::of(left_aligned, right_aligned);
    while let Some((child, other)) = shared_children.enter_next(
        left_aligned,
        right_aligned,
        counter,
    ) {
        // Most children are leaves, which need no recursion.
        if child.has_no_children() && other.has_no_children() {
            match intersect_leaves::<P, V, W, C, F, B, T>(child, other, path, f) {
                Ok(()) => {}
                Err(end) => return Err(end),
            }
        } else {
            match intersect_below::<P, V, W, C, F, B, T>(child, other, path, counter, f) {
                Ok(()) => {}
                Err(end) => return Err(end),
            }
        }
    }
    path.cut(mark);
    Ok(())
}

/// The topmost nodes of two trees, not yet visited.
type Tops<'a, 'b, P, V, W, C> = (Shared<'a, P, V, C>, Shared<'b, P, W, Paired<C>>);

/// Returns the topmost nodes of two trees, not yet visited, or `None` if either is empty.
fn both_tops<'a, 'b, K: KeyTrait, V, W, C>(
    left: Seen<'a, K, V, C>,
    right: Seen<'b, K, W, Paired<C>>,
) -> Option<Tops<'a, 'b, K::PartialType, V, W, C>>
    ensures { MatchOption result (ShareNothing left.entry right.entry)
        (λ tops. AreTops left.entry tops.0.node.now right.entry tops.1.node.now) }
{
    let left_top = left.top()?;
    let right_top = right.top()?;
    Some((left_top, right_top))
}

/// Visits the pairs of both trees, from their topmost nodes on, up to the first `Err` of a pair. The path has capacity
/// for the longest key of the left one, and no more.
fn intersect_trees<'a, 'b, K: KeyTrait, V, W, C: Count, F, B, T: Visitor<V, W, F, B>>(
    left: Seen<'a, K, V, C>,
    right: Seen<'b, K, W, Paired<C>>,
    tops: Tops<'a, 'b, K::PartialType, V, W, C>,
    path: &mut JoinPath<'a>,
    counter: &mut C,
    f: &mut F,
) -> Result<(), B>
    requires tops { AreTops left tops.0.node.now right tops.1.node.now }
    requires reserved { T.reserved path.old (longest_key (seen_pairs left)) }
    requires capacity { HasCapacityOf (length_bound left) path.old }
    requires callable { CanGive T.can T.given path.old f.old (seen_join left right) }
    ensures calls { T.given path.old f.old
        (join (seen_pairs left.entry) (seen_pairs right.entry)) result f.new }
    ensures visits { OnOk result (C.number counter.new
        ≡ C.number counter.old + joint_visits (seen_keys left.entry) (seen_keys right.entry)) }
    ensures at_most { C.number counter.new
        ≤ C.number counter.old + joint_visits (seen_keys left.entry) (seen_keys right.entry) }
    ensures bound { C.number counter.new ≤ C.number counter.old
        + (length (seen_nodes left.entry) + length (seen_nodes right.entry) - 1) }
{
    // `left` and `right` are named by the contract alone.
    let (left_root, right_root) = tops.0.enter_pair(tops.1, counter);
    intersect_below::<K::PartialType, V, W, C, F, B, T>(left_root, right_root, path, counter, f)
}

impl<'a, K: KeyTrait, V, C: Count> Seen<'a, K, V, C> {
    /// Returns the number of keys that both trees have, or `usize::MAX` if it is greater. It does not allocate.
    ///
    /// # Visits
    ///
    /// The two roots together and one node or pair for each shared edge: at most the nodes of both trees less one.
    /// None if a tree is empty.
    pub fn intersect_count_counted<'b, W>(
        self,
        other: Seen<'b, K, W, Paired<C>>,
        counter: &mut C,
    ) -> usize
        ensures count { result ≡ min (length (seen_join self.entry other.entry)) usize.MAX }
        ensures visits { C.number counter.new
            ≡ C.number counter.old + seen_visits self.entry other.entry }
        ensures bound { C.number counter.new
            ≤ C.number counter.old + seen_bound self.entry other.entry }
    {
        let Some(tops) = both_tops(self, other) else {
            return 0;
        };
        let mut count = 0;
        match intersect_trees::<K, V, W, C, usize, Infallible, Counted>(
            self,
            other,
            tops,
            &mut JoinPath::Nothing,
            counter,
            &mut count,
        ) {
            Ok(()) => count,
        }
    }

    /// Calls `f` once for each key of both trees, ascending, with the values of this tree and of `other`. It makes no
    /// key and does not allocate. `f` must be callable with each of these in turn. The caller keeps `f`.
    ///
    /// # Visits
    ///
    /// As `intersect_count_counted`.
    pub fn intersect_values_with_by_ref_counted<'b, W, F: FnMut(&V, &W)>(
        self,
        other: Seen<'b, K, W, Paired<C>>,
        f: &mut F,
        counter: &mut C,
    )
        requires callable { CanCallWith F.FnMut f.old (values_of (seen_join self other)) }
        ensures stays_callable { F.IsAlwaysCallable f.old → F.IsAlwaysCallable f.new }
        ensures calls { CallsWithEach F.FnMut f.old
            (values_of (seen_join self.entry other.entry)) f.new }
        ensures visits { C.number counter.new
            ≡ C.number counter.old + seen_visits self.entry other.entry }
        ensures bound { C.number counter.new
            ≤ C.number counter.old + seen_bound self.entry other.entry }
    {
        let Some(tops) = both_tops(self, other) else {
            return;
        };
        let mut path = JoinPath::Nothing;
        match intersect_trees::<K, V, W, C, F, Infallible, ByValues>(
            self, other, tops, &mut path, counter, f,
        ) {
            Ok(()) => {}
        }
    }

    /// Calls `f` as [`intersect_values_with_by_ref_counted`](Self::intersect_values_with_by_ref_counted) does, and
    /// drops it.
    ///
    /// # Visits
    ///
    /// As `intersect_count_counted`.
    pub fn intersect_values_with_counted<'b, W, F: FnMut(&V, &W) + Drop>(
        self,
        other: Seen<'b, K, W, Paired<C>>,
        mut f: F,
        counter: &mut C,
    )
        requires callable { CanCallWith F.FnMut f (values_of (seen_join self other)) }
        ensures calls { CallsWithEachByValue F.FnMut f
            (values_of (seen_join self.entry other.entry)) }
        ensures visits { C.number counter.new
            ≡ C.number counter.old + seen_visits self.entry other.entry }
        ensures bound { C.number counter.new
            ≤ C.number counter.old + seen_bound self.entry other.entry }
    {
        self.intersect_values_with_by_ref_counted(other, &mut f, counter);
    }

    /// Calls `f` once for each key of both trees, ascending, with the key and the values of this tree and of `other`.
    /// `f` must be callable with each of these in turn. The caller keeps `f`.
    ///
    /// # Errors
    ///
    /// [`TreeError::Memory`] if neither tree is empty and the allocation for the longest key of this tree fails.
    /// Nothing is then visited, and `f` is not called.
    ///
    /// # Visits
    ///
    /// As `intersect_count_counted`.
    pub fn intersect_with_by_ref_counted<'b, W, F: FnMut(K, &V, &W)>(
        self,
        other: Seen<'b, K, W, Paired<C>>,
        f: &mut F,
        counter: &mut C,
    ) -> Result<(), TreeError>
        requires callable { CanCallAt F.FnMut K.bytes f.old (seen_join self other) }
        ensures stays_callable { F.IsAlwaysCallable f.old → F.IsAlwaysCallable f.new }
        ensures calls { OnOk result (CallsAtEach F.FnMut K.bytes f.old
            (seen_join self.entry other.entry) f.new) }
        ensures memory { IfErr result
            (MayLackBoth (seen_pairs self.entry) (seen_pairs other.entry)) }
        ensures unchanged { OnErr result
            ((f.new ≡ f.old) × (C.number counter.new ≡ C.number counter.old)) }
        ensures visits { OnOk result (C.number counter.new
            ≡ C.number counter.old + seen_visits self.entry other.entry) }
        ensures bound { C.number counter.new
            ≤ C.number counter.old + seen_bound self.entry other.entry }
    {
        let Some(tops) = both_tops(self, other) else {
            return Ok(());
        };
        let bytes = Vec::with_capacity(self.alloc(), self.longest())?;
        let mut path = JoinPath::Bytes(bytes);
        match intersect_trees::<K, V, W, C, F, Infallible, ByKeys<K>>(
            self, other, tops, &mut path, counter, f,
        ) {
            Ok(()) => Ok(()),
        }
    }

    /// Calls `f` as [`intersect_with_by_ref_counted`](Self::intersect_with_by_ref_counted) does, and drops it.
    ///
    /// # Errors
    ///
    /// [`TreeError::Memory`] if neither tree is empty and the allocation for the longest key of this tree fails.
    /// Nothing is then visited.
    ///
    /// # Visits
    ///
    /// As `intersect_count_counted`.
    pub fn intersect_with_counted<'b, W, F: FnMut(K, &V, &W) + Drop>(
        self,
        other: Seen<'b, K, W, Paired<C>>,
        mut f: F,
        counter: &mut C,
    ) -> Result<(), TreeError>
        requires callable { CanCallAt F.FnMut K.bytes f (seen_join self other) }
        ensures calls { OnOk result (CallsAtEachByValue F.FnMut K.bytes f
            (seen_join self.entry other.entry)) }
        ensures memory { IfErr result
            (MayLackBoth (seen_pairs self.entry) (seen_pairs other.entry)) }
        ensures unvisited { OnErr result (C.number counter.new ≡ C.number counter.old) }
        ensures visits { OnOk result (C.number counter.new
            ≡ C.number counter.old + seen_visits self.entry other.entry) }
        ensures bound { C.number counter.new
            ≤ C.number counter.old + seen_bound self.entry other.entry }
    {
        self.intersect_with_by_ref_counted(other, &mut f, counter)
    }

    /// Calls `f` once for each key of both trees, ascending, with a view of the key and the values of both trees. It
    /// makes no key. The segments are cut where a prefix of either tree ends, and after the edge byte of a child that
    /// is visited alone. `f` must be callable with each of these in turn. The caller keeps `f`.
    ///
    /// # Errors
    ///
    /// [`TreeError::Memory`] if neither tree is empty and the allocation for the segments fails. Nothing is then
    /// visited, and `f` is not called.
    ///
    /// # Visits
    ///
    /// As `intersect_count_counted`.
    pub fn intersect_lending_with_by_ref_counted<'b, W, F: FnMut(LendingKeyView<'_, '_>, &V, &W)>(
        self,
        other: Seen<'b, K, W, Paired<C>>,
        f: &mut F,
        counter: &mut C,
    ) -> Result<(), TreeError>
        requires callable { CanViewAt F.FnMut f.old (seen_join self other) }
        ensures stays_callable { F.IsAlwaysCallable f.old → F.IsAlwaysCallable f.new }
        ensures calls { OnOk result (ViewsAtEach F.FnMut f.old
            (seen_join self.entry other.entry) f.new) }
        ensures memory { IfErr result
            (MayLackBoth (seen_pairs self.entry) (seen_pairs other.entry)) }
        ensures unchanged { OnErr result
            ((f.new ≡ f.old) × (C.number counter.new ≡ C.number counter.old)) }
        ensures visits { OnOk result (C.number counter.new
            ≡ C.number counter.old + seen_visits self.entry other.entry) }
        ensures bound { C.number counter.new
            ≤ C.number counter.old + seen_bound self.entry other.entry }
    {
        let Some(tops) = both_tops(self, other) else {
            return Ok(());
        };
        let segments = Vec::with_capacity(self.alloc(), self.longest())?;
        let mut path = JoinPath::Segments(segments);
        match intersect_trees::<K, V, W, C, F, Infallible, ByViews>(
            self, other, tops, &mut path, counter, f,
        ) {
            Ok(()) => Ok(()),
        }
    }

    /// Calls `f` as [`intersect_lending_with_by_ref_counted`](Self::intersect_lending_with_by_ref_counted) does, and
    /// drops it.
    ///
    /// # Errors
    ///
    /// [`TreeError::Memory`] if neither tree is empty and the allocation for the segments fails. Nothing is then
    /// visited.
    ///
    /// # Visits
    ///
    /// As `intersect_count_counted`.
    pub fn intersect_lending_with_counted<'b, W, F: FnMut(LendingKeyView<'_, '_>, &V, &W) + Drop>(
        self,
        other: Seen<'b, K, W, Paired<C>>,
        mut f: F,
        counter: &mut C,
    ) -> Result<(), TreeError>
        requires callable { CanViewAt F.FnMut f (seen_join self other) }
        ensures calls { OnOk result (ViewsAtEachByValue F.FnMut f
            (seen_join self.entry other.entry)) }
        ensures memory { IfErr result
            (MayLackBoth (seen_pairs self.entry) (seen_pairs other.entry)) }
        ensures unvisited { OnErr result (C.number counter.new ≡ C.number counter.old) }
        ensures visits { OnOk result (C.number counter.new
            ≡ C.number counter.old + seen_visits self.entry other.entry) }
        ensures bound { C.number counter.new
            ≤ C.number counter.old + seen_bound self.entry other.entry }
    {
        self.intersect_lending_with_by_ref_counted(other, &mut f, counter)
    }
}
