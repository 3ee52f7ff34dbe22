//! The descent to an end, and descending walks from there.
ghost use Rattle.std.specs.Prelude.{◌≡◌, ◌≢◌, ◌≤◌, ◌<◌, ◌+◌, ◌++◌, [], ◌∷◌, length, vec_capacity, vec_len};
ghost use Rattle.std.specs.Prelude.{IfOk, MatchOption, OnErr, option_map};
ghost use Rattle.std.specs.Option.{option_copied};
ghost use Rattle.std.specs.declared.cmp.Ordering.TheVariants.{Greater};
ghost use Rattle.rart_keys.specs.SortedMap.{longest_key};
ghost use Rattle.rart_nodes.specs.ranges.DescendingWalk.{IsDescendingWalkAt, descending_walk_entries};
ghost use Rattle.rart_nodes.specs.ranges.Steps.{AllCompare, StepsUntil};
ghost use Rattle.rart_trie.specs.ranges.Under.{children_before};
ghost use Rattle.rart_nodes.specs.ranges.UpperBounds.{entries_until};
ghost use Rattle.rart_nodes.specs.walks.WalkSteps.{HasPlaces};
ghost use Rattle.rart_nodes.specs.tries.SeenTrees.{length_bound, seen_keys, seen_pairs, seen_tree};
ghost use Rattle.rart_trie.specs.tries.Trie.{children_in, pairs_of, prefix_of};
ghost use Rattle.rart_trie.specs.walks.ProbeCount.{entered_nodes, probe_count};
ghost use Rattle.rart_trie.specs.walks.Walk.{Joins, entries_of, tree_entries};

use crate::node::path_walk::descending::branches::DescendingBranches;
use crate::node::path_walk::descending::{DescendingWalk, empty_descending_walk};
use crate::node::path_walk::path::Path;
use crate::node::path_walk::{Step, value_if};
use crate::node::seen::{Entered, Seen, Shared};
use rart_keys::{KeyTrait, Partial};
use rart_trie::Count;
use rart_trie::node::strip_prefix;
use std::alloc::AllocError;
use std::cmp::Ordering;

/// Returns what a descending walk from `end` keeps of a visited node, or `None` if each key there is greater.
// Inline, so that a step isn't stored.
#[inline(always)]
pub(crate) fn step_until<'a, 'k, P: Partial, V, C>(
    at: Entered<'a, P, V, C>,
    end: &'k [u8],
    included: bool,
) -> Option<Step<'a, 'k, P, V, C>>
    ensures { MatchOption result (AllCompare Greater (prefix_of at.entry.node.now) end.now)
        (λ s. StepsUntil included end.now at.entry.node.now (option_copied s.value) s.edge
        (option_map (λ n. n.node.now) s.next) s.rest.now) }
{
    let prefix = at.prefix();
    let Some(rest) = strip_prefix(prefix, end) else {
        // the node's keys all come before the end, or all after it
        if let Ordering::Less = prefix.to_slice().cmp(end) {
            return Some(Step {
                value: at.value(),
                edge: None,
                next: None,
                rest: end,
            });
        }
        return None;
    };
    let Some(byte) = rest.first() else {
        // no child comes before the byte 0
        return Some(Step {
            value: value_if(at, included),
            edge: Some(0),
            next: None,
            rest,
        });
    };
    Some(Step {
        value: at.value(),
        edge: Some(*byte),
        next: at.child(*byte),
        rest,
    })
}

/// Returns the children of a visited node before the byte `edge`, or all of them if it is `None`.
fn branches_before<'a, P: Partial, V, C>(
    at: Entered<'a, P, V, C>,
    edge: Option<u8>,
) -> DescendingBranches<'a, P, V, C>
    ensures { result ≡ children_before edge (children_in at.entry.node.now) }
{
    match edge {
        None => at.descending_branches(),
        Some(byte) => at.branches_under(byte),
    }
}

/// Descends past the prefix of a visited node, and adds a level of `value` and its children before `edge`.
fn push_level_before<'a, P: Partial, V, C, T: Path<'a, P>>(
    levels: &mut Vec<((DescendingBranches<'a, P, V, C>, usize), Option<&'a V>)>,
    path: &mut T,
    at: Entered<'a, P, V, C>,
    edge: Option<u8>,
    value: Option<&'a V>,
)
    requires bytes { length (T.kept path.old) + length (prefix_of at.node.now)
        ≤ T.capacity path.old }
    requires place { vec_len levels.old < vec_capacity levels.old }
    ensures kept { T.kept path.new ≡ T.kept path.old ++ T.grown (prefix_of at.entry.node.now) }
    ensures levels { levels.new.items ≡ levels.old.items
        ++ (
          (children_before edge (children_in at.entry.node.now), length (T.kept path.new)),
          value.entry,
        ) ∷ [] }
    ensures path_capacity { T.capacity path.old ≤ T.capacity path.new }
    ensures requested { T.requested path.new ≡ T.requested path.old }
    ensures level_capacity { vec_capacity levels.new ≡ vec_capacity levels.old }
{
    path.grow(at.prefix());
    levels.push_reserved(((branches_before(at, edge), path.mark()), value));
}

impl<'a, P: Partial, V, C: Count> DescendingWalk<'a, P, V, C> {
    /// Descends from `top` to `end`. The walk then yields the pairs before `end`, and the one at it if `included`.
    fn descend<T: Path<'a, P>>(
        &mut self,
        top: Shared<'a, P, V, C>,
        end: &[u8],
        included: bool,
        path: &mut T,
        counter: &mut C,
    )
        requires joins { Joins T.grown }
        requires empty_path { T.kept path.old ≡ [] }
        requires empty_walk { self.old.levels.items ≡ [] }
        requires bounds_keys { longest_key (pairs_of top.node.now) ≤ self.old.longest }
        requires reserved { self.old.longest ≤ T.capacity path.old }
        requires places { self.old.longest < vec_capacity self.old.levels }
        ensures path { IsDescendingWalkAt self.new (T.kept path.new) }
        ensures reserved { self.new.longest ≤ T.capacity path.new }
        ensures requested { T.requested path.new ≡ T.requested path.old }
        ensures entries { descending_walk_entries T.grown (T.kept path.new) self.new
            ≡ entries_until included end.now (entries_of T.grown top.entry.node.now) }
        ensures visits { C.number counter.new
            ≡ C.number counter.old + entered_nodes end.now top.entry.node.now }
        ensures longest { self.new.longest ≡ self.old.longest }
        ensures level_capacity { vec_capacity self.new.levels ≡ vec_capacity self.old.levels }
    {
        let mut next = Some(top);
        let mut rest = end;
        while let Some(node) = next {
            let at = node.enter(counter);
            let Some(step) = step_until(at, rest, included) else {
                return;
            };
            push_level_before(&mut self.levels, path, at, step.edge, step.value);
            next = step.next;
            rest = step.rest;
        }
    }
}

impl<'a, K: KeyTrait, V, C: Count> Seen<'a, K, V, C> {
    /// Returns a descending walk from `end` with its path; the pair at the end is yielded if `included`. It allocates
    /// before it visits a node, and nothing for an empty tree.
    pub(crate) fn descending_walk_to<T: Path<'a, K::PartialType>>(
        self,
        end: &[u8],
        included: bool,
        counter: &mut C,
    ) -> Result<(DescendingWalk<'a, K::PartialType, V, C>, T), AllocError>
        requires joins { Joins T.grown }
        ensures path { IfOk result (λ w. IsDescendingWalkAt w.0 (T.kept w.1)) }
        ensures reserved { IfOk result (λ w. w.0.longest ≤ T.capacity w.1) }
        ensures requested { IfOk result (λ w. T.requested w.1 ≤ length_bound self.entry) }
        ensures longest { IfOk result (λ w. w.0.longest ≤ length_bound self.entry) }
        ensures entries { IfOk result
            (λ w. descending_walk_entries T.grown (T.kept w.1) w.0
            ≡ entries_until included end.now (tree_entries T.grown (seen_tree self.entry))) }
        ensures allocates { OnErr result (seen_pairs self.entry ≢ []) }
        ensures unvisited { OnErr result (counter.new ≡ counter.old) }
        ensures visits { IfOk result (λ _. C.number counter.new
            ≡ C.number counter.old + probe_count (seen_keys self.entry) end.now) }
        ensures bound { C.number counter.new ≤ C.number counter.old + length end.now + 1 }
        ensures places { IfOk result (λ w. HasPlaces w.0.levels (length_bound self.entry)) }
    {
        let alloc = self.alloc();
        let longest = self.longest();
        let Some(top) = self.top() else {
            return Ok(empty_descending_walk(alloc));
        };
        let (mut path, levels) = self.new_path_and_levels::<T, _>()?;
        let mut walk: DescendingWalk<'a, K::PartialType, V, C> = DescendingWalk { levels, longest };
        walk.descend(top, end, included, &mut path, counter);
        Ok((walk, path))
    }
}
