//! The descent to a start, and walks from there.
ghost use Rattle.std.specs.Prelude.{◌≡◌, ◌≢◌, ◌≤◌, ◌<◌, ◌+◌, ◌++◌, [], ◌∷◌, length, reverse, vec_capacity, vec_len};
ghost use Rattle.std.specs.Prelude.{IfOk, MatchOption, None, OnErr, option_map};
ghost use Rattle.std.specs.Option.{option_copied};
ghost use Rattle.std.specs.declared.cmp.Ordering.TheVariants.{Less};
ghost use Rattle.rart_keys.specs.SortedMap.{longest_key};
ghost use Rattle.rart_nodes.specs.ranges.Potential.{AreLow};
ghost use Rattle.rart_trie.specs.ranges.Starts.{entries_from};
ghost use Rattle.rart_nodes.specs.ranges.Steps.{AllCompare, StepsFrom, children_after};
ghost use Rattle.rart_trie.specs.stats.Stats.{height, trie_height};
ghost use Rattle.rart_nodes.specs.tries.SeenTrees.{length_bound, seen_keys, seen_pairs, seen_tree};
ghost use Rattle.rart_trie.specs.tries.Trie.{children_in, pairs_of, prefix_of};
ghost use Rattle.rart_trie.specs.walks.ProbeCount.{entered_nodes, probe_count};
ghost use Rattle.rart_trie.specs.walks.Walk.{Joins, entries_of, tree_entries};
ghost use Rattle.rart_nodes.specs.walks.WalkSteps.{HasPlaces, IsWalkAt, walk_entries};

use crate::node::path_walk::ascending::{Walk, empty_walk};
use crate::node::path_walk::path::Path;
use crate::node::path_walk::{Step, value_if};
use crate::node::seen::{Branches, Entered, Seen, Shared};
use rart_keys::{KeyTrait, Partial};
use rart_trie::Count;
use rart_trie::node::strip_prefix;
use std::alloc::AllocError;
use std::cmp::Ordering;

/// Returns what a walk from `start` keeps of a visited node, or `None` if each key there is less than `start`.
// Inline, so that a step isn't stored.
#[inline(always)]
pub(crate) fn step_from<'a, 'k, P: Partial, V, C>(
    at: Entered<'a, P, V, C>,
    start: &'k [u8],
    included: bool,
) -> Option<Step<'a, 'k, P, V, C>>
    ensures { MatchOption result (AllCompare Less (prefix_of at.entry.node.now) start.now)
        (λ s. StepsFrom included start.now at.entry.node.now (option_copied s.value) s.edge
        (option_map (λ n. n.node.now) s.next) s.rest.now) }
{
    let prefix = at.prefix();
    let Some(rest) = strip_prefix(prefix, start) else {
        // the node's keys all come before the start, or all after it
        if let Ordering::Greater = prefix.to_slice().cmp(start) {
            return Some(Step {
                value: at.value(),
                edge: None,
                next: None,
                rest: start,
            });
        }
        return None;
    };
    let Some(byte) = rest.first() else {
        return Some(Step {
            value: value_if(at, included),
            edge: None,
            next: None,
            rest,
        });
    };
    Some(Step {
        value: None,
        edge: Some(*byte),
        next: at.child(*byte),
        rest,
    })
}

/// Returns the children of a visited node after the byte `edge`, or all of them if it is `None`.
pub(crate) fn branches_after<'a, P: Partial, V, C>(
    at: Entered<'a, P, V, C>,
    edge: Option<u8>,
) -> Branches<'a, P, V, C>
    ensures { result ≡ children_after edge (children_in at.entry.node.now) }
{
    match edge {
        None => at.branches(),
        Some(byte) => at.branches_above(byte),
    }
}

/// Descends past the prefix of a visited node, and adds a level of its children after `edge`.
fn push_level<'a, P: Partial, V, C, T: Path<'a, P>>(
    levels: &mut Vec<(Branches<'a, P, V, C>, usize)>,
    path: &mut T,
    at: Entered<'a, P, V, C>,
    edge: Option<u8>,
)
    requires bytes { length (T.kept path.old) + length (prefix_of at.node.now)
        ≤ T.capacity path.old }
    requires place { vec_len levels.old < vec_capacity levels.old }
    ensures kept { T.kept path.new ≡ T.kept path.old ++ T.grown (prefix_of at.entry.node.now) }
    ensures levels { levels.new.items ≡ levels.old.items
        ++ (children_after edge (children_in at.entry.node.now), length (T.kept path.new)) ∷ [] }
    ensures path_capacity { T.capacity path.old ≤ T.capacity path.new }
    ensures requested { T.requested path.new ≡ T.requested path.old }
    ensures level_capacity { vec_capacity levels.new ≡ vec_capacity levels.old }
{
    path.grow(at.prefix());
    levels.push_reserved((branches_after(at, edge), path.mark()));
}

impl<'a, P: Partial, V, C: Count> Walk<'a, P, V, C> {
    /// Descends from `top` to `start`. The walk then yields the pairs after `start`, and the one at it if `included`.
    fn descend<T: Path<'a, P>>(
        &mut self,
        top: Shared<'a, P, V, C>,
        start: &[u8],
        included: bool,
        path: &mut T,
        counter: &mut C,
    )
        requires joins { Joins T.grown }
        requires empty_path { T.kept path.old ≡ [] }
        requires empty_walk { self.old.levels.items ≡ [] }
        requires first { self.old.first ≡ None }
        requires bounds_keys { longest_key (pairs_of top.node.now) ≤ self.old.longest }
        requires reserved { self.old.longest ≤ T.capacity path.old }
        requires places { self.old.longest < vec_capacity self.old.levels }
        ensures path { IsWalkAt self.new (T.kept path.new) }
        ensures reserved { self.new.longest ≤ T.capacity path.new }
        ensures requested { T.requested path.new ≡ T.requested path.old }
        ensures entries { walk_entries T.grown (T.kept path.new) self.new
            ≡ entries_from included start.now (entries_of T.grown top.entry.node.now) }
        ensures visits { C.number counter.new
            ≡ C.number counter.old + entered_nodes start.now top.entry.node.now }
        ensures low { AreLow (trie_height top.entry.node.now) (reverse self.new.levels.items) }
        ensures longest { self.new.longest ≡ self.old.longest }
        ensures level_capacity { vec_capacity self.new.levels ≡ vec_capacity self.old.levels }
    {
        let mut next = Some(top);
        let mut rest = start;
        while let Some(node) = next {
            let at = node.enter(counter);
            let Some(step) = step_from(at, rest, included) else {
                return;
            };
            push_level(&mut self.levels, path, at, step.edge);
            self.first = step.value;
            next = step.next;
            rest = step.rest;
        }
    }
}

impl<'a, K: KeyTrait, V, C: Count> Seen<'a, K, V, C> {
    /// Returns a walk from `start` on with its path; the pair at the start is yielded if `included`. It allocates
    /// before it visits a node, and nothing for an empty tree.
    pub(crate) fn walk_from<T: Path<'a, K::PartialType>>(
        self,
        start: &[u8],
        included: bool,
        counter: &mut C,
    ) -> Result<(Walk<'a, K::PartialType, V, C>, T), AllocError>
        requires joins { Joins T.grown }
        ensures path { IfOk result (λ w. IsWalkAt w.0 (T.kept w.1)) }
        ensures reserved { IfOk result (λ w. w.0.longest ≤ T.capacity w.1) }
        ensures requested { IfOk result (λ w. T.requested w.1 ≤ length_bound self.entry) }
        ensures longest { IfOk result (λ w. w.0.longest ≤ length_bound self.entry) }
        ensures entries { IfOk result (λ w. walk_entries T.grown (T.kept w.1) w.0
            ≡ entries_from included start.now (tree_entries T.grown (seen_tree self.entry))) }
        ensures low { IfOk result
            (λ w. AreLow (height (seen_keys self.entry)) (reverse w.0.levels.items)) }
        ensures allocates { OnErr result (seen_pairs self.entry ≢ []) }
        ensures unvisited { OnErr result (counter.new ≡ counter.old) }
        ensures visits { IfOk result (λ _. C.number counter.new
            ≡ C.number counter.old + probe_count (seen_keys self.entry) start.now) }
        ensures bound { C.number counter.new ≤ C.number counter.old + length start.now + 1 }
        ensures places { IfOk result (λ w. HasPlaces w.0.levels (length_bound self.entry)) }
    {
        let alloc = self.alloc();
        let longest = self.longest();
        let Some(top) = self.top() else {
            return Ok(empty_walk(alloc));
        };
        let (mut path, levels) = self.new_path_and_levels::<T, _>()?;
        let mut walk: Walk<'a, K::PartialType, V, C> = Walk {
            levels,
            first: None,
            longest,
        };
        walk.descend(top, start, included, &mut path, counter);
        Ok((walk, path))
    }
}
