//! The descent to a bound, which keeps the place of the pair nearest to it.

// The bytes before a node are the first ones of the bound, so that only their number is kept.

ghost use Rattle.std.specs.Prelude.{◌≡◌, ◌≤◌, ◌+◌, ◌++◌, ℕ, List, IfSome, MatchOption, Some, length, option_map, take};
ghost use Rattle.rart_trie.specs.declared.node.ends.End.{End};
ghost use Rattle.std.specs.Option.{option_copied, option_or};
ghost use Rattle.rart_keys.specs.KeyBytes.{IsWithin};
ghost use Rattle.rart_nodes.specs.ranges.Nearest.{HasBytes, StepsToward, children_toward, is_passed, nearest};
ghost use Rattle.rart_nodes.specs.ranges.Nearest.{nearest_pair, place_pair};
ghost use Rattle.rart_nodes.specs.ranges.Steps.{AllCompare, children_after};
ghost use Rattle.rart_nodes.specs.tries.KeysAfter.{after_bytes};
ghost use Rattle.rart_nodes.specs.tries.SeenTrees.{seen_keys, seen_pairs};
ghost use Rattle.rart_trie.specs.ranges.Under.{children_before};
ghost use Rattle.rart_trie.specs.tries.Ends.{end_of, first_child, last_child};
ghost use Rattle.rart_trie.specs.tries.Trie.{children_in, children_pairs, own_pair, prefix_of};
ghost use Rattle.rart_trie.specs.walks.ProbeCount.{probe_count};

use crate::node::ends::end_below;
use crate::node::path_walk::Step;
use crate::node::path_walk::ascending::seek_start::{branches_after, step_from};
use crate::node::path_walk::descending::seek_end::step_until;
use crate::node::seen::{Entered, Seen, Shared};
use rart_keys::{KeyTrait, Partial};
use rart_trie::Count;
use rart_trie::node::End;

/// The place of a pair at a visited node.
#[derive(Drop)]
pub(crate) enum Place<'a, P: Partial, V, C> {
    /// The value of the node.
    Own(&'a V),
    /// The first or the last pair of a child, which wasn't visited yet.
    Below(Shared<'a, P, V, C>),
}

/// The place of the pair nearest to a bound among those that a descent passed.
#[derive(Drop)]
pub(crate) struct Nearest<'a, P: Partial, V, C> {
    // the prefix of the node, and the number of bytes before it
    prefix: &'a P,
    depth: usize,
    place: Place<'a, P, V, C>,
}

/// Returns the first child of a visited node after the byte `edge`, or the first of all if it is `None`.
fn first_child_after<'a, P: Partial, V, C>(
    at: Entered<'a, P, V, C>,
    edge: Option<u8>,
) -> Option<Shared<'a, P, V, C>>
    ensures { option_map (λ s. s.node.now) result ≡ option_map (λ e. e.1)
        (first_child (children_after edge (children_in at.entry.node.now))) }
{
    let mut branches = branches_after(at, edge);
    let (_, child) = branches.next_child()?;
    Some(child)
}

/// Returns the last child of a visited node before the byte `edge`, or the last of all if it is `None`.
fn last_child_under<'a, P: Partial, V, C>(
    at: Entered<'a, P, V, C>,
    edge: Option<u8>,
) -> Option<Shared<'a, P, V, C>>
    ensures { option_map (λ s. s.node.now) result ≡ option_map (λ e. e.1)
        (last_child (children_before edge (children_in at.entry.node.now))) }
{
    let (_, child) = at.last_child_before(edge)?;
    Some(child)
}

/// Returns the place of the first pair among `value` and the children after `edge`.
fn first_place<'a, P: Partial, V, C>(
    at: Entered<'a, P, V, C>,
    value: Option<&'a V>,
    edge: Option<u8>,
) -> Option<Place<'a, P, V, C>>
    ensures pair { place_pair End.First result ≡ end_of End.First
        (own_pair (option_copied value.entry)
        ++ children_pairs (children_toward End.First edge (children_in at.entry.node.now))) }
    ensures below { IfSome result HasBytes }
{
    if let Some(value) = value {
        return Some(Place::Own(value));
    }
    let child = first_child_after(at, edge)?;
    Some(Place::Below(child))
}

/// Returns the place of the last pair among `value` and the children before `edge`.
fn last_place<'a, P: Partial, V, C>(
    at: Entered<'a, P, V, C>,
    value: Option<&'a V>,
    edge: Option<u8>,
) -> Option<Place<'a, P, V, C>>
    ensures pair { place_pair End.Last result ≡ end_of End.Last
        (own_pair (option_copied value.entry)
        ++ children_pairs (children_toward End.Last edge (children_in at.entry.node.now))) }
    ensures below { IfSome result HasBytes }
{
    if let Some(child) = last_child_under(at, edge) {
        return Some(Place::Below(child));
    }
    let Some(value) = value else {
        return None;
    };
    Some(Place::Own(value))
}

/// Returns the place of the pair at `end` among `value` and the children beyond `edge`.
fn place_beyond<'a, P: Partial, V, C>(
    at: Entered<'a, P, V, C>,
    end: End,
    value: Option<&'a V>,
    edge: Option<u8>,
) -> Option<Place<'a, P, V, C>>
    ensures pair { place_pair end result ≡ end_of end (own_pair (option_copied value.entry)
        ++ children_pairs (children_toward end edge (children_in at.entry.node.now))) }
    ensures below { IfSome result HasBytes }
{
    match end {
        End::First => first_place(at, value, edge),
        End::Last => last_place(at, value, edge),
    }
}

/// Returns how a descent to `bound` passes a visited node, or `None` if no key there is sought.
fn step_toward<'a, 'k, P: Partial, V, C>(
    at: Entered<'a, P, V, C>,
    end: End,
    bound: &'k [u8],
    included: bool,
) -> Option<Step<'a, 'k, P, V, C>>
    ensures { MatchOption result
        (AllCompare (is_passed end) (prefix_of at.entry.node.now) bound.now)
        (λ s. StepsToward end included bound.now at.entry.node.now (option_copied s.value) s.edge
        (option_map (λ n. n.node.now) s.next) s.rest.now) }
{
    match end {
        End::First => step_from(at, bound, included),
        End::Last => step_until(at, bound, included),
    }
}

/// Returns `place` at a node with this prefix after `depth` bytes, or `before` if there is none.
fn nearer<'a, P: Partial, V, C>(
    prefix: &'a P,
    depth: usize,
    place: Option<Place<'a, P, V, C>>,
    before: Option<Nearest<'a, P, V, C>>,
) -> Option<Nearest<'a, P, V, C>>
    ensures pair { (end : End) → (bound : List ℕ) → nearest_pair end bound result
        ≡ option_or (after_bytes (take depth bound ++ P.bytes prefix.now)
        (place_pair end place.entry)) (nearest_pair end bound before.entry) }
    ensures depth { (n : ℕ) → depth ≤ n → IfSome before.entry (λ b. b.depth ≤ n)
        → IfSome result (λ r. r.depth ≤ n) }
    ensures below { IfSome place.entry HasBytes → IfSome before.entry (λ n. HasBytes n.place)
        → IfSome result (λ n. HasBytes n.place) }
{
    match place {
        Some(place) => Some(Nearest {
            prefix,
            depth,
            place,
        }),
        None => before,
    }
}

impl<'a, P: Partial, V, C: Count> Nearest<'a, P, V, C> {
    /// Descends to the pair, and returns its path and its value.
    fn pair(self, end: End, bound: &[u8], counter: &mut C) -> (P, &'a V)
        requires depth { self.depth ≤ length bound.now }
        requires within { IfSome (nearest_pair end bound.now (Some self))
            (λ e. IsWithin P.MAXIMUM_SIZE (length e.0)) }
        requires below { HasBytes self.place }
        ensures pair { nearest_pair end bound.now (Some self.entry)
            ≡ Some (P.bytes result.0, result.1.now) }
        ensures visits { C.number counter.new ≤ C.number counter.old + length (P.bytes result.0) }
    {
        let start = P::from_slice(&bound[..self.depth]).partial_extended_with(self.prefix);
        match self.place {
            Place::Own(value) => (start, value),
            Place::Below(child) => end_below(child, start, end, counter),
        }
    }
}

impl<'a, K: KeyTrait, V, C: Count> Seen<'a, K, V, C> {
    /// Returns the place of the pair nearest to `bound`.
    fn seek_nearest(
        self,
        end: End,
        bound: &[u8],
        included: bool,
        counter: &mut C,
    ) -> Option<Nearest<'a, K::PartialType, V, C>>
        ensures pair { nearest_pair end bound.now result
            ≡ nearest end included bound.now (seen_pairs self.entry) }
        ensures depth { IfSome result (λ n. n.depth ≤ length bound.now) }
        ensures below { IfSome result (λ n. HasBytes n.place) }
        ensures visits { C.number counter.new
            ≡ C.number counter.old + probe_count (seen_keys self.entry) bound.now }
    {
        let mut found = None;
        let mut next = self.top();
        let mut rest = bound;
        while let Some(node) = next {
            let at = node.enter(counter);
            let Some(step) = step_toward(at, end, rest, included) else {
                return found;
            };
            let place = place_beyond(at, end, step.value, step.edge);
            found = nearer(at.prefix(), bound.len() - rest.len(), place, found);
            next = step.next;
            rest = step.rest;
        }
        found
    }

    /// Returns the first pair from `bound` on, or the last until it; the one at it only if `included`.
    pub(crate) fn nearest_pair(
        self,
        end: End,
        bound: &[u8],
        included: bool,
        counter: &mut C,
    ) -> Option<(K, &'a V)>
        ensures pair { option_map (λ p. (K.bytes p.0, p.1.now)) result
            ≡ nearest end included bound.now (seen_pairs self.entry) }
        ensures bound { MatchOption result
            (C.number counter.new ≤ C.number counter.old + length bound.now + 1)
            (λ p. C.number counter.new
            ≤ C.number counter.old + length bound.now + 1 + length (K.bytes p.0)) }
    {
        let found = self.seek_nearest(end, bound, included, counter)?;
        let (path, value) = found.pair(end, bound, counter);
        Some((K::new_from_partial(&path), value))
    }
}
