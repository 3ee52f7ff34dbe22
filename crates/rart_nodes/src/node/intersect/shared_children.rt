//! The children that two nodes have at the same bytes.
ghost use Rattle.std.specs.Prelude.{◌≡◌, ◌≤◌, ◌+◌, length};
ghost use Rattle.rart_keys.specs.SortedMap.{count_of};
ghost use Rattle.rart_nodes.specs.joins.SharedChildren.{shared_left, shared_right};
ghost use Rattle.rart_nodes.specs.joins.SharedChildrenAhead.{EntersSharedChildren, children_ahead};
ghost use Rattle.rart_nodes.specs.joins.SharedChildrenAhead.{shared_ahead};
ghost use Rattle.rart_trie.specs.tries.Trie.{children_in, edges_of};

use crate::node::seen::{Branches, Entered};
use rart_keys::Partial;
use rart_trie::{Count, Paired};

/// The children of one of two nodes that are still to be visited; each is sought at the other node.
#[derive(Drop)]
pub(crate) enum SharedChildren<'a, 'b, P: Partial, V, W, C> {
    /// Those of the left node.
    OverLeft(Branches<'a, P, V, C>),
    /// Those of the right node.
    OverRight(Branches<'b, P, W, Paired<C>>),
}

/// Visits the next child of the left node that shares its byte with one of the right node, and that one.
fn next_over_left<'a, 'b, P: Partial, V, W, C: Count>(
    branches: &mut Branches<'a, P, V, C>,
    right: Entered<'b, P, W, Paired<C>>,
    counter: &mut C,
) -> Option<(Entered<'a, P, V, C>, Entered<'b, P, W, Paired<C>>)>
    ensures shared_children { EntersSharedChildren (λ s. shared_left s right.entry.node.now)
        branches.old result branches.new }
    ensures counted { C.number counter.new ≡ C.number counter.old + count_of result }
{
    while let Some((byte, child)) = branches.next_child() {
        if let Some(other) = right.child(byte) {
            return Some(child.enter_pair(other, counter));
        }
    }
    None
}

/// Visits the same from the right node's children.
// Its own function: the two sides have other types of values, and other counters.
fn next_over_right<'a, 'b, P: Partial, V, W, C: Count>(
    left: Entered<'a, P, V, C>,
    branches: &mut Branches<'b, P, W, Paired<C>>,
    counter: &mut C,
) -> Option<(Entered<'a, P, V, C>, Entered<'b, P, W, Paired<C>>)>
    ensures shared_children { EntersSharedChildren (shared_right left.entry.node.now) branches.old
        result branches.new }
    ensures counted { C.number counter.new ≡ C.number counter.old + count_of result }
{
    while let Some((byte, other)) = branches.next_child() {
        if let Some(child) = left.child(byte) {
            return Some(child.enter_pair(other, counter));
        }
    }
    None
}

impl<'a, 'b, P: Partial, V, W, C: Count> SharedChildren<'a, 'b, P, V, W, C> {
    /// Returns the children of the node that has fewer. It visits none.
    pub(crate) fn of(left: Entered<'a, P, V, C>, right: Entered<'b, P, W, Paired<C>>) -> Self
        ensures shared_children { shared_ahead result left.entry.node.now right.entry.node.now
            ≡ shared_right left.entry.node.now (children_in right.entry.node.now) }
        ensures few_left { children_ahead result
            ≤ length (edges_of (children_in left.entry.node.now)) }
        ensures few_right { children_ahead result
            ≤ length (edges_of (children_in right.entry.node.now)) }
    {
        if left.num_children() < right.num_children() {
            SharedChildren::OverLeft(left.branches())
        } else {
            SharedChildren::OverRight(right.branches())
        }
    }

    /// Visits together the next two children at the same byte.
    pub(crate) fn enter_next(
        &mut self,
        left: Entered<'a, P, V, C>,
        right: Entered<'b, P, W, Paired<C>>,
        counter: &mut C,
    ) -> Option<(Entered<'a, P, V, C>, Entered<'b, P, W, Paired<C>>)>
        ensures shared_children { EntersSharedChildren
            (λ s. shared_ahead s left.entry.node.now right.entry.node.now)
            self.old result self.new }
        ensures counted { C.number counter.new ≡ C.number counter.old + count_of result }
    {
        match self {
            SharedChildren::OverLeft(branches) => next_over_left(branches, right, counter),
            SharedChildren::OverRight(branches) => next_over_right(left, branches, counter),
        }
    }
}
