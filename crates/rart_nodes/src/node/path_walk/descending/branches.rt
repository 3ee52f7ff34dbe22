//! The children of a visited node, taken from the last.
ghost use Rattle.std.specs.Prelude.{◌≡◌, ◌+◌, ℕ, MatchOption};
ghost use Rattle.rart_keys.specs.SortedMap.{count_of};
ghost use Rattle.rart_trie.specs.ranges.Under.{children_under, with_last};
ghost use Rattle.rart_trie.specs.tries.Trie.{children_in, no_children};

use crate::node::seen::Entered;
use rart_keys::Partial;
use rart_trie::Count;
use std::marker::Model;

/// The children of a visited node that are still to be visited, the last first.
#[derive(Drop)]
pub(crate) struct DescendingBranches<'a, P: Partial, V, C> {
    at: Entered<'a, P, V, C>,
    // the byte of the child that was visited last; children from there on are left out
    end: Option<u8>,
}

impl<'a, P: Partial, V, C> Model for DescendingBranches<'a, P, V, C> {
    ghost use Rattle.rart_trie.specs.ranges.Under.{children_before};
    ghost use Rattle.rart_trie.specs.tries.Trie.{Children, children_in};
    ghost use Rattle.rart_nodes.specs.walks.ChildrenCode.{children_code};

    ghost Value = { Children V };

    ghost coded = { children_code V.code };

    ghost view = { λ b. children_before b.end (children_in b.at.node.now) };
}

impl<'a, P: Partial, V, C> Entered<'a, P, V, C> {
    /// Returns the children, none of them visited, the last first.
    pub(crate) fn descending_branches(self) -> DescendingBranches<'a, P, V, C>
        ensures { result ≡ children_in self.entry.node.now }
    {
        DescendingBranches {
            at: self,
            end: None,
        }
    }

    /// Returns the children at the bytes under `byte`, none of them visited, the last first.
    pub(crate) fn branches_under(self, byte: u8) -> DescendingBranches<'a, P, V, C>
        ensures { result ≡ children_under byte (children_in self.entry.node.now) }
    {
        DescendingBranches {
            at: self,
            end: Some(byte),
        }
    }
}

impl<'a, P: Partial, V, C: Count> DescendingBranches<'a, P, V, C> {
    /// Visits the last child.
    pub(crate) fn enter_last(&mut self, counter: &mut C) -> Option<Entered<'a, P, V, C>>
        ensures shown { MatchOption result ((self.old ≡ no_children) × (self.new ≡ no_children))
            (λ e. (b : ℕ)
            × (self.old ≡ with_last self.new b e.node.now)) }
        ensures counted { C.number counter.new ≡ C.number counter.old + count_of result }
    {
        let (byte, child) = self.at.last_child_before(self.end)?;
        self.end = Some(byte);
        Some(child.enter(counter))
    }
}
