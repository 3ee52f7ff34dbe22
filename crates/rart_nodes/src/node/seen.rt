//! A shared tree whose reads are counted.

// In this crate only this module accesses the nodes of a shared tree. It returns the prefix, the value and the children
// of a node only to a caller that visits it, and each visit adds one to the caller's counter. Look-ups and walks are in
// other modules.

ghost use Rattle.std.specs.Prelude.{◌≡◌, ◌↔◌, ◌≤◌, ◌+◌, ℕ, IsTrue, MatchOption, Some, length, option_map, true};
ghost use Rattle.std.specs.Option.{option_copied};
ghost use Rattle.rart_keys.specs.KeyBytes.{IsWithin, IsWithin-prop};
ghost use Rattle.rart_keys.specs.SortedMap.{count_of, longest_key};
ghost use Rattle.rart_trie.specs.ranges.Under.{children_before};
ghost use Rattle.rart_trie.specs.ranges.Starts.{children_above};
ghost use Rattle.rart_trie.specs.tries.CanonicalTest.{is_canonical, is_canonical_tree};
ghost use Rattle.rart_trie.specs.tries.Ends.{end_child, last_child};
ghost use Rattle.rart_trie.specs.tries.Tree.{IsCanonicalTree, tree_pairs};
ghost use Rattle.rart_trie.specs.tries.Trie.{capacity_in, child, child_in, children_in, edges_of, no_children};
ghost use Rattle.rart_trie.specs.tries.Trie.{prefix_of, value_of};

use rart_keys::{KeyTrait, Partial};
use rart_trie::node::{DefaultNode, End, Node, NodeIter};
use rart_trie::{Count, Paired};
use std::alloc::{AllocError, Global};
use std::marker::{Model, PhantomData};

/// Borrows a shared tree, or a part of one, whose reads a `C` counts. It never returns its node.
pub struct Seen<'a, K: KeyTrait, V, C> {
    root: Option<&'a DefaultNode<K::PartialType, V>>,
    alloc: Global,
    longest: usize,
    of: PhantomData<(K, C)>,
    ghost canonical: { is_canonical_tree (option_copied root) ≡ true },
    ghost short: { longest_key (tree_pairs (option_copied root)) ≤ longest },
    ghost fits: { IsWithin K.MAXIMUM_SIZE longest } by { IsWithin-prop K.MAXIMUM_SIZE longest },
}

impl<'a, K: KeyTrait, V, C> Clone for Seen<'a, K, V, C> {
    ghost use Rattle.std.specs.Prelude.{◌≡◌, ⊤};

    ghost is_clone = { λ seen copy. copy ≡ seen };

    ghost is_infallible = { λ _. ⊤ };

    fn clone(&self) -> Result<Self, AllocError> {
        Ok(*self)
    }
}

impl<'a, K: KeyTrait, V, C> Copy for Seen<'a, K, V, C> {}

/// A node of a shared tree that wasn't visited yet.
pub(crate) struct Shared<'a, P: Partial, V, C> {
    node: &'a DefaultNode<P, V>,
    of: PhantomData<C>,
    ghost canonical: { is_canonical node.now ≡ true },
}

impl<'a, P: Partial, V, C> Clone for Shared<'a, P, V, C> {
    ghost use Rattle.std.specs.Prelude.{◌≡◌, ⊤};

    ghost is_clone = { λ shared copy. copy ≡ shared };

    ghost is_infallible = { λ _. ⊤ };

    fn clone(&self) -> Result<Self, AllocError> {
        Ok(*self)
    }
}

impl<'a, P: Partial, V, C> Copy for Shared<'a, P, V, C> {}

/// What a visit shows of a node.
pub(crate) struct Entered<'a, P: Partial, V, C> {
    node: &'a DefaultNode<P, V>,
    prefix: &'a P,
    of: PhantomData<C>,
    ghost canonical: { is_canonical node.now ≡ true },
    ghost own_prefix: { P.bytes prefix.now ≡ prefix_of node.now },
}

impl<'a, P: Partial, V, C> Clone for Entered<'a, P, V, C> {
    ghost use Rattle.std.specs.Prelude.{◌≡◌, ⊤};

    ghost is_clone = { λ entered copy. copy ≡ entered };

    ghost is_infallible = { λ _. ⊤ };

    fn clone(&self) -> Result<Self, AllocError> {
        Ok(*self)
    }
}

impl<'a, P: Partial, V, C> Copy for Entered<'a, P, V, C> {}

/// The children of a visited node that are still to be visited.
#[derive(Drop)]
pub(crate) struct Branches<'a, P: Partial, V, C> {
    rest: NodeIter<'a, P, V>,
    of: PhantomData<C>,
}

impl<'a, P: Partial, V, C> Model for Branches<'a, P, V, C> {
    ghost use Rattle.rart_trie.specs.tries.Trie.{AreCanonical, Children};
    ghost use Rattle.rart_trie.specs.tries.TrieCode.{as_children};
    ghost use Rattle.rart_nodes.specs.walks.ChildrenCode.{children_code};

    ghost Value = { Children V };

    ghost coded = { children_code V.code };

    ghost view = { λ b. as_children b.rest };

    ghost invariant = { λ b. AreCanonical 0 (as_children b.rest) };
}

impl<'a, K: KeyTrait, V, C> Seen<'a, K, V, C> {
    ghost use Rattle.rart_nodes.specs.tries.SeenTrees.{length_bound, seen_pairs, seen_tree};

    /// Returns the allocator of the tree.
    pub(crate) fn alloc(self) -> Global {
        self.alloc
    }

    /// Returns an upper bound of the lengths of the keys, within the keys' maximum.
    pub(crate) fn longest(self) -> usize
        ensures bounds_keys { longest_key (seen_pairs self.entry) ≤ result }
        ensures within { IsWithin K.MAXIMUM_SIZE result }
        ensures own { result ≡ length_bound self.entry }
    {
        self.longest
    }

    /// Returns the topmost node, not yet visited.
    pub(crate) fn top(self) -> Option<Shared<'a, K::PartialType, V, C>>
        ensures { option_map (λ s. s.node.now) result ≡ seen_tree self.entry }
    {
        let node = self.root?;
        Some(Shared {
            node,
            of: PhantomData,
        })
    }

    /// Returns the shared tree of `root`, whose walks allocate for keys of `longest` bytes. The nodes must have the
    /// shape of their keys, and `longest` must be within the keys' maximum and at least the length of each key.
    pub fn of(
        root: Option<&'a DefaultNode<K::PartialType, V>>,
        alloc: Global,
        longest: usize,
    ) -> Self
        requires canonical { IsCanonicalTree (option_copied root) }
        requires bounds_keys { longest_key (tree_pairs (option_copied root)) ≤ longest }
        requires within { IsWithin K.MAXIMUM_SIZE longest }
        ensures root { seen_tree result ≡ option_copied root.entry }
        ensures length { length_bound result ≡ longest }
    {
        Seen {
            root,
            alloc,
            longest,
            of: PhantomData,
        }
    }
}

impl<'a, P: Partial, V, C: Count> Shared<'a, P, V, C> {
    /// Visits the node.
    pub(crate) fn enter(self, counter: &mut C) -> Entered<'a, P, V, C>
        ensures shown { result.node.now ≡ self.entry.node.now }
        ensures counted { C.number counter.new ≡ C.number counter.old + 1 }
    {
        let prefix = self.node.enter(counter);
        Entered {
            node: self.node,
            prefix,
            of: PhantomData,
        }
    }

    /// Visits one node of each of two trees together, which counts once.
    pub(crate) fn enter_pair<'b, W>(
        self,
        other: Shared<'b, P, W, Paired<C>>,
        counter: &mut C,
    ) -> (Entered<'a, P, V, C>, Entered<'b, P, W, Paired<C>>)
        ensures left { result.0.node.now ≡ self.entry.node.now }
        ensures right { result.1.node.now ≡ other.entry.node.now }
        ensures counted { C.number counter.new ≡ C.number counter.old + 1 }
    {
        let (left, right) = self.node.enter_pair(other.node, counter);
        let left = Entered {
            node: self.node,
            prefix: left,
            of: PhantomData,
        };
        let right = Entered {
            node: other.node,
            prefix: right,
            of: PhantomData,
        };
        (left, right)
    }
}

impl<'a, P: Partial, V, C: Count> Shared<'a, P, V, Paired<C>> {
    /// Visits a node of the other tree alone.
    pub(crate) fn enter_other(self, counter: &mut C) -> Entered<'a, P, V, Paired<C>>
        ensures shown { result.node.now ≡ self.entry.node.now }
        ensures counted { C.number counter.new ≡ C.number counter.old + 1 }
    {
        let prefix = self.node.enter(counter);
        Entered {
            node: self.node,
            prefix,
            of: PhantomData,
        }
    }
}

impl<'a, P: Partial, V, C> Entered<'a, P, V, C> {
    /// Returns the prefix of the node.
    pub(crate) fn prefix(self) -> &'a P
        ensures { P.bytes result.now ≡ prefix_of self.entry.node.now }
    {
        self.prefix
    }

    /// Returns the value of the node.
    pub(crate) fn value(self) -> Option<&'a V>
        ensures { option_copied result ≡ value_of self.entry.node.now }
    {
        self.node.value()
    }

    /// Returns whether the node has no children.
    pub(crate) fn has_no_children(self) -> bool
        ensures { IsTrue result ↔ (children_in self.entry.node.now ≡ no_children) }
    {
        self.node.is_leaf()
    }

    /// Returns the number of children.
    pub(crate) fn num_children(self) -> usize
        ensures { result ≡ length (edges_of (children_in self.entry.node.now)) }
    {
        self.node.num_children()
    }

    /// Returns the greatest number of children of the node's kind.
    pub(crate) fn capacity(self) -> usize
        ensures { result ≡ capacity_in self.entry.node.now }
    {
        self.node.capacity()
    }

    /// Returns the child at byte `b`, not yet visited.
    pub(crate) fn child(self, b: u8) -> Option<Shared<'a, P, V, C>>
        ensures { option_map (λ s. s.node.now) result ≡ child_in b self.entry.node.now }
    {
        let node = self.node.seek_child(b)?;
        Some(Shared {
            node,
            of: PhantomData,
        })
    }

    /// Returns the child below which the pair at `end` is, not yet visited, or `None` if the node holds that pair.
    pub(crate) fn end_child(self, end: End) -> Option<Shared<'a, P, V, C>>
        ensures { option_map (λ s. s.node.now) result
            ≡ option_map (λ e. e.1) (end_child end self.entry.node.now) }
    {
        let (_, node) = self.node.end_child(end)?;
        Some(Shared {
            node,
            of: PhantomData,
        })
    }

    /// Returns the last child before `end`, not yet visited, with its byte.
    pub(crate) fn last_child_before(self, end: Option<u8>) -> Option<(u8, Shared<'a, P, V, C>)>
        ensures { option_map (λ e. (e.0, e.1.node.now)) result
            ≡ last_child (children_before end (children_in self.entry.node.now)) }
    {
        let (byte, node) = self.node.last_child_before(end)?;
        let child = Shared {
            node,
            of: PhantomData,
        };
        Some((byte, child))
    }

    /// Returns the children, none of them visited.
    pub(crate) fn branches(self) -> Branches<'a, P, V, C>
        ensures { result ≡ children_in self.entry.node.now }
    {
        Branches {
            rest: self.node.iter(),
            of: PhantomData,
        }
    }

    /// Returns the children at the bytes above `b`, none of them visited.
    pub(crate) fn branches_above(self, b: u8) -> Branches<'a, P, V, C>
        ensures { result ≡ children_above b (children_in self.entry.node.now) }
    {
        Branches {
            rest: self.node.iter_above(b),
            of: PhantomData,
        }
    }
}

impl<'a, P: Partial, V, C: Count> Branches<'a, P, V, C> {
    /// Visits the next child.
    // Inline, as each step of a walk calls it.
    #[inline(always)]
    pub(crate) fn enter_next(&mut self, counter: &mut C) -> Option<Entered<'a, P, V, C>>
        ensures shown { MatchOption result ((self.old ≡ no_children) × (self.new ≡ no_children))
            (λ e. (b : ℕ)
            × (self.old ≡ child b e.node.now self.new)) }
        ensures counted { C.number counter.new ≡ C.number counter.old + count_of result }
    {
        let (_, node) = self.rest.next()?;
        let below = Shared {
            node,
            of: PhantomData,
        };
        Some(below.enter(counter))
    }
}

impl<'a, P: Partial, V, C> Branches<'a, P, V, C> {
    /// Returns the next child with its byte, not yet visited.
    pub(crate) fn next_child(&mut self) -> Option<(u8, Shared<'a, P, V, C>)>
        ensures { MatchOption result ((self.old ≡ no_children) × (self.new ≡ no_children))
            (λ e. self.old ≡ child e.0 e.1.node.now self.new) }
    {
        let (byte, node) = self.rest.next()?;
        let child = Shared {
            node,
            of: PhantomData,
        };
        Some((byte, child))
    }
}
