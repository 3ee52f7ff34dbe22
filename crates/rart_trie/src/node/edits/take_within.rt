//! Removal of all pairs within two bounds, which leave as a tree of their own.

// All storages are allocated before the first write.

ghost use Rattle.std.specs.Prelude.{◌≡◌, ◌+◌, ◌≤◌, Bool, IfErr, IfOk, List, OnErr, OnOk, length, reverse, ℕ};
ghost use Rattle.rart_keys.specs.KeyBytes.{IsWithin};
ghost use Rattle.rart_keys.specs.Ranges.{between};
ghost use Rattle.rart_keys.specs.SortedMap.{longest_key};
ghost use Rattle.rart_parts.specs.Errors.{IsMemory};
ghost use Rattle.rart_trie.specs.edits.RangeRemovals.{outside};
ghost use Rattle.rart_trie.specs.edits.Splits.{SplitsTreeBy, complement, tree_where};
ghost use Rattle.rart_trie.specs.ranges.LentBounds.{lent_bound};
ghost use Rattle.rart_trie.specs.ranges.Parts.{is_in_part};
ghost use Rattle.rart_trie.specs.tries.Tree.{IsCanonicalTree, tree_pairs};

use crate::node::DefaultNode;
use crate::node::edits::split::Step;
use crate::node::fill::fill;
use crate::node::part::Part;
use rart_keys::Partial;
use rart_parts::TreeError;
use std::alloc::Global;
use std::ops::Bound;

impl<P: Partial, V: Drop> DefaultNode<P, V> {
    /// Splits the tree of a root as the steps of a plan say. The root keeps what is outside, and what is inside is
    /// returned.
    fn split_root(root: &mut Option<Self>, steps: &mut Vec<Step<P, V>>) -> Option<Self>
        requires canonical { IsCanonicalTree root.old }
        requires within { IsWithin P.MAXIMUM_SIZE (longest_key (tree_pairs root.old)) }
        requires planned { (t : List ℕ → Bool) × SplitsTreeBy t root.old (reverse steps.old.items) }
        ensures taken { (t : List ℕ → Bool) → SplitsTreeBy t root.old (reverse steps.old.items)
            → result ≡ tree_where t root.old }
        ensures rest { (t : List ℕ → Bool) → SplitsTreeBy t root.old (reverse steps.old.items)
            → root.new ≡ tree_where (complement t) root.old }
    {
        let sides = match steps.take_last() {
            Step::Whole(is_inside) => {
                if is_inside {
                    return root.take();
                }
                return None;
            }
            Step::Split(sides) => sides,
        };
        let (inside, rest) = match root {
            Some(node) => node.split_by_plan(steps, sides),
            None => unreachable!(),
        };
        DefaultNode::drop_tree(root);
        fill(root, rest);
        inside
    }

    fn take_part(
        root: &mut Option<Self>,
        alloc: Global,
        part: Part<'_>,
    ) -> Result<Option<Self>, TreeError>
        requires canonical { IsCanonicalTree root.old }
        requires within { IsWithin P.MAXIMUM_SIZE (longest_key (tree_pairs root.old)) }
        ensures taken { IfOk result
            (λ taken. taken ≡ tree_where (is_in_part part.entry) root.old) }
        ensures rest { OnOk result
            (root.new ≡ tree_where (complement (is_in_part part.entry)) root.old) }
        ensures unchanged { OnErr result (root.new ≡ root.old) }
        ensures memory { IfErr result IsMemory }
    {
        let mut steps = Vec::new(alloc);
        match root {
            Some(node) => {
                node.plan(alloc, part, &mut steps)?;
            }
            None => return Ok(None),
        }
        Ok(DefaultNode::split_root(root, &mut steps))
    }

    /// Removes all pairs whose key is within both bounds from the tree of an optional root and returns them as the root
    /// of a tree of their own. If the end is before the start, no pair is within. The tree must be canonical and its
    /// keys within the maximum; both trees are so then.
    ///
    /// It visits the nodes on the paths to both bounds and their children. A child between the bounds, or outside,
    /// moves as it is.
    ///
    /// # Errors
    ///
    /// [`TreeError::Memory`] if an allocation fails: storage for both sides of each node that has pairs within and
    /// outside, or the list of what is to be moved. The tree is then unchanged.
    pub fn take_within(
        root: &mut Option<Self>,
        alloc: Global,
        start: Bound<&[u8]>,
        end: Bound<&[u8]>,
    ) -> Result<Option<Self>, TreeError>
        requires canonical { IsCanonicalTree root.old }
        requires within { IsWithin P.MAXIMUM_SIZE (longest_key (tree_pairs root.old)) }
        ensures canonical { OnOk result (IsCanonicalTree root.new) }
        ensures taken_canonical { IfOk result (λ taken. IsCanonicalTree taken) }
        ensures pairs { OnOk result (tree_pairs root.new
            ≡ outside (lent_bound start.entry) (lent_bound end.entry) (tree_pairs root.old)) }
        ensures taken { IfOk result (λ taken. tree_pairs taken
            ≡ between (lent_bound start.entry) (lent_bound end.entry) (tree_pairs root.old)) }
        ensures count { IfOk result
            (λ taken. length (tree_pairs root.new) + length (tree_pairs taken)
            ≡ length (tree_pairs root.old)) }
        ensures longest_key { OnOk result
            (longest_key (tree_pairs root.new) ≤ longest_key (tree_pairs root.old)) }
        ensures longest_taken { IfOk result
            (λ taken. longest_key (tree_pairs taken) ≤ longest_key (tree_pairs root.old)) }
        ensures unchanged { OnErr result (root.new ≡ root.old) }
        ensures memory { IfErr result IsMemory }
    {
        DefaultNode::take_part(root, alloc, Part::Between(start, end))
    }
}
