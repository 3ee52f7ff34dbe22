//! Equality of two shared trees, found node by node: canonical trees with equal pairs have equal nodes.
ghost use Rattle.std.specs.Prelude.{◌≡◌, ◌+◌, ◌≤◌, length, min};
ghost use Rattle.std.specs.Option.{option_copied};
ghost use Rattle.rart_nodes.specs.tries.Equal.{same_pairs, same_tries, same_value};
ghost use Rattle.rart_nodes.specs.tries.SeenTrees.{seen_nodes, seen_pairs};
ghost use Rattle.rart_trie.specs.tries.TrieCode.{node_count};

use crate::node::intersect::aligned::same_prefixes;
use crate::node::seen::{Entered, Seen};
use rart_keys::{KeyTrait, Partial};
use rart_trie::{Count, Paired};

/// Returns whether two nodes have equal values, or none.
fn same_values<V: PartialEq>(left: Option<&V>, right: Option<&V>) -> bool
    ensures { result ≡ same_value V.eq (option_copied left.entry) (option_copied right.entry) }
{
    match (left, right) {
        (Some(value), Some(other)) => value == other,
        (None, None) => true,
        (Some(_), None) | (None, Some(_)) => false,
    }
}

/// Returns whether two visited nodes and all below them are equal.
fn same_nodes<P: Partial, V: PartialEq, C: Count>(
    left: Entered<'_, P, V, C>,
    right: Entered<'_, P, V, Paired<C>>,
    counter: &mut C,
) -> bool
    ensures value { result ≡ same_tries V.eq left.entry.node.now right.entry.node.now }
    ensures left_visits { C.number counter.new + 1
        ≤ C.number counter.old + node_count left.entry.node.now }
    ensures right_visits { C.number counter.new + 1
        ≤ C.number counter.old + node_count right.entry.node.now }
{
    if !same_prefixes(left.prefix(), right.prefix()) {
        return false;
    }
    if !same_values(left.value(), right.value()) {
        return false;
    }
    if left.has_no_children() {
        return right.has_no_children();
    }
    let mut rest = left.branches();
    let mut others = right.branches();
    while let Some((byte, child)) = rest.next_child() {
        let Some((other_byte, other)) = others.next_child() else {
            return false;
        };
        if byte != other_byte {
            return false;
        }
        let (node, other_node) = child.enter_pair(other, counter);
        if !same_nodes(node, other_node, counter) {
            return false;
        }
    }
    others.next_child().is_none()
}

impl<'a, K: KeyTrait, V: PartialEq, C: Count> Seen<'a, K, V, C> {
    /// Returns whether both trees have equal pairs: the same keys, with values equal by `==`. It compares the trees
    /// node by node, makes no key and does not allocate.
    ///
    /// # Visits
    ///
    /// One node of each tree together, which counts once: at most as many as the smaller tree has nodes.
    pub fn has_same_pairs_counted<'b>(
        self,
        other: Seen<'b, K, V, Paired<C>>,
        counter: &mut C,
    ) -> bool
        ensures value { result
            ≡ same_pairs V.eq (seen_pairs self.entry) (seen_pairs other.entry) }
        ensures bound { C.number counter.new ≤ C.number counter.old
            + min (length (seen_nodes self.entry)) (length (seen_nodes other.entry)) }
    {
        match (self.top(), other.top()) {
            (Some(left), Some(right)) => {
                let (node, other_node) = left.enter_pair(right, counter);
                same_nodes(node, other_node, counter)
            }
            (None, None) => true,
            (Some(_), None) | (None, Some(_)) => false,
        }
    }
}
