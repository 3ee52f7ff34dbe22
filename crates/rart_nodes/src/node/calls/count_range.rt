//! The number of pairs between two bounds, found node by node.

// The bounds are cut on the way down, so no byte of the path is kept, and nothing is allocated.

ghost use Rattle.std.specs.Prelude.{◌≡◌, ◌≤◌, ◌+◌, ◌*◌, length};
ghost use Rattle.rart_keys.specs.Ranges.{between, bound_in};
ghost use Rattle.rart_trie.specs.ranges.BoundCuts.{path_count};
ghost use Rattle.rart_trie.specs.ranges.LentBounds.{lent_bound};
ghost use Rattle.rart_nodes.specs.ranges.Spans.{count_bound, count_visits};
ghost use Rattle.rart_nodes.specs.tries.SeenTrees.{seen_pairs};
ghost use Rattle.rart_trie.specs.tries.Trie.{own_pair, pairs_of, value_of};

use crate::node::calls::count_pairs::count_below;
use crate::node::path_walk::ascending::seek_start::branches_after;
use crate::node::seen::{Entered, Seen};
use rart_keys::{KeyTrait, Partial};
use rart_trie::Count;
use rart_trie::node::End;
use rart_trie::node::bounds::{
    after_prefix, at_child, byte_below, has_bounds, holds_empty, slice_bound,
};
use std::ops::Bound;

/// Returns 1 if a visited node has a value and its key is within both bounds, which begin after its prefix.
fn count_own<P: Partial, V, C>(
    at: Entered<'_, P, V, C>,
    start: Bound<&[u8]>,
    end: Bound<&[u8]>,
) -> usize
    ensures { result ≡ length (between (lent_bound start.entry) (lent_bound end.entry)
        (own_pair (value_of at.entry.node.now))) }
{
    if at.value().is_some() && holds_empty(End::First, start) && holds_empty(End::Last, end) {
        1
    } else {
        0
    }
}

/// Returns the number of pairs at and below a visited node that are within both bounds.
fn count_within<P: Partial, V, C: Count>(
    at: Entered<'_, P, V, C>,
    start: Bound<&[u8]>,
    end: Bound<&[u8]>,
    counter: &mut C,
) -> usize
    requires { length (pairs_of at.node.now) ≤ usize.MAX }
    ensures value { result ≡ length (between (lent_bound start.entry) (lent_bound end.entry)
        (pairs_of at.entry.node.now)) }
    ensures visits { C.number counter.new + 1 ≤ C.number counter.old
        + path_count (lent_bound start.entry) at.entry.node.now
        + path_count (lent_bound end.entry) at.entry.node.now
        + 2 * length (between (lent_bound start.entry) (lent_bound end.entry)
        (pairs_of at.entry.node.now)) }
{
    if !has_bounds(start, end) {
        return count_below(at, counter);
    }
    let Some(low) = after_prefix(End::First, at.prefix(), start) else {
        return 0;
    };
    let Some(high) = after_prefix(End::Last, at.prefix(), end) else {
        return 0;
    };
    let mut count = count_own(at, low, high);
    // the children before the start are not stepped over one by one
    let mut rest = branches_after(at, byte_below(low));
    while let Some((byte, child)) = rest.next_child() {
        let Some(child_low) = at_child(End::First, byte, low) else {
            continue;
        };
        let Some(child_high) = at_child(End::Last, byte, high) else {
            // the keys of the children after this one are past the end too
            return count;
        };
        count += count_within(child.enter(counter), child_low, child_high, counter);
    }
    count
}

impl<'a, K: KeyTrait, V, C: Count> Seen<'a, K, V, C> {
    /// Returns the number of pairs within two bounds, whose bytes may be more than any key has; 0 if the end is before
    /// the start. The number of all pairs must fit. It makes no key and does not allocate.
    ///
    /// # Visits
    ///
    /// At most `start.len() + 1` nodes on the path to the start, `end.len() + 1` on the path to the end, and two for
    /// each pair that is counted.
    pub fn count_range_bytes_counted(
        self,
        start: Bound<&[u8]>,
        end: Bound<&[u8]>,
        counter: &mut C,
    ) -> usize
        requires { length (seen_pairs self) ≤ usize.MAX }
        ensures value { result ≡ length
            (between (lent_bound start.entry) (lent_bound end.entry) (seen_pairs self.entry)) }
        ensures visits { C.number counter.new ≤ C.number counter.old
            + count_visits (lent_bound start.entry) (lent_bound end.entry) (seen_pairs self.entry) }
        ensures bound { C.number counter.new ≤ C.number counter.old
            + count_bound (lent_bound start.entry) (lent_bound end.entry) (seen_pairs self.entry) }
    {
        match self.top() {
            Some(top) => {
                let node = top.enter(counter);
                count_within(node, start, end, counter)
            }
            None => 0,
        }
    }
}

impl<'a, K: KeyTrait + Drop, V, C: Count> Seen<'a, K, V, C> {
    /// Returns the number of pairs within two bounds; 0 if the end is before the start. The number of all pairs must
    /// fit. It makes no key and does not allocate.
    ///
    /// # Visits
    ///
    /// At most `start.len() + 1` nodes on the path to the start, `end.len() + 1` on the path to the end, and two for
    /// each pair that is counted.
    pub fn count_range_counted(self, start: Bound<K>, end: Bound<K>, counter: &mut C) -> usize
        requires { length (seen_pairs self) ≤ usize.MAX }
        ensures value { result ≡ length
            (between (bound_in K.bytes start) (bound_in K.bytes end) (seen_pairs self.entry)) }
        ensures visits { C.number counter.new ≤ C.number counter.old
            + count_visits (bound_in K.bytes start) (bound_in K.bytes end)
            (seen_pairs self.entry) }
        ensures bound { C.number counter.new ≤ C.number counter.old
            + count_bound (bound_in K.bytes start) (bound_in K.bytes end)
            (seen_pairs self.entry) }
    {
        self.count_range_bytes_counted(slice_bound(&start), slice_bound(&end), counter)
    }
}
