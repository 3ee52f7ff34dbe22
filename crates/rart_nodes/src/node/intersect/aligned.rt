//! The step of an intersection from two visited nodes to the next two whose prefixes end together.
ghost use Rattle.std.specs.Prelude.{◌≡◌, ◌↔◌, ◌+◌, [], ◌∷◌, IsTrue, MatchOption};
ghost use Rattle.rart_keys.specs.SortedMap.{count_of, longest_key};
ghost use Rattle.rart_nodes.specs.joins.Alignments.{EntersAfter, FindsAligned, VisitsAligned};
ghost use Rattle.rart_nodes.specs.joins.SharedChildren.{IsParted};
ghost use Rattle.rart_nodes.specs.joins.JoinPaths.{PathReserved};
ghost use Rattle.rart_trie.specs.tries.Trie.{child_in, pairs_of};

use crate::node::intersect::join_path::JoinPath;
use crate::node::seen::Entered;
use rart_keys::{Partial, common_prefix_length};
use rart_trie::node::strip_prefix;
use rart_trie::{Count, Paired};

/// Returns the common prefix, and the rest of each string.
fn part<'a, 'b>(left: &'a [u8], right: &'b [u8]) -> (&'a [u8], &'a [u8], &'b [u8])
    ensures { IsParted left.now right.now result.0.now result.1.now result.2.now }
{
    let shared = common_prefix_length(left, right);
    (&left[..shared], &left[shared..], &right[shared..])
}

/// Returns the first byte, as a number and as a segment, and the rest.
fn next_byte(rest: &[u8]) -> Option<(u8, &[u8], &[u8])>
    ensures { MatchOption result (rest.now ≡ [])
        (λ e. (rest.now ≡ e.0 ∷ e.2.now) × (e.1.now ≡ e.0 ∷ [])) }
{
    if rest.is_empty() {
        return None;
    }
    let (edge, after) = rest.split_at(1);
    Some((rest[0], edge, after))
}

/// Visits the child at `byte` of a left node. Returns it with that byte as a segment and the rest of its prefix.
fn enter_after<'a, P: Partial, V, C: Count>(
    at: Entered<'a, P, V, C>,
    byte: u8,
    counter: &mut C,
) -> Option<(Entered<'a, P, V, C>, &'a [u8], &'a [u8])>
    ensures shown { EntersAfter byte (child_in byte at.entry.node.now) result }
    ensures counted { C.number counter.new ≡ C.number counter.old + count_of result }
{
    let child = at.child(byte)?.enter(counter);
    let Some((_, edge, rest)) = next_byte(child.prefix().to_slice()) else {
        unreachable!()
    };
    Some((child, edge, rest))
}

/// Visits the child at `byte` of a right node, as [`enter_after`] does.
// Its own function: a right node has another counter's type and another call that counts.
fn enter_other_after<'b, P: Partial, W, C: Count>(
    at: Entered<'b, P, W, Paired<C>>,
    byte: u8,
    counter: &mut C,
) -> Option<(Entered<'b, P, W, Paired<C>>, &'b [u8], &'b [u8])>
    ensures shown { EntersAfter byte (child_in byte at.entry.node.now) result }
    ensures counted { C.number counter.new ≡ C.number counter.old + count_of result }
{
    let child = at.child(byte)?.enter_other(counter);
    let Some((_, edge, rest)) = next_byte(child.prefix().to_slice()) else {
        unreachable!()
    };
    Some((child, edge, rest))
}

/// Returns whether two prefixes are equal.
pub(crate) fn same_prefixes<P: Partial>(left: &P, right: &P) -> bool
    ensures { IsTrue result ↔ (P.bytes left.now ≡ P.bytes right.now) }
{
    // by words of eight bytes and without a call, as `==` of slices is not
    match strip_prefix(left, right.to_slice()) {
        Some(rest) => rest.is_empty(),
        None => false,
    }
}

/// Returns the next two nodes whose prefixes end together, and extends the path. Inside a longer prefix only the other
/// node's child is visited. Returns `None` if the prefixes differ or there is no such child.
pub(crate) fn next_aligned<'a, 'b, P: Partial, V, W, C: Count>(
    left: Entered<'a, P, V, C>,
    right: Entered<'b, P, W, Paired<C>>,
    path: &mut JoinPath<'a>,
    counter: &mut C,
) -> Option<(Entered<'a, P, V, C>, Entered<'b, P, W, Paired<C>>)>
    requires { PathReserved path.old (longest_key (pairs_of left.node.now)) }
    ensures aligned { FindsAligned left.entry.node.now right.entry.node.now path.old
        result path.new }
    ensures visits { VisitsAligned left.entry.node.now right.entry.node.now
        (C.number counter.old) result (C.number counter.new) }
{
    let mut left = left;
    let mut right = right;
    // Most pairs have equal prefixes, and this test is cheaper than their common prefix.
    if same_prefixes(left.prefix(), right.prefix()) {
        path.grow(left.prefix().to_slice());
        return Some((left, right));
    }
    let mut left_rest = left.prefix().to_slice();
    let mut right_rest = right.prefix().to_slice();
    loop {
        let (shared, left_on, right_on) = part(left_rest, right_rest);
        path.grow(shared);
        match next_byte(left_on) {
            None => {
                let Some((byte, _, after)) = next_byte(right_on) else {
                    return Some((left, right));
                };
                let Some((child, edge, rest)) = enter_after(left, byte, counter) else {
                    return None;
                };
                path.grow(edge);
                left = child;
                left_rest = rest;
                right_rest = after;
            }
            Some((byte, edge, after)) => {
                if !right_on.is_empty() {
                    return None;
                }
                let Some((child, _, rest)) = enter_other_after(right, byte, counter) else {
                    return None;
                };
                path.grow(edge);
                right = child;
                right_rest = rest;
                left_rest = after;
            }
        }
    }
}
