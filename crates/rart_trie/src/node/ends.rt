//! The children at the ends of a node, and below a byte.
ghost use Rattle.std.specs.Prelude.{◌≡◌, option_map};
ghost use Rattle.rart_trie.specs.ranges.Under.{children_before};
ghost use Rattle.rart_trie.specs.tries.Ends.{end_child, last_child};
ghost use Rattle.rart_trie.specs.tries.Trie.{children_in};

use crate::node::DefaultNode;
use rart_keys::Partial;

/// Names one end of the pairs of a tree.
#[derive(Clone, Copy)]
pub enum End {
    /// The least key.
    First,
    /// The greatest key.
    Last,
}

impl<P: Partial, V> DefaultNode<P, V> {
    /// Returns the first or the last child with its byte. `None` if there is none, or if `end` is `First` and the node
    /// holds a value.
    pub fn end_child(&self, end: End) -> Option<(u8, &Self)>
        ensures { option_map (λ e. (e.0, e.1.now)) result ≡ end_child end self.now }
    {
        match end {
            End::First => {
                if self.storage.has_value() {
                    return None;
                }
                self.storage.first_child()
            }
            End::Last => self.storage.last_child(),
        }
    }

    /// Returns the last child at a byte below `bound` with its byte, or the last child if there is no bound. `None` if
    /// there is no such child.
    pub fn last_child_before(&self, bound: Option<u8>) -> Option<(u8, &Self)>
        ensures { option_map (λ e. (e.0, e.1.now)) result
            ≡ last_child (children_before bound (children_in self.now)) }
    {
        match bound {
            None => self.storage.last_child(),
            Some(byte) => self.storage.last_child_under(byte),
        }
    }
}

/// Returns a copy of a part.
pub fn copy_of<P: Partial>(part: &P) -> P
    ensures { P.bytes result ≡ P.bytes part.now }
{
    part.partial_before(part.len())
}
