//! An iterator over the children of a node, which a contract reads as the list of remaining children.
ghost use Rattle.std.specs.Prelude.{◌≡◌, ◌↔◌, IsTrue};
ghost use Rattle.std.specs.Iterator.{YieldsFirstBy, item_count};
ghost use Rattle.rart_parts.specs.Entries.{BytesAscend};
ghost use Rattle.rart_trie.specs.edits.Deletion.{JoinsWithin};
ghost use Rattle.rart_trie.specs.ranges.Starts.{children_above};
ghost use Rattle.rart_trie.specs.storages.ChildMaps.{IsKeyedMap, map_capacity, map_entries};
ghost use Rattle.rart_trie.specs.tries.Trie.{capacity_in, children_in, prefix_of};
ghost use Rattle.rart_trie.specs.tries.TrieCode.{as_children};

use crate::node::DefaultNode;
use crate::node::storage::child_map::ChildMap;
use crate::node::storage::walk::StorageIter;
use rart_keys::Partial;
use std::marker::Model;

/// Iterates over the children with their bytes, ascending. It is fused.
#[derive(Drop)]
pub struct NodeIter<'a, P: Partial, V> {
    children: StorageIter<'a, DefaultNode<P, V>>,
}

impl<'a, P: Partial, V> Model for NodeIter<'a, P, V> {
    ghost use Rattle.std.specs.Prelude.{ℕ, List};
    ghost use Rattle.std.specs.Coded.{coded_list, coded×, coded_ℕ};
    ghost use Rattle.rart_trie.specs.tries.Trie.{Trie};
    ghost use Rattle.rart_trie.specs.tries.TrieCode.{trie_code};
    ghost use Rattle.rart_trie.specs.walks.Walks.{to_come};

    ghost Value = { List (ℕ × Trie V) };

    ghost coded = { coded_list (coded× coded_ℕ (trie_code V.code)) };

    ghost view = { λ it. to_come it.children };
}

impl<'a, P: Partial, V> Iterator for NodeIter<'a, P, V> {
    type Item = (u8, &'a DefaultNode<P, V>);

    ghost next_gives = { YieldsFirstBy (λ item. (item.0, item.1.now)) (λ rest. rest) };

    ghost remaining = { item_count (λ rest. rest) };

    // Inline, as each step of a walk calls it.
    #[inline(always)]
    fn next(&mut self) -> Option<(u8, &'a DefaultNode<P, V>)> {
        self.children.take_next()
    }
}

impl<P: Partial, V> DefaultNode<P, V> {
    /// Returns the children with their bytes, ascending. It does not allocate.
    pub fn iter(&self) -> NodeIter<'_, P, V>
        ensures children { as_children result ≡ children_in self.now }
        ensures ascending { BytesAscend result }
    {
        NodeIter {
            children: self.storage.iter(),
        }
    }

    /// Returns the children at the bytes above `byte`, ascending. It reads no other child and does not allocate.
    pub fn iter_above(&self, byte: u8) -> NodeIter<'_, P, V>
        ensures children { as_children result ≡ children_above byte (children_in self.now) }
        ensures ascending { BytesAscend result }
    {
        NodeIter {
            children: self.storage.iter_above(byte),
        }
    }

    /// Returns the map that holds the children, by the kind of the node. It does not allocate.
    pub fn child_map(&self) -> ChildMap<'_, V, Self>
        ensures children { as_children (map_entries result) ≡ children_in self.now }
        ensures capacity { map_capacity result ≡ capacity_in self.now }
        ensures keyed { IsKeyedMap result }
    {
        self.storage.child_map()
    }

    /// Returns whether the prefix of each child, appended to that of the node, is within the maximum. `delete_child`
    /// requires this.
    pub fn children_fit(&self) -> bool
        ensures { IsTrue result
            ↔ JoinsWithin P.MAXIMUM_SIZE (prefix_of self.now) (children_in self.now) }
    {
        let Some(most) = P::MAXIMUM_SIZE else {
            return true;
        };
        let spare = most - self.prefix().len();
        let mut children = self.iter();
        while let Some((_byte, child)) = children.next() {
            if child.prefix().len() > spare {
                return false;
            }
        }
        true
    }
}
