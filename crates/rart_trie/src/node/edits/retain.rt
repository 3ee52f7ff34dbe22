//! Removal of the pairs of a part that a callback rejects, in one walk.

// It descends by recursion, and each level holds neither a key nor a node.

ghost use Rattle.std.specs.Prelude.{◌≡◌, ◌+◌, ◌≤◌, [], true, length, take, None, Some, IfErr};
ghost use Rattle.rart_parts.specs.Errors.{IsMemory};
ghost use Rattle.rart_keys.specs.Filters.{below};
ghost use Rattle.rart_keys.specs.KeyBytes.{IsWithin};
ghost use Rattle.rart_keys.specs.Ranges.{between};
ghost use Rattle.rart_keys.specs.SortedMap.{longest_key};
ghost use Rattle.rart_trie.specs.edits.Deletion.{JoinsWithin, needs_merge};
ghost use Rattle.rart_trie.specs.edits.RetainSteps.{AppliesChild, CallsForOwn, KeepsFirst, RetainsSubtree, next_byte};
ghost use Rattle.rart_trie.specs.edits.RetainSteps.{RetainsTree, finished_as, finished_node};
ghost use Rattle.rart_trie.specs.edits.Retentions.{CanRetain, Retains, RetainsBelow, RetainsBetween, RetainsWhere};
ghost use Rattle.rart_trie.specs.edits.Retentions.{TakesPair};
ghost use Rattle.rart_trie.specs.ranges.LentBounds.{lent_bound};
ghost use Rattle.rart_trie.specs.ranges.Parts.{is_in_part, pairs_in};
ghost use Rattle.rart_trie.specs.storages.Stored.{HoldsSo, child_entries, stored_value};
ghost use Rattle.rart_trie.specs.tries.Tree.{IsCanonicalTree, tree_pairs};
ghost use Rattle.rart_trie.specs.tries.Trie.{IsCanonical, capacity_in, children_in, pairs_of, prefix_of, with_prefix};

use crate::node::DefaultNode;
use crate::node::edits::pop::extend;
use crate::node::part::Part;
use crate::node::storage::Storage;
use rart_keys::Partial;
use rart_parts::TreeError;
use std::alloc::Global;
use std::ops::Bound;

/// What a walk leaves of a node.
#[derive(Clone, Copy)]
pub(crate) enum Retention {
    /// The node stays.
    Done,
    /// The node is a leaf that was rejected. Its parent removes it.
    Rejected,
    /// A removal was refused, and the walk is over. The node stays.
    Refused,
}

/// Calls `f` with the key and the value of a node, if it has one and the part has its key, the empty key after the
/// node's prefix. Returns whether the value is to be kept.
fn call_for_own<P: Partial, V, F: FnMut(&[u8], &mut V) -> bool>(
    storage: &mut Storage<P, V, DefaultNode<P, V>>,
    part: Part<'_>,
    key: &[u8],
    f: &mut F,
) -> bool
    requires callable { (v : V) → stored_value storage.old ≡ Some v → is_in_part part [] ≡ true
        → TakesPair F.FnMut f.old (key.now, v) }
    ensures calls { CallsForOwn F.FnMut (is_in_part part.entry []) key.now f.old
        (stored_value storage.old) result (stored_value storage.new) f.new }
    ensures same { HoldsSo storage.old (stored_value storage.new) storage.new }
{
    if !part.holds_empty() {
        return true;
    }
    match storage.value_mut() {
        Some(value) => f(key, value),
        None => true,
    }
}

/// Truncates a path to `count` bytes.
// Not inline: a descent that calls it holds no path on the stack.
#[inline(never)]
fn cut<P: Partial>(path: &mut P, count: usize)
    requires { count ≤ length (P.bytes path.old) }
    ensures { P.bytes path.new ≡ take count (P.bytes path.old) }
{
    *path = path.partial_before(count);
}

/// Applies what a walk leaves of the child at `byte`: a rejected leaf is removed, unless it is all that the node has.
// Not inline: a descent that calls it holds no node on the stack.
#[inline(never)]
fn apply_to_child<P: Partial, V: Drop>(
    storage: &mut Storage<P, V, DefaultNode<P, V>>,
    alloc: Global,
    byte: u8,
    has_value: bool,
    below: Retention,
) -> Retention
    ensures { AppliesChild has_value byte below result storage.old storage.new }
{
    match below {
        Retention::Done => Retention::Done,
        Retention::Refused => Retention::Refused,
        Retention::Rejected => {
            if !has_value && storage.num_children() <= 1 {
                return Retention::Rejected;
            }
            match storage.delete_child(alloc, byte) {
                Ok(_) => Retention::Done,
                Err(_) => Retention::Refused,
            }
        }
    }
}

/// Returns the byte of the next child after `byte` that may have keys of the part, or `None` if the walk is over.
fn following_byte<P: Partial, V>(
    storage: &Storage<P, V, DefaultNode<P, V>>,
    part: Part<'_>,
    byte: u8,
    walk: Retention,
) -> Option<u8>
    ensures { result ≡ next_byte part.entry walk byte (child_entries storage.now) }
{
    match walk {
        Retention::Done => part.byte_above(storage, byte),
        Retention::Rejected | Retention::Refused => None,
    }
}

impl<P: Partial, V: Drop> DefaultNode<P, V> {
    /// Ends the walk over a node: removes its value if it is not to be kept and the node has children. Merges the node
    /// with its only child if it has no value.
    // Not inline: the walk that calls it holds no value on the stack.
    #[inline(never)]
    fn finish(&mut self, keeps: bool, walk: Retention) -> Retention
        requires capacity { needs_merge None (children_in self.old) ≡ true
            → capacity_in self.old ≡ 4 }
        requires within { JoinsWithin P.MAXIMUM_SIZE (prefix_of self.old) (children_in self.old) }
        ensures outcome { result ≡ finished_as keeps walk (children_in self.old) }
        ensures node { self.new ≡ finished_node keeps self.old }
    {
        if !keeps {
            if self.storage.num_children() == 0 {
                return Retention::Rejected;
            }
            let _ = self.storage.take_value();
        }
        self.merge_with_only_child();
        walk
    }

    fn retain_part<F: FnMut(&[u8], &mut V) -> bool>(
        &mut self,
        alloc: Global,
        part: Part<'_>,
        path: &mut P,
        f: &mut F,
    ) -> Retention
        requires canonical { IsCanonical self.old }
        requires within { IsWithin P.MAXIMUM_SIZE
            (length (P.bytes path.old) + longest_key (pairs_of self.old)) }
        requires callable { CanRetain F.FnMut f.old
            (with_prefix (P.bytes path.old) (pairs_in part (pairs_of self.old))) }
        ensures canonical { IsCanonical self.new }
        ensures keeps_first { KeepsFirst (prefix_of self.old) (prefix_of self.new) }
        ensures path { P.bytes path.new ≡ P.bytes path.old }
        ensures retains { RetainsSubtree F.FnMut part.entry (P.bytes path.old) result f.old self.old
            self.new f.new }
    {
        let count = path.len();
        extend(path, &self.storage);
        let inside = part.after_prefix(self.storage.prefix());
        let keeps = call_for_own(&mut self.storage, inside, path.to_slice(), f);
        let has_value = self.storage.has_value();
        let mut walk = Retention::Done;
        let mut next = inside.first_byte(&self.storage);
        while let Some(byte) = next {
            let below = match self.storage.seek_child_mut(byte) {
                Some(child) => child.retain_part(alloc, inside.at_child(byte), path, f),
                None => unreachable!(),
            };
            walk = apply_to_child(&mut self.storage, alloc, byte, has_value, below);
            next = following_byte(&self.storage, inside, byte, walk);
        }
        cut(path, count);
        self.finish(keeps, walk)
    }

    fn retain_root<F: FnMut(&[u8], &mut V) -> bool>(
        &mut self,
        alloc: Global,
        part: Part<'_>,
        f: &mut F,
    ) -> Retention
        requires canonical { IsCanonical self.old }
        requires within { IsWithin P.MAXIMUM_SIZE (longest_key (pairs_of self.old)) }
        requires callable { CanRetain F.FnMut f.old (pairs_in part (pairs_of self.old)) }
        ensures canonical { IsCanonical self.new }
        ensures retains { RetainsSubtree F.FnMut part.entry [] result f.old self.old self.new
            f.new }
    {
        let mut path = P::from_slice(&[]);
        self.retain_part(alloc, part, &mut path, f)
    }

    fn retain_tree<F: FnMut(&[u8], &mut V) -> bool>(
        root: &mut Option<Self>,
        alloc: Global,
        part: Part<'_>,
        f: &mut F,
    ) -> Retention
        requires canonical { IsCanonicalTree root.old }
        requires within { IsWithin P.MAXIMUM_SIZE (longest_key (tree_pairs root.old)) }
        requires callable { CanRetain F.FnMut f.old (pairs_in part (tree_pairs root.old)) }
        ensures canonical { IsCanonicalTree root.new }
        ensures retains { RetainsTree F.FnMut part.entry result f.old root.old root.new f.new }
    {
        match root {
            Some(node) => node.retain_root(alloc, part, f),
            None => Retention::Done,
        }
    }

    fn retain_in<F: FnMut(&[u8], &mut V) -> bool>(
        root: &mut Option<Self>,
        alloc: Global,
        part: Part<'_>,
        f: &mut F,
    ) -> Result<(), TreeError>
        requires canonical { IsCanonicalTree root.old }
        requires within { IsWithin P.MAXIMUM_SIZE (longest_key (tree_pairs root.old)) }
        requires callable { CanRetain F.FnMut f.old (pairs_in part (tree_pairs root.old)) }
        ensures stays_callable { F.IsAlwaysCallable f.old → F.IsAlwaysCallable f.new }
        ensures canonical { IsCanonicalTree root.new }
        ensures retains { RetainsWhere F.FnMut (is_in_part part.entry) f.old (tree_pairs root.old)
            result (tree_pairs root.new) f.new }
        ensures count { length (tree_pairs root.new) ≤ length (tree_pairs root.old) }
        ensures counts { length (tree_pairs root.new)
            + length (pairs_in part.entry (tree_pairs root.old))
            ≡ length (tree_pairs root.old) + length (pairs_in part.entry (tree_pairs root.new)) }
        ensures longest_key { longest_key (tree_pairs root.new)
            ≤ longest_key (tree_pairs root.old) }
        ensures memory { IfErr result IsMemory }
    {
        match DefaultNode::retain_tree(root, alloc, part, f) {
            Retention::Done => Ok(()),
            Retention::Rejected => {
                *root = None;
                Ok(())
            }
            Retention::Refused => Err(TreeError::Memory),
        }
    }

    /// Calls `f` with the key and the value of each pair of the tree of an optional root, in order, and removes the
    /// pairs for which it returns `false`. `f` must be callable with each pair in turn. The tree must be canonical and
    /// its keys within the maximum.
    ///
    /// # Errors
    ///
    /// [`TreeError::Memory`] if a node must shrink from 5, 17 or 49 children to one fewer and the allocation fails. The
    /// walk then ends: the pair whose removal was refused and the pairs not yet visited stay.
    pub fn retain<F: FnMut(&[u8], &mut V) -> bool>(
        root: &mut Option<Self>,
        alloc: Global,
        f: &mut F,
    ) -> Result<(), TreeError>
        requires canonical { IsCanonicalTree root.old }
        requires within { IsWithin P.MAXIMUM_SIZE (longest_key (tree_pairs root.old)) }
        requires callable { CanRetain F.FnMut f.old (tree_pairs root.old) }
        ensures stays_callable { F.IsAlwaysCallable f.old → F.IsAlwaysCallable f.new }
        ensures canonical { IsCanonicalTree root.new }
        ensures retains { Retains F.FnMut f.old (tree_pairs root.old) result (tree_pairs root.new)
            f.new }
        ensures count { length (tree_pairs root.new) ≤ length (tree_pairs root.old) }
        ensures longest_key { longest_key (tree_pairs root.new)
            ≤ longest_key (tree_pairs root.old) }
        ensures memory { IfErr result IsMemory }
    {
        DefaultNode::retain_in(root, alloc, Part::All, f)
    }

    /// Retains pairs as [`retain`](Self::retain), but only of those whose key begins with `prefix`. `f` is called with
    /// no other pair, and no other pair is removed or changed.
    ///
    /// # Errors
    ///
    /// Those of [`retain`](Self::retain).
    pub fn retain_below<F: FnMut(&[u8], &mut V) -> bool>(
        root: &mut Option<Self>,
        alloc: Global,
        prefix: &[u8],
        f: &mut F,
    ) -> Result<(), TreeError>
        requires canonical { IsCanonicalTree root.old }
        requires within { IsWithin P.MAXIMUM_SIZE (longest_key (tree_pairs root.old)) }
        requires callable { CanRetain F.FnMut f.old (below prefix.now (tree_pairs root.old)) }
        ensures stays_callable { F.IsAlwaysCallable f.old → F.IsAlwaysCallable f.new }
        ensures canonical { IsCanonicalTree root.new }
        ensures retains { RetainsBelow F.FnMut prefix.now f.old (tree_pairs root.old) result
            (tree_pairs root.new) f.new }
        ensures count { length (tree_pairs root.new) ≤ length (tree_pairs root.old) }
        ensures counts { length (tree_pairs root.new)
            + length (below prefix.now (tree_pairs root.old))
            ≡ length (tree_pairs root.old) + length (below prefix.now (tree_pairs root.new)) }
        ensures longest_key { longest_key (tree_pairs root.new)
            ≤ longest_key (tree_pairs root.old) }
        ensures memory { IfErr result IsMemory }
    {
        DefaultNode::retain_in(root, alloc, Part::Below(prefix), f)
    }

    /// Retains pairs as [`retain`](Self::retain), but only of those whose key is within both bounds. `f` is called with
    /// no other pair, and no other pair is removed or changed. If the end is before the start, no pair is within.
    ///
    /// # Errors
    ///
    /// Those of [`retain`](Self::retain).
    pub fn retain_within<F: FnMut(&[u8], &mut V) -> bool>(
        root: &mut Option<Self>,
        alloc: Global,
        start: Bound<&[u8]>,
        end: Bound<&[u8]>,
        f: &mut F,
    ) -> Result<(), TreeError>
        requires canonical { IsCanonicalTree root.old }
        requires within { IsWithin P.MAXIMUM_SIZE (longest_key (tree_pairs root.old)) }
        requires callable { CanRetain F.FnMut f.old
            (between (lent_bound start) (lent_bound end) (tree_pairs root.old)) }
        ensures stays_callable { F.IsAlwaysCallable f.old → F.IsAlwaysCallable f.new }
        ensures canonical { IsCanonicalTree root.new }
        ensures retains { RetainsBetween F.FnMut (lent_bound start.entry) (lent_bound end.entry)
            f.old (tree_pairs root.old) result (tree_pairs root.new) f.new }
        ensures count { length (tree_pairs root.new) ≤ length (tree_pairs root.old) }
        ensures counts { length (tree_pairs root.new)
            + length (between (lent_bound start.entry) (lent_bound end.entry) (tree_pairs root.old))
            ≡ length (tree_pairs root.old)
            + length (between (lent_bound start.entry) (lent_bound end.entry) (tree_pairs root.new)) }
        ensures longest_key { longest_key (tree_pairs root.new)
            ≤ longest_key (tree_pairs root.old) }
        ensures memory { IfErr result IsMemory }
    {
        DefaultNode::retain_in(root, alloc, Part::Between(start, end), f)
    }
}
