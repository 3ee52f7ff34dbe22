//! Removal of the pairs below a prefix, or within two bounds, that a callback rejects.
ghost use Rattle.std.specs.Prelude.{◌≡◌, IfErr};
ghost use Rattle.rart_parts.specs.Errors.{IsMemory};
ghost use Rattle.rart_keys.specs.Filters.{below};
ghost use Rattle.rart_keys.specs.Ranges.{between, bound_in};
ghost use Rattle.rart_trie.specs.edits.Retentions.{CanRetain, RetainsBelow, RetainsBelowByValue, RetainsBetween};
ghost use Rattle.rart_trie.specs.edits.Retentions.{RetainsBetweenByValue};
ghost use Rattle.rart_trie.specs.ranges.LentBounds.{lent_bound};

use crate::tree::{AdaptiveRadixTree, length_kept};
use rart_keys::KeyTrait;
use rart_nodes::node::DefaultNode;
use rart_nodes::{Seen, Visits};
use rart_parts::TreeError;
use rart_trie::node::bounds::slice_bound;
use std::ops::Bound;

impl<K: KeyTrait, V: Drop> AdaptiveRadixTree<K, V> {
    /// Calls `f` with the bytes of the key and the value of each pair whose key begins with the bytes `prefix`, which
    /// may be longer than any key, in the order of the keys, and removes those for which it returns `false`. The others
    /// keep the value that their call left.
    ///
    /// `f` must be callable with each of these pairs in turn; the caller keeps it. All other pairs are unchanged. It
    /// makes no key.
    ///
    /// # Errors
    ///
    /// Those of [`retain_by_ref`](Self::retain_by_ref): the walk then ends, and the pair whose removal failed stays.
    pub fn prefix_retain_by_ref_bytes<F: FnMut(&[u8], &mut V) -> bool>(
        &mut self,
        prefix: &[u8],
        f: &mut F,
    ) -> Result<(), TreeError>
        requires callable { CanRetain F.FnMut f.old (below prefix.now self.old.pairs) }
        ensures stays_callable { F.IsAlwaysCallable f.old → F.IsAlwaysCallable f.new }
        ensures retains { RetainsBelow F.FnMut prefix.now f.old self.old.pairs result self.new.pairs
            f.new }
        ensures memory { IfErr result IsMemory }
    {
        let before = self.count_prefix_bytes(prefix);
        let outcome = DefaultNode::retain_below(&mut self.root, self.alloc, prefix, f);
        let seen: Seen<'_, K, V, Visits> = Seen::of(self.root.as_ref(), self.alloc, self.longest);
        let after = seen.count_prefix_bytes_counted(prefix, &mut Visits::new());
        let removed = before - after;
        let len = self.len - removed;
        self.len = len;
        self.longest = length_kept(len, self.longest);
        outcome
    }

    /// Keeps the pairs below a prefix for which `f` returns `true`, as
    /// [`prefix_retain_by_ref_bytes`](Self::prefix_retain_by_ref_bytes), and drops `f`.
    ///
    /// # Errors
    ///
    /// Those of [`retain_by_ref`](Self::retain_by_ref).
    pub fn prefix_retain_bytes<F: FnMut(&[u8], &mut V) -> bool + Drop>(
        &mut self,
        prefix: &[u8],
        mut f: F,
    ) -> Result<(), TreeError>
        requires callable { CanRetain F.FnMut f (below prefix.now self.old.pairs) }
        ensures retains { RetainsBelowByValue F.FnMut prefix.now f self.old.pairs result
            self.new.pairs }
        ensures memory { IfErr result IsMemory }
    {
        self.prefix_retain_by_ref_bytes(prefix, &mut f)
    }

    /// Retains the pairs whose key begins with `prefix`, as
    /// [`prefix_retain_by_ref_bytes`](Self::prefix_retain_by_ref_bytes).
    ///
    /// # Errors
    ///
    /// Those of [`retain_by_ref`](Self::retain_by_ref).
    pub fn prefix_retain_by_ref_k<F: FnMut(&[u8], &mut V) -> bool>(
        &mut self,
        prefix: &K,
        f: &mut F,
    ) -> Result<(), TreeError>
        requires callable { CanRetain F.FnMut f.old (below (K.bytes prefix.now) self.old.pairs) }
        ensures stays_callable { F.IsAlwaysCallable f.old → F.IsAlwaysCallable f.new }
        ensures retains { RetainsBelow F.FnMut (K.bytes prefix.now) f.old self.old.pairs result
            self.new.pairs f.new }
        ensures memory { IfErr result IsMemory }
    {
        self.prefix_retain_by_ref_bytes(prefix.as_ref(), f)
    }

    /// Retains the pairs whose key begins with `prefix`, as [`prefix_retain_by_ref_k`](Self::prefix_retain_by_ref_k),
    /// and drops `f`.
    ///
    /// # Errors
    ///
    /// Those of [`retain_by_ref`](Self::retain_by_ref).
    pub fn prefix_retain_k<F: FnMut(&[u8], &mut V) -> bool + Drop>(
        &mut self,
        prefix: &K,
        mut f: F,
    ) -> Result<(), TreeError>
        requires callable { CanRetain F.FnMut f (below (K.bytes prefix.now) self.old.pairs) }
        ensures retains { RetainsBelowByValue F.FnMut (K.bytes prefix.now) f self.old.pairs result
            self.new.pairs }
        ensures memory { IfErr result IsMemory }
    {
        self.prefix_retain_by_ref_k(prefix, &mut f)
    }

    /// Retains the pairs whose key begins with `prefix`, as [`prefix_retain_k`](Self::prefix_retain_k), with the prefix
    /// by value.
    ///
    /// # Errors
    ///
    /// Those of [`retain_by_ref`](Self::retain_by_ref).
    pub fn prefix_retain<F: FnMut(&[u8], &mut V) -> bool + Drop>(
        &mut self,
        prefix: K,
        f: F,
    ) -> Result<(), TreeError>
    where
        K: Drop,
        requires callable { CanRetain F.FnMut f (below (K.bytes prefix) self.old.pairs) }
        ensures retains { RetainsBelowByValue F.FnMut (K.bytes prefix) f self.old.pairs result
            self.new.pairs }
        ensures memory { IfErr result IsMemory }
    {
        self.prefix_retain_k(&prefix, f)
    }

    /// Calls `f` with the bytes of the key and the value of each pair whose key is within two bounds, in the order of
    /// the keys, and removes those for which it returns `false`. The others keep the value that their call left. If the
    /// end is below the start, no pair is within. The bytes of a bound may be more than any key has.
    ///
    /// `f` must be callable with each of these pairs in turn; the caller keeps it. All other pairs are unchanged. It
    /// makes no key.
    ///
    /// # Errors
    ///
    /// Those of [`retain_by_ref`](Self::retain_by_ref): the walk then ends, and the pair whose removal failed stays.
    pub fn range_retain_by_ref_bytes<F: FnMut(&[u8], &mut V) -> bool>(
        &mut self,
        start: Bound<&[u8]>,
        end: Bound<&[u8]>,
        f: &mut F,
    ) -> Result<(), TreeError>
        requires callable { CanRetain F.FnMut f.old
            (between (lent_bound start) (lent_bound end) self.old.pairs) }
        ensures stays_callable { F.IsAlwaysCallable f.old → F.IsAlwaysCallable f.new }
        ensures retains { RetainsBetween F.FnMut (lent_bound start.entry) (lent_bound end.entry)
            f.old self.old.pairs result self.new.pairs f.new }
        ensures memory { IfErr result IsMemory }
    {
        let before = self.count_range_bytes(start, end);
        let outcome = DefaultNode::retain_within(&mut self.root, self.alloc, start, end, f);
        let seen: Seen<'_, K, V, Visits> = Seen::of(self.root.as_ref(), self.alloc, self.longest);
        let after = seen.count_range_bytes_counted(start, end, &mut Visits::new());
        let removed = before - after;
        let len = self.len - removed;
        self.len = len;
        self.longest = length_kept(len, self.longest);
        outcome
    }

    /// Retains the pairs within two bounds, as [`range_retain_by_ref_bytes`](Self::range_retain_by_ref_bytes), and
    /// drops `f`.
    ///
    /// # Errors
    ///
    /// Those of [`retain_by_ref`](Self::retain_by_ref).
    pub fn range_retain_bytes<F: FnMut(&[u8], &mut V) -> bool + Drop>(
        &mut self,
        start: Bound<&[u8]>,
        end: Bound<&[u8]>,
        mut f: F,
    ) -> Result<(), TreeError>
        requires callable { CanRetain F.FnMut f
            (between (lent_bound start) (lent_bound end) self.old.pairs) }
        ensures retains { RetainsBetweenByValue F.FnMut (lent_bound start.entry)
            (lent_bound end.entry) f self.old.pairs result self.new.pairs }
        ensures memory { IfErr result IsMemory }
    {
        self.range_retain_by_ref_bytes(start, end, &mut f)
    }

    /// Retains the pairs within two bounds, as [`range_retain_by_ref_bytes`](Self::range_retain_by_ref_bytes).
    ///
    /// # Errors
    ///
    /// Those of [`retain_by_ref`](Self::retain_by_ref).
    pub fn range_retain_by_ref<F: FnMut(&[u8], &mut V) -> bool>(
        &mut self,
        start: Bound<K>,
        end: Bound<K>,
        f: &mut F,
    ) -> Result<(), TreeError>
    where
        K: Drop,
        requires callable { CanRetain F.FnMut f.old
            (between (bound_in K.bytes start) (bound_in K.bytes end) self.old.pairs) }
        ensures stays_callable { F.IsAlwaysCallable f.old → F.IsAlwaysCallable f.new }
        ensures retains { RetainsBetween F.FnMut (bound_in K.bytes start) (bound_in K.bytes end)
            f.old self.old.pairs result self.new.pairs f.new }
        ensures memory { IfErr result IsMemory }
    {
        self.range_retain_by_ref_bytes(slice_bound(&start), slice_bound(&end), f)
    }

    /// Retains the pairs within two bounds, as [`range_retain_by_ref`](Self::range_retain_by_ref), and drops `f`.
    ///
    /// # Errors
    ///
    /// Those of [`retain_by_ref`](Self::retain_by_ref).
    pub fn range_retain<F: FnMut(&[u8], &mut V) -> bool + Drop>(
        &mut self,
        start: Bound<K>,
        end: Bound<K>,
        mut f: F,
    ) -> Result<(), TreeError>
    where
        K: Drop,
        requires callable { CanRetain F.FnMut f
            (between (bound_in K.bytes start) (bound_in K.bytes end) self.old.pairs) }
        ensures retains { RetainsBetweenByValue F.FnMut (bound_in K.bytes start)
            (bound_in K.bytes end) f self.old.pairs result self.new.pairs }
        ensures memory { IfErr result IsMemory }
    {
        self.range_retain_by_ref(start, end, &mut f)
    }
}
