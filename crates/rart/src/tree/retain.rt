//! Removal of all pairs that a callback rejects.
ghost use Rattle.std.specs.Prelude.{◌≡◌, IfErr};
ghost use Rattle.rart_parts.specs.Errors.{IsMemory};
ghost use Rattle.rart_trie.specs.edits.Retentions.{CanRetain, RetainsByValue, Retains};

use crate::tree::{AdaptiveRadixTree, length_kept};
use rart_keys::KeyTrait;
use rart_nodes::node::DefaultNode;
use rart_nodes::{Seen, Visits};
use rart_parts::TreeError;

impl<K: KeyTrait, V: Drop> AdaptiveRadixTree<K, V> {
    /// Calls `f` with the key's bytes and the value of each pair, in the order of the keys, and removes the pairs for
    /// which it returns `false`. The other pairs keep the value that their call left.
    ///
    /// It makes no key. `f` must be callable with each pair in turn; the caller keeps it.
    ///
    /// # Errors
    ///
    /// [`TreeError::Memory`] if a node must shrink from 5, 17 or 49 children to one fewer, and the allocation fails.
    /// The walk then ends: the pair whose removal failed stays with the value that its call left. The pairs that `f`
    /// was not called with stay unchanged.
    pub fn retain_by_ref<F: FnMut(&[u8], &mut V) -> bool>(
        &mut self,
        f: &mut F,
    ) -> Result<(), TreeError>
        requires callable { CanRetain F.FnMut f.old self.old.pairs }
        ensures stays_callable { F.IsAlwaysCallable f.old → F.IsAlwaysCallable f.new }
        ensures retains { Retains F.FnMut f.old self.old.pairs result self.new.pairs f.new }
        ensures memory { IfErr result IsMemory }
    {
        let outcome = DefaultNode::retain(&mut self.root, self.alloc, f);
        let seen: Seen<'_, K, V, Visits> = Seen::of(self.root.as_ref(), self.alloc, self.longest);
        let len = seen.count_pairs_counted(&mut Visits::new());
        self.len = len;
        self.longest = length_kept(len, self.longest);
        outcome
    }

    /// Keeps the pairs for which `f` returns `true`, as [`retain_by_ref`](Self::retain_by_ref), and drops `f`.
    ///
    /// # Errors
    ///
    /// Those of [`retain_by_ref`](Self::retain_by_ref).
    pub fn retain<F: FnMut(&[u8], &mut V) -> bool + Drop>(
        &mut self,
        mut f: F,
    ) -> Result<(), TreeError>
        requires callable { CanRetain F.FnMut f self.old.pairs }
        ensures retains { RetainsByValue F.FnMut f self.old.pairs result self.new.pairs }
        ensures memory { IfErr result IsMemory }
    {
        self.retain_by_ref(&mut f)
    }
}
