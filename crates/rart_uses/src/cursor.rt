//! A cursor that lends the values of a tree one after the other, each to be changed in place.

ghost use Rattle.std.specs.Prelude.{◌≡◌, None, IfErr, IfOk, IfSome, OnErr};
ghost use Rattle.rart_trie.specs.walks.Calls.{MayLackMemory};
ghost use Rattle.std.specs.Borrow.{sem};
ghost use Rattle.std.specs.Option.{option_copied_mut};
ghost use Rattle.rart_keys.specs.SortedMap.{lookup};
ghost use Rattle.rart_keys.specs.Ranges.{bound_in};
ghost use Rattle.rart_uses.specs.Cursor.{Moves, past};

use rart::{AdaptiveRadixTree, KeyTrait, TreeError};
use std::ops::Bound;

/// A place among the pairs of a tree: before all, or at a key.
pub struct CursorMut<'a, K: KeyTrait + Drop, V> {
    tree: &'a mut AdaptiveRadixTree<K, V>,
    last: Option<K>,
}

/// Returns the start of what comes after a key, or of all.
fn start_past<K: KeyTrait>(last: &Option<K>) -> Bound<K>
    ensures { bound_in K.bytes result ≡ past K.bytes last.now }
{
    match last {
        Some(key) => Bound::Excluded(K::new_from_slice(key.as_ref())),
        None => Bound::Unbounded,
    }
}

impl<'a, K: KeyTrait + Drop, V> CursorMut<'a, K, V> {
    ghost use Rattle.rart_uses.specs.CursorLoans.{lends_value};

    /// Returns a cursor before the first pair. It does not allocate.
    pub fn new(tree: &'a mut AdaptiveRadixTree<K, V>) -> Self
        ensures same_reference { result.tree.ghost_name ≡ tree.entry.ghost_name }
        ensures tree { result.tree.now ≡ tree.old }
        ensures last { result.last ≡ None }
    {
        CursorMut { tree, last: None }
    }

    /// Moves to the next pair and returns whether there is one.
    ///
    /// # Errors
    ///
    /// [`TreeError::Memory`] if the tree isn't empty and the allocation fails. The cursor then stays where it is.
    pub fn advance(&mut self) -> Result<bool, TreeError>
        ensures same_reference { self.new.tree.ghost_name ≡ self.old.tree.ghost_name }
        ensures tree { self.new.tree.now ≡ self.old.tree.now }
        ensures moves { IfOk result
            (λ found. Moves K.bytes self.old.tree.now.pairs self.old.last found self.new.last) }
        ensures unchanged { OnErr result (self.new.last ≡ self.old.last) }
        ensures memory { IfErr result (MayLackMemory self.old.tree.now.pairs) }
    {
        let start = start_past(&self.last);
        let Some((key, _)) = self.tree.range(start, Bound::Unbounded)?.next() else {
            return Ok(false);
        };
        self.last = Some(key);
        Ok(true)
    }

    /// Returns a mutable borrow of the value at the cursor, or `None` before the first pair. It does not allocate.
    /// After the borrow ends, only that value can have changed.
    pub fn value_mut(&mut self) -> Option<&mut V>
        ensures* writes_back { sem 𝓛 (lends_value K.row V.row K.PartialType.row K.KeyTrait
            K.PartialType.Partial self.entry result) }
        ensures value { IfSome self.old.last
            (λ key. option_copied_mut result ≡ lookup (K.bytes key) self.old.tree.now.pairs) }
    {
        let key = match &self.last {
            Some(key) => K::new_from_slice(key.as_ref()),
            None => return None,
        };
        self.tree.get_mut(key)
    }
}

impl<K: KeyTrait + Drop, V> Drop for CursorMut<'_, K, V> {
    fn drop(self)
        ensures { self.exit.0.now ≡ self.entry.tree.now }
    {
        let CursorMut { tree: _, last } = self;
        drop(last);
    }
}

/// Doubles each value, in order.
///
/// # Errors
///
/// [`TreeError::Memory`] if an allocation fails. The values so far are then doubled.
pub fn double_all<K: KeyTrait + Drop>(tree: &mut AdaptiveRadixTree<K, u64>) -> Result<(), TreeError>
    ensures nodes { tree.new.nodes ≡ tree.old.nodes }
{
    let mut cursor = CursorMut::new(tree);
    for _ in 0..u64::MAX {
        if !cursor.advance()? {
            return Ok(());
        }
        if let Some(value) = cursor.value_mut() {
            *value = value.wrapping_mul(2);
        }
    }
    Ok(())
}
