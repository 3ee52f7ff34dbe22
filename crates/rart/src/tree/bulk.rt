//! Bulk loads: trees built bottom up from items that ascend, each node made once.
ghost use Rattle.std.specs.Prelude.{◌≡◌, ◌<◌, ◌≤◌, List, length, IfErr, IfOk, OnErr, OnOk};
ghost use Rattle.std.specs.Iterator.{IsFinite};
ghost use Rattle.rart_keys.specs.ByteStrings.{IsLess};
ghost use Rattle.rart_keys.specs.SortedMap.{keys_of, values_of};
ghost use Rattle.rart_trie.specs.shapes.Shape.{HasShape};
ghost use Rattle.rart.specs.BulkLoads.{AreKeysAt, AscendAlong, CanTake, LoadsSorted, Reads, ReadsAll, Takes};
ghost use Rattle.rart.specs.BulkLoads.{FailsByIndex, FailsSorted, FailsUnique, TakesBeginning};
ghost use Rattle.rart.specs.Steps.{pairs_in};

use crate::bulk::BulkError;
use crate::tree::{AdaptiveRadixTree, MAX_PAIRS};
use rart_keys::KeyTrait;
use std::alloc::Global;
use std::marker::PhantomData;

mod indexed;
pub(crate) mod loader;
mod migrate;
mod read;

use indexed::build_by_index;
use read::{read_sorted, read_unique};

impl<K: KeyTrait, V: Drop> AdaptiveRadixTree<K, V> {
    /// Builds the tree of `items`, whose keys must ascend; keeps the last value of each key.
    ///
    /// The items must end. Their size hint isn't trusted. No items give an empty tree.
    ///
    /// # Errors
    ///
    /// Each item is tested before it is kept, in this order. [`BulkError::Unsorted`] at the first key below the one
    /// before it. [`BulkError::Full`] at one key more than a tree holds. [`BulkError::Memory`] if an allocation fails,
    /// which needs at least one item. Nothing is read after an item that fails, and what was read is dropped.
    ///
    /// # Examples
    ///
    /// ```ignore
    /// AdaptiveRadixTree::bulk_load_sorted(alloc, sorted)
    /// ```
    pub fn bulk_load_sorted<I: IntoIterator<Item = (K, V)>>(
        alloc: Global,
        items: I,
    ) -> Result<Self, BulkError>
    where
        K: Drop,
        requires { (s : I.IntoIter) → I.into_iter_gives items s → I.IntoIter.can_next s
            × IsFinite (I.IntoIter.remaining s) }
        ensures faultless { IfOk result
            (λ tree. ReadsAll I.into_iter_gives I.IntoIter.next_gives items
            (λ xs. LoadsSorted (pairs_in K.bytes xs) tree.pairs)) }
        ensures shape { IfOk result (λ tree. HasShape (keys_of tree.pairs) tree.nodes) }
        ensures refused { IfErr result (λ error. Reads I.into_iter_gives I.IntoIter.next_gives items
            (λ xs. FailsSorted (pairs_in K.bytes xs) error)) }
    {
        let loader = read_sorted(alloc, items)?;
        loader.into_tree()
    }

    /// Builds the tree of `items`, which must end and whose keys must ascend strictly.
    ///
    /// # Errors
    ///
    /// [`BulkError::Full`] at one key more than a tree holds. [`BulkError::Memory`] if an allocation fails, which needs
    /// at least one item. Nothing is read after an item that fails, and what was read is dropped.
    pub fn bulk_load_sorted_unique<I: IntoIterator<Item = (K, V)>>(
        alloc: Global,
        items: I,
    ) -> Result<Self, BulkError>
    where
        K: Drop,
        requires { (s : I.IntoIter) → I.into_iter_gives items s → I.IntoIter.can_next s
            × IsFinite (I.IntoIter.remaining s) × AscendAlong K.bytes I.IntoIter.next_gives s }
        ensures pairs { IfOk result (λ tree. ReadsAll I.into_iter_gives I.IntoIter.next_gives items
            (λ xs. tree.pairs ≡ pairs_in K.bytes xs)) }
        ensures shape { IfOk result (λ tree. HasShape (keys_of tree.pairs) tree.nodes) }
        ensures refused { IfErr result (λ error. Reads I.into_iter_gives I.IntoIter.next_gives items
            (λ xs. FailsUnique (pairs_in K.bytes xs) error)) }
    {
        let loader = read_unique(alloc, items)?;
        loader.into_tree()
    }

    /// Builds the tree of `len` keys, each with the value at its index.
    ///
    /// If there are no more keys than a tree holds, `key_at` must return ascending keys, and `take_value_at` must be
    /// callable at 0, 1, 2 and so on, once each.
    ///
    /// # Errors
    ///
    /// [`BulkError::Full`] if there are more keys than a tree holds; then neither closure is called.
    /// [`BulkError::Memory`] if an allocation fails. The values taken until then, of a beginning of the indices, are
    /// dropped; [`bulk_load_sorted_unique_by_index_by_ref`](Self::bulk_load_sorted_unique_by_index_by_ref) shows the
    /// closure that is left. Without keys neither closure is called, and nothing is allocated.
    pub fn bulk_load_sorted_unique_by_index<'a, F: Fn(usize) -> &'a K, G: FnMut(usize) -> V>(
        alloc: Global,
        len: usize,
        key_at: F,
        take_value_at: G,
    ) -> Result<Self, BulkError>
    where
        K: 'a,
        F: Drop,
        G: Drop,
        requires key_at { (i : _) → i < len → len ≤ MAX_PAIRS → F.pre key_at i }
        requires ascending { (i j : _) (k l : _) → i < j → j < len → len ≤ MAX_PAIRS
            → F.post key_at i k
            → F.post key_at j l → IsLess (K.bytes k.now) (K.bytes l.now) }
        requires take_value_at { len ≤ MAX_PAIRS → CanTake G.pre G.step 0 len take_value_at }
        ensures keys { IfOk result (λ tree. (length tree.pairs ≡ len)
            × AreKeysAt (λ i key. (k : _) × F.post key_at i k × (key ≡ K.bytes k.now))
            (keys_of tree.pairs)) }
        ensures values { IfOk result
            (λ tree. (left : G) × Takes G.step 0 take_value_at (values_of tree.pairs) left) }
        ensures shape { IfOk result (λ tree. HasShape (keys_of tree.pairs) tree.nodes) }
        ensures refused { IfErr result (FailsByIndex len) }
        ensures at_most { OnOk result (len ≤ MAX_PAIRS) }
    {
        let mut take_value_at = take_value_at;
        AdaptiveRadixTree::bulk_load_sorted_unique_by_index_by_ref(
            alloc,
            len,
            key_at,
            &mut take_value_at,
        )
    }

    /// Builds a tree as [`bulk_load_sorted_unique_by_index`](Self::bulk_load_sorted_unique_by_index); the caller keeps
    /// `take_value_at`.
    ///
    /// # Errors
    ///
    /// [`BulkError::Full`] if there are more keys than a tree holds; then neither closure is called.
    /// [`BulkError::Memory`] if an allocation fails. The values of a beginning of the indices were then taken, once
    /// each and in order, and are dropped.
    pub fn bulk_load_sorted_unique_by_index_by_ref<'a, F: Fn(usize) -> &'a K, G: FnMut(usize) -> V>(
        alloc: Global,
        len: usize,
        key_at: F,
        take_value_at: &mut G,
    ) -> Result<Self, BulkError>
    where
        K: 'a,
        F: Drop,
        requires key_at { (i : _) → i < len → len ≤ MAX_PAIRS → F.pre key_at i }
        requires ascending { (i j : _) (k l : _) → i < j → j < len → len ≤ MAX_PAIRS
            → F.post key_at i k
            → F.post key_at j l → IsLess (K.bytes k.now) (K.bytes l.now) }
        requires take_value_at { len ≤ MAX_PAIRS → CanTake G.pre G.step 0 len take_value_at.old }
        ensures keys { IfOk result (λ tree. (length tree.pairs ≡ len)
            × AreKeysAt (λ i key. (k : _) × F.post key_at i k × (key ≡ K.bytes k.now))
            (keys_of tree.pairs)) }
        ensures values { IfOk result
            (λ tree. Takes G.step 0 take_value_at.old (values_of tree.pairs) take_value_at.new) }
        ensures shape { IfOk result (λ tree. HasShape (keys_of tree.pairs) tree.nodes) }
        ensures refused { IfErr result (FailsByIndex len) }
        ensures at_most { OnOk result (len ≤ MAX_PAIRS) }
        ensures values_taken { IfErr result
            (TakesBeginning G.step len take_value_at.old take_value_at.new) }
    {
        if len > MAX_PAIRS {
            return Err(BulkError::Full);
        }
        if len == 0 {
            return Ok(AdaptiveRadixTree::new(alloc));
        }
        let Ok((root, longest)) = build_by_index(alloc, len, &key_at, take_value_at) else {
            return Err(BulkError::Memory);
        };
        root.canonical();
        Ok(AdaptiveRadixTree {
            root: Some(root),
            len,
            longest,
            alloc,
            of: PhantomData,
        })
    }
}
