//! Trees of pairs that are read one after the other, in the order of their keys.
ghost use Rattle.std.specs.Prelude.{◌≡◌, ◌≢◌, ◌≤◌, [], ◌∷◌, ◌++◌, length, IfErr, IfOk, OnErr, OnOk};
ghost use Rattle.std.specs.declared.cmp.Ordering.TheVariants.{Equal, Less};
ghost use Rattle.rart_keys.specs.BulkLists.{order_of_last};
ghost use Rattle.rart_keys.specs.SortedMap.{keys_of};
ghost use Rattle.rart_parts.specs.Errors.{IsMemory};
ghost use Rattle.rart_trie.specs.build.Spine.{IsBuilderAt, builder_pairs};
ghost use Rattle.rart_trie.specs.shapes.Shape.{HasShape};
ghost use Rattle.rart.specs.Loaders.{FailsAppend, FailsAtItem, IsAtLast, KeepsItem, ReplacesLast, loaded_pairs};

use crate::bulk::BulkError;
use crate::tree::{AdaptiveRadixTree, MAX_PAIRS};
use rart_keys::KeyTrait;
use rart_keys::laws::bulk_lists::one_item_more;
use rart_nodes::node::Builder;
use rart_parts::TreeError;
use std::alloc::Global;
use std::cmp::Ordering;
use std::marker::{Model, PhantomData};

/// The pairs that a load has read, ascending by key.
// All but the last are in the builder, which is at the last key.
#[derive(Drop)]
pub(crate) struct Loader<K: KeyTrait, V> {
    builder: Builder<K::PartialType, V>,
    last: Option<(K, V)>,
    len: usize,
    // at least the length of the longest key
    longest: usize,
    alloc: Global,
}

impl<K: KeyTrait, V> Model for Loader<K, V> {
    ghost use Rattle.std.specs.Prelude.{ℕ, List};
    ghost use Rattle.rart.specs.Loaders.{AreLoaderFields, loaded_pairs};

    ghost Value = { List (List ℕ × V) };

    ghost view = { λ l. loaded_pairs K.bytes l.builder l.last };

    ghost invariant = { λ l. AreLoaderFields K.bytes K.MAXIMUM_SIZE l.builder l.last l.len
        l.longest };
}

/// Puts the last pair into the builder, which continues at `next`.
fn put_last<K: KeyTrait + Drop, V: Drop>(
    builder: &mut Builder<K::PartialType, V>,
    last: Option<(K, V)>,
    next: &K,
) -> Result<(), TreeError>
    requires at { IsAtLast K.bytes builder.old last }
    requires later { order_of_last (keys_of (loaded_pairs K.bytes builder.old last))
        (K.bytes next.now) ≡ Less }
    ensures at { OnOk result (IsBuilderAt (K.bytes next.now) builder.new) }
    ensures pairs { OnOk result (builder_pairs (K.bytes next.now) builder.new
        ≡ loaded_pairs K.bytes builder.old last) }
    ensures memory { IfErr result IsMemory }
{
    match last {
        Some((key, value)) => builder.put(key.as_ref(), value, next.as_ref()),
        None => Ok(()),
    }
}

impl<K: KeyTrait + Drop, V: Drop> Loader<K, V> {
    /// Returns a loader without pairs. It does not allocate.
    pub(crate) fn new(alloc: Global) -> Self
        ensures { result ≡ [] }
    {
        Loader {
            builder: Builder::new(alloc),
            last: None,
            len: 0,
            longest: 0,
            alloc,
        }
    }

    /// Compares the last key with `key`; `Less` if there is none.
    fn order_after(&self, key: &K) -> Ordering
        ensures { result ≡ order_of_last (keys_of self.now) (K.bytes key.now) }
    {
        match &self.last {
            Some((last, _)) => last.cmp(key),
            None => Ordering::Less,
        }
    }

    /// Appends a pair, whose key must be above the last. With Err only a drop is left.
    pub(crate) fn append(&mut self, key: K, value: V) -> Result<(), BulkError>
        requires later { order_of_last (keys_of self.old) (K.bytes key) ≡ Less }
        ensures pairs { OnOk result (self.new ≡ self.old ++ (K.bytes key, value) ∷ []) }
        ensures refused { IfErr result (FailsAppend (length self.old)) }
    {
        if self.len == MAX_PAIRS {
            return Err(BulkError::Full);
        }
        let last = self.last.take();
        let Ok(()) = put_last(&mut self.builder, last, &key) else {
            *self = Loader::new(self.alloc);
            return Err(BulkError::Memory);
        };
        self.len += 1;
        self.longest = self.longest.max(key.as_ref().len());
        self.last = Some((key, value));
        Ok(())
    }

    /// Replaces the value of the last pair.
    fn replace_last(&mut self, value: V)
        requires { self.old ≢ [] }
        ensures { ReplacesLast value self.old self.new }
    {
        let Some((key, _)) = self.last.take() else {
            unreachable!()
        };
        self.last = Some((key, value));
    }

    /// Reads the item at the place `at`; at the last key, its value replaces the one of before. Fails as a sorted load.
    pub(crate) fn keep_last(&mut self, key: K, value: V, at: usize) -> Result<(), BulkError>
        ensures keeps_item { KeepsItem self.old (K.bytes key) value result self.new }
        ensures refused { FailsAtItem self.old (K.bytes key) value at result }
    {
        one_item_more::<V>();
        match self.order_after(&key) {
            Ordering::Greater => Err(BulkError::Unsorted { at }),
            Ordering::Equal => {
                self.replace_last(value);
                Ok(())
            }
            Ordering::Less => self.append(key, value),
        }
    }

    /// Returns the tree of the pairs. Fails with `Memory` alone, and never without pairs.
    pub(crate) fn into_tree(self) -> Result<AdaptiveRadixTree<K, V>, BulkError>
        ensures pairs { IfOk result (λ tree. tree.pairs ≡ self) }
        ensures shape { IfOk result (λ tree. HasShape (keys_of tree.pairs) tree.nodes) }
        ensures memory { IfErr result (λ e. e ≡ BulkError.Memory) }
        ensures refused { OnErr result ((self ≢ []) × (length self ≤ MAX_PAIRS)) }
    {
        let Loader {
            builder,
            last,
            len,
            longest,
            alloc,
        } = self;
        let Some((key, value)) = last else {
            return Ok(AdaptiveRadixTree::new(alloc));
        };
        let Ok(root) = builder.finish(key.as_ref(), value) else {
            return Err(BulkError::Memory);
        };
        root.canonical();
        Ok(AdaptiveRadixTree {
            root: Some(root),
            len,
            longest,
            alloc,
            of: PhantomData,
        })
    }
}
