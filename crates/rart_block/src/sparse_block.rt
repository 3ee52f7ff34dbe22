//! A sparse block, which a contract reads as its header, its keys and the list of its slots.

ghost use Rattle.std.specs.Prelude.{◌≡◌, ◌<◌, None, Some, IsSome, IfOk, IfErr, get_or, slice_set, replicate};
ghost use Rattle.rart_block.specs.Contents.{all_vacant, with_items};

use crate::raw::Room;
use crate::raw_sparse::{RawSparseBlock, Slots};
use std::alloc::Global;
use std::marker::Model;
use std_alloc::room::may_hold;

/// What is stored before the slots.
struct Header<H, K> {
    head: H,
    keys: K,
    // Takes no bytes.
    alloc: Global,
}

/// A pointer to one allocation that holds a header, keys and `W` slots, of which each holds an item or is vacant.
///
/// A vacant slot has no mark: the caller stores which slots hold an item, for example in the keys. A block needs no
/// keys: `K` may be `()`. A sparse block has no `Drop`: its owner takes the items, and then calls `destroy_empty`.
pub struct SparseBlock<H, K, T, const W: usize> {
    raw: RawSparseBlock<Header<H, K>, T, W>,
}

impl<H, K, T, const W: usize> Model for SparseBlock<H, K, T, W> {
    ghost use Rattle.std.specs.Prelude.{◌≡◌, Option, length};
    ghost use Rattle.std.specs.Coded.{coded_option};
    ghost use Rattle.rart_block.specs.Contents.{Contents, contents_code};

    ghost Value = { Contents H K (Option T) };

    ghost coded = { contents_code H.code K.code (coded_option T.code) };

    ghost view = { λ b. record {
      head = b.raw.head.head;
      keys = b.raw.head.keys;
      items = b.raw.slots;
    } };

    ghost invariant = { λ b. length b.raw.slots ≡ W };
}

impl<H, K, T, const W: usize> SparseBlock<H, K, T, W> {
    /// Returns a block without items.
    ///
    /// # Errors
    ///
    /// The header and the keys, if the allocation fails or can't have `W` slots.
    pub fn new(alloc: Global, head: H, keys: K) -> Result<Self, (H, K)>
        ensures ok { IfOk result (λ b. b ≡ all_vacant W head keys) }
        ensures unchanged { IfErr result (λ e. e ≡ (head, keys)) }
    {
        if !may_hold::<T>(W) {
            return Err((head, keys));
        }
        match Room::allocate(alloc) {
            Some(room) => Ok(SparseBlock {
                raw: RawSparseBlock::fill(room, Header { head, keys, alloc }),
            }),
            None => Err((head, keys)),
        }
    }

    /// Returns the header.
    pub fn head(&self) -> &H
        ensures { result.now ≡ self.now.head }
    {
        &self.raw.head().head
    }

    /// Returns the keys.
    pub fn keys(&self) -> &K
        ensures { result.now ≡ self.now.keys }
    {
        &self.raw.head().keys
    }

    /// Returns a shared borrow of the slots.
    pub fn slots(&self) -> Slots<'_, T>
        ensures { result.items ≡ self.now.items }
    {
        self.raw.slots()
    }

    /// Returns the item in slot `at`.
    pub fn get(&self, at: usize) -> &T
        requires { IsSome (get_or self.now.items at None) }
        ensures { get_or self.now.items at None ≡ Some result.now }
    {
        self.raw.slots().get(at)
    }

    /// Stores an item in slot `at`, which is vacant.
    pub fn put(&mut self, at: usize, item: T)
        requires { (at < W) × (get_or self.old.items at None ≡ None) }
        ensures { self.new ≡ with_items self.old (slice_set self.old.items at (Some item)) }
    {
        self.raw.put(at, item);
    }

    /// Moves the item out of slot `at`, which is then vacant.
    pub fn take(&mut self, at: usize) -> T
        requires { IsSome (get_or self.old.items at None) }
        ensures taken { get_or self.old.items at None ≡ Some result }
        ensures vacated { self.new ≡ with_items self.old (slice_set self.old.items at None) }
    {
        self.raw.take(at)
    }

    /// Frees a block without items and returns its header and its keys. `T` needs no `Drop`.
    pub fn destroy_empty(self) -> (H, K)
        requires { self.items ≡ replicate W None }
        ensures { result ≡ (self.head, self.keys) }
    {
        let SparseBlock { raw } = self;
        let alloc = raw.head().alloc;
        let (
            Header {
                head,
                keys,
                alloc: _,
            },
            room,
        ) = raw.vacate(alloc);
        room.free();
        (head, keys)
    }
}

impl<H, K, T, const W: usize> SparseBlock<H, K, T, W> {
    ghost use Rattle.std.specs.Borrow.{sem};
    ghost use Rattle.rart_block.specs.SparseLoans.{lends_head, lends_keys, lends_slot};

    /// Returns a mutable borrow of the header.
    pub fn head_mut(&mut self) -> &mut H
        ensures* writes_back { sem 𝓛 (lends_head H.row K.row T.row W.row self.entry result) }
        ensures value { result.now ≡ self.old.head }
    {
        &mut self.raw.head_mut().head
    }

    /// Returns a mutable borrow of the keys.
    pub fn keys_mut(&mut self) -> &mut K
        ensures* writes_back { sem 𝓛 (lends_keys H.row K.row T.row W.row self.entry result) }
        ensures value { result.now ≡ self.old.keys }
    {
        &mut self.raw.head_mut().keys
    }

    /// Returns a mutable borrow of the item in slot `at`.
    pub fn get_mut(&mut self, at: usize) -> &mut T
        requires { IsSome (get_or self.old.items at None) }
        ensures* writes_back { sem 𝓛 (lends_slot H.row K.row T.row W.row self.entry at result) }
        ensures value { get_or self.old.items at None ≡ Some result.now }
    {
        self.raw.get_mut(at)
    }
}
