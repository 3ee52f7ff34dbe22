//! A block, which a contract reads as its header, its keys and the list of its items.

ghost use Rattle.std.specs.Prelude.{◌≡◌, ◌==◌, [], ◌∷◌, ◌++◌, ◌≤◌, ◌<◌, ◌+◌, length, slice_get, get_or, remove};
ghost use Rattle.std.specs.Prelude.{Some, IfOk, IfErr, MatchOption};
ghost use Rattle.std.specs.List.{insert};
ghost use Rattle.rart_block.specs.Contents.{with_items};

use crate::raw::{RawBlock, Room};
use std::alloc::Global;
use std::marker::Model;
use std_alloc::room::may_hold;

/// What is stored before the places. The length comes last, in bytes that may be needed to align the places.
struct Header<H, K> {
    head: H,
    keys: K,
    len: u32,
    // Takes no bytes.
    alloc: Global,
}

/// A pointer to one allocation that holds a header, keys and up to `W` items.
///
/// The header and the keys are apart so that each can be borrowed alone. A block needs no keys: `K` may be `()`.
pub struct Block<H, K, T, const W: usize> {
    raw: RawBlock<Header<H, K>, T, W>,
}

impl<H, K, T, const W: usize> Model for Block<H, K, T, W> {
    ghost use Rattle.std.specs.Prelude.{◌≡◌, ◌≤◌, ◌<◌, ◌^◌, length, false};
    ghost use Rattle.rart_block.specs.Contents.{Contents, contents_code};

    ghost Value = { Contents H K T };

    ghost coded = { contents_code H.code K.code T.code };

    ghost view = { λ b. record {
      head = b.raw.head.head;
      keys = b.raw.head.keys;
      items = b.raw.items;
    } };

    ghost invariant = { λ b. (b.raw.apart ≡ false) × (b.raw.head.len ≡ length b.raw.items)
        × (length b.raw.items ≤ W) × (W < 2 ^ 32) };
}

impl<H, K, T, const W: usize> Block<H, K, T, W> {
    /// Returns a block without items.
    ///
    /// # Errors
    ///
    /// The header and the keys, if the allocation fails or can't have `W` places.
    pub fn new(alloc: Global, head: H, keys: K) -> Result<Self, (H, K)>
        ensures ok { IfOk result (λ b. b ≡ record { head = head; keys = keys; items = [] }) }
        ensures unchanged { IfErr result (λ e. e ≡ (head, keys)) }
    {
        if W > u32::MAX as usize || !may_hold::<T>(W) {
            return Err((head, keys));
        }
        match Room::allocate(alloc) {
            Some(room) => Ok(Block {
                raw: RawBlock::fill(
                    room,
                    Header {
                        head,
                        keys,
                        len: 0,
                        alloc,
                    },
                ),
            }),
            None => Err((head, keys)),
        }
    }

    /// Returns the header.
    pub fn head(&self) -> &H
        ensures { result.now ≡ self.now.head }
    {
        &self.raw.head().head
    }

    /// Returns the keys.
    pub fn keys(&self) -> &K
        ensures { result.now ≡ self.now.keys }
    {
        &self.raw.head().keys
    }

    /// Returns the number of items.
    pub fn len(&self) -> usize
        ensures count { result ≡ length self.now.items }
        ensures at_most { length self.now.items ≤ W }
    {
        self.raw.head().len as usize
    }

    /// Returns whether there are no items.
    pub fn is_empty(&self) -> bool
        ensures { result ≡ (length self.now.items == 0) }
    {
        self.len() == 0
    }

    /// Returns the items in order.
    pub fn as_slice(&self) -> &[T]
        ensures { result.now ≡ self.now.items }
    {
        let len = self.len();
        self.raw.items(len)
    }

    /// Appends an item.
    pub fn push(&mut self, item: T)
        requires { length self.old.items < W }
        ensures { self.new ≡ with_items self.old (self.old.items ++ item ∷ []) }
    {
        let len = self.raw.head().len;
        let mut items = self.raw.take(len as usize);
        items.push_reserved(item);
        self.raw.head_mut().len = len + 1;
        self.raw.give(items);
    }

    /// Inserts an item at place `at`. The items from there on move up by one place.
    pub fn insert(&mut self, at: usize, item: T)
        requires { (at ≤ length self.old.items) × (length self.old.items < W) }
        ensures { self.new ≡ with_items self.old (insert self.old.items at item) }
    {
        let len = self.raw.head().len;
        let mut items = self.raw.take(len as usize);
        items.insert_reserved(at, item);
        self.raw.head_mut().len = len + 1;
        self.raw.give(items);
    }

    /// Removes the item at place `at` and returns it. The items above move down by one place.
    pub fn remove(&mut self, at: usize) -> T
        requires { at < length self.old.items }
        ensures taken { slice_get self.old.items at ≡ Some result }
        ensures rest { self.new ≡ with_items self.old (remove self.old.items at) }
    {
        let len = self.raw.head().len;
        let mut items = self.raw.take(len as usize);
        let item = items.remove(at);
        self.raw.head_mut().len = len - 1;
        self.raw.give(items);
        item
    }

    /// Removes the last item and returns it.
    pub fn pop(&mut self) -> Option<T>
        ensures { MatchOption result ((self.old.items ≡ []) × (self.new ≡ self.old))
            (λ x. self.old ≡ with_items self.new (self.new.items ++ x ∷ [])) }
    {
        let len = self.len();
        if len == 0 {
            return None;
        }
        Some(self.remove(len - 1))
    }

    /// Appends all items of another block, which is empty afterwards.
    pub fn append<G, L, const U: usize>(&mut self, source: &mut Block<G, L, T, U>)
        requires { length self.old.items + length source.old.items ≤ W }
        ensures filled { self.new ≡ with_items self.old (self.old.items ++ source.old.items) }
        ensures emptied { source.new ≡ with_items source.old [] }
    {
        let len = self.raw.head().len;
        let more = source.raw.head().len;
        if more == 0 {
            return;
        }
        let mut items = self.raw.take(len as usize);
        let mut others = source.raw.take(more as usize);
        items.append_tail(&mut others, 0);
        self.raw.head_mut().len = len + more;
        source.raw.head_mut().len = 0;
        self.raw.give(items);
        source.raw.give(others);
    }

    /// Frees a block without items and returns its header and its keys. `T` needs no `Drop`.
    pub fn destroy_empty(self) -> (H, K)
        requires { self.items ≡ [] }
        ensures { result ≡ (self.head, self.keys) }
    {
        let Block { raw } = self;
        let alloc = raw.head().alloc;
        let (
            Header {
                head,
                keys,
                len: _,
                alloc: _,
            },
            room,
        ) = raw.vacate(alloc);
        room.free();
        (head, keys)
    }
}

/// Drops the items, the last first, then the header and the keys, and frees the allocation.
impl<H: Drop, K: Drop, T: Drop, const W: usize> Drop for Block<H, K, T, W> {
    fn drop(mut self) {
        while let Some(item) = self.pop() {
            drop(item);
        }
        drop(self.destroy_empty());
    }
}

impl<H, K, T, const W: usize> Block<H, K, T, W> {
    ghost use Rattle.std.specs.Borrow.{sem};
    ghost use Rattle.rart_block.specs.Loans.{lends_head, lends_keys, lends_item};

    /// Returns a mutable borrow of the header.
    pub fn head_mut(&mut self) -> &mut H
        ensures* writes_back { sem 𝓛 (lends_head H.row K.row T.row W.row self.entry result) }
        ensures value { result.now ≡ self.old.head }
    {
        &mut self.raw.head_mut().head
    }

    /// Returns a mutable borrow of the keys.
    pub fn keys_mut(&mut self) -> &mut K
        ensures* writes_back { sem 𝓛 (lends_keys H.row K.row T.row W.row self.entry result) }
        ensures value { result.now ≡ self.old.keys }
    {
        &mut self.raw.head_mut().keys
    }

    /// Returns a mutable borrow of the item at place `at`.
    pub fn item_mut(&mut self, at: usize) -> &mut T
        requires { at < length self.old.items }
        ensures* writes_back { sem 𝓛 (lends_item H.row K.row T.row W.row self.entry at result) }
        ensures value { result.now ≡ get_or self.old.items at result.now }
    {
        self.raw.item_mut(at)
    }
}
