//! The memory of a block: a header, and places that can be held apart as a vector.
//!
//! The length is the caller's: it says how many of the places are filled.

ghost use Rattle.std.specs.Prelude.{◌≡◌, Bool, false, true, List, [], length, ◌≤◌, ◌<◌, ◌^◌, get_or};
ghost use Rattle.std.specs.Borrow.{sem};
ghost use Rattle.std_alloc.specs.Vec.{vec_len, vec_capacity, vec_ptr};
ghost use Rattle.std_alloc.specs.Vec.Ownership.{FitsInBlock};

use std::alloc::Global;
use std::marker::Model;
use std_alloc::room::Vacant;
use std_alloc::vec::{Lodged, lodge};

/// How a block is laid out.
pub struct Layout<H, T, const W: usize> {
    pub(crate) head: H,
    pub(crate) places: [T; W],
}

/// Memory for a block, not filled yet.
///
/// Functions take and return this type, not `Layout`: nothing bounds the size of a `Layout` of any `H` and `T`.
pub struct Room<H, T, const W: usize> {
    pub(crate) vacant: Vacant<Layout<H, T, W>, Global>,
}

impl<H, T, const W: usize> Room<H, T, W> {
    /// Allocates memory for a block.
    pub fn allocate(alloc: Global) -> Option<Self> {
        match Vacant::take(alloc) {
            Ok(vacant) => Some(Room { vacant }),
            Err(_alloc) => None,
        }
    }

    /// Frees the memory.
    pub fn free(self) {
        let Room { vacant } = self;
        let _alloc = vacant.free();
    }
}

/// The owner of a block: of its header, and of the items in its first places unless those are held apart.
pub struct RawBlock<H, T, const W: usize> {
    // `*const`, so that a block of a longer lifetime is one of a shorter.
    ptr: *const Layout<H, T, W>,
    ghost head: { H },
    ghost items: { List T },
    ghost apart: { Bool },
    ghost few: { length items ≤ W },
    ghost narrow: { W < 2 ^ 63 },
}

impl<H, T, const W: usize> Model for RawBlock<H, T, W> {
    ghost use denote.Param.{value_of};
    ghost use Rattle.rart_block.specs.Memory.{global_token, block_owned, block_shared};

    ghost also_owns = { λ b. block_owned H.row T.row (value_of W.row) global_token b.ptr b.head
        b.items b.apart };

    ghost also_shares = { λ b _ κ. block_shared H.row T.row (value_of W.row) b.ptr b.head
        b.items b.apart κ };
}

impl<H, T, const W: usize> RawBlock<H, T, W> {
    ghost use Rattle.rart_block.specs.RawLoans.{lends_head, lends_item};
    ghost use Rattle.rart_block.specs.Memory.{places_in};

    /// Returns the header.
    pub fn head(&self) -> &H
        ensures { result.now ≡ self.now.head }
    {
        unsafe { &(*self.ptr).head }
    }

    /// Returns a mutable borrow of the header.
    pub fn head_mut(&mut self) -> &mut H
        ensures* writes_back { sem 𝓛 (lends_head H.row T.row W.row self.entry result) }
        ensures value { result.now ≡ self.old.head }
    {
        let ptr = self.ptr.cast_mut();
        unsafe { &mut (*ptr).head }
    }

    /// Returns the items.
    pub fn items(&self, len: usize) -> &[T]
        requires { (len ≡ length self.now.items) × (self.now.apart ≡ false) }
        ensures { result.now ≡ self.now.items }
    {
        unsafe { std::slice::from_raw_parts(&raw const (*self.ptr).places as *const T, len) }
    }

    /// Returns a mutable borrow of the item at place `at`.
    pub fn item_mut(&mut self, at: usize) -> &mut T
        requires { (at < length self.old.items) × (self.old.apart ≡ false) }
        ensures* writes_back { sem 𝓛 (lends_item H.row T.row W.row self.entry at result) }
        ensures value { result.now ≡ get_or self.old.items at result.now }
    {
        let ptr = self.ptr.cast_mut();
        unsafe { &mut *(&raw mut (*ptr).places as *mut T).add(at) }
    }

    /// Returns the places as a vector that holds the items. They are apart from the block until `give`.
    pub fn take(&mut self, len: usize) -> Vec<T, Lodged>
        requires { (len ≡ length self.old.items) × (self.old.apart ≡ false) }
        ensures block { (self.new.ptr ≡ self.old.ptr) × (self.new.head ≡ self.old.head) }
        ensures apart { self.new.apart ≡ true }
        ensures items { (result.items ≡ self.old.items) × (vec_len result ≡ len) }
        ensures in_place { (vec_capacity result ≡ W)
            × (vec_ptr result ≡ places_in H.row T.row W.row self.old.ptr) }
    {
        let ptr = self.ptr.cast_mut();
        unsafe { lodge(&raw mut (*ptr).places as *mut T, len, W) }
    }

    /// Puts the places back, with the items that the vector holds now.
    pub fn give(&mut self, items: Vec<T, Lodged>)
        requires { (self.old.apart ≡ true) × (vec_capacity items ≡ W)
            × (vec_ptr items ≡ places_in H.row T.row W.row self.old.ptr) }
        ensures block { (self.new.ptr ≡ self.old.ptr) × (self.new.head ≡ self.old.head) }
        ensures joined { self.new.apart ≡ false }
        ensures items { self.new.items ≡ items.items }
    {
        let _len = items.dislodge();
    }

    /// Makes a block without items by writing its header.
    pub fn fill(room: Room<H, T, W>, head: H) -> Self
        requires { FitsInBlock T.row W }
        ensures { (result.head ≡ head) × (result.items ≡ []) × (result.apart ≡ false) }
    {
        let Room {
            vacant: Vacant { ptr, alloc: _ },
        } = room;
        unsafe {
            (&raw mut (*ptr).head).write(head);
        }
        RawBlock { ptr }
    }

    /// Moves the header out of a block without items.
    pub fn vacate(self, alloc: Global) -> (H, Room<H, T, W>)
        requires { (self.items ≡ []) × (self.apart ≡ false) }
        ensures { result.0 ≡ self.head }
    {
        let RawBlock { ptr } = self;
        let ptr = ptr.cast_mut();
        let head = unsafe { (&raw const (*ptr).head).read() };
        (
            head,
            Room {
                vacant: Vacant { ptr, alloc },
            },
        )
    }
}
