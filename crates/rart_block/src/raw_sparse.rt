//! The memory of a sparse block: a header, and slots of which each holds an item or is vacant.
//!
//! The caller knows which: `get_mut` and `take` require an item in the slot, and `put` requires a vacant slot.

ghost use Rattle.std.specs.Prelude.{◌≡◌, List, Option, Some, None, IsSome, length, ◌<◌, ◌^◌, get_or, slice_set};
ghost use Rattle.std.specs.Prelude.{replicate};
ghost use Rattle.std.specs.Borrow.{sem};
ghost use Rattle.std_alloc.specs.Vec.Ownership.{FitsInBlock};

use crate::raw::{Layout, Room};
use std::alloc::Global;
use std::marker::{Model, PhantomData};
use std_alloc::room::Vacant;

/// The owner of a sparse block: of its header, and of the items in its slots.
pub struct RawSparseBlock<H, T, const W: usize> {
    // `*const`, so that a block of a longer lifetime is one of a shorter.
    ptr: *const Layout<H, T, W>,
    ghost head: { H },
    ghost slots: { List (Option T) },
    ghost all: { length slots ≡ W },
    ghost narrow: { W < 2 ^ 63 },
}

impl<H, T, const W: usize> Model for RawSparseBlock<H, T, W> {
    ghost use denote.Param.{value_of};
    ghost use Rattle.rart_block.specs.Memory.{global_token};
    ghost use Rattle.rart_block.specs.SlotMemory.{sparse_owned, sparse_shared};

    ghost also_owns = { λ b. sparse_owned H.row T.row (value_of W.row) global_token b.ptr b.head
        b.slots };

    ghost also_shares = { λ b _ κ. sparse_shared H.row T.row (value_of W.row) b.ptr b.head b.slots κ };
}

/// A shared borrow of the slots of a block.
#[derive(Drop)]
pub struct Slots<'a, T> {
    ptr: *const T,
    borrow: PhantomData<&'a T>,
    pub ghost items: { List (Option T) },
}

impl<'a, T> Model for Slots<'a, T> {
    ghost use Rattle.rart_block.specs.SlotMemory.{slots_seen};

    ghost also_owns = { λ s. slots_seen T.row s.ptr s.items 'a };

    ghost also_shares = { λ s _ _. slots_seen T.row s.ptr s.items 'a };
}

impl<'a, T> Slots<'a, T> {
    /// Returns the item in slot `at`.
    pub fn get(&self, at: usize) -> &'a T
        requires { IsSome (get_or self.now.items at None) }
        ensures { get_or self.now.items at None ≡ Some result.now }
    {
        unsafe { &*self.ptr.add(at) }
    }
}

impl<H, T, const W: usize> RawSparseBlock<H, T, W> {
    ghost use Rattle.rart_block.specs.RawSparseLoans.{lends_head, lends_slot};

    /// Returns the header.
    pub fn head(&self) -> &H
        ensures { result.now ≡ self.now.head }
    {
        unsafe { &(*self.ptr).head }
    }

    /// Returns a mutable borrow of the header.
    pub fn head_mut(&mut self) -> &mut H
        ensures* writes_back { sem 𝓛 (lends_head H.row T.row W.row self.entry result) }
        ensures value { result.now ≡ self.old.head }
    {
        let ptr = self.ptr.cast_mut();
        unsafe { &mut (*ptr).head }
    }

    /// Returns a shared borrow of the slots.
    pub fn slots(&self) -> Slots<'_, T>
        ensures { result.items ≡ self.now.slots }
    {
        Slots {
            ptr: unsafe { &raw const (*self.ptr).places as *const T },
            borrow: PhantomData,
        }
    }

    /// Returns a mutable borrow of the item in slot `at`.
    pub fn get_mut(&mut self, at: usize) -> &mut T
        requires { IsSome (get_or self.old.slots at None) }
        ensures* writes_back { sem 𝓛 (lends_slot H.row T.row W.row self.entry at result) }
        ensures value { get_or self.old.slots at None ≡ Some result.now }
    {
        let ptr = self.ptr.cast_mut();
        unsafe { &mut *(&raw mut (*ptr).places as *mut T).add(at) }
    }

    /// Stores an item in slot `at`, which is vacant.
    pub fn put(&mut self, at: usize, item: T)
        requires { (at < W) × (get_or self.old.slots at None ≡ None) }
        ensures block { (self.new.ptr ≡ self.old.ptr) × (self.new.head ≡ self.old.head) }
        ensures stored { self.new.slots ≡ slice_set self.old.slots at (Some item) }
    {
        let ptr = self.ptr.cast_mut();
        unsafe {
            (&raw mut (*ptr).places as *mut T).add(at).write(item);
        }
    }

    /// Moves the item out of slot `at`, which is then vacant.
    pub fn take(&mut self, at: usize) -> T
        requires { IsSome (get_or self.old.slots at None) }
        ensures block { (self.new.ptr ≡ self.old.ptr) × (self.new.head ≡ self.old.head) }
        ensures taken { get_or self.old.slots at None ≡ Some result }
        ensures vacated { self.new.slots ≡ slice_set self.old.slots at None }
    {
        let ptr = self.ptr.cast_mut();
        unsafe { (&raw mut (*ptr).places as *mut T).add(at).read() }
    }

    /// Makes a block without items by writing its header.
    pub fn fill(room: Room<H, T, W>, head: H) -> Self
        requires { FitsInBlock T.row W }
        ensures { (result.head ≡ head) × (result.slots ≡ replicate W None) }
    {
        let Room {
            vacant: Vacant { ptr, alloc: _ },
        } = room;
        unsafe {
            (&raw mut (*ptr).head).write(head);
        }
        RawSparseBlock { ptr }
    }

    /// Moves the header out of a block without items.
    pub fn vacate(self, alloc: Global) -> (H, Room<H, T, W>)
        requires { self.slots ≡ replicate W None }
        ensures { result.0 ≡ self.head }
    {
        let RawSparseBlock { ptr } = self;
        let ptr = ptr.cast_mut();
        let head = unsafe { (&raw const (*ptr).head).read() };
        (
            head,
            Room {
                vacant: Vacant { ptr, alloc },
            },
        )
    }
}
