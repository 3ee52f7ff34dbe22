//! A map from codes to targets, packed in the order of the codes.

// A longest match asks for up to eight codes, the next route for up to 255, and most have no target. For these a bit
// of the set is the answer. The others have their target at their rank, the number of lesser codes.

ghost use Rattle.std.specs.Prelude.{◌≡◌, ◌≢◌, ◌≤◌, ◌<◌, ◌+◌, [], ◌∷◌, length, false, None, option_map, IfOk, IfErr};
ghost use Rattle.std.specs.Prelude.{OnErr, OnOk, vec_len, vec_capacity};
ghost use Rattle.std.specs.List.{insert};
ghost use Rattle.std.specs.Borrow.{sem};
ghost use Rattle.std.specs.Option.{option_copied, option_copied_mut};
ghost use Rattle.rart_keys.specs.SortedMap.{IsAscending, lookup, without};
ghost use Rattle.rart_trie.specs.edits.InsertAllocations.{has_free_slot};
ghost use Rattle.rart_trie.specs.shapes.Shape.{capacity_of};
ghost use Rattle.rart.specs.Edits.{Inserts};
ghost use Rattle.rart_cidr.specs.CodeLoans.{lends_coded};
ghost use Rattle.rart_cidr.specs.Routes.{IsLongestIn};

use crate::bits::code_of;
use crate::code_set::{longest_bits, rank};
use rart::{Refused, TreeError};
use rart_parts::utils::bitset::{Bitset, Bitset64, BitsetTrait};
use std::alloc::{AllocError, Global};
use std::marker::Model;
use std::mem;

/// Targets by code.
///
/// Contracts see it as its pairs of a one-byte key, the code, and a target, ascending by code.
#[derive(Drop)]
pub struct CodeMap<T> {
    codes: Bitset64<4>,
    targets: Vec<T>,
}

impl<T> Model for CodeMap<T> {
    ghost use Rattle.std.specs.Prelude.{ℕ, List, vec_capacity};
    ghost use Rattle.rart_cidr.specs.CodeSets.{IsPacked, targets_by_code};

    ghost Value = { List (List ℕ × T) };

    ghost view = { λ m. targets_by_code m.codes.words m.targets.items };

    ghost invariant = { λ m. IsPacked m.codes.words m.targets.items (vec_capacity m.targets) };
}

// Allocates if 4, 16 or 48 targets need room for another, and then for as many as the next larger node has children.
fn reserve_one<T>(targets: &mut Vec<T>) -> Result<(), AllocError>
    requires least { 4 ≤ vec_capacity targets.old }
    requires room { capacity_of (vec_len targets.old) ≤ vec_capacity targets.old }
    ensures items { targets.new.items ≡ targets.old.items }
    ensures len { vec_len targets.new ≡ vec_len targets.old }
    ensures capacity { vec_capacity targets.old ≤ vec_capacity targets.new }
    ensures room { OnOk result (capacity_of (vec_len targets.old + 1) ≤ vec_capacity targets.new) }
    ensures allocates { OnErr result
        ((0 < vec_len targets.old) × (has_free_slot (vec_len targets.old) ≡ false)) }
{
    let more = match targets.len() {
        4 => 12,
        16 => 32,
        48 => 208,
        _ => return Ok(()),
    };
    targets.reserve(more)
}

// Inserts `target` at `at`. If the allocation fails, returns `target`.
fn insert_at<T>(targets: &mut Vec<T>, at: usize, target: T) -> Result<(), T>
    requires within { at ≤ vec_len targets.old }
    requires few { vec_len targets.old < 256 }
    requires least { 4 ≤ vec_capacity targets.old }
    requires room { capacity_of (vec_len targets.old) ≤ vec_capacity targets.old }
    ensures capacity { vec_capacity targets.old ≤ vec_capacity targets.new }
    ensures inserted { OnOk result (targets.new.items ≡ insert targets.old.items at target) }
    ensures room { OnOk result (capacity_of (vec_len targets.old + 1) ≤ vec_capacity targets.new) }
    ensures returned { IfErr result (λ back. back ≡ target) }
    ensures unchanged { OnErr result (targets.new.items ≡ targets.old.items) }
    ensures allocates { OnErr result
        ((0 < vec_len targets.old) × (has_free_slot (vec_len targets.old) ≡ false)) }
{
    match reserve_one(targets) {
        Ok(()) => match targets.insert(at, target) {
            Ok(()) => Ok(()),
            Err(refused) => Err(refused.value),
        },
        Err(_) => Err(target),
    }
}

impl<T> CodeMap<T> {
    /// Creates an empty map with room for four targets, which requests all memory from `alloc`.
    ///
    /// # Errors
    ///
    /// [`AllocError`] if the allocation fails.
    pub fn new(alloc: Global) -> Result<Self, AllocError>
        ensures { IfOk result (λ map. map ≡ []) }
    {
        let targets = Vec::with_capacity(alloc, 4)?;
        Ok(CodeMap {
            codes: Bitset::new(),
            targets,
        })
    }

    /// Returns the number of targets.
    pub fn len(&self) -> usize
        ensures { result ≡ length self.now }
    {
        self.targets.len()
    }

    /// Proves that the codes ascend. Does nothing at run time.
    pub fn ascends(&self)
        ensures { IsAscending self.now }
    {
        let _ = &self.targets;
    }

    /// Returns the target at `code`.
    pub fn get(&self, code: u8) -> Option<&T>
        ensures { option_copied result ≡ lookup (code ∷ []) self.now }
    {
        if self.codes.check(usize::from(code)) {
            Some(&self.targets[rank(&self.codes, code)])
        } else {
            None
        }
    }

    /// Returns a mutable reference to the target at `code`, which must be stored.
    pub fn get_stored_mut(&mut self, code: u8) -> Option<&mut T>
        requires stored { lookup (code ∷ []) self.old ≢ None }
        ensures* writes_back { sem 𝓛 (lends_coded T.row self.entry code result) }
        ensures value { option_copied_mut result ≡ lookup (code ∷ []) self.old }
    {
        let at = rank(&self.codes, code);
        self.targets.get_mut(at)
    }

    /// Returns the target of the longest beginning of `byte` that has one, among those of at most `most` bits, and its
    /// number of bits.
    pub fn longest(&self, byte: u8, most: usize) -> Option<(usize, &T)>
        requires { most < 8 }
        ensures { IsLongestIn self.now byte most (option_map (λ p. (p.0, p.1.now)) result) }
    {
        match longest_bits(&self.codes, byte, most) {
            Some(bits) => {
                let at = rank(&self.codes, code_of(byte, bits));
                Some((bits, &self.targets[at]))
            }
            None => None,
        }
    }

    /// Inserts `target` at `code` and returns the old target.
    ///
    /// # Errors
    ///
    /// [`TreeError::Memory`] if the code is new, the map has 4, 16 or 48 targets and the allocation fails. The map is
    /// then unchanged, and the error holds `target`.
    pub fn insert(&mut self, code: u8, target: T) -> Result<Option<T>, Refused<T>>
        ensures { Inserts (code ∷ []) target self.old self.new result }
    {
        let position = usize::from(code);
        let at = rank(&self.codes, code);
        if self.codes.check(position) {
            return Ok(Some(mem::replace(&mut self.targets[at], target)));
        }
        match insert_at(&mut self.targets, at, target) {
            Ok(()) => {
                self.codes.set(position);
                Ok(None)
            }
            Err(target) => Err(Refused {
                error: TreeError::Memory,
                value: target,
            }),
        }
    }

    /// Removes the target at `code` and returns it. Never allocates.
    pub fn remove(&mut self, code: u8) -> Option<T>
        ensures value { result ≡ lookup (code ∷ []) self.old }
        ensures removed { self.new ≡ without (code ∷ []) self.old }
    {
        let position = usize::from(code);
        if self.codes.check(position) {
            let at = rank(&self.codes, code);
            self.codes.unset(position);
            Some(self.targets.remove(at))
        } else {
            None
        }
    }
}
