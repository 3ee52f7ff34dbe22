//! A stride: the targets of the networks with the same whole bytes, by the code of the bits after these.

// Contracts see a stride as its pairs of a one-byte key, the code, and a target, ascending by code.

ghost use Rattle.std.specs.Prelude.{◌≡◌, ◌≢◌, ◌<◌, ◌≤◌, [], ◌∷◌, length, Some, None, option_map, IfOk, IfErr};
ghost use Rattle.std.specs.Borrow.{sem};
ghost use Rattle.std.specs.Option.{option_copied, option_copied_mut};
ghost use Rattle.rart_keys.specs.SortedMap.{IsAscending, lookup, put, without};
ghost use Rattle.rart.specs.Edits.{Inserts};
ghost use Rattle.rart.specs.Refusals.{MayRefuseInsert};
ghost use Rattle.rart_cidr.specs.Loans.{lends_target};
ghost use Rattle.rart_cidr.specs.Routes.{IsCode, IsLongestIn, IsShortestIn};
ghost use Rattle.rart_cidr.specs.Walks.{IsCodeLess, IsNextIn};

use crate::bits::{code_after, code_len, code_of, place_of};
use crate::code_map::CodeMap;
use rart::{Refused, TreeError};
use std::alloc::Global;
use std::marker::Model;
use std::mem;

/// The targets of a stride, by code.
#[derive(Drop)]
pub struct Stride<T> {
    targets: Targets<T>,
}

/// The targets of a stride, inline where there is one: most strides of a real table have one target.
#[derive(Drop)]
enum Targets<T> {
    /// No target.
    Empty,
    /// One target, at this code.
    One(u8, T),
    /// The targets of a stride that has had two or more.
    Many(Box<CodeMap<T>>),
}

impl<T> Model for Stride<T> {
    ghost use Rattle.std.specs.Prelude.{ℕ, List};
    ghost use Rattle.rart_cidr.specs.Targets.{pairs_of};

    ghost Value = { List (List ℕ × T) };

    ghost view = { λ s. pairs_of s.targets };
}

impl<T> Targets<T> {
    ghost use Rattle.rart_cidr.specs.Loans.{lends_at};
    ghost use Rattle.rart_cidr.specs.Targets.{pairs_of};

    // Returns a mutable reference to the target at `code`, which must be stored.
    fn get_stored_mut(&mut self, code: u8) -> Option<&mut T>
        requires stored { lookup (code ∷ []) (pairs_of self.old) ≢ None }
        ensures* writes_back { sem 𝓛 (lends_at T.row self.entry code result) }
        ensures value { option_copied_mut result ≡ lookup (code ∷ []) (pairs_of self.old) }
    {
        if let Targets::One(stored, _) = self {
            if *stored != code {
                return None;
            }
        }
        match self {
            Targets::Empty => None,
            Targets::One(_, target) => Some(target),
            Targets::Many(map) => map.get_stored_mut(code),
        }
    }
}

// Returns a map of one target, on the heap. If the allocation fails, returns the target.
fn boxed_one<T: Drop>(alloc: Global, code: u8, target: T) -> Result<Box<CodeMap<T>>, T>
    ensures ok { IfOk result (λ map. map.value ≡ (code ∷ [], target) ∷ []) }
    ensures returned { IfErr result (λ back. back ≡ target) }
{
    let Ok(map) = CodeMap::new(alloc) else {
        return Err(target);
    };
    match Box::new(alloc, map) {
        Ok(mut map) => match map.insert(code, target) {
            Ok(_) => Ok(map),
            Err(_) => unreachable!(),
        },
        Err(_) => Err(target),
    }
}

// Returns the only target of a map, which must be stored at `code`.
fn unboxed_one<T: Drop>(map: Box<CodeMap<T>>, code: u8) -> T
    requires stored { lookup (code ∷ []) map.value ≢ None }
    requires only { length map.value ≡ 1 }
    ensures { Some result ≡ lookup (code ∷ []) map.value }
{
    let mut map = map;
    match map.remove(code) {
        Some(target) => target,
        None => unreachable!(),
    }
}

// Returns a map of two targets, on the heap. If an allocation fails, returns `first`, and `target` in the error.
fn boxed_two<T: Drop>(
    alloc: Global,
    stored: u8,
    first: T,
    code: u8,
    target: T,
) -> Result<Box<CodeMap<T>>, (T, Refused<T>)>
    requires { code ≢ stored }
    ensures ok { IfOk result (λ map. map.value
        ≡ put (code ∷ []) target ((stored ∷ [], first) ∷ [])) }
    ensures first_returned { IfErr result (λ e. e.0 ≡ first) }
    ensures returned { IfErr result (λ e. e.1.value ≡ target) }
    ensures refused { IfErr result (λ e. MayRefuseInsert ((stored ∷ [], first) ∷ []) (code ∷ [])
        e.1.error) }
{
    let mut map = match boxed_one(alloc, stored, first) {
        Ok(map) => map,
        Err(first) => {
            return Err((
                first,
                Refused {
                    error: TreeError::Memory,
                    value: target,
                },
            ));
        }
    };
    match map.insert(code, target) {
        Ok(_) => Ok(map),
        Err(refused) => Err((unboxed_one(map, stored), refused)),
    }
}

// Returns what `Stride::shortest` does of a boxed map.
fn shortest_in<T>(map: &CodeMap<T>, byte: u8, least: usize, most: usize) -> Option<(usize, &T)>
    requires { most < 8 }
    ensures { IsShortestIn map.now byte least most (option_map (λ p. (p.0, p.1.now)) result) }
{
    let mut bits = least;
    while bits <= most {
        if let Some(target) = map.get(code_of(byte, bits)) {
            return Some((bits, target));
        }
        bits += 1;
    }
    None
}

// Returns what `Stride::next` does of a boxed map.
fn next_in<T>(map: &CodeMap<T>, code: u8, last: u8) -> Option<(u8, &T)>
    requires code { IsCode (code ∷ []) }
    requires last { IsCode (last ∷ []) }
    requires order { ¬ (IsCodeLess last code) }
    ensures { IsNextIn map.now code last (option_map (λ p. (p.0, p.1.now)) result) }
{
    let mut at = code;
    while at != last {
        at = code_after(at);
        if let Some(target) = map.get(at) {
            return Some((at, target));
        }
    }
    None
}

impl<T> Stride<T> {
    /// Creates a stride of one target. Allocates nothing.
    pub fn new(code: u8, target: T) -> Self
        ensures { result ≡ (code ∷ [], target) ∷ [] }
    {
        Stride {
            targets: Targets::One(code, target),
        }
    }

    /// Returns the number of targets.
    pub fn len(&self) -> usize
        ensures { result ≡ length self.now }
    {
        match &self.targets {
            Targets::Empty => 0,
            Targets::One(_, _) => 1,
            Targets::Many(map) => map.len(),
        }
    }

    /// Proves that the codes ascend. Does nothing at run time.
    pub fn ascends(&self)
        ensures { IsAscending self.now }
    {
        match &self.targets {
            Targets::Empty | Targets::One(_, _) => {}
            Targets::Many(map) => map.ascends(),
        }
    }

    /// Returns the target at `code`.
    pub fn get(&self, code: u8) -> Option<&T>
        ensures { option_copied result ≡ lookup (code ∷ []) self.now }
    {
        match &self.targets {
            Targets::Empty => None,
            Targets::One(stored, target) => { if *stored == code { Some(target) } else { None } }
            Targets::Many(map) => map.get(code),
        }
    }

    /// Returns a mutable reference to the target at `code`, which must be stored.
    pub fn get_stored_mut(&mut self, code: u8) -> Option<&mut T>
        requires stored { lookup (code ∷ []) self.old ≢ None }
        ensures* writes_back { sem 𝓛 (lends_target T.row self.entry code result) }
        ensures value { option_copied_mut result ≡ lookup (code ∷ []) self.old }
    {
        self.targets.get_stored_mut(code)
    }

    /// Inserts `target` at `code` and returns the old target. Allocates nothing for a first target.
    ///
    /// # Errors
    ///
    /// [`TreeError::Memory`] if the code is new, the stride has one target or its map must grow, and the allocation
    /// fails. The stride is then unchanged, and the error holds `target`.
    pub fn insert(&mut self, alloc: Global, code: u8, target: T) -> Result<Option<T>, Refused<T>>
    where
        T: Drop,
        ensures { Inserts (code ∷ []) target self.old self.new result }
    {
        match mem::replace(&mut self.targets, Targets::Empty) {
            Targets::Empty => {
                self.targets = Targets::One(code, target);
                Ok(None)
            }
            Targets::One(stored, first) => {
                if stored == code {
                    self.targets = Targets::One(code, target);
                    return Ok(Some(first));
                }
                match boxed_two(alloc, stored, first, code, target) {
                    Ok(map) => {
                        self.targets = Targets::Many(map);
                        Ok(None)
                    }
                    Err((first, refused)) => {
                        self.targets = Targets::One(stored, first);
                        Err(refused)
                    }
                }
            }
            Targets::Many(mut map) => {
                let inserted = map.insert(code, target);
                self.targets = Targets::Many(map);
                inserted
            }
        }
    }

    /// Removes the target at `code` and returns it. Never allocates.
    pub fn remove(&mut self, code: u8) -> Option<T>
    where
        T: Drop,
        ensures value { result ≡ lookup (code ∷ []) self.old }
        ensures removed { self.new ≡ without (code ∷ []) self.old }
    {
        match mem::replace(&mut self.targets, Targets::Empty) {
            Targets::Empty => None,
            Targets::One(stored, target) => {
                if stored == code {
                    return Some(target);
                }
                self.targets = Targets::One(stored, target);
                None
            }
            Targets::Many(mut map) => {
                let removed = map.remove(code);
                self.targets = Targets::Many(map);
                removed
            }
        }
    }

    /// Returns the only target, which must be stored at `code`.
    pub fn into_only(self, code: u8) -> Option<T>
    where
        T: Drop,
        requires stored { lookup (code ∷ []) self ≢ None }
        requires only { length self ≡ 1 }
        ensures { result ≡ lookup (code ∷ []) self }
    {
        let mut stride = self;
        stride.remove(code)
    }

    /// Returns the target of the longest beginning of `byte` that has one, among those of at most `most` bits, and its
    /// number of bits.
    pub fn longest(&self, byte: u8, most: usize) -> Option<(usize, &T)>
        requires { most < 8 }
        ensures { IsLongestIn self.now byte most (option_map (λ p. (p.0, p.1.now)) result) }
    {
        match &self.targets {
            Targets::Empty => None,
            Targets::One(stored, target) => {
                let bits = usize::from(code_len(*stored));
                if bits <= most && code_of(byte, bits) == *stored {
                    Some((bits, target))
                } else {
                    None
                }
            }
            Targets::Many(map) => map.longest(byte, most),
        }
    }

    /// Returns the target of the shortest beginning of `byte` that has one, among those of `least` to `most` bits, and
    /// its number of bits.
    pub fn shortest(&self, byte: u8, least: usize, most: usize) -> Option<(usize, &T)>
        requires { most < 8 }
        ensures { IsShortestIn self.now byte least most (option_map (λ p. (p.0, p.1.now)) result) }
    {
        match &self.targets {
            Targets::Empty => None,
            Targets::One(stored, target) => {
                let bits = usize::from(code_len(*stored));
                if least <= bits && bits <= most && code_of(byte, bits) == *stored {
                    Some((bits, target))
                } else {
                    None
                }
            }
            Targets::Many(map) => shortest_in(map, byte, least, most),
        }
    }

    /// Returns the first target after `code`, by the order of the bits, at `last` or before it, and its code.
    pub fn next(&self, code: u8, last: u8) -> Option<(u8, &T)>
        requires code { IsCode (code ∷ []) }
        requires last { IsCode (last ∷ []) }
        requires order { ¬ (IsCodeLess last code) }
        ensures { IsNextIn self.now code last (option_map (λ p. (p.0, p.1.now)) result) }
    {
        match &self.targets {
            Targets::Empty => None,
            Targets::One(stored, target) => {
                if *stored > 0
                    && place_of(code) < place_of(*stored)
                    && place_of(*stored) <= place_of(last)
                {
                    Some((*stored, target))
                } else {
                    None
                }
            }
            Targets::Many(map) => next_in(map, code, last),
        }
    }
}
