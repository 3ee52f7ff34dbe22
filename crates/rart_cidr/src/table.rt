//! The table of routes by octets and a number of bits.
ghost use Rattle.std.specs.Prelude.{◌≡◌, ◌≢◌, ◌≤◌, ◌↔◌, ◌*◌, ◌/◌, [], ◌∷◌, length, take, slice_index, IsTrue, None};
ghost use Rattle.std.specs.Option.{option_copied};
ghost use Rattle.rart_keys.specs.KeyBytes.{IsWithin};
ghost use Rattle.rart_keys.specs.SortedMap.{IsAscending, lookup};
ghost use Rattle.rart.specs.declared.tree.TheConstants.{MAX_PAIRS};
ghost use Rattle.rart_cidr.specs.Bits.{network};
ghost use Rattle.rart_cidr.specs.Edits.{InsertsRoute, PutsIn, PutsTarget, RemovesRoute, TakesFrom, TakesTarget};
ghost use Rattle.rart_cidr.specs.Routes.{stride_at};

mod by_lengths;
mod get_mut;
mod last;
mod longest;
mod matches;
mod next;
mod next_route;
pub mod seen;
pub(crate) mod walk;

use crate::bits::code_of;
use crate::stride::Stride;
use rart::tree::MAX_PAIRS;
use rart::{AdaptiveRadixTree, KeyTrait, Refused, TreeError};
use std::alloc::Global;
use std::marker::Model;

/// Targets by network: the first bits of some octets.
///
/// Contracts see a table as its routes, pairs of the network's bits and a target, ascending by these bits.
#[derive(Drop)]
pub struct BitTable<K: KeyTrait, T> {
    strides: AdaptiveRadixTree<K, Stride<T>>,
    len: usize,
    alloc: Global,
}

impl<K: KeyTrait, T> Model for BitTable<K, T> {
    ghost use Rattle.std.specs.Prelude.{ℕ, List};
    ghost use Rattle.rart_cidr.specs.Fields.{AreTableFields};
    ghost use Rattle.rart_cidr.specs.Routes.{routes_of};

    ghost Value = { List (List ℕ × T) };

    ghost view = { λ t. routes_of t.strides.pairs };

    ghost invariant = { λ t. AreTableFields t.strides.pairs t.len };
}

// The octet at `at`, or 0 after the last.
fn octet_at(octets: &[u8], at: usize) -> u8
    ensures { result ≡ slice_index octets.now at }
{
    if at < octets.len() { octets[at] } else { 0 }
}

fn first_octets(octets: &[u8], count: usize) -> &[u8]
    requires { count ≤ length octets.now }
    ensures { result.now ≡ take count octets.now }
{
    &octets[..count]
}

impl<K: KeyTrait, T> BitTable<K, T> {
    /// Creates an empty table, which requests all memory from `alloc`. Allocates nothing.
    pub fn new(alloc: Global) -> Self
        ensures { result ≡ [] }
    {
        BitTable {
            strides: AdaptiveRadixTree::new(alloc),
            len: 0,
            alloc,
        }
    }

    // Returns the allocator.
    pub(crate) fn alloc(&self) -> Global {
        self.alloc
    }

    /// Returns the number of routes.
    pub fn len(&self) -> usize
        ensures value { result ≡ length self.now }
        ensures at_most { result ≤ MAX_PAIRS }
    {
        self.len
    }

    /// Returns whether there is no route.
    pub fn is_empty(&self) -> bool
        ensures { IsTrue result ↔ (self.now ≡ []) }
    {
        self.len == 0
    }

    /// Removes all routes and drops their targets. Never fails.
    pub fn clear(&mut self)
    where
        T: Drop,
        ensures { self.new ≡ [] }
    {
        self.strides.clear();
        self.len = 0;
    }

    /// Proves that the routes ascend by the bits of their networks. Does nothing at run time.
    pub fn ascends(&self)
        ensures { IsAscending self.now }
    {
        let _ = &self.strides;
    }

    /// Returns the target of exactly the network of the first `bits` bits of `octets`.
    pub fn get(&self, octets: &[u8], bits: usize) -> Option<&T>
        requires { bits ≤ 8 * length octets.now }
        ensures { option_copied result ≡ lookup (network octets.now bits) self.now }
    {
        self.strides.canonical();
        match self.strides.get_bytes(first_octets(octets, bits / 8)) {
            Some(stride) => stride.get(code_of(octet_at(octets, bits / 8), bits % 8)),
            None => None,
        }
    }

    /// Inserts a route from the network of the first `bits` bits of `octets` to `target`, and returns the old target.
    ///
    /// # Errors
    ///
    /// [`TreeError::Full`] if the network is new and the table holds as many routes as a table can,
    /// [`TreeError::Memory`] if it is new, the table isn't empty and an allocation fails. The table is then unchanged,
    /// and the error holds `target`.
    pub fn insert(&mut self, octets: &[u8], bits: usize, target: T) -> Result<Option<T>, Refused<T>>
    where
        K: Drop,
        T: Drop,
        requires bits { bits ≤ 8 * length octets.now }
        requires within { IsWithin K.MAXIMUM_SIZE (bits / 8) }
        ensures { InsertsRoute (network octets.now bits) target self.old self.new result }
    {
        self.strides.canonical();
        if self.is_full_for(octets, bits) {
            return Err(Refused::full(target));
        }
        let key = K::new_from_slice(first_octets(octets, bits / 8));
        let code = code_of(octet_at(octets, bits / 8), bits % 8);
        match put_target(&mut self.strides, self.alloc, &key, code, target) {
            Ok(None) => {
                self.len += 1;
                Ok(None)
            }
            Ok(Some(old)) => Ok(Some(old)),
            Err(refused) => Err(refused),
        }
    }

    // Returns whether the network is new and the table holds as many routes as a table can.
    fn is_full_for(&self, octets: &[u8], bits: usize) -> bool
        requires { bits ≤ 8 * length octets.now }
        ensures { IsTrue result
            ↔ ((length self.now ≡ MAX_PAIRS) × (lookup (network octets.now bits) self.now ≡ None)) }
    {
        self.len == MAX_PAIRS && self.get(octets, bits).is_none()
    }

    /// Removes the route of exactly the network of the first `bits` bits of `octets`, and returns its target.
    ///
    /// # Errors
    ///
    /// [`TreeError::Memory`] if the route is stored, the table has at least five, its removal must allocate and the
    /// allocation fails. The table is then unchanged.
    pub fn remove(&mut self, octets: &[u8], bits: usize) -> Result<Option<T>, TreeError>
    where
        K: Drop,
        T: Drop,
        requires bits { bits ≤ 8 * length octets.now }
        requires within { IsWithin K.MAXIMUM_SIZE (bits / 8) }
        ensures { RemovesRoute (network octets.now bits) self.old self.new result }
    {
        self.strides.canonical();
        let key = K::new_from_slice(first_octets(octets, bits / 8));
        let code = code_of(octet_at(octets, bits / 8), bits % 8);
        match take_target(&mut self.strides, &key, code) {
            Ok(Some(target)) => {
                self.len -= 1;
                Ok(Some(target))
            }
            Ok(None) => Ok(None),
            Err(error) => Err(error),
        }
    }
}

// Inserts a target into the stride at `key`, which is created if it isn't stored.
fn put_target<K: KeyTrait, T: Drop>(
    strides: &mut AdaptiveRadixTree<K, Stride<T>>,
    alloc: Global,
    key: &K,
    code: u8,
    target: T,
) -> Result<Option<T>, Refused<T>>
    ensures { PutsTarget (K.bytes key.now) (code ∷ []) target strides.old.pairs strides.new.pairs
        result }
{
    strides.canonical();
    match strides.get_k(key) {
        Some(_) => put_in(strides, alloc, key, code, target),
        None => put_new(strides, key, code, target),
    }
}

// Inserts a target into a stored stride.
fn put_in<K: KeyTrait, T: Drop>(
    strides: &mut AdaptiveRadixTree<K, Stride<T>>,
    alloc: Global,
    key: &K,
    code: u8,
    target: T,
) -> Result<Option<T>, Refused<T>>
    requires { lookup (K.bytes key.now) strides.old.pairs ≢ None }
    ensures { PutsIn (K.bytes key.now) (code ∷ []) target strides.old.pairs strides.new.pairs
        result }
{
    match strides.get_mut_k(key) {
        Some(stride) => stride.insert(alloc, code, target),
        None => unreachable!(),
    }
}

// Inserts a stride of one target.
fn put_new<K: KeyTrait, T: Drop>(
    strides: &mut AdaptiveRadixTree<K, Stride<T>>,
    key: &K,
    code: u8,
    target: T,
) -> Result<Option<T>, Refused<T>>
    requires { lookup (K.bytes key.now) strides.old.pairs ≡ None }
    ensures { PutsTarget (K.bytes key.now) (code ∷ []) target strides.old.pairs strides.new.pairs
        result }
{
    match strides.insert_k(key, Stride::new(code, target)) {
        Ok(_) => Ok(None),
        Err(refused) => match refused.value.into_only(code) {
            Some(target) => Err(Refused {
                error: refused.error,
                value: target,
            }),
            None => unreachable!(),
        },
    }
}

// Removes a target from its stride, and the stride if this was its only target.
fn take_target<K: KeyTrait, T: Drop>(
    strides: &mut AdaptiveRadixTree<K, Stride<T>>,
    key: &K,
    code: u8,
) -> Result<Option<T>, TreeError>
    ensures { TakesTarget (K.bytes key.now) (code ∷ []) strides.old.pairs strides.new.pairs result }
{
    strides.canonical();
    let Some(stride) = strides.get_k(key) else {
        return Ok(None);
    };
    stride.ascends();
    let Some(_target) = stride.get(code) else {
        return Ok(None);
    };
    if stride.len() == 1 {
        take_stride(strides, key, code)
    } else {
        take_from(strides, key, code)
    }
}

// Removes a stride and returns its only target.
fn take_stride<K: KeyTrait, T: Drop>(
    strides: &mut AdaptiveRadixTree<K, Stride<T>>,
    key: &K,
    code: u8,
) -> Result<Option<T>, TreeError>
    requires stored { lookup (code ∷ []) (stride_at (K.bytes key.now) strides.old.pairs) ≢ None }
    requires only { length (stride_at (K.bytes key.now) strides.old.pairs) ≡ 1 }
    ensures { TakesTarget (K.bytes key.now) (code ∷ []) strides.old.pairs strides.new.pairs result }
{
    match strides.remove_k(key) {
        Ok(Some(stride)) => Ok(stride.into_only(code)),
        Ok(None) => unreachable!(),
        Err(error) => Err(error),
    }
}

// Removes a target from a stride that has others.
fn take_from<K: KeyTrait, T: Drop>(
    strides: &mut AdaptiveRadixTree<K, Stride<T>>,
    key: &K,
    code: u8,
) -> Result<Option<T>, TreeError>
    requires { lookup (K.bytes key.now) strides.old.pairs ≢ None }
    ensures { TakesFrom (K.bytes key.now) (code ∷ []) strides.old.pairs strides.new.pairs result }
{
    match strides.get_mut_k(key) {
        Some(stride) => Ok(stride.remove(code)),
        None => unreachable!(),
    }
}
