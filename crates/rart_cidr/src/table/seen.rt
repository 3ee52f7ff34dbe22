//! A table whose reads of strides are counted.

// Only this module reads the strides of a seen table. It returns what a stride holds only to a caller whose counter it
// adds one to. Look-ups over it are in another module.

ghost use Rattle.std.specs.Prelude.{◌≡◌, ◌≤◌, ◌+◌, ◌*◌, ◌/◌, length, option_map};
ghost use Rattle.rart_keys.specs.SortedMap.{IsAscending};
ghost use Rattle.rart_cidr.specs.Longest.{IsLastStride};

use crate::table::BitTable;
use rart::{Count, KeyTrait};
use std::marker::{Model, PhantomData};

/// Borrows a table whose reads of strides a `C` counts.
///
/// Contracts see it as the table's routes.
#[derive(Drop)]
pub struct SeenTable<'a, K: KeyTrait, T, C> {
    table: &'a BitTable<K, T>,
    of: PhantomData<C>,
}

impl<'a, K: KeyTrait, T, C> Model for SeenTable<'a, K, T, C> {
    ghost use Rattle.std.specs.Prelude.{ℕ, List};

    ghost Value = { List (List ℕ × T) };

    ghost view = { λ s. s.table.now };
}

impl<K: KeyTrait, T> BitTable<K, T> {
    /// Returns a view of the table that counts its reads of strides in a `C`.
    pub fn seen<C>(&self) -> SeenTable<'_, K, T, C>
        ensures { result ≡ self.now }
    {
        SeenTable {
            table: self,
            of: PhantomData,
        }
    }
}

impl<'a, K: KeyTrait, T, C: Count> SeenTable<'a, K, T, C> {
    /// Proves that the routes ascend by the bits of their networks. Does nothing at run time.
    pub fn ascends(&self)
        ensures { IsAscending self.now }
    {
        self.table.ascends();
    }

    /// Returns the number of octets of the longest stride that the first `at` octets begin with, and the longest
    /// network in it that the first `bits` bits begin with. One descent skips the numbers of octets without a stride.
    ///
    /// # Visits
    ///
    /// One stride. `nodes` counts the nodes of the map of strides, at most one more than `at`.
    pub(super) fn last_stride(
        &self,
        octets: &[u8],
        bits: usize,
        at: usize,
        nodes: &mut C,
        strides: &mut C,
    ) -> Option<(usize, Option<(usize, &'a T)>)>
        requires bits { bits ≤ 8 * length octets.now }
        requires at { at ≤ bits / 8 }
        ensures value { IsLastStride self.now octets.now bits at
            (option_map (λ p. (p.0, option_map (λ q. (q.0, q.1.now)) p.1)) result) }
        ensures node_visits { C.number nodes.new ≤ C.number nodes.old + (at + 1) }
        ensures stride_visits { C.number strides.new ≤ C.number strides.old + 1 }
    {
        strides.add_one();
        self.table.last_stride(octets, bits, at, nodes)
    }
}
