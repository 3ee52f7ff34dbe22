//! Calls on whole tables: the last route, callbacks for each route, clones, and calls on two tables.

use crate::model::{Route, kept};
use crate::tables::version::{Version, cidr, number_of};
use crate::tables::{Table, route_of};
use rart::TreeError;
use rart_cidr::NetworkTable;
use std::alloc::AllocError;

/// The bit that callbacks of `retain` set in a target.
pub const MARK: u64 = 256;

// The target that a callback of `for_each_value_mut` writes.
fn written(old: u64, len: u8) -> u64 {
    old.wrapping_mul(1000).wrapping_add(u64::from(len))
}

/// Returns one number for the targets of both tables, below 999.
pub fn pair_number(target: Option<u64>, other: Option<u64>) -> u64 {
    let first = target.map_or(0, |target| target.wrapping_add(1));
    let second = other.map_or(0, |target| target.wrapping_add(1));
    first.wrapping_mul(1000).wrapping_add(second)
}

impl<N: Version> Table<N> {
    /// Returns the last route.
    pub fn last(&self) -> Option<Route> {
        route_of(self.routes.last())
    }

    /// Removes all routes of the other table.
    pub fn clear_other(&mut self) {
        self.other.clear();
    }

    /// Inserts a new route into the other table, and returns whether it was new.
    pub fn put_other(&mut self, route: Route) -> Result<bool, TreeError> {
        match self.other.insert(&cidr(route.0), route.1) {
            Ok(old) => Ok(old.is_none()),
            Err(refused) => Err(refused.error),
        }
    }

    /// Returns whether the tables are equal. `None` if `!=` or the other way round differs.
    pub fn equals(&self) -> Option<bool> {
        let is_equal = self.routes == self.other;
        (is_equal == (self.other == self.routes)
            && is_equal != (self.routes != self.other)
            && self.routes == self.routes).then_some(is_equal)
    }

    /// Replaces the other table by a clone.
    pub fn clone_to_other(&mut self) -> Result<(), TreeError> {
        let clone: Result<NetworkTable<N, u64>, AllocError> = self.routes.clone();
        match clone {
            Ok(clone) => {
                self.other = clone;
                Ok(())
            }
            Err(_) => Err(TreeError::Memory),
        }
    }

    /// Replaces the table by a clone of the other one.
    pub fn clone_from_other(&mut self) -> Result<(), TreeError> {
        let clone: Result<NetworkTable<N, u64>, AllocError> = self.other.clone();
        match clone {
            Ok(clone) => {
                self.routes = clone;
                Ok(())
            }
            Err(_) => Err(TreeError::Memory),
        }
    }

    /// Writes each target and its network's length as one number. Adds the old routes to `given`, which needs room.
    pub fn write_each(&mut self, given: &mut Vec<Route>) {
        self.routes.for_each_value_mut(|net: &N, target: &mut u64| {
            let _added = given.push((number_of(net), *target));
            *target = written(*target, net.len());
        });
    }

    /// As [`write_each`](Self::write_each), by reference.
    pub fn write_each_by_ref(&mut self, given: &mut Vec<Route>) {
        let mut write = |net: &N, target: &mut u64| {
            let _added = given.push((number_of(net), *target));
            *target = written(*target, net.len());
        };
        self.routes.for_each_value_mut_by_ref(&mut write);
    }

    /// Marks each target, and removes the routes with even ones. Adds the old routes to `given`, which needs room.
    pub fn keep_odd(&mut self, given: &mut Vec<Route>) -> Result<(), TreeError> {
        self.routes.retain(|net: &N, target: &mut u64| {
            let _added = given.push((number_of(net), *target));
            *target |= MARK;
            *target % 2 == 1
        })
    }

    /// Changes targets and removes routes as [`kept`] says.
    pub fn retain(&mut self) -> Result<(), TreeError> {
        self.routes.retain(|net: &N, target: &mut u64| {
            let (left, stays) = kept(&number_of(net), *target);
            *target = left;
            stays
        })
    }

    /// As [`keep_odd`](Self::keep_odd), by reference.
    pub fn keep_odd_by_ref(&mut self, given: &mut Vec<Route>) -> Result<(), TreeError> {
        let mut keeps = |net: &N, target: &mut u64| {
            let _added = given.push((number_of(net), *target));
            *target |= MARK;
            *target % 2 == 1
        };
        self.routes.retain_by_ref(&mut keeps)
    }

    /// Adds the networks that both tables have to `given`, which needs room, with a number for both targets.
    pub fn intersect(&self, given: &mut Vec<Route>) {
        self.routes
            .intersect_with(&self.other, |net: &N, target: &u64, other: &u64| {
                let number = pair_number(Some(*target), Some(*other));
                let _added = given.push((number_of(net), number));
            });
    }

    /// As [`intersect`](Self::intersect), by reference.
    pub fn intersect_by_ref(&self, given: &mut Vec<Route>) {
        let mut add = |net: &N, target: &u64, other: &u64| {
            let number = pair_number(Some(*target), Some(*other));
            let _added = given.push((number_of(net), number));
        };
        self.routes.intersect_with_by_ref(&self.other, &mut add);
    }

    /// Adds the networks that either table has to `given`, which needs room, with a number for both targets.
    pub fn unite(&self, given: &mut Vec<Route>) {
        self.routes.union_with(
            &self.other,
            |net: &N, target: Option<&u64>, other: Option<&u64>| {
                let number = pair_number(target.copied(), other.copied());
                let _added = given.push((number_of(net), number));
            },
        );
    }

    /// As [`unite`](Self::unite), by reference.
    pub fn unite_by_ref(&self, given: &mut Vec<Route>) {
        let mut add = |net: &N, target: Option<&u64>, other: Option<&u64>| {
            let number = pair_number(target.copied(), other.copied());
            let _added = given.push((number_of(net), number));
        };
        self.routes.union_with_by_ref(&self.other, &mut add);
    }
}
