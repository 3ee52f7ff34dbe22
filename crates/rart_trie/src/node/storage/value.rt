//! The value of a storage.
ghost use Rattle.std.specs.Prelude.{◌≡◌, [], None, Some};
ghost use Rattle.std.specs.Borrow.{sem};
ghost use Rattle.std.specs.Option.{is_some, option_copied, option_copied_mut};
ghost use Rattle.rart_trie.specs.storages.Lends.{lends_value};
ghost use Rattle.rart_trie.specs.storages.Stored.{HoldsSo, child_entries, stored_value};

use crate::node::fill::fill;
use crate::node::storage::prefix::take_prefix;
use crate::node::storage::{Kind, Storage};
use rart_keys::Partial;
use std::mem;

impl<P, V, N> Storage<P, V, N> {
    /// Returns the value.
    pub(crate) fn value(&self) -> Option<&V>
        ensures { option_copied result ≡ stored_value self.now }
    {
        match &self.kind {
            Kind::Empty(_) => None,
            Kind::Leaf(_, value) => Some(value),
            Kind::Node4(_, _, map) => map.head().as_ref(),
            Kind::Node16(_, map) => map.extra().as_ref(),
            Kind::Node48(_, map) => map.extra().as_ref(),
            Kind::Node256(_, map) => map.extra().as_ref(),
        }
    }

    /// Returns whether there is a value.
    pub(crate) fn has_value(&self) -> bool
        ensures { result ≡ is_some (stored_value self.now) }
    {
        match &self.kind {
            Kind::Empty(_) => false,
            Kind::Leaf(_, _) => true,
            Kind::Node4(_, _, map) => map.head().is_some(),
            Kind::Node16(_, map) => map.extra().is_some(),
            Kind::Node48(_, map) => map.extra().is_some(),
            Kind::Node256(_, map) => map.extra().is_some(),
        }
    }

    /// Returns a mutable borrow of the value.
    pub(crate) fn value_mut(&mut self) -> Option<&mut V>
        ensures* writes_back { sem 𝓛 (lends_value P.row V.row N.row self.entry result) }
        ensures value { option_copied_mut result ≡ stored_value self.old }
    {
        match &mut self.kind {
            Kind::Empty(_) => None,
            Kind::Leaf(_, value) => Some(value),
            Kind::Node4(_, _, map) => match map.head_mut() {
                Some(value) => Some(value),
                None => None,
            },
            Kind::Node16(_, map) => match map.extra_mut() {
                Some(value) => Some(value),
                None => None,
            },
            Kind::Node48(_, map) => match map.extra_mut() {
                Some(value) => Some(value),
                None => None,
            },
            Kind::Node256(_, map) => match map.extra_mut() {
                Some(value) => Some(value),
                None => None,
            },
        }
    }
}

impl<P: Partial, V, N> Storage<P, V, N> {
    /// Stores `value` and returns the old value. It does not allocate.
    pub(crate) fn replace_value(&mut self, value: V) -> Option<V>
        ensures taken { result ≡ stored_value self.old }
        ensures stored { HoldsSo self.old (Some value) self.new }
    {
        match &mut self.kind {
            Kind::Empty(prefix) => {
                let prefix = take_prefix(prefix);
                mem::replace(self, Storage::leaf(prefix, value)).into_value()
            }
            Kind::Leaf(_, old) => Some(mem::replace(old, value)),
            Kind::Node4(_, _, map) => map.head_mut().replace(value),
            Kind::Node16(_, map) => map.extra_mut().replace(value),
            Kind::Node48(_, map) => map.extra_mut().replace(value),
            Kind::Node256(_, map) => map.extra_mut().replace(value),
        }
    }

    /// Stores `value` where there is none. It does not allocate.
    pub(crate) fn fill_value(&mut self, value: V)
        requires { stored_value self.old ≡ None }
        ensures { HoldsSo self.old (Some value) self.new }
    {
        match self.replace_value(value) {
            None => {}
            Some(_) => unreachable!(),
        }
    }

    /// Removes the value and returns it.
    pub(crate) fn take_value(&mut self) -> Option<V>
        ensures taken { result ≡ stored_value self.old }
        ensures emptied { HoldsSo self.old None self.new }
    {
        match &mut self.kind {
            Kind::Empty(_) => None,
            Kind::Leaf(prefix, _) => {
                let prefix = take_prefix(prefix);
                mem::replace(self, Storage::empty(prefix)).into_value()
            }
            Kind::Node4(_, _, map) => map.head_mut().take(),
            Kind::Node16(_, map) => map.extra_mut().take(),
            Kind::Node48(_, map) => map.extra_mut().take(),
            Kind::Node256(_, map) => map.extra_mut().take(),
        }
    }

    /// Returns the value of storage without a child, and frees it.
    pub(crate) fn into_value(self) -> Option<V>
        requires { child_entries self ≡ [] }
        ensures { result ≡ stored_value self }
    {
        match self.kind {
            Kind::Empty(_) => None,
            Kind::Leaf(_, value) => Some(value),
            Kind::Node4(_, keys, map) => keys.destroy_empty(map),
            Kind::Node16(_, map) => map.destroy_empty(),
            Kind::Node48(_, map) => map.destroy_empty(),
            Kind::Node256(_, map) => map.destroy_empty(),
        }
    }
}

impl<V, N> Storage<(), V, N> {
    /// Returns the storage, which has no value, with one. It does not allocate.
    pub(crate) fn with_value(self, value: V) -> Self
        requires { stored_value self ≡ None }
        ensures { HoldsSo self (Some value) result }
    {
        let kind = match self.kind {
            Kind::Empty(()) => Kind::Leaf((), value),
            Kind::Leaf((), _) => unreachable!(),
            Kind::Node4((), keys, map) => {
                let mut map = map;
                fill(map.head_mut(), Some(value));
                Kind::Node4((), keys, map)
            }
            Kind::Node16((), map) => {
                let mut map = map;
                fill(map.extra_mut(), Some(value));
                Kind::Node16((), map)
            }
            Kind::Node48((), map) => {
                let mut map = map;
                fill(map.extra_mut(), Some(value));
                Kind::Node48((), map)
            }
            Kind::Node256((), map) => {
                let mut map = map;
                fill(map.extra_mut(), Some(value));
                Kind::Node256((), map)
            }
        };
        Storage { kind }
    }
}
