//! Splits of a subtree into the pairs of a part of its keys and all others: a plan, which allocates, and then the
//! moves, which can't fail.

// A plan visits the nodes on the paths to the ends of the part and their children. It pushes the step of a node after
// those of its children. The moves pop the steps, so they visit a node first, and then its children from the last on.

ghost use Rattle.std.specs.Prelude.{◌≡◌, ◌≢◌, ◌+◌, ◌<◌, ◌≤◌, ℕ, Bool, List, [], IfErr, IfOk, IfSome, None, OnOk, false};
ghost use Rattle.std.specs.Prelude.{is_some, length, nat_lt, not, reverse, true, ◌&&◌, ◌∷◌, ◌||◌};
ghost use Rattle.rart_keys.specs.KeyBytes.{IsWithin};
ghost use Rattle.rart_keys.specs.SortedMap.{longest_key};
ghost use Rattle.rart_parts.specs.Entries.{child_at};
ghost use Rattle.rart_parts.specs.Errors.{IsMemory};
ghost use Rattle.rart_trie.specs.declared.node.edits.split.Step.TheVariants.{Split, Whole};
ghost use Rattle.rart_trie.specs.edits.Splits.{AddsOwn, AreSides, HasSlot, IsFound, LosesChild, MakesNode, SplitsBy};
ghost use Rattle.rart_trie.specs.edits.Splits.{TakesChild, child_where, complement, option_where, side_node};
ghost use Rattle.rart_trie.specs.edits.Splits.{trie_where};
ghost use Rattle.rart_trie.specs.ranges.Parts.{is_in_part};
ghost use Rattle.rart_trie.specs.storages.Stored.{HoldsSo, StoresSo, child_entries, stored_value};
ghost use Rattle.rart_trie.specs.tries.Trie.{IsCanonical, pairs_of, prefix_of};

use crate::node::DefaultNode;
use crate::node::edits::builder::{Bare, drop_node};
use crate::node::ends::copy_of;
use crate::node::part::Part;
use crate::node::storage::Storage;
use rart_keys::Partial;
use rart_parts::TreeError;
use std::alloc::Global;

/// Which sides of a split have a pair of a subtree.
#[derive(Clone, Copy)]
pub(super) struct Presence {
    inside: bool,
    outside: bool,
}

/// Both sides of a node, without its prefix.
#[derive(Drop)]
pub(super) struct Sides<P: Partial, V> {
    // whether the node's own value goes inside
    value_inside: bool,
    inside: Bare<P, V>,
    outside: Bare<P, V>,
}

/// What is done with a node.
#[derive(Drop)]
pub(super) enum Step<P: Partial, V> {
    /// It moves as it is, inside or outside.
    Whole(bool),
    /// Its value and its children go to these empty storages.
    Split(Sides<P, V>),
}

/// Returns a count of children before a byte, with one more if the child at the byte is `found` too.
fn counted(count: usize, byte: u8, found: bool) -> usize
    requires { count ≤ byte }
    ensures more { found ≡ true → result ≡ count + 1 }
    ensures same { found ≡ false → result ≡ count }
    ensures few { result ≤ 256 }
{
    if found { count + 1 } else { count }
}

/// Adds a step.
fn push_step<P: Partial, V: Drop>(
    steps: &mut Vec<Step<P, V>>,
    step: Step<P, V>,
) -> Result<(), TreeError>
    ensures pushed { OnOk result (reverse steps.new.items ≡ step ∷ reverse steps.old.items) }
    ensures memory { IfErr result IsMemory }
{
    match steps.push(step) {
        Ok(()) => Ok(()),
        Err(_) => Err(TreeError::Memory),
    }
}

/// Adds the step of a node that is all on one side.
fn plan_whole<P: Partial, V: Drop>(
    steps: &mut Vec<Step<P, V>>,
    is_inside: bool,
) -> Result<Presence, TreeError>
    ensures pushed { OnOk result
        (reverse steps.new.items ≡ Whole is_inside ∷ reverse steps.old.items) }
    ensures inside { IfOk result (λ r. r.inside ≡ is_inside) }
    ensures outside { IfOk result (λ r. r.outside ≡ not is_inside) }
    ensures memory { IfErr result IsMemory }
{
    push_step(steps, Step::Whole(is_inside))?;
    Ok(Presence {
        inside: is_inside,
        outside: !is_inside,
    })
}

/// Returns which sides have a pair of a node, by the numbers of its children that have one.
fn sides_found(value_inside: bool, has_value: bool, inside: usize, outside: usize) -> Presence
    ensures inside { result.inside ≡ nat_lt 0 inside || (value_inside && has_value) }
    ensures outside { result.outside ≡ nat_lt 0 outside || (not value_inside && has_value) }
{
    Presence {
        inside: inside > 0 || (value_inside && has_value),
        outside: outside > 0 || (!value_inside && has_value),
    }
}

/// Adds the step of a node, by the numbers of its children that have pairs inside and outside. If the node is all on
/// one side, drops the steps of its children, those from `start` on.
fn push_own<P: Partial, V: Drop>(
    alloc: Global,
    value_inside: bool,
    inside: usize,
    outside: usize,
    found: Presence,
    start: usize,
    steps: &mut Vec<Step<P, V>>,
) -> Result<(), TreeError>
    requires inside { inside ≤ 256 }
    requires outside { outside ≤ 256 }
    ensures own { OnOk result
        (AddsOwn value_inside inside outside found start steps.old.items steps.new.items) }
    ensures memory { IfErr result IsMemory }
{
    if !found.inside || !found.outside {
        steps.truncate(start);
        return push_step(steps, Step::Whole(found.inside));
    }
    let sides = Sides {
        value_inside,
        inside: Storage::for_children(alloc, inside)?,
        outside: Storage::for_children(alloc, outside)?,
    };
    push_step(steps, Step::Split(sides))
}

/// Adds a child to a storage, if there is one.
fn add_child<P: Partial, V>(storage: &mut Bare<P, V>, byte: u8, child: Option<DefaultNode<P, V>>)
    requires slot { HasSlot byte child storage.old }
    ensures added { TakesChild byte child storage.old storage.new }
{
    match child {
        Some(child) => storage.add_within(byte, child),
        None => {}
    }
}

/// Moves the child at a byte to one side.
// Not inline: so a level of the recursion that calls it takes less of the stack.
#[inline(never)]
fn move_child<P: Partial, V: Drop>(
    storage: &mut Storage<P, V, DefaultNode<P, V>>,
    byte: u8,
    is_inside: bool,
    sides: &mut Sides<P, V>,
)
    requires inside { HasSlot byte (child_where is_inside byte storage.old) sides.old.inside }
    requires outside { HasSlot byte (child_where (not is_inside) byte storage.old)
        sides.old.outside }
    ensures rest { LosesChild byte storage.old storage.new }
    ensures inside { TakesChild byte (child_where is_inside byte storage.old) sides.old.inside
        sides.new.inside }
    ensures outside { TakesChild byte (child_where (not is_inside) byte storage.old)
        sides.old.outside sides.new.outside }
{
    let child = storage.delete_within(byte);
    if is_inside {
        add_child(&mut sides.inside, byte, child);
    } else {
        add_child(&mut sides.outside, byte, child);
    }
}

/// Returns the node with this prefix over the value and the children of a storage, if it has any.
fn node_of_side<P: Partial, V: Drop>(prefix: &P, storage: Bare<P, V>) -> Option<DefaultNode<P, V>>
    requires { MakesNode P.MAXIMUM_SIZE (P.bytes prefix.now) storage }
    ensures { result ≡ side_node (P.bytes prefix.now) storage }
{
    if storage.num_children() == 0 && !storage.has_value() {
        return None;
    }
    let mut node = DefaultNode {
        storage: storage.with_prefix(copy_of(prefix)),
    };
    node.merge_with_only_child();
    Some(node)
}

/// Replaces the child at a byte, whose sides are `below`, by a child of each side that has a pair.
// Not inline: so a level of the recursion that calls it takes less of the stack.
#[inline(never)]
fn add_sides<P: Partial, V: Drop>(
    storage: &mut Storage<P, V, DefaultNode<P, V>>,
    byte: u8,
    below: Sides<P, V>,
    sides: &mut Sides<P, V>,
)
    requires stored { child_at byte (child_entries storage.old) ≢ None }
    requires makes_inside { IfSome (child_at byte (child_entries storage.old))
        (λ c. MakesNode P.MAXIMUM_SIZE (prefix_of c) below.inside) }
    requires makes_outside { IfSome (child_at byte (child_entries storage.old))
        (λ c. MakesNode P.MAXIMUM_SIZE (prefix_of c) below.outside) }
    requires inside { IfSome (child_at byte (child_entries storage.old))
        (λ c. HasSlot byte (side_node (prefix_of c) below.inside) sides.old.inside) }
    requires outside { IfSome (child_at byte (child_entries storage.old))
        (λ c. HasSlot byte (side_node (prefix_of c) below.outside) sides.old.outside) }
    ensures rest { LosesChild byte storage.old storage.new }
    ensures inside { IfSome (child_at byte (child_entries storage.old)) (λ c. TakesChild byte
        (side_node (prefix_of c) below.inside) sides.old.inside sides.new.inside) }
    ensures outside { IfSome (child_at byte (child_entries storage.old)) (λ c. TakesChild byte
        (side_node (prefix_of c) below.outside) sides.old.outside sides.new.outside) }
{
    match storage.delete_within(byte) {
        Some(child) => {
            let inside = node_of_side(child.prefix(), below.inside);
            let outside = node_of_side(child.prefix(), below.outside);
            add_child(&mut sides.inside, byte, inside);
            add_child(&mut sides.outside, byte, outside);
            drop_node(child);
        }
        None => unreachable!(),
    }
}

/// Moves the value of a node to its side.
// Not inline: so a level of the recursion that calls it takes less of the stack.
#[inline(never)]
fn with_own<P: Partial, V: Drop>(
    storage: &mut Storage<P, V, DefaultNode<P, V>>,
    sides: Sides<P, V>,
) -> Sides<P, V>
    requires inside { stored_value sides.inside ≡ None }
    requires outside { stored_value sides.outside ≡ None }
    ensures inside { HoldsSo sides.inside
        (option_where sides.value_inside (stored_value storage.old)) result.inside }
    ensures outside { HoldsSo sides.outside
        (option_where (not sides.value_inside) (stored_value storage.old)) result.outside }
    ensures rest { HoldsSo storage.old None storage.new }
{
    let Sides {
        value_inside,
        inside,
        outside,
    } = sides;
    let Some(value) = storage.take_value() else {
        return Sides {
            value_inside,
            inside,
            outside,
        };
    };
    if value_inside {
        Sides {
            value_inside,
            inside: inside.with_value(value),
            outside,
        }
    } else {
        Sides {
            value_inside,
            inside,
            outside: outside.with_value(value),
        }
    }
}

impl<P: Partial, V: Drop> DefaultNode<P, V> {
    /// Adds the steps that split the node by a part, and allocates the storages that they need.
    pub(super) fn plan(
        &self,
        alloc: Global,
        part: Part<'_>,
        steps: &mut Vec<Step<P, V>>,
    ) -> Result<Presence, TreeError>
        requires canonical { IsCanonical self.now }
        ensures planned { OnOk result (SplitsBy (is_in_part part.entry) self.now
            (reverse steps.new.items) (reverse steps.old.items)) }
        ensures found { IfOk result (IsFound (is_in_part part.entry) self.now) }
        ensures memory { IfErr result IsMemory }
    {
        if let Some(is_inside) = part.holds_all() {
            return plan_whole(steps, is_inside);
        }
        let start = steps.len();
        let within = part.after_prefix(self.storage.prefix());
        let mut inside: usize = 0;
        let mut outside: usize = 0;
        let mut children = self.storage.iter();
        while let Some((byte, child)) = children.take_next() {
            let found = child.plan(alloc, within.at_child(byte), steps)?;
            inside = counted(inside, byte, found.inside);
            outside = counted(outside, byte, found.outside);
        }
        let value_inside = within.holds_empty();
        let found = sides_found(value_inside, self.storage.has_value(), inside, outside);
        push_own(alloc, value_inside, inside, outside, found, start, steps)?;
        Ok(found)
    }

    /// Moves the value and the children of the node to its sides, as the steps of a plan say.
    // A level holds three pairs of sides, each of which has room for a value.
    pub(super) fn move_to_sides(
        &mut self,
        steps: &mut Vec<Step<P, V>>,
        sides: Sides<P, V>,
    ) -> Sides<P, V>
        requires canonical { IsCanonical self.old }
        requires within { IsWithin P.MAXIMUM_SIZE (longest_key (pairs_of self.old)) }
        requires planned { (t : List ℕ → Bool) × ((rest : List _) × SplitsBy t self.old
            (Split sides ∷ reverse steps.old.items) rest) }
        ensures sides { (t : List ℕ → Bool) (rest : List _) → SplitsBy t self.old
            (Split sides ∷ reverse steps.old.items) rest
            → (reverse steps.new.items ≡ rest) × AreSides t self.old result }
        ensures prefix { prefix_of self.new ≡ prefix_of self.old }
    {
        let mut sides = with_own(&mut self.storage, sides);
        while let Some((byte, _)) = self.storage.last_child() {
            match steps.take_last() {
                Step::Whole(is_inside) => {
                    move_child(&mut self.storage, byte, is_inside, &mut sides);
                }
                Step::Split(empty) => {
                    let below = match self.storage.seek_child_mut(byte) {
                        Some(child) => child.move_to_sides(steps, empty),
                        None => unreachable!(),
                    };
                    add_sides(&mut self.storage, byte, below, &mut sides);
                }
            }
        }
        sides
    }

    /// Splits the node as the steps of a plan say, and returns its nodes inside and outside.
    pub(super) fn split_by_plan(
        &mut self,
        steps: &mut Vec<Step<P, V>>,
        sides: Sides<P, V>,
    ) -> (Option<Self>, Option<Self>)
        requires canonical { IsCanonical self.old }
        requires within { IsWithin P.MAXIMUM_SIZE (longest_key (pairs_of self.old)) }
        requires planned { (t : List ℕ → Bool) × SplitsBy t self.old
            (Split sides ∷ reverse steps.old.items) [] }
        ensures sides { (t : List ℕ → Bool) → SplitsBy t self.old
            (Split sides ∷ reverse steps.old.items) [] → (result.0 ≡ trie_where t self.old)
            × (result.1 ≡ trie_where (complement t) self.old) }
    {
        let Sides {
            value_inside: _,
            inside,
            outside,
        } = self.move_to_sides(steps, sides);
        let inside = node_of_side(self.prefix(), inside);
        let outside = node_of_side(self.prefix(), outside);
        (inside, outside)
    }
}
