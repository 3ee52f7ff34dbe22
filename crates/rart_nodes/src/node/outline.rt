//! A shared tree as text, one line for each node.
ghost use Rattle.std.specs.Prelude.{◌≡◌, ◌≤◌, ◌+◌};
ghost use Rattle.std.specs.Option.{option_copied};
ghost use Rattle.std.specs.Fmt.{DisplaysOnOk, WritesOnOk};
ghost use Rattle.rart_keys.specs.SortedMap.{longest_key};
ghost use Rattle.rart_nodes.specs.tries.SeenTrees.{seen_nodes, seen_pairs};
ghost use Rattle.rart_nodes.specs.walks.Outlined.{outline_nodes, outline_pairs};
ghost use Rattle.rart_nodes.specs.walks.Outlines.{indent, kind_text, node_line, outline_below, value_text};
ghost use Rattle.rart_trie.specs.tries.Trie.{capacity_in, children_in, children_pairs, prefix_of, value_of};

use crate::node::seen::{Entered, Seen};
use rart_keys::{KeyTrait, Partial, write_bytes};
use rart_trie::{Count, Visits};
use std::fmt;

/// Borrows a tree that is written as text by [`Display`](fmt::Display), as [`Seen::outline`] describes it.
#[derive(Drop)]
pub struct Outline<'a, K: KeyTrait, V> {
    seen: Seen<'a, K, V, Visits>,
}

/// Writes two spaces for each level.
fn write_indent<W: fmt::Write>(level: usize, f: &mut fmt::Formatter<W>) -> fmt::Result
    ensures { WritesOnOk W.write_str_gives f.old result (indent level) f.new }
{
    for _ in 0..level {
        f.write_str("  ")?;
    }
    Ok(())
}

/// Writes the kind of a node of this capacity.
fn write_kind<W: fmt::Write>(capacity: usize, f: &mut fmt::Formatter<W>) -> fmt::Result
    ensures { WritesOnOk W.write_str_gives f.old result (kind_text capacity) f.new }
{
    if capacity == 0 {
        return f.write_str("Leaf");
    }
    write!(f, "Node{capacity}")
}

/// Writes `=` and the value, if there is one.
fn write_value<V: fmt::Display, W: fmt::Write>(
    value: Option<&V>,
    f: &mut fmt::Formatter<W>,
) -> fmt::Result
    ensures { DisplaysOnOk W.write_str_gives f.old result
        (value_text V.output (option_copied value.entry)) f.new }
{
    match value {
        None => Ok(()),
        Some(value) => write!(f, "={value}"),
    }
}

/// Writes the line of a visited node.
// Not inline: the recursion that calls it holds nothing on the stack of what it writes.
#[inline(never)]
fn write_line<P: Partial, V: fmt::Display, C, W: fmt::Write>(
    at: Entered<'_, P, V, C>,
    level: usize,
    f: &mut fmt::Formatter<W>,
) -> fmt::Result
    ensures { DisplaysOnOk W.write_str_gives f.old result
        (node_line V.output level (prefix_of at.entry.node.now) (value_of at.entry.node.now)
        (capacity_in at.entry.node.now)) f.new }
{
    write_indent(level, f)?;
    write_kind(at.capacity(), f)?;
    f.write_str(" \"")?;
    write_bytes(at.prefix().to_slice(), f)?;
    f.write_str("\"")?;
    write_value(at.value(), f)?;
    f.write_str("\n")
}

/// Writes the lines of a visited node and of all nodes below it.
fn write_below<P: Partial, V: fmt::Display, C: Count, W: fmt::Write>(
    at: Entered<'_, P, V, C>,
    level: usize,
    counter: &mut C,
    f: &mut fmt::Formatter<W>,
) -> fmt::Result
    requires { level + longest_key (children_pairs (children_in at.node.now)) ≤ usize.MAX }
    ensures { DisplaysOnOk W.write_str_gives f.old result
        (outline_below V.output level at.entry.node.now) f.new }
{
    write_line(at, level, f)?;
    let mut rest = at.branches();
    while let Some(child) = rest.enter_next(counter) {
        write_below(child, level + 1, counter, f)?;
    }
    Ok(())
}

impl<'a, K: KeyTrait, V> Seen<'a, K, V, Visits> {
    /// Returns the tree as text, to be written by [`Display`](fmt::Display).
    ///
    /// Each node has one line: its kind, its prefix in quotes, and `=` with its value if it has one. The bytes of a
    /// prefix are written as those of a key. A node is followed by its children, which are indented by two spaces more.
    /// An empty tree has no line.
    ///
    /// Neither this call nor the writing allocates. The writing recurses once a level of nodes.
    ///
    /// # Visits
    ///
    /// None. The writing visits each node once.
    pub fn outline(self) -> Outline<'a, K, V>
        ensures pairs { outline_pairs result ≡ seen_pairs self.entry }
        ensures nodes { outline_nodes result ≡ seen_nodes self.entry }
    {
        Outline { seen: self }
    }
}

/// Writes `listed_outline` of the pairs and of the records of the nodes. It fails when the writer fails, and writes no
/// more then.
impl<'a, K: KeyTrait, V: fmt::Display> fmt::Display for Outline<'a, K, V> {
    ghost use Rattle.rart_nodes.specs.walks.Outlined.{outline_nodes, outline_pairs};
    ghost use Rattle.rart_nodes.specs.walks.Outlines.{listed_outline};

    ghost output = { λ outline. listed_outline V.output (outline_pairs outline) (outline_nodes outline) };

    fn fmt<W: fmt::Write>(&self, f: &mut fmt::Formatter<W>) -> fmt::Result {
        // its contract says that no key is longer than a level can be
        self.seen.longest();
        match self.seen.top() {
            None => Ok(()),
            Some(top) => {
                let mut counter = Visits::new();
                write_below(top.enter(&mut counter), 0, &mut counter, f)
            }
        }
    }
}
