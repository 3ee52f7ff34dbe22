//! The counters for the statistics of a tree; only the conversion to statistics allocates.
ghost use Rattle.std.specs.Prelude.{◌≡◌, ◌+◌, ◌≤◌, IfErr, IfOk, OnErr, OnOk};
ghost use Rattle.rart_parts.specs.Errors.{IsMemory};
ghost use Rattle.rart_trie.specs.stats.CountedNodes.{children_counted, sum_of_counts, counts_by, counts_of_node};
ghost use Rattle.rart_trie.specs.stats.CountedNodes.{counts_sum, inner_counted, stats_of_counts, counted_width};
ghost use Rattle.rart_trie.specs.stats.CountedNodes.{with_width};
ghost use Rattle.rart_trie.specs.stats.Stats.{one_if, stats_in};

use crate::stats::{NodeStats, TreeStats};
use rart_parts::TreeError;
use std::alloc::Global;
use std::collections::BTreeMap;

/// Counts the inner nodes of one capacity, and their children.
#[derive(Drop)]
pub(crate) struct WidthCount {
    nodes: usize,
    children: usize,
}

/// Counts nodes: leaves, those that hold a value, and the inner ones by capacity.
#[derive(Drop)]
pub(crate) struct Counts {
    leaves: usize,
    values: usize,
    four: WidthCount,
    sixteen: WidthCount,
    forty_eight: WidthCount,
    full: WidthCount,
}

fn one_if(condition: bool) -> usize
    ensures { result ≡ one_if condition }
{
    if condition { 1 } else { 0 }
}

impl WidthCount {
    fn none() -> Self
        ensures { result ≡ record { nodes = 0; children = 0 } }
    {
        WidthCount {
            nodes: 0,
            children: 0,
        }
    }

    fn add_node(&mut self, children: usize)
        requires { self.old.nodes + self.old.children + 1 + children ≤ usize.MAX }
        ensures { self.new
            ≡ record { nodes = self.old.nodes + 1; children = self.old.children + children } }
    {
        self.nodes += 1;
        self.children += children;
    }

    /// Inserts the entry of the nodes of one capacity, if there are any.
    fn put_entry(
        &self,
        node_stats: &mut BTreeMap<usize, NodeStats>,
        width: usize,
    ) -> Result<(), TreeError>
        ensures put { OnOk result
            (node_stats.new.entries ≡ with_width self.now width node_stats.old.entries) }
        ensures memory { IfErr result IsMemory }
        ensures allocates { OnErr result (1 ≤ self.now.nodes) }
    {
        if self.nodes == 0 {
            return Ok(());
        }
        let entry = NodeStats {
            width,
            total_nodes: self.nodes,
            total_children: self.children,
        };
        match node_stats.insert(width, entry) {
            Ok(_old) => Ok(()),
            Err(_refused) => Err(TreeError::Memory),
        }
    }
}

impl Counts {
    /// Returns the counts of no node.
    pub(crate) fn none() -> Self
        ensures { result ≡ counts_by (λ m. 0) }
    {
        Counts {
            leaves: 0,
            values: 0,
            four: WidthCount::none(),
            sixteen: WidthCount::none(),
            forty_eight: WidthCount::none(),
            full: WidthCount::none(),
        }
    }

    /// Counts a node of capacity `width`.
    pub(crate) fn add_node(&mut self, holds_value: bool, width: usize, children: usize)
        requires { counts_sum self.old + 3 + children ≤ usize.MAX }
        ensures { self.new ≡ sum_of_counts self.old (counts_of_node holds_value width children) }
    {
        self.leaves += one_if(children == 0);
        self.values += one_if(holds_value);
        match width {
            4 => self.four.add_node(children),
            16 => self.sixteen.add_node(children),
            48 => self.forty_eight.add_node(children),
            256 => self.full.add_node(children),
            _ => {}
        }
    }

    fn inner_nodes(&self) -> usize
        requires { counts_sum self.now ≤ usize.MAX }
        ensures { result ≡ inner_counted self.now }
    {
        self.four.nodes + self.sixteen.nodes + self.forty_eight.nodes + self.full.nodes
    }

    fn total_children(&self) -> usize
        requires { counts_sum self.now ≤ usize.MAX }
        ensures { result ≡ children_counted self.now }
    {
        self.four.children + self.sixteen.children + self.forty_eight.children + self.full.children
    }

    fn total_width(&self) -> usize
        requires { counted_width self.now ≤ usize.MAX }
        ensures { result ≡ counted_width self.now }
    {
        4 * self.four.nodes
            + 16 * self.sixteen.nodes
            + 48 * self.forty_eight.nodes
            + 256 * self.full.nodes
    }

    /// Returns the statistics of the counted nodes in a tree of height `height`.
    ///
    /// # Errors
    ///
    /// [`TreeError::Memory`] if an inner node was counted and an allocation fails.
    pub(crate) fn to_stats(&self, alloc: Global, height: usize) -> Result<TreeStats, TreeError>
        requires counts { counts_sum self.now ≤ usize.MAX }
        requires width { counted_width self.now ≤ usize.MAX }
        ensures value { IfOk result (λ s. stats_in s ≡ stats_of_counts self.now height) }
        ensures memory { IfErr result IsMemory }
        ensures allocates { OnErr result (1 ≤ inner_counted self.now) }
    {
        let mut node_stats = BTreeMap::new(alloc);
        self.four.put_entry(&mut node_stats, 4)?;
        self.sixteen.put_entry(&mut node_stats, 16)?;
        self.forty_eight.put_entry(&mut node_stats, 48)?;
        self.full.put_entry(&mut node_stats, 256)?;
        Ok(TreeStats {
            node_stats,
            num_leaves: self.leaves,
            num_values: self.values,
            num_inner_nodes: self.inner_nodes(),
            total_children: self.total_children(),
            total_width: self.total_width(),
            max_height: height,
        })
    }
}
