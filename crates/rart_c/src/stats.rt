//! Statistics of a map.

/// The nodes of a map, counted.
#[repr(C)]
#[derive(Clone, Copy, Drop)]
pub struct RartStats {
    /// Nodes without children.
    pub leaves: usize,
    /// Nodes with a value.
    pub values: usize,
    /// Nodes with children.
    pub inner_nodes: usize,
    /// The children of all nodes.
    pub children: usize,
    /// The sum of the capacities of the inner nodes.
    pub width: usize,
    /// The most nodes on a path from the root.
    pub height: usize,
}
