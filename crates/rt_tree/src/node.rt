// What nodes keep.
use crate::node_entry::NodeEntry;
use rt_nodes::{NodeId, NodeMem};
use rt_tags::StateId;

/// Cells of one site with consecutive counts, all gone or none of them, in one state. No character
/// but the last one may be a newline.
#[derive(Clone, Copy, Debug, PartialEq, Eq)]
pub struct Run {
    /// The count of the first cell.
    pub first: u64,
    pub state: StateId,
    /// Where the characters begin in the text that is kept beside the nodes.
    pub at: u32,
    /// How many cells there are, 1 or more.
    pub len: u32,
    pub site: u32,
    pub gone: bool,
    /// Whether the last character is a newline.
    pub newline: bool,
}

/// How many cells there are, how many of them are visible, and how many of these are newlines.
#[derive(Clone, Copy, Debug, PartialEq, Eq)]
pub struct Counts {
    pub cells: u32,
    pub visible: u32,
    pub newlines: u32,
}

/// What runs add up to: their counts, and the least of the stamps of their first cells.
#[derive(Clone, Copy, Debug, PartialEq, Eq)]
pub struct Totals {
    pub least_count: u64,
    pub counts: Counts,
    pub least_site: u32,
}

/// An entry of a leaf is a run; one of a node above is a node one level down, with what the runs
/// below that add up to.
#[derive(Clone, Copy, Debug, PartialEq, Eq)]
pub enum Entry {
    Down(NodeId, Totals),
    Here(Run),
}

/// The header of a node.
#[derive(Clone, Copy, Debug, PartialEq, Eq)]
pub struct Head {
    /// The node one level up that has an entry for this one; nobody reads it at the root.
    pub parent: NodeId,
    /// How many levels the node is above the leaves.
    pub level: u32,
}

/// One of the three counts.
#[derive(Clone, Copy, Debug, PartialEq, Eq)]
pub enum CountedBy {
    Cells,
    Visible,
    Newlines,
}

/// The nodes of a tree, with at most sixteen entries each.
pub type Mem = NodeMem<Head, NodeEntry, 16>;
