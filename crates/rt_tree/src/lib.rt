//! The cells of a text in a counted B-tree of runs.
#![tactic(auto)]

mod back;
mod change;
mod copy;
mod cut;
mod extend;
mod find;
mod gather;
mod homes;
pub mod looks;
mod near;
pub mod node;
pub mod node_entry;
mod note;
mod put;
mod reach;
mod regrow;
mod resum;
mod room;
mod run_with;
pub mod seeks;
mod settle;
mod skip;
mod splice;
mod split;
pub mod store;
mod summaries;
pub mod summary;
mod summed;
mod sums;
mod tally;
mod totals;
pub mod tree;
pub mod up;
mod update;
pub mod walk;

pub use looks::{Counted, CountedTags, Looks, Sight};
pub use node::{CountedBy, Counts, Entry, Head, Run, Totals};
pub use node_entry::NodeEntry;
pub use seeks::seek;
pub use store::TreeStore;
pub use tree::Tree;
pub use up::ascend;
pub use update::CellUpdate;
pub use walk::{Spot, descend};
