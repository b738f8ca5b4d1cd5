//! Memory of nodes: each has a header and at most `CAP` entries, and is named by an id. The definitions stand in
//! `specs/Nodes.antt` and `specs/Lends.antt`.
#![tactic(auto)]

mod block;
mod claim;
mod memory;
mod raw;

// A crate can name a memory in a contract only if the types of its fields are exported.
#[doc(hidden)]
pub use block::Block;
#[doc(hidden)]
pub use claim::Claim;
pub use memory::{NodeId, NodeMem};
