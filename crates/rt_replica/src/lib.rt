//! Replicated text without a widget: a replica that takes operations in any order, and tells what each of them changes.
#![tactic(auto)]

pub mod laws;
pub mod replica;
mod taken;
mod telling;

pub use replica::HoldingReplica;
pub use taken::{Made, Taken};
