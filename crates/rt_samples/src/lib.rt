//! What tests share: files of a few operations, and readers and writers that give pieces or fail.
#![tactic(auto)]

pub mod ends;
pub mod files;

pub use ends::{Output, Pieces, Repeated};
