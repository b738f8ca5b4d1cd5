//! Edits of a text with what its site records of them for undo (Tk text manual, "The undo mechanism"):
//! insertions, removals, replacements, operations of other sites, undo and redo. The definitions stand in
//! `specs/Recordings.antt`, `specs/Edits.antt` and `specs/Reverts.antt`.
#![tactic(auto)]

mod before;
mod coming;
mod counting;
pub mod editing;
pub mod laws;
mod noting;
mod own;
pub mod recorder;
pub mod reverting;

pub use editing::{delete, insert, replace, take};
pub use recorder::Recorder;
pub use reverting::{redo, undo};
