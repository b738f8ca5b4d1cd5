//! The undo stacks of a site: groups of actions by stamps, and the modified flag (Tk text manual, "The
//! undo mechanism"). The definitions stand in `specs/Undo.antt`.
#![tactic(auto)]

pub mod action;
mod copies;
pub mod examples;
mod flag;
mod groups;
pub mod laws;
pub mod renames;
pub mod stacks;

pub use action::{Action, Kind, RemovedSpan};
pub use copies::{group_now, push_stamp, spans_now};
pub use renames::Renames;
pub use stacks::Stacks;
