//! What a widget shows of a text that several widgets share: whole lines between two limits (Tk text manual, "Peer
//! widgets"). Lines count from 1 and places from 0, both in the whole text. No call takes memory, and
//! `Limits::with_lines` alone refuses.
#![tactic(auto)]

pub mod choice;
pub mod laws;
pub mod limits;
pub mod stretch;

pub use choice::Choice;
pub use limits::Limits;
pub use stretch::Stretch;
