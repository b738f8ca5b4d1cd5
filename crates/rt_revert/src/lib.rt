//! Undo and redo of a document: groups of actions are reverted by the stamps of their characters (Tk
//! text manual, "The undo mechanism"). The definitions stand in `specs/Reverting.antt`.
#![tactic(auto)]

pub mod copying;
pub mod examples;
mod going;
pub mod group;
pub mod laws;
pub mod losses;
pub mod lost;
mod named;
mod offsets;
pub mod plan;
mod progress;
mod returning;
mod reverting;
mod work;

pub use copying::{alike_state, kept_state};
pub use group::planned_reversion;
pub use losses::Losses;
pub use lost::push_removed;
pub use plan::{Return, Reversal, TextChange};
