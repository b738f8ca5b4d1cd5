//! Replicated text: the cells are the reading of the operations that were accepted.
#![tactic(auto)]

mod answer;
mod character;
mod describe;
mod edits;
pub mod examples;
mod extent;
pub mod laws;
mod logging;
mod make;
mod named;
mod new_cells;
mod notes;
mod noting;
pub mod one_or_many;
mod places;
mod plan;
mod removed;
pub mod replica;
mod retagged;
mod tagging;
pub mod taken;

pub use answer::Offer;
pub use one_or_many::OneOrMany;
pub use replica::Replica;
pub use rt_oplog::Edit as Draft;
pub use taken::{Change, PlaceRun};
