//! The tags that a site lists, in the order of their priority (Tk text manual, "tag raise", "tag
//! lower"), the tags of characters, interned as states, and how many toggles a stretch of text has of
//! each tag. The definitions stand in `specs/Tags.antt`, `specs/States.antt`, `specs/Writers.antt`,
//! `specs/Toggles.antt` and `specs/Borders.antt`.
#![tactic(auto)]

mod borders;
mod building;
mod forgetting;
pub mod laws;
mod many;
mod names;
mod nodes;
mod sorting;
pub mod states;
pub mod table;
pub mod toggles;
mod walk;
mod writes;
mod writing;

pub use states::{StateId, StateTable, TagEntry, TagId};
pub use table::TagTable;
pub use toggles::{TagCount, Toggles};
