//! Searches for a pattern in the characters of a text.
#![tactic(auto)]

pub mod all;
mod borders;
pub mod examples;
pub mod find;
pub mod laws;
pub mod part;
mod pass;
pub mod search;
pub mod walk;
mod window;

pub use all::find_all;
pub use find::find_first;
pub use part::Part;
pub use search::{Case, Direction, Overlaps, Search, Strictness};
pub use walk::positions;
