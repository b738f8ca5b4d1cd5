//! The cells of a shared text, as a list.
#![tactic(auto)]

pub mod cell;
pub mod count;
pub mod laws;
pub mod list;
pub mod store;

pub use cell::{Cell, CellRun, FINAL_CELL};
pub use count::{newline_count, visible_count};
pub use list::ListStore;
pub use store::TextStore;
