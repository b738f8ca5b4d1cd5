//! The commands `mark`, `tag`, `search` and `dump` of a widget (Tk text manual).
#![tactic(auto)]

mod borders;
mod dumped_marks;
pub mod dumping;
pub mod element;
mod element_order;
pub mod examples;
pub mod laws;
pub mod mark;
mod mark_list;
pub mod mark_name;
pub mod mark_order;
mod name;
mod nearest;
mod placed;
pub mod searching;
mod seen;
mod stretch;
pub mod tag;
pub mod tag_find;
pub mod tag_range;
mod texts;

pub use dumping::dump;
pub use element::{Element, Key};
pub use mark::{mark_gravity, mark_set, mark_unset, set_mark_gravity};
pub use mark_name::mark_names;
pub use mark_order::{mark_next, mark_previous};
pub use searching::{search, shown};
pub use tag::{tag_add, tag_delete, tag_lower, tag_names, tag_names_at, tag_raise, tag_remove};
pub use tag_find::{tag_nextrange, tag_prevrange, tag_ranges};
pub use tag_range::ranges;
