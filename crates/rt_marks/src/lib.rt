//! The marks of a site: names in the gaps of its text, each with a gravity (Tk text manual, "The
//! marks"). The definitions stand in `specs/Marks.antt`.
#![tactic(auto)]

pub mod examples;
pub mod gravity;
pub mod laws;
mod mark;
pub mod mark_ref;
pub mod marks;
pub mod place;
mod table;

pub use gravity::Gravity;
pub use mark_ref::MarkRef;
pub use marks::Marks;
