//! The words of a line of a script, and those of a list, as of tags: cut, and written.
#![tactic(auto)]

pub mod examples;
pub mod laws;
pub mod spare;
pub mod words;
pub mod writing;

pub use spare::Spare;
pub use words::is_blank;
pub use writing::{has_quoted, write_text, write_word};
