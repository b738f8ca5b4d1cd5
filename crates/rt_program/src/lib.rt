//! What the program does around a run: files of the system, opened by their first read, written whole, read, joined
//! and shown; and how it ends: its status, and its line on standard error.
#![tactic(auto)]

pub mod ending;
pub mod files;
pub mod readers;

pub use files::{LazyFile, write_whole};
pub use readers::{join_readers, read_bytes, show_lines};
