//! Logs of operations, their join, and their files.
#![tactic(auto)]

mod block;
mod blocks;
mod ends;
pub mod file;
pub mod laws;
pub mod log;
mod merge;
mod order;
mod run;
mod runs;
pub mod same;

pub use file::write_file;
pub use log::{OpLog, Refused, join};
pub use rt_ops::{Edit, Op, Reading, Text, read_bytes, read_file, read_whole};
pub use same::is_same;
