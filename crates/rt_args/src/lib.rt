//! The command line of peertext, as clap reads it. The definitions stand in `specs/CommandLine.antt`.
#![tactic(auto)]

pub mod command_line;
pub mod parse_line;

pub use command_line::{Line, LineFault};
pub use parse_line::line;
