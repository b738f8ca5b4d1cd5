//! What is made of files of operations: the file of a log, the join of two, and the lines of one, as `peertext show`
//! writes them; and the last counts of sites as bytes, by which one asks another for a file of what it lacks.
#![tactic(auto)]

pub mod ends;
pub mod join;
pub mod lines;
pub mod parts;
pub mod sending;
pub mod show;

pub use ends::{bytes_of_ends, ends_of_bytes};
pub use join::{JoinFault, join_files};
pub use lines::write_lines;
pub use sending::export;
pub use show::show_file;
