//! What every other crate speaks of: stamps of characters, fresh counts, faults, limits, and
//! readers and writers. The definitions of places and names stand in `specs/`.
#![tactic(auto)]

pub mod clock;
pub mod fault;
pub mod laws;
pub mod limits;
pub mod name;
pub mod position;
pub mod source;
pub mod stamp;
pub mod std_ends;
pub mod write;

pub use clock::{Clock, count_after};
pub use fault::Fault;
pub use limits::Bounds;
pub use name::{check_name, check_names, is_name_length};
pub use position::Position;
pub use source::{Failed, Sink, Source, read_piece};
pub use stamp::{FINAL, ROOT, Site, Span, Stamp};
pub use write::write_all;
