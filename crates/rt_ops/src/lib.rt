//! Operations of sites, their bytes, and files of them that are read.
#![tactic(auto)]

pub mod bytes;
mod decode;
pub mod examples;
mod fields;
pub mod file;
mod head;
mod intake;
pub mod laws;
pub mod op;
mod record;
pub mod records;
mod room;
mod rules;
pub mod spell;
pub mod text;
mod version;
pub mod view;

pub use bytes::read_bytes;
pub use file::{Reading, read_file, read_file_bounded, read_whole};
pub use head::{HEAD_BYTES, magic};
pub use op::{Edit, Op};
pub use records::Records;
pub use room::fits;
pub use text::Text;
pub use version::Version;
pub use view::{EditView, OpView};
