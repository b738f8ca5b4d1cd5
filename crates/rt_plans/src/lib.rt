//! Edits of a text: what each does to the cells, which operations it makes, the plans of these, and the
//! selected characters of a widget.
#![tactic(auto)]

pub mod author;
pub mod cells;
mod changes;
mod counts;
pub mod drafting;
pub mod examples;
pub mod inserting;
pub mod inserts;
pub mod laws;
pub mod listing;
mod lists;
mod parts;
pub mod piece;
mod pieces;
mod plain;
pub mod range;
pub mod removal;
mod runs;
pub mod selection;
mod span;
pub mod stamps;
mod unlisted;

pub use author::Author;
pub use piece::Piece;
pub use range::Range;
pub use selection::Selection;
pub use stamps::Stamps;
