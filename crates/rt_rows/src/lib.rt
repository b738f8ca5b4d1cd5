//! Operations in rows, where what a site typed or deleted one after the other is kept as one.
#![tactic(auto)]

mod deletes;
mod kept;
pub mod laws;
mod listed;
mod names;
mod row;
pub mod rows;
pub mod single;
mod stored;

pub use rows::{RowPlace, Rows};
pub use single::TypedOp;
