//! A text, its marks, and the commands of a widget on them.
#![tactic(auto)]

mod changing;
mod characters;
mod comparison;
mod distance;
pub mod doc;
pub mod examples;
mod following;
mod ground;
pub mod index;
mod inserting;
pub mod laws;
mod moving;
mod neighbours;
mod new_text;
mod others;
pub mod own_mark;
pub mod place_index;
mod preparing;
pub mod range;
pub mod reverted;
mod staying;
pub mod view;
pub mod view_ref;
pub mod widget;

pub use doc::Doc;
pub use own_mark::OwnMark;
pub use place_index::PlaceIndex;
pub use reverted::Reverted;
pub use rt_plans::{Piece, Range};
pub use view::View;
pub use view_ref::ViewRef;
pub use widget::Widget;
