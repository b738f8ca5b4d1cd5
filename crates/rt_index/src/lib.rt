//! Index expressions of the Tk text widget, as `insert wordstart - 2 chars`: which words are
//! expressions, and which places they name; how two places are compared, and what is counted between them.
#![tactic(auto)]

pub mod comparison;
pub mod expression;
pub mod ground;
pub mod laws;
pub mod measure;
pub mod parts;
pub mod place;
pub mod reading;
pub mod values;
mod words;

pub use comparison::Comparison;
pub use expression::{Expr, is_fixed, parse, resolve};
pub use ground::Ground;
pub use measure::Measure;
pub use place::place_of_index;
