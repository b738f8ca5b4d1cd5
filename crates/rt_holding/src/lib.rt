//! Early operations are held until what they were made upon is there.
#![tactic(auto)]

pub mod examples;
mod held;
pub mod laws;
pub mod receiving;
pub mod seeing;
mod taking;
mod trying;
mod waits;
mod waking;

pub use held::{Held, MOST_HELD, Offered};
pub use receiving::{Received, receive};
pub use taking::Taking;
