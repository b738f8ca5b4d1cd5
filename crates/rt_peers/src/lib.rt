//! Sites: their state, and what is asked of their widgets.
#![tactic(auto)]

mod choices;
mod commands;
pub mod laws;
mod paths;
mod pieces;
mod replies;
pub mod reply;
mod sending;
pub mod site;
mod text;
pub mod told;
mod widgets;

pub use reply::Reply;
pub use rt_changes::ToldChange;
pub use rt_holding::Received;
pub use rt_text::ViewRef;
pub use site::SiteState;
pub use told::{ReceivedChanges, ToldAnswer};
