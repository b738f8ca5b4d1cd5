//! Scripts: lines of words, the lines of their replies, and runs.
#![tactic(auto)]

pub mod answer;
mod changes;
pub mod commands;
pub mod engine;
pub mod examples;
pub mod laws;
pub mod line_site;
pub mod reply;
pub mod scripts;
pub mod site_lines;
pub mod site_run;
mod telling;

pub use answer::Answer;
pub use commands::Commands;
pub use engine::{Ended, answer_bytes, answer_line};
pub use line_site::LineSite;
pub use reply::reply_line;
pub use rt_files::{JoinFault, join_files, show_file};
pub use rt_peers::{Received, ReceivedChanges, Reply, SiteState, ToldAnswer, ToldChange, ViewRef};
pub use rt_words::{Spare, words};
pub use scripts::{run, run_bounded};
pub use site_lines::Session;
pub use site_run::{ScriptRun, begun, run_site};
