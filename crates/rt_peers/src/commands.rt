// What is asked of the widget that commands, but for edits of the text.
mod dumping;
mod marking;
mod reading;
mod searching;
mod tagging;

pub(crate) use dumping::dump;
pub(crate) use marking::mark;
pub(crate) use reading::{compare, count, get, index};
pub(crate) use searching::search;
pub(crate) use tagging::tag;
