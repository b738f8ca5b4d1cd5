// Plans of reverted groups.
use rt_plans::Range;
use rt_rga::{Draft, OneOrMany};
use rt_stamps::Stamp;
use rt_undo::Action;

/// A character that came back: the stamp that it had, and the one that it has now.
#[derive(Clone, Copy, Debug, PartialEq, Eq)]
pub struct Return {
    pub former: Stamp,
    pub newer: Stamp,
}

/// How a text changes while actions are reverted: the characters in ranges go, in the order of the
/// text, or a character comes in at a place.
#[derive(Drop)]
pub enum TextChange {
    Removed(Vec<Range>),
    Inserted(usize),
}

/// The plan of a reverted group: its operations, the tags that they put on characters, the changes of
/// the text in turn, the characters that came back, and the group for the other stack.
#[derive(Drop)]
pub struct Reversal {
    pub drafts: OneOrMany<Draft>,
    pub names: Vec<String>,
    pub changes: Vec<TextChange>,
    pub returns: Vec<Return>,
    pub actions: Vec<Action>,
}
