// What a replica answers.
use rt_oplog::Op;
use rt_rga::Change;

/// What became of an operation that was offered and not refused.
#[derive(Drop)]
pub enum Taken {
    /// It was new: what it changed, and behind that what each held one changed that was taken after it, the least stamp
    /// first. Each speaks of the text that those before it left. The text of an insertion and the name of a tag are the
    /// operation's, which the log has.
    New(Vec<Change>),
    /// It is in the log already, or it comes too early and is held already. Nothing changed.
    Repeat,
    /// It comes before what it was made upon, and is held.
    Held,
}

/// What became of drafts.
#[derive(Drop)]
pub struct Made {
    /// The operations that were made of them, in order.
    pub ops: Vec<Op>,
    /// What each held operation changed that was taken after them, in the order in which they were taken.
    pub changes: Vec<Change>,
}
