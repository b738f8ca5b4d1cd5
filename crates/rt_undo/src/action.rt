// What a command did to a text.
use rt_stamps::Span;
use rt_tags::StateId;

/// What a command does to a text.
#[derive(Clone, Copy, Debug, PartialEq, Eq)]
pub enum Kind {
    Insert,
    Delete,
    Replace,
}

/// Characters that were removed, whose stamps are those of a span in the order of the text. All of
/// them had these tags then.
#[derive(Clone, Copy, Debug, PartialEq, Eq)]
pub struct RemovedSpan {
    pub span: Span,
    pub state: StateId,
}

/// What one command did to a text, by stamps. Contracts see lists of stamps (`action_of`); kept are
/// spans, so that a million characters that were typed in one go take one of them.
#[derive(Debug, Drop)]
pub struct Action {
    /// The count of its first operation.
    pub number: u64,
    pub kind: Kind,
    /// The characters that it put in.
    pub inserted: Vec<Span>,
    /// Those that it took away, in the order of the text.
    pub removed: Vec<RemovedSpan>,
}
