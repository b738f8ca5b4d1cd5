// What taking an operation tells.

/// Places of the visible text, from one up to another, without that one. There is at least one.
#[derive(Clone, Copy, Debug, PartialEq, Eq)]
pub struct PlaceRun {
    pub from: usize,
    pub to: usize,
}

/// What changed in the visible text, and the tags to list.
#[derive(Drop)]
pub struct Change {
    /// The place of the first inserted character, 0 if there is none.
    pub place: usize,
    /// How many characters were inserted, each behind the one before it.
    pub inserted: usize,
    /// The places, as they were before the operation, of the characters that it took away: the last
    /// run in the text first, so what is done to the places of one leaves those of the next ones. At
    /// least one place lies between two runs.
    pub removed: Vec<PlaceRun>,
    /// The places of the characters on which a Tag put its tag, or from which it took it off, as runs
    /// in the same order. Where the tag was so already, or a greater write of it stands, nothing changes.
    pub retagged: Vec<PlaceRun>,
    /// The names of the tags that the operation lists: an Insert's own, by their bytes, or the one that
    /// a Tag puts on.
    pub lists: Vec<String>,
}
