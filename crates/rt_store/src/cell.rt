// A cell of the text.
use rt_stamps::{FINAL, Stamp};
use rt_tags::StateId;

/// A character with its stamp and the state of its tags. A character that was removed is gone, and
/// its cell stays, as a tombstone. A store keeps a state's id; what contracts show of a document has
/// in its place what that id stands for.
#[derive(Clone, Copy, Debug, PartialEq, Eq)]
pub struct Cell<T> {
    pub stamp: Stamp,
    pub ch: char,
    pub gone: bool,
    pub state: T,
}

/// A cell, and the count of its site to which the cells directly behind it go on from it: with stamps of rising counts,
/// gone or visible as it is, in its state. It is the cell's own count where none does.
#[derive(Clone, Copy, Debug, PartialEq, Eq)]
pub struct CellRun {
    pub cell: Cell<StateId>,
    pub last: u64,
}

/// The cell of the last newline, as it is at first. It is never gone; its state may change.
pub const FINAL_CELL: Cell<StateId> = Cell {
    stamp: FINAL,
    ch: '\n',
    gone: false,
    state: StateId::EMPTY,
};
