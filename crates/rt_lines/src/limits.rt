// The limits of what a widget shows.
ghost use Rattle.std.specs.Prelude.{◌≡◌, ℕ, ◌+◌, ◌-◌, ◌≤◌, ◌<◌, ◌&&◌, is_none, length, option_and_then, slice_get, Some};
ghost use Rattle.rt_stamps.specs.declared.limits.TheConstants.{MOST_CELLS};
ghost use Rattle.rt_stamps.specs.Places.{line_end, newlines};
ghost use Rattle.rt_store.specs.Cells.{text_of, visible_of};
ghost use Rattle.rt_lines.specs.Choices.{end_asked, end_chosen, limits_chosen, newline_of, start_asked, start_chosen};
ghost use Rattle.rt_stamps.specs.Stamps.{replaced};
ghost use Rattle.rt_lines.specs.Limits.{end_number, first_line, is_gone_cell, last_line, limits_renamed, line_at, line_behind, no_limits, start_number};
ghost use Rattle.rt_lines.specs.Stretches.{stretch_of};

use crate::{Choice, Stretch};
use rt_stamps::{Fault, Stamp};
use rt_store::TextStore;

/// The limits of the lines that a widget shows, by the stamps of newlines: what the options `-startline` and `-endline`
/// set (Tk text manual, "Peer widgets"). Any stamps may stand here: one that no cell of a text has counts as no limit
/// in what is shown of that text.
#[derive(Clone, Copy, Debug, PartialEq, Eq)]
pub struct Limits {
    /// The newline before the first line that is shown; none where lines are shown from the first one of the text.
    pub start: Option<Stamp>,
    /// The newline of the last line that is shown; none where lines are shown up to the last one of the text.
    pub end: Option<Stamp>,
}

// The line that holds the place of a stamp's cell; none if no cell has the stamp.
fn line_at<S: TextStore>(store: &S, stamp: Stamp) -> Option<usize>
    ensures { result ≡ line_at (S.list store.now) stamp }
{
    let place = store.place_of(stamp)?;
    Some(store.line_of(place))
}

// Whether the cell of a stamp is gone.
fn is_gone<S: TextStore>(store: &S, stamp: Stamp) -> bool
    ensures { result ≡ is_gone_cell (S.list store.now) stamp }
{
    match store.cell_of(stamp) {
        Some(cell) => cell.gone,
        None => false,
    }
}

// The line behind the newline of a stamp, or that which holds its place where it is gone.
fn line_behind<S: TextStore>(store: &S, stamp: Stamp) -> Option<usize>
    requires few { length (S.list store.now) ≤ MOST_CELLS }
    ensures { result ≡ line_behind (S.list store.now) stamp }
{
    let line = line_at(store, stamp)?;
    Some(if is_gone(store, stamp) {
        line
    } else {
        line + 1
    })
}

impl Limits {
    /// No limits: all of a text is shown.
    pub fn none() -> Limits
        ensures { result ≡ no_limits }
    {
        Limits {
            start: None,
            end: None,
        }
    }

    // Whether there is no limit.
    fn are_none(self) -> bool
        ensures { result ≡ (is_none self.start && is_none self.end) }
    {
        self.start.is_none() && self.end.is_none()
    }

    // The line that holds the place of the newline at the end, if there is one.
    fn line_at_end<S: TextStore>(self, store: &S) -> Option<usize>
        ensures { result ≡ option_and_then (line_at (S.list store.now)) self.end }
    {
        line_at(store, self.end?)
    }

    // The line behind the newline at the start, if there is one.
    fn line_behind_start<S: TextStore>(self, store: &S) -> Option<usize>
        requires few { length (S.list store.now) ≤ MOST_CELLS }
        ensures { result ≡ option_and_then (line_behind (S.list store.now)) self.start }
    {
        line_behind(store, self.start?)
    }

    /// The last line of a text that is shown.
    fn last_line<S: TextStore>(self, store: &S) -> usize
        ensures value { result ≡ last_line (S.list store.now) self }
        ensures first { 1 ≤ result }
        ensures last { result ≤ newlines (text_of (S.list store.now)) }
    {
        self.line_at_end(store).unwrap_or(store.lines())
    }

    /// The first line of a text that is shown, where the last one is known.
    fn first_line<S: TextStore>(self, store: &S, last: usize) -> usize
        requires few { length (S.list store.now) ≤ MOST_CELLS }
        requires last { last ≡ last_line (S.list store.now) self }
        ensures value { result ≡ first_line (S.list store.now) self }
        ensures first { 1 ≤ result }
        ensures last { result ≤ last }
    {
        self.line_behind_start(store).unwrap_or(1).min(last)
    }

    /// The stretch of a text that is shown, by places of the whole text. It has a character at least, and its last one
    /// is a newline. It takes no memory.
    #[inline(always)]
    pub fn stretch<S: TextStore>(self, store: &S) -> Stretch
        requires few { length (S.list store.now) ≤ MOST_CELLS }
        ensures value { result ≡ stretch_of (S.list store.now) self }
        ensures some { result.begin < result.end }
        ensures within { result.end ≤ length (visible_of (S.list store.now)) }
        ensures newline { slice_get (text_of (S.list store.now)) (result.end - 1) ≡ Some 10 }
    {
        if self.are_none() {
            return Stretch {
                begin: 0,
                end: store.visible(),
            };
        }
        let last = self.last_line(store);
        let first = self.first_line(store, last);
        Stretch {
            begin: store.line_start(first),
            end: line_after(store, last),
        }
    }

    /// The number of the first line that is shown, which is what `cget -startline` tells; none without a limit there.
    /// Lines are those of the whole text and count from 1. It takes no memory.
    pub fn start_number<S: TextStore>(self, store: &S) -> Option<usize>
        requires few { length (S.list store.now) ≤ MOST_CELLS }
        ensures { result ≡ start_number (S.list store.now) self }
    {
        if self.start.is_none() {
            return None;
        }
        Some(self.first_line(store, self.last_line(store)))
    }

    /// The number of the line behind the last one that is shown, which is what `cget -endline` tells; none without a
    /// limit there. Lines are those of the whole text and count from 1, so it is from 2 up to one more than there are
    /// lines. It takes no memory.
    pub fn end_number<S: TextStore>(self, store: &S) -> Option<usize>
        requires few { length (S.list store.now) ≤ MOST_CELLS }
        ensures { result ≡ end_number (S.list store.now) self }
    {
        if self.end.is_none() {
            return None;
        }
        Some(self.last_line(store) + 1)
    }

    /// The first line that is asked for.
    fn start_asked<S: TextStore>(self, store: &S, start: Choice) -> usize
        requires few { length (S.list store.now) ≤ MOST_CELLS }
        ensures { result ≡ start_asked (S.list store.now) self start }
    {
        match start {
            Choice::Kept => self.first_line(store, self.last_line(store)),
            Choice::Away => 1,
            Choice::Line(line) => line,
        }
    }

    /// The line behind the last one that is asked for.
    fn end_asked<S: TextStore>(self, store: &S, end: Choice) -> usize
        requires few { length (S.list store.now) ≤ MOST_CELLS }
        ensures { result ≡ end_asked (S.list store.now) self end }
    {
        match end {
            Choice::Kept => self.last_line(store) + 1,
            Choice::Away => store.lines() + 1,
            Choice::Line(line) => line,
        }
    }

    /// The limits with those that a command asks for, by lines of the whole text, which count from 1; a limit that is
    /// kept counts with the line that it has now, and keeps its newline. `BadView` where the first line isn't one of
    /// the text's, or not before the one behind the last, or this is past the one behind all lines. (Tk takes numbers
    /// out of range for no limit, and equal ones for a view of no line.) It takes no memory.
    pub fn with_lines<S: TextStore>(
        self,
        store: &S,
        start: Choice,
        end: Choice,
    ) -> Result<Limits, Fault>
        requires few { length (S.list store.now) ≤ MOST_CELLS }
        ensures { result ≡ limits_chosen (S.list store.now) start end self }
    {
        let first = self.start_asked(store, start);
        let after = self.end_asked(store, end);
        if !(1 <= first && first < after && after <= store.lines() + 1) {
            return Err(Fault::BadView);
        }
        Ok(Limits {
            start: start_chosen(store, self.start, start),
            end: end_chosen(store, self.end, end),
        })
    }

    /// The limits after a character came back under a newer stamp: each one that was the former stamp is the newer one.
    /// It takes no memory.
    pub fn renamed(self, former: Stamp, newer: Stamp) -> Limits
        ensures { result ≡ limits_renamed former newer self }
    {
        Limits {
            start: self.start.map(|stamp| replaced(former, newer, stamp)),
            end: self.end.map(|stamp| replaced(former, newer, stamp)),
        }
    }
}

// A stamp, or the newer one of the character that came back under it.
fn replaced(former: Stamp, newer: Stamp, stamp: Stamp) -> Stamp
    ensures { result ≡ replaced former newer stamp }
{
    if stamp == former { newer } else { stamp }
}

// The place behind the newline that ends a line.
fn line_after<S: TextStore>(store: &S, line: usize) -> usize
    requires first { 1 ≤ line }
    requires last { line ≤ newlines (text_of (S.list store.now)) }
    ensures { result ≡ line_end (text_of (S.list store.now)) line + 1 }
{
    if line == store.lines() {
        store.visible()
    } else {
        store.line_start(line + 1)
    }
}

// The newline that ends a line.
fn newline_of<S: TextStore>(store: &S, line: usize) -> Stamp
    requires first { 1 ≤ line }
    requires last { line ≤ newlines (text_of (S.list store.now)) }
    ensures { newline_of (S.list store.now) line ≡ Some result }
{
    store.cell_at(line_after(store, line) - 1).stamp
}

// The limit before the first line that is asked for.
fn start_chosen<S: TextStore>(store: &S, limit: Option<Stamp>, choice: Choice) -> Option<Stamp>
    requires line { (line : ℕ) → choice ≡ Choice.Line line → line ≤ newlines (text_of (S.list store.now)) }
    ensures { result ≡ start_chosen (S.list store.now) limit choice }
{
    match choice {
        Choice::Kept => limit,
        Choice::Away => None,
        Choice::Line(line) => {
            if line <= 1 {
                None
            } else {
                Some(newline_of(store, line - 1))
            }
        }
    }
}

// The limit at the end of the last line that is asked for.
fn end_chosen<S: TextStore>(store: &S, limit: Option<Stamp>, choice: Choice) -> Option<Stamp>
    requires line { (line : ℕ) → choice ≡ Choice.Line line → 2 ≤ line }
    ensures { result ≡ end_chosen (S.list store.now) limit choice }
{
    match choice {
        Choice::Kept => limit,
        Choice::Away => None,
        Choice::Line(line) => {
            if line > store.lines() {
                None
            } else {
                Some(newline_of(store, line - 1))
            }
        }
    }
}
