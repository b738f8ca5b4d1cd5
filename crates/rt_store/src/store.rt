// What keeps the cells of a text.
ghost use Rattle.std.specs.Prelude.{◌≡◌, ◌∷◌, [], ℕ, ◌+◌, ◌-◌, min, ◌<◌, ◌≤◌, List, ◌++◌, true, false, map, take, drop, length, OnOk, OnErr, IsOk, IfSome, IsOkUnless, slice_get, option_map};
ghost use Rattle.rt_stamps.specs.Places.{newlines, line_of, line_start};
ghost use Rattle.rt_stamps.specs.Stamps.{is_before};
ghost use Rattle.rt_stamps.specs.declared.limits.TheConstants.{MOST_CELLS};
ghost use Rattle.rt_store.specs.declared.cell.Cell.{Cell};
ghost use Rattle.rt_store.specs.Cells.{final_cell, visible_of, text_of, EndsFinal, cell_of, position_of, visible_before, StandsBefore, skip_from, is_in_span, gone_in, state_in, GoOnTo, Room, HasRoom, Spends};
ghost use Rattle.rt_store.specs.Tagged.{AreStates, next_tagged, next_untagged, previous_tagged};
ghost use Rattle.rt_tags.specs.States.{IsState, IsTag, KeepsIds, TagStates};

use crate::{Cell, CellRun};
use rt_stamps::{FINAL, Fault, Span, Stamp};
use rt_tags::{StateId, StateTable, TagId};

/// Keeps the cells of a text, seen as a list that ends with the final newline. Positions count all
/// cells from 0, places the visible ones. The states of cells are those of the table that is lent: a store may keep
/// counts of tags by it, so it is always the same table, which may have given further ids since. A change asks for
/// room for all tags that the table has given out by then.
pub trait TextStore: Drop {
    /// The cells, gone ones too.
    ghost list: { Self → List (Cell ℕ) };

    /// What there is room for.
    ghost room: { Self → Room };

    /// What the store keeps of its cells' tags is right by a table of states.
    ghost agrees: { Self → TagStates → Type 0 };

    /// Makes room for new cells, for cuts of runs, and for a table that has given out so many tags; keeps what was
    /// there, and isn't refused where that is enough. `NoMemory` changes nothing.
    fn reserve(&mut self, cells: usize, cuts: usize, tags: usize) -> Result<(), Fault>
        requires { length (list self.old) + cells ≤ MOST_CELLS }
        ensures same { list self.new ≡ list self.old }
        ensures ok { OnOk result (HasRoom (room self.new) cells cuts tags) }
        ensures roomy { HasRoom (room self.old) cells cuts tags → IsOk result }
        ensures kept { HasRoom (room self.new) (room self.old).cells (room self.old).cuts (room self.old).tags }
        ensures agrees { (table : TagStates) → agrees self.old table → agrees self.new table }
        ensures unchanged { OnErr result (room self.new ≡ room self.old) }
        ensures err { IsOkUnless result Fault.NoMemory };

    /// How many cells there are, gone ones too.
    fn cells(&self) -> usize
        ensures { result ≡ length (list self.now) };

    /// How many of them are visible.
    fn visible(&self) -> usize
        ensures { result ≡ length (visible_of (list self.now)) };

    /// The cell at a position, gone or not.
    fn nth(&self, position: usize) -> Cell<StateId>
        requires { position < length (list self.now) }
        ensures { slice_get (list self.now) position ≡ Some result };

    /// The cell of a stamp, gone or not; none if no cell has the stamp.
    fn cell_of(&self, stamp: Stamp) -> Option<Cell<StateId>>
        ensures { result ≡ cell_of (list self.now) stamp };

    /// The cell of a stamp, gone or not, with a count, at most `last`, to which the cells directly behind it go on from
    /// it; none if no cell has the stamp. It may be less than the greatest such count.
    fn run_from(&self, stamp: Stamp, last: u64) -> Option<CellRun>
        requires { stamp.count ≤ last }
        ensures cell { option_map (λ run. run.cell) result ≡ cell_of (list self.now) stamp }
        ensures run { IfSome result (λ run. GoOnTo (list self.now) run.cell run.last) }
        ensures last { IfSome result (λ run. (stamp.count ≤ run.last) × (run.last ≤ last)) };

    /// How many visible cells stand before a stamp's cell, which is its place if it is visible; none if
    /// no cell has the stamp.
    fn place_of(&self, stamp: Stamp) -> Option<usize>
        ensures { result ≡ option_map (visible_before (list self.now)) (position_of (list self.now) stamp) };

    /// How many visible cells stand before the one at a position.
    fn visible_before(&self, position: usize) -> usize
        requires { position < length (list self.now) }
        ensures { result ≡ visible_before (list self.now) position };

    /// How many lines the text has.
    fn lines(&self) -> usize
        ensures { result ≡ newlines (text_of (list self.now)) };

    /// The character at a place.
    fn char_at(&self, place: usize) -> char
        requires { place < length (visible_of (list self.now)) }
        ensures { slice_get (text_of (list self.now)) place ≡ Some result };

    /// Puts the characters from a place on into a buffer, from its front on: all that the text has there, or as many
    /// as the buffer holds. Answers how many these are; what is behind them in the buffer stays. Takes no memory.
    fn characters(&self, place: usize, buffer: &mut [char]) -> usize
        ensures count { result ≡ min (length buffer.old) (length (text_of (list self.now)) - place) }
        ensures characters { take result buffer.new ≡ take result (drop place (text_of (list self.now))) }
        ensures rest { drop result buffer.new ≡ drop result buffer.old };

    /// The visible cell at a place.
    fn cell_at(&self, place: usize) -> Cell<StateId>
        requires { place < length (visible_of (list self.now)) }
        ensures { slice_get (visible_of (list self.now)) place ≡ Some result };

    /// The first place of a line, counted from 1.
    fn line_start(&self, line: usize) -> usize
        requires { (1 ≤ line) × (line ≤ newlines (text_of (list self.now))) }
        ensures { result ≡ line_start (text_of (list self.now)) line };

    /// The line of a place, counted from 1.
    fn line_of(&self, place: usize) -> usize
        requires { place ≤ length (visible_of (list self.now)) }
        ensures { result ≡ line_of (text_of (list self.now)) place };

    /// The position where a new character goes whose left element is `left`: behind it and past all
    /// cells directly behind it that have greater stamps (JPDC 2011).
    fn after_skip(&self, left: Stamp, new: Stamp) -> usize
        requires left { StandsBefore (list self.now) left }
        requires above { is_before FINAL new ≡ true }
        ensures { result ≡ skip_from (list self.now) left new };

    /// The least place from one up whose character has a tag; none if there is none. The table says
    /// what the states of cells mean. Takes no memory.
    fn next_tagged(&self, states: &StateTable, tag: TagId, place: usize) -> Option<usize>
        requires tag { IsTag states.now tag }
        requires states { agrees self.now states.now }
        ensures { result ≡ next_tagged states.now tag (list self.now) place };

    /// The least place from one up whose character hasn't a tag; none if there is none. Takes no memory.
    fn next_untagged(&self, states: &StateTable, tag: TagId, place: usize) -> Option<usize>
        requires tag { IsTag states.now tag }
        requires states { agrees self.now states.now }
        ensures { result ≡ next_untagged states.now tag (list self.now) place };

    /// The greatest place below one whose character has a tag; none if there is none. Takes no memory.
    fn previous_tagged(&self, states: &StateTable, tag: TagId, place: usize) -> Option<usize>
        requires tag { IsTag states.now tag }
        requires states { agrees self.now states.now }
        ensures { result ≡ previous_tagged states.now tag (list self.now) place };

    /// Says that what follows is about the text around a place, which may then be found sooner. Changes nothing that is
    /// seen, and takes no memory.
    fn focus(&mut self, place: usize)
        ensures list { list self.new ≡ list self.old }
        ensures room { room self.new ≡ room self.old }
        ensures agrees { (table : TagStates) → agrees self.old table → agrees self.new table };

    /// Says that what follows is about the text around the cell of a stamp, as `focus` does of a place.
    fn focus_on(&mut self, stamp: Stamp)
        ensures list { list self.new ≡ list self.old }
        ensures room { room self.new ≡ room self.old }
        ensures agrees { (table : TagStates) → agrees self.old table → agrees self.new table };

    /// Puts new cells before the one at a position. Takes no memory.
    fn splice(&mut self, states: &StateTable, at: usize, cells: &[Cell<StateId>])
        requires within { at < length (list self.old) }
        requires states { agrees self.old states.now }
        requires new { AreStates states.now cells.now }
        requires room { HasRoom (room self.old) (length cells.now) 1 (length states.now.names) }
        ensures list { list self.new ≡ take at (list self.old) ++ cells.now ++ drop at (list self.old) }
        ensures room { Spends (room self.old) (room self.new) (length cells.now) 1 }
        ensures states { agrees self.new states.now };

    /// Makes the cells of a span of stamps gone; the final newline never is. Takes no memory.
    fn set_gone(&mut self, states: &StateTable, span: Span)
        requires stays { is_in_span span FINAL ≡ false }
        requires states { agrees self.old states.now }
        requires room { HasRoom (room self.old) 0 2 (length states.now.names) }
        ensures list { list self.new ≡ map (gone_in span) (list self.old) }
        ensures room { Spends (room self.old) (room self.new) 0 2 }
        ensures states { agrees self.new states.now };

    /// Puts the cells of a span of stamps in a state: gone ones too, and the final newline too. Takes
    /// no memory.
    fn set_state(&mut self, states: &StateTable, span: Span, state: StateId)
        requires state { IsState states.now state }
        requires states { agrees self.old states.now }
        requires room { HasRoom (room self.old) 0 2 (length states.now.names) }
        ensures list { list self.new ≡ map (state_in span state) (list self.old) }
        ensures room { Spends (room self.old) (room self.new) 0 2 }
        ensures states { agrees self.new states.now };

    /// The last cell is the final newline, in any state.
    ghost ends: { (s : Self) → EndsFinal (list s) };

    /// The states of cells are those of each table that the store agrees with.
    ghost given: { (s : Self) (table : TagStates) → agrees s table → AreStates table (list s) };

    /// A table that gives further ids keeps what the store agrees with.
    ghost grows: { (s : Self) (old new : TagStates) → KeepsIds old new → agrees s old → agrees s new };

    /// A store of the final newline alone agrees with each table that has its state.
    ghost fresh: { (s : Self) (table : TagStates) → list s ≡ final_cell ∷ [] → AreStates table (final_cell ∷ []) → agrees s table };
}
