// Changes of a tree's cells, and room for them.
ghost use Rattle.std.specs.Prelude.{◌≡◌, ℕ, ◌+◌, ◌<◌, ◌≤◌, IsOkUnless, IsOk, List, OnErr, OnOk, length, map};
ghost use Rattle.rt_store.specs.declared.cell.Cell.{Cell};
ghost use Rattle.rt_store.specs.Cells.{AreDistinct, HasRoom, Spends, gone_in, put_at, state_in};
ghost use Rattle.rt_store.specs.Tagged.{AreStates};
ghost use Rattle.rt_tags.specs.States.{IsState};
ghost use Rattle.rt_tree.specs.Additions.{stretch_count};
ghost use Rattle.rt_tree.specs.Sharing.{cell_updated_in};
ghost use Rattle.rt_tree.specs.Stretches.{IsGiven};
ghost use Rattle.rt_tree.specs.Trees.{AgreesWithTable, HasOwn};
ghost use Rattle.rt_tree.specs.Typing.{AreTypedOn, GoOn};

use super::Tree;
use crate::copy::push_characters;
use crate::extend::New;
use crate::find::sum_of;
use crate::homes::spans_for;
use crate::splice::{newest_of, put_cells};
use crate::tally::counts_with;
use crate::update::{CellUpdate, update_span};
use crate::walk::Found;
use rt_stamps::limits::MOST_CELLS;
use rt_stamps::{Fault, Span};
use rt_store::Cell;
use rt_tags::{StateId, StateTable};
use std::slice;

// So many, or 32 where that is more and `most` allows it: what is typed asks for room character by character.
fn ahead(asked: usize, most: usize) -> usize
    ensures enough { asked ≤ result }
    ensures most { asked ≤ most → result ≤ most }
{
    asked.max(most.min(32))
}

// Keeps in mind a run and where it stands, if there is one; else only that there is none is written.
#[inline(always)]
fn keep(kept: &mut Option<Found>, last: &Option<Found>)
    ensures { kept.new ≡ last.now }
{
    match last {
        None => *kept = None,
        Some(found) => *kept = Some(*found),
    }
}

impl Tree {
    /// Makes room for new cells, for cuts of runs, and for counts of so many tags, and keeps what was there. `NoMemory` changes
    /// nothing; it is also the answer where the cells would be too many, or nodes without number.
    #[inline(always)]
    pub fn reserve(&mut self, cells: usize, cuts: usize, tags: usize) -> Result<(), Fault>
        ensures same { OnOk result (self.new ≡ record self.old { room = self.new.room }) }
        ensures ok { OnOk result (HasRoom self.new.room cells cuts tags) }
        ensures kept { HasRoom self.new.room self.old.room.cells self.old.room.cuts self.old.room.tags }
        ensures unchanged { OnErr result (self.new ≡ self.old) }
        ensures err { IsOkUnless result Fault.NoMemory }
        ensures roomy { HasRoom self.old.room cells cuts tags → IsOk result }
    {
        if cells <= self.spare_cells && cuts <= self.spare_cuts && tags <= self.spare_tags {
            return Ok(());
        }
        self.reserve_more(cells, cuts, tags)
    }

    // Makes the room that there isn't yet, as `reserve` does.
    #[inline(never)]
    fn reserve_more(&mut self, cells: usize, cuts: usize, tags: usize) -> Result<(), Fault>
        ensures same { OnOk result (self.new ≡ record self.old { room = self.new.room }) }
        ensures ok { OnOk result (HasRoom self.new.room cells cuts tags) }
        ensures kept { HasRoom self.new.room self.old.room.cells self.old.room.cuts self.old.room.tags }
        ensures unchanged { OnErr result (self.new ≡ self.old) }
        ensures err { IsOkUnless result Fault.NoMemory }
    {
        let left = MOST_CELLS - self.text.len();
        let cells = ahead(cells.max(self.spare_cells), left);
        let cuts = ahead(cuts.max(self.spare_cuts), usize::MAX);
        let tags = tags.max(self.spare_tags);
        if cells > left {
            return Err(Fault::NoMemory);
        }
        let runs = (self.runs + cells)
            .checked_add(cuts)
            .ok_or(Fault::NoMemory)?;
        let nodes = runs / 7 + 1;
        self.last = None;
        self.homes.reserve(spans_for(cells, cuts))?;
        self.text.reserve(cells)?;
        self.sums.reserve(nodes, tags)?;
        self.mem.reserve(nodes.saturating_sub(self.mem.nodes()))?;
        self.spare_cells = cells;
        self.spare_cuts = cuts;
        self.spare_tags = tags;
        Ok(())
    }

    // Updates the cells of a span.
    fn apply(&mut self, states: &StateTable, span: Span, update: CellUpdate)
        requires room { HasRoom self.old.room 0 2 (length states.now.names) }
        requires update { IsGiven states.now update }
        requires agrees { AgreesWithTable states.now self.old }
        ensures cells { self.new.cells ≡ map (cell_updated_in span update) self.old.cells }
        ensures runs { self.new.runs ≤ self.old.runs + 2 }
        ensures room { Spends self.old.room self.new.room 0 2 }
        ensures agrees { AgreesWithTable states.now self.new }
        ensures own { HasOwn self.new }
    {
        let change = update_span(
            &mut self.mem,
            &mut self.sums,
            states,
            self.root,
            span,
            update,
            &mut self.homes,
        );
        self.root = change.root;
        self.counts = sum_of(&self.mem, self.root);
        self.last = None;
        self.runs += change.more;
        self.spare_cuts -= 2;
    }

    /// Makes the cells of a span of stamps gone, in two runs more at most. Takes no memory.
    pub fn set_gone(&mut self, states: &StateTable, span: Span)
        requires room { HasRoom self.old.room 0 2 (length states.now.names) }
        requires agrees { AgreesWithTable states.now self.old }
        ensures cells { self.new.cells ≡ map (gone_in span) self.old.cells }
        ensures runs { self.new.runs ≤ self.old.runs + 2 }
        ensures room { Spends self.old.room self.new.room 0 2 }
        ensures agrees { AgreesWithTable states.now self.new }
        ensures own { HasOwn self.new }
    {
        self.apply(states, span, CellUpdate::Gone);
    }

    /// Puts the cells of a span of stamps in a state, gone ones too, in two runs more at most. Takes
    /// no memory.
    pub fn set_state(&mut self, states: &StateTable, span: Span, state: StateId)
        requires room { HasRoom self.old.room 0 2 (length states.now.names) }
        requires state { IsState states.now state }
        requires agrees { AgreesWithTable states.now self.old }
        ensures cells { self.new.cells ≡ map (state_in span state) self.old.cells }
        ensures runs { self.new.runs ≤ self.old.runs + 2 }
        ensures room { Spends self.old.room self.new.room 0 2 }
        ensures agrees { AgreesWithTable states.now self.new }
        ensures own { HasOwn self.new }
    {
        self.apply(states, span, CellUpdate::State(state));
    }

    /// Puts new cells in before the one at a position. A run that they go on with gets longer, so that typing on makes no
    /// new run; each other stretch of them becomes a run, or each of its cells one, if a stamp of it is there already.
    /// Takes no memory.
    pub fn splice(&mut self, states: &StateTable, at: usize, cells: &[Cell<StateId>])
        requires within { at < length self.old.cells }
        requires room { HasRoom self.old.room (length cells.now) 1 (length states.now.names) }
        requires states { AreStates states.now cells.now }
        requires agrees { AgreesWithTable states.now self.old }
        ensures cells { self.new.cells ≡ put_at at cells.now self.old.cells }
        ensures most { self.new.runs ≤ self.old.runs + length cells.now + 1 }
        ensures runs { AreDistinct self.new.cells → self.new.runs ≤ self.old.runs + stretch_count cells.now + 1 }
        ensures typed { AreDistinct self.new.cells → AreTypedOn self.old at cells.now → self.new.runs ≡ self.old.runs }
        ensures next { (more : List (Cell ℕ)) → GoOn cells.now more → AreTypedOn self.new (at + length cells.now) more }
        ensures room { Spends self.old.room self.new.room (length cells.now) 1 }
        ensures agrees { AgreesWithTable states.now self.new }
        ensures own { HasOwn self.new }
    {
        // A single cell, as typing makes it, is put in without the steps of a list.
        if cells.len() == 1 {
            self.splice_cells(states, at, slice::from_ref(&cells[0]))
        } else {
            self.splice_cells(states, at, cells)
        }
    }

    // Puts new cells in, as `splice` does.
    #[inline(always)]
    fn splice_cells(&mut self, states: &StateTable, at: usize, cells: &[Cell<StateId>])
        requires within { at < length self.old.cells }
        requires room { HasRoom self.old.room (length cells.now) 1 (length states.now.names) }
        requires states { AreStates states.now cells.now }
        requires agrees { AgreesWithTable states.now self.old }
        ensures cells { self.new.cells ≡ put_at at cells.now self.old.cells }
        ensures most { self.new.runs ≤ self.old.runs + length cells.now + 1 }
        ensures runs { AreDistinct self.new.cells → self.new.runs ≤ self.old.runs + stretch_count cells.now + 1 }
        ensures typed { AreDistinct self.new.cells → AreTypedOn self.old at cells.now → self.new.runs ≡ self.old.runs }
        ensures next { (more : List (Cell ℕ)) → GoOn cells.now more → AreTypedOn self.new (at + length cells.now) more }
        ensures room { Spends self.old.room self.new.room (length cells.now) 1 }
        ensures agrees { AgreesWithTable states.now self.new }
        ensures own { HasOwn self.new }
    {
        push_characters(&mut self.text, cells);
        let new = New {
            text: &self.text,
            at,
            cells,
            newest: self.newest,
        };
        let change = put_cells(
            &mut self.mem,
            &mut self.sums,
            states,
            self.root,
            &new,
            &mut self.homes,
            &self.last,
        );
        self.newest = newest_of(self.newest, cells);
        self.counts = counts_with(self.counts, cells);
        keep(&mut self.last, &change.last);
        self.root = change.root;
        self.runs += change.more;
        self.spare_cells -= cells.len();
        self.spare_cuts -= 1;
    }
}
