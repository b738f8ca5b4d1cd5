// The cells in a vector.
ghost use Rattle.std.specs.Prelude.{◌≡◌, ◌+◌, ◌-◌, min, ◌^◌, ◌<◌, ◌≤◌, ◌∷◌, ◌++◌, [], IfOk, IsOkUnless, map, take, drop, length, slice_get, take_while, vec_len, vec_capacity};
ghost use Rattle.rt_store.specs.Cells.{final_cell, EndsFinal, StandsBefore, after_element, visible_of, text_of, cell_of, position_of, is_in_span, gone_in, state_in};
ghost use Rattle.rt_store.specs.Tagged.{AreStates, has_tag, next_place, previous_place, tag_is};
ghost use Rattle.rt_tags.specs.States.{IsState, IsTag};
ghost use Rattle.rt_stamps.specs.Stamps.{is_before};
ghost use Rattle.rt_stamps.specs.Places.{newlines, after_newlines};

use crate::TextStore;
use crate::cell::{Cell, CellRun, FINAL_CELL};
use crate::count::{newline_count, visible_count};
use rt_stamps::{Fault, ROOT, Span, Stamp};
use rt_tags::{StateId, StateTable, TagId};
use std::alloc::Global;

/// The cells in a plain vector: each call is linear in their number.
pub struct ListStore {
    cells: Vec<Cell<StateId>>,
    ghost ends: { EndsFinal cells.items },
}

// Written out, so that where it is let go is one step for the crates above, and not one for each
// field of each field.
impl Drop for ListStore {
    fn drop(self) {
        let ListStore { cells: _ } = self;
    }
}

impl ListStore {
    ghost use Rattle.rt_store.specs.ListStore.{list_cells};

    /// A store of the final newline alone. `NoMemory` is its only fault.
    pub fn new(alloc: Global) -> Result<ListStore, Fault>
        ensures ok { IfOk result (λ store. list_cells store ≡ final_cell ∷ []) }
        ensures err { IsOkUnless result Fault.NoMemory }
    {
        let mut cells = Vec::with_capacity(alloc, 1)?;
        cells.push(FINAL_CELL)?;
        Ok(ListStore { cells })
    }
}

// The visible cell at a place.
fn nth_visible(cells: &[Cell<StateId>], place: usize) -> Cell<StateId>
    requires { place < length (visible_of cells.now) }
    ensures { slice_get (visible_of cells.now) place ≡ Some result }
{
    let mut left = place;
    for cell in cells {
        if !cell.gone {
            if left == 0 {
                return *cell;
            }
            left -= 1;
        }
    }
    unreachable!()
}

// The place after some newlines.
fn place_after(cells: &[Cell<StateId>], newlines: usize) -> usize
    ensures { result ≡ after_newlines newlines (text_of cells.now) }
{
    let mut left = newlines;
    let mut place = 0;
    for cell in cells {
        if left == 0 {
            break;
        }
        if !cell.gone {
            place += 1;
            if cell.ch == '\n' {
                left -= 1;
            }
        }
    }
    place
}

// Puts the characters from a place on into a buffer, and answers how many these are.
fn copy_text(cells: &[Cell<StateId>], place: usize, buffer: &mut [char]) -> usize
    ensures count { result ≡ min (length buffer.old) (length (text_of cells.now) - place) }
    ensures characters { take result buffer.new ≡ take result (drop place (text_of cells.now)) }
    ensures rest { drop result buffer.new ≡ drop result buffer.old }
{
    let mut at = 0;
    for cell in cells {
        if !cell.gone {
            if at >= place {
                if at - place == buffer.len() {
                    break;
                }
                buffer[at - place] = cell.ch;
            }
            at += 1;
        }
    }
    at.saturating_sub(place)
}

// How many newlines stand before a place.
fn newlines_before(cells: &[Cell<StateId>], place: usize) -> usize
    ensures value { result ≡ newlines (take place (text_of cells.now)) }
    ensures few { result ≤ length cells.now }
{
    let mut left = place;
    let mut lines = 0;
    for cell in cells {
        if left == 0 {
            break;
        }
        if !cell.gone {
            left -= 1;
            if cell.ch == '\n' {
                lines += 1;
            }
        }
    }
    lines
}

fn position_of(cells: &[Cell<StateId>], stamp: Stamp) -> Option<usize>
    ensures { result ≡ position_of cells.now stamp }
{
    cells.iter().position(|cell| cell.stamp == stamp)
}

fn cell_of(cells: &[Cell<StateId>], stamp: Stamp) -> Option<Cell<StateId>>
    ensures { result ≡ cell_of cells.now stamp }
{
    let position = position_of(cells, stamp)?;
    Some(cells[position])
}

// The position after an element.
fn after_element(cells: &[Cell<StateId>], left: Stamp) -> usize
    requires { StandsBefore cells.now left }
    ensures { result ≡ after_element cells.now left }
{
    if left == ROOT {
        0
    } else {
        position_of(cells, left).unwrap() + 1
    }
}

// How many cells at the front have a greater stamp.
fn above(cells: &[Cell<StateId>], new: Stamp) -> usize
    ensures { result ≡ length (take_while (λ cell. is_before new cell.stamp) cells.now) }
{
    cells.iter().take_while(|cell| cell.stamp > new).count()
}

fn insert_all(all: &mut Vec<Cell<StateId>>, at: usize, cells: &[Cell<StateId>])
    requires within { at ≤ vec_len all.old }
    requires room { vec_len all.old + length cells.now ≤ vec_capacity all.old }
    ensures items { all.new.items ≡ take at all.old.items ++ cells.now ++ drop at all.old.items }
    ensures len { vec_len all.new ≡ vec_len all.old + length cells.now }
    ensures capacity { vec_capacity all.old ≤ vec_capacity all.new }
{
    for (i, cell) in cells.iter().enumerate() {
        all.insert(at + i, *cell).unwrap();
    }
}

// Whether a stamp is one of a span's.
fn is_in_span(span: Span, stamp: Stamp) -> bool
    ensures { result ≡ is_in_span span stamp }
{
    stamp.site == span.site && span.first <= stamp.count && stamp.count <= span.last
}

// A cell as it is when a span is gone.
fn gone_in(span: Span, cell: Cell<StateId>) -> Cell<StateId>
    ensures { result ≡ gone_in span cell }
{
    if is_in_span(span, cell.stamp) {
        Cell { gone: true, ..cell }
    } else {
        cell
    }
}

// Makes the cells of a span gone.
fn mark_gone(cells: &mut Vec<Cell<StateId>>, span: Span)
    ensures items { cells.new.items ≡ map (gone_in span) cells.old.items }
    ensures len { vec_len cells.new ≡ vec_len cells.old }
    ensures capacity { vec_capacity cells.old ≤ vec_capacity cells.new }
{
    for i in 0..cells.len() {
        cells[i] = gone_in(span, cells[i]);
    }
}

// A cell as it is when a span is in a state.
fn state_in(span: Span, state: StateId, cell: Cell<StateId>) -> Cell<StateId>
    ensures { result ≡ state_in span state cell }
{
    if is_in_span(span, cell.stamp) {
        Cell { state, ..cell }
    } else {
        cell
    }
}

// Puts the cells of a span in a state.
fn mark_state(cells: &mut Vec<Cell<StateId>>, span: Span, state: StateId)
    ensures items { cells.new.items ≡ map (state_in span state) cells.old.items }
    ensures len { vec_len cells.new ≡ vec_len cells.old }
    ensures capacity { vec_capacity cells.old ≤ vec_capacity cells.new }
{
    for i in 0..cells.len() {
        cells[i] = state_in(span, state, cells[i]);
    }
}

// Whether a character has a tag, or hasn't it.
fn tag_is(states: &StateTable, tag: TagId, on: bool, cell: Cell<StateId>) -> bool
    requires tag { IsTag states.now tag }
    requires state { IsState states.now cell.state }
    ensures { result ≡ tag_is states.now tag on cell }
{
    if on {
        states.has(cell.state, tag)
    } else {
        !states.has(cell.state, tag)
    }
}

// The least place from one up whose character has a tag, or hasn't it.
fn next_place(
    cells: &[Cell<StateId>],
    states: &StateTable,
    tag: TagId,
    on: bool,
    place: usize,
) -> Option<usize>
    requires tag { IsTag states.now tag }
    requires states { AreStates states.now cells.now }
    ensures { result ≡ next_place (tag_is states.now tag on) (visible_of cells.now) place }
{
    let mut at = 0;
    for cell in cells {
        if !cell.gone {
            if at >= place && tag_is(states, tag, on, *cell) {
                return Some(at);
            }
            at += 1;
        }
    }
    None
}

// The greatest place below one whose character has a tag.
fn previous_place(
    cells: &[Cell<StateId>],
    states: &StateTable,
    tag: TagId,
    place: usize,
) -> Option<usize>
    requires tag { IsTag states.now tag }
    requires states { AreStates states.now cells.now }
    ensures { result ≡ previous_place (has_tag states.now tag) (visible_of cells.now) place }
{
    let mut last = None;
    let mut at = 0;
    for cell in cells {
        if at == place {
            break;
        }
        if !cell.gone {
            if states.has(cell.state, tag) {
                last = Some(at);
            }
            at += 1;
        }
    }
    last
}

impl TextStore for ListStore {
    ghost use Rattle.std.specs.Prelude.{get_or};

    ghost list = { λ s. s.cells.items };

    // A plain vector has no runs to cut, and keeps no counts of tags.
    ghost room = { λ s. record { cells = vec_capacity s.cells - vec_len s.cells; cuts = 2 ^ 64; tags = 2 ^ 64 } };

    ghost agrees = { λ s table. AreStates table s.cells.items };

    ghost ends = { λ s. s.ends };

    ghost given = { λ s table given. given };

    ghost grows = { λ s old new keeps given k d j. (keeps.states (get_or s.cells.items k d).state (given k d j)).0 };

    ghost fresh = { λ s table is given. rw is given };

    fn reserve(&mut self, cells: usize, _cuts: usize, _tags: usize) -> Result<(), Fault> {
        Ok(self.cells.reserve(cells)?)
    }

    fn cells(&self) -> usize {
        self.cells.len()
    }

    fn visible(&self) -> usize {
        visible_count(&self.cells)
    }

    fn nth(&self, position: usize) -> Cell<StateId> {
        self.cells[position]
    }

    fn cell_of(&self, stamp: Stamp) -> Option<Cell<StateId>> {
        cell_of(&self.cells, stamp)
    }

    // A list is gone through for each cell, so each is a run of its own.
    fn run_from(&self, stamp: Stamp, _last: u64) -> Option<CellRun> {
        let cell = cell_of(&self.cells, stamp)?;
        Some(CellRun {
            cell,
            last: stamp.count,
        })
    }

    fn place_of(&self, stamp: Stamp) -> Option<usize> {
        let position = position_of(&self.cells, stamp)?;
        Some(visible_count(&self.cells[..position]))
    }

    fn visible_before(&self, position: usize) -> usize {
        visible_count(&self.cells[..position])
    }

    fn lines(&self) -> usize {
        newline_count(&self.cells)
    }

    fn char_at(&self, place: usize) -> char {
        nth_visible(&self.cells, place).ch
    }

    fn characters(&self, place: usize, buffer: &mut [char]) -> usize {
        copy_text(&self.cells, place, buffer)
    }

    fn cell_at(&self, place: usize) -> Cell<StateId> {
        nth_visible(&self.cells, place)
    }

    fn line_start(&self, line: usize) -> usize {
        place_after(&self.cells, line - 1)
    }

    fn line_of(&self, place: usize) -> usize {
        newlines_before(&self.cells, place) + 1
    }

    fn after_skip(&self, left: Stamp, new: Stamp) -> usize {
        let at = after_element(&self.cells, left);
        at + above(&self.cells[at..], new)
    }

    fn next_tagged(&self, states: &StateTable, tag: TagId, place: usize) -> Option<usize> {
        next_place(&self.cells, states, tag, true, place)
    }

    fn next_untagged(&self, states: &StateTable, tag: TagId, place: usize) -> Option<usize> {
        next_place(&self.cells, states, tag, false, place)
    }

    fn previous_tagged(&self, states: &StateTable, tag: TagId, place: usize) -> Option<usize> {
        previous_place(&self.cells, states, tag, place)
    }

    // A list is gone through from its beginning each time.
    fn focus(&mut self, _place: usize) {}

    fn focus_on(&mut self, _stamp: Stamp) {}

    fn splice(&mut self, _states: &StateTable, at: usize, cells: &[Cell<StateId>]) {
        insert_all(&mut self.cells, at, cells);
    }

    fn set_gone(&mut self, _states: &StateTable, span: Span) {
        mark_gone(&mut self.cells, span);
    }

    fn set_state(&mut self, _states: &StateTable, span: Span, state: StateId) {
        mark_state(&mut self.cells, span, state);
    }
}
