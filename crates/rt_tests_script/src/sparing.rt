// A store that refuses one of its growths.
ghost use Rattle.std.specs.Prelude.{◌≡◌, ◌∷◌, [], IfOk};
ghost use Rattle.rt_store.specs.Cells.{HasRoom, final_cell};
ghost use Rattle.rt_tree.specs.Stores.{store_cells};

use rt_stamps::{Fault, Span, Stamp};
use rt_store::{Cell, CellRun, TextStore};
use rt_tags::{StateId, StateTable, TagId};
use rt_tree::TreeStore;
use std::alloc::Global;

/// A store that grows by no more than it is asked for, and refuses one of its growths.
pub(crate) struct Sparing<S: TextStore> {
    store: S,
    // The room that it owns to having.
    cells: usize,
    cuts: usize,
    tags: usize,
    // How many growths come before the one that is refused; none once it was.
    until_refusal: Option<usize>,
    ghost fits: { HasRoom (S.room store) cells cuts tags },
}

impl<S: TextStore> Drop for Sparing<S> {
    fn drop(self) {
        let Sparing {
            store: _,
            cells: _,
            cuts: _,
            tags: _,
            until_refusal: _,
        } = self;
    }
}

/// A tree of the final newline alone, which refuses the growth behind so many.
pub(crate) fn new_sparing(alloc: Global, until_refusal: usize) -> Result<Sparing<TreeStore>, Fault>
    ensures { IfOk result (λ sparing. store_cells sparing.store ≡ final_cell ∷ []) }
{
    let store = TreeStore::new(alloc)?;
    Ok(Sparing {
        store,
        cells: 0,
        cuts: 0,
        tags: 0,
        until_refusal: Some(until_refusal),
    })
}

impl<S: TextStore> TextStore for Sparing<S> {
    ghost list = { λ s. S.list s.store };

    ghost room = { λ s. record { cells = s.cells; cuts = s.cuts; tags = s.tags } };

    ghost agrees = { λ s table. S.agrees s.store table };

    ghost ends = { λ s. S.ends s.store };

    ghost given = { λ s table agrees. S.given s.store table agrees };

    ghost grows = { λ s old new keeps agrees. S.grows s.store old new keeps agrees };

    ghost fresh = { λ s table is given. S.fresh s.store table is given };

    fn reserve(&mut self, cells: usize, cuts: usize, tags: usize) -> Result<(), Fault> {
        if cells <= self.cells && cuts <= self.cuts && tags <= self.tags {
            return Ok(());
        }
        if let Some(left) = self.until_refusal {
            self.until_refusal = left.checked_sub(1);
            if left == 0 {
                return Err(Fault::NoMemory);
            }
        }
        self.store.reserve(cells, cuts, tags)?;
        self.cells = self.cells.max(cells);
        self.cuts = self.cuts.max(cuts);
        self.tags = self.tags.max(tags);
        Ok(())
    }

    fn cells(&self) -> usize {
        self.store.cells()
    }

    fn visible(&self) -> usize {
        self.store.visible()
    }

    fn nth(&self, position: usize) -> Cell<StateId> {
        self.store.nth(position)
    }

    fn cell_of(&self, stamp: Stamp) -> Option<Cell<StateId>> {
        self.store.cell_of(stamp)
    }

    fn run_from(&self, stamp: Stamp, last: u64) -> Option<CellRun> {
        self.store.run_from(stamp, last)
    }

    fn place_of(&self, stamp: Stamp) -> Option<usize> {
        self.store.place_of(stamp)
    }

    fn visible_before(&self, position: usize) -> usize {
        self.store.visible_before(position)
    }

    fn lines(&self) -> usize {
        self.store.lines()
    }

    fn char_at(&self, place: usize) -> char {
        self.store.char_at(place)
    }

    fn characters(&self, place: usize, buffer: &mut [char]) -> usize {
        self.store.characters(place, buffer)
    }

    fn cell_at(&self, place: usize) -> Cell<StateId> {
        self.store.cell_at(place)
    }

    fn line_start(&self, line: usize) -> usize {
        self.store.line_start(line)
    }

    fn line_of(&self, place: usize) -> usize {
        self.store.line_of(place)
    }

    fn after_skip(&self, left: Stamp, new: Stamp) -> usize {
        self.store.after_skip(left, new)
    }

    fn next_tagged(&self, states: &StateTable, tag: TagId, place: usize) -> Option<usize> {
        self.store.next_tagged(states, tag, place)
    }

    fn next_untagged(&self, states: &StateTable, tag: TagId, place: usize) -> Option<usize> {
        self.store.next_untagged(states, tag, place)
    }

    fn previous_tagged(&self, states: &StateTable, tag: TagId, place: usize) -> Option<usize> {
        self.store.previous_tagged(states, tag, place)
    }

    fn focus(&mut self, place: usize) {
        self.store.focus(place);
    }

    fn focus_on(&mut self, stamp: Stamp) {
        self.store.focus_on(stamp);
    }

    fn splice(&mut self, states: &StateTable, at: usize, cells: &[Cell<StateId>]) {
        self.store.splice(states, at, cells);
        self.cells -= cells.len();
        self.cuts -= 1;
    }

    fn set_gone(&mut self, states: &StateTable, span: Span) {
        self.store.set_gone(states, span);
        self.cuts -= 2;
    }

    fn set_state(&mut self, states: &StateTable, span: Span, state: StateId) {
        self.store.set_state(states, span, state);
        self.cuts -= 2;
    }
}
