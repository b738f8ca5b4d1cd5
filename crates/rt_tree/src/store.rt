// A tree as the store of a text.
ghost use Rattle.std.specs.Prelude.{◌≡◌, ◌+◌, ◌-◌, ◌*◌, ◌<◌, ◌≤◌, ◌^◌, ◌∷◌, [], IfOk, IfSome, IsOkUnless, Some, false, length, option_map, slice_get, true};
ghost use Rattle.rt_store.specs.Cells.{EndsFinal, final_cell, position_of, visible_before, visible_of};
ghost use Rattle.rt_store.specs.Tagged.{AreStates, next_tagged};
ghost use Rattle.rt_tags.specs.States.{IsTag, KeepsIds, TagStates};
ghost use Rattle.rt_tree.specs.Trees.{AgreesWithTable};

use crate::Tree;
use rt_stamps::{Fault, Span, Stamp};
use rt_store::{Cell, CellRun, TextStore};
use rt_tags::{StateId, StateTable, TagId};
use std::alloc::Global;

/// The cells of a text in the runs of a counted B-tree; the last one is the final newline.
pub struct TreeStore {
    tree: Tree,
    ghost ends: { EndsFinal tree.cells },
    ghost later: { (old new : TagStates) → KeepsIds old new → AgreesWithTable old tree → AgreesWithTable new tree },
    ghost fresh: { (table : TagStates) → tree.cells ≡ final_cell ∷ [] → AreStates table (final_cell ∷ []) → AgreesWithTable table tree },
}

// Written out, so that where it is let go is one step for the crates above, and not one for each
// field of each field.
impl Drop for TreeStore {
    fn drop(self) {
        let TreeStore { tree: _ } = self;
    }
}

impl TreeStore {
    ghost use Rattle.rt_tree.specs.Stores.{AgreesWith, store_cells};

    /// A store of the final newline alone. `NoMemory` is its only fault.
    pub fn new(alloc: Global) -> Result<TreeStore, Fault>
        ensures ok { IfOk result (λ store. store_cells store ≡ final_cell ∷ []) }
        ensures agrees { IfOk result (λ store. (table : TagStates) → AreStates table (final_cell ∷ []) → AgreesWith table store) }
        ensures err { IsOkUnless result Fault.NoMemory }
    {
        let tree = Tree::new(alloc)?;
        Ok(TreeStore { tree })
    }

    /// The tree.
    pub fn tree(&self) -> &Tree
        ensures { result.now ≡ self.now.tree }
    {
        &self.tree
    }

    /// How many levels of nodes the tree has; 1 where the root is a leaf.
    pub fn height(&self) -> usize
        ensures value { result ≡ self.now.tree.height }
        ensures bound { result ≤ 2 ^ 32 }
        ensures full { 2 ≤ result → 2 * 8 ^ (result - 1) ≤ self.now.tree.runs }
    {
        self.tree.height()
    }

    /// How many runs the cells are kept in.
    pub fn runs(&self) -> usize
        ensures { result ≡ self.now.tree.runs }
    {
        self.tree.runs()
    }

    /// The visible cell at a place, as `cell_at` answers. It adds at least one look a level to the counter, and at most sixteen.
    pub fn find(&self, place: usize, looks: &mut u64) -> Cell<StateId>
        requires within { place < length (visible_of (store_cells self.now)) }
        requires room { looks.old + 16 * self.now.tree.height < 2 ^ 64 }
        ensures cell { slice_get (visible_of (store_cells self.now)) place ≡ Some result }
        ensures counted { looks.old + self.now.tree.height ≤ looks.new }
        ensures cost { looks.new ≤ looks.old + 16 * self.now.tree.height }
    {
        self.tree.find(place, looks)
    }

    /// How many visible cells stand before a stamp's cell, as `place_of` answers. At most sixteen looks a level are added to the
    /// counter, and while the map of leaves is sure at least one a level where a cell has the stamp (`Tree::climb`).
    pub fn climb(&self, stamp: Stamp, looks: &mut u64) -> Option<usize>
        requires room { looks.old + 16 * self.now.tree.height < 2 ^ 64 }
        ensures place { result ≡ option_map (visible_before (store_cells self.now)) (position_of (store_cells self.now) stamp) }
        ensures counted { looks.old ≤ looks.new }
        ensures looked { self.now.tree.sure ≡ true → IfSome result (λ _. looks.old + self.now.tree.height ≤ looks.new) }
        ensures unsure { self.now.tree.sure ≡ false → looks.new ≡ looks.old }
        ensures cost { looks.new ≤ looks.old + 16 * self.now.tree.height }
    {
        self.tree.climb(stamp, looks)
    }

    /// The least place from one up whose character has a tag, as `next_tagged` answers. At most thirty-two looks a level are added
    /// to the counter, and at least one a level where there is such a place.
    pub fn find_tagged(
        &self,
        states: &StateTable,
        tag: TagId,
        place: usize,
        looks: &mut u64,
    ) -> Option<usize>
        requires tag { IsTag states.now tag }
        requires agrees { AgreesWith states.now self.now }
        requires room { looks.old + 32 * self.now.tree.height < 2 ^ 64 }
        ensures place { result ≡ next_tagged states.now tag (store_cells self.now) place }
        ensures counted { looks.old ≤ looks.new }
        ensures looked { IfSome result (λ _. looks.old + self.now.tree.height ≤ looks.new) }
        ensures cost { looks.new ≤ looks.old + 32 * self.now.tree.height }
    {
        self.tree.find_tagged(states, tag, place, looks)
    }
}

impl TextStore for TreeStore {
    ghost use Rattle.rt_tree.specs.Trees.{AgreesWithTable};

    ghost list = { λ s. s.tree.cells };

    ghost room = { λ s. s.tree.room };

    ghost agrees = { λ s table. AgreesWithTable table s.tree };

    ghost ends = { λ s. s.ends };

    ghost given = { λ s table agrees. agrees.given };

    ghost grows = { λ s old new keeps agrees. s.later old new keeps agrees };

    ghost fresh = { λ s table is given. s.fresh table is given };

    #[inline(always)]
    fn reserve(&mut self, cells: usize, cuts: usize, tags: usize) -> Result<(), Fault> {
        self.tree.reserve(cells, cuts, tags)
    }

    fn cells(&self) -> usize {
        self.tree.cells()
    }

    fn visible(&self) -> usize {
        self.tree.visible()
    }

    fn nth(&self, position: usize) -> Cell<StateId> {
        self.tree.nth(position)
    }

    fn cell_of(&self, stamp: Stamp) -> Option<Cell<StateId>> {
        self.tree.cell_of(stamp)
    }

    fn run_from(&self, stamp: Stamp, last: u64) -> Option<CellRun> {
        self.tree.run_from(stamp, last)
    }

    fn place_of(&self, stamp: Stamp) -> Option<usize> {
        self.tree.place_of(stamp)
    }

    fn visible_before(&self, position: usize) -> usize {
        self.tree.visible_before(position)
    }

    fn lines(&self) -> usize {
        self.tree.lines()
    }

    fn char_at(&self, place: usize) -> char {
        self.tree.char_at(place)
    }

    fn characters(&self, place: usize, buffer: &mut [char]) -> usize {
        self.tree.characters(place, buffer)
    }

    #[inline(always)]
    fn cell_at(&self, place: usize) -> Cell<StateId> {
        self.tree.cell_at(place)
    }

    fn line_start(&self, line: usize) -> usize {
        self.tree.line_start(line)
    }

    fn line_of(&self, place: usize) -> usize {
        self.tree.line_of(place)
    }

    #[inline(always)]
    fn after_skip(&self, left: Stamp, new: Stamp) -> usize {
        self.tree.after_skip(left, new)
    }

    fn next_tagged(&self, states: &StateTable, tag: TagId, place: usize) -> Option<usize> {
        self.tree.next_tagged(states, tag, place)
    }

    fn next_untagged(&self, states: &StateTable, tag: TagId, place: usize) -> Option<usize> {
        self.tree.next_untagged(states, tag, place)
    }

    fn previous_tagged(&self, states: &StateTable, tag: TagId, place: usize) -> Option<usize> {
        self.tree.previous_tagged(states, tag, place)
    }

    #[inline(always)]
    fn focus(&mut self, place: usize) {
        self.tree.focus(place);
    }

    fn focus_on(&mut self, stamp: Stamp) {
        self.tree.focus_on(stamp);
    }

    fn splice(&mut self, states: &StateTable, at: usize, cells: &[Cell<StateId>]) {
        self.tree.splice(states, at, cells);
    }

    fn set_gone(&mut self, states: &StateTable, span: Span) {
        self.tree.set_gone(states, span);
    }

    fn set_state(&mut self, states: &StateTable, span: Span, state: StateId) {
        self.tree.set_state(states, span, state);
    }
}
