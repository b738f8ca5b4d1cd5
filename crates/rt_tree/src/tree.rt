// The cells of a text in a tree.
ghost use Rattle.std.specs.Prelude.{◌≡◌, ◌+◌, ◌-◌, ◌*◌, ◌<◌, ◌≤◌, ◌^◌, [], ◌∷◌, length, map, min, take, drop, take_while, slice_get};
ghost use Rattle.std.specs.Prelude.{option_map, if◌then◌else◌, Some, IfOk, IfSome, IsOkUnless, false, true};
ghost use Rattle.rt_stamps.specs.Places.{line_of, line_start, newlines};
ghost use Rattle.rt_stamps.specs.Stamps.{is_before};
ghost use Rattle.rt_store.specs.Cells.{AreDistinct, StandsBefore, after_element, cell_of, final_cell, position_of, skip_from, text_of};
ghost use Rattle.rt_store.specs.Cells.{visible_before, visible_of};
ghost use Rattle.rt_tags.specs.States.{TagStates};
ghost use Rattle.rt_tree.specs.Sharing.{AreBelowGreatest};
ghost use Rattle.rt_tree.specs.Trees.{AreRight, HasOwn, final_run};

mod changing;
mod running;
mod tagging;

use crate::copy::copy;
use crate::find::{cell_in, find, has, height};
use crate::homes::{Homes, Sought, is_leaf};
use crate::looks::Counted;
use crate::near::{found_near, is_in, run_near};
use crate::node::{CountedBy, Counts, Entry, Head, Mem, Run};
use crate::node_entry::insert_entry;
use crate::skip::{is_low, passed};
use crate::summed::Summaries;
use crate::sums::counts_of_run;
use crate::up::{ascend, place_in};
use crate::walk::Found;
use rt_nodes::{NodeId, NodeMem};
use rt_stamps::{FINAL, Fault, ROOT, Stamp};
use rt_store::Cell;
use rt_tags::StateId;
use std::alloc::Global;
use std::marker::Model;

/// The cells of a text in the runs of a counted B-tree.
pub struct Tree {
    mem: Mem,
    root: NodeId,
    // The characters of all runs, in the order in which they came.
    text: Vec<char>,
    runs: usize,
    // How many cells, visible ones and newlines there are.
    counts: Counts,
    // The greatest count that a cell has, or a greater one.
    newest: u64,
    // Where stamps are.
    homes: Homes,
    // What there is room for.
    spare_cells: usize,
    spare_cuts: usize,
    spare_tags: usize,
    // What is kept for each node of the tags below it.
    sums: Summaries,
    // The run that got longer last or was looked for, and where it stands, while no other change was made.
    last: Option<Found>,
}

// Written out, so that where it is let go is one step for the crates above, and not one for each
// field of each field.
impl Drop for Tree {
    fn drop(self) {
        let Tree {
            mem: _,
            root: _,
            text: _,
            runs: _,
            counts: _,
            newest: _,
            homes: _,
            spare_cells: _,
            spare_cuts: _,
            spare_tags: _,
            sums: _,
            last: _,
        } = self;
    }
}

impl Model for Tree {
    ghost use Rattle.rt_tree.specs.Sound.{TreeIsSound};
    ghost use Rattle.rt_tree.specs.Trees.{TreeValue, tree_value};

    ghost Value = { TreeValue };

    ghost view = { λ t. tree_value t.mem t.root.index t.text.items t.sums.each.items
        (record { cells = t.spare_cells; cuts = t.spare_cuts; tags = t.spare_tags }) t.homes.sure };

    ghost invariant = { TreeIsSound };
}

// The run of the final newline, as it is at first.
fn final_run() -> Run
    ensures { result ≡ final_run }
{
    Run {
        first: FINAL.count,
        state: StateId::EMPTY,
        at: 0,
        len: 1,
        site: FINAL.site,
        gone: false,
        newline: true,
    }
}

// How many of the first cells of a run are visible.
fn visible_part(run: Run, count: usize) -> usize
    ensures { result ≡ (if run.gone then 0 else count) }
{
    if run.gone { 0 } else { count }
}

impl Tree {
    /// A tree of the final newline alone. `NoMemory` is its only fault.
    pub fn new(alloc: Global) -> Result<Tree, Fault>
        ensures cells { IfOk result (λ tree. tree.cells ≡ final_cell ∷ []) }
        ensures runs { IfOk result (λ tree. tree.runs ≡ 1) }
        ensures height { IfOk result (λ tree. tree.height ≡ 1) }
        ensures room { IfOk result (λ tree. tree.room ≡ record { cells = 0; cuts = 0; tags = 0 }) }
        ensures right { IfOk result (λ tree. (table : TagStates) → AreRight table tree.stretches) }
        ensures own { IfOk result HasOwn }
        ensures err { IsOkUnless result Fault.NoMemory }
    {
        let mut text = Vec::with_capacity(alloc, 1)?;
        text.push('\n')?;
        let mut mem = NodeMem::new(alloc);
        mem.reserve(1)?;
        let root = mem.make(Head {
            parent: NodeId { index: 0 },
            level: 0,
        });
        insert_entry(&mut mem, root, 0, Entry::Here(final_run()));
        let homes = Homes::new(alloc, root)?;
        let sums = Summaries::of_one(alloc, StateId::EMPTY)?;
        Ok(Tree {
            mem,
            root,
            text,
            runs: 1,
            counts: counts_of_run(final_run()),
            newest: FINAL.count,
            homes,
            spare_cells: 0,
            spare_cuts: 0,
            spare_tags: 0,
            sums,
            last: None,
        })
    }

    /// How many levels of nodes there are: 1 where the root is a leaf. A tree of many levels has many runs.
    pub fn height(&self) -> usize
        ensures value { result ≡ self.now.height }
        ensures bound { result ≤ 2 ^ 32 }
        ensures full { 2 ≤ result → 2 * 8 ^ (result - 1) ≤ self.now.runs }
    {
        height(&self.mem, self.root)
    }

    /// How many runs the cells are kept in.
    pub fn runs(&self) -> usize
        ensures { result ≡ self.now.runs }
    {
        self.runs
    }

    /// How many cells there are, gone ones too.
    pub fn cells(&self) -> usize
        ensures { result ≡ length self.now.cells }
    {
        self.counts.cells as usize
    }

    /// How many of them are visible.
    pub fn visible(&self) -> usize
        ensures { result ≡ length (visible_of self.now.cells) }
    {
        self.counts.visible as usize
    }

    /// How many lines the text has.
    pub fn lines(&self) -> usize
        ensures { result ≡ newlines (text_of self.now.cells) }
    {
        self.counts.newlines as usize
    }

    /// The cell at a position, gone or not.
    pub fn nth(&self, position: usize) -> Cell<StateId>
        requires { position < length self.now.cells }
        ensures { slice_get self.now.cells position ≡ Some result }
    {
        let found = run_near(&self.mem, self.root, &self.last, CountedBy::Cells, position);
        cell_in(&self.text, &found.run, found.spot.offset)
    }

    /// The visible cell at a place. It adds at least one look a level to the counter, and at most sixteen.
    pub fn find(&self, place: usize, looks: &mut u64) -> Cell<StateId>
        requires within { place < length (visible_of self.now.cells) }
        requires room { looks.old + 16 * self.now.height < 2 ^ 64 }
        ensures cell { slice_get (visible_of self.now.cells) place ≡ Some result }
        ensures counted { looks.old + self.now.height ≤ looks.new }
        ensures cost { looks.new ≤ looks.old + 16 * self.now.height }
    {
        let found = find(&self.mem, self.root, CountedBy::Visible, place, looks);
        cell_in(&self.text, &found.run, found.spot.offset)
    }

    /// Keeps in mind where the visible cell before a place stands, if there is one: until the next change, look-ups of cells
    /// of its run go there at once.
    #[inline(always)]
    pub fn focus(&mut self, place: usize)
        ensures { self.new ≡ self.old }
    {
        if place == 0 || place > self.counts.visible as usize {
            return;
        }
        if is_in(&self.last, CountedBy::Visible, place - 1) {
            return;
        }
        let (mem, root) = (&self.mem, self.root);
        let found = found_near(mem, root, &self.last, CountedBy::Visible, place - 1);
        self.last = Some(found);
    }

    /// Keeps in mind where the cell of a stamp stands, if the map of leaves tells: as `focus` does for a place.
    pub fn focus_on(&mut self, stamp: Stamp)
        ensures { self.new ≡ self.old }
    {
        let (mem, root) = (&self.mem, self.root);
        if self.homes.near(mem, root, &self.last, stamp).is_some() {
            return;
        }
        if let Some(found) = self.homes.stands(mem, root, stamp) {
            self.last = Some(found);
        }
    }

    /// The visible cell at a place.
    #[inline(always)]
    pub fn cell_at(&self, place: usize) -> Cell<StateId>
        requires { place < length (visible_of self.now.cells) }
        ensures { slice_get (visible_of self.now.cells) place ≡ Some result }
    {
        let shown = run_near(&self.mem, self.root, &self.last, CountedBy::Visible, place);
        cell_in(&self.text, &shown.run, shown.spot.offset)
    }

    /// The character at a place.
    pub fn char_at(&self, place: usize) -> char
        requires { place < length (visible_of self.now.cells) }
        ensures { slice_get (text_of self.now.cells) place ≡ Some result }
    {
        self.cell_at(place).ch
    }

    /// Puts the characters from a place on into a buffer, from its front on: all that the text has
    /// there, or as many as the buffer holds. Answers how many these are; what is behind them in the
    /// buffer stays. Takes no memory.
    pub fn characters(&self, place: usize, buffer: &mut [char]) -> usize
        ensures count { result ≡ min (length buffer.old) (length (text_of self.now.cells) - place) }
        ensures characters { take result buffer.new ≡ take result (drop place (text_of self.now.cells)) }
        ensures rest { drop result buffer.new ≡ drop result buffer.old }
    {
        let left = self.visible().saturating_sub(place);
        let count = left.min(buffer.len());
        let mut done = 0;
        while done < count {
            let found = run_near(
                &self.mem,
                self.root,
                &self.last,
                CountedBy::Visible,
                place + done,
            );
            let rest = found.run.len as usize - found.spot.offset;
            let more = rest.min(count - done);
            let from = found.run.at as usize + found.spot.offset;
            copy(&self.text, from, buffer, done, more);
            done += more;
        }
        count
    }

    /// The first place of a line, counted from 1.
    pub fn line_start(&self, line: usize) -> usize
        requires { (1 ≤ line) × (line ≤ newlines (text_of self.now.cells)) }
        ensures { result ≡ line_start (text_of self.now.cells) line }
    {
        if line == 1 {
            return 0;
        }
        let found = run_near(
            &self.mem,
            self.root,
            &self.last,
            CountedBy::Newlines,
            line - 2,
        );
        found.before.visible as usize + found.run.len as usize
    }

    /// The line of a place, counted from 1.
    pub fn line_of(&self, place: usize) -> usize
        requires { place ≤ length (visible_of self.now.cells) }
        ensures { result ≡ line_of (text_of self.now.cells) place }
    {
        let all = self.counts;
        if place == all.visible as usize {
            return all.newlines as usize + 1;
        }
        let found = run_near(&self.mem, self.root, &self.last, CountedBy::Visible, place);
        found.before.newlines as usize + 1
    }

    /// The first position from one on whose cell's stamp isn't greater than a new one, or the end. It
    /// goes past whole subtrees with greater stamps alone, and looks at no cell if none has so great a count.
    #[inline(always)]
    pub fn skip(&self, position: usize, new: Stamp) -> usize
        requires { position < length self.now.cells }
        ensures { result ≡ position + length (take_while (λ cell. is_before new cell.stamp) (drop position self.now.cells)) }
    {
        if new.count > self.newest {
            return position;
        }
        self.skip_past(position, new)
    }

    // The first position from one on whose cell's stamp isn't greater than a new one, or the end, by look-ups.
    #[inline(never)]
    fn skip_past(&self, position: usize, new: Stamp) -> usize
        requires { position < length self.now.cells }
        ensures { result ≡ position + length (take_while (λ cell. is_before new cell.stamp) (drop position self.now.cells)) }
    {
        let cell = self.nth(position);
        if is_low(cell.stamp, new) {
            return position;
        }
        passed(&self.mem, self.root, self.root, position + 1, new)
    }

    // The position of the first cell that has a stamp, by a walk from run to run.
    fn walk_to_stamp(&self, stamp: Stamp) -> Option<usize>
        ensures { result ≡ position_of self.now.cells stamp }
    {
        let all = self.cells();
        let mut at = 0;
        while at < all {
            let found = run_near(&self.mem, self.root, &self.last, CountedBy::Cells, at);
            let begin = at - found.spot.offset;
            if has(found.run, stamp) {
                return Some(begin + (stamp.count - found.run.first) as usize);
            }
            at = begin + found.run.len as usize;
        }
        None
    }

    // The first cell that has a stamp, by that walk.
    fn walked_cell(&self, stamp: Stamp) -> Option<Cell<StateId>>
        ensures { result ≡ cell_of self.now.cells stamp }
    {
        let position = self.walk_to_stamp(stamp)?;
        Some(self.nth(position))
    }

    /// The position of the cell of a stamp, gone or not; none if no cell has the stamp.
    #[inline(always)]
    pub fn position_of(&self, stamp: Stamp) -> Option<usize>
        ensures { result ≡ position_of self.now.cells stamp }
    {
        match self.homes.near(&self.mem, self.root, &self.last, stamp) {
            Some(home) => Some(home.position(stamp)),
            None => self.sought_position(stamp),
        }
    }

    // What `position_of` answers, where the cell isn't in the run that is known.
    #[inline(never)]
    fn sought_position(&self, stamp: Stamp) -> Option<usize>
        ensures { result ≡ position_of self.now.cells stamp }
    {
        match self.homes.look_up(&self.mem, self.root, &self.last, stamp) {
            Sought::Nowhere => None,
            Sought::At(home) => Some(home.position(stamp)),
            Sought::Unknown => self.walk_to_stamp(stamp),
        }
    }

    /// The cell of a stamp, gone or not; none if no cell has the stamp.
    pub fn cell_of(&self, stamp: Stamp) -> Option<Cell<StateId>>
        ensures { result ≡ cell_of self.now.cells stamp }
    {
        match self.homes.look_up(&self.mem, self.root, &self.last, stamp) {
            Sought::Nowhere => None,
            Sought::At(home) => Some(home.cell(&self.text, stamp)),
            Sought::Unknown => self.walked_cell(stamp),
        }
    }

    /// How many visible cells stand before the one at a position.
    pub fn visible_before(&self, position: usize) -> usize
        requires { position < length self.now.cells }
        ensures { result ≡ visible_before self.now.cells position }
    {
        let found = run_near(&self.mem, self.root, &self.last, CountedBy::Cells, position);
        found.before.visible as usize + visible_part(found.run, found.spot.offset)
    }

    // How many visible cells stand before the first cell that has a stamp, by a walk from run to run.
    fn walked_place(&self, stamp: Stamp) -> Option<usize>
        ensures { result ≡ option_map (visible_before self.now.cells) (position_of self.now.cells stamp) }
    {
        let position = self.walk_to_stamp(stamp)?;
        Some(self.visible_before(position))
    }

    /// Whether look-ups by stamps go by the map of leaves, and so by at most sixteen looks a level: always where no two cells have
    /// one stamp and no count is the greatest that there is.
    pub fn is_sure(&self) -> bool
        ensures value { result ≡ self.now.sure }
        ensures distinct { AreDistinct self.now.cells → AreBelowGreatest self.now.cells → result ≡ true }
    {
        self.homes.sure
    }

    /// How many visible cells stand before a stamp's cell, as `place_of` answers, by one look-up in the map of leaves and a walk
    /// up from the leaf. At most sixteen looks a level are added to the counter, and at least one a level where a cell has
    /// the stamp. Where the map isn't sure (`is_sure`), since a stamp came twice or one with the greatest count that there
    /// is, a walk over all runs answers, and counts no looks.
    pub fn climb(&self, stamp: Stamp, looks: &mut u64) -> Option<usize>
        requires room { looks.old + 16 * self.now.height < 2 ^ 64 }
        ensures place { result ≡ option_map (visible_before self.now.cells) (position_of self.now.cells stamp) }
        ensures counted { looks.old ≤ looks.new }
        ensures looked { self.now.sure ≡ true → IfSome result (λ _. looks.old + self.now.height ≤ looks.new) }
        ensures unsure { self.now.sure ≡ false → looks.new ≡ looks.old }
        ensures cost { looks.new ≤ looks.old + 16 * self.now.height }
    {
        if !self.homes.sure {
            return self.walked_place(stamp);
        }
        let leaf = self.homes.leaf_of(stamp)?;
        if !is_leaf(&self.mem, leaf) {
            return None;
        }
        let mem = &self.mem;
        let mut sight = Counted { mem, looks };
        ascend(&mut sight, self.root, leaf, stamp)
    }

    /// How many visible cells stand before a stamp's cell, which is its place if it is visible; none if
    /// no cell has the stamp.
    pub fn place_of(&self, stamp: Stamp) -> Option<usize>
        ensures { result ≡ option_map (visible_before self.now.cells) (position_of self.now.cells stamp) }
    {
        if let Some(home) = self.homes.near(&self.mem, self.root, &self.last, stamp) {
            return Some(place_in(home.run, home.before, stamp));
        }
        // For its clause alone: it bounds the levels, and so the looks.
        self.height();
        let mut looks = 0;
        self.climb(stamp, &mut looks)
    }

    // The position after an element.
    #[inline(always)]
    fn after_element(&self, left: Stamp) -> usize
        requires { StandsBefore self.now.cells left }
        ensures { result ≡ after_element self.now.cells left }
    {
        // For its clause alone: a `usize` holds the number of cells, so `+ 1` can't overflow.
        self.cells();
        if left == ROOT {
            0
        } else {
            self.position_of(left).unwrap() + 1
        }
    }

    /// The position where a new character goes whose left element is `left`: behind it and past all
    /// cells directly behind it that have greater stamps (Replicated Growable Array, JPDC 2011).
    #[inline(always)]
    pub fn after_skip(&self, left: Stamp, new: Stamp) -> usize
        requires { StandsBefore self.now.cells left }
        ensures { result ≡ skip_from self.now.cells left new }
    {
        let after = self.after_element(left);
        self.skip(after, new)
    }
}
