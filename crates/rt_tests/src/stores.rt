// One text in two stores, a list and a tree, by the calls that every store has.
ghost use Rattle.std.specs.Prelude.{◌≡◌, false};
ghost use Rattle.rt_store.specs.ListStore.{list_cells};
ghost use Rattle.rt_store.specs.Tagged.{AreStates};
ghost use Rattle.rt_tags.specs.States.{IsState, IsTag};
ghost use Rattle.rt_tree.specs.Stores.{AgreesWith};

use crate::checks::same;
use rt_stamps::{Fault, ROOT, Span, Stamp};
use rt_store::{Cell, ListStore, TextStore};
use rt_tags::{StateId, StateTable, TagId};
use rt_tree::TreeStore;
use std::alloc::Global;
use std::test::Fail;

/// More cells than any text of these tests has.
const MOST: usize = 3000;

// Puts cells in at a place that a number gives. A call that is out of bounds answers `NoMemory`.
fn put<S: TextStore>(
    store: &mut S,
    states: &StateTable,
    random: usize,
    cells: &[Cell<StateId>],
) -> Result<(), Fault>
    requires cells { AreStates states.now cells.now }
    requires given { S.agrees store.old states.now }
    ensures { S.agrees store.new states.now }
{
    let all = store.cells();
    if all == 0 || all > MOST || cells.len() > 9 {
        return Err(Fault::NoMemory);
    }
    store.reserve(cells.len(), 1, states.tags())?;
    store.splice(states, random % all, cells);
    Ok(())
}

// Makes the cells of a span gone.
fn remove<S: TextStore>(store: &mut S, states: &StateTable, span: Span) -> Result<(), Fault>
    requires given { S.agrees store.old states.now }
    ensures { S.agrees store.new states.now }
{
    if store.cells() > MOST || span.site == 0 {
        return Err(Fault::NoMemory);
    }
    store.reserve(0, 2, states.tags())?;
    store.set_gone(states, span);
    Ok(())
}

// Puts the cells of a span in a state.
fn mark<S: TextStore>(
    store: &mut S,
    states: &StateTable,
    span: Span,
    state: StateId,
) -> Result<(), Fault>
    requires state { IsState states.now state }
    requires given { S.agrees store.old states.now }
    ensures { S.agrees store.new states.now }
{
    if store.cells() > MOST {
        return Err(Fault::NoMemory);
    }
    store.reserve(0, 2, states.tags())?;
    store.set_state(states, span, state);
    Ok(())
}

// Whether two stores have the same cells.
fn same_cells<A: TextStore, B: TextStore>(a: &A, b: &B) -> bool {
    let cells = a.cells();
    if b.cells() != cells || b.visible() != a.visible() || b.lines() != a.lines() {
        return false;
    }
    for at in 0..cells {
        if b.nth(at) != a.nth(at) {
            return false;
        }
    }
    true
}

// Whether two stores have the same cells and lines at their places.
fn same_places<A: TextStore, B: TextStore>(a: &A, b: &B) -> bool {
    if b.visible() != a.visible() || b.lines() != a.lines() {
        return false;
    }
    for place in 0..a.visible() {
        if b.cell_at(place) != a.cell_at(place) || b.line_of(place) != a.line_of(place) {
            return false;
        }
    }
    for line in 0..a.lines() {
        if b.line_start(line + 1) != a.line_start(line + 1) {
            return false;
        }
    }
    true
}

// Whether two stores find the same by a stamp.
fn same_at<A: TextStore, B: TextStore>(a: &A, b: &B, stamp: Stamp) -> bool {
    b.cell_of(stamp) == a.cell_of(stamp) && b.place_of(stamp) == a.place_of(stamp)
}

// Whether two stores find the same by the stamps of cells, and by one of no cell.
fn same_stamps<A: TextStore, B: TextStore>(a: &A, b: &B) -> bool {
    for at in 0..a.cells() {
        if !same_at(a, b, a.nth(at).stamp) {
            return false;
        }
    }
    same_at(a, b, ROOT)
}

// Whether two stores find the same places of a tag.
fn same_tags<A: TextStore, B: TextStore>(a: &A, b: &B, states: &StateTable, tag: TagId) -> bool
    requires tag { IsTag states.now tag }
    requires a { A.agrees a.now states.now }
    requires b { B.agrees b.now states.now }
{
    for place in 0..=a.visible().min(MOST) {
        if a.next_tagged(states, tag, place) != b.next_tagged(states, tag, place)
            || a.next_untagged(states, tag, place) != b.next_untagged(states, tag, place)
            || a.previous_tagged(states, tag, place) != b.previous_tagged(states, tag, place)
        {
            return false;
        }
    }
    true
}

// A cell in a state.
fn cell(count: u64, site: u32, ch: char, state: StateId) -> Cell<StateId>
    ensures { result ≡ record { stamp = record { count = count; site = site }; ch = ch; gone = false; state = state } }
{
    Cell {
        stamp: Stamp { count, site },
        ch,
        gone: false,
        state,
    }
}

/// Both stores, and the table of their states. A call that is out of bounds answers `NoMemory`.
pub(crate) struct Pair {
    states: StateTable,
    tag: TagId,
    tagged: StateId,
    list: ListStore,
    tree: TreeStore,
    ghost tag_given: { IsTag states tag },
    ghost tagged_given: { IsState states tagged },
    ghost list_given: { AreStates states (list_cells list) },
    ghost tree_given: { AgreesWith states tree },
}

// Written out, so that each way out of a test lets the stores go in one step of its proof.
impl Drop for Pair {
    fn drop(self) {
        let Pair {
            states: _,
            tag: _,
            tagged: _,
            list: _,
            tree: _,
        } = self;
    }
}

impl Pair {
    #[tactic(auto, using(rt_store::proofs::GivenStates::one_state))]
    pub(crate) fn new(alloc: Global) -> Result<Pair, Fault> {
        let mut states = StateTable::new(alloc)?;
        let tag = states.number("t")?;
        let tagged = states.with(StateId::EMPTY, tag, ROOT, true)?;
        let list = ListStore::new(alloc)?;
        let tree = TreeStore::new(alloc)?;
        Ok(Pair {
            states,
            tag,
            tagged,
            list,
            tree,
        })
    }

    fn put(&mut self, random: usize, cells: &[Cell<StateId>]) -> Result<(), Fault>
        requires { AreStates self.old.states cells.now }
        ensures states { self.new.states ≡ self.old.states }
        ensures tagged { self.new.tagged ≡ self.old.tagged }
    {
        put(&mut self.list, &self.states, random, cells)?;
        put(&mut self.tree, &self.states, random, cells)
    }

    // What follows is about the text around a place, or about none where it is no place of the text.
    fn focus(&mut self, place: usize)
        ensures states { self.new.states ≡ self.old.states }
        ensures tagged { self.new.tagged ≡ self.old.tagged }
    {
        self.list.focus(place);
        self.tree.focus(place);
    }

    // A new cell with the tag.
    #[tactic(auto, using(rt_store::proofs::GivenStates::one_state))]
    fn one(&mut self, random: usize, count: u64, site: u32, ch: char) -> Result<(), Fault> {
        let new = cell(count, site, ch, self.tagged);
        self.put(random, &[new])
    }

    /// A new cell without tags.
    #[tactic(auto, using(rt_store::proofs::GivenStates::one_state))]
    pub(crate) fn plain(
        &mut self,
        at: usize,
        count: u64,
        site: u32,
        ch: char,
    ) -> Result<(), Fault> {
        let new = cell(count, site, ch, StateId::EMPTY);
        self.put(at, &[new])
    }

    /// Three new cells of one site without tags.
    pub(crate) fn paste(
        &mut self,
        at: usize,
        count: u64,
        site: u32,
        text: [char; 3],
    ) -> Result<(), Fault> {
        if count > 1_000_000 {
            return Err(Fault::NoMemory);
        }
        let [a, b, c] = text;
        let a = cell(count, site, a, StateId::EMPTY);
        let b = cell(count + 1, site, b, StateId::EMPTY);
        let c = cell(count + 2, site, c, StateId::EMPTY);
        self.put(at, &[a, b, c])
    }

    // Some new cells, of counts that follow one another.
    fn some(&mut self, random: usize, count: u64, site: u32) -> Result<(), Fault> {
        if count > 1000 {
            return Err(Fault::NoMemory);
        }
        let state = self.tagged;
        let a = cell(count, site, 'a', state);
        let b = cell(count + 1, site, 'b', state);
        let c = cell(count + 2, site, '\n', state);
        let d = cell(count + 3, site, 'd', state);
        self.put(random, &[a, b, c, d])
    }

    // Some new cells, two of which have one stamp.
    fn twice(&mut self, random: usize, count: u64, site: u32) -> Result<(), Fault> {
        if count > 1000 {
            return Err(Fault::NoMemory);
        }
        let state = self.tagged;
        let a = cell(count, site, 'e', state);
        let b = cell(count + 1, site, 'f', state);
        let c = cell(count, site, 'g', state);
        let d = cell(count + 1, site, 'h', state);
        self.put(random, &[a, b, c, d])
    }

    /// The cells of a span become gone.
    pub(crate) fn remove(&mut self, span: Span) -> Result<(), Fault> {
        remove(&mut self.list, &self.states, span)?;
        remove(&mut self.tree, &self.states, span)
    }

    /// The cells of a span get the tag, or lose it.
    pub(crate) fn mark(&mut self, span: Span, on: bool) -> Result<(), Fault> {
        let state = if on { self.tagged } else { StateId::EMPTY };
        mark(&mut self.list, &self.states, span, state)?;
        mark(&mut self.tree, &self.states, span, state)
    }

    /// Whether both have the same cells.
    pub(crate) fn has_same_cells(&self) -> bool {
        same_cells(&self.list, &self.tree)
    }

    /// Whether another store has the same cells as the tree.
    pub(crate) fn has_cells_of<S: TextStore>(&self, store: &S) -> bool {
        same_cells(store, &self.tree)
    }

    /// Whether both have the same cells, and find the same by stamps and by the tag.
    pub(crate) fn is_same(&self) -> bool {
        self.has_same_cells()
            && same_stamps(&self.list, &self.tree)
            && same_tags(&self.list, &self.tree, &self.states, self.tag)
    }

    // Whether both have the same cells and lines at their places.
    fn has_same_places(&self) -> bool {
        same_places(&self.list, &self.tree)
    }

    /// Whether both put the same characters into a buffer from each of the first places on, and leave the rest of it.
    pub(crate) fn same_characters(&self) -> bool {
        for place in 0..5 {
            let mut ours = ['-'; 4];
            let mut theirs = ['-'; 4];
            let count = self.tree.characters(place, &mut ours);
            if count != self.list.characters(place, &mut theirs) || ours != theirs {
                return false;
            }
        }
        true
    }

    /// Whether both put a new stamp's cell at the same position, at the very beginning of the text.
    pub(crate) fn same_skip(&self, new: Stamp) -> bool {
        if self.tree.cells() == 0 || self.list.cells() == 0 || new.count < 2 {
            return false;
        }
        self.tree.after_skip(ROOT, new) == self.list.after_skip(ROOT, new)
    }

    /// The next tagged place of the tree, and how many looks more a counter has then.
    pub(crate) fn search(&self, place: usize, before: u32) -> (Option<usize>, u64) {
        self.tree.height();
        let mut looks = before as u64;
        let found = self
            .tree
            .find_tagged(&self.states, self.tag, place, &mut looks);
        (found, looks.saturating_sub(before as u64))
    }

    /// The next tagged place of the list.
    pub(crate) fn next_tagged(&self, place: usize) -> Option<usize> {
        self.list.next_tagged(&self.states, self.tag, place)
    }

    /// How many visible characters stand before a stamp's cell, in the list and in the tree.
    pub(crate) fn places(&self, stamp: Stamp) -> (Option<usize>, Option<usize>) {
        (self.list.place_of(stamp), self.tree.place_of(stamp))
    }

    /// How many visible characters stand before a stamp's cell in the tree, by a climb, and how many looks more a counter has.
    pub(crate) fn climb(&self, stamp: Stamp, before: u32) -> (Option<usize>, u64) {
        self.tree.height();
        let mut looks = before as u64;
        let place = self.tree.climb(stamp, &mut looks);
        (place, looks.saturating_sub(before as u64))
    }

    /// The count to which the tree's cells go on from that of a stamp, at most to one, and whether they are gone.
    pub(crate) fn run_from(&self, stamp: Stamp, last: u64) -> Option<(u64, bool)> {
        if last < stamp.count {
            return None;
        }
        let run = self.tree.run_from(stamp, last)?;
        Some((run.last, run.cell.gone))
    }

    /// Whether the tree finds stamps by climbs alone.
    pub(crate) fn is_sure(&self) -> bool {
        self.tree.tree().is_sure()
    }

    /// How many runs the tree has, and how many levels.
    pub(crate) fn shape(&self) -> (usize, usize) {
        (self.tree.runs(), self.tree.height())
    }

    /// How many cells there are, and the stamp of one of them.
    pub(crate) fn some_stamp(&self, random: usize) -> (usize, Stamp) {
        let cells = self.tree.cells();
        if cells == 0 {
            return (0, ROOT);
        }
        (cells, self.tree.nth(random % cells).stamp)
    }

    // One call that a number gives. Stamps are few, so that many stand twice.
    fn turn(&mut self, random: usize, more: usize) -> Result<(), Fault> {
        let site = 1 + (more % 3) as u32;
        let first = 1 + (more / 3 % 90) as u64;
        let last = first + (more / 300 % 20) as u64;
        let span = Span { site, first, last };
        match random % 8 {
            0 => self.remove(span),
            1 | 2 => self.mark(span, true),
            3 | 4 => self.mark(span, false),
            5 => self.one(random / 8, first, site, '\n'),
            6 => self.twice(random / 8, first, site),
            _ => self.some(random / 8, first, site),
        }
    }
}

/// 300 runs of one character of site 1 each, on several levels: they come in at the beginning, from a last count down.
pub(crate) fn many_runs(alloc: Global, last: u64) -> Result<Pair, Fault> {
    let mut pair = Pair::new(alloc)?;
    for round in 0..300 {
        pair.plain(0, last.saturating_sub(round), 1, 'a')?;
    }
    Ok(pair)
}

// A series of pseudo-random calls: after each, both stores have the same cells and give the same answers.
#[test]
fn a_series_of_calls(rt: HostRuntime) -> Result<(), Fail> {
    let mut pair = Pair::new(rt.alloc())?;
    let mut seed: u32 = 11;
    for _ in 0..150 {
        seed = seed.wrapping_mul(1_664_525).wrapping_add(1_013_904_223);
        let random = (seed / 65_536) as usize;
        seed = seed.wrapping_mul(1_664_525).wrapping_add(1_013_904_223);
        pair.turn(random, (seed / 65_536) as usize)?;
        pair.focus(random % 300);
        assert!(rt; pair.is_same());
        if random % 3 == 0 {
            assert!(rt; pair.has_same_places());
        }
    }
    same(&rt, pair.is_sure(), false);
    for place in 0..40 {
        same(&rt, pair.search(place, 0).0, pair.next_tagged(place));
    }
    Ok(())
}
