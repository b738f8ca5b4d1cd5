// New cells put in.
ghost use Rattle.std.specs.Prelude.{◌≡◌, ◌+◌, ◌<◌, ◌≤◌, ◌^◌, ◌∷◌, ◌&&◌, true, nat_lt, IfSome, None, drop, length};
ghost use Rattle.std.specs.List.{AllByRecursion, list_any};
ghost use Rattle.rt_stamps.specs.declared.limits.TheConstants.{MOST_CELLS};
ghost use Rattle.rt_store.specs.Cells.{put_at};
ghost use Rattle.rt_store.specs.Tagged.{AreStates};
ghost use Rattle.rt_tree.specs.Additions.{EndsWith, IsFrontOf, IsRunOf, IsStretch, follows, run_from, stretch_count};
ghost use Rattle.rt_tree.specs.Growing.{EndsThere, GoOnIn};
ghost use Rattle.rt_tree.specs.Holds.{Holds, IsEndAt};
ghost use Rattle.rt_tree.specs.Homes.{AreHome};
ghost use Rattle.rt_tree.specs.Runs.{IsRun, cells_of_runs};
ghost use Rattle.rt_tree.specs.Shape.{IsTree, tree_runs};
ghost use Rattle.rt_tree.specs.Sharing.{AreApart, AreBelowGreatest, AreKnown, AreOnce, NoneIsNewer, is_shared_by};
ghost use Rattle.rt_tree.specs.Standing.{AreHoused};
ghost use Rattle.rt_tree.specs.Stretches.{AreChanged, AreRunsOfText, IsEdge, lengths};
ghost use Rattle.rt_tree.specs.Summaries.{AreTold};
ghost use Rattle.rt_tree.specs.Sums.{counts_of};
ghost use Rattle.rt_tree.specs.Trees.{HasNodes};

use crate::cut::{CutEnd, CutPlace, RootChange, cut_home};
use crate::extend::{New, extend};
use crate::find::{cells_of, first_stamp, has, run_at};
use crate::homes::Homes;
use crate::node::{CountedBy, Mem, Run};
use crate::put::{NewRun, behind, put_home};
use crate::summed::Summaries;
use crate::walk::{Found, Spot};
use rt_nodes::NodeId;
use rt_store::Cell;
use rt_tags::{StateId, StateTable};

// Whether a cell goes on where another ends.
#[inline(always)]
fn follows(before: Cell<StateId>, cell: Cell<StateId>) -> bool
    ensures { result ≡ follows before cell }
{
    cell.state == before.state
        && cell.gone == before.gone
        && cell.stamp.site == before.stamp.site
        && cell.stamp.count > before.stamp.count
        && cell.stamp.count - before.stamp.count == 1
        && before.ch != '\n'
}

// How many cells at the front are one stretch.
#[inline(always)]
fn stretch(cells: &[Cell<StateId>]) -> usize
    requires { 0 < length cells.now }
    ensures { IsStretch cells.now result }
{
    for i in 1..cells.len() {
        if !follows(cells[i - 1], cells[i]) {
            return i;
        }
    }
    cells.len()
}

// A run from a first cell on.
#[inline(always)]
fn run_from(first: Cell<StateId>, at: u32, len: u32, newline: bool) -> Run
    ensures { result ≡ run_from first at len newline }
{
    Run {
        first: first.stamp.count,
        state: first.state,
        at,
        len,
        site: first.stamp.site,
        gone: first.gone,
        newline,
    }
}

// The run of the first cells, whose characters are the last of the text.
#[inline(always)]
pub(crate) fn run_of(text: &[char], cells: &[Cell<StateId>]) -> Run
    requires some { 0 < length cells.now }
    requires last { EndsWith text.now cells.now }
    requires short { length text.now ≤ MOST_CELLS }
    ensures { IsRunOf text.now cells.now result }
{
    let len = stretch(cells);
    let last = cells[len - 1];
    let at = (text.len() - cells.len()) as u32;
    run_from(cells[0], at, len as u32, last.ch == '\n')
}

// The run of the cells from one on.
#[inline(always)]
fn next_run(text: &[char], cells: &[Cell<StateId>], done: usize) -> Run
    requires some { done < length cells.now }
    requires last { EndsWith text.now cells.now }
    requires short { length text.now ≤ MOST_CELLS }
    ensures { IsRunOf text.now (drop done cells.now) result }
{
    run_of(text, &cells[done..])
}

// The run of the first cell alone.
#[inline(always)]
fn first_run(text: &[char], cells: &[Cell<StateId>]) -> Run
    requires some { 0 < length cells.now }
    requires last { EndsWith text.now cells.now }
    requires short { length text.now ≤ MOST_CELLS }
    ensures run { IsFrontOf text.now cells.now result }
    ensures one { result.len ≡ 1 }
{
    let first = cells[0];
    let at = (text.len() - cells.len()) as u32;
    run_from(first, at, 1, first.ch == '\n')
}

// The run of the cell after so many.
#[inline(always)]
fn lone_run(text: &[char], cells: &[Cell<StateId>], done: usize) -> Run
    requires some { done < length cells.now }
    requires last { EndsWith text.now cells.now }
    requires short { length text.now ≤ MOST_CELLS }
    ensures run { IsFrontOf text.now (drop done cells.now) result }
    ensures one { result.len ≡ 1 }
{
    first_run(text, &cells[done..])
}

// Whether another run of more than one cell has a stamp of a run.
fn is_shared_by(run: &Run, other: &Run) -> bool
    ensures { result ≡ is_shared_by run.now other.now }
{
    other.len > 1 && (has(*other, first_stamp(run)) || has(*run, first_stamp(other)))
}

// The greatest of a count and those of cells.
#[inline(always)]
pub(crate) fn newest_of(newest: u64, cells: &[Cell<StateId>]) -> u64
    ensures least { newest ≤ result }
    ensures cells { NoneIsNewer result cells.now }
{
    let mut newest = newest;
    for cell in cells {
        newest = newest.max(cell.stamp.count);
    }
    newest
}

// Whether a run of a tree, of more than one cell, has a stamp of a run. No run is looked at if no cell has so great a count.
pub(crate) fn is_shared(mem: &Mem, root: NodeId, newest: u64, run: &Run) -> bool
    requires tree { IsTree mem.now root.index }
    requires kept { AreRunsOfText (tree_runs mem.now root.index) }
    requires known { AreKnown newest (tree_runs mem.now root.index) }
    requires few { (counts_of (tree_runs mem.now root.index)).cells ≤ MOST_CELLS }
    ensures { result ≡ list_any (is_shared_by run.now) (tree_runs mem.now root.index) }
{
    if run.first > newest {
        return false;
    }
    let all = cells_of(mem, root);
    let mut at = 0;
    while at < all {
        let found = run_at(mem, root, CountedBy::Cells, at);
        if is_shared_by(run, &found.run) {
            return true;
        }
        at += found.run.len as usize;
    }
    false
}

// Whether a run of more than one cell shares a stamp with one of a tree.
fn is_in_two(mem: &Mem, root: NodeId, newest: u64, run: &Run, homes: &Homes) -> bool
    requires some { 0 < run.now.len }
    requires counts { run.now.first + run.now.len ≤ 2 ^ 64 }
    requires home { homes.now.sure ≡ true → AreHome homes.now.leaves (tree_runs mem.now root.index) }
    requires tree { IsTree mem.now root.index }
    requires kept { AreRunsOfText (tree_runs mem.now root.index) }
    requires known { AreKnown newest (tree_runs mem.now root.index) }
    requires few { (counts_of (tree_runs mem.now root.index)).cells ≤ MOST_CELLS }
    ensures { result ≡ (nat_lt 1 run.now.len && list_any (is_shared_by run.now) (tree_runs mem.now root.index)) }
{
    if run.len == 1 {
        return false;
    }
    if homes.is_new(newest, run) {
        return false;
    }
    is_shared(mem, root, newest, run)
}

// A run for the next cells, and how many cells then come alone.
#[derive(Clone, Copy)]
struct Next {
    run: Run,
    lone: usize,
}

// The run that the cells after so many begin with: that of their stretch, or of one cell alone, where a run of more than one
// cell would share a stamp with another.
#[inline(always)]
fn choose(
    mem: &Mem,
    root: NodeId,
    new: &New<'_>,
    done: usize,
    lone: usize,
    newest: u64,
    homes: &Homes,
) -> Next
    requires home { homes.now.sure ≡ true → AreHome homes.now.leaves (tree_runs mem.now root.index) }
    requires tree { IsTree mem.now root.index }
    requires kept { AllByRecursion (IsRun new.now.text.now) (tree_runs mem.now root.index) }
    requires apart { AreApart (tree_runs mem.now root.index) }
    requires upto { NoneIsNewer newest (cells_of_runs new.now.text.now (tree_runs mem.now root.index)) }
    requires few { (counts_of (tree_runs mem.now root.index)).cells ≤ MOST_CELLS }
    requires some { done < length new.now.cells.now }
    requires last { EndsWith new.now.text.now new.now.cells.now }
    requires short { length new.now.text.now ≤ MOST_CELLS }
    ensures run { IsFrontOf new.now.text.now (drop done new.now.cells.now) result.run }
    ensures apart { AreApart (result.run ∷ tree_runs mem.now root.index) }
    ensures stretch { lone ≡ 0 → AreOnce (cells_of_runs new.now.text.now (tree_runs mem.now root.index)) (drop done new.now.cells.now)
        → IsStretch (drop done new.now.cells.now) result.run.len × (result.lone ≡ 0) }
{
    if lone > 0 {
        let run = lone_run(new.text, new.cells, done);
        return Next {
            run,
            lone: lone - 1,
        };
    }
    let run = next_run(new.text, new.cells, done);
    if is_in_two(mem, root, newest, &run, homes) {
        let first = lone_run(new.text, new.cells, done);
        return Next {
            run: first,
            lone: run.len as usize - 1,
        };
    }
    Next { run, lone: 0 }
}

// Puts new cells in before a position at which a run begins; `end` is the spot of the cell before it, where this is known to be the
// last of its run.
#[inline(always)]
fn put_runs(
    mem: &mut Mem,
    sums: &mut Summaries,
    states: &StateTable,
    root: NodeId,
    new: &New<'_>,
    homes: &mut Homes,
    end: Option<Spot>,
) -> RootChange
    requires home { homes.old.sure ≡ true → AreHome homes.old.leaves (tree_runs mem.old root.index) }
    requires housed { homes.old.sure ≡ true → AreHoused mem.old root.index homes.old.leaves }
    requires left { length new.now.cells.now ≤ homes.old.left }
    requires tree { IsTree mem.old root.index }
    requires kept { AllByRecursion (IsRun new.now.text.now) (tree_runs mem.old root.index) }
    requires apart { AreApart (tree_runs mem.old root.index) }
    requires upto { NoneIsNewer new.now.newest (cells_of_runs new.now.text.now (tree_runs mem.old root.index)) }
    requires last { EndsWith new.now.text.now new.now.cells.now }
    requires short { length new.now.text.now ≤ MOST_CELLS }
    requires few { (counts_of (tree_runs mem.old root.index)).cells + length new.now.cells.now ≤ MOST_CELLS }
    requires within { new.now.at < (counts_of (tree_runs mem.old root.index)).cells }
    requires edge { IsEdge (lengths (tree_runs mem.old root.index)) new.now.at }
    requires end { IfSome end (IsEndAt mem.old root.index new.now.at) }
    requires room { HasNodes mem.old (length (tree_runs mem.old root.index) + length new.now.cells.now) }
    requires told { AreTold states.now mem.old sums.old (tree_runs mem.old root.index) }
    requires states { AreStates states.now new.now.cells.now }
    ensures tree { IsTree mem.new result.root.index }
    ensures cells { AreChanged (tree_runs mem.old root.index) (tree_runs mem.new result.root.index) new.now.text.now (put_at new.now.at new.now.cells.now) }
    ensures apart { AreApart (tree_runs mem.new result.root.index) }
    ensures runs { length (tree_runs mem.new result.root.index) ≡ length (tree_runs mem.old root.index) + result.more }
    ensures most { result.more ≤ length new.now.cells.now }
    ensures more { AreOnce (cells_of_runs new.now.text.now (tree_runs mem.old root.index)) new.now.cells.now
        → result.more ≤ stretch_count new.now.cells.now }
    ensures newest { 0 < length new.now.cells.now → EndsThere (tree_runs mem.new result.root.index) (new.now.at + length new.now.cells.now)
        (length new.now.text.now) }
    ensures home { homes.new.sure ≡ true → AreHome homes.new.leaves (tree_runs mem.new result.root.index) }
    ensures housed { homes.new.sure ≡ true → AreHoused mem.new result.root.index homes.new.leaves }
    ensures left { homes.old.left ≤ homes.new.left + length new.now.cells.now }
    ensures sure { homes.old.sure ≡ true → AreOnce (cells_of_runs new.now.text.now (tree_runs mem.old root.index)) new.now.cells.now
        → AreBelowGreatest new.now.cells.now → homes.new.sure ≡ true }
    ensures room { length mem.new.heads + mem.new.room ≡ length mem.old.heads + mem.old.room }
    ensures told { AreTold states.now mem.new sums.new (tree_runs mem.new result.root.index) }
    ensures tags { sums.new.tags ≡ sums.old.tags }
{
    let mut root = root;
    let mut done = 0;
    let mut more = 0;
    let mut lone = 0;
    let mut newest = new.newest;
    let mut end = end;
    while done < new.cells.len() {
        let next = choose(mem, root, new, done, lone, newest, homes);
        let to = done + next.run.len as usize;
        let put = NewRun {
            run: next.run,
            at: new.at + done,
            known: behind(end),
            newest,
        };
        root = put_home(mem, sums, states, root, put, homes);
        newest = newest_of(newest, &new.cells[done..to]);
        done = to;
        end = None;
        lone = next.lone;
        more += 1;
    }
    RootChange { root, more }
}

// The root after a change, how many runs were put in, and a run that got longer, if nothing else was changed.
#[derive(Clone, Copy)]
pub(crate) struct Grown {
    pub(crate) root: NodeId,
    pub(crate) more: usize,
    pub(crate) last: Option<Found>,
}

// A run that is known to stand somewhere, or nothing where a run got longer by so many cells.
#[inline(always)]
fn still_there<'a>(
    last: &'a Option<Found>,
    nothing: &'a Option<Found>,
    done: usize,
) -> &'a Option<Found>
    requires { nothing.now ≡ None }
    ensures still { done ≡ 0 → result.now ≡ last.now }
    ensures dropped { 0 < done → result.now ≡ None }
{
    if done == 0 { last } else { nothing }
}

// Puts new cells in at their position.
#[inline(always)]
pub(crate) fn put_cells(
    mem: &mut Mem,
    sums: &mut Summaries,
    states: &StateTable,
    root: NodeId,
    new: &New<'_>,
    homes: &mut Homes,
    last: &Option<Found>,
) -> Grown
    requires home { homes.old.sure ≡ true → AreHome homes.old.leaves (tree_runs mem.old root.index) }
    requires housed { homes.old.sure ≡ true → AreHoused mem.old root.index homes.old.leaves }
    requires left { length new.now.cells.now + 1 ≤ homes.old.left }
    requires tree { IsTree mem.old root.index }
    requires kept { AllByRecursion (IsRun new.now.text.now) (tree_runs mem.old root.index) }
    requires apart { AreApart (tree_runs mem.old root.index) }
    requires upto { NoneIsNewer new.now.newest (cells_of_runs new.now.text.now (tree_runs mem.old root.index)) }
    requires last { EndsWith new.now.text.now new.now.cells.now }
    requires short { length new.now.text.now ≤ MOST_CELLS }
    requires few { (counts_of (tree_runs mem.old root.index)).cells + length new.now.cells.now ≤ MOST_CELLS }
    requires within { new.now.at < (counts_of (tree_runs mem.old root.index)).cells }
    requires room { HasNodes mem.old (length (tree_runs mem.old root.index) + length new.now.cells.now + 1) }
    requires held { IfSome last.now (Holds mem.old root.index) }
    requires told { AreTold states.now mem.old sums.old (tree_runs mem.old root.index) }
    requires states { AreStates states.now new.now.cells.now }
    ensures tree { IsTree mem.new result.root.index }
    ensures cells { AreChanged (tree_runs mem.old root.index) (tree_runs mem.new result.root.index) new.now.text.now (put_at new.now.at new.now.cells.now) }
    ensures apart { AreApart (tree_runs mem.new result.root.index) }
    ensures runs { length (tree_runs mem.new result.root.index) ≡ length (tree_runs mem.old root.index) + result.more }
    ensures most { result.more ≤ length new.now.cells.now + 1 }
    ensures more { AreOnce (cells_of_runs new.now.text.now (tree_runs mem.old root.index)) new.now.cells.now
        → result.more ≤ stretch_count new.now.cells.now + 1 }
    ensures newest { 0 < length new.now.cells.now → EndsThere (tree_runs mem.new result.root.index) (new.now.at + length new.now.cells.now)
        (length new.now.text.now) }
    ensures typed { AreOnce (cells_of_runs new.now.text.now (tree_runs mem.old root.index)) new.now.cells.now
        → GoOnIn new.now.text.now (tree_runs mem.old root.index) new.now.at new.now.cells.now → result.more ≡ 0 }
    ensures home { homes.new.sure ≡ true → AreHome homes.new.leaves (tree_runs mem.new result.root.index) }
    ensures housed { homes.new.sure ≡ true → AreHoused mem.new result.root.index homes.new.leaves }
    ensures left { homes.old.left ≤ homes.new.left + length new.now.cells.now + 1 }
    ensures sure { homes.old.sure ≡ true → AreOnce (cells_of_runs new.now.text.now (tree_runs mem.old root.index)) new.now.cells.now
        → AreBelowGreatest new.now.cells.now → homes.new.sure ≡ true }
    ensures room { length mem.new.heads + mem.new.room ≡ length mem.old.heads + mem.old.room }
    ensures held { IfSome result.last (Holds mem.new result.root.index) }
    ensures told { AreTold states.now mem.new sums.new (tree_runs mem.new result.root.index) }
    ensures tags { sums.new.tags ≡ sums.old.tags }
{
    let extended = extend(mem, sums, states, root, new, homes, last);
    let done = extended.done;
    if done == new.cells.len() {
        return Grown {
            root,
            more: 0,
            last: extended.last,
        };
    }
    let place = new.at + done;
    let nothing = None;
    let last = still_there(last, &nothing, done);
    let gap = CutPlace {
        at: place,
        is_edge: extended.is_edge,
        end: extended.end,
        last,
    };
    let CutEnd { change: first, end } = cut_home(mem, sums, states, root, &gap, homes);
    let newest = newest_of(new.newest, &new.cells[..done]);
    let root = first.root;
    let rest = New {
        text: new.text,
        at: place,
        cells: &new.cells[done..],
        newest,
    };
    let then = put_runs(mem, sums, states, root, &rest, homes, end);
    Grown {
        root: then.root,
        more: first.more + then.more,
        last: None,
    }
}
