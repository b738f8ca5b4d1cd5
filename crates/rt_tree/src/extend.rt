// A run that goes on with new cells.
ghost use Rattle.std.specs.Prelude.{◌≡◌, ◌+◌, ◌-◌, ◌<◌, ◌≤◌, ◌^◌, ◌==◌, IfSome, None, if◌then◌else◌, length, take, true};
ghost use Rattle.std.specs.List.{AllByRecursion, list_any};
ghost use Rattle.rt_stamps.specs.declared.limits.TheConstants.{MOST_CELLS};
ghost use Rattle.rt_store.specs.Cells.{put_at};
ghost use Rattle.rt_store.specs.Tagged.{AreStates};
ghost use Rattle.rt_tree.specs.Additions.{EndsWith, are_joint, run_joined};
ghost use Rattle.rt_tree.specs.Growing.{EndsThere, GoOnIn};
ghost use Rattle.rt_tree.specs.Holds.{Holds, IsEndAt};
ghost use Rattle.rt_tree.specs.Homes.{AreHome, AreOnceEach, IsAmong, IsNew};
ghost use Rattle.rt_tree.specs.Runs.{IsRun, cells_of_runs};
ghost use Rattle.rt_tree.specs.Shape.{IsTree, tree_runs};
ghost use Rattle.rt_tree.specs.Sharing.{AreApart, AreBelowGreatest, AreKnown, AreOnce, NoneIsNewer, is_shared_by};
ghost use Rattle.rt_tree.specs.Standing.{AreHoused};
ghost use Rattle.rt_tree.specs.Stretches.{AreChanged, AreRunsOfText, IsEdge, lengths};
ghost use Rattle.rt_tree.specs.Summaries.{AreTold};
ghost use Rattle.rt_tree.specs.Sums.{counts_of};

use crate::homes::Homes;
use crate::near::{cell_near, counts_before};
use crate::node::{Mem, Run};
use crate::put::replace_at;
use crate::splice::{is_shared, run_of};
use crate::summed::Summaries;
use crate::walk::{Found, Spot};
use rt_nodes::NodeId;
use rt_store::Cell;
use rt_tags::{StateId, StateTable};

// Whether a run goes on where another ends, in the text too.
#[inline(always)]
fn are_joint(before: &Run, run: &Run) -> bool
    ensures { result ≡ are_joint before.now run.now }
{
    run.state == before.state
        && run.gone == before.gone
        && run.site == before.site
        && run.first >= before.first
        && run.first - before.first == before.len as u64
        && run.at >= before.at
        && run.at - before.at == before.len
        && !before.newline
}

// Both as one run.
#[inline(always)]
fn joined(before: Run, run: Run) -> Run
    requires { before.len + run.len < 2 ^ 32 }
    ensures { result ≡ run_joined before run }
{
    Run {
        len: before.len + run.len,
        newline: run.newline,
        ..before
    }
}

// Of a run that would go on with another: the cells that come into a run of more than one cell.
fn lengthened(before: Run, run: Run) -> Run
    requires { before.len + run.len < 2 ^ 32 }
    ensures { result ≡ (if before.len == 1 then run_joined before run else run) }
{
    if before.len == 1 {
        joined(before, run)
    } else {
        run
    }
}

// Whether one of a tree's runs may not go on with a new one, since a run of more than one cell would share a stamp.
fn is_barred(mem: &Mem, root: NodeId, newest: u64, before: Run, run: Run, is_new: bool) -> bool
    requires tree { IsTree mem.now root.index }
    requires kept { AreRunsOfText (tree_runs mem.now root.index) }
    requires known { AreKnown newest (tree_runs mem.now root.index) }
    requires few { (counts_of (tree_runs mem.now root.index)).cells ≤ MOST_CELLS }
    requires sum { before.len + run.len < 2 ^ 32 }
    requires some { 0 < run.len }
    requires joint { are_joint before run ≡ true }
    requires among { IsAmong (tree_runs mem.now root.index) before }
    requires once { is_new ≡ true → AreOnceEach (tree_runs mem.now root.index) }
    requires new { is_new ≡ true → IsNew run (tree_runs mem.now root.index) }
    ensures { result ≡ list_any (is_shared_by (if before.len == 1 then run_joined before run else run)) (tree_runs mem.now root.index) }
{
    if is_new {
        return false;
    }
    is_shared(mem, root, newest, &lengthened(before, run))
}

// New cells that come in at a position.
#[derive(Clone, Copy)]
pub(crate) struct New<'a> {
    // The characters of all cells; those of the new ones are the last.
    pub(crate) text: &'a [char],
    pub(crate) at: usize,
    pub(crate) cells: &'a [Cell<StateId>],
    // No cell that is there already has a greater count.
    pub(crate) newest: u64,
}

// How many cells a run went on with, and whether a run begins or ends behind them, as far as is known.
#[derive(Clone, Copy)]
pub(crate) struct Extended {
    pub(crate) done: usize,
    pub(crate) is_edge: bool,
    // Where the last cell of the run that ends there stands, if that was seen and no cell was put in.
    pub(crate) end: Option<Spot>,
    // The longer run, and where it stands.
    pub(crate) last: Option<Found>,
}

// No cell was put in: there is none, or no run is seen to end at the position, or the one that does can't go on.
#[inline(always)]
fn not_extended(is_edge: bool, end: Option<Spot>) -> Extended
    ensures { result ≡ record { done = 0; is_edge = is_edge; end = end; last = None } }
{
    Extended {
        done: 0,
        is_edge,
        end,
        last: None,
    }
}

// Lets the run that ends at a position go on with the first of new cells, if these follow it, and tells how many they are.
#[inline(always)]
pub(crate) fn extend(
    mem: &mut Mem,
    sums: &mut Summaries,
    states: &StateTable,
    root: NodeId,
    new: &New<'_>,
    homes: &mut Homes,
    last: &Option<Found>,
) -> Extended
    requires home { homes.old.sure ≡ true → AreHome homes.old.leaves (tree_runs mem.old root.index) }
    requires housed { homes.old.sure ≡ true → AreHoused mem.old root.index homes.old.leaves }
    requires left { length new.now.cells.now ≤ homes.old.left }
    requires tree { IsTree mem.old root.index }
    requires kept { AllByRecursion (IsRun new.now.text.now) (tree_runs mem.old root.index) }
    requires apart { AreApart (tree_runs mem.old root.index) }
    requires upto { NoneIsNewer new.now.newest (cells_of_runs new.now.text.now (tree_runs mem.old root.index)) }
    requires last { EndsWith new.now.text.now new.now.cells.now }
    requires short { length new.now.text.now ≤ MOST_CELLS }
    requires few { (counts_of (tree_runs mem.old root.index)).cells + length new.now.cells.now ≤ MOST_CELLS }
    requires within { new.now.at < (counts_of (tree_runs mem.old root.index)).cells }
    requires held { IfSome last.now (Holds mem.old root.index) }
    requires told { AreTold states.now mem.old sums.old (tree_runs mem.old root.index) }
    requires states { AreStates states.now new.now.cells.now }
    ensures tree { IsTree mem.new root.index }
    ensures within { result.done ≤ length new.now.cells.now }
    ensures cells { AreChanged (tree_runs mem.old root.index) (tree_runs mem.new root.index) new.now.text.now
        (put_at new.now.at (take result.done new.now.cells.now)) }
    ensures edge { result.is_edge ≡ true → IsEdge (lengths (tree_runs mem.new root.index)) (new.now.at + result.done) }
    ensures end { IfSome result.end (IsEndAt mem.new root.index (new.now.at + result.done)) }
    ensures known { IfSome result.end (λ _. result.is_edge ≡ true) }
    ensures apart { AreApart (tree_runs mem.new root.index) }
    ensures runs { length (tree_runs mem.new root.index) ≡ length (tree_runs mem.old root.index) }
    ensures home { homes.new.sure ≡ true → AreHome homes.new.leaves (tree_runs mem.new root.index) }
    ensures housed { homes.new.sure ≡ true → AreHoused mem.new root.index homes.new.leaves }
    ensures left { homes.old.left ≤ homes.new.left + result.done }
    ensures sure { homes.old.sure ≡ true → AreOnce (cells_of_runs new.now.text.now (tree_runs mem.old root.index)) new.now.cells.now
        → AreBelowGreatest new.now.cells.now → homes.new.sure ≡ true }
    ensures newest { 0 < result.done → EndsThere (tree_runs mem.new root.index) (new.now.at + result.done)
        (length new.now.text.now - length new.now.cells.now + result.done) }
    ensures typed { AreOnce (cells_of_runs new.now.text.now (tree_runs mem.old root.index)) new.now.cells.now
        → GoOnIn new.now.text.now (tree_runs mem.old root.index) new.now.at new.now.cells.now → result.done ≡ length new.now.cells.now }
    ensures room { length mem.new.heads + mem.new.room ≡ length mem.old.heads + mem.old.room }
    ensures still { result.done ≡ 0 → mem.new ≡ mem.old }
    ensures held { IfSome result.last (Holds mem.new root.index) }
    ensures told { AreTold states.now mem.new sums.new (tree_runs mem.new root.index) }
    ensures tags { sums.new.tags ≡ sums.old.tags }
{
    let New {
        text,
        at,
        cells,
        newest,
    } = *new;
    if at == 0 || cells.is_empty() {
        return not_extended(at == 0, None);
    }
    let found = cell_near(mem, root, last, at - 1);
    if found.spot.offset + 1 < found.run.len as usize {
        return not_extended(false, None);
    }
    let end = Some(found.spot);
    let run = run_of(text, cells);
    if !are_joint(&found.run, &run) {
        return not_extended(true, end);
    }
    let is_new = homes.is_new(newest, &run);
    if is_barred(mem, root, newest, found.run, run, is_new) {
        return not_extended(true, end);
    }
    let before = counts_before(mem, root, last, found.spot);
    let whole = joined(found.run, run);
    replace_at(mem, sums, states, root, found.spot, whole);
    homes.enter(&whole, found.spot.leaf, is_new);
    let longer = Found {
        spot: found.spot,
        run: whole,
        before,
    };
    Extended {
        done: run.len as usize,
        is_edge: false,
        end: None,
        last: Some(longer),
    }
}
