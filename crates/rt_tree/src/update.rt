// Cells that become gone, or get another state.
ghost use Rattle.std.specs.Prelude.{◌≡◌, ◌+◌, ◌<◌, ◌≤◌, ℕ, List, length, map, true, None, IfSome};
ghost use Rattle.std.specs.List.{AllByRecursion};
ghost use Rattle.rt_stamps.specs.declared.limits.TheConstants.{MOST_CELLS};
ghost use Rattle.rt_store.specs.Cells.{is_in_span};
ghost use Rattle.rt_store.specs.Spans.{last_stamp, next_stamp};
ghost use Rattle.rt_tree.specs.Homes.{AreHome, UpdatesOn, run_to};
ghost use Rattle.rt_tree.specs.Runs.{IsRun, first_stamp};
ghost use Rattle.rt_tree.specs.Shape.{IsTree, tree_runs};
ghost use Rattle.rt_tree.specs.Sharing.{AreApart, BeginsAt, IsChangedAt, IsRecut, cell_updated_in, run_in};
ghost use Rattle.rt_tree.specs.Standing.{AreHoused, StampsStay};
ghost use Rattle.rt_tree.specs.Stretches.{AreChanged, AreRunsOfText, IsGiven, updated_run};
ghost use Rattle.rt_tree.specs.Summaries.{AreTold};
ghost use Rattle.rt_tree.specs.Sums.{counts_of};
ghost use Rattle.rt_tree.specs.Trees.{HasNodes};

use crate::cut::{RootChange, part};
use crate::find::cells_of;
use crate::homes::Homes;
use crate::node::{Mem, Run};
use crate::put::{found_at, replace_at};
use crate::summed::Summaries;
use rt_nodes::NodeId;
use rt_stamps::{Span, Stamp};
use rt_tags::{StateId, StateTable};

/// What cells become.
#[derive(Clone, Copy, Debug, PartialEq, Eq)]
pub enum CellUpdate {
    Gone,
    State(StateId),
}

fn updated(run: Run, update: &CellUpdate) -> Run
    ensures { result ≡ updated_run update.now run }
{
    match *update {
        CellUpdate::Gone => Run { gone: true, ..run },
        CellUpdate::State(state) => Run { state, ..run },
    }
}

// Whether a run's first stamp is one of a span's.
fn is_first_in(span: Span, run: &Run) -> bool
    ensures { result ≡ is_in_span span (first_stamp run.now) }
{
    run.site == span.site && span.first <= run.first && run.first <= span.last
}

// Updates the run that has the cell at a position, if its first stamp is in a span, and tells how many cells the run has.
fn update_run(
    mem: &mut Mem,
    sums: &mut Summaries,
    states: &StateTable,
    root: NodeId,
    at: usize,
    span: Span,
    update: &CellUpdate,
) -> u32
    requires tree { IsTree mem.old root.index }
    requires kept { AreRunsOfText (tree_runs mem.old root.index) }
    requires few { (counts_of (tree_runs mem.old root.index)).cells ≤ MOST_CELLS }
    requires within { at < (counts_of (tree_runs mem.old root.index)).cells }
    requires told { AreTold states.now mem.old sums.old (tree_runs mem.old root.index) }
    requires update { IsGiven states.now update.now }
    ensures tree { IsTree mem.new root.index }
    ensures stay { StampsStay mem.old mem.new }
    ensures run { IsChangedAt (tree_runs mem.old root.index) (tree_runs mem.new root.index) at (run_in span update.now) result }
    ensures room { length mem.new.heads + mem.new.room ≡ length mem.old.heads + mem.old.room }
    ensures told { AreTold states.now mem.new sums.new (tree_runs mem.new root.index) }
    ensures tags { sums.new.tags ≡ sums.old.tags }
{
    let found = found_at(mem, root, at);
    if is_first_in(span, &found.run) {
        replace_at(
            mem,
            sums,
            states,
            root,
            found.spot,
            updated(found.run, update),
        );
    }
    found.run.len
}

// Updates each run whose first stamp is in a span, by a walk from run to run.
fn update_runs(
    mem: &mut Mem,
    sums: &mut Summaries,
    states: &StateTable,
    root: NodeId,
    span: Span,
    update: &CellUpdate,
)
    requires tree { IsTree mem.old root.index }
    requires kept { AreRunsOfText (tree_runs mem.old root.index) }
    requires few { (counts_of (tree_runs mem.old root.index)).cells ≤ MOST_CELLS }
    requires told { AreTold states.now mem.old sums.old (tree_runs mem.old root.index) }
    requires update { IsGiven states.now update.now }
    ensures tree { IsTree mem.new root.index }
    ensures stay { StampsStay mem.old mem.new }
    ensures runs { tree_runs mem.new root.index ≡ map (run_in span update.now) (tree_runs mem.old root.index) }
    ensures room { length mem.new.heads + mem.new.room ≡ length mem.old.heads + mem.old.room }
    ensures told { AreTold states.now mem.new sums.new (tree_runs mem.new root.index) }
    ensures tags { sums.new.tags ≡ sums.old.tags }
{
    let all = cells_of(mem, root);
    let mut at = 0;
    while at < all {
        let len = update_run(mem, sums, states, root, at, span, update);
        at += len as usize;
    }
}

// Updates the run that begins with the first count of what is left of a span, if it is found, and tells the count behind it; if no
// run has that count, it is the next one.
fn update_at(
    mem: &mut Mem,
    sums: &mut Summaries,
    states: &StateTable,
    root: NodeId,
    left: Span,
    update: &CellUpdate,
    homes: &Homes,
) -> Option<u64>
    requires within { left.first ≤ left.last }
    requires tree { IsTree mem.old root.index }
    requires kept { AreRunsOfText (tree_runs mem.old root.index) }
    requires few { (counts_of (tree_runs mem.old root.index)).cells ≤ MOST_CELLS }
    requires home { homes.now.sure ≡ true → AreHome homes.now.leaves (tree_runs mem.old root.index) }
    requires told { AreTold states.now mem.old sums.old (tree_runs mem.old root.index) }
    requires update { IsGiven states.now update.now }
    ensures tree { IsTree mem.new root.index }
    ensures stay { StampsStay mem.old mem.new }
    ensures none { result ≡ None → tree_runs mem.new root.index ≡ tree_runs mem.old root.index }
    ensures some { IfSome result (λ next. UpdatesOn left update.now left.first next (tree_runs mem.old root.index) (tree_runs mem.new root.index)) }
    ensures room { length mem.new.heads + mem.new.room ≡ length mem.old.heads + mem.old.room }
    ensures told { AreTold states.now mem.new sums.new (tree_runs mem.new root.index) }
    ensures tags { sums.new.tags ≡ sums.old.tags }
{
    let count = left.first;
    let stamp = Stamp {
        count,
        site: left.site,
    };
    let leaf = homes.leaf_of(stamp);
    if homes.is_nowhere(leaf) {
        return count.checked_add(1);
    }
    let home = homes.locate(mem, root, leaf, stamp)?;
    if home.run.first != count {
        return None;
    }
    let next = count.checked_add(home.run.len as u64)?;
    update_run(
        mem,
        sums,
        states,
        root,
        home.before.cells as usize,
        left,
        update,
    );
    Some(next)
}

// Updates runs whose first stamp is in a span, by its stamps and their leaves, and tells whether all were found. A long span has
// more stamps than there are cells, and isn't tried.
fn update_by_homes(
    mem: &mut Mem,
    sums: &mut Summaries,
    states: &StateTable,
    root: NodeId,
    span: Span,
    update: &CellUpdate,
    homes: &Homes,
) -> bool
    requires tree { IsTree mem.old root.index }
    requires kept { AreRunsOfText (tree_runs mem.old root.index) }
    requires few { (counts_of (tree_runs mem.old root.index)).cells ≤ MOST_CELLS }
    requires home { homes.now.sure ≡ true → AreHome homes.now.leaves (tree_runs mem.old root.index) }
    requires told { AreTold states.now mem.old sums.old (tree_runs mem.old root.index) }
    requires update { IsGiven states.now update.now }
    ensures tree { IsTree mem.new root.index }
    ensures stay { StampsStay mem.old mem.new }
    ensures part { (count : ℕ) × (tree_runs mem.new root.index ≡ map (run_to span count update.now) (tree_runs mem.old root.index)) }
    ensures all { result ≡ true → tree_runs mem.new root.index ≡ map (run_in span update.now) (tree_runs mem.old root.index) }
    ensures room { length mem.new.heads + mem.new.room ≡ length mem.old.heads + mem.old.room }
    ensures told { AreTold states.now mem.new sums.new (tree_runs mem.new root.index) }
    ensures tags { sums.new.tags ≡ sums.old.tags }
{
    if span.last.saturating_sub(span.first) > cells_of(mem, root) as u64 {
        return false;
    }
    let mut count = span.first;
    while count <= span.last {
        let left = Span {
            first: count,
            ..span
        };
        match update_at(mem, sums, states, root, left, update, homes) {
            None => return false,
            Some(next) => count = next,
        }
    }
    true
}

// Updates each run whose first stamp is in a span.
fn update_all(
    mem: &mut Mem,
    sums: &mut Summaries,
    states: &StateTable,
    root: NodeId,
    span: Span,
    update: &CellUpdate,
    homes: &Homes,
)
    requires tree { IsTree mem.old root.index }
    requires kept { AreRunsOfText (tree_runs mem.old root.index) }
    requires few { (counts_of (tree_runs mem.old root.index)).cells ≤ MOST_CELLS }
    requires home { homes.now.sure ≡ true → AreHome homes.now.leaves (tree_runs mem.old root.index) }
    requires told { AreTold states.now mem.old sums.old (tree_runs mem.old root.index) }
    requires update { IsGiven states.now update.now }
    ensures tree { IsTree mem.new root.index }
    ensures stay { StampsStay mem.old mem.new }
    ensures runs { tree_runs mem.new root.index ≡ map (run_in span update.now) (tree_runs mem.old root.index) }
    ensures room { length mem.new.heads + mem.new.room ≡ length mem.old.heads + mem.old.room }
    ensures told { AreTold states.now mem.new sums.new (tree_runs mem.new root.index) }
    ensures tags { sums.new.tags ≡ sums.old.tags }
{
    if update_by_homes(mem, sums, states, root, span, update, homes) {
        return;
    }
    update_runs(mem, sums, states, root, span, update);
}

// Sees to it that each run which has the stamp behind a span begins with it.
fn part_behind(
    mem: &mut Mem,
    sums: &mut Summaries,
    states: &StateTable,
    root: NodeId,
    span: Span,
    homes: &mut Homes,
) -> RootChange
    requires home { homes.old.sure ≡ true → AreHome homes.old.leaves (tree_runs mem.old root.index) }
    requires housed { homes.old.sure ≡ true → AreHoused mem.old root.index homes.old.leaves }
    requires left { 0 < homes.old.left }
    requires tree { IsTree mem.old root.index }
    requires kept { AreRunsOfText (tree_runs mem.old root.index) }
    requires apart { AreApart (tree_runs mem.old root.index) }
    requires few { (counts_of (tree_runs mem.old root.index)).cells ≤ MOST_CELLS }
    requires room { HasNodes mem.old (length (tree_runs mem.old root.index)) }
    requires told { AreTold states.now mem.old sums.old (tree_runs mem.old root.index) }
    ensures home { homes.new.sure ≡ true → AreHome homes.new.leaves (tree_runs mem.new result.root.index) }
    ensures housed { homes.new.sure ≡ true → AreHoused mem.new result.root.index homes.new.leaves }
    ensures left { homes.old.left ≤ homes.new.left + 1 }
    ensures sure { homes.new.sure ≡ homes.old.sure }
    ensures tree { IsTree mem.new result.root.index }
    ensures recut { IsRecut (tree_runs mem.old root.index) (tree_runs mem.new result.root.index) }
    ensures begins { AllByRecursion (BeginsAt (next_stamp (last_stamp span))) (tree_runs mem.new result.root.index) }
    ensures runs { length (tree_runs mem.new result.root.index) ≡ length (tree_runs mem.old root.index) + result.more }
    ensures more { result.more ≤ 1 }
    ensures room { length mem.new.heads + mem.new.room ≡ length mem.old.heads + mem.old.room }
    ensures told { AreTold states.now mem.new sums.new (tree_runs mem.new result.root.index) }
    ensures tags { sums.new.tags ≡ sums.old.tags }
{
    match span.last.checked_add(1) {
        None => RootChange { root, more: 0 },
        Some(count) => {
            let site = span.site;
            part(mem, sums, states, root, Stamp { count, site }, homes)
        }
    }
}

// Updates the cells of a span of stamps, in two runs more at most.
pub(crate) fn update_span(
    mem: &mut Mem,
    sums: &mut Summaries,
    states: &StateTable,
    root: NodeId,
    span: Span,
    update: CellUpdate,
    homes: &mut Homes,
) -> RootChange
    requires home { homes.old.sure ≡ true → AreHome homes.old.leaves (tree_runs mem.old root.index) }
    requires housed { homes.old.sure ≡ true → AreHoused mem.old root.index homes.old.leaves }
    requires left { 2 ≤ homes.old.left }
    requires tree { IsTree mem.old root.index }
    requires kept { AreRunsOfText (tree_runs mem.old root.index) }
    requires apart { AreApart (tree_runs mem.old root.index) }
    requires few { (counts_of (tree_runs mem.old root.index)).cells ≤ MOST_CELLS }
    requires room { HasNodes mem.old (length (tree_runs mem.old root.index) + 1) }
    requires told { AreTold states.now mem.old sums.old (tree_runs mem.old root.index) }
    requires update { IsGiven states.now update }
    ensures home { homes.new.sure ≡ true → AreHome homes.new.leaves (tree_runs mem.new result.root.index) }
    ensures housed { homes.new.sure ≡ true → AreHoused mem.new result.root.index homes.new.leaves }
    ensures left { homes.old.left ≤ homes.new.left + 2 }
    ensures sure { homes.new.sure ≡ homes.old.sure }
    ensures tree { IsTree mem.new result.root.index }
    ensures cells { (text : List ℕ) → AllByRecursion (IsRun text) (tree_runs mem.old root.index)
        → AreChanged (tree_runs mem.old root.index) (tree_runs mem.new result.root.index) text (map (cell_updated_in span update)) }
    ensures apart { AreApart (tree_runs mem.new result.root.index) }
    ensures runs { length (tree_runs mem.new result.root.index) ≡ length (tree_runs mem.old root.index) + result.more }
    ensures more { result.more ≤ 2 }
    ensures room { length mem.new.heads + mem.new.room ≡ length mem.old.heads + mem.old.room }
    ensures told { AreTold states.now mem.new sums.new (tree_runs mem.new result.root.index) }
    ensures tags { sums.new.tags ≡ sums.old.tags }
{
    let begin = Stamp {
        count: span.first,
        site: span.site,
    };
    let first = part(mem, sums, states, root, begin, homes);
    let second = part_behind(mem, sums, states, first.root, span, homes);
    update_all(mem, sums, states, second.root, span, &update, homes);
    RootChange {
        root: second.root,
        more: first.more + second.more,
    }
}
