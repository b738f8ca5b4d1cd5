// A Tag on the cells of a store.
ghost use Rattle.std.specs.Prelude.{◌≡◌, ◌*◌, ◌≤◌, ◌++◌, ◌==◌, ◌&&◌, ℕ, All, IfOk, IfSome, IsOkUnless, OnOk, OnErr, length, map};
ghost use Rattle.rt_stamps.specs.declared.limits.TheConstants.{MOST_CELLS};
ghost use Rattle.rt_stamps.specs.Stamps.{is_same};
ghost use Rattle.rt_store.specs.declared.cell.Cell.{Cell as StoreCell};
ghost use Rattle.rt_store.specs.Cells.{AreDistinct, HasRoom};
ghost use Rattle.rt_store.specs.Shown.{shown};
ghost use Rattle.rt_store.specs.Spans.{last_stamp, next_stamp};
ghost use Rattle.rt_store.specs.Tagged.{AreStates};
ghost use Rattle.rt_tags.specs.States.{IsState, IsTag, KeepsIds, TagStates, name_at, state_at, write_at, written};
ghost use Rattle.rt_rga.specs.Changes.{written_in_any};
ghost use Rattle.rt_tags.specs.Borders.{one_or_none};
ghost use Rattle.rt_rga.specs.NamedRuns.{spans_of_runs};
ghost use Rattle.rt_rga.specs.Runs.{IsStateChange, put_back, put_back_in_any};

use crate::named::named_runs;
use rt_stamps::{Fault, Span, Stamp};
use rt_store::{Cell, CellRun, TextStore};
use rt_tags::{StateId, StateTable, TagId};
use std::alloc::Global;

/// Adds a cell, if there is one. Want of memory.
pub(crate) fn push_found(
    cell: Option<Cell<StateId>>,
    cells: &mut Vec<Cell<StateId>>,
) -> Result<(), Fault>
    ensures ok { OnOk result (cells.new.items ≡ cells.old.items ++ one_or_none cell) }
    ensures fault { IsOkUnless result Fault.NoMemory }
{
    if let Some(cell) = cell {
        cells.push(cell)?;
    }
    Ok(())
}

/// What a state came into by a write.
#[derive(Clone, Copy)]
pub(crate) struct StateChange {
    pub(crate) before: StateId,
    pub(crate) after: StateId,
}

/// The state after one more write of a tag. Where that is known by the last change, no state is made
/// and looked for. Want of memory.
pub(crate) fn state_with(
    states: &mut StateTable,
    before: StateId,
    tag: TagId,
    writer: Stamp,
    on: bool,
    last: Option<StateChange>,
) -> Result<StateId, Fault>
    requires before { IsState states.old before }
    requires tag { IsTag states.old tag }
    requires last { IfSome last (IsStateChange states.old (write_at states.old tag writer on)) }
    ensures given { IfOk result (IsState states.new) }
    ensures state { IfOk result (λ id. state_at states.new id ≡ written (write_at states.old tag writer on) (state_at states.old before)) }
    ensures ids { KeepsIds states.old states.new }
    ensures fault { IsOkUnless result Fault.NoMemory }
{
    match last {
        Some(change) if change.before == before => Ok(change.after),
        _ => states.with(before, tag, writer, on),
    }
}

/// A span whose cells come into one state.
#[derive(Clone, Copy, Debug, PartialEq, Eq)]
pub(crate) struct StateRun {
    pub span: Span,
    pub state: StateId,
}

/// Runs of cells with the states that these come into by one more write of a tag. Want of memory.
#[tactic(auto, using(rt_tags::proofs::Listing::keeps_both))]
fn written_runs(
    alloc: Global,
    states: &mut StateTable,
    runs: &[CellRun],
    tag: TagId,
    writer: Stamp,
    on: bool,
) -> Result<Vec<StateRun>, Fault>
    requires states { All (λ run. IsState states.old run.cell.state) runs.now }
    requires tag { IsTag states.old tag }
    ensures spans { IfOk result (λ more. map (λ run. run.span) more.items ≡ spans_of_runs runs.now) }
    ensures states { IfOk result (λ more. map (λ run. state_at states.new run.state) more.items
        ≡ map (λ run. written (write_at states.old tag writer on) (state_at states.old run.cell.state)) runs.now) }
    ensures given { IfOk result (λ more. All (λ run. IsState states.new run.state) more.items) }
    ensures ids { KeepsIds states.old states.new }
    ensures fault { IsOkUnless result Fault.NoMemory }
{
    let mut more = Vec::new(alloc);
    let mut last = None;
    for run in runs {
        let before = run.cell.state;
        let state = state_with(states, before, tag, writer, on, last)?;
        last = Some(StateChange {
            before,
            after: state,
        });
        let span = Span {
            site: run.cell.stamp.site,
            first: run.cell.stamp.count,
            last: run.last,
        };
        more.push(StateRun { span, state })?;
    }
    Ok(more)
}

/// Whether a cell goes on with a run.
fn goes_on(span: Span, state: StateId, cell: Cell<StateId>) -> bool
    ensures { result ≡ ((cell.state == state) && is_same cell.stamp (next_stamp (last_stamp span))) }
{
    cell.state == state
        && cell.stamp.site == span.site
        && cell.stamp.count > span.last
        && cell.stamp.count - span.last == 1
}

/// Runs of cells: of those in the order of their sites and counts the longest ones. Want of memory.
pub(crate) fn state_runs(alloc: Global, cells: &[Cell<StateId>]) -> Result<Vec<StateRun>, Fault>
    ensures ok { IfOk result (λ runs. (cell : StoreCell ℕ) → put_back_in_any runs.items cell ≡ put_back cells.now cell) }
    ensures few { IfOk result (λ runs. length runs.items ≤ length cells.now) }
    ensures given { IfOk result (λ runs. (table : TagStates) → AreStates table cells.now → All (λ run. IsState table run.state) runs.items) }
    ensures err { IsOkUnless result Fault.NoMemory }
{
    let mut runs = Vec::new(alloc);
    let Some((first, others)) = cells.split_first() else {
        return Ok(runs);
    };
    let mut span = Span::of(first.stamp);
    let mut state = first.state;
    for cell in others {
        if goes_on(span, state, *cell) {
            span.last = cell.stamp.count;
        } else {
            runs.push(StateRun { span, state })?;
            span = Span::of(cell.stamp);
            state = cell.state;
        }
    }
    runs.push(StateRun { span, state })?;
    Ok(runs)
}

/// Puts the cells of runs in their states. From the last run to the first: so a cell that two runs
/// have gets the state of the first one. Takes no memory.
#[inline(always)]
pub(crate) fn put_states<S: TextStore>(store: &mut S, states: &StateTable, runs: &[StateRun])
    requires states { S.agrees store.old states.now }
    requires runs { All (λ run. IsState states.now run.state) runs.now }
    requires room { HasRoom (S.room store.old) 0 (2 * length runs.now) (length states.now.names) }
    ensures list { S.list store.new ≡ map (put_back_in_any runs.now) (S.list store.old) }
    ensures states { S.agrees store.new states.now }
{
    for behind in 0..runs.len() {
        let run = runs[runs.len() - 1 - behind];
        store.set_state(states, run.span, run.state);
    }
}

/// Writes a tag on the cells of spans, and tells its number. Want of memory, and then the cells stay.
#[tactic(auto, using(rt_tags::proofs::Listing::keeps_both))]
pub(crate) fn tag_cells<S: TextStore>(
    alloc: Global,
    store: &mut S,
    states: &mut StateTable,
    spans: &[Span],
    name: &str,
    writer: Stamp,
    on: bool,
) -> Result<TagId, Fault>
    requires states { S.agrees store.old states.old }
    requires distinct { AreDistinct (S.list store.old) }
    requires few { length (S.list store.old) ≤ MOST_CELLS }
    ensures cells { OnOk result (map (shown states.new) (S.list store.new)
        ≡ map (written_in_any spans.now (record { name = name.now; writer = writer; on = on })) (map (shown states.old) (S.list store.old))) }
    ensures given { OnOk result (AreStates states.new (S.list store.new)) }
    ensures agrees { S.agrees store.new states.new }
    ensures tag { IfOk result (IsTag states.new) }
    ensures name { IfOk result (λ tag. name_at states.new tag ≡ name.now) }
    ensures ids { KeepsIds states.old states.new }
    ensures err { OnErr result (S.list store.new ≡ S.list store.old) }
    ensures fault { IsOkUnless result Fault.NoMemory }
{
    let named = named_runs(alloc, store, spans)?;
    let tag = states.number(name)?;
    let runs = written_runs(alloc, states, &named, tag, writer, on)?;
    store.reserve(0, 2 * runs.len(), states.tags())?;
    put_states(store, states, &runs);
    Ok(tag)
}
