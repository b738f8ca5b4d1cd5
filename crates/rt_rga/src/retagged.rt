// The places at which a Tag changes whether its tag is on, as runs.
ghost use Rattle.std.specs.Prelude.{◌≡◌, ◌+◌, ◌≤◌, All, IfOk, IfSome, IsOkUnless, MatchOption, ℕ, false, filter, length, map};
ghost use Rattle.rt_stamps.specs.declared.limits.TheConstants.{MOST_CELLS};
ghost use Rattle.rt_ops.specs.Operations.{Name, Tag};
ghost use Rattle.rt_store.specs.Cells.{AreDistinct, visible_of};
ghost use Rattle.rt_store.specs.Shown.{shown};
ghost use Rattle.rt_tags.specs.States.{IsState, IsTag, KeepsIds, is_on, name_at, state_at, write_at};
ghost use Rattle.rt_rga.specs.NamedRuns.{changes_kept};
ghost use Rattle.rt_rga.specs.Noted.{switches_at};
ghost use Rattle.rt_rga.specs.Taken.{AreFallingRuns, differ, is_in_runs, retags};

use crate::named::named_runs;
use crate::places::places_of;
use crate::tagging::{StateChange, state_with};
use crate::taken::PlaceRun;
use rt_stamps::{Fault, Span, Stamp};
use rt_store::{CellRun, TextStore};
use rt_tags::{StateId, StateTable, TagId};
use std::alloc::Global;

/// Whether a tag is on in one of two states and off in the other.
fn do_differ(states: &StateTable, tag: TagId, before: StateId, after: StateId) -> bool
    requires tag { IsTag states.now tag }
    requires before { IsState states.now before }
    requires after { IsState states.now after }
    ensures { result ≡ differ (is_on (name_at states.now tag) (state_at states.now before)) (is_on (name_at states.now tag) (state_at states.now after)) }
{
    states.has(before, tag) != states.has(after, tag)
}

/// Those of some runs of cells on which one more write of a tag changes whether it is on. Want of memory.
#[tactic(auto, using(rt_tags::proofs::Listing::keeps_both))]
fn changed_runs(
    alloc: Global,
    states: &mut StateTable,
    runs: &[CellRun],
    tag: TagId,
    writer: Stamp,
    on: bool,
) -> Result<Vec<CellRun>, Fault>
    requires states { All (λ run. IsState states.old run.cell.state) runs.now }
    requires tag { IsTag states.old tag }
    ensures runs { IfOk result (λ changed. changed.items ≡ filter (λ run. changes_kept states.old (write_at states.old tag writer on) run.cell) runs.now) }
    ensures ids { KeepsIds states.old states.new }
    ensures fault { IsOkUnless result Fault.NoMemory }
{
    let mut changed = Vec::new(alloc);
    let mut last = None;
    for run in runs {
        let before = run.cell.state;
        let after = state_with(states, before, tag, writer, on, last)?;
        last = Some(StateChange { before, after });
        if do_differ(states, tag, before, after) {
            changed.push(*run)?;
        }
    }
    Ok(changed)
}

/// The places of the visible cells of spans at which a Tag changes whether its tag is on, as runs, the
/// last one in the text first. Takes time and memory for the runs of cells that the spans name. Want of memory.
pub(crate) fn retagged_in<S: TextStore>(
    alloc: Global,
    store: &S,
    states: &mut StateTable,
    spans: &[Span],
    name: &str,
    writer: Stamp,
    on: bool,
) -> Result<Vec<PlaceRun>, Fault>
    requires agrees { S.agrees store.now states.old }
    requires distinct { AreDistinct (S.list store.now) }
    requires few { length (S.list store.now) ≤ MOST_CELLS }
    ensures retagged { IfOk result (λ runs. (place : ℕ) → is_in_runs runs.items place
        ≡ retags writer (Tag on name.now spans.now) (map (shown states.old) (S.list store.now)) place) }
    ensures runs { IfOk result (λ runs. AreFallingRuns (length (visible_of (S.list store.now)) + 1) runs.items) }
    ensures ids { KeepsIds states.old states.new }
    ensures fault { IsOkUnless result Fault.NoMemory }
{
    let named = named_runs(alloc, store, spans)?;
    let tag = states.number(name)?;
    let changed = changed_runs(alloc, states, &named, tag, writer, on)?;
    places_of(alloc, store, &changed)
}

// Whether a tag that has a number is on in a state; one without a number is on in none.
fn is_on(states: &StateTable, tag: Option<TagId>, state: StateId) -> bool
    requires state { IsState states.now state }
    requires tag { IfSome tag (IsTag states.now) }
    ensures { (name : Name) → MatchOption tag ((state : ℕ) → is_on name (state_at states.now state) ≡ false) (λ tag. name_at states.now tag ≡ name)
        → result ≡ is_on name (state_at states.now state) }
{
    match tag {
        Some(tag) => states.has(state, tag),
        None => false,
    }
}

// Those of some runs of cells on which a tag isn't as it is to be. Want of memory.
fn switched_runs(
    alloc: Global,
    states: &StateTable,
    runs: &[CellRun],
    name: &str,
    on: bool,
) -> Result<Vec<CellRun>, Fault>
    requires states { All (λ run. IsState states.now run.cell.state) runs.now }
    ensures runs { IfOk result (λ switched. switched.items ≡ filter (λ run. differ on (is_on name.now (state_at states.now run.cell.state))) runs.now) }
    ensures fault { IsOkUnless result Fault.NoMemory }
{
    let tag = states.known(name);
    let mut switched = Vec::new(alloc);
    for run in runs {
        let known = tag;
        if is_on(states, known, run.cell.state) != on {
            switched.push(*run)?;
        }
    }
    Ok(switched)
}

/// The places of the visible cells of spans at which a tag isn't as it is to be, as runs, the last one in the text
/// first. Takes time and memory for the runs of cells that the spans name. Want of memory.
pub(crate) fn switched_in<S: TextStore>(
    alloc: Global,
    store: &S,
    states: &StateTable,
    spans: &[Span],
    name: &str,
    on: bool,
) -> Result<Vec<PlaceRun>, Fault>
    requires agrees { S.agrees store.now states.now }
    requires distinct { AreDistinct (S.list store.now) }
    requires few { length (S.list store.now) ≤ MOST_CELLS }
    ensures switched { IfOk result (λ runs. (place : ℕ) → is_in_runs runs.items place
        ≡ switches_at (Tag on name.now spans.now) (map (shown states.now) (S.list store.now)) place) }
    ensures runs { IfOk result (λ runs. AreFallingRuns (length (visible_of (S.list store.now)) + 1) runs.items) }
    ensures fault { IsOkUnless result Fault.NoMemory }
{
    let named = named_runs(alloc, store, spans)?;
    let switched = switched_runs(alloc, states, &named, name, on)?;
    places_of(alloc, store, &switched)
}
