// The places of runs of cells, as runs of places.
ghost use Rattle.std.specs.Prelude.{◌≡◌, ◌+◌, ◌<◌, ◌≤◌, ◌∷◌, [], true, All, IfOk, IfSome, IsOkUnless, IsPermutation, ℕ, length};
ghost use Rattle.rt_stamps.specs.declared.limits.TheConstants.{MOST_CELLS};
ghost use Rattle.rt_store.specs.Cells.{AreDistinct, visible_of};
ghost use Rattle.rt_tags.specs.Borders.{one_or_none};
ghost use Rattle.rt_rga.specs.NamedRuns.{IsBelow, IsCellRun, fall, names_at, span_of_run, spans_of_runs};
ghost use Rattle.rt_rga.specs.Taken.{AreFallingRuns, is_in_runs};

use crate::taken::PlaceRun;
use rt_stamps::Fault;
use rt_store::{CellRun, TextStore};
use std::alloc::Global;

/// The places of the cells of a run, if these are visible.
fn place_run<S: TextStore>(store: &S, run: &CellRun) -> Option<PlaceRun>
    requires distinct { AreDistinct (S.list store.now) }
    requires few { length (S.list store.now) ≤ MOST_CELLS }
    requires run { IsCellRun (S.list store.now) run.now }
    ensures places { (place : ℕ) → is_in_runs (one_or_none result) place ≡ names_at (span_of_run run.now ∷ []) (S.list store.now) place }
    ensures below { IfSome result (IsBelow (length (visible_of (S.list store.now)))) }
{
    if run.cell.gone {
        return None;
    }
    let from = store.place_of(run.cell.stamp)?;
    let more = run.last - run.cell.stamp.count;
    Some(PlaceRun {
        from,
        to: from + more as usize + 1,
    })
}

/// The places of the visible cells of runs, a run of them for each. Want of memory.
fn place_runs<S: TextStore>(
    alloc: Global,
    store: &S,
    runs: &[CellRun],
) -> Result<Vec<PlaceRun>, Fault>
    requires distinct { AreDistinct (S.list store.now) }
    requires few { length (S.list store.now) ≤ MOST_CELLS }
    requires runs { All (IsCellRun (S.list store.now)) runs.now }
    ensures places { IfOk result (λ places. (place : ℕ) → is_in_runs places.items place ≡ names_at (spans_of_runs runs.now) (S.list store.now) place) }
    ensures below { IfOk result (λ places. All (IsBelow (length (visible_of (S.list store.now)))) places.items) }
    ensures fault { IsOkUnless result Fault.NoMemory }
{
    let mut places = Vec::new(alloc);
    for run in runs {
        if let Some(place) = place_run(store, run) {
            places.push(place)?;
        }
    }
    Ok(places)
}

/// Runs of places, the one that ends last first.
fn sort(runs: &mut Vec<PlaceRun>)
    ensures same { IsPermutation runs.old.items runs.new.items }
    ensures falling { fall runs.new.items ≡ true }
{
    runs.sort_unstable_by(|a, b| b.to.cmp(&a.to));
}

/// The longest runs of the places of runs, of which each ends where the next one does or behind that. Want of memory.
fn joined(alloc: Global, runs: &[PlaceRun]) -> Result<Vec<PlaceRun>, Fault>
    requires falling { fall runs.now ≡ true }
    ensures same { IfOk result (λ joined. (below : ℕ) → All (IsBelow below) runs.now
        → (place : ℕ) → is_in_runs joined.items place ≡ is_in_runs runs.now place) }
    ensures falling { IfOk result (λ joined. (below end : ℕ) → All (IsBelow below) runs.now
        → ((place : ℕ) → is_in_runs runs.now place ≡ true → place + 1 < end) → AreFallingRuns end joined.items) }
    ensures fault { IsOkUnless result Fault.NoMemory }
{
    let mut joined = Vec::new(alloc);
    let Some((first, others)) = runs.split_first() else {
        return Ok(joined);
    };
    let mut run = *first;
    for next in others {
        if run.from <= next.to {
            run.from = run.from.min(next.from);
        } else {
            joined.push(run)?;
            run = *next;
        }
    }
    joined.push(run)?;
    Ok(joined)
}

/// The places of the visible cells of runs, as the longest runs of places, the last one in the text first. Want of
/// memory.
pub(crate) fn places_of<S: TextStore>(
    alloc: Global,
    store: &S,
    runs: &[CellRun],
) -> Result<Vec<PlaceRun>, Fault>
    requires distinct { AreDistinct (S.list store.now) }
    requires few { length (S.list store.now) ≤ MOST_CELLS }
    requires runs { All (IsCellRun (S.list store.now)) runs.now }
    ensures places { IfOk result (λ places. (place : ℕ) → is_in_runs places.items place ≡ names_at (spans_of_runs runs.now) (S.list store.now) place) }
    ensures falling { IfOk result (λ places. (end : ℕ)
        → ((place : ℕ) → names_at (spans_of_runs runs.now) (S.list store.now) place ≡ true → place + 1 < end) → AreFallingRuns end places.items) }
    ensures fault { IsOkUnless result Fault.NoMemory }
{
    let mut places = place_runs(alloc, store, runs)?;
    sort(&mut places);
    joined(alloc, &places)
}
