// The cells that spans name, as runs.
ghost use Rattle.std.specs.Prelude.{◌≡◌, ◌≤◌, ◌∷◌, ◌||◌, [], true, All, IfOk, IsOkUnless, OnOk};
ghost use Rattle.rt_stamps.specs.declared.stamp.Stamp.{Stamp as StampOf};
ghost use Rattle.rt_store.specs.Cells.{is_in_span, stamps_of};
ghost use Rattle.rt_store.specs.Spans.{is_among, is_in_spans};
ghost use Rattle.rt_rga.specs.NamedRuns.{IsCellRun, spans_of_runs};

use rt_stamps::{Fault, Span, Stamp};
use rt_store::{CellRun, TextStore};
use std::alloc::Global;

/// Adds the run of the cells from a stamp on, if it has a cell. Answers the last count that was looked at, at most
/// `last`. Want of memory.
fn push_next<S: TextStore>(
    store: &S,
    stamp: Stamp,
    last: u64,
    runs: &mut Vec<CellRun>,
) -> Result<u64, Fault>
    requires last { stamp.count ≤ last }
    requires runs { All (IsCellRun (S.list store.now)) runs.old.items }
    ensures runs { OnOk result (All (IsCellRun (S.list store.now)) runs.new.items) }
    ensures named { IfOk result (λ to. (other : StampOf) → is_among (stamps_of (S.list store.now)) other ≡ true
        → is_in_spans (spans_of_runs runs.new.items) other
        ≡ (is_in_spans (spans_of_runs runs.old.items) other || is_in_span (record { site = stamp.site; first = stamp.count; last = to }) other)) }
    ensures within { IfOk result (λ to. (stamp.count ≤ to) × (to ≤ last)) }
    ensures fault { IsOkUnless result Fault.NoMemory }
{
    match store.run_from(stamp, last) {
        None => Ok(stamp.count),
        Some(run) => {
            let to = run.last;
            runs.push(run)?;
            Ok(to)
        }
    }
}

/// Adds the runs of the cells of a span. Want of memory.
fn push_runs<S: TextStore>(store: &S, span: Span, runs: &mut Vec<CellRun>) -> Result<(), Fault>
    requires runs { All (IsCellRun (S.list store.now)) runs.old.items }
    ensures runs { OnOk result (All (IsCellRun (S.list store.now)) runs.new.items) }
    ensures named { OnOk result ((stamp : StampOf) → is_among (stamps_of (S.list store.now)) stamp ≡ true
        → is_in_spans (spans_of_runs runs.new.items) stamp ≡ (is_in_spans (spans_of_runs runs.old.items) stamp || is_in_span span stamp)) }
    ensures fault { IsOkUnless result Fault.NoMemory }
{
    let mut count = span.first;
    while count <= span.last {
        let stamp = Stamp {
            count,
            site: span.site,
        };
        let to = push_next(store, stamp, span.last, runs)?;
        if to == span.last {
            return Ok(());
        }
        count = to + 1;
    }
    Ok(())
}

/// The cells that spans name, as runs. Asks the store once for each run, and once for each stamp that no cell has; takes
/// memory for the runs. Want of memory.
pub(crate) fn named_runs<S: TextStore>(
    alloc: Global,
    store: &S,
    spans: &[Span],
) -> Result<Vec<CellRun>, Fault>
    ensures runs { IfOk result (λ runs. All (IsCellRun (S.list store.now)) runs.items) }
    ensures named { IfOk result (λ runs. (stamp : StampOf) → is_among (stamps_of (S.list store.now)) stamp ≡ true
        → is_in_spans (spans_of_runs runs.items) stamp ≡ is_in_spans spans.now stamp) }
    ensures fault { IsOkUnless result Fault.NoMemory }
{
    let mut runs = Vec::new(alloc);
    for span in spans {
        push_runs(store, *span, &mut runs)?;
    }
    Ok(runs)
}
