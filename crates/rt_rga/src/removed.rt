// The places that a Delete takes away, as runs.
ghost use Rattle.std.specs.Prelude.{◌≡◌, ◌≤◌, false, IfOk, IsOkUnless, ℕ, length};
ghost use Rattle.rt_stamps.specs.declared.limits.TheConstants.{MOST_CELLS};
ghost use Rattle.rt_stamps.specs.declared.stamp.TheConstants.{FINAL};
ghost use Rattle.rt_store.specs.Cells.{AreDistinct, visible_of};
ghost use Rattle.rt_store.specs.Spans.{is_in_spans};
ghost use Rattle.rt_ops.specs.Operations.{Delete};
ghost use Rattle.rt_rga.specs.Taken.{AreFallingRuns, is_in_runs, takes_away};

use crate::named::named_runs;
use crate::places::places_of;
use crate::taken::PlaceRun;
use rt_stamps::{Fault, Span};
use rt_store::TextStore;
use std::alloc::Global;

/// The places of the visible cells of spans, as runs, the last one in the text first. The final newline
/// is in no span. Takes time and memory for the runs of cells that the spans name. Want of memory.
pub(crate) fn runs_in<S: TextStore>(
    alloc: Global,
    store: &S,
    spans: &[Span],
) -> Result<Vec<PlaceRun>, Fault>
    requires distinct { AreDistinct (S.list store.now) }
    requires few { length (S.list store.now) ≤ MOST_CELLS }
    requires stays { is_in_spans spans.now FINAL ≡ false }
    ensures removed { IfOk result (λ runs. (place : ℕ) → is_in_runs runs.items place ≡ takes_away (Delete spans.now) (S.list store.now) place) }
    ensures runs { IfOk result (λ runs. AreFallingRuns (length (visible_of (S.list store.now))) runs.items) }
    ensures fault { IsOkUnless result Fault.NoMemory }
{
    let runs = named_runs(alloc, store, spans)?;
    places_of(alloc, store, &runs)
}
