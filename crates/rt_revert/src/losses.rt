// The characters that go where an insertion is reverted.
ghost use Rattle.std.specs.Prelude.{◌≡◌, ℕ, ◌≤◌, All, IsOkUnless, IfOk, length, map};
ghost use Rattle.std.specs.List.{AllByRecursion};
ghost use Rattle.rt_stamps.specs.declared.limits.TheConstants.{MOST_CELLS, MOST_SPANS};
ghost use Rattle.rt_ops.specs.Edits.{body_of};
ghost use Rattle.rt_ops.specs.Operations.{stamps_in};
ghost use Rattle.rt_store.specs.Cells.{AreDistinct, visible_of};
ghost use Rattle.rt_store.specs.Shown.{shown};
ghost use Rattle.rt_store.specs.Tagged.{AreStates};
ghost use Rattle.rt_tags.specs.States.{IsState};
ghost use Rattle.rt_plans.specs.RemovalDrafts.{removal_drafts};
ghost use Rattle.rt_plans.specs.Removals.{RangesFollow, is_covered};
ghost use Rattle.rt_undo.specs.Actions.{removed_in};
ghost use Rattle.rt_revert.specs.Plans.{named_removed};
ghost use Rattle.rt_revert.specs.Reverting.{are_at, still_visible};

use crate::lost::removed_from;
use crate::work::visible_ranges;
use rt_plans::Range;
use rt_plans::cells::cells_in;
use rt_plans::drafting::removals;
use rt_rga::Draft;
use rt_stamps::{Fault, Span};
use rt_store::TextStore;
use rt_tags::StateTable;
use rt_undo::RemovedSpan;
use std::alloc::Global;

/// The characters that go where an insertion is reverted: their places as ranges in the text's order,
/// these characters for the reverted action, and the operations by which they go.
#[derive(Drop)]
pub struct Losses {
    pub places: Vec<Range>,
    pub removed: Vec<RemovedSpan>,
    pub drafts: Vec<Draft>,
}

/// Plans that those of some characters go that are still visible: some may be gone already, and any may
/// be elsewhere than when they were put in. It changes nothing. The cost goes by the number of these
/// characters, in the calls of the store, and by a sort. Want of memory.
pub fn planned_losses<S: TextStore>(
    alloc: Global,
    store: &S,
    states: &StateTable,
    spans: &[Span],
) -> Result<Losses, Fault>
    requires distinct { AreDistinct (S.list store.now) }
    requires few { length (S.list store.now) ≤ MOST_CELLS }
    requires states { AreStates states.now (S.list store.now) }
    ensures drafts { IfOk result (λ losses. map body_of losses.drafts.items
        ≡ removal_drafts MOST_SPANS (are_at (stamps_in spans.now) (S.list store.now)) (S.list store.now)) }
    ensures removed { IfOk result (λ losses. map (named_removed states.now) (removed_in losses.removed.items)
        ≡ still_visible (stamps_in spans.now) (map (shown states.now) (S.list store.now))) }
    ensures given { IfOk result (λ losses. AllByRecursion (λ removed. IsState states.now removed.tags) (removed_in losses.removed.items)) }
    ensures places { IfOk result (λ losses. (place : ℕ) → is_covered losses.places.items place ≡ are_at (stamps_in spans.now) (S.list store.now) place) }
    ensures order { IfOk result (λ losses. RangesFollow 0 losses.places.items) }
    ensures within { IfOk result (λ losses. All (λ range. range.to ≤ length (visible_of (S.list store.now))) losses.places.items) }
    ensures err { IsOkUnless result Fault.NoMemory }
{
    let places = visible_ranges(alloc, store, spans)?;
    let cells = cells_in(alloc, store, &places)?;
    let removed = removed_from(alloc, &cells)?;
    let drafts = removals(alloc, store, &places)?;
    Ok(Losses {
        places,
        removed,
        drafts,
    })
}
