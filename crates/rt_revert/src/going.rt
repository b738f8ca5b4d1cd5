// Characters that go from the working copy of a text.
ghost use Rattle.std.specs.Prelude.{◌≡◌, ℕ, ◌≤◌, ◌⊎◌, ◌<◌, false, IfErr, IsOkUnless, IfOk, OnOk, length, map};
ghost use Rattle.rt_stamps.specs.declared.limits.TheConstants.{GREATEST_COUNT, MOST_CELLS};
ghost use Rattle.rt_stamps.specs.declared.stamp.TheConstants.{FINAL};
ghost use Rattle.rt_ops.specs.Operations.{stamps_in};
ghost use Rattle.rt_store.specs.Spans.{gone_in_any, is_among, is_in_spans};
ghost use Rattle.rt_undo.specs.Actions.{removed_in};
ghost use Rattle.rt_revert.specs.Plans.{RemovedAreGiven, named_removed};
ghost use Rattle.rt_revert.specs.Portions.{HasEach, Portion};
ghost use Rattle.rt_revert.specs.Progress.{IsCopy, IsSoFar, IsUnderWay, spans_of};
ghost use Rattle.rt_revert.specs.Reverting.{Reversion, still_visible, with_removal};

use crate::losses::planned_losses;
use crate::offsets::whole_places;
use crate::progress::Progress;
use rt_stamps::{Fault, Span};
use rt_store::TextStore;
use rt_tags::StateTable;
use rt_undo::RemovedSpan;
use std::alloc::Global;

// The characters of some spans are gone. Want of memory.
fn make_gone<S: TextStore>(
    copy: &mut S,
    kept: &StateTable,
    removed: &[RemovedSpan],
) -> Result<(), Fault>
    requires agrees { S.agrees copy.old kept.now }
    requires few { length (S.list copy.old) ≤ MOST_CELLS }
    requires stays { is_in_spans (spans_of removed.now) FINAL ≡ false }
    ensures list { OnOk result (S.list copy.new ≡ map (gone_in_any (spans_of removed.now)) (S.list copy.old)) }
    ensures agrees { OnOk result (S.agrees copy.new kept.now) }
    ensures err { IsOkUnless result Fault.NoMemory }
{
    for part in removed {
        copy.reserve(0, 2, kept.tags())?;
        copy.set_gone(kept, part.span);
    }
    Ok(())
}

/// Those of some characters go that are still visible: these, with their tags. `ClockSpent`, or want of
/// memory.
pub(crate) fn take_out<S: TextStore>(
    alloc: Global,
    kept: &StateTable,
    copy: &mut S,
    spans: &[Span],
    plan: &mut Progress,
) -> Result<Vec<RemovedSpan>, Fault>
    requires copy { IsCopy kept.now (S.list copy.old) plan.old.texts.count }
    requires agrees { S.agrees copy.old kept.now }
    requires going { IsUnderWay kept.now plan.old }
    requires stays { is_among (stamps_in spans.now) FINAL ≡ false }
    ensures copy { OnOk result (IsCopy kept.now (S.list copy.new) plan.new.texts.count) }
    ensures agrees { OnOk result (S.agrees copy.new kept.now) }
    ensures going { OnOk result (IsUnderWay kept.now plan.new) }
    ensures returns { OnOk result (plan.new.returns ≡ plan.old.returns) }
    ensures actions { OnOk result (plan.new.actions ≡ plan.old.actions) }
    ensures so_far { OnOk result ((number : ℕ) (part : Portion) (r : Reversion) → HasEach part (stamps_in spans.now)
        → IsSoFar kept.now number (S.list copy.old) plan.old part r
        → IsSoFar kept.now number (S.list copy.new) plan.new part (with_removal (stamps_in spans.now) r)) }
    ensures removed { IfOk result (λ removed. (number : ℕ) (part : Portion) (r : Reversion) → HasEach part (stamps_in spans.now)
        → IsSoFar kept.now number (S.list copy.old) plan.old part r
        → map (named_removed kept.now) (removed_in removed.items) ≡ still_visible (stamps_in spans.now) r.doc.cells) }
    ensures given { IfOk result (λ removed. RemovedAreGiven kept.now (removed_in removed.items)) }
    ensures err { IfErr result (λ fault. (fault ≡ Fault.NoMemory) ⊎ ((fault ≡ Fault.ClockSpent)
        × ((number : ℕ) (part : Portion) (r : Reversion) → HasEach part (stamps_in spans.now)
        → IsSoFar kept.now number (S.list copy.old) plan.old part r
        → GREATEST_COUNT < (with_removal (stamps_in spans.now) r).doc.count))) }
{
    let losses = planned_losses(alloc, &*copy, kept, spans)?;
    let whole = whole_places(alloc, &*copy, &plan.offsets, &losses.places)?;
    make_gone(copy, kept, &losses.removed)?;
    plan.lose(alloc, whole, losses.drafts)?;
    Ok(losses.removed)
}
