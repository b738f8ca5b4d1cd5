// Actions that are reverted in the working copy of a text.
ghost use Rattle.std.specs.Prelude.{◌≡◌, ◌⊎◌, ◌<◌, IfErr, IsOkUnless, IfOk, OnOk, drop, map, reverse};
ghost use Rattle.rt_stamps.specs.declared.limits.TheConstants.{GREATEST_COUNT};
ghost use Rattle.rt_ops.specs.Operations.{stamps_in};
ghost use Rattle.rt_undo.specs.Actions.{action_of, group_of, removed_in};
ghost use Rattle.rt_revert.specs.Plans.{AreGiven, RemovedAreGiven, named_action, named_group};
ghost use Rattle.rt_revert.specs.Portions.{HasAction, HasGroup, Portion};
ghost use Rattle.rt_revert.specs.Progress.{IsCopy, IsSoFar, IsUnderWay};
ghost use Rattle.rt_revert.specs.Reverting.{Reversion, with_each_reverted, with_reverted};
ghost use Rattle.rt_revert.specs.ReversionLaws.{AllMayRevert, MayRevert};

use crate::going::take_out;
use crate::plan::Return;
use crate::progress::Progress;
use crate::returning::bring_all_back;
use rt_stamps::{Fault, Site, Span};
use rt_store::TextStore;
use rt_tags::StateTable;
use rt_undo::{Action, push_stamp, spans_now};
use std::alloc::Global;

// The spans of the stamps under which characters came back.
fn spans_back(alloc: Global, returns: &[Return]) -> Result<Vec<Span>, Fault>
    ensures ok { IfOk result (λ spans. stamps_in spans.items ≡ map (λ r. r.newer) returns.now) }
    ensures err { IsOkUnless result Fault.NoMemory }
{
    let mut spans = Vec::new(alloc);
    for back in returns {
        push_stamp(&mut spans, back.newer)?;
    }
    Ok(spans)
}

// The characters that came back after so many others.
fn since(returns: &[Return], before: usize) -> &[Return]
    ensures { result.now ≡ drop before returns.now }
{
    returns.split_at(returns.len().min(before)).1
}

// An action is reverted. `ClockSpent`, or want of memory.
fn revert<S: TextStore>(
    alloc: Global,
    site: Site,
    kept: &StateTable,
    copy: &mut S,
    action: &Action,
    plan: &mut Progress,
) -> Result<(), Fault>
    requires copy { IsCopy kept.now (S.list copy.old) plan.old.texts.count }
    requires agrees { S.agrees copy.old kept.now }
    requires going { IsUnderWay kept.now plan.old }
    requires given { RemovedAreGiven kept.now (removed_in action.now.removed.items) }
    requires sound { MayRevert (named_action kept.now (action_of action.now)) }
    ensures copy { OnOk result (IsCopy kept.now (S.list copy.new) plan.new.texts.count) }
    ensures agrees { OnOk result (S.agrees copy.new kept.now) }
    ensures going { OnOk result (IsUnderWay kept.now plan.new) }
    ensures so_far { OnOk result ((part : Portion) (r : Reversion) → HasAction part (action_of action.now)
        → IsSoFar kept.now site.number (S.list copy.old) plan.old part r
        → IsSoFar kept.now site.number (S.list copy.new) plan.new part (with_reverted (named_action kept.now (action_of action.now)) r)) }
    ensures err { IfErr result (λ fault. (fault ≡ Fault.NoMemory) ⊎ ((fault ≡ Fault.ClockSpent)
        × ((part : Portion) (r : Reversion) → HasAction part (action_of action.now)
        → IsSoFar kept.now site.number (S.list copy.old) plan.old part r
        → GREATEST_COUNT < (with_reverted (named_action kept.now (action_of action.now)) r).doc.count))) }
{
    let spans = spans_now(alloc, &plan.renames, &action.inserted)?;
    let before = plan.returns.len();
    let removed = take_out(alloc, kept, copy, &spans, plan)?;
    bring_all_back(alloc, site, kept, copy, &action.removed, plan)?;
    let inserted = spans_back(alloc, since(&plan.returns, before))?;
    plan.actions.push(Action {
        number: action.number,
        kind: action.kind,
        inserted,
        removed,
    })?;
    Ok(())
}

/// The actions of a group are reverted, from the last to the first. `ClockSpent`, or want of memory.
pub(crate) fn revert_all<S: TextStore>(
    alloc: Global,
    site: Site,
    kept: &StateTable,
    copy: &mut S,
    group: &[Action],
    plan: &mut Progress,
) -> Result<(), Fault>
    requires copy { IsCopy kept.now (S.list copy.old) plan.old.texts.count }
    requires agrees { S.agrees copy.old kept.now }
    requires going { IsUnderWay kept.now plan.old }
    requires given { AreGiven kept.now (group_of group.now) }
    requires sound { AllMayRevert (named_group kept.now (group_of group.now)) }
    ensures going { OnOk result (IsUnderWay kept.now plan.new) }
    ensures so_far { OnOk result ((part : Portion) (r : Reversion) → HasGroup part (group_of group.now)
        → IsSoFar kept.now site.number (S.list copy.old) plan.old part r
        → IsSoFar kept.now site.number (S.list copy.new) plan.new part (with_each_reverted (reverse (named_group kept.now (group_of group.now))) r)) }
    ensures err { IfErr result (λ fault. (fault ≡ Fault.NoMemory) ⊎ ((fault ≡ Fault.ClockSpent)
        × ((part : Portion) (r : Reversion) → HasGroup part (group_of group.now)
        → IsSoFar kept.now site.number (S.list copy.old) plan.old part r
        → GREATEST_COUNT < (with_each_reverted (reverse (named_group kept.now (group_of group.now))) r).doc.count))) }
{
    let mut left = group.len();
    while left > 0 {
        left -= 1;
        revert(alloc, site, kept, copy, &group[left], plan)?;
    }
    Ok(())
}
