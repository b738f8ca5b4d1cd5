// Characters that come back into the working copy of a text.
ghost use Rattle.std.specs.Prelude.{◌≡◌, ℕ, ◌≤◌, ◌⊎◌, ◌<◌, ◌∷◌, [], true, false, IfErr, IsOkUnless, IfOk, OnOk, length, map};
ghost use Rattle.std.specs.List.{AllByRecursion};
ghost use Rattle.rt_stamps.specs.declared.limits.TheConstants.{GREATEST_COUNT, MOST_CELLS};
ghost use Rattle.rt_stamps.specs.declared.stamp.TheConstants.{FINAL};
ghost use Rattle.rt_stamps.specs.Stamps.{is_same};
ghost use Rattle.rt_stamps.specs.Words.{as_words};
ghost use Rattle.rt_store.specs.Cells.{IsPlaced, after_element, skip_from, stamps_of, visible_before};
ghost use Rattle.rt_store.specs.Spans.{is_among};
ghost use Rattle.rt_tags.specs.States.{IsState, names_on, state_at};
ghost use Rattle.rt_plans.specs.DraftLaws.{AreTagNames};
ghost use Rattle.rt_plans.specs.DocValue.{put_after};
ghost use Rattle.rt_undo.specs.Actions.{removed_in, removed_of, removed_with};
ghost use Rattle.rt_undo.specs.Renames.{is_moved};
ghost use Rattle.rt_revert.specs.Plans.{RemovedAreGiven, named_removed};
ghost use Rattle.rt_revert.specs.Portions.{HasRemoved, Portion};
ghost use Rattle.rt_revert.specs.Progress.{IsCopy, IsSoFar, IsUnderWay};
ghost use Rattle.rt_revert.specs.Reverting.{Reversion, gone_cell_of, with_insertion, with_return, with_returns};
ghost use Rattle.rt_revert.specs.ReversionLaws.{MayReturn};

use crate::progress::Progress;
use rt_stamps::limits::MOST_CELLS;
use rt_stamps::{Fault, Site, Stamp};
use rt_store::{Cell, TextStore};
use rt_tags::{StateId, StateTable};
use rt_undo::RemovedSpan;
use std::alloc::Global;

/// The names of the tags that are on in a state. Want of memory.
pub(crate) fn names_of(
    alloc: Global,
    kept: &StateTable,
    state: StateId,
) -> Result<Vec<String>, Fault>
    requires { IsState kept.now state }
    ensures ok { IfOk result (λ v. as_words v.items ≡ names_on (state_at kept.now state)) }
    ensures err { IsOkUnless result Fault.NoMemory }
{
    let on = kept.on(state)?;
    let mut names = Vec::new(alloc);
    for tag in on.as_slice() {
        names.push(String::from_str(alloc, kept.name(*tag))?)?;
    }
    Ok(names)
}

// Puts a new cell directly behind another one, and answers its place. Want of memory, as also where the copy has the
// most cells that a store may have.
fn put_in<S: TextStore>(
    kept: &StateTable,
    copy: &mut S,
    left: Stamp,
    cell: Cell<StateId>,
) -> Result<usize, Fault>
    requires state { IsState kept.now cell.state }
    requires agrees { S.agrees copy.old kept.now }
    requires placed { IsPlaced (S.list copy.old) left cell.stamp }
    requires directly { skip_from (S.list copy.old) left cell.stamp ≡ after_element (S.list copy.old) left }
    requires fresh { is_among (stamps_of (S.list copy.old)) cell.stamp ≡ false }
    ensures list { OnOk result (S.list copy.new ≡ put_after (S.list copy.old) left (cell ∷ [])) }
    ensures agrees { OnOk result (S.agrees copy.new kept.now) }
    ensures few { OnOk result (length (S.list copy.new) ≤ MOST_CELLS) }
    ensures place { IfOk result (λ place. place ≡ visible_before (S.list copy.old) (after_element (S.list copy.old) left)) }
    ensures err { IsOkUnless result Fault.NoMemory }
{
    if copy.cells() >= MOST_CELLS {
        return Err(Fault::NoMemory);
    }
    let stamp = cell.stamp;
    let at = copy.after_skip(left, stamp);
    copy.reserve(1, 1, kept.tags())?;
    let new = [cell];
    copy.splice(kept, at, &new);
    Ok(copy.place_of(stamp).unwrap_or(0))
}

// A character comes back behind the cell that it has, in a state. `ClockSpent`, or want of memory.
fn put_back<S: TextStore>(
    alloc: Global,
    site: Site,
    kept: &StateTable,
    copy: &mut S,
    cell: Cell<StateId>,
    plan: &mut Progress,
) -> Result<(), Fault>
    requires copy { IsCopy kept.now (S.list copy.old) plan.old.texts.count }
    requires agrees { S.agrees copy.old kept.now }
    requires going { IsUnderWay kept.now plan.old }
    requires state { IsState kept.now cell.state }
    requires names { AreTagNames (names_on (state_at kept.now cell.state)) }
    requires there { is_among (stamps_of (S.list copy.old)) cell.stamp ≡ true }
    requires other { is_same cell.stamp FINAL ≡ false }
    requires still { is_moved plan.old.renames cell.stamp ≡ false }
    ensures copy { OnOk result (IsCopy kept.now (S.list copy.new) plan.new.texts.count) }
    ensures agrees { OnOk result (S.agrees copy.new kept.now) }
    ensures going { OnOk result (IsUnderWay kept.now plan.new) }
    ensures actions { OnOk result (plan.new.actions ≡ plan.old.actions) }
    ensures so_far { OnOk result ((part : Portion) (r : Reversion) → part.has cell.stamp ≡ true
        → IsSoFar kept.now site.number (S.list copy.old) plan.old part r
        → IsSoFar kept.now site.number (S.list copy.new) plan.new part (with_insertion cell.stamp (names_on (state_at kept.now cell.state)) cell.ch r)) }
    ensures err { IfErr result (λ fault. (fault ≡ Fault.NoMemory) ⊎ ((fault ≡ Fault.ClockSpent)
        × ((part : Portion) (r : Reversion) → part.has cell.stamp ≡ true
        → IsSoFar kept.now site.number (S.list copy.old) plan.old part r
        → GREATEST_COUNT < (with_insertion cell.stamp (names_on (state_at kept.now cell.state)) cell.ch r).doc.count))) }
{
    kept.order();
    let former = cell.stamp;
    let ch = cell.ch;
    let state = cell.state;
    let names = names_of(alloc, kept, state)?;
    let newer = Stamp {
        count: plan.texts.count + 1,
        site: site.number(),
    };
    plan.write(alloc, site, &names, former, ch)?;
    let new = Cell {
        stamp: newer,
        ch,
        gone: false,
        state,
    };
    let place = put_in(kept, copy, former, new)?;
    plan.come_back(former, newer, place, names)?;
    Ok(())
}

// The cell of a stamp, if its character is gone.
fn gone_cell<S: TextStore>(store: &S, stamp: Stamp) -> Option<Cell<StateId>>
    ensures { result ≡ gone_cell_of (S.list store.now) stamp }
{
    match store.cell_of(stamp) {
        Some(cell) if cell.gone => Some(cell),
        _ => None,
    }
}

// A removed character comes back, if it is gone, behind the cell that it has now. `ClockSpent`, or
// want of memory.
fn bring_back<S: TextStore>(
    alloc: Global,
    site: Site,
    kept: &StateTable,
    copy: &mut S,
    removed: (Stamp, StateId),
    plan: &mut Progress,
) -> Result<(), Fault>
    requires copy { IsCopy kept.now (S.list copy.old) plan.old.texts.count }
    requires agrees { S.agrees copy.old kept.now }
    requires going { IsUnderWay kept.now plan.old }
    requires state { IsState kept.now removed.1 }
    requires may { MayReturn (named_removed kept.now (removed_with removed.1 removed.0)) }
    ensures copy { OnOk result (IsCopy kept.now (S.list copy.new) plan.new.texts.count) }
    ensures agrees { OnOk result (S.agrees copy.new kept.now) }
    ensures going { OnOk result (IsUnderWay kept.now plan.new) }
    ensures actions { OnOk result (plan.new.actions ≡ plan.old.actions) }
    ensures so_far { OnOk result ((part : Portion) (r : Reversion) → part.has removed.0 ≡ true
        → IsSoFar kept.now site.number (S.list copy.old) plan.old part r
        → IsSoFar kept.now site.number (S.list copy.new) plan.new part (with_return (named_removed kept.now (removed_with removed.1 removed.0)) r)) }
    ensures err { IfErr result (λ fault. (fault ≡ Fault.NoMemory) ⊎ ((fault ≡ Fault.ClockSpent)
        × ((part : Portion) (r : Reversion) → part.has removed.0 ≡ true
        → IsSoFar kept.now site.number (S.list copy.old) plan.old part r
        → GREATEST_COUNT < (with_return (named_removed kept.now (removed_with removed.1 removed.0)) r).doc.count))) }
{
    let (recorded, state) = removed;
    let stamp = plan.renames.now(recorded);
    match gone_cell(&*copy, stamp) {
        Some(old) => {
            let cell = Cell { state, ..old };
            put_back(alloc, site, kept, copy, cell, plan)
        }
        None => Ok(()),
    }
}

// The removed characters of a span come back. `ClockSpent`, or want of memory.
fn bring_span_back<S: TextStore>(
    alloc: Global,
    site: Site,
    kept: &StateTable,
    copy: &mut S,
    part: RemovedSpan,
    plan: &mut Progress,
) -> Result<(), Fault>
    requires copy { IsCopy kept.now (S.list copy.old) plan.old.texts.count }
    requires agrees { S.agrees copy.old kept.now }
    requires going { IsUnderWay kept.now plan.old }
    requires given { RemovedAreGiven kept.now (removed_of part) }
    requires may { AllByRecursion MayReturn (map (named_removed kept.now) (removed_of part)) }
    ensures copy { OnOk result (IsCopy kept.now (S.list copy.new) plan.new.texts.count) }
    ensures agrees { OnOk result (S.agrees copy.new kept.now) }
    ensures going { OnOk result (IsUnderWay kept.now plan.new) }
    ensures actions { OnOk result (plan.new.actions ≡ plan.old.actions) }
    ensures so_far { OnOk result ((portion : Portion) (r : Reversion) → HasRemoved portion (removed_of part)
        → IsSoFar kept.now site.number (S.list copy.old) plan.old portion r
        → IsSoFar kept.now site.number (S.list copy.new) plan.new portion (with_returns (map (named_removed kept.now) (removed_of part)) r)) }
    ensures err { IfErr result (λ fault. (fault ≡ Fault.NoMemory) ⊎ ((fault ≡ Fault.ClockSpent)
        × ((portion : Portion) (r : Reversion) → HasRemoved portion (removed_of part)
        → IsSoFar kept.now site.number (S.list copy.old) plan.old portion r
        → GREATEST_COUNT < (with_returns (map (named_removed kept.now) (removed_of part)) r).doc.count))) }
{
    let span = part.span;
    let state = part.state;
    for count in span.first..=span.last {
        let stamp = Stamp {
            count,
            site: span.site,
        };
        bring_back(alloc, site, kept, copy, (stamp, state), plan)?;
    }
    Ok(())
}

/// The characters that an action took away come back, in turn. `ClockSpent`, or want of memory.
pub(crate) fn bring_all_back<S: TextStore>(
    alloc: Global,
    site: Site,
    kept: &StateTable,
    copy: &mut S,
    removed: &[RemovedSpan],
    plan: &mut Progress,
) -> Result<(), Fault>
    requires copy { IsCopy kept.now (S.list copy.old) plan.old.texts.count }
    requires agrees { S.agrees copy.old kept.now }
    requires going { IsUnderWay kept.now plan.old }
    requires given { RemovedAreGiven kept.now (removed_in removed.now) }
    requires may { AllByRecursion MayReturn (map (named_removed kept.now) (removed_in removed.now)) }
    ensures copy { OnOk result (IsCopy kept.now (S.list copy.new) plan.new.texts.count) }
    ensures agrees { OnOk result (S.agrees copy.new kept.now) }
    ensures going { OnOk result (IsUnderWay kept.now plan.new) }
    ensures actions { OnOk result (plan.new.actions ≡ plan.old.actions) }
    ensures so_far { OnOk result ((part : Portion) (r : Reversion) → HasRemoved part (removed_in removed.now)
        → IsSoFar kept.now site.number (S.list copy.old) plan.old part r
        → IsSoFar kept.now site.number (S.list copy.new) plan.new part (with_returns (map (named_removed kept.now) (removed_in removed.now)) r)) }
    ensures err { IfErr result (λ fault. (fault ≡ Fault.NoMemory) ⊎ ((fault ≡ Fault.ClockSpent)
        × ((part : Portion) (r : Reversion) → HasRemoved part (removed_in removed.now)
        → IsSoFar kept.now site.number (S.list copy.old) plan.old part r
        → GREATEST_COUNT < (with_returns (map (named_removed kept.now) (removed_in removed.now)) r).doc.count))) }
{
    for part in removed {
        bring_span_back(alloc, site, kept, copy, *part, plan)?;
    }
    Ok(())
}
