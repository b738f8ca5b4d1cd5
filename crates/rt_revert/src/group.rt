// The plan of a whole group that is reverted.
ghost use Rattle.std.specs.Prelude.{◌≡◌, ◌≤◌, ◌<◌, ◌⊎◌, ◌∷◌, [], true, IfErr, IfOk, OnOk, length};
ghost use Rattle.std.specs.List.{AllByRecursion, list_all};
ghost use Rattle.rt_stamps.specs.declared.limits.TheConstants.{GREATEST_COUNT, MOST_CELLS};
ghost use Rattle.rt_stamps.specs.Words.{as_words};
ghost use Rattle.rt_ops.specs.Rules.{is_name};
ghost use Rattle.rt_store.specs.Cells.{AreDistinct, final_cell};
ghost use Rattle.rt_store.specs.Tagged.{AreStates};
ghost use Rattle.rt_tags.specs.States.{KeepsIds};
ghost use Rattle.rt_plans.specs.DocValue.{DocValue};
ghost use Rattle.rt_undo.specs.Actions.{group_of};
ghost use Rattle.rt_revert.specs.PlannedGroups.{IsPlanOf};
ghost use Rattle.rt_revert.specs.Plans.{AreGiven, AreUpTo, IsOf, IsTextChange, named_group};
ghost use Rattle.rt_revert.specs.Reverting.{reversion};
ghost use Rattle.rt_revert.specs.ReversionLaws.{AllMayRevert};

use crate::copying::{fill, kept_cells};
use crate::named::named_positions;
use crate::offsets::offsets_of;
use crate::plan::Reversal;
use crate::progress::Progress;
use crate::reverting::revert_all;
use rt_plans::Author;
use rt_stamps::Fault;
use rt_store::TextStore;
use rt_tags::StateTable;
use rt_undo::Action;
use std::alloc::Global;

/// Plans that a group is reverted, the last action first, and changes nothing of the document. The group
/// is by the stamps of now, and the author has the document's site and greatest count. The tags of
/// removed characters are states of `kept`, a table of the undo stacks' own: it gets the states that the
/// plan needs, also where that is refused. The text may come to more cells than it may have: that is left to
/// the call that commits the operations. The actions are reverted in a working copy of the cells that they
/// name, which has those that come back too: `copy` is the empty store for it. `ClockSpent`, or want of
/// memory, as also where this copy would have more than the most cells. The cost goes by the characters that
/// the group names, in the calls of both stores, and by a sort; not by the cells of the text.
pub fn planned_reversion<S: TextStore, C: TextStore>(
    alloc: Global,
    store: &S,
    states: &StateTable,
    copy: C,
    author: Author,
    group: &[Action],
    kept: &mut StateTable,
) -> Result<Reversal, Fault>
    requires empty { C.list copy ≡ final_cell ∷ [] }
    requires distinct { AreDistinct (S.list store.now) }
    requires few { length (S.list store.now) ≤ MOST_CELLS }
    requires states { AreStates states.now (S.list store.now) }
    requires older { AreUpTo author.count (S.list store.now) }
    requires count { author.count ≤ GREATEST_COUNT }
    requires given { AreGiven kept.old (group_of group.now) }
    requires sound { AllMayRevert (named_group kept.old (group_of group.now)) }
    ensures plan { IfOk result (λ plan. (doc : DocValue) → IsOf states.now (S.list store.now) author.site.number author.count doc
        → IsPlanOf kept.new doc (named_group kept.old (group_of group.now)) plan) }
    ensures fits { OnOk result ((doc : DocValue) → IsOf states.now (S.list store.now) author.site.number author.count doc
        → (reversion doc (named_group kept.old (group_of group.now))).doc.count ≤ GREATEST_COUNT) }
    ensures given { IfOk result (λ plan. AreGiven kept.new (group_of plan.actions.items)) }
    ensures changes { IfOk result (λ plan. AllByRecursion IsTextChange plan.changes.items) }
    ensures names { IfOk result (λ plan. list_all is_name (as_words plan.names.items) ≡ true) }
    ensures ids { KeepsIds kept.old kept.new }
    ensures err { IfErr result (λ fault. (fault ≡ Fault.NoMemory) ⊎ ((fault ≡ Fault.ClockSpent)
        × ((doc : DocValue) → IsOf states.now (S.list store.now) author.site.number author.count doc
        → GREATEST_COUNT < (reversion doc (named_group kept.old (group_of group.now))).doc.count))) }
{
    let Author { site, count } = author;
    let mut work = copy;
    let positions = named_positions(alloc, store, site, count, group)?;
    let cells = kept_cells(alloc, store, states, &positions, kept)?;
    fill(kept, &mut work, cells)?;
    let offsets = offsets_of(alloc, store, &work)?;
    let mut plan = Progress::new(alloc, count, offsets);
    revert_all(alloc, site, kept, &mut work, group, &mut plan)?;
    let reversal = plan.done(alloc)?;
    Ok(reversal)
}
