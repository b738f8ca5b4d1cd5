// Undo and redo: groups of actions that are reverted.
ghost use Rattle.std.specs.Prelude.{◌≡◌, ◌⊎◌, ◌∷◌, [], None, Some, IfErr, IfOk, OnErr, OnOk};
ghost use Rattle.rt_store.specs.Cells.{final_cell};
ghost use Rattle.rt_tags.specs.States.{KeepsIds};
ghost use Rattle.rt_undo.specs.Actions.{group_of};
ghost use Rattle.rt_revert.specs.Plans.{AreGiven, named_group};
ghost use Rattle.rt_revert.specs.Reverting.{reversion, reverted_group};
ghost use Rattle.rt_revert.specs.ReversionLaws.{AllMayRevert};
ghost use Rattle.rt_text.specs.Reversions.{reversion_check, view_reverted};

use super::View;
use crate::Reverted;
use rt_stamps::Fault;
use rt_store::TextStore;
use rt_tags::StateTable;
use rt_undo::Action;

impl<S: TextStore> View<S> {
    /// Reverts a group of actions, the last one first (Tk text manual, "The undo mechanism"): of the
    /// characters that an action put in those go that are still visible, and those that it took away come
    /// back with their tags, each directly after its old cell. All marks move for that, those of each widget too; what comes back is
    /// selected nowhere. The group is by the stamps of now, and the tags of removed characters are states
    /// of `kept`, which gets those of the group for the other stack, also where the call is refused. `copy`
    /// is an empty store, for the cells that the group names and those that come back. `ClockSpent`, `TextFull`,
    /// or want of memory, as also where this store would have more than the most cells, and then nothing else
    /// changes. It takes one count for each character that comes back and for each of its tags above 255, and for
    /// each action one for each 65,536 spans of what goes.
    pub fn revert<C: TextStore>(
        &mut self,
        copy: C,
        group: &[Action],
        kept: &mut StateTable,
    ) -> Result<Reverted, Fault>
        requires empty { C.list copy ≡ final_cell ∷ [] }
        requires given { AreGiven kept.old (group_of group.now) }
        requires sound { AllMayRevert (named_group kept.old (group_of group.now)) }
        ensures ok { OnOk result (self.new ≡ view_reverted self.old (named_group kept.old (group_of group.now))) }
        ensures checked { OnOk result (reversion_check self.old.doc (named_group kept.old (group_of group.now)) ≡ None) }
        ensures returns { IfOk result (λ r. r.returns.items ≡ (reversion self.old.doc (named_group kept.old (group_of group.now))).returns) }
        ensures actions { IfOk result (λ r. named_group kept.new (group_of r.actions.items)
            ≡ reverted_group self.old.doc (named_group kept.old (group_of group.now))) }
        ensures given { IfOk result (λ r. AreGiven kept.new (group_of r.actions.items)) }
        ensures sound { IfOk result (λ r. AllMayRevert (named_group kept.new (group_of r.actions.items))) }
        ensures ids { KeepsIds kept.old kept.new }
        ensures err { IfErr result (λ fault. (fault ≡ Fault.NoMemory)
            ⊎ (reversion_check self.old.doc (named_group kept.old (group_of group.now)) ≡ Some fault)) }
        ensures unchanged { OnErr result (self.new ≡ self.old) }
    {
        // For its clauses alone.
        let _ = self.doc.kept();
        self.doc
            .revert_in(&mut self.widget, &mut self.others, copy, group, kept)
    }
}
