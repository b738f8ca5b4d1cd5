// Undo and redo.
ghost use Rattle.std.specs.Prelude.{◌≡◌, ◌⊎◌, ◌≤◌, ◌∷◌, ◌++◌, [], true, List, None, Some, Ok, length, map, IfErr, IfOk, OnErr, OnOk};
ghost use Rattle.std.specs.List.{AllByRecursion};
ghost use Rattle.rt_stamps.specs.declared.stamp.Stamp.{Stamp};
ghost use Rattle.rt_stamps.specs.Outcomes.{Refuses};
ghost use Rattle.rt_store.specs.Cells.{final_cell};
ghost use Rattle.rt_tags.specs.States.{KeepsIds};
ghost use Rattle.rt_undo.specs.Actions.{group_of};
ghost use Rattle.rt_revert.specs.Reverting.{reversion, reverted_group};
ghost use Rattle.rt_revert.specs.ReversionLaws.{AllMayRevert};
ghost use Rattle.rt_text.specs.Reversions.{reversion_check, view_reverted};
ghost use Rattle.rt_recording.specs.Naming.{AreGiven, named_group};
ghost use Rattle.rt_recording.specs.Recordings.{HaveStayed, came_back};
ghost use Rattle.rt_recording.specs.Returns.{AreReturns, IsOther, back_after, stamp_after};
ghost use Rattle.rt_recording.specs.Reversals.{group_redone, group_undone};
ghost use Rattle.rt_recording.specs.Settled.{AreGoneOnce, IsSettled, is_gone_cell, taken_by};

use super::Recorder;
use crate::counting::most_returns;
use rt_stamps::Fault;
use rt_store::TextStore;
use rt_text::{Reverted, View};
use rt_undo::Action;

impl Recorder {
    // A group, by the stamps of now, is reverted in a view, and there is room for what comes back.
    // `ClockSpent`, `TextFull`, or want of memory, and then the view is as it was.
    fn revert<S: TextStore, C: TextStore>(
        &mut self,
        view: &mut View<S>,
        copy: C,
        group: &[Action],
    ) -> Result<Reverted, Fault>
        requires empty { C.list copy ≡ final_cell ∷ [] }
        requires given { AreGiven self.old.table (group_of group.now) }
        requires sound { AllMayRevert (named_group self.old.table (group_of group.now)) }
        requires stay { HaveStayed (came_back self.old) (named_group self.old.table (group_of group.now)) }
        requires gone { (stamp : Stamp) → came_back self.old stamp ≡ true → is_gone_cell view.old.doc.cells stamp ≡ true }
        ensures view { OnOk result (view.new ≡ view_reverted view.old (named_group self.old.table (group_of group.now))) }
        ensures checked { OnOk result (reversion_check view.old.doc (named_group self.old.table (group_of group.now)) ≡ None) }
        ensures returns { IfOk result (λ r. r.returns.items ≡ (reversion view.old.doc (named_group self.old.table (group_of group.now))).returns) }
        ensures first_times { IfOk result (λ r. AreReturns (came_back self.new) r.returns.items) }
        ensures others { IfOk result (λ r. AllByRecursion IsOther r.returns.items) }
        ensures actions { IfOk result (λ r. named_group self.new.table (group_of r.actions.items)
            ≡ reverted_group view.old.doc (named_group self.old.table (group_of group.now))) }
        ensures given { IfOk result (λ r. AreGiven self.new.table (group_of r.actions.items)) }
        ensures sound { IfOk result (λ r. AllMayRevert (named_group self.new.table (group_of r.actions.items))) }
        ensures stay { IfOk result (λ r. HaveStayed (back_after r.returns.items (came_back self.new))
            (named_group self.new.table (group_of r.actions.items))) }
        ensures gone { IfOk result (λ r. (stamp : Stamp) → back_after r.returns.items (came_back self.new) stamp ≡ true
            → is_gone_cell view.new.doc.cells stamp ≡ true) }
        ensures taken { IfOk result (λ r. (others : List Stamp)
            → AreGoneOnce view.old.doc.cells (taken_by (named_group self.old.table (group_of group.now)) ++ others)
            → AreGoneOnce view.new.doc.cells (map (stamp_after r.returns.items) others
            ++ taken_by (named_group self.new.table (group_of r.actions.items)))) }
        ensures ready { OnOk result (self.new.ready ≡ true) }
        ensures room { IfOk result (λ r. length r.returns.items ≤ self.new.moves.room) }
        ensures history { self.new.history ≡ self.old.history }
        ensures came_back { (stamp : Stamp) → came_back self.new stamp ≡ came_back self.old stamp }
        ensures settings { (self.new.undo ≡ self.old.undo) × (self.new.auto ≡ self.old.auto) }
        ensures pending { self.new.pending ≡ self.old.pending }
        ensures ids { KeepsIds self.old.table self.new.table }
        ensures err { IfErr result (λ fault. (fault ≡ Fault.NoMemory)
            ⊎ (reversion_check view.old.doc (named_group self.old.table (group_of group.now)) ≡ Some fault)) }
        ensures unchanged { OnErr result (view.new ≡ view.old) }
    {
        // For their clauses alone.
        let _ = view.doc().log();
        let _ = view.doc().site();
        let most = most_returns(group)?;
        self.stacks.reserve(most)?;
        view.revert(copy, group, &mut self.table)
    }

    /// `edit undo` (Tk text manual, "The undo mechanism"): the actions of the last group of the undo
    /// stack are reverted in the site's view, the last one first. Of the characters that they put in
    /// those go that are still visible, and those that they took away come back, each directly after
    /// where it was, with the tags that it had; marks move for that. The group leaves its stack, and its
    /// reverted actions are the next group to redo; nothing is prepared then. `NothingToUndo`, `ClockSpent`,
    /// `TextFull`, or want of memory, and then the text, what was recorded and what is prepared are as they
    /// were. `copy` is an empty store, in which this is tried first.
    pub fn undo<S: TextStore, C: TextStore>(
        &mut self,
        view: &mut View<S>,
        copy: C,
    ) -> Result<(), Fault>
        requires empty { C.list copy ≡ final_cell ∷ [] }
        requires settled { IsSettled view.old self.old }
        ensures ok { OnOk result (group_undone view.old self.old.history ≡ Ok (view.new, self.new.history)) }
        ensures err { IfErr result (Refuses (group_undone view.old self.old.history)) }
        ensures unchanged { OnErr result ((view.new ≡ view.old) × (self.new.history ≡ self.old.history)) }
        ensures prepared { OnErr result (self.new.pending ≡ self.old.pending) }
        ensures stayed { OnErr result ((stamp : Stamp) → came_back self.new stamp ≡ came_back self.old stamp) }
        ensures used { OnOk result (self.new.pending ≡ None) }
        ensures ids { KeepsIds self.old.table self.new.table }
        ensures settings { (self.new.undo ≡ self.old.undo) × (self.new.auto ≡ self.old.auto) }
        ensures settled { IsSettled view.new self.new }
    {
        let group = self.undo_group()?;
        let Reverted { returns, actions } = self.revert(view, copy, &group)?;
        self.undone(&returns, actions);
        Ok(())
    }

    /// `edit redo` (Tk text manual, "The undo mechanism"): the group that was undone last is reverted
    /// in turn, in the same way. It leaves the redo stack, and its reverted actions are the next group to
    /// undo, which is closed; where there are more groups to undo then than may be (`set_max_undo`), the oldest
    /// ones are dropped; nothing is prepared then. `NothingToRedo`, `ClockSpent`, `TextFull`, or want of
    /// memory, and then the text, what was recorded and what is prepared are as they were. `copy` is an
    /// empty store, in which this is tried first.
    pub fn redo<S: TextStore, C: TextStore>(
        &mut self,
        view: &mut View<S>,
        copy: C,
    ) -> Result<(), Fault>
        requires empty { C.list copy ≡ final_cell ∷ [] }
        requires settled { IsSettled view.old self.old }
        ensures ok { OnOk result (group_redone view.old self.old.history ≡ Ok (view.new, self.new.history)) }
        ensures err { IfErr result (Refuses (group_redone view.old self.old.history)) }
        ensures unchanged { OnErr result ((view.new ≡ view.old) × (self.new.history ≡ self.old.history)) }
        ensures prepared { OnErr result (self.new.pending ≡ self.old.pending) }
        ensures stayed { OnErr result ((stamp : Stamp) → came_back self.new stamp ≡ came_back self.old stamp) }
        ensures used { OnOk result (self.new.pending ≡ None) }
        ensures ids { KeepsIds self.old.table self.new.table }
        ensures settings { (self.new.undo ≡ self.old.undo) × (self.new.auto ≡ self.old.auto) }
        ensures settled { IsSettled view.new self.new }
    {
        let group = self.redo_group()?;
        let Reverted { returns, actions } = self.revert(view, copy, &group)?;
        self.redone(&returns, actions);
        Ok(())
    }
}
