// Groups of actions that are reverted.
ghost use Rattle.std.specs.Prelude.{◌≡◌, ◌⊎◌, ◌∷◌, [], None, Some, IfErr, IfOk, OnErr, OnOk, length, map};
ghost use Rattle.std.specs.List.{AllByRecursion};
ghost use Rattle.rt_text.specs.Owned.{widget_value};
ghost use Rattle.rt_store.specs.Cells.{final_cell, text_of};
ghost use Rattle.rt_tags.specs.States.{KeepsIds};
ghost use Rattle.rt_undo.specs.Actions.{group_of};
ghost use Rattle.rt_revert.specs.Plans.{AreGiven, named_group};
ghost use Rattle.rt_revert.specs.Reverting.{reversion, reverted, reverted_group};
ghost use Rattle.rt_revert.specs.ReversionLaws.{AllMayRevert};
ghost use Rattle.rt_text.specs.Reversions.{widget_reverted, reversion_check};
ghost use Rattle.rt_text.specs.Widgets.{IsOwnOf};

use super::Doc;
use crate::changing::revert_all;
use crate::preparing::{list_tags, prepare_tags};
use crate::{Reverted, Widget};
use rt_plans::Author;
use rt_revert::planned_reversion;
use rt_stamps::Fault;
use rt_store::TextStore;
use rt_tags::StateTable;
use rt_undo::Action;

impl<S: TextStore> Doc<S> {
    // Reverts a group of actions. The copy is an empty store for the text in which it is planned.
    pub(crate) fn revert_in<C: TextStore>(
        &mut self,
        widget: &mut Widget,
        others: &mut [Widget],
        copy: C,
        group: &[Action],
        kept: &mut StateTable,
    ) -> Result<Reverted, Fault>
        requires empty { C.list copy ≡ final_cell ∷ [] }
        requires given { AreGiven kept.old (group_of group.now) }
        requires sound { AllMayRevert (named_group kept.old (group_of group.now)) }
        requires own { IsOwnOf (length (text_of self.old.cells)) (widget_value widget.old) }
        requires others { AllByRecursion (IsOwnOf (length (text_of self.old.cells))) (map widget_value others.old) }
        ensures doc { OnOk result (self.new ≡ reverted self.old (named_group kept.old (group_of group.now))) }
        ensures widget { OnOk result (widget_value widget.new ≡ widget_reverted self.old (named_group kept.old (group_of group.now))
            (widget_value widget.old)) }
        ensures peers { OnOk result (map widget_value others.new
            ≡ map (widget_reverted self.old (named_group kept.old (group_of group.now))) (map widget_value others.old)) }
        ensures checked { OnOk result (reversion_check self.old (named_group kept.old (group_of group.now)) ≡ None) }
        ensures returns { IfOk result (λ r. r.returns.items ≡ (reversion self.old (named_group kept.old (group_of group.now))).returns) }
        ensures actions { IfOk result (λ r. named_group kept.new (group_of r.actions.items)
            ≡ reverted_group self.old (named_group kept.old (group_of group.now))) }
        ensures given { IfOk result (λ r. AreGiven kept.new (group_of r.actions.items)) }
        ensures sound { IfOk result (λ r. AllMayRevert (named_group kept.new (group_of r.actions.items))) }
        ensures ids { KeepsIds kept.old kept.new }
        ensures err { IfErr result (λ fault. (fault ≡ Fault.NoMemory)
            ⊎ (reversion_check self.old (named_group kept.old (group_of group.now)) ≡ Some fault)) }
        ensures unchanged { OnErr result ((self.new ≡ self.old) × (widget_value widget.new ≡ widget_value widget.old)
            × (map widget_value others.new ≡ map widget_value others.old)) }
        ensures own { IsOwnOf (length (text_of self.new.cells)) (widget_value widget.new) }
        ensures others { AllByRecursion (IsOwnOf (length (text_of self.new.cells))) (map widget_value others.new) }
    {
        let site = self.replica.site();
        let count = self.replica.clock().seen();
        let (store, states) = self.kept();
        let author = Author { site, count };
        let plan = planned_reversion(self.alloc, store, states, copy, author, group, kept)?;
        prepare_tags(&mut self.tags, &plan.names)?;
        self.replica.commit(plan.drafts)?;
        revert_all(
            &mut self.marks,
            widget,
            others,
            &plan.changes,
            &plan.returns,
        );
        list_tags(&mut self.tags, &plan.names);
        Ok(Reverted {
            returns: plan.returns,
            actions: plan.actions,
        })
    }
}
