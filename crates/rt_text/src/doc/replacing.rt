// Replacements: a deletion and then an insertion, as one plan.
ghost use Rattle.std.specs.Prelude.{◌≡◌, ℕ, ◌⊎◌, ◌+◌, ◌<◌, ◌≤◌, [], All, List, None, IfOk, IfErr, is_some, length, map, true};
ghost use Rattle.rt_stamps.specs.declared.limits.TheConstants.{GREATEST_COUNT};
ghost use Rattle.rt_store.specs.Cells.{text_of};
ghost use Rattle.rt_text.specs.Commands.{with_range_replaced};
ghost use Rattle.rt_text.specs.Replacements.{PlansReplacement, loss_at};
ghost use Rattle.rt_text.specs.Widgets.{IsOwnOf, WidgetValue, ViewValue};
ghost use Rattle.rt_plans.specs.DeletionLaws.{IsPiece};
ghost use Rattle.rt_plans.specs.Deletions.{without_text};
ghost use Rattle.rt_plans.specs.Removals.{RangesFollow, is_covered};
ghost use Rattle.rt_text.specs.Editing.{IsEdit, edit_check};
ghost use Rattle.rt_text.specs.Owned.{widget_value, view_of};
ghost use Rattle.std.specs.List.{AllByRecursion};
ghost use Rattle.rt_lines.specs.Ordered.{LimitsAreInOrder};

use super::Doc;
use crate::Widget;
use crate::inserting::{insert_all, select_all};
use crate::moving::{leave_all, unselect};
use crate::neighbours::{shown_after, shown_before, stamp_or_root};
use crate::preparing::{list_tags, make_planned};
use crate::staying::{left_after, place_after};
use rt_plans::drafting::planned_deletion;
use rt_plans::inserting::{Gap, Plan, planned_between};
use rt_plans::{Author, Piece, Range};
use rt_rga::{Draft, OneOrMany};
use rt_stamps::{Fault, count_after};
use rt_store::TextStore;
use std::mem::replace;

/// What a replacement comes to: the ranges of places that go, and whether they hold the last newline; the
/// place of the new text in what is left; the operations of the deletion and of the insertion in turn;
/// and the plan of the new text beside these.
pub(crate) struct Replacement {
    pub removed: Vec<Range>,
    pub held: bool,
    pub place: usize,
    pub drafts: Vec<Draft>,
    pub plan: Plan,
}

// Written out, so that where it is let go is one step, and not one for each field of each field.
impl Drop for Replacement {
    fn drop(self) {
        let Replacement {
            removed: _,
            held: _,
            place: _,
            drafts: _,
            plan: _,
        } = self;
    }
}

impl<S: TextStore> Doc<S> {
    // Plans the replacement of a range: its text is planned for what the deletion leaves, before anything
    // changes. Where the last newline is held, it is no neighbour: it has no tags then, and isn't selected.
    fn planned_replacement(
        &self,
        widget: &Widget,
        range: Range,
        pieces: &[Piece],
        rest: &str,
    ) -> Result<Replacement, Fault>
        requires { LimitsAreInOrder self.now.cells widget.now.limits }
        ensures plans { IfOk result (λ r. (others : List WidgetValue)
            → PlansReplacement (record { doc = self.now; own = widget_value widget.now; others = others }) range pieces.now rest.now r) }
        ensures removed { let view : ViewValue = record { doc = self.now; own = widget_value widget.now; others = [] } in
            IfOk result (λ r. (place : ℕ) → is_covered r.removed.items place ≡ (loss_at view range).places place) }
        ensures order { IfOk result (λ r. RangesFollow 0 r.removed.items) }
        ensures held { let view : ViewValue = record { doc = self.now; own = widget_value widget.now; others = [] } in
            IfOk result (λ r. r.held ≡ is_some (loss_at view range).newline) }
        ensures alone { IfOk result (λ r. r.held ≡ true → r.plan.between ≡ None) }
        ensures fits { let view : ViewValue = record { doc = self.now; own = widget_value widget.now; others = [] } in
            IfOk result (λ r. (without_text self.now (loss_at view range)).count ≤ GREATEST_COUNT) }
        ensures err { IfErr result (λ fault. (fault ≡ Fault.NoMemory) ⊎ ((fault ≡ Fault.ClockSpent) × ((others : List WidgetValue) → GREATEST_COUNT
            < (with_range_replaced (record { doc = self.now; own = widget_value widget.now; others = others }) range pieces.now rest.now).doc.count))) }
    {
        let site = self.replica.site();
        let count = self.replica.clock().seen();
        let (store, states) = self.kept();
        let stretch = widget.limits().stretch(store);
        let deletion = planned_deletion(self.alloc, store, states, stretch, &[range])?;
        let count = count_after(count, deletion.drafts.len() as u64)?;
        let removed = &deletion.removed;
        let last = place_after(removed, stretch.end - 1);
        let at = stretch.begin.saturating_add(range.from).min(last);
        let behind = left_after(store, removed, at);
        let after = stamp_or_root(&behind);
        let left = shown_before(at - stretch.begin, behind);
        let right = shown_after(store, removed, deletion.held, widget.limits(), at, pieces);
        let gap = Gap { after, left, right };
        let plan = planned_between(
            self.alloc,
            states,
            Author { site, count },
            &widget.selection,
            &gap,
            pieces,
            rest,
        )?;
        let mut both = Replacement {
            removed: deletion.removed,
            held: deletion.held,
            place: at - stretch.begin,
            drafts: deletion.drafts,
            plan,
        };
        let inserts = replace(&mut both.plan.drafts, OneOrMany::none(self.alloc));
        inserts.move_to(&mut both.drafts)?;
        Ok(both)
    }

    // Replaces the characters in a range by pieces of text and characters without a list.
    pub(crate) fn replace_in(
        &mut self,
        widget: &mut Widget,
        others: &mut [Widget],
        range: Range,
        pieces: &[Piece],
        rest: &str,
    ) -> Result<(), Fault>
        requires pieces { All IsPiece pieces.now }
        requires order { LimitsAreInOrder self.old.cells widget.old.limits }
        requires own { IsOwnOf (length (text_of self.old.cells)) (widget_value widget.old) }
        requires others { AllByRecursion (IsOwnOf (length (text_of self.old.cells))) (map widget_value others.old) }
        ensures { let view = view_of self.old widget.old others.old in
            let edited = with_range_replaced view range pieces.now rest.now in
            IsEdit (edit_check self.old) view edited (view_of self.new widget.new others.new) result }
    {
        let (store, _) = self.kept();
        let stretch = widget.limits().stretch(store);
        let last = store.cell_at(stretch.end - 1).stamp;
        let mut planned = self.planned_replacement(widget, range, pieces, rest)?;
        let at = stretch.begin + planned.place;
        let drafts = replace(&mut planned.drafts, Vec::new(self.alloc));
        make_planned(
            &mut self.replica,
            &mut self.tags,
            &mut widget.selection,
            others,
            OneOrMany::Many(drafts),
            &planned.plan,
        )?;
        unselect(planned.held, last, &mut widget.selection, others);
        select_all(
            &mut widget.selection,
            others,
            &planned.plan.selected,
            &planned.plan.between,
        );
        leave_all(&mut self.marks, widget, others, &planned.removed);
        insert_all(&mut self.marks, widget, others, at, planned.plan.characters);
        list_tags(&mut self.tags, &planned.plan.names);
        Ok(())
    }
}
