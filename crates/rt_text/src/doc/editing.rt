// Insertions and removals.
ghost use Rattle.std.specs.Prelude.{◌≡◌, ◌⊎◌, All, List, ◌<◌, None, Some, IfErr, IfOk, IfSome, length, map, option_map};
ghost use Rattle.rt_ops.specs.Edits.{body_of};
ghost use Rattle.rt_stamps.specs.declared.limits.TheConstants.{GREATEST_COUNT, MOST_CHARACTERS};
ghost use Rattle.rt_stamps.specs.Words.{Word};
ghost use Rattle.rt_store.specs.Shown.{shown};
ghost use Rattle.rt_tags.specs.States.{IsState};
ghost use Rattle.rt_plans.specs.InsertionDrafts.{insertion_drafts};
ghost use Rattle.rt_plans.specs.InsertionPlans.{Plans, with_typed};
ghost use Rattle.rt_plans.specs.Insertions.{insertion_of};
ghost use Rattle.rt_rga.specs.Drafts.{one_character};
ghost use Rattle.rt_rga.specs.OneOrMany.{items_in};
ghost use Rattle.rt_text.specs.Replacements.{drafts_at, insertion_at};
ghost use Rattle.rt_store.specs.Cells.{text_of};
ghost use Rattle.rt_text.specs.Widgets.{IsOwnOf, WidgetValue, ViewValue, selections_of};
ghost use Rattle.rt_text.specs.Commands.{none_inserted, with_pieces_at, without_ranges};
ghost use Rattle.rt_plans.specs.DeletionLaws.{IsPiece};
ghost use Rattle.rt_text.specs.Editing.{IsEdit, count_check, edit_check};
ghost use Rattle.rt_text.specs.Owned.{widget_value, view_of};
ghost use Rattle.std.specs.List.{AllByRecursion};
ghost use Rattle.rt_lines.specs.Ordered.{LimitsAreInOrder};
ghost use Rattle.rt_lines.specs.Stretches.{shown_part, stretch_of};

use super::Doc;
use crate::Widget;
use crate::inserting::{insert_all, select_all};
use crate::moving::{leave_all, unselect_last};
use crate::neighbours::{left_of, shown_at, shown_before, stamp_or_root};
use crate::new_text::NewText;
use crate::others::{add_between, reserve_between};
use crate::preparing::{list_tags, make_planned};
use rt_lines::Stretch;
use rt_plans::drafting::planned_deletion;
use rt_plans::inserting::{Gap, Plan, Typed, planned_between, typed_between};
use rt_plans::{Author, Piece, Range};
use rt_rga::OneOrMany;
use rt_stamps::{Fault, Stamp};
use rt_store::TextStore;
use rt_tags::StateTable;
use std::mem::replace;
use std::slice;

impl<S: TextStore> Doc<S> {
    // Where text goes that stands behind pieces, before the character at a place of the stretch that is shown, and the
    // states of characters. In this gap an insertion is what it is at the place.
    #[inline(always)]
    fn neighbours(
        &self,
        widget: &Widget,
        stretch: Stretch,
        place: usize,
        pieces: &[Piece],
    ) -> (&StateTable, Gap)
        requires stretch { stretch ≡ stretch_of self.now.cells widget.now.limits }
        requires place { place < length (shown_part self.now.cells widget.now.limits) }
        requires order { LimitsAreInOrder self.now.cells widget.now.limits }
        ensures left { IfSome result.1.left (λ cell. IsState result.0.now cell.state) }
        ensures right { IfSome result.1.right (λ cell. IsState result.0.now cell.state) }
        ensures after { IfSome result.1.left (λ cell. result.1.after ≡ cell.stamp) }
        ensures drafts { (others : List WidgetValue) (rest : Word)
            → let view : ViewValue = record { doc = self.now; own = widget_value widget.now; others = others } in
            insertion_drafts MOST_CHARACTERS self.now.site result.1.after
            (option_map (shown result.0.now) result.1.left) (option_map (shown result.0.now) result.1.right)
            pieces.now rest (none_inserted view) ≡ drafts_at view place pieces.now rest }
        ensures comes { (others : List WidgetValue) (rest : Word)
            → let view : ViewValue = record { doc = self.now; own = widget_value widget.now; others = others } in
            insertion_of self.now.site (option_map (shown result.0.now) result.1.left) (option_map (shown result.0.now) result.1.right)
            pieces.now rest (none_inserted view) ≡ insertion_at view place pieces.now rest }
    {
        let (store, states) = self.kept();
        let at = stretch.begin + place;
        let behind = left_of(store, at);
        let after = stamp_or_root(&behind);
        let left = shown_before(place, behind);
        let right = shown_at(store, widget.limits(), at, pieces);
        (states, Gap { after, left, right })
    }

    // Plans new text.
    fn planned_insertion(&self, widget: &Widget, text: NewText<'_>) -> Result<Plan, Fault>
        requires stretch { text.stretch ≡ stretch_of self.now.cells widget.now.limits }
        requires place { text.place < length (shown_part self.now.cells widget.now.limits) }
        requires order { LimitsAreInOrder self.now.cells widget.now.limits }
        ensures drafts { IfOk result (λ plan. (others : List WidgetValue)
            → let view : ViewValue = record { doc = self.now; own = widget_value widget.now; others = others } in
            map body_of (items_in plan.drafts) ≡ drafts_at view text.entry.place text.entry.pieces.now text.entry.rest.now) }
        ensures plans { IfOk result (λ plan. (others : List WidgetValue) → Plans plan (widget_value widget.now).sel (selections_of others) self.now.tags
            (insertion_at (record { doc = self.now; own = widget_value widget.now; others = others }) text.entry.place text.entry.pieces.now text.entry.rest.now)) }
        ensures err { IfErr result (λ fault. (fault ≡ Fault.NoMemory) ⊎ ((fault ≡ Fault.ClockSpent) × ((others : List WidgetValue)
            → let view : ViewValue = record { doc = self.now; own = widget_value widget.now; others = others } in
            GREATEST_COUNT < (with_pieces_at view text.entry.place text.entry.pieces.now text.entry.rest.now).doc.count))) }
    {
        let site = self.replica.site();
        let count = self.replica.clock().seen();
        let (states, gap) = self.neighbours(widget, text.stretch, text.place, text.pieces);
        planned_between(
            self.alloc,
            states,
            Author { site, count },
            &widget.selection,
            &gap,
            text.pieces,
            text.rest,
        )
    }

    // What new text comes to, where that is what typing mostly comes to (`typed_between` of rt_plans); else none.
    #[inline(always)]
    fn typed(&self, widget: &Widget, text: NewText<'_>) -> Option<Typed>
        requires stretch { text.stretch ≡ stretch_of self.now.cells widget.now.limits }
        requires place { text.place < length (shown_part self.now.cells widget.now.limits) }
        requires order { LimitsAreInOrder self.now.cells widget.now.limits }
        ensures drafts { IfSome result (λ typed. (others : List WidgetValue) →
            let view : ViewValue = record { doc = self.now; own = widget_value widget.now; others = others } in
            drafts_at view text.entry.place text.entry.pieces.now text.entry.rest.now ≡ one_character typed.left typed.character) }
        ensures comes { IfSome result (λ typed. (others : List WidgetValue) →
            let view : ViewValue = record { doc = self.now; own = widget_value widget.now; others = others } in
            insertion_at view text.entry.place text.entry.pieces.now text.entry.rest.now ≡ with_typed self.now.site typed (none_inserted view)) }
    {
        // What is surely more than a character, or has no left neighbour, looks nothing up; a character has at most four bytes.
        if !text.pieces.is_empty() || text.rest.len() > 4 || text.place == 0 {
            return None;
        }
        let count = self.replica.clock().seen();
        let (states, gap) = self.neighbours(widget, text.stretch, text.place, text.pieces);
        typed_between(
            states,
            count,
            &widget.selection,
            &gap,
            text.pieces,
            text.rest,
        )
    }

    // Puts in a typed character, to which new text comes: of that the place alone is read, the rest is for the clauses.
    #[inline(always)]
    fn insert_typed(
        &mut self,
        widget: &mut Widget,
        others: &mut [Widget],
        text: NewText<'_>,
        typed: Typed,
    ) -> Result<(), Fault>
        requires drafts { (others : List WidgetValue) → let view : ViewValue = record { doc = self.old; own = widget_value widget.old; others = others } in
            drafts_at view text.place text.pieces.now text.rest.now ≡ one_character typed.left typed.character }
        requires comes { (others : List WidgetValue) → let view : ViewValue = record { doc = self.old; own = widget_value widget.old; others = others } in
            insertion_at view text.place text.pieces.now text.rest.now ≡ with_typed self.old.site typed (none_inserted view) }
        requires stretch { text.stretch ≡ stretch_of self.old.cells widget.old.limits }
        requires place { text.place < length (shown_part self.old.cells widget.old.limits) }
        requires pieces { All IsPiece text.pieces.now }
        requires own { IsOwnOf (length (text_of self.old.cells)) (widget_value widget.old) }
        requires others { AllByRecursion (IsOwnOf (length (text_of self.old.cells))) (map widget_value others.old) }
        ensures { let view = view_of self.old widget.old others.old in
            let edited = with_pieces_at view text.entry.place text.entry.pieces.now text.entry.rest.now in
            IsEdit (edit_check self.old) view edited (view_of self.new widget.new others.new) result }
    {
        // For its clauses alone: they say where the place lies.
        let _ = self.kept();
        let at = text.stretch.begin + text.place;
        let stamp = Stamp {
            count: self.replica.clock().seen() + 1,
            site: self.replica.site().number(),
        };
        reserve_between(others, typed.left, typed.right, 1)?;
        self.replica.commit_character(typed.left, typed.character)?;
        add_between(others, typed.left, typed.right, slice::from_ref(&stamp));
        insert_all(&mut self.marks, widget, others, at, 1);
        Ok(())
    }

    // Carries out a plan for new text: of that the place alone is read, the rest is for the clauses.
    fn insert_planned(
        &mut self,
        widget: &mut Widget,
        others: &mut [Widget],
        text: NewText<'_>,
        plan: Plan,
    ) -> Result<(), Fault>
        requires drafts { (others : List WidgetValue)
            → let view : ViewValue = record { doc = self.old; own = widget_value widget.old; others = others } in
            map body_of (items_in plan.drafts) ≡ drafts_at view text.place text.pieces.now text.rest.now }
        requires plans { (others : List WidgetValue) → Plans plan (widget_value widget.old).sel (selections_of others) self.old.tags
            (insertion_at (record { doc = self.old; own = widget_value widget.old; others = others }) text.place text.pieces.now text.rest.now) }
        requires stretch { text.stretch ≡ stretch_of self.old.cells widget.old.limits }
        requires place { text.place < length (shown_part self.old.cells widget.old.limits) }
        requires pieces { All IsPiece text.pieces.now }
        requires own { IsOwnOf (length (text_of self.old.cells)) (widget_value widget.old) }
        requires others { AllByRecursion (IsOwnOf (length (text_of self.old.cells))) (map widget_value others.old) }
        ensures { let view = view_of self.old widget.old others.old in
            let edited = with_pieces_at view text.entry.place text.entry.pieces.now text.entry.rest.now in
            IsEdit (edit_check self.old) view edited (view_of self.new widget.new others.new) result }
    {
        let mut plan = plan;
        // For its clauses alone: they say where the place lies.
        let _ = self.kept();
        let at = text.stretch.begin + text.place;
        let drafts = replace(&mut plan.drafts, OneOrMany::none(self.alloc));
        make_planned(
            &mut self.replica,
            &mut self.tags,
            &mut widget.selection,
            others,
            drafts,
            &plan,
        )?;
        select_all(&mut widget.selection, others, &plan.selected, &plan.between);
        insert_all(&mut self.marks, widget, others, at, plan.characters);
        list_tags(&mut self.tags, &plan.names);
        Ok(())
    }

    // Puts in new text by a plan of pieces of any number, where typing isn't all: a function of its own, out of typing's way.
    #[inline(never)]
    fn insert_pieces(
        &mut self,
        widget: &mut Widget,
        others: &mut [Widget],
        text: NewText<'_>,
    ) -> Result<(), Fault>
        requires stretch { text.stretch ≡ stretch_of self.old.cells widget.old.limits }
        requires place { text.place < length (shown_part self.old.cells widget.old.limits) }
        requires order { LimitsAreInOrder self.old.cells widget.old.limits }
        requires pieces { All IsPiece text.pieces.now }
        requires own { IsOwnOf (length (text_of self.old.cells)) (widget_value widget.old) }
        requires others { AllByRecursion (IsOwnOf (length (text_of self.old.cells))) (map widget_value others.old) }
        ensures { let view = view_of self.old widget.old others.old in
            let edited = with_pieces_at view text.entry.place text.entry.pieces.now text.entry.rest.now in
            IsEdit (edit_check self.old) view edited (view_of self.new widget.new others.new) result }
    {
        match self.planned_insertion(widget, text) {
            Ok(plan) => self.insert_planned(widget, others, text, plan),
            Err(fault) => Err(fault),
        }
    }

    // Puts in new text.
    #[inline(always)]
    pub(crate) fn insert_at(
        &mut self,
        widget: &mut Widget,
        others: &mut [Widget],
        text: NewText<'_>,
    ) -> Result<(), Fault>
        requires stretch { text.stretch ≡ stretch_of self.old.cells widget.old.limits }
        requires place { text.place < length (shown_part self.old.cells widget.old.limits) }
        requires order { LimitsAreInOrder self.old.cells widget.old.limits }
        requires pieces { All IsPiece text.pieces.now }
        requires own { IsOwnOf (length (text_of self.old.cells)) (widget_value widget.old) }
        requires others { AllByRecursion (IsOwnOf (length (text_of self.old.cells))) (map widget_value others.old) }
        ensures { let view = view_of self.old widget.old others.old in
            let edited = with_pieces_at view text.entry.place text.entry.pieces.now text.entry.rest.now in
            IsEdit (edit_check self.old) view edited (view_of self.new widget.new others.new) result }
    {
        match self.typed(widget, text) {
            Some(typed) => self.insert_typed(widget, others, text, typed),
            None => self.insert_pieces(widget, others, text),
        }
    }

    // Removes the characters in ranges.
    pub(crate) fn delete_in(
        &mut self,
        widget: &mut Widget,
        others: &mut [Widget],
        ranges: &[Range],
    ) -> Result<(), Fault>
        requires own { IsOwnOf (length (text_of self.old.cells)) (widget_value widget.old) }
        requires others { AllByRecursion (IsOwnOf (length (text_of self.old.cells))) (map widget_value others.old) }
        ensures { let view = view_of self.old widget.old others.old in
            IsEdit count_check view (without_ranges view ranges.now) (view_of self.new widget.new others.new) result }
    {
        let (store, states) = self.kept();
        let stretch = widget.limits().stretch(store);
        let last = store.cell_at(stretch.end - 1).stamp;
        let deletion = planned_deletion(self.alloc, store, states, stretch, ranges)?;
        self.replica.commit(OneOrMany::Many(deletion.drafts))?;
        leave_all(&mut self.marks, widget, others, &deletion.removed);
        unselect_last(deletion.held, last, widget, others);
        Ok(())
    }
}
