// Rows of Deletes of one span each.
ghost use Rattle.std.specs.Prelude.{◌≡◌, ◌+◌, ◌<◌, ◌≤◌, ◌∷◌, [], ◌++◌, IfNone, IfSome, length, slice_get, slice_index_or, Some, IsOkUnless, true};
ghost use Rattle.rt_stamps.specs.declared.fault.Fault.TheVariants.{NoMemory};
ghost use Rattle.rt_stamps.specs.declared.limits.TheConstants.{GREATEST_COUNT};
ghost use Rattle.rt_ops.specs.Rules.{is_span, keeps_rules};
ghost use Rattle.rt_ops.specs.Views.{body_in};
ghost use Rattle.rt_ops.specs.Operations.{stamp_of};
ghost use Rattle.rt_rows.specs.Places.{nothing};
ghost use Rattle.rt_rows.specs.Rows.{deletes_in_row, with_span};
ghost use Rattle.rt_rows.specs.Views.{MayStand, operation_deleting, operation_in};

use crate::row::{MOST_IN_ROW, RowStart};
use crate::single::DeleteOp;
use rt_ops::{EditView, OpView};
use rt_stamps::{Fault, ROOT, Span, Stamp};
use std::alloc::Global;
use std::marker::Model;
use std::slice;

/// Deletes of one span each that a site made in a row: where the row begins, and the spans, of which the first takes no
/// memory of its own.
#[derive(Drop)]
pub(crate) struct DeleteRow {
    start: RowStart,
    first: Span,
    more: Vec<Span>,
}

impl Model for DeleteRow {
    ghost use Rattle.std.specs.Prelude.{◌≡◌, ◌+◌, ◌≤◌, ◌∷◌, length, true};
    ghost use Rattle.std.specs.List.{AllByRecursion};
    ghost use Rattle.rt_stamps.specs.declared.limits.TheConstants.{GREATEST_COUNT};
    ghost use Rattle.rt_ops.specs.Rules.{is_span};
    ghost use Rattle.rt_rows.specs.Rows.{DeletesInRow};

    ghost Value = { DeletesInRow };

    ghost view = { λ row. record { start = row.start; spans = row.first ∷ row.more.items } };

    ghost invariant = { λ row. (row.start.count + length row.more.items ≤ GREATEST_COUNT) × (is_span row.first ≡ true)
        × AllByRecursion (λ span. is_span span ≡ true) row.more.items };
}

impl DeleteRow {
    /// A row of one Delete so far. Takes no memory.
    pub(crate) fn of(alloc: Global, deleted: DeleteOp) -> DeleteRow
        requires { MayStand (operation_deleting deleted) }
        ensures { deletes_in_row result ≡ operation_deleting deleted ∷ [] }
    {
        DeleteRow {
            start: RowStart::of(deleted.stamp, deleted.prev),
            first: deleted.span,
            more: Vec::new(alloc),
        }
    }

    /// How many Deletes there are.
    fn len(&self) -> usize
        ensures len { result ≡ length self.now.spans }
        ensures some { 0 < result }
    {
        self.more.len() + 1
    }

    /// The stamp of the Delete at a place, `ROOT` where none stands there.
    pub(crate) fn stamp_at(&self, place: usize) -> Stamp
        ensures { result ≡ stamp_of (slice_index_or (deletes_in_row self.now) place nothing) }
    {
        if place < self.len() {
            self.start.stamp_at(place)
        } else {
            ROOT
        }
    }

    /// The span at a place.
    fn span_at(&self, place: usize) -> &Span
        requires { place < length self.now.spans }
        ensures is { slice_get self.now.spans place ≡ Some result.now }
        ensures span { is_span result.now ≡ true }
    {
        if place == 0 {
            return &self.first;
        }
        &self.more[place - 1]
    }

    /// The Delete at a place.
    pub(crate) fn view(&self, place: usize) -> OpView<'_>
        requires { place < length self.now.spans }
        ensures is { slice_get (deletes_in_row self.now) place ≡ Some (operation_in result) }
        ensures rules { keeps_rules (body_in result.edit) ≡ true }
    {
        OpView {
            stamp: self.start.stamp_at(place),
            prev: self.start.prev_at(place),
            edit: EditView::Delete {
                spans: slice::from_ref(self.span_at(place)),
            },
        }
    }

    /// One more span and its place, where there is room for it; else the row stays. Takes no memory.
    fn push(&mut self, span: Span) -> Option<u32>
        requires count { self.old.start.count + length self.old.spans ≤ GREATEST_COUNT }
        requires span { is_span span ≡ true }
        ensures more { IfSome result (λ at. (at ≡ length self.old.spans) × (self.new ≡ with_span self.old span)) }
        ensures same { IfNone result (self.new ≡ self.old) }
    {
        let len = self.more.len();
        if len >= MOST_IN_ROW - 1 || len == self.more.capacity() {
            return None;
        }
        self.more.push_reserved(span);
        Some(len as u32 + 1)
    }

    /// Takes a Delete in at the end, where it goes on from the row and there is room, and tells its place; else the row stays.
    /// Takes no memory.
    pub(crate) fn take(&mut self, deleted: &DeleteOp) -> Option<u32>
        requires { MayStand (operation_deleting deleted.now) }
        ensures place { IfSome result (λ at. at ≡ length (deletes_in_row self.old)) }
        ensures more { IfSome result (λ at. deletes_in_row self.new ≡ deletes_in_row self.old ++ operation_deleting deleted.now ∷ []) }
        ensures same { IfNone result (self.new ≡ self.old) }
    {
        let many = self.len();
        if !self.start.goes_on(many, deleted.stamp, deleted.prev) {
            return None;
        }
        self.push(deleted.span)
    }

    /// Room for one more span. `NoMemory` is its only fault; the row stays.
    pub(crate) fn make_room(&mut self) -> Result<(), Fault>
        ensures same { self.new ≡ self.old }
        ensures fault { IsOkUnless result NoMemory }
    {
        self.more.reserve(1)?;
        Ok(())
    }
}
