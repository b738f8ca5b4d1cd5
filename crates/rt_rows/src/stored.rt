// What is kept in a row: operations of a site with counts that follow one another, or one operation.
ghost use Rattle.std.specs.Prelude.{◌≡◌, List, ◌∷◌, [], ◌++◌, ◌<◌, IfNone, IfSome, length, slice_get, slice_index_or, Some, IsOkUnless, true};
ghost use Rattle.rt_stamps.specs.declared.fault.Fault.TheVariants.{NoMemory};
ghost use Rattle.rt_ops.specs.Operations.{Name, stamp_of};
ghost use Rattle.rt_rows.specs.Places.{nothing};
ghost use Rattle.rt_ops.specs.Rules.{keeps_rules};
ghost use Rattle.rt_ops.specs.Views.{body_in};
ghost use Rattle.rt_rows.specs.Views.{MayStand, list_of, operation_in, operation_of};
ghost use Rattle.rt_rows.specs.Stored.{list_in, operations_stored};

use crate::deletes::DeleteRow;
use crate::listed::ListedInsert;
use crate::names::TagLists;
use crate::row::Row;
use crate::single::RowOp;
use rt_ops::{Op, OpView};
use rt_stamps::{Fault, ROOT, Stamp};
use std::alloc::Global;

/// Characters typed in a row, each an operation of its own, or Deletes of one span each in a row, or one operation: an Insert
/// whose list of tags is kept with others, or any.
#[derive(Drop)]
pub(crate) enum Stored {
    Typed(Row),
    Deleted(DeleteRow),
    Listed(ListedInsert),
    Single(Op),
}

impl Stored {
    /// A row of one operation so far. Takes no memory.
    pub(crate) fn of(alloc: Global, one: &RowOp) -> Stored
        requires { MayStand (operation_of [] one.now) }
        ensures is { (lists : List (List Name)) → operations_stored lists result ≡ operation_of lists one.now ∷ [] }
        ensures list { list_in result ≡ list_of one.now }
    {
        match one {
            RowOp::Typed(typed, list) => Stored::Typed(Row::of(alloc, *typed, *list)),
            RowOp::Deleted(deleted) => Stored::Deleted(DeleteRow::of(alloc, *deleted)),
        }
    }

    /// The operation at a place, where the lists of tags are these.
    pub(crate) fn view<'a>(&'a self, lists: &'a TagLists, place: usize) -> OpView<'a>
        requires { place < length (operations_stored lists.now.lists self.now) }
        ensures is { slice_get (operations_stored lists.now.lists self.now) place ≡ Some (operation_in result) }
        ensures rules { keeps_rules (body_in result.edit) ≡ true }
    {
        match self {
            Stored::Typed(row) => row.view(lists, place),
            Stored::Deleted(row) => row.view(place),
            Stored::Listed(one) => one.view(lists),
            Stored::Single(op) => OpView::of(op),
        }
    }

    /// The stamp of the operation at a place, `ROOT` where none stands there.
    pub(crate) fn stamp_at(&self, place: usize) -> Stamp
        ensures { (lists : List (List Name)) → result ≡ stamp_of (slice_index_or (operations_stored lists self.now) place nothing) }
    {
        match self {
            Stored::Typed(row) => row.stamp_at(place),
            Stored::Deleted(row) => row.stamp_at(place),
            Stored::Listed(one) => { if place == 0 { one.stamp() } else { ROOT } }
            Stored::Single(op) => { if place == 0 { op.stamp() } else { ROOT } }
        }
    }

    /// Room for one more operation of a row. `NoMemory` is its only fault; the operations stay.
    pub(crate) fn make_room(&mut self) -> Result<(), Fault>
        ensures same { self.new ≡ self.old }
        ensures fault { IsOkUnless result NoMemory }
    {
        match self {
            Stored::Typed(row) => row.make_room(),
            Stored::Deleted(row) => row.make_room(),
            Stored::Listed(_) => Ok(()),
            Stored::Single(_) => Ok(()),
        }
    }

    /// Takes an operation in at the end, where it goes on from a row that has room, and tells its place; else the operations
    /// stay. Takes no memory.
    #[inline(always)]
    pub(crate) fn take(&mut self, one: &RowOp) -> Option<u32>
        requires { MayStand (operation_of [] one.now) }
        ensures place { IfSome result (λ at. (lists : List (List Name)) → at ≡ length (operations_stored lists self.old)) }
        ensures more { IfSome result (λ at. (lists : List (List Name)) → operations_stored lists self.new
            ≡ operations_stored lists self.old ++ operation_of lists one.now ∷ []) }
        ensures same { IfNone result (self.new ≡ self.old) }
        ensures list { list_in self.new ≡ list_in self.old }
    {
        match (self, one) {
            (Stored::Typed(row), RowOp::Typed(typed, list)) => row.take(typed, *list),
            (Stored::Deleted(row), RowOp::Deleted(deleted)) => row.take(deleted),
            _ => None,
        }
    }
}
