// Operations in rows.
ghost use Rattle.std.specs.Prelude.{◌≡◌, ◌+◌, ◌<◌, ◌≤◌, [], ℕ, List, length, IsOk, OnOk, IsOkUnless, true};
ghost use Rattle.rt_stamps.specs.declared.fault.Fault.TheVariants.{NoMemory};
ghost use Rattle.rt_stamps.specs.declared.limits.TheConstants.{GREATEST_COUNT};
ghost use Rattle.rt_ops.specs.Operations.{Insert, Name, Operation, stamp_of};
ghost use Rattle.rt_rows.specs.Listed.{IsListed};
ghost use Rattle.rt_rows.specs.Places.{HasPlace, IsOnlyNew, KeepsPlaces, StandsAt, op_at};
ghost use Rattle.rt_ops.specs.Rules.{is_text, keeps_rules};
ghost use Rattle.rt_ops.specs.Views.{body_in};
ghost use Rattle.rt_rows.specs.Views.{MayStand, list_of, operation_in, operation_of, operation_typed};

use crate::TypedOp;
use crate::kept::KeptRows;
use crate::listed::ListedInsert;
use crate::names::{TagList, TagLists};
use crate::single::{RowOp, row_op_in, typed_in};
use crate::stored::Stored;
use rt_ops::{Edit, Op, OpView, Text};
use rt_stamps::{Fault, Stamp};
use std::alloc::Global;
use std::marker::Model;

/// Where an operation is kept: a row, and its place in the row, from 0 on.
#[derive(Clone, Copy)]
pub struct RowPlace {
    pub row: u32,
    pub at: u32,
}

/// Operations, each of which keeps its place. Inserts of one character by one site under the same tags, each after the one
/// before with the following count, are kept as one text: a row, of 4,096 at most, also where other sites' operations come
/// between. So are Deletes of one span each with counts that follow one another, as spans. A character takes 4 bytes there, a
/// span 24, up to twice that where the row has grown by doubling. Any other operation is a row by itself. A row takes some
/// 110 bytes. Lists of tags that Inserts share are kept once.
pub struct Rows {
    kept: KeptRows,
    lists: TagLists,
}

// Written out, so that where a log is let go its operations are one step for the crates above.
impl Drop for Rows {
    fn drop(self) {
        let Rows { kept: _, lists: _ } = self;
    }
}

impl Model for Rows {
    ghost use Rattle.std.specs.Prelude.{length, min};
    ghost use Rattle.rt_rows.specs.Places.{RowsValue};
    ghost use Rattle.rt_rows.specs.Stored.{AreListed, rows_in};

    ghost Value = { RowsValue };

    ghost view = { λ all. record {
      rows = rows_in all.lists.lists all.kept.kept;
      room = min all.kept.room all.lists.room;
    } };

    ghost invariant = { λ all. AreListed (length all.lists.lists) all.kept.kept };
}

/// Whether an operation lists tags.
fn lists_tags(op: &Op) -> bool {
    match op.edit() {
        Edit::Insert {
            after: _,
            tags,
            text: _,
        } => !tags.is_empty(),
        Edit::Delete { spans: _ } => false,
        Edit::Tag {
            on: _,
            name: _,
            spans: _,
        } => false,
    }
}

impl Rows {
    /// No operations. Takes no memory.
    pub fn new(alloc: Global) -> Rows
        ensures { result.rows ≡ [] }
    {
        Rows {
            kept: KeptRows::new(alloc),
            lists: TagLists::new(alloc),
        }
    }

    /// How many rows there are: it tells what memory they take.
    pub fn count(&self) -> usize
        ensures { result ≡ length self.now.rows }
    {
        self.kept.count()
    }

    /// Makes room for `more` calls of `push` or `push_typed`, which then take no memory, and for a further operation of the
    /// row that was pushed to last. `NoMemory` where a growth was refused, or there would be more than 2^32 rows or lists of tags;
    /// the operations stay.
    pub fn reserve(&mut self, more: usize) -> Result<(), Fault>
        ensures same { self.new.rows ≡ self.old.rows }
        ensures ok { OnOk result (more ≤ self.new.room) }
        ensures kept { self.old.room ≤ self.new.room }
        ensures fault { IsOkUnless result NoMemory }
        ensures there { more ≤ self.old.room → IsOk result }
    {
        self.kept.reserve(more)?;
        self.lists.reserve(more)
    }

    /// The operation at a place, seen where it is kept.
    pub fn view(&self, place: RowPlace) -> OpView<'_>
        requires { HasPlace self.now.rows place }
        ensures is { op_at self.now.rows place ≡ operation_in result }
        ensures rules { keeps_rules (body_in result.edit) ≡ true }
    {
        self.kept.at(place.row).view(&self.lists, place.at as usize)
    }

    /// The stamp of the operation at a place, `ROOT` where none stands there.
    pub fn stamp_at(&self, place: RowPlace) -> Stamp
        ensures { result ≡ stamp_of (op_at self.now.rows place) }
    {
        self.kept.stamp_at(place)
    }

    /// Puts in an operation without tags that may lie in a row, where there is room, and tells its place; all others keep theirs.
    #[inline(always)]
    fn push_row(&mut self, one: &RowOp) -> RowPlace
        requires stands { MayStand (operation_of [] one.now) }
        requires alone { (many : ℕ) → IsListed many (list_of one.now) }
        requires room { 0 < self.old.room }
        ensures there { (op : Operation) → ((lists : List (List Name)) → operation_of lists one.now ≡ op) → StandsAt self.new.rows op result }
        ensures one { IsOnlyNew self.old.rows self.new.rows result }
        ensures kept { KeepsPlaces self.old.rows self.new.rows }
        ensures room { self.old.room ≤ self.new.room + 1 }
        ensures rows { length self.new.rows ≤ length self.old.rows + 1 }
    {
        self.kept.push_one(one)
    }

    /// Puts an operation in as a row by itself, where there is room, and tells its place; all others keep theirs.
    fn push_single(&mut self, op: Op) -> RowPlace
        requires room { 0 < self.old.room }
        ensures there { StandsAt self.new.rows op result }
        ensures one { IsOnlyNew self.old.rows self.new.rows result }
        ensures kept { KeepsPlaces self.old.rows self.new.rows }
        ensures room { self.old.room ≤ self.new.room + 1 }
        ensures rows { length self.new.rows ≤ length self.old.rows + 1 }
    {
        self.kept.push_alone(Stored::Single(op))
    }

    /// Puts in an Insert of these parts, where there is room, and tells its place; all others keep theirs.
    fn push_listed(
        &mut self,
        stamp: Stamp,
        prev: u64,
        after: Stamp,
        tags: TagList,
        text: Text,
    ) -> RowPlace
        requires room { 0 < self.old.room }
        requires rules { is_text text ≡ true }
        ensures there { StandsAt self.new.rows (record { count = stamp.count; site = stamp.site; prev = prev; body = Insert after tags text }) result }
        ensures one { IsOnlyNew self.old.rows self.new.rows result }
        ensures kept { KeepsPlaces self.old.rows self.new.rows }
        ensures room { self.old.room ≤ self.new.room + 1 }
        ensures rows { length self.new.rows ≤ length self.old.rows + 1 }
    {
        let list = self.lists.keep(tags);
        match typed_in(stamp, prev, after, text.characters()) {
            Some(typed) => {
                drop(text);
                self.kept.push_one(&RowOp::Typed(typed, Some(list)))
            }
            None => {
                let one = ListedInsert::of(stamp, prev, after, list, text);
                self.kept.push_alone(Stored::Listed(one))
            }
        }
    }

    /// Puts in an operation that may list tags, where there is room, and tells its place; all others keep theirs.
    fn push_tagged(&mut self, op: Op) -> RowPlace
        requires room { 0 < self.old.room }
        ensures there { StandsAt self.new.rows op result }
        ensures one { IsOnlyNew self.old.rows self.new.rows result }
        ensures kept { KeepsPlaces self.old.rows self.new.rows }
        ensures room { self.old.room ≤ self.new.room + 1 }
        ensures rows { length self.new.rows ≤ length self.old.rows + 1 }
    {
        let (stamp, prev) = (op.stamp(), op.prev());
        match op.into_edit() {
            Edit::Insert { after, tags, text } => {
                self.push_listed(stamp, prev, after, TagList::of(tags), text)
            }
            edit => self.push_single(Op::of(stamp, prev, edit)),
        }
    }

    /// Puts a typed operation in, where there is room, and tells its place; all others keep theirs. Takes no memory: where it
    /// goes on from the row that was pushed to last, or from a recent row, with room, it joins that, else it begins a row.
    pub fn push_typed(&mut self, typed: TypedOp) -> RowPlace
        requires count { typed.stamp.count ≤ GREATEST_COUNT }
        requires room { 0 < self.old.room }
        ensures there { StandsAt self.new.rows (operation_typed typed) result }
        ensures one { IsOnlyNew self.old.rows self.new.rows result }
        ensures kept { KeepsPlaces self.old.rows self.new.rows }
        ensures room { self.old.room ≤ self.new.room + 1 }
        ensures rows { length self.new.rows ≤ length self.old.rows + 1 }
    {
        self.push_row(&RowOp::Typed(typed, None))
    }

    /// Puts an operation in, where there is room, and tells its place; all others keep theirs. Takes no memory: a typed one
    /// comes in as by `push_typed`, and so do one under tags and a Delete of one span; any other begins a row.
    pub fn push(&mut self, op: Op) -> RowPlace
        requires room { 0 < self.old.room }
        ensures there { StandsAt self.new.rows op result }
        ensures one { IsOnlyNew self.old.rows self.new.rows result }
        ensures kept { KeepsPlaces self.old.rows self.new.rows }
        ensures room { self.old.room ≤ self.new.room + 1 }
        ensures rows { length self.new.rows ≤ length self.old.rows + 1 }
    {
        if let Some(one) = row_op_in(&op) {
            return self.push_row(&one);
        }
        if lists_tags(&op) {
            return self.push_tagged(op);
        }
        self.push_single(op)
    }
}
