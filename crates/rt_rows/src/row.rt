// Rows of typed characters.
ghost use Rattle.std.specs.Prelude.{◌≡◌, ◌&&◌, List, ℕ, ◌+◌, ◌-◌, ◌<◌, ◌≤◌, ◌∷◌, [], ◌++◌, IfNone, IfSome, length, slice_get, slice_index_or, Some, IsOkUnless, true};
ghost use Rattle.rt_stamps.specs.declared.fault.Fault.TheVariants.{NoMemory};
ghost use Rattle.rt_stamps.specs.declared.limits.TheConstants.{GREATEST_COUNT};
ghost use Rattle.rt_stamps.specs.Stamps.{is_same};
ghost use Rattle.rt_ops.specs.Operations.{Name, Operation, stamp_of};
ghost use Rattle.rt_ops.specs.Rules.{is_text, keeps_rules};
ghost use Rattle.rt_ops.specs.Views.{body_in};
ghost use Rattle.rt_rows.specs.Places.{nothing};
ghost use Rattle.rt_rows.specs.Listed.{names_at, row_under, with_character};
ghost use Rattle.rt_rows.specs.Rows.{after_in, follows, is_next_of_row, operations_in_row, prev_in, stamp_in};
ghost use Rattle.rt_rows.specs.Views.{operation_in, operation_under};

use crate::TypedOp;
use crate::names::TagLists;
use rt_ops::{EditView, OpView};
use rt_stamps::{Fault, ROOT, Stamp};
use smallvec::SmallVec;
use std::alloc::Global;
use std::marker::Model;
use std::slice;

/// Where a row begins: the stamp and the previous count of its first operation.
#[derive(Clone, Copy)]
pub(crate) struct RowStart {
    count: u64,
    prev: u64,
    site: u32,
}

impl RowStart {
    /// Where a row begins with an operation of this stamp and previous count.
    pub(crate) fn of(stamp: Stamp, prev: u64) -> RowStart
        ensures { result ≡ record { count = stamp.count; prev = prev; site = stamp.site } }
    {
        RowStart {
            count: stamp.count,
            prev,
            site: stamp.site,
        }
    }

    /// The stamp at a place of the row.
    pub(crate) fn stamp_at(self, place: usize) -> Stamp
        requires { self.count + place ≤ GREATEST_COUNT }
        ensures { result ≡ stamp_in self place }
    {
        Stamp {
            count: self.count + place as u64,
            site: self.site,
        }
    }

    /// The previous count at a place of the row.
    pub(crate) fn prev_at(self, place: usize) -> u64
        requires { self.count + place ≤ GREATEST_COUNT }
        ensures { result ≡ prev_in self place }
    {
        if place == 0 {
            return self.prev;
        }
        self.count + (place as u64 - 1)
    }

    /// Whether a stamp and a previous count are those of the next operation of a row of so many.
    pub(crate) fn goes_on(self, many: usize, stamp: Stamp, prev: u64) -> bool
        requires some { 0 < many }
        requires counts { self.count + many ≤ GREATEST_COUNT + 1 }
        ensures { (op : Operation) → stamp_of op ≡ stamp → op.prev ≡ prev → result ≡ follows self many op }
    {
        prev == self.count + (many as u64 - 1)
            && stamp.count == self.count + many as u64
            && stamp.site == self.site
    }
}

/// A character by itself keeps the rules of a text.
fn is_text_alone(character: char)
    ensures { is_text (character ∷ []) ≡ true }
{}

/// A character as a text.
fn one_of(character: &char) -> &[char]
    ensures text { result.now ≡ character.now ∷ [] }
    ensures rules { is_text result.now ≡ true }
{
    // Called for its clause.
    is_text_alone(*character);
    slice::from_ref(character)
}

/// Characters that a site typed in a row under the same tags: where the row begins, the first one's left element, the place
/// of the list of these tags, where there are any, and the characters, of which up to four take no memory of their own.
#[derive(Drop)]
pub(crate) struct Row {
    start: RowStart,
    after: Stamp,
    list: Option<u32>,
    text: SmallVec<char, 4>,
}

/// The most operations of a row, so that a growth copies few.
pub(crate) const MOST_IN_ROW: usize = 4096;

impl Model for Row {
    ghost use Rattle.std.specs.Prelude.{◌+◌, ◌<◌, ◌≤◌, length};
    ghost use Rattle.rt_stamps.specs.declared.limits.TheConstants.{GREATEST_COUNT};
    ghost use Rattle.rt_rows.specs.Listed.{KeptRow};

    ghost Value = { KeptRow };

    ghost view = { λ row. record { start = row.start; after = row.after; list = row.list; text = row.text.items } };

    ghost invariant = { λ row. (0 < length row.text.items) × (row.start.count + length row.text.items ≤ GREATEST_COUNT + 1) };
}

/// Whether two places of lists are the same, or both none.
fn is_same_list(one: Option<u32>, other: Option<u32>) -> bool
    ensures { result ≡ true → one ≡ other }
{
    match (one, other) {
        (None, None) => true,
        (Some(at), Some(place)) => at == place,
        _ => false,
    }
}

impl Row {
    /// A row of one character so far, under the tags of the list at a place. Takes no memory.
    pub(crate) fn of(alloc: Global, typed: TypedOp, list: Option<u32>) -> Row
        requires { typed.stamp.count ≤ GREATEST_COUNT }
        ensures is { (lists : List (List Name)) → operations_in_row (row_under lists result) ≡ operation_under (names_at lists list) typed ∷ [] }
        ensures list { result.list ≡ list }
    {
        let mut text = SmallVec::new(alloc);
        text.push_reserved(typed.character);
        Row {
            start: RowStart::of(typed.stamp, typed.prev),
            after: typed.after,
            list,
            text,
        }
    }

    /// The stamp of the character at a place, `ROOT` where none stands there.
    pub(crate) fn stamp_at(&self, place: usize) -> Stamp
        ensures { (lists : List (List Name)) → result ≡ stamp_of (slice_index_or (operations_in_row (row_under lists self.now)) place nothing) }
    {
        if place < self.text.len() {
            self.start.stamp_at(place)
        } else {
            ROOT
        }
    }

    /// The element after which the character at a place stands.
    fn after_at(&self, place: usize) -> Stamp
        requires { place < length self.now.text }
        ensures { result ≡ after_in self.now.start self.now.after place }
    {
        if place == 0 {
            return self.after;
        }
        self.start.stamp_at(place - 1)
    }

    /// The operation of the character at a place, where the lists of tags are these.
    pub(crate) fn view<'a>(&'a self, lists: &'a TagLists, place: usize) -> OpView<'a>
        requires { place < length self.now.text }
        ensures is { slice_get (operations_in_row (row_under lists.now.lists self.now)) place ≡ Some (operation_in result) }
        ensures rules { keeps_rules (body_in result.edit) ≡ true }
    {
        OpView {
            stamp: self.start.stamp_at(place),
            prev: self.start.prev_at(place),
            edit: EditView::Insert {
                after: self.after_at(place),
                tags: lists.names_at(self.list),
                text: one_of(&self.text.as_slice()[place]),
            },
        }
    }

    /// Whether a typed operation is the row's next one, the row's tags aside.
    fn goes_on(&self, typed: &TypedOp) -> bool
        ensures next { (tags : List Name) → result
            ≡ (follows self.now.start (length self.now.text) (operation_under tags typed.now)
            && is_same typed.now.after (stamp_in self.now.start (length self.now.text - 1))) }
        ensures some { 0 < length self.now.text }
    {
        let many = self.text.len();
        self.start.goes_on(many, typed.stamp, typed.prev)
            && typed.after == self.start.stamp_at(many - 1)
    }

    /// One more character and its place, where there is room for it; else the row stays. Takes no memory.
    fn push(&mut self, character: char) -> Option<u32>
        requires { self.old.start.count + length self.old.text ≤ GREATEST_COUNT }
        ensures more { IfSome result (λ at. (at ≡ length self.old.text) × (self.new ≡ with_character self.old character)) }
        ensures same { IfNone result (self.new ≡ self.old) }
    {
        let len = self.text.len();
        if len >= MOST_IN_ROW || len == self.text.capacity() {
            return None;
        }
        self.text.push_reserved(character);
        Some(len as u32)
    }

    /// Takes a typed operation under the tags of a list in at the end, where it goes on from the row and there is room, and
    /// tells its place; else the row stays. Takes no memory.
    pub(crate) fn take(&mut self, typed: &TypedOp, list: Option<u32>) -> Option<u32>
        requires { typed.now.stamp.count ≤ GREATEST_COUNT }
        ensures place { IfSome result (λ at. (lists : List (List Name)) → at ≡ length (operations_in_row (row_under lists self.old))) }
        ensures more { IfSome result (λ at. (lists : List (List Name)) → operations_in_row (row_under lists self.new)
            ≡ operations_in_row (row_under lists self.old) ++ operation_under (names_at lists list) typed.now ∷ []) }
        ensures same { IfNone result (self.new ≡ self.old) }
        ensures list { self.new.list ≡ self.old.list }
    {
        if !self.goes_on(typed) || !is_same_list(list, self.list) {
            return None;
        }
        self.push(typed.character)
    }

    /// Room for one more character. `NoMemory` is its only fault; the row stays.
    pub(crate) fn make_room(&mut self) -> Result<(), Fault>
        ensures same { self.new ≡ self.old }
        ensures fault { IsOkUnless result NoMemory }
    {
        self.text.reserve(1)?;
        Ok(())
    }
}
