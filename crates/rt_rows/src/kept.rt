// What is kept in rows, whatever the lists of tags are.
ghost use Rattle.std.specs.Prelude.{◌≡◌, ◌+◌, ◌<◌, ◌^◌, ◌≤◌, ◌∷◌, [], ℕ, IfNone, IfSome, IsOk, IsOkUnless, List, OnOk, length, slice_index_or, vec_capacity, vec_len};
ghost use Rattle.rt_stamps.specs.declared.fault.Fault.TheVariants.{NoMemory};
ghost use Rattle.rt_ops.specs.Operations.{Name, Operation, stamp_of};
ghost use Rattle.rt_rows.specs.Listed.{IsListed};
ghost use Rattle.rt_rows.specs.Places.{op_at};
ghost use Rattle.rt_rows.specs.Stored.{AreListed, IsPut, list_in, operations_stored, rows_in};
ghost use Rattle.rt_rows.specs.Views.{MayStand, list_of, operation_of};

use crate::rows::RowPlace;
use crate::single::RowOp;
use crate::stored::Stored;
use rt_stamps::{Fault, ROOT, Stamp};
use std::alloc::Global;
use std::marker::Model;

/// Rows, and which may take a further operation in.
#[derive(Drop)]
pub(crate) struct KeptRows {
    alloc: Global,
    rows: Vec<Stored>,
    /// The row that was pushed to last.
    latest: u32,
    /// The last rows that were begun by characters or Deletes, so that what some sites do at a time lies in rows.
    recent: [u32; RECENT],
    /// Which of them the next one takes the place of.
    oldest: usize,
}

/// How many rows, beside the one that was pushed to last, may take a further operation in.
const RECENT: usize = 8;

impl Model for KeptRows {
    ghost use Rattle.std.specs.Prelude.{◌-◌, ◌^◌, min, vec_len, vec_capacity};
    ghost use Rattle.rt_rows.specs.Stored.{KeptValue};

    ghost Value = { KeptValue };

    ghost view = { λ all. record {
      kept = all.rows.items;
      room = min (vec_capacity all.rows - vec_len all.rows) (2 ^ 32 - vec_len all.rows);
    } };
}

/// The most rows, so that the place of one has 32 bits.
const MOST_ROWS: usize = 1 << 32;

/// Takes an operation into a row, where it goes on from that, with room, and tells its place there.
#[inline(always)]
fn take_at(rows: &mut Vec<Stored>, row: u32, one: &RowOp) -> Option<RowPlace>
    requires { MayStand (operation_of [] one.now) }
    ensures put { IfSome result (λ place. IsPut rows.old.items rows.new.items (λ lists. operation_of lists one.now) place) }
    ensures listed { (many : ℕ) → AreListed many rows.old.items → AreListed many rows.new.items }
    ensures same { IfNone result (rows.new.items ≡ rows.old.items) }
    ensures len { vec_len rows.new ≡ vec_len rows.old }
    ensures capacity { vec_capacity rows.new ≡ vec_capacity rows.old }
{
    let index = row as usize;
    if index >= rows.len() {
        return None;
    }
    match rows[index].take(one) {
        Some(at) => Some(RowPlace { row, at }),
        None => None,
    }
}

/// Takes an operation into the first of some rows that it goes on from, with room, and tells its place there.
fn take_any(rows: &mut Vec<Stored>, some: &[u32], one: &RowOp) -> Option<RowPlace>
    requires { MayStand (operation_of [] one.now) }
    ensures put { IfSome result (λ place. IsPut rows.old.items rows.new.items (λ lists. operation_of lists one.now) place) }
    ensures listed { (many : ℕ) → AreListed many rows.old.items → AreListed many rows.new.items }
    ensures same { IfNone result (rows.new.items ≡ rows.old.items) }
    ensures len { vec_len rows.new ≡ vec_len rows.old }
    ensures capacity { vec_capacity rows.new ≡ vec_capacity rows.old }
{
    for row in some {
        if let Some(place) = take_at(rows, *row, one) {
            return Some(place);
        }
    }
    None
}

/// Begins a row with an operation, where there is room.
fn begin(rows: &mut Vec<Stored>, stored: Stored) -> RowPlace
    requires room { vec_len rows.old < vec_capacity rows.old }
    requires few { vec_len rows.old < 2 ^ 32 }
    ensures put { (op : List (List Name) → Operation) → ((lists : List (List Name)) → operations_stored lists stored ≡ op lists ∷ [])
        → IsPut rows.old.items rows.new.items op result }
    ensures listed { (many : ℕ) → AreListed many rows.old.items → IsListed many (list_in stored) → AreListed many rows.new.items }
    ensures len { vec_len rows.new ≡ vec_len rows.old + 1 }
    ensures capacity { vec_capacity rows.new ≡ vec_capacity rows.old }
{
    let row = rows.len() as u32;
    rows.push_reserved(stored);
    RowPlace { row, at: 0 }
}

impl KeptRows {
    /// No rows. Takes no memory.
    pub(crate) fn new(alloc: Global) -> KeptRows
        ensures { result.kept ≡ [] }
    {
        KeptRows {
            alloc,
            rows: Vec::new(alloc),
            latest: 0,
            recent: [0; RECENT],
            oldest: 0,
        }
    }

    /// How many rows there are.
    pub(crate) fn count(&self) -> usize
        ensures { result ≡ length self.now.kept }
    {
        self.rows.len()
    }

    /// Makes room for `more` rows, and for a further operation of the row that was pushed to last. `NoMemory` where a growth
    /// was refused, or there would be more than 2^32 rows; the operations stay.
    pub(crate) fn reserve(&mut self, more: usize) -> Result<(), Fault>
        ensures same { self.new.kept ≡ self.old.kept }
        ensures ok { OnOk result (more ≤ self.new.room) }
        ensures kept { self.old.room ≤ self.new.room }
        ensures fault { IsOkUnless result NoMemory }
        ensures there { more ≤ self.old.room → IsOk result }
    {
        let len = self.rows.len();
        if more > MOST_ROWS.saturating_sub(len) {
            return Err(Fault::NoMemory);
        }
        self.rows.reserve(more)?;
        let latest = self.latest as usize;
        if latest < len {
            // Where this is refused, the next operation begins a row.
            let _ = self.rows[latest].make_room();
        }
        Ok(())
    }

    /// What is kept in a row.
    pub(crate) fn at(&self, row: u32) -> &Stored
        requires { row < length self.now.kept }
        ensures { slice_index_or self.now.kept row result.now ≡ result.now }
    {
        &self.rows[row as usize]
    }

    /// The stamp of the operation at a place, `ROOT` where none stands there.
    pub(crate) fn stamp_at(&self, place: RowPlace) -> Stamp
        ensures { (lists : List (List Name)) → result ≡ stamp_of (op_at (rows_in lists self.now.kept) place) }
    {
        match self.rows.get(place.row as usize) {
            Some(row) => row.stamp_at(place.at as usize),
            None => ROOT,
        }
    }

    /// Takes an operation into the row that was pushed to last, or else into a recent row, where it goes on from that, with
    /// room.
    #[inline(always)]
    fn join(&mut self, one: &RowOp) -> Option<RowPlace>
        requires { MayStand (operation_of [] one.now) }
        ensures put { IfSome result (λ place. IsPut self.old.kept self.new.kept (λ lists. operation_of lists one.now) place) }
        ensures listed { (many : ℕ) → AreListed many self.old.kept → AreListed many self.new.kept }
        ensures same { IfNone result (self.new.kept ≡ self.old.kept) }
        ensures room { self.new.room ≡ self.old.room }
        ensures rows { length self.new.kept ≡ length self.old.kept }
    {
        if let Some(place) = take_at(&mut self.rows, self.latest, one) {
            return Some(place);
        }
        take_any(&mut self.rows, &self.recent, one)
    }

    /// Begins a row with an operation that others may join there, where there is room.
    fn begin_row(&mut self, one: &RowOp) -> RowPlace
        requires stands { MayStand (operation_of [] one.now) }
        requires room { 0 < self.old.room }
        ensures put { IsPut self.old.kept self.new.kept (λ lists. operation_of lists one.now) result }
        ensures listed { (many : ℕ) → AreListed many self.old.kept → IsListed many (list_of one.now) → AreListed many self.new.kept }
        ensures room { self.old.room ≤ self.new.room + 1 }
        ensures rows { length self.new.kept ≡ length self.old.kept + 1 }
    {
        let place = begin(&mut self.rows, Stored::of(self.alloc, one));
        let slot = self.oldest % RECENT;
        self.recent[slot] = place.row;
        self.oldest = (slot + 1) % RECENT;
        place
    }

    /// Puts in an operation that may lie in a row, where there is room, and tells its place. Takes no memory: where it goes on
    /// from the row that was pushed to last, or from a recent row, with room, it joins that, else it begins a row.
    #[inline(always)]
    pub(crate) fn push_one(&mut self, one: &RowOp) -> RowPlace
        requires stands { MayStand (operation_of [] one.now) }
        requires room { 0 < self.old.room }
        ensures put { IsPut self.old.kept self.new.kept (λ lists. operation_of lists one.now) result }
        ensures listed { (many : ℕ) → AreListed many self.old.kept → IsListed many (list_of one.now) → AreListed many self.new.kept }
        ensures room { self.old.room ≤ self.new.room + 1 }
        ensures rows { length self.new.kept ≤ length self.old.kept + 1 }
    {
        let place = match self.join(one) {
            Some(place) => place,
            None => self.begin_row(one),
        };
        self.latest = place.row;
        place
    }

    /// Puts in what is a row by itself, where there is room, and tells its place. Takes no memory.
    pub(crate) fn push_alone(&mut self, stored: Stored) -> RowPlace
        requires room { 0 < self.old.room }
        ensures put { (op : List (List Name) → Operation) → ((lists : List (List Name)) → operations_stored lists stored ≡ op lists ∷ [])
            → IsPut self.old.kept self.new.kept op result }
        ensures listed { (many : ℕ) → AreListed many self.old.kept → IsListed many (list_in stored) → AreListed many self.new.kept }
        ensures room { self.old.room ≤ self.new.room + 1 }
        ensures rows { length self.new.kept ≡ length self.old.kept + 1 }
    {
        let place = begin(&mut self.rows, stored);
        self.latest = place.row;
        place
    }
}
