// Places in the order of their operations' stamps.
ghost use Rattle.std.specs.Prelude.{◌≡◌, ℕ, ◌+◌, ◌*◌, ◌^◌, ◌<◌, ◌≤◌, [], ◌∷◌, ◌++◌, length, slice_get, Some, vec_len, IsOk, OnOk, IfOk};
ghost use Rattle.std.specs.List.{insert};
ghost use Rattle.rt_oplog.specs.Logs.{IsFalling};
ghost use Rattle.rt_oplog.specs.Kept.{is_earlier, newest_first, leading};
ghost use Rattle.rt_oplog.specs.Spares.{AreSpare};
ghost use Rattle.rt_oplog.specs.Blocks.{places_in_blocks, room_of, runs_of};

use crate::block::Block;
use crate::blocks::{append, find, flat, get, insert_in};
use crate::run::Run;
use crate::runs::{HALF, MOST};
use rt_rows::{RowPlace, Rows};
use rt_stamps::Stamp;
use std::alloc::{AllocError, Global};
use std::marker::Model;

/// Places of operations in a log, in an order. What is put in moves the places of one block, and not
/// all behind it.
pub(crate) struct Order {
    alloc: Global,
    blocks: Vec<Block>,
    /// Blocks to be: empty, with the room of a block.
    spare: Vec<Vec<Run>>,
    /// How many places there are.
    len: usize,
}

// Written out, so that where a log is let go its order is one step for the crates above.
impl Drop for Order {
    fn drop(self) {
        let Order {
            alloc: _,
            blocks: _,
            spare: _,
            len: _,
        } = self;
    }
}

impl Model for Order {
    ghost use Rattle.rt_oplog.specs.Places.{Places};

    ghost Value = { Places };

    ghost use Rattle.rt_oplog.specs.Ordered.{IsOrdered, places_of};

    ghost view = { places_of };

    ghost invariant = { IsOrdered };
}

/// How many runs all blocks have, of so many places.
fn count_runs(blocks: &[Block], len: usize) -> usize
    requires { len ≡ length (places_in_blocks blocks.now) }
    ensures runs { result ≡ runs_of blocks.now }
    ensures few { result ≤ len }
{
    let mut runs = 0;
    for block in blocks {
        runs += block.runs.len();
    }
    runs
}

/// How many blocks to be there must be, so that so many more places can be put in.
fn spares_for(more: usize, len: usize, runs: usize, blocks: usize) -> usize
    requires few { runs ≤ len }
    requires fits { len + 2 * more < 2 ^ 64 }
    ensures enough { (spare : ℕ) → result ≤ spare → more ≤ room_of spare blocks runs len }
    ensures least { (spare : ℕ) → more ≤ room_of spare blocks runs len → result ≤ spare }
{
    more.min((runs + 2 * more).div_ceil(HALF).saturating_sub(blocks))
}

/// One more block to be.
fn push_spare(spare: &mut Vec<Vec<Run>>, alloc: Global) -> Result<(), AllocError>
    requires { AreSpare spare.old.items }
    ensures spares { AreSpare spare.new.items }
    ensures grows { vec_len spare.old ≤ vec_len spare.new }
    ensures one { vec_len spare.new ≤ vec_len spare.old + 1 }
    ensures ok { OnOk result (vec_len spare.new ≡ vec_len spare.old + 1) }
{
    let runs = Vec::with_capacity(alloc, MOST)?;
    spare.push(runs)?;
    Ok(())
}

/// As many blocks to be.
#[inline(always)]
fn fill(spare: &mut Vec<Vec<Run>>, alloc: Global, count: usize) -> Result<(), AllocError>
    requires spares { AreSpare spare.old.items }
    requires bound { vec_len spare.old ≤ count }
    ensures spares { AreSpare spare.new.items }
    ensures grows { vec_len spare.old ≤ vec_len spare.new }
    ensures bound { vec_len spare.new ≤ count }
    ensures ok { OnOk result (vec_len spare.new ≡ count) }
    ensures there { vec_len spare.old ≡ count → IsOk result }
{
    while spare.len() < count {
        push_spare(spare, alloc)?;
    }
    Ok(())
}

impl Order {
    /// These places.
    pub(crate) fn of(alloc: Global, places: &[RowPlace]) -> Result<Order, AllocError>
        ensures { IfOk result (λ order. order.items ≡ places.now) }
    {
        let mut order = Order::new(alloc);
        for place in places {
            order.reserve(1)?;
            order.push(*place);
        }
        Ok(order)
    }

    /// No places.
    pub(crate) fn new(alloc: Global) -> Order
        ensures { result.items ≡ [] }
    {
        Order {
            alloc,
            blocks: Vec::new(alloc),
            spare: Vec::new(alloc),
            len: 0,
        }
    }

    /// Makes room for `more` places. An error where a growth was refused; the places stay.
    #[inline(always)]
    pub(crate) fn reserve(&mut self, more: usize) -> Result<(), AllocError>
        ensures same { self.new.items ≡ self.old.items }
        ensures ok { OnOk result (more ≤ self.new.room) }
        ensures kept { self.old.room ≤ self.new.room }
        ensures there { more ≤ self.old.room → IsOk result }
    {
        let Some(_) = more
            .checked_mul(2)
            .and_then(|twice| self.len.checked_add(twice))
        else {
            return Err(AllocError);
        };
        if more <= self.spare.len() {
            return Ok(());
        }
        let runs = count_runs(&self.blocks, self.len);
        let count = spares_for(more, self.len, runs, self.blocks.len()).max(self.spare.len());
        self.blocks.reserve(count)?;
        fill(&mut self.spare, self.alloc, count)
    }

    /// How many places there are.
    pub(crate) fn len(&self) -> usize
        ensures { result ≡ length self.now.items }
    {
        self.len
    }

    /// The places, in blocks.
    pub(crate) fn blocks(&self) -> &[Block]
        ensures { places_in_blocks result.now ≡ self.now.items }
    {
        &self.blocks
    }

    /// The place that stands at a number.
    pub(crate) fn get(&self, at: usize) -> RowPlace
        requires { at < length self.now.items }
        ensures { slice_get self.now.items at ≡ Some result }
    {
        get(&self.blocks, self.len, at)
    }

    /// The places in one list.
    pub(crate) fn flat(&self) -> Result<Vec<RowPlace>, AllocError>
        ensures { IfOk result (λ places. places.items ≡ self.now.items) }
    {
        flat(self.alloc, &self.blocks, self.len)
    }

    /// The first place whose operation is not before a stamp.
    pub(crate) fn find(&self, ops: &Rows, stamp: Stamp) -> Option<RowPlace>
        requires { IsFalling (newest_first ops.now.rows self.now.items) }
        ensures { result ≡ slice_get self.now.items (leading (is_earlier ops.now.rows stamp) self.now.items) }
    {
        find(ops, &self.blocks, stamp)
    }

    /// Puts a place behind the others.
    #[inline(always)]
    pub(crate) fn push(&mut self, place: RowPlace)
        requires { 0 < self.old.room }
        ensures items { self.new.items ≡ self.old.items ++ place ∷ [] }
        ensures room { self.old.room ≤ self.new.room + 1 }
    {
        append(&mut self.blocks, &mut self.spare, place);
        self.len += 1;
    }

    /// Puts a place in behind those whose operations are before a stamp.
    pub(crate) fn insert(&mut self, ops: &Rows, stamp: Stamp, place: RowPlace)
        requires falling { IsFalling (newest_first ops.now.rows self.old.items) }
        requires room { 0 < self.old.room }
        ensures items { self.new.items ≡ insert self.old.items (leading (is_earlier ops.now.rows stamp) self.old.items) place }
        ensures room { self.old.room ≤ self.new.room + 1 }
    {
        insert_in(ops, &mut self.blocks, &mut self.spare, stamp, place);
        self.len += 1;
    }
}
