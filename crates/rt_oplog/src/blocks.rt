// Places in blocks.
ghost use Rattle.std.specs.Prelude.{◌≡◌, ◌+◌, ◌-◌, ◌<◌, ◌≤◌, ◌∷◌, ◌++◌, [], length, take, slice_get, Some, slice_index_or, vec_len, vec_capacity, IfOk, OnOk};
ghost use Rattle.std.specs.Bool.{OnTrue, OnFalse};
ghost use Rattle.std.specs.List.{insert, list_all};
ghost use Rattle.rt_oplog.specs.Logs.{IsFalling};
ghost use Rattle.rt_oplog.specs.Kept.{is_earlier, newest_first, leading};
ghost use Rattle.rt_oplog.specs.declared.block.Block.{Block};
ghost use Rattle.rt_oplog.specs.declared.runs.TheConstants.{HALF, MOST};
ghost use Rattle.rt_oplog.specs.Runs.{places_in, places_of};
ghost use Rattle.rt_oplog.specs.Spares.{AreSpare, AreSpareRuns};
ghost use Rattle.rt_oplog.specs.Blocks.{AreHalfFull, IsFull, all_pass, places_in_blocks, places_before, room_of, runs_of};

use crate::block::Block;
use crate::run::Run;
use crate::runs::HALF;
use rt_rows::{RowPlace, Rows};
use rt_stamps::Stamp;
use std::alloc::{AllocError, Global};

/// How many blocks stand in front, all of whose operations are before a stamp.
fn blocks_before(ops: &Rows, blocks: &[Block], stamp: Stamp) -> usize
    requires { IsFalling (newest_first ops.now.rows (places_in_blocks blocks.now)) }
    ensures blocks { result ≡ leading (all_pass (is_earlier ops.now.rows stamp)) blocks.now }
    ensures within { result ≤ length blocks.now }
{
    blocks.partition_point(|block| block.is_before(ops, stamp))
}

/// Whether the operations of all blocks are before a stamp, which that of the last place tells.
fn are_earlier(ops: &Rows, blocks: &[Block], stamp: Stamp) -> bool
    requires { IsFalling (newest_first ops.now.rows (places_in_blocks blocks.now)) }
    ensures { result ≡ list_all (all_pass (is_earlier ops.now.rows stamp)) blocks.now }
{
    match blocks.last() {
        Some(block) => block.is_before(ops, stamp),
        None => true,
    }
}

/// The first place whose operation is not before a stamp.
pub(crate) fn find(ops: &Rows, blocks: &[Block], stamp: Stamp) -> Option<RowPlace>
    requires { IsFalling (newest_first ops.now.rows (places_in_blocks blocks.now)) }
    ensures { result ≡ slice_get (places_in_blocks blocks.now) (leading (is_earlier ops.now.rows stamp) (places_in_blocks blocks.now)) }
{
    if are_earlier(ops, blocks, stamp) {
        return None;
    }
    let before = blocks_before(ops, blocks, stamp);
    let block = &blocks[before];
    Some(block.get(block.ops_before(ops, stamp)))
}

/// The place that stands at a number, of so many. It goes from the last block to the first, as the newest is asked for most.
pub(crate) fn get(blocks: &[Block], len: usize, at: usize) -> RowPlace
    requires len { len ≡ length (places_in_blocks blocks.now) }
    requires within { at < len }
    ensures { slice_get (places_in_blocks blocks.now) at ≡ Some result }
{
    let mut before = len;
    let mut block = blocks.len();
    while block > 0 {
        block -= 1;
        before -= blocks[block].many;
        if before <= at {
            return blocks[block].get(at - before);
        }
    }
    RowPlace { row: 0, at: 0 }
}

/// Puts the places of a run behind others.
fn push_run(places: &mut Vec<RowPlace>, run: Run) -> Result<(), AllocError>
    ensures { OnOk result (places.new.items ≡ places.old.items ++ places_of run) }
{
    for number in 0..run.len() {
        places.push(run.place(number))?;
    }
    Ok(())
}

/// Puts the places of runs behind others.
fn push_runs(places: &mut Vec<RowPlace>, runs: &[Run]) -> Result<(), AllocError>
    ensures { OnOk result (places.new.items ≡ places.old.items ++ places_in runs.now) }
{
    for run in runs {
        push_run(places, *run)?;
    }
    Ok(())
}

/// The places in one list, of which there are so many.
pub(crate) fn flat(alloc: Global, blocks: &[Block], len: usize) -> Result<Vec<RowPlace>, AllocError>
    ensures { IfOk result (λ places. places.items ≡ places_in_blocks blocks.now) }
{
    let mut places = Vec::with_capacity(alloc, len)?;
    for block in blocks {
        push_runs(&mut places, &block.runs)?;
    }
    Ok(places)
}

/// A block to be.
fn take_spare(spare: &mut Vec<Vec<Run>>) -> Vec<Run>
    requires spares { AreSpare spare.old.items }
    requires left { 0 < vec_len spare.old }
    ensures spare { AreSpareRuns result }
    ensures spares { AreSpare spare.new.items }
    ensures left { vec_len spare.new + 1 ≡ vec_len spare.old }
{
    spare.pop().unwrap()
}

/// Puts a block in, where there is room.
fn insert_block(blocks: &mut Vec<Block>, at: usize, block: Block)
    requires within { at ≤ vec_len blocks.old }
    requires room { vec_len blocks.old < vec_capacity blocks.old }
    ensures items { blocks.new.items ≡ insert blocks.old.items at block }
    ensures len { vec_len blocks.new ≡ vec_len blocks.old + 1 }
    ensures capacity { vec_capacity blocks.new ≡ vec_capacity blocks.old }
{
    let _ = blocks.insert(at, block);
}

/// Puts a place into a block, where there is room.
#[inline(always)]
fn put_in(blocks: &mut Vec<Block>, block: usize, at: usize, place: RowPlace)
    requires block { block < vec_len blocks.old }
    requires within { (d : Block) → at ≤ length (places_in (slice_index_or blocks.old.items block d).runs.items) }
    requires room { (d : Block) → vec_len (slice_index_or blocks.old.items block d).runs + 2 ≤ MOST }
    requires half { AreHalfFull blocks.old.items }
    ensures items { places_in_blocks blocks.new.items ≡ insert (places_in_blocks blocks.old.items) (places_before blocks.old.items block + at) place }
    ensures half { AreHalfFull blocks.new.items }
    ensures runs { runs_of blocks.new.items ≤ runs_of blocks.old.items + 2 }
    ensures len { vec_len blocks.new ≡ vec_len blocks.old }
    ensures capacity { vec_capacity blocks.new ≡ vec_capacity blocks.old }
{
    blocks[block].put(at, place);
}

/// A full block becomes two.
fn split(blocks: &mut Vec<Block>, block: usize, spare: Vec<Run>)
    requires block { block < vec_len blocks.old }
    requires full { (d : Block) → MOST < vec_len (slice_index_or blocks.old.items block d).runs + 2 }
    requires spare { AreSpareRuns spare }
    requires free { vec_len blocks.old < vec_capacity blocks.old }
    requires half { AreHalfFull blocks.old.items }
    ensures items { places_in_blocks blocks.new.items ≡ places_in_blocks blocks.old.items }
    ensures front { take block blocks.new.items ≡ take block blocks.old.items }
    ensures one { (d : Block) → vec_len (slice_index_or blocks.new.items block d).runs + 2 ≤ MOST }
    ensures other { (d : Block) → vec_len (slice_index_or blocks.new.items (block + 1) d).runs + 2 ≤ MOST }
    ensures both { (d : Block) → length (places_in (slice_index_or blocks.new.items block d).runs.items)
        + length (places_in (slice_index_or blocks.new.items (block + 1) d).runs.items)
        ≡ length (places_in (slice_index_or blocks.old.items block d).runs.items) }
    ensures runs { runs_of blocks.new.items ≡ runs_of blocks.old.items }
    ensures half { AreHalfFull blocks.new.items }
    ensures len { vec_len blocks.new ≡ vec_len blocks.old + 1 }
    ensures capacity { vec_capacity blocks.new ≡ vec_capacity blocks.old }
{
    let later = blocks[block].split_off(spare);
    insert_block(blocks, block + 1, later);
}

/// Puts a place into a block. A full one becomes two first.
fn put_at(
    blocks: &mut Vec<Block>,
    spare: &mut Vec<Vec<Run>>,
    block: usize,
    at: usize,
    place: RowPlace,
)
    requires block { block < vec_len blocks.old }
    requires within { (d : Block) → at ≤ length (places_in (slice_index_or blocks.old.items block d).runs.items) }
    requires half { AreHalfFull blocks.old.items }
    requires spares { AreSpare spare.old.items }
    requires free { vec_len blocks.old + vec_len spare.old ≤ vec_capacity blocks.old }
    requires room { 0 < room_of (vec_len spare.old) (vec_len blocks.old) (runs_of blocks.old.items) (length (places_in_blocks blocks.old.items)) }
    ensures items { places_in_blocks blocks.new.items ≡ insert (places_in_blocks blocks.old.items) (places_before blocks.old.items block + at) place }
    ensures half { AreHalfFull blocks.new.items }
    ensures runs { runs_of blocks.new.items ≤ runs_of blocks.old.items + 2 }
    ensures spares { AreSpare spare.new.items }
    ensures left { vec_len spare.old ≤ vec_len spare.new + 1 }
    ensures len { vec_len blocks.new + vec_len spare.new ≡ vec_len blocks.old + vec_len spare.old }
    ensures capacity { vec_capacity blocks.new ≡ vec_capacity blocks.old }
{
    if !blocks[block].is_full() {
        put_in(blocks, block, at, place);
        return;
    }
    let later = take_spare(spare);
    split(blocks, block, later);
    let front = blocks[block].many;
    if at <= front {
        put_in(blocks, block, at, place);
    } else {
        put_in(blocks, block + 1, at - front, place);
    }
}

/// Puts a place into a block, behind those whose operations are before a stamp.
fn insert_at(
    ops: &Rows,
    blocks: &mut Vec<Block>,
    spare: &mut Vec<Vec<Run>>,
    block: usize,
    stamp: Stamp,
    place: RowPlace,
)
    requires falling { IsFalling (newest_first ops.now.rows (places_in_blocks blocks.old.items)) }
    requires block { block ≡ leading (all_pass (is_earlier ops.now.rows stamp)) blocks.old.items }
    requires within { block < vec_len blocks.old }
    requires half { AreHalfFull blocks.old.items }
    requires spares { AreSpare spare.old.items }
    requires free { vec_len blocks.old + vec_len spare.old ≤ vec_capacity blocks.old }
    requires room { 0 < room_of (vec_len spare.old) (vec_len blocks.old) (runs_of blocks.old.items) (length (places_in_blocks blocks.old.items)) }
    ensures items { places_in_blocks blocks.new.items
        ≡ insert (places_in_blocks blocks.old.items) (leading (is_earlier ops.now.rows stamp) (places_in_blocks blocks.old.items)) place }
    ensures half { AreHalfFull blocks.new.items }
    ensures runs { runs_of blocks.new.items ≤ runs_of blocks.old.items + 2 }
    ensures spares { AreSpare spare.new.items }
    ensures left { vec_len spare.old ≤ vec_len spare.new + 1 }
    ensures len { vec_len blocks.new + vec_len spare.new ≡ vec_len blocks.old + vec_len spare.old }
    ensures capacity { vec_capacity blocks.new ≡ vec_capacity blocks.old }
{
    let at = blocks[block].ops_before(ops, stamp);
    put_at(blocks, spare, block, at, place);
}

/// Puts a place behind all others. Where the last block is full, it begins one.
#[inline(always)]
pub(crate) fn append(blocks: &mut Vec<Block>, spare: &mut Vec<Vec<Run>>, place: RowPlace)
    requires half { AreHalfFull blocks.old.items }
    requires spares { AreSpare spare.old.items }
    requires free { vec_len blocks.old + vec_len spare.old ≤ vec_capacity blocks.old }
    requires room { 0 < room_of (vec_len spare.old) (vec_len blocks.old) (runs_of blocks.old.items) (length (places_in_blocks blocks.old.items)) }
    ensures items { places_in_blocks blocks.new.items ≡ places_in_blocks blocks.old.items ++ place ∷ [] }
    ensures half { AreHalfFull blocks.new.items }
    ensures runs { runs_of blocks.new.items ≤ runs_of blocks.old.items + 2 }
    ensures spares { AreSpare spare.new.items }
    ensures left { vec_len spare.old ≤ vec_len spare.new + 1 }
    ensures len { vec_len blocks.new + vec_len spare.new ≡ vec_len blocks.old + vec_len spare.old }
    ensures capacity { vec_capacity blocks.new ≡ vec_capacity blocks.old }
{
    let count = blocks.len();
    if is_full(blocks) {
        let rest = take_spare(spare);
        insert_block(blocks, count, Block::one(rest, place));
    } else {
        let at = blocks[count - 1].many;
        put_in(blocks, count - 1, at, place);
    }
}

/// Whether the last block is full, if there is one.
fn is_full(blocks: &[Block]) -> bool
    ensures full { OnTrue result (IsFull blocks.now) }
    ensures free { OnFalse result ((0 < length blocks.now) × ((d : Block) → vec_len (slice_index_or blocks.now (length blocks.now - 1) d).runs + 2 ≤ MOST)) }
{
    match blocks.last() {
        Some(block) => block.is_full(),
        None => true,
    }
}

/// Puts a place in behind those whose operations are before a stamp.
pub(crate) fn insert_in(
    ops: &Rows,
    blocks: &mut Vec<Block>,
    spare: &mut Vec<Vec<Run>>,
    stamp: Stamp,
    place: RowPlace,
)
    requires falling { IsFalling (newest_first ops.now.rows (places_in_blocks blocks.old.items)) }
    requires half { AreHalfFull blocks.old.items }
    requires spares { AreSpare spare.old.items }
    requires free { vec_len blocks.old + vec_len spare.old ≤ vec_capacity blocks.old }
    requires room { 0 < room_of (vec_len spare.old) (vec_len blocks.old) (runs_of blocks.old.items) (length (places_in_blocks blocks.old.items)) }
    ensures items { places_in_blocks blocks.new.items
        ≡ insert (places_in_blocks blocks.old.items) (leading (is_earlier ops.now.rows stamp) (places_in_blocks blocks.old.items)) place }
    ensures half { AreHalfFull blocks.new.items }
    ensures runs { runs_of blocks.new.items ≤ runs_of blocks.old.items + 2 }
    ensures spares { AreSpare spare.new.items }
    ensures left { vec_len spare.old ≤ vec_len spare.new + 1 }
    ensures len { vec_len blocks.new + vec_len spare.new ≡ vec_len blocks.old + vec_len spare.old }
    ensures capacity { vec_capacity blocks.new ≡ vec_capacity blocks.old }
{
    if are_earlier(ops, blocks, stamp) {
        append(blocks, spare, place);
    } else {
        let block = blocks_before(ops, blocks, stamp);
        insert_at(ops, blocks, spare, block, stamp, place);
    }
}
