// The states that cells come into by many Tags at once.
ghost use Rattle.std.specs.Prelude.{◌≡◌, ◌⊎◌, ◌<◌, ◌++◌, ◌==◌, ◌||◌, not, ℕ, ◌-◌, List, All, Decides, IsOkUnless, IfNone, IfOk, IfSome, OnOk, Some, None, drop, filter, length, map, slice_get, slice_index_or};
ghost use Rattle.std.specs.List.{take_while};
ghost use Rattle.std.specs.List.Sorted.{IsPermutation};
ghost use Rattle.rt_stamps.specs.declared.stamp.Stamp.{Stamp as StampOf};
ghost use Rattle.rt_stamps.specs.Stamps.{is_same};
ghost use Rattle.rt_ops.specs.Operations.{stamps_in, stamps_of_span, stamp_of};
ghost use Rattle.rt_store.specs.declared.cell.Cell.{Cell as StoreCell};
ghost use Rattle.rt_store.specs.Cells.{AreDistinct, cell_of};
ghost use Rattle.rt_store.specs.Shown.{shown};
ghost use Rattle.rt_store.specs.Spans.{is_among};
ghost use Rattle.rt_store.specs.Tagged.{AreStates};
ghost use Rattle.rt_tags.specs.States.{IsState, IsTag, KeepsIds, Write, state_at, writes_at};
ghost use Rattle.rt_tags.specs.Writers.{state_after};
ghost use Rattle.rt_rga.specs.Batches.{AreByStamp, CountsRise, IsCopied, WrittenIsGiven, HasEntries, after_tags, entries_in_front, entries_on, entry_if, named_with, tag_writes, tag_writes_by};
ghost use Rattle.rt_rga.specs.Runs.{put_back, put_back_in_any};

use crate::tagging::{StateRun, push_found, state_runs};
use rt_oplog::{Edit, Op};
use rt_stamps::{Fault, Span, Stamp};
use rt_store::{Cell, TextStore};
use rt_tags::{StateId, StateTable, TagEntry};
use std::alloc::Global;

/// A write of a tag on the character of a stamp.
#[derive(Clone, Copy)]
struct Named {
    stamp: Stamp,
    entry: TagEntry,
}

/// Adds a write on each character of a span. Want of memory.
fn push_span(span: Span, entry: &TagEntry, named: &mut Vec<Named>) -> Result<(), Fault>
    ensures ok { OnOk result (named.new.items ≡ named.old.items ++ map (named_with entry.now) (stamps_of_span span)) }
    ensures fault { IsOkUnless result Fault.NoMemory }
{
    for count in span.first..=span.last {
        let stamp = Stamp {
            count,
            site: span.site,
        };
        named.push(Named {
            stamp,
            entry: *entry,
        })?;
    }
    Ok(())
}

/// Adds a write on each character of spans. Want of memory.
fn push_spans(spans: &[Span], entry: &TagEntry, named: &mut Vec<Named>) -> Result<(), Fault>
    ensures ok { OnOk result (named.new.items ≡ named.old.items ++ map (named_with entry.now) (stamps_in spans.now)) }
    ensures fault { IsOkUnless result Fault.NoMemory }
{
    for span in spans {
        push_span(*span, entry, named)?;
    }
    Ok(())
}

/// Adds what an operation writes by a Tag. Want of memory.
#[inline(always)]
fn push_named(states: &mut StateTable, op: &Op, named: &mut Vec<Named>) -> Result<(), Fault>
    requires tags { All (λ n. IsTag states.old n.entry.tag) named.old.items }
    ensures writes { OnOk result ((state : List Write) (stamp : StampOf) → state_after state (writes_at states.new (entries_on named.new.items stamp))
        ≡ state_after (state_after state (writes_at states.old (entries_on named.old.items stamp))) (tag_writes_by (stamp_of op.now) op.now.body stamp)) }
    ensures tags { OnOk result (All (λ n. IsTag states.new n.entry.tag) named.new.items) }
    ensures ids { KeepsIds states.old states.new }
    ensures fault { IsOkUnless result Fault.NoMemory }
{
    match op.edit() {
        Edit::Tag { on, name, spans } => {
            let tag = states.number(name)?;
            let entry = TagEntry {
                tag,
                writer: op.stamp(),
                on: *on,
            };
            push_spans(spans, &entry, named)?;
            Ok(())
        }
        _ => Ok(()),
    }
}

/// What operations write by Tags, the oldest first. Want of memory.
#[tactic(auto, using(rt_tags::proofs::Listing::keeps_both))]
#[inline(always)]
fn named_writes(alloc: Global, states: &mut StateTable, ops: &[Op]) -> Result<Vec<Named>, Fault>
    ensures writes { IfOk result (λ named. (state : List Write) (stamp : StampOf) → state_after state (writes_at states.new (entries_on named.items stamp))
        ≡ state_after state (tag_writes ops.now stamp)) }
    ensures tags { IfOk result (λ named. All (λ n. IsTag states.new n.entry.tag) named.items) }
    ensures ids { KeepsIds states.old states.new }
    ensures fault { IsOkUnless result Fault.NoMemory }
{
    let mut named = Vec::new(alloc);
    for op in ops {
        push_named(states, op, &mut named)?;
    }
    Ok(named)
}

/// Puts writes in the order of sites and counts, those on one character as they were. Want of memory.
fn put_in_order(named: &mut Vec<Named>) -> Result<(), Fault>
    ensures same { IsPermutation named.old.items named.new.items }
    ensures order { OnOk result (AreByStamp named.new.items) }
    ensures entries { (stamp : StampOf) → entries_on named.new.items stamp ≡ entries_on named.old.items stamp }
    ensures fault { IsOkUnless result Fault.NoMemory }
{
    named.sort_by_key(|n| (n.stamp.site, n.stamp.count))?;
    Ok(())
}

/// What a cell came into last: its old state, the entries written on it, its new state.
#[derive(Drop)]
struct Written {
    before: StateId,
    entries: Vec<TagEntry>,
    after: StateId,
}

/// The entries of the writes in front that are on one character. Want of memory.
fn entries_in_front(alloc: Global, named: &[Named], stamp: Stamp) -> Result<Vec<TagEntry>, Fault>
    ensures entries { IfOk result (λ entries. entries.items ≡ entries_in_front named.now stamp) }
    ensures fault { IsOkUnless result Fault.NoMemory }
{
    let mut entries = Vec::new(alloc);
    for n in named {
        if n.stamp != stamp {
            return Ok(entries);
        }
        entries.push(n.entry)?;
    }
    Ok(entries)
}

/// The entry of the write at a place, if that is on a character.
fn entry_at(named: &[Named], at: usize, stamp: Stamp) -> Option<TagEntry>
    ensures { result ≡ entry_if stamp (slice_get named.now at) }
{
    match named.get(at) {
        Some(n) if n.stamp == stamp => Some(n.entry),
        _ => None,
    }
}

/// Whether the writes in front that are on one character have these entries.
fn are_in_front(named: &[Named], stamp: Stamp, entries: &[TagEntry]) -> bool
    ensures { Decides result (entries_in_front named.now stamp ≡ entries.now) }
{
    for (at, entry) in entries.iter().enumerate() {
        if entry_at(named, at, stamp) != Some(*entry) {
            return false;
        }
    }
    entry_at(named, entries.len(), stamp).is_none()
}

/// The state that a cell comes into by the writes in front that are on it. It is the last one's, if
/// that was in the same state and got the same entries, and is then not looked for. Want of memory.
fn new_state(
    alloc: Global,
    states: &mut StateTable,
    before: StateId,
    named: &[Named],
    stamp: Stamp,
    last: &mut Written,
) -> Result<StateId, Fault>
    requires before { IsState states.old before }
    requires tags { All (λ e. IsTag states.old e.tag) (entries_in_front named.now stamp) }
    requires last { WrittenIsGiven states.old last.old }
    ensures given { IfOk result (IsState states.new) }
    ensures state { IfOk result (λ id. state_at states.new id
        ≡ state_after (state_at states.old before) (writes_at states.old (entries_in_front named.now stamp))) }
    ensures last { OnOk result (WrittenIsGiven states.new last.new) }
    ensures ids { KeepsIds states.old states.new }
    ensures fault { IsOkUnless result Fault.NoMemory }
{
    if last.before == before && are_in_front(named, stamp, &last.entries) {
        return Ok(last.after);
    }
    let entries = entries_in_front(alloc, named, stamp)?;
    let after = states.with_all(before, &entries)?;
    *last = Written {
        before,
        entries,
        after,
    };
    Ok(after)
}

/// The cell of a stamp among new cells or those of a store.
fn cell_in<S: TextStore>(store: &S, new: &[Cell<StateId>], stamp: Stamp) -> Option<Cell<StateId>>
    requires { CountsRise new.now }
    ensures { result ≡ cell_of (new.now ++ S.list store.now) stamp }
{
    let at = new.partition_point(|cell| cell.stamp.count < stamp.count);
    if at < new.len() && new[at].stamp == stamp {
        return Some(new[at]);
    }
    store.cell_of(stamp)
}

/// Whether the write at a place is the first on its character.
fn is_first(named: &[Named], at: usize) -> bool
    requires { at < length named.now }
    ensures { (n : Named) → result ≡ ((at == 0) || not (is_same (slice_index_or named.now (at - 1) n).stamp (slice_index_or named.now at n).stamp)) }
{
    at == 0 || named[at - 1].stamp != named[at].stamp
}

/// A copy of the cell that the write at a place is on, in its state after all writes on it; none if an
/// earlier write is on it too, or there is no such cell. Want of memory.
fn written_cell<S: TextStore>(
    alloc: Global,
    store: &S,
    states: &mut StateTable,
    new: &[Cell<StateId>],
    named: &[Named],
    at: usize,
    last: &mut Written,
) -> Result<Option<Cell<StateId>>, Fault>
    requires at { at < length named.now }
    requires order { AreByStamp named.now }
    requires tags { All (λ n. IsTag states.old n.entry.tag) named.now }
    requires counts { CountsRise new.now }
    requires states { AreStates states.old (new.now ++ S.list store.now) }
    requires last { WrittenIsGiven states.old last.old }
    ensures stamp { IfOk result (λ found. IfSome found (λ copy. (n : Named) → copy.stamp ≡ (slice_index_or named.now at n).stamp)) }
    ensures written { IfOk result (λ found. IfSome found (HasEntries states.old named.now (new.now ++ S.list store.now) states.new)) }
    ensures none { IfOk result (λ found. IfNone found ((n : Named)
        → ((0 < at) × ((slice_index_or named.now (at - 1) n).stamp ≡ (slice_index_or named.now at n).stamp))
        ⊎ (cell_of (new.now ++ S.list store.now) (slice_index_or named.now at n).stamp ≡ None))) }
    ensures last { OnOk result (WrittenIsGiven states.new last.new) }
    ensures ids { KeepsIds states.old states.new }
    ensures fault { IsOkUnless result Fault.NoMemory }
{
    if !is_first(named, at) {
        return Ok(None);
    }
    let stamp = named[at].stamp;
    let Some(cell) = cell_in(store, new, stamp) else {
        return Ok(None);
    };
    let (_, rest) = named.split_at(at);
    let state = new_state(alloc, states, cell.state, rest, stamp, last)?;
    let ch = cell.ch;
    Ok(Some(Cell {
        stamp,
        ch,
        gone: cell.gone,
        state,
    }))
}

/// Copies of the cells that writes are on, in their states after these: of new cells, and of those of
/// a store. Want of memory.
#[tactic(auto, using(rt_tags::proofs::Listing::keeps_both))]
fn written_cells<S: TextStore>(
    alloc: Global,
    store: &S,
    states: &mut StateTable,
    new: &[Cell<StateId>],
    named: &[Named],
) -> Result<Vec<Cell<StateId>>, Fault>
    requires order { AreByStamp named.now }
    requires tags { All (λ n. IsTag states.old n.entry.tag) named.now }
    requires counts { CountsRise new.now }
    requires states { AreStates states.old (new.now ++ S.list store.now) }
    ensures written { IfOk result (λ copies. All (HasEntries states.old named.now (new.now ++ S.list store.now) states.new) copies.items) }
    ensures all { IfOk result (λ copies. All (λ n. IsCopied (new.now ++ S.list store.now) copies.items n.stamp) named.now) }
    ensures ids { KeepsIds states.old states.new }
    ensures fault { IsOkUnless result Fault.NoMemory }
{
    let mut copies = Vec::new(alloc);
    // Nothing written on a state leaves it as it is.
    let mut last = Written {
        before: StateId::EMPTY,
        entries: Vec::new(alloc),
        after: StateId::EMPTY,
    };
    states.order();
    for at in 0..named.len() {
        let copy = written_cell(alloc, store, states, new, named, at, &mut last)?;
        push_found(copy, &mut copies)?;
    }
    Ok(copies)
}

/// The states that cells come into by the Tags among operations, as runs: cells of a store, and new
/// ones by rising counts. Each cell comes into one new state, and none on the way is kept. Want of memory.
#[tactic(auto, using(rt_tags::proofs::Listing::keeps_both))]
#[inline(always)]
pub(crate) fn planned_states<S: TextStore>(
    alloc: Global,
    store: &S,
    states: &mut StateTable,
    new: &[Cell<StateId>],
    ops: &[Op],
) -> Result<Vec<StateRun>, Fault>
    requires counts { CountsRise new.now }
    requires distinct { AreDistinct (new.now ++ S.list store.now) }
    requires states { AreStates states.old (new.now ++ S.list store.now) }
    ensures runs { IfOk result (λ runs. All (λ cell. shown states.new (put_back_in_any runs.items cell) ≡ after_tags ops.now (shown states.old cell))
        (new.now ++ S.list store.now)) }
    ensures given { IfOk result (λ runs. All (λ run. IsState states.new run.state) runs.items) }
    ensures ids { KeepsIds states.old states.new }
    ensures fault { IsOkUnless result Fault.NoMemory }
{
    let mut named = named_writes(alloc, states, ops)?;
    if named.is_empty() {
        return Ok(Vec::new(alloc));
    }
    put_in_order(&mut named)?;
    let copies = written_cells(alloc, store, states, new, &named)?;
    state_runs(alloc, &copies)
}
