// A site's own operations, made of drafts.
ghost use Rattle.std.specs.Prelude.{◌≡◌, ◌*◌, ◌+◌, ◌++◌, ◌-◌, ◌<◌, ◌≤◌, ◌^◌, ℕ, All, IfNone, IfOk, IfErr, IsOkUnless, IfSome, OnOk, OnErr, None, Some, true, drop, length, map};
ghost use Rattle.std.specs.List.{AllByRecursion};
ghost use Rattle.rt_stamps.specs.declared.limits.TheConstants.{GREATEST_COUNT, MOST_CELLS, MOST_CHARACTERS};
ghost use Rattle.rt_ops.specs.Edits.{body_of};
ghost use Rattle.rt_ops.specs.Operations.{last_count as last_count_of, last_of, stamp_of};
ghost use Rattle.rt_ops.specs.Rules.{keeps_rules};
ghost use Rattle.rt_store.specs.Cells.{HasRoom, Spends};
ghost use Rattle.rt_store.specs.Shown.{shown};
ghost use Rattle.rt_store.specs.Tagged.{AreStates};
ghost use Rattle.rt_tags.specs.States.{KeepsIds, TagStates};
ghost use Rattle.rt_rga.specs.Drafts.{ContinueInTurn, with_operations};
ghost use Rattle.rt_rga.specs.Noted.{AreNotedOf};
ghost use Rattle.rt_rga.specs.OneOrMany.{items_in};
ghost use Rattle.rt_rga.specs.Made.{RefusesFor, refusal_from};
ghost use Rattle.rt_rga.specs.Making.{AreNewest, CanAllBePut, CanBePut, cuts_by, cuts_of, fresh_by, fresh_cells, kept_after, operations_from, put_by_kept};
ghost use Rattle.rt_rga.specs.Requests.{characters_in, last_count_after};
ghost use Rattle.rt_rga.specs.Replicas.{IsReplica};

use crate::Draft;
use crate::edits::{change, set_all_gone};
use crate::new_cells::NewCells;
use crate::noting::{change_one, put_and_note};
use crate::one_or_many::OneOrMany;
use crate::plan::planned_states;
use crate::tagging::put_states;
use crate::taken::Change;
use rt_oplog::{Edit, Op, OpLog};
use rt_stamps::{Fault, ROOT, Stamp, count_after};
use rt_store::{Cell, TextStore};
use rt_tags::{StateId, StateTable};
use std::alloc::Global;
use std::slice;

/// How many characters a draft inserts.
fn characters_in(draft: &Draft) -> usize
    ensures { result ≡ characters_in (body_of draft.now) }
{
    match draft {
        Edit::Insert {
            after: _,
            tags: _,
            text,
        } => text.characters().len(),
        Edit::Delete { spans: _ } => 0,
        Edit::Tag {
            on: _,
            name: _,
            spans: _,
        } => 0,
    }
}

/// How many counts a draft takes: one for each character of an Insert, else one.
fn counts_in(draft: &Draft) -> u64
    requires { keeps_rules (body_of draft.now) ≡ true }
    ensures last { (count : ℕ) → last_of (count + 1) (body_of draft.now) ≡ count + result }
    ensures characters { characters_in (body_of draft.now) ≤ result }
    ensures few { result ≤ MOST_CHARACTERS }
{
    characters_in(draft).max(1) as u64
}

/// `ClockSpent` where the counts of drafts, which follow a last one, would pass `GREATEST_COUNT`, else
/// `TextFull` where the characters that they insert beside so many cells would pass a limit.
#[tactic(auto, using(crate::proofs::Requests::not_less))]
#[inline(always)]
fn check_limits(last: u64, cells: usize, limit: usize, drafts: &[Draft]) -> Result<(), Fault>
    requires last { last ≤ GREATEST_COUNT }
    requires cells { cells ≤ limit }
    requires rules { All (λ draft. keeps_rules (body_of draft) ≡ true) drafts.now }
    ensures counts { OnOk result (last_count_after last (map body_of drafts.now) ≤ GREATEST_COUNT) }
    ensures fits { OnOk result (refusal_from last cells limit (map body_of drafts.now) ≡ None) }
    ensures refused { IfErr result (λ fault. refusal_from last cells limit (map body_of drafts.now) ≡ Some fault) }
{
    let mut count = last;
    let mut characters = 0;
    for draft in drafts {
        count = count_after(count, counts_in(draft))?;
        characters += characters_in(draft);
    }
    if characters > limit - cells {
        return Err(Fault::TextFull);
    }
    Ok(())
}

// The operations of drafts, as `stamped` makes them, in a list of their own. Want of memory.
#[tactic(auto, using(crate::proofs::Requests::not_less))]
fn all_stamped(
    alloc: Global,
    site: u32,
    last: u64,
    prev: u64,
    drafts: Vec<Draft>,
) -> Result<Vec<Op>, Fault>
    requires rules { All (λ draft. keeps_rules (body_of draft) ≡ true) drafts.items }
    requires fits { last_count_after last (map body_of drafts.items) ≤ GREATEST_COUNT }
    ensures ops { IfOk result (λ ops. ops.items ≡ operations_from site last prev (map body_of drafts.items)) }
    ensures fault { IsOkUnless result Fault.NoMemory }
{
    let mut ops = Vec::with_capacity(alloc, drafts.len())?;
    let mut last = last;
    let mut prev = prev;
    for draft in drafts {
        let stamp = Stamp {
            count: last + 1,
            site,
        };
        last += counts_in(&draft);
        ops.push_reserved(Op::of(stamp, prev, draft));
        prev = last;
    }
    Ok(ops)
}

// The operations of a list of drafts, as `stamped` makes them, that of one in no list. Want of memory.
#[tactic(auto, using(crate::proofs::Requests::not_less))]
fn stamped_list(
    alloc: Global,
    site: u32,
    last: u64,
    prev: u64,
    drafts: Vec<Draft>,
) -> Result<OneOrMany<Op>, Fault>
    requires rules { All (λ draft. keeps_rules (body_of draft) ≡ true) drafts.items }
    requires fits { last_count_after last (map body_of drafts.items) ≤ GREATEST_COUNT }
    ensures ops { IfOk result (λ ops. items_in ops ≡ operations_from site last prev (map body_of drafts.items)) }
    ensures fault { IsOkUnless result Fault.NoMemory }
{
    let mut drafts = drafts;
    if let Some(draft) = drafts.pop() {
        if drafts.is_empty() {
            let stamp = Stamp {
                count: last + 1,
                site,
            };
            return Ok(OneOrMany::One(Op::of(stamp, prev, draft)));
        }
        drafts.push_reserved(draft);
    }
    Ok(OneOrMany::Many(all_stamped(alloc, site, last, prev, drafts)?))
}

/// The operations of drafts: the first count is one above the last one of all operations, and the
/// first `prev` is the site's known end. Want of memory.
#[tactic(auto, using(crate::proofs::Requests::not_less))]
#[inline(always)]
pub(crate) fn stamped(
    alloc: Global,
    site: u32,
    last: u64,
    prev: u64,
    drafts: OneOrMany<Draft>,
) -> Result<OneOrMany<Op>, Fault>
    requires rules { All (λ draft. keeps_rules (body_of draft) ≡ true) (items_in drafts) }
    requires fits { last_count_after last (map body_of (items_in drafts)) ≤ GREATEST_COUNT }
    ensures ops { IfOk result (λ ops. items_in ops ≡ operations_from site last prev (map body_of (items_in drafts))) }
    ensures fault { IsOkUnless result Fault.NoMemory }
{
    match drafts {
        OneOrMany::One(draft) => {
            let stamp = Stamp {
                count: last + 1,
                site,
            };
            Ok(OneOrMany::One(Op::of(stamp, prev, draft)))
        }
        OneOrMany::Many(drafts) => stamped_list(alloc, site, last, prev, drafts),
    }
}

// Drafts, in a list.
#[inline(always)]
fn drafts_in(drafts: &OneOrMany<Draft>) -> &[Draft]
    ensures { result.now ≡ items_in drafts.now }
{
    match drafts {
        OneOrMany::One(draft) => slice::from_ref(draft),
        OneOrMany::Many(drafts) => drafts.as_slice(),
    }
}

/// Operations, in a list.
#[inline(always)]
pub(crate) fn list_of(ops: &OneOrMany<Op>) -> &[Op]
    ensures { result.now ≡ items_in ops.now }
{
    match ops {
        OneOrMany::One(op) => slice::from_ref(op),
        OneOrMany::Many(ops) => ops.as_slice(),
    }
}

/// Operations once more. Want of memory.
pub(crate) fn copied(alloc: Global, ops: &[Op]) -> Result<Vec<Op>, Fault>
    ensures ops { IfOk result (λ copies. copies.items ≡ ops.now) }
    ensures fault { IsOkUnless result Fault.NoMemory }
{
    let mut copies = Vec::with_capacity(alloc, ops.len())?;
    for op in ops {
        copies.push_reserved(op.copied(alloc)?);
    }
    Ok(copies)
}

/// The cells of the characters that operations insert. Want of memory.
#[tactic(auto, using(rt_tags::proofs::Listing::keeps_both))]
#[inline(always)]
pub(crate) fn fresh(alloc: Global, states: &mut StateTable, ops: &[Op]) -> Result<NewCells, Fault>
    requires counts { AllByRecursion (λ op. last_count_of op ≤ GREATEST_COUNT) ops.now }
    ensures cells { IfOk result (λ cells. map (shown states.new) cells ≡ fresh_cells ops.now) }
    ensures given { IfOk result (λ cells. AreStates states.new cells) }
    ensures ids { KeepsIds states.old states.new }
    ensures fault { IsOkUnless result Fault.NoMemory }
{
    let mut cells = NewCells::none(alloc);
    for op in ops {
        add_fresh(alloc, states, op, &mut cells)?;
    }
    Ok(cells)
}

/// Adds the cells of the characters that an operation inserts. Want of memory, and then the cells are as they were.
#[inline(always)]
fn add_fresh(
    alloc: Global,
    states: &mut StateTable,
    op: &Op,
    cells: &mut NewCells,
) -> Result<(), Fault>
    requires counts { last_count_of op.now ≤ GREATEST_COUNT }
    requires given { AreStates states.old cells.old }
    ensures cells { OnOk result (map (shown states.new) cells.new ≡ map (shown states.old) cells.old ++ fresh_by (stamp_of op.now) op.now.body) }
    ensures given { OnOk result (AreStates states.new cells.new) }
    ensures same { OnErr result (cells.new ≡ cells.old) }
    ensures ids { KeepsIds states.old states.new }
    ensures fault { IsOkUnless result Fault.NoMemory }
{
    if let Edit::Insert {
        after: _,
        tags,
        text,
    } = op.edit()
    {
        let state = states.state_of_list(ROOT, tags)?;
        cells.add(alloc, op.stamp(), state, text.characters())?;
    }
    Ok(())
}

/// Puts new characters in, or makes characters gone, as an operation does that is an Insert or a
/// Delete, and tells the new cells that are left. Takes no memory.
#[inline(always)]
pub(crate) fn put<'a, S: TextStore>(
    store: &mut S,
    states: &StateTable,
    new: &'a [Cell<StateId>],
    op: &Op,
) -> &'a [Cell<StateId>]
    requires put { CanBePut (stamp_of op.now) op.now.body new.now (S.list store.old) }
    requires states { S.agrees store.old states.now }
    requires given { AreStates states.now new.now }
    requires room { HasRoom (S.room store.old) (characters_in op.now.body) (cuts_by op.now.body) (length states.now.names) }
    ensures list { S.list store.new ≡ put_by_kept (stamp_of op.now) op.now.body new.now (S.list store.old) }
    ensures left { result.now ≡ drop (characters_in op.now.body) new.now }
    ensures room { Spends (S.room store.old) (S.room store.new) (characters_in op.now.body) (cuts_by op.now.body) }
    ensures states { S.agrees store.new states.now }
{
    match op.edit() {
        Edit::Insert {
            after,
            tags: _,
            text,
        } => {
            let (cells, left) = new.split_at(text.characters().len());
            let at = store.after_skip(*after, op.stamp());
            store.splice(states, at, cells);
            left
        }
        Edit::Delete { spans } => {
            set_all_gone(store, states, spans);
            new
        }
        Edit::Tag {
            on: _,
            name: _,
            spans: _,
        } => new,
    }
}

/// Puts in what several operations do, as `put` does for one, one after the other. Takes no memory.
#[inline(always)]
pub(crate) fn put_all<S: TextStore>(
    store: &mut S,
    states: &StateTable,
    new: &[Cell<StateId>],
    ops: &[Op],
)
    requires put { CanAllBePut ops.now new.now (S.list store.old) }
    requires states { S.agrees store.old states.now }
    requires given { AreStates states.now new.now }
    requires room { HasRoom (S.room store.old) (length new.now) (cuts_of ops.now) (length states.now.names) }
    ensures list { S.list store.new ≡ kept_after ops.now new.now (S.list store.old) }
    ensures room { (S.room store.old).cuts ≤ (S.room store.new).cuts + cuts_of ops.now }
    ensures tags { (S.room store.old).tags ≤ (S.room store.new).tags }
    ensures states { S.agrees store.new states.now }
{
    let mut left = new;
    for op in ops {
        left = put(store, states, left, op);
    }
}

/// How many cuts of runs operations take, and so many new states of runs; none if that is no number of
/// this machine.
#[inline(always)]
fn cuts(ops: &[Op], runs: usize) -> Option<usize>
    ensures cuts { IfSome result (λ n. n ≡ cuts_of ops.now + 2 * runs) }
    ensures many { IfNone result (2 ^ 64 ≤ cuts_of ops.now + 2 * runs) }
{
    let mut cuts = runs.checked_mul(2)?;
    for op in ops {
        cuts = cuts.checked_add(cuts_in(op.edit())?)?;
    }
    Some(cuts)
}

/// How many cuts of runs an edit takes; none if that is no number of this machine.
#[inline(always)]
fn cuts_in(edit: &Edit) -> Option<usize>
    ensures cuts { IfSome result (λ n. n ≡ cuts_by (body_of edit.now)) }
    ensures many { IfNone result (2 ^ 64 ≤ cuts_by (body_of edit.now)) }
{
    match edit {
        Edit::Insert {
            after: _,
            tags: _,
            text: _,
        } => Some(1),
        Edit::Delete { spans } => spans.len().checked_mul(2),
        Edit::Tag {
            on: _,
            name: _,
            spans: _,
        } => Some(0),
    }
}

/// Makes room in a store for operations with so many new cells and so many runs of states of a table. Want of
/// memory.
#[inline(always)]
pub(crate) fn make_room<S: TextStore>(
    store: &mut S,
    states: &StateTable,
    cells: usize,
    ops: &[Op],
    runs: usize,
) -> Result<(), Fault>
    requires { length (S.list store.old) + cells ≤ MOST_CELLS }
    ensures room { OnOk result (HasRoom (S.room store.new) cells (cuts_of ops.now + 2 * runs) (length states.now.names)) }
    ensures same { S.list store.new ≡ S.list store.old }
    ensures agrees { (table : TagStates) → S.agrees store.old table → S.agrees store.new table }
    ensures fault { IsOkUnless result Fault.NoMemory }
{
    match cuts(ops, runs) {
        Some(cuts) => store.reserve(cells, cuts, states.tags()),
        None => Err(Fault::NoMemory),
    }
}

/// The operations of drafts. The counts follow a last one, and the characters come beside so many cells.
/// `ClockSpent` where the counts don't fit, else `TextFull` where the characters don't, else want of memory.
#[inline(always)]
pub(crate) fn prepared(
    alloc: Global,
    site: u32,
    last: u64,
    prev: u64,
    cells: usize,
    limit: usize,
    drafts: OneOrMany<Draft>,
) -> Result<OneOrMany<Op>, Fault>
    requires last { last ≤ GREATEST_COUNT }
    requires cells { cells ≤ limit }
    requires rules { All (λ draft. keeps_rules (body_of draft) ≡ true) (items_in drafts) }
    ensures ops { IfOk result (λ ops. items_in ops ≡ operations_from site last prev (map body_of (items_in drafts))) }
    ensures fits { OnOk result (refusal_from last cells limit (map body_of (items_in drafts)) ≡ None) }
    ensures refused { IfErr result (RefusesFor (refusal_from last cells limit (map body_of (items_in drafts)))) }
{
    check_limits(last, cells, limit, drafts_in(&drafts))?;
    stamped(alloc, site, last, prev, drafts)
}

/// Changes what is kept of a log as operations do that are newer than it, each of which continues it
/// with those before, and tells what each changes, where that is to be told (`put_and_note`). Want of memory, and then the
/// cells stay.
#[tactic(auto, using(rt_tags::proofs::Listing::keeps_both))]
#[inline(always)]
pub(crate) fn change_all<S: TextStore>(
    alloc: Global,
    store: &mut S,
    states: &mut StateTable,
    log: &OpLog,
    ops: &[Op],
    noting: bool,
) -> Result<Option<Vec<Change>>, Fault>
    requires replica { IsReplica log.now.operations states.old (S.list store.old) }
    requires agrees { S.agrees store.old states.old }
    requires continues { ContinueInTurn log.now.operations ops.now }
    requires newest { AreNewest log.now.operations ops.now }
    requires room { length (S.list store.old) + length (fresh_cells ops.now) ≤ MOST_CELLS }
    ensures replica { OnOk result (IsReplica (with_operations ops.now log.now.operations) states.new (S.list store.new)) }
    ensures cells { OnOk result (length (S.list store.new) ≡ length (S.list store.old) + length (fresh_cells ops.now)) }
    ensures agrees { S.agrees store.new states.new }
    ensures ids { KeepsIds states.old states.new }
    ensures same { OnErr result (S.list store.new ≡ S.list store.old) }
    ensures noted { IfOk result (λ noted. IfSome noted (λ changes. AreNotedOf log.now.operations ops.now changes.items)) }
    ensures fault { IsOkUnless result Fault.NoMemory }
{
    // One operation is done as one that is received: a Tag goes from run to run.
    if ops.len() == 1 {
        if noting {
            return change_one(alloc, store, states, log, &ops[0]);
        }
        change(alloc, store, states, log, &ops[0])?;
        return Ok(None);
    }
    let new = fresh(alloc, states, ops)?;
    let cells = new.as_slice();
    let runs = planned_states(alloc, store, states, cells, ops)?;
    make_room(store, states, cells.len(), ops, runs.len())?;
    let noted = put_and_note(alloc, store, states, log, cells, ops, noting);
    put_states(store, states, &runs);
    Ok(noted)
}
