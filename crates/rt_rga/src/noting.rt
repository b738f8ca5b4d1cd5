// What operations that a replica makes change, told as they are put in.
ghost use Rattle.std.specs.Prelude.{◌≡◌, ◌+◌, ◌++◌, ◌≤◌, List, ℕ, [], ◌∷◌, false, map, reverse, true, IfOk, IfSome, IsOkUnless, OnErr, OnOk, length};
ghost use Rattle.rt_stamps.specs.declared.limits.TheConstants.{MOST_CELLS};
ghost use Rattle.rt_stamps.specs.declared.fault.Fault.TheVariants.{NoMemory};
ghost use Rattle.rt_stamps.specs.declared.stamp.Stamp.{Stamp as StampOf};
ghost use Rattle.rt_stamps.specs.declared.stamp.TheConstants.{FINAL};
ghost use Rattle.rt_ops.specs.Operations.{Insert, Name, Operation, stamp_of};
ghost use Rattle.rt_oplog.specs.Logs.{with_operation};
ghost use Rattle.rt_store.specs.Cells.{AreDistinct, HasRoom, IsPlaced};
ghost use Rattle.rt_store.specs.Shown.{TaggedCell, shown};
ghost use Rattle.rt_store.specs.Tagged.{AreStates};
ghost use Rattle.rt_tags.specs.States.{KeepsIds, TagStates};
ghost use Rattle.rt_rga.specs.Cells.{cells_of, deletes};
ghost use Rattle.rt_rga.specs.Drafts.{ContinueInTurn};
ghost use Rattle.rt_rga.specs.Histories.{Continues, inserted};
ghost use Rattle.rt_rga.specs.Making.{AreNewest, cuts_of, fresh_cells, kept_after};
ghost use Rattle.rt_rga.specs.Noted.{AreDisjoint, AreNotedOf, IsFoundAlike};
ghost use Rattle.rt_rga.specs.Replicas.{IsReplica};

use crate::describe::{describe, describe_own};
use crate::edits::change;
use crate::extent::{Extent, add};
use crate::make::{put, put_all};
use crate::notes::only;
use crate::taken::Change;
use indexmap::IndexMap;
use rt_oplog::{Edit, Op, OpLog};
use rt_stamps::Fault;
use rt_store::{Cell, TextStore};
use rt_tags::{StateId, StateTable};
use std::alloc::Global;

// Adds what an operation will change that is newer than all before it; none for want of memory, or where there were none.
fn and_change<S: TextStore>(
    alloc: Global,
    store: &S,
    states: &StateTable,
    op: &Op,
    changes: Option<Vec<Change>>,
) -> Option<Vec<Change>>
    requires placed { (after : StampOf) (tags : List Name) (text : List ℕ) → op.now.body ≡ Insert after tags text
        → IsPlaced (S.list store.now) after (stamp_of op.now) }
    requires agrees { S.agrees store.now states.now }
    requires distinct { AreDistinct (S.list store.now) }
    requires few { length (S.list store.now) ≤ MOST_CELLS }
    requires stays { deletes op.now.body FINAL ≡ false }
    ensures { (log ops : List Operation) (true_of : TaggedCell → TaggedCell) → IsFoundAlike op.now true_of (map (shown states.now) (S.list store.now))
        → map true_of (map (shown states.now) (S.list store.now)) ≡ cells_of (reverse ops ++ log)
        → IfSome changes (λ changes. AreNotedOf log ops changes.items)
        → IfSome result (λ changes. AreNotedOf log (ops ++ op.now ∷ []) changes.items) }
{
    let mut changes = changes?;
    let change = describe_own(alloc, store, states, op).ok()?;
    match changes.push(change) {
        Ok(()) => Some(changes),
        Err(_) => None,
    }
}

// Puts in what operations do of which no two are Tags of one tag that name one stamp, as `put_all` does, and tells what each
// changes; none for want of memory, and then they are put in all the same.
fn put_all_noting<S: TextStore>(
    alloc: Global,
    store: &mut S,
    states: &StateTable,
    log: &OpLog,
    new: &[Cell<StateId>],
    ops: &[Op],
) -> Option<Vec<Change>>
    requires replica { IsReplica log.now.operations states.now (S.list store.old) }
    requires agrees { S.agrees store.old states.now }
    requires continues { ContinueInTurn log.now.operations ops.now }
    requires newest { AreNewest log.now.operations ops.now }
    requires disjoint { AreDisjoint ops.now }
    requires fresh { map (shown states.now) new.now ≡ fresh_cells ops.now }
    requires given { AreStates states.now new.now }
    requires few { length (S.list store.old) + length new.now ≤ MOST_CELLS }
    requires room { HasRoom (S.room store.old) (length new.now) (cuts_of ops.now) (length states.now.names) }
    ensures list { S.list store.new ≡ kept_after ops.now new.now (S.list store.old) }
    ensures room { (S.room store.old).cuts ≤ (S.room store.new).cuts + cuts_of ops.now }
    ensures tags { (S.room store.old).tags ≤ (S.room store.new).tags }
    ensures states { S.agrees store.new states.now }
    ensures noted { IfSome result (λ changes. AreNotedOf log.now.operations ops.now changes.items) }
{
    let mut changes = Some(Vec::new(alloc));
    let mut left = new;
    for op in ops {
        changes = and_change(alloc, store, states, op, changes);
        left = put(store, states, left, op);
    }
    changes
}

// Whether no two of some operations are Tags of one tag that name one stamp. It may say no for want of memory, and where
// a Tag lies neither before nor behind all Tags of its tag that come after it. Those of edits rise from Tag to Tag, but
// for the one that takes a tag off the last newline: it comes first, and its stamp is older than what comes in, so it lies
// before all of that, or behind where its site has a greater number.
fn are_disjoint(alloc: Global, ops: &[Op]) -> bool
    ensures { result ≡ true → AreDisjoint ops.now }
{
    let mut extents: IndexMap<&str, Extent> = IndexMap::new(alloc);
    let mut left = ops;
    while let Some((op, rest)) = left.split_last() {
        if let Edit::Tag { on: _, name, spans } = op.edit() {
            if !add(&mut extents, name.as_str(), spans) {
                return false;
            }
        }
        left = rest;
    }
    true
}

/// Puts in what operations do, as `put_all` does, and tells what each changes, where that is to be told; none where two of
/// them may be Tags of one tag that name one stamp, and for want of memory, which refuses nothing.
pub(crate) fn put_and_note<S: TextStore>(
    alloc: Global,
    store: &mut S,
    states: &StateTable,
    log: &OpLog,
    new: &[Cell<StateId>],
    ops: &[Op],
    noting: bool,
) -> Option<Vec<Change>>
    requires replica { IsReplica log.now.operations states.now (S.list store.old) }
    requires agrees { S.agrees store.old states.now }
    requires continues { ContinueInTurn log.now.operations ops.now }
    requires newest { AreNewest log.now.operations ops.now }
    requires fresh { map (shown states.now) new.now ≡ fresh_cells ops.now }
    requires given { AreStates states.now new.now }
    requires few { length (S.list store.old) + length new.now ≤ MOST_CELLS }
    requires room { HasRoom (S.room store.old) (length new.now) (cuts_of ops.now) (length states.now.names) }
    ensures list { S.list store.new ≡ kept_after ops.now new.now (S.list store.old) }
    ensures room { (S.room store.old).cuts ≤ (S.room store.new).cuts + cuts_of ops.now }
    ensures tags { (S.room store.old).tags ≤ (S.room store.new).tags }
    ensures states { S.agrees store.new states.now }
    ensures noted { IfSome result (λ changes. AreNotedOf log.now.operations ops.now changes.items) }
{
    if noting && are_disjoint(alloc, ops) {
        return put_all_noting(alloc, store, states, log, new, ops);
    }
    put_all(store, states, new, ops);
    None
}

/// Changes what is kept of a log as one operation does that continues it, as `change` does, and tells what it changes; none
/// for want of memory to tell it, which refuses nothing.
pub(crate) fn change_one<S: TextStore>(
    alloc: Global,
    store: &mut S,
    states: &mut StateTable,
    log: &OpLog,
    op: &Op,
) -> Result<Option<Vec<Change>>, Fault>
    requires replica { IsReplica log.now.operations states.old (S.list store.old) }
    requires agrees { S.agrees store.old states.old }
    requires continues { Continues log.now.operations op.now }
    requires room { length (S.list store.old) + length (inserted op.now) ≤ MOST_CELLS }
    ensures replica { OnOk result (IsReplica (with_operation op.now log.now.operations) states.new (S.list store.new)) }
    ensures cells { OnOk result (length (S.list store.new) ≡ length (S.list store.old) + length (inserted op.now)) }
    ensures agrees { S.agrees store.new states.new }
    ensures ids { KeepsIds states.old states.new }
    ensures same { OnErr result (S.list store.new ≡ S.list store.old) }
    ensures noted { IfOk result (λ noted. IfSome noted (λ changes. AreNotedOf log.now.operations (op.now ∷ []) changes.items)) }
    ensures fault { IsOkUnless result NoMemory }
{
    let noted = match describe(alloc, store, states, op) {
        Ok(told) => only(alloc, told),
        Err(_) => None,
    };
    change(alloc, store, states, log, op)?;
    Ok(noted)
}
