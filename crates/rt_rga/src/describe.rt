// What an operation will change in the visible text.
ghost use Rattle.std.specs.Prelude.{◌≡◌, ◌+◌, ◌<◌, ◌≤◌, IfOk, IsOkUnless, List, ℕ, [], ◌∷◌, false, length, map};
ghost use Rattle.rt_stamps.specs.declared.limits.TheConstants.{MOST_CELLS};
ghost use Rattle.rt_stamps.specs.declared.stamp.Stamp.{Stamp as StampOf};
ghost use Rattle.rt_stamps.specs.declared.stamp.TheConstants.{FINAL};
ghost use Rattle.rt_stamps.specs.Words.{as_words};
ghost use Rattle.rt_ops.specs.Operations.{Insert, Name, Operation, stamp_of};
ghost use Rattle.rt_store.specs.Cells.{AreDistinct, IsPlaced, visible_of};
ghost use Rattle.rt_store.specs.Shown.{TaggedCell, shown};
ghost use Rattle.rt_tags.specs.States.{KeepsIds, TagStates};
ghost use Rattle.rt_rga.specs.Cells.{deletes};
ghost use Rattle.rt_rga.specs.Noted.{IsFoundAlike, switches_at};
ghost use Rattle.rt_rga.specs.Taken.{AreFallingRuns, IsChange, is_in_runs, lists_of, place_in, retags, takes_away};

use crate::answer::cells_more;
use crate::removed::runs_in;
use crate::retagged::{retagged_in, switched_in};
use crate::taken::{Change, PlaceRun};
use rt_oplog::{Edit, Op};
use rt_stamps::{Fault, Stamp};
use rt_store::TextStore;
use rt_tags::StateTable;
use std::alloc::Global;
use std::slice;

/// The place of the first character that an operation will insert, 0 if it inserts none.
fn place_in<S: TextStore>(store: &S, op: &Op) -> usize
    requires placed { (after : StampOf) (tags : List Name) (text : List ℕ) → op.now.body ≡ Insert after tags text
        → IsPlaced (S.list store.now) after (stamp_of op.now) }
    ensures { result ≡ place_in op.now (S.list store.now) }
{
    match op.edit() {
        Edit::Insert {
            after,
            tags: _,
            text: _,
        } => store.visible_before(store.after_skip(*after, op.stamp())),
        Edit::Delete { spans: _ } => 0,
        Edit::Tag {
            on: _,
            name: _,
            spans: _,
        } => 0,
    }
}

/// What the Insert of one character without tags will change.
pub(crate) fn insertion_at<S: TextStore>(
    alloc: Global,
    store: &S,
    stamp: Stamp,
    after: Stamp,
) -> Change
    requires { IsPlaced (S.list store.now) after stamp }
    ensures { (table : TagStates) (op : Operation) (character : ℕ) → stamp_of op ≡ stamp → op.body ≡ Insert after [] (character ∷ [])
        → IsChange op (map (shown table) (S.list store.now)) result }
{
    Change {
        place: store.visible_before(store.after_skip(after, stamp)),
        inserted: 1,
        removed: Vec::new(alloc),
        retagged: Vec::new(alloc),
        lists: Vec::new(alloc),
    }
}

/// The places that an operation will take away, as runs, the last one in the text first. Want of
/// memory.
fn removed<S: TextStore>(alloc: Global, store: &S, op: &Op) -> Result<Vec<PlaceRun>, Fault>
    requires distinct { AreDistinct (S.list store.now) }
    requires few { length (S.list store.now) ≤ MOST_CELLS }
    requires stays { deletes op.now.body FINAL ≡ false }
    ensures removed { IfOk result (λ runs. (place : ℕ) → is_in_runs runs.items place ≡ takes_away op.now.body (S.list store.now) place) }
    ensures runs { IfOk result (λ runs. AreFallingRuns (length (visible_of (S.list store.now))) runs.items) }
    ensures fault { IsOkUnless result Fault.NoMemory }
{
    match op.edit() {
        Edit::Insert {
            after: _,
            tags: _,
            text: _,
        } => Ok(Vec::new(alloc)),
        Edit::Delete { spans } => runs_in(alloc, store, spans),
        Edit::Tag {
            on: _,
            name: _,
            spans: _,
        } => Ok(Vec::new(alloc)),
    }
}

/// The places whose tag an operation will change, as runs, the last one in the text first. Want of
/// memory.
fn retagged<S: TextStore>(
    alloc: Global,
    store: &S,
    states: &mut StateTable,
    op: &Op,
) -> Result<Vec<PlaceRun>, Fault>
    requires agrees { S.agrees store.now states.old }
    requires distinct { AreDistinct (S.list store.now) }
    requires few { length (S.list store.now) ≤ MOST_CELLS }
    ensures retagged { IfOk result (λ runs. (place : ℕ) → is_in_runs runs.items place
        ≡ retags (stamp_of op.now) op.now.body (map (shown states.old) (S.list store.now)) place) }
    ensures runs { IfOk result (λ runs. AreFallingRuns (length (visible_of (S.list store.now)) + 1) runs.items) }
    ensures ids { KeepsIds states.old states.new }
    ensures fault { IsOkUnless result Fault.NoMemory }
{
    match op.edit() {
        Edit::Insert {
            after: _,
            tags: _,
            text: _,
        } => Ok(Vec::new(alloc)),
        Edit::Delete { spans: _ } => Ok(Vec::new(alloc)),
        Edit::Tag { on, name, spans } => {
            retagged_in(alloc, store, states, spans, name, op.stamp(), *on)
        }
    }
}

/// Copies of names. Want of memory.
fn copies_of(alloc: Global, names: &[String]) -> Result<Vec<String>, Fault>
    ensures names { IfOk result (λ copies. as_words copies.items ≡ as_words names.now) }
    ensures fault { IsOkUnless result Fault.NoMemory }
{
    let mut copies = Vec::new(alloc);
    for name in names {
        copies.push(name.clone()?)?;
    }
    Ok(copies)
}

/// The tags that an operation lists. Want of memory.
fn lists(alloc: Global, op: &Op) -> Result<Vec<String>, Fault>
    ensures names { IfOk result (λ names. as_words names.items ≡ lists_of op.now.body) }
    ensures fault { IsOkUnless result Fault.NoMemory }
{
    match op.edit() {
        Edit::Insert {
            after: _,
            tags,
            text: _,
        } => copies_of(alloc, tags),
        Edit::Tag {
            on: true,
            name,
            spans: _,
        } => copies_of(alloc, slice::from_ref(name)),
        _ => Ok(Vec::new(alloc)),
    }
}

/// The places whose tag an operation switches, if no write of it there is as new, as runs, the last one in the text first.
/// Want of memory.
fn switched<S: TextStore>(
    alloc: Global,
    store: &S,
    states: &StateTable,
    op: &Op,
) -> Result<Vec<PlaceRun>, Fault>
    requires agrees { S.agrees store.now states.now }
    requires distinct { AreDistinct (S.list store.now) }
    requires few { length (S.list store.now) ≤ MOST_CELLS }
    ensures switched { IfOk result (λ runs. (place : ℕ) → is_in_runs runs.items place
        ≡ switches_at op.now.body (map (shown states.now) (S.list store.now)) place) }
    ensures runs { IfOk result (λ runs. AreFallingRuns (length (visible_of (S.list store.now)) + 1) runs.items) }
    ensures fault { IsOkUnless result Fault.NoMemory }
{
    match op.edit() {
        Edit::Insert {
            after: _,
            tags: _,
            text: _,
        } => Ok(Vec::new(alloc)),
        Edit::Delete { spans: _ } => Ok(Vec::new(alloc)),
        Edit::Tag { on, name, spans } => switched_in(alloc, store, states, spans, name, *on),
    }
}

/// What an operation will change that finds no write as new as its own, by cells that may lack writes of other tags. Want of
/// memory.
pub(crate) fn describe_own<S: TextStore>(
    alloc: Global,
    store: &S,
    states: &StateTable,
    op: &Op,
) -> Result<Change, Fault>
    requires placed { (after : StampOf) (tags : List Name) (text : List ℕ) → op.now.body ≡ Insert after tags text
        → IsPlaced (S.list store.now) after (stamp_of op.now) }
    requires agrees { S.agrees store.now states.now }
    requires distinct { AreDistinct (S.list store.now) }
    requires few { length (S.list store.now) ≤ MOST_CELLS }
    requires stays { deletes op.now.body FINAL ≡ false }
    ensures change { IfOk result (λ change. (true_of : TaggedCell → TaggedCell)
        → IsFoundAlike op.now true_of (map (shown states.now) (S.list store.now))
        → IsChange op.now (map true_of (map (shown states.now) (S.list store.now))) change) }
    ensures fault { IsOkUnless result Fault.NoMemory }
{
    let removed = removed(alloc, store, op)?;
    let retagged = switched(alloc, store, states, op)?;
    let lists = lists(alloc, op)?;
    let place = place_in(store, op);
    Ok(Change {
        place,
        inserted: cells_more(op),
        removed,
        retagged,
        lists,
    })
}

/// What an operation will change. Want of memory.
pub(crate) fn describe<S: TextStore>(
    alloc: Global,
    store: &S,
    states: &mut StateTable,
    op: &Op,
) -> Result<Change, Fault>
    requires placed { (after : StampOf) (tags : List Name) (text : List ℕ) → op.now.body ≡ Insert after tags text
        → IsPlaced (S.list store.now) after (stamp_of op.now) }
    requires agrees { S.agrees store.now states.old }
    requires distinct { AreDistinct (S.list store.now) }
    requires few { length (S.list store.now) ≤ MOST_CELLS }
    requires stays { deletes op.now.body FINAL ≡ false }
    ensures change { IfOk result (IsChange op.now (map (shown states.old) (S.list store.now))) }
    ensures ids { KeepsIds states.old states.new }
    ensures fault { IsOkUnless result Fault.NoMemory }
{
    let removed = removed(alloc, store, op)?;
    let retagged = retagged(alloc, store, states, op)?;
    let lists = lists(alloc, op)?;
    let place = place_in(store, op);
    Ok(Change {
        place,
        inserted: cells_more(op),
        removed,
        retagged,
        lists,
    })
}
