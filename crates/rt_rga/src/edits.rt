// What operations do to the cells that are kept.
ghost use Rattle.std.specs.Prelude.{◌≡◌, ◌*◌, ◌+◌, ◌<◌, ◌≤◌, [], false, OnOk, OnErr, IfOk, IsOkUnless, length, map};
ghost use Rattle.rt_stamps.specs.declared.limits.TheConstants.{GREATEST_COUNT, MOST_CELLS};
ghost use Rattle.rt_stamps.specs.declared.stamp.TheConstants.{FINAL, ROOT as ROOT_STAMP};
ghost use Rattle.rt_stamps.specs.Words.{as_words};
ghost use Rattle.rt_oplog.specs.Logs.{with_operation};
ghost use Rattle.rt_store.specs.Cells.{cells_from, HasRoom, IsPlaced, put_at, Spends};
ghost use Rattle.rt_tags.specs.States.{IsState, KeepsIds, state_at};
ghost use Rattle.rt_tags.specs.Writers.{listed_by, state_after};
ghost use Rattle.rt_rga.specs.Histories.{Continues, inserted};
ghost use Rattle.rt_rga.specs.Replicas.{IsReplica};
ghost use Rattle.rt_store.specs.Spans.{gone_in_any, is_in_spans};
ghost use Rattle.rt_store.specs.Cells.{skip_from};

use crate::new_cells::NewCells;
use crate::tagging::tag_cells;
use rt_oplog::{Edit, Op, OpLog};
use rt_stamps::{Fault, ROOT, Span, Stamp};
use rt_store::TextStore;
use rt_tags::{StateId, StateTable};
use std::alloc::Global;

/// The first stamp that an edit names, if it names one.
#[inline(always)]
pub(crate) fn first_named(edit: &Edit) -> Option<Stamp> {
    let spans = match edit {
        Edit::Insert {
            after,
            tags: _,
            text: _,
        } => return Some(*after),
        Edit::Delete { spans } => spans,
        Edit::Tag {
            on: _,
            name: _,
            spans,
        } => spans,
    };
    let span = spans.first()?;
    Some(Stamp {
        count: span.first,
        site: span.site,
    })
}

/// Makes the cells of spans gone; the final newline is in none of them. Takes no memory.
pub(crate) fn set_all_gone<S: TextStore>(store: &mut S, states: &StateTable, spans: &[Span])
    requires states { S.agrees store.old states.now }
    requires stays { is_in_spans spans.now FINAL ≡ false }
    requires room { HasRoom (S.room store.old) 0 (2 * length spans.now) (length states.now.names) }
    ensures list { S.list store.new ≡ map (gone_in_any spans.now) (S.list store.old) }
    ensures room { Spends (S.room store.old) (S.room store.new) 0 (2 * length spans.now) }
    ensures states { S.agrees store.new states.now }
{
    for span in spans {
        store.set_gone(states, *span);
    }
}

/// Puts new characters in where a store finds their place. Want of memory, and then the cells stay.
pub(crate) fn insert_cells<S: TextStore>(
    alloc: Global,
    store: &mut S,
    states: &mut StateTable,
    stamp: Stamp,
    after: Stamp,
    tags: &[String],
    text: &[char],
) -> Result<StateId, Fault>
    requires placed { IsPlaced (S.list store.old) after stamp }
    requires counts { stamp.count + length text.now ≤ GREATEST_COUNT + 1 }
    requires states { S.agrees store.old states.old }
    requires room { length (S.list store.old) + length text.now ≤ MOST_CELLS }
    ensures given { IfOk result (IsState states.new) }
    ensures state { IfOk result (λ id. state_at states.new id ≡ state_after [] (listed_by ROOT_STAMP (as_words tags.now))) }
    ensures list { IfOk result (λ id. S.list store.new
        ≡ put_at (skip_from (S.list store.old) after stamp) (cells_from stamp.count stamp.site id text.now) (S.list store.old)) }
    ensures agrees { S.agrees store.new states.new }
    ensures ids { KeepsIds states.old states.new }
    ensures err { OnErr result (S.list store.new ≡ S.list store.old) }
    ensures fault { IsOkUnless result Fault.NoMemory }
{
    let state = states.state_of_list(ROOT, tags)?;
    let mut new = NewCells::none(alloc);
    new.add(alloc, stamp, state, text)?;
    let cells = new.as_slice();
    store.reserve(cells.len(), 1, states.tags())?;
    let at = store.after_skip(after, stamp);
    store.splice(states, at, cells);
    Ok(state)
}

/// Changes what is kept of a log as an operation does that continues it. Want of memory, and then the
/// cells stay.
pub(crate) fn change<S: TextStore>(
    alloc: Global,
    store: &mut S,
    states: &mut StateTable,
    log: &OpLog,
    op: &Op,
) -> Result<(), Fault>
    requires replica { IsReplica log.now.operations states.old (S.list store.old) }
    requires agrees { S.agrees store.old states.old }
    requires continues { Continues log.now.operations op.now }
    requires room { length (S.list store.old) + length (inserted op.now) ≤ MOST_CELLS }
    ensures replica { OnOk result (IsReplica (with_operation op.now log.now.operations) states.new (S.list store.new)) }
    ensures cells { OnOk result (length (S.list store.new) ≡ length (S.list store.old) + length (inserted op.now)) }
    ensures agrees { S.agrees store.new states.new }
    ensures ids { KeepsIds states.old states.new }
    ensures same { OnErr result (S.list store.new ≡ S.list store.old) }
    ensures fault { IsOkUnless result Fault.NoMemory }
{
    match op.edit() {
        Edit::Insert { after, tags, text } => {
            let _state = insert_cells(
                alloc,
                store,
                states,
                op.stamp(),
                *after,
                tags,
                text.characters(),
            )?;
        }
        Edit::Delete { spans } => {
            store.reserve(0, 2 * spans.len(), states.tags())?;
            set_all_gone(store, states, spans);
        }
        Edit::Tag { on, name, spans } => {
            let _tag = tag_cells(alloc, store, states, spans, name, op.stamp(), *on)?;
        }
    }
    Ok(())
}
