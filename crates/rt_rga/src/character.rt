// A single character without tags, as it is typed: what `make` does for a list of drafts, without the steps of a list.
ghost use Rattle.std.specs.Prelude.{◌≡◌, ◌+◌, ◌<◌, ◌≤◌, OnErr, OnOk, IsOkUnless, length};
ghost use Rattle.rt_stamps.specs.declared.limits.TheConstants.{MOST_CELLS};
ghost use Rattle.rt_rga.specs.Drafts.{one_character, with_drafts};
ghost use Rattle.rt_rga.specs.Histories.{Continues, greatest_last_count};
ghost use Rattle.rt_rga.specs.Making.{next_insert};
ghost use Rattle.rt_rga.specs.Replicas.{IsReplica};

use crate::new_cells::new_cell;
use rt_oplog::OpLog;
use rt_stamps::{Clock, Fault, Stamp};
use rt_store::TextStore;
use rt_tags::{StateId, StateTable};
use std::slice;

/// Puts a new character behind an element, as the next operation of a log does. Want of memory, and then the cells stay.
#[inline(always)]
pub(crate) fn put_character<S: TextStore>(
    store: &mut S,
    states: &StateTable,
    log: &OpLog,
    stamp: Stamp,
    after: Stamp,
    character: char,
) -> Result<(), Fault>
    requires replica { IsReplica log.now.operations states.now (S.list store.old) }
    requires agrees { S.agrees store.old states.now }
    requires next { stamp.count ≡ greatest_last_count log.now.operations + 1 }
    requires continues { Continues log.now.operations (next_insert stamp.site after character log.now.operations) }
    requires room { length (S.list store.old) + 1 ≤ MOST_CELLS }
    ensures replica { OnOk result (IsReplica (with_drafts stamp.site (one_character after character) log.now.operations) states.now (S.list store.new)) }
    ensures cells { OnOk result (length (S.list store.new) ≡ length (S.list store.old) + 1) }
    ensures agrees { S.agrees store.new states.now }
    ensures same { OnErr result (S.list store.new ≡ S.list store.old) }
    ensures fault { IsOkUnless result Fault.NoMemory }
{
    store.reserve(1, 1, states.tags())?;
    states.order();
    let cell = new_cell(stamp, StateId::EMPTY, character);
    let at = store.after_skip(after, stamp);
    store.splice(states, at, slice::from_ref(&cell));
    Ok(())
}

/// Logs the next operation, which puts a character behind an element, where there is room.
#[inline(always)]
pub(crate) fn push_character(
    log: &mut OpLog,
    clock: &mut Clock,
    stamp: Stamp,
    after: Stamp,
    character: char,
)
    requires next { stamp.count ≡ greatest_last_count log.old.operations + 1 }
    requires continues { Continues log.old.operations (next_insert stamp.site after character log.old.operations) }
    requires room { 0 < log.old.room }
    requires seen { clock.old ≡ greatest_last_count log.old.operations }
    ensures operations { log.new.operations ≡ with_drafts stamp.site (one_character after character) log.old.operations }
    ensures seen { clock.new ≡ greatest_last_count log.new.operations }
{
    clock.saw(stamp.count);
    log.append_typed(stamp, after, character);
}
