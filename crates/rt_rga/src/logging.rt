// Operations are logged.
ghost use Rattle.std.specs.Prelude.{◌≡◌, ◌+◌, ◌<◌, ◌≤◌, length, true};
ghost use Rattle.std.specs.List.{AllByRecursion};
ghost use Rattle.rt_stamps.specs.Stamps.{is_before};
ghost use Rattle.rt_ops.specs.Operations.{stamp_of};
ghost use Rattle.rt_oplog.specs.Logs.{with_operation};
ghost use Rattle.rt_rga.specs.Drafts.{ContinueInTurn, with_operations};
ghost use Rattle.rt_rga.specs.Histories.{Continues, IsHistory, greatest_last_count};
ghost use Rattle.rt_rga.specs.Making.{AreNewest};
ghost use Rattle.rt_rga.specs.OneOrMany.{items_in};

use crate::one_or_many::OneOrMany;
use rt_oplog::{Op, OpLog};
use rt_stamps::{Clock, Stamp};

// Logs an operation that is newer than all before it, and continues the log, where there is room.
#[inline(always)]
fn push_newest(log: &mut OpLog, clock: &mut Clock, op: Op)
    requires continues { Continues log.old.operations op }
    requires newest { greatest_last_count log.old.operations < op.count }
    requires room { 0 < log.old.room }
    requires seen { clock.old ≡ greatest_last_count log.old.operations }
    ensures operations { log.new.operations ≡ with_operation op log.old.operations }
    ensures room { log.old.room ≤ log.new.room + 1 }
    ensures seen { clock.new ≡ greatest_last_count log.new.operations }
{
    clock.saw(op.last_count());
    log.append(op);
}

/// Whether a stamp is before another.
#[inline(always)]
fn is_before(one: Stamp, other: Stamp) -> bool
    ensures { result ≡ is_before one other }
{
    one < other
}

/// Whether an operation is known to be newer than all others of a log, whose greatest last count is known.
#[inline(always)]
fn is_newest(log: &OpLog, last: u64, op: &Op) -> bool
    requires history { IsHistory log.now.operations }
    requires last { last ≡ greatest_last_count log.now.operations }
    ensures { result ≡ true → AllByRecursion (λ q. is_before (stamp_of q) (stamp_of op.now) ≡ true) log.now.operations }
{
    let stamp = op.stamp();
    if last < stamp.count {
        return true;
    }
    let all = log.len();
    all == 0 || is_before(log.get(all - 1).stamp, stamp)
}

/// Logs an operation that continues the log, where there is room. One that is newer than all others is put behind them.
#[inline(always)]
pub(crate) fn push_next(log: &mut OpLog, clock: &mut Clock, op: Op)
    requires continues { Continues log.old.operations op }
    requires history { IsHistory log.old.operations }
    requires room { 0 < log.old.room }
    requires seen { clock.old ≡ greatest_last_count log.old.operations }
    ensures operations { log.new.operations ≡ with_operation op log.old.operations }
    ensures seen { clock.new ≡ greatest_last_count log.new.operations }
{
    let is_newest = is_newest(log, clock.seen(), &op);
    clock.saw(op.last_count());
    if is_newest {
        log.append(op);
    } else {
        let _added = log.push(op);
    }
}

// Logs the operations of a list, as `push_newest` does one.
fn push_all(log: &mut OpLog, clock: &mut Clock, ops: Vec<Op>)
    requires continues { ContinueInTurn log.old.operations ops.items }
    requires newest { AreNewest log.old.operations ops.items }
    requires room { length ops.items ≤ log.old.room }
    requires seen { clock.old ≡ greatest_last_count log.old.operations }
    ensures operations { log.new.operations ≡ with_operations ops.items log.old.operations }
    ensures seen { clock.new ≡ greatest_last_count log.new.operations }
{
    for op in ops {
        push_newest(log, clock, op);
    }
}

/// Logs operations that are newer than all before them, each of which continues the log with those before it, where
/// there is room.
#[inline(always)]
pub(crate) fn push_few(log: &mut OpLog, clock: &mut Clock, ops: OneOrMany<Op>)
    requires continues { ContinueInTurn log.old.operations (items_in ops) }
    requires newest { AreNewest log.old.operations (items_in ops) }
    requires room { length (items_in ops) ≤ log.old.room }
    requires seen { clock.old ≡ greatest_last_count log.old.operations }
    ensures operations { log.new.operations ≡ with_operations (items_in ops) log.old.operations }
    ensures seen { clock.new ≡ greatest_last_count log.new.operations }
{
    match ops {
        OneOrMany::One(op) => push_newest(log, clock, op),
        OneOrMany::Many(ops) => push_all(log, clock, ops),
    }
}
