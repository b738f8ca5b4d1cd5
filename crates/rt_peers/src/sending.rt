// What another site lacks of a log.
ghost use Rattle.std.specs.Prelude.{◌≡◌, ◌≤◌, ℕ, IfOk, IsOkUnless, None};
ghost use Rattle.std.specs.BTreeMap.{get};
ghost use Rattle.std.specs.Ordering.{nat_cmp};
ghost use Rattle.rt_stamps.specs.declared.limits.TheConstants.{GREATEST_COUNT};
ghost use Rattle.rt_stamps.specs.declared.fault.Fault.TheVariants.{NoMemory};
ghost use Rattle.rt_ops.specs.Operations.{last_count};
ghost use Rattle.rt_ops.specs.Views.{operation_in};
ghost use Rattle.rt_oplog.specs.Logs.{known_end};
ghost use Rattle.rt_rga.specs.Histories.{IsHistory};
ghost use Rattle.rt_peers.specs.Lacking.{is_past, known_in, past_known};

use rt_oplog::OpLog;
use rt_ops::OpView;
use rt_stamps::Fault;
use std::alloc::Global;
use std::collections::BTreeMap;

/// The last count that is known of each site that has operations in a log, and of no other.
pub(crate) fn ends_of(alloc: Global, log: &OpLog) -> Result<BTreeMap<u32, u64>, Fault>
    ensures ok { IfOk result (λ ends. (site : ℕ) → known_in ends site ≡ known_end log.now.operations site) }
    ensures only { IfOk result (λ ends. (site : ℕ) → known_end log.now.operations site ≡ 0 → get nat_cmp ends site ≡ None) }
    ensures fault { IsOkUnless result NoMemory }
{
    let mut ends = BTreeMap::new(alloc);
    log.soundness();
    let ops = log.in_order()?;
    for op in &ops {
        let site = op.site();
        if !ends.contains_key(&site) {
            ends.insert(site, log.known(site))?;
        }
    }
    Ok(ends)
}

/// Whether an operation is past what is known of its site.
fn is_past(op: &OpView<'_>, ends: &BTreeMap<u32, u64>) -> bool
    requires { last_count (operation_in op.now) ≤ GREATEST_COUNT }
    ensures { result ≡ is_past (known_in ends.now) (operation_in op.now) }
{
    let known = ends.get(&op.site()).copied().unwrap_or(0);
    known < op.last_count()
}

/// The operations of a log that are past what is known of their sites.
pub(crate) fn lacking(alloc: Global, log: &OpLog, ends: &BTreeMap<u32, u64>) -> Result<OpLog, Fault>
    requires { IsHistory log.now.operations }
    ensures ok { IfOk result (λ lacking. lacking.operations ≡ past_known (known_in ends.now) log.now.operations) }
    ensures fault { IsOkUnless result NoMemory }
{
    let all = log.in_order()?;
    let mut ops = Vec::new(alloc);
    for op in &all {
        if is_past(op, ends) {
            ops.push(op.copied(alloc)?)?;
        }
    }
    match OpLog::from_ops(alloc, ops) {
        Ok(lacking) => Ok(lacking),
        Err(_) => Err(Fault::NoMemory),
    }
}
