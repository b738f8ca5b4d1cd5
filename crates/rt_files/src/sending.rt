// The file of a site's log.
ghost use Rattle.std.specs.Prelude.{◌≡◌, ◌<◌, IfOk, IsOkUnless, None, OnOk, reverse};
ghost use Rattle.rt_ops.specs.File.{spelling};
ghost use Rattle.rt_ops.specs.Reading.{Reads, offsets_of};

use rt_oplog::{OpLog, write_file};
use rt_stamps::Fault;
use rt_stamps::std_ends::{Count, Writer};
use std::alloc::Global;
use std::marker::Brand;
use std::sync::ledger::{Blank, Ledger};

// The file of a log, its writes counted in ledgers that take no bytes.
fn spelled<A: Ledger, B: Ledger>(
    alloc: Global,
    log: &OpLog,
    writes: Blank,
    failures: Blank,
) -> Result<Vec<u8>, Fault>
    requires writes { (writes.name ≡ A.name) × (writes.parts ≡ A.parts) × (0 < A.parts) }
    requires failures { (failures.name ≡ B.name) × (failures.parts ≡ B.parts) × (0 < B.parts) }
    ensures ok { IfOk result (λ bytes. bytes.items ≡ spelling (reverse log.now.operations)) }
    ensures read_back { OnOk result
        (Reads (spelling (reverse log.now.operations)) (reverse log.now.operations) (offsets_of (reverse log.now.operations)) None) }
    ensures err { IsOkUnless result Fault.NoMemory }
{
    let mut bytes = Writer::new(
        Vec::new(alloc),
        Count::<A>::begin(writes),
        Count::<B>::begin(failures),
    );
    match write_file(alloc, log, &mut bytes) {
        Ok(()) => Ok(bytes.into_inner()),
        Err(_) => Err(Fault::NoMemory),
    }
}

/// The file of a log: its operations in the order of their stamps, in their one spelling, which reads as
/// these. Want of memory.
pub fn export(alloc: Global, log: &OpLog) -> Result<Vec<u8>, Fault>
    ensures ok { IfOk result (λ bytes. bytes.items ≡ spelling (reverse log.now.operations)) }
    ensures read_back { OnOk result
        (Reads (spelling (reverse log.now.operations)) (reverse log.now.operations) (offsets_of (reverse log.now.operations)) None) }
    ensures err { IsOkUnless result Fault.NoMemory }
{
    spelled::<Brand, Brand>(alloc, log, Blank::new(1), Blank::new(1))
}
