// An operation file in memory.
ghost use Rattle.std.specs.Prelude.{◌≡◌, ◌≤◌, length, IfOk, IsOkUnless};
ghost use Rattle.rt_stamps.specs.declared.fault.Fault.TheVariants.{NoMemory};
ghost use Rattle.rt_stamps.specs.declared.limits.TheConstants.{MOST_BYTES};
ghost use Rattle.rt_ops.specs.Reading.{Reads};

use crate::file::ended;
use crate::{Reading, Records};
use rt_stamps::Fault;
use std::alloc::Global;

/// Reads a file in memory, of at most `MOST_BYTES` bytes, to its end or to its first fault.
/// `NoMemory` where a growth was refused.
///
/// The operations of all records before the first fault are given, each with the offset of its
/// record. No read can fail, so no fault is a `ReadFault`.
pub fn read_bytes(alloc: Global, bytes: &[u8]) -> Result<Reading, Fault>
    requires { length bytes.now ≤ MOST_BYTES }
    ensures ok { IfOk result (λ reading. Reads bytes.now reading.ops.items reading.offsets.items reading.fault) }
    ensures each { IfOk result (λ reading. length reading.offsets.items ≡ length reading.ops.items) }
    ensures err { IsOkUnless result NoMemory }
{
    let mut ops = Vec::new(alloc);
    let mut offsets = Vec::new(alloc);
    let mut records = match Records::begin(bytes) {
        Ok(records) => records,
        Err(fault) => return ended(ops, offsets, fault, 0),
    };
    'records: loop {
        let offset = records.offset();
        let op = match records.next(alloc) {
            Ok(Some(op)) => op,
            Ok(None) => break 'records,
            Err(fault) => return ended(ops, offsets, fault, offset),
        };
        ops.push(op)?;
        offsets.push(offset)?;
    }
    Ok(Reading {
        ops,
        offsets,
        fault: None,
    })
}
