// The operation file, read.
ghost use Rattle.std.specs.Prelude.{◌≡◌, Some, IfOk, IfErr, IfSome};
ghost use Rattle.rt_stamps.specs.declared.fault.Fault.TheVariants.{NoMemory};
ghost use Rattle.rt_stamps.specs.Streams.{FILE_BOUNDS};
ghost use Rattle.rt_ops.specs.Intake.{GetsHead, GaveSome, StopsUnseen, ReadsFile, ReadsWhole, LacksMemory};

use crate::head::{HEAD_BYTES, head_of};
use crate::intake::{gather, next_op};
use crate::record::may_follow;
use crate::{Op, Version};
use rt_stamps::limits::{MOST_BYTES, MOST_READS};
use rt_stamps::{Bounds, Fault, Source};
use std::alloc::Global;

/// What was read of a file.
#[derive(Drop)]
pub struct Reading {
    /// The operations before the first fault.
    pub ops: Vec<Op>,
    /// Where the record of each begins, in bytes from the file's first.
    pub offsets: Vec<u64>,
    /// The first fault, `BadMagic`, `BadVersion`, `Truncated`, `BadRecord` or `ReadFault`, and where
    /// its record begins; 0 for the first eight bytes.
    pub fault: Option<(Fault, u64)>,
}

/// Reads the first eight bytes of a file, which tell its version.
fn read_head<R: Source>(
    reader: &mut R,
    bounds: &mut Bounds,
    buffer: &mut Vec<u8>,
) -> Result<Version, Fault>
    ensures gets { GetsHead (R.stream reader.old) (R.stream reader.new) bounds.old bounds.new result }
    ensures gave { IfOk result (λ _. GaveSome R.stream reader.old reader.new) }
    ensures unseen { IfErr result (StopsUnseen R.stream bounds.old reader.old reader.new) }
{
    gather(reader, bounds, buffer, HEAD_BYTES)?;
    head_of(buffer)
}

/// What was read before a fault. Want of memory is no such fault: it is the error.
pub(crate) fn ended(
    ops: Vec<Op>,
    offsets: Vec<u64>,
    fault: Fault,
    offset: u64,
) -> Result<Reading, Fault>
    ensures ops { IfOk result (λ reading. reading.ops.items ≡ ops.items) }
    ensures offsets { IfOk result (λ reading. reading.offsets.items ≡ offsets.items) }
    ensures fault { IfOk result (λ reading. (reading.fault ≡ Some (fault, offset)) × (fault ≡ NoMemory → ⊥)) }
    ensures memory { IfErr result (λ refused. (refused ≡ NoMemory) × (fault ≡ NoMemory)) }
{
    if matches!(fault, Fault::NoMemory) {
        return Err(fault);
    }
    Ok(Reading {
        ops,
        offsets,
        fault: Some((fault, offset)),
    })
}

/// Reads a file to its end or to its first fault, of at most `max_bytes` bytes and in at most
/// `max_reads` reads; either may be any number, 0 too. `NoMemory` where a growth was refused.
///
/// The operations of all records before the first fault are given, each with the offset of its
/// record. A file of just `max_bytes` bytes is whole, and a read of no bytes is its end. A failed
/// read, one more byte, or the want of one more read is a `ReadFault` at the offset of the record in
/// which it came, 0 in the first eight bytes. Where no read failed, the end was not found then: the last read
/// gave some bytes, or none is allowed. A file of n bytes is read in n + 1 reads at most.
pub fn read_file_bounded<R: Source>(
    alloc: Global,
    reader: &mut R,
    max_bytes: usize,
    max_reads: usize,
) -> Result<Reading, Fault>
    ensures reads { IfOk result (λ reading. ReadsFile (record { bytes = max_bytes; reads = max_reads })
        (R.stream reader.old) (R.stream reader.new) reading.ops.items reading.offsets.items reading.fault) }
    ensures memory { IfErr result (λ fault. (fault ≡ NoMemory)
        × LacksMemory (record { bytes = max_bytes; reads = max_reads }) (R.stream reader.old) (R.stream reader.new)) }
    ensures unseen { IfOk result (λ reading. IfSome reading.fault (λ found.
        StopsUnseen R.stream (record { bytes = max_bytes; reads = max_reads }) reader.old reader.new found.0)) }
{
    let mut ops = Vec::new(alloc);
    let mut offsets = Vec::new(alloc);
    let mut buffer = Vec::new(alloc);
    let mut last = None;
    let mut bounds = Bounds {
        bytes: max_bytes,
        reads: max_reads,
    };
    let version = match read_head(reader, &mut bounds, &mut buffer) {
        Ok(version) => version,
        Err(fault) => return ended(ops, offsets, fault, 0),
    };
    'records: loop {
        let offset = (max_bytes - bounds.bytes) as u64;
        let op = match next_op(alloc, version, reader, &mut bounds, &mut buffer) {
            Ok(Some(op)) => op,
            Ok(None) => break 'records,
            Err(fault) => return ended(ops, offsets, fault, offset),
        };
        if !may_follow(last, &op) {
            return ended(ops, offsets, Fault::BadRecord, offset);
        }
        last = Some(op.stamp());
        ops.push(op)?;
        offsets.push(offset)?;
    }
    Ok(Reading {
        ops,
        offsets,
        fault: None,
    })
}

/// Reads a file to its end or to its first fault: `read_file_bounded` with `MOST_BYTES` bytes and
/// `MOST_READS` reads, which suffice for so many bytes. `NoMemory` where a growth was refused.
///
/// The operations of all records before the first fault are given, each with the offset of its
/// record. A failed read, or a byte past `MOST_BYTES`, is a `ReadFault` at the offset of the record in
/// which it came.
pub fn read_file<R: Source>(alloc: Global, reader: &mut R) -> Result<Reading, Fault>
    ensures reads { IfOk result (λ reading. ReadsFile FILE_BOUNDS
        (R.stream reader.old) (R.stream reader.new) reading.ops.items reading.offsets.items reading.fault) }
    ensures memory { IfErr result (λ fault. (fault ≡ NoMemory) × LacksMemory FILE_BOUNDS (R.stream reader.old) (R.stream reader.new)) }
    ensures unseen { IfOk result (λ reading. IfSome reading.fault (λ found. StopsUnseen R.stream FILE_BOUNDS reader.old reader.new found.0)) }
{
    read_file_bounded(alloc, reader, MOST_BYTES, MOST_READS)
}

/// Reads all bytes of a file, to its end. `ReadFault` where a read failed, or the file has more than
/// `MOST_BYTES` bytes; `NoMemory` where a growth was refused.
pub fn read_whole<R: Source>(alloc: Global, reader: &mut R) -> Result<Vec<u8>, Fault>
    ensures reads { ReadsWhole FILE_BOUNDS (R.stream reader.old) (R.stream reader.new) result }
    ensures unseen { IfErr result (StopsUnseen R.stream FILE_BOUNDS reader.old reader.new) }
{
    let mut bounds = Bounds::of_file();
    let mut bytes = Vec::new(alloc);
    // one more than a file has, so that no file is taken for its front
    gather(reader, &mut bounds, &mut bytes, MOST_BYTES + 1)?;
    Ok(bytes)
}
