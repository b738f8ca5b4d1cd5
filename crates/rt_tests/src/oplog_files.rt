// Files of a few operations: what rt_ops and rt_oplog alone tell. Files that are joined and shown stand in
// rt_tests_script.
ghost use Rattle.std.specs.Prelude.{◌≡◌, ◌<◌};

use crate::checks::same;
use rt_oplog::{OpLog, Reading, read_bytes, read_whole, write_file};
use rt_samples::files::{DELETE_SECOND, INSERT_AB};
use rt_samples::{Output, Pieces};
use rt_stamps::Fault;
use rt_stamps::limits::MOST_BYTES;
use rt_stamps::std_ends::{Count, Reader, Writer};
use std::alloc::Global;
use std::marker::Brand;
use std::process::Abort;
use std::sync::ledger::{Blank, Ledger};
use std::test::Fail;

fn read_whole_in<A: Ledger, B: Ledger>(
    alloc: Global,
    pieces: Pieces,
    reads: Blank,
    failures: Blank,
) -> Result<Vec<u8>, Fault>
    requires reads { (reads.name ≡ A.name) × (reads.parts ≡ A.parts) × (0 < A.parts) }
    requires failures { (failures.name ≡ B.name) × (failures.parts ≡ B.parts) × (0 < B.parts) }
{
    let mut reader = Reader::new(
        pieces,
        Count::<A>::begin(reads),
        Count::<B>::begin(failures),
    );
    read_whole(alloc, &mut reader)
}

fn read_all(
    alloc: Global,
    bytes: &[u8],
    size: usize,
    until_failure: Option<usize>,
) -> Result<Vec<u8>, Fault> {
    let pieces = Pieces {
        bytes,
        size,
        until_failure,
    };
    read_whole_in::<Brand, Brand>(alloc, pieces, Blank::new(1), Blank::new(1))
}

fn write_in<A: Ledger, B: Ledger>(
    alloc: Global,
    log: &OpLog,
    out: Output,
    writes: Blank,
    failures: Blank,
) -> (Vec<u8>, Option<Fault>)
    requires writes { (writes.name ≡ A.name) × (writes.parts ≡ A.parts) × (0 < A.parts) }
    requires failures { (failures.name ≡ B.name) × (failures.parts ≡ B.parts) × (0 < B.parts) }
{
    let mut out = Writer::new(out, Count::<A>::begin(writes), Count::<B>::begin(failures));
    let fault = write_file(alloc, log, &mut out).err();
    let Output { bytes, .. } = out.into_inner();
    (bytes, fault)
}

fn write_bytes(
    alloc: Global,
    log: &OpLog,
    until_failure: Option<usize>,
) -> (Vec<u8>, Option<Fault>) {
    let out = Output {
        bytes: Vec::new(alloc),
        most: usize::MAX,
        until_failure,
    };
    write_in::<Brand, Brand>(alloc, log, out, Blank::new(1), Blank::new(1))
}

// What is read of a file.
fn reading_of(alloc: Global, bytes: &[u8]) -> Result<Reading, Fault> {
    if bytes.len() <= MOST_BYTES {
        read_bytes(alloc, bytes)
    } else {
        Err(Fault::ReadFault)
    }
}

// A log of the operations of a file.
fn log_of(alloc: Global, bytes: &[u8]) -> Result<OpLog, Fault> {
    let Reading { ops, .. } = reading_of(alloc, bytes)?;
    OpLog::from_ops(alloc, ops).map_err(|refused| refused.fault)
}

/// Stops a test where the file of a log begins otherwise, or isn't read as its operations.
pub(crate) fn comes_back(
    rt: &impl Abort,
    alloc: Global,
    log: &OpLog,
    begin: &[u8],
) -> Result<(), Fail> {
    let (bytes, failed) = write_bytes(alloc, log, None);
    same(rt, (failed, bytes.starts_with(begin)), (None, true));
    let Reading { ops, fault, .. } = reading_of(alloc, &bytes)?;
    same(rt, (ops.len(), fault), (log.len(), None));
    for op in &ops {
        same(rt, log.contains(op), true);
    }
    Ok(())
}

/// A file, the size of its pieces, which read fails, and the fault.
type Row = (&'static [u8], usize, Option<usize>, Option<Fault>);

const READ: &[Row] = &[
    (INSERT_AB, 1, None, None),
    (INSERT_AB, 7, None, None),
    (INSERT_AB, 4096, None, None),
    (b"", 4096, None, None),
    (INSERT_AB, 7, Some(0), Some(Fault::ReadFault)),
    (INSERT_AB, 7, Some(1), Some(Fault::ReadFault)),
    (INSERT_AB, 7, Some(7), Some(Fault::ReadFault)),
];

#[test]
fn all_bytes_are_read(rt: HostRuntime) {
    for (bytes, size, failing, fault) in READ {
        match read_all(rt.alloc(), *bytes, *size, *failing) {
            Ok(read) => {
                same(&rt, None, *fault);
                same(&rt, read.as_slice(), *bytes);
            }
            Err(why) => same(&rt, Some(why), *fault),
        }
    }
}

#[test]
fn a_failed_write(rt: HostRuntime) -> Result<(), Fail> {
    let log = log_of(rt.alloc(), DELETE_SECOND)?;
    for (writes, len) in [(0, 0), (1, 8), (2, 44)] {
        let (written, fault) = write_bytes(rt.alloc(), &log, Some(writes));
        same(&rt, fault, Some(Fault::WriteFault));
        same(&rt, written.len(), len);
        assert!(rt; DELETE_SECOND.starts_with(&written));
    }
    Ok(())
}
