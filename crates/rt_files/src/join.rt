// The join of two files of operations.
ghost use Rattle.std.specs.Prelude.{◌≡◌, ◌⊎◌, ℕ, ◌<◌, List, length, Ok, reverse, MatchResult};
ghost use Rattle.rt_stamps.specs.declared.fault.Fault.TheVariants.{NoMemory};
ghost use Rattle.rt_ops.specs.File.{spelling};
ghost use Rattle.rt_oplog.specs.Logs.{joined};
ghost use Rattle.rt_ops.specs.Operations.{Operation};
ghost use Rattle.rt_oplog.specs.Outcomes.{IsLogOf};
ghost use Rattle.rt_files.specs.Files.{IsRefusedAt, FileGives, GivesNoLog, JoinsFiles, in_file, of_neither};

use crate::sending::export;
use rt_oplog::{Op, OpLog, join, read_file};
use rt_stamps::{Fault, Source};
use std::alloc::Global;

/// Why two files were not joined.
#[derive(Clone, Copy, Debug, PartialEq, Eq)]
pub struct JoinFault {
    /// 1 or 2 where that file is at fault, and 0 where neither is: for a `Conflict` of the one with the
    /// other, and for `NoMemory`.
    pub file: u8,
    /// What is wrong.
    pub fault: Fault,
    /// Where the record that is at fault begins in its file, in bytes. 0 for its first eight bytes, and
    /// where neither file is at fault.
    pub offset: u64,
}

// A fault of the first or the second file.
fn in_file(file: u8, fault: Fault, offset: u64) -> JoinFault
    ensures { result ≡ in_file file (fault, offset) }
{
    JoinFault {
        file,
        fault,
        offset,
    }
}

// A fault of neither file.
fn of_neither(fault: Fault) -> JoinFault
    ensures { result ≡ of_neither fault }
{
    JoinFault {
        file: 0,
        fault,
        offset: 0,
    }
}

// The log of a file's operations, or the fault of the first that it doesn't take.
fn log_of(alloc: Global, file: u8, ops: Vec<Op>, offsets: &[u64]) -> Result<OpLog, JoinFault>
    requires { length offsets.now ≡ length ops.items }
    ensures { MatchResult result
        (λ log. IsLogOf ops.items log.operations)
        (λ why. ((found : Fault × ℕ) × (why ≡ in_file file found) × IsRefusedAt ops.items offsets.now found)
        ⊎ ((why ≡ of_neither NoMemory) × (0 < length ops.items))) }
{
    match OpLog::from_ops(alloc, ops) {
        Ok(log) => Ok(log),
        Err(refused) => match refused.fault {
            Fault::NoMemory => Err(of_neither(Fault::NoMemory)),
            fault => Err(in_file(file, fault, offsets[refused.place])),
        },
    }
}

// The log of a file, or its first fault.
fn log_in<R: Source>(alloc: Global, file: u8, source: &mut R) -> Result<OpLog, JoinFault>
    ensures { MatchResult result
        (λ log. FileGives (R.stream source.old) (R.stream source.new) (Ok log.operations))
        (λ why. GivesNoLog file (R.stream source.old) (R.stream source.new) why) }
{
    let reading = match read_file(alloc, source) {
        Ok(reading) => reading,
        Err(fault) => return Err(of_neither(fault)),
    };
    let log = log_of(alloc, file, reading.ops, &reading.offsets)?;
    match reading.fault {
        Some((fault, offset)) => Err(in_file(file, fault, offset)),
        None => Ok(log),
    }
}

// The file of the join of two logs.
fn spelled_join(alloc: Global, one: OpLog, other: OpLog) -> Result<Vec<u8>, Fault>
    ensures { MatchResult result
        (λ bytes. (log : List Operation) × (joined one.operations other.operations ≡ Ok log) × (bytes.items ≡ spelling (reverse log)))
        (λ fault. (joined one.operations other.operations ≡ Err fault) ⊎ (fault ≡ NoMemory)) }
{
    let log = join(one, other)?;
    export(alloc, &log)
}

/// Reads two files of operations, the first one first, and answers the file of the join of their logs.
///
/// A file is at fault where its reading has a fault (`BadMagic`, `BadVersion`, `Truncated`, `BadRecord`,
/// `ReadFault`), or an operation is not sound (`BadStamp`) or clashes with an earlier one of the file
/// (`Conflict`), told at the offset of its record. The first fault of the first file that has one is
/// told; after a fault of the first file the second is not read. `Conflict` of neither file where the
/// operations of the one clash with those of the other, and `NoMemory` where a growth was refused: in
/// the place of a failed read only where operations before it find no memory as a log.
pub fn join_files<A: Source, B: Source>(
    alloc: Global,
    a: &mut A,
    b: &mut B,
) -> Result<Vec<u8>, JoinFault>
    ensures { JoinsFiles (A.stream a.old) (A.stream a.new) (B.stream b.old) (B.stream b.new) result }
{
    let one = log_in(alloc, 1, a)?;
    let other = log_in(alloc, 2, b)?;
    match spelled_join(alloc, one, other) {
        Ok(bytes) => Ok(bytes),
        Err(fault) => Err(of_neither(fault)),
    }
}
