// The operation file of a log.
ghost use Rattle.std.specs.Prelude.{◌≡◌, true, map, reverse, None, OnOk};
ghost use Rattle.std.specs.List.{AllByRecursion, flat_map, list_all};
ghost use Rattle.rt_stamps.specs.Written.{WritesBuffered, WritesText};
ghost use Rattle.rt_ops.specs.declared.version.Version.TheVariants.{One};
ghost use Rattle.rt_ops.specs.File.{spelling, magic, record_of, file_of, fits, version_of, HasRecord};
ghost use Rattle.rt_ops.specs.Reading.{offsets_of, Reads};
ghost use Rattle.rt_rows.specs.Places.{HasPlace, op_at};
ghost use Rattle.rt_oplog.specs.Logs.{IsLog};
ghost use Rattle.rt_oplog.specs.Runs.{places_in, places_of};

use crate::OpLog;
use crate::merge::op_in;
use crate::run::Run;
use rt_ops::spell::spell;
use rt_ops::{Version, fits, magic};
use rt_rows::Rows;
use rt_stamps::{Fault, Sink, write_all};
use std::alloc::Global;

/// Whether the first version has room for the operations of a run.
fn run_fits(ops: &Rows, run: Run) -> bool
    requires { AllByRecursion (HasPlace ops.now.rows) (places_of run) }
    ensures { result ≡ list_all (fits One) (map (op_at ops.now.rows) (places_of run)) }
{
    for number in 0..run.len() {
        if !fits(Version::One, op_in(ops, run.place(number))) {
            return false;
        }
    }
    true
}

/// Whether the first version has room for the operations of runs.
fn places_fit(ops: &Rows, runs: &[Run]) -> bool
    requires { AllByRecursion (HasPlace ops.now.rows) (places_in runs.now) }
    ensures { result ≡ list_all (fits One) (map (op_at ops.now.rows) (places_in runs.now)) }
{
    for run in runs {
        if !run_fits(ops, *run) {
            return false;
        }
    }
    true
}

/// Whether the first version has room for each operation of a log.
fn all_fit(log: &OpLog) -> bool
    ensures { result ≡ list_all (fits One) (reverse log.now.operations) }
{
    let (ops, blocks) = log.blocks();
    for block in blocks {
        if !places_fit(ops, &block.runs) {
            return false;
        }
    }
    true
}

/// The version in which the file of a log is written: the first where it has room for each operation.
fn version_of(log: &OpLog) -> Version
    ensures { result ≡ version_of (reverse log.now.operations) }
{
    if all_fit(log) {
        Version::One
    } else {
        Version::Two
    }
}

fn write_magic<W: Sink>(version: Version, out: &mut W) -> Result<(), Fault>
    ensures { WritesText (W.stream out.old) (W.stream out.new) result (magic version) }
{
    write_all(out, magic(version).as_slice())
}

/// Writes the records of the operations of a run, each through the buffer.
fn write_run<W: Sink>(
    record: &mut Vec<u8>,
    version: Version,
    ops: &Rows,
    run: Run,
    out: &mut W,
) -> Result<(), Fault>
    requires within { AllByRecursion (HasPlace ops.now.rows) (places_of run) }
    requires room { version ≡ One → list_all (fits One) (map (op_at ops.now.rows) (places_of run)) ≡ true }
    ensures writes { WritesBuffered (W.stream out.old) (W.stream out.new) result (flat_map (record_of version) (map (op_at ops.now.rows) (places_of run))) }
    ensures records { OnOk result (AllByRecursion (HasRecord version) (map (op_at ops.now.rows) (places_of run))) }
{
    for number in 0..run.len() {
        spell(record, version, op_in(ops, run.place(number)))?;
        write_all(out, record)?;
    }
    Ok(())
}

/// Writes the records of the operations of runs, each through the buffer.
fn write_records<W: Sink>(
    record: &mut Vec<u8>,
    version: Version,
    ops: &Rows,
    runs: &[Run],
    out: &mut W,
) -> Result<(), Fault>
    requires within { AllByRecursion (HasPlace ops.now.rows) (places_in runs.now) }
    requires room { version ≡ One → list_all (fits One) (map (op_at ops.now.rows) (places_in runs.now)) ≡ true }
    ensures writes { WritesBuffered (W.stream out.old) (W.stream out.new) result
        (flat_map (record_of version) (map (op_at ops.now.rows) (places_in runs.now))) }
    ensures records { OnOk result (AllByRecursion (HasRecord version) (map (op_at ops.now.rows) (places_in runs.now))) }
{
    for run in runs {
        write_run(record, version, ops, *run, out)?;
    }
    Ok(())
}

/// Writes the file of a log's operations in a version that has room for them.
fn write_in<W: Sink>(alloc: Global, version: Version, log: &OpLog, out: &mut W) -> Result<(), Fault>
    requires { version ≡ One → list_all (fits One) (reverse log.now.operations) ≡ true }
    ensures writes { WritesBuffered (W.stream out.old) (W.stream out.new) result (file_of version (reverse log.now.operations)) }
    ensures records { OnOk result (IsLog log.now.operations × AllByRecursion (HasRecord version) (reverse log.now.operations)) }
{
    write_magic(version, out)?;
    let (ops, blocks) = log.blocks();
    let mut record = Vec::new(alloc);
    for block in blocks {
        write_records(&mut record, version, ops, &block.runs, out)?;
    }
    Ok(())
}

/// Writes the file of a log's operations by rising stamp, one record after the other, through a
/// buffer of a record. It is of the first version where that has room for each operation (`rt_ops::fits`), else of
/// the second. What was written reads as these operations (`read_file` takes files of at most `MOST_BYTES`).
/// `NoMemory` where the buffer could not grow, `WriteFault` where a write failed; a front of the file was then
/// written.
pub fn write_file<W: Sink>(alloc: Global, log: &OpLog, out: &mut W) -> Result<(), Fault>
    ensures writes { WritesBuffered (W.stream out.old) (W.stream out.new) result (spelling (reverse log.now.operations)) }
    ensures read_back { OnOk result
        (Reads (spelling (reverse log.now.operations)) (reverse log.now.operations) (offsets_of (reverse log.now.operations)) None) }
{
    write_in(alloc, version_of(log), log, out)
}
