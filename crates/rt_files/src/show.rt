// The lines of a file of operations.
ghost use Rattle.std.specs.Prelude.{◌≡◌};
ghost use Rattle.rt_files.specs.Files.{ShowsFile};

use crate::write_lines;
use rt_oplog::read_file;
use rt_stamps::{Fault, Sink, Source};
use std::alloc::Global;

/// Writes the line of each operation of a file, in their order, as far as the file has no fault; then
/// its first fault is told, with the offset at which that record begins.
///
/// The file's own faults are those of `read_file`: `BadMagic`, `BadVersion` and `Truncated` at 0 for
/// the first eight bytes, `Truncated`, `BadRecord` or `ReadFault` at the offset of a record. No stamp
/// is checked. `WriteFault`, where a write fails or takes nothing, has the offset 0, and a front of the
/// lines was then written; so has `NoMemory`, where the operations found no memory and nothing was
/// written.
pub fn show_file<R: Source, W: Sink>(
    alloc: Global,
    source: &mut R,
    out: &mut W,
) -> Result<(), (Fault, u64)>
    ensures { ShowsFile (R.stream source.old) (R.stream source.new) (W.stream out.old) (W.stream out.new) result }
{
    let reading = match read_file(alloc, source) {
        Ok(reading) => reading,
        Err(fault) => return Err((fault, 0)),
    };
    match write_lines(&reading.ops, out) {
        Ok(()) => {}
        Err(fault) => return Err((fault, 0)),
    }
    match reading.fault {
        Some(fault) => Err(fault),
        None => Ok(()),
    }
}
