// Files that are read, joined and shown.
ghost use Rattle.std.specs.Prelude.{◌≤◌, length, IfOk};
ghost use Rattle.rt_stamps.specs.declared.limits.TheConstants.{MOST_BYTES};
ghost use Rattle.rt_stamps.specs.Streams.{FILE_BOUNDS};
ghost use Rattle.rt_ops.specs.Intake.{ReadsWhole};
ghost use Rattle.rt_files.specs.Files.{JoinsFiles, ShowsFile};

use rt_files::{JoinFault, join_files, show_file};
use rt_ops::read_whole;
use rt_stamps::{Fault, Sink, Source};
use std::alloc::Global;

/// Reads all bytes of a file, to its end. `ReadFault` where a read failed, or the file has more than
/// `MOST_BYTES` bytes; `NoMemory` where a growth was refused.
pub fn read_bytes<R: Source>(alloc: Global, file: &mut R) -> Result<Vec<u8>, Fault>
    ensures read { ReadsWhole FILE_BOUNDS (R.stream file.old) (R.stream file.new) result }
    ensures within { IfOk result (λ bytes. length bytes.items ≤ MOST_BYTES) }
{
    read_whole(alloc, file)
}

/// Reads two files of operations, the first one first, and answers the file of the join of their logs.
/// The first fault of the first file that has one, at the offset of its record; `Conflict` of neither
/// file where the operations of the one clash with those of the other, and `NoMemory`.
pub fn join_readers<A: Source, B: Source>(
    alloc: Global,
    first: &mut A,
    second: &mut B,
) -> Result<Vec<u8>, JoinFault>
    ensures joined { JoinsFiles (A.stream first.old) (A.stream first.new) (B.stream second.old) (B.stream second.new) result }
{
    join_files(alloc, first, second)
}

/// Writes the line of each operation of a file, as far as the file has no fault, and tells its first
/// fault with its offset. `WriteFault` at 0 where a write fails or takes nothing, `NoMemory` at 0.
pub fn show_lines<R: Source, W: Sink>(
    alloc: Global,
    file: &mut R,
    out: &mut W,
) -> Result<(), (Fault, u64)>
    ensures shown { ShowsFile (R.stream file.old) (R.stream file.new) (W.stream out.old) (W.stream out.new) result }
{
    show_file(alloc, file, out)
}
