// Records, taken from a reader within bounds.
ghost use Rattle.std.specs.Prelude.{◌≡◌, ◌+◌, ◌<◌, ◌≤◌, length, max, IfOk, IfErr, IfSome};
ghost use Rattle.rt_ops.specs.Intake.{GetsSome, Gathers, GetsLength, GetsRecord, GaveSome, StopsUnseen};

use crate::decode::decode;
use crate::fields::LENGTH_BYTES;
use crate::record::length_at;
use crate::{Op, Version};
use rt_stamps::limits::PIECE_BYTES;
use rt_stamps::{Bounds, Fault, Source, read_piece};
use std::alloc::Global;

/// Reads a piece of at most so many bytes within the bounds. Where these allow no byte it reads
/// one, which tells whether the file ends there; where they allow no read it makes none.
fn read_some<R: Source>(
    reader: &mut R,
    bounds: &mut Bounds,
    buf: &mut [u8],
    most: usize,
) -> Result<usize, Fault>
    requires buffer { 0 < length buf.old }
    requires most { 0 < most }
    ensures gets { GetsSome (R.stream reader.old) (R.stream reader.new) bounds.old bounds.new most result buf.new }
    ensures gave { IfOk result (λ n. 0 < n → GaveSome R.stream reader.old reader.new) }
    ensures unseen { IfErr result (StopsUnseen R.stream bounds.old reader.old reader.new) }
{
    if bounds.reads == 0 {
        return Err(Fault::ReadFault);
    }
    bounds.reads -= 1;
    let n = match read_piece(reader, buf, bounds.bytes.min(most)) {
        Ok(n) => n,
        Err(_) => return Err(Fault::ReadFault),
    };
    if n > bounds.bytes {
        return Err(Fault::ReadFault);
    }
    bounds.bytes -= n;
    Ok(n)
}

/// Reads so many bytes into a buffer, which grows as they come; fewer at the end. What was in it goes. `ReadFault` where a read
/// failed or the bounds allow no more, `NoMemory` where a growth was refused.
pub fn gather<R: Source>(
    reader: &mut R,
    bounds: &mut Bounds,
    buffer: &mut Vec<u8>,
    wanted: usize,
) -> Result<(), Fault>
    ensures gathers { Gathers (R.stream reader.old) (R.stream reader.new) bounds.old bounds.new wanted result buffer.new.items }
    ensures gave { IfOk result (λ _. 0 < wanted → wanted ≤ length buffer.new.items → GaveSome R.stream reader.old reader.new) }
    ensures unseen { IfErr result (StopsUnseen R.stream bounds.old reader.old reader.new) }
{
    buffer.clear();
    let mut piece = [0; PIECE_BYTES];
    while buffer.len() < wanted {
        let n = read_some(reader, bounds, &mut piece, wanted - buffer.len())?;
        if n == 0 {
            return Ok(());
        }
        buffer.extend_from_slice(&piece[..n])?;
    }
    Ok(())
}

/// The length of the next record; none at the end. The faults of `gather`, `Truncated` where the end comes within it, and
/// `BadRecord` where no record has it.
fn next_length<R: Source>(
    version: Version,
    reader: &mut R,
    bounds: &mut Bounds,
    buffer: &mut Vec<u8>,
) -> Result<Option<usize>, Fault>
    ensures gets { GetsLength version (R.stream reader.old) (R.stream reader.new) bounds.old bounds.new result }
    ensures gave { IfOk result (λ found. IfSome found (λ _. GaveSome R.stream reader.old reader.new)) }
    ensures unseen { IfErr result (StopsUnseen R.stream bounds.old reader.old reader.new) }
{
    gather(reader, bounds, buffer, LENGTH_BYTES)?;
    if buffer.is_empty() {
        return Ok(None);
    }
    let (length, _) = length_at(version, buffer)?;
    Ok(Some(length))
}

/// The operation of the next record; none at the end. The buffer has the bytes of a record as they
/// come, so no more than about its size. The faults of `gather`, `Truncated` where the end comes within the record, and
/// `BadRecord` where it has another.
pub fn next_op<R: Source>(
    alloc: Global,
    version: Version,
    reader: &mut R,
    bounds: &mut Bounds,
    buffer: &mut Vec<u8>,
) -> Result<Option<Op>, Fault>
    ensures gets { GetsRecord version (R.stream reader.old) (R.stream reader.new) bounds.old bounds.new result }
    ensures gave { IfOk result (λ found. IfSome found (λ _. GaveSome R.stream reader.old reader.new)) }
    ensures unseen { IfErr result (StopsUnseen R.stream bounds.old reader.old reader.new) }
{
    let length = match next_length(version, reader, bounds, buffer)? {
        Some(length) => length,
        None => return Ok(None),
    };
    gather(reader, bounds, buffer, length)?;
    if buffer.len() < length {
        return Err(Fault::Truncated);
    }
    let op = decode(alloc, version, buffer)?;
    Ok(Some(op))
}
