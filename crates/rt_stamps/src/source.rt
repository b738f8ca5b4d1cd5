// Readers and writers whose calls a contract counts.
ghost use Rattle.std.specs.Prelude.{◌≡◌, ◌+◌, ◌<◌, ◌≤◌, length, max, IfOk};
ghost use Rattle.std.specs.Io.{ReadsAtMost, WritesAtMost};
ghost use Rattle.std.specs.Io.KnownBytes.{ReadConsumes, WriteAppends};
ghost use Rattle.rt_stamps.specs.Source.{failed_reads, failed_writes};
ghost use Rattle.rt_stamps.specs.Streams.{Stream};

/// A read or a write failed.
#[derive(Clone, Copy, Debug, PartialEq, Eq)]
pub struct Failed;

/// A reader of bytes. What it tells of itself is of contracts alone: it takes no bytes when a program runs.
pub trait Source {
    /// How many reads were made, how many of them failed, and the bytes that are left, where they are known.
    ghost stream: { Self → Stream };

    /// Reads some bytes into the front of a buffer, and answers how many. None for a buffer that
    /// isn't empty is the end.
    fn read(&mut self, buf: &mut [u8]) -> Result<usize, Failed>
        ensures calls { (stream self.new).calls ≡ (stream self.old).calls + 1 }
        ensures failures { (stream self.new).failures ≡ (stream self.old).failures + failed_reads result }
        ensures bound { ReadsAtMost result buf.new }
        ensures bytes { ReadConsumes (stream self.old).bytes (stream self.new).bytes result buf.new };
}

/// A writer of bytes. What it tells of itself is of contracts alone: it takes no bytes when a program runs.
pub trait Sink {
    /// How many writes were made, how many of them failed or took nothing of a piece that isn't empty, and what was
    /// written, where it is known.
    ghost stream: { Self → Stream };

    /// Writes a front of a piece, and answers how many bytes of it.
    fn write(&mut self, piece: &[u8]) -> Result<usize, Failed>
        ensures calls { (stream self.new).calls ≡ (stream self.old).calls + 1 }
        ensures failures { (stream self.new).failures ≡ (stream self.old).failures + failed_writes result piece.now }
        ensures bound { WritesAtMost result piece.now }
        ensures bytes { WriteAppends (stream self.old).bytes (stream self.new).bytes result piece.now };
}

/// One read into the front of a buffer, of at most so many bytes where that is some, and else of one byte, which tells
/// whether there are more. Answers how many came: 0 only at the end.
pub fn read_piece<R: Source>(reader: &mut R, buf: &mut [u8], most: usize) -> Result<usize, Failed>
    requires { 0 < length buf.old }
    ensures calls { (R.stream reader.new).calls ≡ (R.stream reader.old).calls + 1 }
    ensures failures { (R.stream reader.new).failures ≡ (R.stream reader.old).failures + failed_reads result }
    ensures bytes { ReadConsumes (R.stream reader.old).bytes (R.stream reader.new).bytes result buf.new }
    ensures within { IfOk result (λ n. n ≤ length buf.new) }
    ensures bounded { IfOk result (λ n. n ≤ max most 1) }
{
    let limit = most.max(1).min(buf.len());
    reader.read(&mut buf[..limit])
}
