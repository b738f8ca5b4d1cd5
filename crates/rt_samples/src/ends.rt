// Streams for tests: what is read comes in pieces, and a read or a write may fail.

use std::io::{self, Read, Write};

/// A reader that gives at most so many bytes at a time, and whose read of a number, from 0, fails, as each later one does.
#[derive(Drop)]
pub struct Pieces<'a> {
    pub bytes: &'a [u8],
    pub size: usize,
    pub until_failure: Option<usize>,
}

impl Read for Pieces<'_> {
    ghost use Rattle.std.specs.Prelude.{None};

    ghost remaining = { λ _. None };

    fn read(&mut self, buf: &mut [u8]) -> io::Result<usize> {
        if self.until_failure == Some(0) {
            return Err(io::Error::from(io::ErrorKind::Other));
        }
        self.until_failure = self.until_failure.map(|n| n.saturating_sub(1));
        let n = self.size.min(buf.len());
        self.bytes.read(&mut buf[..n])
    }
}

/// A reader that gives the same bytes for ever, at each read at most what is left of them before they begin again.
#[derive(Drop)]
pub struct Repeated<'a> {
    pub bytes: &'a [u8],
    pub left: &'a [u8],
}

impl<'a> Read for Repeated<'a> {
    ghost use Rattle.std.specs.Prelude.{None};

    ghost remaining = { λ _. None };

    fn read(&mut self, buf: &mut [u8]) -> io::Result<usize> {
        if self.left.is_empty() {
            self.left = self.bytes;
        }
        self.left.read(buf)
    }
}

/// A writer that takes at most so many bytes at a time, and whose write of a number, from 0, fails.
#[derive(Drop)]
pub struct Output {
    pub bytes: Vec<u8>,
    pub most: usize,
    pub until_failure: Option<usize>,
}

impl Write for Output {
    ghost use Rattle.std.specs.Prelude.{None};

    ghost contents = { λ _. None };

    fn write(&mut self, buf: &[u8]) -> io::Result<usize> {
        if self.until_failure == Some(0) {
            return Err(io::Error::from(io::ErrorKind::Other));
        }
        self.until_failure = self.until_failure.map(|n| n.saturating_sub(1));
        let n = self.most.min(buf.len());
        self.bytes.write(&buf[..n])
    }

    fn flush(&mut self) -> io::Result<()> {
        Ok(())
    }
}
