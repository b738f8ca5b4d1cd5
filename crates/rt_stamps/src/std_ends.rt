// std's readers and writers, with their calls counted.
ghost use Rattle.std.specs.Prelude.{◌≡◌, ◌<◌, ◌+◌};

use crate::source::{Failed, Sink, Source};
use std::io::{Read, Write};
use std::marker::Model;
use std::sync::ledger::{Blank, Book, Ledger, Share};

/// A count that takes no bytes.
#[derive(Drop)]
pub struct Count<L: Ledger> {
    book: Book<L>,
    share: Share<L>,
}

impl<L: Ledger> Model for Count<L> {
    ghost use Rattle.std.specs.Prelude.{ℕ, ◌<◌};

    ghost Value = { ℕ };

    ghost view = { λ s. s.book.total };

    ghost invariant = { λ s. 0 < s.share.parts };
}

impl<L: Ledger> Count<L> {
    /// A count that begins at 0.
    pub fn begin(blank: Blank) -> Self
        requires name { blank.name ≡ L.name }
        requires parts { (blank.parts ≡ L.parts) × (0 < L.parts) }
        ensures { result ≡ 0 }
    {
        let (book, share) = blank.open::<L>();
        Count { book, share }
    }

    /// Counts one.
    pub fn tick(&mut self)
        ensures { self.new ≡ self.old + 1 }
    {
        self.book.add(&mut self.share, 1);
    }
}

/// A reader of std as a `Source`.
#[derive(Drop)]
pub struct Reader<R: Read + Drop, C: Ledger, F: Ledger> {
    inner: R,
    calls: Count<C>,
    failures: Count<F>,
}

impl<R: Read + Drop, C: Ledger, F: Ledger> Reader<R, C, F> {
    /// Counts the calls of a reader and those that fail, in two ledgers.
    pub fn new(inner: R, calls: Count<C>, failures: Count<F>) -> Self
        ensures inner { result.inner ≡ inner }
        ensures calls { result.calls ≡ calls }
        ensures failures { result.failures ≡ failures }
    {
        Reader {
            inner,
            calls,
            failures,
        }
    }
}

impl<R: Read + Drop, C: Ledger, F: Ledger> Source for Reader<R, C, F> {
    ghost stream = { λ s. record { calls = s.calls; failures = s.failures; bytes = R.remaining s.inner } };

    fn read(&mut self, buf: &mut [u8]) -> Result<usize, Failed> {
        self.calls.tick();
        match self.inner.read(buf) {
            Ok(n) => Ok(n),
            Err(_) => {
                self.failures.tick();
                Err(Failed)
            }
        }
    }
}

/// A writer of std as a `Sink`.
#[derive(Drop)]
pub struct Writer<W: Write + Drop, C: Ledger, F: Ledger> {
    inner: W,
    calls: Count<C>,
    failures: Count<F>,
}

impl<W: Write + Drop, C: Ledger, F: Ledger> Writer<W, C, F> {
    /// Counts the calls of a writer and those that fail, in two ledgers.
    pub fn new(inner: W, calls: Count<C>, failures: Count<F>) -> Self
        ensures inner { result.inner ≡ inner }
        ensures calls { result.calls ≡ calls }
        ensures failures { result.failures ≡ failures }
    {
        Writer {
            inner,
            calls,
            failures,
        }
    }

    /// The writer of std.
    pub fn into_inner(self) -> W
        ensures { result ≡ self.inner }
    {
        let Writer { inner, .. } = self;
        inner
    }
}

impl<W: Write + Drop, C: Ledger, F: Ledger> Sink for Writer<W, C, F> {
    ghost stream = { λ s. record { calls = s.calls; failures = s.failures; bytes = W.contents s.inner } };

    fn write(&mut self, piece: &[u8]) -> Result<usize, Failed> {
        self.calls.tick();
        let n = match self.inner.write(piece) {
            Ok(n) => n,
            Err(_) => {
                self.failures.tick();
                return Err(Failed);
            }
        };
        if n == 0 && !piece.is_empty() {
            self.failures.tick();
        }
        Ok(n)
    }
}
