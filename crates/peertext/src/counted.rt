// Sites that begin, scripts that are run, and files that are read, joined and shown, from their first read on, with reads
// and writes counted in ledgers that take no bytes.
ghost use Rattle.std.specs.Prelude.{◌≡◌, ℕ, ◌<◌, ◌≤◌, length, IfOk};
ghost use Rattle.rt_stamps.specs.Streams.{Stream};
ghost use Rattle.rt_stamps.specs.declared.limits.TheConstants.{MOST_BYTES};
ghost use Rattle.peertext.specs.Program.{BeginsFresh, RunsFresh};
ghost use Rattle.rt_program.specs.Readers.{ReadsFresh, JoinsFresh, ShowsFresh, stream_of};
ghost use Rattle.rt_script.specs.Site.{AreWithin, named_files};

use rt_program::{join_readers, read_bytes, show_lines};
use rt_script::{JoinFault, ScriptRun, SiteState, begun, run_site};
use rt_stamps::std_ends::{Count, Reader, Writer};
use rt_stamps::{Fault, Site};
use std::alloc::Global;
use std::io::{Read, Write};
use std::sync::ledger::{Blank, Ledger};

// What the reads and the writes of a run are counted in.
pub(crate) struct Counts {
    pub(crate) reads: Blank,
    pub(crate) failed_reads: Blank,
    pub(crate) writes: Blank,
    pub(crate) failed_writes: Blank,
}

impl Counts {
    // With one holder each.
    pub(crate) fn new() -> Counts
        ensures { (result.reads.parts ≡ 1) × (result.failed_reads.parts ≡ 1) × (result.writes.parts ≡ 1) × (result.failed_writes.parts ≡ 1) }
    {
        Counts {
            reads: Blank::new(1),
            failed_reads: Blank::new(1),
            writes: Blank::new(1),
            failed_writes: Blank::new(1),
        }
    }
}

// Runs a script by a site, and answers the reader and the writer too.
pub(crate) fn run_counted<
    A: Ledger,
    B: Ledger,
    C: Ledger,
    D: Ledger,
    S: Read + Drop,
    W: Write + Drop,
>(
    alloc: Global,
    site: SiteState,
    files: &[(String, Vec<u8>)],
    wants_log: bool,
    script: S,
    out: W,
    counts: Counts,
) -> (ScriptRun, Reader<S, A, B>, Writer<W, C, D>)
    requires files { AreWithin files.now }
    requires a { (counts.reads.name ≡ A.name) × (counts.reads.parts ≡ A.parts) × (0 < A.parts) }
    requires b { (counts.failed_reads.name ≡ B.name) × (counts.failed_reads.parts ≡ B.parts) × (0 < B.parts) }
    requires c { (counts.writes.name ≡ C.name) × (counts.writes.parts ≡ C.parts) × (0 < C.parts) }
    requires d { (counts.failed_writes.name ≡ D.name) × (counts.failed_writes.parts ≡ D.parts) × (0 < D.parts) }
    ensures { RunsFresh (named_files files.now) site wants_log
        (S.remaining script) (stream_of result.1.calls result.1.failures (S.remaining result.1.inner))
        (W.contents out) (stream_of result.2.calls result.2.failures (W.contents result.2.inner)) result.0 }
{
    let Counts {
        reads,
        failed_reads,
        writes,
        failed_writes,
    } = counts;
    let mut script = Reader::new(
        script,
        Count::<A>::begin(reads),
        Count::<B>::begin(failed_reads),
    );
    let mut out = Writer::new(
        out,
        Count::<C>::begin(writes),
        Count::<D>::begin(failed_writes),
    );
    let outcome = run_site(alloc, site, files, wants_log, &mut script, &mut out);
    (outcome, script, out)
}

// Reads all bytes of a file, and answers the reader too.
pub(crate) fn read_counted<A: Ledger, B: Ledger, S: Read + Drop>(
    alloc: Global,
    file: S,
    reads: Blank,
    failed_reads: Blank,
) -> (Result<Vec<u8>, Fault>, Reader<S, A, B>)
    requires a { (reads.name ≡ A.name) × (reads.parts ≡ A.parts) × (0 < A.parts) }
    requires b { (failed_reads.name ≡ B.name) × (failed_reads.parts ≡ B.parts) × (0 < B.parts) }
    ensures read { ReadsFresh (S.remaining file) (stream_of result.1.calls result.1.failures (S.remaining result.1.inner)) result.0 }
    ensures within { IfOk result.0 (λ bytes. length bytes.items ≤ MOST_BYTES) }
{
    let mut file = Reader::new(
        file,
        Count::<A>::begin(reads),
        Count::<B>::begin(failed_reads),
    );
    let read = read_bytes(alloc, &mut file);
    (read, file)
}

// Begins a site with the log of a file, and answers the reader too.
pub(crate) fn begun_counted<A: Ledger, B: Ledger, S: Read + Drop>(
    alloc: Global,
    site: Site,
    file: S,
    reads: Blank,
    failed_reads: Blank,
) -> (Result<SiteState, (Fault, u64)>, Reader<S, A, B>)
    requires a { (reads.name ≡ A.name) × (reads.parts ≡ A.parts) × (0 < A.parts) }
    requires b { (failed_reads.name ≡ B.name) × (failed_reads.parts ≡ B.parts) × (0 < B.parts) }
    ensures { BeginsFresh site.number (S.remaining file) (stream_of result.1.calls result.1.failures (S.remaining result.1.inner)) result.0 }
{
    let (read, file) = read_counted::<A, B, S>(alloc, file, reads, failed_reads);
    match read {
        Ok(bytes) => (begun(alloc, site, Some(bytes.as_slice())), file),
        Err(fault) => (Err((fault, 0)), file),
    }
}

// Joins two files, and answers their readers too.
pub(crate) fn join_counted<
    A: Ledger,
    B: Ledger,
    C: Ledger,
    D: Ledger,
    S: Read + Drop,
    T: Read + Drop,
>(
    alloc: Global,
    first: S,
    second: T,
    reads: Blank,
    failed_reads: Blank,
    more_reads: Blank,
    more_failed_reads: Blank,
) -> (Result<Vec<u8>, JoinFault>, Reader<S, A, B>, Reader<T, C, D>)
    requires a { (reads.name ≡ A.name) × (reads.parts ≡ A.parts) × (0 < A.parts) }
    requires b { (failed_reads.name ≡ B.name) × (failed_reads.parts ≡ B.parts) × (0 < B.parts) }
    requires c { (more_reads.name ≡ C.name) × (more_reads.parts ≡ C.parts) × (0 < C.parts) }
    requires d { (more_failed_reads.name ≡ D.name) × (more_failed_reads.parts ≡ D.parts) × (0 < D.parts) }
    ensures { JoinsFresh (S.remaining first) (stream_of result.1.calls result.1.failures (S.remaining result.1.inner))
        (T.remaining second) (stream_of result.2.calls result.2.failures (T.remaining result.2.inner)) result.0 }
{
    let mut first = Reader::new(
        first,
        Count::<A>::begin(reads),
        Count::<B>::begin(failed_reads),
    );
    let mut second = Reader::new(
        second,
        Count::<C>::begin(more_reads),
        Count::<D>::begin(more_failed_reads),
    );
    let joined = join_readers(alloc, &mut first, &mut second);
    (joined, first, second)
}

// Writes the lines of a file, and answers the reader and the writer too.
pub(crate) fn show_counted<
    A: Ledger,
    B: Ledger,
    C: Ledger,
    D: Ledger,
    S: Read + Drop,
    W: Write + Drop,
>(
    alloc: Global,
    file: S,
    out: W,
    reads: Blank,
    failed_reads: Blank,
    writes: Blank,
    failed_writes: Blank,
) -> (Result<(), (Fault, u64)>, Reader<S, A, B>, Writer<W, C, D>)
    requires a { (reads.name ≡ A.name) × (reads.parts ≡ A.parts) × (0 < A.parts) }
    requires b { (failed_reads.name ≡ B.name) × (failed_reads.parts ≡ B.parts) × (0 < B.parts) }
    requires c { (writes.name ≡ C.name) × (writes.parts ≡ C.parts) × (0 < C.parts) }
    requires d { (failed_writes.name ≡ D.name) × (failed_writes.parts ≡ D.parts) × (0 < D.parts) }
    ensures { ShowsFresh (S.remaining file) (stream_of result.1.calls result.1.failures (S.remaining result.1.inner))
        (W.contents out) (stream_of result.2.calls result.2.failures (W.contents result.2.inner)) result.0 }
{
    let mut file = Reader::new(
        file,
        Count::<A>::begin(reads),
        Count::<B>::begin(failed_reads),
    );
    let mut out = Writer::new(
        out,
        Count::<C>::begin(writes),
        Count::<D>::begin(failed_writes),
    );
    let shown = show_lines(alloc, &mut file, &mut out);
    (shown, file, out)
}

// The functions above for `main`, which asks for no reader and no writer.

pub(crate) fn read_file<A: Ledger, B: Ledger, S: Read + Drop>(
    alloc: Global,
    file: S,
    reads: Blank,
    failed_reads: Blank,
) -> Result<Vec<u8>, Fault>
    requires a { (reads.name ≡ A.name) × (reads.parts ≡ A.parts) × (0 < A.parts) }
    requires b { (failed_reads.name ≡ B.name) × (failed_reads.parts ≡ B.parts) × (0 < B.parts) }
    ensures read { (left : Stream) × ReadsFresh (S.remaining file) left result }
    ensures within { IfOk result (λ bytes. length bytes.items ≤ MOST_BYTES) }
{
    let (read, _file) = read_counted::<A, B, S>(alloc, file, reads, failed_reads);
    read
}

pub(crate) fn begin_with<A: Ledger, B: Ledger, S: Read + Drop>(
    alloc: Global,
    site: Site,
    file: S,
    reads: Blank,
    failed_reads: Blank,
) -> Result<SiteState, (Fault, u64)>
    requires a { (reads.name ≡ A.name) × (reads.parts ≡ A.parts) × (0 < A.parts) }
    requires b { (failed_reads.name ≡ B.name) × (failed_reads.parts ≡ B.parts) × (0 < B.parts) }
    ensures { (left : Stream) × BeginsFresh site.number (S.remaining file) left result }
{
    let (begun, _file) = begun_counted::<A, B, S>(alloc, site, file, reads, failed_reads);
    begun
}

pub(crate) fn join_two<A: Ledger, B: Ledger, C: Ledger, D: Ledger, S: Read + Drop, T: Read + Drop>(
    alloc: Global,
    first: S,
    second: T,
    reads: Blank,
    failed_reads: Blank,
    more_reads: Blank,
    more_failed_reads: Blank,
) -> Result<Vec<u8>, JoinFault>
    requires a { (reads.name ≡ A.name) × (reads.parts ≡ A.parts) × (0 < A.parts) }
    requires b { (failed_reads.name ≡ B.name) × (failed_reads.parts ≡ B.parts) × (0 < B.parts) }
    requires c { (more_reads.name ≡ C.name) × (more_reads.parts ≡ C.parts) × (0 < C.parts) }
    requires d { (more_failed_reads.name ≡ D.name) × (more_failed_reads.parts ≡ D.parts) × (0 < D.parts) }
    ensures { (left : Stream) × (rest : Stream) × JoinsFresh (S.remaining first) left (T.remaining second) rest result }
{
    let (joined, _first, _second) = join_counted::<A, B, C, D, S, T>(
        alloc,
        first,
        second,
        reads,
        failed_reads,
        more_reads,
        more_failed_reads,
    );
    joined
}

pub(crate) fn show_file<
    A: Ledger,
    B: Ledger,
    C: Ledger,
    D: Ledger,
    S: Read + Drop,
    W: Write + Drop,
>(
    alloc: Global,
    file: S,
    out: W,
    reads: Blank,
    failed_reads: Blank,
    writes: Blank,
    failed_writes: Blank,
) -> (Result<(), (Fault, u64)>, W)
    requires a { (reads.name ≡ A.name) × (reads.parts ≡ A.parts) × (0 < A.parts) }
    requires b { (failed_reads.name ≡ B.name) × (failed_reads.parts ≡ B.parts) × (0 < B.parts) }
    requires c { (writes.name ≡ C.name) × (writes.parts ≡ C.parts) × (0 < C.parts) }
    requires d { (failed_writes.name ≡ D.name) × (failed_writes.parts ≡ D.parts) × (0 < D.parts) }
    ensures { (left : Stream) × (calls : ℕ) × (failures : ℕ) × ShowsFresh (S.remaining file) left
        (W.contents out) (stream_of calls failures (W.contents result.1)) result.0 }
{
    let (shown, _file, out) = show_counted::<A, B, C, D, S, W>(
        alloc,
        file,
        out,
        reads,
        failed_reads,
        writes,
        failed_writes,
    );
    (shown, out.into_inner())
}
