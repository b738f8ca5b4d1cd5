// Runs that end early: at a read or a write that fails, or past a bound on the script's bytes or on its reads.
ghost use Rattle.std.specs.Prelude.{◌≡◌, ◌<◌};

use crate::sites::{Script, add_rows, new_site};
use rt_samples::{Output, Pieces, Repeated};
use rt_script::{SiteState, run_bounded};
use rt_stamps::limits::{MOST_BYTES, MOST_CELLS, MOST_READS};
use rt_stamps::std_ends::{Count, Reader, Writer};
use rt_stamps::{Bounds, Fault, Source};
use std::alloc::Global;
use std::io::Read;
use std::marker::Brand;
use std::process::Abort;
use std::sync::ledger::{Blank, Ledger};

/// The reply lines of a run, and its fault.
type Ran = (Vec<u8>, Option<Fault>);

// A writer that takes all of each piece, but for the write of a number, which fails.
fn whole_pieces(alloc: Global, until_failure: Option<usize>) -> Output {
    Output {
        bytes: Vec::new(alloc),
        most: usize::MAX,
        until_failure,
    }
}

// What a run within bounds writes.
fn written<S: Source, A: Ledger, B: Ledger>(
    alloc: Global,
    state: SiteState,
    script: &mut S,
    bounds: Bounds,
    out: Output,
    writes: Blank,
    failures: Blank,
) -> Ran
    requires writes { (writes.name ≡ A.name) × (writes.parts ≡ A.parts) × (0 < A.parts) }
    requires failures { (failures.name ≡ B.name) × (failures.parts ≡ B.parts) × (0 < B.parts) }
{
    let mut out = Writer::new(out, Count::<A>::begin(writes), Count::<B>::begin(failures));
    let ended = run_bounded(
        alloc,
        state,
        script,
        &[],
        &mut out,
        bounds.bytes,
        bounds.reads,
    );
    let Output { bytes, .. } = out.into_inner();
    (bytes, ended.fault)
}

fn read_in<R: Read + Drop, A: Ledger, B: Ledger>(
    alloc: Global,
    state: SiteState,
    script: R,
    bounds: Bounds,
    out: Output,
    reads: Blank,
    failures: Blank,
) -> Ran
    requires reads { (reads.name ≡ A.name) × (reads.parts ≡ A.parts) × (0 < A.parts) }
    requires failures { (failures.name ≡ B.name) × (failures.parts ≡ B.parts) × (0 < B.parts) }
{
    let mut script = Reader::new(
        script,
        Count::<A>::begin(reads),
        Count::<B>::begin(failures),
    );
    written::<Reader<R, A, B>, Brand, Brand>(
        alloc,
        state,
        &mut script,
        bounds,
        out,
        Blank::new(1),
        Blank::new(1),
    )
}

fn run_of<R: Read + Drop>(
    rt: &impl Abort,
    alloc: Global,
    script: R,
    bounds: Bounds,
    out: Output,
) -> Ran {
    let state = new_site(rt, alloc, 1, MOST_CELLS);
    read_in::<R, Brand, Brand>(
        alloc,
        state,
        script,
        bounds,
        out,
        Blank::new(1),
        Blank::new(1),
    )
}

// Stops a test where a run gave other lines, or told another fault.
fn told(rt: &impl Abort, ran: Ran, replies: &[u8], fault: Option<Fault>, number: usize) {
    let (lines, found) = ran;
    let is_told = lines.as_slice() == replies && found == fault;
    assert!(rt; is_told, "at {number}: {fault:?}, not {found:?}");
}

// Four lines, 62 bytes together, and the reply lines of the first one, two, three, and of all.
const LINES: &str = ".t insert 1.0 hello\n.t get 1.0 end\n.t index end\n.t index 1.end";

const ONE: &str = "=\n";

const TWO: &str = "=\n= \"hello\\n\"\n";

const THREE: &str = "=\n= \"hello\\n\"\n= 2.0\n";

const ALL: &str = "=\n= \"hello\\n\"\n= 2.0\n= 1.5\n";

/// Bounds on bytes and on reads, the numbers of a read and a write that fail, the reply lines, and what the run tells.
type Stopped = (
    usize,
    usize,
    Option<usize>,
    Option<usize>,
    &'static str,
    Option<Fault>,
);

// In pieces of 20 bytes.
const STOPPED: &[Stopped] = &[
    (62, 9, Some(0), None, "", Some(Fault::ReadFault)),
    (62, 9, Some(1), None, ONE, Some(Fault::ReadFault)),
    (62, 9, Some(2), None, TWO, Some(Fault::ReadFault)),
    (62, 9, Some(3), None, THREE, Some(Fault::ReadFault)),
    (62, 9, Some(4), None, THREE, Some(Fault::ReadFault)),
    (62, 9, Some(5), None, ALL, None),
    (62, 9, None, Some(0), "", Some(Fault::WriteFault)),
    (62, 9, None, Some(1), ONE, Some(Fault::WriteFault)),
    (62, 9, None, Some(2), TWO, Some(Fault::WriteFault)),
    (62, 9, None, Some(3), THREE, Some(Fault::WriteFault)),
    (62, 9, None, Some(4), ALL, None),
    (62, 5, None, None, ALL, None),
    (61, 5, None, None, THREE, Some(Fault::ReadFault)),
    (62, 4, None, None, THREE, Some(Fault::ReadFault)),
    (62, 2, None, None, TWO, Some(Fault::ReadFault)),
    (48, 9, None, None, THREE, Some(Fault::ReadFault)),
    (20, 9, None, None, ONE, Some(Fault::ReadFault)),
    (19, 9, None, None, "", Some(Fault::ReadFault)),
    (0, 9, None, None, "", Some(Fault::ReadFault)),
    (62, 0, None, None, "", Some(Fault::ReadFault)),
];

fn is_stopped(rt: &impl Abort, alloc: Global, row: &Stopped) {
    let (bytes, reads, failing_read, failing_write, replies, fault) = *row;
    let script = Pieces {
        bytes: LINES.as_bytes(),
        size: 20,
        until_failure: failing_read,
    };
    let out = whole_pieces(alloc, failing_write);
    let ran = run_of(rt, alloc, script, Bounds { bytes, reads }, out);
    told(rt, ran, replies.as_bytes(), fault, bytes);
}

#[test]
fn runs_that_stop(rt: HostRuntime) {
    for row in STOPPED {
        is_stopped(&rt, rt.alloc(), row);
    }
}

// How many bytes so many lines have.
fn len_of_lines(text: &str, count: usize) -> usize {
    let mut len = 0usize;
    for line in text.lines().take(count) {
        len = len.saturating_add(line.len()).saturating_add(1);
    }
    len
}

/// A script, as bytes that are read in pieces of a size, and its reply lines, one for each line.
#[derive(Clone, Copy)]
struct Cut<'a> {
    lines: &'a str,
    replies: &'a str,
    size: usize,
}

impl<'a> Cut<'a> {
    // A reader of it whose read of a number fails.
    fn pieces(&self, until_failure: Option<usize>) -> Pieces<'a> {
        Pieces {
            bytes: self.lines.as_bytes(),
            size: self.size,
            until_failure,
        }
    }

    // The reply lines to the lines that are complete within so many bytes.
    fn replies_within(&self, rt: &impl Abort, len: usize) -> &'a [u8] {
        let came = self.lines.as_bytes().iter().take(len);
        let complete = came.filter(|byte| **byte == b'\n').count();
        self.front(rt, complete)
    }

    // So many reply lines.
    fn front(&self, rt: &impl Abort, count: usize) -> &'a [u8] {
        let len = len_of_lines(self.replies, count);
        self.replies.as_bytes().get(..len).expect(rt, "a front")
    }

    // What is answered where so many reads give all that comes of it, and the fault.
    fn after_reads(&self, rt: &impl Abort, count: usize) -> (&'a [u8], Option<Fault>) {
        let len = count.saturating_mul(self.size);
        // one more finds the end
        let is_whole = len >= self.lines.len().saturating_add(self.size);
        self.after(rt, len, is_whole)
    }

    // What `after_reads` answers, where so many bytes give all that comes of it.
    fn after(&self, rt: &impl Abort, len: usize, is_whole: bool) -> (&'a [u8], Option<Fault>) {
        if is_whole {
            (self.replies.as_bytes(), None)
        } else {
            (self.replies_within(rt, len), Some(Fault::ReadFault))
        }
    }
}

fn read_fails(rt: &impl Abort, alloc: Global, cut: &Cut, number: usize) {
    let (replies, fault) = cut.after_reads(rt, number);
    let failing = cut.pieces(Some(number));
    let out = whole_pieces(alloc, None);
    let ran = run_of(rt, alloc, failing, Bounds::of_file(), out);
    told(rt, ran, replies, fault, number);
}

fn reads_are_bounded(rt: &impl Abort, alloc: Global, cut: &Cut, number: usize) {
    let (replies, fault) = cut.after_reads(rt, number);
    let bounds = Bounds {
        bytes: cut.lines.len(),
        reads: number,
    };
    let out = whole_pieces(alloc, None);
    let ran = run_of(rt, alloc, cut.pieces(None), bounds, out);
    told(rt, ran, replies, fault, number);
}

fn bytes_are_bounded(rt: &impl Abort, alloc: Global, cut: &Cut, number: usize) {
    let (replies, fault) = cut.after(rt, number, number >= cut.lines.len());
    let bounds = Bounds {
        bytes: number,
        reads: MOST_READS,
    };
    let out = whole_pieces(alloc, None);
    let ran = run_of(rt, alloc, cut.pieces(None), bounds, out);
    told(rt, ran, replies, fault, number);
}

// Each reply line is one write.
fn write_fails(rt: &impl Abort, alloc: Global, cut: &Cut, number: usize) {
    let replies = cut.front(rt, number);
    let is_whole = replies.len() == cut.replies.len();
    let fault = (!is_whole).then_some(Fault::WriteFault);
    let out = whole_pieces(alloc, Some(number));
    let ran = run_of(rt, alloc, cut.pieces(None), Bounds::of_file(), out);
    told(rt, ran, replies, fault, number);
}

// Writes that take one byte each, until the one of this number fails.
fn byte_fails(rt: &impl Abort, alloc: Global, cut: &Cut, number: usize) {
    let replies = cut.replies.as_bytes();
    let written = replies.get(..number).unwrap_or(replies);
    let fault = (number < replies.len()).then_some(Fault::WriteFault);
    let out = Output {
        bytes: Vec::new(alloc),
        most: 1,
        until_failure: Some(number),
    };
    let ran = run_of(rt, alloc, cut.pieces(None), Bounds::of_file(), out);
    told(rt, ran, written, fault, number);
}

// A write that takes nothing of a piece is a failure.
fn nothing_is_taken(rt: &impl Abort, alloc: Global, cut: &Cut) {
    let out = Output {
        bytes: Vec::new(alloc),
        most: 0,
        until_failure: None,
    };
    let ran = run_of(rt, alloc, cut.pieces(None), Bounds::of_file(), out);
    told(rt, ran, b"", Some(Fault::WriteFault), 0);
}

// A run is stopped at each of its reads, and where there are more than it takes.
fn stops_at_reads(rt: &impl Abort, alloc: Global, cut: &Cut, most: usize) {
    for number in 0..most {
        read_fails(rt, alloc, cut, number);
        reads_are_bounded(rt, alloc, cut, number);
    }
}

// A run is stopped at each byte of its script.
fn stops_at_bytes(rt: &impl Abort, alloc: Global, cut: &Cut) {
    for number in 0..cut.lines.len().saturating_add(2) {
        bytes_are_bounded(rt, alloc, cut, number);
    }
}

// A run is stopped at each of its reply lines (fewer than ten), and at each byte of them.
fn stops_at_writes(rt: &impl Abort, alloc: Global, cut: &Cut) {
    for number in 0..10 {
        write_fails(rt, alloc, cut, number);
    }
    for number in 0..cut.replies.len().saturating_add(2) {
        byte_fails(rt, alloc, cut, number);
    }
    nothing_is_taken(rt, alloc, cut);
}

const DUMPED: Script = r#"
.t insert 1.0 hello -> =
.t tag add t 1.1 1.3 -> =
.t mark set m 1.2 -> =
.t dump 1.0 end -> = text h 1.0 tagon t 1.1 text e 1.1 mark m 1.2 text l 1.2 tagoff t 1.3 text lo 1.3 mark current 1.5 mark insert 1.5 text "\n" 1.5
.t dump -text 1.0 end -> = text "hello\n" 1.0
.t replace 1.1 1.3 EY -> =
.t get 1.0 1.end -> = hEYlo
.t replace 1.3 1.1 x -> ! 10 BackwardsRange
"#;

// The sizes of pieces, and more reads than the script's 157 bytes take then.
const SIZES: &[(usize, usize)] = &[(1, 160), (7, 26), (20, 11)];

fn stops(rt: &impl Abort, alloc: Global, lines: &str, replies: &str) {
    for (size, most) in SIZES {
        let cut = Cut {
            lines,
            replies,
            size: *size,
        };
        stops_at_reads(rt, alloc, &cut, *most);
        stops_at_bytes(rt, alloc, &cut);
        stops_at_writes(rt, alloc, &cut);
    }
}

#[test]
fn runs_stop_anywhere(rt: HostRuntime) {
    let alloc = rt.alloc();
    let mut lines = String::new(alloc);
    let mut replies = String::new(alloc);
    add_rows(&rt, DUMPED, &mut lines, &mut replies);
    stops(&rt, alloc, lines.as_str(), replies.as_str());
    // without a newline behind the last line
    stops(&rt, alloc, lines.trim_end(), replies.as_str());
}

/// Bounds on the bytes and the reads of a script without an end, whose lines have 13 bytes, a line at a read, and how
/// many of them are answered.
type Endless = (usize, usize, usize);

const ENDLESS: &[Endless] = &[
    (26, MOST_READS, 2),
    (MOST_BYTES, 2, 2),
    (26, 3, 2),
    (26, 2, 2),
    (26, 1, 1),
    (38, MOST_READS, 2),
    (25, MOST_READS, 1),
    (13, MOST_READS, 1),
    (12, MOST_READS, 0),
    (0, MOST_READS, 0),
    (MOST_BYTES, 100, 100),
    (MOST_BYTES, 1, 1),
    (MOST_BYTES, 0, 0),
    (0, 0, 0),
];

fn is_endless(rt: &impl Abort, alloc: Global, row: &Endless) {
    let (bytes, reads, count) = *row;
    let mut replies = String::new(alloc);
    for _ in 0..count {
        replies.push_str("= 2.0\n").expect(rt, "memory");
    }
    let script = Repeated {
        bytes: b".t index end\n",
        left: b"",
    };
    let out = whole_pieces(alloc, None);
    let ran = run_of(rt, alloc, script, Bounds { bytes, reads }, out);
    told(rt, ran, replies.as_bytes(), Some(Fault::ReadFault), bytes);
}

#[test]
fn scripts_without_an_end(rt: HostRuntime) {
    for row in ENDLESS {
        is_endless(&rt, rt.alloc(), row);
    }
}
