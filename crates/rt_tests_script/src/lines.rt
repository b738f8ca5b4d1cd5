// Bytes, cut into lines by the engine alone.
ghost use Rattle.std.specs.Prelude.{◌≡◌, ◌<◌};

use rt_samples::Pieces;
use rt_script::engine::run_lines;
use rt_script::{Answer, Commands, Reply};
use rt_stamps::limits::MOST_LINE_BYTES;
use rt_stamps::std_ends::{Count, Reader, Writer};
use rt_stamps::{Bounds, Fault};
use std::alloc::Global;
use std::marker::Brand;
use std::process::Abort;
use std::sync::ledger::{Blank, Ledger};

// Answers each line with its own words.
#[derive(Drop)]
struct Echo {
    alloc: Global,
}

impl Echo {
    fn copy(&self, words: &[String]) -> Result<Reply, Fault> {
        let mut copies = Vec::new(self.alloc);
        for word in words {
            copies.push(String::from_str(self.alloc, word)?)?;
        }
        Ok(Reply { words: copies })
    }
}

impl Commands for Echo {
    ghost use Rattle.std.specs.Prelude.{ℕ};

    ghost State = { ℕ };

    ghost state = { λ _. 0 };

    ghost gives = { λ _ _ _ new. Unit {0} };

    fn run_words(&mut self, words: &[String]) -> Answer {
        Answer::from(self.copy(words))
    }
}

fn output<A: Ledger, B: Ledger, C: Ledger, D: Ledger>(
    alloc: Global,
    pieces: Pieces,
    reads: Blank,
    failed_reads: Blank,
    writes: Blank,
    failed_writes: Blank,
) -> (Vec<u8>, Option<Fault>)
    requires reads { (reads.name ≡ A.name) × (reads.parts ≡ A.parts) × (0 < A.parts) }
    requires failed_reads { (failed_reads.name ≡ B.name) × (failed_reads.parts ≡ B.parts) × (0 < B.parts) }
    requires writes { (writes.name ≡ C.name) × (writes.parts ≡ C.parts) × (0 < C.parts) }
    requires failed_writes { (failed_writes.name ≡ D.name) × (failed_writes.parts ≡ D.parts) × (0 < D.parts) }
{
    let mut script = Reader::new(
        pieces,
        Count::<A>::begin(reads),
        Count::<B>::begin(failed_reads),
    );
    let mut out = Writer::new(
        Vec::new(alloc),
        Count::<C>::begin(writes),
        Count::<D>::begin(failed_writes),
    );
    let ended = run_lines(
        alloc,
        Echo { alloc },
        &mut script,
        &mut out,
        Bounds::of_file(),
    );
    (out.into_inner(), ended.fault)
}

fn output_of(alloc: Global, bytes: &[u8], size: usize) -> (Vec<u8>, Option<Fault>) {
    output::<Brand, Brand, Brand, Brand>(
        alloc,
        Pieces {
            bytes,
            size,
            until_failure: None,
        },
        Blank::new(1),
        Blank::new(1),
        Blank::new(1),
        Blank::new(1),
    )
}

// Stops a test where other lines are answered in pieces of a size, or not all.
fn answers(rt: &impl Abort, alloc: Global, script: &[u8], size: usize, replies: &[u8]) {
    let (text, fault) = output_of(alloc, script, size);
    let is_told = text.as_slice() == replies && fault.is_none();
    assert!(rt;
        is_told,
        "{} bytes by {size}, {} of replies",
        script.len(),
        replies.len()
    );
}

/// The bytes of a script, and its reply lines.
const CUT_INTO_LINES: &[(&[u8], &str)] = &[
    (b"", ""),
    (b"a b", "= a b\n"),
    (b" a\tb \n\nc\n", "= a b\n= c\n"),
    (b"a\r\nb\r\r\nc\r", "= a\n= \"b\\r\"\n= \"c\\r\"\n"),
    (b"\n \t\n\r\n#x\n #y\n\t", "= #y\n"),
    (b"\"\nx\n\"", "! 19 BadQuoting\n= x\n! 19 BadQuoting\n"),
    (b"\xff\n#\xff\nx", "! 19 BadQuoting\n! 19 BadQuoting\n= x\n"),
];

/// How many letters more than a line may have, how the script ends, whether the line is answered by itself,
/// and how its reply lines end.
type Long = (usize, &'static str, bool, &'static str);

const LONG: &[Long] = &[
    (0, "\nx\n", true, "\n= x\n"),
    (0, "\r\nx", true, "\n= x\n"),
    (0, "", true, "\n"),
    (0, "\r\r\nx", false, "! 19 BadQuoting\n= x\n"),
    (0, "\r", false, "! 19 BadQuoting\n"),
    (1, "\nx\n", false, "! 19 BadQuoting\n= x\n"),
    (1, "\r\nx\n", false, "! 19 BadQuoting\n= x\n"),
    (1, "", false, "! 19 BadQuoting\n"),
    (5000, "\nx", false, "! 19 BadQuoting\n= x\n"),
];

// So many letters between two texts.
fn letters(rt: &impl Abort, alloc: Global, begin: &str, count: usize, end: &str) -> Vec<u8> {
    let mut line = Vec::from_slice(alloc, begin.as_bytes()).expect(rt, "memory");
    let len = line.len().saturating_add(count);
    line.resize(len, b'a').expect(rt, "memory");
    line.extend_from_slice(end.as_bytes()).expect(rt, "memory");
    line
}

fn is_long(rt: &impl Abort, alloc: Global, row: &Long) {
    let (more, end, is_itself, last) = row;
    let count = MOST_LINE_BYTES.saturating_add(*more);
    let script = letters(rt, alloc, "", count, end);
    let (begin, count) = if *is_itself { ("= ", count) } else { ("", 0) };
    let replies = letters(rt, alloc, begin, count, last);
    answers(rt, alloc, &script, 1000, &replies);
}

#[test]
fn lines_of_scripts(rt: HostRuntime) {
    let alloc = rt.alloc();
    for (script, replies) in CUT_INTO_LINES {
        for size in 1..5 {
            answers(&rt, alloc, *script, size, replies.as_bytes());
        }
    }
    for row in LONG {
        is_long(&rt, alloc, row);
    }
}
