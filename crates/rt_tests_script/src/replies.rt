// The lines of answers.
ghost use Rattle.std.specs.Prelude.{◌≡◌, ◌<◌};

use crate::checks::same;
use rt_script::{Answer, Reply, answer_bytes, reply_line};
use rt_stamps::Fault;
use rt_stamps::std_ends::{Count, Writer};
use std::alloc::Global;
use std::marker::Brand;
use std::process::Abort;
use std::sync::ledger::{Blank, Ledger};

fn reply_of(rt: &impl Abort, alloc: Global, words: &[&str]) -> Answer {
    let mut copies = Vec::new(alloc);
    for word in words {
        let copy = String::from_str(alloc, word).expect(rt, "memory");
        copies.push(copy).expect(rt, "memory");
    }
    Answer::Replied(Reply { words: copies })
}

fn written<A: Ledger, B: Ledger>(
    alloc: Global,
    answer: &Answer,
    writes: Blank,
    failures: Blank,
) -> Result<Vec<u8>, Fault>
    requires writes { (writes.name ≡ A.name) × (writes.parts ≡ A.parts) × (0 < A.parts) }
    requires failures { (failures.name ≡ B.name) × (failures.parts ≡ B.parts) × (0 < B.parts) }
{
    let mut out = Writer::new(
        Vec::new(alloc),
        Count::<A>::begin(writes),
        Count::<B>::begin(failures),
    );
    reply_line(answer, &mut out)?;
    Ok(out.into_inner())
}

fn written_line(alloc: Global, answer: &Answer) -> Result<Vec<u8>, Fault> {
    written::<Brand, Brand>(alloc, answer, Blank::new(1), Blank::new(1))
}

/// The words of a reply, and its line.
const WRITTEN: &[(&[&str], &str)] = &[
    (&[], "=\n"),
    (&["hello\n"], "= \"hello\\n\"\n"),
    (&["2.0"], "= 2.0\n"),
    (&[""], "= \"\"\n"),
    (&["}", "{", "a b"], "= \"}\" \"{\" \"a b\"\n"),
    (&["\t\r", "\"\\"], "= \"\\t\\r\" \"\\\"\\\\\"\n"),
    (&["a", "", "b"], "= a \"\" b\n"),
    (&["é#$[", "\u{1f600}"], "= é#$[ \u{1f600}\n"),
];

// Stops a test where the line of an answer is another.
fn is_written(rt: &impl Abort, alloc: Global, answer: &Answer, wanted: &str) {
    let line = written_line(alloc, answer).expect(rt, wanted);
    same(rt, line.as_slice(), wanted.as_bytes());
    let line = answer_bytes(alloc, answer).expect(rt, wanted);
    same(rt, line.as_slice(), wanted.as_bytes());
}

#[test]
fn lines_of_answers(rt: HostRuntime) {
    let alloc = rt.alloc();
    for (words, wanted) in WRITTEN {
        is_written(&rt, alloc, &reply_of(&rt, alloc, *words), wanted);
    }
    let refusal = Answer::from(Err(Fault::BadQuoting));
    is_written(&rt, alloc, &refusal, "! 19 BadQuoting\n");
}
