// Runs of scripts.
ghost use Rattle.std.specs.Prelude.{◌≡◌, ℕ, ◌+◌, ◌<◌, ◌≤◌, ◌&&◌, ◌∷◌, ◌++◌, [], true, false, List, length, Some, codes, IfOk, IsOkUnless, OnOk, IfSome, MatchOption};
ghost use Rattle.std.specs.List.{list_all, prefix_len};
ghost use Rattle.rt_script.specs.Lines.{split_lines, without_return, is_readable, is_silent, complete_of, rest_of, rest_line, lines_of};
ghost use Rattle.rt_words.specs.Spelling.{is_blank};
ghost use Rattle.rt_stamps.specs.Source.{failures_of};
ghost use Rattle.rt_stamps.specs.Written.{WritesText};
ghost use Rattle.rt_words.specs.declared.spare.TheConstants.{MOST_WORDS};
ghost use Rattle.rt_script.specs.Pieces.{is_inner, kept_bytes, RanLine, RanLines};
ghost use Rattle.rt_script.specs.Replies.{reply_line};
ghost use Rattle.rt_ops.specs.Intake.{StopsUnseen};
ghost use Rattle.rt_script.specs.Run.{LineGives, Ends, StopsInLast, point};

use crate::reply::{push_bare, reply_line};
use crate::{Answer, Commands};
use memchr::memchr;
use rt_stamps::limits::{Bounds, MOST_LINE_BYTES, PIECE_BYTES};
use rt_stamps::std_ends::{Count, Writer};
use rt_stamps::{Fault, Sink, Source, read_piece, write_all};
use rt_words::words::words_in;
use rt_words::{Spare, is_blank};
use std::alloc::Global;
use std::marker::{Brand, Model};
use std::sync::ledger::{Blank, Ledger};
use std::{mem, str};

/// How a run ended.
#[derive(Drop)]
pub struct Ended<C: Drop> {
    /// What ran the lines, as the last line that was run left it.
    pub site: C,
    /// Why the run ended early: `ReadFault`, `WriteFault`, or `NoMemory`, for instance where a line
    /// can't be stored.
    pub fault: Option<Fault>,
}

// The most bytes that are kept of a line. One that has more can't be read, even if its last byte
// is a carriage return.
const MOST_KEPT_BYTES: usize = MOST_LINE_BYTES + 2;

// How many bytes of memory are kept for the lines of answers.
const MOST_ANSWER_BYTES: usize = 4_096;

// Memory that is kept from line to line: of at most `MOST_WORDS` words, and of an answer's line. What is kept shows
// nowhere.
#[derive(Drop)]
struct Memory {
    words: Spare,
    answer: Vec<u8>,
}

impl Model for Memory {
    ghost use Rattle.std.specs.Prelude.{ℕ, ◌≤◌};
    ghost use Rattle.rt_words.specs.declared.spare.TheConstants.{MOST_WORDS};

    ghost Value = { ℕ };

    // how many words' memory is kept
    ghost view = { λ s. s.words };

    ghost invariant = { λ s. s.words ≤ MOST_WORDS };
}

impl Memory {
    // None yet.
    fn new(alloc: Global) -> Memory {
        Memory {
            words: Spare::new(alloc),
            answer: Vec::new(alloc),
        }
    }

    // That of an answer's line, without a byte.
    fn answer(&mut self, alloc: Global) -> Vec<u8>
        ensures { result.items ≡ [] }
    {
        let mut line = mem::replace(&mut self.answer, Vec::new(alloc));
        line.clear();
        line
    }

    // Keeps that of an answer's line.
    fn keep_answer(&mut self, line: Vec<u8>) {
        if line.capacity() <= MOST_ANSWER_BYTES {
            self.answer = line;
        }
    }
}

// A line without a carriage return at its end.
fn without_return(line: &[u8]) -> &[u8]
    ensures { result.now ≡ without_return line.now }
{
    match line.strip_suffix(b"\r") {
        Some(front) => front,
        None => line,
    }
}

// The text of a line, if it isn't too long and is one.
fn readable(line: &[u8]) -> Option<&str>
    ensures { MatchOption result (is_readable line.now ≡ false) (λ text. (is_readable line.now ≡ true) × (text.now ≡ line.now)) }
{
    if line.len() > MOST_LINE_BYTES {
        return None;
    }
    match str::from_utf8(line) {
        Ok(text) => Some(text),
        Err(_) => None,
    }
}

fn are_blank(bytes: &[u8]) -> bool
    ensures { result ≡ list_all is_blank bytes.now }
{
    bytes.iter().all(|byte| is_blank(*byte))
}

// Whether a line is a comment, or nothing but spaces and tabs.
fn is_silent(line: &[u8]) -> bool
    ensures { result ≡ is_silent line.now }
{
    matches!(line, [b'#', ..]) || are_blank(line)
}

// What the words of a line are answered.
fn answer_text<C: Commands>(alloc: Global, spare: &mut Spare, site: &mut C, text: &str) -> Answer
    ensures gives { is_readable text.now ≡ true → LineGives C.gives (C.state site.old) text.now result (C.state site.new) }
    ensures few { spare.new ≤ MOST_WORDS }
{
    let answer = match words_in(alloc, spare, text) {
        Ok(words) => site.run_words(words),
        Err(fault) => Answer::Refused(fault),
    };
    spare.trim(alloc);
    answer
}

/// What a line is answered, given without the newline at its end and a return before that, unless it is a silent one: an
/// empty line, one of spaces and tabs alone, or one that begins with `#`; then the state stays. `spare` is memory of words
/// that lines may share. A line that is too long or no UTF-8 is refused with `BadQuoting`.
pub fn answer_line<C: Commands>(
    alloc: Global,
    spare: &mut Spare,
    site: &mut C,
    line: &[u8],
) -> Option<Answer>
    requires { spare.old ≤ MOST_WORDS }
    ensures answered { IfSome result (λ answer. (is_readable line.now && is_silent line.now ≡ false)
        × LineGives C.gives (C.state site.old) line.now answer (C.state site.new)) }
    ensures silent { result ≡ None → (is_readable line.now && is_silent line.now ≡ true) × (C.state site.new ≡ C.state site.old) }
    ensures few { spare.new ≤ MOST_WORDS }
{
    let text = match readable(line) {
        Some(text) => text,
        None => return Some(Answer::Refused(Fault::BadQuoting)),
    };
    if is_silent(line) {
        None
    } else {
        Some(answer_text(alloc, spare, site, text))
    }
}

// The line of an answer, in memory that has no byte yet.
fn rendered<A: Ledger, B: Ledger>(
    mut line: Vec<u8>,
    answer: &Answer,
    writes: Blank,
    failures: Blank,
) -> Option<Vec<u8>>
    requires empty { line.items ≡ [] }
    requires writes { (writes.name ≡ A.name) × (writes.parts ≡ A.parts) × (0 < A.parts) }
    requires failures { (failures.name ≡ B.name) × (failures.parts ≡ B.parts) × (0 < B.parts) }
    ensures { IfSome result (λ line. line.items ≡ reply_line answer.now) }
{
    if push_bare(answer, &mut line).is_some() {
        return Some(line);
    }
    line.clear();
    let mut line = Writer::new(line, Count::<A>::begin(writes), Count::<B>::begin(failures));
    match reply_line(answer, &mut line) {
        Ok(()) => Some(line.into_inner()),
        Err(_) => None,
    }
}

/// The bytes of an answer's line, with the newline at its end, in memory of their own. Want of memory.
pub fn answer_bytes(alloc: Global, answer: &Answer) -> Result<Vec<u8>, Fault>
    ensures ok { IfOk result (λ line. line.items ≡ reply_line answer.now) }
    ensures err { IsOkUnless result Fault.NoMemory }
{
    match rendered::<Brand, Brand>(Vec::new(alloc), answer, Blank::new(1), Blank::new(1)) {
        Some(line) => Ok(line),
        None => Err(Fault::NoMemory),
    }
}

// Whether an answer is a reply without words, whose line is `=`.
#[inline(always)]
fn has_no_words(answer: &Answer) -> bool
    ensures { result ≡ true → reply_line answer.now ≡ codes "=\n" }
{
    match answer {
        Answer::Replied(reply) => reply.words.is_empty(),
        _ => false,
    }
}

// Writes the line of an answer, in one write where there is memory for it.
fn write_answer<W: Sink>(
    alloc: Global,
    memory: &mut Memory,
    answer: &Answer,
    out: &mut W,
) -> Result<(), Fault>
    ensures { WritesText (W.stream out.old) (W.stream out.new) result (reply_line answer.now) }
{
    if has_no_words(answer) {
        return write_all(out, b"=\n");
    }
    let empty = memory.answer(alloc);
    match rendered::<Brand, Brand>(empty, answer, Blank::new(1), Blank::new(1)) {
        Some(line) => {
            let written = write_all(out, &line);
            memory.keep_answer(line);
            written
        }
        None => reply_line(answer, out),
    }
}

// Runs a line, and writes the line of its answer.
fn run_line<C: Commands, W: Sink>(
    alloc: Global,
    memory: &mut Memory,
    site: &mut C,
    line: &[u8],
    out: &mut W,
) -> Result<(), Fault>
    ensures ran { RanLine C.gives (point (C.state site.old) (W.stream out.old)) (point (C.state site.new) (W.stream out.new)) line.now result }
    ensures fault { IsOkUnless result Fault.WriteFault }
    ensures failures { (W.stream out.new).failures ≡ (W.stream out.old).failures + failures_of result }
{
    match answer_line(alloc, &mut memory.words, site, line) {
        Some(answer) => write_answer(alloc, memory, &answer, out),
        None => Ok(()),
    }
}

// How many bytes of some come before the first newline.
fn line_len(bytes: &[u8]) -> usize
    ensures { result ≡ prefix_len is_inner bytes.now }
{
    match memchr(b'\n', bytes) {
        Some(len) => len,
        None => bytes.len(),
    }
}

// Keeps bytes of a line that isn't complete, as far as the line isn't too long already.
fn keep(pending: &mut Vec<u8>, bytes: &[u8]) -> Result<(), Fault>
    requires { length pending.old.items ≤ MOST_KEPT_BYTES }
    ensures kept { OnOk result (pending.new.items ≡ kept_bytes (pending.old.items ++ bytes.now)) }
    ensures fault { IsOkUnless result Fault.NoMemory }
{
    let room = MOST_KEPT_BYTES - pending.len();
    pending.extend_from_slice(&bytes[..bytes.len().min(room)])?;
    Ok(())
}

// Runs the line that some bytes end. What is pending was kept of its front, if it has one before them.
fn end_line<C: Commands, W: Sink>(
    alloc: Global,
    memory: &mut Memory,
    site: &mut C,
    pending: &mut Vec<u8>,
    bytes: &[u8],
    out: &mut W,
) -> Result<(), Fault>
    requires { length pending.old.items ≤ MOST_KEPT_BYTES }
    ensures ran { (front : List ℕ) → pending.old.items ≡ kept_bytes front → let line = without_return (front ++ bytes.now) in
        RanLines C.gives (point (C.state site.old) (W.stream out.old)) (point (C.state site.new) (W.stream out.new))
        (line ∷ []) (line ∷ []) result }
    ensures rest { OnOk result (pending.new.items ≡ []) }
{
    if pending.is_empty() {
        return run_line(alloc, memory, site, without_return(bytes), out);
    }
    keep(pending, bytes)?;
    run_line(alloc, memory, site, without_return(pending), out)?;
    pending.clear();
    Ok(())
}

// Runs the lines that a piece of the script completes. What is pending was kept of the line that
// the piece goes on with.
fn feed<C: Commands, W: Sink>(
    alloc: Global,
    memory: &mut Memory,
    site: &mut C,
    pending: &mut Vec<u8>,
    piece: &[u8],
    out: &mut W,
) -> Result<(), Fault>
    requires { length pending.old.items ≤ MOST_KEPT_BYTES }
    ensures ran { (rest : List ℕ) → split_lines rest ≡ ([], rest) → pending.old.items ≡ kept_bytes rest
        → RanLines C.gives (point (C.state site.old) (W.stream out.old)) (point (C.state site.new) (W.stream out.new))
        (complete_of (rest ++ piece.now)) (lines_of (rest ++ piece.now)) result }
    ensures rest { (rest : List ℕ) → split_lines rest ≡ ([], rest) → pending.old.items ≡ kept_bytes rest
        → OnOk result (pending.new.items ≡ kept_bytes (rest_of (rest ++ piece.now))) }
{
    let mut start = 0;
    while start < piece.len() {
        let end = start + line_len(&piece[start..]);
        if end == piece.len() {
            return keep(pending, &piece[start..end]);
        }
        end_line(alloc, memory, site, pending, &piece[start..end], out)?;
        start = end + 1;
    }
    Ok(())
}

// Runs what follows the last newline, if there is anything.
fn finish<C: Commands, W: Sink>(
    alloc: Global,
    memory: &mut Memory,
    site: &mut C,
    pending: &[u8],
    out: &mut W,
) -> Result<(), Fault>
    ensures ran { (rest : List ℕ) → pending.now ≡ kept_bytes rest
        → RanLines C.gives (point (C.state site.old) (W.stream out.old)) (point (C.state site.new) (W.stream out.new))
        (rest_line rest) (rest_line rest) result }
    ensures fault { IsOkUnless result Fault.WriteFault }
{
    if pending.is_empty() {
        return Ok(());
    }
    run_line(alloc, memory, site, pending, out)
}

/// Runs a script, and writes the line of each answer.
///
/// A line ends at a newline or at the end of the script, and a carriage return just before its
/// newline isn't part of it. An empty line, one of spaces and tabs alone and one that begins with
/// `#` is answered nothing. One of more than `MOST_LINE_BYTES` bytes, one that isn't UTF-8 and one
/// that spells no words is answered `BadQuoting`, and not run. Where the words of a line find no
/// memory, it is answered `NoMemory`, and not run.
///
/// After each read all lines that are then complete are run, each answer in one write where there
/// is memory for it. At a failed read, at one byte past the bound of bytes, and where no read is left before the end is found, the
/// run ends with `ReadFault`, and what follows the last newline isn't run. After a failed write nothing more is run or
/// written, and the run ends with `WriteFault`. It may end with `NoMemory`, where a line can't be stored; then all lines
/// were run that were complete before the last read, which gave at most `PIECE_BYTES` bytes, and perhaps some of those.
pub fn run_lines<C: Commands + Drop, R: Source, W: Sink>(
    alloc: Global,
    mut site: C,
    script: &mut R,
    out: &mut W,
    bounds: Bounds,
) -> Ended<C>
    ensures ends { Ends C.gives bounds (point (C.state site) (W.stream out.old)) (point (C.state result.site) (W.stream out.new))
        (R.stream script.old) (R.stream script.new) result.fault }
    ensures last { result.fault ≡ Some Fault.NoMemory → StopsInLast C.gives R.stream (point (C.state site) (W.stream out.old))
        (point (C.state result.site) (W.stream out.new)) script.old script.new }
    ensures unseen { IfSome result.fault (StopsUnseen R.stream bounds script.old script.new) }
{
    let mut memory = Memory::new(alloc);
    let mut pending = Vec::new(alloc);
    let mut buf = [0u8; PIECE_BYTES];
    let mut room = bounds.bytes;
    for _ in 0..bounds.reads {
        let n = match read_piece(script, &mut buf, room) {
            Ok(n) => n,
            Err(_) => return stopped(site, Fault::ReadFault),
        };
        if n == 0 {
            let fault = finish(alloc, &mut memory, &mut site, &pending, out).err();
            return Ended { site, fault };
        }
        if room == 0 {
            return stopped(site, Fault::ReadFault);
        }
        match feed(alloc, &mut memory, &mut site, &mut pending, &buf[..n], out) {
            Ok(()) => {}
            Err(fault) => return stopped(site, fault),
        }
        room -= n;
    }
    stopped(site, Fault::ReadFault)
}

fn stopped<C: Drop>(site: C, fault: Fault) -> Ended<C>
    ensures site { result.site ≡ site }
    ensures fault { result.fault ≡ Some fault }
{
    Ended {
        site,
        fault: Some(fault),
    }
}
