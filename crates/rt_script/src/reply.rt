// The lines of answers, written.
ghost use Rattle.std.specs.Prelude.{◌≡◌, ◌+◌, ◌<◌, ◌∷◌, ◌++◌, [], IfSome, codes, flat_map, string_bytes};
ghost use Rattle.std.specs.Fmt.{decimal};
ghost use Rattle.std.specs.List.{list_any};
ghost use Rattle.rt_files.specs.Shown.{spaced};
ghost use Rattle.rt_words.specs.Writing.{text_of_word};
ghost use Rattle.rt_stamps.specs.Written.{WritesText};
ghost use Rattle.rt_script.specs.Replies.{held_alone, held_by_name, text_of_answer, text_of_received, text_of_refusal, reply_line};

use crate::Answer;
use rt_files::parts::{Part, write_parts};
use rt_peers::Received;
use rt_stamps::{Fault, Sink, write_all};
use rt_words::{has_quoted, write_word};

/// Writes the line of an answer: `=` and the words of a reply, or `!` and a fault's number and
/// name; of a file that was received how many operations were new, how many repeats, and, where some are, how many
/// are held, behind `=`, or behind its fault and the fault's offset. `WriteFault` where a write fails or takes
/// nothing; a front of the line was then written.
pub fn reply_line<W: Sink>(answer: &Answer, out: &mut W) -> Result<(), Fault>
    ensures { WritesText (W.stream out.old) (W.stream out.new) result (reply_line answer.now) }
{
    write_answer(answer, out)?;
    write_all(out, b"\n")
}

fn write_answer<W: Sink>(answer: &Answer, out: &mut W) -> Result<(), Fault>
    ensures { WritesText (W.stream out.old) (W.stream out.new) result (text_of_answer answer.now) }
{
    match answer {
        Answer::Replied(reply) => write_reply(&reply.words, out),
        Answer::Refused(fault) => write_fault(*fault, out),
        Answer::Received(received) => write_received(*received, out),
    }
}

// What became of a file: how many of its operations were new, how many repeats, and how many are held, after why it was not
// all received.
fn write_received<W: Sink>(received: Received, out: &mut W) -> Result<(), Fault>
    ensures { WritesText (W.stream out.old) (W.stream out.new) result
        (text_of_received received.new received.repeats received.held received.fault) }
{
    match received.fault {
        Some((fault, offset)) => write_ended(fault, offset, received, out),
        None => write_taken(received, out),
    }
}

// The numbers of a whole file.
fn write_taken<W: Sink>(received: Received, out: &mut W) -> Result<(), Fault>
    ensures { WritesText (W.stream out.old) (W.stream out.new) result
        (61 ∷ spaced (decimal received.new ∷ decimal received.repeats ∷ held_alone received.held)) }
{
    write_all(out, b"=")?;
    let parts = [
        Part::Number(received.new),
        Part::Number(received.repeats),
        Part::Number(received.held),
    ];
    if received.held == 0 {
        return write_parts(&parts[..2], out);
    }
    write_parts(&parts, out)
}

// How many operations are held, where some are.
fn write_held<W: Sink>(held: u64, out: &mut W) -> Result<(), Fault>
    ensures { WritesText (W.stream out.old) (W.stream out.new) result (spaced (held_by_name held)) }
{
    if held == 0 {
        return Ok(());
    }
    write_parts(&[Part::Letters(b"held"), Part::Number(held)], out)
}

// Why a file was not all received, where, and the numbers.
fn write_ended<W: Sink>(
    fault: Fault,
    offset: u64,
    received: Received,
    out: &mut W,
) -> Result<(), Fault>
    ensures { WritesText (W.stream out.old) (W.stream out.new) result (text_of_refusal fault
        ++ (spaced (codes "at" ∷ decimal offset ∷ codes "new" ∷ decimal received.new ∷ codes "repeat" ∷ decimal received.repeats ∷ [])
        ++ spaced (held_by_name received.held))) }
{
    write_fault(fault, out)?;
    let parts = [
        Part::Letters(b"at"),
        Part::Number(offset),
        Part::Letters(b"new"),
        Part::Number(received.new),
        Part::Letters(b"repeat"),
        Part::Number(received.repeats),
    ];
    write_parts(&parts, out)?;
    write_held(received.held, out)
}

fn write_fault<W: Sink>(fault: Fault, out: &mut W) -> Result<(), Fault>
    ensures { WritesText (W.stream out.old) (W.stream out.new) result (text_of_refusal fault) }
{
    write_all(out, b"! ")?;
    write_all(out, fault.text().as_bytes())
}

fn write_reply<W: Sink>(words: &[String], out: &mut W) -> Result<(), Fault>
    ensures { WritesText (W.stream out.old) (W.stream out.new) result (61 ∷ flat_map (λ w. 32 ∷ text_of_word (string_bytes w)) words.now) }
{
    write_all(out, b"=")?;
    write_words(words, out)
}

// A space before each word.
fn write_words<W: Sink>(words: &[String], out: &mut W) -> Result<(), Fault>
    ensures { WritesText (W.stream out.old) (W.stream out.new) result (flat_map (λ w. 32 ∷ text_of_word (string_bytes w)) words.now) }
{
    for word in words {
        write_spaced(word, out)?;
    }
    Ok(())
}

fn write_spaced<W: Sink>(word: &str, out: &mut W) -> Result<(), Fault>
    ensures { WritesText (W.stream out.old) (W.stream out.new) result (32 ∷ text_of_word word.now) }
{
    write_all(out, b" ")?;
    write_word(word, out)
}

// Puts the line of an answer behind bytes: of a reply whose words are written bare, where there is memory for them.
pub(crate) fn push_bare(answer: &Answer, line: &mut Vec<u8>) -> Option<()>
    ensures { IfSome result (λ _. line.new.items ≡ line.old.items ++ reply_line answer.now) }
{
    match answer {
        Answer::Replied(reply) => push_reply(&reply.words, line),
        _ => None,
    }
}

fn push_reply(words: &[String], line: &mut Vec<u8>) -> Option<()>
    ensures { IfSome result (λ _. line.new.items
        ≡ line.old.items ++ ((61 ∷ flat_map (λ w. 32 ∷ text_of_word (string_bytes w)) words.now) ++ (10 ∷ []))) }
{
    line.push(b'=').ok()?;
    push_words(words, line)?;
    line.push(b'\n').ok()
}

fn push_words(words: &[String], line: &mut Vec<u8>) -> Option<()>
    ensures { IfSome result (λ _. line.new.items ≡ line.old.items ++ flat_map (λ w. 32 ∷ text_of_word (string_bytes w)) words.now) }
{
    for word in words {
        push_word(word, line)?;
    }
    Some(())
}

fn push_word(word: &str, line: &mut Vec<u8>) -> Option<()>
    ensures { IfSome result (λ _. line.new.items ≡ line.old.items ++ (32 ∷ text_of_word word.now)) }
{
    let bytes = word.as_bytes();
    if bytes.is_empty() || has_quoted(bytes) {
        return None;
    }
    line.push(b' ').ok()?;
    line.extend_from_slice(bytes).ok()
}
