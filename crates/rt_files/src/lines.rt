// The lines of operations, written.
ghost use Rattle.std.specs.Prelude.{◌≡◌, ◌+◌, ◌∷◌, ◌++◌, [], codes, if◌then◌else◌};
ghost use Rattle.std.specs.Fmt.{decimal};
ghost use Rattle.rt_stamps.specs.Written.{WritesText};
ghost use Rattle.rt_stamps.specs.Words.{as_words};
ghost use Rattle.rt_ops.specs.Edits.{body_of};
ghost use Rattle.rt_ops.specs.Operations.{Insert, Delete, Tag, stamp_of};
ghost use Rattle.rt_files.specs.Shown.{kind_word, shown_line, shown_lines, spaced, text_of_stamp, words_of};

use crate::parts::{Part, write_names, write_parts, write_spans};
use rt_ops::{Edit, Op};
use rt_stamps::{Fault, Sink, Span, Stamp, write_all};

/// Writes the line of each operation, in their order. `WriteFault` where a write fails or takes
/// nothing; a front of the lines was then written. It takes no memory and checks no stamp.
pub fn write_lines<W: Sink>(ops: &[Op], out: &mut W) -> Result<(), Fault>
    ensures { WritesText (W.stream out.old) (W.stream out.new) result (shown_lines ops.now) }
{
    for op in ops {
        write_line(op, out)?;
    }
    Ok(())
}

fn write_line<W: Sink>(op: &Op, out: &mut W) -> Result<(), Fault>
    ensures { WritesText (W.stream out.old) (W.stream out.new) result (shown_line op.now) }
{
    write_op(op, out)?;
    write_all(out, b"\n")
}

fn write_op<W: Sink>(op: &Op, out: &mut W) -> Result<(), Fault>
    ensures { WritesText (W.stream out.old) (W.stream out.new) result ((kind_word op.now.body
        ++ spaced (text_of_stamp (stamp_of op.now) ∷ codes "prev" ∷ decimal op.now.prev ∷ [])) ++ spaced (words_of op.now.body)) }
{
    write_head(op, out)?;
    write_edit(op.edit(), out)
}

// Kind, stamp, and the count before it.
fn write_head<W: Sink>(op: &Op, out: &mut W) -> Result<(), Fault>
    ensures { WritesText (W.stream out.old) (W.stream out.new) result (kind_word op.now.body
        ++ spaced (text_of_stamp (stamp_of op.now) ∷ codes "prev" ∷ decimal op.now.prev ∷ [])) }
{
    write_all(out, kind_word(op.edit()))?;
    let parts = [
        Part::Stamp(op.stamp()),
        Part::Letters(b"prev"),
        Part::Number(op.prev()),
    ];
    write_parts(&parts, out)
}

fn kind_word(edit: &Edit) -> &'static [u8]
    ensures { result.now ≡ kind_word (body_of edit.now) }
{
    match edit {
        Edit::Insert {
            after: _,
            tags: _,
            text: _,
        } => b"insert",
        Edit::Delete { spans: _ } => b"delete",
        Edit::Tag {
            on: _,
            name: _,
            spans: _,
        } => b"tag",
    }
}

fn write_edit<W: Sink>(edit: &Edit, out: &mut W) -> Result<(), Fault>
    ensures { WritesText (W.stream out.old) (W.stream out.new) result (spaced (words_of (body_of edit.now))) }
{
    match edit {
        Edit::Insert { after, tags, text } => write_insert(*after, tags, text.characters(), out),
        Edit::Delete { spans } => write_delete(spans, out),
        Edit::Tag { on, name, spans } => write_tag(*on, name, spans, out),
    }
}

fn write_insert<W: Sink>(
    after: Stamp,
    tags: &[String],
    text: &[char],
    out: &mut W,
) -> Result<(), Fault>
    ensures { WritesText (W.stream out.old) (W.stream out.new) result (spaced (words_of (Insert after (as_words tags.now) text.now))) }
{
    let parts = [
        Part::Letters(b"after"),
        Part::Stamp(after),
        Part::Letters(b"text"),
        Part::Text(text),
        Part::Letters(b"tags"),
    ];
    write_parts(&parts, out)?;
    write_names(tags, out)
}

fn write_delete<W: Sink>(spans: &[Span], out: &mut W) -> Result<(), Fault>
    ensures { WritesText (W.stream out.old) (W.stream out.new) result (spaced (words_of (Delete spans.now))) }
{
    write_parts(&[Part::Letters(b"spans")], out)?;
    write_spans(spans, out)
}

fn write_tag<W: Sink>(on: bool, name: &str, spans: &[Span], out: &mut W) -> Result<(), Fault>
    ensures { WritesText (W.stream out.old) (W.stream out.new) result (spaced (words_of (Tag on name.now spans.now))) }
{
    let parts = [
        Part::Letters(switch(on)),
        Part::Name(name),
        Part::Letters(b"spans"),
    ];
    write_parts(&parts, out)?;
    write_spans(spans, out)
}

fn switch(on: bool) -> &'static [u8]
    ensures { result.now ≡ (if on then codes "on" else codes "off") }
{
    if on { b"on" } else { b"off" }
}
